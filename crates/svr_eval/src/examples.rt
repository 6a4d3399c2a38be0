// What the definitions say of expressions and items that were worked out by hand: each function has an empty body, and its contract is the statement.

ghost use Rattle.std.specs.Prelude.{◌≡◌, true, false};
ghost use Rattle.std.specs.List.{list_all};
ghost use Rattle.svr_eval.specs.Examples as example;
ghost use Rattle.svr_eval.specs.Typed.{IsTyped};

/// Sums, products and quotients at the size and sign of their context.
pub fn arithmetic_is_as_worked_out()
    ensures { list_all example.is_so example.arithmetic ≡ true }
{}

/// Bitwise, reduction and logical operators.
pub fn bitwise_is_as_worked_out()
    ensures { list_all example.is_so example.bitwise ≡ true }
{}

/// Shifts: the amount is computed alone, and past the width zeros or copies of the sign bit are left.
pub fn shifts_are_as_worked_out()
    ensures { list_all example.is_so example.shifts ≡ true }
{}

/// Comparisons at the greater size, signed where both operands are.
pub fn comparisons_are_as_worked_out()
    ensures { list_all example.is_so example.comparisons ≡ true }
{}

/// Choices, literals of every bit, concatenations and replications.
pub fn wholes_are_as_worked_out()
    ensures { list_all example.is_so example.wholes ≡ true }
{}

/// Selects by declared ranges, elements, sizes and loop variables.
pub fn selects_are_as_worked_out()
    ensures { list_all example.is_so example.selects ≡ true }
{}

/// Elements by two indexes, 0 outside one's own dimension, also where the place is one of the array's.
pub fn cells_are_as_worked_out()
    ensures { list_all example.is_so example.cells ≡ true }
{}

/// Array reductions at the size of their body.
pub fn reductions_are_as_worked_out()
    ensures { list_all example.is_so example.reductions ≡ true }
{}

/// The count of a replication is read by its sign: a negative one is none.
pub fn counts_are_as_worked_out()
    ensures negative { IsTyped (example.counted_by true) → ⊥ }
    ensures unsigned { IsTyped (example.counted_by false) }
{}

/// Set membership by pairs of sizes and signs.
#[tactic(auto, unfolding(crate::specs::Value::has_element))]
pub fn memberships_are_as_worked_out()
    ensures { list_all example.is_so example.memberships ≡ true }
{}

/// The truth of items.
pub fn items_are_as_worked_out()
    ensures { list_all example.item_is_so example.items ≡ true }
{}
