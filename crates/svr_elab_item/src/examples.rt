// What the definitions say of items that were worked out by hand: each function has an empty body, and its contract is the statement.

ghost use Rattle.std.specs.Prelude.{◌≡◌, true};
ghost use Rattle.std.specs.List.{list_all};
ghost use Rattle.svr_elab_item.specs.Examples as example;

/// Soft items by what they and the guards around them read.
pub fn softs_are_as_worked_out()
    ensures { list_all example.is_so example.softs ≡ true }
{}

/// Distributions by their left side, weights and members.
pub fn distributions_are_as_worked_out()
    ensures { list_all example.is_so example.distributions ≡ true }
{}

/// Members of `unique` by size, sign and form.
pub fn uniques_are_as_worked_out()
    ensures { list_all example.is_so example.uniques ≡ true }
{}

/// Loops by their array and names.
pub fn loops_are_as_worked_out()
    ensures refused { list_all example.is_so example.loops ≡ true }
    ensures typed { example.LoopIsTyped }
{}

/// `disable soft` by its target, its indexes and the guards around it.
pub fn disables_are_as_worked_out()
    ensures { list_all example.is_so example.disables ≡ true }
{}

/// `solve` by what it names.
pub fn solves_are_as_worked_out()
    ensures { list_all example.is_so example.solves ≡ true }
{}

/// The first of several refusals.
pub fn firsts_are_as_worked_out()
    ensures { list_all example.is_so example.firsts ≡ true }
{}
