// What the definitions say of declarations that were worked out by hand: each function has an empty body, and its contract is the statement.

ghost use Rattle.std.specs.Prelude.{◌≡◌, true};
ghost use Rattle.std.specs.List.{list_all};
ghost use Rattle.svr_elab_type.specs.Examples as example;

/// Vectors of 1 to 64 bits, whose bounds are bit numbers in descending order.
pub fn vectors_are_as_worked_out()
    ensures { list_all example.is_so example.vectors ≡ true }
{}

/// The widths and signs of the integer atoms, and a name for each type.
pub fn atoms_are_as_worked_out()
    ensures { list_all example.is_so example.atoms ≡ true }
{}

/// Members count on from the one before, inside of their base, and no two are equal.
pub fn enums_are_as_worked_out()
    ensures { list_all example.is_so example.enums ≡ true }
{}
