// What the definitions say of variables and statements that were worked out by hand: each function has an empty body, and its contract is the statement.

ghost use Rattle.std.specs.Prelude.{◌≡◌, true};
ghost use Rattle.std.specs.List.{list_all};
ghost use Rattle.svr_elab_unit.specs.Examples as example;

/// Variables by their names and types.
pub fn names_are_as_worked_out()
    ensures { list_all example.is_so example.names ≡ true }
{}

/// Values of variables.
pub fn values_are_as_worked_out()
    ensures { list_all example.is_so example.values ≡ true }
{}

/// How many statements run.
pub fn limits_are_as_worked_out()
    ensures { list_all example.is_so example.limits ≡ true }
{}

/// What a call lists.
pub fn lists_are_as_worked_out()
    ensures { example.ListsItsProperty }
{}
