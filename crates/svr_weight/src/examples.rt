// What calls weigh that were worked out by hand: the function has an empty body, and its contract is the statement.

ghost use Rattle.std.specs.Prelude.{◌≡◌, true};
ghost use Rattle.std.specs.List.{list_all};
ghost use Rattle.svr_weight.specs.Examples as example;

/// Weights of items of each form, in each phase.
pub fn weights_are_as_worked_out()
    ensures { list_all example.is_so example.cases ≡ true }
{}
