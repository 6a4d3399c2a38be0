// What the definitions say of calls that were worked out by hand: each function has an empty body, and its contract is the statement.

ghost use Rattle.std.specs.Prelude.{◌≡◌, true};
ghost use Rattle.std.specs.List.{list_all};
ghost use Rattle.svr_frame.specs.Examples as example;

/// Unknowns, hard items, live soft items and weights.
#[tactic(auto, unfolding(svr_eval::specs::Value::has_element))]
pub fn calls_are_as_worked_out()
    ensures { list_all example.is_so example.worked ≡ true }
{}
