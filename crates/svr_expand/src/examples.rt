// The orders of occurrences in calls that were worked out by hand: the function has an empty body, and its contract is the statement.

ghost use Rattle.std.specs.Prelude.{◌≡◌, true};
ghost use Rattle.std.specs.List.{list_all};
ghost use Rattle.svr_frame.specs.Examples.{is_so};
ghost use Rattle.svr_expand.specs.Examples as example;

/// The hard ones in the order of the text and then of the index, the pairs of `unique`, the ranks of soft ones, and what a `disable soft` removes.
#[tactic(auto, unfolding(svr_eval::specs::Value::has_element))]
pub fn orders_are_as_worked_out()
    ensures { list_all is_so example.orders ≡ true }
{}
