// What the definitions say of statements that were worked out by hand: each function has an empty body, and its contract is the statement.

ghost use Rattle.std.specs.Prelude.{◌≡◌, true};
ghost use Rattle.std.specs.List.{list_all};
ghost use Rattle.svr_elab_list.specs.Examples as example;

/// Left sides of values.
pub fn lefts_are_as_worked_out()
    ensures { list_all example.is_so example.lefts ≡ true }
{}

/// Right sides.
pub fn rights_are_as_worked_out()
    ensures { list_all example.is_so example.rights ≡ true }
{}

/// Objects and sizes of arrays.
pub fn news_are_as_worked_out()
    ensures { list_all example.is_so example.news ≡ true }
{}

/// Assignment patterns by their array and values.
pub fn patterns_are_as_worked_out()
    ensures { list_all example.is_so example.patterns ≡ true }
{}

/// Calls by their object, list, in-line set and answer.
pub fn calls_are_as_worked_out()
    ensures { list_all example.is_so example.calls ≡ true }
{}

/// Modes by what they name.
pub fn modes_are_as_worked_out()
    ensures { list_all example.is_so example.modes ≡ true }
{}

/// Lists and repetition by the objects that are made.
pub fn lists_are_as_worked_out()
    ensures { list_all example.is_so example.lists ≡ true }
{}

/// What statements become.
pub fn statements_become_as_worked_out()
    ensures scalar { example.ScalarIsSet }
    ensures element { example.ElementIsSet }
    ensures cell { example.CellIsSet }
    ensures call { example.ListIsCalled }
    ensures mode { example.BlockIsOff }
    ensures makes { example.NewMakes }
{}

/// How many statements run.
pub fn counts_are_as_worked_out()
    ensures repeated { example.RepeatedRun }
    ensures many { example.ManyRun }
    ensures none { example.NoneRuns }
{}
