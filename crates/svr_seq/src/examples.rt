// What the definitions say of lines and choices that were worked out by hand.

ghost use Rattle.std.specs.Prelude.{◌≡◌, true};
ghost use Rattle.std.specs.List.{list_all};
ghost use Rattle.svr_seq.specs.Examples as example;

/// Choices by weight.
pub fn choices_are_as_worked_out()
    ensures { list_all example.is_so example.choices ≡ true }
{}

/// Lines under the words of a seed, with their units.
pub fn lines_are_as_worked_out()
    ensures { list_all example.is_so example.lines ≡ true }
{}
