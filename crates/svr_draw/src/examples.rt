// What the definitions say of words and preferred values that were worked out by hand.

ghost use Rattle.std.specs.Prelude.{◌≡◌, true};
ghost use Rattle.std.specs.List.{list_all};
ghost use Rattle.svr_draw.specs.Examples as example;

/// The first words of a call, those that PCG's reference implementation gives.
pub fn words_are_as_told()
    ensures { example.first_words ≡ example.told_words }
{}

/// Values by weight, and where none is picked by weight.
pub fn picks_are_as_worked_out()
    ensures { list_all example.is_so example.picks ≡ true }
{}

/// Values of a call, in all its phases.
pub fn preferred_values_are_as_worked_out()
    ensures { list_all example.is_so example.preferences ≡ true }
{}
