// What the first refusal of a script is.

ghost use Rattle.svr_elab.specs.Gathered.{KeepsTheFirst, TellsTheFirst};

/// The refusal that is kept is the first of all refusals that the definition gathers, and all else is the same.
pub fn keeps_the_first()
    ensures same { KeepsTheFirst }
    ensures first { TellsTheFirst }
{}
