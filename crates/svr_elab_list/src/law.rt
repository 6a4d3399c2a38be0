// What the first refusal of the walk over statements is.

ghost use Rattle.svr_elab_list.specs.Gathered.{KeepsTheFirst, TellsTheFirst};

/// The refusal that the walk keeps is the first of all refusals that the definition gathers, and all else is the same.
pub fn keeps_the_first()
    ensures same { KeepsTheFirst }
    ensures first { TellsTheFirst }
{}
