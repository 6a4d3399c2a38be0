// What the first refusal of the walk over types and classes is.

ghost use Rattle.svr_elab_decl_laws.specs.Gathered.{KeepsTheFirst, TellsTheFirst};

/// The refusal that the walk over types and classes keeps is the first of all refusals that the definition gathers, and all else is the same.
pub fn keeps_the_first()
    ensures { KeepsTheFirst }
{}

/// The refusal that the walk keeps is the first of all by its place, at one place by its number; where it keeps none there is none.
pub fn tells_the_first()
    ensures { TellsTheFirst }
{}
