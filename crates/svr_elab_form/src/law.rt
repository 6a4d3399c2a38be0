// What the first refusal of the walk is.

ghost use Rattle.svr_elab_form.specs.Gathered.{KeepsTheFirst};

/// The refusal that the walk keeps is the first of all refusals that the definition gathers, and all else is the same.
pub fn keeps_the_first()
    ensures { KeepsTheFirst }
{}
