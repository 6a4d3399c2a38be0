// What is accepted stands in a design.

ghost use Rattle.svr_elab_stand_laws.specs.Stand.{AcceptedStands};

/// In a constraint, an expression in which nothing is refused has a tree that stands in the constraints of a design which has at its numbers what is declared.
pub fn what_is_accepted_stands()
    ensures { AcceptedStands }
{}
