// What the first refusals of the passes over variables and statements are.

ghost use Rattle.svr_elab_unit.specs.Gathered.{KeepsTheFirstOfStmts, KeepsTheFirstOfVars};

/// The refusal that each pass keeps is the first of all refusals that its definition gathers, and all else is the same.
pub fn keeps_the_first()
    ensures vars { KeepsTheFirstOfVars }
    ensures stmts { KeepsTheFirstOfStmts }
{}
