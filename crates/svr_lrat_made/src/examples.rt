// Two logs, and the lines that they make.

ghost use Rattle.std.specs.Prelude.{◌≡◌, [], ◌∷◌};
ghost use Rattle.svr_lrat_made.specs.Examples as example;
ghost use Rattle.svr_lrat_made.specs.Made.{all_lines};

/// Two steps, the last of which derives the empty clause.
pub fn two_variables()
    ensures { all_lines example.clauses [] example.steps 5 ≡ example.lines }
{}

/// A goal that what is assumed denies, and a step that it does not depend on.
pub fn with_assumption()
    ensures { all_lines example.open_clauses (example.neg 2 ∷ []) example.open_steps 5 ≡ example.open_lines }
{}
