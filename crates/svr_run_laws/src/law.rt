// A lawful design can be run, and what is sampled of its runs.

ghost use Rattle.svr_run_laws.specs.Runs.{LawfulCanRun, LawfulIsSampled};

/// A lawful design can be run with arrays of at most 2,048 elements: each object that a statement uses is made before it, values fit what holds them, items of a call fit the class of its object, and expressions can be computed (IEEE 1800-2017, 8.7, 10.7, 18.5 and 18.6).
pub fn a_lawful_design_can_run()
    ensures { LawfulCanRun }
{}

/// Each number that is sampled of such a run is one of 64 bits, and there are no more samples than a script may run statements.
pub fn a_lawful_design_is_sampled()
    ensures { LawfulIsSampled }
{}
