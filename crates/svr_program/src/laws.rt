// What follows of what the top call promises.

ghost use Rattle.svr_program.specs.Complete.{RunsAreComplete, SmallRunsAreAnswered, ChecksAreComplete, LinesAreComplete, CoverageIsComplete, SmallCoverageIsAnswered};

/// A run is complete: with words that ask for one, a script that nothing refuses, no fault and no limit, each call is answered or given up, or memory was wanting.
pub fn runs_are_complete()
    ensures { RunsAreComplete }
{}

/// A check is complete: with words that ask for one, a text that is a file within the limits, and no fault, it is accepted or rejected, or memory was wanting.
pub fn checks_are_complete()
    ensures { ChecksAreComplete }
{}

/// Lines are complete: with words that ask for some, a text that is accepted, and no fault, all are written, or those up to one that needs too many units, or memory was wanting.
pub fn lines_are_complete()
    ensures { LinesAreComplete }
{}

/// Coverage is complete: with words that ask for it, a text that nothing refuses, no fault and no limit, each call is answered or given up and the report is written, or memory was wanting.
pub fn coverage_is_complete()
    ensures { CoverageIsComplete }
{}

/// A run of small questions is answered whole: where besides each question that a call comes to is over n bits with 2^(n+1) at most the budget, each call answers 1 or 0, or memory was wanting.
pub fn small_runs_are_answered()
    ensures { SmallRunsAreAnswered }
{}

/// Coverage of small questions is answered whole: where besides each question that a call comes to is over n bits with 2^(n+1) at most the budget, each call answers 1 or 0 and the report is written, or memory was wanting.
pub fn small_coverage_is_answered()
    ensures { SmallCoverageIsAnswered }
{}
