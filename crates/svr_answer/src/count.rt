// The status of a run by how many of its calls answered what.
ghost use Rattle.svr_answer.specs.Parts.{HasStatus};

use svr_run::Counts;
use svr_status::Status;

/// The status of a run that came to its end with so many answers.
pub fn status_of(counts: Counts) -> Status
    ensures { HasStatus counts result }
{
    if counts.given_up > 0 {
        Status::SomeGivenUp
    } else if counts.zeros > 0 {
        Status::SomeZero
    } else {
        Status::AllOne
    }
}
