// A run that is watched.

ghost use Rattle.std.specs.Prelude.{◌≡◌, ◌≤◌, ◌+◌};
ghost use Rattle.svr_run.specs.Watching.{sampled};

use crate::progress::Progress;
use sqlite_items::Items;
use svr_call::Outcome;
use svr_world::Watch;

/// How far a run has come, and who watches it.
#[derive(Drop)]
pub(crate) struct Watched<W> {
    pub(crate) progress: Progress,
    pub(crate) watch: W,
}

/// The watch takes a sample where a call answered 1: the class of the object, and its numbers behind the call.
pub(crate) fn sample<W: Watch>(watch: &mut W, class: u32, values: &[Items<u64>], outcome: &Outcome)
    requires { 1 ≤ W.left watch.old }
    ensures content { W.content watch.new ≡ sampled W.step outcome.now class values.now (W.content watch.old) }
    ensures left { W.left watch.old ≤ W.left watch.new + 1 }
{
    match outcome {
        Outcome::One { .. } => watch.after_one(class, values),
        Outcome::Zero { .. } => {}
        Outcome::GaveUp { .. } => {}
        Outcome::TooHeavy { .. } => {}
        Outcome::SizeCap { .. } => {}
    }
}

/// A watch that keeps nothing, and how many samples it can still take.
#[derive(Drop)]
pub(crate) struct NoWatch {
    pub(crate) left: u64,
}

impl Watch for NoWatch {
    ghost use Rattle.std.specs.Prelude.{⊤};

    ghost Content = { ⊤ };

    ghost content = { λ w. tt };

    ghost step = { λ c class values. c };

    ghost left = { λ w. w.left };

    fn after_one(&mut self, _class: u32, _values: &[Items<u64>]) {
        self.left -= 1;
    }
}
