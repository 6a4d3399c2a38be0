// Laws of the definitions that layers above cite: each function has an empty body, and its contract is the law.

ghost use Rattle.std.specs.Prelude.{ℕ, List};
ghost use Rattle.svr_eval.specs.Reading.{Reading};
ghost use Rattle.svr_frame.specs.declared.part.Part.TheVariants.{All};
ghost use Rattle.svr_frame.specs.Frame.{frame_term, state_at};
ghost use Rattle.svr_frame.specs.Phases.{hard_of, live_of};
ghost use Rattle.svr_frame.specs.Satisfaction.{IsAssignment};
ghost use Rattle.svr_frame.specs.Sound.{IsSound, SizesFit};
ghost use Rattle.svr_ready.specs.Ready.{AreReady};

use svr_frame::Frame;

/// In the last phase the closed expressions of the hard and of the live soft occurrences are ready, under each assignment of the phase.
pub fn closed_items_are_ready(frame: &Frame, sizes: &[u32])
    requires sound { IsSound (frame_term frame.now) }
    requires fit { SizesFit (frame_term frame.now) sizes.now }
    ensures hard { (fixed : List (ℕ × ℕ)) (a : Reading) → IsAssignment (frame_term frame.now) All sizes.now fixed a → AreReady (frame_term frame.now) a (state_at (frame_term frame.now) sizes.now) (hard_of (frame_term frame.now) All sizes.now) }
    ensures soft { (fixed : List (ℕ × ℕ)) (a : Reading) → IsAssignment (frame_term frame.now) All sizes.now fixed a → AreReady (frame_term frame.now) a (state_at (frame_term frame.now) sizes.now) (live_of (frame_term frame.now) All sizes.now) }
{}
