// Laws of the definitions that layers above cite: each function has an empty body, and its contract is the law.

ghost use Rattle.std.specs.Prelude.{◌≡◌, ℕ, ◌&&◌, List, [], map};
ghost use Rattle.svr_eval.specs.Reading.{Reading};
ghost use Rattle.svr_eval.specs.Value.{alone, is_set};
ghost use Rattle.svr_eval.specs.Holds.{all_hold};
ghost use Rattle.svr_frame.specs.declared.part.Part.TheVariants.{All};
ghost use Rattle.svr_frame.specs.Frame.{frame_term, state_at};
ghost use Rattle.svr_frame.specs.Occurrences.{is_true, all_true, closed_of};
ghost use Rattle.svr_frame.specs.Phases.{domain_items, hard_of, live_of};
ghost use Rattle.svr_frame.specs.Satisfaction.{IsAssignment};
ghost use Rattle.svr_frame.specs.Sound.{IsSound, SizesFit};

use svr_frame::{Frame, Part};

/// In the last phase the hard occurrences hold exactly where the domains and all active items hold.
pub fn hard_occurrences_are_the_items(frame: &Frame, sizes: &[u32])
    requires sound { IsSound (frame_term frame.now) }
    requires fit { SizesFit (frame_term frame.now) sizes.now }
    ensures items { (fixed : List (ℕ × ℕ)) (a : Reading) → IsAssignment (frame_term frame.now) All sizes.now fixed a → all_true a (hard_of (frame_term frame.now) All sizes.now) ≡ (all_true a (domain_items (frame_term frame.now) All sizes.now) && all_hold a [] (frame_term frame.now).items) }
{}

/// In each phase the closed expressions of the hard and of the live soft occurrences are not 0 exactly where the occurrences hold.
pub fn closed_expressions_are_the_occurrences(frame: &Frame, part: Part, sizes: &[u32])
    requires sound { IsSound (frame_term frame.now) }
    requires fit { SizesFit (frame_term frame.now) sizes.now }
    ensures hard { (fixed : List (ℕ × ℕ)) (a : Reading) → IsAssignment (frame_term frame.now) part sizes.now fixed a → map (λ o. is_set (alone a [] (closed_of (state_at (frame_term frame.now) sizes.now) o))) (hard_of (frame_term frame.now) part sizes.now) ≡ map (is_true a) (hard_of (frame_term frame.now) part sizes.now) }
    ensures soft { (fixed : List (ℕ × ℕ)) (a : Reading) → IsAssignment (frame_term frame.now) part sizes.now fixed a → map (λ o. is_set (alone a [] (closed_of (state_at (frame_term frame.now) sizes.now) o))) (live_of (frame_term frame.now) part sizes.now) ≡ map (is_true a) (live_of (frame_term frame.now) part sizes.now) }
{}
