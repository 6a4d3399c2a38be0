// Laws of the definitions that layers above cite: each function has an empty body, and its contract is the law.

ghost use Rattle.svr_limits.specs.declared.limit.TheConstants.{ELEMENT_LIMIT};
ghost use Rattle.std.specs.Prelude.{◌≡◌, ◌≤◌, ℕ, true, List, [], map, length, slice_index_or};
ghost use Rattle.std.specs.List.{list_all};
ghost use Rattle.svr_frame.specs.Frame.{frame_term};
ghost use Rattle.svr_frame.specs.Occurrences.{Occurrence};
ghost use Rattle.svr_frame.specs.Phases.{hard_of};
ghost use Rattle.svr_frame.specs.Satisfaction.{Sat};
ghost use Rattle.svr_frame.specs.Sound.{IsSound, SizesFit};
ghost use Rattle.svr_encoded.specs.declared.encoded.Encoded.{Encoded};
ghost use Rattle.svr_phase.specs.declared.choice.Choice.{Choice};
ghost use Rattle.svr_phase.specs.declared.proof.Proof.{Proof};
ghost use Rattle.svr_phase.specs.Chosen.{AreCyclicValues};
ghost use Rattle.svr_phase.specs.Cyclic.{Cycles, fixed_of, tried_for, IsFirst, Fits, AreChosen, IsFresh};
ghost use Rattle.svr_phase.specs.Ends.{Call, PassesCyclic, HasSizes};
ghost use Rattle.svr_phase.specs.Examples as example;
ghost use Rattle.svr_phase.specs.Proof.{no_lits, SizesAreWhole, Stands};

use svr_frame::{Frame, Part};

/// A proof that stands shows that no assignment with the fixed values meets the hard items of its phase.
pub fn a_proof_refutes_all_assignments(frame: &Frame, part: Part, sizes: &[u32])
    requires sound { IsSound (frame_term frame.now) }
    requires fit { SizesFit (frame_term frame.now) sizes.now }
    ensures none { (size_bits : ℕ) → SizesAreWhole part size_bits → (fixed : List (ℕ × ℕ)) (soft : List Occurrence) (encodings : List Encoded) (p : Proof) → Stands (frame_term frame.now) part sizes.now size_bits fixed (hard_of (frame_term frame.now) part sizes.now) soft no_lits encodings p → Sat (frame_term frame.now) part sizes.now fixed (hard_of (frame_term frame.now) part sizes.now) → ⊥ }
{}

/// A value that is chosen for a cyclic property is not among the used ones that it joins, so that none repeats in its cycle (IEEE 1800-2017, 18.4.2). There is one choice for each property, in their order.
pub fn chosen_values_are_not_used(frame: &Frame)
    ensures fresh { (c : Cycles) (before : List Choice) (p : ℕ) (x : Choice) → IsFirst (Fits (frame_term frame.now) before) (tried_for (frame_term frame.now) c (length before) p) x → IsFresh (slice_index_or c.used p []) x }
    ensures props { (c : Cycles) (before : List Choice) (ps : List ℕ) (xs : List Choice) → AreChosen (frame_term frame.now) c before ps xs → map (λ (x : Choice). x.prop) xs ≡ ps }
{}

/// The values that a call chose for its cyclic properties are one for each, in flat order, and of its domain.
pub fn chosen_values_are_of_their_domains()
    ensures { (c : Call) (choices : List Choice) → PassesCyclic c choices → AreCyclicValues c.frame (fixed_of choices) }
{}

/// The sizes at which a call looks for values fit its frame: one for each property, none above the limit, and those that the call does not choose as they were.
pub fn sizes_of_a_call_fit()
    ensures { (c : Call) (choices : List Choice) (sizes : List ℕ) → IsSound c.frame → c.cap ≤ ELEMENT_LIMIT → HasSizes c choices sizes → SizesFit c.frame sizes }
{}

/// The order in which values are tried, used values, the bits of sizes and fixed values as literals are as they were worked out by hand.
pub fn choices_are_as_worked_out()
    ensures { list_all example.is_so example.worked ≡ true }
{}
