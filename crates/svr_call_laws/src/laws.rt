// Laws of the definitions that layers above cite: each function has an empty body, and its contract is the law.

ghost use Rattle.std.specs.Prelude.{◌≡◌, ℕ, true, List};
ghost use Rattle.svr_eval.specs.Reading.{Reading};
ghost use Rattle.svr_world.specs.World.{WorldTerm};
ghost use Rattle.svr_frame.specs.declared.part.Part.TheVariants.{Randc};
ghost use Rattle.svr_frame.specs.Occurrences.{all_true};
ghost use Rattle.svr_frame.specs.Phases.{hard_of};
ghost use Rattle.svr_frame.specs.Satisfaction.{IsAssignment};
ghost use Rattle.svr_frame.specs.Sound.{IsSound};
ghost use Rattle.svr_encoded.specs.declared.encoded.Encoded.{Encoded};
ghost use Rattle.svr_phase.specs.declared.proof.Proof.{Proof};
ghost use Rattle.svr_phase.specs.Ends.{Call};
ghost use Rattle.svr_call.specs.declared.outcome.Outcome.TheVariants.{Zero};
ghost use Rattle.svr_call.specs.Call.{Steps};

/// An answer 0 in the phase of cyclic values means that no values of the cyclic properties that extend those chosen before meet the hard items over them (IEEE 1800-2017, 18.4.2).
pub fn an_answer_0_of_the_cyclic_values()
    ensures { (w : WorldTerm) (o : ℕ) (c : Call) (chosen : List (ℕ × ℕ)) (sizes : List ℕ) (proofs : List Proof) (encodings : List Encoded) (w2 : WorldTerm) → IsSound c.frame → Steps w o c (Zero Randc chosen sizes proofs encodings) w2 → (a : Reading) → IsAssignment c.frame Randc c.frame.state.sizes chosen a → all_true a (hard_of c.frame Randc c.frame.state.sizes) ≡ true → ⊥ }
{}
