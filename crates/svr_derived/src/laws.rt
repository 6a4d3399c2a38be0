// Each function has an empty body, and its contract is the law.

ghost use Rattle.std.specs.Prelude.{ℕ};
ghost use Rattle.svr_world.specs.World.{WorldTerm};
ghost use Rattle.svr_frame.specs.Frame.{FrameTerm};
ghost use Rattle.svr_phase.specs.declared.options.Options.{Options};
ghost use Rattle.svr_call.specs.declared.outcome.Outcome.{Outcome};
ghost use Rattle.svr_call.specs.Call.{CallStep};
ghost use Rattle.svr_derived.specs.Shown.{AreShown};

/// Whatever a call answers (IEEE 1800-2017, 18.6), each proof of its answer is accepted with its goal, over the clauses of the encoding that it names and what it assumes.
pub fn each_proof_of_a_call_is_shown()
    ensures { (w : WorldTerm) (o : ℕ) (f : FrameTerm) (number : ℕ) (opts : Options) (outcome : Outcome) (w2 : WorldTerm) → CallStep w o f number opts outcome w2 → AreShown outcome }
{}
