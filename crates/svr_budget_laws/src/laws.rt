// Each function has an empty body, and its contract is the law.

ghost use Rattle.std.specs.Prelude.{◌≡◌, ◌+◌, ◌<◌, ◌≤◌, ◌^◌, ℕ, false};
ghost use Rattle.svr_chain.specs.Views.{RefutationView};
ghost use Rattle.svr_world.specs.World.{WorldTerm};
ghost use Rattle.svr_frame.specs.Frame.{FrameTerm};
ghost use Rattle.svr_encoded.specs.declared.encoded.Encoded.{Encoded};
ghost use Rattle.svr_phase.specs.declared.options.Options.{Options};
ghost use Rattle.svr_phase.specs.Ends.{Call};
ghost use Rattle.svr_call.specs.declared.outcome.Query.{Query};
ghost use Rattle.svr_call.specs.declared.outcome.Outcome.{Outcome};
ghost use Rattle.svr_call.specs.Call.{CallStep, GivesUp, Steps};
ghost use Rattle.svr_call.specs.Items.{is_one};
ghost use Rattle.svr_budget_laws.specs.Budget.{bits_in, GivesUpOverMany};
ghost use Rattle.svr_budget_laws.specs.Questions.{AsksLittle, ComesTo};
ghost use Rattle.svr_budget_laws.specs.Bounds.{HasFewEncodings, NameOneAPhase};

/// A call gives up only a question that it comes to, and only where the n bits of the encoding that it carries are so many that 2^(n+1) is greater than the budget. They are the bits of the unknowns of the question's phase, a size that the call chooses with those of the cap, or with all 32 where sizes beyond it are asked for.
pub fn a_question_is_given_up_over_many_bits()
    ensures comes { (c : Call) (q : Query) (e : Encoded) (log : RefutationView) (first : ℕ) → GivesUp c q e log first → ComesTo c q (bits_in e) }
    ensures many { (c : Call) (q : Query) (e : Encoded) (log : RefutationView) (first : ℕ) → GivesUp c q e log first → c.budget < 2 ^ (bits_in e + 1) }
    ensures step { (w : WorldTerm) (o : ℕ) (f : FrameTerm) (number : ℕ) (opts : Options) (outcome : Outcome) (w2 : WorldTerm) → CallStep w o f number opts outcome w2 → GivesUpOverMany f opts outcome }
{}

/// A call that comes to questions of few bits alone gives none of them up.
pub fn small_questions_are_answered()
    ensures { (c : Call) (q : Query) (e : Encoded) (log : RefutationView) (first : ℕ) → AsksLittle c → GivesUp c q e log first → ⊥ }
{}

/// A budget of 131,072 steps answers each question of at most 16 bits.
pub fn sixteen_bits_are_answered()
    ensures { (c : Call) (q : Query) (e : Encoded) (log : RefutationView) (first : ℕ) → 131072 ≤ c.budget → GivesUp c q e log first → 16 < bits_in e }
{}

/// Where an answer 0, or one beyond the cap, carries no more than one encoding, all of its proofs name that one.
pub fn one_encoding_is_named()
    ensures { (w : WorldTerm) (o : ℕ) (c : Call) (outcome : Outcome) (w2 : WorldTerm) → Steps w o c outcome w2 → is_one outcome ≡ false → HasFewEncodings outcome → NameOneAPhase outcome }
{}
