// Laws of the definitions that layers above cite: each function has an empty body, and its contract is the law.

ghost use Rattle.svr_limits.specs.declared.limit.TheConstants.{ELEMENT_LIMIT};
ghost use Rattle.std.specs.Prelude.{◌≡◌, ◌≤◌, ℕ, true, false, List, [], length};
ghost use Rattle.svr_chain.specs.Views.{RefutationView};
ghost use Rattle.svr_eval.specs.Reading.{Reading};
ghost use Rattle.svr_eval.specs.Holds.{all_hold};
ghost use Rattle.svr_world.specs.declared.change.Change.{Change};
ghost use Rattle.svr_world.specs.Fits.{props_of};
ghost use Rattle.svr_world.specs.World.{WorldTerm};
ghost use Rattle.svr_frame.specs.declared.part.Part.TheVariants.{Sizes, All};
ghost use Rattle.svr_frame.specs.Occurrences.{all_true};
ghost use Rattle.svr_frame.specs.Phases.{domain_items, hard_of};
ghost use Rattle.svr_frame.specs.Satisfaction.{IsAssignment};
ghost use Rattle.svr_frame.specs.Sound.{IsSound};
ghost use Rattle.svr_encoded.specs.declared.encoded.Encoded.{Encoded};
ghost use Rattle.svr_phase.specs.declared.choice.Choice.{Choice};
ghost use Rattle.svr_phase.specs.declared.proof.Proof.{Proof};
ghost use Rattle.svr_phase.specs.declared.proof.Renewed.{Renewed};
ghost use Rattle.svr_phase.specs.Cyclic.{fixed_of};
ghost use Rattle.svr_phase.specs.Ends.{Call, HasSizes, cyclic_props};
ghost use Rattle.svr_call.specs.declared.outcome.Dropped.{Dropped};
ghost use Rattle.svr_call.specs.declared.outcome.Query.{Query};
ghost use Rattle.svr_call.specs.declared.outcome.Outcome.{Outcome};
ghost use Rattle.svr_call.specs.declared.outcome.Outcome.TheVariants.{Zero};
ghost use Rattle.svr_call.specs.Call.{IsOne, GivesUp, Steps, all_kept, fits_preferred_values, new_numbers, preferred, random_props, soft_items};
ghost use Rattle.svr_call.specs.Items.{MeetsItems, is_one};

/// Every answer but 1 leaves the world as it was.
pub fn only_an_answer_1_changes_the_world()
    ensures same { (w : WorldTerm) (o : ℕ) (c : Call) (outcome : Outcome) (w2 : WorldTerm) → Steps w o c outcome w2 → is_one outcome ≡ false → w2 ≡ w }
{}

/// An answer 1 replaces the numbers of the random properties and the used values of the cyclic ones, in flat order, and nothing where no property is random, as with `null` (IEEE 1800-2017, 18.11.1).
pub fn an_answer_1_replaces_the_random_properties()
    ensures values { (c : Call) (kept : List ℕ) (dropped : List Dropped) (cycles : List Renewed) (encodings : List Encoded) (change : Change) → IsOne c kept dropped cycles encodings change → props_of change.values ≡ random_props c.frame }
    ensures used { (c : Call) (kept : List ℕ) (dropped : List Dropped) (cycles : List Renewed) (encodings : List Encoded) (change : Change) → IsOne c kept dropped cycles encodings change → props_of change.used ≡ cyclic_props c.frame }
    ensures nothing { (c : Call) (kept : List ℕ) (dropped : List Dropped) (cycles : List Renewed) (encodings : List Encoded) (change : Change) → IsOne c kept dropped cycles encodings change → random_props c.frame ≡ [] → cyclic_props c.frame ≡ [] → (change.values ≡ []) × (change.used ≡ []) }
{}

/// An answer 1 leaves the numbers of an assignment of the last phase that has the chosen cyclic values and meets every active hard item, and of the live soft items just those that the pass keeps: all of them where the preferred values are the answer.
pub fn an_answer_1_meets_the_items()
    ensures one { (c : Call) (kept : List ℕ) (dropped : List Dropped) (cycles : List Renewed) (encodings : List Encoded) (change : Change) → (is : IsOne c kept dropped cycles encodings change) → IsSound c.frame → c.cap ≤ ELEMENT_LIMIT → (a : Reading) × IsAssignment c.frame All is.sizes (fixed_of is.choices) a × MeetsItems c is.sizes a is.fates × (change.values ≡ new_numbers c is.sizes a) }
    ensures preferred { (c : Call) (choices : List Choice) (sizes : List ℕ) → IsSound c.frame → c.cap ≤ ELEMENT_LIMIT → HasSizes c choices sizes → fits_preferred_values c choices sizes ≡ true → IsAssignment c.frame All sizes (fixed_of choices) (preferred c choices sizes) × MeetsItems c sizes (preferred c choices sizes) (all_kept (soft_items c sizes)) }
{}

/// An answer 0 of the last phase means that no assignment with its cyclic values and at its sizes meets all active items and domains; one of the sizes, that no sizes up to 2 ^ 31 - 1 meet the hard items of the sizes.
pub fn an_answer_0_means_that_nothing_meets_the_items()
    ensures values { (w : WorldTerm) (o : ℕ) (c : Call) (chosen : List (ℕ × ℕ)) (sizes : List ℕ) (proofs : List Proof) (encodings : List Encoded) (w2 : WorldTerm) → IsSound c.frame → c.cap ≤ ELEMENT_LIMIT → Steps w o c (Zero All chosen sizes proofs encodings) w2 → (a : Reading) → IsAssignment c.frame All sizes chosen a → all_true a (domain_items c.frame All sizes) ≡ true → all_hold a [] c.frame.items ≡ true → ⊥ }
    ensures sizes { (w : WorldTerm) (o : ℕ) (c : Call) (chosen : List (ℕ × ℕ)) (sizes : List ℕ) (proofs : List Proof) (encodings : List Encoded) (w2 : WorldTerm) → Steps w o c (Zero Sizes chosen sizes proofs encodings) w2 → (a : Reading) → IsAssignment c.frame Sizes c.frame.state.sizes chosen a → all_true a (hard_of c.frame Sizes c.frame.state.sizes) ≡ true → ⊥ }
{}

/// A question that is given up has a log of as many steps as the budget.
pub fn a_spent_question_has_its_steps()
    ensures steps { (c : Call) (query : Query) (e : Encoded) (log : RefutationView) (first : ℕ) → GivesUp c query e log first → c.budget ≤ length log.steps }
{}
