// Laws of the definitions that layers above cite: each function has an empty body, and its contract is the law.

ghost use Rattle.svr_limits.specs.declared.limit.TheConstants.{ELEMENT_LIMIT};
ghost use Rattle.std.specs.Prelude.{◌≡◌, ◌≤◌, ℕ, Bool, true, List, [], ◌++◌};
ghost use Rattle.std.specs.List.{All as Each};
ghost use Rattle.svr_eval.specs.Reading.{Reading};
ghost use Rattle.svr_frame.specs.declared.part.Part.TheVariants.{All};
ghost use Rattle.svr_frame.specs.Occurrences.{all_true};
ghost use Rattle.svr_frame.specs.Phases.{unknowns_of, domain_item};
ghost use Rattle.svr_frame.specs.Satisfaction.{IsAssignment, kept_of};
ghost use Rattle.svr_frame.specs.Sound.{IsSound, SizesFit};
ghost use Rattle.svr_phase.specs.declared.choice.Choice.{Choice};
ghost use Rattle.svr_phase.specs.Spent.{closed_at};
ghost use Rattle.svr_phase.specs.Cyclic.{fixed_of};
ghost use Rattle.svr_phase.specs.Ends.{Call};
ghost use Rattle.svr_phase.specs.Chosen.{AreCyclicValues};
ghost use Rattle.svr_call.specs.Call.{hard_items, soft_items, is_unmentioned, preferred, OthersArePreferred};
ghost use Rattle.svr_settled.specs.Steps.{steps};

/// Where each unknown in turn takes its wanted number if all hard items and these soft ones hold with it, each unknown that no item mentions has it in the end, provided that the wanted number of such an unknown is in its domain.
pub fn unmentioned_unknowns_are_as_wanted()
    ensures { (c : Call) (sizes : List ℕ) (fates : List Bool) → IsSound c.frame → SizesFit c.frame sizes → (wanted found : Reading) → IsAssignment c.frame All sizes [] wanted → IsAssignment c.frame All sizes [] found → all_true found (hard_items c sizes ++ kept_of (soft_items c sizes) fates) ≡ true → Each (λ s. is_unmentioned c sizes s ≡ true → all_true wanted (domain_item c.frame s) ≡ true) (unknowns_of c.frame All sizes) → OthersArePreferred c sizes wanted (steps (closed_at c.frame sizes (hard_items c sizes ++ kept_of (soft_items c sizes) fates)) wanted found (unknowns_of c.frame All sizes)) }
{}

/// The preferred assignment, which has the chosen cyclic values, is one of the last phase, and the numbers that it has for unknowns that no item mentions are in their domains: where each unknown in turn takes its preferred number if all hard items and these soft ones hold with it, each unknown that no item mentions has it in the end.
pub fn unmentioned_unknowns_are_preferred()
    ensures { (c : Call) (choices : List Choice) (sizes : List ℕ) (fates : List Bool) → IsSound c.frame → SizesFit c.frame sizes → c.cap ≤ ELEMENT_LIMIT → AreCyclicValues c.frame (fixed_of choices) → (found : Reading) → IsAssignment c.frame All sizes (fixed_of choices) found → all_true found (hard_items c sizes ++ kept_of (soft_items c sizes) fates) ≡ true → OthersArePreferred c sizes (preferred c choices sizes) (steps (closed_at c.frame sizes (hard_items c sizes ++ kept_of (soft_items c sizes) fates)) (preferred c choices sizes) found (unknowns_of c.frame All sizes)) }
{}
