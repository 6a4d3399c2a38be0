// Derivations from three clauses, and what is said of them.

ghost use Rattle.std.specs.Prelude.{◌≡◌, [], ◌∷◌};
ghost use Rattle.svr_lrat_judge.specs.declared.verdict.LratReason.TheVariants as reason;
ghost use Rattle.svr_lrat_judge.specs.declared.verdict.LratVerdict.TheVariants as says;
ghost use Rattle.svr_lrat_judge.specs.Examples as example;
ghost use Rattle.svr_lrat_judge.specs.Verdict.{verdict_of};

/// A derivation of two lemmas, the same without its end, and with a lemma whose hints end too early.
pub fn derivations()
    ensures accepted { verdict_of (example.file (example.shown ∷ example.last ∷ [])) ≡ says.Accepted }
    ensures unfinished { verdict_of (example.file (example.shown ∷ [])) ≡ says.Rejected 0 reason.Unfinished }
    ensures short { verdict_of (example.file (example.cut_short ∷ example.last ∷ [])) ≡ says.Rejected 4 reason.Short }
{}

/// A lemma that holds a literal and its negation, a hint with two open literals, and a clause that is deleted twice.
pub fn lines()
    ensures opposites { verdict_of (example.file (example.opposites ∷ [])) ≡ says.Rejected 0 reason.Unfinished }
    ensures two_left { verdict_of (example.file (example.too_open ∷ [])) ≡ says.Rejected 4 reason.TwoLeft }
    ensures deleted { verdict_of (example.file (example.deletion ∷ [])) ≡ says.Rejected 4 reason.Delete }
    ensures missing { verdict_of (example.file (example.last ∷ example.shown ∷ [])) ≡ says.Rejected 5 reason.Hint }
{}
