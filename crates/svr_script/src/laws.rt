// Laws of the definitions that layers above cite: each function has an empty body, and its contract is the law.

ghost use Rattle.std.specs.Prelude.{◌≡◌, ◌+◌, ◌++◌, ◌∷◌, ◌⊎◌, ℕ, Bool, true, false, List, [], Some, flat_map, length, take};
ghost use Rattle.std.specs.List.{count_by, list_all};
ghost use Rattle.svr_typed.specs.StmtTerm.{CallTerm, StmtTerm, DesignTerm};
ghost use Rattle.svr_phase.specs.declared.options.Options.{Options};
ghost use Rattle.svr_conflict.specs.declared.found.ConflictEnd.{ConflictEnd};
ghost use Rattle.svr_script.specs.Printed.{Event};
ghost use Rattle.svr_script.specs.Conflicts.{HasConflict, HasLine, HaveConflicts, is_unmet};
ghost use Rattle.svr_script.specs.Run.{State, Counts, Calls, Executes, Runs, IsSoFar, IsRun, Printing, begin, counts_of, is_limit, event_log, event_text, journal_of, log_alone, proofs_alone, text_alone, text_of};
ghost use Rattle.svr_script.specs.Ending.{Ending, HasEnding};
ghost use Rattle.svr_script.specs.Examples as example;

/// A run so far has ended, or a next statement is there for which nothing stands in the way; and with what that statement tells it is a run so far again.
pub fn a_run_ends_or_goes_on()
    ensures begins { (d : DesignTerm) (opts : Options) → IsSoFar d opts [] (begin d) }
    ensures next { (d : DesignTerm) (opts : Options) (es : List Event) (m : State) → (so_far : IsSoFar d opts es m) → IsRun d opts es m ⊎ ((x : StmtTerm) × (rest : List StmtTerm) × (so_far.left ≡ x ∷ rest) × (m.limited ≡ false)) }
    ensures goes_on { (d : DesignTerm) (opts : Options) (es fs : List Event) (m t : State) → (so_far : IsSoFar d opts es m) (x : StmtTerm) (rest : List StmtTerm) → so_far.left ≡ x ∷ rest → m.limited ≡ false → Executes d opts x m fs t → IsSoFar d opts (es ++ fs) t }
{}

/// As many calls were made as are told, so that the calls are numbered in their order.
pub fn calls_are_numbered_in_their_order()
    ensures { (d : DesignTerm) (opts : Options) (xs : List StmtTerm) (s : State) (es : List Event) (t : State) → Runs d opts xs s es t → t.calls ≡ s.calls + length es }
{}

/// A run that met a limit met it in its last call.
pub fn a_limit_is_met_in_the_last_call()
    ensures { (d : DesignTerm) (opts : Options) (xs : List StmtTerm) (s : State) (es : List Event) (t : State) → Runs d opts xs s es t → s.limited ≡ false → t.limited ≡ true → (front : List Event) × (e : Event) × (es ≡ front ++ e ∷ []) × (is_limit e.outcome ≡ true) }
{}

/// The texts of a run are those of its calls one behind the other, so that what was written before a fault is a front of the text of a run so far.
pub fn texts_grow_at_the_end()
    ensures text { (how : Printing) (es fs : List Event) → text_of how (es ++ fs) ≡ text_of how es ++ text_of how fs }
    ensures journal { (es fs : List Event) → journal_of (es ++ fs) ≡ journal_of es ++ journal_of fs }
    ensures front { (how : Printing) (es : List Event) (e : Event) (n : ℕ) → text_of how es ++ take n (event_text how e) ≡ take (length (text_of how es) + n) (text_of how (es ++ e ∷ [])) }
    ensures journal_front { (es : List Event) (e : Event) (n : ℕ) → journal_of es ++ take n (event_log e) ≡ take (length (journal_of es) + n) (journal_of (es ++ e ∷ [])) }
{}

/// Where nothing is asked for besides, a call tells its line and, where they are printed, its proofs; and the journal has the logs of calls that gave up alone.
pub fn nothing_is_told_unasked()
    ensures text { (proofs : Bool) (budget : ℕ) (es : List Event) → HaveConflicts false budget es → text_of (proofs_alone proofs) es ≡ flat_map (text_alone proofs) es }
    ensures journal { (budget : ℕ) (es : List Event) → HaveConflicts false budget es → journal_of es ≡ flat_map log_alone es }
{}

/// Where the items that contradict each other are asked for, each 0 of the hard items has its line: no assignment that would meet them stands beside it.
pub fn each_unmet_call_has_its_line()
    ensures { (d : DesignTerm) (opts : Options) (c : CallTerm) (s : State) (e : Event) (t : State) → Calls d opts c s e t → HasConflict true opts.budget e → is_unmet e.outcome ≡ true → (end : ConflictEnd) × (e.conflict ≡ Some end) × HasLine end }
{}

/// The answers of a run are those of its parts.
pub fn conflicts_are_those_of_the_calls()
    ensures joined { (wanted : Bool) (budget : ℕ) (es fs : List Event) → HaveConflicts wanted budget es → HaveConflicts wanted budget fs → HaveConflicts wanted budget (es ++ fs) }
    ensures cut { (wanted : Bool) (budget : ℕ) (es fs : List Event) → HaveConflicts wanted budget (es ++ fs) → HaveConflicts wanted budget es × HaveConflicts wanted budget fs }
{}

/// A run that has come to its end has just one ending.
pub fn a_run_has_one_ending()
    ensures some { (t : State) (n : Counts) → (e : Ending) × HasEnding t n e }
    ensures one { (t : State) (n : Counts) (e r : Ending) → HasEnding t n e → HasEnding t n r → e ≡ r }
{}

/// Each call is counted once: as an answer 1, as an answer 0, as given up, or as one that met a limit.
pub fn each_call_is_counted_once()
    ensures { (es : List Event) → length es ≡ (counts_of es).ones + (counts_of es).zeros + (counts_of es).given_up + count_by (λ e. is_limit e.outcome) es }
{}

/// Lines of calls, the parts of proof texts, and the line of items that contradict each other are as they were worked out by hand.
pub fn texts_are_as_worked_out()
    ensures lines { list_all example.is_so example.lines ≡ true }
    ensures proofs { list_all example.is_so example.proof_texts ≡ true }
    ensures conflicts { list_all example.is_so example.conflict_texts ≡ true }
{}
