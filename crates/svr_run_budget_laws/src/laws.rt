// Each function has an empty body, and its contract is the law.

ghost use Rattle.svr_limits.specs.declared.limit.TheConstants.{ELEMENT_LIMIT};
ghost use Rattle.std.specs.Prelude.{◌≡◌, ◌≤◌, Bool, false, List, []};
ghost use Rattle.svr_typed.specs.StmtTerm.{StmtTerm, DesignTerm};
ghost use Rattle.svr_phase.specs.declared.options.Options.{Options};
ghost use Rattle.svr_script.specs.Printed.{Event};
ghost use Rattle.svr_script.specs.Conflicts.{HaveConflicts};
ghost use Rattle.svr_script.specs.Run.{State, Runs, IsSoFar, Printing, counts_of, journal_of};
ghost use Rattle.svr_script.specs.Ending.{SomeGivenUp, Output, RunEnds};
ghost use Rattle.svr_run_budget_laws.specs.Runs.{CallsGiveUpOverMany, CallsAskLittle, CallsAreSound};

/// Each call of a run that gives up carries an encoding of its question's bits, of which there are n with 2^(n+1) greater than the budget: whichever run the journal tells, each log of a call in it is of such a question.
pub fn a_run_gives_up_over_many_bits()
    ensures runs { (d : DesignTerm) (opts : Options) (xs : List StmtTerm) (s : State) (es : List Event) (t : State) → Runs d opts xs s es t → CallsGiveUpOverMany opts es }
    ensures script { (d : DesignTerm) (opts : Options) (es : List Event) (t : State) → IsSoFar d opts es t → CallsGiveUpOverMany opts es }
{}

/// Where the calls of a script come to small questions alone, no run of it gives one up, and its journal stays empty; where their frames are sound, also with the items that contradict each other asked for.
pub fn a_run_of_small_questions_answers_all()
    ensures none { (d : DesignTerm) (opts : Options) (es : List Event) (t : State) → CallsAskLittle d opts → IsSoFar d opts es t → (counts_of es).given_up ≡ 0 }
    ensures journal { (d : DesignTerm) (opts : Options) (es : List Event) (t : State) → CallsAskLittle d opts → IsSoFar d opts es t → HaveConflicts false opts.budget es → journal_of es ≡ [] }
    ensures conflicts { (d : DesignTerm) (opts : Options) (wanted : Bool) (es : List Event) (t : State) → CallsAskLittle d opts → CallsAreSound d opts → opts.size_cap ≤ ELEMENT_LIMIT → IsSoFar d opts es t → HaveConflicts wanted opts.budget es → journal_of es ≡ [] }
    ensures ending { (d : DesignTerm) (opts : Options) (how : Printing) (output : Output) → CallsAskLittle d opts → RunEnds d opts how SomeGivenUp output → ⊥ }
{}
