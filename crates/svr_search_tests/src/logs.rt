// Logs and their verdicts.

use crate::clauses::{cnf, lit};
use crate::memory::{added, let_go};
use std::alloc::Global;
use svr_chain::{Cnf, Link, Reason, Refutation, Step, Verdict, check};

/// The clauses that a derivation is from.
#[derive(Clone, Copy)]
enum Formula {
    /// 1 2, not 1 2, and not 2
    Three,
    /// 1 2
    Single,
    /// 1 2, and not 1 not 2
    Apart,
    /// 1, 1 2, and not 2 3
    Wider,
    /// the empty clause
    Empty,
}

/// A step of one link or none: its start, its pivot, 0 where it has no link, and the linked clause.
type Chain = (u64, i64, u64);

/// A derivation from clauses, with an assumed literal: its clauses, the literal, its steps, its goal, and its verdict.
struct Case {
    formula: Formula,
    assume: i64,
    steps: [Option<Chain>; 2],
    goal: Option<u64>,
    verdict: Verdict,
}

const CASES: [Case; 19] = [
    Case {
        formula: Formula::Three,
        assume: 3,
        steps: [Some((1, 1, 2)), Some((4, 2, 3))],
        goal: Some(5),
        verdict: Verdict::Accepted,
    },
    Case {
        formula: Formula::Three,
        assume: 3,
        steps: [Some((1, 2, 2)), None],
        goal: None,
        verdict: Verdict::Rejected {
            step: 1,
            reason: Reason::PivotNotThere,
        },
    },
    Case {
        formula: Formula::Three,
        assume: 3,
        steps: [Some((9, 1, 2)), None],
        goal: None,
        verdict: Verdict::Rejected {
            step: 1,
            reason: Reason::NoSuchClause,
        },
    },
    Case {
        formula: Formula::Three,
        assume: 3,
        steps: [Some((0, 1, 2)), None],
        goal: None,
        verdict: Verdict::Rejected {
            step: 1,
            reason: Reason::NoSuchClause,
        },
    },
    Case {
        formula: Formula::Three,
        assume: 3,
        steps: [Some((1, 1, 4)), None],
        goal: None,
        verdict: Verdict::Rejected {
            step: 1,
            reason: Reason::NoSuchClause,
        },
    },
    Case {
        formula: Formula::Three,
        assume: 3,
        steps: [Some((1, -1, 2)), None],
        goal: None,
        verdict: Verdict::Rejected {
            step: 1,
            reason: Reason::PivotNotHere,
        },
    },
    Case {
        formula: Formula::Three,
        assume: 3,
        steps: [Some((1, 0, 0)), None],
        goal: None,
        verdict: Verdict::Rejected {
            step: 1,
            reason: Reason::Repeated,
        },
    },
    Case {
        formula: Formula::Three,
        assume: 3,
        steps: [Some((1, 1, 2)), Some((1, 1, 2))],
        goal: None,
        verdict: Verdict::Rejected {
            step: 2,
            reason: Reason::Repeated,
        },
    },
    Case {
        formula: Formula::Three,
        assume: 3,
        steps: [Some((1, 1, 2)), None],
        goal: Some(4),
        verdict: Verdict::Rejected {
            step: 2,
            reason: Reason::NotGoal,
        },
    },
    Case {
        formula: Formula::Three,
        assume: 3,
        steps: [Some((1, 1, 2)), None],
        goal: Some(9),
        verdict: Verdict::Rejected {
            step: 2,
            reason: Reason::NotGoal,
        },
    },
    Case {
        formula: Formula::Three,
        assume: -2,
        steps: [Some((1, 1, 2)), None],
        goal: Some(4),
        verdict: Verdict::Accepted,
    },
    Case {
        formula: Formula::Three,
        assume: 3,
        steps: [Some((1, 1, 2)), Some((4, 2, 3))],
        goal: None,
        verdict: Verdict::Accepted,
    },
    Case {
        formula: Formula::Apart,
        assume: 3,
        steps: [Some((1, 1, 2)), None],
        goal: None,
        verdict: Verdict::Rejected {
            step: 1,
            reason: Reason::Tautology,
        },
    },
    Case {
        formula: Formula::Wider,
        assume: 3,
        steps: [Some((2, 2, 3)), None],
        goal: None,
        verdict: Verdict::Rejected {
            step: 1,
            reason: Reason::Repeated,
        },
    },
    Case {
        formula: Formula::Empty,
        assume: 3,
        steps: [None, None],
        goal: Some(1),
        verdict: Verdict::Accepted,
    },
    Case {
        formula: Formula::Three,
        assume: 3,
        steps: [Some((1, 1, 2)), Some((4, 2, 3))],
        goal: Some(4),
        verdict: Verdict::Rejected {
            step: 3,
            reason: Reason::NotGoal,
        },
    },
    Case {
        formula: Formula::Three,
        assume: 3,
        steps: [Some((1, 1, 2)), Some((4, 2, 3))],
        goal: Some(9),
        verdict: Verdict::Rejected {
            step: 3,
            reason: Reason::NotGoal,
        },
    },
    Case {
        formula: Formula::Three,
        assume: -2,
        steps: [Some((1, 1, 2)), Some((4, 2, 3))],
        goal: Some(4),
        verdict: Verdict::Accepted,
    },
    Case {
        formula: Formula::Single,
        assume: 3,
        steps: [Some((1, 0, 0)), None],
        goal: None,
        verdict: Verdict::Rejected {
            step: 1,
            reason: Reason::Repeated,
        },
    },
];

fn clauses_of(formula: Formula) -> &'static [&'static [i64]] {
    match formula {
        Formula::Three => &[&[1, 2], &[-1, 2], &[-2]],
        Formula::Single => &[&[1, 2]],
        Formula::Apart => &[&[1, 2], &[-1, -2]],
        Formula::Wider => &[&[1], &[1, 2], &[-2, 3]],
        Formula::Empty => &[&[]],
    }
}

fn links(alloc: Global, pivot: i64, clause: u64) -> Vec<Link> {
    let mut links = Vec::new(alloc);
    if pivot != 0 {
        let pivot = lit(3, pivot);
        added(&mut links, Link { pivot, clause });
    }
    links
}

fn add_steps(alloc: Global, chains: &[Option<Chain>], steps: &mut Vec<Step>) {
    for chain in chains {
        if let Some((start, pivot, clause)) = chain {
            let links = links(alloc, *pivot, *clause);
            added(
                steps,
                Step {
                    start: *start,
                    links,
                },
            );
        }
    }
}

fn is_judged_over(alloc: Global, cnf: &Cnf, case: &Case) -> bool {
    let mut steps = Vec::new(alloc);
    add_steps(alloc, &case.steps, &mut steps);
    let log = Refutation {
        steps,
        goal: case.goal,
    };
    let verdict = check(alloc, cnf, &[lit(3, case.assume)], &log);
    let_go(log);
    match verdict {
        Ok(verdict) => verdict == case.verdict,
        Err(_) => false,
    }
}

fn is_judged(alloc: Global, case: &Case) -> bool {
    let cnf = cnf(alloc, 3, clauses_of(case.formula));
    let is_so = match &cnf {
        Ok(cnf) => is_judged_over(alloc, cnf, case),
        Err(_) => false,
    };
    let_go(cnf);
    is_so
}

#[test]
fn judges_logs(rt: HostRuntime) {
    for case in &CASES {
        assert!(rt; is_judged(rt.alloc(), case));
    }
}
