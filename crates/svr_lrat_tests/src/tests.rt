// Texts, each with its verdict or its first fault.

use std::test::Fail;
use svr_lrat::check_lrat;
use svr_lrat_judge::{LratReason, LratVerdict};
use svr_lrat_text::LratFault;

/// Texts whose derivations are accepted.
const ACCEPTED: [&[u8]; 11] = [
    // two variables and a lemma
    b"p cnf 2 3\n1 2 0\n-1 2 0\n-2 0\n4 2 0 2 1 0\n5 0 3 4 0\n",
    // the empty clause stands there
    b"p cnf 0 1 0",
    // comments, blanks of each kind, a header over two lines, numbers with zeros, a sign at 0
    b"c 1 2\ncp cnf 1 1\n \r\n\tp\ncnf\r1 02\n1 -0\n-001 00 003 00 1 2 -0",
    // a literal twice in a clause and in a lemma
    b"p cnf 2 4 1 1 2 0 1 -2 0 -1 2 2 0 -1 -2 0 5 1 1 0 2 1 0 6 0 5 3 4 0",
    // a lemma that holds a literal and its negation, whose hints are not looked at
    b"p cnf 1 2 1 0 -1 0 3 1 -1 0 -9 77 0 4 0 1 2 0",
    // hints behind the false clause are not looked at
    b"p cnf 1 2 1 0 -1 0 3 0 1 2 99 -1 0",
    // a unit clause twice
    b"p cnf 1 2 1 0 -1 0 3 0 1 1 2 0",
    // deleted clauses, and one that is kept
    b"p cnf 2 4 1 0 2 0 -1 0 -2 0 4 d 1 3 0 5 0 2 4 0",
    // identifiers with gaps
    b"p cnf 1 2 1 0 -1 0 1000 1 0 1 0 2147483647 0 1000 2 0",
    // behind the empty lemma lines go on
    b"p cnf 1 2 1 0 -1 0 3 0 1 2 0 4 1 0 3 0",
    // nothing is deleted
    b"p cnf 0 1 0 1 d 0",
];

/// Texts whose derivations are rejected.
const REJECTED: [(&[u8], u64, LratReason); 21] = [
    // the hints end too early
    (
        b"p cnf 2 3\n1 2 0\n-1 2 0\n-2 0\n4 2 0 2 3 0\n5 0 3 4 0\n",
        4,
        LratReason::Short,
    ),
    (
        b"p cnf 2 3\n1 2 0\n-1 2 0\n-2 0\n4 2 0 2 1 0\n",
        0,
        LratReason::Unfinished,
    ),
    (b"p cnf 0 0", 0, LratReason::Unfinished),
    (b"p cnf 1 1 1 0", 0, LratReason::Unfinished),
    // identifiers
    (b"p cnf 1 2 1 0 -1 0 2 0 1 2 0", 2, LratReason::Order),
    (
        b"p cnf 1 2 1 0 -1 0 3 1 0 1 0 3 0 1 2 0",
        3,
        LratReason::Order,
    ),
    (
        b"p cnf 1 2 1 0 -1 0 4 1 0 1 0 3 0 1 2 0",
        3,
        LratReason::Order,
    ),
    // a deleted identifier is not free again
    (
        b"p cnf 1 2 1 0 -1 0 4 1 0 1 0 5 d 4 0 4 0 1 2 0",
        4,
        LratReason::Order,
    ),
    // also of a lemma that holds a literal and its negation
    (b"p cnf 1 1 1 0 1 1 -1 0 0", 1, LratReason::Order),
    // hints
    (b"p cnf 1 2 1 0 -1 0 3 0 1 -2 0", 3, LratReason::Negative),
    (b"p cnf 1 2 1 0 -1 0 3 0 -9 0", 3, LratReason::Negative),
    (b"p cnf 1 2 1 0 -1 0 3 0 1 3 0", 3, LratReason::Hint),
    (b"p cnf 1 2 1 0 -1 0 3 0 1 9 0", 3, LratReason::Hint),
    // a hint that names a deleted clause
    (b"p cnf 1 2 1 0 -1 0 3 d 2 0 4 0 1 2 0", 4, LratReason::Hint),
    (b"p cnf 2 1 1 2 0 2 0 1 0", 2, LratReason::TwoLeft),
    (b"p cnf 2 1 1 2 1 0 2 0 1 0", 2, LratReason::TwoLeft),
    (b"p cnf 1 1 1 0 2 1 0 0", 2, LratReason::Short),
    (b"p cnf 2 2 1 2 0 -1 2 0 3 2 0 1 0", 3, LratReason::Short),
    // deleted identifiers
    (b"p cnf 1 1 1 0 7 d 2 0", 7, LratReason::Delete),
    (b"p cnf 1 1 1 0 7 d 1 1 0", 7, LratReason::Delete),
    (b"p cnf 1 1 1 0 7 d 1 0 8 d 1 0", 8, LratReason::Delete),
];

/// Texts that write no file, or none within the limits.
const FAULTS: [(&[u8], LratFault); 37] = [
    (b"", LratFault::Bad { at: 0 }),
    (b" \n", LratFault::Bad { at: 2 }),
    (b"c only a comment", LratFault::Bad { at: 16 }),
    (b" c p cnf 0 0", LratFault::Bad { at: 1 }),
    (b"q", LratFault::Bad { at: 0 }),
    (b"pc cnf 0 0", LratFault::Bad { at: 0 }),
    (b"p", LratFault::Bad { at: 1 }),
    (b"p p", LratFault::Bad { at: 2 }),
    (b"p cnf", LratFault::Bad { at: 5 }),
    (b"p cnf x", LratFault::Bad { at: 6 }),
    (b"p cnf -1 0", LratFault::Bad { at: 6 }),
    (b"p cnf 1 -1", LratFault::Bad { at: 8 }),
    (b"p cnf +1 0", LratFault::Bad { at: 6 }),
    (b"p cnf - 0", LratFault::Bad { at: 6 }),
    (b"p cnf 0 0\nc no comment", LratFault::Bad { at: 10 }),
    (b"p cnf 1 1", LratFault::Bad { at: 9 }),
    (b"p cnf 1 1 1", LratFault::Bad { at: 11 }),
    (b"p cnf 1 1 d", LratFault::Bad { at: 10 }),
    (b"p cnf 1 2 1 0 ", LratFault::Bad { at: 14 }),
    (b"p cnf 0 0 0", LratFault::Bad { at: 10 }),
    (b"p cnf 0 0 -1", LratFault::Bad { at: 10 }),
    (b"p cnf 0 0 d", LratFault::Bad { at: 10 }),
    (b"p cnf 0 0 1", LratFault::Bad { at: 11 }),
    (b"p cnf 0 0 1 0", LratFault::Bad { at: 13 }),
    (b"p cnf 0 0 1 0 d", LratFault::Bad { at: 14 }),
    (b"p cnf 0 0 1 d -1 0", LratFault::Bad { at: 14 }),
    (b"p cnf 0 0 1 d d", LratFault::Bad { at: 14 }),
    (b"p cnf 0 0 1 d", LratFault::Bad { at: 13 }),
    (
        b"p cnf 2 3\n1 2 0\n-1 2 0\n-2 0\n4 2 0 2 1 0\n5 0 3",
        LratFault::Bad { at: 45 },
    ),
    // limits
    (b"p cnf 16777217 0", LratFault::TooLarge { at: 6 }),
    (b"p cnf 1 16777217 0", LratFault::TooLarge { at: 8 }),
    (b"p cnf 1 1 -2 0", LratFault::TooLarge { at: 10 }),
    (b"p cnf 0 0 2147483648 0 0", LratFault::TooLarge { at: 10 }),
    (b"p cnf 0 0 1 1 0 0", LratFault::TooLarge { at: 12 }),
    (
        b"p cnf 0 0 1 0 -2147483648 0",
        LratFault::TooLarge { at: 14 },
    ),
    (
        b"p cnf 0 0 1 d 99999999999999999999999999 0",
        LratFault::TooLarge { at: 14 },
    ),
    // the first of two
    (b"p cnf 1 1 2 x", LratFault::TooLarge { at: 10 }),
];

#[test]
fn accepted(rt: HostRuntime) -> Result<(), Fail> {
    for text in &ACCEPTED {
        assert!(rt; text.len() <= 100);
        assert!(rt;
            check_lrat(rt.alloc(), text) == Ok(LratVerdict::Accepted),
            "at {text:?}"
        );
    }
    Ok(())
}

#[test]
fn rejected(rt: HostRuntime) -> Result<(), Fail> {
    for (text, id, reason) in &REJECTED {
        assert!(rt; text.len() <= 100);
        let wanted = LratVerdict::Rejected {
            id: *id,
            reason: *reason,
        };
        assert!(rt; check_lrat(rt.alloc(), text) == Ok(wanted), "at {text:?}");
    }
    Ok(())
}

#[test]
fn faults(rt: HostRuntime) -> Result<(), Fail> {
    for (text, fault) in &FAULTS {
        assert!(rt; text.len() <= 100);
        assert!(rt; check_lrat(rt.alloc(), text) == Err(*fault), "at {text:?}");
    }
    Ok(())
}
