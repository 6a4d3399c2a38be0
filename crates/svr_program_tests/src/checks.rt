// What is said of clauses with a derivation from them.

use crate::asking::{plain, says};
use svr_status::Status;

/// Clauses with a derivation from them: how a check ends, and what it prints.
struct Derivation {
    text: &'static [u8],
    status: Status,
    written: &'static [u8],
}

const CHECKS: [Derivation; 11] = [
    Derivation {
        text: b"p cnf 2 3\n1 2 0\n-1 2 0\n-2 0\n4 2 0 2 1 0\n5 0 3 4 0\n",
        status: Status::AllOne,
        written: b"accepted\n",
    },
    Derivation {
        text: b"p cnf 2 3\n1 2 0\n-1 2 0\n-2 0\n4 2 0 2 3 0\n5 0 3 4 0\n",
        status: Status::SomeZero,
        written: b"rejected 4 short\n",
    },
    Derivation {
        text: b"p cnf 2 3\n1 2 0\n-1 2 0\n-2 0\n4 2 0 2 1 0\n",
        status: Status::SomeZero,
        written: b"rejected 0 unfinished\n",
    },
    Derivation {
        text: b"p cnf 1 2 1 0 -1 0 2 0 1 2 0",
        status: Status::SomeZero,
        written: b"rejected 2 order\n",
    },
    Derivation {
        text: b"p cnf 1 2 1 0 -1 0 3 0 1 -2 0",
        status: Status::SomeZero,
        written: b"rejected 3 negative\n",
    },
    Derivation {
        text: b"p cnf 1 2 1 0 -1 0 3 0 1 9 0",
        status: Status::SomeZero,
        written: b"rejected 3 hint\n",
    },
    Derivation {
        text: b"p cnf 2 1 1 2 0 2 0 1 0",
        status: Status::SomeZero,
        written: b"rejected 2 open\n",
    },
    Derivation {
        text: b"p cnf 1 1 1 0 7 d 2 0",
        status: Status::SomeZero,
        written: b"rejected 7 delete\n",
    },
    Derivation {
        text: b"p cnf 2 3\n1 2 0\n-1 2 0\n-2 0\n4 2 0 2 1 0\n5 0 3\n",
        status: Status::Refused,
        written: b"refused 7:1 29\n",
    },
    Derivation {
        text: b"",
        status: Status::Refused,
        written: b"refused 1:1 29\n",
    },
    Derivation {
        text: b"p cnf 1 1\n-2 0\n",
        status: Status::Refused,
        written: b"refused 2:1 30\n",
    },
];

#[test]
fn derivations_have_their_verdict(rt: HostRuntime) {
    for (i, row) in CHECKS.iter().enumerate() {
        let asked = plain(&["check"], row.text);
        assert!(rt;
            says(rt.alloc(), &asked, row.status, row.written),
            "check {i}"
        );
    }
}
