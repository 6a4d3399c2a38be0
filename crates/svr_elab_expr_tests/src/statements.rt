// Expressions of a statement, where a property stands behind its object variable alone, and the variable has an object (IEEE 1800-2017, 8.4).

use crate::outcome::Outcome::{self, Refused, Signed, Unsigned};
use crate::outcome::in_statement;

// numbers of refusals: 7 a name that stands for nothing there, 24 an array as a value, 26 a variable without an object
const OBJECTS: &[(&[u8], Outcome)] = &[
    (b"c", Signed(32)),
    (b"e", Unsigned(4)),
    (b"a", Refused(7, 0)),
    (b"p", Refused(7, 0)),
    (b"p.z", Refused(7, 2)),
    (b"p.a", Unsigned(4)),
    (b"q.a", Refused(26, 0)),
    // the object first, whatever its property
    (b"q.z", Refused(26, 0)),
    (b"p.a + q.a", Refused(26, 4)),
    (b"q.d[0]", Refused(26, 0)),
    (b"p.d[0]", Unsigned(8)),
    (b"p.d", Refused(24, 2)),
    (b"p.d.size()", Signed(32)),
    // a reduction stands outside of objects alone
    (b"p.d.sum()", Refused(24, 2)),
];

#[test]
fn objects(rt: HostRuntime) {
    for (text, wanted) in OBJECTS {
        assert!(rt; in_statement(rt.alloc(), text) == *wanted);
    }
}
