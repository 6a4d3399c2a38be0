// Lines of texts of `randsequence`.

use crate::asking::{Case, Fronts, plain, says, tells};
use svr_status::Status;

const CHOICES: &[u8] = b"randsequence (main)
main : first second done ;
first : { add; } | { dec; } := 3 ;
second : { pop; } := 2 | { push; } := 2 ;
done : { randcase 1 : a; 7 : b; endcase } ;
endsequence
";

const ENDLESS: &[u8] = b"randsequence () a : a ; endsequence";

const PLAIN: &[u8] = b"randsequence () a : { x; y; } ; endsequence";

/// Words, and a text: how it ends, and what is printed.
struct Sequence {
    words: &'static [&'static str],
    text: &'static [u8],
    status: Status,
    written: &'static [u8],
}

const SEQUENCES: [Sequence; 7] = [
    Sequence {
        words: &["seq"],
        text: PLAIN,
        status: Status::AllOne,
        written: b"#1 x y\n",
    },
    Sequence {
        words: &["seq", "--seed=7", "--count", "3"],
        text: PLAIN,
        status: Status::AllOne,
        written: b"#1 x y\n#2 x y\n#3 x y\n",
    },
    Sequence {
        words: &["seq"],
        text: ENDLESS,
        status: Status::Limited,
        written: b"#1 limit\n",
    },
    Sequence {
        words: &["seq", "--count", "100000"],
        text: ENDLESS,
        status: Status::Limited,
        written: b"#1 limit\n",
    },
    Sequence {
        words: &["seq"],
        text: b"randsequence () a : b ; endsequence",
        status: Status::Refused,
        written: b"refused 1:21 37\n",
    },
    Sequence {
        words: &["seq"],
        text: b"randsequence ()\n\ta : `",
        status: Status::Refused,
        written: b"refused 2:6 1\n",
    },
    Sequence {
        words: &["seq"],
        text: b"",
        status: Status::Refused,
        written: b"refused 1:1 36\n",
    },
];

#[test]
fn texts_have_their_lines(rt: HostRuntime) {
    for (i, row) in SEQUENCES.iter().enumerate() {
        let asked = plain(row.words, row.text);
        assert!(rt;
            says(rt.alloc(), &asked, row.status, row.written),
            "sequence {i}"
        );
    }
}

#[test]
fn the_last_of_54_lines(rt: HostRuntime) {
    let asked = plain(&["seq", "--seed", "42", "--count", "54"], CHOICES);
    let fronts = Fronts {
        begin: b"#1 ",
        end: b"\n#54 add pop a\n",
        journal: b"",
    };
    assert!(rt; tells(rt.alloc(), &asked, Status::AllOne, &fronts));
}

#[test]
fn a_sink_that_fails_ends_the_lines(rt: HostRuntime) {
    let asked = Case {
        room: 10,
        ..plain(&["seq", "--count", "3"], PLAIN)
    };
    assert!(rt; says(rt.alloc(), &asked, Status::WriteFault, b"#1 x y\n#2 "));
}
