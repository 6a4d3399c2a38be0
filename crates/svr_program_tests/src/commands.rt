// What words ask for, and how a source or a sink that fails ends a run.

use crate::asking::{Case, plain, says};
use svr_status::Status;

const SCRIPT: &[u8] =
    b"class P;\nrand bit [3:0] a; constraint c { a == 5; }\nendclass\nmodule m;\ninitial begin\nP p = new;\nrepeat (3) p.randomize();\nend\nendmodule\n";

const LINES: &[u8] = b"#1 p 1 a=5\n#2 p 1 a=5\n#3 p 1 a=5\n";

const USAGE: &[u8] =
    b"usage: svrand run [--seed N] [--budget N] [--size-cap N] [--proofs] [--conflicts] [--lrat]\n       svrand load N [--seed N] [--budget N] [--size-cap N] [--proofs]\n       svrand check\n       svrand cover [--seed N] [--budget N] [--size-cap N] [--proofs]\n       svrand seq [--seed N] [--count N]\n";

/// Words, and what a run with them ends with and prints.
struct Words {
    words: &'static [&'static str],
    status: Status,
    written: &'static [u8],
}

const WORDS: [Words; 13] = [
    Words {
        words: &["run"],
        status: Status::AllOne,
        written: LINES,
    },
    Words {
        words: &["run", "--seed", "0042"],
        status: Status::AllOne,
        written: LINES,
    },
    Words {
        words: &["run", "--seed=42"],
        status: Status::AllOne,
        written: LINES,
    },
    Words {
        words: &["run", "--seed", "18446744073709551615"],
        status: Status::AllOne,
        written: LINES,
    },
    Words {
        words: &["run", "--proofs", "--size-cap", "2048", "--budget", "64"],
        status: Status::AllOne,
        written: LINES,
    },
    Words {
        words: &["run", "--budget=16777216", "--seed=+7", "--size-cap=1"],
        status: Status::AllOne,
        written: LINES,
    },
    // The flags of a run alone: where each call answers 1 they print nothing more.
    Words {
        words: &["run", "--conflicts"],
        status: Status::AllOne,
        written: LINES,
    },
    Words {
        words: &["run", "--lrat", "--proofs", "--conflicts"],
        status: Status::AllOne,
        written: LINES,
    },
    // Loads. The source is not read, and `--proofs` prints nothing more.
    Words {
        words: &["load", "1"],
        status: Status::AllOne,
        written: b"load 1 one 1 zero 0 gaveup 0\n",
    },
    Words {
        words: &["load", "10"],
        status: Status::SomeZero,
        written: b"load 10 one 8 zero 2 gaveup 0\n",
    },
    Words {
        words: &["load", "--seed=7", "5", "--proofs"],
        status: Status::SomeZero,
        written: b"load 5 one 4 zero 1 gaveup 0\n",
    },
    // Coverage has the options of a run, and none of its flags.
    Words {
        words: &["cover"],
        status: Status::AllOne,
        written: LINES,
    },
    Words {
        words: &[
            "cover",
            "--proofs",
            "--size-cap",
            "2048",
            "--budget",
            "64",
            "--seed=42",
        ],
        status: Status::AllOne,
        written: LINES,
    },
];

/// Words that ask for nothing.
const NO_COMMAND: [&[&str]; 41] = [
    &["run", "--lrat", "--lrat"],
    &["run", "--conflicts=true"],
    &["run", "--conflicts", "--conflicts"],
    &["load", "1", "--conflicts"],
    &["load", "1", "--lrat"],
    &["check", "--lrat"],
    &["seq", "--conflicts"],
    &[],
    &["--seed", "1"],
    &["load"],
    &["load", "0"],
    &["load", "2001"],
    &["load", "x"],
    &["load", "1", "2"],
    &["run", "--seed"],
    &["run", "--seed", "x"],
    &["run", "--seed", ""],
    &["run", "--seed", "18446744073709551616"],
    &["run", "--seed", "1", "--seed", "2"],
    &["run", "--budget", "0"],
    &["run", "--budget", "16777217"],
    &["run", "--size-cap", "0"],
    &["run", "--size-cap", "2049"],
    &["run", "--proofs=true"],
    &["run", "--help"],
    &["run", "1"],
    &["check", "1"],
    &["check", "--seed", "1"],
    &["check", "--help"],
    &["seq", "1"],
    &["seq", "--help"],
    &["seq", "--count", "0"],
    &["seq", "--count", "100001"],
    &["seq", "--seed", "18446744073709551616"],
    &["seq", "--count", "1", "--count", "2"],
    &["seq", "--proofs"],
    &["cover", "--conflicts"],
    &["cover", "--lrat"],
    &["cover", "1"],
    &["cover", "--budget", "0"],
    &["cover", "--seed", "1", "--seed", "2"],
];

#[test]
fn words_ask_for_what_they_say(rt: HostRuntime) {
    for (i, row) in WORDS.iter().enumerate() {
        let asked = plain(row.words, SCRIPT);
        assert!(rt;
            says(rt.alloc(), &asked, row.status, row.written),
            "words {i}"
        );
    }
}

#[test]
fn words_that_ask_for_nothing_are_told_the_usage(rt: HostRuntime) {
    for (i, words) in NO_COMMAND.iter().enumerate() {
        let asked = plain(words, SCRIPT);
        assert!(rt; says(rt.alloc(), &asked, Status::Usage, USAGE), "words {i}");
    }
}

/// Which calls of the source and of the sink fail, and how much the sink takes: how the run ends, and what was written.
struct Fault {
    read_fails: &'static [u64],
    write_fails: &'static [u64],
    room: usize,
    status: Status,
    written: &'static [u8],
}

const FAULTS: [Fault; 3] = [
    Fault {
        read_fails: &[2],
        write_fails: &[],
        room: 4000,
        status: Status::ReadFault,
        written: b"",
    },
    Fault {
        read_fails: &[],
        write_fails: &[2],
        room: 4000,
        status: Status::WriteFault,
        written: b"#1 p 1 a=5\n",
    },
    Fault {
        read_fails: &[],
        write_fails: &[],
        room: 15,
        status: Status::WriteFault,
        written: b"#1 p 1 a=5\n#2 p",
    },
];

#[test]
fn faults_end_a_run(rt: HostRuntime) {
    for (i, row) in FAULTS.iter().enumerate() {
        let asked = Case {
            read_fails: row.read_fails,
            write_fails: row.write_fails,
            room: row.room,
            ..plain(&["run"], SCRIPT)
        };
        assert!(rt;
            says(rt.alloc(), &asked, row.status, row.written),
            "fault {i}"
        );
    }
}
