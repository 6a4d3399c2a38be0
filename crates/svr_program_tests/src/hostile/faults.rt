// A source that fails at each of its calls in turn, and so the sinks.

use crate::hostile::asking::{Case, Written, ends_in_fronts, plain, written_of};
use crate::hostile::texts::{CYCLIC, FIVE, PACKET, SOFT, UNEQUAL};
use std::alloc::Global;
use svr_status::Status;

/// Words and a text, how a run of them ends where nothing fails, and how many calls of the sink and of the journal there are at least.
struct Row {
    words: &'static [&'static str],
    text: &'static [u8],
    status: Status,
    writes: u64,
    logs: u64,
}

const ROWS: [Row; 6] = [
    Row {
        words: &["run", "--proofs"],
        text: PACKET,
        status: Status::AllOne,
        writes: 1,
        logs: 0,
    },
    Row {
        words: &["run", "--proofs"],
        text: SOFT,
        status: Status::AllOne,
        writes: 1,
        logs: 0,
    },
    Row {
        words: &["run", "--proofs"],
        text: CYCLIC,
        status: Status::AllOne,
        writes: 2,
        logs: 0,
    },
    Row {
        words: &["run"],
        text: FIVE,
        status: Status::AllOne,
        writes: 5,
        logs: 0,
    },
    Row {
        words: &["run", "--proofs"],
        text: UNEQUAL,
        status: Status::SomeZero,
        writes: 1,
        logs: 0,
    },
    Row {
        words: &["run", "--budget", "1"],
        text: UNEQUAL,
        status: Status::SomeGivenUp,
        writes: 1,
        logs: 1,
    },
];

/// Whether a run whose source fails at this call ends there with nothing written.
fn reads_nothing(alloc: Global, row: &Row, call: u64) -> bool {
    let failing = [call];
    let asked = Case {
        read_fails: &failing,
        ..plain(row.words, row.text)
    };
    ends_in_fronts(alloc, &asked, Status::ReadFault, b"", b"")
}

/// Whether each call of the source is such: one for each piece of 16 bytes, and one that finds the end.
fn each_read_ends_it(alloc: Global, row: &Row) -> bool {
    for piece in 0..(row.text.len() as u64 + 15) / 16 + 1 {
        if !reads_nothing(alloc, row, piece + 1) {
            return false;
        }
    }
    true
}

#[test]
fn a_source_that_fails_leaves_nothing_written(rt: HostRuntime) {
    for (i, row) in ROWS.iter().enumerate() {
        assert!(rt; each_read_ends_it(rt.alloc(), row), "row {i}");
    }
}

/// Which of the two sinks fails.
#[derive(Clone, Copy)]
enum Failing {
    Printed,
    Logged,
}

/// A run in which a call of a sink fails.
fn with_failing<'a>(
    words: &'a [&'a str],
    text: &'a [u8],
    which: Failing,
    calls: &'a [u64],
) -> Case<'a> {
    let whole = plain(words, text);
    match which {
        Failing::Printed => Case {
            write_fails: calls,
            ..whole
        },
        Failing::Logged => Case {
            log_fails: calls,
            ..whole
        },
    }
}

/// How many calls of a sink end the run with fronts of what it writes, one after the other; a thousand at most.
fn cuts(alloc: Global, row: &Row, which: Failing, out: &[u8], journal: &[u8]) -> u64 {
    for before in 0..1000u64 {
        let calls = [before + 1];
        let asked = with_failing(row.words, row.text, which, &calls);
        if !ends_in_fronts(alloc, &asked, Status::WriteFault, out, journal) {
            return before;
        }
    }
    1000
}

fn are_same(first: &Written, second: &Written) -> bool {
    first.out.as_slice() == second.out.as_slice()
        && first.journal.as_slice() == second.journal.as_slice()
}

/// Whether all calls of a sink are such, and there are so many: where the next one is to fail, the run is whole.
fn each_write_ends_it(alloc: Global, row: &Row, which: Failing, least: u64) -> bool {
    let whole = written_of(alloc, &plain(row.words, row.text));
    let count = cuts(alloc, row, which, &whole.out, &whole.journal);
    let behind = [count.saturating_add(1)];
    let asked = with_failing(row.words, row.text, which, &behind);
    let last = written_of(alloc, &asked);
    count >= least
        && are_same(&last, &whole)
        && ends_in_fronts(alloc, &asked, row.status, &whole.out, &whole.journal)
}

#[test]
fn a_sink_that_fails_cuts_what_is_printed(rt: HostRuntime) {
    for (i, row) in ROWS.iter().enumerate() {
        assert!(rt;
            each_write_ends_it(rt.alloc(), row, Failing::Printed, row.writes),
            "row {i}"
        );
    }
}

#[test]
fn a_journal_that_fails_is_cut(rt: HostRuntime) {
    for (i, row) in ROWS.iter().enumerate() {
        assert!(rt;
            each_write_ends_it(rt.alloc(), row, Failing::Logged, row.logs),
            "row {i}"
        );
    }
}
