// The program over texts in memory: what the guide says that it prints, and what is stored beside the examples.

use crate::held::{added, joined};
use crate::rows::{COMMANDS, REPAIRED, STORED};
use crate::running::text_of;
use crate::texts::{
    AXI_BURST, CONTRADICTION, FIRST, OPCODE, OWN_CLASS, PACKET, REGIONS, SORTED, STATE, SUDOKU,
};
use std::alloc::Global;
use svr_edge::{MemSink, MemSource, NullSink};
use svr_program::run;
use svr_status::Status;

/// Which part of what is printed is told.
#[derive(Clone, Copy)]
pub(crate) enum Part {
    All,
    First,
    Last,
}

/// What is read: a script of examples/, the guide's first one, or lines.
#[derive(Clone, Copy)]
pub(crate) enum Text {
    AxiBurst,
    Contradiction,
    First,
    Opcode,
    OwnClass,
    Packet,
    Regions,
    Sorted,
    State,
    Sudoku,
    Lines(&'static [&'static [u8]]),
}

fn lines(text: Text) -> &'static [&'static [u8]] {
    match text {
        Text::AxiBurst => &AXI_BURST,
        Text::Contradiction => &CONTRADICTION,
        Text::First => &FIRST,
        Text::Opcode => &OPCODE,
        Text::OwnClass => &OWN_CLASS,
        Text::Packet => &PACKET,
        Text::Regions => &REGIONS,
        Text::Sorted => &SORTED,
        Text::State => &STATE,
        Text::Sudoku => &SUDOKU,
        Text::Lines(lines) => lines,
    }
}

/// A run: its words and what it reads, how it ends where that is told, and what it prints, or a part of it, in pieces.
pub(crate) struct Row {
    pub(crate) words: &'static [&'static str],
    pub(crate) text: Text,
    pub(crate) status: Option<Status>,
    pub(crate) part: Part,
    pub(crate) told: &'static [&'static [u8]],
}

/// The words as strings. Where there is no memory for one it is left out, and the program is asked something else.
fn words_of(alloc: Global, words: &[&str]) -> Vec<String> {
    let mut made = Vec::new(alloc);
    for word in words {
        if let Ok(word) = String::from_str(alloc, word) {
            added(&mut made, word);
        }
    }
    made
}

/// How a run over a text ends, with what it writes.
pub(crate) fn status_of(alloc: Global, words: &[&str], text: Vec<u8>, out: &mut MemSink) -> Status {
    let words = words_of(alloc, words);
    let mut src = MemSource::new(text, 4096, Vec::new(alloc));
    let mut journal = NullSink::new();
    run(alloc, &words, &mut src, out, &mut journal)
}

fn ends_so(told: Option<Status>, ended: Status) -> bool {
    match told {
        Some(status) => ended == status,
        None => true,
    }
}

/// Pieces as one text.
fn whole(alloc: Global, pieces: &[&[u8]]) -> Vec<u8> {
    let mut text = Vec::new(alloc);
    for piece in pieces {
        joined(&mut text, piece);
    }
    text
}

fn is_told(part: Part, told: &[u8], printed: &[u8]) -> bool {
    match part {
        Part::All => printed == told,
        Part::First => printed.starts_with(told),
        Part::Last => printed.ends_with(told),
    }
}

fn prints(alloc: Global, row: &Row) -> bool {
    match MemSink::new(alloc, 100_000, Vec::new(alloc)) {
        Ok(sink) => {
            let mut out = sink;
            let text = text_of(alloc, lines(row.text));
            let ended = status_of(alloc, row.words, text, &mut out);
            let told = whole(alloc, row.told);
            ends_so(row.status, ended) && is_told(row.part, &told, out.bytes())
        }
        Err(_) => false,
    }
}

#[test]
fn examples_print_what_is_stored(rt: HostRuntime) {
    for (i, row) in STORED.iter().enumerate() {
        assert!(rt; prints(rt.alloc(), row), "example {i}");
    }
}

#[test]
fn commands_print_what_the_guide_says(rt: HostRuntime) {
    for (i, row) in COMMANDS.iter().enumerate() {
        assert!(rt; prints(rt.alloc(), row), "command {i}");
    }
}

#[test]
fn derivations_and_sequences_are_repaired(rt: HostRuntime) {
    for (i, row) in REPAIRED.iter().enumerate() {
        assert!(rt; prints(rt.alloc(), row), "repaired {i}");
    }
}

/// Words, a text that is accepted with blanks behind it up to this length, and refused with one more, and what is printed.
struct Longest {
    words: &'static [&'static str],
    text: &'static [u8],
    longest: usize,
    written: &'static [u8],
}

const LONGEST: &[Longest] = &[
    Longest {
        words: &["run"],
        text: b"class P; endclass module m; P p = new; initial begin p.randomize(); end endmodule",
        longest: 4_194_304,
        written: b"#1 p 1\n",
    },
    Longest {
        words: &["seq"],
        text: b"randsequence () main : { a; }; endsequence",
        longest: 4_194_304,
        written: b"#1 a\n",
    },
    Longest {
        words: &["check"],
        text: b"p cnf 1 2 1 0 -1 0 3 0 1 2 0",
        longest: 67_108_864,
        written: b"accepted\n",
    },
];

const BLANKS: &[u8] = b"                                                                ";

/// A text with blanks behind it up to a length.
fn padded(alloc: Global, text: &[u8], length: usize) -> Vec<u8> {
    let mut made = Vec::new(alloc);
    joined(&mut made, text);
    let left = length.saturating_sub(text.len());
    for _part in 0..left / 64 {
        joined(&mut made, BLANKS);
    }
    for _blank in 0..left % 64 {
        joined(&mut made, b" ");
    }
    made
}

/// Whether a run over a text ends and prints so.
fn says(alloc: Global, words: &[&str], text: Vec<u8>, status: Status, written: &[u8]) -> bool {
    match MemSink::new(alloc, 4000, Vec::new(alloc)) {
        Ok(sink) => {
            let mut out = sink;
            let ended = status_of(alloc, words, text, &mut out);
            ended == status && out.bytes() == written
        }
        Err(_) => false,
    }
}

fn is_longest(alloc: Global, row: &Longest) -> bool {
    let longest = padded(alloc, row.text, row.longest);
    let longer = padded(alloc, row.text, row.longest.saturating_add(1));
    says(alloc, row.words, longest, Status::AllOne, row.written)
        && says(
            alloc,
            row.words,
            longer,
            Status::Refused,
            b"refused 0:0 27\n",
        )
}

#[test]
fn longer_texts_are_refused(rt: HostRuntime) {
    for (i, row) in LONGEST.iter().enumerate() {
        assert!(rt; is_longest(rt.alloc(), row), "length {i}");
    }
}
