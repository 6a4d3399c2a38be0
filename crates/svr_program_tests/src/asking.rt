// The program over a source and two sinks in memory.

use crate::held::{added, numbers, text_of};
use std::alloc::Global;
use svr_edge::{MemSink, MemSource};
use svr_program::run;
use svr_status::Status;

/// A run: its words, its text, which calls of the source and of the sink fail, and how much the sink takes.
#[derive(Clone, Copy)]
pub(crate) struct Case<'a> {
    pub words: &'a [&'a str],
    pub text: &'a [u8],
    pub read_fails: &'a [u64],
    pub write_fails: &'a [u64],
    pub room: usize,
}

/// A run of these words over this text, in which nothing fails.
pub(crate) fn plain<'a>(words: &'a [&'a str], text: &'a [u8]) -> Case<'a> {
    Case {
        words,
        text,
        read_fails: &[],
        write_fails: &[],
        room: 4000,
    }
}

/// The words as strings. Where there is no memory for one it is left out, and the program is asked something else.
pub(crate) fn words_of(alloc: Global, words: &[&str]) -> Vec<String> {
    let mut made = Vec::new(alloc);
    for word in words {
        if let Ok(word) = String::from_str(alloc, word) {
            added(&mut made, word);
        }
    }
    made
}

/// How a run ends, with what it writes to the two sinks.
pub(crate) fn status_of(
    alloc: Global,
    asked: &Case<'_>,
    out: &mut MemSink,
    journal: &mut MemSink,
) -> Status {
    let words = words_of(alloc, asked.words);
    let text = text_of(alloc, asked.text);
    let mut src = MemSource::new(text, 10, numbers(alloc, asked.read_fails));
    run(alloc, &words, &mut src, out, journal)
}

/// A sink for what is printed, and a journal.
pub(crate) fn sinks(alloc: Global, asked: &Case<'_>) -> Option<(MemSink, MemSink)> {
    let out = MemSink::new(alloc, asked.room, numbers(alloc, asked.write_fails));
    let journal = MemSink::new(alloc, 4000, Vec::new(alloc));
    out.ok().zip(journal.ok())
}

/// Whether a run ends and writes so.
pub(crate) fn says(alloc: Global, asked: &Case<'_>, status: Status, written: &[u8]) -> bool {
    match sinks(alloc, asked) {
        Some((printed, logged)) => {
            let mut out = printed;
            let mut journal = logged;
            let ended = status_of(alloc, asked, &mut out, &mut journal);
            ended == status && out.bytes() == written
        }
        None => false,
    }
}

/// How what is printed begins and ends, and how the journal begins.
#[derive(Clone, Copy)]
pub(crate) struct Fronts {
    pub begin: &'static [u8],
    pub end: &'static [u8],
    pub journal: &'static [u8],
}

fn are_told(fronts: &Fronts, out: &[u8], journal: &[u8]) -> bool {
    out.starts_with(fronts.begin)
        && out.ends_with(fronts.end)
        && journal.starts_with(fronts.journal)
}

/// Whether a run ends so, and what is printed and the journal begin and end so.
pub(crate) fn tells(alloc: Global, asked: &Case<'_>, status: Status, fronts: &Fronts) -> bool {
    match sinks(alloc, asked) {
        Some((printed, logged)) => {
            let mut out = printed;
            let mut journal = logged;
            let ended = status_of(alloc, asked, &mut out, &mut journal);
            ended == status && are_told(fronts, out.bytes(), journal.bytes())
        }
        None => false,
    }
}
