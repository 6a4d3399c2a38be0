// The program over a source in pieces of 16 bytes, and two sinks in memory.

use crate::asking::words_of;
use crate::held::{numbers, text_of};
use std::alloc::Global;
use svr_edge::{MemSink, MemSource};
use svr_program::run;
use svr_status::Status;

/// A run: its words, its text, and which calls of the source, of what is printed and of the journal fail.
#[derive(Clone, Copy)]
pub(crate) struct Case<'a> {
    pub words: &'a [&'a str],
    pub text: &'a [u8],
    pub read_fails: &'a [u64],
    pub write_fails: &'a [u64],
    pub log_fails: &'a [u64],
}

/// A run of these words over this text, in which nothing fails.
pub(crate) fn plain<'a>(words: &'a [&'a str], text: &'a [u8]) -> Case<'a> {
    Case {
        words,
        text,
        read_fails: &[],
        write_fails: &[],
        log_fails: &[],
    }
}

/// How a run ends, with what it writes to the two sinks.
fn status_of(alloc: Global, asked: &Case<'_>, out: &mut MemSink, journal: &mut MemSink) -> Status {
    let words = words_of(alloc, asked.words);
    let text = text_of(alloc, asked.text);
    let mut src = MemSource::new(text, 16, numbers(alloc, asked.read_fails));
    run(alloc, &words, &mut src, out, journal)
}

/// A sink for what is printed, and a journal.
fn sinks(alloc: Global, asked: &Case<'_>) -> Option<(MemSink, MemSink)> {
    let out = MemSink::new(alloc, 40_000, numbers(alloc, asked.write_fails));
    let journal = MemSink::new(alloc, 40_000, numbers(alloc, asked.log_fails));
    out.ok().zip(journal.ok())
}

/// What a run prints, and its journal.
#[derive(Drop)]
pub(crate) struct Written {
    pub out: Vec<u8>,
    pub journal: Vec<u8>,
}

/// What a run writes; nothing where there is no memory for the sinks.
pub(crate) fn written_of(alloc: Global, asked: &Case<'_>) -> Written {
    match sinks(alloc, asked) {
        Some((printed, logged)) => {
            let mut out = printed;
            let mut journal = logged;
            let _ended = status_of(alloc, asked, &mut out, &mut journal);
            Written {
                out: text_of(alloc, out.bytes()),
                journal: text_of(alloc, journal.bytes()),
            }
        }
        None => Written {
            out: Vec::new(alloc),
            journal: Vec::new(alloc),
        },
    }
}

/// Whether a run ends so, and both that it prints and its journal are fronts of these texts.
pub(crate) fn ends_in_fronts(
    alloc: Global,
    asked: &Case<'_>,
    status: Status,
    out: &[u8],
    journal: &[u8],
) -> bool {
    match sinks(alloc, asked) {
        Some((printed, logged)) => {
            let mut front = printed;
            let mut log = logged;
            let ended = status_of(alloc, asked, &mut front, &mut log);
            ended == status && out.starts_with(front.bytes()) && journal.starts_with(log.bytes())
        }
        None => false,
    }
}

/// Whether a run ends so, and prints a text that begins and ends so.
pub(crate) fn prints(
    alloc: Global,
    asked: &Case<'_>,
    status: Status,
    begin: &[u8],
    end: &[u8],
) -> bool {
    match sinks(alloc, asked) {
        Some((printed, logged)) => {
            let mut out = printed;
            let mut log = logged;
            let ended = status_of(alloc, asked, &mut out, &mut log);
            ended == status && out.bytes().starts_with(begin) && out.bytes().ends_with(end)
        }
        None => false,
    }
}
