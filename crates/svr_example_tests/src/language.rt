// Each row of the guide's table of the language: texts that are accepted, and texts that are left out.

use crate::held::joined;
use crate::language_rows::{FIRST_ACCEPTED, FIRST_LEFT_OUT, LAST_ACCEPTED, LAST_LEFT_OUT, PIECES};
use crate::prints::status_of;
use std::alloc::Global;
use svr_edge::MemSink;
use svr_status::Status;

/// The script with a text at a place.
fn placed(alloc: Global, place: usize, text: &[u8]) -> Vec<u8> {
    let mut made = Vec::new(alloc);
    for (i, piece) in PIECES.iter().enumerate() {
        joined(&mut made, piece);
        if i == place {
            joined(&mut made, text);
        }
    }
    made
}

/// How the script with this text ends, where there is memory for what it prints.
fn ending(alloc: Global, place: usize, text: &[u8]) -> Option<Status> {
    match MemSink::new(alloc, 100_000, Vec::new(alloc)) {
        Ok(sink) => {
            let mut out = sink;
            let script = placed(alloc, place, text);
            Some(status_of(alloc, &["run"], script, &mut out))
        }
        Err(_) => None,
    }
}

/// Whether the script runs to its end.
fn is_accepted(alloc: Global, place: usize, text: &[u8]) -> bool {
    match ending(alloc, place, text) {
        Some(Status::AllOne) => true,
        Some(Status::SomeZero) => true,
        _ => false,
    }
}

fn is_refused(alloc: Global, place: usize, text: &[u8]) -> bool {
    ending(alloc, place, text) == Some(Status::Refused)
}

#[test]
fn first_accepted_texts_run(rt: HostRuntime) {
    for (i, (place, text)) in FIRST_ACCEPTED.iter().enumerate() {
        assert!(rt; is_accepted(rt.alloc(), *place, text), "accepted {i}");
    }
}

#[test]
fn last_accepted_texts_run(rt: HostRuntime) {
    for (i, (place, text)) in LAST_ACCEPTED.iter().enumerate() {
        assert!(rt; is_accepted(rt.alloc(), *place, text), "accepted {i}");
    }
}

#[test]
fn first_left_out_texts_are_refused(rt: HostRuntime) {
    for (i, (place, text)) in FIRST_LEFT_OUT.iter().enumerate() {
        assert!(rt; is_refused(rt.alloc(), *place, text), "left out {i}");
    }
}

#[test]
fn last_left_out_texts_are_refused(rt: HostRuntime) {
    for (i, (place, text)) in LAST_LEFT_OUT.iter().enumerate() {
        assert!(rt; is_refused(rt.alloc(), *place, text), "left out {i}");
    }
}
