// Where bytes come from and go to.

use std::cell::Cell;
use std::io::{Cursor, Write};
use svr_edge::{MemSink, NullSink, Sink, Source, StdSink, StdSource, read_text, write_whole};

#[test]
fn reads_through_std(rt: HostRuntime) {
    let mut src = StdSource::new(Cursor::new(b"abcdef".as_slice()));
    let mut piece = [0u8; 4];
    assert!(rt; src.read_piece(&mut piece) == Ok(4));
    match read_text(rt.alloc(), &mut src, 9) {
        Ok(rest) => assert!(rt; rest.as_slice() == b"ef".as_slice()),
        Err(_) => panic!(rt; "the rest is not read"),
    }
}

#[test]
fn writes_through_std(rt: HostRuntime) {
    let mut out = StdSink::new(Vec::new(rt.alloc()));
    assert!(rt; out.write_piece(b"abc") == Ok(3));
    assert!(rt; write_whole(&mut out, b"def").is_ok());
    assert!(rt; write_whole(&mut NullSink::new(), b"ghi").is_ok());
}

#[test]
fn writes_what_there_is_room_for(rt: HostRuntime) {
    match MemSink::new(rt.alloc(), 2, Vec::new(rt.alloc())) {
        Ok(mut sink) => {
            assert!(rt; write_whole(&mut sink, b"abc").is_err());
            assert!(rt; sink.bytes() == b"ab".as_slice());
        }
        Err(_) => panic!(rt; "no memory"),
    }
}

/// Takes two bytes at a call, and counts how often it is flushed.
#[derive(Drop)]
struct Counting<'a> {
    flushes: &'a Cell<u8>,
}

impl<'a> Write for Counting<'a> {
    fn write(&mut self, bytes: &[u8]) -> std::io::Result<usize> {
        Ok(bytes.len().min(2))
    }

    fn flush(&mut self) -> std::io::Result<()> {
        self.flushes.set(self.flushes.get().saturating_add(1));
        Ok(())
    }
}

#[test]
fn flushes_behind_each_piece(rt: HostRuntime) {
    let flushes = Cell::new(0);
    let mut out = StdSink::new(Counting { flushes: &flushes });
    assert!(rt; write_whole(&mut out, b"abcde").is_ok());
    assert!(rt; flushes.get() == 3);
}
