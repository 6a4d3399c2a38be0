// Text put piece by piece into sinks that take all, some or nothing.

use crate::Pending;
use svr_edge::{MemSink, NullSink};

/// Puts so many pieces of four bytes and a number, and tells whether all was written.
fn is_written(out: &mut MemSink, pieces: u64) -> bool {
    let mut text = Pending::new();
    for _piece in 0..pieces {
        text.put(out, b"abc ");
    }
    text.put_number(out, pieces);
    text.finish(out).is_ok()
}

#[test]
fn more_than_there_is_room_for(rt: HostRuntime) {
    match MemSink::new(rt.alloc(), 10_000, Vec::new(rt.alloc())) {
        Ok(mut sink) => {
            assert!(rt; is_written(&mut sink, 2_000));
            assert!(rt; sink.bytes().len() == 8_004);
            assert!(rt; sink.bytes().ends_with(b"abc abc 2000"));
        }
        Err(_) => panic!(rt; "no memory"),
    }
}

#[test]
fn a_sink_that_fails_on_the_way(rt: HostRuntime) {
    match MemSink::new(rt.alloc(), 5_000, Vec::new(rt.alloc())) {
        Ok(mut sink) => {
            assert!(rt; !is_written(&mut sink, 2_000));
            assert!(rt; sink.bytes().len() == 5_000);
            assert!(rt; sink.bytes().ends_with(b"abc abc "));
        }
        Err(_) => panic!(rt; "no memory"),
    }
}

#[test]
fn a_piece_longer_than_the_room(rt: HostRuntime) {
    let mut text = Pending::default();
    text.put(&mut NullSink::new(), b"before");
    text.put(&mut NullSink::new(), &[b'x'; 5_000]);
    assert!(rt; text.finish(&mut NullSink::new()).is_ok());
}
