// Bytes on their way to a sink.

ghost use Rattle.std.specs.Prelude.{◌≡◌, ◌≤◌, ◌+◌, ◌++◌, [], false, length, take, is_err};
ghost use Rattle.svr_stream.specs.Puts.{Puts, place, place_at};

use itoa::{Buffer, Integer};
use std::marker::Model;
use svr_edge::{Failed, Sink, write_whole};

/// So many bytes wait at most.
const ROOM: usize = 4096;

/// Bytes on their way to a sink: they are written where the room is full, and at the end.
///
/// Where the sink fails, nothing more is written, and `finish` tells it.
#[derive(Drop)]
pub struct Pending {
    bytes: [u8; ROOM],
    count: usize,
    failed: bool,
}

impl Model for Pending {
    ghost use Rattle.std.specs.Prelude.{◌≤◌, take};
    ghost use Rattle.svr_stream.specs.Waiting.{Waiting};

    ghost Value = { Waiting };

    ghost view = { λ s. record { bytes = take s.count s.bytes; failed = s.failed } };

    ghost invariant = { λ s. s.count ≤ 4096 };
}

/// Copies a piece to a place, and tells where it ends.
fn lay(into: &mut [u8], at: usize, piece: &[u8]) -> usize
    requires { at + length piece.now ≤ length into.old }
    ensures end { result ≡ at + length piece.now }
    ensures laid { take result into.new ≡ take at into.old ++ piece.now }
{
    let end = at + piece.len();
    into[at..end].copy_from_slice(piece);
    end
}

/// Writes a piece where the sink has not failed before, and tells whether it has failed by now.
fn write_on<K: Sink>(out: &mut K, piece: &[u8], failed: bool) -> bool
    ensures { Puts (place_at (K.written out.old) (K.faults out.old) failed) (place_at (K.written out.new) (K.faults out.new) result) piece.now }
{
    if failed {
        return true;
    }
    write_whole(out, piece).is_err()
}

impl Pending {
    /// Nothing waits, and nothing has failed.
    pub fn new() -> Self
        ensures { result ≡ record { bytes = []; failed = false } }
    {
        Pending {
            bytes: [0; ROOM],
            count: 0,
            failed: false,
        }
    }

    /// How much room there is.
    fn room(&self) -> usize
        ensures { result + length self.now.bytes ≡ 4096 }
    {
        ROOM - self.count
    }

    /// Keeps a piece for which there is room.
    fn hold(&mut self, piece: &[u8])
        requires { length piece.now + length self.old.bytes ≤ 4096 }
        ensures { self.new ≡ record { bytes = self.old.bytes ++ piece.now; failed = self.old.failed } }
    {
        self.count = lay(&mut self.bytes, self.count, piece);
    }

    /// Writes what waits.
    fn flush<K: Sink>(&mut self, out: &mut K)
        ensures puts { Puts (place (K.written out.old) (K.faults out.old) self.old) (place (K.written out.new) (K.faults out.new) self.new) [] }
        ensures none { self.new.bytes ≡ [] }
    {
        self.failed = write_on(out, &self.bytes[..self.count], self.failed);
        self.count = 0;
    }

    /// Writes a piece for which there is no room, where nothing waits.
    fn pass<K: Sink>(&mut self, out: &mut K, piece: &[u8])
        requires { self.old.bytes ≡ [] }
        ensures { Puts (place (K.written out.old) (K.faults out.old) self.old) (place (K.written out.new) (K.faults out.new) self.new) piece.now }
    {
        self.failed = write_on(out, piece, self.failed);
    }

    /// A piece where nothing waits.
    fn begin<K: Sink>(&mut self, out: &mut K, piece: &[u8])
        requires { self.old.bytes ≡ [] }
        ensures { Puts (place (K.written out.old) (K.faults out.old) self.old) (place (K.written out.new) (K.faults out.new) self.new) piece.now }
    {
        if piece.len() <= ROOM {
            self.hold(piece);
        } else {
            self.pass(out, piece);
        }
    }

    /// Puts a piece behind what waits.
    pub fn put<K: Sink>(&mut self, out: &mut K, piece: &[u8])
        ensures { Puts (place (K.written out.old) (K.faults out.old) self.old) (place (K.written out.new) (K.faults out.new) self.new) piece.now }
    {
        if piece.len() <= self.room() {
            self.hold(piece);
        } else {
            self.flush(out);
            self.begin(out, piece);
        }
    }

    /// Puts a number behind what waits, in decimal.
    pub fn put_number<K: Sink, I: Integer>(&mut self, out: &mut K, number: I)
        ensures { Puts (place (K.written out.old) (K.faults out.old) self.old) (place (K.written out.new) (K.faults out.new) self.new) (I.text number) }
    {
        let mut buffer = Buffer::new();
        self.put(out, buffer.format(number).as_bytes());
    }

    /// Writes what waits, and tells whether the sink has failed.
    pub fn finish<K: Sink>(self, out: &mut K) -> Result<(), Failed>
        ensures { Puts (place (K.written out.old) (K.faults out.old) self) (place_at (K.written out.new) (K.faults out.new) (is_err result)) [] }
    {
        let waiting = &self.bytes[..self.count];
        if write_on(out, waiting, self.failed) {
            return Err(Failed);
        }
        Ok(())
    }
}

impl Default for Pending {
    fn default() -> Self {
        Pending::new()
    }
}
