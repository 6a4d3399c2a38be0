// The end of a run, once there is no more to tell than one text.
ghost use Rattle.std.specs.Prelude.{◌≡◌, ◌≤◌, ◌⊎◌};
ghost use Rattle.std.specs.Io.KnownBytes.{Appends, Keeps};
ghost use Rattle.svr_edge.specs.Causes.{Rose};
ghost use Rattle.svr_edge.specs.Known.{AppendsFront};
ghost use Rattle.svr_status.specs.Lines as spec;

use crate::line::{NOWHERE, refused_at};
use crate::status::Status;
use std::alloc::{AllocError, Global};
use svr_edge::{Failed, Sink, write_whole};
use svr_refusal::Refusal;

/// The status, once all is written.
pub fn finish<K: Sink>(out: &mut K, bytes: &[u8], status: Status) -> Status
    ensures ends { ((result ≡ status) × Appends (K.written out.old) (K.written out.new) bytes.now)
        ⊎ ((result ≡ Status.WriteFault) × AppendsFront (K.written out.old) (K.written out.new) bytes.now × Rose (K.faults out.old) (K.faults out.new)) }
    ensures faults { K.faults out.old ≤ K.faults out.new }
{
    match write_whole(out, bytes) {
        Ok(()) => status,
        Err(Failed) => Status::WriteFault,
    }
}

/// The refusal of a text at no place in it.
pub fn refuse<K: Sink>(alloc: Global, out: &mut K, why: Refusal) -> Status
    ensures ends { ((result ≡ Status.Refused) × Appends (K.written out.old) (K.written out.new) (spec.refused_at spec.nowhere why))
        ⊎ (((result ≡ Status.WriteFault) × AppendsFront (K.written out.old) (K.written out.new) (spec.refused_at spec.nowhere why) × Rose (K.faults out.old) (K.faults out.new))
        ⊎ ((result ≡ Status.NoMemory) × Keeps (K.written out.old) (K.written out.new))) }
    ensures faults { K.faults out.old ≤ K.faults out.new }
{
    match refused_at(alloc, NOWHERE, why) {
        Ok(line) => finish(out, &line, Status::Refused),
        Err(AllocError) => Status::NoMemory,
    }
}
