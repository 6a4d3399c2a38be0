// The items that contradict each other, where the hard items of a call cannot be met.

ghost use Rattle.std.specs.Prelude.{◌≡◌, ◌++◌, [], codes, cond, flat_map, slice_index_or};
ghost use Rattle.svr_frame.specs.Frame.{frame_term};
ghost use Rattle.svr_stream.specs.Puts.{Puts, place};
ghost use Rattle.svr_script.specs.Conflicts as spec;
ghost use Rattle.svr_script.specs.ProofText.{log_over};

use crate::proof::put_log_over;
use svr_chain::Refutation;
use svr_conflict::{ConflictEnd, Member};
use svr_edge::Sink;
use svr_encoded::Encoded;
use svr_frame::Frame;
use svr_stream::Pending;
use svr_typed::Text;

/// The name at a place, empty where there is none.
fn name_at(names: &[Text], place: u32) -> &[u8]
    ensures { result.now ≡ slice_index_or names.now place [] }
{
    match names.get(place as usize) {
        Some(name) => name.as_bytes(),
        None => &[],
    }
}

/// A member by the name of its item.
fn put_member<K: Sink>(text: &mut Pending, out: &mut K, names: &[Text], member: &Member)
    ensures { Puts (place (K.written out.old) (K.faults out.old) text.old) (place (K.written out.new) (K.faults out.new) text.new)
        (spec.member_text names.now member.now) }
{
    text.put(out, b" ");
    text.put(out, name_at(names, member.item));
}

fn put_members<K: Sink>(text: &mut Pending, out: &mut K, names: &[Text], members: &[Member])
    ensures { Puts (place (K.written out.old) (K.faults out.old) text.old) (place (K.written out.new) (K.faults out.new) text.new)
        (flat_map (spec.member_text names.now) members.now) }
{
    for member in members {
        put_member(text, out, names, member);
    }
}

/// The line of items that contradict each other.
fn put_set<K: Sink>(text: &mut Pending, out: &mut K, names: &[Text], members: &[Member])
    ensures { Puts (place (K.written out.old) (K.faults out.old) text.old) (place (K.written out.new) (K.faults out.new) text.new)
        (spec.members_text names.now members.now) }
{
    text.put(out, b"conflict");
    put_members(text, out, names, members);
    text.put(out, b"\n");
}

/// The log of a question for them that was given up.
fn put_spent_log<K: Sink>(
    text: &mut Pending,
    out: &mut K,
    frame: &Frame,
    encoding: &Encoded,
    log: &Refutation,
    first: u64,
)
    ensures { Puts (place (K.written out.old) (K.faults out.old) text.old) (place (K.written out.new) (K.faults out.new) text.new)
        (log_over (codes "conflict") (frame_term frame.now) encoding.now log.now first) }
{
    put_log_over(text, out, b"conflict", frame, encoding, log, first);
}

/// That log where it is printed.
fn put_wanted_log<K: Sink>(
    text: &mut Pending,
    out: &mut K,
    wanted: bool,
    frame: &Frame,
    encoding: &Encoded,
    log: &Refutation,
    first: u64,
)
    ensures { Puts (place (K.written out.old) (K.faults out.old) text.old) (place (K.written out.new) (K.faults out.new) text.new)
        (cond wanted (log_over (codes "conflict") (frame_term frame.now) encoding.now log.now first) []) }
{
    if wanted {
        put_spent_log(text, out, frame, encoding, log, first)
    }
}

/// The line of a question for them that was given up, and its log where that is printed.
fn put_spent<K: Sink>(
    text: &mut Pending,
    out: &mut K,
    wanted: bool,
    frame: &Frame,
    encoding: &Encoded,
    log: &Refutation,
    first: u64,
)
    ensures { Puts (place (K.written out.old) (K.faults out.old) text.old) (place (K.written out.new) (K.faults out.new) text.new)
        (codes "conflict gaveup\n" ++ cond wanted (log_over (codes "conflict") (frame_term frame.now) encoding.now log.now first) []) }
{
    text.put(out, b"conflict gaveup\n");
    put_wanted_log(text, out, wanted, frame, encoding, log, first);
}

/// Puts the line of the items that contradict each other, by their names; or that the question was given up, with its log behind it where proofs are printed.
pub fn put_conflict<K: Sink>(
    text: &mut Pending,
    out: &mut K,
    proofs: bool,
    frame: &Frame,
    names: &[Text],
    end: &ConflictEnd,
)
    ensures { Puts (place (K.written out.old) (K.faults out.old) text.old) (place (K.written out.new) (K.faults out.new) text.new)
        (spec.end_text proofs (frame_term frame.now) names.now end.now) }
{
    match end {
        ConflictEnd::Meets(_) => {}
        ConflictEnd::Set(conflict) => put_set(text, out, names, conflict.members.as_slice()),
        ConflictEnd::Spent {
            encoding,
            log,
            first,
        } => put_spent(text, out, proofs, frame, encoding, log, *first),
    }
}

/// Puts the log of a question for them that was given up alone.
pub fn put_conflict_log<K: Sink>(text: &mut Pending, out: &mut K, frame: &Frame, end: &ConflictEnd)
    ensures { Puts (place (K.written out.old) (K.faults out.old) text.old) (place (K.written out.new) (K.faults out.new) text.new)
        (spec.spent_log (frame_term frame.now) end.now) }
{
    match end {
        ConflictEnd::Meets(_) => {}
        ConflictEnd::Set(_) => {}
        ConflictEnd::Spent {
            encoding,
            log,
            first,
        } => put_spent_log(text, out, frame, encoding, log, *first),
    }
}
