// The lines of a text that is accepted.

ghost use Rattle.std.specs.Prelude.{◌≡◌, ◌≤◌, IfOk, IfErr, OnOk, OnErr};
ghost use Rattle.std.specs.Io.KnownBytes.{Appends};
ghost use Rattle.svr_edge.specs.Known.{AppendsFront};
ghost use Rattle.svr_seq_lines.specs.Lines as spec;
ghost use Rattle.svr_seq_lines.specs.Said.{IsCause};
ghost use Rattle.svr_seq_lines.specs.Sequence.{sequence_term, EndsSo};

use crate::end::{End, Stop};
use crate::line::print;
use std::alloc::Global;
use svr_draw::Draws;
use svr_edge::Sink;
use svr_seq::{Seq, SeqEnd, derive};
use svr_token::Names;
use svr_typed::NoMemory;

/// What lines are made of: what the tokens of a text spell, the productions that it writes, and a seed.
#[derive(Clone, Copy)]
pub(crate) struct Sequence<'a> {
    pub(crate) names: Names<'a>,
    pub(crate) seq: &'a Seq,
    pub(crate) seed: u64,
}

/// How the line of this number ends.
fn end_of(alloc: Global, sequence: &Sequence<'_>, number: u32) -> Result<SeqEnd, NoMemory>
    ensures { IfOk result (λ end. end ≡ spec.end_of (sequence_term sequence.now) number) }
{
    let mut draws = Draws::new(sequence.seed, u64::from(number));
    derive(alloc, sequence.seq, &mut draws)
}

fn is_limit(end: &SeqEnd) -> bool
    ensures { result ≡ spec.is_limit end.now }
{
    match end {
        SeqEnd::Names(_) => false,
        SeqEnd::Limit => true,
    }
}

/// Writes the line of this number, and tells whether it needs too many units.
fn tell_line<K: Sink>(
    alloc: Global,
    sequence: &Sequence<'_>,
    number: u32,
    out: &mut K,
) -> Result<bool, Stop>
    ensures long { IfOk result (λ long. long ≡ spec.is_long (sequence_term sequence.now) number) }
    ensures whole { OnOk result (Appends (K.written out.old) (K.written out.new) (spec.line_of (sequence_term sequence.now) number)) }
    ensures kept { OnOk result (K.faults out.new ≡ K.faults out.old) }
    ensures front { OnErr result (AppendsFront (K.written out.old) (K.written out.new) (spec.line_of (sequence_term sequence.now) number)) }
    ensures cause { IfErr result (λ why. IsCause why (K.faults out.old) (K.faults out.new)) }
    ensures later { K.faults out.old ≤ K.faults out.new }
{
    let end = end_of(alloc, sequence, number)?;
    let long = is_limit(&end);
    print(out, sequence.names, number, &end)?;
    Ok(long)
}

/// Writes the lines from 1 to this number, or up to and with the first that needs too many units.
pub(crate) fn tell_lines<K: Sink>(
    alloc: Global,
    sequence: &Sequence<'_>,
    count: u32,
    out: &mut K,
) -> Result<End, Stop>
    ensures ends { IfOk result (λ end. EndsSo end (spec.some_long (sequence_term sequence.now) 1 count)) }
    ensures whole { OnOk result (Appends (K.written out.old) (K.written out.new) (spec.lines_from (sequence_term sequence.now) 1 count)) }
    ensures kept { OnOk result (K.faults out.new ≡ K.faults out.old) }
    ensures front { OnErr result (AppendsFront (K.written out.old) (K.written out.new) (spec.lines_from (sequence_term sequence.now) 1 count)) }
    ensures cause { IfErr result (λ why. IsCause why (K.faults out.old) (K.faults out.new)) }
    ensures later { K.faults out.old ≤ K.faults out.new }
{
    for told in 0..count {
        let long = tell_line(alloc, sequence, told + 1, out)?;
        if long {
            return Ok(End::Limited);
        }
    }
    Ok(End::Whole)
}
