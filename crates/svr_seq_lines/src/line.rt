// One line.

ghost use Rattle.std.specs.Prelude.{◌≡◌, ◌++◌, OnOk, OnErr, flat_map};
ghost use Rattle.std.specs.Io.KnownBytes.{Appends};
ghost use Rattle.svr_edge.specs.Causes.{HasCause};
ghost use Rattle.svr_edge.specs.Known.{AppendsFront};
ghost use Rattle.svr_stream.specs.Puts.{Puts, place};
ghost use Rattle.svr_token.specs.Names.{names_of};
ghost use Rattle.svr_seq_lines.specs.Lines as spec;

use svr_edge::{Failed, Sink};
use svr_seq::SeqEnd;
use svr_stream::Pending;
use svr_token::Names;

/// A name with a space before it.
fn put_name<K: Sink>(text: &mut Pending, out: &mut K, names: Names<'_>, token: u32)
    ensures { Puts (place (K.written out.old) (K.faults out.old) text.old) (place (K.written out.new) (K.faults out.new) text.new)
        (spec.spaced (names_of names.entry) token) }
{
    text.put(out, b" ");
    text.put(out, names.name(token));
}

/// Names, each with a space before it.
fn put_names<K: Sink>(text: &mut Pending, out: &mut K, names: Names<'_>, printed: &[u32])
    ensures { Puts (place (K.written out.old) (K.faults out.old) text.old) (place (K.written out.new) (K.faults out.new) text.new)
        (flat_map (spec.spaced (names_of names.entry)) printed.now) }
{
    for token in printed {
        put_name(text, out, names, *token);
    }
}

/// What stands behind the number of a line.
fn put_end<K: Sink>(text: &mut Pending, out: &mut K, names: Names<'_>, end: &SeqEnd)
    ensures { Puts (place (K.written out.old) (K.faults out.old) text.old) (place (K.written out.new) (K.faults out.new) text.new)
        (spec.end_text (names_of names.entry) end.now) }
{
    match end {
        SeqEnd::Names(printed) => put_names(text, out, names, printed.as_slice()),
        SeqEnd::Limit => text.put(out, b" limit"),
    }
}

fn put_line<K: Sink>(text: &mut Pending, out: &mut K, names: Names<'_>, number: u32, end: &SeqEnd)
    ensures { Puts (place (K.written out.old) (K.faults out.old) text.old) (place (K.written out.new) (K.faults out.new) text.new)
        (spec.line_text (names_of names.entry) number end.now) }
{
    text.put(out, b"#");
    text.put_number(out, number);
    put_end(text, out, names, end);
    text.put(out, b"\n");
}

/// Writes the line of this number that ends so, or a front of it where the sink fails.
pub(crate) fn print<K: Sink>(
    out: &mut K,
    names: Names<'_>,
    number: u32,
    end: &SeqEnd,
) -> Result<(), Failed>
    ensures whole { OnOk result (Appends (K.written out.old) (K.written out.new) (spec.line_text (names_of names.entry) number end.now)) }
    ensures front { OnErr result (AppendsFront (K.written out.old) (K.written out.new) (spec.line_text (names_of names.entry) number end.now)) }
    ensures cause { HasCause (K.faults out.old) (K.faults out.new) result }
{
    let mut text = Pending::new();
    put_line(&mut text, out, names, number, end);
    text.finish(out)
}
