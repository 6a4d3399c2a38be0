// Lines.

ghost use Rattle.std.specs.Prelude.{◌≡◌, ◌++◌, decimal, OnOk};
ghost use Rattle.svr_cover_report.specs.Report as spec;

use itoa::Buffer;
use svr_typed::NoMemory;

/// One more part.
pub(crate) fn put(text: &mut Vec<u8>, part: &[u8]) -> Result<(), NoMemory>
    ensures { OnOk result (text.new.items ≡ text.old.items ++ part.now) }
{
    text.extend_from_slice(part)?;
    Ok(())
}

fn put_digits(text: &mut Vec<u8>, number: u64) -> Result<(), NoMemory>
    ensures { OnOk result (text.new.items ≡ text.old.items ++ decimal number) }
{
    let mut buffer = Buffer::new();
    let digits = buffer.format(number).as_bytes();
    put(text, digits)?;
    Ok(())
}

/// A space and a number.
fn put_number(text: &mut Vec<u8>, number: u64) -> Result<(), NoMemory>
    ensures { OnOk result (text.new.items ≡ spec.with_number text.old.items number) }
{
    put(text, b" ")?;
    put_digits(text, number)
}

/// A space, a number, and the end of the line.
fn put_last(text: &mut Vec<u8>, number: u64) -> Result<(), NoMemory>
    ensures { OnOk result (text.new.items ≡ spec.with_last text.old.items number) }
{
    put_number(text, number)?;
    put(text, b"\n")
}

/// The line of a group: its name, and how many samples it took.
pub(crate) fn put_group(text: &mut Vec<u8>, name: &[u8], samples: u64) -> Result<(), NoMemory>
    ensures { OnOk result (text.new.items ≡ spec.with_group text.old.items name.now samples) }
{
    put(text, b"group ")?;
    put(text, name)?;
    put(text, b" samples")?;
    put_last(text, samples)
}

/// How many counters of a part are not 0, and how many there are.
fn put_hits(text: &mut Vec<u8>, hits: u64, many: u64) -> Result<(), NoMemory>
    ensures { OnOk result (text.new.items ≡ spec.with_hits text.old.items hits many) }
{
    put(text, b" hit")?;
    put_number(text, hits)?;
    put(text, b" of")?;
    put_last(text, many)
}

/// The line of a point.
pub(crate) fn put_point(
    text: &mut Vec<u8>,
    name: &[u8],
    hits: u64,
    many: u64,
) -> Result<(), NoMemory>
    ensures { OnOk result (text.new.items ≡ spec.with_point text.old.items name.now hits many) }
{
    put(text, b"point ")?;
    put(text, name)?;
    put_hits(text, hits, many)
}

/// The line of a cross.
pub(crate) fn put_cross(
    text: &mut Vec<u8>,
    name: &[u8],
    hits: u64,
    many: u64,
) -> Result<(), NoMemory>
    ensures { OnOk result (text.new.items ≡ spec.with_cross text.old.items name.now hits many) }
{
    put(text, b"cross ")?;
    put(text, name)?;
    put_hits(text, hits, many)
}

/// The line of a bin.
pub(crate) fn put_bin(text: &mut Vec<u8>, name: &[u8], count: u64) -> Result<(), NoMemory>
    ensures { OnOk result (text.new.items ≡ spec.with_bin text.old.items name.now count) }
{
    put(text, b"bin ")?;
    put(text, name)?;
    put_last(text, count)
}

/// What stands before the name of a tuple.
pub(crate) fn begin_tuple(text: &mut Vec<u8>) -> Result<(), NoMemory>
    ensures { OnOk result (text.new.items ≡ spec.with_opening text.old.items) }
{
    put(text, b"bin <")
}

/// What stands behind it, with its count.
pub(crate) fn end_tuple(text: &mut Vec<u8>, count: u64) -> Result<(), NoMemory>
    ensures { OnOk result (text.new.items ≡ spec.with_closing text.old.items count) }
{
    put(text, b">")?;
    put_last(text, count)
}

/// The comma before any name of a tuple but the first.
fn comma(first: bool) -> &'static [u8]
    ensures { result.now ≡ spec.comma first }
{
    if first { b"" } else { b",".as_slice() }
}

/// A name of a tuple.
pub(crate) fn put_name(text: &mut Vec<u8>, first: bool, name: &[u8]) -> Result<(), NoMemory>
    ensures { OnOk result (text.new.items ≡ spec.with_name text.old.items first name.now) }
{
    let mark = comma(first);
    put(text, mark)?;
    put(text, name)
}
