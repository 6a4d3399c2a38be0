// The names of bins.

ghost use Rattle.std.specs.Prelude.{◌≡◌, ◌≤◌, ◌++◌, ◌∷◌, [], decimal, OnOk, IfOk};
ghost use Rattle.svr_token.specs.Names.{names_of};
ghost use Rattle.svr_cover_made.specs.Named as spec;

use itoa::Buffer;
use sqlite_items::Items;
use std::alloc::Global;
use svr_cover_checked::{ZERO, low, size};
use svr_cover_text::{BinsText, RangeText};
use svr_token::Names;
use svr_typed::{NoMemory, Text};

/// One more part.
fn put(text: &mut Vec<u8>, part: &[u8]) -> Result<(), NoMemory>
    ensures { OnOk result (text.new.items ≡ text.old.items ++ part.now) }
{
    text.extend_from_slice(part)?;
    Ok(())
}

fn put_digits(text: &mut Vec<u8>, number: u64) -> Result<(), NoMemory>
    ensures { OnOk result (text.new.items ≡ text.old.items ++ decimal number) }
{
    let mut buffer = Buffer::new();
    let digits = buffer.format(number).as_bytes();
    put(text, digits)
}

/// A number that may be written, from where it stands among these.
fn put_level(text: &mut Vec<u8>, level: u64) -> Result<(), NoMemory>
    ensures { OnOk result (text.new.items ≡ spec.with_level text.old.items level) }
{
    if level < ZERO {
        put(text, b"-")?;
        put_digits(text, ZERO - level)
    } else {
        put_digits(text, level - ZERO)
    }
}

/// A name as a text of its own.
pub(crate) fn text_of(alloc: Global, name: &[u8]) -> Result<Text, NoMemory>
    ensures { IfOk result (λ t. t ≡ name.now) }
{
    Ok(Text::from_vec(Vec::from_slice(alloc, name)?))
}

/// The name of the bin of one number of a `bins` with `[]`.
fn each_name(alloc: Global, name: &[u8], level: u64) -> Result<Text, NoMemory>
    ensures { IfOk result (λ t. t ≡ spec.each_name name.now level) }
{
    let mut text = Vec::from_slice(alloc, name)?;
    put(&mut text, b"[")?;
    put_level(&mut text, level)?;
    put(&mut text, b"]")?;
    Ok(Text::from_vec(text))
}

/// The names of the bins of so many numbers.
#[tactic(auto, using(crate::proofs::Turns::one_name))]
fn put_numbers(
    alloc: Global,
    names: &mut Items<Text>,
    name: &[u8],
    low: u64,
    many: u64,
) -> Result<(), NoMemory>
    requires low { low ≤ 8589934591 }
    requires many { many ≤ 8589934592 }
    ensures { OnOk result (names.new ≡ spec.with_numbers names.old name.now low many) }
{
    for number in 0..many {
        let one = each_name(alloc, name, low + number)?;
        names.push(one)?;
    }
    Ok(())
}

fn put_ranges(
    alloc: Global,
    texts: Names<'_>,
    names: &mut Items<Text>,
    name: &[u8],
    written: &[RangeText],
) -> Result<(), NoMemory>
    ensures { OnOk result (names.new ≡ spec.with_ranges_names (names_of texts.entry) name.now names.old written.now) }
{
    let mut left = written;
    'written: while let Some((range, others)) = left.split_first() {
        put_numbers(alloc, names, name, low(texts, *range), size(texts, *range))?;
        left = others;
    }
    Ok(())
}

/// One more name.
fn put_one(alloc: Global, names: &mut Items<Text>, name: &[u8]) -> Result<(), NoMemory>
    ensures { OnOk result (names.new ≡ names.old ++ name.now ∷ []) }
{
    let one = text_of(alloc, name)?;
    names.push(one)?;
    Ok(())
}

/// The names of the bins of one `bins`.
fn put_bins(
    alloc: Global,
    texts: Names<'_>,
    names: &mut Items<Text>,
    bins: &BinsText,
) -> Result<(), NoMemory>
    ensures { OnOk result (names.new ≡ spec.with_names (names_of texts.entry) names.old bins.now) }
{
    let name = texts.name(bins.name);
    if bins.each {
        put_ranges(alloc, texts, names, name, bins.ranges.as_slice())
    } else {
        put_one(alloc, names, name)
    }
}

/// The names of the bins of a point, in their order.
pub(crate) fn all_names(
    alloc: Global,
    texts: Names<'_>,
    bins: &[BinsText],
) -> Result<Items<Text>, NoMemory>
    ensures { IfOk result (λ ns. ns ≡ spec.with_all_names (names_of texts.entry) [] bins.now) }
{
    let mut names = Items::new(alloc);
    let mut left = bins;
    'bins: while let Some((one, others)) = left.split_first() {
        put_bins(alloc, texts, &mut names, one)?;
        left = others;
    }
    Ok(names)
}
