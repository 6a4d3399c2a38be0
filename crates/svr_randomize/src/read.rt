// The numbers that the items of the last phase were made for.

ghost use Rattle.std.specs.Prelude.{◌≡◌, true, false, ℕ, [], slice_index_or, IfOk};
ghost use Rattle.svr_frame.specs.Frame.{frame_term};
ghost use Rattle.svr_randomize.specs.Kept.{Reads};

use crate::memory::NoMemory;
use sqlite_items::Items;
use std::alloc::Global;
use svr_eval::Assign;
use svr_frame::Frame;

/// Whether a property is random.
fn is_random(random: &[bool], prop: usize) -> bool
    ensures { result ≡ slice_index_or random.now prop false }
{
    match random.get(prop) {
        Some(random) => *random,
        None => false,
    }
}

/// The numbers of a property, none where there is no such property.
fn row_of(rows: &[Items<u64>], prop: usize) -> &[u64]
    ensures { result.now ≡ slice_index_or rows.now prop [] }
{
    match rows.get(prop) {
        Some(row) => row.as_slice(),
        None => &[],
    }
}

/// A copy of the numbers of a property, but for one that is random.
fn fixed_row(
    alloc: Global,
    random: &[bool],
    rows: &[Items<u64>],
    prop: usize,
) -> Result<Items<u64>, NoMemory>
    ensures { IfOk result (λ row. slice_index_or random.now prop false ≡ false → row ≡ slice_index_or rows.now prop []) }
{
    if is_random(random, prop) {
        return Ok(Items::new(alloc));
    }
    Ok(Items::from_slice(alloc, row_of(rows, prop))?)
}

/// The numbers of the properties that are not random.
fn fixed_rows(
    alloc: Global,
    random: &[bool],
    rows: &[Items<u64>],
) -> Result<Items<Items<u64>>, NoMemory>
    ensures { IfOk result (λ fixed. (p : ℕ) → slice_index_or random.now p false ≡ false → slice_index_or rows.now p [] ≡ slice_index_or fixed p []) }
{
    let mut fixed = Items::new(alloc);
    for prop in 0..rows.len() {
        let row = fixed_row(alloc, random, rows, prop)?;
        fixed.push(row)?;
    }
    Ok(fixed)
}

/// What the items of the last phase of a call at these sizes read.
pub(crate) fn what_is_read(alloc: Global, frame: &Frame, sizes: &[u32]) -> Result<Assign, NoMemory>
    ensures sizes { IfOk result (λ read. read.sizes ≡ sizes.now) }
    ensures read { IfOk result (Reads (frame_term frame.now)) }
{
    let random = frame.random.as_slice();
    let rows = frame.state.values.as_slice();
    let values = fixed_rows(alloc, random, rows)?;
    let sizes = Items::from_slice(alloc, sizes)?;
    let script = Items::from_slice(alloc, frame.state.script.as_slice())?;
    Ok(Assign {
        values,
        sizes,
        script,
    })
}

fn are_same_sizes(sizes: &[u32], others: &[u32]) -> bool
    ensures { result ≡ true → sizes.now ≡ others.now }
{
    sizes == others
}

fn are_same_numbers(numbers: &[u64], others: &[u64]) -> bool
    ensures { result ≡ true → numbers.now ≡ others.now }
{
    numbers == others
}

/// Whether a property is random, or has the same numbers in both lists.
fn is_same_row(random: &[bool], rows: &[Items<u64>], others: &[Items<u64>], prop: usize) -> bool
    ensures { result ≡ true → slice_index_or random.now prop false ≡ false → slice_index_or rows.now prop [] ≡ slice_index_or others.now prop [] }
{
    if is_random(random, prop) {
        return true;
    }
    are_same_numbers(row_of(rows, prop), row_of(others, prop))
}

/// Whether all properties that are not random have the same numbers in both lists.
fn are_same_rows(random: &[bool], rows: &[Items<u64>], others: &[Items<u64>]) -> bool
    ensures { result ≡ true → (p : ℕ) → slice_index_or random.now p false ≡ false → slice_index_or rows.now p [] ≡ slice_index_or others.now p [] }
{
    if rows.len() != others.len() {
        return false;
    }
    for prop in 0..rows.len() {
        if !is_same_row(random, rows, others, prop) {
            return false;
        }
    }
    true
}

/// Whether the items of the last phase of a call at these sizes read the same numbers again.
pub(crate) fn reads_again(frame: &Frame, sizes: &[u32], read: &Assign) -> bool
    ensures sizes { result ≡ true → read.now.sizes ≡ sizes.now }
    ensures read { result ≡ true → Reads (frame_term frame.now) read.now }
{
    if !are_same_sizes(read.sizes.as_slice(), sizes) {
        return false;
    }
    if !are_same_numbers(frame.state.script.as_slice(), read.script.as_slice()) {
        return false;
    }
    let random = frame.random.as_slice();
    are_same_rows(
        random,
        frame.state.values.as_slice(),
        read.values.as_slice(),
    )
}
