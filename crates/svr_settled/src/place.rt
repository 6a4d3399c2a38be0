// One number of an assignment.

ghost use Rattle.std.specs.Prelude.{◌≡◌, ◌<◌, ℕ, [], length, slice_index_or, slice_set, IfOk, OnOk};
ghost use Rattle.svr_eval.specs.Reading.{reading_of};
ghost use Rattle.svr_settled.specs.Steps.{with_number};

use sqlite_items::Items;
use std::alloc::Global;
use svr_eval::Assign;
use svr_typed::NoMemory;

/// A row with another number at a place that it has.
fn row_with(alloc: Global, row: &[u64], index: u32, number: u64) -> Result<Items<u64>, NoMemory>
    ensures { IfOk result (λ changed. changed ≡ slice_set row.now index number) }
{
    let mut changed = Items::from_slice(alloc, row)?;
    if (index as usize) < changed.len() {
        changed.set(index as usize, number);
    }
    Ok(changed)
}

/// The row of a property is another.
fn set_row(a: &mut Assign, prop: u32, row: Items<u64>)
    ensures { a.new ≡ record a.old { values = slice_set a.old.values prop row } }
{
    if (prop as usize) < a.values.len() {
        a.values.set(prop as usize, row);
    }
}

/// The numbers of a property.
fn row_of(a: &Assign, prop: u32) -> &[u64]
    ensures { result.now ≡ slice_index_or a.now.values prop [] }
{
    match a.values.as_slice().get(prop as usize) {
        Some(row) => row.as_slice(),
        None => &[],
    }
}

/// The number at a place is another.
pub fn put(
    alloc: Global,
    a: &mut Assign,
    prop: u32,
    index: u32,
    number: u64,
) -> Result<(), NoMemory>
    requires { index < length (slice_index_or a.old.values prop []) }
    ensures reads { OnOk result (reading_of a.new ≡ with_number (reading_of a.old) prop index number) }
    ensures long { OnOk result ((p : ℕ) → length (slice_index_or a.new.values p []) ≡ length (slice_index_or a.old.values p [])) }
{
    let row = row_with(alloc, row_of(a, prop), index, number)?;
    set_row(a, prop, row);
    Ok(())
}
