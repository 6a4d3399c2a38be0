// Chosen values of scalar properties, put into an assignment.

ghost use Rattle.std.specs.Prelude.{◌≡◌, ◌<◌, ℕ, [], ◌∷◌, map, length, drop, slice_index, slice_index_or, IfOk, OnOk};
ghost use Rattle.svr_eval.specs.Reading.{reading_of};
ghost use Rattle.svr_frame.specs.declared.slot.Slot.TheVariants.{Scalar};
ghost use Rattle.svr_draw.specs.Preferred.{number_in, reading_with};

use sqlite_items::Items;
use std::alloc::Global;
use svr_eval::Assign;
use svr_typed::NoMemory;

/// Rows without a number behind the others, until there is one of a property.
fn grow(alloc: Global, rows: &mut Items<Items<u64>>, prop: u32) -> Result<(), NoMemory>
    ensures there { OnOk result (prop < length rows.new) }
    ensures same { OnOk result ((p : ℕ) → slice_index_or rows.new p [] ≡ slice_index_or rows.old p []) }
{
    'rows: while rows.len() <= prop as usize {
        rows.push(Items::new(alloc))?;
    }
    Ok(())
}

/// A row with another first number, which it gets where it has none.
fn with_first(alloc: Global, row: &[u64], number: u64) -> Result<Items<u64>, NoMemory>
    ensures { IfOk result (λ changed. changed ≡ number ∷ drop 1 row.now) }
{
    if row.is_empty() {
        let mut changed = Items::new(alloc);
        changed.push(number)?;
        return Ok(changed);
    }
    let mut changed = Items::from_slice(alloc, row)?;
    changed.set(0, number);
    Ok(changed)
}

/// The numbers of a property.
fn row_of(rows: &[Items<u64>], prop: u32) -> &[u64]
    ensures { result.now ≡ slice_index_or rows.now prop [] }
{
    match rows.get(prop as usize) {
        Some(row) => row.as_slice(),
        None => &[],
    }
}

/// A scalar property has its chosen value.
fn put(alloc: Global, rows: &mut Items<Items<u64>>, choice: (u32, u64)) -> Result<(), NoMemory>
    ensures { OnOk result ((p i : ℕ) → slice_index (slice_index_or rows.new p []) i ≡ number_in ((Scalar choice.0, choice.1) ∷ []) p i (slice_index (slice_index_or rows.old p []) i)) }
{
    grow(alloc, rows, choice.0)?;
    let row = with_first(alloc, row_of(rows.as_slice(), choice.0), choice.1)?;
    rows.set(choice.0 as usize, row);
    Ok(())
}

/// Each scalar property that has a chosen value has it; of two values the first.
fn put_all(
    alloc: Global,
    rows: Items<Items<u64>>,
    chosen: &[(u32, u64)],
) -> Result<Items<Items<u64>>, NoMemory>
    ensures { IfOk result (λ all. (p i : ℕ) → slice_index (slice_index_or all p []) i ≡ number_in (map (λ (c : ℕ × ℕ). (Scalar c.0, c.1)) chosen.now) p i (slice_index (slice_index_or rows p []) i)) }
{
    let mut all = rows;
    let mut at = chosen.len();
    while at > 0 {
        at -= 1;
        put(alloc, &mut all, chosen[at])?;
    }
    Ok(all)
}

/// An assignment with chosen values of scalar properties.
pub(crate) fn with_chosen(
    alloc: Global,
    a: Assign,
    chosen: &[(u32, u64)],
) -> Result<Assign, NoMemory>
    ensures { IfOk result (λ b. reading_of b ≡ reading_with (reading_of a) (map (λ (c : ℕ × ℕ). (Scalar c.0, c.1)) chosen.now)) }
{
    let Assign {
        values: rows,
        sizes,
        script,
    } = a;
    let values = put_all(alloc, rows, chosen)?;
    Ok(Assign {
        values,
        sizes,
        script,
    })
}
