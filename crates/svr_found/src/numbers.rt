// The numbers that bits spell, in lists.

ghost use Rattle.std.specs.Prelude.{◌≡◌, ◌≤◌, ℕ, [], None, Some, MatchOption, length, slice_index, slice_index_or, IfOk};
ghost use Rattle.svr_limits.specs.declared.limit.TheConstants.{PROPERTY_LIMIT};
ghost use Rattle.svr_query.specs.Logged.{valuation_of};
ghost use Rattle.svr_eval.specs.Reading.{reading_of};
ghost use Rattle.svr_vector.specs.Places.{rows};
ghost use Rattle.svr_inputs.specs.Inputs as spec;
ghost use Rattle.svr_inputs.specs.Inputs.{state_of, read_at};
ghost use Rattle.svr_found.specs.Listed.{AreShort, numbers_read, rows_read};

use sqlite_items::Items;
use std::alloc::Global;
use svr_chain::Lit;
use svr_eval::Assign;
use svr_inputs::Inputs;
use svr_question::number_read;
use svr_vector::NoMemory;

/// The bits of a row.
fn bits_of(bits: &[Vec<Lit>], row: Option<u32>) -> Option<&[Lit]>
    ensures { MatchOption result (spec.bits_of (rows bits.now) row ≡ None) (λ ls. spec.bits_of (rows bits.now) row ≡ Some ls.now) }
{
    match row {
        None => None,
        Some(row) => {
            if (row as usize) < bits.len() {
                Some(bits[row as usize].as_slice())
            } else {
                None
            }
        }
    }
}

/// The bits of a number of a property.
fn number_bits<'a>(inputs: &Inputs<'a>, prop: u32, index: u64) -> Option<&'a [Lit]>
    ensures { MatchOption result (spec.number_bits inputs.now prop index ≡ None) (λ ls. spec.number_bits inputs.now prop index ≡ Some ls.now) }
{
    bits_of(inputs.bits, inputs.table.number_row(prop, index))
}

/// The number that the state has at a place, 0 past the size of an array.
fn number_of_state(inputs: &Inputs<'_>, prop: u32, index: u64) -> u64
    ensures { result ≡ (state_of inputs.now).element prop index }
{
    if index < u64::from(inputs.size(prop)) {
        inputs.state.element(prop, index)
    } else {
        0
    }
}

/// The number at a place: what its bits spell, or the state's where it has none.
fn number_found(inputs: &Inputs<'_>, values: &[bool], prop: u32, index: u64) -> u64
    requires { AreShort inputs.now }
    ensures { result ≡ (read_at inputs.now (valuation_of values.now)).element prop index }
{
    match number_bits(inputs, prop, index) {
        Some(bits) => number_read(bits, values),
        None => number_of_state(inputs, prop, index),
    }
}

/// The first `count` numbers of a property.
fn row_found(
    alloc: Global,
    inputs: &Inputs<'_>,
    values: &[bool],
    prop: u32,
    count: u32,
) -> Result<Items<u64>, NoMemory>
    requires { AreShort inputs.now }
    ensures { IfOk result (λ row. row ≡ numbers_read inputs.now (valuation_of values.now) prop count) }
{
    let mut row = Items::new(alloc);
    for index in 0..count {
        row.push(number_found(inputs, values, prop, u64::from(index)))?;
    }
    Ok(row)
}

/// The numbers of all properties, at their sizes.
fn rows_found(
    alloc: Global,
    inputs: &Inputs<'_>,
    values: &[bool],
) -> Result<Items<Items<u64>>, NoMemory>
    requires short { AreShort inputs.now }
    requires few { length inputs.now.sizes.now ≤ PROPERTY_LIMIT }
    ensures { IfOk result (λ all. all ≡ rows_read inputs.now (valuation_of values.now) (length inputs.now.sizes.now)) }
{
    let mut all = Items::new(alloc);
    for prop in 0..inputs.sizes.len() as u32 {
        let row = row_found(alloc, inputs, values, prop, inputs.size(prop))?;
        all.push(row)?;
    }
    Ok(all)
}

/// The assignment that the bits of all numbers spell. No size has bits, and nothing past a size has any.
pub(crate) fn reading_found(
    alloc: Global,
    inputs: &Inputs<'_>,
    values: &[bool],
) -> Result<Assign, NoMemory>
    requires short { AreShort inputs.now }
    requires few { length inputs.now.sizes.now ≤ PROPERTY_LIMIT }
    requires past { (p j : ℕ) → slice_index inputs.now.sizes.now p ≤ j → spec.number_bits inputs.now p j ≡ None }
    requires sizes { (p : ℕ) → spec.size_bits inputs.now p ≡ None }
    ensures reads { IfOk result (λ a. reading_of a ≡ read_at inputs.now (valuation_of values.now)) }
    ensures long { IfOk result (λ a. (p : ℕ) → length (slice_index_or a.values p []) ≡ slice_index inputs.now.sizes.now p) }
{
    let numbers = rows_found(alloc, inputs, values)?;
    let sizes = Items::from_slice(alloc, inputs.sizes)?;
    let script = Items::from_slice(alloc, inputs.state.script.as_slice())?;
    Ok(Assign {
        values: numbers,
        sizes,
        script,
    })
}
