// The sizes of all properties.

ghost use Rattle.std.specs.Prelude.{◌≡◌, ◌≤◌, ℕ, None, Some, MatchOption, List, length, slice_index, IfOk};
ghost use Rattle.svr_chain.specs.declared.clause.Lit.{Lit};
ghost use Rattle.svr_limits.specs.declared.limit.TheConstants.{PROPERTY_LIMIT};
ghost use Rattle.svr_query.specs.Logged.{valuation_of};
ghost use Rattle.svr_eval.specs.Reading.{reading_of};
ghost use Rattle.svr_frame.specs.declared.part.Part.TheVariants.{Sizes};
ghost use Rattle.svr_frame.specs.Frame.{frame_term, state_at};
ghost use Rattle.svr_frame.specs.Occurrences.{Occurrence};
ghost use Rattle.svr_frame.specs.Sound.{IsSound};
ghost use Rattle.svr_vector.specs.Places.{rows};
ghost use Rattle.svr_inputs.specs.Inputs.{bits_of, size_row, read_or};
ghost use Rattle.svr_encoded.specs.Slots.{reading_at};
ghost use Rattle.svr_phase.specs.Spent.{EncodesItems};
ghost use Rattle.svr_phase.specs.Sizes.{sizes_read};

use crate::memory::NoMemory;
use sqlite_items::Items;
use std::alloc::Global;
use svr_chain::Lit;
use svr_encoded::{Encoded, table_of};
use svr_eval::Assign;
use svr_frame::Frame;
use svr_inputs::Table;
use svr_question::number_read;

/// The size of each property under an assignment.
pub(crate) fn sizes_of(alloc: Global, frame: &Frame, a: &Assign) -> Result<Items<u32>, NoMemory>
    requires { length (frame_term frame.now).class.props ≤ PROPERTY_LIMIT }
    ensures { IfOk result (λ sizes. sizes ≡ sizes_read (frame_term frame.now) (reading_of a.now)) }
{
    let mut sizes = Items::new(alloc);
    for prop in 0..frame.class.props.len() as u32 {
        sizes.push(a.size(prop))?;
    }
    Ok(sizes)
}

/// The bits of a row.
fn row_at(bits: &[Vec<Lit>], row: Option<u32>) -> Option<&[Lit]>
    ensures { MatchOption result (bits_of (rows bits.now) row ≡ None) (λ ls. bits_of (rows bits.now) row ≡ Some ls.now) }
{
    match row {
        None => None,
        Some(row) => {
            if (row as usize) < bits.len() {
                Some(bits[row as usize].as_slice())
            } else {
                None
            }
        }
    }
}

/// The number that the bits of a size spell, or the state's size where it has none.
fn size_found(frame: &Frame, table: &Table, bits: &[Vec<Lit>], values: &[bool], prop: u32) -> u32
    requires { (ls : List Lit) → bits_of (rows bits.now) (size_row table.now prop) ≡ Some ls → length ls ≤ 32 }
    ensures { result ≡ read_or (slice_index (frame_term frame.now).state.sizes prop) (valuation_of values.now) (bits_of (rows bits.now) (size_row table.now prop)) }
{
    match row_at(bits, table.size_row(prop)) {
        Some(row) => number_read(row, values) as u32,
        None => frame.state.size(prop),
    }
}

/// The size of each property under the values of the variables of an encoding from 1 on: the number that its bits spell, or its size in the state where it has none.
pub(crate) fn sizes_found(
    alloc: Global,
    frame: &Frame,
    encoding: &Encoded,
    values: &[bool],
) -> Result<Items<u32>, NoMemory>
    requires sound { IsSound (frame_term frame.now) }
    requires encodes { (k : ℕ) × (k ≤ 32) × (os : List Occurrence) × EncodesItems (frame_term frame.now) Sizes (frame_term frame.now).state.sizes k os encoding.now }
    ensures { IfOk result (λ sizes. sizes ≡ sizes_read (frame_term frame.now) (reading_at (state_at (frame_term frame.now) (frame_term frame.now).state.sizes) encoding.now.slots.items (rows encoding.now.bits.items) (valuation_of values.now))) }
{
    let table = table_of(alloc, encoding.slots.as_slice())?;
    let bits = encoding.bits.as_slice();
    let mut sizes = Items::new(alloc);
    for prop in 0..frame.class.props.len() as u32 {
        sizes.push(size_found(frame, &table, bits, values, prop))?;
    }
    Ok(sizes)
}
