// The state at the sizes of a phase.

ghost use Rattle.std.specs.Prelude.{◌≡◌, IfOk, slice_index, take};
ghost use Rattle.svr_eval.specs.Reading.{reading_of};
ghost use Rattle.svr_frame.specs.Frame as spec;
ghost use Rattle.svr_frame.specs.Frame.{frame_term};
ghost use Rattle.svr_expand.specs.Cut.{cut_from};

use sqlite_items::Items;
use std::alloc::Global;
use svr_eval::Assign;
use svr_frame::Frame;
use svr_typed::NoMemory;

/// The numbers below the size.
fn first_numbers(alloc: Global, numbers: &[u64], size: u32) -> Result<Items<u64>, NoMemory>
    ensures { IfOk result (λ r. r ≡ take size numbers.now) }
{
    let most = numbers.len().min(size as usize);
    Ok(Items::from_slice(alloc, &numbers[..most])?)
}

/// The size at a place of a list, 0 where there is none.
fn size_from(sizes: &[u32], place: usize) -> u32
    ensures { result ≡ slice_index sizes.now place }
{
    match sizes.get(place) {
        Some(size) => *size,
        None => 0,
    }
}

/// The numbers of each property below its size.
#[tactic(auto, using(crate::proofs::Cuts::cut_turn))]
fn cut_numbers(
    alloc: Global,
    values: &[Items<u64>],
    sizes: &[u32],
) -> Result<Items<Items<u64>>, NoMemory>
    ensures { IfOk result (λ r. r ≡ cut_from 0 values.now sizes.now) }
{
    let mut kept = Items::new(alloc);
    for (prop, numbers) in values.iter().enumerate() {
        let size = size_from(sizes, prop);
        kept.push(first_numbers(alloc, numbers.as_slice(), size)?)?;
    }
    Ok(kept)
}

/// The state at these sizes: past the size of an array nothing stands.
#[tactic(auto, using(crate::proofs::Cuts::cut_reading))]
pub(crate) fn state_at(alloc: Global, frame: &Frame, sizes: &[u32]) -> Result<Assign, NoMemory>
    ensures { IfOk result (λ a. reading_of a ≡ spec.state_at (frame_term frame.now) sizes.now) }
{
    let values = cut_numbers(alloc, frame.state.values.as_slice(), sizes)?;
    let sizes = Items::from_slice(alloc, sizes)?;
    let script = Items::from_slice(alloc, frame.state.script.as_slice())?;
    Ok(Assign {
        values,
        sizes,
        script,
    })
}
