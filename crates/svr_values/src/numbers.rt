// The lists of numbers that an object is to have.

ghost use Rattle.std.specs.Prelude.{◌≡◌, ◌≤◌, [], ◌∷◌, ◌++◌, length, map, slice_index, IfOk, OnOk};
ghost use Rattle.std.specs.List.{range_with_len};
ghost use Rattle.svr_limits.specs.declared.limit.TheConstants.{PROPERTY_LIMIT};
ghost use Rattle.svr_eval.specs.Reading.{reading_of};
ghost use Rattle.svr_frame.specs.Frame.{frame_term};
ghost use Rattle.svr_call.specs.Call.{numbers_read, random_props};

use sqlite_items::Items;
use std::alloc::Global;
use svr_eval::Assign;
use svr_frame::{Frame, size_at};
use svr_typed::NoMemory;
use svr_world::Replacement;

/// The first `count` numbers of a property.
fn row(alloc: Global, a: &Assign, prop: u32, count: u32) -> Result<Items<u64>, NoMemory>
    ensures { IfOk result (λ numbers. numbers ≡ map (λ i. (reading_of a.now).element prop i) (range_with_len 0 count)) }
{
    let mut numbers = Items::new(alloc);
    for index in 0..count {
        numbers.push(a.element(prop, u64::from(index)))?;
    }
    Ok(numbers)
}

/// The numbers of one property more.
fn push_row(
    alloc: Global,
    all: &mut Items<Replacement>,
    sizes: &[u32],
    a: &Assign,
    prop: u32,
) -> Result<(), NoMemory>
    ensures { OnOk result (all.new ≡ all.old ++ record { prop = prop; numbers = map (λ i. (reading_of a.now).element prop i) (range_with_len 0 (slice_index sizes.now prop)) } ∷ []) }
{
    let numbers = row(alloc, a, prop, size_at(sizes, prop))?;
    all.push(Replacement { prop, numbers })?;
    Ok(())
}

/// The numbers of each random property at these sizes, in flat order.
pub fn random_numbers(
    alloc: Global,
    frame: &Frame,
    sizes: &[u32],
    a: &Assign,
) -> Result<Items<Replacement>, NoMemory>
    requires { length (frame_term frame.now).class.props ≤ PROPERTY_LIMIT }
    ensures { IfOk result (λ numbers. numbers ≡ numbers_read sizes.now (reading_of a.now) (random_props (frame_term frame.now))) }
{
    let mut all = Items::new(alloc);
    for prop in 0..frame.class.props.len() as u32 {
        if frame.is_random(prop) {
            push_row(alloc, &mut all, sizes, a, prop)?;
        }
    }
    Ok(all)
}
