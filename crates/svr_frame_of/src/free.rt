// The sizes that a call chooses (IEEE 1800-2017, 18.4 and 18.5).

ghost use Rattle.std.specs.Prelude.{◌≡◌, ◌<◌, ◌≤◌, ◌&&◌, [], IfOk, OnOk, map, length};
ghost use Rattle.std.specs.List.{range_with_len};
ghost use Rattle.svr_typed.specs.ItemTerm.{item_terms};
ghost use Rattle.svr_limits.specs.declared.limit.TheConstants.{PROPERTY_LIMIT};
ghost use Rattle.svr_frame.specs.Frame.{frame_term, is_random, is_dynamic, is_dynamic_kind, props_of};
ghost use Rattle.svr_frame.specs.Making as spec;
ghost use Rattle.svr_frame_of.specs.Freeing.{mark};
ghost use Rattle.svr_frame_of.specs.Callable.{with_free};
ghost use Rattle.svr_frame_of.specs.Choosing.{as_chosen};

use crate::held::beside;
use crate::leaves::all_leaves;
use sqlite_items::Items;
use std::alloc::Global;
use svr_frame::Frame;
use svr_typed::{ArrayKind, NoMemory};

/// A list of so many properties that marks one.
fn marked(alloc: Global, count: u32, prop: u32) -> Result<Items<bool>, NoMemory>
    ensures { IfOk result (λ marks. marks ≡ mark count prop) }
{
    let mut marks = Items::new(alloc);
    for other in 0..count {
        marks.push(other == prop)?;
    }
    Ok(marks)
}

/// Whether a property is a random dynamic array or queue.
fn can_change(frame: &Frame, prop: u32) -> bool
    ensures { result ≡ (is_random (frame_term frame.now) prop && is_dynamic (frame_term frame.now) prop) }
{
    frame.is_random(prop) && is_dynamic(frame, prop)
}

fn is_dynamic_kind(kind: ArrayKind) -> bool
    ensures { result ≡ is_dynamic_kind kind }
{
    match kind {
        ArrayKind::Dynamic => true,
        ArrayKind::Scalar | ArrayKind::Fixed(_) => false,
    }
}

fn is_dynamic(frame: &Frame, prop: u32) -> bool
    ensures { result ≡ is_dynamic (frame_term frame.now) prop }
{
    match frame.class.props.as_slice().get(prop as usize) {
        Some(declared) => is_dynamic_kind(declared.array),
        None => false,
    }
}

/// Whether the call chooses the size of a property. The list of free sizes is another one afterwards.
fn is_free(alloc: Global, frame: &mut Frame, count: u32, prop: u32) -> Result<bool, NoMemory>
    requires count { count ≡ length (frame_term frame.old).class.props }
    requires below { prop < count }
    ensures same { OnOk result (with_free (frame_term frame.new) [] ≡ with_free (frame_term frame.old) []) }
    ensures free { IfOk result (λ free. free ≡ spec.is_free (frame_term frame.old) prop) }
{
    if !can_change(frame, prop) {
        return Ok(false);
    }
    frame.free_size = marked(alloc, count, prop)?;
    let marked = &*frame;
    Ok(all_leaves(marked.items.as_slice(), marked).sized)
}

/// Whether the call chooses its size, for each property. The list of free sizes is another one afterwards.
fn free_sizes(alloc: Global, frame: &mut Frame, count: u32) -> Result<Items<bool>, NoMemory>
    requires { count ≡ length (frame_term frame.old).class.props }
    ensures same { OnOk result (with_free (frame_term frame.new) [] ≡ with_free (frame_term frame.old) []) }
    ensures free { IfOk result (λ free. free ≡ map (spec.is_free (frame_term frame.old)) (range_with_len 0 count)) }
{
    let mut free = Items::new(alloc);
    for prop in 0..count {
        free.push(is_free(alloc, frame, count, prop)?)?;
    }
    Ok(free)
}

/// The frame with the sizes that the call chooses: each random dynamic array or queue whose size is mentioned by an item that stands in no loop and mentions no element of a random array.
pub(crate) fn with_free_sizes(alloc: Global, frame: Frame) -> Result<Frame, NoMemory>
    requires { length (frame_term frame).class.props ≤ PROPERTY_LIMIT }
    ensures { IfOk result (λ r. frame_term r ≡ with_free (frame_term frame) (map (spec.is_free (frame_term frame)) (props_of (frame_term frame)))) }
{
    let mut marked = frame;
    let count = marked.class.props.len() as u32;
    let free = free_sizes(alloc, &mut marked, count);
    let (mut whole, free) = beside(marked, free)?;
    whole.free_size = free;
    Ok(whole)
}

/// The sizes that the call chooses are those that it chooses in the state of the frame.
pub(crate) fn choose_sizes(alloc: Global, frame: &mut Frame) -> Result<(), NoMemory>
    requires { length (frame_term frame.old).class.props ≤ PROPERTY_LIMIT }
    ensures { OnOk result (frame_term frame.new ≡ as_chosen (frame_term frame.old)) }
{
    let count = frame.class.props.len() as u32;
    let free = free_sizes(alloc, frame, count)?;
    frame.free_size = free;
    Ok(())
}
