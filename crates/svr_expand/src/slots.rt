// What a phase looks for, in order.

ghost use Rattle.std.specs.Prelude.{◌≡◌, ◌++◌, ◌≤◌, ◌&&◌, not, OnOk, IfOk, map, length};
ghost use Rattle.std.specs.List.{range_with_len};
ghost use Rattle.svr_frame.specs.declared.slot.Slot.TheVariants.{Element};
ghost use Rattle.svr_limits.specs.declared.limit.TheConstants.{PROPERTY_LIMIT};
ghost use Rattle.svr_frame.specs.Frame.{frame_term, is_array, is_random, is_cyclic};
ghost use Rattle.svr_frame.specs.Phases as spec;

use sqlite_items::Items;
use std::alloc::Global;
use svr_frame::{Frame, Part, Slot, size_at};
use svr_typed::NoMemory;

/// Adds the cyclic random properties (IEEE 1800-2017, 18.4.2).
fn add_cyclic(frame: &Frame, out: &mut Items<Slot>) -> Result<(), NoMemory>
    requires { length (frame_term frame.now).class.props ≤ PROPERTY_LIMIT }
    ensures { OnOk result (out.new ≡ out.old ++ spec.cyclic_slots (frame_term frame.now)) }
{
    for prop in 0..frame.class.props.len() as u32 {
        if frame.is_cyclic(prop) {
            out.push(Slot::Scalar(prop))?;
        }
    }
    Ok(())
}

/// Adds the sizes that the call chooses.
fn add_sizes(frame: &Frame, out: &mut Items<Slot>) -> Result<(), NoMemory>
    requires { length (frame_term frame.now).class.props ≤ PROPERTY_LIMIT }
    ensures { OnOk result (out.new ≡ out.old ++ spec.size_slots (frame_term frame.now)) }
{
    for prop in 0..frame.class.props.len() as u32 {
        if frame.has_free_size(prop) {
            out.push(Slot::Size(prop))?;
        }
    }
    Ok(())
}

/// Whether a property is a random scalar that is not cyclic.
fn is_free_scalar(frame: &Frame, prop: u32) -> bool
    ensures { result ≡ (is_random (frame_term frame.now) prop && not (is_array (frame_term frame.now) prop) && not (is_cyclic (frame_term frame.now) prop)) }
{
    frame.is_random(prop) && !frame.is_array(prop) && !frame.is_cyclic(prop)
}

fn is_random_array(frame: &Frame, prop: u32) -> bool
    ensures { result ≡ spec.is_random_array (frame_term frame.now) prop }
{
    frame.is_random(prop) && frame.is_array(prop)
}

/// Adds the random scalars that are not cyclic.
fn add_scalars(frame: &Frame, out: &mut Items<Slot>) -> Result<(), NoMemory>
    requires { length (frame_term frame.now).class.props ≤ PROPERTY_LIMIT }
    ensures { OnOk result (out.new ≡ out.old ++ spec.scalar_slots (frame_term frame.now)) }
{
    for prop in 0..frame.class.props.len() as u32 {
        if is_free_scalar(frame, prop) {
            out.push(Slot::Scalar(prop))?;
        }
    }
    Ok(())
}

/// Adds the elements of an array of this size.
fn add_elements_of(prop: u32, size: u32, out: &mut Items<Slot>) -> Result<(), NoMemory>
    ensures { OnOk result (out.new ≡ out.old ++ map (Element prop) (range_with_len 0 size)) }
{
    for at in 0..size {
        out.push(Slot::Element(prop, at))?;
    }
    Ok(())
}

/// Adds the elements of the random arrays at these sizes.
fn add_elements(frame: &Frame, sizes: &[u32], out: &mut Items<Slot>) -> Result<(), NoMemory>
    requires { length (frame_term frame.now).class.props ≤ PROPERTY_LIMIT }
    ensures { OnOk result (out.new ≡ out.old ++ spec.element_slots (frame_term frame.now) sizes.now) }
{
    for prop in 0..frame.class.props.len() as u32 {
        if is_random_array(frame, prop) {
            add_elements_of(prop, size_at(sizes, prop), out)?;
        }
    }
    Ok(())
}

/// What the phase looks for: the cyclic properties, then free sizes, scalars and elements.
pub fn unknowns(
    alloc: Global,
    frame: &Frame,
    part: Part,
    sizes: &[u32],
) -> Result<Items<Slot>, NoMemory>
    requires { length (frame_term frame.now).class.props ≤ PROPERTY_LIMIT }
    ensures { IfOk result (λ r. r ≡ spec.unknowns_of (frame_term frame.now) part sizes.now) }
{
    let mut slots = Items::new(alloc);
    add_cyclic(frame, &mut slots)?;
    match part {
        Part::Randc => {}
        Part::Sizes => {
            add_sizes(frame, &mut slots)?;
            add_scalars(frame, &mut slots)?;
        }
        Part::All => {
            add_scalars(frame, &mut slots)?;
            add_elements(frame, sizes, &mut slots)?;
        }
    }
    Ok(slots)
}
