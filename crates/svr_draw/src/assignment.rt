// The assignment that a call prefers: each random variable takes one word of the call (IEEE 1800-2017, 18.4).

ghost use Rattle.std.specs.Prelude.{◌≡◌, ◌≤◌, ◌<◌, ◌%◌, ◌+◌, if◌then◌else◌, IfOk, OnOk, length, slice_index, ℕ, List};
ghost use Rattle.svr_eval.specs.Reading.{reading_of};
ghost use Rattle.svr_eval.specs.Holds.{ItemsCanRead};
ghost use Rattle.svr_frame.specs.Frame.{frame_term, width_of};
ghost use Rattle.svr_frame.specs.Sound.{IsSound, SizesFit};
ghost use Rattle.svr_draw.specs.Words.{word_of, after};
ghost use Rattle.svr_draw.specs.Preferred.{preferred_of};
ghost use Rattle.svr_draw.specs.Drawing as spec;

use crate::pick::{from_domain, from_items};
use crate::words::Draws;
use sqlite_items::Items;
use std::alloc::Global;
use svr_eval::Assign;
use svr_frame::{Frame, Part, size_at};
use svr_typed::NoMemory;

/// Whether a phase has a word for the size of a property. The last phase passes over it.
fn draws_size(prop: u32, frame: &Frame, part: Part) -> bool
    ensures { result ≡ spec.draws_size (frame_term frame.now) part prop }
{
    match part {
        Part::Randc => false,
        Part::Sizes | Part::All => frame.has_free_size(prop),
    }
}

/// Whether a phase draws the number of a scalar.
fn draws_scalar(prop: u32, frame: &Frame, part: Part) -> bool
    ensures { result ≡ spec.draws_scalar (frame_term frame.now) part prop }
{
    match part {
        Part::Randc => false,
        Part::Sizes | Part::All => {
            frame.is_random(prop) && !frame.is_array(prop) && !frame.is_cyclic(prop)
        }
    }
}

/// Whether a phase draws the elements of an array.
fn draws_elements(prop: u32, frame: &Frame, part: Part) -> bool
    ensures { result ≡ spec.draws_elements (frame_term frame.now) part prop }
{
    match part {
        Part::Randc | Part::Sizes => false,
        Part::All => frame.is_random(prop) && frame.is_array(prop),
    }
}

fn number_at(numbers: &[u64], prop: u32) -> u64
    ensures { result ≡ slice_index numbers.now prop }
{
    match numbers.get(prop as usize) {
        Some(number) => *number,
        None => 0,
    }
}

/// The first `count` numbers of a property in the state.
fn state_numbers(
    alloc: Global,
    frame: &Frame,
    prop: u32,
    count: u32,
) -> Result<Items<u64>, NoMemory>
    ensures { IfOk result (λ r. r ≡ spec.state_numbers (frame_term frame.now) prop count) }
{
    let mut numbers = Items::new(alloc);
    for at in 0..count {
        numbers.push(frame.state.element(prop, u64::from(at)))?;
    }
    Ok(numbers)
}

/// The state at these sizes.
fn state_here(alloc: Global, frame: &Frame, sizes: &[u32]) -> Result<Assign, NoMemory>
    requires { IsSound (frame_term frame.now) }
    ensures { IfOk result (λ a. a ≡ spec.state_here (frame_term frame.now) sizes.now) }
{
    let mut values = Items::new(alloc);
    for prop in 0..frame.class.props.len() as u32 {
        values.push(state_numbers(alloc, frame, prop, size_at(sizes, prop))?)?;
    }
    let sizes = Items::from_slice(alloc, sizes)?;
    let script = Items::from_slice(alloc, frame.state.script.as_slice())?;
    Ok(Assign {
        values,
        sizes,
        script,
    })
}

/// The size of a property, under its word where this phase chooses it.
fn next_size(draws: &mut Draws, size: u32, prop: u32, frame: &Frame, part: Part, cap: u32) -> u32
    ensures number { result ≡ spec.size_number (frame_term frame.now) cap part (word_of draws.old 0) size prop }
    ensures words { draws.new ≡ after (if spec.draws_size (frame_term frame.now) part prop then 1 else 0) draws.old }
{
    if !draws_size(prop, frame, part) {
        return size;
    }
    let word = draws.word();
    match part {
        Part::Randc | Part::All => size,
        Part::Sizes => (word % (u64::from(cap) + 1)) as u32,
    }
}

/// The sizes of all properties, in their order.
#[tactic(auto, using(crate::proofs::Stream::after_after))]
fn drawn_sizes(
    alloc: Global,
    draws: &mut Draws,
    frame: &Frame,
    part: Part,
    sizes: &[u32],
    cap: u32,
) -> Result<Items<u32>, NoMemory>
    requires { IsSound (frame_term frame.now) }
    ensures numbers { IfOk result (λ r. r ≡ spec.drawn_sizes (frame_term frame.now) part sizes.now cap draws.old (length (frame_term frame.now).class.props)) }
    ensures words { OnOk result (draws.new ≡ after (spec.size_words (frame_term frame.now) part (length (frame_term frame.now).class.props)) draws.old) }
{
    let mut drawn = Items::new(alloc);
    for prop in 0..frame.class.props.len() as u32 {
        let size = next_size(draws, size_at(sizes, prop), prop, frame, part, cap);
        drawn.push(size)?;
    }
    Ok(drawn)
}

/// The number of a scalar under its word, 0 where this phase draws none.
fn next_scalar(draws: &mut Draws, prop: u32, frame: &Frame, part: Part, here: &Assign) -> u64
    requires sound { IsSound (frame_term frame.now) }
    requires reads { ItemsCanRead (reading_of here.now) 0 (frame_term frame.now).items }
    requires low { 1 ≤ width_of (frame_term frame.now) prop }
    requires high { width_of (frame_term frame.now) prop ≤ 64 }
    ensures number { result ≡ spec.scalar_number (frame_term frame.now) part (reading_of here.now) (word_of draws.old 0) prop }
    ensures words { draws.new ≡ after (if spec.draws_scalar (frame_term frame.now) part prop then 1 else 0) draws.old }
{
    if !draws_scalar(prop, frame, part) {
        return 0;
    }
    let word = draws.word();
    from_items(frame.items.as_slice(), word, prop, frame, here)
}

/// The numbers of all properties that are scalars of this phase, in their order, and 0 for others.
#[tactic(auto, using(crate::proofs::Stream::after_after))]
fn drawn_scalars(
    alloc: Global,
    draws: &mut Draws,
    frame: &Frame,
    part: Part,
    here: &Assign,
) -> Result<Items<u64>, NoMemory>
    requires sound { IsSound (frame_term frame.now) }
    requires reads { ItemsCanRead (reading_of here.now) 0 (frame_term frame.now).items }
    ensures numbers { IfOk result (λ r. r ≡ spec.drawn_scalars (frame_term frame.now) part (reading_of here.now) draws.old (length (frame_term frame.now).class.props)) }
    ensures words { OnOk result (draws.new ≡ after (spec.scalar_words (frame_term frame.now) part (length (frame_term frame.now).class.props)) draws.old) }
{
    let mut drawn = Items::new(alloc);
    for prop in 0..frame.class.props.len() as u32 {
        let number = next_scalar(draws, prop, frame, part, here);
        drawn.push(number)?;
    }
    Ok(drawn)
}

/// The first `count` elements of an array, by index.
#[tactic(auto, using(crate::proofs::Stream::after_one))]
fn drawn_elements(
    alloc: Global,
    draws: &mut Draws,
    frame: &Frame,
    prop: u32,
    count: u32,
) -> Result<Items<u64>, NoMemory>
    requires { width_of (frame_term frame.now) prop ≤ 64 }
    ensures numbers { IfOk result (λ r. r ≡ spec.drawn_elements (frame_term frame.now) draws.old prop count) }
    ensures words { OnOk result (draws.new ≡ after count draws.old) }
{
    let mut drawn = Items::new(alloc);
    for index in 0..count {
        drawn.push(from_domain(draws.word(), prop, frame))?;
    }
    Ok(drawn)
}

/// The numbers of a property, where `scalars` are those of the scalars.
fn row(
    alloc: Global,
    draws: &mut Draws,
    frame: &Frame,
    part: Part,
    size: u32,
    scalar: u64,
    prop: u32,
) -> Result<Items<u64>, NoMemory>
    requires { width_of (frame_term frame.now) prop ≤ 64 }
    ensures numbers { IfOk result (λ r. r ≡ spec.row_of (frame_term frame.now) part size scalar draws.old prop) }
    ensures words { OnOk result (draws.new ≡ after (if spec.draws_elements (frame_term frame.now) part prop then size else 0) draws.old) }
{
    if draws_elements(prop, frame, part) {
        return drawn_elements(alloc, draws, frame, prop, size);
    }
    if draws_scalar(prop, frame, part) {
        let mut row = Items::new(alloc);
        row.push(scalar)?;
        return Ok(row);
    }
    state_numbers(alloc, frame, prop, size)
}

/// The numbers of all properties.
#[tactic(auto, using(crate::proofs::Stream::after_after))]
fn rows(
    alloc: Global,
    draws: &mut Draws,
    frame: &Frame,
    part: Part,
    sizes: &[u32],
    scalars: &[u64],
) -> Result<Items<Items<u64>>, NoMemory>
    requires { IsSound (frame_term frame.now) }
    ensures { IfOk result (λ r. r ≡ spec.rows (frame_term frame.now) part sizes.now scalars.now draws.old (length (frame_term frame.now).class.props)) }
{
    let mut rows = Items::new(alloc);
    for prop in 0..frame.class.props.len() as u32 {
        let size = size_at(sizes, prop);
        let scalar = number_at(scalars, prop);
        let numbers = row(alloc, draws, frame, part, size, scalar, prop)?;
        rows.push(numbers)?;
    }
    Ok(rows)
}

/// The assignment that a call prefers in a phase, at these sizes. `draws` stands behind the words of the cyclic properties, which keep their numbers of the state, and `cap` is the greatest size that is drawn. Each free size, each other scalar and each element takes one word, in this order.
pub fn preferred(
    alloc: Global,
    draws: &mut Draws,
    frame: &Frame,
    part: Part,
    sizes: &[u32],
    cap: u32,
) -> Result<Assign, NoMemory>
    requires sound { IsSound (frame_term frame.now) }
    requires fit { SizesFit (frame_term frame.now) sizes.now }
    ensures { IfOk result (λ a. reading_of a ≡ preferred_of (frame_term frame.now) part sizes.now cap (word_of draws.old)) }
{
    let here = state_here(alloc, frame, sizes)?;
    let drawn = drawn_sizes(alloc, draws, frame, part, sizes, cap)?;
    let scalars = drawn_scalars(alloc, draws, frame, part, &here)?;
    let values = rows(alloc, draws, frame, part, sizes, scalars.as_slice())?;
    let script = Items::from_slice(alloc, frame.state.script.as_slice())?;
    Ok(Assign {
        values,
        sizes: drawn,
        script,
    })
}
