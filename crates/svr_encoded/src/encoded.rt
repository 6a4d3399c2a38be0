// What an encoding is, and the bits of its unknowns.

ghost use Rattle.std.specs.Prelude.{◌≡◌, ◌<◌, ◌+◌, ◌^◌, sum, IfOk};
ghost use Rattle.svr_frame.specs.Frame.{frame_term};
ghost use Rattle.svr_vector.specs.Places.{rows};
ghost use Rattle.svr_encoded.specs.Slots.{positives, positive_bits, bits_of_slot, widths_of};

use std::alloc::Global;
use svr_chain::{Cnf, Lit};
use svr_frame::{Frame, Slot};
use svr_typed::TExpr;
use svr_vector::NoMemory;

/// Items, the unknowns and the bits of each, clauses, and a literal for each item.
#[derive(Drop)]
pub struct Encoded {
    pub items: Vec<TExpr>,
    pub slots: Vec<Slot>,
    pub bits: Vec<Vec<Lit>>,
    pub cnf: Cnf,
    pub roots: Vec<Lit>,
}

/// The positive literals of the `width` variables after `first`.
fn positive_row(alloc: Global, first: u64, width: u8) -> Result<Vec<Lit>, NoMemory>
    requires { first + width < 2 ^ 64 }
    ensures { IfOk result (λ ls. ls.items ≡ positives first width) }
{
    let mut ls = Vec::new(alloc);
    for i in 0..width {
        ls.push(Lit {
            var: first + 1 + i as u64,
            neg: false,
        })?;
    }
    Ok(ls)
}

/// Positive literals for each slot.
pub fn positive_rows(alloc: Global, widths: &[u8]) -> Result<Vec<Vec<Lit>>, NoMemory>
    requires { sum widths.now < 2 ^ 32 }
    ensures { IfOk result (λ bits. rows bits.items ≡ positive_bits 0 widths.now) }
{
    let mut bits = Vec::new(alloc);
    let mut first = 0u64;
    for width in widths {
        bits.push(positive_row(alloc, first, *width)?)?;
        first += *width as u64;
    }
    Ok(bits)
}

/// The number of all bits.
pub fn total(widths: &[u8]) -> u32
    requires { sum widths.now < 2 ^ 32 }
    ensures { result ≡ sum widths.now }
{
    widths.iter().map(|w| *w as u32).sum()
}

/// The number of bits of a slot, where a size has `size_bits` of them.
fn slot_width(frame: &Frame, slot: Slot, size_bits: u8) -> u8
    ensures { result ≡ bits_of_slot (frame_term frame.now) size_bits slot }
{
    match slot {
        Slot::Scalar(prop) | Slot::Element(prop, _) => frame.width(prop),
        Slot::Size(_) => size_bits,
    }
}

/// The number of bits of each slot.
pub fn slot_widths(
    alloc: Global,
    frame: &Frame,
    slots: &[Slot],
    size_bits: u8,
) -> Result<Vec<u8>, NoMemory>
    ensures { IfOk result (λ ws. ws.items ≡ widths_of (frame_term frame.now) size_bits slots.now) }
{
    let mut widths = Vec::with_capacity(alloc, slots.len())?;
    for slot in slots {
        widths.push(slot_width(frame, *slot, size_bits))?;
    }
    Ok(widths)
}
