// The items of a phase as clauses.

ghost use Rattle.std.specs.Prelude.{◌≡◌, ◌≤◌, map, reverse, IfOk};
ghost use Rattle.std.specs.List.{All};
ghost use Rattle.svr_typed.specs.ExprTerm.{expr_term};
ghost use Rattle.svr_eval.specs.Reading.{reading_of};
ghost use Rattle.svr_eval.specs.Typed.{IsTyped, CanRead};
ghost use Rattle.svr_frame.specs.Frame.{frame_term};
ghost use Rattle.svr_frame.specs.Phases.{unknowns_of, sought_sizes};
ghost use Rattle.svr_frame.specs.Sound.{IsSound, SizesFit};
ghost use Rattle.svr_encoded.specs.Fixed.{IsFixed};
ghost use Rattle.svr_encoded.specs.Encodes.{Encodes};
ghost use Rattle.svr_blast.specs.Standing.{StandsIn};

use crate::memory::NoMemory;
use sqlite_items::Items;
use std::alloc::Global;
use svr_blast::blast;
use svr_encoded::Encoded;
use svr_expand::unknowns;
use svr_frame::{Frame, Part, Slot};
use svr_typed::TExpr;

/// The elements of a list from its end to its front.
#[tactic(auto, using(crate::proofs::Turned::turned))]
fn from_end<T: Drop>(alloc: Global, items: Items<T>) -> Result<Vec<T>, NoMemory>
    ensures { IfOk result (λ v. v.items ≡ reverse items) }
{
    let mut left = items;
    let mut turned = Vec::new(alloc);
    while let Some(item) = left.pop() {
        turned.push(item)?;
    }
    Ok(turned)
}

/// The elements of a list, in a vector.
#[tactic(auto, using(crate::proofs::Turned::turned_back))]
fn in_vector<T: Drop>(alloc: Global, items: Items<T>) -> Result<Vec<T>, NoMemory>
    ensures { IfOk result (λ v. v.items ≡ items) }
{
    let mut turned = from_end(alloc, items)?;
    turned.reverse();
    Ok(turned)
}

/// What a phase looks for.
fn slots(alloc: Global, frame: &Frame, part: Part, sizes: &[u32]) -> Result<Vec<Slot>, NoMemory>
    requires { IsSound (frame_term frame.now) }
    ensures { IfOk result (λ slots. slots.items ≡ unknowns_of (frame_term frame.now) part sizes.now) }
{
    let found = unknowns(alloc, frame, part, sizes)?;
    Ok(Vec::from_slice(alloc, found.as_slice())?)
}

/// Clauses over the bits of the unknowns of a phase, and for each item a literal that is true just where it holds. A size has `size_bits` bits, 1 to 32, and the higher ones of its 32 are 0.
pub fn clauses_of(
    alloc: Global,
    frame: &Frame,
    part: Part,
    sizes: &[u32],
    items: Items<TExpr>,
    size_bits: u8,
) -> Result<Encoded, NoMemory>
    requires sound { IsSound (frame_term frame.now) }
    requires fit { SizesFit (frame_term frame.now) sizes.now }
    requires some_bits { 1 ≤ size_bits }
    requires few_bits { size_bits ≤ 32 }
    requires typed { All (λ e. IsTyped (expr_term e)) items }
    requires inside { All (λ e. StandsIn (frame_term frame.now) (expr_term e)) items }
    requires readable { All (λ e. CanRead (reading_of (frame_term frame.now).state) 0 (expr_term e)) items }
    requires fixed { All (λ e. IsFixed (sought_sizes (frame_term frame.now) part) (expr_term e)) items }
    ensures { IfOk result (λ e. Encodes (frame_term frame.now) part sizes.now size_bits (map expr_term items) e) }
{
    let items = in_vector(alloc, items)?;
    let slots = slots(alloc, frame, part, sizes)?;
    let encoding = blast(alloc, items, frame, part, sizes, slots, size_bits)?;
    Ok(encoding)
}
