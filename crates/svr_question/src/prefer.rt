// The values that the search is to try first.

ghost use Rattle.std.specs.Prelude.{◌≡◌, length, IfOk};
ghost use Rattle.svr_eval.specs.Reading.{reading_of};
ghost use Rattle.svr_frame.specs.Satisfaction.{value_at};

use crate::memory::NoMemory;
use std::alloc::Global;
use svr_chain::Lit;
use svr_encoded::Encoded;
use svr_eval::Assign;
use svr_frame::Slot;

/// What an assignment has for an unknown.
fn number_at(slot: Slot, wanted: &Assign) -> u64
    ensures { result ≡ value_at (reading_of wanted.now) slot }
{
    match slot {
        Slot::Scalar(prop) => wanted.element(prop, 0),
        Slot::Element(prop, index) => wanted.element(prop, u64::from(index)),
        Slot::Size(prop) => u64::from(wanted.size(prop)),
    }
}

/// The bits of a number are preferred, the least first.
fn prefer_number(prefer: &mut Vec<bool>, bits: &[Lit], number: u64)
    ensures { length prefer.new.items ≡ length prefer.old.items }
{
    let mut rest = number;
    for bit in bits {
        let at = bit.var.saturating_sub(1) as usize;
        if at < prefer.len() {
            prefer[at] = rest % 2 == 1;
        }
        rest /= 2;
    }
}

/// A preference for each variable: the bits of the unknowns as the assignment has them.
pub fn preferences(
    alloc: Global,
    encoding: &Encoded,
    wanted: &Assign,
) -> Result<Vec<bool>, NoMemory>
    ensures { IfOk result (λ prefer. length prefer.items ≡ encoding.now.cnf.vars) }
{
    let mut prefer = vec![in alloc; false; encoding.cnf.vars as usize]?;
    for (slot, row) in encoding.slots.iter().zip(encoding.bits.iter()) {
        prefer_number(&mut prefer, row.as_slice(), number_at(*slot, wanted));
    }
    Ok(prefer)
}
