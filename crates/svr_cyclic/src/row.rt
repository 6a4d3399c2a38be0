// The bits of a property, and the literals of its values.

ghost use Rattle.std.specs.Prelude.{◌≡◌, ◌==◌, ◌%◌, [], slice_index_or, IfOk, if◌then◌else◌};
ghost use Rattle.svr_chain.specs.Clauses.{flip};
ghost use Rattle.svr_vector.specs.Places.{rows};
ghost use Rattle.svr_phase.specs.Proof.{spelling};

use crate::memory::NoMemory;
use std::alloc::Global;
use svr_chain::Lit;
use svr_encoded::Encoded;

/// The literal that says that this bit is the last digit of the number.
fn digit(bit: Lit, number: u64) -> Lit
    ensures { result ≡ (if number % 2 == 0 then flip bit else bit) }
{
    if number % 2 == 0 { bit.flipped() } else { bit }
}

/// The literals that say that the bits spell the number, the least bit first.
pub(crate) fn spelled(alloc: Global, row: &[Lit], number: u64) -> Result<Vec<Lit>, NoMemory>
    ensures { IfOk result (λ ls. ls.items ≡ spelling row.now number) }
{
    let mut literals = Vec::new(alloc);
    let mut rest = number;
    for bit in row {
        literals.push(digit(*bit, rest))?;
        rest /= 2;
    }
    Ok(literals)
}

/// The bits of the property at a place among the cyclic ones, which are the unknowns of the phase.
pub(crate) fn row_at(layout: &Encoded, place: usize) -> &[Lit]
    ensures { result.now ≡ slice_index_or (rows layout.now.bits.items) place [] }
{
    if place < layout.bits.len() {
        layout.bits[place].as_slice()
    } else {
        &[]
    }
}
