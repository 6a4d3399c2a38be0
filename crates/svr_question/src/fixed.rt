// Chosen values of scalar properties, as literals.

ghost use Rattle.std.specs.Prelude.{◌≡◌, ◌==◌, ◌++◌, ◌%◌, None, Some, MatchOption, IfOk, OnOk, if◌then◌else◌};
ghost use Rattle.svr_chain.specs.Clauses.{flip};
ghost use Rattle.svr_vector.specs.Places.{rows};
ghost use Rattle.svr_inputs.specs.Inputs.{bits_of, number_row};
ghost use Rattle.svr_phase.specs.Proof.{spelling, spelling_at, fixed_lits};
ghost use Rattle.svr_question.specs.Passed.{lits_at};

use crate::memory::NoMemory;
use std::alloc::Global;
use svr_chain::Lit;
use svr_encoded::{Encoded, table_of};
use svr_inputs::Table;

/// The literal that says that this bit is the last digit of the number.
fn digit(bit: Lit, number: u64) -> Lit
    ensures { result ≡ (if number % 2 == 0 then flip bit else bit) }
{
    if number % 2 == 0 { bit.flipped() } else { bit }
}

/// The literals that say that the bits spell the number are put behind the others, the least bit first.
fn spell(literals: &mut Vec<Lit>, bits: &[Lit], number: u64) -> Result<(), NoMemory>
    ensures { OnOk result (literals.new.items ≡ literals.old.items ++ spelling bits.now number) }
{
    let mut rest = number;
    for bit in bits {
        literals.push(digit(*bit, rest))?;
        rest /= 2;
    }
    Ok(())
}

/// The bits of a row.
fn row_at(bits: &[Vec<Lit>], row: Option<u32>) -> Option<&[Lit]>
    ensures { MatchOption result (bits_of (rows bits.now) row ≡ None) (λ ls. bits_of (rows bits.now) row ≡ Some ls.now) }
{
    match row {
        None => None,
        Some(row) => {
            if (row as usize) < bits.len() {
                Some(bits[row as usize].as_slice())
            } else {
                None
            }
        }
    }
}

/// The same for the bits of a row, where there is one.
fn spell_row(
    literals: &mut Vec<Lit>,
    bits: &[Vec<Lit>],
    row: Option<u32>,
    number: u64,
) -> Result<(), NoMemory>
    ensures { OnOk result (literals.new.items ≡ literals.old.items ++ spelling_at (bits_of (rows bits.now) row) number) }
{
    match row_at(bits, row) {
        Some(row) => spell(literals, row, number),
        None => Ok(()),
    }
}

/// The literals of these values of properties, whose rows a table has.
fn spell_all(
    alloc: Global,
    bits: &[Vec<Lit>],
    table: &Table,
    chosen: &[(u32, u64)],
) -> Result<Vec<Lit>, NoMemory>
    ensures { IfOk result (λ ls. ls.items ≡ lits_at (rows bits.now) table.now chosen.now) }
{
    let mut literals = Vec::new(alloc);
    for choice in chosen {
        let (prop, value) = *choice;
        spell_row(&mut literals, bits, table.number_row(prop, 0), value)?;
    }
    Ok(literals)
}

/// The literals that say that scalar properties have these values, under the bits of an encoding. It takes one walk over the slots, where there are values, and one over the literals.
pub fn fixed_literals(
    alloc: Global,
    encoding: &Encoded,
    chosen: &[(u32, u64)],
) -> Result<Vec<Lit>, NoMemory>
    ensures { IfOk result (λ ls. ls.items ≡ fixed_lits encoding.now chosen.now) }
{
    if chosen.is_empty() {
        return Ok(Vec::new(alloc));
    }
    let slots = encoding.slots.as_slice();
    if slots.len() > u32::MAX as usize {
        return Err(NoMemory);
    }
    let table = table_of(alloc, slots)?;
    let bits = encoding.bits.as_slice();
    spell_all(alloc, bits, &table, chosen)
}
