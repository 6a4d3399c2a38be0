// Literals under the values that the search found.

ghost use Rattle.std.specs.Prelude.{◌≡◌, ◌≤◌, length, IfOk};
ghost use Rattle.std.specs.List.{flat_map};
ghost use Rattle.svr_chain.specs.Valuations.{lit_value};
ghost use Rattle.svr_gate.specs.Numbers.{bit, number};
ghost use Rattle.svr_query.specs.Logged.{valuation_of};
ghost use Rattle.svr_vector.specs.Places.{rows};

use crate::memory::NoMemory;
use std::alloc::Global;
use svr_chain::Lit;

/// Whether a literal is true.
#[tactic(auto, unfolding(svr_chain::specs::Valuations::lit_value))]
fn is_true(lit: Lit, values: &[bool]) -> bool
    ensures { result ≡ lit_value (valuation_of values.now) lit }
{
    let value = match values.get(lit.var.saturating_sub(1) as usize) {
        Some(value) => *value,
        None => false,
    };
    if lit.neg { !value } else { value }
}

/// The literal as a digit: 1 where it is true.
fn bit_read(lit: Lit, values: &[bool]) -> u64
    ensures { result ≡ bit (lit_value (valuation_of values.now) lit) }
{
    if is_true(lit, values) { 1 } else { 0 }
}

/// The number that at most 64 bits spell under the values, the least first.
pub fn number_read(bits: &[Lit], values: &[bool]) -> u64
    requires { length bits.now ≤ 64 }
    ensures { result ≡ number (valuation_of values.now) bits.now }
{
    let mut number = 0u64;
    let mut at = bits.len();
    while at > 0 {
        at -= 1;
        number = 2 * number + bit_read(bits[at], values);
    }
    number
}

/// One row behind the other.
pub fn joined(alloc: Global, bits: &[Vec<Lit>]) -> Result<Vec<Lit>, NoMemory>
    ensures { IfOk result (λ ls. ls.items ≡ flat_map (λ row. row) (rows bits.now)) }
{
    let mut all = Vec::new(alloc);
    for row in bits {
        all.extend_from_slice(row.as_slice())?;
    }
    Ok(all)
}
