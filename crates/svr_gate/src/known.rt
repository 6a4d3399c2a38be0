//! Gates over the inputs that are not known.

ghost use Rattle.std.specs.Prelude.{◌≡◌, ◌^◌, ◌≤◌, ◌<◌, length};
ghost use Rattle.svr_gate.specs.Circuit.{known_of};
ghost use Rattle.svr_gate.specs.Keys.{places_of};
ghost use Rattle.svr_gate.specs.Answers.{open_inputs, full_row, open_rows, open_gate};

use crate::gate::{Gate, NO_INPUT};
use svr_chain::Lit;

/// What a literal always is, where that is known, given one that is always true.
pub(crate) fn known_of(one: Option<Lit>, lit: Lit) -> Option<bool>
    ensures { result ≡ known_of one lit }
{
    match one {
        Some(one) if one.var == lit.var => Some(one.neg == lit.neg),
        _ => None,
    }
}

/// The inputs that are not known, and how many they are.
fn open_inputs(one: Option<Lit>, ins: &[Lit]) -> ([Lit; 4], usize)
    requires { length ins.now ≤ 4 }
    ensures places { result.0 ≡ places_of (open_inputs one ins.now) }
    ensures count { result.1 ≡ length (open_inputs one ins.now) }
{
    let mut places = [NO_INPUT; 4];
    let mut count = 0;
    for lit in ins {
        if known_of(one, *lit).is_none() {
            places[count] = *lit;
            count += 1;
        }
    }
    (places, count)
}

/// The row of all inputs in which those that are not known read as `row`.
fn full_row(one: Option<Lit>, ins: &[Lit], row: u16) -> u16
    requires { length ins.now ≤ 4 }
    ensures row { result ≡ full_row one ins.now row }
    ensures below { result < 2 ^ length ins.now }
{
    let mut full = 0;
    let mut weight = 1;
    let mut left = row;
    for lit in ins {
        let value = match known_of(one, *lit) {
            Some(value) => value as u16,
            None => {
                let value = left % 2;
                left /= 2;
                value
            }
        };
        full += weight * value;
        weight *= 2;
    }
    full
}

/// The table over the `count` inputs that are not known.
fn open_table(one: Option<Lit>, table: u16, ins: &[Lit], count: usize) -> u16
    requires few { length ins.now ≤ 4 }
    requires few_open { count ≤ 4 }
    ensures { result ≡ open_rows table one ins.now (2 ^ count) }
{
    let mut sum = 0;
    for row in 0..1u16 << count {
        sum += ((table >> full_row(one, ins, row)) % 2) << row;
    }
    sum
}

/// The gate over the inputs that are not known.
pub(crate) fn open_gate(one: Option<Lit>, table: u16, ins: &[Lit]) -> Gate
    requires { length ins.now ≤ 4 }
    ensures { result ≡ open_gate one table ins.now }
{
    let (places, count) = open_inputs(one, ins);
    Gate {
        count,
        table: open_table(one, table, ins, count),
        places,
    }
}
