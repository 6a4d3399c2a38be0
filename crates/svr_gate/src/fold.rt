//! Gates that need no clauses: constants, and copies of an input.

ghost use Rattle.std.specs.Prelude.{◌≡◌, ◌==◌, ◌/◌, ◌%◌, ◌^◌, ◌+◌, ◌≤◌, ◌<◌, ◌↔◌, ℕ, true, length, MatchOption, IsTrue, ⊤};
ghost use Rattle.svr_gate.specs.Gates.{table_value, copy_of};
ghost use Rattle.svr_gate.specs.Folding.{IsOfKind};

use crate::gate::Gate;
use svr_chain::Lit;

/// What a gate is without clauses of its own.
#[derive(Clone, Copy)]
pub(crate) enum GateKind {
    /// It has this value in each row.
    Constant(bool),
    /// It is this literal: one of its inputs, or the negation of one.
    Copy(Lit),
    /// Neither.
    Proper,
}

/// The value, or its negation.
fn copy(value: bool, same: bool) -> bool
    ensures { result ≡ copy_of same value }
{
    if same { value } else { !value }
}

/// Whether each row of a table of `count` inputs has this value.
fn is_always(table: u16, count: usize, value: bool) -> bool
    requires { count ≤ 4 }
    ensures { IsTrue result ↔ ((i : ℕ) → i < 2 ^ count → table_value table i ≡ value) }
{
    for row in 0..1u16 << count {
        if ((table >> row) % 2 == 1) != value {
            return false;
        }
    }
    true
}

/// Whether each row of a table of `count` inputs is its bit `place`, or the negation of it.
fn is_copy(table: u16, count: usize, place: usize, same: bool) -> bool
    requires few { count ≤ 4 }
    requires at { place < count }
    ensures { IsTrue result ↔ ((i : ℕ) → i < 2 ^ count → table_value table i ≡ copy_of same (i / 2 ^ place % 2 == 1)) }
{
    for row in 0..1u16 << count {
        if ((table >> row) % 2 == 1) != copy((row >> place) % 2 == 1, same) {
            return false;
        }
    }
    true
}

/// What a gate is without clauses of its own.
pub(crate) fn kind_of(gate: &Gate) -> GateKind
    requires { gate.now.count ≤ 4 }
    ensures { IsOfKind gate.now result }
{
    let ins = gate.inputs();
    if is_always(gate.table, gate.count, false) {
        return GateKind::Constant(false);
    }
    if is_always(gate.table, gate.count, true) {
        return GateKind::Constant(true);
    }
    for place in 0..gate.count {
        let lit = ins[place];
        if is_copy(gate.table, gate.count, place, true) {
            return GateKind::Copy(lit);
        }
        if is_copy(gate.table, gate.count, place, false) {
            return GateKind::Copy(lit.flipped());
        }
    }
    GateKind::Proper
}
