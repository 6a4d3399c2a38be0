//! Circuits of gates with two inputs, as solvers and as functions of their bits.

ghost use Rattle.std.specs.Prelude.{◌≡◌, ◌<◌, ◌≤◌, IfOk, OnOk, All, length};
ghost use Rattle.svr_chain.specs.Clauses.{AreWithin};
ghost use Rattle.svr_chain.specs.Settled.{AreSettled};
ghost use Rattle.svr_gate.specs.Circuit.{Extends};
ghost use Rattle.svr_query.specs.Bits.{AreFirst};

use crate::memory::{added, both};
use std::alloc::Global;
use svr_chain::{Cnf, Lit};
use svr_gate::{Builder, NoMemory};
use svr_query::Solver;

/// A gate of two earlier signals: bit i of its table is its value where the first is bit 0 of i and the second is bit 1.
#[derive(Clone, Copy)]
pub(crate) struct Gate {
    pub(crate) table: u16,
    pub(crate) first: usize,
    pub(crate) second: usize,
}

/// A solver over the gates, the number of its variables, and the literals of the bits and of the gates in turn.
#[derive(Drop)]
pub(crate) struct Built {
    pub(crate) solver: Solver,
    pub(crate) vars: u64,
    pub(crate) signals: Vec<Lit>,
}

/// The literals of the variables 1 to `count`.
#[tactic(auto, using(crate::proofs::Bits::first_more))]
fn bit_lits(alloc: Global, count: u32) -> Result<Vec<Lit>, NoMemory>
    ensures first { IfOk result (λ v. AreFirst v.items) }
    ensures len { IfOk result (λ v. length v.items ≡ count) }
    ensures within { IfOk result (λ v. AreWithin count v.items) }
{
    let mut lits = Vec::new(alloc);
    for place in 0..count {
        lits.push(Lit {
            var: place as u64 + 1,
            neg: false,
        })?;
    }
    Ok(lits)
}

/// The gate is built, and its literal is one more signal.
fn add_gate(builder: &mut Builder, signals: &mut Vec<Lit>, gate: Gate) -> Result<(), NoMemory>
    requires first { gate.first < length signals.old.items }
    requires second { gate.second < length signals.old.items }
    requires within { AreWithin builder.old.vars signals.old.items }
    ensures extends { Extends builder.old builder.new }
    ensures within { OnOk result (AreWithin builder.new.vars signals.new.items) }
{
    let first = signals[gate.first];
    let second = signals[gate.second];
    let lit = builder.define(gate.table, [first, second])?;
    signals.push(lit)?;
    Ok(())
}

/// The gates are built in turn, up to the first for which there is no memory.
fn add_gates(builder: &mut Builder, signals: &mut Vec<Lit>, gates: &[Gate]) -> Result<(), NoMemory>
    requires { AreWithin builder.old.vars signals.old.items }
    ensures inputs { builder.new.inputs ≡ builder.old.inputs }
    ensures vars { builder.old.vars ≤ builder.new.vars }
{
    for gate in gates {
        if gate.first < signals.len() && gate.second < signals.len() {
            add_gate(builder, signals, *gate)?;
        }
    }
    Ok(())
}

/// The clauses of the gates.
fn cnf_of(mut builder: Builder, signals: &mut Vec<Lit>, count: u32, gates: &[Gate]) -> Cnf
    requires inputs { builder.inputs ≡ count }
    requires vars { builder.vars ≡ count }
    requires within { AreWithin count signals.old.items }
    ensures vars { count ≤ result.vars }
    ensures within { All (AreWithin result.vars) result.clauses.items }
    ensures settled { AreSettled count result.vars result.clauses.items }
{
    let _outcome = add_gates(&mut builder, signals, gates);
    builder.finish()
}

#[tactic(auto, using(crate::proofs::Bits::within_more))]
fn make_built(
    alloc: Global,
    builder: Builder,
    gates: &[Gate],
    bits: Vec<Lit>,
    signals: Vec<Lit>,
    count: u32,
) -> Result<Built, NoMemory>
    requires inputs { builder.inputs ≡ count }
    requires vars { builder.vars ≡ count }
    requires first { AreFirst bits.items }
    requires len { length bits.items ≡ count }
    requires bits { AreWithin count bits.items }
    requires signals { AreWithin count signals.items }
    ensures { IfOk result (λ b. b.solver.vars ≡ b.vars) }
{
    let mut signals = signals;
    let cnf = cnf_of(builder, &mut signals, count, gates);
    let vars = cnf.vars;
    match Solver::with_bits(alloc, cnf, bits) {
        Ok(solver) => Ok(Built {
            solver,
            vars,
            signals,
        }),
        Err(_) => Err(NoMemory),
    }
}

/// The solver of a circuit with so many bits.
pub(crate) fn build(alloc: Global, count: u32, gates: &[Gate]) -> Result<Built, NoMemory>
    ensures { IfOk result (λ b. b.solver.vars ≡ b.vars) }
{
    let (bits, signals) = both(bit_lits(alloc, count), bit_lits(alloc, count))?;
    match Builder::new(alloc, count) {
        Ok(builder) => make_built(alloc, builder, gates, bits, signals, count),
        Err(_) => Err(NoMemory),
    }
}

/// Whether there is a signal for each bit and each gate.
pub(crate) fn is_whole(built: &Built, count: u32, gates: &[Gate]) -> bool {
    built.signals.len() == gates.len().wrapping_add(count as usize)
}

/// The values of the bits, which are those of `row`, and of the gates in turn.
pub(crate) fn settle(values: &mut Vec<bool>, count: u32, gates: &[Gate], row: u64) {
    values.clear();
    let mut left = row;
    for _ in 0..count {
        added(values, left % 2 == 1);
        left /= 2;
    }
    for gate in gates {
        if gate.first < values.len() && gate.second < values.len() {
            let place = values[gate.first] as u16 + 2 * values[gate.second] as u16;
            added(values, (gate.table >> place) % 2 == 1);
        }
    }
}
