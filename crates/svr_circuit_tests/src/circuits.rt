//! Every circuit on every pair of inputs of four bits.

ghost use Rattle.std.specs.Prelude.{◌≡◌, ◌≤◌, IfOk, length};
ghost use Rattle.svr_chain.specs.Clauses.{AreWithin, IsWithin};
ghost use Rattle.svr_gate.specs.Circuit.{Extends};

use crate::held::{added, finished, let_go};
use crate::numbers::{Group, divided, expected};
use crate::valuations::{any_holds, holds, input, meets};
use std::alloc::Global;
use svr_arith::{add, div, equal, less, mul, neg, rem, sub};
use svr_chain::{Cnf, Lit};
use svr_gate::Builder;
use svr_shape::{NoMemory, ShiftKind, all, any, choose, extend, odd, shift};

/// How many input variables there are: x and y of four bits, and a test.
const INPUTS: u32 = 9;

/// A circuit with a number as its output.
enum Circuit {
    Add,
    Subtract,
    Multiply,
    Negate,
    Divide { signed: bool },
    Remainder { signed: bool },
    Shift(ShiftKind),
    Choose,
    Extend { signed: bool },
}

/// A circuit with one literal as its output.
enum Test {
    Less { signed: bool },
    Equal,
    Any,
    All,
    Odd,
}

const SUMS: [Circuit; 4] = [
    Circuit::Add,
    Circuit::Subtract,
    Circuit::Multiply,
    Circuit::Negate,
];

const COMPARISONS: [Test; 3] = [
    Test::Less { signed: false },
    Test::Less { signed: true },
    Test::Equal,
];

const DIVISIONS: [Circuit; 4] = [
    Circuit::Divide { signed: false },
    Circuit::Remainder { signed: false },
    Circuit::Divide { signed: true },
    Circuit::Remainder { signed: true },
];

const SHAPES: [Circuit; 6] = [
    Circuit::Shift(ShiftKind::Left),
    Circuit::Shift(ShiftKind::Right),
    Circuit::Shift(ShiftKind::Signed),
    Circuit::Choose,
    Circuit::Extend { signed: true },
    Circuit::Extend { signed: false },
];

const REDUCTIONS: [Test; 3] = [Test::Any, Test::All, Test::Odd];

/// Reductions, and what they are of no literal.
const OF_NOTHING: [(Test, bool); 3] = [(Test::Any, false), (Test::All, true), (Test::Odd, false)];

/// The output of a circuit over x and y, nothing where there is no memory.
fn circuit_over(
    alloc: Global,
    b: &mut Builder,
    kind: &Circuit,
    x: &[Lit],
    y: &[Lit],
) -> Option<Vec<Lit>>
    requires vars { 9 ≤ b.old.vars }
    requires x_len { length x.now ≡ 4 }
    requires y_len { length y.now ≡ 4 }
    requires x_within { AreWithin b.old.vars x.now }
    requires y_within { AreWithin b.old.vars y.now }
    ensures { Extends b.old b.new }
{
    match kind {
        Circuit::Add => add(alloc, b, x, y).ok(),
        Circuit::Subtract => sub(alloc, b, x, y).ok(),
        Circuit::Multiply => mul(alloc, b, x, y).ok(),
        Circuit::Negate => neg(alloc, b, x).ok(),
        Circuit::Divide { signed } => div(alloc, b, x, y, *signed).ok(),
        Circuit::Remainder { signed } => rem(alloc, b, x, y, *signed).ok(),
        Circuit::Shift(kind) => shift(alloc, b, *kind, x, y).ok(),
        Circuit::Choose => choose(alloc, b, input(9), x, y).ok(),
        Circuit::Extend { signed } => extend(alloc, b, x, 6, *signed).ok(),
    }
}

fn test_over(b: &mut Builder, kind: &Test, x: &[Lit], y: &[Lit]) -> Option<Lit>
    requires x_len { length x.now ≡ 4 }
    requires y_len { length y.now ≡ 4 }
    requires x_within { AreWithin b.old.vars x.now }
    requires y_within { AreWithin b.old.vars y.now }
    ensures { Extends b.old b.new }
{
    match kind {
        Test::Less { signed } => less(b, x, y, *signed).ok(),
        Test::Equal => equal(b, x, y).ok(),
        Test::Any => any(b, x).ok(),
        Test::All => all(b, x).ok(),
        Test::Odd => odd(b, x).ok(),
    }
}

/// The output of a circuit over x and y is added to the row, the least bit first.
fn add_circuit(alloc: Global, b: &mut Builder, kind: &Circuit, row: &mut Vec<Lit>) -> bool
    requires { 9 ≤ b.old.vars }
    ensures { Extends b.old b.new }
{
    let x = [input(1), input(2), input(3), input(4)];
    let y = [input(5), input(6), input(7), input(8)];
    let outputs = circuit_over(alloc, b, kind, &x, &y);
    let is_added = match &outputs {
        Some(lits) => row.extend_from_slice(lits).is_ok(),
        None => false,
    };
    let_go(outputs);
    is_added
}

fn add_test(b: &mut Builder, kind: &Test, row: &mut Vec<Lit>) -> bool
    requires { 9 ≤ b.old.vars }
    ensures { Extends b.old b.new }
{
    let x = [input(1), input(2), input(3), input(4)];
    let y = [input(5), input(6), input(7), input(8)];
    match test_over(b, kind, &x, &y) {
        Some(output) => row.push(output).is_ok(),
        None => false,
    }
}

/// The outputs of the circuits are added to the row.
fn add_all(
    alloc: Global,
    b: &mut Builder,
    circuits: &[Circuit],
    tests: &[Test],
    row: &mut Vec<Lit>,
) -> bool
    requires { 9 ≤ b.old.vars }
{
    for circuit in circuits {
        if !add_circuit(alloc, b, circuit, row) {
            return false;
        }
    }
    for test in tests {
        if !add_test(b, test, row) {
            return false;
        }
    }
    true
}

/// The outputs of the circuits of a group are added to the row.
fn add_group(alloc: Global, b: &mut Builder, group: Group, row: &mut Vec<Lit>) -> bool
    requires { 9 ≤ b.old.vars }
{
    match group {
        Group::Sums => add_all(alloc, b, &SUMS, &COMPARISONS, row),
        Group::Divisions => add_all(alloc, b, &DIVISIONS, &[], row),
        Group::Shapes => add_all(alloc, b, &SHAPES, &REDUCTIONS, row),
    }
}

/// The values of so many variables, of which the inputs alone have theirs.
fn begin(values: &mut Vec<bool>, vars: u64, inputs: u64) {
    added(values, false);
    for place in 0..vars {
        added(values, place < INPUTS as u64 && (inputs >> place) % 2 == 1);
    }
}

/// The values of all variables that the clauses settle from those of the inputs: a gate's clauses
/// stand in the order of the gates, and its output stands last in each of them.
fn settle(cnf: &Cnf, values: &mut [bool]) {
    for clause in &cnf.clauses {
        if let Some((output, rest)) = clause.lits().split_last() {
            let place = output.var as usize;
            if !any_holds(rest, values) && place < values.len() {
                values[place] = !output.neg;
            }
        }
    }
}

fn read(lits: &[Lit], values: &[bool]) -> u64 {
    let mut number = 0;
    let mut unit: u64 = 1;
    for lit in lits {
        if holds(*lit, values) {
            number |= unit;
        }
        unit = unit.wrapping_mul(2);
    }
    number
}

/// Whether the clauses are met at one of the inputs, and the outputs read as they are to.
fn is_right_at(alloc: Global, cnf: &Cnf, row: &[Lit], group: Group, inputs: u64) -> bool {
    let mut values = Vec::new(alloc);
    begin(&mut values, cnf.vars, inputs);
    settle(cnf, &mut values);
    let is_so = meets(cnf, &values) && read(row, &values) == expected(group, inputs);
    let_go(values);
    is_so
}

/// Whether the outputs read as they are to at all of so many inputs.
fn are_right(alloc: Global, cnf: &Cnf, row: &[Lit], group: Group, count: u64) -> bool {
    for inputs in 0..count {
        if !is_right_at(alloc, cnf, row, group, inputs) {
            return false;
        }
    }
    true
}

/// Whether the circuits of a group are right at all of so many inputs.
fn is_right(alloc: Global, group: Group, count: u64) -> bool {
    let mut row = Vec::new(alloc);
    let mut made = Builder::new(alloc, INPUTS);
    let is_made = match &mut made {
        Ok(b) => add_group(alloc, b, group, &mut row),
        Err(_) => false,
    };
    let cnf = finished(alloc, made);
    let is_so = is_made && are_right(alloc, &cnf, &row, group, count);
    let_go(cnf);
    let_go(row);
    is_so
}

#[test]
fn sums(rt: HostRuntime) {
    assert!(rt; is_right(rt.alloc(), Group::Sums, 256));
}

#[test]
fn divisions(rt: HostRuntime) {
    assert!(rt; is_right(rt.alloc(), Group::Divisions, 256));
}

#[test]
fn shapes(rt: HostRuntime) {
    assert!(rt; is_right(rt.alloc(), Group::Shapes, 512));
}

// Without a sign 13 by 0; with a sign -8 by -1, and -7 by 2.
#[test]
fn divisions_by_hand(rt: HostRuntime) {
    assert!(rt; divided(13, 0) == 0x0000 && divided(8, 15) == 0x0880 && divided(9, 2) == 0xfd14);
}

/// A reduction of nothing.
fn nothing(b: &mut Builder, kind: &Test) -> Result<Lit, NoMemory>
    ensures { IfOk result (IsWithin b.new.vars) }
{
    match kind {
        Test::All => Ok(all(b, &[])?),
        Test::Odd => Ok(odd(b, &[])?),
        Test::Any | Test::Less { .. } | Test::Equal => Ok(any(b, &[])?),
    }
}

/// Whether a reduction of nothing is known to be this.
fn is_known(b: &mut Builder, kind: &Test, value: bool) -> bool {
    match nothing(b, kind) {
        Ok(lit) => match b.known(lit) {
            Some(known) => known == value,
            None => false,
        },
        Err(_) => false,
    }
}

fn is_known_of_nothing(alloc: Global, kind: &Test, value: bool) -> bool {
    let mut made = Builder::new(alloc, INPUTS);
    let is_so = match &mut made {
        Ok(b) => is_known(b, kind, value),
        Err(_) => false,
    };
    let_go(made);
    is_so
}

#[test]
fn reductions_of_nothing(rt: HostRuntime) {
    for (kind, value) in &OF_NOTHING {
        assert!(rt; is_known_of_nothing(rt.alloc(), kind, *value));
    }
}
