//! Gates against their tables, and what folding and sharing save.

ghost use Rattle.std.specs.Prelude.{◌≡◌, ◌≤◌, ◌<◌, max, false};
ghost use Rattle.svr_chain.specs.Clauses.{AreWithin};

use crate::held::{finished, let_go};
use crate::valuations::{input, meets};
use std::alloc::Global;
use svr_chain::{Cnf, Lit};
use svr_gate::{Builder, NoMemory, table};

/// Tables of two inputs, and how many clauses each takes.
const OF_TWO: [(u16, usize); 10] = [
    (table!(both), 3),
    (table!(either), 3),
    (table!(unequal), 4),
    (0x1, 3),
    (0x2, 3),
    (0x4, 3),
    (0x7, 3),
    (0x9, 4),
    (0xb, 3),
    (0xd, 3),
];

const OF_THREE: [(u16, usize); 4] = [
    (table!(sum), 8),
    (table!(carry), 6),
    (table!(choice), 4),
    (table!(agree), 5),
];

const OF_FOUR: [(u16, usize); 3] = [(0x6a3c, 16), (0x8001, 16), (0x6996, 16)];

/// A table, the order of the inputs x, y and z at the second gate, and whether it is shared:
/// a parity and a carry are shared in any order, a choice only with its test first.
const ORDERS: [(u16, [u8; 3], bool); 5] = [
    (table!(sum), *b"zyx", true),
    (table!(carry), *b"yzx", true),
    (table!(agree), *b"xzy", true),
    (table!(agree), *b"yxz", false),
    (table!(choice), *b"xzy", false),
];

/// A table, its two operands, the operand that the gate is, and whether it is its negation.
const FOLDED: [(u16, [u8; 2], u8, bool); 5] = [
    (table!(both), *b"x0", b'0', false),
    (table!(both), *b"1x", b'x', false),
    (table!(either), *b"x1", b'1', false),
    (table!(unequal), *b"x1", b'x', true),
    (table!(unequal), *b"00", b'0', false),
];

/// A table of three, its known third input, and how many clauses it takes: a sum is a parity then,
/// its carry, a choice and an agreement a conjunction or a disjunction, of a negation too.
const KNOWN: [(u16, u8, usize); 8] = [
    (table!(sum), b'0', 4),
    (table!(sum), b'1', 4),
    (table!(carry), b'0', 3),
    (table!(carry), b'1', 3),
    (table!(choice), b'0', 3),
    (table!(choice), b'1', 3),
    (table!(agree), b'0', 3),
    (table!(agree), b'1', 3),
];

/// Values of the variables 1 up: the bits of the number.
fn values_of(number: u64) -> [bool; 6] {
    [
        false,
        number % 2 == 1,
        number / 2 % 2 == 1,
        number / 4 % 2 == 1,
        number / 8 % 2 == 1,
        number / 16 % 2 == 1,
    ]
}

/// Whether the clauses hold just where the variable behind the `count` inputs is the table's value.
fn define_table(cnf: &Cnf, table: u16, count: usize) -> bool {
    for row in 0..1u64 << count.min(4) {
        let is_one = (table >> (row % 16)) % 2 == 1;
        let with_output = row | 1 << count.min(4);
        if meets(cnf, &values_of(with_output)) != is_one || meets(cnf, &values_of(row)) == is_one {
            return false;
        }
    }
    true
}

/// A gate of these inputs, asked for once more where `is_again`.
fn gate<const K: usize>(
    builder: &mut Builder,
    table: u16,
    ins: [Lit; K],
    is_again: bool,
) -> Result<Lit, NoMemory>
    requires few { K ≤ 4 }
    requires within { AreWithin builder.old.vars ins }
{
    let lit = builder.define::<K>(table, ins)?;
    if is_again {
        builder.define::<K>(table, ins)
    } else {
        Ok(lit)
    }
}

/// Whether this is the literal of a variable.
fn is_input(lit: Result<Lit, NoMemory>, var: u64) -> bool {
    match lit {
        Ok(lit) => lit.var == var && !lit.neg,
        Err(_) => false,
    }
}

/// Whether a gate of these inputs is the variable behind them, with so many clauses that define its table.
fn is_gate<const K: usize>(
    alloc: Global,
    table: u16,
    count: usize,
    ins: [Lit; K],
    is_again: bool,
) -> bool
    requires few { K ≤ 4 }
    requires within { AreWithin K ins }
{
    let mut made = Builder::new(alloc, K as u32);
    let lit = match &mut made {
        Ok(builder) => gate::<K>(builder, table, ins, is_again),
        Err(refused) => Err(*refused),
    };
    let cnf = finished(alloc, made);
    let is_so = is_input(lit, K as u64 + 1)
        && cnf.clauses.len() == count
        && define_table(&cnf, table, K);
    let_go(cnf);
    is_so
}

fn are_of_two(alloc: Global, is_again: bool) -> bool {
    for (table, count) in &OF_TWO {
        if !is_gate(alloc, *table, *count, [input(1), input(2)], is_again) {
            return false;
        }
    }
    true
}

fn are_of_three(alloc: Global, is_again: bool) -> bool {
    for (table, count) in &OF_THREE {
        let ins = [input(1), input(2), input(3)];
        if !is_gate(alloc, *table, *count, ins, is_again) {
            return false;
        }
    }
    true
}

#[test]
fn named_tables(rt: HostRuntime) {
    for is_again in [false, true] {
        assert!(rt; are_of_two(rt.alloc(), is_again) && are_of_three(rt.alloc(), is_again));
    }
}

#[test]
fn other_tables(rt: HostRuntime) {
    for (table, count) in &OF_FOUR {
        let ins = [input(1), input(2), input(3), input(4)];
        assert!(rt; is_gate(rt.alloc(), *table, *count, ins, false));
    }
}

/// The input that is named x, y or z.
fn input_of(name: u8) -> Lit
    ensures { (0 < result.var) × (result.var ≤ 3) }
{
    match name {
        b'x' => input(1),
        b'y' => input(2),
        _ => input(3),
    }
}

/// Whether two gates are one, as is told.
fn are_one(first: Result<Lit, NoMemory>, second: Result<Lit, NoMemory>, shared: bool) -> bool {
    match first.ok().zip(second.ok()) {
        Some((first, second)) => { (first.var == second.var && first.neg == second.neg) == shared }
        None => false,
    }
}

/// Whether a gate of the three inputs and that of the inputs in this order are one, as is told.
fn are_shared(builder: &mut Builder, table: u16, order: &[u8; 3], shared: bool) -> bool
    requires { builder.old.vars ≡ 3 }
{
    let first = builder.define::<3>(table, [input(1), input(2), input(3)]);
    let [x, y, z] = *order;
    let second = builder.define::<3>(table, [input_of(x), input_of(y), input_of(z)]);
    are_one(first, second, shared)
}

fn is_shared(alloc: Global, table: u16, order: &[u8; 3], shared: bool) -> bool {
    let mut made = Builder::new(alloc, 3);
    let is_so = match &mut made {
        Ok(builder) => are_shared(builder, table, order, shared),
        Err(_) => false,
    };
    let_go(made);
    is_so
}

#[test]
fn order_of_inputs(rt: HostRuntime) {
    for (table, order, shared) in &ORDERS {
        assert!(rt; is_shared(rt.alloc(), *table, order, *shared));
    }
}

/// The constant 0 or 1, or the input that is named x or y.
fn operand(zero: Lit, name: u8) -> Lit
    requires { 0 < zero.var }
    ensures { (0 < result.var) × (result.var ≤ max zero.var 2) }
{
    match name {
        b'0' => zero,
        b'1' => zero.flipped(),
        b'x' => input(1),
        _ => input(2),
    }
}

/// A gate of two operands, and the operand that it is or whose negation it is.
fn gate_and_operand(
    builder: &mut Builder,
    table: u16,
    ins: &[u8; 2],
    wanted: u8,
) -> Result<(Lit, Lit), NoMemory>
    requires { builder.old.vars ≡ 2 }
{
    let zero = builder.define::<0>(table!(never), [])?;
    let [x, y] = *ins;
    let lit = builder.define::<2>(table, [operand(zero, x), operand(zero, y)])?;
    Ok((lit, operand(zero, wanted)))
}

/// Whether a literal is the one that is wanted, or its negation.
fn is_wanted(found: Result<(Lit, Lit), NoMemory>, neg: bool) -> bool {
    match found {
        Ok((lit, wanted)) => lit.var == wanted.var && lit.neg == (wanted.neg != neg),
        Err(_) => false,
    }
}

/// Whether a gate of the two operands is the one that is wanted, or its negation, and takes no clause.
fn is_folded(alloc: Global, table: u16, ins: &[u8; 2], wanted: u8, neg: bool) -> bool {
    let mut made = Builder::new(alloc, 2);
    let found = match &mut made {
        Ok(builder) => gate_and_operand(builder, table, ins, wanted),
        Err(refused) => Err(*refused),
    };
    let cnf = finished(alloc, made);
    let count = cnf.clauses.len();
    let_go(cnf);
    count == 1 && is_wanted(found, neg)
}

#[test]
fn folding(rt: HostRuntime) {
    for (table, ins, wanted, neg) in &FOLDED {
        assert!(rt; is_folded(rt.alloc(), *table, ins, *wanted, *neg));
    }
}

/// A gate whose third input is known.
fn gate_beside(builder: &mut Builder, table: u16, third: u8) -> Result<Lit, NoMemory>
    requires { builder.old.vars ≡ 2 }
{
    let zero = builder.define::<0>(table!(never), [])?;
    builder.define::<3>(table, [input(1), input(2), operand(zero, third)])
}

/// Whether there are so many clauses of a gate whose third input is known, behind that of a constant.
fn has_clauses(alloc: Global, table: u16, third: u8, wanted: usize) -> bool {
    let mut made = Builder::new(alloc, 2);
    let is_made = match &mut made {
        Ok(builder) => gate_beside(builder, table, third).is_ok(),
        Err(_) => false,
    };
    let cnf = finished(alloc, made);
    let count = cnf.clauses.len();
    let_go(cnf);
    is_made && count == wanted.wrapping_add(1)
}

#[test]
fn known_inputs(rt: HostRuntime) {
    for (table, third, count) in &KNOWN {
        assert!(rt; has_clauses(rt.alloc(), *table, *third, *count));
    }
}
