//! The corner cases of 4 and of 64 bits.

ghost use Rattle.std.specs.Prelude.{◌≡◌, ◌≤◌};

use svr_num::Bits;

/// What is asked of two numbers of one width, or of one and a count of places.
enum Op {
    Add,
    Subtract,
    Multiply,
    Divide { signed: bool },
    Remainder { signed: bool },
    Negate,
    Not,
    And,
    Or,
    Xor,
    ShiftLeft,
    ShiftRight,
    ShiftRightSigned,
}

const LEAST: u64 = 0x8000_0000_0000_0000;

const MINUS_ONE: u64 = 0xffff_ffff_ffff_ffff;

/// Operators with their operands and results at 4 bits.
const OF_FOUR: [(Op, u64, u64, u64); 24] = [
    (Op::Divide { signed: true }, 8, 15, 8),
    (Op::Remainder { signed: true }, 8, 15, 0),
    (Op::Divide { signed: true }, 9, 2, 13),
    (Op::Remainder { signed: true }, 9, 2, 15),
    (Op::Remainder { signed: true }, 7, 14, 1),
    (Op::Divide { signed: false }, 13, 2, 6),
    (Op::Divide { signed: true }, 13, 0, 0),
    (Op::Divide { signed: false }, 13, 0, 0),
    (Op::Remainder { signed: true }, 13, 0, 0),
    (Op::Remainder { signed: false }, 13, 0, 0),
    (Op::ShiftRightSigned, 9, 7, 15),
    (Op::ShiftRightSigned, 9, 1, 12),
    (Op::ShiftRight, 9, 7, 0),
    (Op::ShiftRight, 9, 1, 4),
    (Op::ShiftLeft, 9, 1, 2),
    (Op::ShiftLeft, 9, 4, 0),
    (Op::Add, 9, 9, 2),
    (Op::Subtract, 2, 9, 9),
    (Op::Multiply, 9, 5, 13),
    (Op::And, 12, 10, 8),
    (Op::Or, 12, 10, 14),
    (Op::Xor, 12, 10, 6),
    (Op::Not, 12, 0, 3),
    (Op::Negate, 3, 0, 13),
];

/// The same at 64 bits.
const OF_LONG: [(Op, u64, u64, u64); 8] = [
    (Op::Divide { signed: true }, LEAST, MINUS_ONE, LEAST),
    (Op::Remainder { signed: true }, LEAST, MINUS_ONE, 0),
    (Op::ShiftRightSigned, LEAST, 63, MINUS_ONE),
    (Op::ShiftRightSigned, LEAST, 1 << 63, MINUS_ONE),
    (Op::ShiftRight, LEAST, 64, 0),
    (Op::ShiftLeft, MINUS_ONE, 64, 0),
    (Op::ShiftRight, LEAST, 63, 1),
    (Op::Negate, LEAST, 0, LEAST),
];

/// Numbers of 64 bits, whether they are read with a sign, and whether the first is the lower one.
const COMPARED: [(u64, u64, bool, bool); 3] = [
    (LEAST, MINUS_ONE, true, true),
    (MINUS_ONE, 0, true, true),
    (MINUS_ONE, LEAST, false, false),
];

/// The result of an operator at so many bits.
fn applied(op: &Op, left: u64, right: u64, width: u8) -> Bits
    requires low { 1 ≤ width }
    requires high { width ≤ 64 }
{
    let a = Bits::wrap(left as u128, width);
    let b = Bits::wrap(right as u128, width);
    match op {
        Op::Add => a.add(b),
        Op::Subtract => a.sub(b),
        Op::Multiply => a.mul(b),
        Op::Divide { signed } => a.div(b, *signed),
        Op::Remainder { signed } => a.rem(b, *signed),
        Op::Negate => a.neg(),
        Op::Not => a.not(),
        Op::And => a.and(b),
        Op::Or => a.or(b),
        Op::Xor => a.xor(b),
        Op::ShiftLeft => a.shl(right),
        Op::ShiftRight => a.shr(right),
        Op::ShiftRightSigned => a.sar(right),
    }
}

fn is(found: Bits, value: u64, width: u8) -> bool {
    found.value() == value && found.width() == width
}

#[test]
fn operators_at_4_bits(rt: HostRuntime) {
    for (op, left, right, value) in &OF_FOUR {
        assert!(rt; is(applied(op, *left, *right, 4), *value, 4));
    }
}

#[test]
fn operators_at_64_bits(rt: HostRuntime) {
    for (op, left, right, value) in &OF_LONG {
        assert!(rt; is(applied(op, *left, *right, 64), *value, 64));
    }
}

#[test]
fn other_widths(rt: HostRuntime) {
    let nine = Bits::wrap(9, 4);
    let is_extended = is(nine.extend(6, true), 57, 6) && is(nine.extend(6, false), 9, 6);
    assert!(rt; is_extended && is(Bits::wrap(13, 4).cut(2), 1, 2));
}

#[test]
fn signs(rt: HostRuntime) {
    assert!(rt; Bits::wrap(LEAST as u128, 64).signed() == -0x8000_0000_0000_0000);
}

#[test]
fn comparisons(rt: HostRuntime) {
    for (left, right, signed, is_less) in &COMPARED {
        let left = Bits::wrap(*left as u128, 64);
        let right = Bits::wrap(*right as u128, 64);
        assert!(rt; left.less(right, *signed) == *is_less);
    }
}
