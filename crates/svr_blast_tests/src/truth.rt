//! What each item is by the rules of the standard, and whether its clauses say so.

ghost use Rattle.std.specs.Prelude.{◌≡◌, ◌<◌, ◌≤◌};

use crate::clauses::root_value;
use crate::encoding::agrees;
use crate::form::Form;
use crate::items::part_of;
use std::alloc::Global;
use svr_chain::{Cnf, Lit};
use svr_encoded::Encoded;
use svr_frame::Part;
use svr_operator::{BinOp, Fold, UnOp};

/// The numbers that an item reads.
#[derive(Clone, Copy)]
struct Numbers {
    x: u8,
    y: u8,
    z: u8,
    row: [u8; 3],
    table: [u8; 4],
    size: u8,
}

/// The bits of a number from a place on, of which `unit` is the value, below `limit`.
fn field(number: u64, unit: u64, limit: u8) -> u8
    requires unit { 0 < unit }
    requires limit { 0 < limit }
{
    (number / unit % u64::from(limit)) as u8
}

/// The numbers that the bits of a phase read as.
fn numbers_of(part: Part, bits: u64) -> Numbers {
    match part {
        Part::Randc | Part::Sizes => Numbers {
            size: field(bits, 1, 8),
            x: field(bits, 8, 16),
            y: field(bits, 128, 16),
            z: field(bits, 2048, 16),
            row: [1, 2, 3],
            table: [0; 4],
        },
        Part::All => Numbers {
            x: field(bits, 1, 16),
            y: field(bits, 16, 16),
            z: field(bits, 256, 16),
            row: [
                field(bits, 4096, 4),
                field(bits, 16_384, 4),
                field(bits, 65_536, 4),
            ],
            table: [
                field(bits, 262_144, 2),
                field(bits, 524_288, 2),
                field(bits, 1_048_576, 2),
                field(bits, 2_097_152, 2),
            ],
            size: 0,
        },
    }
}

/// Four bits with or without a sign.
fn read(number: u8, signed: bool) -> i32 {
    let value = i32::from(number);
    if signed && value > 7 {
        value - 16
    } else {
        value
    }
}

fn bit(value: bool) -> i32 {
    if value { 1 } else { 0 }
}

fn binary(op: BinOp, signed: bool, x: u8, y: u8) -> i32 {
    let (a, b) = (read(x, signed), read(y, signed));
    match op {
        BinOp::Multiply => a.wrapping_mul(b),
        BinOp::Divide => a.checked_div(b).unwrap_or(0),
        BinOp::Modulus => a.checked_rem(b).unwrap_or(0),
        BinOp::Add => a.wrapping_add(b),
        BinOp::Subtract => a.wrapping_sub(b),
        BinOp::ShiftLeft | BinOp::ShiftLeftArith => a << y.min(4),
        BinOp::ShiftRight => i32::from(x) >> y.min(4),
        BinOp::ShiftRightArith => a >> y.min(4),
        BinOp::Less => bit(a < b),
        BinOp::AtMost => bit(a <= b),
        BinOp::Greater => bit(a > b),
        BinOp::AtLeast => bit(a >= b),
        BinOp::Equal | BinOp::CaseEqual => bit(a == b),
        BinOp::NotEqual | BinOp::CaseNotEqual => bit(a != b),
        BinOp::BitwiseAnd => a & b,
        BinOp::BitwiseXor => a ^ b,
        BinOp::BitwiseTildeXor | BinOp::BitwiseXorTilde => !(a ^ b),
        BinOp::BitwiseOr => a | b,
        BinOp::LogicalAnd => bit(a != 0 && b != 0),
        BinOp::LogicalOr => bit(a != 0 || b != 0),
        BinOp::Implies => bit(a == 0 || b != 0),
        BinOp::Equivalent => bit((a == 0) == (b == 0)),
    }
}

fn unary(op: UnOp, signed: bool, x: u8) -> i32 {
    let a = read(x, signed);
    let is_odd = x.count_ones() % 2 == 1;
    match op {
        UnOp::Plus => a,
        UnOp::Minus => 0i32.wrapping_sub(a),
        UnOp::BitwiseNot => !a,
        UnOp::ReduceAnd => bit(x == 15),
        UnOp::ReduceNand => bit(x != 15),
        UnOp::ReduceOr => bit(x != 0),
        UnOp::LogicalNot | UnOp::ReduceNor => bit(x == 0),
        UnOp::ReduceXor => bit(is_odd),
        UnOp::ReduceTildeXor | UnOp::ReduceXorTilde => bit(!is_odd),
    }
}

/// There is no element outside, which reads 0.
fn row_at(row: [u8; 3], index: i32) -> i32 {
    match index {
        0 => i32::from(row[0]),
        1 => i32::from(row[1]),
        2 => i32::from(row[2]),
        _ => 0,
    }
}

fn cell_at(table: [u8; 4], first: u8, second: u8) -> i32 {
    match (first, second) {
        (0, 0) => i32::from(table[0]),
        (0, 1) => i32::from(table[1]),
        (1, 0) => i32::from(table[2]),
        (1, 1) => i32::from(table[3]),
        (_, _) => 0,
    }
}

/// Over elements of two bits.
fn reduced(op: Fold, row: [u8; 3]) -> i32 {
    let [a, b, c] = row;
    i32::from(match op {
        Fold::Sum => a.wrapping_add(b).wrapping_add(c) % 4,
        Fold::Product => a.wrapping_mul(b).wrapping_mul(c) % 4,
        Fold::And => a & b & c,
        Fold::Or => a | b | c,
        Fold::Xor => a ^ b ^ c,
    })
}

/// `x inside {y, [-3:1], [z:$]}`, where -3 is a great number without signs.
fn is_inside(n: Numbers, signed: bool) -> bool {
    let (a, b, c) = (read(n.x, signed), read(n.y, signed), read(n.z, signed));
    a == b || (signed && a >= -3 && a <= 1) || a >= c
}

/// `{high, low} - {y, z}` at eight bits.
fn is_difference(n: Numbers, high: u8, low: u8, wanted: u8) -> bool {
    let left = i32::from(high) * 16 + i32::from(low);
    let right = i32::from(n.y) * 16 + i32::from(n.z);
    left.wrapping_sub(right).wrapping_sub(i32::from(wanted)) % 256 == 0
}

/// Whether the item holds.
fn truth(form: Form, n: Numbers) -> bool {
    let x = i32::from(n.x);
    let value = match form {
        Form::Binary { op, signed } => binary(op, signed, n.x, n.y),
        Form::Unary { op, signed } => unary(op, signed, n.x),
        Form::Choice => i32::from(if n.x != 0 { n.y } else { 5 }),
        Form::Inside { signed } => return is_inside(n, signed),
        Form::Array => return n.row[0] == n.x || n.row[1] == n.x || n.row[2] == n.x,
        Form::Join => return is_difference(n, n.x, n.y, 7),
        Form::Copies => return is_difference(n, n.x, n.x, 3),
        Form::Bit => x / 4 % 2,
        Form::Bits => x / 2 % 4,
        Form::Every => 15 - x,
        Form::Script => x + 9,
        Form::Element { signed } => row_at(n.row, read(n.x, signed)),
        Form::ElementAt => row_at(n.row, 1),
        Form::Cell => cell_at(n.table, n.x, n.y),
        Form::Reduce { op } => reduced(op, n.row),
        Form::Size => return i32::from(n.size) + x == i32::from(n.z),
        Form::SizedElement => row_at(n.row, i32::from(n.size)),
        Form::SizedBit => (x >> n.size.min(7)) % 2,
        Form::KnownElement => row_at(n.row, x),
    };
    value.wrapping_sub(i32::from(n.z)) % 16 == 0
}

/// How many values of the bits that an item reads there are.
fn tries(form: Form) -> u64 {
    match form {
        Form::Array | Form::Element { .. } | Form::ElementAt | Form::Reduce { .. } => 16_384,
        Form::Cell => 65_536,
        Form::Size | Form::SizedElement | Form::SizedBit | Form::KnownElement => 32_768,
        _ => 4096,
    }
}

/// The bits of all unknowns, where those that the item reads are the bits of `number` in a row.
fn spread(form: Form, number: u64) -> u64
    requires { number < 65536 }
{
    match form {
        Form::Array | Form::Element { .. } | Form::ElementAt | Form::Reduce { .. } => {
            number % 16 + number / 16 % 16 * 256 + number / 256 * 4096
        }
        Form::Cell => number % 4096 + number / 4096 * 262_144,
        _ => number,
    }
}

/// The bits of all unknowns at 64 values in a row of those that the item reads.
fn row_of(form: Form, first: u64) -> [u64; 64]
    requires first { first < 65536 }
{
    let mut row = [0; 64];
    for step in 0..64u64 {
        row[step as usize] = spread(form, (first + step) % 65_536);
    }
    row
}

/// The bits at `place` of the numbers.
fn word_at(row: &[u64], place: u64) -> u64 {
    let mut word = 0u64;
    for bits in row {
        word = word << 1 | bits >> place.min(63) & 1;
    }
    word
}

/// Where the item holds.
fn truths(form: Form, part: Part, row: &[u64]) -> u64 {
    let mut word = 0u64;
    for bits in row {
        word = word << 1 | u64::from(truth(form, numbers_of(part, *bits)));
    }
    word
}

/// The words of the first variables.
fn words_of(row: &[u64]) -> [u64; 22] {
    let mut words = [0; 22];
    for place in 0..22u64 {
        words[place as usize] = word_at(row, place);
    }
    words
}

/// How many variables of a part have a word.
fn bits_of(part: Part) -> usize
    ensures { result ≤ 22 }
{
    match part {
        Part::Randc | Part::Sizes => 15,
        Part::All => 22,
    }
}

/// Whether the clauses are true to an item at 64 values of what it reads.
fn agrees_at(alloc: Global, cnf: &Cnf, root: Lit, form: Form, first: u64) -> bool
    requires { first < 65536 }
{
    let part = part_of(form);
    let row = row_of(form, first);
    let words = words_of(&row);
    let told = root_value(alloc, cnf, root, &words[..bits_of(part)]);
    told.is_settled == u64::MAX && told.is_true == truths(form, part, &row)
}

/// Whether the clauses are true to an item at all values of what it reads.
fn agrees_over(alloc: Global, cnf: &Cnf, root: Lit, form: Form) -> bool {
    for turn in 0..tries(form).min(65_536) / 64 {
        if !agrees_at(alloc, cnf, root, form, turn * 64 % 65_536) {
            return false;
        }
    }
    true
}

/// Whether there are clauses, and they are true to their first item at all values of what it reads.
pub(crate) fn agrees_with<E>(alloc: Global, encoded: &Result<Encoded, E>, form: Form) -> bool {
    match encoded {
        Ok(encoded) => match encoded.roots.first() {
            Some(root) => agrees_over(alloc, &encoded.cnf, *root, form),
            None => false,
        },
        Err(_) => false,
    }
}

const ARITHMETIC: [BinOp; 14] = [
    BinOp::Multiply,
    BinOp::Divide,
    BinOp::Modulus,
    BinOp::Add,
    BinOp::Subtract,
    BinOp::ShiftLeft,
    BinOp::ShiftRight,
    BinOp::ShiftLeftArith,
    BinOp::ShiftRightArith,
    BinOp::BitwiseAnd,
    BinOp::BitwiseXor,
    BinOp::BitwiseTildeXor,
    BinOp::BitwiseXorTilde,
    BinOp::BitwiseOr,
];

const COMPARISONS: [BinOp; 12] = [
    BinOp::Less,
    BinOp::AtMost,
    BinOp::Greater,
    BinOp::AtLeast,
    BinOp::Equal,
    BinOp::NotEqual,
    BinOp::CaseEqual,
    BinOp::CaseNotEqual,
    BinOp::LogicalAnd,
    BinOp::LogicalOr,
    BinOp::Implies,
    BinOp::Equivalent,
];

const CHANGES: [UnOp; 11] = [
    UnOp::Plus,
    UnOp::Minus,
    UnOp::LogicalNot,
    UnOp::BitwiseNot,
    UnOp::ReduceAnd,
    UnOp::ReduceNand,
    UnOp::ReduceOr,
    UnOp::ReduceNor,
    UnOp::ReduceXor,
    UnOp::ReduceTildeXor,
    UnOp::ReduceXorTilde,
];

const SELECTS: [Form; 10] = [
    Form::Choice,
    Form::Inside { signed: false },
    Form::Inside { signed: true },
    Form::Array,
    Form::Join,
    Form::Copies,
    Form::Bit,
    Form::Bits,
    Form::Every,
    Form::Script,
];

const ELEMENTS: [Form; 10] = [
    Form::Element { signed: false },
    Form::Element { signed: true },
    Form::ElementAt,
    Form::Cell,
    Form::KnownElement,
    Form::Reduce { op: Fold::Sum },
    Form::Reduce { op: Fold::Product },
    Form::Reduce { op: Fold::And },
    Form::Reduce { op: Fold::Or },
    Form::Reduce { op: Fold::Xor },
];

const SIZES: [Form; 3] = [Form::Size, Form::SizedElement, Form::SizedBit];

fn binaries_agree(alloc: Global, ops: &[BinOp], signed: bool) -> bool {
    for op in ops {
        if !agrees(alloc, Form::Binary { op: *op, signed }) {
            return false;
        }
    }
    true
}

fn unaries_agree(alloc: Global, ops: &[UnOp], signed: bool) -> bool {
    for op in ops {
        if !agrees(alloc, Form::Unary { op: *op, signed }) {
            return false;
        }
    }
    true
}

fn all_agree(alloc: Global, forms: &[Form]) -> bool {
    for form in forms {
        if !agrees(alloc, *form) {
            return false;
        }
    }
    true
}

#[test]
fn arithmetic(rt: HostRuntime) {
    let alloc = rt.alloc();
    assert!(rt;
        binaries_agree(alloc, &ARITHMETIC, false) && binaries_agree(alloc, &ARITHMETIC, true)
    );
}

#[test]
fn comparisons(rt: HostRuntime) {
    let alloc = rt.alloc();
    assert!(rt;
        binaries_agree(alloc, &COMPARISONS, false) && binaries_agree(alloc, &COMPARISONS, true)
    );
}

#[test]
fn changes_and_reductions(rt: HostRuntime) {
    let alloc = rt.alloc();
    assert!(rt; unaries_agree(alloc, &CHANGES, false) && unaries_agree(alloc, &CHANGES, true));
}

#[test]
fn selects_and_sets(rt: HostRuntime) {
    assert!(rt; all_agree(rt.alloc(), &SELECTS));
}

#[test]
fn elements(rt: HostRuntime) {
    assert!(rt; all_agree(rt.alloc(), &ELEMENTS));
}

#[test]
fn sizes(rt: HostRuntime) {
    assert!(rt; all_agree(rt.alloc(), &SIZES));
}
