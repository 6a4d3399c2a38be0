// Operators by how they take their operands, and what each of them gives on values that are already there.

ghost use Rattle.std.specs.Prelude.{◌≡◌, ◌≤◌};
ghost use Rattle.svr_eval.specs.Operator as spec;

use crate::parts::bits;
use svr_num::Bits;
use svr_operator::{BinOp, Fold, UnOp};

/// A binary operator whose operands both have the width and sign of the context (IEEE 1800-2017, 11.4.3 and 11.4.8).
#[derive(Clone, Copy)]
pub enum Arithmetic {
    Multiply,
    Divide,
    Modulus,
    Add,
    Subtract,
    And,
    Xor,
    Xnor,
    Or,
}

/// A shift: its left operand has the width and sign of the context, its right one its own (IEEE 1800-2017, 11.4.10).
#[derive(Clone, Copy)]
pub enum Shift {
    Left,
    Right,
    /// `>>>`: copies of the sign bit come in where the context is signed
    RightArith,
}

/// A comparison: both operands have the greater of their sizes, and are signed where both are (IEEE 1800-2017, 11.4.4 and 11.4.5).
#[derive(Clone, Copy)]
pub enum Comparison {
    Less,
    AtMost,
    Greater,
    AtLeast,
    Equal,
    NotEqual,
}

/// A logical operator: each operand is computed alone, and is true where it is not 0 (IEEE 1800-2017, 11.4.7).
#[derive(Clone, Copy)]
pub enum Connective {
    And,
    Or,
    Implies,
    Equivalent,
}

/// How a binary operator takes its operands (IEEE 1800-2017, table 11-21).
#[derive(Clone, Copy)]
pub enum BinaryKind {
    InContext(Arithmetic),
    Shifted(Shift),
    ByPair(Comparison),
    Logical(Connective),
}

/// A unary operator whose operand has the width and sign of the context.
#[derive(Clone, Copy)]
pub enum Change {
    Plus,
    Minus,
    Not,
}

/// A unary operator that makes one bit of its operand, which is computed alone (IEEE 1800-2017, 11.4.9). `!` is `Nor`.
#[derive(Clone, Copy)]
pub enum Reduction {
    And,
    Nand,
    Or,
    Nor,
    Xor,
    Xnor,
}

/// How a unary operator takes its operand (IEEE 1800-2017, table 11-21).
#[derive(Clone, Copy)]
pub enum UnaryKind {
    Changed(Change),
    Reduced(Reduction),
}

/// How a binary operator takes its operands. `===` and `!==` are `==` and `!=`, and `<<<` is `<<`.
pub fn binary_kind(op: BinOp) -> BinaryKind
    ensures { result ≡ spec.binary_kind op }
{
    match op {
        BinOp::Multiply => BinaryKind::InContext(Arithmetic::Multiply),
        BinOp::Divide => BinaryKind::InContext(Arithmetic::Divide),
        BinOp::Modulus => BinaryKind::InContext(Arithmetic::Modulus),
        BinOp::Add => BinaryKind::InContext(Arithmetic::Add),
        BinOp::Subtract => BinaryKind::InContext(Arithmetic::Subtract),
        BinOp::ShiftLeft | BinOp::ShiftLeftArith => BinaryKind::Shifted(Shift::Left),
        BinOp::ShiftRight => BinaryKind::Shifted(Shift::Right),
        BinOp::ShiftRightArith => BinaryKind::Shifted(Shift::RightArith),
        BinOp::Less => BinaryKind::ByPair(Comparison::Less),
        BinOp::AtMost => BinaryKind::ByPair(Comparison::AtMost),
        BinOp::Greater => BinaryKind::ByPair(Comparison::Greater),
        BinOp::AtLeast => BinaryKind::ByPair(Comparison::AtLeast),
        BinOp::Equal | BinOp::CaseEqual => BinaryKind::ByPair(Comparison::Equal),
        BinOp::NotEqual | BinOp::CaseNotEqual => BinaryKind::ByPair(Comparison::NotEqual),
        BinOp::BitwiseAnd => BinaryKind::InContext(Arithmetic::And),
        BinOp::BitwiseXor => BinaryKind::InContext(Arithmetic::Xor),
        BinOp::BitwiseTildeXor | BinOp::BitwiseXorTilde => BinaryKind::InContext(Arithmetic::Xnor),
        BinOp::BitwiseOr => BinaryKind::InContext(Arithmetic::Or),
        BinOp::LogicalAnd => BinaryKind::Logical(Connective::And),
        BinOp::LogicalOr => BinaryKind::Logical(Connective::Or),
        BinOp::Implies => BinaryKind::Logical(Connective::Implies),
        BinOp::Equivalent => BinaryKind::Logical(Connective::Equivalent),
    }
}

/// How a unary operator takes its operand.
pub fn unary_kind(op: UnOp) -> UnaryKind
    ensures { result ≡ spec.unary_kind op }
{
    match op {
        UnOp::Plus => UnaryKind::Changed(Change::Plus),
        UnOp::Minus => UnaryKind::Changed(Change::Minus),
        UnOp::BitwiseNot => UnaryKind::Changed(Change::Not),
        UnOp::ReduceAnd => UnaryKind::Reduced(Reduction::And),
        UnOp::ReduceNand => UnaryKind::Reduced(Reduction::Nand),
        UnOp::ReduceOr => UnaryKind::Reduced(Reduction::Or),
        UnOp::ReduceNor | UnOp::LogicalNot => UnaryKind::Reduced(Reduction::Nor),
        UnOp::ReduceXor => UnaryKind::Reduced(Reduction::Xor),
        UnOp::ReduceTildeXor | UnOp::ReduceXorTilde => UnaryKind::Reduced(Reduction::Xnor),
    }
}

/// The operator of an array reduction (IEEE 1800-2017, 7.12.3).
pub fn fold_operator(op: Fold) -> Arithmetic
    ensures { result ≡ spec.fold_operator op }
{
    match op {
        Fold::Sum => Arithmetic::Add,
        Fold::Product => Arithmetic::Multiply,
        Fold::And => Arithmetic::And,
        Fold::Or => Arithmetic::Or,
        Fold::Xor => Arithmetic::Xor,
    }
}

/// What an array reduction gives, at `width` bits, where there is no element.
pub fn fold_start(op: Fold, width: u8) -> Bits
    requires low { 1 ≤ width }
    requires high { width ≤ 64 }
    ensures value { result.value ≡ spec.fold_start op width }
    ensures width { result.width ≡ width }
{
    match op {
        Fold::Sum | Fold::Or | Fold::Xor => bits(0, width),
        Fold::Product => bits(1, width),
        Fold::And => bits(0, width).not(),
    }
}

impl Arithmetic {
    /// The result at the operands' width, in a signed context or not.
    pub fn apply(self, x: Bits, y: Bits, signed: bool) -> Bits
        requires { y.width ≡ x.width }
        ensures value { result.value ≡ spec.arithmetic_of self x.width signed x.value y.value }
        ensures width { result.width ≡ x.width }
    {
        match self {
            Arithmetic::Multiply => x.mul(y),
            Arithmetic::Divide => x.div(y, signed),
            Arithmetic::Modulus => x.rem(y, signed),
            Arithmetic::Add => x.add(y),
            Arithmetic::Subtract => x.sub(y),
            Arithmetic::And => x.and(y),
            Arithmetic::Xor => x.xor(y),
            Arithmetic::Xnor => x.xor(y).not(),
            Arithmetic::Or => x.or(y),
        }
    }
}

impl Shift {
    /// The result at the width of `x`, in a signed context or not.
    pub fn apply(self, x: Bits, by: u64, signed: bool) -> Bits
        ensures value { result.value ≡ spec.shift_of self x.width signed x.value by }
        ensures width { result.width ≡ x.width }
    {
        match self {
            Shift::Left => x.shl(by),
            Shift::Right => x.shr(by),
            Shift::RightArith => { if signed { x.sar(by) } else { x.shr(by) } }
        }
    }
}

impl Comparison {
    /// Whether the comparison holds of two numbers of one width, taken as signed or not.
    pub fn holds(self, x: Bits, y: Bits, signed: bool) -> bool
        requires { y.width ≡ x.width }
        ensures { result ≡ spec.comparison_of self x.width signed x.value y.value }
    {
        match self {
            Comparison::Less => x.less(y, signed),
            Comparison::AtMost => !y.less(x, signed),
            Comparison::Greater => y.less(x, signed),
            Comparison::AtLeast => !x.less(y, signed),
            Comparison::Equal => x.value() == y.value(),
            Comparison::NotEqual => x.value() != y.value(),
        }
    }
}

impl Connective {
    /// The result for operands that are true or not.
    pub fn holds(self, p: bool, q: bool) -> bool
        ensures { result ≡ spec.connective_of self p q }
    {
        match self {
            Connective::And => p && q,
            Connective::Or => p || q,
            Connective::Implies => !p || q,
            Connective::Equivalent => (!p || q) && (!q || p),
        }
    }
}

impl Change {
    /// The result at the operand's width.
    pub fn apply(self, x: Bits) -> Bits
        ensures value { result.value ≡ spec.change_of self x.width x.value }
        ensures width { result.width ≡ x.width }
    {
        match self {
            Change::Plus => x,
            Change::Minus => x.neg(),
            Change::Not => x.not(),
        }
    }
}

impl Reduction {
    /// The bit that it makes of the operand.
    pub fn holds(self, x: Bits) -> bool
        ensures { result ≡ spec.reduction_of self x.width x.value }
    {
        match self {
            Reduction::And => x.not().value() == 0,
            Reduction::Nand => x.not().value() != 0,
            Reduction::Or => x.value() != 0,
            Reduction::Nor => x.value() == 0,
            Reduction::Xor => x.value().count_ones() % 2 == 1,
            Reduction::Xnor => x.value().count_ones() % 2 != 1,
        }
    }
}
