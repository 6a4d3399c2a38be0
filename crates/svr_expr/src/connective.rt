// What an operator is by its token (IEEE 1800-2017, tables 11-1 and 11-2).

ghost use Rattle.std.specs.Prelude.{◌≡◌, ◌≤◌};
ghost use Rattle.svr_tree.specs.Operators as operators;
ghost use Rattle.svr_tree.specs.Operators.{multiplicative_level};
ghost use Rattle.svr_expr.specs.Connectives as spec;

use svr_operator::{BinOp, UnOp};
use svr_token::{Lexeme, Mark, Word};
use svr_tree::level;

/// How an expression may go on behind its left operand.
#[derive(Clone, Copy, PartialEq, Eq)]
pub enum Connective {
    Binary(BinOp),
    /// `? :`
    Choice,
    Inside,
}

/// The prefix operator that a mark spells.
pub fn unary_of(mark: Mark) -> Option<UnOp>
    ensures { result ≡ spec.unary_of mark }
{
    match mark {
        Mark::Plus => Some(UnOp::Plus),
        Mark::Minus => Some(UnOp::Minus),
        Mark::Bang => Some(UnOp::LogicalNot),
        Mark::Tilde => Some(UnOp::BitwiseNot),
        Mark::And => Some(UnOp::ReduceAnd),
        Mark::Nand => Some(UnOp::ReduceNand),
        Mark::Or => Some(UnOp::ReduceOr),
        Mark::Nor => Some(UnOp::ReduceNor),
        Mark::Xor => Some(UnOp::ReduceXor),
        Mark::TildeXor => Some(UnOp::ReduceTildeXor),
        Mark::XorTilde => Some(UnOp::ReduceXorTilde),
        _ => None,
    }
}

/// The connective that a token spells. None is the end of the text.
pub fn connective_of(lexeme: Option<Lexeme>) -> Option<Connective>
    ensures { result ≡ spec.connective_of lexeme }
{
    match lexeme {
        Some(Lexeme::Word(Word::Inside)) => Some(Connective::Inside),
        Some(Lexeme::Mark(mark)) => mark_connective(mark),
        _ => None,
    }
}

fn mark_connective(mark: Mark) -> Option<Connective>
    ensures { result ≡ spec.mark_connective mark }
{
    let op = match mark {
        Mark::Question => return Some(Connective::Choice),
        Mark::Star => BinOp::Multiply,
        Mark::Slash => BinOp::Divide,
        Mark::Percent => BinOp::Modulus,
        Mark::Plus => BinOp::Add,
        Mark::Minus => BinOp::Subtract,
        Mark::ShiftLeft => BinOp::ShiftLeft,
        Mark::ShiftRight => BinOp::ShiftRight,
        Mark::ShiftLeftArith => BinOp::ShiftLeftArith,
        Mark::ShiftRightArith => BinOp::ShiftRightArith,
        Mark::Less => BinOp::Less,
        Mark::AtMost => BinOp::AtMost,
        Mark::Greater => BinOp::Greater,
        Mark::AtLeast => BinOp::AtLeast,
        Mark::Equal => BinOp::Equal,
        Mark::NotEqual => BinOp::NotEqual,
        Mark::CaseEqual => BinOp::CaseEqual,
        Mark::CaseNotEqual => BinOp::CaseNotEqual,
        Mark::And => BinOp::BitwiseAnd,
        Mark::Xor => BinOp::BitwiseXor,
        Mark::TildeXor => BinOp::BitwiseTildeXor,
        Mark::XorTilde => BinOp::BitwiseXorTilde,
        Mark::Or => BinOp::BitwiseOr,
        Mark::AndAnd => BinOp::LogicalAnd,
        Mark::OrOr => BinOp::LogicalOr,
        Mark::Arrow => BinOp::Implies,
        Mark::DoubleArrow => BinOp::Equivalent,
        _ => return None,
    };
    Some(Connective::Binary(op))
}

/// The level of a binary operator in table 11-2.
pub(crate) fn precedence(op: BinOp) -> u8
    ensures is { result ≡ operators.precedence op }
    ensures low { result ≤ multiplicative_level }
{
    match op {
        BinOp::Implies | BinOp::Equivalent => level::IMPLICATION,
        BinOp::LogicalOr => level::LOGICAL_OR,
        BinOp::LogicalAnd => level::LOGICAL_AND,
        BinOp::BitwiseOr => level::BITWISE_OR,
        BinOp::BitwiseXor | BinOp::BitwiseTildeXor | BinOp::BitwiseXorTilde => level::BITWISE_XOR,
        BinOp::BitwiseAnd => level::BITWISE_AND,
        BinOp::Equal | BinOp::NotEqual | BinOp::CaseEqual | BinOp::CaseNotEqual => level::EQUALITY,
        BinOp::Less | BinOp::AtMost | BinOp::Greater | BinOp::AtLeast => level::RELATIONAL,
        BinOp::ShiftLeft | BinOp::ShiftRight | BinOp::ShiftLeftArith | BinOp::ShiftRightArith =>
            level::SHIFT,
        BinOp::Add | BinOp::Subtract => level::ADDITIVE,
        BinOp::Multiply | BinOp::Divide | BinOp::Modulus => level::MULTIPLICATIVE,
    }
}

/// The level of a connective in table 11-2.
pub(crate) fn connective_level(connective: Connective) -> u8
    ensures is { result ≡ spec.connective_level connective }
    ensures low { result ≤ multiplicative_level }
{
    match connective {
        Connective::Binary(op) => precedence(op),
        Connective::Choice => level::CONDITIONAL,
        Connective::Inside => level::RELATIONAL,
    }
}

/// The least level on the right of a connective of this level.
pub(crate) fn least_right(level: u8) -> u8
    requires { level ≤ multiplicative_level }
    ensures { result ≡ operators.least_right level }
{
    if level <= level::CONDITIONAL {
        level
    } else {
        level + 1
    }
}

/// Whether a connective of this level goes on with an operand, where connectives of at least `least` and of less than `most` may stand.
pub(crate) fn goes_on(least: u8, most: u8, level: u8) -> bool
    ensures { result ≡ spec.goes_on least most level }
{
    least <= level && level < most
}
