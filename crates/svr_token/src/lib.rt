//! Tokens of a script, and what each of them spells (IEEE 1800-2017, clause 5).
#![tactic(auto)]

mod bytes;
mod lexeme;
mod literal;
mod names;
mod number;
mod radix;
mod spelling;
mod tables;
mod token;

pub use bytes::{ByteClass, is_blank_byte, may_start_name, split_while};
pub use lexeme::{Lexeme, Mark, NameKind, SystemName, Word};
pub use literal::{FrontLiteral, Literal, LiteralFault, front_literal};
pub use names::Names;
pub use radix::Radix;
pub use spelling::{is_mark, is_name, is_system_name, lexeme_from, lexeme_of};
pub use token::{Kind, Token};
