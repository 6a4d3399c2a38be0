//! The levels of operators, from the lowest (IEEE 1800-2017, table 11-2).

/// `-> <->`, and so the level of an expression as a whole.
pub const IMPLICATION: u8 = 1;

/// `? :`
pub const CONDITIONAL: u8 = 2;

/// `||`
pub const LOGICAL_OR: u8 = 3;

/// `&&`
pub const LOGICAL_AND: u8 = 4;

/// `|`
pub const BITWISE_OR: u8 = 5;

/// `^ ~^ ^~`
pub const BITWISE_XOR: u8 = 6;

/// `&`
pub const BITWISE_AND: u8 = 7;

/// `== != === !==`
pub const EQUALITY: u8 = 8;

/// `< <= > >= inside`
pub const RELATIONAL: u8 = 9;

/// `<< >> <<< >>>`
pub const SHIFT: u8 = 10;

/// `+ -`
pub const ADDITIVE: u8 = 11;

/// `* / %`
pub const MULTIPLICATIVE: u8 = 12;

/// Unary operators, and the level of a primary.
pub const UNARY: u8 = 13;

/// `() [] :: .`: what only a path goes on with, so above all operators.
pub const SELECTION: u8 = 14;
