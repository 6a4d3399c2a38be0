// Operators (IEEE 1800-2017, 11.4). One that has two spellings has a variant for each.

/// A unary operator (IEEE 1800-2017, table 11-1).
#[derive(Clone, Copy, PartialEq, Eq)]
pub enum UnOp {
    /// `+`
    Plus,
    /// `-`
    Minus,
    /// `!`
    LogicalNot,
    /// `~`
    BitwiseNot,
    /// `&`
    ReduceAnd,
    /// `~&`
    ReduceNand,
    /// `|`
    ReduceOr,
    /// `~|`
    ReduceNor,
    /// `^`
    ReduceXor,
    /// `~^`
    ReduceTildeXor,
    /// `^~`, the same operation as `~^`
    ReduceXorTilde,
}

/// A binary operator (IEEE 1800-2017, table 11-1).
#[derive(Clone, Copy, PartialEq, Eq)]
pub enum BinOp {
    /// `*`
    Multiply,
    /// `/`
    Divide,
    /// `%`
    Modulus,
    /// `+`
    Add,
    /// `-`
    Subtract,
    /// `<<`
    ShiftLeft,
    /// `>>`
    ShiftRight,
    /// `<<<`
    ShiftLeftArith,
    /// `>>>`
    ShiftRightArith,
    /// `<`
    Less,
    /// `<=`
    AtMost,
    /// `>`
    Greater,
    /// `>=`
    AtLeast,
    /// `==`
    Equal,
    /// `!=`
    NotEqual,
    /// `===`
    CaseEqual,
    /// `!==`
    CaseNotEqual,
    /// `&`
    BitwiseAnd,
    /// `^`
    BitwiseXor,
    /// `~^`
    BitwiseTildeXor,
    /// `^~`, the same operation as `~^`
    BitwiseXorTilde,
    /// `|`
    BitwiseOr,
    /// `&&`
    LogicalAnd,
    /// `||`
    LogicalOr,
    /// `->`
    Implies,
    /// `<->`
    Equivalent,
}
