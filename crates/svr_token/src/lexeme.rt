// What a token spells.

/// A reserved word of the accepted language (IEEE 1800-2017, table B.1).
#[derive(Clone, Copy, PartialEq, Eq)]
pub enum Word {
    Assert,
    Before,
    Begin,
    Bit,
    Byte,
    Class,
    Constraint,
    Disable,
    Dist,
    Else,
    End,
    EndClass,
    EndModule,
    EndProgram,
    Enum,
    Extends,
    Foreach,
    If,
    Initial,
    Inside,
    Int,
    Integer,
    Local,
    Logic,
    LongInt,
    Module,
    New,
    Null,
    Program,
    Rand,
    Randc,
    Reg,
    Repeat,
    ShortInt,
    Signed,
    Soft,
    Solve,
    This,
    TypeDef,
    Unique,
    Unsigned,
    Void,
    With,
}

/// An operator or a mark of punctuation.
#[derive(Clone, Copy, PartialEq, Eq)]
pub enum Mark {
    /// `(`
    OpenParen,
    /// `)`
    CloseParen,
    /// `[`
    OpenBracket,
    /// `]`
    CloseBracket,
    /// `{`
    OpenBrace,
    /// `}`
    CloseBrace,
    /// `'{`
    OpenPattern,
    /// `'`
    Apostrophe,
    /// `;`
    Semicolon,
    /// `,`
    Comma,
    /// `.`
    Dot,
    /// `:`
    Colon,
    /// `::`
    DoubleColon,
    /// `:=`
    ColonEqual,
    /// `:/`
    ColonSlash,
    /// `?`
    Question,
    /// `=`
    Assign,
    /// `+`
    Plus,
    /// `-`
    Minus,
    /// `*`
    Star,
    /// `/`
    Slash,
    /// `%`
    Percent,
    /// `~`
    Tilde,
    /// `!`
    Bang,
    /// `&`
    And,
    /// `|`
    Or,
    /// `^`
    Xor,
    /// `&&`
    AndAnd,
    /// `||`
    OrOr,
    /// `~&`
    Nand,
    /// `~|`
    Nor,
    /// `~^`
    TildeXor,
    /// `^~`
    XorTilde,
    /// `<`
    Less,
    /// `>`
    Greater,
    /// `<=`
    AtMost,
    /// `>=`
    AtLeast,
    /// `==`
    Equal,
    /// `!=`
    NotEqual,
    /// `===`
    CaseEqual,
    /// `!==`
    CaseNotEqual,
    /// `<<`
    ShiftLeft,
    /// `>>`
    ShiftRight,
    /// `<<<`
    ShiftLeftArith,
    /// `>>>`
    ShiftRightArith,
    /// `->`
    Arrow,
    /// `<->`
    DoubleArrow,
    /// `$`
    Dollar,
}

/// A plain name, or the name of a method that the grammar knows: an array reduction (IEEE 1800-2017, 7.12.3), or one of 18.6, 18.8 and 18.9. Each may stand wherever a plain name may.
#[derive(Clone, Copy, PartialEq, Eq)]
pub enum NameKind {
    Plain,
    /// `sum`
    Sum,
    /// `product`
    Product,
    /// `and`
    And,
    /// `or`
    Or,
    /// `xor`
    Xor,
    /// `randomize`
    Randomize,
    /// `rand_mode`
    RandMode,
    /// `constraint_mode`
    ConstraintMode,
}

/// A system function (IEEE 1800-2017, 20.5).
#[derive(Clone, Copy, PartialEq, Eq)]
pub enum SystemName {
    /// `$signed`
    Signed,
    /// `$unsigned`
    Unsigned,
}

/// What a token spells, as the grammar sees it.
#[derive(Clone, Copy, PartialEq, Eq)]
pub enum Lexeme {
    Word(Word),
    Name(NameKind),
    System(SystemName),
    /// An integer literal (IEEE 1800-2017, 5.7.1): its value, its width in bits, and whether it is signed. The width 0 stands for `'0` and `'1`, whose value is 0 or 1.
    Literal { value: u64, width: u8, signed: bool },
    Mark(Mark),
}
