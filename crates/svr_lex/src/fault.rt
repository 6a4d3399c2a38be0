// Why a text has no tokens.
ghost use Rattle.std.specs.Prelude.{◌≡◌};
ghost use Rattle.svr_lex.specs.Lexing.{fault_of, fault_at};

/// Why a text has no tokens. `at` is the place of a byte, counted from 0.
#[derive(Clone, Copy, PartialEq, Eq)]
pub enum LexFault {
    /// No lexeme and no gap begins with the byte, or it is a `$` before a name with which it is no system name.
    BadByte { at: u32 },
    /// `/*` begins there, and no `*/` follows.
    OpenComment { at: u32 },
    /// A literal begins there that has the size 0, or that a letter, a digit, `_` or `$` follows directly, or the letter of a radix without a digit.
    BadLiteral { at: u32 },
    /// A literal begins there that has a size over 64, or no size and a number of 2^32 or more.
    LiteralTooWide { at: u32 },
    /// There was no memory.
    NoMemory,
}

/// A fault of the text at hand, whatever its place.
#[derive(Clone, Copy)]
pub(crate) enum Flaw {
    BadByte,
    OpenComment,
    BadLiteral,
    LiteralTooWide,
}

impl Flaw {
    pub(crate) fn at(self, at: u32) -> LexFault
        ensures { result ≡ fault_at (fault_of self) at }
    {
        match self {
            Flaw::BadByte => LexFault::BadByte { at },
            Flaw::OpenComment => LexFault::OpenComment { at },
            Flaw::BadLiteral => LexFault::BadLiteral { at },
            Flaw::LiteralTooWide => LexFault::LiteralTooWide { at },
        }
    }
}
