// The radix of a based literal.
ghost use Rattle.std.specs.Prelude.{◌≡◌};
ghost use Rattle.svr_token.specs.Bytes.{base_of};
ghost use Rattle.svr_token.specs.Lexemes.{radix_of};

/// The radix of a literal (IEEE 1800-2017, 5.7.1).
#[derive(Clone, Copy)]
pub enum Radix {
    Binary,
    Octal,
    Decimal,
    Hexadecimal,
}

impl Radix {
    /// The radix that a letter stands for.
    pub fn of(letter: u8) -> Option<Radix>
        ensures { result ≡ radix_of letter }
    {
        match letter {
            b'b' | b'B' => Some(Radix::Binary),
            b'o' | b'O' => Some(Radix::Octal),
            b'd' | b'D' => Some(Radix::Decimal),
            b'h' | b'H' => Some(Radix::Hexadecimal),
            _ => None,
        }
    }

    /// How many digits it has.
    pub fn base(self) -> u8
        ensures { result ≡ base_of self }
    {
        match self {
            Radix::Binary => 2,
            Radix::Octal => 8,
            Radix::Decimal => 10,
            Radix::Hexadecimal => 16,
        }
    }
}
