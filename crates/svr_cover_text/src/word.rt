// What a token says.

ghost use Rattle.std.specs.Prelude.{◌≡◌};
ghost use Rattle.std.specs.List.{list_all};
ghost use Rattle.svr_cover_text.specs.Words as spec;
ghost use Rattle.svr_cover_text.specs.declared.word.Word.{Word as WordType};

use svr_token::{Lexeme, Mark, Token, lexeme_from};

/// A word of a group that is a plain name anywhere else.
#[derive(Clone, Copy, PartialEq, Eq)]
pub(crate) enum Key {
    CoverGroup,
    Function,
    Sample,
    CoverPoint,
    Cross,
    Bins,
    /// Any other name.
    Plain,
}

/// What a token of a group says, with the number of the token where it is kept.
#[derive(Clone, Copy, PartialEq, Eq)]
pub(crate) enum Word {
    /// A plain name, which may be one of the words of a group.
    Name(Key, u32),
    /// `endgroup`, which is reserved in groups.
    EndGroup,
    With,
    /// A literal of decimal digits.
    Decimal(u32),
    Minus(u32),
    OpenParen,
    CloseParen,
    OpenBracket(u32),
    CloseBracket,
    OpenBrace,
    CloseBrace,
    Colon,
    Semicolon,
    Comma,
    Dot,
    Equal,
    /// Any other token.
    Other,
    /// The end of the text.
    End,
}

impl Word {
    pub(crate) fn is_covergroup(self) -> bool
        ensures { result ≡ spec.is_covergroup self }
    {
        matches!(self, Word::Name(Key::CoverGroup, _))
    }

    pub(crate) fn is_function(self) -> bool
        ensures { result ≡ spec.is_function self }
    {
        matches!(self, Word::Name(Key::Function, _))
    }

    pub(crate) fn is_sample(self) -> bool
        ensures { result ≡ spec.is_sample self }
    {
        matches!(self, Word::Name(Key::Sample, _))
    }

    pub(crate) fn is_bins(self) -> bool
        ensures { result ≡ spec.is_bins self }
    {
        matches!(self, Word::Name(Key::Bins, _))
    }

    pub(crate) fn is_name(self) -> bool
        ensures { result ≡ spec.is_name self }
    {
        matches!(self, Word::Name(_, _))
    }

    pub(crate) fn is_with(self) -> bool
        ensures { result ≡ spec.is_with self }
    {
        matches!(self, Word::With)
    }

    pub(crate) fn is_decimal(self) -> bool
        ensures { result ≡ spec.is_decimal self }
    {
        matches!(self, Word::Decimal(_))
    }

    pub(crate) fn is_open_paren(self) -> bool
        ensures { result ≡ spec.is_open_paren self }
    {
        matches!(self, Word::OpenParen)
    }

    pub(crate) fn is_close_paren(self) -> bool
        ensures { result ≡ spec.is_close_paren self }
    {
        matches!(self, Word::CloseParen)
    }

    pub(crate) fn is_close_bracket(self) -> bool
        ensures { result ≡ spec.is_close_bracket self }
    {
        matches!(self, Word::CloseBracket)
    }

    pub(crate) fn is_open_brace(self) -> bool
        ensures { result ≡ spec.is_open_brace self }
    {
        matches!(self, Word::OpenBrace)
    }

    pub(crate) fn is_colon(self) -> bool
        ensures { result ≡ spec.is_colon self }
    {
        matches!(self, Word::Colon)
    }

    pub(crate) fn is_semicolon(self) -> bool
        ensures { result ≡ spec.is_semicolon self }
    {
        matches!(self, Word::Semicolon)
    }

    pub(crate) fn is_comma(self) -> bool
        ensures { result ≡ spec.is_comma self }
    {
        matches!(self, Word::Comma)
    }

    pub(crate) fn is_dot(self) -> bool
        ensures { result ≡ spec.is_dot self }
    {
        matches!(self, Word::Dot)
    }

    pub(crate) fn is_equal(self) -> bool
        ensures { result ≡ spec.is_equal self }
    {
        matches!(self, Word::Equal)
    }

    /// The number of the token, 0 where none is kept.
    pub(crate) fn number(self) -> u32
        ensures { result ≡ spec.number_in self }
    {
        match self {
            Word::Name(_, at) => at,
            Word::Decimal(at) | Word::Minus(at) | Word::OpenBracket(at) => at,
            _ => 0,
        }
    }
}

#[tactic(auto, unfolding(crate::specs::Words::spells_covergroup))]
fn spells_covergroup(bytes: &[u8]) -> bool
    ensures { result ≡ spec.spells_covergroup bytes.now }
{
    bytes == b"covergroup".as_slice()
}

#[tactic(auto, unfolding(crate::specs::Words::spells_endgroup))]
fn spells_endgroup(bytes: &[u8]) -> bool
    ensures { result ≡ spec.spells_endgroup bytes.now }
{
    bytes == b"endgroup".as_slice()
}

#[tactic(auto, unfolding(crate::specs::Words::spells_function))]
fn spells_function(bytes: &[u8]) -> bool
    ensures { result ≡ spec.spells_function bytes.now }
{
    bytes == b"function".as_slice()
}

#[tactic(auto, unfolding(crate::specs::Words::spells_sample))]
fn spells_sample(bytes: &[u8]) -> bool
    ensures { result ≡ spec.spells_sample bytes.now }
{
    bytes == b"sample".as_slice()
}

#[tactic(auto, unfolding(crate::specs::Words::spells_coverpoint))]
fn spells_coverpoint(bytes: &[u8]) -> bool
    ensures { result ≡ spec.spells_coverpoint bytes.now }
{
    bytes == b"coverpoint".as_slice()
}

#[tactic(auto, unfolding(crate::specs::Words::spells_cross))]
fn spells_cross(bytes: &[u8]) -> bool
    ensures { result ≡ spec.spells_cross bytes.now }
{
    bytes == b"cross".as_slice()
}

#[tactic(auto, unfolding(crate::specs::Words::spells_bins))]
fn spells_bins(bytes: &[u8]) -> bool
    ensures { result ≡ spec.spells_bins bytes.now }
{
    bytes == b"bins".as_slice()
}

fn is_decimal_byte(byte: u8) -> bool
    ensures { result ≡ spec.is_decimal_byte byte }
{
    byte >= b'0' && byte <= b'9' || byte == b'_'
}

/// Whether the bytes of a literal are decimal digits alone.
fn are_decimal(bytes: &[u8]) -> bool
    ensures { result ≡ list_all spec.is_decimal_byte bytes.now }
{
    bytes.iter().all(|byte| is_decimal_byte(*byte))
}

/// Which of the words of a group a name is.
fn name_key(bytes: &[u8]) -> Key
    ensures { result ≡ spec.name_key bytes.now }
{
    if spells_covergroup(bytes) {
        Key::CoverGroup
    } else if spells_function(bytes) {
        Key::Function
    } else if spells_sample(bytes) {
        Key::Sample
    } else if spells_coverpoint(bytes) {
        Key::CoverPoint
    } else if spells_cross(bytes) {
        Key::Cross
    } else if spells_bins(bytes) {
        Key::Bins
    } else {
        Key::Plain
    }
}

/// What a plain name says.
fn name_word(bytes: &[u8], at: u32) -> Word
    ensures { result ≡ spec.name_word bytes.now at }
{
    if spells_endgroup(bytes) {
        Word::EndGroup
    } else {
        Word::Name(name_key(bytes), at)
    }
}

fn literal_word(bytes: &[u8], at: u32) -> Word
    ensures { result ≡ spec.literal_word bytes.now at }
{
    if are_decimal(bytes) {
        Word::Decimal(at)
    } else {
        Word::Other
    }
}

fn mark_word(mark: Mark, at: u32) -> Word
    ensures { result ≡ spec.mark_word mark at }
{
    match mark {
        Mark::OpenParen => Word::OpenParen,
        Mark::CloseParen => Word::CloseParen,
        Mark::OpenBracket => Word::OpenBracket(at),
        Mark::CloseBracket => Word::CloseBracket,
        Mark::OpenBrace => Word::OpenBrace,
        Mark::CloseBrace => Word::CloseBrace,
        Mark::Colon => Word::Colon,
        Mark::Semicolon => Word::Semicolon,
        Mark::Comma => Word::Comma,
        Mark::Dot => Word::Dot,
        Mark::Assign => Word::Equal,
        Mark::Minus => Word::Minus(at),
        _ => Word::Other,
    }
}

/// What a token says that spells this lexeme with these bytes.
fn lexeme_word(lexeme: Lexeme, bytes: &[u8], at: u32) -> Word
    ensures { result ≡ spec.lexeme_word lexeme bytes.now at }
{
    match lexeme {
        Lexeme::Name(_) => name_word(bytes, at),
        Lexeme::Literal { .. } => literal_word(bytes, at),
        Lexeme::Mark(mark) => mark_word(mark, at),
        Lexeme::Word(svr_token::Word::With) => Word::With,
        _ => Word::Other,
    }
}

/// What the token of this number says.
pub(crate) fn word_at(text: &[u8], token: Token, at: u32) -> Word
    ensures { (word : WordType) → spec.IsWordOf text.now at token word → result ≡ word }
{
    let Some(bytes) = text.get(token.start as usize..token.stop as usize) else {
        return Word::Other;
    };
    match lexeme_from(bytes) {
        Some(lexeme) => lexeme_word(lexeme, bytes, at),
        None => Word::Other,
    }
}
