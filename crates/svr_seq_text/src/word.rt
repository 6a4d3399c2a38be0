// What a token says.

ghost use Rattle.std.specs.Prelude.{◌≡◌};
ghost use Rattle.std.specs.List.{list_all};
ghost use Rattle.svr_seq_text.specs.Words as spec;
ghost use Rattle.svr_seq_text.specs.declared.word.Word.{Word as WordType};

use svr_token::{Lexeme, Mark, Token, lexeme_from};

/// What a token of a text of `randsequence` says, with the number of the token where a text keeps it.
#[derive(Clone, Copy, PartialEq, Eq)]
pub(crate) enum Word {
    /// `randsequence`, as the first token. Anywhere else it is a name.
    RandSequence,
    EndSequence,
    RandCase(u32),
    EndCase,
    Repeat(u32),
    /// A plain name that is none of these words.
    Name(u32),
    /// A literal of decimal digits.
    Decimal(u32),
    OpenParen,
    CloseParen,
    OpenBrace(u32),
    CloseBrace,
    Colon,
    ColonEqual,
    Bar,
    Semicolon,
    /// Any other token.
    Other,
    /// The end of the text.
    End,
}

impl Word {
    pub(crate) fn is_opening(self) -> bool
        ensures { result ≡ spec.is_opening self }
    {
        matches!(self, Word::RandSequence)
    }

    pub(crate) fn is_open_paren(self) -> bool
        ensures { result ≡ spec.is_open_paren self }
    {
        matches!(self, Word::OpenParen)
    }

    pub(crate) fn is_close_paren(self) -> bool
        ensures { result ≡ spec.is_close_paren self }
    {
        matches!(self, Word::CloseParen)
    }

    pub(crate) fn is_name(self) -> bool
        ensures { result ≡ spec.is_name self }
    {
        matches!(self, Word::Name(_))
    }

    pub(crate) fn is_decimal(self) -> bool
        ensures { result ≡ spec.is_decimal self }
    {
        matches!(self, Word::Decimal(_))
    }

    pub(crate) fn is_colon(self) -> bool
        ensures { result ≡ spec.is_colon self }
    {
        matches!(self, Word::Colon)
    }

    pub(crate) fn is_semicolon(self) -> bool
        ensures { result ≡ spec.is_semicolon self }
    {
        matches!(self, Word::Semicolon)
    }

    pub(crate) fn is_end(self) -> bool
        ensures { result ≡ spec.is_end self }
    {
        matches!(self, Word::End)
    }

    /// The number of the token, 0 where none is kept.
    pub(crate) fn number(self) -> u32
        ensures { result ≡ spec.number_in self }
    {
        match self {
            Word::RandCase(at)
            | Word::Repeat(at)
            | Word::Name(at)
            | Word::Decimal(at)
            | Word::OpenBrace(at) => at,
            _ => 0,
        }
    }
}

#[tactic(auto, unfolding(crate::specs::Words::is_randsequence))]
fn is_randsequence(bytes: &[u8]) -> bool
    ensures { result ≡ spec.is_randsequence bytes.now }
{
    bytes == b"randsequence".as_slice()
}

#[tactic(auto, unfolding(crate::specs::Words::is_endsequence))]
fn is_endsequence(bytes: &[u8]) -> bool
    ensures { result ≡ spec.is_endsequence bytes.now }
{
    bytes == b"endsequence".as_slice()
}

#[tactic(auto, unfolding(crate::specs::Words::is_randcase))]
fn is_randcase(bytes: &[u8]) -> bool
    ensures { result ≡ spec.is_randcase bytes.now }
{
    bytes == b"randcase".as_slice()
}

#[tactic(auto, unfolding(crate::specs::Words::is_endcase))]
fn is_endcase(bytes: &[u8]) -> bool
    ensures { result ≡ spec.is_endcase bytes.now }
{
    bytes == b"endcase".as_slice()
}

fn is_decimal_byte(byte: u8) -> bool
    ensures { result ≡ spec.is_decimal_byte byte }
{
    byte >= b'0' && byte <= b'9' || byte == b'_'
}

/// Whether the bytes of a literal are decimal digits alone.
fn are_decimal(bytes: &[u8]) -> bool
    ensures { result ≡ list_all spec.is_decimal_byte bytes.now }
{
    bytes.iter().all(|byte| is_decimal_byte(*byte))
}

/// What a plain name says.
fn name_word(bytes: &[u8], at: u32) -> Word
    ensures { result ≡ spec.name_word bytes.now at }
{
    if is_randcase(bytes) {
        Word::RandCase(at)
    } else if is_endcase(bytes) {
        Word::EndCase
    } else if is_endsequence(bytes) {
        Word::EndSequence
    } else if at == 0 && is_randsequence(bytes) {
        Word::RandSequence
    } else {
        Word::Name(at)
    }
}

fn literal_word(bytes: &[u8], at: u32) -> Word
    ensures { result ≡ spec.literal_word bytes.now at }
{
    if are_decimal(bytes) {
        Word::Decimal(at)
    } else {
        Word::Other
    }
}

fn mark_word(mark: Mark, at: u32) -> Word
    ensures { result ≡ spec.mark_word mark at }
{
    match mark {
        Mark::OpenParen => Word::OpenParen,
        Mark::CloseParen => Word::CloseParen,
        Mark::OpenBrace => Word::OpenBrace(at),
        Mark::CloseBrace => Word::CloseBrace,
        Mark::Colon => Word::Colon,
        Mark::ColonEqual => Word::ColonEqual,
        Mark::Or => Word::Bar,
        Mark::Semicolon => Word::Semicolon,
        _ => Word::Other,
    }
}

/// What a token says that spells this lexeme with these bytes.
fn lexeme_word(lexeme: Lexeme, bytes: &[u8], at: u32) -> Word
    ensures { result ≡ spec.lexeme_word lexeme bytes.now at }
{
    match lexeme {
        Lexeme::Name(_) => name_word(bytes, at),
        Lexeme::Literal { .. } => literal_word(bytes, at),
        Lexeme::Mark(mark) => mark_word(mark, at),
        Lexeme::Word(svr_token::Word::Repeat) => Word::Repeat(at),
        _ => Word::Other,
    }
}

/// What the token of this number says.
pub(crate) fn word_at(text: &[u8], token: Token, at: u32) -> Word
    ensures { (word : WordType) → spec.IsWordOf text.now at token word → result ≡ word }
{
    let Some(bytes) = text.get(token.start as usize..token.stop as usize) else {
        return Word::Other;
    };
    match lexeme_from(bytes) {
        Some(lexeme) => lexeme_word(lexeme, bytes, at),
        None => Word::Other,
    }
}
