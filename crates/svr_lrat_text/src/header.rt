// What stands before the header of a file.

ghost use Rattle.std.specs.Prelude.{◌≡◌, ◌≤◌, length, drop, true};
ghost use Rattle.svr_lrat_text.specs.Words as spec;
ghost use Rattle.svr_lrat_text.specs.Words.{tokens, tokens_of};

use crate::word::is_blank;

/// In what part of a text a byte stands.
#[derive(Clone, Copy, PartialEq, Eq)]
pub(crate) enum Part {
    /// Before the first byte of a line.
    LineStart,
    /// In a line that is blank so far.
    Blank,
    /// In a line whose first byte is `c`.
    Comment,
    /// In the header or behind it.
    Header,
}

fn after_blank(byte: u8) -> Part
    ensures { result ≡ spec.after_blank byte }
{
    if byte == b'\n' {
        Part::LineStart
    } else if is_blank(byte) {
        Part::Blank
    } else {
        Part::Header
    }
}

impl Part {
    fn after(self, byte: u8) -> Part
        ensures { result ≡ spec.after_byte self byte }
    {
        match self {
            Part::LineStart => {
                if byte == b'c' {
                    Part::Comment
                } else {
                    after_blank(byte)
                }
            }
            Part::Blank => after_blank(byte),
            Part::Comment => {
                if byte == b'\n' {
                    Part::LineStart
                } else {
                    Part::Comment
                }
            }
            Part::Header => Part::Header,
        }
    }

    fn is_header(self) -> bool
        ensures { result ≡ spec.is_header self }
    {
        matches!(self, Part::Header)
    }
}

/// The place of the first token, behind blanks and lines of comments.
pub(crate) fn header_start(text: &[u8]) -> usize
    ensures within { result ≤ length text.now }
    ensures start { tokens_of text.now ≡ tokens true result (drop result text.now) }
{
    let mut part = Part::LineStart;
    for (i, byte) in text.iter().enumerate() {
        part = part.after(*byte);
        if part.is_header() {
            return i;
        }
    }
    text.len()
}
