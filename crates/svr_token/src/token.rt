// The lexemes of a text by their places.

/// The kind of a lexeme. A reserved word is a name here: what it spells tells the two apart.
#[derive(Clone, Copy, PartialEq, Eq)]
pub enum Kind {
    Name,
    System,
    Literal,
    Mark,
}

/// A lexeme of a text: its kind, the place of its first byte, and the place behind its last, both counted from 0.
#[derive(Clone, Copy, PartialEq, Eq)]
pub struct Token {
    pub kind: Kind,
    pub start: u32,
    pub stop: u32,
}
