// A wanted text, which a script is told against word by word.

use svr_operator::Fold;

/// What is left of a wanted text behind what was told so far; nothing where something else was told.
#[derive(Clone, Copy)]
pub struct Wanted {
    left: Option<&'static [u8]>,
}

impl Wanted {
    /// Nothing is told yet.
    pub fn new(text: &'static [u8]) -> Wanted {
        Wanted { left: Some(text) }
    }

    /// Whether just this was told.
    pub fn is_met(self) -> bool {
        matches!(self.left, Some([]))
    }

    /// Tells a word.
    pub fn then(self, word: &[u8]) -> Wanted {
        match self.left {
            Some(left) => Wanted {
                left: left.strip_prefix(word),
            },
            None => self,
        }
    }

    /// Tells a number, by its last two digits.
    pub fn number(self, number: usize) -> Wanted {
        let digits = [b'0' + (number / 10 % 10) as u8, b'0' + (number % 10) as u8];
        self.then(if number < 10 { &digits[1..] } else { &digits })
    }

    /// Tells a word and a number.
    pub fn then_number(self, word: &[u8], number: usize) -> Wanted {
        self.then(word).number(number)
    }

    /// Tells a number and a word.
    pub fn number_then(self, number: usize, word: &[u8]) -> Wanted {
        self.number(number).then(word)
    }

    /// Tells the name of a reduction behind a blank.
    pub fn fold(self, op: Fold) -> Wanted {
        match op {
            Fold::Sum => self.then(b" sum"),
            Fold::Product => self.then(b" product"),
            Fold::And => self.then(b" and"),
            Fold::Or => self.then(b" or"),
            Fold::Xor => self.then(b" xor"),
        }
    }
}
