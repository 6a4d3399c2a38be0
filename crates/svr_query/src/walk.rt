// The order of the variables that had no part in a conflict.

/// What a number that is drawn begins with, and what it is multiplied by for each value (G. Fowler, L. C. Noll and K.-P. Vo, 1991).
const BASIS: u64 = 0xcbf2_9ce4_8422_2325;

const PRIME: u64 = 0x100_0000_01b3;

/// A walk over all variables: the first so many from one of them on and around, then the others by their numbers. Places are counted from 0.
#[derive(Clone, Copy)]
pub struct Walk {
    /// How many of the first variables are walked around.
    around: u64,
    /// How many of them come last.
    start: u64,
}

/// A number drawn from values. Its upper half depends on all of them.
fn drawn(values: &[bool]) -> u64 {
    let mut word = BASIS;
    for value in values {
        let byte = if *value { 1 } else { 2 };
        word = (word ^ byte).wrapping_mul(PRIME);
    }
    word >> 32
}

impl Walk {
    /// A walk that begins at one of these first variables, as their values have it.
    pub fn new(values: &[bool]) -> Walk {
        let around = values.len() as u64;
        let start = if around > 0 {
            drawn(values) % around
        } else {
            0
        };
        Walk { around, start }
    }

    /// The variable at a place.
    pub fn var(self, place: u64) -> u64 {
        if place >= self.around {
            return place.saturating_add(1);
        }
        let before = place.saturating_add(self.start);
        if before >= self.around {
            before - self.around + 1
        } else {
            before + 1
        }
    }

    /// The place of a variable.
    pub fn place(self, var: u64) -> u64 {
        let before = var.saturating_sub(1);
        if before >= self.around {
            return before;
        }
        if before >= self.start {
            before - self.start
        } else {
            before
                .saturating_add(self.around)
                .saturating_sub(self.start)
        }
    }
}
