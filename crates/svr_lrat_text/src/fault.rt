// Why a text is no file.

/// Why a text is no file. `at` is the place of a token, counted in bytes from 0. The end of the text counts as a token.
#[derive(Clone, Copy, PartialEq, Eq)]
pub enum LratFault {
    /// With the token there the tokens so far begin no file.
    Bad { at: u32 },
    /// The number there is over its limit.
    TooLarge { at: u32 },
    /// There was no memory.
    NoMemory,
}
