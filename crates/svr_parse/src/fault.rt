// Why tokens have no tree.

use std::alloc::AllocError;

/// Why tokens have no tree. A place is the number of a token, counted from 0; as many as there are tokens: the end of the text.
#[derive(Clone, Copy, PartialEq, Eq)]
pub enum ParseFault {
    /// No script goes on with the token, whatever its height, and some script goes on behind the tokens before it.
    Unexpected { token: u32 },
    /// Only scripts above the limit of height go on with the token, and some script within it goes on behind the tokens before it.
    TooDeep { token: u32 },
    /// There was no memory.
    NoMemory,
}

impl From<AllocError> for ParseFault {
    ghost use Rattle.std.specs.Prelude.{◌≡◌};
    ghost use Rattle.svr_parse.specs.declared.fault.ParseFault.TheVariants.{NoMemory};

    ghost from_gives = { λ _ e. e ≡ NoMemory };

    fn from(_error: AllocError) -> ParseFault {
        ParseFault::NoMemory
    }
}
