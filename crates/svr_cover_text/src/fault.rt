// Why tokens write no cover groups.

use std::alloc::AllocError;

/// Why tokens write no cover groups.
#[derive(Clone, Copy)]
pub enum GroupsFault {
    /// The first token with which the tokens so far begin no groups, by its number. The end of the text counts as a token.
    Unexpected { token: u32 },
    /// There was no memory.
    NoMemory,
}

impl From<AllocError> for GroupsFault {
    ghost use Rattle.std.specs.Prelude.{◌≡◌};
    ghost use Rattle.svr_cover_text.specs.declared.fault.GroupsFault.TheVariants.{NoMemory};

    ghost from_gives = { λ _ e. e ≡ NoMemory };

    fn from(_error: AllocError) -> GroupsFault {
        GroupsFault::NoMemory
    }
}
