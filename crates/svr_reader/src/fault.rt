// Why a reader stops.

use std::alloc::AllocError;

/// Why a reader stops. A place is told by the number of tokens that are left there.
#[derive(Clone, Copy, PartialEq, Eq)]
pub enum ReadFault {
    /// The token, or the end of the text, can't stand here.
    Unexpected(usize),
    /// The token begins a construct for which there is no room within the limit of height.
    TooDeep(usize),
    NoMemory,
}

impl From<AllocError> for ReadFault {
    ghost use Rattle.std.specs.Prelude.{◌≡◌};
    ghost use Rattle.svr_reader.specs.declared.fault.ReadFault.TheVariants.{NoMemory};

    ghost from_gives = { λ _ e. e ≡ NoMemory };

    fn from(_error: AllocError) -> ReadFault {
        ReadFault::NoMemory
    }
}

impl From<svr_tree::NoMemory> for ReadFault {
    ghost use Rattle.std.specs.Prelude.{◌≡◌};
    ghost use Rattle.svr_reader.specs.declared.fault.ReadFault.TheVariants.{NoMemory};

    ghost from_gives = { λ _ e. e ≡ NoMemory };

    fn from(_error: svr_tree::NoMemory) -> ReadFault {
        ReadFault::NoMemory
    }
}
