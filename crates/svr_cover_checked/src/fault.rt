// Why cover groups are refused.

ghost use Rattle.std.specs.Prelude.{◌≡◌, ◌∷◌, ◌++◌, [], MatchResult, OnOk, IfErr};
ghost use Rattle.svr_cover_checked.specs.Numbers as spec;

use sqlite_items::Items;
use std::alloc::AllocError;
use svr_refusal::Refusal;

/// Why cover groups are refused.
#[derive(Clone, Copy)]
pub enum CoverFault {
    /// A refusal by its number, and the token where it stands:
    /// a name that is no class, no scalar property of it, not the formal argument, or no earlier point (`UnknownCover`); a name that an earlier one of its kind has (`DoubleCover`);
    /// the name of what passes a limit (`TooManyBins`); a range without numbers, or with a number that its `bins` has twice (`BadBins`).
    Refused { number: u8, token: u32 },
    /// There was no memory.
    NoMemory,
}

impl From<AllocError> for CoverFault {
    ghost use Rattle.std.specs.Prelude.{◌≡◌};
    ghost use Rattle.svr_cover_checked.specs.declared.fault.CoverFault.TheVariants.{NoMemory};

    ghost from_gives = { λ _ e. e ≡ NoMemory };

    fn from(_error: AllocError) -> CoverFault {
        CoverFault::NoMemory
    }
}

/// Nothing, or a refusal at a token.
pub(crate) fn unless(fine: bool, why: Refusal, token: u32) -> Result<(), CoverFault>
    ensures { MatchResult result (λ _. spec.unless fine why token ≡ []) (λ e. spec.unless fine why token ≡ e ∷ []) }
{
    if fine {
        Ok(())
    } else {
        Err(CoverFault::Refused {
            number: why.number(),
            token,
        })
    }
}

/// One more item.
pub(crate) fn keep<T: Drop>(items: &mut Items<T>, item: T) -> Result<(), CoverFault>
    ensures kept { OnOk result (items.new ≡ items.old ++ item ∷ []) }
    ensures memory { IfErr result (λ e. e ≡ CoverFault.NoMemory) }
{
    match items.push(item) {
        Ok(()) => Ok(()),
        Err(_) => Err(CoverFault::NoMemory),
    }
}
