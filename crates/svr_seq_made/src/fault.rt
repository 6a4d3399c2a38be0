// Why a text of `randsequence` is refused.

ghost use Rattle.std.specs.Prelude.{◌≡◌, ◌∷◌, ◌++◌, [], MatchResult, OnOk, IfErr};
ghost use Rattle.svr_seq_made.specs.Blocks as spec;
ghost use Rattle.svr_seq_made.specs.Reading as reading;

use sqlite_items::Items;
use std::alloc::AllocError;
use svr_refusal::Refusal;
use svr_seq_text::SeqTextFault;

/// Why a text of `randsequence` is refused.
#[derive(Clone, Copy, PartialEq, Eq)]
pub enum SeqFault {
    /// A refusal, and the token where it stands: the first token with which the tokens begin no such text (`NoSequence`); a name that no production has, or a production whose name an earlier one has (`UnknownProduction`);
    /// a production all of whose rules have the weight 0 (`NoWeight`); what passes a limit (`SequenceTooLarge`).
    Refused { why: Refusal, token: u32 },
    /// There was no memory.
    NoMemory,
}

impl From<AllocError> for SeqFault {
    ghost use Rattle.std.specs.Prelude.{◌≡◌};
    ghost use Rattle.svr_seq_made.specs.declared.fault.SeqFault.TheVariants.{NoMemory};

    ghost from_gives = { λ _ e. e ≡ NoMemory };

    fn from(_error: AllocError) -> SeqFault {
        SeqFault::NoMemory
    }
}

/// Nothing, or a refusal at a token.
pub(crate) fn unless(fine: bool, why: Refusal, token: u32) -> Result<(), SeqFault>
    ensures { MatchResult result (λ _. spec.unless fine why token ≡ []) (λ e. spec.unless fine why token ≡ e ∷ []) }
{
    if fine {
        Ok(())
    } else {
        Err(SeqFault::Refused { why, token })
    }
}

pub(crate) fn refused(why: Refusal, token: u32) -> SeqFault
    ensures { result ≡ SeqFault.Refused why token }
{
    SeqFault::Refused { why, token }
}

/// One more item.
pub(crate) fn keep<T: Drop>(items: &mut Items<T>, item: T) -> Result<(), SeqFault>
    ensures kept { OnOk result (items.new ≡ items.old ++ item ∷ []) }
    ensures memory { IfErr result (λ e. e ≡ SeqFault.NoMemory) }
{
    match items.push(item) {
        Ok(()) => Ok(()),
        Err(_) => Err(SeqFault::NoMemory),
    }
}

/// A fault of the text as a refusal.
pub(crate) fn refusal_of(fault: SeqTextFault) -> SeqFault
    ensures { result ≡ reading.refusal_of fault }
{
    match fault {
        SeqTextFault::Unexpected { token } => refused(Refusal::NoSequence, token),
        SeqTextFault::NoMemory => SeqFault::NoMemory,
    }
}
