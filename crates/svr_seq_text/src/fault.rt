// Why tokens write no text of `randsequence`.

use std::alloc::AllocError;

/// Why tokens write no text of `randsequence`.
#[derive(Clone, Copy)]
pub enum SeqTextFault {
    /// The first token with which the tokens so far begin no such text, by its number. The end of the text counts as a token.
    Unexpected { token: u32 },
    /// There was no memory.
    NoMemory,
}

impl From<AllocError> for SeqTextFault {
    ghost use Rattle.std.specs.Prelude.{◌≡◌};
    ghost use Rattle.svr_seq_text.specs.declared.fault.SeqTextFault.TheVariants.{NoMemory};

    ghost from_gives = { λ _ e. e ≡ NoMemory };

    fn from(_error: AllocError) -> SeqTextFault {
        SeqTextFault::NoMemory
    }
}
