// How the lines of a text end.

use svr_refusal::Place;

/// What is said of a text.
#[derive(Clone, Copy, PartialEq, Eq)]
pub enum End {
    /// All of its lines were written, and none needs too many units.
    Whole,
    /// Its lines were written up to the first that needs too many units, and with that one.
    Limited,
    /// It is refused, and nothing was written. The number of the refusal, and its place.
    Refused { number: u8, place: Place },
}

/// Why writing stops before the end: an allocation was refused, or the sink failed.
#[derive(Clone, Copy, PartialEq, Eq)]
pub enum Stop {
    NoMemory,
    WriteFault,
}

impl From<svr_typed::NoMemory> for Stop {
    ghost use Rattle.std.specs.Prelude.{◌≡◌};
    ghost use Rattle.svr_seq_lines.specs.declared.end.Stop.TheVariants.{NoMemory};

    ghost from_gives = { λ _ e. e ≡ NoMemory };

    fn from(_error: svr_typed::NoMemory) -> Stop {
        Stop::NoMemory
    }
}

impl From<svr_edge::Failed> for Stop {
    ghost use Rattle.std.specs.Prelude.{◌≡◌};
    ghost use Rattle.svr_seq_lines.specs.declared.end.Stop.TheVariants.{WriteFault};

    ghost from_gives = { λ _ e. e ≡ WriteFault };

    fn from(_error: svr_edge::Failed) -> Stop {
        Stop::WriteFault
    }
}
