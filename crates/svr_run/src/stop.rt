// Why a run stops before its end.

/// Why a run stops before its end: an allocation was refused, or a sink failed.
#[derive(Clone, Copy)]
pub enum Stop {
    NoMemory,
    WriteFault,
}

impl From<svr_typed::NoMemory> for Stop {
    ghost use Rattle.std.specs.Prelude.{◌≡◌};
    ghost use Rattle.svr_run.specs.declared.stop.Stop.TheVariants.{NoMemory};

    ghost from_gives = { λ _ e. e ≡ NoMemory };

    fn from(_error: svr_typed::NoMemory) -> Stop {
        Stop::NoMemory
    }
}

impl From<svr_randomize::NoMemory> for Stop {
    ghost use Rattle.std.specs.Prelude.{◌≡◌};
    ghost use Rattle.svr_run.specs.declared.stop.Stop.TheVariants.{NoMemory};

    ghost from_gives = { λ _ e. e ≡ NoMemory };

    fn from(_error: svr_randomize::NoMemory) -> Stop {
        Stop::NoMemory
    }
}

impl From<svr_conflict::NoMemory> for Stop {
    ghost use Rattle.std.specs.Prelude.{◌≡◌};
    ghost use Rattle.svr_run.specs.declared.stop.Stop.TheVariants.{NoMemory};

    ghost from_gives = { λ _ e. e ≡ NoMemory };

    fn from(_error: svr_conflict::NoMemory) -> Stop {
        Stop::NoMemory
    }
}

impl From<svr_chain::NoMemory> for Stop {
    ghost use Rattle.std.specs.Prelude.{◌≡◌};
    ghost use Rattle.svr_run.specs.declared.stop.Stop.TheVariants.{NoMemory};

    ghost from_gives = { λ _ e. e ≡ NoMemory };

    fn from(_error: svr_chain::NoMemory) -> Stop {
        Stop::NoMemory
    }
}

impl From<svr_edge::Failed> for Stop {
    ghost use Rattle.std.specs.Prelude.{◌≡◌};
    ghost use Rattle.svr_run.specs.declared.stop.Stop.TheVariants.{WriteFault};

    ghost from_gives = { λ _ e. e ≡ WriteFault };

    fn from(_error: svr_edge::Failed) -> Stop {
        Stop::WriteFault
    }
}
