// How the program ends.
ghost use Rattle.std.specs.Prelude.{◌≡◌};

/// The status of a run.
#[derive(Clone, Copy, PartialEq, Eq)]
pub enum Status {
    AllOne,
    SomeZero,
    Usage,
    SomeGivenUp,
    Refused,
    Limited,
    ReadFault,
    WriteFault,
    NoMemory,
}

impl Status {
    /// The number that the process ends with.
    pub fn code(self) -> u8
        ensures one { self ≡ Status.AllOne → result ≡ 0 }
        ensures zero { self ≡ Status.SomeZero → result ≡ 1 }
        ensures usage { self ≡ Status.Usage → result ≡ 2 }
        ensures given_up { self ≡ Status.SomeGivenUp → result ≡ 3 }
        ensures refused { self ≡ Status.Refused → result ≡ 4 }
        ensures limited { self ≡ Status.Limited → result ≡ 5 }
        ensures read { self ≡ Status.ReadFault → result ≡ 6 }
        ensures write { self ≡ Status.WriteFault → result ≡ 7 }
        ensures memory { self ≡ Status.NoMemory → result ≡ 8 }
    {
        match self {
            Status::AllOne => 0,
            Status::SomeZero => 1,
            Status::Usage => 2,
            Status::SomeGivenUp => 3,
            Status::Refused => 4,
            Status::Limited => 5,
            Status::ReadFault => 6,
            Status::WriteFault => 7,
            Status::NoMemory => 8,
        }
    }
}
