// Refusals with their places.

ghost use Rattle.std.specs.Prelude.{◌≡◌};
ghost use Rattle.svr_elab_fault.specs.Refusals as spec;

use std::alloc::AllocError;
use svr_refusal::Refusal;

/// A refusal and the token at which it stands.
#[derive(Clone, Copy, PartialEq, Eq)]
pub struct Fault {
    pub token: u32,
    pub refusal: Refusal,
}

/// Whether a refusal comes before another: by its place, at one place by its number.
fn comes_first(x: Fault, y: Fault) -> bool
    ensures { result ≡ spec.comes_first x y }
{
    x.token < y.token || (x.token == y.token && x.refusal.number() <= y.refusal.number())
}

/// The earlier of two refusals, where there is one.
pub fn earlier(a: Option<Fault>, b: Option<Fault>) -> Option<Fault>
    ensures { result ≡ spec.earlier a b }
{
    match (a, b) {
        (None, _) => b,
        (_, None) => a,
        (Some(x), Some(y)) => { if comes_first(x, y) { a } else { b } }
    }
}

/// A refusal at a place, where it holds.
pub fn when(holds: bool, token: u32, refusal: Refusal) -> Option<Fault>
    ensures { result ≡ spec.when spec.first_one holds token refusal }
{
    if holds {
        Some(Fault { token, refusal })
    } else {
        None
    }
}

/// What is kept of several refusals one by one is the first of them.
pub fn first_is_first()
    ensures { spec.LeastIsFirst }
{}

/// Why a script has no design.
#[derive(Drop)]
pub enum ElabFault {
    /// The first refusal: its number, from 7 to 26, and the token at which it stands.
    Refused { number: u8, token: u32 },
    NoMemory,
}

impl From<AllocError> for ElabFault {
    ghost use Rattle.std.specs.Prelude.{◌≡◌};
    ghost use Rattle.svr_elab_fault.specs.declared.fault.ElabFault.TheVariants.{NoMemory};

    ghost from_gives = { λ _ e. e ≡ NoMemory };

    fn from(_error: AllocError) -> ElabFault {
        ElabFault::NoMemory
    }
}
