// How far a run has come.

ghost use Rattle.std.specs.Prelude.{◌≡◌, ◌<◌, ◌+◌, ◌^◌, IfOk};
ghost use Rattle.svr_call.specs.Items as call;
ghost use Rattle.svr_script.specs.Run as spec;
ghost use Rattle.svr_typed.specs.StmtTerm.{design_term};
ghost use Rattle.svr_run.specs.Telling.{counted};
ghost use Rattle.svr_run.specs.Reached.{no_counts, state_of};

use std::alloc::Global;
use svr_call::Outcome;
use svr_typed::{Design, NoMemory};
use svr_world::World;

/// How many calls answered 1, answered 0 and were given up. One that met a limit is not counted.
#[derive(Clone, Copy)]
pub struct Counts {
    pub ones: u64,
    pub zeros: u64,
    pub given_up: u64,
}

impl Counts {
    /// With one answer more.
    pub(crate) fn plus(self, outcome: &Outcome) -> Counts
        requires { self.ones + self.zeros + self.given_up + 1 < 2 ^ 64 }
        ensures { result ≡ counted self outcome.now }
    {
        let Counts {
            ones,
            zeros,
            given_up,
        } = self;
        match outcome {
            Outcome::One { .. } => Counts {
                ones: ones + 1,
                zeros,
                given_up,
            },
            Outcome::Zero { .. } => Counts {
                ones,
                zeros: zeros + 1,
                given_up,
            },
            Outcome::GaveUp { .. } => Counts {
                ones,
                zeros,
                given_up: given_up + 1,
            },
            Outcome::TooHeavy { .. } => self,
            Outcome::SizeCap { .. } => self,
        }
    }
}

/// The world between two statements, how many calls there were, whether one met a limit, and how they were answered.
#[derive(Drop)]
pub(crate) struct Progress {
    pub(crate) world: World,
    pub(crate) calls: u64,
    pub(crate) limited: bool,
    pub(crate) counts: Counts,
}

impl Progress {
    /// Before the first statement.
    pub(crate) fn begin(alloc: Global, design: &Design) -> Result<Progress, NoMemory>
        ensures state { IfOk result (λ p. state_of p ≡ spec.begin (design_term design.now)) }
        ensures counts { IfOk result (λ p. p.counts ≡ no_counts) }
    {
        let world = World::new(alloc, design)?;
        Ok(Progress {
            world,
            calls: 0,
            limited: false,
            counts: Counts {
                ones: 0,
                zeros: 0,
                given_up: 0,
            },
        })
    }
}

/// Whether an answer met a limit.
pub(crate) fn is_limit(outcome: &Outcome) -> bool
    ensures { result ≡ spec.is_limit outcome.now }
{
    match outcome {
        Outcome::TooHeavy { .. } => true,
        Outcome::SizeCap { .. } => true,
        Outcome::One { .. } => false,
        Outcome::Zero { .. } => false,
        Outcome::GaveUp { .. } => false,
    }
}

/// Whether an answer is 1.
fn is_one(outcome: &Outcome) -> bool
    ensures { result ≡ call.is_one outcome.now }
{
    match outcome {
        Outcome::One { .. } => true,
        Outcome::Zero { .. } => false,
        Outcome::GaveUp { .. } => false,
        Outcome::TooHeavy { .. } => false,
        Outcome::SizeCap { .. } => false,
    }
}

/// The variable that takes the answer, where there is one, is 1 or 0 from now on.
pub(crate) fn take_answer(world: &mut World, var: Option<u32>, outcome: &Outcome)
    ensures { world.new ≡ spec.with_answer var (call.is_one outcome.now) world.old }
{
    if let Some(var) = var {
        world.script_set(var, u64::from(is_one(outcome)));
    }
}
