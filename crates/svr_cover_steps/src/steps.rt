// Stored values in rising order, and their bins.

ghost use Rattle.std.specs.Prelude.{◌≡◌};
ghost use Rattle.svr_cover_steps.specs.Steps as spec;
ghost use Rattle.svr_cover_steps.specs.Steps.{IsRising};

use sqlite_items::{Items, at};
use std::marker::Model;

/// The bins, by number, that have the values from one on up to the next step.
#[derive(Drop)]
pub struct Step {
    pub from: u64,
    pub bins: Items<u32>,
}

/// Steps in rising order. No bin has a value below the first.
#[derive(Drop)]
pub struct Steps {
    steps: Items<Step>,
}

impl Model for Steps {
    ghost use Rattle.std.specs.Prelude.{List};
    ghost use Rattle.svr_cover_steps.specs.declared.steps.Step.{Step};
    ghost use Rattle.svr_cover_steps.specs.Steps.{IsRising};

    ghost Value = { List Step };

    ghost view = { λ x. x.steps };

    ghost invariant = { λ x. IsRising x.steps };
}

/// How many steps begin at a value or below.
fn below(steps: &[Step], value: u64) -> usize
    requires { IsRising steps.now }
    ensures { result ≡ spec.below steps.now value }
{
    steps.partition_point(|step| step.from <= value)
}

/// The bins of the last of so many steps from the front, none where there is none.
fn last_bins(steps: &[Step], count: usize) -> &[u32]
    ensures { result.now ≡ spec.last_bins steps.now count }
{
    if count == 0 {
        return &[];
    }
    match at(steps, count - 1) {
        Some(step) => step.bins.as_slice(),
        None => &[],
    }
}

/// The bins that have a value.
pub fn bins_at(steps: &[Step], value: u64) -> &[u32]
    requires { IsRising steps.now }
    ensures { result.now ≡ spec.bins_at steps.now value }
{
    last_bins(steps, below(steps, value))
}

impl Steps {
    /// Steps over values that rise.
    pub fn new(steps: Items<Step>) -> Steps
        requires { IsRising steps }
        ensures { result ≡ steps }
    {
        Steps { steps }
    }

    /// The steps in the order of their values.
    pub fn as_slice(&self) -> &[Step]
        ensures steps { result.now ≡ self.now }
        ensures rising { IsRising result.now }
    {
        self.steps.as_slice()
    }

    /// The bins that have a value.
    pub fn bins_at(&self, value: u64) -> &[u32]
        ensures { result.now ≡ spec.bins_at self.now value }
    {
        bins_at(self.steps.as_slice(), value)
    }
}
