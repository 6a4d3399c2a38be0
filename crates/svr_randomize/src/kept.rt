// The items of the last phase, kept from one call for the next.

ghost use Rattle.std.specs.Prelude.{◌≡◌};
ghost use Rattle.svr_frame.specs.Frame.{FrameTerm};
ghost use Rattle.svr_randomize.specs.Kept as spec;
ghost use Rattle.svr_randomize.specs.Kept.{IsKept};

use svr_encoded::Encoded;
use svr_eval::Assign;
use svr_expand::Expansion;

/// The items of the last phase: closed expressions, or clauses, of whose items so many, the first ones, are hard.
#[derive(Drop)]
pub(crate) enum Form {
    Expressions(Expansion),
    Clauses { hard: usize, encoding: Encoded },
}

impl Form {
    /// How many of the items are hard.
    pub(crate) fn hard_count(&self) -> usize
        ensures { result ≡ spec.hard_in self.now }
    {
        match self {
            Form::Expressions(items) => items.hard.len(),
            Form::Clauses { hard, .. } => *hard,
        }
    }

    /// How many of them are soft.
    pub(crate) fn soft_count(&self) -> usize
        ensures { result ≡ spec.soft_in self.now }
    {
        match self {
            Form::Expressions(items) => items.soft.len(),
            Form::Clauses { hard, encoding } => encoding.items.len().saturating_sub(*hard),
        }
    }
}

/// The items of the last phase of a call, and the numbers for which they were made: those of the properties that are not random, the sizes of the phase, and the script variables.
#[derive(Drop)]
pub(crate) struct Last {
    pub(crate) read: Assign,
    pub(crate) items: Form,
}

/// What a call leaves for the next one in its frame, which may have another state: the items of its last phase, closed or as clauses, where its answer does not carry them along.
#[derive(Drop)]
pub struct Kept {
    pub(crate) last: Option<Last>,
}

impl Kept {
    /// Nothing yet.
    pub fn new() -> Kept
        ensures { (f : FrameTerm) → IsKept f result }
    {
        Kept { last: None }
    }
}

/// What an answer has left of the items that were made for these numbers, with these.
fn last_of(read: Assign, left: Option<Form>) -> Option<Last>
    ensures { result ≡ spec.last_of read left }
{
    match left {
        None => None,
        Some(items) => Some(Last { read, items }),
    }
}

/// Keeps what an answer has left of the items that were made for these numbers.
pub(crate) fn keep(kept: &mut Kept, read: Assign, left: Option<Form>)
    ensures { kept.new ≡ record { last = spec.last_of read left } }
{
    kept.last = last_of(read, left);
}
