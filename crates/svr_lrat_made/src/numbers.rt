// The numbers of clauses in the file.

ghost use Rattle.std.specs.Prelude.{◌≡◌, ◌+◌, IfOk};
ghost use Rattle.svr_lrat_made.specs.Made as spec;

use std::alloc::Global;
use svr_chain::NoMemory;
use svr_lrat_file::Number;

/// The next number. More clauses than 64 bits can number have no room.
pub(crate) fn next(number: u64) -> Result<u64, NoMemory>
    ensures { IfOk result (λ n. n ≡ number + 1) }
{
    match number.checked_add(1) {
        Some(next) => Ok(next),
        None => Err(NoMemory),
    }
}

/// So many more.
pub(crate) fn plus(number: u64, more: u64) -> Result<u64, NoMemory>
    ensures { IfOk result (λ n. n ≡ number + more) }
{
    match number.checked_add(more) {
        Some(sum) => Ok(sum),
        None => Err(NoMemory),
    }
}

/// The clauses of the formula keep their numbers; those of steps have the numbers `ids`.
#[derive(Drop)]
pub(crate) struct Numbers {
    pub(crate) inputs: u64,
    pub(crate) ids: Vec<u64>,
}

/// The last number behind each step, where the marked ones are numbered on.
fn numbered(alloc: Global, last: u64, marks: &[bool]) -> Result<Vec<u64>, NoMemory>
    ensures { IfOk result (λ v. v.items ≡ spec.numbered last marks.now) }
{
    let mut ids = Vec::new(alloc);
    let mut so_far = last;
    for mark in marks {
        if *mark {
            so_far = next(so_far)?;
        }
        ids.push(so_far)?;
    }
    Ok(ids)
}

impl Numbers {
    /// The marked steps are numbered on from the last number.
    pub(crate) fn new(
        alloc: Global,
        inputs: u64,
        last: u64,
        marks: &[bool],
    ) -> Result<Numbers, NoMemory>
        ensures inputs { IfOk result (λ n. n.inputs ≡ inputs) }
        ensures ids { IfOk result (λ n. n.ids.items ≡ spec.numbered last marks.now) }
    {
        let ids = numbered(alloc, last, marks)?;
        Ok(Numbers { inputs, ids })
    }

    /// The number in the file of a clause of the log.
    pub(crate) fn number(&self, number: u64) -> u64
        ensures { result ≡ spec.new_number self.now.inputs self.now.ids.items number }
    {
        if number <= self.inputs {
            return number;
        }
        match self.ids.get((number - self.inputs - 1) as usize) {
            Some(id) => *id,
            None => 0,
        }
    }

    pub(crate) fn hint(&self, number: u64) -> Number
        ensures { result ≡ spec.hint (spec.new_number self.now.inputs self.now.ids.items number) }
    {
        hint(self.number(number))
    }
}

/// The hint that names a clause.
pub(crate) fn hint(number: u64) -> Number
    ensures { result ≡ spec.hint number }
{
    Number {
        negative: false,
        size: number,
    }
}
