// Which steps a goal depends on.

ghost use Rattle.std.specs.Prelude.{◌≡◌, ◌+◌, ◌<◌, ◌≤◌, ◌&&◌, ◌||◌, ℕ, false, nat_eq, nat_lt, length, replicate, slice_index_or, IfOk};
ghost use Rattle.svr_lrat_made.specs.Needed as spec;
ghost use Rattle.svr_lrat_made.specs.Marks.{AreMarked};

use std::alloc::Global;
use svr_chain::{NoMemory, Step};

/// As many marks that are not set.
fn no_marks(alloc: Global, count: usize) -> Result<Vec<bool>, NoMemory>
    ensures { IfOk result (λ m. m.items ≡ replicate count false) }
{
    Ok(vec![in alloc; false; count]?)
}

/// Marks the step whose clause has the number, if it is one of the first `limit` steps. The clause of the first step has the number `first`.
fn mark(marks: &mut Vec<bool>, limit: usize, first: u64, number: u64)
    requires { limit ≤ length marks.old.items }
    ensures long { length marks.new.items ≡ length marks.old.items }
    ensures marked { (k : ℕ) → slice_index_or marks.new.items k false ≡ (slice_index_or marks.old.items k false || (nat_lt k limit && nat_eq number (first + k))) }
{
    if number < first {
        return;
    }
    let place = number - first;
    if place >= limit as u64 {
        return;
    }
    marks[place as usize] = true;
}

/// Marks those of the first `limit` steps whose clauses a step uses.
fn mark_used(marks: &mut Vec<bool>, limit: usize, first: u64, step: &Step)
    requires { limit ≤ length marks.old.items }
    ensures long { length marks.new.items ≡ length marks.old.items }
    ensures marked { (k : ℕ) → slice_index_or marks.new.items k false ≡ (slice_index_or marks.old.items k false || (nat_lt k limit && spec.uses step.now (first + k))) }
{
    mark(marks, limit, first, step.start);
    let links = step.links.as_slice();
    for link in links {
        mark(marks, limit, first, link.clause);
    }
}

/// Goes one step back: what the step at a place uses is marked, if it is marked itself.
fn mark_back(marks: &mut Vec<bool>, place: usize, first: u64, steps: &[Step])
    requires within { place < length steps.now }
    requires long { length marks.old.items ≡ length steps.now }
    ensures long { length marks.new.items ≡ length marks.old.items }
    ensures marked { (goal : ℕ) → AreMarked goal first steps.now (place + 1) marks.old.items → AreMarked goal first steps.now place marks.new.items }
{
    if !marks[place] {
        return;
    }
    mark_used(marks, place, first, &steps[place]);
}

/// Which of the steps the goal depends on, from the last step to the first. The clause of the first has the number `first`.
pub(crate) fn needed(
    alloc: Global,
    first: u64,
    goal: u64,
    steps: &[Step],
) -> Result<Vec<bool>, NoMemory>
    ensures { IfOk result (λ m. m.items ≡ spec.needed goal first steps.now) }
{
    let mut marks = no_marks(alloc, steps.len())?;
    mark(&mut marks, steps.len(), first, goal);
    let mut left = steps.len();
    while left > 0 {
        left -= 1;
        mark_back(&mut marks, left, first, steps);
    }
    Ok(marks)
}
