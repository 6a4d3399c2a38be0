// Roots, item by item.

ghost use Rattle.std.specs.Prelude.{◌≡◌, ◌-◌, take, IfOk};
ghost use Rattle.svr_conflict.specs.Cut as spec;

use crate::memory::NoMemory;
use sqlite_items::Items;
use std::alloc::Global;
use svr_chain::Lit;
use svr_question::behind;

/// The first literals, as far as there are so many.
fn front(lits: &[Lit], count: usize) -> &[Lit]
    ensures { result.now ≡ take count lits.now }
{
    if count < lits.len() {
        return &lits[..count];
    }
    lits
}

/// So many literals for each count, one group behind the other.
pub(crate) fn cut(
    alloc: Global,
    lits: &[Lit],
    counts: &[usize],
) -> Result<Vec<Items<Lit>>, NoMemory>
    ensures { IfOk result (λ groups. groups.items ≡ spec.cut_by counts.now lits.now) }
{
    let mut groups = Vec::new(alloc);
    let mut left = lits;
    for count in counts {
        let group = Items::from_slice(alloc, front(left, *count))?;
        groups.push(group)?;
        left = behind(left, *count);
    }
    Ok(groups)
}

/// How many of so many items stand before those that are counted.
pub(crate) fn left_over(all: usize, counts: &[usize]) -> usize
    ensures { result ≡ all - spec.total counts.now }
{
    let mut left = all;
    for count in counts {
        left = left.saturating_sub(*count);
    }
    left
}
