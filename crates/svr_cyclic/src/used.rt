// The used values of a cyclic property behind its choice (IEEE 1800-2017, 18.4.2).

ghost use Rattle.std.specs.Prelude.{◌≡◌, ◌++◌, nat_lt, IfOk, OnOk};
ghost use Rattle.svr_phase.specs.Cyclic as spec;
ghost use Rattle.svr_cyclic.specs.Values.{lower, higher};

use crate::memory::NoMemory;
use sqlite_items::Items;
use std::alloc::Global;

/// Whether one number is below another.
fn is_less(left: u64, right: u64) -> bool
    ensures { result ≡ nat_lt left right }
{
    left < right
}

/// Adds those that are less than the value.
fn add_lower(value: u64, used: &[u64], out: &mut Items<u64>) -> Result<(), NoMemory>
    ensures { OnOk result (out.new ≡ out.old ++ lower value used.now) }
{
    for one in used {
        if is_less(*one, value) {
            out.push(*one)?;
        }
    }
    Ok(())
}

/// Adds those that are greater than the value.
fn add_higher(value: u64, used: &[u64], out: &mut Items<u64>) -> Result<(), NoMemory>
    ensures { OnOk result (out.new ≡ out.old ++ higher value used.now) }
{
    for one in used {
        if is_less(value, *one) {
            out.push(*one)?;
        }
    }
    Ok(())
}

/// A value put in its place of a rising list.
pub(crate) fn inserted(alloc: Global, value: u64, used: &[u64]) -> Result<Items<u64>, NoMemory>
    ensures { IfOk result (λ joined. joined ≡ spec.inserted value used.now) }
{
    let mut joined = Items::new(alloc);
    add_lower(value, used, &mut joined)?;
    joined.push(value)?;
    add_higher(value, used, &mut joined)?;
    Ok(joined)
}
