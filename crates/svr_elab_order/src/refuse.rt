// The first `solve` item that orders a property before itself.

ghost use Rattle.std.specs.Prelude.{◌≡◌, ◌<◌, Some, true, length, take, drop, IfOk};
ghost use Rattle.svr_elab_fault.specs.Refusals.{first_one};
ghost use Rattle.svr_elab_order.specs.Order.{orders_itself};
ghost use Rattle.svr_elab_order.specs.Cycles.{cycles, IsFirstCycle, all_refused};

use crate::find::ranks_of;
use crate::order::Order;
use std::alloc::Global;
use svr_elab_fault::{Fault, earlier, when};
use svr_refusal::Refusal;
use svr_typed::NoMemory;

/// Whether items order a property before itself.
fn has_cycle(alloc: Global, orders: &[Order]) -> Result<bool, NoMemory>
    ensures { IfOk result (λ c. c ≡ orders_itself orders.now) }
{
    let ranks = ranks_of(alloc, orders)?;
    Ok(ranks.is_none())
}

/// How many of these items from the front it takes, more than `given`, to order a property before itself, as all of them do.
fn halved(alloc: Global, orders: &[Order], given: usize) -> Result<usize, NoMemory>
    requires own { given < length orders.now }
    requires cycle { orders_itself orders.now ≡ true }
    ensures { IfOk result (λ n. IsFirstCycle orders.now given (Some n)) }
{
    let mut low = given;
    let mut high = orders.len();
    while low + 1 < high {
        let middle = low + (high - low) / 2;
        if has_cycle(alloc, &orders[..middle])? {
            high = middle;
        } else {
            low = middle;
        }
    }
    Ok(high)
}

/// How many items from the front it takes, more than `given`, to order a property before itself.
fn first_cycle(alloc: Global, orders: &[Order], given: usize) -> Result<Option<usize>, NoMemory>
    ensures { IfOk result (λ r. IsFirstCycle orders.now given r) }
{
    if orders.len() <= given {
        return Ok(None);
    }
    if has_cycle(alloc, orders)? {
        Ok(Some(halved(alloc, orders, given)?))
    } else {
        Ok(None)
    }
}

/// The refusal of each of these items, of which the first is kept.
#[tactic(auto, using(svr_elab_fault::proofs::Least::earlier_none))]
fn refused(orders: &[Order]) -> Option<Fault>
    ensures { result ≡ all_refused orders.now }
{
    let mut fault = None;
    for order in orders {
        fault = earlier(fault, when(true, order.at, Refusal::SolveCycle));
    }
    fault
}

/// The first refusal of items behind `given` inherited ones: of each with which the items so far order a property before itself.
pub fn cycle_fault(alloc: Global, orders: &[Order], given: usize) -> Result<Option<Fault>, NoMemory>
    ensures { IfOk result (λ f. f ≡ cycles first_one (take given orders.now) (drop given orders.now)) }
{
    match first_cycle(alloc, orders, given)? {
        None => Ok(None),
        Some(count) => Ok(refused(&orders[count - 1..])),
    }
}
