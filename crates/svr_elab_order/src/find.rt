// Ranks that items agree with, as the search finds them.

ghost use Rattle.std.specs.Prelude.{◌≡◌, ◌<◌, true, take, IfOk, MatchOption};
ghost use Rattle.svr_elab_order.specs.Order.{orders_itself};
ghost use Rattle.svr_elab_order.specs.Graph.{AreAll};
ghost use Rattle.svr_elab_order.specs.Ranks.{agree};

use crate::graph::graph;
use crate::order::{Order, names_past};
use crate::ranking::{Ranking, is_settled};
use crate::ranks::Ranks;
use crate::settle::settle;
use sqlite_items::Items;
use std::alloc::Global;
use svr_typed::NoMemory;

/// Whether all nodes are settled.
fn are_all(ranks: &[usize]) -> bool
    ensures { AreAll result ranks.now }
{
    for node in 0..ranks.len() {
        if !is_settled(ranks, node) {
            return false;
        }
    }
    true
}

/// The ranks of the first nodes, which are the properties.
fn of_properties(ranking: Ranking, names: usize) -> Ranks
    ensures { result.table ≡ take names ranking.ranks.items }
{
    let Ranking { mut ranks, last } = ranking;
    ranks.truncate(names);
    Ranks {
        table: Items::from_vec(ranks),
        above: last.min(u32::MAX as usize) as u32,
    }
}

/// Ranks that items agree with; none where they order a property before itself.
pub fn ranks_of(alloc: Global, orders: &[Order]) -> Result<Option<Ranks>, NoMemory>
    ensures { IfOk result (λ r. MatchOption r (orders_itself orders.now ≡ true) (λ ranks. agree ranks orders.now ≡ true)) }
{
    let names = names_past(orders);
    let graph = graph(alloc, orders, names)?;
    let ranking = settle(alloc, graph.as_slice())?;
    if are_all(ranking.ranks.as_slice()) {
        Ok(Some(of_properties(ranking, names)))
    } else {
        Ok(None)
    }
}
