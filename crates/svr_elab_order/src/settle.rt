// Which nodes no endless way back leads from.

ghost use Rattle.std.specs.Prelude.{◌≡◌, IfOk, MatchOption};
ghost use Rattle.svr_elab_order.specs.Graph.{IsRanking, AreHeld, IsReady};

use crate::ranking::{Ranking, is_ready, settle_next};
use crate::search::search;
use sqlite_items::Items;
use std::alloc::Global;
use svr_typed::NoMemory;

/// A node that is not settled while all right before it are.
fn find_ready(graph: &[Items<usize>], ranks: &[usize]) -> Option<usize>
    ensures { MatchOption result (AreHeld graph.now ranks.now) (IsReady graph.now ranks.now) }
{
    for node in 0..graph.len() {
        if is_ready(graph, node, ranks) {
            return Some(node);
        }
    }
    None
}

/// The nodes that no endless way back leads from, each with a higher rank than all right before it. The search settles them all in one pass; what is left is looked at once more, so that the answer does not rest on the order of the search.
pub(crate) fn settle(alloc: Global, graph: &[Items<usize>]) -> Result<Ranking, NoMemory>
    ensures ranking { IfOk result (IsRanking graph.now) }
    ensures held { IfOk result (λ r. AreHeld graph.now r.ranks.items) }
{
    let mut ranking = search(alloc, graph)?;
    while let Some(node) = find_ready(graph, ranking.ranks.as_slice()) {
        settle_next(&mut ranking, node);
    }
    Ok(ranking)
}
