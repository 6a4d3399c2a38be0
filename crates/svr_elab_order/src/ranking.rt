// Nodes that are settled, each with a rank.

ghost use Rattle.std.specs.Prelude.{◌≡◌, ◌<◌, ◌+◌, ℕ, true, false, length, slice_index_or, slice_set, MatchBool};
ghost use Rattle.svr_elab_order.specs.Order.{is_in};
ghost use Rattle.svr_elab_order.specs.Graph.{is_settled, left_open, right_before, TellsReady};

use sqlite_items::Items;

/// Ranks of nodes: 0 where a node is not settled, else from 1 on in the order in which they were.
#[derive(Drop)]
pub(crate) struct Ranking {
    pub ranks: Vec<usize>,
    /// The rank that was given last.
    pub last: usize,
}

/// The rank at a place, or this one behind all places.
pub(crate) fn rank_or(ranks: &[usize], place: usize, behind: usize) -> usize
    ensures { result ≡ slice_index_or ranks.now place behind }
{
    match ranks.get(place) {
        Some(rank) => *rank,
        None => behind,
    }
}

/// Whether a node is settled. There is none outside.
pub(crate) fn is_settled(ranks: &[usize], node: usize) -> bool
    ensures { result ≡ is_settled ranks.now node }
{
    rank_or(ranks, node, 0) > 0
}

/// Whether all of these nodes are settled.
fn are_settled(nodes: &[usize], ranks: &[usize]) -> bool
    ensures { MatchBool result ((u : ℕ) → is_in u nodes.now ≡ true → is_settled ranks.now u ≡ true) ((u : ℕ) × (is_in u nodes.now ≡ true) × (is_settled ranks.now u ≡ false)) }
{
    for node in nodes {
        if !is_settled(ranks, *node) {
            return false;
        }
    }
    true
}

/// The nodes right before a node.
pub(crate) fn right_before(graph: &[Items<usize>], node: usize) -> &[usize]
    ensures { result.now ≡ right_before graph.now node }
{
    match graph.get(node) {
        Some(nodes) => nodes.as_slice(),
        None => &[],
    }
}

/// Whether a node is not settled while all right before it are.
pub(crate) fn is_ready(graph: &[Items<usize>], node: usize, ranks: &[usize]) -> bool
    ensures { TellsReady result graph.now ranks.now node }
{
    if node >= graph.len() || is_settled(ranks, node) {
        return false;
    }
    are_settled(right_before(graph, node), ranks)
}

/// Settles a node with the next rank.
pub(crate) fn settle_next(ranking: &mut Ranking, node: usize)
    requires within { node < length ranking.old.ranks.items }
    requires unsettled { is_settled ranking.old.ranks.items node ≡ false }
    requires left { ranking.old.last + left_open ranking.old.ranks.items ≡ length ranking.old.ranks.items }
    ensures ranks { ranking.new.ranks.items ≡ slice_set ranking.old.ranks.items node (ranking.old.last + 1) }
    ensures last { ranking.new.last ≡ ranking.old.last + 1 }
{
    ranking.last += 1;
    ranking.ranks[node] = ranking.last;
}
