// The search back through a graph, depth first, in whose order nodes are settled.

ghost use Rattle.std.specs.Prelude.{◌≡◌, false, true, replicate, slice_index_or, IfOk, IfSome};
ghost use Rattle.svr_elab_order.specs.Graph.{IsRanking};

use crate::flags::{mark, was_seen};
use crate::ranking::{Ranking, is_ready, right_before, settle_next};
use sqlite_items::Items;
use std::alloc::Global;
use svr_typed::NoMemory;

/// A node on the way back, and how many of those right before it were looked at.
#[derive(Clone, Copy)]
struct Step {
    node: usize,
    looked_at: usize,
}

/// A node that was not seen so far.
#[derive(Clone, Copy)]
struct Unseen {
    node: usize,
    /// How many were looked at, it among them.
    looked_at: usize,
}

/// As many marks that are not set.
fn no_flags(alloc: Global, count: usize) -> Result<Vec<bool>, NoMemory>
    ensures { IfOk result (λ f. f.items ≡ replicate count false) }
{
    Ok(vec![in alloc; false; count]?)
}

/// No node is settled.
fn none_settled(alloc: Global, count: usize) -> Result<Ranking, NoMemory>
    ensures ranks { IfOk result (λ r. r.ranks.items ≡ replicate count 0) }
    ensures last { IfOk result (λ r. r.last ≡ 0) }
{
    let ranks = vec![in alloc; 0; count]?;
    Ok(Ranking { ranks, last: 0 })
}

/// The first of these nodes that was not seen, from a place on.
fn next_unseen(nodes: &[usize], from: usize, seen: &[bool]) -> Option<Unseen>
    ensures { IfSome result (λ n. slice_index_or seen.now n.node true ≡ false) }
{
    for place in from..nodes.len() {
        let node = nodes[place];
        if !was_seen(seen, node) {
            return Some(Unseen {
                node,
                looked_at: place + 1,
            });
        }
    }
    None
}

/// Settles a node where all right before it are settled.
fn leave(graph: &[Items<usize>], node: usize, ranking: &mut Ranking)
    requires { IsRanking graph.now ranking.old }
    ensures { IsRanking graph.now ranking.new }
{
    if is_ready(graph, node, ranking.ranks.as_slice()) {
        settle_next(ranking, node);
    }
}

/// Looks at all nodes on the ways back from one, and settles what it leaves.
fn visit(
    alloc: Global,
    graph: &[Items<usize>],
    root: usize,
    seen: &mut Vec<bool>,
    ranking: &mut Ranking,
) -> Result<(), NoMemory>
    requires { IsRanking graph.now ranking.old }
    ensures { IsRanking graph.now ranking.new }
{
    let mut way = Items::new(alloc);
    way.push(Step {
        node: root,
        looked_at: 0,
    })?;
    while let Some(step) = way.pop() {
        match next_unseen(
            right_before(graph, step.node),
            step.looked_at,
            seen.as_slice(),
        ) {
            Some(next) => {
                mark(seen, next.node);
                way.push(Step {
                    node: step.node,
                    looked_at: next.looked_at,
                })?;
                way.push(Step {
                    node: next.node,
                    looked_at: 0,
                })?;
            }
            None => leave(graph, step.node, ranking),
        }
    }
    Ok(())
}

/// Settles each node that all ways back from it have an end, as far as the search finds them.
pub(crate) fn search(alloc: Global, graph: &[Items<usize>]) -> Result<Ranking, NoMemory>
    ensures { IfOk result (IsRanking graph.now) }
{
    let mut seen = no_flags(alloc, graph.len())?;
    let mut ranking = none_settled(alloc, graph.len())?;
    for node in 0..graph.len() {
        if !was_seen(seen.as_slice(), node) {
            mark(&mut seen, node);
            visit(alloc, graph, node, &mut seen, &mut ranking)?;
        }
    }
    Ok(ranking)
}
