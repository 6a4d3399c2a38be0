// Whether the items of a call make a size free: the one that the frame marks (IEEE 1800-2017, 18.4 and 18.5).

ghost use Rattle.std.specs.Prelude.{◌≡◌, ◌||◌, option_map};
ghost use Rattle.svr_typed.specs.ExprTerm.{expr_term, expr_terms};
ghost use Rattle.svr_typed.specs.ItemTerm.{item_term, item_terms, dist_terms};
ghost use Rattle.svr_frame.specs.declared.sought.Sought.TheVariants as sought;
ghost use Rattle.svr_frame.specs.Frame.{frame_term};
ghost use Rattle.svr_frame.specs.Finds as found;
ghost use Rattle.svr_frame_of.specs.Freeing as spec;

use crate::operands::{has_pair, has_sized};
use sqlite_items::Items;
use svr_frame::{Frame, Sought, finds, finds_in_members};
use svr_typed::{TDistItem, TExpr, TItem};

/// What is known of the leaves of items that stand in no loop, and that read no element of a random array, their tests included.
#[derive(Clone, Copy)]
pub(crate) struct Leaves {
    /// There is such a leaf.
    pub(crate) any: bool,
    /// One of them mentions the size that is marked.
    pub(crate) sized: bool,
}

impl Leaves {
    fn none() -> Leaves
        ensures { result ≡ spec.no_leaves }
    {
        Leaves {
            any: false,
            sized: false,
        }
    }

    fn and(self, others: Leaves) -> Leaves
        ensures { result ≡ spec.both self others }
    {
        Leaves {
            any: self.any || others.any,
            sized: self.sized || others.sized,
        }
    }
}

/// Whether an expression or its distribution reads what is sought.
fn reads(expr: &TExpr, dist: &Option<Items<TDistItem>>, sought: Sought, frame: &Frame) -> bool
    ensures { result ≡ (found.finds (frame_term frame.now) sought (expr_term expr.now) || spec.dist_finds (frame_term frame.now) sought (option_map dist_terms dist.now)) }
{
    finds(expr, sought, frame)
        || match dist {
            None => false,
            Some(members) => finds_in_members(members.as_slice(), sought, frame),
        }
}

fn plain_leaves(expr: &TExpr, dist: &Option<Items<TDistItem>>, frame: &Frame) -> Leaves
    ensures { result ≡ spec.plain_leaves (frame_term frame.now) (expr_term expr.now) (option_map dist_terms dist.now) }
{
    if reads(expr, dist, Sought::RandomElement, frame) {
        return Leaves::none();
    }
    Leaves {
        any: true,
        sized: reads(expr, dist, Sought::FreeSize, frame),
    }
}

/// The pairs of `unique` (IEEE 1800-2017, 18.5.5).
fn pair_leaves(members: &[TExpr], frame: &Frame) -> Leaves
    ensures { result ≡ spec.pair_leaves (frame_term frame.now) (expr_terms members.now) }
{
    if !has_pair(members, frame) {
        return Leaves::none();
    }
    Leaves {
        any: true,
        sized: has_sized(members, frame),
    }
}

/// The leaves under a test.
fn tested(test: &TExpr, inner: Leaves, frame: &Frame) -> Leaves
    ensures { result ≡ spec.tested (frame_term frame.now) (expr_term test.now) inner }
{
    if finds(test, Sought::RandomElement, frame) {
        return Leaves::none();
    }
    Leaves {
        any: inner.any,
        sized: inner.sized || (inner.any && finds(test, Sought::FreeSize, frame)),
    }
}

#[cycle(leaves)]
fn leaves_of(item: &TItem, frame: &Frame) -> Leaves
    ensures { result ≡ spec.leaves (frame_term frame.now) (item_term item.now) }
{
    match item {
        TItem::Plain { expr, dist, .. } => plain_leaves(expr, dist, frame),
        TItem::Unique { members } => pair_leaves(members.as_slice(), frame),
        TItem::Implies { test, body } => tested(test, all_leaves(body.as_slice(), frame), frame),
        TItem::Branch { test, yes, no } => {
            let met = tested(test, all_leaves(yes.as_slice(), frame), frame);
            match no {
                None => met,
                Some(body) => met.and(tested(test, all_leaves(body.as_slice(), frame), frame)),
            }
        }
        TItem::Foreach { .. } | TItem::Disable { .. } | TItem::Solve { .. } => Leaves::none(),
    }
}

/// The leaves of all these items.
#[cycle(leaves)]
#[tactic(auto, using(crate::proofs::Steps::leaves_turn, crate::proofs::Steps::leaves_end))]
pub(crate) fn all_leaves(items: &[TItem], frame: &Frame) -> Leaves
    ensures { result ≡ spec.all_leaves (frame_term frame.now) (item_terms items.now) }
{
    let mut known = Leaves::none();
    for item in items {
        known = known.and(leaves_of(item, frame));
    }
    known
}
