// The members of `unique` outside of loops, arrays standing for their elements (IEEE 1800-2017, 18.5.5).

ghost use Rattle.std.specs.Prelude.{◌≡◌, ◌+◌, ◌≤◌, ◌&&◌, not, min};
ghost use Rattle.svr_typed.specs.ExprTerm.{expr_term, expr_terms};
ghost use Rattle.svr_eval.specs.Value.{property_of};
ghost use Rattle.svr_frame.specs.declared.sought.Sought.TheVariants as sought;
ghost use Rattle.svr_frame.specs.Frame.{frame_term};
ghost use Rattle.svr_frame.specs.Finds as found;
ghost use Rattle.svr_frame_of.specs.Freeing as spec;

use svr_frame::{Frame, Sought, finds};
use svr_typed::{TExpr, TNode};

/// The property that the expression as a whole is.
fn whole_property(e: &TExpr) -> Option<u32>
    ensures { result ≡ property_of (expr_term e.now) }
{
    match &e.node {
        TNode::Prop(prop) => Some(*prop),
        TNode::Number { .. }
        | TNode::Element(..)
        | TNode::Cell(..)
        | TNode::Size(..)
        | TNode::Script(_)
        | TNode::Loop(_)
        | TNode::Reduce(..)
        | TNode::Of(..)
        | TNode::Select { .. }
        | TNode::Unary { .. }
        | TNode::Binary { .. }
        | TNode::Choice { .. }
        | TNode::Inside { .. }
        | TNode::Join { .. }
        | TNode::Copies { .. }
        | TNode::Sign { .. } => None,
    }
}

/// For how many operands a member stands.
fn stands_for(member: &TExpr, frame: &Frame) -> u32
    ensures { result ≡ spec.stands_for (frame_term frame.now) (property_of (expr_term member.now)) }
{
    match whole_property(member) {
        None => 1,
        Some(prop) => {
            if frame.is_array(prop) {
                frame.state.size(prop)
            } else {
                1
            }
        }
    }
}

/// How many of them read no element of a random array.
fn fit_operands(member: &TExpr, frame: &Frame) -> u32
    ensures { result ≡ spec.fit_operands (frame_term frame.now) (expr_term member.now) }
{
    if finds(member, Sought::RandomElement, frame) {
        0
    } else {
        stands_for(member, frame)
    }
}

/// The sum of both, at most two.
fn up_to_two(count: u32, more: u32) -> u32
    requires { count ≤ 2 }
    ensures { result ≡ min 2 (count + more) }
{
    if more >= 2 || count + more >= 2 {
        2
    } else {
        count + more
    }
}

/// How many operands read no element of a random array, counted up to two.
fn count_operands(members: &[TExpr], frame: &Frame) -> u32
    ensures { result ≡ min 2 (spec.all_operands (frame_term frame.now) (expr_terms members.now)) }
{
    let mut count = 0;
    for member in members {
        count = up_to_two(count, fit_operands(member, frame));
    }
    count
}

/// Whether two operands or more read no element of a random array.
#[tactic(auto, using(crate::proofs::Steps::two_of))]
pub(crate) fn has_pair(members: &[TExpr], frame: &Frame) -> bool
    ensures { result ≡ spec.has_two (spec.all_operands (frame_term frame.now) (expr_terms members.now)) }
{
    count_operands(members, frame) >= 2
}

/// Whether a member reads no element of a random array, and the size that is marked.
fn is_sized(member: &TExpr, frame: &Frame) -> bool
    ensures { result ≡ spec.is_sized (frame_term frame.now) (expr_term member.now) }
{
    !finds(member, Sought::RandomElement, frame) && finds(member, Sought::FreeSize, frame)
}

/// Whether one of the members does.
pub(crate) fn has_sized(members: &[TExpr], frame: &Frame) -> bool
    ensures { result ≡ spec.any_sized (frame_term frame.now) (expr_terms members.now) }
{
    for member in members {
        if is_sized(member, frame) {
            return true;
        }
    }
    false
}
