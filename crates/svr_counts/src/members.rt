// How many members `unique` has, and how many pairs they make.

ghost use Rattle.std.specs.Prelude.{◌≡◌, ◌+◌, ◌*◌, IfOk};
ghost use Rattle.svr_typed.specs.ExprTerm.{expr_term, expr_terms};
ghost use Rattle.svr_eval.specs.Value.{property_of};
ghost use Rattle.svr_frame.specs.Frame.{frame_term};
ghost use Rattle.svr_counts.specs.Counting as spec;

use svr_frame::{Frame, size_at};
use svr_typed::{NoMemory, TExpr, TNode};

/// The sum. No list has more elements than the type can count.
pub(crate) fn plus(a: usize, b: usize) -> Result<usize, NoMemory>
    ensures { IfOk result (λ n. n ≡ a + b) }
{
    match a.checked_add(b) {
        Some(sum) => Ok(sum),
        None => Err(NoMemory),
    }
}

/// The product.
pub(crate) fn times(a: usize, b: usize) -> Result<usize, NoMemory>
    ensures { IfOk result (λ n. n ≡ a * b) }
{
    match a.checked_mul(b) {
        Some(product) => Ok(product),
        None => Err(NoMemory),
    }
}

/// The array that an expression as a whole is.
fn array_of(e: &TExpr, frame: &Frame) -> Option<u32>
    ensures { result ≡ spec.array_of (frame_term frame.now) (property_of (expr_term e.now)) }
{
    match &e.node {
        TNode::Prop(prop) => {
            if frame.is_array(*prop) {
                Some(*prop)
            } else {
                None
            }
        }
        TNode::Number { .. }
        | TNode::Element(..)
        | TNode::Cell(..)
        | TNode::Size(..)
        | TNode::Script(_)
        | TNode::Loop(_)
        | TNode::Reduce(..)
        | TNode::Of(..)
        | TNode::Select { .. }
        | TNode::Unary { .. }
        | TNode::Binary { .. }
        | TNode::Choice { .. }
        | TNode::Inside { .. }
        | TNode::Join { .. }
        | TNode::Copies { .. }
        | TNode::Sign { .. } => None,
    }
}

/// How many members an expression stands for (IEEE 1800-2017, 18.5.5): an array for its elements.
fn member_count(e: &TExpr, frame: &Frame, sizes: &[u32]) -> usize
    ensures { result ≡ spec.member_number (frame_term frame.now) sizes.now (expr_term e.now) }
{
    match array_of(e, frame) {
        Some(array) => size_at(sizes, array) as usize,
        None => 1,
    }
}

/// How many all of them stand for.
fn members_count(members: &[TExpr], frame: &Frame, sizes: &[u32]) -> Result<usize, NoMemory>
    ensures { IfOk result (λ n. n ≡ spec.members_number (frame_term frame.now) sizes.now (expr_terms members.now)) }
{
    let mut count = 0;
    for member in members {
        count = plus(count, member_count(member, frame, sizes))?;
    }
    Ok(count)
}

/// How many pairs so many members make.
fn pair_count(members: usize) -> Result<usize, NoMemory>
    ensures { IfOk result (λ n. n ≡ spec.pair_number members) }
{
    let twice = times(members, members.saturating_sub(1))?;
    Ok(twice / 2)
}

/// `unique` (IEEE 1800-2017, 18.5.5): each two of its members.
pub(crate) fn unique_count(
    members: &[TExpr],
    frame: &Frame,
    sizes: &[u32],
) -> Result<usize, NoMemory>
    ensures { IfOk result (λ n. n ≡ spec.pair_number (spec.members_number (frame_term frame.now) sizes.now (expr_terms members.now))) }
{
    let members = members_count(members, frame, sizes)?;
    pair_count(members)
}
