// Lists of parts: concatenations, replications and sets.

ghost use Rattle.std.specs.Prelude.{◌≡◌, ◌++◌, ◌∷◌, [], ◌<ℤ◌, ◌≤ℤ◌, pos, ◌^◌, IfOk, IfSome, map, option_map};
ghost use Rattle.svr_typed.specs.ExprTerm as term;
ghost use Rattle.svr_typed.specs.ExprTerm.{expr_term, node_term, range_term, bound_term};
ghost use Rattle.svr_elab_fault.specs.Refusals.{first_one};
ghost use Rattle.svr_elab_part.specs.Elab as spec;
ghost use Rattle.svr_elab_part.specs.Seen.{part_of, parts_of, range_part_of, ranges_part_of, bound_part_of, HasValue};
ghost use Rattle.svr_elab_part.specs.Shapes as shapes;

use crate::operator::node_part;
use sqlite_items::Items;
use std::alloc::Global;
use svr_elab_fault::{Fault, earlier, when};
use svr_elab_part::{
    BoundPart, Part, Parts, RangePart, RangesPart, Reads, Shape, known, total_shape,
};
use svr_refusal::Refusal;
use svr_typed::{NoMemory, TBound, TExpr, TNode, TRange};

/// The parts of a concatenation before the first of them.
pub fn no_parts(alloc: Global) -> Parts
    ensures { parts_of result ≡ spec.no_parts first_one }
{
    Parts {
        trees: Some(Items::new(alloc)),
        total: Some(0),
        fault: None,
        reads: Reads::only_numbers(),
    }
}

/// A list with one more value behind it.
pub fn pushed<T: Drop>(list: Items<T>, value: T) -> Result<Items<T>, NoMemory>
    ensures { IfOk result (λ l. l ≡ list ++ value ∷ []) }
{
    let mut list = list;
    list.push(value)?;
    Ok(list)
}

fn and_tree(
    trees: Option<Items<TExpr>>,
    tree: Option<TExpr>,
) -> Result<Option<Items<TExpr>>, NoMemory>
    ensures { IfOk result (λ t. option_map (map expr_term) t ≡ shapes.and_more (option_map (map expr_term) trees) (option_map expr_term tree)) }
{
    match trees.zip(tree) {
        None => Ok(None),
        Some((trees, tree)) => Ok(Some(pushed(trees, tree)?)),
    }
}

/// The bits so far and those of one more, where over 64 count as 65.
fn and_width(total: Option<u8>, shape: Option<Shape>) -> Option<u8>
    ensures { result ≡ shapes.and_width total shape }
{
    let Some(total) = total else {
        return None;
    };
    let Some(shape) = shape else {
        return None;
    };
    Some(total.saturating_add(shape.width).min(65))
}

/// The parts of a concatenation with one more behind them: sizes add up, and stop at 65 bits.
pub fn and_part(parts: Parts, part: Part) -> Result<Parts, NoMemory>
    ensures { IfOk result (λ p. parts_of p ≡ spec.and_part first_one (parts_of parts) (part_of part)) }
{
    Ok(Parts {
        trees: and_tree(parts.trees, part.tree)?,
        total: and_width(parts.total, part.shape),
        fault: earlier(parts.fault, part.fault),
        reads: parts.reads.and(part.reads),
    })
}

fn is_wide(total: Option<u8>) -> bool
    ensures { result ≡ shapes.is_wide total }
{
    match total {
        None => false,
        Some(total) => total > 64,
    }
}

fn join_node(trees: Option<Items<TExpr>>) -> Option<TNode>
    ensures { option_map node_term result ≡ shapes.join_node (option_map (map expr_term) trees) }
{
    match trees {
        None => None,
        Some(trees) => Some(TNode::join(trees)),
    }
}

/// A concatenation (IEEE 1800-2017, 11.4.12); of 64 bits at most.
pub fn join_part(at: u32, parts: Parts) -> Part
    ensures { part_of result ≡ spec.join_part first_one at (parts_of parts) }
{
    let shape = total_shape(parts.total);
    let wide = when(is_wide(parts.total), at, Refusal::WiderThan64);
    let fault = earlier(parts.fault, wide);
    node_part(at, shape, join_node(parts.trees), fault, parts.reads)
}

/// The members of a set before the first of them.
pub fn no_ranges(alloc: Global) -> RangesPart
    ensures { ranges_part_of result ≡ spec.no_ranges first_one }
{
    RangesPart {
        trees: Some(Items::new(alloc)),
        fault: None,
        reads: Reads::only_numbers(),
    }
}

fn and_member(
    trees: Option<Items<TRange>>,
    tree: Option<TRange>,
) -> Result<Option<Items<TRange>>, NoMemory>
    ensures { IfOk result (λ t. option_map (map range_term) t ≡ shapes.and_more (option_map (map range_term) trees) (option_map range_term tree)) }
{
    match trees.zip(tree) {
        None => Ok(None),
        Some((trees, tree)) => Ok(Some(pushed(trees, tree)?)),
    }
}

/// The members of a set with one more behind them.
pub fn and_range(ranges: RangesPart, range: RangePart) -> Result<RangesPart, NoMemory>
    ensures { IfOk result (λ p. ranges_part_of p ≡ spec.and_range first_one (ranges_part_of ranges) (range_part_of range)) }
{
    Ok(RangesPart {
        trees: and_member(ranges.trees, range.tree)?,
        fault: earlier(ranges.fault, range.fault),
        reads: ranges.reads.and(range.reads),
    })
}

fn one_tree(tree: Option<TExpr>) -> Option<TRange>
    ensures { option_map range_term result ≡ option_map term.one (option_map expr_term tree) }
{
    match tree {
        None => None,
        Some(tree) => Some(TRange::one(tree)),
    }
}

/// A member of a set that is one value, or an array for its elements.
pub fn value_range(part: Part) -> RangePart
    ensures { range_part_of result ≡ spec.value_range first_one (part_of part) }
{
    RangePart {
        tree: one_tree(part.tree),
        fault: part.fault,
        reads: part.reads,
    }
}

fn span_tree(low: Option<TBound>, high: Option<TBound>) -> Option<TRange>
    ensures { option_map range_term result ≡ shapes.both_known term.span (option_map bound_term low) (option_map bound_term high) }
{
    match low.zip(high) {
        None => None,
        Some((low, high)) => Some(TRange::span(low, high)),
    }
}

/// A member of a set that is a range.
pub fn span_range(low: BoundPart, high: BoundPart) -> RangePart
    ensures { range_part_of result ≡ spec.span_range first_one (bound_part_of low) (bound_part_of high) }
{
    RangePart {
        tree: span_tree(low.tree, high.tree),
        fault: earlier(low.fault, high.fault),
        reads: low.reads.and(high.reads),
    }
}

fn bound_tree(tree: Option<TExpr>) -> Option<TBound>
    ensures { option_map bound_term result ≡ option_map term.value (option_map expr_term tree) }
{
    match tree {
        None => None,
        Some(tree) => Some(TBound::value(tree)),
    }
}

/// A bound that is an expression.
pub fn value_bound(part: Part) -> BoundPart
    ensures { bound_part_of result ≡ spec.value_bound first_one (part_of part) }
{
    BoundPart {
        tree: bound_tree(part.tree),
        fault: part.fault,
        reads: part.reads,
    }
}

/// The bound `$`, the least or greatest value of the left side (11.4.13).
pub fn dollar_bound() -> BoundPart
    ensures { bound_part_of result ≡ spec.dollar_bound first_one }
{
    BoundPart {
        tree: Some(TBound::dollar()),
        fault: None,
        reads: Reads::only_numbers(),
    }
}

fn inside_node(
    alloc: Global,
    left: Option<TExpr>,
    set: Option<Items<TRange>>,
) -> Result<Option<TNode>, NoMemory>
    ensures { IfOk result (λ n. option_map node_term n ≡ shapes.inside_node (option_map expr_term left) (option_map (map range_term) set)) }
{
    match left.zip(set) {
        None => Ok(None),
        Some((left, set)) => Ok(Some(TNode::inside(alloc, left, set)?)),
    }
}

/// Set membership (IEEE 1800-2017, 11.4.13).
pub fn inside_part(alloc: Global, at: u32, left: Part, set: RangesPart) -> Result<Part, NoMemory>
    ensures { IfOk result (λ p. part_of p ≡ spec.inside_part first_one at (part_of left) (ranges_part_of set)) }
{
    let node = inside_node(alloc, left.tree, set.trees)?;
    let fault = earlier(left.fault, set.fault);
    let reads = left.reads.and(set.reads);
    Ok(node_part(at, Some(Shape::bit()), node, fault, reads))
}

fn copies_node(
    alloc: Global,
    count: Option<TExpr>,
    parts: Option<Items<TExpr>>,
) -> Result<Option<TNode>, NoMemory>
    ensures { IfOk result (λ n. option_map node_term n ≡ shapes.copies_node (option_map expr_term count) (option_map (map expr_term) parts)) }
{
    match count.zip(parts) {
        None => Ok(None),
        Some((count, parts)) => Ok(Some(TNode::copies(alloc, count, parts)?)),
    }
}

/// The bits of so many copies, where over 64 count as 65.
fn copied_width(count: i128, width: u8) -> u8
    requires low { pos 0 ≤ℤ count }
    requires high { count <ℤ pos (2 ^ 64) }
    ensures { result ≡ shapes.copied_width count width }
{
    (count as u64).saturating_mul(u64::from(width)).min(65) as u8
}

fn copies_total(count: Option<i128>, total: Option<u8>) -> Option<u8>
    requires high { IfSome count (λ n. n <ℤ pos (2 ^ 64)) }
    ensures { result ≡ shapes.copies_total count total }
{
    let Some(count) = count else {
        return None;
    };
    if count < 1 {
        return None;
    }
    match total {
        None => None,
        Some(total) => Some(copied_width(count, total)),
    }
}

fn is_too_few(count: Option<i128>) -> bool
    ensures { result ≡ shapes.is_too_few count }
{
    match count {
        None => false,
        Some(count) => count < 1,
    }
}

fn copies_fault(at: u32, count: &Part, parts: &Parts, few: bool, total: Option<u8>) -> Option<Fault>
    ensures { result ≡ spec.copies_faults first_one at (part_of count.now) (parts_of parts.now) few total }
{
    let own = earlier(
        when(!count.reads.constant, count.at, Refusal::NotConstant),
        earlier(
            when(few, count.at, Refusal::BadRange),
            when(is_wide(total), at, Refusal::WiderThan64),
        ),
    );
    earlier(count.fault, earlier(parts.fault, own))
}

/// A replication (IEEE 1800-2017, 11.4.12.1), whose count is a constant of 1 or more, and which has 64 bits at most.
pub fn copies_part(alloc: Global, at: u32, count: Part, parts: Parts) -> Result<Part, NoMemory>
    requires { HasValue (part_of count) }
    ensures { IfOk result (λ p. part_of p ≡ spec.copies_part first_one at (part_of count) (parts_of parts)) }
{
    let number = known(alloc, &count);
    let total = copies_total(number, parts.total);
    let fault = copies_fault(at, &count, &parts, is_too_few(number), total);
    let node = copies_node(alloc, count.tree, parts.trees)?;
    let reads = count.reads.and(parts.reads);
    Ok(node_part(at, total_shape(total), node, fault, reads))
}
