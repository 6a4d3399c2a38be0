// Elements and bits (IEEE 1800-2017, 7.4.6 and 11.5.1).

ghost use Rattle.std.specs.Prelude.{◌≡◌, ◌<ℤ◌, ◌≤ℤ◌, ◌^◌, pos, negsuc, ◌||◌, if◌then◌else◌, min, IfOk, IfSome, option_map};
ghost use Rattle.svr_typed.specs.ExprTerm.{expr_term, node_term};
ghost use Rattle.svr_elab_fault.specs.Refusals.{first_one};
ghost use Rattle.svr_elab_part.specs.Elab as spec;
ghost use Rattle.svr_elab_part.specs.Seen.{part_of, HasValue};
ghost use Rattle.svr_elab_part.specs.Forms as forms;
ghost use Rattle.svr_elab_part.specs.Shapes as shapes;

use std::alloc::Global;
use svr_elab_fault::{Fault, earlier, when};
use svr_elab_part::{Extent, Part, Root, Shape, cell_tree, element_tree, known, typed_as};
use svr_refusal::Refusal;
use svr_typed::{NoMemory, TExpr, TNode};

/// The first token of an index that mentions a property that can be random.
fn random_at(index: &Part) -> Option<u32>
    ensures { result ≡ spec.random_at (part_of index.now) }
{
    if index.reads.random {
        Some(index.at)
    } else {
        None
    }
}

/// The second index behind an array of two dimensions.
fn cell_part(alloc: Global, at: u32, base: Part, index: Part) -> Result<Part, NoMemory>
    ensures { IfOk result (λ p. part_of p ≡ spec.cell_part first_one at (part_of base) (part_of index)) }
{
    let random = random_at(&index);
    Ok(Part {
        at,
        shape: base.shape,
        tree: cell_tree(alloc, base.form.root, base.tree, index.tree)?,
        fault: earlier(base.fault, index.fault),
        reads: base.reads.and(index.reads).no_constant(),
        form: base.form.indexed(Extent::Single, random),
    })
}

fn bit_node(
    alloc: Global,
    base: Option<TExpr>,
    index: Option<TExpr>,
    low: i64,
) -> Result<Option<TNode>, NoMemory>
    ensures { IfOk result (λ n. option_map node_term n ≡ shapes.bit_node (option_map expr_term base) (option_map expr_term index) low) }
{
    match base.zip(index) {
        None => Ok(None),
        Some((base, index)) => Ok(Some(TNode::bit_select(alloc, base, index, low)?)),
    }
}

fn bit_fault(base: &Part, index: &Part) -> Option<Fault>
    ensures { result ≡ spec.bit_faults first_one (part_of base.now) (part_of index.now) }
{
    let form = base.form;
    let own = earlier(
        when(index.reads.random, index.at, Refusal::RandomIndex),
        when(form.root.is_object(), form.name, Refusal::UnknownName),
    );
    earlier(base.fault, earlier(index.fault, own))
}

/// A bit-select, whose index may mention nothing that can be random.
fn bit_part(alloc: Global, at: u32, base: Part, index: Part) -> Result<Part, NoMemory>
    ensures { IfOk result (λ p. part_of p ≡ spec.bit_part first_one at (part_of base) (part_of index)) }
{
    let fault = bit_fault(&base, &index);
    let shape = Some(Shape::bit());
    Ok(Part {
        at,
        shape,
        tree: typed_as(
            shape,
            bit_node(alloc, base.tree, index.tree, base.form.low)?,
        ),
        fault,
        reads: base.reads.and(index.reads).no_constant(),
        form: base.form.of_bits(),
    })
}

/// The tree of an element, or that of the index of a row, which waits for the second one.
fn array_tree(
    alloc: Global,
    extent: Extent,
    root: Root,
    index: Option<TExpr>,
) -> Result<Option<TExpr>, NoMemory>
    ensures { IfOk result (λ t. option_map expr_term t ≡ (if forms.is_row extent then option_map expr_term index else shapes.element_tree root (option_map expr_term index))) }
{
    if extent.is_row() {
        Ok(index)
    } else {
        element_tree(alloc, root, index)
    }
}

/// An index behind a whole array, for an element or a row.
fn array_part(alloc: Global, at: u32, base: Part, index: Part) -> Result<Part, NoMemory>
    ensures { IfOk result (λ p. part_of p ≡ spec.array_part first_one at (part_of base) (part_of index)) }
{
    let extent = Extent::of_element(base.form.root.property().dims);
    let random = random_at(&index);
    let fault = earlier(base.fault, index.fault);
    let reads = base.reads.and(index.reads).no_constant();
    let (shape, form) = (base.shape, base.form);
    drop(base);
    let tree = array_tree(alloc, extent, form.root, index.tree)?;
    Ok(Part {
        at,
        shape,
        tree,
        fault,
        reads,
        form: form.indexed(extent, random),
    })
}

/// `base[index]`: an element or a row of an array, or else a bit.
pub fn index_part(alloc: Global, at: u32, base: Part, index: Part) -> Result<Part, NoMemory>
    ensures { IfOk result (λ p. part_of p ≡ spec.index_part first_one at (part_of base) (part_of index)) }
{
    if base.form.extent.is_whole() {
        array_part(alloc, at, base, index)
    } else if base.form.extent.is_row() {
        cell_part(alloc, at, base, index)
    } else {
        bit_part(alloc, at, base, index)
    }
}

/// Whether the first bound is below the last.
fn are_turned(high: Option<i128>, low: Option<i128>) -> bool
    ensures { result ≡ shapes.are_turned high low }
{
    let Some(high) = high else {
        return false;
    };
    match low {
        None => false,
        Some(low) => high < low,
    }
}

/// Whether a bound is above the highest bit of a vector with this lowest bit number.
fn is_past(low: i64, shape: Option<Shape>, high: Option<i128>) -> bool
    ensures { result ≡ shapes.is_past low shape high }
{
    let Some(shape) = shape else {
        return false;
    };
    match high {
        None => false,
        Some(high) => high >= i128::from(low) + i128::from(shape.width),
    }
}

/// Whether the first bound is above the vector, or below the last.
fn is_high(lowest: i64, shape: Option<Shape>, high: Option<i128>, low: Option<i128>) -> bool
    ensures { result ≡ shapes.is_high lowest shape high low }
{
    are_turned(high, low) || is_past(lowest, shape, high)
}

fn is_low(lowest: i64, low: Option<i128>) -> bool
    ensures { result ≡ shapes.is_low lowest low }
{
    match low {
        None => false,
        Some(low) => low < i128::from(lowest),
    }
}

/// How many bits lie between two bounds, where over 64 count as 65.
fn bits_counted(high: i128, low: i128) -> Shape
    requires high_low { negsuc (2 ^ 64) ≤ℤ high }
    requires high_high { high <ℤ pos (2 ^ 64) }
    requires low_low { negsuc (2 ^ 64) ≤ℤ low }
    requires low_high { low <ℤ pos (2 ^ 64) }
    ensures { result ≡ shapes.bits_counted high low }
{
    Shape::bits_wide(count(high - low + 1))
}

/// 0 below 0, 65 above 65.
fn count(number: i128) -> u8
    ensures { result ≡ min 65 (shapes.count_of number) }
{
    if number < 0 {
        0
    } else if number > 65 {
        65
    } else {
        number as u8
    }
}

fn part_shape(above: bool, below: bool, high: Option<i128>, low: Option<i128>) -> Option<Shape>
    requires high_low { IfSome high (λ n. negsuc (2 ^ 64) ≤ℤ n) }
    requires high_high { IfSome high (λ n. n <ℤ pos (2 ^ 64)) }
    requires low_low { IfSome low (λ n. negsuc (2 ^ 64) ≤ℤ n) }
    requires low_high { IfSome low (λ n. n <ℤ pos (2 ^ 64)) }
    ensures { result ≡ shapes.part_shape (above || below) high low }
{
    if above || below {
        return None;
    }
    let Some(high) = high else {
        return None;
    };
    match low {
        None => None,
        Some(low) => Some(bits_counted(high, low)),
    }
}

fn slice_fault(base: &Part, first: &Part, last: &Part, above: bool, below: bool) -> Option<Fault>
    ensures { result ≡ spec.slice_faults first_one (part_of base.now) (part_of first.now) (part_of last.now) above below }
{
    let outside = earlier(
        when(above, first.at, Refusal::BadRange),
        when(below, last.at, Refusal::BadRange),
    );
    let own = earlier(
        when(!first.reads.constant, first.at, Refusal::NotConstant),
        earlier(
            when(!last.reads.constant, last.at, Refusal::NotConstant),
            outside,
        ),
    );
    earlier(base.fault, earlier(first.fault, earlier(last.fault, own)))
}

fn part_node(
    alloc: Global,
    base: Option<TExpr>,
    first: Option<TExpr>,
    last: Option<TExpr>,
    low: i64,
) -> Result<Option<TNode>, NoMemory>
    ensures { IfOk result (λ n. option_map node_term n ≡ shapes.part_node (option_map expr_term base) (option_map expr_term first) (option_map expr_term last) low) }
{
    match base.zip(first).zip(last) {
        None => Ok(None),
        Some(((base, first), last)) => Ok(Some(TNode::part_select(alloc, base, first, last, low)?)),
    }
}

/// `base[first:last]`, whose bounds are constants, in order and inside the vector.
pub fn slice_part(
    alloc: Global,
    at: u32,
    base: Part,
    first: Part,
    last: Part,
) -> Result<Part, NoMemory>
    requires first { HasValue (part_of first) }
    requires last { HasValue (part_of last) }
    ensures { IfOk result (λ p. part_of p ≡ spec.slice_part first_one at (part_of base) (part_of first) (part_of last)) }
{
    let lowest = base.form.low;
    let high = known(alloc, &first);
    let low = known(alloc, &last);
    let above = is_high(lowest, base.shape, high, low);
    let below = is_low(lowest, low);
    let shape = part_shape(above, below, high, low);
    let fault = slice_fault(&base, &first, &last, above, below);
    Ok(Part {
        at,
        shape,
        tree: typed_as(
            shape,
            part_node(alloc, base.tree, first.tree, last.tree, lowest)?,
        ),
        fault,
        reads: base.reads.and(first.reads.and(last.reads)).no_constant(),
        form: base.form.of_bits(),
    })
}
