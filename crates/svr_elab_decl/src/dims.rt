// Unpacked dimensions (IEEE 1800-2017, 7.4.2, 7.5 and 7.10).

ghost use Rattle.std.specs.Prelude.{◌≡◌, ◌<◌, ◌<ℤ◌, ◌^◌, ◌||◌, pos, length, map, is_none, IfOk, IfSome};
ghost use Rattle.svr_tree.specs.ExprTree.{expr_tree};
ghost use Rattle.svr_tree.specs.DeclTree.{dimension_tree};
ghost use Rattle.svr_elab_fault.specs.Refusals.{first_one};
ghost use Rattle.svr_elab_names.specs.Tables.{space_of};
ghost use Rattle.svr_elab_part.specs.Fits.{MembersFit};
ghost use Rattle.svr_elab_type.specs.Types as types;
ghost use Rattle.svr_elab_decl.specs.Properties as spec;
ghost use Rattle.svr_elab_type.specs.Fits.{ExprFits};
ghost use Rattle.svr_elab_type.specs.Seen.{constant_part};
ghost use Rattle.svr_elab_decl.specs.Fits.{DimensionFits, DimensionsFit};
ghost use Rattle.svr_elab_decl.specs.Seen.{dims_part};

use std::alloc::Global;
use svr_elab_fault::{Fault, earlier, when};
use svr_elab_names::{Dims, NameSpace};
use svr_elab_type::{Constant, constant_at, elements, is_below, is_other};
use svr_refusal::Refusal;
use svr_tree::{Dimension, Expr};
use svr_typed::NoMemory;

/// What is known of the dimensions of a property.
#[derive(Clone, Copy)]
pub struct DimsPart {
    pub dims: Dims,
    pub fault: Option<Fault>,
}

fn count_if(bad: bool, number: Option<i128>) -> Option<u32>
    ensures { result ≡ spec.count_if bad number }
{
    if bad {
        return None;
    }
    match number {
        None => None,
        Some(number) => Some(elements(number)),
    }
}

fn one_more(number: Option<i128>) -> Option<i128>
    requires { IfSome number (λ n. n <ℤ pos (2 ^ 64)) }
    ensures { result ≡ spec.one_more number }
{
    match number {
        None => None,
        Some(number) => Some(number + 1),
    }
}

/// `[size]`
fn sized_dims(size: Constant) -> DimsPart
    ensures { dims_part result ≡ spec.sized_dims first_one (constant_part size) }
{
    let bad = is_below(1, size.number);
    DimsPart {
        dims: Dims::Fixed(count_if(bad, size.number)),
        fault: earlier(size.fault, when(bad, size.at, Refusal::BadRange)),
    }
}

/// Whether two bounds give no dimension: the first is another than 0 or not known, or the last is below 0.
fn is_bad_pair(other: bool, first: Option<i128>, below: bool) -> bool
    ensures { result ≡ (other || (is_none first || below)) }
{
    other || (first.is_none() || below)
}

/// `[first:last]`, whose first bound is 0.
fn bounded_dims(first: Constant, last: Constant) -> DimsPart
    requires { IfSome last.number (λ n. n <ℤ pos (2 ^ 64)) }
    ensures { dims_part result ≡ spec.bounded_dims first_one (constant_part first) (constant_part last) }
{
    let other = is_other(0, first.number);
    let below = is_below(0, last.number);
    let bad = is_bad_pair(other, first.number, below);
    let wrong = earlier(
        when(other, first.at, Refusal::BadRange),
        when(below, last.at, Refusal::BadRange),
    );
    DimsPart {
        dims: Dims::Fixed(count_if(bad, one_more(last.number))),
        fault: earlier(first.fault, earlier(last.fault, wrong)),
    }
}

/// `[size]`, by its expression.
fn sized(alloc: Global, size: &Expr, names: &NameSpace<'_, '_>) -> Result<DimsPart, NoMemory>
    requires vars { length names.now.vars.now.entries < 2 ^ 32 }
    requires members { MembersFit (space_of names.now) }
    requires fits { ExprFits (length names.now.loops.now) (expr_tree size.now) }
    ensures { IfOk result (λ d. dims_part d ≡ spec.sized_dims first_one (types.constant_at first_one (space_of names.now) (expr_tree size.now))) }
{
    let size = constant_at(alloc, size, names)?;
    Ok(sized_dims(size))
}

/// `[first:last]`, by its expressions.
fn bounded(
    alloc: Global,
    first: &Expr,
    last: &Expr,
    names: &NameSpace<'_, '_>,
) -> Result<DimsPart, NoMemory>
    requires vars { length names.now.vars.now.entries < 2 ^ 32 }
    requires members { MembersFit (space_of names.now) }
    requires first_fits { ExprFits (length names.now.loops.now) (expr_tree first.now) }
    requires last_fits { ExprFits (length names.now.loops.now) (expr_tree last.now) }
    ensures { IfOk result (λ d. dims_part d ≡ spec.bounded_dims first_one (types.constant_at first_one (space_of names.now) (expr_tree first.now)) (types.constant_at first_one (space_of names.now) (expr_tree last.now))) }
{
    let low = constant_at(alloc, first, names)?;
    let high = constant_at(alloc, last, names)?;
    Ok(bounded_dims(low, high))
}

fn dimension(
    alloc: Global,
    dimension: &Dimension,
    names: &NameSpace<'_, '_>,
) -> Result<DimsPart, NoMemory>
    requires vars { length names.now.vars.now.entries < 2 ^ 32 }
    requires members { MembersFit (space_of names.now) }
    requires fits { DimensionFits (length names.now.loops.now) (dimension_tree dimension.now) }
    ensures { IfOk result (λ d. dims_part d ≡ spec.dimension first_one (space_of names.now) (dimension_tree dimension.now)) }
{
    match dimension {
        Dimension::Dynamic | Dimension::Queue => Ok(DimsPart {
            dims: Dims::Dynamic,
            fault: None,
        }),
        Dimension::Size(size) => sized(alloc, size, names),
        Dimension::Bounds(first, last) => bounded(alloc, first, last, names),
    }
}

fn fixed_size(dims: Dims) -> Option<u32>
    ensures { result ≡ spec.fixed_size dims }
{
    match dims {
        Dims::Fixed(size) => size,
        Dims::Scalar | Dims::Rows(_, _) | Dims::Dynamic => None,
    }
}

fn is_fixed(dims: Dims) -> bool
    ensures { result ≡ spec.is_fixed dims }
{
    match dims {
        Dims::Fixed(_) => true,
        Dims::Scalar | Dims::Rows(_, _) | Dims::Dynamic => false,
    }
}

/// Both dimensions of an array of two are fixed.
fn row_dims(name: u32, outer: DimsPart, inner: DimsPart) -> DimsPart
    ensures { dims_part result ≡ spec.row_dims first_one name (dims_part outer) (dims_part inner) }
{
    let open = !(is_fixed(outer.dims) && is_fixed(inner.dims));
    DimsPart {
        dims: Dims::Rows(fixed_size(outer.dims), fixed_size(inner.dims)),
        fault: earlier(
            outer.fault,
            earlier(inner.fault, when(open, name, Refusal::LeftOut)),
        ),
    }
}

/// Two dimensions.
fn rows(
    alloc: Global,
    name: u32,
    outer: &Dimension,
    inner: &Dimension,
    names: &NameSpace<'_, '_>,
) -> Result<DimsPart, NoMemory>
    requires vars { length names.now.vars.now.entries < 2 ^ 32 }
    requires members { MembersFit (space_of names.now) }
    requires outer_fits { DimensionFits (length names.now.loops.now) (dimension_tree outer.now) }
    requires inner_fits { DimensionFits (length names.now.loops.now) (dimension_tree inner.now) }
    ensures { IfOk result (λ d. dims_part d ≡ spec.row_dims first_one name (spec.dimension first_one (space_of names.now) (dimension_tree outer.now)) (spec.dimension first_one (space_of names.now) (dimension_tree inner.now))) }
{
    let rows = dimension(alloc, outer, names)?;
    let row = dimension(alloc, inner, names)?;
    Ok(row_dims(name, rows, row))
}

/// The dimensions of the property of this name: none, one or two.
pub fn dims_of(
    alloc: Global,
    name: u32,
    dims: &[Dimension],
    names: &NameSpace<'_, '_>,
) -> Result<DimsPart, NoMemory>
    requires vars { length names.now.vars.now.entries < 2 ^ 32 }
    requires members { MembersFit (space_of names.now) }
    requires fits { DimensionsFit (length names.now.loops.now) (map dimension_tree dims.now) }
    ensures { IfOk result (λ d. dims_part d ≡ spec.dims_of first_one (space_of names.now) name (map dimension_tree dims.now)) }
{
    match dims {
        [] => Ok(DimsPart {
            dims: Dims::Scalar,
            fault: None,
        }),
        [only] => dimension(alloc, only, names),
        [outer, inner, ..] => rows(alloc, name, outer, inner, names),
    }
}
