// Expressions, in one walk.

ghost use Rattle.std.specs.Prelude.{◌≡◌, ◌<◌, ◌+◌, ◌^◌, length, IfOk};
ghost use Rattle.svr_tree.specs.ExprTree as tree;
ghost use Rattle.svr_tree.specs.ExprTree.{expr_tree, range_tree, bound_tree, expr_trees, range_trees, argument_name};
ghost use Rattle.svr_elab_fault.specs.Refusals.{first_one};
ghost use Rattle.svr_elab_names.specs.Tables.{space_of};
ghost use Rattle.svr_elab_part.specs.Elab as spec;
ghost use Rattle.svr_elab_part.specs.Seen.{part_of, parts_of, range_part_of, ranges_part_of, bound_part_of};
ghost use Rattle.svr_elab_part.specs.Fits.{MembersFit, LiteralsFit, AllFit, RangesFit, RangeFits, BoundFits, LoopsFit, AllLoopsFit, RangesLoopsFit, RangeLoopsFit, BoundLoopsFit};

use crate::held::{beside, both};
use sqlite_items::Boxed;
use std::alloc::Global;
use svr_elab_form::{
    and_part, and_range, binary_part, choice_part, copies_part, dollar_bound, index_part,
    inside_part, join_part, literal, no_parts, no_ranges, paren_part, path_part, plain,
    reduce_part, sign_part, slice_part, sole, span_range, unary_part, value_bound, value_range,
    with_parens,
};
use svr_elab_names::NameSpace;
use svr_elab_part::{BoundPart, Part, Parts, RangePart, RangesPart};
use svr_operator::{BinOp, Fold, UnOp};
use svr_tree::{Bound, Expr, IteratorArgument, Range, Scope};
use svr_typed::NoMemory;

/// The last name of a path.
fn last_name(at: u32, names: &[u32]) -> u32
    ensures { result ≡ spec.last_name at names.now }
{
    let mut last = at;
    for name in names {
        last = *name;
    }
    last
}

/// A path by what it stands for.
fn path(
    alloc: Global,
    at: u32,
    scope: Scope,
    path: &[u32],
    call: bool,
    names: &NameSpace<'_, '_>,
) -> Result<Part, NoMemory>
    requires vars { length names.now.vars.now.entries < 2 ^ 32 }
    requires loops { length names.now.loops.now < 2 ^ 32 }
    ensures { IfOk result (λ p. part_of p ≡ spec.elab first_one (space_of names.now) (tree.path at scope path.now call)) }
{
    let found = names.look(scope, path);
    Ok(path_part(alloc, at, last_name(at, path), call, found)?)
}

/// What is known of an expression, with its first refusal. An array or an object variable alone is left to the caller, by `plain` or `sole`.
#[cycle(elab)]
pub fn elab(alloc: Global, e: &Expr, names: &NameSpace<'_, '_>) -> Result<Part, NoMemory>
    requires vars { length names.now.vars.now.entries < 2 ^ 32 }
    requires loops { LoopsFit (length names.now.loops.now) (expr_tree e.now) }
    requires members { MembersFit (space_of names.now) }
    requires literals { LiteralsFit (expr_tree e.now) }
    ensures { IfOk result (λ p. part_of p ≡ spec.elab first_one (space_of names.now) (expr_tree e.now)) }
{
    match e {
        Expr::Number {
            at,
            value,
            width,
            signed,
        } => Ok(literal(*at, *value, *width, *signed)),
        Expr::Path {
            at,
            scope,
            names: list,
            call,
        } => path(alloc, *at, *scope, list.as_slice(), *call, names),
        Expr::Select {
            at,
            base,
            first,
            last,
            call,
        } => match last {
            None => index(alloc, *at, base, first, *call, names),
            Some(last) => slice(alloc, *at, base, first, last, *call, names),
        },
        Expr::Unary { at, op, arg } => unary(alloc, *at, *op, arg, names),
        Expr::Binary {
            at,
            op,
            left,
            right,
        } => binary(alloc, *at, *op, left, right, names),
        Expr::Choice { at, test, yes, no } => choice(alloc, *at, test, yes, no, names),
        Expr::Inside { at, left, set } => { membership(alloc, *at, set.as_slice(), left, names) }
        Expr::Join { at, parts: list } => concatenation(alloc, *at, list.as_slice(), names),
        Expr::Copies {
            at,
            count,
            parts: list,
        } => replication(alloc, *at, list.as_slice(), count, names),
        Expr::Sign { at, signed, arg } => conversion(alloc, *at, *signed, arg, names),
        Expr::Paren { at, arg } => parenthesized(alloc, *at, arg, names),
        Expr::Reduce {
            at,
            array,
            op,
            item,
            body,
        } => reduction(alloc, *at, array, *op, *item, body, names),
    }
}

/// A unary operator and its operand.
#[cycle(elab)]
fn unary(
    alloc: Global,
    at: u32,
    op: UnOp,
    arg: &Boxed<Expr>,
    names: &NameSpace<'_, '_>,
) -> Result<Part, NoMemory>
    requires vars { length names.now.vars.now.entries < 2 ^ 32 }
    requires loops { LoopsFit (length names.now.loops.now) (tree.unary at op (expr_tree arg.now)) }
    requires members { MembersFit (space_of names.now) }
    requires literals { LiteralsFit (tree.unary at op (expr_tree arg.now)) }
    ensures { IfOk result (λ p. part_of p ≡ spec.elab first_one (space_of names.now) (tree.unary at op (expr_tree arg.now))) }
{
    let arg = value(alloc, arg.get(), names)?;
    Ok(unary_part(alloc, at, op, arg)?)
}

/// `$signed` or `$unsigned`.
#[cycle(elab)]
fn conversion(
    alloc: Global,
    at: u32,
    signed: bool,
    arg: &Boxed<Expr>,
    names: &NameSpace<'_, '_>,
) -> Result<Part, NoMemory>
    requires vars { length names.now.vars.now.entries < 2 ^ 32 }
    requires loops { LoopsFit (length names.now.loops.now) (tree.sign at signed (expr_tree arg.now)) }
    requires members { MembersFit (space_of names.now) }
    requires literals { LiteralsFit (tree.sign at signed (expr_tree arg.now)) }
    ensures { IfOk result (λ p. part_of p ≡ spec.elab first_one (space_of names.now) (tree.sign at signed (expr_tree arg.now))) }
{
    let arg = value(alloc, arg.get(), names)?;
    Ok(sign_part(alloc, at, signed, arg)?)
}

/// An expression in parentheses.
#[cycle(elab)]
fn parenthesized(
    alloc: Global,
    at: u32,
    arg: &Boxed<Expr>,
    names: &NameSpace<'_, '_>,
) -> Result<Part, NoMemory>
    requires vars { length names.now.vars.now.entries < 2 ^ 32 }
    requires loops { LoopsFit (length names.now.loops.now) (tree.paren at (expr_tree arg.now)) }
    requires members { MembersFit (space_of names.now) }
    requires literals { LiteralsFit (tree.paren at (expr_tree arg.now)) }
    ensures { IfOk result (λ p. part_of p ≡ spec.elab first_one (space_of names.now) (tree.paren at (expr_tree arg.now))) }
{
    let arg = elab(alloc, arg.get(), names)?;
    Ok(paren_part(at, sole(arg)))
}

/// A concatenation.
#[cycle(elab)]
fn concatenation(
    alloc: Global,
    at: u32,
    list: &[Expr],
    names: &NameSpace<'_, '_>,
) -> Result<Part, NoMemory>
    requires vars { length names.now.vars.now.entries < 2 ^ 32 }
    requires loops { LoopsFit (length names.now.loops.now) (tree.join at (expr_trees list.now)) }
    requires members { MembersFit (space_of names.now) }
    requires literals { LiteralsFit (tree.join at (expr_trees list.now)) }
    ensures { IfOk result (λ p. part_of p ≡ spec.elab first_one (space_of names.now) (tree.join at (expr_trees list.now))) }
{
    let list = parts(alloc, list, names)?;
    Ok(join_part(at, list))
}

/// An element or a row of an array, or a bit.
#[cycle(elab)]
fn index(
    alloc: Global,
    at: u32,
    base: &Boxed<Expr>,
    first: &Boxed<Expr>,
    call: bool,
    names: &NameSpace<'_, '_>,
) -> Result<Part, NoMemory>
    requires vars { length names.now.vars.now.entries < 2 ^ 32 }
    requires loops { LoopsFit (length names.now.loops.now) (tree.bit_select at (expr_tree base.now) (expr_tree first.now) call) }
    requires members { MembersFit (space_of names.now) }
    requires literals { LiteralsFit (tree.bit_select at (expr_tree base.now) (expr_tree first.now) call) }
    ensures { IfOk result (λ p. part_of p ≡ spec.elab first_one (space_of names.now) (tree.bit_select at (expr_tree base.now) (expr_tree first.now) call)) }
{
    let (base, index) = both(
        elab(alloc, base.get(), names),
        value(alloc, first.get(), names),
    )?;
    Ok(with_parens(call, index_part(alloc, at, base, index)?))
}

/// A part-select.
#[cycle(elab)]
fn slice(
    alloc: Global,
    at: u32,
    base: &Boxed<Expr>,
    first: &Boxed<Expr>,
    last: &Boxed<Expr>,
    call: bool,
    names: &NameSpace<'_, '_>,
) -> Result<Part, NoMemory>
    requires vars { length names.now.vars.now.entries < 2 ^ 32 }
    requires loops { LoopsFit (length names.now.loops.now) (tree.part_select at (expr_tree base.now) (expr_tree first.now) (expr_tree last.now) call) }
    requires members { MembersFit (space_of names.now) }
    requires literals { LiteralsFit (tree.part_select at (expr_tree base.now) (expr_tree first.now) (expr_tree last.now) call) }
    ensures { IfOk result (λ p. part_of p ≡ spec.elab first_one (space_of names.now) (tree.part_select at (expr_tree base.now) (expr_tree first.now) (expr_tree last.now) call)) }
{
    let known = both(
        value(alloc, base.get(), names),
        value(alloc, first.get(), names),
    );
    let ((base, first), last) = both(known, value(alloc, last.get(), names))?;
    Ok(with_parens(call, slice_part(alloc, at, base, first, last)?))
}

/// A binary operator and its operands.
#[cycle(elab)]
fn binary(
    alloc: Global,
    at: u32,
    op: BinOp,
    left: &Boxed<Expr>,
    right: &Boxed<Expr>,
    names: &NameSpace<'_, '_>,
) -> Result<Part, NoMemory>
    requires vars { length names.now.vars.now.entries < 2 ^ 32 }
    requires loops { LoopsFit (length names.now.loops.now) (tree.binary at op (expr_tree left.now) (expr_tree right.now)) }
    requires members { MembersFit (space_of names.now) }
    requires literals { LiteralsFit (tree.binary at op (expr_tree left.now) (expr_tree right.now)) }
    ensures { IfOk result (λ p. part_of p ≡ spec.elab first_one (space_of names.now) (tree.binary at op (expr_tree left.now) (expr_tree right.now))) }
{
    let (left, right) = both(
        value(alloc, left.get(), names),
        value(alloc, right.get(), names),
    )?;
    Ok(binary_part(alloc, at, op, left, right)?)
}

/// The conditional operator and its operands.
#[cycle(elab)]
fn choice(
    alloc: Global,
    at: u32,
    test: &Boxed<Expr>,
    yes: &Boxed<Expr>,
    no: &Boxed<Expr>,
    names: &NameSpace<'_, '_>,
) -> Result<Part, NoMemory>
    requires vars { length names.now.vars.now.entries < 2 ^ 32 }
    requires loops { LoopsFit (length names.now.loops.now) (tree.choice at (expr_tree test.now) (expr_tree yes.now) (expr_tree no.now)) }
    requires members { MembersFit (space_of names.now) }
    requires literals { LiteralsFit (tree.choice at (expr_tree test.now) (expr_tree yes.now) (expr_tree no.now)) }
    ensures { IfOk result (λ p. part_of p ≡ spec.elab first_one (space_of names.now) (tree.choice at (expr_tree test.now) (expr_tree yes.now) (expr_tree no.now))) }
{
    let known = both(
        value(alloc, test.get(), names),
        value(alloc, yes.get(), names),
    );
    let ((test, yes), no) = both(known, value(alloc, no.get(), names))?;
    Ok(choice_part(alloc, at, test, yes, no)?)
}

/// Set membership.
#[cycle(elab)]
fn membership(
    alloc: Global,
    at: u32,
    set: &[Range],
    left: &Boxed<Expr>,
    names: &NameSpace<'_, '_>,
) -> Result<Part, NoMemory>
    requires vars { length names.now.vars.now.entries < 2 ^ 32 }
    requires loops { LoopsFit (length names.now.loops.now) (tree.inside at (expr_tree left.now) (range_trees set.now)) }
    requires members { MembersFit (space_of names.now) }
    requires literals { LiteralsFit (tree.inside at (expr_tree left.now) (range_trees set.now)) }
    ensures { IfOk result (λ p. part_of p ≡ spec.elab first_one (space_of names.now) (tree.inside at (expr_tree left.now) (range_trees set.now))) }
{
    let left = value(alloc, left.get(), names);
    let set = ranges(alloc, set, names);
    let (left, set) = both(left, set)?;
    Ok(inside_part(alloc, at, left, set)?)
}

/// A replication.
#[cycle(elab)]
fn replication(
    alloc: Global,
    at: u32,
    list: &[Expr],
    count: &Boxed<Expr>,
    names: &NameSpace<'_, '_>,
) -> Result<Part, NoMemory>
    requires vars { length names.now.vars.now.entries < 2 ^ 32 }
    requires loops { LoopsFit (length names.now.loops.now) (tree.copies at (expr_tree count.now) (expr_trees list.now)) }
    requires members { MembersFit (space_of names.now) }
    requires literals { LiteralsFit (tree.copies at (expr_tree count.now) (expr_trees list.now)) }
    ensures { IfOk result (λ p. part_of p ≡ spec.elab first_one (space_of names.now) (tree.copies at (expr_tree count.now) (expr_trees list.now))) }
{
    let (count, list) = both(value(alloc, count.get(), names), parts(alloc, list, names))?;
    Ok(copies_part(alloc, at, count, list)?)
}

/// A reduction of an array.
#[cycle(elab)]
fn reduction(
    alloc: Global,
    at: u32,
    array: &Boxed<Expr>,
    fold: Fold,
    item: IteratorArgument,
    body: &Boxed<Expr>,
    names: &NameSpace<'_, '_>,
) -> Result<Part, NoMemory>
    requires vars { length names.now.vars.now.entries < 2 ^ 32 }
    requires loops { LoopsFit (length names.now.loops.now) (tree.reduce at (expr_tree array.now) fold item (expr_tree body.now)) }
    requires members { MembersFit (space_of names.now) }
    requires literals { LiteralsFit (tree.reduce at (expr_tree array.now) fold item (expr_tree body.now)) }
    ensures { IfOk result (λ p. part_of p ≡ spec.elab first_one (space_of names.now) (tree.reduce at (expr_tree array.now) fold item (expr_tree body.now))) }
{
    let array = elab(alloc, array.get(), names)?;
    let body = reduced(alloc, &array, item, body.get(), names);
    let (array, body) = beside(array, body)?;
    Ok(reduce_part(alloc, at, fold, sole(array), body)?)
}

/// The body of a reduction, in which one more name stands for an element.
#[cycle(elab)]
#[tactic(auto, using(crate::proofs::Walk::members_inside, crate::proofs::Walk::loops_inside, crate::proofs::Walk::body_is))]
fn reduced(
    alloc: Global,
    array: &Part,
    item: IteratorArgument,
    body: &Expr,
    names: &NameSpace<'_, '_>,
) -> Result<Part, NoMemory>
    requires vars { length names.now.vars.now.entries < 2 ^ 32 }
    requires loops { LoopsFit (length names.now.loops.now + 1) (expr_tree body.now) }
    requires members { MembersFit (space_of names.now) }
    requires literals { LiteralsFit (expr_tree body.now) }
    ensures { IfOk result (λ p. part_of p ≡ spec.value first_one (spec.body_space (space_of names.now) (part_of array.now) (argument_name item)) (expr_tree body.now)) }
{
    let loops = names.in_reduction(alloc, array.form.root.property(), item.name())?;
    let inner = names.with_loops(loops.as_slice());
    Ok(value(alloc, body, &inner)?)
}

/// What is known of an expression where a value is wanted, with its first refusal.
#[cycle(elab)]
pub fn value(alloc: Global, e: &Expr, names: &NameSpace<'_, '_>) -> Result<Part, NoMemory>
    requires vars { length names.now.vars.now.entries < 2 ^ 32 }
    requires loops { LoopsFit (length names.now.loops.now) (expr_tree e.now) }
    requires members { MembersFit (space_of names.now) }
    requires literals { LiteralsFit (expr_tree e.now) }
    ensures { IfOk result (λ p. part_of p ≡ spec.value first_one (space_of names.now) (expr_tree e.now)) }
{
    Ok(plain(elab(alloc, e, names)?))
}

#[cycle(elab)]
fn parts(alloc: Global, list: &[Expr], names: &NameSpace<'_, '_>) -> Result<Parts, NoMemory>
    requires vars { length names.now.vars.now.entries < 2 ^ 32 }
    requires loops { AllLoopsFit (length names.now.loops.now) (expr_trees list.now) }
    requires members { MembersFit (space_of names.now) }
    requires literals { AllFit (expr_trees list.now) }
    ensures { IfOk result (λ p. parts_of p ≡ spec.parts first_one (space_of names.now) (spec.no_parts first_one) (expr_trees list.now)) }
{
    let mut known = no_parts(alloc);
    for e in list {
        let part = value(alloc, e, names)?;
        known = and_part(known, part)?;
    }
    Ok(known)
}

/// The members of a set.
#[cycle(elab)]
pub fn ranges(
    alloc: Global,
    list: &[Range],
    names: &NameSpace<'_, '_>,
) -> Result<RangesPart, NoMemory>
    requires vars { length names.now.vars.now.entries < 2 ^ 32 }
    requires loops { RangesLoopsFit (length names.now.loops.now) (range_trees list.now) }
    requires members { MembersFit (space_of names.now) }
    requires literals { RangesFit (range_trees list.now) }
    ensures { IfOk result (λ p. ranges_part_of p ≡ spec.ranges first_one (space_of names.now) (spec.no_ranges first_one) (range_trees list.now)) }
{
    let mut known = no_ranges(alloc);
    for r in list {
        let part = range(alloc, r, names)?;
        known = and_range(known, part)?;
    }
    Ok(known)
}

/// A member of a set, which may be an array.
#[cycle(elab)]
pub fn range(alloc: Global, r: &Range, names: &NameSpace<'_, '_>) -> Result<RangePart, NoMemory>
    requires vars { length names.now.vars.now.entries < 2 ^ 32 }
    requires loops { RangeLoopsFit (length names.now.loops.now) (range_tree r.now) }
    requires members { MembersFit (space_of names.now) }
    requires literals { RangeFits (range_tree r.now) }
    ensures { IfOk result (λ p. range_part_of p ≡ spec.range first_one (space_of names.now) (range_tree r.now)) }
{
    match r {
        Range::One(e) => Ok(value_range(sole(elab(alloc, e, names)?))),
        Range::Span(low, high) => {
            let (low, high) = both(bound(alloc, low, names), bound(alloc, high, names))?;
            Ok(span_range(low, high))
        }
    }
}

/// A bound of a range.
#[cycle(elab)]
pub fn bound(alloc: Global, b: &Bound, names: &NameSpace<'_, '_>) -> Result<BoundPart, NoMemory>
    requires vars { length names.now.vars.now.entries < 2 ^ 32 }
    requires loops { BoundLoopsFit (length names.now.loops.now) (bound_tree b.now) }
    requires members { MembersFit (space_of names.now) }
    requires literals { BoundFits (bound_tree b.now) }
    ensures { IfOk result (λ p. bound_part_of p ≡ spec.bound first_one (space_of names.now) (bound_tree b.now)) }
{
    match b {
        Bound::Value(e) => Ok(value_bound(value(alloc, e, names)?)),
        Bound::Dollar => Ok(dollar_bound()),
    }
}
