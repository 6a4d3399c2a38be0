// The place of an element of an array of two dimensions among all its elements.

ghost use Rattle.std.specs.Prelude.{◌≡◌, ◌*◌, false, IfOk};
ghost use Rattle.svr_typed.specs.ExprTerm as term;
ghost use Rattle.svr_typed.specs.ExprTerm.{expr_term};
ghost use Rattle.svr_elab_part.specs.Shapes as shapes;

use crate::held::{beside, both};
use std::alloc::Global;
use svr_flat::copy_expr;
use svr_operator::BinOp;
use svr_typed::{NoMemory, TExpr, TNode};

/// A number of 64 bits, unsigned.
fn wide_number(value: u64) -> TExpr
    ensures { expr_term result ≡ shapes.wide_number value }
{
    TExpr::new(64, false, TNode::number(value, false))
}

fn wide_binary(alloc: Global, op: BinOp, left: TExpr, right: TExpr) -> Result<TExpr, NoMemory>
    ensures { IfOk result (λ t. expr_term t ≡ shapes.wide_binary op (expr_term left) (expr_term right)) }
{
    Ok(TExpr::new(64, false, TNode::binary(alloc, op, left, right)?))
}

fn truth_of(alloc: Global, op: BinOp, left: TExpr, right: TExpr) -> Result<TExpr, NoMemory>
    ensures { IfOk result (λ t. expr_term t ≡ shapes.truth_of op (expr_term left) (expr_term right)) }
{
    Ok(TExpr::new(1, false, TNode::binary(alloc, op, left, right)?))
}

/// An index extended to 64 bits by its own sign, and then taken as unsigned.
#[tactic(auto, using(crate::proofs::Constants::sign_stored))]
fn widened(alloc: Global, index: TExpr) -> Result<TExpr, NoMemory>
    ensures { IfOk result (λ t. expr_term t ≡ shapes.widened (expr_term index)) }
{
    let signed = index.signed;
    let zero = TExpr::new(64, signed, TNode::number(0, false));
    let wide = TNode::binary(alloc, BinOp::BitwiseOr, index, zero)?;
    let node = TNode::sign(alloc, false, TExpr::new(64, signed, wide))?;
    Ok(TExpr::new(64, false, node))
}

/// Whether both indexes are inside their dimensions.
fn is_inside(
    alloc: Global,
    rows: u32,
    inner: u32,
    row: TExpr,
    column: TExpr,
) -> Result<TExpr, NoMemory>
    ensures { IfOk result (λ t. expr_term t ≡ shapes.is_inside rows inner (expr_term row) (expr_term column)) }
{
    let row_fits = truth_of(alloc, BinOp::Less, row, wide_number(u64::from(rows)));
    let column_fits = truth_of(alloc, BinOp::Less, column, wide_number(u64::from(inner)));
    let (row_fits, column_fits) = both(row_fits, column_fits)?;
    truth_of(alloc, BinOp::LogicalAnd, row_fits, column_fits)
}

/// Row times row length plus column.
fn row_by_row(alloc: Global, inner: u32, row: TExpr, column: TExpr) -> Result<TExpr, NoMemory>
    ensures { IfOk result (λ t. expr_term t ≡ shapes.row_by_row inner (expr_term row) (expr_term column)) }
{
    let before = wide_binary(alloc, BinOp::Multiply, row, wide_number(u64::from(inner)));
    let (column, before) = beside(column, before)?;
    wide_binary(alloc, BinOp::Add, before, column)
}

/// Whether both indexes, which stay, are inside their dimensions.
fn are_inside(
    alloc: Global,
    rows: u32,
    inner: u32,
    row: &TExpr,
    column: &TExpr,
) -> Result<TExpr, NoMemory>
    ensures { IfOk result (λ t. expr_term t ≡ shapes.is_inside rows inner (expr_term row.now) (expr_term column.now)) }
{
    let (row, column) = both(copy_expr(alloc, row), copy_expr(alloc, column))?;
    is_inside(alloc, rows, inner, row, column)
}

/// The place by indexes of 64 bits.
fn place_of_wide(
    alloc: Global,
    rows: u32,
    inner: u32,
    row: TExpr,
    column: TExpr,
) -> Result<TExpr, NoMemory>
    ensures { IfOk result (λ t. expr_term t ≡ term.typed 64 false (term.choice (shapes.is_inside rows inner (expr_term row) (expr_term column)) (shapes.row_by_row inner (expr_term row) (expr_term column)) (shapes.wide_number (rows * inner)))) }
{
    let test = are_inside(alloc, rows, inner, &row, &column);
    let place = row_by_row(alloc, inner, row, column);
    let (test, place) = both(test, place)?;
    let past = wide_number(u64::from(rows) * u64::from(inner));
    Ok(TExpr::new(64, false, TNode::choice(alloc, test, place, past)?))
}

/// The place of an element of so many rows of `inner` elements; past the last one where an index is outside its dimension.
pub fn place_tree(
    alloc: Global,
    rows: u32,
    inner: u32,
    row: TExpr,
    column: TExpr,
) -> Result<TExpr, NoMemory>
    ensures { IfOk result (λ t. expr_term t ≡ shapes.place_tree rows inner (expr_term row) (expr_term column)) }
{
    let (row, column) = both(widened(alloc, row), widened(alloc, column))?;
    place_of_wide(alloc, rows, inner, row, column)
}
