//! The items that are tried.

ghost use Rattle.std.specs.Prelude.{◌≡◌, IfOk, map};
ghost use Rattle.svr_typed.specs.ExprTerm.{expr_term, range_term};
ghost use Rattle.svr_eval.specs.Operator as kind;
ghost use Rattle.svr_blast_tests.specs.declared.form.Form.TheVariants as form;
ghost use Rattle.svr_blast_tests.specs.Forms as spec;

use crate::form::Form;
use crate::held::{both, listed};
use sqlite_items::Items;
use std::alloc::Global;
use svr_eval::{BinaryKind, UnaryKind, binary_kind, unary_kind};
use svr_frame::Part;
use svr_operator::{BinOp, Fold, UnOp};
use svr_typed::{NoMemory, TBound, TExpr, TNode, TRange};

fn scalar(prop: u32) -> TExpr
    ensures { expr_term result ≡ spec.scalar prop }
{
    TExpr::new(4, false, TNode::prop(prop))
}

fn operand(alloc: Global, signed: bool, prop: u32) -> Result<TExpr, NoMemory>
    ensures { IfOk result (λ e. expr_term e ≡ spec.operand signed prop) }
{
    Ok(TExpr::new(4, signed, TNode::sign(alloc, signed, scalar(prop))?))
}

fn int(value: u64) -> TExpr
    ensures { expr_term result ≡ spec.int value }
{
    TExpr::new(32, true, TNode::number(value, false))
}

fn byte(value: u64) -> TExpr
    ensures { expr_term result ≡ spec.byte value }
{
    TExpr::new(8, false, TNode::number(value, false))
}

fn equal(alloc: Global, left: TExpr, right: TExpr) -> Result<TExpr, NoMemory>
    ensures { IfOk result (λ e. expr_term e ≡ spec.equal (expr_term left) (expr_term right)) }
{
    Ok(TExpr::new(1, false, TNode::binary(alloc, BinOp::Equal, left, right)?))
}

fn is_z(alloc: Global, left: TExpr) -> Result<TExpr, NoMemory>
    ensures { IfOk result (λ e. expr_term e ≡ spec.is_z (expr_term left)) }
{
    equal(alloc, left, scalar(2))
}

fn binary_width(op: BinOp) -> u8
    ensures { result ≡ kind.binary_size (kind.binary_kind op) 4 4 }
{
    match binary_kind(op) {
        BinaryKind::InContext(_) | BinaryKind::Shifted(_) => 4,
        BinaryKind::ByPair(_) | BinaryKind::Logical(_) => 1,
    }
}

fn binary_sign(op: BinOp, signed: bool) -> bool
    ensures { result ≡ kind.binary_sign (kind.binary_kind op) signed signed }
{
    match binary_kind(op) {
        BinaryKind::InContext(_) | BinaryKind::Shifted(_) => signed,
        BinaryKind::ByPair(_) | BinaryKind::Logical(_) => false,
    }
}

fn applied(alloc: Global, op: BinOp, signed: bool) -> Result<TExpr, NoMemory>
    ensures { IfOk result (λ e. expr_term e ≡ spec.applied op signed) }
{
    let (left, right) = both(operand(alloc, signed, 0), operand(alloc, signed, 1))?;
    let node = TNode::binary(alloc, op, left, right)?;
    Ok(TExpr::new(binary_width(op), binary_sign(op, signed), node))
}

fn unary_width(op: UnOp) -> u8
    ensures { result ≡ kind.unary_size (kind.unary_kind op) 4 }
{
    match unary_kind(op) {
        UnaryKind::Changed(_) => 4,
        UnaryKind::Reduced(_) => 1,
    }
}

fn unary_sign(op: UnOp, signed: bool) -> bool
    ensures { result ≡ kind.unary_sign (kind.unary_kind op) signed }
{
    match unary_kind(op) {
        UnaryKind::Changed(_) => signed,
        UnaryKind::Reduced(_) => false,
    }
}

fn applied_one(alloc: Global, op: UnOp, signed: bool) -> Result<TExpr, NoMemory>
    ensures { IfOk result (λ e. expr_term e ≡ spec.applied_one op signed) }
{
    let arg = operand(alloc, signed, 0)?;
    let node = TNode::unary(alloc, op, arg)?;
    Ok(TExpr::new(unary_width(op), unary_sign(op, signed), node))
}

fn join(alloc: Global, high: u32, low: u32) -> Result<TExpr, NoMemory>
    ensures { IfOk result (λ e. expr_term e ≡ spec.join_of high low) }
{
    let parts = listed(alloc, [scalar(high), scalar(low)])?;
    Ok(TExpr::new(8, false, TNode::join(parts)))
}

fn difference(alloc: Global, left: TExpr, right: TExpr) -> Result<TExpr, NoMemory>
    ensures { IfOk result (λ e. expr_term e ≡ spec.difference (expr_term left) (expr_term right)) }
{
    Ok(TExpr::new(
        8,
        false,
        TNode::binary(alloc, BinOp::Subtract, left, right)?,
    ))
}

fn row_at(alloc: Global, index: TExpr) -> Result<TExpr, NoMemory>
    ensures { IfOk result (λ e. expr_term e ≡ spec.row_at (expr_term index)) }
{
    Ok(TExpr::new(2, false, TNode::element(alloc, 3, index)?))
}

fn size() -> TExpr
    ensures { expr_term result ≡ spec.size_of_q }
{
    TExpr::new(32, true, TNode::size(5, 1))
}

fn choice(alloc: Global) -> Result<TExpr, NoMemory>
    ensures { IfOk result (λ e. expr_term e ≡ spec.item_of form.Choice) }
{
    let five = TExpr::new(4, false, TNode::number(5, false));
    let node = TNode::choice(alloc, scalar(0), scalar(1), five)?;
    is_z(alloc, TExpr::new(4, false, node))
}

/// `{y, [-3:1], [z:$]}`
fn set(alloc: Global, signed: bool) -> Result<Items<TRange>, NoMemory>
    ensures { IfOk result (λ set. map range_term set ≡ spec.set_of signed) }
{
    let (value, least) = both(operand(alloc, signed, 1), operand(alloc, signed, 2))?;
    let low = TBound::value(int(4_294_967_293));
    let span = TRange::span(low, TBound::value(int(1)));
    let rest = TRange::span(TBound::value(least), TBound::dollar());
    listed(alloc, [TRange::one(value), span, rest])
}

fn inside(alloc: Global, signed: bool) -> Result<TExpr, NoMemory>
    ensures { IfOk result (λ e. expr_term e ≡ spec.item_of (form.Inside signed)) }
{
    let (left, set) = both(operand(alloc, signed, 0), set(alloc, signed))?;
    let node = TNode::inside(alloc, left, set)?;
    Ok(TExpr::new(1, false, node))
}

fn among_elements(alloc: Global) -> Result<TExpr, NoMemory>
    ensures { IfOk result (λ e. expr_term e ≡ spec.item_of form.Array) }
{
    let row = TRange::one(TExpr::new(2, false, TNode::prop(3)));
    let set = listed(alloc, [row])?;
    let node = TNode::inside(alloc, scalar(0), set)?;
    Ok(TExpr::new(1, false, node))
}

fn joined(alloc: Global) -> Result<TExpr, NoMemory>
    ensures { IfOk result (λ e. expr_term e ≡ spec.item_of form.Join) }
{
    let (left, right) = both(join(alloc, 0, 1), join(alloc, 1, 2))?;
    let difference = difference(alloc, left, right)?;
    equal(alloc, difference, byte(7))
}

/// `{2{x}}`
fn twice(alloc: Global) -> Result<TExpr, NoMemory>
    ensures { IfOk result (λ e. expr_term e ≡ spec.twice_x) }
{
    let parts = listed(alloc, [scalar(0)])?;
    let node = TNode::copies(alloc, int(2), parts)?;
    Ok(TExpr::new(8, false, node))
}

fn copied(alloc: Global) -> Result<TExpr, NoMemory>
    ensures { IfOk result (λ e. expr_term e ≡ spec.item_of form.Copies) }
{
    let (left, right) = both(twice(alloc), join(alloc, 1, 2))?;
    let difference = difference(alloc, left, right)?;
    equal(alloc, difference, byte(3))
}

fn bit(alloc: Global, index: TExpr, low: i64) -> Result<TExpr, NoMemory>
    ensures { IfOk result (λ e. expr_term e ≡ spec.bit_of_x (expr_term index) low) }
{
    let node = TNode::bit_select(alloc, scalar(0), index, low)?;
    is_z(alloc, TExpr::new(1, false, node))
}

fn bits(alloc: Global) -> Result<TExpr, NoMemory>
    ensures { IfOk result (λ e. expr_term e ≡ spec.item_of form.Bits) }
{
    let node = TNode::part_select(alloc, scalar(0), int(2), int(1), 0)?;
    is_z(alloc, TExpr::new(2, false, node))
}

fn every(alloc: Global) -> Result<TExpr, NoMemory>
    ensures { IfOk result (λ e. expr_term e ≡ spec.item_of form.Every) }
{
    let ones = TExpr::new(1, false, TNode::number(1, true));
    let node = TNode::binary(alloc, BinOp::BitwiseXor, scalar(0), ones)?;
    is_z(alloc, TExpr::new(4, false, node))
}

fn script(alloc: Global) -> Result<TExpr, NoMemory>
    ensures { IfOk result (λ e. expr_term e ≡ spec.item_of form.Script) }
{
    let variable = TExpr::new(4, false, TNode::script(0));
    let node = TNode::binary(alloc, BinOp::Add, scalar(0), variable)?;
    is_z(alloc, TExpr::new(4, false, node))
}

fn cell(alloc: Global) -> Result<TExpr, NoMemory>
    ensures { IfOk result (λ e. expr_term e ≡ spec.item_of form.Cell) }
{
    let node = TNode::cell(alloc, 4, 2, scalar(0), scalar(1))?;
    is_z(alloc, TExpr::new(1, false, node))
}

fn reduced(alloc: Global, op: Fold) -> Result<TExpr, NoMemory>
    ensures { IfOk result (λ e. expr_term e ≡ spec.item_of (form.Reduce op)) }
{
    let index = TExpr::new(32, true, TNode::loop_index(0));
    let node = TNode::reduce(alloc, 3, op, row_at(alloc, index)?)?;
    is_z(alloc, TExpr::new(2, false, node))
}

fn size_and_x(alloc: Global) -> Result<TExpr, NoMemory>
    ensures { IfOk result (λ e. expr_term e ≡ spec.item_of form.Size) }
{
    let node = TNode::binary(alloc, BinOp::Add, size(), scalar(0))?;
    is_z(alloc, TExpr::new(32, false, node))
}

fn element(alloc: Global, index: TExpr) -> Result<TExpr, NoMemory>
    ensures { IfOk result (λ e. expr_term e ≡ spec.is_z (spec.row_at (expr_term index))) }
{
    is_z(alloc, row_at(alloc, index)?)
}

/// `d[x] == z`
fn element_at_x(alloc: Global, signed: bool) -> Result<TExpr, NoMemory>
    ensures { IfOk result (λ e. expr_term e ≡ spec.item_of (form.Element signed)) }
{
    let index = operand(alloc, signed, 0)?;
    element(alloc, index)
}

/// `(x op y) == z`
fn binary(alloc: Global, op: BinOp, signed: bool) -> Result<TExpr, NoMemory>
    ensures { IfOk result (λ e. expr_term e ≡ spec.item_of (form.Binary op signed)) }
{
    let (left, z) = both(applied(alloc, op, signed), operand(alloc, signed, 2))?;
    equal(alloc, left, z)
}

/// `(op x) == z`
fn unary(alloc: Global, op: UnOp, signed: bool) -> Result<TExpr, NoMemory>
    ensures { IfOk result (λ e. expr_term e ≡ spec.item_of (form.Unary op signed)) }
{
    let (left, z) = both(applied_one(alloc, op, signed), operand(alloc, signed, 2))?;
    equal(alloc, left, z)
}

/// The item of a form.
pub(crate) fn item(alloc: Global, form: Form) -> Result<TExpr, NoMemory>
    ensures { IfOk result (λ e. expr_term e ≡ spec.item_of form) }
{
    match form {
        Form::Binary { op, signed } => binary(alloc, op, signed),
        Form::Unary { op, signed } => unary(alloc, op, signed),
        Form::Choice => choice(alloc),
        Form::Inside { signed } => inside(alloc, signed),
        Form::Array => among_elements(alloc),
        Form::Join => joined(alloc),
        Form::Copies => copied(alloc),
        Form::Bit => bit(alloc, int(3), 1),
        Form::Bits => bits(alloc),
        Form::Every => every(alloc),
        Form::Script => script(alloc),
        Form::Element { signed } => element_at_x(alloc, signed),
        Form::ElementAt => element(alloc, int(1)),
        Form::Cell => cell(alloc),
        Form::Reduce { op } => reduced(alloc, op),
        Form::Size => size_and_x(alloc),
        Form::SizedElement => element(alloc, size()),
        Form::SizedBit => bit(alloc, size(), 0),
        Form::KnownElement => element(alloc, scalar(0)),
    }
}

/// The phase that the item is asked in.
pub(crate) fn part_of(form: Form) -> Part
    ensures { result ≡ spec.part_of form }
{
    match form {
        Form::Binary { .. }
        | Form::Unary { .. }
        | Form::Choice
        | Form::Inside { .. }
        | Form::Array
        | Form::Join
        | Form::Copies
        | Form::Bit
        | Form::Bits
        | Form::Every
        | Form::Script
        | Form::Element { .. }
        | Form::ElementAt
        | Form::Cell
        | Form::Reduce { .. } => Part::All,
        Form::Size | Form::SizedElement | Form::SizedBit | Form::KnownElement => Part::Sizes,
    }
}
