// Operators, and where a value is wanted.

ghost use Rattle.std.specs.Prelude.{◌≡◌, IfOk, option_map};
ghost use Rattle.svr_typed.specs.ExprTerm as term;
ghost use Rattle.svr_typed.specs.ExprTerm.{expr_term, node_term};
ghost use Rattle.svr_elab_fault.specs.Refusals.{first_one};
ghost use Rattle.svr_elab_part.specs.Elab as spec;
ghost use Rattle.svr_elab_part.specs.Seen.{part_of};
ghost use Rattle.svr_elab_part.specs.Shapes as shapes;
ghost use Rattle.svr_elab_part.specs.Forms as forms;

use std::alloc::Global;
use svr_elab_fault::{Fault, earlier, when};
use svr_elab_part::{
    Form, Part, Reads, Shape, binary_shape, choice_shape, sign_shape, typed_as, unary_shape,
};
use svr_operator::{BinOp, UnOp};
use svr_refusal::Refusal;
use svr_typed::{NoMemory, TExpr, TNode};

/// An expression where a value is wanted: neither an array, which is left out, nor an object variable, which names no value.
pub fn plain(part: Part) -> Part
    ensures { part_of result ≡ spec.plain first_one (part_of part) }
{
    let form = part.form;
    let own = earlier(
        when(!form.extent.is_single(), form.name, Refusal::LeftOut),
        when(form.root.is_object(), form.name, Refusal::UnknownName),
    );
    Part {
        fault: earlier(part.fault, own),
        form: form.plain(),
        ..part
    }
}

/// An expression where an array may stand as well, but no row of one.
pub fn sole(part: Part) -> Part
    ensures { part_of result ≡ spec.sole first_one (part_of part) }
{
    let form = part.form;
    let own = earlier(
        when(form.extent.is_row(), form.name, Refusal::LeftOut),
        when(form.root.is_object(), form.name, Refusal::UnknownName),
    );
    Part {
        fault: earlier(part.fault, own),
        form: form.sole(),
        ..part
    }
}

/// A select with `()` behind it where `call`, which none may have.
pub fn with_parens(call: bool, part: Part) -> Part
    ensures { part_of result ≡ spec.with_parens first_one call (part_of part) }
{
    Part {
        fault: earlier(part.fault, when(call, part.form.name, Refusal::UnknownName)),
        ..part
    }
}

/// An expression in parentheses, which are no node.
pub fn paren_part(at: u32, part: Part) -> Part
    ensures { part_of result ≡ spec.paren_part first_one at (part_of part) }
{
    Part { at, ..part }
}

fn unary_node(alloc: Global, op: UnOp, arg: Option<TExpr>) -> Result<Option<TNode>, NoMemory>
    ensures { IfOk result (λ n. option_map node_term n ≡ option_map (term.unary op) (option_map expr_term arg)) }
{
    match arg {
        None => Ok(None),
        Some(arg) => Ok(Some(TNode::unary(alloc, op, arg)?)),
    }
}

fn sign_node(alloc: Global, signed: bool, arg: Option<TExpr>) -> Result<Option<TNode>, NoMemory>
    ensures { IfOk result (λ n. option_map node_term n ≡ option_map (term.sign signed) (option_map expr_term arg)) }
{
    match arg {
        None => Ok(None),
        Some(arg) => Ok(Some(TNode::sign(alloc, signed, arg)?)),
    }
}

fn binary_node(
    alloc: Global,
    op: BinOp,
    left: Option<TExpr>,
    right: Option<TExpr>,
) -> Result<Option<TNode>, NoMemory>
    ensures { IfOk result (λ n. option_map node_term n ≡ shapes.both_known (term.binary op) (option_map expr_term left) (option_map expr_term right)) }
{
    match left.zip(right) {
        None => Ok(None),
        Some((left, right)) => Ok(Some(TNode::binary(alloc, op, left, right)?)),
    }
}

fn choice_node(
    alloc: Global,
    test: Option<TExpr>,
    yes: Option<TExpr>,
    no: Option<TExpr>,
) -> Result<Option<TNode>, NoMemory>
    ensures { IfOk result (λ n. option_map node_term n ≡ shapes.all_known term.choice (option_map expr_term test) (option_map expr_term yes) (option_map expr_term no)) }
{
    match test.zip(yes).zip(no) {
        None => Ok(None),
        Some(((test, yes), no)) => Ok(Some(TNode::choice(alloc, test, yes, no)?)),
    }
}

/// What is known of a node that is neither a path nor a select.
pub(crate) fn node_part(
    at: u32,
    shape: Option<Shape>,
    node: Option<TNode>,
    fault: Option<Fault>,
    reads: Reads,
) -> Part
    ensures { part_of result ≡ record { at = at; shape = shape; tree = shapes.typed_as shape (option_map node_term node); faults = fault; reads = reads; form = forms.other_form at } }
{
    Part {
        at,
        shape,
        tree: typed_as(shape, node),
        fault,
        reads,
        form: Form::other(at),
    }
}

/// A unary operator (IEEE 1800-2017, 11.4).
pub fn unary_part(alloc: Global, at: u32, op: UnOp, part: Part) -> Result<Part, NoMemory>
    ensures { IfOk result (λ p. part_of p ≡ spec.unary_part first_one at op (part_of part)) }
{
    let shape = unary_shape(op, part.shape);
    let node = unary_node(alloc, op, part.tree)?;
    Ok(node_part(at, shape, node, part.fault, part.reads))
}

/// A binary operator (IEEE 1800-2017, 11.4).
pub fn binary_part(
    alloc: Global,
    at: u32,
    op: BinOp,
    left: Part,
    right: Part,
) -> Result<Part, NoMemory>
    ensures { IfOk result (λ p. part_of p ≡ spec.binary_part first_one at op (part_of left) (part_of right)) }
{
    let shape = binary_shape(op, left.shape, right.shape);
    let node = binary_node(alloc, op, left.tree, right.tree)?;
    let fault = earlier(left.fault, right.fault);
    Ok(node_part(at, shape, node, fault, left.reads.and(right.reads)))
}

/// `test ? yes : no` (IEEE 1800-2017, 11.4.11).
pub fn choice_part(
    alloc: Global,
    at: u32,
    test: Part,
    yes: Part,
    no: Part,
) -> Result<Part, NoMemory>
    ensures { IfOk result (λ p. part_of p ≡ spec.choice_part first_one at (part_of test) (part_of yes) (part_of no)) }
{
    let shape = choice_shape(yes.shape, no.shape);
    let node = choice_node(alloc, test.tree, yes.tree, no.tree)?;
    let fault = earlier(test.fault, earlier(yes.fault, no.fault));
    let reads = test.reads.and(yes.reads.and(no.reads));
    Ok(node_part(at, shape, node, fault, reads))
}

/// `$signed` or `$unsigned` (IEEE 1800-2017, 20.5).
pub fn sign_part(alloc: Global, at: u32, signed: bool, part: Part) -> Result<Part, NoMemory>
    ensures { IfOk result (λ p. part_of p ≡ spec.sign_part first_one at signed (part_of part)) }
{
    let shape = sign_shape(signed, part.shape);
    let node = sign_node(alloc, signed, part.tree)?;
    Ok(node_part(at, shape, node, part.fault, part.reads))
}
