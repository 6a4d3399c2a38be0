// With ample memory each tree is made.

use sqlite_items::Items;
use std::alloc::{AllocError, Global};
use std::test::Fail;
use svr_operator::{BinOp, Fold, UnOp};
use svr_typed::{NoMemory, TExpr, TNode, TRange, TStmt, Text};

/// A node with other nodes below it.
enum Form {
    Element,
    Cell,
    OfObject,
    BitSelect,
    PartSelect,
    Unary,
    Binary,
    Sign,
    Reduce,
    Choice,
    Inside,
    Copies,
}

const FORMS: [Form; 12] = [
    Form::Element,
    Form::Cell,
    Form::OfObject,
    Form::BitSelect,
    Form::PartSelect,
    Form::Unary,
    Form::Binary,
    Form::Sign,
    Form::Reduce,
    Form::Choice,
    Form::Inside,
    Form::Copies,
];

fn number(value: u64) -> TExpr {
    TExpr::new(32, true, TNode::number(value, false))
}

fn node(alloc: Global, form: &Form) -> Result<TNode, NoMemory> {
    match form {
        Form::Element => TNode::element(alloc, 0, number(1)),
        Form::Cell => TNode::cell(alloc, 0, 3, number(1), number(2)),
        Form::OfObject => TNode::of_object(alloc, 0, number(1)),
        Form::BitSelect => TNode::bit_select(alloc, number(1), number(2), 0),
        Form::PartSelect => TNode::part_select(alloc, number(1), number(2), number(3), 0),
        Form::Unary => TNode::unary(alloc, UnOp::Minus, number(1)),
        Form::Binary => TNode::binary(alloc, BinOp::Add, number(1), number(2)),
        Form::Sign => TNode::sign(alloc, true, number(1)),
        Form::Reduce => TNode::reduce(alloc, 0, Fold::Sum, number(1)),
        Form::Choice => TNode::choice(alloc, number(1), number(2), number(3)),
        Form::Inside => TNode::inside(alloc, number(1), Items::<TRange>::new(alloc)),
        Form::Copies => TNode::copies(alloc, number(1), Items::<TExpr>::new(alloc)),
    }
}

fn is_made<T: Drop>(made: Result<T, NoMemory>) -> bool {
    made.is_ok()
}

#[test]
fn nodes_are_made(rt: HostRuntime) {
    for form in &FORMS {
        assert!(rt; is_made(node(rt.alloc(), form)));
    }
}

#[test]
fn statements_are_made(rt: HostRuntime) {
    assert!(rt; is_made(TStmt::repeat(rt.alloc(), 3, TStmt::make(0))));
}

fn keeps_bytes(alloc: Global, bytes: &[u8]) -> Result<bool, AllocError> {
    let text = Text::from_vec(bytes.to_vec(alloc)?);
    let is_kept = text.as_bytes() == bytes;
    let found = text.into_vec();
    Ok(is_kept && found.as_slice() == bytes)
}

#[test]
fn text_keeps_its_bytes(rt: HostRuntime) -> Result<(), Fail> {
    assert!(rt; keeps_bytes(rt.alloc(), b"lo_1")?);
    Ok(())
}
