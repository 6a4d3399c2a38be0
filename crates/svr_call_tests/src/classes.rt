// With ample memory each copy is made, and a class is flattened.

use crate::held::{both, is_made, let_go, listed, pushed};
use sqlite_items::Items;
use std::alloc::Global;
use svr_flat::{copy_expr, copy_item, flatten};
use svr_operator::{BinOp, Fold, Rand, Share, UnOp};
use svr_typed::{
    ArrayKind, Design, EnumType, FlatClass, NoMemory, NumType, Prop, TBlock, TBound, TClass,
    TDistItem, TExpr, TItem, TNode, TRange, TStmt, TVar, Text,
};

/// An expression with others below it.
enum Form {
    Element,
    Cell,
    Reduce,
    OfObject,
    BitSelect,
    PartSelect,
    Unary,
    Binary,
    Choice,
    Inside,
    Join,
    Copies,
    Sign,
}

const FORMS: [Form; 13] = [
    Form::Element,
    Form::Cell,
    Form::Reduce,
    Form::OfObject,
    Form::BitSelect,
    Form::PartSelect,
    Form::Unary,
    Form::Binary,
    Form::Choice,
    Form::Inside,
    Form::Join,
    Form::Copies,
    Form::Sign,
];

fn number(value: u64) -> TExpr {
    TExpr::new(32, true, TNode::number(value, false))
}

fn one_range(alloc: Global) -> Result<Items<TRange>, NoMemory> {
    let low = TBound::value(number(1));
    listed(alloc, [TRange::span(low, TBound::dollar())])
}

fn one_part(alloc: Global) -> Result<Items<TExpr>, NoMemory> {
    listed(alloc, [number(1)])
}

fn inside(alloc: Global) -> Result<TNode, NoMemory> {
    let set = one_range(alloc)?;
    TNode::inside(alloc, number(1), set)
}

fn copies(alloc: Global) -> Result<TNode, NoMemory> {
    let parts = one_part(alloc)?;
    TNode::copies(alloc, number(1), parts)
}

fn node(alloc: Global, form: &Form) -> Result<TNode, NoMemory> {
    match form {
        Form::Element => TNode::element(alloc, 0, number(1)),
        Form::Cell => TNode::cell(alloc, 0, 2, number(1), number(2)),
        Form::Reduce => TNode::reduce(alloc, 0, Fold::Sum, number(1)),
        Form::OfObject => TNode::of_object(alloc, 0, number(1)),
        Form::BitSelect => TNode::bit_select(alloc, number(1), number(2), 0),
        Form::PartSelect => TNode::part_select(alloc, number(1), number(2), number(3), 0),
        Form::Unary => TNode::unary(alloc, UnOp::Minus, number(1)),
        Form::Binary => TNode::binary(alloc, BinOp::Add, number(1), number(2)),
        Form::Choice => TNode::choice(alloc, number(1), number(2), number(3)),
        Form::Inside => inside(alloc),
        Form::Join => Ok(TNode::join(one_part(alloc)?)),
        Form::Copies => copies(alloc),
        Form::Sign => TNode::sign(alloc, true, number(1)),
    }
}

fn expr(alloc: Global, form: &Form) -> Result<TExpr, NoMemory> {
    let node = node(alloc, form)?;
    Ok(TExpr::new(32, true, node))
}

fn is_copied(alloc: Global, form: &Form) -> bool {
    let e = expr(alloc, form);
    let is_so = match &e {
        Ok(e) => is_made(copy_expr(alloc, e)),
        Err(_) => false,
    };
    let_go(e);
    is_so
}

#[test]
fn expressions_are_copied(rt: HostRuntime) {
    for form in &FORMS {
        assert!(rt; is_copied(rt.alloc(), form));
    }
}

/// A constraint item with expressions or items below it.
enum ItemForm {
    Plain,
    Unique,
    Implies,
    Branch,
    BranchElse,
    Foreach,
    Disable,
    Solve,
}

const ITEM_FORMS: [ItemForm; 8] = [
    ItemForm::Plain,
    ItemForm::Unique,
    ItemForm::Implies,
    ItemForm::Branch,
    ItemForm::BranchElse,
    ItemForm::Foreach,
    ItemForm::Disable,
    ItemForm::Solve,
];

/// The item `value`.
fn one_item(alloc: Global, value: u64) -> Result<Items<TItem>, NoMemory> {
    listed(alloc, [TItem::plain(false, number(value), None)])
}

fn one_member(alloc: Global) -> Result<Items<TDistItem>, NoMemory> {
    let weight = Some((Share::Whole, number(3)));
    listed(alloc, [TDistItem::new(TRange::one(number(1)), weight)])
}

fn dist(alloc: Global) -> Result<TItem, NoMemory> {
    let dist = one_member(alloc)?;
    Ok(TItem::plain(true, number(1), Some(dist)))
}

fn branch_else(alloc: Global) -> Result<TItem, NoMemory> {
    let (body, other) = both(one_item(alloc, 1), one_item(alloc, 1))?;
    Ok(TItem::branch_else(number(1), body, other))
}

fn solve(alloc: Global) -> Result<TItem, NoMemory> {
    let (parts, later) = both(one_part(alloc), one_part(alloc))?;
    Ok(TItem::solve(parts, later))
}

fn with_body(alloc: Global, form: &ItemForm) -> Result<TItem, NoMemory> {
    let body = one_item(alloc, 1)?;
    Ok(match form {
        ItemForm::Implies => TItem::implies(number(1), body),
        ItemForm::Foreach => TItem::foreach(0, 1, 1, body),
        _ => TItem::branch(number(1), body),
    })
}

fn item(alloc: Global, form: &ItemForm) -> Result<TItem, NoMemory> {
    match form {
        ItemForm::Plain => dist(alloc),
        ItemForm::Unique => Ok(TItem::unique(one_part(alloc)?)),
        ItemForm::BranchElse => branch_else(alloc),
        ItemForm::Disable => Ok(TItem::disable(number(1))),
        ItemForm::Solve => solve(alloc),
        ItemForm::Implies | ItemForm::Branch | ItemForm::Foreach => with_body(alloc, form),
    }
}

fn is_item_copied(alloc: Global, form: &ItemForm) -> bool {
    let item = item(alloc, form);
    let is_so = match &item {
        Ok(item) => is_made(copy_item(alloc, item)),
        Err(_) => false,
    };
    let_go(item);
    is_so
}

#[test]
fn items_are_copied(rt: HostRuntime) {
    for form in &ITEM_FORMS {
        assert!(rt; is_item_copied(rt.alloc(), form));
    }
}

fn name(alloc: Global, letter: u8) -> Result<Text, NoMemory> {
    Ok(Text::from_vec(Vec::from_slice(alloc, &[letter])?))
}

fn bit(alloc: Global, letter: u8) -> Result<Prop, NoMemory> {
    Ok(Prop {
        name: name(alloc, letter)?,
        kind: NumType {
            width: 1,
            signed: false,
            members: None,
        },
        rand: Rand::Rand,
        array: ArrayKind::Scalar,
        first: 0,
        low: 0,
        can: true,
        inner: 1,
    })
}

fn block(alloc: Global, letter: u8, value: u64) -> Result<TBlock, NoMemory> {
    let (name, items) = both(name(alloc, letter), one_item(alloc, value))?;
    Ok(TBlock::new(name, items))
}

fn blocks(alloc: Global, letters: &[u8], value: u64) -> Result<Items<TBlock>, NoMemory> {
    let mut blocks = Items::<TBlock>::new(alloc);
    for letter in letters {
        blocks = pushed(blocks, block(alloc, *letter, value))?;
    }
    Ok(blocks)
}

/// A class with a property, and a block for each letter.
fn class(
    alloc: Global,
    base: Option<u32>,
    prop: u8,
    letters: &[u8],
    value: u64,
) -> Result<TClass, NoMemory> {
    let prop = bit(alloc, prop)?;
    let parts = both(listed(alloc, [prop]), blocks(alloc, letters, value));
    let (name, (props, blocks)) = both(name(alloc, b'C'), parts)?;
    Ok(TClass::new(name, base, props, blocks))
}

/// D extends B; both have a block c, and B has a block e behind it.
fn two_classes(alloc: Global) -> Result<Items<TClass>, NoMemory> {
    let base = class(alloc, None, b'x', b"ce", 0);
    let (base, derived) = both(base, class(alloc, Some(0), b'a', b"c", 1))?;
    listed(alloc, [base, derived])
}

fn design(alloc: Global) -> Result<Design, NoMemory> {
    let classes = two_classes(alloc)?;
    Ok(Design::new(
        Items::<EnumType>::new(alloc),
        classes,
        Items::<TVar>::new(alloc),
        Items::<TStmt>::new(alloc),
    ))
}

/// Whether the item is just this number.
fn is_number(item: &TItem, wanted: u64) -> bool {
    let TItem::Plain { expr, .. } = item else {
        return false;
    };
    match &expr.node {
        TNode::Number { value, .. } => *value == wanted,
        _ => false,
    }
}

/// Whether the block has this name, and items that are this number.
fn is_block(block: &TBlock, letter: u8, wanted: u64) -> bool {
    for item in block.items.as_slice() {
        if !is_number(item, wanted) {
            return false;
        }
    }
    block.name.as_bytes() == [letter].as_slice()
}

/// Whether the properties are x and a.
fn has_both_properties(flat: &FlatClass) -> bool {
    match flat.props.as_slice() {
        [x, a] => x.name.as_bytes() == b"x".as_slice() && a.name.as_bytes() == b"a".as_slice(),
        _ => false,
    }
}

fn has_own_block_last(flat: &FlatClass) -> bool {
    match flat.blocks.as_slice() {
        [first, last] => is_block(first, b'e', 0) && is_block(last, b'c', 1),
        _ => false,
    }
}

/// Whether the derived class has its own block last, and a number of no class has nothing.
fn is_flat(flat: &FlatClass, class: u32) -> bool {
    if class == 1 {
        has_both_properties(flat) && has_own_block_last(flat)
    } else {
        flat.props.is_empty() && flat.blocks.is_empty()
    }
}

fn is_flattened(alloc: Global, design: &Design, class: u32) -> bool {
    let flat = flatten(alloc, design, class);
    let is_so = match &flat {
        Ok(flat) => is_flat(flat, class),
        Err(_) => false,
    };
    let_go(flat);
    is_so
}

/// Whether the class of this number is flattened as it is to be.
fn is_right(alloc: Global, class: u32) -> bool {
    let design = design(alloc);
    let is_so = match &design {
        Ok(design) => is_flattened(alloc, design, class),
        Err(_) => false,
    };
    let_go(design);
    is_so
}

#[test]
fn a_derived_class_has_its_own_block_last(rt: HostRuntime) {
    assert!(rt; is_right(rt.alloc(), 1));
}

#[test]
fn a_number_of_no_class_has_nothing(rt: HostRuntime) {
    assert!(rt; is_right(rt.alloc(), 2));
}
