//! A call with few items, and a world with its object.

ghost use Rattle.std.specs.Prelude.{◌≡◌, ◌∷◌, [], false, None, map, replicate, IfOk};
ghost use Rattle.svr_typed.specs.ExprTerm.{expr_term};
ghost use Rattle.svr_typed.specs.ItemTerm.{item_term, plain};
ghost use Rattle.svr_typed.specs.ClassTerm.{flat_term};
ghost use Rattle.svr_world.specs.World.{declared_classes, IsMade};
ghost use Rattle.svr_frame.specs.Frame.{frame_term};
ghost use Rattle.svr_frame.specs.Sound.{IsSound};
ghost use Rattle.svr_randomize_tests.specs.declared.form.Form.TheVariants as form;
ghost use Rattle.svr_randomize_tests.specs.Sample as spec;

use crate::form::Form;
use crate::held::{both, copied, let_go, listed};
use sqlite_items::Items;
use std::alloc::Global;
use svr_eval::Assign;
use svr_frame::Frame;
use svr_operator::{BinOp, Rand};
use svr_typed::{
    ArrayKind, Design, EnumType, FlatClass, NoMemory, NumType, Prop, TBlock, TClass, TExpr, TItem,
    TNode, TStmt, TVar, Text, VarKind,
};
use svr_world::World;

fn declared(alloc: Global, rand: Rand, array: ArrayKind, width: u8, can: bool) -> Prop
    ensures { result ≡ spec.declared rand array width can }
{
    Prop {
        name: Text::from_vec(Vec::new(alloc)),
        kind: NumType {
            width,
            signed: false,
            members: None,
        },
        rand,
        array,
        first: 0,
        low: 0,
        can,
        inner: 1,
    }
}

fn class(alloc: Global) -> Result<FlatClass, NoMemory>
    ensures { IfOk result (λ class. flat_term class ≡ spec.sample_class) }
{
    let x = declared(alloc, Rand::Rand, ArrayKind::Scalar, 8, true);
    let y = declared(alloc, Rand::Rand, ArrayKind::Scalar, 8, true);
    let row = declared(alloc, Rand::State, ArrayKind::Fixed(200), 1, false);
    let cyclic = declared(alloc, Rand::Randc, ArrayKind::Scalar, 2, true);
    let list = declared(alloc, Rand::Rand, ArrayKind::Dynamic, 1, true);
    let props = listed(alloc, [x, y, row, cyclic, list])?;
    Ok(FlatClass::new(props, Items::<TBlock>::new(alloc)))
}

fn byte(prop: u32) -> TExpr
    ensures { expr_term result ≡ spec.byte prop }
{
    TExpr::new(8, false, TNode::prop(prop))
}

fn bits(width: u8, value: u64) -> TExpr
    ensures { expr_term result ≡ spec.bits width value }
{
    TExpr::new(width, false, TNode::number(value, false))
}

/// `d.size()`
fn length() -> TExpr
    ensures { expr_term result ≡ spec.length_of }
{
    TExpr::new(32, true, TNode::size(4, 1))
}

fn applied(alloc: Global, op: BinOp) -> Result<TExpr, NoMemory>
    ensures { IfOk result (λ e. expr_term e ≡ spec.applied op) }
{
    Ok(TExpr::new(8, false, TNode::binary(alloc, op, byte(0), byte(1))?))
}

fn compared(
    alloc: Global,
    soft: bool,
    op: BinOp,
    left: TExpr,
    right: TExpr,
) -> Result<TItem, NoMemory>
    ensures { IfOk result (λ i. item_term i ≡ plain soft (spec.compared op (expr_term left) (expr_term right)) None) }
{
    let test = TExpr::new(1, false, TNode::binary(alloc, op, left, right)?);
    Ok(TItem::plain(soft, test, None))
}

fn alone(alloc: Global, item: TItem) -> Result<Items<TItem>, NoMemory>
    ensures { IfOk result (λ items. items ≡ item ∷ []) }
{
    listed(alloc, [item])
}

/// An item that is no soft one, alone.
fn hard(alloc: Global, op: BinOp, left: TExpr, right: TExpr) -> Result<Items<TItem>, NoMemory>
    ensures { IfOk result (λ is. map item_term is ≡ plain false (spec.compared op (expr_term left) (expr_term right)) None ∷ []) }
{
    let item = compared(alloc, false, op, left, right)?;
    alone(alloc, item)
}

fn heavy(alloc: Global) -> Result<Items<TItem>, NoMemory>
    ensures { IfOk result (λ is. map item_term is ≡ spec.items_for form.Heavy) }
{
    let product = applied(alloc, BinOp::Multiply)?;
    let inner = hard(alloc, BinOp::Equal, product, bits(64, 257))?;
    alone(alloc, TItem::foreach(2, 1, 1, inner))
}

fn soft(alloc: Global, value: u64) -> Result<TItem, NoMemory>
    ensures { IfOk result (λ i. item_term i ≡ spec.soft_item value) }
{
    compared(alloc, true, BinOp::Equal, byte(0), bits(8, value))
}

fn kept(alloc: Global) -> Result<Items<TItem>, NoMemory>
    ensures { IfOk result (λ is. map item_term is ≡ spec.items_for form.Soft) }
{
    let item = soft(alloc, 1)?;
    alone(alloc, item)
}

fn overruled(alloc: Global) -> Result<Items<TItem>, NoMemory>
    ensures { IfOk result (λ is. map item_term is ≡ spec.items_for form.Overruled) }
{
    let (first, later) = both(soft(alloc, 1), soft(alloc, 2))?;
    listed(alloc, [first, later])
}

fn sum(alloc: Global) -> Result<Items<TItem>, NoMemory>
    ensures { IfOk result (λ is. map item_term is ≡ spec.items_for form.Sum) }
{
    let sum = applied(alloc, BinOp::Add)?;
    hard(alloc, BinOp::Equal, sum, bits(16, 300))
}

fn product(alloc: Global) -> Result<Items<TItem>, NoMemory>
    ensures { IfOk result (λ is. map item_term is ≡ spec.items_for form.Product) }
{
    let product = applied(alloc, BinOp::Multiply)?;
    hard(alloc, BinOp::Equal, product, bits(16, 257))
}

fn items(alloc: Global, form: Form) -> Result<Items<TItem>, NoMemory>
    ensures { IfOk result (λ is. map item_term is ≡ spec.items_for form) }
{
    match form {
        Form::Free => hard(alloc, BinOp::Equal, byte(0), byte(0)),
        Form::Sum => sum(alloc),
        Form::Never => hard(alloc, BinOp::NotEqual, byte(0), byte(0)),
        Form::Product => product(alloc),
        Form::Heavy => heavy(alloc),
        Form::Soft => kept(alloc),
        Form::Overruled => overruled(alloc),
        Form::Cyclic => hard(alloc, BinOp::Equal, byte(0), byte(0)),
        Form::Sized => hard(alloc, BinOp::Equal, length(), bits(32, 3)),
        Form::NoSize => hard(alloc, BinOp::NotEqual, length(), length()),
        Form::Large => hard(alloc, BinOp::Equal, length(), bits(32, 17)),
    }
}

fn is_cyclic(form: Form) -> bool
    ensures { result ≡ spec.is_cyclic form }
{
    match form {
        Form::Cyclic => true,
        Form::Free => false,
        Form::Sum => false,
        Form::Never => false,
        Form::Product => false,
        Form::Heavy => false,
        Form::Soft => false,
        Form::Overruled => false,
        Form::Sized => false,
        Form::NoSize => false,
        Form::Large => false,
    }
}

fn is_sized(form: Form) -> bool
    ensures { result ≡ spec.is_sized form }
{
    match form {
        Form::Sized => true,
        Form::NoSize => true,
        Form::Large => true,
        Form::Free => false,
        Form::Sum => false,
        Form::Never => false,
        Form::Product => false,
        Form::Heavy => false,
        Form::Soft => false,
        Form::Overruled => false,
        Form::Cyclic => false,
    }
}

fn zeros(alloc: Global, count: usize) -> Result<Items<u64>, NoMemory>
    ensures { IfOk result (λ numbers. numbers ≡ replicate count 0) }
{
    let numbers = vec![in alloc; 0; count]?;
    Ok(Items::from_vec(numbers))
}

fn values(alloc: Global) -> Result<Items<Items<u64>>, NoMemory>
    ensures { IfOk result (λ values. values ≡ spec.first_state.values) }
{
    let mut values = Items::<Items<u64>>::new(alloc);
    values.push(Items::from_slice(alloc, &[0])?)?;
    values.push(Items::from_slice(alloc, &[0])?)?;
    values.push(zeros(alloc, 200)?)?;
    values.push(Items::from_slice(alloc, &[0])?)?;
    values.push(Items::<u64>::new(alloc))?;
    Ok(values)
}

fn state(alloc: Global) -> Result<Assign, NoMemory>
    ensures { IfOk result (λ state. state ≡ spec.first_state) }
{
    let (values, sizes) = both(values(alloc), copied(alloc, &[1, 1, 200, 1, 0]))?;
    Ok(Assign {
        values,
        sizes,
        script: Items::<u64>::new(alloc),
    })
}

fn framed(alloc: Global, form: Form) -> Result<Frame, NoMemory>
    ensures { IfOk result (λ frame. frame_term frame ≡ spec.frame_for form) }
{
    let random = copied(alloc, &[true, true, false, is_cyclic(form), is_sized(form)]);
    let free_size = copied(alloc, &[false, false, false, false, is_sized(form)]);
    let parts = both(class(alloc), both(state(alloc), items(alloc, form)));
    let ((random, free_size), (class, (state, items))) = both(both(random, free_size), parts)?;
    Ok(Frame {
        class,
        enums: Items::<EnumType>::new(alloc),
        state,
        random,
        free_size,
        items,
    })
}

/// The call that asks a form.
pub(crate) fn sample(alloc: Global, form: Form) -> Result<Frame, NoMemory>
    ensures { IfOk result (λ frame. IsSound (frame_term frame)) }
{
    let frame = framed(alloc, form)?;
    Ok(frame)
}

/// One variable for objects of the class 0.
fn design(alloc: Global) -> Result<Design, NoMemory>
    ensures { IfOk result (λ d. declared_classes d.vars ≡ 0 ∷ []) }
{
    let var = TVar {
        name: Text::from_vec(Vec::new(alloc)),
        kind: VarKind::Object(0),
    };
    let vars = listed(alloc, [var])?;
    Ok(Design {
        enums: Items::<EnumType>::new(alloc),
        classes: Items::<TClass>::new(alloc),
        vars,
        stmts: Items::<TStmt>::new(alloc),
    })
}

fn made(alloc: Global, design: &Design, class: &FlatClass) -> Result<World, NoMemory>
    requires vars { declared_classes design.now.vars ≡ 0 ∷ [] }
    requires class { flat_term class.now ≡ spec.sample_class }
    ensures { IfOk result (λ w. IsMade w 0) }
{
    let mut world = World::new(alloc, design)?;
    world.make(alloc, 0, class)?;
    Ok(world)
}

fn made_over(
    alloc: Global,
    design: &Result<Design, NoMemory>,
    class: &Result<FlatClass, NoMemory>,
) -> Result<World, NoMemory>
    requires vars { IfOk design.now (λ d. declared_classes d.vars ≡ 0 ∷ []) }
    requires class { IfOk class.now (λ c. flat_term c ≡ spec.sample_class) }
    ensures { IfOk result (λ w. IsMade w 0) }
{
    match design {
        Ok(design) => match class {
            Ok(class) => made(alloc, design, class),
            Err(refused) => Err(*refused),
        },
        Err(refused) => Err(*refused),
    }
}

/// A world in which the variable 0 has an object.
pub(crate) fn world(alloc: Global) -> Result<World, NoMemory>
    ensures { IfOk result (λ w. IsMade w 0) }
{
    let design = design(alloc);
    let class = class(alloc);
    let world = made_over(alloc, &design, &class);
    let_go(design);
    let_go(class);
    world
}
