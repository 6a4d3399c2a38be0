// With ample memory the unknowns of a call are found and its items expanded: `rand bit [1:0] d [3]; unique {d}; foreach (d[k]) soft d[k] == 0;`.

ghost use Rattle.std.specs.Prelude.{◌≡◌, IfOk, [], ◌∷◌, map};
ghost use Rattle.svr_typed.specs.ExprTerm.{expr_term};
ghost use Rattle.svr_typed.specs.ItemTerm.{item_term};
ghost use Rattle.svr_typed.specs.ClassTerm.{flat_term};
ghost use Rattle.svr_eval.specs.Examples.{int};
ghost use Rattle.svr_frame.specs.Frame.{frame_term};
ghost use Rattle.svr_frame.specs.Examples.{at_, equal, k0};
ghost use Rattle.svr_expand_tests.specs.Sample.{sample_frame, sample_prop, all_different, soft_zeros};

use crate::held::{both, copied, let_go, listed};
use sqlite_items::Items;
use std::alloc::Global;
use svr_eval::Assign;
use svr_expand::{expand, unknowns};
use svr_frame::{Frame, Part, Slot};
use svr_operator::{BinOp, Rand};
use svr_typed::{
    ArrayKind, EnumType, FlatClass, NoMemory, NumType, Prop, TBlock, TExpr, TItem, TNode, Text,
};

fn array(alloc: Global) -> Prop
    ensures { result ≡ sample_prop }
{
    Prop {
        name: Text::from_vec(Vec::new(alloc)),
        kind: NumType {
            width: 2,
            signed: false,
            members: None,
        },
        rand: Rand::Rand,
        array: ArrayKind::Fixed(3),
        first: 0,
        low: 0,
        can: true,
        inner: 1,
    }
}

/// `unique {d}`
fn unique(alloc: Global) -> Result<TItem, NoMemory>
    ensures { IfOk result (λ i. item_term i ≡ all_different) }
{
    let members = listed(alloc, [TExpr::new(2, false, TNode::prop(0))])?;
    Ok(TItem::unique(members))
}

/// `d[k] == 0`
fn is_zero(alloc: Global) -> Result<TExpr, NoMemory>
    ensures { IfOk result (λ e. expr_term e ≡ equal (at_ 2 0 k0) (int 0)) }
{
    let index = TExpr::new(32, true, TNode::loop_index(0));
    let element = TExpr::new(2, false, TNode::element(alloc, 0, index)?);
    let zero = TExpr::new(32, true, TNode::number(0, false));
    let equal = TNode::binary(alloc, BinOp::Equal, element, zero)?;
    Ok(TExpr::new(1, false, equal))
}

/// `foreach (d[k]) soft d[k] == 0;`
fn soft_loop(alloc: Global) -> Result<TItem, NoMemory>
    ensures { IfOk result (λ i. item_term i ≡ soft_zeros) }
{
    let test = is_zero(alloc)?;
    let body = listed(alloc, [TItem::plain(true, test, None)])?;
    Ok(TItem::foreach(0, 1, 1, body))
}

fn items(alloc: Global) -> Result<Items<TItem>, NoMemory>
    ensures { IfOk result (λ items. map item_term items ≡ all_different ∷ soft_zeros ∷ []) }
{
    let (first, second) = both(unique(alloc), soft_loop(alloc))?;
    listed(alloc, [first, second])
}

fn class(alloc: Global) -> Result<FlatClass, NoMemory>
    ensures { IfOk result (λ class. flat_term class ≡ sample_frame.class) }
{
    let props = listed(alloc, [array(alloc)])?;
    Ok(FlatClass::new(props, Items::<TBlock>::new(alloc)))
}

/// The array has three zeros.
fn values(alloc: Global) -> Result<Items<Items<u64>>, NoMemory>
    ensures { IfOk result (λ values. values ≡ sample_frame.state.values) }
{
    let row = copied(alloc, &[0, 0, 0])?;
    listed(alloc, [row])
}

fn state(alloc: Global) -> Result<Assign, NoMemory>
    ensures { IfOk result (λ state. state ≡ sample_frame.state) }
{
    let (values, sizes) = both(values(alloc), copied(alloc, &[3]))?;
    Ok(Assign {
        values,
        sizes,
        script: Items::<u64>::new(alloc),
    })
}

/// Which properties are random, and which have a size to be chosen.
fn flags(alloc: Global) -> Result<(Items<bool>, Items<bool>), NoMemory>
    ensures random { IfOk result (λ flags. flags.0 ≡ sample_frame.random) }
    ensures free_size { IfOk result (λ flags. flags.1 ≡ sample_frame.free_size) }
{
    both(copied(alloc, &[true]), copied(alloc, &[false]))
}

fn sample(alloc: Global) -> Result<Frame, NoMemory>
    ensures { IfOk result (λ frame. frame_term frame ≡ sample_frame) }
{
    let parts = both(state(alloc), both(class(alloc), items(alloc)));
    let ((random, free_size), (state, (class, items))) = both(flags(alloc), parts)?;
    Ok(Frame {
        class,
        enums: Items::<EnumType>::new(alloc),
        state,
        random,
        free_size,
        items,
    })
}

/// The number of an index, or of an operand.
fn number(e: &TExpr) -> u64 {
    match &e.node {
        TNode::Number { value, .. } => *value,
        _ => 99,
    }
}

/// The index of an element, else its number.
fn index(e: &TExpr) -> u64 {
    match &e.node {
        TNode::Element(_, index) => number(index.get()),
        _ => number(e),
    }
}

/// Whether the operands of an operator are these.
fn is_pair(e: &TExpr, first: u64, second: u64) -> bool {
    match &e.node {
        TNode::Binary { left, right, .. } => {
            index(left.get()) == first && index(right.get()) == second
        }
        _ => false,
    }
}

/// Whether there are three expressions with these operands.
fn are_pairs(exprs: &[TExpr], wanted: &[(u64, u64); 3]) -> bool {
    let [first, second, third] = wanted;
    match exprs {
        [a, b, c] => {
            is_pair(a, first.0, first.1)
                && is_pair(b, second.0, second.1)
                && is_pair(c, third.0, third.1)
        }
        _ => false,
    }
}

/// Whether the slot is that of this element of the array.
fn is_element(slot: &Slot, wanted: u32) -> bool {
    match slot {
        Slot::Element(prop, at) => *prop == 0 && *at == wanted,
        _ => false,
    }
}

/// Whether the slots are those of the three elements in turn.
fn are_elements(slots: &[Slot]) -> bool {
    match slots {
        [a, b, c] => is_element(a, 0) && is_element(b, 1) && is_element(c, 2),
        _ => false,
    }
}

/// Whether the items are expanded to pairs in the order of the first and then of the second, and to soft ones from the last index down.
fn are_expanded(alloc: Global, frame: &Frame) -> bool
    requires { frame_term frame.now ≡ sample_frame }
{
    let found = expand(alloc, frame, Part::All, &[3]);
    let is_so = match &found {
        Ok(asked) => {
            are_pairs(asked.hard.as_slice(), &[(0, 1), (0, 2), (1, 2)])
                && are_pairs(asked.soft.as_slice(), &[(2, 0), (1, 0), (0, 0)])
        }
        Err(_) => false,
    };
    let_go(found);
    is_so
}

/// Whether the elements are looked for.
fn are_found(alloc: Global, frame: &Frame) -> bool
    requires { frame_term frame.now ≡ sample_frame }
{
    let found = unknowns(alloc, frame, Part::All, &[3]);
    let is_so = match &found {
        Ok(slots) => are_elements(slots.as_slice()),
        Err(_) => false,
    };
    let_go(found);
    is_so
}

#[test]
fn pairs_and_ranks(rt: HostRuntime) {
    let frame = sample(rt.alloc());
    let is_so = match &frame {
        Ok(frame) => are_expanded(rt.alloc(), frame),
        Err(_) => false,
    };
    let_go(frame);
    assert!(rt; is_so);
}

#[test]
fn elements_are_looked_for(rt: HostRuntime) {
    let frame = sample(rt.alloc());
    let is_so = match &frame {
        Ok(frame) => are_found(rt.alloc(), frame),
        Err(_) => false,
    };
    let_go(frame);
    assert!(rt; is_so);
}
