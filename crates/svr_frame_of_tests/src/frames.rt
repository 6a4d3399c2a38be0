// With ample memory the frame of a call is made: `rand bit [1:0] d []; constraint c { d.size() == 2; }`.

ghost use Rattle.std.specs.Prelude.{◌≡◌, IfOk, [], ◌∷◌};
ghost use Rattle.svr_typed.specs.ItemTerm.{item_term};
ghost use Rattle.svr_typed.specs.ClassTerm.{block_term, flat_term};
ghost use Rattle.svr_typed.specs.StmtTerm.{call_term};
ghost use Rattle.svr_world.specs.World.{declared_classes};
ghost use Rattle.svr_frame_of_tests.specs.Sample.{sample_prop, sample_block, sample_class, sample_world, sample_call, size_is_two};

use sqlite_items::Items;
use std::alloc::Global;
use svr_frame::Frame;
use svr_frame_of::make_frame;
use svr_operator::{BinOp, Rand};
use svr_typed::{
    ArrayKind, CallList, CallStmt, Design, EnumType, FlatClass, NoMemory, NumType, Prop, TBlock,
    TClass, TExpr, TItem, TNode, TStmt, TVar, Text, VarKind,
};
use svr_world::World;

fn queue(alloc: Global) -> Prop
    ensures { result ≡ sample_prop }
{
    Prop {
        name: Text::from_vec(Vec::new(alloc)),
        kind: NumType {
            width: 2,
            signed: false,
            members: None,
        },
        rand: Rand::Rand,
        array: ArrayKind::Dynamic,
        first: 0,
        low: 0,
        can: true,
        inner: 1,
    }
}

fn size_item(alloc: Global) -> Result<TItem, NoMemory>
    ensures { IfOk result (λ i. item_term i ≡ size_is_two) }
{
    let size = TExpr::new(32, true, TNode::size(0, 1));
    let two = TExpr::new(32, true, TNode::number(2, false));
    let equal = TNode::binary(alloc, BinOp::Equal, size, two)?;
    Ok(TItem::plain(false, TExpr::new(1, false, equal), None))
}

/// A list of one.
fn alone<T: Drop>(alloc: Global, item: T) -> Result<Items<T>, NoMemory>
    ensures { IfOk result (λ items. items ≡ item ∷ []) }
{
    let mut items = Items::new(alloc);
    items.push(item)?;
    Ok(items)
}

fn block(alloc: Global) -> Result<TBlock, NoMemory>
    ensures { IfOk result (λ b. block_term b ≡ sample_block) }
{
    let items = alone(alloc, size_item(alloc)?)?;
    Ok(TBlock {
        name: Text::from_vec(Vec::new(alloc)),
        items,
    })
}

fn class(alloc: Global) -> Result<FlatClass, NoMemory>
    ensures { IfOk result (λ c. flat_term c ≡ sample_class) }
{
    let blocks = alone(alloc, block(alloc)?)?;
    match alone(alloc, queue(alloc)) {
        Ok(props) => Ok(FlatClass { props, blocks }),
        Err(fault) => Err(fault),
    }
}

/// One variable for objects of the class 0.
fn design(alloc: Global) -> Result<Design, NoMemory>
    ensures enums { IfOk result (λ d. d.enums ≡ []) }
    ensures vars { IfOk result (λ d. declared_classes d.vars ≡ 0 ∷ []) }
{
    let object = TVar {
        name: Text::from_vec(Vec::new(alloc)),
        kind: VarKind::Object(0),
    };
    let vars = alone(alloc, object)?;
    Ok(Design {
        enums: Items::<EnumType>::new(alloc),
        classes: Items::<TClass>::new(alloc),
        vars,
        stmts: Items::<TStmt>::new(alloc),
    })
}

/// The object was just made.
fn world(alloc: Global, design: &Design, class: &FlatClass) -> Result<World, NoMemory>
    requires vars { declared_classes design.now.vars ≡ 0 ∷ [] }
    requires class { flat_term class.now ≡ sample_class }
    ensures { IfOk result (λ w. w ≡ sample_world) }
{
    let mut world = World::new(alloc, design)?;
    world.make(alloc, 0, class)?;
    Ok(world)
}

fn call(alloc: Global) -> CallStmt
    ensures { call_term result ≡ sample_call }
{
    CallStmt::new(0, CallList::All, Items::<TItem>::new(alloc), None)
}

/// Lets go what was held, in the place of a function that knows what it is.
fn let_go<T: Drop>(_held: T) {}

/// What can be looked at.
trait Looked {
    /// Whether the queue is empty and random, and its item makes its size one to choose.
    fn has_its_size_to_choose(&self) -> bool;
}

impl Looked for Frame {
    fn has_its_size_to_choose(&self) -> bool {
        self.is_random(0)
            && self.has_free_size(0)
            && self.state.size(0) == 0
            && self.items.len() == 1
    }
}

/// Whether a frame was made, and is so. It is let go here, whatever it is, so that no other function has to.
fn is_so<T: Looked + Drop>(made: Result<T, NoMemory>) -> bool {
    match &made {
        Ok(frame) => frame.has_its_size_to_choose(),
        Err(_) => false,
    }
}

fn asked(alloc: Global, design: &Design, class: &FlatClass, world: &World, call: &CallStmt) -> bool
    requires enums { design.now.enums ≡ [] }
    requires class { flat_term class.now ≡ sample_class }
    requires world { world.now ≡ sample_world }
    requires call { call_term call.now ≡ sample_call }
{
    is_so(make_frame(alloc, design, class, world, call))
}

fn in_world(alloc: Global, design: &Design, class: &FlatClass, world: &World) -> bool
    requires enums { design.now.enums ≡ [] }
    requires class { flat_term class.now ≡ sample_class }
    requires world { world.now ≡ sample_world }
{
    let on_object = call(alloc);
    let met = asked(alloc, design, class, world, &on_object);
    let_go(on_object);
    met
}

fn with_class(alloc: Global, design: &Design, class: &FlatClass) -> bool
    requires enums { design.now.enums ≡ [] }
    requires vars { declared_classes design.now.vars ≡ 0 ∷ [] }
    requires class { flat_term class.now ≡ sample_class }
{
    let made = world(alloc, design, class);
    let met = match &made {
        Ok(there) => in_world(alloc, design, class, there),
        Err(_) => false,
    };
    let_go(made);
    met
}

fn in_design(alloc: Global, design: &Design) -> bool
    requires enums { design.now.enums ≡ [] }
    requires vars { declared_classes design.now.vars ≡ 0 ∷ [] }
{
    let made = class(alloc);
    let met = match &made {
        Ok(flat) => with_class(alloc, design, flat),
        Err(_) => false,
    };
    let_go(made);
    met
}

fn sample(alloc: Global) -> bool {
    let made = design(alloc);
    let met = match &made {
        Ok(whole) => in_design(alloc, whole),
        Err(_) => false,
    };
    let_go(made);
    met
}

#[test]
fn a_call_has_its_frame(rt: HostRuntime) {
    assert!(rt; sample(rt.alloc()));
}
