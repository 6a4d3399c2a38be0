// What is known of blocks.

ghost use Rattle.std.specs.Prelude.{◌≡◌, ℕ, List};
ghost use Rattle.svr_elab_fault.specs.Refusals.{first_one};
ghost use Rattle.svr_elab_block.specs.Blocks as spec;
ghost use Rattle.svr_elab_block.specs.Chain.{AreRanked};
ghost use Rattle.svr_elab_block.specs.Seen.{body_part, bodies_part};

use indexmap::IndexSet;
use sqlite_items::Items;
use std::alloc::Global;
use std::rc::Rc;
use svr_elab_fault::Fault;
use svr_elab_order::{Order, Ranks};
use svr_typed::TBlock;

/// What is known of the blocks of one class so far.
#[derive(Drop)]
pub(crate) struct BodyPart<'a> {
    /// The names of its properties and blocks.
    pub own: IndexSet<&'a [u8]>,
    /// The names of its blocks alone.
    pub named: IndexSet<&'a [u8]>,
    /// The typed blocks, where each is known.
    pub blocks: Option<Items<TBlock>>,
    /// What the `solve` items of its blocks order.
    pub orders: Items<Order>,
    pub fault: Option<Fault>,
}

/// What one class orders: by its own items, and as its base does.
#[derive(Drop)]
pub struct ClassOrders<'a> {
    /// The number of its base; none where what it inherits stands among its own items.
    pub base: Option<u32>,
    /// The names of its own blocks, which stand in the place of inherited ones.
    pub named: IndexSet<&'a [u8]>,
    /// What its own blocks order, and in front of that what it inherits where there is no base.
    pub own: Items<Order>,
    /// Ranks that all that it orders agrees with, where they are known: those of its base as long as they do.
    pub ranks: Option<Rc<Ranks>>,
}

/// What is known of the blocks of classes.
#[derive(Drop)]
pub struct BodiesPart<'a> {
    /// The typed blocks that each class declares itself, where all are known.
    pub blocks: Option<Items<Items<TBlock>>>,
    /// What the `solve` items of each class order.
    pub orders: Items<ClassOrders<'a>>,
    pub fault: Option<Fault>,
}

/// No blocks.
pub(crate) fn no_body<'a>(alloc: Global) -> BodyPart<'a>
    ensures { body_part result ≡ spec.no_body first_one }
{
    BodyPart {
        own: IndexSet::new(alloc),
        named: IndexSet::new(alloc),
        blocks: Some(Items::new(alloc)),
        orders: Items::new(alloc),
        fault: None,
    }
}

impl<'a> BodiesPart<'a> {
    /// No classes.
    pub(crate) fn none(alloc: Global) -> BodiesPart<'a>
        ensures value { (text : ℕ → List ℕ) → bodies_part text result ≡ spec.no_bodies first_one }
        ensures ranks { (text : ℕ → List ℕ) → AreRanked text result.orders }
    {
        BodiesPart {
            blocks: Some(Items::new(alloc)),
            orders: Items::new(alloc),
            fault: None,
        }
    }
}
