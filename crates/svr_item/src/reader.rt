// The parts of an item.

ghost use Rattle.std.specs.Prelude.{◌≤◌, IfOk};
ghost use Rattle.svr_reader.specs.Answers.{Gives};
ghost use Rattle.svr_reader.specs.Calls.{cap, height_view};
ghost use Rattle.svr_tree.specs.ItemTree.{item_tree};
ghost use Rattle.svr_item.specs.ItemRules as spec;
ghost use Rattle.svr_item.specs.Parts.{ReadsItems};

use std::alloc::Global;
use svr_reader::{Cursor, ReadFault};
use svr_tree::Item;

/// What reads the parts of an item, which may be as high as `room`. The function is a parameter, so that each production is proved by itself.
#[derive(Clone, Copy)]
pub(crate) struct Reader<F> {
    pub(crate) alloc: Global,
    pub(crate) room: usize,
    pub(crate) item: F,
}

impl<F: Fn(Global, &mut Cursor<'_>, usize) -> Result<(Item, usize), ReadFault>> Reader<F> {
    /// An item one level below.
    pub fn part(&self, cursor: &mut Cursor<'_>) -> Result<(Item, usize), ReadFault>
        requires reads { ReadsItems self.now.room (F.pre self.now.item) (F.post self.now.item) }
        ensures gives { Gives (height_view item_tree) (spec.item cap self.now.room cursor.old) result cursor.new }
        ensures low { IfOk result (λ x. x.1 ≤ self.now.room) }
    {
        (self.item)(self.alloc, cursor, self.room)
    }
}
