// Items of a set (IEEE 1800-2017, A.1.10, constraint_expression).

ghost use Rattle.std.specs.Prelude.{◌≡◌, ◌≤◌, ◌<◌, ◌+◌, ◌^◌, IfOk, if◌then◌else◌, length};
ghost use Rattle.svr_reader.specs.declared.fault.ReadFault.TheVariants.{Unexpected, TooDeep};
ghost use Rattle.svr_reader.specs.Outcomes.{lexeme_at};
ghost use Rattle.svr_reader.specs.Answers.{Gives};
ghost use Rattle.svr_reader.specs.Calls.{cap, height_view, heights_view};
ghost use Rattle.svr_tree.specs.ItemTree.{ItemTree, item_tree};
ghost use Rattle.svr_item.specs.ItemRules as spec;
ghost use Rattle.svr_item.specs.Parts.{ReadsItems};

use crate::reader::Reader;
use crate::starts::starts_item;
use sqlite_items::Items;
use std::alloc::Global;
use svr_reader::{Cursor, ReadFault};
use svr_token::{Lexeme, Word};
use svr_tree::Item;

impl<F: Fn(Global, &mut Cursor<'_>, usize) -> Result<(Item, usize), ReadFault>> Reader<F> {
    /// An item, by its first token.
    #[tactic(auto, unfolding(crate::specs::ItemRules::item_in))]
    pub fn item_in(&self, cursor: &mut Cursor<'_>) -> Result<(Item, usize), ReadFault>
        requires reads { ReadsItems self.now.room (F.pre self.now.item) (F.post self.now.item) }
        requires room { self.now.room + 1 < 2 ^ 64 }
        ensures gives { Gives (height_view item_tree) (spec.within cap self.now.room spec.item_in cursor.old) result cursor.new }
        ensures low { IfOk result (λ x. x.1 ≤ self.now.room + 1) }
    {
        match cursor.peek() {
            Some(Lexeme::Word(Word::Soft)) => self.soft_item(cursor),
            Some(Lexeme::Word(Word::Unique)) => self.unique_item(cursor),
            Some(Lexeme::Word(Word::If)) => self.branch_item(cursor),
            Some(Lexeme::Word(Word::Foreach)) => self.foreach_item(cursor),
            Some(Lexeme::Word(Word::Disable)) => self.disable_item(cursor),
            _ => self.expr_item(cursor),
        }
    }
}

/// The fault where there is no room for an item.
fn no_item(cursor: &Cursor<'_>) -> ReadFault
    ensures { result ≡ (if spec.item_starts (lexeme_at cursor.now) then TooDeep (length cursor.now) else Unexpected (length cursor.now)) }
{
    if starts_item(cursor.peek()) {
        cursor.too_deep()
    } else {
        cursor.refuse()
    }
}

/// A constraint item of a height up to `room` (IEEE 1800-2017, A.1.10, constraint_expression), and its height.
///
/// Errors: `Unexpected` at a token that goes on with no item, `TooDeep` at one that goes on with higher ones only.
pub fn item(alloc: Global, cursor: &mut Cursor<'_>, room: usize) -> Result<(Item, usize), ReadFault>
    ensures gives { Gives (height_view item_tree) (spec.item cap room cursor.old) result cursor.new }
    ensures low { IfOk result (λ x. x.1 ≤ room) }
{
    if room == 0 {
        return Err(no_item(cursor));
    }
    Reader {
        alloc,
        room: room - 1,
        item,
    }
    .item_in(cursor)
}

/// Items of a height up to `room` up to the closing brace, which is taken, and the height of the highest.
///
/// Errors: as those of `item`.
#[tactic(auto, unfolding(crate::specs::ItemRules::set_items))]
pub fn set_items(
    alloc: Global,
    cursor: &mut Cursor<'_>,
    room: usize,
) -> Result<(Items<Item>, usize), ReadFault>
    ensures gives { Gives (heights_view item_tree) (spec.set_items cap room cursor.old) result cursor.new }
    ensures low { IfOk result (λ x. x.1 ≤ room) }
{
    Reader { alloc, room, item }.items(cursor)
}
