// Items of a block (IEEE 1800-2017, A.1.10, constraint_block_item).

ghost use Rattle.std.specs.Prelude.{◌≡◌, ◌≤◌, ◌<◌, ◌+◌, ◌^◌, IfOk, if◌then◌else◌, length};
ghost use Rattle.svr_reader.specs.declared.fault.ReadFault.TheVariants.{Unexpected, TooDeep};
ghost use Rattle.svr_reader.specs.Outcomes.{lexeme_at};
ghost use Rattle.svr_reader.specs.Answers.{Gives};
ghost use Rattle.svr_reader.specs.Calls.{cap, height_view, heights_view};
ghost use Rattle.svr_tree.specs.ItemTree.{ItemTree, item_tree};
ghost use Rattle.svr_item.specs.ItemRules as spec;

use crate::items::item;
use crate::reader::Reader;
use crate::starts::starts_block_item;
use sqlite_items::Items;
use std::alloc::Global;
use svr_reader::{Cursor, Fixed, ReadFault, until};
use svr_token::{Lexeme, Mark, Word};
use svr_tree::Item;

/// An item of a block, by its first token.
#[tactic(auto, unfolding(crate::specs::ItemRules::block_item_in, crate::specs::ItemRules::item_in))]
fn block_item_in(
    alloc: Global,
    cursor: &mut Cursor<'_>,
    room: usize,
) -> Result<(Item, usize), ReadFault>
    requires { room + 1 < 2 ^ 64 }
    ensures gives { Gives (height_view item_tree) (spec.within cap room spec.block_item_in cursor.old) result cursor.new }
    ensures low { IfOk result (λ x. x.1 ≤ room + 1) }
{
    let parts = Reader { alloc, room, item };
    match cursor.peek() {
        Some(Lexeme::Word(Word::Solve)) => parts.solve_item(cursor),
        _ => parts.item_in(cursor),
    }
}

/// The fault where there is no room for an item of a block.
fn no_block_item(cursor: &Cursor<'_>) -> ReadFault
    ensures { result ≡ (if spec.block_starts (lexeme_at cursor.now) then TooDeep (length cursor.now) else Unexpected (length cursor.now)) }
{
    if starts_block_item(cursor.peek()) {
        cursor.too_deep()
    } else {
        cursor.refuse()
    }
}

/// An item of a block, of a height up to `room` (IEEE 1800-2017, A.1.10, constraint_block_item), and its height: also `solve .. before ..;`.
///
/// Errors: as those of `item`.
#[tactic(auto, unfolding(crate::specs::ItemRules::block_item))]
pub fn block_item(
    alloc: Global,
    cursor: &mut Cursor<'_>,
    room: usize,
) -> Result<(Item, usize), ReadFault>
    ensures gives { Gives (height_view item_tree) (spec.block_item cap room cursor.old) result cursor.new }
    ensures low { IfOk result (λ x. x.1 ≤ room) }
{
    if room == 0 {
        return Err(no_block_item(cursor));
    }
    block_item_in(alloc, cursor, room - 1)
}

/// The items of a block, of a height up to `room`, up to the closing brace, which is taken, and the height of the highest.
///
/// Errors: as those of `item`.
#[tactic(auto, unfolding(crate::specs::ItemRules::block_items))]
pub fn block_items(
    alloc: Global,
    cursor: &mut Cursor<'_>,
    room: usize,
) -> Result<(Items<Item>, usize), ReadFault>
    ensures gives { Gives (heights_view item_tree) (spec.block_items cap room cursor.old) result cursor.new }
    ensures low { IfOk result (λ x. x.1 ≤ room) }
{
    until(alloc, cursor, Fixed::Mark(Mark::CloseBrace), |cursor| {
        block_item(alloc, cursor, room)
    })
}
