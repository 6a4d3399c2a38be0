// The names of the active items of a call: `c.2` is the second entry of block c, `with.1` the first of the in-line set.

ghost use Rattle.std.specs.Prelude.{◌≡◌, ◌++◌, ◌<◌, ◌^◌, length, IfOk, OnOk};
ghost use Rattle.svr_typed.specs.ItemTerm.{item_terms};
ghost use Rattle.svr_typed.specs.ClassTerm.{block_terms};
ghost use Rattle.svr_world.specs.World.{object_of};
ghost use Rattle.svr_item_names.specs.Names as spec;

use itoa::Buffer;
use sqlite_items::Items;
use std::alloc::Global;
use svr_typed::{NoMemory, TBlock, TItem, Text};
use svr_world::World;

/// The name of the entry of this number.
fn entry_name(alloc: Global, block: &[u8], number: usize) -> Result<Text, NoMemory>
    ensures { IfOk result (λ name. name ≡ spec.entry_name block.now number) }
{
    let mut buffer = Buffer::new();
    let mut name = Vec::from_slice(alloc, block)?;
    name.extend_from_slice(b".")?;
    name.extend_from_slice(buffer.format(number).as_bytes())?;
    Ok(Text::from_vec(name))
}

/// Those of all entries of a set of this name.
fn append_names(
    alloc: Global,
    block: &[u8],
    items: &[TItem],
    names: &mut Items<Text>,
) -> Result<(), NoMemory>
    ensures { OnOk result (names.new ≡ names.old ++ spec.entry_names block.now 1 (item_terms items.now)) }
{
    for place in 0..items.len() {
        names.push(entry_name(alloc, block, place + 1)?)?;
    }
    Ok(())
}

fn append_block(alloc: Global, block: &TBlock, names: &mut Items<Text>) -> Result<(), NoMemory>
    ensures { OnOk result (names.new ≡ names.old ++ spec.entry_names block.now.name 1 (item_terms block.now.items)) }
{
    append_names(alloc, block.name.as_bytes(), block.items.as_slice(), names)
}

/// The names of the active items, in their order: those of the blocks that are switched on, and then those of the call (IEEE 1800-2017, 18.7 and 18.9).
pub fn item_names(
    alloc: Global,
    blocks: &[TBlock],
    in_line: &[TItem],
    world: &World,
    object: u32,
) -> Result<Items<Text>, NoMemory>
    requires { length blocks.now < 2 ^ 32 }
    ensures { IfOk result (λ names. names ≡ spec.item_names (block_terms blocks.now) (object_of world.now object).block_modes (item_terms in_line.now)) }
{
    let mut names = Items::new(alloc);
    for (place, block) in blocks.iter().enumerate() {
        if world.block_mode(object, place as u32) {
            append_block(alloc, block, &mut names)?;
        }
    }
    append_names(alloc, b"with", in_line, &mut names)?;
    Ok(names)
}
