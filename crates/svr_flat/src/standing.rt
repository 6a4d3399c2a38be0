// The blocks that stand in a class (IEEE 1800-2017, 18.5.2), in the time that its own blocks and those of the classes that it derives from take together.

ghost use Rattle.std.specs.Prelude.{◌≡◌, ◌<◌, ◌++◌, ◌∷◌, [], map, length, OnOk, IfOk, IfSome, MatchOption};
ghost use Rattle.svr_typed.specs.ClassTerm.{block_terms, class_terms};
ghost use Rattle.svr_flat.specs.Along.{StandsOver, blocks_along, stacked};
ghost use Rattle.svr_flat.specs.Named.{bytes_of, and_names, not_named};

use crate::items::copy_block;
use crate::memory::{both, push, pushed};
use crate::names::{is_among, with_names};
use indexmap::IndexSet;
use sqlite_items::Items;
use std::alloc::Global;
use svr_typed::{NoMemory, TBlock, TClass};

fn append_blocks(alloc: Global, blocks: &mut Vec<TBlock>, own: &[TBlock]) -> Result<(), NoMemory>
    ensures { OnOk result (blocks.new.items ≡ blocks.old.items ++ own.now) }
{
    for block in own {
        let copy = copy_block(alloc, block)?;
        push(blocks, copy)?;
    }
    Ok(())
}

/// The blocks whose names are not among these.
#[tactic(auto, using(crate::proofs::Blocks::one_stays, crate::proofs::Blocks::one_goes))]
fn not_named(
    alloc: Global,
    blocks: Vec<TBlock>,
    names: &IndexSet<&[u8]>,
) -> Result<Vec<TBlock>, NoMemory>
    ensures { IfOk result (λ kept. block_terms kept.items ≡ not_named (map bytes_of names.now.keys) (block_terms blocks.items)) }
{
    let mut kept = Vec::new(alloc);
    for block in blocks {
        if !is_among(names, block.name.as_bytes()) {
            push(&mut kept, block)?;
        }
    }
    Ok(kept)
}

/// Copies of the blocks whose names are not among these.
fn standing(
    alloc: Global,
    own: &[TBlock],
    names: &IndexSet<&[u8]>,
) -> Result<Items<TBlock>, NoMemory>
    ensures { IfOk result (λ kept. block_terms kept ≡ not_named (map bytes_of names.now.keys) (block_terms own.now)) }
{
    let mut blocks = Vec::new(alloc);
    append_blocks(alloc, &mut blocks, own)?;
    let kept = not_named(alloc, blocks, names)?;
    Ok(Items::from_vec(kept))
}

/// What stands of a class's own blocks behind what stands of the classes below it, whose blocks have these names; and the names with its own.
fn and_class<'a>(
    alloc: Global,
    kept: Vec<Items<TBlock>>,
    names: IndexSet<&'a [u8]>,
    own: &'a [TBlock],
) -> Result<(Vec<Items<TBlock>>, IndexSet<&'a [u8]>), NoMemory>
    ensures kept { IfOk result (λ r. map block_terms r.0.items ≡ map block_terms kept.items ++ not_named (map bytes_of names.entry.keys) (block_terms own.now) ∷ []) }
    ensures names { IfOk result (λ r. map bytes_of r.1.keys ≡ and_names (map bytes_of names.entry.keys) (block_terms own.now)) }
{
    let own_kept = standing(alloc, own, &names);
    let kept = pushed(kept, own_kept);
    let (kept, names) = both(kept, with_names(names, own))?;
    Ok((kept, names))
}

/// The own blocks of the first class of a lineage over given blocks, the rest of the lineage, and what that stands over; where there is no such class nothing stands.
#[tactic(auto, using(crate::proofs::Stacked::first_is, crate::proofs::Stacked::none_is))]
fn split_class<'a, 'l>(
    classes: &'a [TClass],
    lineage: &'l [u32],
    base: &'a [TBlock],
) -> Option<(&'a [TBlock], &'l [u32], &'a [TBlock])>
    ensures over { MatchOption result (blocks_along (class_terms classes.now) lineage.now (block_terms base.now) ≡ block_terms base.now) (λ r. StandsOver (class_terms classes.now) lineage.now (block_terms base.now) (block_terms r.0.now) r.1.now (block_terms r.2.now)) }
    ensures shorter { IfSome result (λ r. length r.1.now < length lineage.now) }
{
    match lineage.split_first() {
        None => None,
        Some((class, others)) => match classes.get(*class as usize) {
            None => Some((&[], &[], &[])),
            Some(own) => Some((own.blocks.as_slice(), others, base)),
        },
    }
}

/// What stands of the own blocks of each class of a lineage, from the class up, and last of the given blocks.
fn upward<'a>(
    alloc: Global,
    classes: &'a [TClass],
    lineage: &[u32],
    base: &'a [TBlock],
) -> Result<Vec<Items<TBlock>>, NoMemory>
    ensures { IfOk result (λ kept. stacked (map block_terms kept.items) ≡ blocks_along (class_terms classes.now) lineage.now (block_terms base.now)) }
{
    let mut names = IndexSet::new(alloc);
    let mut kept = Vec::new(alloc);
    let mut left = lineage;
    let mut above = base;
    'classes: while let Some((own, others, inherited)) = split_class(classes, left, above) {
        let (longer, more) = and_class(alloc, kept, names, own)?;
        kept = longer;
        names = more;
        left = others;
        above = inherited;
    }
    let last = standing(alloc, above, &names);
    let kept = pushed(kept, last)?;
    Ok(kept)
}

/// Lists of blocks as one, the last list first.
fn joined(alloc: Global, lists: Vec<Items<TBlock>>) -> Result<Items<TBlock>, NoMemory>
    ensures { IfOk result (λ blocks. block_terms blocks ≡ stacked (map block_terms lists.items)) }
{
    let mut lists = lists;
    let mut blocks = Items::new(alloc);
    while let Some(list) = lists.pop() {
        blocks.append(list)?;
    }
    Ok(blocks)
}

/// The blocks that stand along a lineage over given ones, each class over those after it.
pub(crate) fn blocks_of(
    alloc: Global,
    classes: &[TClass],
    lineage: &[u32],
    base: &[TBlock],
) -> Result<Items<TBlock>, NoMemory>
    ensures { IfOk result (λ blocks. block_terms blocks ≡ blocks_along (class_terms classes.now) lineage.now (block_terms base.now)) }
{
    let lists = upward(alloc, classes, lineage, base)?;
    Ok(joined(alloc, lists)?)
}
