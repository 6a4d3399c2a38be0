// The blocks of a class by name, with those that it inherits (IEEE 1800-2017, 18.5.2): in one step where it extends no class or its names are kept, and else in the time that its own blocks and those of the classes above it take together.

ghost use Rattle.std.specs.Prelude.{◌≡◌, ◌<◌, ◌≤◌, ◌+◌, ◌^◌, ◌++◌, IfOk, IfSome, length, map, option_map, reverse};
ghost use Rattle.svr_token.specs.Names.{names_of};
ghost use Rattle.svr_elab_names.specs.Names as names_spec;
ghost use Rattle.svr_elab_names.specs.Names.{Space};
ghost use Rattle.svr_elab_names.specs.Tables.{space_of, class_of, bytes_of};
ghost use Rattle.svr_elab_target.specs.Blocks as spec;
ghost use Rattle.svr_elab_target.specs.Fits.{BlocksFit};
ghost use Rattle.svr_elab_target.specs.Kept.{IsKept, HasRoom};

use crate::list::and_listed;
use indexmap::{IndexMap, IndexSet};
use std::alloc::Global;
use svr_elab_names::{ClassNames, NameSpace};
use svr_typed::NoMemory;

/// The base of a class, where it stands before the class.
fn base_before(classes: &[ClassNames<'_>], class: u32) -> Option<u32>
    ensures { result ≡ spec.base_before (map class_of classes.now) class }
{
    match classes.get(class as usize) {
        Some(own) => match own.base {
            Some(base) if base < class => Some(base),
            Some(_) => None,
            None => None,
        },
        None => None,
    }
}

/// Names with others, from the last of these back.
fn with_names<'a>(
    names: IndexSet<&'a [u8]>,
    own: &[&'a [u8]],
) -> Result<IndexSet<&'a [u8]>, NoMemory>
    ensures { IfOk result (λ s. reverse (map bytes_of s.keys) ≡ spec.all_front (reverse (map bytes_of names.entry.keys)) (map bytes_of own.now)) }
{
    let mut names = names;
    let mut left = own.len();
    while left > 0 {
        left -= 1;
        names = and_listed(names, own[left])?;
    }
    Ok(names)
}

/// Names with those of the blocks that a class declares itself, from the last one back; none where there is no such class.
fn with_class<'a>(
    names: IndexSet<&'a [u8]>,
    classes: &[ClassNames<'a>],
    class: u32,
) -> Result<IndexSet<&'a [u8]>, NoMemory>
    ensures { IfOk result (λ s. reverse (map bytes_of s.keys) ≡ spec.without (reverse (map bytes_of names.entry.keys)) (spec.own_names (map class_of classes.now) class) ++ reverse (map bytes_of names.entry.keys)) }
{
    match classes.get(class as usize) {
        None => Ok(names),
        Some(own) => with_names(names, own.blocks.as_slice()),
    }
}

/// The names of the blocks of a class in flat order, from the last one back.
fn names_back<'a>(
    alloc: Global,
    classes: &[ClassNames<'a>],
    class: u32,
) -> Result<IndexSet<&'a [u8]>, NoMemory>
    ensures { IfOk result (λ s. reverse (map bytes_of s.keys) ≡ spec.class_blocks (map class_of classes.now) class) }
{
    let mut names = IndexSet::new(alloc);
    let mut next = Some(class);
    'up: while let Some(at) = next {
        names = with_class(names, classes, at)?;
        next = base_before(classes, at);
    }
    Ok(names)
}

/// The names of the blocks of a class in flat order.
fn flat_names<'a>(
    alloc: Global,
    classes: &[ClassNames<'a>],
    class: u32,
) -> Result<IndexSet<&'a [u8]>, NoMemory>
    ensures { IfOk result (λ s. map bytes_of s.keys ≡ spec.class_blocks (map class_of classes.now) class) }
{
    let mut names = names_back(alloc, classes, class)?;
    names.reverse();
    Ok(names)
}

/// All blocks of a class that extends none.
fn own_alone<'s, 'a>(classes: &'s [ClassNames<'a>], class: u32) -> Option<&'s IndexSet<&'a [u8]>>
    ensures { IfSome result (λ s. map bytes_of s.now.keys ≡ spec.class_blocks (map class_of classes.now) class) }
{
    match classes.get(class as usize) {
        None => None,
        Some(own) => {
            if own.base.is_none() {
                Some(&own.blocks)
            } else {
                None
            }
        }
    }
}

/// The place of a name among these.
#[tactic(auto, using(svr_elab_names::proofs::Entries::name_found))]
fn place_among(names: &IndexSet<&[u8]>, name: &[u8]) -> Option<u32>
    requires { length names.now.keys < 2 ^ 32 }
    ensures { result ≡ option_map (λ f. f.0) (names_spec.find (λ b. b) name.now (map bytes_of names.now.keys)) }
{
    match names.get_index_of(name) {
        None => None,
        Some(place) => Some(place as u32),
    }
}

/// How many names of several classes are kept together; each takes about 32 bytes.
pub const MOST_KEPT: usize = 1 << 20;

/// The names of the blocks of classes in flat order, by the class' number, kept from one statement to the next; and how many they are together.
#[derive(Drop)]
pub struct FlatNames<'a> {
    kept: IndexMap<u32, IndexSet<&'a [u8]>>,
    count: usize,
}

impl<'a> FlatNames<'a> {
    /// Those of no class.
    pub fn new(alloc: Global) -> FlatNames<'a>
        ensures { (n : Space) → IsKept n result }
    {
        let kept = IndexMap::new(alloc);
        FlatNames { kept, count: 0 }
    }
}

/// The names of the blocks of a class, where they are kept.
fn kept_names<'f, 'a>(flat: &'f FlatNames<'a>, class: u32) -> Option<&'f IndexSet<&'a [u8]>>
    ensures { (n : Space) → IsKept n flat.now → IfSome result (λ s. map bytes_of s.now.keys ≡ spec.class_blocks n.classes class) }
{
    flat.kept.get(&class)
}

/// So many names and so many more, where they are not too many together.
fn all_kept(count: usize, more: usize) -> Option<usize>
    ensures { IfSome result (λ all. (count + more ≡ all) × (all ≤ MOST_KEPT)) }
{
    match count.checked_add(more) {
        Some(all) if all <= MOST_KEPT => Some(all),
        Some(_) => None,
        None => None,
    }
}

/// Counts so many names more, and forgets the others where they are too many together.
fn make_room(more: usize, flat: &mut FlatNames<'_>)
    ensures kept { (n : Space) → IsKept n flat.old → IsKept n flat.new }
    ensures room { (n : Space) → IsKept n flat.old → HasRoom more flat.new }
{
    match all_kept(flat.count, more) {
        Some(all) => flat.count = all,
        None => {
            flat.kept.clear();
            flat.count = more;
        }
    }
}

/// Keeps the names of the blocks of one class more.
fn keep<'a>(class: u32, made: IndexSet<&'a [u8]>, flat: &mut FlatNames<'a>) -> Result<(), NoMemory>
    ensures { (n : Space) → IsKept n flat.old → map bytes_of made.entry.keys ≡ spec.class_blocks n.classes class → IsKept n flat.new }
{
    make_room(made.len(), flat);
    match flat.kept.insert(class, made) {
        Ok(_) => Ok(()),
        Err(_) => Err(NoMemory),
    }
}

/// The place of the block of this name among those of a class whose names are not kept; from then on they are.
fn block_made<'a>(
    alloc: Global,
    class: u32,
    name: &[u8],
    names: &NameSpace<'_, 'a>,
    flat: &mut FlatNames<'a>,
) -> Result<Option<u32>, NoMemory>
    requires blocks { BlocksFit (space_of names.now) }
    requires kept { IsKept (space_of names.now) flat.old }
    ensures number { IfOk result (λ n. n ≡ spec.block_number (map class_of names.now.classes.now) class name.now) }
    ensures kept { IsKept (space_of names.now) flat.new }
{
    let made = flat_names(alloc, names.classes, class)?;
    let place = place_among(&made, name);
    keep(class, made, flat)?;
    Ok(place)
}

/// The place of the block of this name among those of the class with what it inherits.
fn block_along<'a>(
    alloc: Global,
    class: u32,
    name: &[u8],
    names: &NameSpace<'_, 'a>,
    flat: &mut FlatNames<'a>,
) -> Result<Option<u32>, NoMemory>
    requires blocks { BlocksFit (space_of names.now) }
    requires kept { IsKept (space_of names.now) flat.old }
    ensures number { IfOk result (λ n. n ≡ spec.block_number (map class_of names.now.classes.now) class name.now) }
    ensures kept { IsKept (space_of names.now) flat.new }
{
    match kept_names(flat, class) {
        Some(kept) => Ok(place_among(kept, name)),
        None => block_made(alloc, class, name, names, flat),
    }
}

/// The place of the block of this class whose name stands at this token, among its blocks in flat order.
pub(crate) fn class_block<'a>(
    alloc: Global,
    class: u32,
    name: u32,
    names: &NameSpace<'_, 'a>,
    flat: &mut FlatNames<'a>,
) -> Result<Option<u32>, NoMemory>
    requires blocks { BlocksFit (space_of names.now) }
    requires kept { IsKept (space_of names.now) flat.old }
    ensures number { IfOk result (λ n. n ≡ spec.block_number (map class_of names.now.classes.now) class (names_of names.now.names name)) }
    ensures kept { IsKept (space_of names.now) flat.new }
{
    let spelled = names.names.name(name);
    match own_alone(names.classes, class) {
        None => block_along(alloc, class, spelled, names, flat),
        Some(own) => Ok(place_among(own, spelled)),
    }
}
