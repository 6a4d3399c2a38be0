// Where the items of a block and of an in-line set stand.

ghost use Rattle.std.specs.Prelude.{◌≡◌, ◌<◌, ◌^◌, length, map, IfOk};
ghost use Rattle.svr_tree.specs.ItemTree.{item_trees};
ghost use Rattle.svr_elab_fault.specs.Refusals.{first_one};
ghost use Rattle.svr_elab_names.specs.Names.{class_props};
ghost use Rattle.svr_elab_names.specs.Tables.{space_of, class_of, prop_of};
ghost use Rattle.svr_elab_part.specs.Fits.{MembersFit};
ghost use Rattle.svr_elab_item.specs.Seen.{items_part};
ghost use Rattle.svr_elab_item.specs.Fits.{ItemsFit, ItemsLoopsFit};
ghost use Rattle.svr_elab_block.specs.Blocks as spec;

use indexmap::IndexMap;
use std::alloc::Global;
use svr_elab_item::{Around, ItemsPart};
use svr_elab_names::{ClassNames, NameSpace, PropEntry, Region};
use svr_elab_set::items;
use svr_tree::Item;
use svr_typed::NoMemory;

/// The properties of a class by its number.
#[tactic(auto, using(crate::proofs::Places::props_are))]
fn props_of<'s, 'a>(
    classes: &'s [ClassNames<'a>],
    class: usize,
) -> &'s IndexMap<&'a [u8], PropEntry>
    requires { class < length classes.now }
    ensures { map prop_of result.now.entries ≡ class_props (map class_of classes.now) class }
{
    classes[class].props.as_ref()
}

/// What can be named in a block of a class, or in an in-line set for an object of it.
#[tactic(auto, using(crate::proofs::Places::members_there))]
pub(crate) fn in_class<'s, 'a>(
    names: &NameSpace<'s, 'a>,
    region: Region,
    class: usize,
) -> NameSpace<'s, 'a>
    requires { class < length names.now.classes.now }
    ensures space { space_of result ≡ spec.in_class (space_of names.now) region class }
    ensures vars { length result.vars.now.entries ≡ length names.now.vars.now.entries }
    ensures loops { length result.loops.now ≡ length names.now.loops.now }
    ensures members { MembersFit (space_of names.now) → MembersFit (space_of result) }
    ensures classes { length result.classes.now ≡ length names.now.classes.now }
{
    NameSpace {
        names: names.names,
        region,
        globals: names.globals,
        classes: names.classes,
        props: props_of(names.classes, class),
        later: names.later,
        loops: names.loops,
        vars: names.vars,
        made: names.made,
    }
}

/// What is known of the items of an in-line set of constraints, with their first refusal. `class`: the number of the class of the object (IEEE 1800-2017, 18.7).
pub fn in_line(
    alloc: Global,
    set: &[Item],
    names: &NameSpace<'_, '_>,
    class: usize,
) -> Result<ItemsPart, NoMemory>
    requires class { class < length names.now.classes.now }
    requires vars { length names.now.vars.now.entries < 2 ^ 32 }
    requires loops { ItemsLoopsFit (length names.now.loops.now) (item_trees set.now) }
    requires members { MembersFit (space_of names.now) }
    requires literals { ItemsFit (item_trees set.now) }
    ensures { IfOk result (λ p. items_part p ≡ spec.in_line first_one (space_of names.now) class (item_trees set.now)) }
{
    let inside = in_class(names, Region::InLine, class);
    items(alloc, set, &inside, Around::outside())
}
