// Calls of `randomize` with what they name and their in-line sets (IEEE 1800-2017, 18.6, 18.7 and 18.11).

ghost use Rattle.std.specs.Prelude.{◌≡◌, ◌<◌, ◌^◌, [], Some, length, option_map, map, IfOk};
ghost use Rattle.svr_tree.specs.ItemTree.{item_trees};
ghost use Rattle.svr_tree.specs.StmtTree.{randomize_tree};
ghost use Rattle.svr_elab_fault.specs.Refusals.{first_one};
ghost use Rattle.svr_elab_names.specs.Tables.{space_of, prop_of};
ghost use Rattle.svr_elab_part.specs.Fits.{MembersFit};
ghost use Rattle.svr_elab_item.specs.Items as item_spec;
ghost use Rattle.svr_elab_item.specs.Seen.{items_part};
ghost use Rattle.svr_elab_item.specs.Fits.{ItemsFit, ItemsLoopsFit};
ghost use Rattle.svr_elab_stmt.specs.Stmts as spec;
ghost use Rattle.svr_elab_stmt.specs.Seen.{stmt_part};
ghost use Rattle.svr_elab_target.specs.Seen.{object_seen, path_seen};
ghost use Rattle.svr_elab_stmt.specs.Fits.{CallFits, InLineFits};

use indexmap::IndexMap;
use sqlite_items::Items;
use std::alloc::Global;
use svr_elab_expr::both;
use svr_elab_item::{Around, ItemsPart};
use svr_elab_names::{NameSpace, PropEntry};
use svr_elab_set::items;
use svr_elab_stmt::{StmtPart, call_on, call_on_none};
use svr_elab_target::{Object, ObjectPath, call_list, in_line, list_fault, object_path};
use svr_tree::{Item, RandomizeArgs, RandomizeCall};
use svr_typed::NoMemory;

/// The items of a set in line with a call on an object that has these properties.
#[tactic(auto, using(crate::proofs::Fitting::members_in_line, crate::proofs::Fitting::items_there))]
fn items_with<'t, 's, 'a>(
    alloc: Global,
    props: &'t IndexMap<&'a [u8], PropEntry>,
    list: &[Item],
    names: &NameSpace<'s, 'a>,
) -> Result<ItemsPart, NoMemory>
where
    's: 't,
    requires vars { length names.now.vars.now.entries < 2 ^ 32 }
    requires members { MembersFit (space_of names.now) }
    requires loops { ItemsLoopsFit (length names.now.loops.now) (item_trees list.now) }
    requires literals { ItemsFit (item_trees list.now) }
    ensures { IfOk result (λ p. items_part p ≡ item_spec.items first_one (spec.in_line_with (space_of names.now) (map prop_of props.now.entries)) item_spec.outside (item_spec.no_items first_one) (item_trees list.now)) }
{
    let inside = in_line(names, props);
    items(alloc, list, &inside, Around::outside())
}

/// The items of a set in line with a call on an object of an unknown class, which has no properties.
fn items_alone(
    alloc: Global,
    list: &[Item],
    names: &NameSpace<'_, '_>,
) -> Result<ItemsPart, NoMemory>
    requires vars { length names.now.vars.now.entries < 2 ^ 32 }
    requires members { MembersFit (space_of names.now) }
    requires loops { ItemsLoopsFit (length names.now.loops.now) (item_trees list.now) }
    requires literals { ItemsFit (item_trees list.now) }
    ensures { IfOk result (λ p. items_part p ≡ item_spec.items first_one (spec.in_line_with (space_of names.now) []) item_spec.outside (item_spec.no_items first_one) (item_trees list.now)) }
{
    let none = IndexMap::new(alloc);
    items_with(alloc, &none, list, names)
}

/// The items of a set in line with a call on an object of this class.
fn set_in_line(
    alloc: Global,
    class: u32,
    list: &[Item],
    names: &NameSpace<'_, '_>,
) -> Result<ItemsPart, NoMemory>
    requires vars { length names.now.vars.now.entries < 2 ^ 32 }
    requires members { MembersFit (space_of names.now) }
    requires fits { InLineFits (length names.now.loops.now) (Some (item_trees list.now)) }
    ensures { IfOk result (λ p. items_part p ≡ spec.in_line_items first_one (space_of names.now) class (Some (item_trees list.now))) }
{
    match names.classes.get(class as usize) {
        None => items_alone(alloc, list, names),
        Some(class) => items_with(alloc, class.props.as_ref(), list, names),
    }
}

fn in_line_items(
    alloc: Global,
    class: u32,
    set: &Option<Items<Item>>,
    names: &NameSpace<'_, '_>,
) -> Result<ItemsPart, NoMemory>
    requires vars { length names.now.vars.now.entries < 2 ^ 32 }
    requires members { MembersFit (space_of names.now) }
    requires fits { InLineFits (length names.now.loops.now) (option_map item_trees set.now) }
    ensures { IfOk result (λ p. items_part p ≡ spec.in_line_items first_one (space_of names.now) class (option_map item_trees set.now)) }
{
    match set {
        None => Ok(ItemsPart {
            trees: Some(Items::new(alloc)),
            fault: None,
        }),
        Some(set) => set_in_line(alloc, class, set.as_slice(), names),
    }
}

/// A call on an object.
fn call_at(
    alloc: Global,
    path: ObjectPath<'_>,
    answer: Option<u32>,
    object: Object,
    args: &RandomizeArgs,
    set: &Option<Items<Item>>,
    names: &NameSpace<'_, '_>,
) -> Result<StmtPart, NoMemory>
    requires vars { length names.now.vars.now.entries < 2 ^ 32 }
    requires members { MembersFit (space_of names.now) }
    requires fits { InLineFits (length names.now.loops.now) (option_map item_trees set.now) }
    ensures value { IfOk result (λ s. stmt_part s ≡ spec.call_of first_one (space_of names.now) (path_seen path.entry) answer args.now (option_map item_trees set.now) (Some (object_seen object))) }
    ensures once { IfOk result (λ s. s.count ≡ 1) }
{
    let refused = list_fault(alloc, object.class, args, names)?;
    let named = call_list(alloc, object.class, args, names);
    let (list, set) = both(named, in_line_items(alloc, object.class, set, names))?;
    Ok(call_on(names.made, path, answer, object, list, refused, set))
}

/// A call on what stands on this path.
fn call_of(
    alloc: Global,
    path: ObjectPath<'_>,
    answer: Option<u32>,
    call: &RandomizeCall,
    names: &NameSpace<'_, '_>,
) -> Result<StmtPart, NoMemory>
    requires vars { length names.now.vars.now.entries < 2 ^ 32 }
    requires members { MembersFit (space_of names.now) }
    requires fits { CallFits (length names.now.loops.now) (randomize_tree call.now) }
    ensures value { IfOk result (λ s. stmt_part s ≡ spec.call_of first_one (space_of names.now) (path_seen path.entry) answer (randomize_tree call.now).args (randomize_tree call.now).items (option_map object_seen path.entry.object)) }
    ensures once { IfOk result (λ s. s.count ≡ 1) }
{
    match path.object {
        None => Ok(call_on_none(names.made, path.first)),
        Some(object) => call_at(alloc, path, answer, object, &call.args, &call.with, names),
    }
}

/// A call of `randomize`; `answer`: the variable that takes its answer.
pub(crate) fn randomized(
    alloc: Global,
    answer: Option<u32>,
    call: &RandomizeCall,
    names: &NameSpace<'_, '_>,
) -> Result<StmtPart, NoMemory>
    requires vars { length names.now.vars.now.entries < 2 ^ 32 }
    requires members { MembersFit (space_of names.now) }
    requires fits { CallFits (length names.now.loops.now) (randomize_tree call.now) }
    ensures value { IfOk result (λ s. stmt_part s ≡ spec.randomized first_one (space_of names.now) answer (randomize_tree call.now)) }
    ensures once { IfOk result (λ s. s.count ≡ 1) }
{
    let path = object_path(&call.path, names);
    call_of(alloc, path, answer, call, names)
}
