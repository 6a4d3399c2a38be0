// What the list of a call names (IEEE 1800-2017, 18.6.1 and 18.11).

ghost use Rattle.std.specs.Prelude.{◌≡◌, [], None, is_none, map, IfOk};
ghost use Rattle.std.specs.List.{list_any};
ghost use Rattle.svr_token.specs.Names.{names_of};
ghost use Rattle.svr_elab_fault.specs.Refusals.{first_one};
ghost use Rattle.svr_elab_names.specs.Names as names_spec;
ghost use Rattle.svr_elab_names.specs.Tables.{space_of, class_of, bytes_of};
ghost use Rattle.svr_elab_target.specs.Named as spec;

use crate::property::class_property;
use indexmap::IndexSet;
use sqlite_items::Items;
use std::alloc::Global;
use svr_elab_fault::{Fault, earlier, when};
use svr_elab_names::{NameSpace, Property};
use svr_refusal::Refusal;
use svr_tree::RandomizeArgs;
use svr_typed::{CallList, NoMemory};

/// One more number, where a property has one.
fn and_number(numbers: Items<u32>, property: Option<Property>) -> Result<Items<u32>, NoMemory>
    ensures { IfOk result (λ ns. ns ≡ spec.and_number property numbers) }
{
    let mut numbers = numbers;
    match property {
        None => Ok(numbers),
        Some(property) => {
            numbers.push(property.number)?;
            Ok(numbers)
        }
    }
}

/// The numbers of the listed properties.
fn numbers_of(
    alloc: Global,
    class: u32,
    list: &[u32],
    names: &NameSpace<'_, '_>,
) -> Result<Items<u32>, NoMemory>
    ensures { IfOk result (λ ns. ns ≡ spec.numbers_of (names_of names.now.names) (names_spec.class_props (map class_of names.now.classes.now) class) [] list.now) }
{
    let mut numbers = Items::new(alloc);
    for name in list {
        let property = class_property(class, *name, names);
        numbers = and_number(numbers, property)?;
    }
    Ok(numbers)
}

/// What a call sets.
pub fn call_list(
    alloc: Global,
    class: u32,
    args: &RandomizeArgs,
    names: &NameSpace<'_, '_>,
) -> Result<CallList, NoMemory>
    ensures { IfOk result (λ l. l ≡ spec.call_list_of (space_of names.now) class args.now) }
{
    match args {
        RandomizeArgs::Empty => Ok(CallList::All),
        RandomizeArgs::Null => Ok(CallList::Null),
        RandomizeArgs::Names(list) => Ok(CallList::Listed(numbers_of(
            alloc,
            class,
            list.as_slice(),
            names,
        )?)),
    }
}

#[tactic(auto, using(svr_elab_names::proofs::Entries::is_among))]
fn is_listed(names: &IndexSet<&[u8]>, name: &[u8]) -> bool
    ensures { result ≡ list_any (names_spec.is_same name.now) (map bytes_of names.now.keys) }
{
    names.contains(name)
}

fn is_unknown(class: u32, name: u32, names: &NameSpace<'_, '_>) -> bool
    ensures { result ≡ is_none (names_spec.property_named (names_spec.class_props (map class_of names.now.classes.now) class) (names_of names.now.names name)) }
{
    class_property(class, name, names).is_none()
}

/// The refusals of a listed name, behind these.
fn name_fault(
    class: u32,
    before: &IndexSet<&[u8]>,
    name: u32,
    names: &NameSpace<'_, '_>,
) -> Option<Fault>
    ensures { result ≡ spec.name_faults first_one (names_spec.class_props (map class_of names.now.classes.now) class) (map bytes_of before.now.keys) name (names_of names.now.names name) }
{
    let unknown = is_unknown(class, name, names);
    let twice = is_listed(before, names.names.name(name));
    earlier(
        when(unknown, name, Refusal::UnknownName),
        when(twice, name, Refusal::DoubleName),
    )
}

/// Different names with one more.
pub(crate) fn and_listed<'a>(
    before: IndexSet<&'a [u8]>,
    name: &'a [u8],
) -> Result<IndexSet<&'a [u8]>, NoMemory>
    ensures { IfOk result (λ s. map bytes_of s.keys ≡ spec.and_listed (map bytes_of before.entry.keys) name.now) }
{
    let mut before = before;
    match before.insert(name) {
        Ok(_) => Ok(before),
        Err(_) => Err(NoMemory),
    }
}

/// Each name of a list is a property, and stands there once.
fn names_fault(
    alloc: Global,
    class: u32,
    list: &[u32],
    names: &NameSpace<'_, '_>,
) -> Result<Option<Fault>, NoMemory>
    ensures { IfOk result (λ f. f ≡ spec.names_faults first_one (names_of names.now.names) (names_spec.class_props (map class_of names.now.classes.now) class) [] None list.now) }
{
    let mut before = IndexSet::new(alloc);
    let mut fault = None;
    for name in list {
        fault = earlier(fault, name_fault(class, &before, *name, names));
        before = and_listed(before, names.names.name(*name))?;
    }
    Ok(fault)
}

/// What the list of a call is refused for.
pub fn list_fault(
    alloc: Global,
    class: u32,
    args: &RandomizeArgs,
    names: &NameSpace<'_, '_>,
) -> Result<Option<Fault>, NoMemory>
    ensures { IfOk result (λ f. f ≡ spec.list_faults first_one (space_of names.now) class args.now) }
{
    match args {
        RandomizeArgs::Empty | RandomizeArgs::Null => Ok(None),
        RandomizeArgs::Names(list) => names_fault(alloc, class, list.as_slice(), names),
    }
}
