// Which properties can be random (IEEE 1800-2017, 18.4 and 18.11.1).

ghost use Rattle.std.specs.Prelude.{◌≡◌, IfOk, OnOk, map, reverse};
ghost use Rattle.std.specs.List.{list_any};
ghost use Rattle.svr_elab_names.specs.Tables.{prop_of, class_of};
ghost use Rattle.svr_elab_random.specs.Random as spec;

use indexmap::{IndexMap, IndexSet};
use sqlite_items::Items;
use std::alloc::Global as Heap;
use std::rc::Rc;
use svr_elab_names::{ClassNames, PropEntry, Property};
use svr_typed::NoMemory;

/// A property by the class that declares it and its number in flat order, which it has in each derived class too.
#[derive(Clone, Copy, PartialEq, Eq, Hash)]
pub struct Home {
    pub class: u32,
    pub number: u32,
}

impl Home {
    /// The home of a property.
    pub fn of(property: Property) -> Home
        ensures { result ≡ spec.home_of property }
    {
        Home {
            class: property.home,
            number: property.number,
        }
    }
}

fn is_listed(listed: &IndexSet<Home>, property: Property) -> bool
    ensures { result ≡ spec.is_listed listed.now.keys property }
{
    listed.contains(&Home::of(property))
}

fn with_list(listed: &IndexSet<Home>, entry: PropEntry) -> PropEntry
    ensures property { result.property ≡ spec.listed listed.now.keys entry.property }
    ensures first { result.first ≡ entry.first }
{
    let property = entry.property;
    PropEntry {
        property: Property {
            number: property.number,
            home: property.home,
            kind: property.kind,
            rand: property.rand,
            random: property.random || is_listed(listed, property),
            dims: property.dims,
        },
        first: entry.first,
    }
}

/// Each property of a table, where listed ones can be random.
#[tactic(auto, using(crate::proofs::Marked::marked_more, crate::proofs::Marked::as_many, crate::proofs::Marked::marked_all))]
fn mark(props: &mut IndexMap<&[u8], PropEntry>, listed: &IndexSet<Home>)
    ensures { map prop_of props.new.entries ≡ map (spec.with_list listed.now.keys) (map prop_of props.old.entries) }
{
    for i in 0..props.len() {
        let entry = with_list(listed, props[i]);
        props[i] = entry;
    }
}

/// Whether a property is listed, and could not be random without that.
fn becomes_random(listed: &IndexSet<Home>, entry: PropEntry) -> bool
    ensures { result ≡ spec.entry_becomes_random listed.now.keys entry }
{
    !entry.property.random && is_listed(listed, entry.property)
}

fn any_entry(entries: &[PropEntry], listed: &IndexSet<Home>) -> bool
    ensures { result ≡ list_any (spec.entry_becomes_random listed.now.keys) entries.now }
{
    entries.iter().any(|entry| becomes_random(listed, *entry))
}

fn any_becomes_random(props: &IndexMap<&[u8], PropEntry>, listed: &IndexSet<Home>) -> bool
    ensures { result ≡ list_any (spec.becomes_random listed.now.keys) (map prop_of props.now.entries) }
{
    any_entry(props.values().as_slice(), listed)
}

/// The same in a table of its own, which is a copy where other classes have this one too.
fn mark_own(
    props: &mut Rc<IndexMap<&[u8], PropEntry>>,
    listed: &IndexSet<Home>,
) -> Result<(), NoMemory>
    ensures { OnOk result (map prop_of props.new.value.entries ≡ map (spec.with_list listed.now.keys) (map prop_of props.old.value.entries)) }
{
    match Rc::make_mut(props) {
        Ok(own) => {
            mark(own, listed);
            Ok(())
        }
        Err(_) => Err(NoMemory),
    }
}

/// The same, where a table of which nothing is listed stays the one that other classes have too.
fn mark_shared(
    props: &mut Rc<IndexMap<&[u8], PropEntry>>,
    listed: &IndexSet<Home>,
) -> Result<(), NoMemory>
    ensures { OnOk result (map prop_of props.new.value.entries ≡ map (spec.with_list listed.now.keys) (map prop_of props.old.value.entries)) }
{
    if any_becomes_random(Rc::as_ref(props), listed) {
        return mark_own(props, listed);
    }
    Ok(())
}

fn with_lists<'a>(
    class: ClassNames<'a>,
    listed: &IndexSet<Home>,
) -> Result<ClassNames<'a>, NoMemory>
    ensures { IfOk result (λ c. class_of c ≡ spec.with_lists listed.now.keys (class_of class.entry)) }
{
    let mut class = class;
    match mark_shared(&mut class.props, listed) {
        Ok(()) => Ok(class),
        Err(_) => {
            drop(class);
            Err(NoMemory)
        }
    }
}

/// The classes from the last one back, where listed properties can be random.
fn marked_backwards<'a>(
    alloc: Heap,
    classes: Items<ClassNames<'a>>,
    listed: &IndexSet<Home>,
) -> Result<Items<ClassNames<'a>>, NoMemory>
    ensures { IfOk result (λ cs. map class_of cs ≡ reverse (map (spec.with_lists listed.now.keys) (map class_of classes.entry))) }
{
    let mut rest = classes;
    let mut marked = Items::new(alloc);
    while let Some(class) = rest.pop() {
        marked.push(with_lists(class, listed)?)?;
    }
    Ok(marked)
}

fn backwards<'a>(
    alloc: Heap,
    classes: Items<ClassNames<'a>>,
) -> Result<Items<ClassNames<'a>>, NoMemory>
    ensures { IfOk result (λ cs. cs ≡ reverse classes.entry) }
{
    let mut rest = classes;
    let mut turned = Items::new(alloc);
    while let Some(class) = rest.pop() {
        turned.push(class)?;
    }
    Ok(turned)
}

/// The classes, where the properties of these calls' lists can be random too.
#[tactic(auto, using(crate::proofs::Listed::turned_back))]
pub fn with_random<'a>(
    alloc: Heap,
    classes: Items<ClassNames<'a>>,
    listed: &IndexSet<Home>,
) -> Result<Items<ClassNames<'a>>, NoMemory>
    ensures { IfOk result (λ cs. map class_of cs ≡ spec.classes_with listed.now.keys (map class_of classes.entry)) }
{
    let marked = marked_backwards(alloc, classes, listed)?;
    backwards(alloc, marked)
}
