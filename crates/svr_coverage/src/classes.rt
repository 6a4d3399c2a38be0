// The classes that groups name, with what they inherit.

ghost use Rattle.std.specs.Prelude.{◌≡◌, ◌∷◌, [], ◌++◌, map, take, slice_set, IfOk, OnOk};
ghost use Rattle.svr_token.specs.Names.{names_of};
ghost use Rattle.svr_typed.specs.ClassTerm.{flat_term, class_terms};
ghost use Rattle.svr_flat.specs.Flat.{no_class, flat_class_of};
ghost use Rattle.svr_cover_checked.specs.declared.limits.TheConstants.{MOST_GROUPS};
ghost use Rattle.svr_coverage.specs.Classes as spec;

use sqlite_items::Items;
use std::alloc::Global;
use svr_cover_checked::{MOST_GROUPS, class_of};
use svr_cover_text::GroupText;
use svr_flat::flatten;
use svr_token::Names;
use svr_typed::{Design, FlatClass, NoMemory, TClass};

/// A class of which nothing is declared.
fn nothing(alloc: Global) -> FlatClass
    ensures { flat_term result ≡ no_class }
{
    FlatClass::new(Items::new(alloc), Items::new(alloc))
}

/// One more class.
fn keep(flats: &mut Items<FlatClass>, flat: FlatClass) -> Result<(), NoMemory>
    ensures { OnOk result (flats.new ≡ flats.old ++ flat ∷ []) }
{
    match flats.push(flat) {
        Ok(()) => Ok(()),
        Err(_) => Err(NoMemory),
    }
}

/// In place of each class one of which nothing is declared.
fn nothing_of_each(alloc: Global, classes: &[TClass]) -> Result<Items<FlatClass>, NoMemory>
    ensures { IfOk result (λ flats. map flat_term flats ≡ map spec.nothing classes.now) }
{
    let mut flats = Items::new(alloc);
    let mut left = classes;
    'classes: while let Some((_, others)) = left.split_first() {
        keep(&mut flats, nothing(alloc))?;
        left = others;
    }
    Ok(flats)
}

/// The number of a class; so many classes that 32 bits cannot number them are in no memory.
fn number(class: usize) -> Result<u32, NoMemory>
    ensures { IfOk result (λ n. n ≡ class) }
{
    if class > u32::MAX as usize {
        return Err(NoMemory);
    }
    Ok(class as u32)
}

/// A class with what it inherits.
fn flat_of(alloc: Global, design: &Design, class: usize) -> Result<FlatClass, NoMemory>
    ensures { IfOk result (λ flat. flat_term flat ≡ flat_class_of (class_terms design.now.classes) class) }
{
    let class = number(class)?;
    flatten(alloc, design, class)
}

/// Puts a class at its place, if there is one.
#[tactic(auto, using(crate::proofs::Named::put_there, crate::proofs::Named::put_nowhere))]
fn put(flats: &mut Items<FlatClass>, class: usize, flat: FlatClass)
    ensures { map flat_term flats.new ≡ slice_set (map flat_term flats.old) class (flat_term flat) }
{
    if class < flats.len() {
        flats.set(class, flat);
    }
}

/// With the class of this number.
fn with_class(
    alloc: Global,
    design: &Design,
    flats: &mut Items<FlatClass>,
    class: Option<usize>,
) -> Result<(), NoMemory>
    ensures { OnOk result (map flat_term flats.new ≡ spec.with_class (class_terms design.now.classes) (map flat_term flats.old) class) }
{
    match class {
        Some(class) => {
            let flat = flat_of(alloc, design, class)?;
            put(flats, class, flat);
            Ok(())
        }
        None => Ok(()),
    }
}

/// As many groups as there may be.
#[tactic(auto, using(std::proofs::lemmas::List::take_min))]
fn first_groups(groups: &[GroupText]) -> &[GroupText]
    ensures { result.now ≡ take MOST_GROUPS groups.now }
{
    &groups[..MOST_GROUPS.min(groups.len())]
}

/// The classes of a design: those that groups name with what they inherit, and in place of the others one of which nothing is declared. What a class inherits is made for no other, since a chain of classes that all add something inherits more than it has.
pub(crate) fn named_classes(
    alloc: Global,
    names: Names<'_>,
    design: &Design,
    groups: &[GroupText],
) -> Result<Items<FlatClass>, NoMemory>
    ensures { IfOk result (λ flats. map flat_term flats ≡ spec.named_classes (names_of names.entry) design.now.classes groups.now) }
{
    let classes = design.classes.as_slice();
    let mut flats = nothing_of_each(alloc, classes)?;
    let mut left = first_groups(groups);
    'groups: while let Some((group, others)) = left.split_first() {
        let class = class_of(classes, names.name(group.class));
        with_class(alloc, design, &mut flats, class)?;
        left = others;
    }
    Ok(flats)
}
