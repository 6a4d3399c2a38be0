// The classes of a script, each with what it inherits.

ghost use Rattle.std.specs.Prelude.{◌≡◌, ℕ, map, length, slice_index_or, IfOk};
ghost use Rattle.std.specs.List.{range_with_len};
ghost use Rattle.svr_typed.specs.ClassTerm.{flat_term, class_terms};
ghost use Rattle.svr_typed.specs.StmtTerm.{design_term};
ghost use Rattle.svr_flat.specs.Flat.{no_class};
ghost use Rattle.svr_flat.specs.Known.{AreKnown};
ghost use Rattle.svr_script.specs.Statement.{flat_of_var};
ghost use Rattle.svr_effect.specs.Inherited.{AreClasses, IsNamed, KeepsWanted, wanted_class};

use crate::declared::class_of_var;
use crate::memory::pushed;
use crate::wanted::{is_wanted, want, wanted_classes};
use sqlite_items::Items;
use std::alloc::Global;
use svr_flat::{Known, flatten_over};
use svr_typed::{Design, FlatClass, NoMemory, TClass};

/// The classes of a script by number, those of the object variables that a statement names with what they inherit, and those that two of them are made from in different ways; one of which nothing is declared in place of those that there are not. What a class inherits is made for no other, since a chain of classes that all add something inherits more than it has.
#[derive(Drop)]
pub struct Classes {
    pub flats: Items<FlatClass>,
    pub none: FlatClass,
}

/// A number of classes; so many that they cannot be counted are in no memory.
fn class_count(count: usize) -> Result<u32, NoMemory>
    ensures { IfOk result (λ n. n ≡ count) }
{
    if count > u32::MAX as usize {
        return Err(NoMemory);
    }
    Ok(count as u32)
}

/// A class of which nothing is declared.
fn no_class(alloc: Global) -> FlatClass
    ensures { flat_term result ≡ no_class }
{
    FlatClass::new(Items::new(alloc), Items::new(alloc))
}

/// The base of a class from which something is made has something made from it, and is wanted if it had so before.
fn want_fork(wanted: &mut Vec<bool>, below: &mut Vec<bool>, class: u32, base: Option<u32>)
    ensures { KeepsWanted wanted.old.items wanted.new.items }
{
    let Some(base) = base else {
        return;
    };
    if !is_wanted(wanted.as_slice(), class) && !is_wanted(below.as_slice(), class) {
        return;
    }
    if is_wanted(below.as_slice(), base) {
        want(wanted, base);
    } else {
        want(below, base);
    }
}

/// Those that are wanted, and those that two of them are made from in different ways: then each other class is a step on the way to one of them alone.
fn with_forks(alloc: Global, classes: &[TClass], wanted: Vec<bool>) -> Result<Vec<bool>, NoMemory>
    ensures { IfOk result (λ marks. KeepsWanted wanted.items marks.items) }
{
    let mut at = class_count(classes.len())?;
    let mut marks = wanted;
    let mut below = vec![in alloc; false; classes.len()]?;
    let mut left = classes;
    'classes: while let Some((class, others)) = left.split_last() {
        at -= 1;
        want_fork(&mut marks, &mut below, at, class.base);
        left = others;
    }
    Ok(marks)
}

/// A class with what it inherits, where it is wanted.
fn flat_class(
    alloc: Global,
    design: &Design,
    known: &Known<'_>,
    class: u32,
) -> Result<FlatClass, NoMemory>
    requires { AreKnown (class_terms design.now.classes) (map flat_term known.now.flats.now) known.now.marks.now }
    ensures { IfOk result (λ flat. flat_term flat ≡ wanted_class known.now.marks.now (class_terms design.now.classes) class) }
{
    if is_wanted(known.marks, class) {
        flatten_over(alloc, design, known, class)
    } else {
        Ok(no_class(alloc))
    }
}

/// Each class that is wanted with what it inherits, from the nearest above it that is wanted too.
fn flat_classes(
    alloc: Global,
    design: &Design,
    wanted: &[bool],
) -> Result<Items<FlatClass>, NoMemory>
    ensures { IfOk result (λ flats. map flat_term flats ≡ map (wanted_class wanted.now (class_terms design.now.classes)) (range_with_len 0 (length design.now.classes))) }
{
    let count = class_count(design.classes.len())?;
    let mut flats = Items::new(alloc);
    for class in 0..count {
        let known = Known {
            flats: flats.as_slice(),
            marks: wanted,
        };
        let flat = flat_class(alloc, design, &known, class);
        flats = pushed(flats, flat)?;
    }
    Ok(flats)
}

impl Classes {
    /// The classes of a script.
    pub fn new(alloc: Global, design: &Design) -> Result<Classes, NoMemory>
        ensures { IfOk result (λ x. AreClasses (design_term design.now) x) }
    {
        let wanted = wanted_classes(alloc, design)?;
        let marks = with_forks(alloc, design.classes.as_slice(), wanted)?;
        let flats = flat_classes(alloc, design, &marks)?;
        let none = no_class(alloc);
        Ok(Classes { flats, none })
    }

    /// The class of a number, as far as it is wanted.
    fn at(&self, class: u32) -> &FlatClass
        ensures { flat_term result.now ≡ slice_index_or (map flat_term self.now.flats) class (flat_term self.now.none) }
    {
        match self.flats.as_slice().get(class as usize) {
            Some(flat) => flat,
            None => &self.none,
        }
    }

    /// The class of an object variable that some statement of the design names.
    pub fn of_var(&self, design: &Design, object: u32) -> &FlatClass
        requires classes { AreClasses (design_term design.now) self.now }
        requires named { IsNamed (design_term design.now) object }
        ensures { flat_term result.now ≡ flat_of_var (design_term design.now) object }
    {
        self.at(class_of_var(design, object))
    }
}
