// Inheritance (IEEE 1800-2017, 8.13 and 18.5.2).

ghost use Rattle.std.specs.Prelude.{◌≡◌, ◌++◌, map, OnOk, IfOk};
ghost use Rattle.svr_typed.specs.ClassTerm.{class_terms, flat_term};
ghost use Rattle.svr_flat.specs.Along.{props_along, props_over};
ghost use Rattle.svr_flat.specs.Flat.{flat_class_of};
ghost use Rattle.svr_flat.specs.Known.{AreKnown};

use crate::items::copy_prop;
use crate::lineage::{Known, base_blocks, base_props, lineage_of};
use crate::memory::{both, push};
use crate::standing::blocks_of;
use sqlite_items::Items;
use std::alloc::Global;
use svr_typed::{Design, FlatClass, NoMemory, Prop, TClass};

fn append_props(alloc: Global, props: &mut Vec<Prop>, own: &[Prop]) -> Result<(), NoMemory>
    ensures { OnOk result (props.new.items ≡ props.old.items ++ own.now) }
{
    for prop in own {
        let copy = copy_prop(alloc, prop)?;
        push(props, copy)?;
    }
    Ok(())
}

/// The properties of the class of this number behind those of its base.
fn derive_props(
    alloc: Global,
    props: Vec<Prop>,
    classes: &[TClass],
    class: u32,
) -> Result<Vec<Prop>, NoMemory>
    ensures { IfOk result (λ ps. ps.items ≡ props_over (class_terms classes.now) props.items class) }
{
    match classes.get(class as usize) {
        None => Ok(Vec::new(alloc)),
        Some(own) => {
            let mut props = props;
            append_props(alloc, &mut props, own.props.as_slice())?;
            Ok(props)
        }
    }
}

/// The properties along a lineage over given ones, those of each class behind those of its base.
fn props_of(
    alloc: Global,
    classes: &[TClass],
    lineage: Vec<u32>,
    base: &[Prop],
) -> Result<Items<Prop>, NoMemory>
    ensures { IfOk result (λ ps. ps ≡ props_along (class_terms classes.now) lineage.items base.now) }
{
    let mut lineage = lineage;
    let mut props = Vec::new(alloc);
    append_props(alloc, &mut props, base)?;
    while let Some(class) = lineage.pop() {
        props = derive_props(alloc, props, classes, class)?;
    }
    Ok(Items::from_vec(props))
}

/// A class together with what it inherits, made from the nearest class above it that is known.
pub fn flatten_over(
    alloc: Global,
    design: &Design,
    known: &Known<'_>,
    class: u32,
) -> Result<FlatClass, NoMemory>
    requires { AreKnown (class_terms design.now.classes) (map flat_term known.now.flats.now) known.now.marks.now }
    ensures { IfOk result (λ flat. flat_term flat ≡ flat_class_of (class_terms design.now.classes) class) }
{
    let classes = design.classes.as_slice();
    let (lineage, base) = lineage_of(alloc, classes, known, class)?;
    let blocks = blocks_of(alloc, classes, &lineage, base_blocks(known, base));
    let props = props_of(alloc, classes, lineage, base_props(known, base));
    let (props, blocks) = both(props, blocks)?;
    Ok(FlatClass { props, blocks })
}

/// A class together with what it inherits: the properties of its base class first, and its own blocks behind the inherited ones that none of them replaces (IEEE 1800-2017, 18.5.2). A number that names no class gives neither properties nor blocks.
pub fn flatten(alloc: Global, design: &Design, class: u32) -> Result<FlatClass, NoMemory>
    ensures { IfOk result (λ flat. flat_term flat ≡ flat_class_of (class_terms design.now.classes) class) }
{
    let none = Known {
        flats: &[],
        marks: &[],
    };
    flatten_over(alloc, design, &none, class)
}
