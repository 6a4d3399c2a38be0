// The classes that a class derives from (IEEE 1800-2017, 8.13), up to one that is known with what it inherits.

ghost use Rattle.std.specs.Prelude.{◌≡◌, None, length, map, slice_index_or, false, IfOk};
ghost use Rattle.svr_typed.specs.ClassTerm.{class_terms, block_terms, flat_term};
ghost use Rattle.svr_flat.specs.Flat.{base_of, flat_class_of};
ghost use Rattle.svr_flat.specs.Known.{knows, unknown};
ghost use Rattle.svr_flat.specs.Lineage.{base_before, classes_over, flat_if};

use crate::memory::push;
use std::alloc::Global;
use svr_typed::{FlatClass, NoMemory, Prop, TBlock, TClass};

/// Classes in their order with what they inherit, of which those that are marked are known.
#[derive(Clone, Copy)]
pub struct Known<'k> {
    pub flats: &'k [FlatClass],
    pub marks: &'k [bool],
}

/// The base of a class, where it stands before the class.
fn base_before(classes: &[TClass], class: u32) -> Option<u32>
    ensures { result ≡ base_before (class_terms classes.now) class }
{
    match classes.get(class as usize) {
        Some(own) => match own.base {
            Some(base) if base < class => Some(base),
            Some(_) => None,
            None => None,
        },
        None => None,
    }
}

fn is_marked(marks: &[bool], class: u32) -> bool
    ensures { result ≡ slice_index_or marks.now class false }
{
    match marks.get(class as usize) {
        Some(mark) => *mark,
        None => false,
    }
}

fn is_known(known: &Known<'_>, class: u32) -> bool
    ensures { result ≡ knows (length known.now.flats.now) known.now.marks.now class }
{
    (class as usize) < known.flats.len() && is_marked(known.marks, class)
}

/// A class, unless it is known.
fn unknown(known: &Known<'_>, class: Option<u32>) -> Option<u32>
    ensures { result ≡ unknown (length known.now.flats.now) known.now.marks.now class }
{
    let Some(class) = class else {
        return None;
    };
    if is_known(known, class) {
        None
    } else {
        Some(class)
    }
}

/// The number of a class and those of the classes above it, from the class up to the first that is known, and that one; none where there is no such class.
pub fn lineage_of(
    alloc: Global,
    classes: &[TClass],
    known: &Known<'_>,
    class: u32,
) -> Result<(Vec<u32>, Option<u32>), NoMemory>
    ensures over { IfOk result (λ r. classes_over (class_terms classes.now) r.0.items (flat_if (class_terms classes.now) r.1) ≡ flat_class_of (class_terms classes.now) class) }
    ensures end { IfOk result (λ r. unknown (length known.now.flats.now) known.now.marks.now r.1 ≡ None) }
{
    let mut lineage = Vec::new(alloc);
    let mut next = Some(class);
    'up: while let Some(at) = unknown(known, next) {
        push(&mut lineage, at)?;
        next = base_before(classes, at);
    }
    Ok((lineage, next))
}

/// The properties of a class that is known; none of no class.
pub fn base_props<'k>(known: &Known<'k>, base: Option<u32>) -> &'k [Prop]
    ensures { result.now ≡ (base_of (map flat_term known.now.flats.now) base).props }
{
    let Some(base) = base else {
        return &[];
    };
    match known.flats.get(base as usize) {
        Some(flat) => flat.props.as_slice(),
        None => &[],
    }
}

/// Its blocks.
pub fn base_blocks<'k>(known: &Known<'k>, base: Option<u32>) -> &'k [TBlock]
    ensures { block_terms result.now ≡ (base_of (map flat_term known.now.flats.now) base).blocks }
{
    let Some(base) = base else {
        return &[];
    };
    match known.flats.get(base as usize) {
        Some(flat) => flat.blocks.as_slice(),
        None => &[],
    }
}
