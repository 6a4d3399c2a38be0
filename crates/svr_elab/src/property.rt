// Properties as they stand in a design (IEEE 1800-2017, 7.4, 8.5 and 18.4).

ghost use Rattle.std.specs.Prelude.{◌≡◌, ◌+◌, Some, [], map, drop, IfOk};
ghost use Rattle.svr_elab_names.specs.Tables.{prop_of};
ghost use Rattle.svr_elab_part.specs.Shapes.{inner_of as inner_in, and_more};
ghost use Rattle.svr_elab.specs.Script as spec;

use indexmap::IndexMap;
use sqlite_items::Items;
use std::alloc::Global;
use svr_elab_expr::beside;
use svr_elab_form::pushed;
use svr_elab_names::{Dims, PropEntry};
use svr_limits::ELEMENT_LIMIT;
use svr_typed::{ArrayKind, NoMemory, Prop, Text};

/// A name of a design.
pub(crate) fn text(alloc: Global, name: &[u8]) -> Result<Text, NoMemory>
    ensures { IfOk result (λ t. t ≡ name.now) }
{
    let bytes = Vec::from_slice(alloc, name)?;
    Ok(Text::from_vec(bytes))
}

fn fixed(size: u64) -> Option<ArrayKind>
    ensures { result ≡ spec.fixed size }
{
    if u64::from(ELEMENT_LIMIT) < size {
        None
    } else {
        Some(ArrayKind::Fixed(size as u32))
    }
}

fn fixed_of(size: Option<u32>) -> Option<ArrayKind>
    ensures { result ≡ spec.fixed_of size }
{
    match size {
        None => None,
        Some(size) => fixed(u64::from(size)),
    }
}

fn rows_of(rows: Option<u32>, inner: Option<u32>) -> Option<ArrayKind>
    ensures { result ≡ spec.rows_of rows inner }
{
    let Some(rows) = rows else {
        return None;
    };
    match inner {
        None => None,
        Some(inner) => fixed(u64::from(rows) * u64::from(inner)),
    }
}

/// Whether a property is an array, where its size is not refused.
fn array_kind(dims: Dims) -> Option<ArrayKind>
    ensures { result ≡ spec.array_kind dims }
{
    match dims {
        Dims::Scalar => Some(ArrayKind::Scalar),
        Dims::Fixed(size) => fixed_of(size),
        Dims::Rows(rows, inner) => rows_of(rows, inner),
        Dims::Dynamic => Some(ArrayKind::Dynamic),
    }
}

/// The second dimension of an array, 1 where there is none.
fn inner_of(dims: Dims) -> Option<u32>
    ensures { result ≡ inner_in dims }
{
    match dims {
        Dims::Rows(_, inner) => inner,
        Dims::Scalar | Dims::Fixed(_) | Dims::Dynamic => Some(1),
    }
}

/// A property, where its type and its dimensions are known.
fn property(alloc: Global, name: &[u8], entry: PropEntry) -> Result<Option<Prop>, NoMemory>
    ensures { IfOk result (λ p. p ≡ spec.property (record { name = name.now; property = entry.property; first = entry.first })) }
{
    let declared = entry.property;
    let Some(vector) = declared.kind else {
        return Ok(None);
    };
    let Some(array) = array_kind(declared.dims) else {
        return Ok(None);
    };
    let Some(inner) = inner_of(declared.dims) else {
        return Ok(None);
    };
    let name = text(alloc, name)?;
    Ok(Some(Prop {
        name,
        kind: vector.kind,
        rand: declared.rand,
        array,
        first: entry.first,
        low: vector.low,
        can: declared.random,
        inner,
    }))
}

/// One more property, where all are known.
fn and_property(
    known: Option<Items<Prop>>,
    next: Option<Prop>,
) -> Result<Option<Items<Prop>>, NoMemory>
    ensures { IfOk result (λ ps. ps ≡ and_more known next) }
{
    match known.zip(next) {
        None => Ok(None),
        Some((known, next)) => Ok(Some(pushed(known, next)?)),
    }
}

/// The properties with the one at a place, where there is one and all are known.
fn next_property(
    alloc: Global,
    known: Option<Items<Prop>>,
    props: &IndexMap<&[u8], PropEntry>,
    place: usize,
) -> Result<Option<Items<Prop>>, NoMemory>
    ensures { IfOk result (λ ps. spec.each_known spec.property ps (drop (place + 1) (map prop_of props.now.entries)) ≡ spec.each_known spec.property known (drop place (map prop_of props.now.entries))) }
{
    match props.get_index(place) {
        None => Ok(known),
        Some((name, entry)) => {
            let next = property(alloc, name, *entry);
            let (known, next) = beside(known, next)?;
            let all = and_property(known, next)?;
            Ok(all)
        }
    }
}

/// The properties from this place on, where all are known.
pub(crate) fn properties(
    alloc: Global,
    props: &IndexMap<&[u8], PropEntry>,
    from: usize,
) -> Result<Option<Items<Prop>>, NoMemory>
    ensures { IfOk result (λ ps. ps ≡ spec.each_known spec.property (Some []) (drop from (map prop_of props.now.entries))) }
{
    let mut known = Some(Items::new(alloc));
    for place in from..props.len() {
        known = next_property(alloc, known, props, place)?;
    }
    Ok(known)
}
