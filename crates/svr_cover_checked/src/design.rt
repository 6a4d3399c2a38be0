// Names of a script.

ghost use Rattle.std.specs.Prelude.{◌≡◌};
ghost use Rattle.svr_cover_checked.specs.Design as spec;
ghost use Rattle.svr_cover_checked.specs.Places.{is_same};

use sqlite_items::at;
use svr_typed::{ArrayKind, FlatClass, Prop, TClass};

/// Whether two names are the same.
pub(crate) fn is_same(first: &[u8], second: &[u8]) -> bool
    ensures { result ≡ is_same first.now second.now }
{
    first == second
}

/// The number of the class of a name.
pub fn class_of(classes: &[TClass], name: &[u8]) -> Option<usize>
    ensures { result ≡ spec.class_from 0 classes.now name.now }
{
    let mut at: usize = 0;
    let mut left = classes;
    'classes: while let Some((class, others)) = left.split_first() {
        if is_same(class.name.as_bytes(), name) {
            return Some(at);
        }
        left = others;
        at += 1;
    }
    None
}

/// The place of a property, if it is a scalar.
fn if_scalar(prop: &Prop, place: usize) -> Option<usize>
    ensures { result ≡ spec.if_scalar prop.now.array place }
{
    match prop.array {
        ArrayKind::Scalar => Some(place),
        ArrayKind::Fixed(_) => None,
        ArrayKind::Dynamic => None,
    }
}

/// The place of the scalar property of a name.
pub fn prop_of(props: &[Prop], name: &[u8]) -> Option<usize>
    ensures { result ≡ spec.prop_from 0 props.now name.now }
{
    let mut at: usize = 0;
    let mut left = props;
    'props: while let Some((prop, others)) = left.split_first() {
        if is_same(prop.name.as_bytes(), name) {
            return if_scalar(prop, at);
        }
        left = others;
        at += 1;
    }
    None
}

/// The properties of a class with what it inherits, none where there is no such class.
pub fn props_of(flats: &[FlatClass], class: Option<usize>) -> &[Prop]
    ensures { result.now ≡ spec.props_of flats.now class }
{
    match class {
        None => &[],
        Some(class) => match at(flats, class) {
            Some(flat) => flat.props.as_slice(),
            None => &[],
        },
    }
}
