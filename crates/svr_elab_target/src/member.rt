// What a mode names behind an object (IEEE 1800-2017, 18.8 and 18.9).

ghost use Rattle.std.specs.Prelude.{◌≡◌, IfOk, map};
ghost use Rattle.svr_token.specs.Names.{names_of};
ghost use Rattle.svr_elab_names.specs.Names as names_spec;
ghost use Rattle.svr_elab_names.specs.Tables.{space_of, class_of};
ghost use Rattle.svr_elab_target.specs.Named as spec;
ghost use Rattle.svr_elab_target.specs.Fits.{BlocksFit};
ghost use Rattle.svr_elab_target.specs.Kept.{IsKept};

use crate::chain::{FlatNames, class_block};
use crate::property::class_property;
use std::alloc::Global;
use svr_elab_names::NameSpace;
use svr_tree::ModeKind;
use svr_typed::NoMemory;

fn property_number(class: u32, name: u32, names: &NameSpace<'_, '_>) -> Option<u32>
    ensures { result ≡ spec.property_number (names_spec.class_props (map class_of names.now.classes.now) class) (names_of names.now.names name) }
{
    match class_property(class, name, names) {
        None => None,
        Some(property) => Some(property.number),
    }
}

/// The property, or the block, of this class whose name stands at this token.
fn member_number<'a>(
    alloc: Global,
    kind: ModeKind,
    class: u32,
    name: u32,
    names: &NameSpace<'_, 'a>,
    flat: &mut FlatNames<'a>,
) -> Result<Option<u32>, NoMemory>
    requires blocks { BlocksFit (space_of names.now) }
    requires kept { IsKept (space_of names.now) flat.old }
    ensures number { IfOk result (λ n. n ≡ spec.member_number kind (space_of names.now) class (names_of names.now.names name)) }
    ensures kept { IsKept (space_of names.now) flat.new }
{
    match kind {
        ModeKind::Rand => Ok(property_number(class, name, names)),
        ModeKind::Constraint => class_block(alloc, class, name, names, flat),
    }
}

/// The property, or the block, that stands behind the object variable.
pub fn mode_member<'a>(
    alloc: Global,
    kind: ModeKind,
    class: u32,
    rest: &[u32],
    names: &NameSpace<'_, 'a>,
    flat: &mut FlatNames<'a>,
) -> Result<Option<u32>, NoMemory>
    requires blocks { BlocksFit (space_of names.now) }
    requires kept { IsKept (space_of names.now) flat.old }
    ensures number { IfOk result (λ n. n ≡ spec.mode_member kind (space_of names.now) class rest.now) }
    ensures kept { IsKept (space_of names.now) flat.new }
{
    match rest.first() {
        None => Ok(None),
        Some(name) => member_number(alloc, kind, class, *name, names, flat),
    }
}

/// The name with which the path can't be that of a mode any more.
pub fn wrong_member(member: Option<u32>, rest: &[u32]) -> Option<u32>
    ensures { result ≡ spec.wrong_member member rest.now }
{
    match rest {
        [] => None,
        [name] => match member {
            None => Some(*name),
            Some(_) => None,
        },
        [name, next, ..] => match member {
            None => Some(*name),
            Some(_) => Some(*next),
        },
    }
}

/// The first of the names that stand behind an object, where none may.
pub fn wrong_rest(rest: &[u32]) -> Option<u32>
    ensures { result ≡ spec.wrong_rest rest.now }
{
    match rest.first() {
        None => None,
        Some(name) => Some(*name),
    }
}
