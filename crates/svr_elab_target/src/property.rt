// Properties of a class by name.

ghost use Rattle.std.specs.Prelude.{◌≡◌, map};
ghost use Rattle.svr_token.specs.Names.{names_of};
ghost use Rattle.svr_elab_names.specs.Names as names_spec;
ghost use Rattle.svr_elab_names.specs.Tables.{class_of, prop_of};

use indexmap::IndexMap;
use svr_elab_names::{NameSpace, PropEntry, Property};

#[tactic(auto, using(svr_elab_names::proofs::Entries::prop_found))]
fn property_named(props: &IndexMap<&[u8], PropEntry>, name: &[u8]) -> Option<Property>
    ensures { result ≡ names_spec.property_named (map prop_of props.now.entries) name.now }
{
    match props.get(name) {
        None => None,
        Some(entry) => Some(entry.property),
    }
}

/// The property of this class whose name stands at this token.
pub fn class_property(class: u32, name: u32, names: &NameSpace<'_, '_>) -> Option<Property>
    ensures { result ≡ names_spec.property_named (names_spec.class_props (map class_of names.now.classes.now) class) (names_of names.now.names name) }
{
    match names.classes.get(class as usize) {
        None => None,
        Some(class) => property_named(class.props.as_ref(), names.names.name(name)),
    }
}
