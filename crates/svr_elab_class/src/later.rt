// The names of a class's own properties, which can be used anywhere in it (IEEE 1800-2017, 8.5).

ghost use Rattle.std.specs.Prelude.{◌≡◌, OnOk, map};
ghost use Rattle.svr_token.specs.Names.{names_of};
ghost use Rattle.svr_tree.specs.DeclTree.{declarator_tree, class_item_tree};
ghost use Rattle.svr_elab_names.specs.Tables.{bytes_of};
ghost use Rattle.svr_elab_class.specs.Classes as spec;

use crate::head::with_name;
use indexmap::IndexSet;
use svr_token::Names;
use svr_tree::{ClassItem, Declarator};
use svr_typed::NoMemory;

fn declared_names<'a>(
    names: &Names<'a>,
    known: &mut IndexSet<&'a [u8]>,
    list: &[Declarator],
) -> Result<(), NoMemory>
    ensures { OnOk result (map bytes_of known.new.keys ≡ spec.declared_names (names_of names.now) (map bytes_of known.old.keys) (map declarator_tree list.now)) }
{
    for declarator in list {
        with_name(known, names.name(declarator.name))?;
    }
    Ok(())
}

fn item_names<'a>(
    names: &Names<'a>,
    known: &mut IndexSet<&'a [u8]>,
    item: &ClassItem,
) -> Result<(), NoMemory>
    ensures { OnOk result (map bytes_of known.new.keys ≡ spec.item_names (names_of names.now) (map bytes_of known.old.keys) (class_item_tree item.now)) }
{
    match item {
        ClassItem::Property(property) => declared_names(names, known, property.decls.as_slice()),
        ClassItem::Constraint(_) => Ok(()),
    }
}

/// The names of the properties that these items declare, besides those that are known.
pub(crate) fn own_properties<'a>(
    names: &Names<'a>,
    known: &mut IndexSet<&'a [u8]>,
    items: &[ClassItem],
) -> Result<(), NoMemory>
    ensures { OnOk result (map bytes_of known.new.keys ≡ spec.own_properties (names_of names.now) (map bytes_of known.old.keys) (map class_item_tree items.now)) }
{
    for item in items {
        item_names(names, known, item)?;
    }
    Ok(())
}
