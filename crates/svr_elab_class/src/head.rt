// What stands around the items of a class, and what is known of it after some of them.

ghost use Rattle.std.specs.Prelude.{◌≡◌, OnOk, map, length};
ghost use Rattle.std.specs.List.{list_any};
ghost use Rattle.svr_elab_names.specs.Names.{is_name, is_same, class_props};
ghost use Rattle.svr_elab_names.specs.Tables.{space_of, prop_of, class_of, bytes_of};
ghost use Rattle.svr_elab_part.specs.Fits.{MembersFit};
ghost use Rattle.svr_elab_type.specs.Seen.{AreEmpty};
ghost use Rattle.svr_elab_class.specs.Classes as spec;
ghost use Rattle.svr_elab_class.specs.Seen.{head_of};

use indexmap::{IndexMap, IndexSet};
use std::rc::Rc;
use svr_elab_fault::Fault;
use svr_elab_names::{ClassNames, Global, NameSpace, PropEntry, Region};
use svr_elab_type::NoNames;
use svr_token::Names;
use svr_typed::{EnumType, NoMemory};

/// What stands around the items of a class: its number, its base class, and what can be named in it but for its own properties. `later` are the names of all of its own properties; `none` is what no declaration can name.
#[derive(Clone, Copy)]
pub struct ClassHead<'s, 'a> {
    pub number: u32,
    pub base: Option<u32>,
    pub enums: &'s [EnumType],
    pub names: Names<'a>,
    pub globals: &'s IndexMap<&'a [u8], Global>,
    pub classes: &'s [ClassNames<'a>],
    pub later: &'s IndexSet<&'a [u8]>,
    pub none: &'s NoNames<'a>,
}

/// What is known of a class after some of its items: its properties in flat order, in its base's table as long as none is its own; how many of them are arrays, the names that it declares itself, and those of its blocks. Over the limit, arrays count as one more than it.
#[derive(Drop)]
pub struct ClassPart<'a> {
    pub props: Rc<IndexMap<&'a [u8], PropEntry>>,
    pub arrays: usize,
    pub own: IndexSet<&'a [u8]>,
    pub blocks: IndexSet<&'a [u8]>,
    pub fault: Option<Fault>,
}

impl<'s, 'a> ClassHead<'s, 'a> {
    /// What can be named behind these properties.
    pub(crate) fn behind<'t>(&self, props: &'t IndexMap<&'a [u8], PropEntry>) -> NameSpace<'t, 'a>
    where
        's: 't,
        requires none { AreEmpty self.now.none.now }
        requires members { MembersFit (head_of self.now).names }
        ensures space { space_of result ≡ spec.behind (head_of self.now) (map prop_of props.now.entries) }
        ensures vars { length result.vars.now.entries ≡ 0 }
        ensures loops { length result.loops.now ≡ 0 }
        ensures members { MembersFit (space_of result) }
    {
        NameSpace {
            names: self.names,
            region: Region::Declaration,
            globals: self.globals,
            classes: self.classes,
            props,
            later: self.later,
            loops: self.none.loops.as_slice(),
            vars: &self.none.vars,
            made: &self.none.made,
        }
    }
}

fn has_property(props: &IndexMap<&[u8], PropEntry>, name: &[u8]) -> bool
    ensures { result ≡ is_name (λ p. p.name) name.now (map prop_of props.now.entries) }
{
    props.get(name).is_some()
}

/// Whether a base class has a property of this name.
pub(crate) fn is_inherited(classes: &[ClassNames<'_>], base: Option<u32>, name: &[u8]) -> bool
    ensures { result ≡ is_name (λ p. p.name) name.now (spec.props_at (map class_of classes.now) base) }
{
    let Some(base) = base else {
        return false;
    };
    match classes.get(base as usize) {
        None => false,
        Some(class) => has_property(class.props.as_ref(), name),
    }
}

/// Whether a name is among these.
#[tactic(auto, using(svr_elab_names::proofs::Entries::is_among))]
pub(crate) fn is_among(names: &IndexSet<&[u8]>, name: &[u8]) -> bool
    ensures { result ≡ list_any (is_same name.now) (map bytes_of names.now.keys) }
{
    names.contains(name)
}

/// One more name, unless it is there.
pub(crate) fn with_name<'a>(names: &mut IndexSet<&'a [u8]>, name: &'a [u8]) -> Result<(), NoMemory>
    ensures { OnOk result (map bytes_of names.new.keys ≡ spec.with_name (map bytes_of names.old.keys) name.now) }
{
    match names.insert(name) {
        Ok(_) => Ok(()),
        Err(_) => Err(NoMemory),
    }
}
