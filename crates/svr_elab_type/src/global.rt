// Names of types, classes and enum members: each once, in the order of the text.

ghost use Rattle.std.specs.Prelude.{◌≡◌, length, map, IfOk};
ghost use Rattle.svr_token.specs.Names.{names_of};
ghost use Rattle.svr_elab_fault.specs.Refusals.{first_one};
ghost use Rattle.svr_elab_names.specs.Tables.{space_of, global_of, class_of};
ghost use Rattle.svr_elab_type.specs.Types as spec;
ghost use Rattle.svr_elab_type.specs.Seen.{AreEmpty};

use indexmap::{IndexMap, IndexSet};
use sqlite_items::Items;
use std::alloc::Global as Heap;
use svr_elab_fault::{Fault, when};
use svr_elab_names::{ClassNames, Global, LoopName, NameSpace, PropEntry, Region, VarStand};
use svr_refusal::Refusal;
use svr_token::Names;
use svr_typed::NoMemory;

/// What no declaration outside of classes can name: properties, loops, variables and objects.
#[derive(Drop)]
pub struct NoNames<'a> {
    pub props: IndexMap<&'a [u8], PropEntry>,
    pub later: IndexSet<&'a [u8]>,
    pub loops: Items<LoopName<'a>>,
    pub vars: IndexMap<&'a [u8], VarStand>,
    pub made: IndexSet<u32>,
}

impl<'a> NoNames<'a> {
    /// No property, class, variable or loop.
    pub fn new(alloc: Heap) -> NoNames<'a>
        ensures { AreEmpty result }
    {
        NoNames {
            props: IndexMap::new(alloc),
            later: IndexSet::new(alloc),
            loops: Items::new(alloc),
            vars: IndexMap::new(alloc),
            made: IndexSet::new(alloc),
        }
    }
}

/// What can be named in a declaration outside of classes.
pub fn declaring<'s, 'a>(
    names: Names<'a>,
    globals: &'s IndexMap<&'a [u8], Global>,
    classes: &'s [ClassNames<'a>],
    none: &'s NoNames<'a>,
) -> NameSpace<'s, 'a>
    requires { AreEmpty none.now }
    ensures space { space_of result ≡ spec.declaring (names_of names.entry) (map global_of globals.now.entries) (map class_of classes.now) }
    ensures vars { length result.vars.now.entries ≡ 0 }
    ensures loops { length result.loops.now ≡ 0 }
{
    NameSpace {
        names,
        region: Region::Declaration,
        globals,
        classes,
        props: &none.props,
        later: &none.later,
        loops: none.loops.as_slice(),
        vars: &none.vars,
        made: &none.made,
    }
}

/// The names with one more, unless it is there.
pub fn and_name<'a>(
    globals: IndexMap<&'a [u8], Global>,
    name: &'a [u8],
    stands: Global,
) -> Result<IndexMap<&'a [u8], Global>, NoMemory>
    ensures { IfOk result (λ m. map global_of m.entries ≡ spec.and_name (map global_of globals.entry.entries) name.now stands) }
{
    let mut globals = globals;
    if globals.get(name).is_some() {
        return Ok(globals);
    }
    match globals.insert(name, stands) {
        Ok(_) => Ok(globals),
        Err(_) => Err(NoMemory),
    }
}

/// A name that is already there is declared twice.
pub fn double(globals: &IndexMap<&[u8], Global>, name: &[u8], at: u32) -> Option<Fault>
    ensures { result ≡ spec.double_name first_one (map global_of globals.now.entries) name.now at }
{
    when(globals.get(name).is_some(), at, Refusal::DoubleName)
}
