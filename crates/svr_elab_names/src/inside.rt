// Names inside a loop.

ghost use Rattle.std.specs.Prelude.{◌≡◌, ◌∷◌, ◌+◌, IfOk, length, map};
ghost use Rattle.svr_elab_names.specs.Names as spec;
ghost use Rattle.svr_elab_names.specs.Tables.{space_of, loop_of};

use crate::meaning::Property;
use crate::space::{LoopName, NameSpace};
use sqlite_items::Items;
use std::alloc::{AllocError, Global};

/// The loops around a place inside one more, the innermost first.
fn loops_inside<'a>(
    alloc: Global,
    entry: LoopName<'a>,
    outer: &[LoopName<'a>],
) -> Result<Items<LoopName<'a>>, AllocError>
    ensures loops { IfOk result (λ ls. map loop_of ls ≡ loop_of entry.entry ∷ map loop_of outer.now) }
    ensures length { IfOk result (λ ls. length ls ≡ length outer.now + 1) }
{
    let mut loops = Items::new(alloc);
    loops.push(entry)?;
    for each in outer {
        loops.push(*each)?;
    }
    Ok(loops)
}

impl<'s, 'a> NameSpace<'s, 'a> {
    /// The loops inside a `foreach` whose loop variable has this name.
    pub fn in_loop(&self, alloc: Global, name: u32) -> Result<Items<LoopName<'a>>, AllocError>
        ensures space { IfOk result (λ ls. spec.with_loops (space_of self.now) (map loop_of ls) ≡ spec.in_loop (space_of self.now) name) }
        ensures length { IfOk result (λ ls. length ls ≡ length self.now.loops.now + 1) }
    {
        let entry = LoopName {
            name: self.names.name(name),
            item: None,
        };
        loops_inside(alloc, entry, self.loops)
    }

    /// The loops inside a reduction of an array, whose element has the name that is given, or `item`.
    pub fn in_reduction(
        &self,
        alloc: Global,
        property: Property,
        item: Option<u32>,
    ) -> Result<Items<LoopName<'a>>, AllocError>
        ensures space { IfOk result (λ ls. spec.with_loops (space_of self.now) (map loop_of ls) ≡ spec.in_reduction (space_of self.now) property item) }
        ensures length { IfOk result (λ ls. length ls ≡ length self.now.loops.now + 1) }
    {
        let name = match item {
            None => b"item".as_slice(),
            Some(name) => self.names.name(name),
        };
        let entry = LoopName {
            name,
            item: Some(property),
        };
        loops_inside(alloc, entry, self.loops)
    }

    /// The same names with other loops around.
    pub fn with_loops<'t>(&self, loops: &'t [LoopName<'a>]) -> NameSpace<'t, 'a>
    where
        's: 't,
        ensures space { space_of result ≡ spec.with_loops (space_of self.now) (map loop_of loops.now) }
        ensures loops { length result.loops.now ≡ length loops.now }
        ensures vars { length result.vars.now.entries ≡ length self.now.vars.now.entries }
    {
        NameSpace {
            names: self.names,
            region: self.region,
            globals: self.globals,
            classes: self.classes,
            props: self.props,
            later: self.later,
            loops,
            vars: self.vars,
            made: self.made,
        }
    }
}
