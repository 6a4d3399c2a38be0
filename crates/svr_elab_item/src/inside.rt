// Names inside the loops of a `foreach`.

ghost use Rattle.std.specs.Prelude.{◌≡◌, ◌+◌, IfOk, length, map};
ghost use Rattle.svr_elab_names.specs.Names as names_spec;
ghost use Rattle.svr_elab_names.specs.Tables.{space_of, loop_of};
ghost use Rattle.svr_elab_item.specs.Items as spec;

use sqlite_items::Items;
use std::alloc::Global;
use svr_elab_names::{LoopName, NameSpace};
use svr_typed::NoMemory;

/// These loops, and one more of this name inside of them.
fn one_inside<'a>(
    alloc: Global,
    names: &NameSpace<'_, 'a>,
    loops: Items<LoopName<'a>>,
    name: u32,
) -> Result<Items<LoopName<'a>>, NoMemory>
    ensures space { IfOk result (λ ls. names_spec.with_loops (space_of names.now) (map loop_of ls) ≡ names_spec.in_loop (names_spec.with_loops (space_of names.now) (map loop_of loops.entry)) name) }
    ensures length { IfOk result (λ ls. length ls ≡ length loops.entry + 1) }
{
    let inner = names.with_loops(loops.as_slice()).in_loop(alloc, name);
    drop(loops);
    Ok(inner?)
}

/// The loops inside a `foreach` with these names, the last one innermost.
pub fn in_body<'a>(
    alloc: Global,
    names: &NameSpace<'_, 'a>,
    vars: &[u32],
) -> Result<Items<LoopName<'a>>, NoMemory>
    ensures space { IfOk result (λ ls. names_spec.with_loops (space_of names.now) (map loop_of ls) ≡ spec.in_body (space_of names.now) vars.now) }
    ensures length { IfOk result (λ ls. length ls ≡ length names.now.loops.now + length vars.now) }
{
    let mut loops = Items::from_slice(alloc, names.loops)?;
    for name in vars {
        loops = one_inside(alloc, names, loops, *name)?;
    }
    Ok(loops)
}
