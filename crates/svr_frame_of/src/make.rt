// The frame of a call.

ghost use Rattle.std.specs.Prelude.{◌≡◌, IfOk};
ghost use Rattle.svr_typed.specs.ClassTerm.{flat_term};
ghost use Rattle.svr_typed.specs.StmtTerm.{call_term};
ghost use Rattle.svr_world.specs.World.{object_of};
ghost use Rattle.svr_frame.specs.Frame.{frame_term};
ghost use Rattle.svr_frame.specs.Making.{framed, frame_of};
ghost use Rattle.svr_frame.specs.Sound.{IsSound};
ghost use Rattle.svr_frame_of.specs.Callable.{state_of, IsCallable};

use crate::free::with_free_sizes;
use crate::held::both;
use crate::object::{active_items, random_set, state_of};
use crate::parts::{copy_class, copy_list};
use sqlite_items::Items;
use std::alloc::Global;
use svr_frame::Frame;
use svr_typed::{CallStmt, Design, FlatClass, NoMemory};
use svr_world::World;

/// The frame before it is known which sizes are free.
#[tactic(auto, using(crate::proofs::Steps::few_blocks))]
fn framed(
    alloc: Global,
    design: &Design,
    class: &FlatClass,
    world: &World,
    call: &CallStmt,
) -> Result<Frame, NoMemory>
    requires { IsCallable (flat_term class.now) design.now.enums (object_of world.now call.now.object) world.now.script (call_term call.now) }
    ensures { IfOk result (λ f. frame_term f ≡ framed (flat_term class.now) design.now.enums (state_of world.now call.now.object) (object_of world.now call.now.object).rand_modes (object_of world.now call.now.object).block_modes (call_term call.now)) }
{
    let object = call.object;
    let props = class.props.as_slice();
    let blocks = class.blocks.as_slice();
    let in_line = call.with.as_slice();
    let kinds = design.enums.as_slice();
    let numbers = both(
        state_of(alloc, world, object),
        random_set(alloc, props, &call.list, world, object),
    );
    let items = active_items(alloc, blocks, in_line, world, object);
    let copies = both(copy_class(alloc, class), copy_list(alloc, kinds));
    let ((state, random), (items, (class, enums))) = both(numbers, both(items, copies))?;
    let free_size = Items::new(alloc);
    Ok(Frame {
        class,
        enums,
        state,
        random,
        free_size,
        items,
    })
}

/// The frame of a call on an object (IEEE 1800-2017, 18.4 to 18.11). `class` is the class of the object with what it inherits.
pub fn make_frame(
    alloc: Global,
    design: &Design,
    class: &FlatClass,
    world: &World,
    call: &CallStmt,
) -> Result<Frame, NoMemory>
    requires callable { IsCallable (flat_term class.now) design.now.enums (object_of world.now call.now.object) world.now.script (call_term call.now) }
    ensures frame { IfOk result (λ f. frame_term f ≡ frame_of (flat_term class.now) design.now.enums (state_of world.now call.now.object) (object_of world.now call.now.object).rand_modes (object_of world.now call.now.object).block_modes (call_term call.now)) }
    ensures sound { IfOk result (λ f. IsSound (frame_term f)) }
{
    let frame = framed(alloc, design, class, world, call)?;
    let whole = with_free_sizes(alloc, frame)?;
    Ok(whole)
}
