// The frame of a call that is made again on the same object.

ghost use Rattle.std.specs.Prelude.{◌≡◌, ◌≤◌, length, OnOk};
ghost use Rattle.svr_limits.specs.declared.limit.TheConstants.{PROPERTY_LIMIT};
ghost use Rattle.svr_frame.specs.Frame.{frame_term};
ghost use Rattle.svr_frame_of.specs.Callable.{state_of};
ghost use Rattle.svr_frame_of.specs.Choosing.{in_state, as_chosen, HasChosen, are_same};

use crate::free::choose_sizes;
use crate::object::state_of;
use std::alloc::Global;
use svr_eval::Assign;
use svr_frame::Frame;
use svr_typed::NoMemory;
use svr_world::World;

fn are_same(sizes: &[u32], others: &[u32]) -> bool
    ensures { result ≡ are_same sizes.now others.now }
{
    sizes == others
}

/// Whether all arrays have the same sizes in both states.
fn has_same_sizes(state: &Assign, other: &Assign) -> bool
    ensures { result ≡ are_same state.now.sizes other.now.sizes }
{
    are_same(state.sizes.as_slice(), other.sizes.as_slice())
}

fn put_state(frame: &mut Frame, state: Assign)
    ensures { frame_term frame.new ≡ in_state (frame_term frame.old) state }
{
    frame.state = state;
}

/// The frame of a call is that of the same call on the object as it is now. Neither the class nor an item is copied, and the sizes that the call chooses are looked for only where some array has another size than before: nothing else of the state tells which they are.
pub fn renew(alloc: Global, frame: &mut Frame, world: &World, object: u32) -> Result<(), NoMemory>
    requires few { length (frame_term frame.old).class.props ≤ PROPERTY_LIMIT }
    requires chosen { HasChosen (frame_term frame.old) }
    ensures { OnOk result (frame_term frame.new ≡ as_chosen (in_state (frame_term frame.old) (state_of world.now object))) }
{
    let state = state_of(alloc, world, object)?;
    let same = has_same_sizes(&frame.state, &state);
    put_state(frame, state);
    if same {
        return Ok(());
    }
    choose_sizes(alloc, frame)
}
