// What a core says of items.

ghost use Rattle.std.specs.Prelude.{IfOk};
ghost use Rattle.std.specs.List.{AllZip};
ghost use Rattle.svr_frame.specs.Frame.{frame_term};
ghost use Rattle.svr_frame.specs.Sound.{IsSound, SizesFit};
ghost use Rattle.svr_question.specs.Ends.{EncodesCall};
ghost use Rattle.svr_conflict.specs.Read.{IsRead};

use crate::memory::NoMemory;
use sqlite_items::Items;
use std::alloc::Global;
use svr_chain::{Lit, Refutation};
use svr_core::Needed;
use svr_encoded::Encoded;
use svr_eval::Assign;
use svr_found::assignment_found;
use svr_frame::Frame;

/// An item of a conflict, by its place among the active items of the call, with an assignment that meets all others of the conflict.
#[derive(Drop)]
pub struct Member {
    pub item: u32,
    pub without: Assign,
}

/// Items that contradict each other, in the order of the items of the call; an encoding of the items of the call; what is assumed of it, the chosen values and the roots of the domain items and of the members; and its refutation.
#[derive(Drop)]
pub struct Conflict {
    pub members: Vec<Member>,
    pub encoding: Encoded,
    pub assume: Items<Lit>,
    pub refutation: Refutation,
}

/// How the search for items that contradict each other ends.
#[derive(Drop)]
pub enum ConflictEnd {
    /// There are none: an assignment that meets the hard items.
    Meets(Assign),
    /// There are these.
    Set(Conflict),
    /// A question spent the budget: its steps begin at place `first` of the log.
    Spent {
        encoding: Encoded,
        log: Refutation,
        first: u64,
    },
}

/// The member that a group of the core stands for.
fn member_of(
    alloc: Global,
    frame: &Frame,
    sizes: &[u32],
    encoding: &Encoded,
    needed: &Needed,
) -> Result<Member, NoMemory>
    requires sound { IsSound (frame_term frame.now) }
    requires fit { SizesFit (frame_term frame.now) sizes.now }
    requires encodes { EncodesCall (frame_term frame.now) sizes.now encoding.now }
    ensures { IfOk result (IsRead (frame_term frame.now) sizes.now encoding.now needed.now) }
{
    let values = needed.values.as_slice();
    let without = assignment_found(alloc, frame, sizes, encoding, values)?;
    Ok(Member {
        item: needed.place,
        without,
    })
}

/// The members that the groups of a core stand for.
pub(crate) fn members_of(
    alloc: Global,
    frame: &Frame,
    sizes: &[u32],
    encoding: &Encoded,
    core: &[Needed],
) -> Result<Vec<Member>, NoMemory>
    requires sound { IsSound (frame_term frame.now) }
    requires fit { SizesFit (frame_term frame.now) sizes.now }
    requires encodes { EncodesCall (frame_term frame.now) sizes.now encoding.now }
    ensures { IfOk result (λ ms. AllZip (IsRead (frame_term frame.now) sizes.now encoding.now) core.now ms.items) }
{
    let mut members = Vec::new(alloc);
    for needed in core {
        let member = member_of(alloc, frame, sizes, encoding, needed)?;
        members.push(member)?;
    }
    Ok(members)
}
