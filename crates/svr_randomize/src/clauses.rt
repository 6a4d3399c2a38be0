// The items of the last phase of a call, and as clauses.

ghost use Rattle.std.specs.Prelude.{◌≡◌, ◌++◌, Some, map, IfOk};
ghost use Rattle.svr_typed.specs.ExprTerm.{expr_term};
ghost use Rattle.svr_frame.specs.declared.part.Part.TheVariants.{All as Whole};
ghost use Rattle.svr_frame.specs.Frame.{frame_term};
ghost use Rattle.svr_frame.specs.Sound.{IsSound, SizesFit};
ghost use Rattle.svr_question.specs.Ends.{EncodesCall};
ghost use Rattle.svr_randomize.specs.Answers.{AreItems};
ghost use Rattle.svr_randomize.specs.Kept.{AreItemsIn, AreLast, IsKept, IsLast};

use crate::kept::{Form, Kept, Last};
use crate::memory::NoMemory;
use crate::read::{reads_again, what_is_read};
use sqlite_items::Items;
use std::alloc::Global;
use svr_clauses::clauses_of;
use svr_encoded::Encoded;
use svr_expand::{Expansion, expand};
use svr_frame::{Frame, Part};
use svr_typed::TExpr;

/// The hard and the live soft items of the last phase as closed expressions.
fn closed_items(alloc: Global, frame: &Frame, sizes: &[u32]) -> Result<Expansion, NoMemory>
    requires sound { IsSound (frame_term frame.now) }
    requires fit { SizesFit (frame_term frame.now) sizes.now }
    ensures { IfOk result (λ x. AreItems (frame_term frame.now) sizes.now x) }
{
    Ok(expand(alloc, frame, Part::All, sizes)?)
}

/// The items of the last phase, closed anew.
fn made(alloc: Global, frame: &Frame, sizes: &[u32]) -> Result<Last, NoMemory>
    requires sound { IsSound (frame_term frame.now) }
    requires fit { SizesFit (frame_term frame.now) sizes.now }
    ensures { IfOk result (AreLast (frame_term frame.now) sizes.now) }
{
    let read = what_is_read(alloc, frame, sizes)?;
    let items = closed_items(alloc, frame, sizes)?;
    Ok(Last {
        read,
        items: Form::Expressions(items),
    })
}

/// The items of an earlier call, where those of this one read the same numbers, and else new ones.
fn again(alloc: Global, frame: &Frame, sizes: &[u32], last: Last) -> Result<Last, NoMemory>
    requires sound { IsSound (frame_term frame.now) }
    requires fit { SizesFit (frame_term frame.now) sizes.now }
    requires last { IsLast (frame_term frame.now) (Some last) }
    ensures { IfOk result (AreLast (frame_term frame.now) sizes.now) }
{
    if reads_again(frame, sizes, &last.read) {
        return Ok(last);
    }
    drop(last);
    made(alloc, frame, sizes)
}

/// The items of the last phase: those that an earlier call has left, where they are the same, and else new ones. They are kept no longer.
pub(crate) fn items_of(
    alloc: Global,
    frame: &Frame,
    sizes: &[u32],
    kept: &mut Kept,
) -> Result<Last, NoMemory>
    requires sound { IsSound (frame_term frame.now) }
    requires fit { SizesFit (frame_term frame.now) sizes.now }
    requires kept { IsKept (frame_term frame.now) kept.old }
    ensures { IfOk result (AreLast (frame_term frame.now) sizes.now) }
{
    let last = kept.last.take();
    match last {
        None => made(alloc, frame, sizes),
        Some(last) => again(alloc, frame, sizes, last),
    }
}

/// The hard items, and the soft ones behind them.
fn in_one_list(items: Expansion) -> Result<Items<TExpr>, NoMemory>
    ensures { IfOk result (λ all. map expr_term all ≡ map expr_term items.hard ++ map expr_term items.soft) }
{
    let Expansion { hard, soft } = items;
    let mut all = hard;
    all.append(soft)?;
    Ok(all)
}

/// Clauses for closed items: the hard ones, and behind them the soft ones.
fn clauses_for(
    alloc: Global,
    frame: &Frame,
    sizes: &[u32],
    items: Expansion,
) -> Result<Encoded, NoMemory>
    requires sound { IsSound (frame_term frame.now) }
    requires fit { SizesFit (frame_term frame.now) sizes.now }
    requires items { AreItems (frame_term frame.now) sizes.now items }
    ensures { IfOk result (λ e. EncodesCall (frame_term frame.now) sizes.now e) }
{
    let all = in_one_list(items)?;
    let encoding = clauses_of(alloc, frame, Part::All, sizes, all, 1)?;
    Ok(encoding)
}

/// The items of a call as clauses.
pub(crate) fn encoded(
    alloc: Global,
    frame: &Frame,
    sizes: &[u32],
    items: Form,
) -> Result<Encoded, NoMemory>
    requires sound { IsSound (frame_term frame.now) }
    requires fit { SizesFit (frame_term frame.now) sizes.now }
    requires items { AreItemsIn (frame_term frame.now) sizes.now items }
    ensures { IfOk result (λ e. EncodesCall (frame_term frame.now) sizes.now e) }
{
    match items {
        Form::Expressions(items) => clauses_for(alloc, frame, sizes, items),
        Form::Clauses { hard: _, encoding } => Ok(encoding),
    }
}
