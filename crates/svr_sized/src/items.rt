// The items that a question is over, as closed expressions.

ghost use Rattle.std.specs.Prelude.{◌≡◌, ◌++◌, [], map, IfOk};
ghost use Rattle.svr_typed.specs.ExprTerm.{expr_term};
ghost use Rattle.svr_frame.specs.Frame.{frame_term};
ghost use Rattle.svr_frame.specs.Sound.{IsSound};
ghost use Rattle.svr_phase.specs.Spent.{closed_at};
ghost use Rattle.svr_sized.specs.declared.scope.Scope.TheVariants.{Wished};
ghost use Rattle.svr_sized.specs.Questions.{hard_over, soft_over};

use crate::bounds::capped;
use crate::memory::NoMemory;
use crate::scope::Scope;
use sqlite_items::Items;
use std::alloc::Global;
use svr_expand::{Expansion, expand};
use svr_frame::{Frame, Part};
use svr_typed::TExpr;

/// The hard items within the cap, and the live soft ones.
pub(crate) fn wished(alloc: Global, frame: &Frame, cap: u32) -> Result<Expansion, NoMemory>
    requires { IsSound (frame_term frame.now) }
    ensures hard { IfOk result (λ x. map expr_term x.hard ≡ closed_at (frame_term frame.now) (frame_term frame.now).state.sizes (hard_over (frame_term frame.now) cap Wished)) }
    ensures soft { IfOk result (λ x. map expr_term x.soft ≡ closed_at (frame_term frame.now) (frame_term frame.now).state.sizes (soft_over (frame_term frame.now) Wished)) }
{
    let asked = expand(alloc, frame, Part::Sizes, frame.state.sizes.as_slice())?;
    let Expansion { hard, soft } = asked;
    let hard = capped(alloc, frame, hard, cap)?;
    Ok(Expansion { hard, soft })
}

/// The hard items, within the cap where the question has one.
fn hard_items(
    alloc: Global,
    frame: &Frame,
    scope: Scope,
    cap: u32,
) -> Result<Items<TExpr>, NoMemory>
    requires { IsSound (frame_term frame.now) }
    ensures { IfOk result (λ hard. map expr_term hard ≡ closed_at (frame_term frame.now) (frame_term frame.now).state.sizes (hard_over (frame_term frame.now) cap scope)) }
{
    let asked = expand(alloc, frame, Part::Sizes, frame.state.sizes.as_slice())?;
    match scope {
        Scope::Wished | Scope::Capped => capped(alloc, frame, asked.hard, cap),
        Scope::Uncapped => Ok(asked.hard),
    }
}

/// The items of a question that has no soft ones.
pub(crate) fn hard_alone(
    alloc: Global,
    frame: &Frame,
    scope: Scope,
    cap: u32,
) -> Result<Expansion, NoMemory>
    requires sound { IsSound (frame_term frame.now) }
    requires alone { soft_over (frame_term frame.now) scope ≡ [] }
    ensures hard { IfOk result (λ x. map expr_term x.hard ≡ closed_at (frame_term frame.now) (frame_term frame.now).state.sizes (hard_over (frame_term frame.now) cap scope)) }
    ensures soft { IfOk result (λ x. map expr_term x.soft ≡ closed_at (frame_term frame.now) (frame_term frame.now).state.sizes (soft_over (frame_term frame.now) scope)) }
{
    let hard = hard_items(alloc, frame, scope, cap)?;
    let soft = Items::new(alloc);
    Ok(Expansion { hard, soft })
}

/// All items of a question in one list, the hard ones first.
pub(crate) fn in_row(asked: Expansion) -> Result<Items<TExpr>, NoMemory>
    ensures { IfOk result (λ items. map expr_term items ≡ map expr_term asked.hard ++ map expr_term asked.soft) }
{
    let Expansion { hard, soft } = asked;
    let mut items = hard;
    items.append(soft)?;
    Ok(items)
}
