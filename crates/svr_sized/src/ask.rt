// One question for sizes.

ghost use Rattle.svr_limits.specs.declared.limit.TheConstants.{ELEMENT_LIMIT};
ghost use Rattle.std.specs.Prelude.{◌≡◌, ◌≤◌, ℕ, List, [], map, IfOk};
ghost use Rattle.svr_typed.specs.ExprTerm.{expr_term};
ghost use Rattle.svr_frame.specs.declared.part.Part.TheVariants.{Sizes};
ghost use Rattle.svr_frame.specs.Frame.{frame_term};
ghost use Rattle.svr_frame.specs.Occurrences.{Occurrence};
ghost use Rattle.svr_frame.specs.Sound.{IsSound};
ghost use Rattle.svr_phase.specs.Chosen.{AreCyclicValues};
ghost use Rattle.svr_phase.specs.Spent.{closed_at, EncodesItems};
ghost use Rattle.svr_sized.specs.Questions.{hard_over, soft_over};
ghost use Rattle.svr_sized.specs.Ends.{Becomes, IsFound};

use crate::bits::bits_for;
use crate::found::Found;
use crate::items::{hard_alone, in_row};
use crate::memory::NoMemory;
use crate::passed::{Over, pass_roots};
use crate::read::sizes_found;
use crate::scope::Scope;
use std::alloc::Global;
use svr_chain::Lit;
use svr_clauses::clauses_of;
use svr_encoded::Encoded;
use svr_eval::Assign;
use svr_expand::Expansion;
use svr_frame::{Frame, Part};
use svr_phase::{Assumed, Options, Proof, ProofReason};
use svr_question::Question;
use svr_soft::PassEnd;

/// What the end of a pass says of sizes, where each of its questions assumed the base.
fn concluded(
    alloc: Global,
    frame: &Frame,
    encoding: Encoded,
    base: Vec<Lit>,
    end: PassEnd,
) -> Result<Found, NoMemory>
    requires sound { IsSound (frame_term frame.now) }
    requires encodes { (k : ℕ) × (k ≤ 32) × (os : List Occurrence) × EncodesItems (frame_term frame.now) Sizes (frame_term frame.now).state.sizes k os encoding }
    ensures { IfOk result (Becomes (frame_term frame.now) encoding base.items end) }
{
    match end {
        PassEnd::Done { values, .. } => {
            let sizes = sizes_found(alloc, frame, &encoding, values.as_slice())?;
            Ok(Found::Met(sizes))
        }
        PassEnd::BaseRefuted(refutation) => Ok(Found::Refuted {
            proof: Proof {
                encoding: 0,
                assume: Assumed::own(base),
                refutation,
                reason: ProofReason::Size,
            },
            encoding,
        }),
        PassEnd::Spent { log, first, .. } => Ok(Found::Spent {
            encoding,
            log,
            first,
        }),
    }
}

/// Asks for sizes of an assignment that meets the hard items of a question, and as many soft ones as can hold, those of higher priority first (IEEE 1800-2017, 18.5.14.1), with the cyclic values that were chosen. The search tries the wished values first.
pub(crate) fn ask(
    alloc: Global,
    frame: &Frame,
    scope: Scope,
    asked: Expansion,
    chosen: &[(u32, u64)],
    wish: &Assign,
    opts: Options,
) -> Result<Found, NoMemory>
    requires sound { IsSound (frame_term frame.now) }
    requires some { 1 ≤ opts.size_cap }
    requires cap { opts.size_cap ≤ ELEMENT_LIMIT }
    requires budget { 1 ≤ opts.budget }
    requires chosen { AreCyclicValues (frame_term frame.now) chosen.now }
    requires hard { map expr_term asked.hard ≡ closed_at (frame_term frame.now) (frame_term frame.now).state.sizes (hard_over (frame_term frame.now) opts.size_cap scope) }
    requires soft { map expr_term asked.soft ≡ closed_at (frame_term frame.now) (frame_term frame.now).state.sizes (soft_over (frame_term frame.now) scope) }
    ensures { IfOk result (IsFound (frame_term frame.now) opts.size_cap chosen.now opts.budget scope) }
{
    let count = asked.hard.len();
    let question = Question {
        hard: count,
        chosen,
        place: 0,
        wanted: wish,
        budget: opts.budget,
    };
    let bits = bits_for(scope, opts.size_cap);
    let items = in_row(asked)?;
    let sizes = frame.state.sizes.as_slice();
    let encoding = clauses_of(alloc, frame, Part::Sizes, sizes, items, bits)?;
    let over = pass_roots(alloc, frame, encoding, question)?;
    let Over {
        encoding,
        base,
        end,
    } = over;
    let found = concluded(alloc, frame, encoding, base, end)?;
    Ok(found)
}

/// The same over hard items alone.
pub(crate) fn ask_hard(
    alloc: Global,
    frame: &Frame,
    scope: Scope,
    chosen: &[(u32, u64)],
    wish: &Assign,
    opts: Options,
) -> Result<Found, NoMemory>
    requires sound { IsSound (frame_term frame.now) }
    requires some { 1 ≤ opts.size_cap }
    requires cap { opts.size_cap ≤ ELEMENT_LIMIT }
    requires budget { 1 ≤ opts.budget }
    requires chosen { AreCyclicValues (frame_term frame.now) chosen.now }
    requires alone { soft_over (frame_term frame.now) scope ≡ [] }
    ensures { IfOk result (IsFound (frame_term frame.now) opts.size_cap chosen.now opts.budget scope) }
{
    let asked = hard_alone(alloc, frame, scope, opts.size_cap)?;
    ask(alloc, frame, scope, asked, chosen, wish, opts)
}
