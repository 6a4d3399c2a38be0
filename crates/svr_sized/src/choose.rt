// The sizes of a call.

ghost use Rattle.svr_limits.specs.declared.limit.TheConstants.{ELEMENT_LIMIT};
ghost use Rattle.std.specs.Prelude.{◌≡◌, ◌≤◌, ◌&&◌, ℕ, true, false, [], map, IfOk};
ghost use Rattle.std.specs.List.{All, list_all};
ghost use Rattle.svr_typed.specs.ExprTerm.{expr_term};
ghost use Rattle.svr_eval.specs.Reading.{reading_of};
ghost use Rattle.svr_eval.specs.Value.{alone, is_set};
ghost use Rattle.svr_eval.specs.Typed.{IsTyped, CanRead};
ghost use Rattle.svr_frame.specs.Frame.{frame_term};
ghost use Rattle.svr_frame.specs.Sound.{IsSound};
ghost use Rattle.svr_phase.specs.Chosen.{AreCyclicValues};
ghost use Rattle.svr_phase.specs.Spent.{closed_at};
ghost use Rattle.svr_phase.specs.Sizes.{fits_preferred};
ghost use Rattle.svr_sized.specs.declared.scope.Scope.TheVariants.{Wished, Capped};
ghost use Rattle.svr_sized.specs.Questions.{asked_by, hard_over, soft_over};
ghost use Rattle.svr_sized.specs.Ends.{SomeMeets, IsProved, SizesEnds};

use crate::ask::{ask, ask_hard};
use crate::found::Found;
use crate::items::wished;
use crate::memory::NoMemory;
use crate::read::sizes_of;
use crate::scope::Scope;
use sqlite_items::Items;
use std::alloc::Global;
use svr_chain::Refutation;
use svr_encoded::Encoded;
use svr_eval::Assign;
use svr_expand::Expansion;
use svr_frame::{Frame, Part};
use svr_phase::{Options, Proof};
use svr_values::{all_hold, wanted_in};

/// How the phase of sizes ends. A proof names the one encoding beside it.
#[derive(Drop)]
pub enum SizesEnd {
    /// A size for each property.
    Chosen(Items<u32>),
    /// There are no sizes up to 2^31 - 1.
    None {
        proof: Proof,
        encoding: Encoded,
    },
    /// There are none within the cap, but these beyond it.
    BeyondCap {
        sizes: Items<u32>,
        proof: Proof,
        encoding: Encoded,
    },
    /// A question spent its budget; the steps from place `first` on were made for it.
    Spent {
        encoding: Encoded,
        log: Refutation,
        first: u64,
    },
}

/// Whether an assignment meets all items.
fn all_fit(asked: &Expansion, wish: &Assign) -> bool
    requires typed_hard { All (λ e. IsTyped (expr_term e)) asked.now.hard }
    requires typed_soft { All (λ e. IsTyped (expr_term e)) asked.now.soft }
    requires reads_hard { All (λ e. CanRead (reading_of wish.now) 0 (expr_term e)) asked.now.hard }
    requires reads_soft { All (λ e. CanRead (reading_of wish.now) 0 (expr_term e)) asked.now.soft }
    ensures { result ≡ (list_all (λ e. is_set (alone (reading_of wish.now) [] e)) (map expr_term asked.now.hard) && list_all (λ e. is_set (alone (reading_of wish.now) [] e)) (map expr_term asked.now.soft)) }
{
    all_hold(asked.hard.as_slice(), wish) && all_hold(asked.soft.as_slice(), wish)
}

/// Sizes beyond the cap, where a proof shows that none are within it.
fn beyond(
    alloc: Global,
    frame: &Frame,
    chosen: &[(u32, u64)],
    wish: &Assign,
    opts: Options,
    proof: Proof,
    encoding: Encoded,
) -> Result<SizesEnd, NoMemory>
    requires sound { IsSound (frame_term frame.now) }
    requires some { 1 ≤ opts.size_cap }
    requires cap { opts.size_cap ≤ ELEMENT_LIMIT }
    requires budget { 1 ≤ opts.budget }
    requires chosen { AreCyclicValues (frame_term frame.now) chosen.now }
    requires none { SomeMeets (frame_term frame.now) chosen.now (hard_over (frame_term frame.now) opts.size_cap Capped) → ⊥ }
    requires proved { IsProved (frame_term frame.now) opts.size_cap chosen.now Capped encoding proof }
    ensures { IfOk result (λ end. (words : ℕ → ℕ) → fits_preferred (frame_term frame.now) (record { cap = opts.size_cap; words = words; chosen = chosen.now }) ≡ false → SizesEnds (frame_term frame.now) (record { cap = opts.size_cap; words = words; chosen = chosen.now }) opts.budget end) }
{
    let found = ask_hard(alloc, frame, Scope::Uncapped, chosen, wish, opts)?;
    match found {
        Found::Met(sizes) => Ok(SizesEnd::BeyondCap {
            sizes,
            proof,
            encoding,
        }),
        Found::Refuted { proof, encoding } => Ok(SizesEnd::None { proof, encoding }),
        Found::Spent {
            encoding,
            log,
            first,
        } => Ok(SizesEnd::Spent {
            encoding,
            log,
            first,
        }),
    }
}

/// How the phase ends where no sizes within the cap meet the hard items. The proof is over these alone where there were no soft ones; else it has to be found.
fn not_within(
    alloc: Global,
    frame: &Frame,
    chosen: &[(u32, u64)],
    wish: &Assign,
    opts: Options,
    no_soft: bool,
    proof: Proof,
    encoding: Encoded,
) -> Result<SizesEnd, NoMemory>
    requires sound { IsSound (frame_term frame.now) }
    requires some { 1 ≤ opts.size_cap }
    requires cap { opts.size_cap ≤ ELEMENT_LIMIT }
    requires budget { 1 ≤ opts.budget }
    requires chosen { AreCyclicValues (frame_term frame.now) chosen.now }
    requires none { SomeMeets (frame_term frame.now) chosen.now (hard_over (frame_term frame.now) opts.size_cap Capped) → ⊥ }
    requires proved { no_soft ≡ true → IsProved (frame_term frame.now) opts.size_cap chosen.now Capped encoding proof }
    ensures { IfOk result (λ end. (words : ℕ → ℕ) → fits_preferred (frame_term frame.now) (record { cap = opts.size_cap; words = words; chosen = chosen.now }) ≡ false → SizesEnds (frame_term frame.now) (record { cap = opts.size_cap; words = words; chosen = chosen.now }) opts.budget end) }
{
    if no_soft {
        return beyond(alloc, frame, chosen, wish, opts, proof, encoding);
    }
    let found = ask_hard(alloc, frame, Scope::Capped, chosen, wish, opts)?;
    match found {
        Found::Met(_) => unreachable!(),
        Found::Refuted { proof, encoding } => {
            beyond(alloc, frame, chosen, wish, opts, proof, encoding)
        }
        Found::Spent {
            encoding,
            log,
            first,
        } => Ok(SizesEnd::Spent {
            encoding,
            log,
            first,
        }),
    }
}

/// The sizes of a solution, where the preferred ones do not fit.
fn searched(
    alloc: Global,
    frame: &Frame,
    asked: Expansion,
    chosen: &[(u32, u64)],
    wish: &Assign,
    opts: Options,
) -> Result<SizesEnd, NoMemory>
    requires sound { IsSound (frame_term frame.now) }
    requires some { 1 ≤ opts.size_cap }
    requires cap { opts.size_cap ≤ ELEMENT_LIMIT }
    requires budget { 1 ≤ opts.budget }
    requires chosen { AreCyclicValues (frame_term frame.now) chosen.now }
    requires hard { map expr_term asked.hard ≡ closed_at (frame_term frame.now) (frame_term frame.now).state.sizes (hard_over (frame_term frame.now) opts.size_cap Wished) }
    requires soft { map expr_term asked.soft ≡ closed_at (frame_term frame.now) (frame_term frame.now).state.sizes (soft_over (frame_term frame.now) Wished) }
    ensures { IfOk result (λ end. (words : ℕ → ℕ) → fits_preferred (frame_term frame.now) (record { cap = opts.size_cap; words = words; chosen = chosen.now }) ≡ false → SizesEnds (frame_term frame.now) (record { cap = opts.size_cap; words = words; chosen = chosen.now }) opts.budget end) }
{
    let no_soft = asked.soft.is_empty();
    let found = ask(alloc, frame, Scope::Wished, asked, chosen, wish, opts)?;
    match found {
        Found::Met(sizes) => Ok(SizesEnd::Chosen(sizes)),
        Found::Refuted { proof, encoding } => not_within(
            alloc, frame, chosen, wish, opts, no_soft, proof, encoding,
        ),
        Found::Spent {
            encoding,
            log,
            first,
        } => Ok(SizesEnd::Spent {
            encoding,
            log,
            first,
        }),
    }
}

/// The phase of sizes of the call of a number, whose cyclic values were chosen (IEEE 1800-2017, 18.4): the preferred sizes where they fit all items within the cap, else those of a solution, which keeps as many soft items as can hold. Where none are within the cap, some up to 2^31 - 1 are looked for.
pub fn choose_sizes(
    alloc: Global,
    frame: &Frame,
    chosen: &[(u32, u64)],
    number: u64,
    opts: Options,
) -> Result<SizesEnd, NoMemory>
    requires sound { IsSound (frame_term frame.now) }
    requires some { 1 ≤ opts.size_cap }
    requires cap { opts.size_cap ≤ ELEMENT_LIMIT }
    requires budget { 1 ≤ opts.budget }
    requires chosen { AreCyclicValues (frame_term frame.now) chosen.now }
    ensures { IfOk result (SizesEnds (frame_term frame.now) (asked_by opts number chosen.now) opts.budget) }
{
    let sizes = frame.state.sizes.as_slice();
    let wish = wanted_in(alloc, frame, Part::Sizes, sizes, chosen, number, opts)?;
    let asked = wished(alloc, frame, opts.size_cap)?;
    if all_fit(&asked, &wish) {
        return Ok(SizesEnd::Chosen(sizes_of(alloc, frame, &wish)?));
    }
    searched(alloc, frame, asked, chosen, &wish, opts)
}
