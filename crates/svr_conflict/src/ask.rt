// The question which items contradict each other.

ghost use Rattle.std.specs.Prelude.{◌≡◌, ◌≤◌, ◌++◌, ℕ, List, map, length, take, drop, IfOk};
ghost use Rattle.std.specs.List.{flat_map};
ghost use Rattle.svr_typed.specs.ExprTerm.{expr_term};
ghost use Rattle.svr_frame.specs.declared.part.Part.TheVariants.{All as Whole};
ghost use Rattle.svr_frame.specs.Frame.{frame_term};
ghost use Rattle.svr_frame.specs.Phases.{domain_items, hard_of, live_of};
ghost use Rattle.svr_frame.specs.Sound.{IsSound, SizesFit};
ghost use Rattle.svr_phase.specs.Chosen.{AreCyclicValues};
ghost use Rattle.svr_vector.specs.Places.{rows};
ghost use Rattle.svr_phase.specs.Spent.{closed_at};
ghost use Rattle.svr_phase.specs.Proof.{fixed_lits};
ghost use Rattle.svr_question.specs.Ends.{EncodesCall};
ghost use Rattle.svr_counts.specs.Hard.{counts_of, hard_by_item};
ghost use Rattle.svr_core.specs.End.{IsCoreEnd};
ghost use Rattle.svr_conflict.specs.Cut.{cut_by};
ghost use Rattle.svr_conflict.specs.Conflicts.{base_lits, item_roots, solver_over};
ghost use Rattle.svr_conflict.specs.Ends.{IsConflictEnd};

use crate::cut::{cut, left_over};
use crate::found::{Conflict, ConflictEnd, members_of};
use crate::memory::NoMemory;
use crate::over::{Over, core_over};
use sqlite_items::Items;
use std::alloc::Global;
use svr_chain::Lit;
use svr_clauses::clauses_of;
use svr_core::{CoreEnd, put_core};
use svr_counts::hard_counts;
use svr_encoded::Encoded;
use svr_expand::{Expansion, expand};
use svr_found::assignment_found;
use svr_frame::{Frame, Part};
use svr_question::{base_of, behind, joined};
use svr_typed::TExpr;

/// The hard items, and the soft ones behind them.
fn in_one_list(items: Expansion) -> Result<Items<TExpr>, NoMemory>
    ensures { IfOk result (λ all. map expr_term all ≡ map expr_term items.hard ++ map expr_term items.soft) }
{
    let Expansion { hard, soft } = items;
    let mut all = hard;
    all.append(soft)?;
    Ok(all)
}

/// Clauses for the items of a call: the hard ones, and behind them the live soft ones.
fn encoded(
    alloc: Global,
    frame: &Frame,
    sizes: &[u32],
    items: Expansion,
) -> Result<Encoded, NoMemory>
    requires sound { IsSound (frame_term frame.now) }
    requires fit { SizesFit (frame_term frame.now) sizes.now }
    requires hard { map expr_term items.hard ≡ closed_at (frame_term frame.now) sizes.now (hard_of (frame_term frame.now) Whole sizes.now) }
    requires soft { map expr_term items.soft ≡ closed_at (frame_term frame.now) sizes.now (live_of (frame_term frame.now) Whole sizes.now) }
    ensures { IfOk result (λ e. EncodesCall (frame_term frame.now) sizes.now e) }
{
    let all = in_one_list(items)?;
    let encoding = clauses_of(alloc, frame, Part::All, sizes, all, 1)?;
    Ok(encoding)
}

/// What is asked over an encoding: the literals that each question assumes, the roots of each item, and all bits in a row.
#[derive(Drop)]
struct Literals {
    base: Vec<Lit>,
    groups: Vec<Items<Lit>>,
    row: Vec<Lit>,
}

/// The literals of the chosen values and of the first `domains` roots; of the roots behind these so many for each count; and the bits.
fn literals_of(
    alloc: Global,
    encoding: &Encoded,
    chosen: &[(u32, u64)],
    domains: usize,
    counts: &[usize],
) -> Result<Literals, NoMemory>
    ensures base { IfOk result (λ r. r.base.items ≡ fixed_lits encoding.now chosen.now ++ take domains encoding.now.roots.items) }
    ensures groups { IfOk result (λ r. r.groups.items ≡ cut_by counts.now (drop domains encoding.now.roots.items)) }
    ensures row { IfOk result (λ r. r.row.items ≡ flat_map (λ row. row) (rows encoding.now.bits.items)) }
{
    let base = base_of(alloc, encoding, chosen, domains)?;
    let roots = encoding.roots.as_slice();
    let rest = behind(roots, domains);
    let groups = cut(alloc, rest, counts)?;
    let bits = encoding.bits.as_slice();
    let row = joined(alloc, bits)?;
    Ok(Literals { base, groups, row })
}

/// An encoding, given back; the literals that each question assumed; the roots of each item; and how the search for a core ended.
#[derive(Drop)]
struct CoreOver {
    encoding: Encoded,
    base: Vec<Lit>,
    groups: Vec<Items<Lit>>,
    end: CoreEnd,
}

/// The search for a core of the items, where the first `domains` roots are those of the domain items.
fn searched(
    alloc: Global,
    frame: &Frame,
    sizes: &[u32],
    chosen: &[(u32, u64)],
    encoding: Encoded,
    domains: usize,
    counts: &[usize],
    budget: u64,
) -> Result<CoreOver, NoMemory>
    requires encodes { EncodesCall (frame_term frame.now) sizes.now encoding }
    requires chosen { AreCyclicValues (frame_term frame.now) chosen.now }
    requires domains { domains ≡ length (domain_items (frame_term frame.now) Whole sizes.now) }
    requires counts { counts.now ≡ counts_of (hard_by_item (frame_term frame.now) sizes.now) }
    requires budget { 1 ≤ budget }
    ensures encodes { IfOk result (λ s. EncodesCall (frame_term frame.now) sizes.now s.encoding) }
    ensures base { IfOk result (λ s. s.base.items ≡ base_lits (frame_term frame.now) sizes.now chosen.now s.encoding) }
    ensures groups { IfOk result (λ s. s.groups.items ≡ item_roots (frame_term frame.now) sizes.now s.encoding) }
    ensures end { IfOk result (λ s. IsCoreEnd (solver_over (frame_term frame.now) sizes.now s.encoding) s.base.items s.groups.items budget s.end) }
{
    let literals = literals_of(alloc, &encoding, chosen, domains, counts)?;
    let Literals { base, groups, row } = literals;
    let Encoded {
        items,
        slots,
        bits,
        cnf,
        roots,
    } = encoding;
    let assumed = base.as_slice();
    let parts = groups.as_slice();
    let over = core_over(alloc, cnf, row, assumed, parts, budget)?;
    let Over { cnf, end } = over;
    let encoding = Encoded {
        items,
        slots,
        bits,
        cnf,
        roots,
    };
    Ok(CoreOver {
        encoding,
        base,
        groups,
        end,
    })
}

/// What the end of the search says of the items.
fn concluded(
    alloc: Global,
    frame: &Frame,
    sizes: &[u32],
    found: CoreOver,
) -> Result<ConflictEnd, NoMemory>
    requires sound { IsSound (frame_term frame.now) }
    requires fit { SizesFit (frame_term frame.now) sizes.now }
    requires encodes { EncodesCall (frame_term frame.now) sizes.now found.encoding }
    requires groups { found.groups.items ≡ item_roots (frame_term frame.now) sizes.now found.encoding }
    ensures { IfOk result (λ r. (chosen : List (ℕ × ℕ)) (budget : ℕ) → AreCyclicValues (frame_term frame.now) chosen
        → found.base.items ≡ base_lits (frame_term frame.now) sizes.now chosen found.encoding → IsCoreEnd (solver_over (frame_term frame.now) sizes.now found.encoding) found.base.items found.groups.items budget found.end → IsConflictEnd (frame_term frame.now) sizes.now chosen budget r) }
{
    let CoreOver {
        encoding,
        base,
        groups,
        end,
    } = found;
    match end {
        CoreEnd::Met(values) => {
            let found = values.as_slice();
            let met = assignment_found(alloc, frame, sizes, &encoding, found)?;
            Ok(ConflictEnd::Meets(met))
        }
        CoreEnd::Refuted { core, refutation } => {
            let needed = core.as_slice();
            let members = members_of(alloc, frame, sizes, &encoding, needed)?;
            let mut lits = base;
            let parts = groups.as_slice();
            put_core(&mut lits, parts, needed)?;
            let assume = Items::from_vec(lits);
            Ok(ConflictEnd::Set(Conflict {
                members,
                encoding,
                assume,
                refutation,
            }))
        }
        CoreEnd::Spent { log, first } => Ok(ConflictEnd::Spent {
            encoding,
            log,
            first,
        }),
    }
}

/// Which items of a call contradict each other, with the cyclic values and the sizes that were chosen: from the last item to the first, one is left out where the domain items, the items before it and those kept behind it cannot be met without it. One solver answers all questions; each may take `budget` steps.
pub fn conflict_set(
    alloc: Global,
    frame: &Frame,
    chosen: &[(u32, u64)],
    sizes: &[u32],
    budget: u64,
) -> Result<ConflictEnd, NoMemory>
    requires sound { IsSound (frame_term frame.now) }
    requires fit { SizesFit (frame_term frame.now) sizes.now }
    requires chosen { AreCyclicValues (frame_term frame.now) chosen.now }
    requires budget { 1 ≤ budget }
    ensures { IfOk result (IsConflictEnd (frame_term frame.now) sizes.now chosen.now budget) }
{
    let counts = hard_counts(alloc, frame, sizes)?;
    let numbers = counts.as_slice();
    let items = expand(alloc, frame, Part::All, sizes)?;
    let hard = items.hard.len();
    let domains = left_over(hard, numbers);
    let encoding = encoded(alloc, frame, sizes, items)?;
    let found = searched(
        alloc, frame, sizes, chosen, encoding, domains, numbers, budget,
    )?;
    concluded(alloc, frame, sizes, found)
}
