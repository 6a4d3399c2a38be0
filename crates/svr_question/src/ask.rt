// The question for the values of a call.

ghost use Rattle.std.specs.Prelude.{◌≡◌, ◌≤◌, ◌++◌, false, [], Some, length, take, drop, IfOk};
ghost use Rattle.std.specs.List.{All};
ghost use Rattle.svr_chain.specs.Clauses.{AreWithin, is_tautology};
ghost use Rattle.svr_chain.specs.Settled.{AreSettled};
ghost use Rattle.svr_query.specs.Bits.{AreFirst};
ghost use Rattle.svr_frame.specs.declared.part.Part.TheVariants.{All as Whole};
ghost use Rattle.svr_frame.specs.Frame.{frame_term};
ghost use Rattle.svr_frame.specs.Phases.{hard_of};
ghost use Rattle.svr_frame.specs.Sound.{IsSound, SizesFit};
ghost use Rattle.svr_phase.specs.Chosen.{AreCyclicValues};
ghost use Rattle.svr_phase.specs.Proof.{fixed_lits};
ghost use Rattle.svr_soft.specs.Kept.{AreRanks};
ghost use Rattle.svr_soft.specs.End.{IsPassEnd};
ghost use Rattle.svr_question.specs.Ends.{EncodesCall, Ends};
ghost use Rattle.svr_question.specs.Passed.{IsMetBy, RanksFit, Becomes};

use crate::fates::{dropped_all, fates_of};
use crate::fixed::fixed_literals;
use crate::literals::joined;
use crate::memory::NoMemory;
use crate::prefer::preferences;
use sqlite_items::Items;
use std::alloc::Global;
use svr_call::Dropped;
use svr_chain::{Cnf, Lit, Refutation};
use svr_encoded::Encoded;
use svr_eval::Assign;
use svr_frame::Frame;
use svr_phase::{Assumed, Proof, ProofReason};
use svr_query::Solver;
use svr_soft::{PassEnd, pass};

/// What a call asks for: how many of the first roots are those of the hard items, the values of the cyclic properties, the place that the encoding will have in the list of the answer, the values that are tried first, and the budget in steps.
#[derive(Clone, Copy)]
pub struct Question<'a> {
    pub hard: usize,
    pub chosen: &'a [(u32, u64)],
    pub place: u32,
    pub wanted: &'a Assign,
    pub budget: u64,
}

/// Values that were found. The soft items stand in the order of their ranks, the highest priority first.
#[derive(Drop)]
pub struct Met {
    /// True for each soft item that is kept.
    pub fates: Vec<bool>,
    /// The ranks of those.
    pub kept: Items<u32>,
    /// The other ones, each with the proof that it cannot be met together with those kept above it.
    pub dropped: Items<Dropped>,
    /// The values of the variables from 1 on.
    pub values: Vec<bool>,
}

/// How the question for the values of a call ended. Each proof names the encoding by its place.
#[derive(Drop)]
pub enum ValuesEnd {
    /// Values, and the fates of the soft items.
    Met(Met),
    /// No assignment meets the hard items.
    Refuted(Proof),
    /// The budget is spent, at the soft item of that rank, or at the hard ones alone; the steps from place `first` on were made for this question.
    Spent {
        rank: Option<u32>,
        log: Refutation,
        first: u64,
    },
}

/// The encoding, given back, and how the question over it ended.
#[derive(Drop)]
pub struct Asked {
    pub encoding: Encoded,
    pub end: ValuesEnd,
}

/// The first literals, as far as there are so many.
fn front(lits: &[Lit], count: usize) -> &[Lit]
    ensures { result.now ≡ take count lits.now }
{
    if count < lits.len() {
        return &lits[..count];
    }
    lits
}

/// The literals behind the first ones, as far as there are any.
pub fn behind(lits: &[Lit], count: usize) -> &[Lit]
    ensures { result.now ≡ drop count lits.now }
{
    if count < lits.len() {
        return &lits[count..];
    }
    &lits[lits.len()..]
}

/// The literals that each question of a phase assumes: those of the chosen values, and the roots of the hard items, which are the first ones.
pub fn base_of(
    alloc: Global,
    encoding: &Encoded,
    chosen: &[(u32, u64)],
    hard: usize,
) -> Result<Vec<Lit>, NoMemory>
    ensures { IfOk result (λ ls. ls.items ≡ fixed_lits encoding.now chosen.now ++ take hard encoding.now.roots.items) }
{
    let mut base = fixed_literals(alloc, encoding, chosen)?;
    let roots = encoding.roots.as_slice();
    let hard_roots = front(roots, hard);
    base.extend_from_slice(hard_roots)?;
    Ok(base)
}

/// The clauses, given back, and how the pass over the soft roots ended.
#[derive(Drop)]
pub struct Passed {
    pub cnf: Cnf,
    pub end: PassEnd,
}

/// One pass over the soft roots, from the highest priority down, with a new solver over the clauses, whose first variables are the bits. Ranks are numbers of 32 bits.
pub fn pass_over(
    alloc: Global,
    cnf: Cnf,
    bits: Vec<Lit>,
    base: &[Lit],
    soft: &[Lit],
    prefer: &[bool],
    budget: u64,
) -> Result<Passed, NoMemory>
    requires clauses { All (AreWithin cnf.vars) cnf.clauses.items }
    requires bits { AreWithin cnf.vars bits.items }
    requires first { AreFirst bits.items }
    requires settled { AreSettled (length bits.items) cnf.vars cnf.clauses.items }
    requires within { AreWithin cnf.vars (base.now ++ soft.now) }
    requires apart { is_tautology (base.now ++ soft.now) ≡ false }
    requires prefer { length prefer.now ≡ cnf.vars }
    requires budget { 1 ≤ budget }
    ensures vars { IfOk result (λ r. r.cnf.vars ≡ cnf.vars) }
    ensures clauses { IfOk result (λ r. r.cnf.clauses.items ≡ cnf.clauses.items) }
    ensures end { IfOk result (λ r. IsPassEnd (record { vars = cnf.vars; clauses = cnf.clauses.items; steps = []; bits = Some (length bits.items) }) base.now soft.now budget r.end) }
{
    if soft.len() > u32::MAX as usize {
        return Err(NoMemory);
    }
    let mut solver = Solver::with_bits(alloc, cnf, bits)?;
    let end = pass(alloc, &mut solver, base, soft, prefer, budget)?;
    let cnf = solver.into_cnf();
    Ok(Passed { cnf, end })
}

/// The values that the pass found, with the fates of the soft items and a proof for each that is dropped.
fn dealt(
    alloc: Global,
    place: u32,
    base: &[Lit],
    soft: &[Lit],
    kept: Vec<u32>,
    dropped: Vec<(u32, Refutation)>,
    values: Vec<bool>,
) -> Result<Met, NoMemory>
    requires { AreRanks (length soft.now) kept.items }
    ensures { IfOk result (λ m. IsMetBy place base.now soft.now kept.items dropped.items values.items m) }
{
    let ranks = kept.as_slice();
    let fates = fates_of(alloc, ranks, soft.len())?;
    let dropped = dropped_all(alloc, place, base, soft, ranks, dropped)?;
    Ok(Met {
        fates,
        kept: Items::from_vec(kept),
        dropped,
        values,
    })
}

/// What the end of the pass says, where each question assumed the base.
fn concluded(
    alloc: Global,
    place: u32,
    base: Vec<Lit>,
    soft: &[Lit],
    end: PassEnd,
) -> Result<ValuesEnd, NoMemory>
    requires { RanksFit (length soft.now) end }
    ensures { IfOk result (Becomes place base.items soft.now end) }
{
    match end {
        PassEnd::Done {
            kept,
            dropped,
            values,
        } => {
            let assumed = base.as_slice();
            let met = dealt(alloc, place, assumed, soft, kept, dropped, values)?;
            Ok(ValuesEnd::Met(met))
        }
        PassEnd::BaseRefuted(refutation) => Ok(ValuesEnd::Refuted(Proof {
            encoding: place,
            assume: Assumed::own(base),
            refutation,
            reason: ProofReason::Hard,
        })),
        PassEnd::Spent { rank, log, first } => Ok(ValuesEnd::Spent { rank, log, first }),
    }
}

/// Asks for values that meet the hard items, whose roots are the first ones of the encoding, and as many soft ones as can hold, those of higher priority first (IEEE 1800-2017, 18.5.14.1), with the cyclic values that were chosen. The search tries the wanted values first, and gives a question up where it took `budget` steps and the bits have that many values.
pub fn ask_values(
    alloc: Global,
    frame: &Frame,
    sizes: &[u32],
    encoding: Encoded,
    question: Question<'_>,
) -> Result<Asked, NoMemory>
    requires sound { IsSound (frame_term frame.now) }
    requires fit { SizesFit (frame_term frame.now) sizes.now }
    requires encodes { EncodesCall (frame_term frame.now) sizes.now encoding }
    requires hard { question.hard ≡ length (hard_of (frame_term frame.now) Whole sizes.now) }
    requires chosen { AreCyclicValues (frame_term frame.now) question.chosen.now }
    requires budget { 1 ≤ question.budget }
    ensures encodes { IfOk result (λ asked. EncodesCall (frame_term frame.now) sizes.now asked.encoding) }
    ensures end { IfOk result (λ asked. Ends (frame_term frame.now) sizes.now question.entry.chosen.now question.entry.place question.entry.budget asked.encoding asked.end) }
{
    let base = base_of(alloc, &encoding, question.chosen, question.hard)?;
    let row = joined(alloc, encoding.bits.as_slice())?;
    let prefer = preferences(alloc, &encoding, question.wanted)?;
    let Encoded {
        items,
        slots,
        bits,
        cnf,
        roots,
    } = encoding;
    let soft = behind(roots.as_slice(), question.hard);
    let passed = pass_over(alloc, cnf, row, &base, soft, &prefer, question.budget)?;
    let Passed { cnf, end } = passed;
    let end = concluded(alloc, question.place, base, soft, end)?;
    let encoding = Encoded {
        items,
        slots,
        bits,
        cnf,
        roots,
    };
    Ok(Asked { encoding, end })
}
