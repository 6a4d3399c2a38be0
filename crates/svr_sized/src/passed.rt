// The pass over the roots of a question.

ghost use Rattle.std.specs.Prelude.{◌≡◌, ◌≤◌, ◌++◌, ℕ, List, [], Some, take, drop, IfOk};
ghost use Rattle.svr_typed.specs.ExprTerm.{ExprTerm};
ghost use Rattle.svr_frame.specs.declared.part.Part.TheVariants.{Sizes};
ghost use Rattle.svr_frame.specs.Frame.{frame_term};
ghost use Rattle.svr_encoded.specs.Encodes.{Encodes};
ghost use Rattle.svr_phase.specs.Chosen.{AreCyclicValues};
ghost use Rattle.svr_phase.specs.Spent.{bit_count};
ghost use Rattle.svr_phase.specs.Proof.{fixed_lits};
ghost use Rattle.svr_soft.specs.End.{IsPassEnd};

use crate::memory::NoMemory;
use std::alloc::Global;
use svr_chain::Lit;
use svr_encoded::Encoded;
use svr_frame::Frame;
use svr_question::{Passed, Question, base_of, behind, joined, pass_over, preferences};
use svr_soft::PassEnd;

/// An encoding, given back, what each question over it assumed, and how the pass over its soft roots ended.
#[derive(Drop)]
pub(crate) struct Over {
    pub encoding: Encoded,
    pub base: Vec<Lit>,
    pub end: PassEnd,
}

/// One pass over the roots of an encoding of the phase, whichever its items, those of the hard ones first.
pub(crate) fn pass_roots(
    alloc: Global,
    frame: &Frame,
    encoding: Encoded,
    question: Question<'_>,
) -> Result<Over, NoMemory>
    requires encodes { (k : ℕ) × (asked : List ExprTerm) × Encodes (frame_term frame.now) Sizes (frame_term frame.now).state.sizes k asked encoding }
    requires chosen { AreCyclicValues (frame_term frame.now) question.chosen.now }
    requires budget { 1 ≤ question.budget }
    ensures encodes { IfOk result (λ r. (k : ℕ) (asked : List ExprTerm) → Encodes (frame_term frame.now) Sizes (frame_term frame.now).state.sizes k asked encoding → Encodes (frame_term frame.now) Sizes (frame_term frame.now).state.sizes k asked r.encoding) }
    ensures base { IfOk result (λ r. r.base.items ≡ fixed_lits r.encoding question.entry.chosen.now ++ take question.entry.hard r.encoding.roots.items) }
    ensures end { IfOk result (λ r. (k : ℕ) (asked : List ExprTerm) → Encodes (frame_term frame.now) Sizes (frame_term frame.now).state.sizes k asked encoding → IsPassEnd (record { vars = r.encoding.cnf.vars; clauses = r.encoding.cnf.clauses.items; steps = []; bits = Some (bit_count (frame_term frame.now) Sizes (frame_term frame.now).state.sizes k) }) r.base.items (drop question.entry.hard r.encoding.roots.items) question.entry.budget r.end) }
{
    let base = base_of(alloc, &encoding, question.chosen, question.hard)?;
    let rows = encoding.bits.as_slice();
    let bits_in_row = joined(alloc, rows)?;
    let prefer = preferences(alloc, &encoding, question.wanted)?;
    let Encoded {
        items,
        slots,
        bits,
        cnf,
        roots,
    } = encoding;
    let roots_in_row = roots.as_slice();
    let soft = behind(roots_in_row, question.hard);
    let assumed = base.as_slice();
    let preferred = prefer.as_slice();
    let budget = question.budget;
    let passed = pass_over(alloc, cnf, bits_in_row, assumed, soft, preferred, budget)?;
    let Passed { cnf, end } = passed;
    let encoding = Encoded {
        items,
        slots,
        bits,
        cnf,
        roots,
    };
    Ok(Over {
        encoding,
        base,
        end,
    })
}
