// The answer behind a question for values.

ghost use Rattle.std.specs.Prelude.{◌≡◌, ◌≤◌, ◌∷◌, ◌++◌, [], ℕ, None, Some, length, IfOk};
ghost use Rattle.svr_limits.specs.declared.limit.TheConstants.{PROPERTY_LIMIT};
ghost use Rattle.svr_eval.specs.Reading.{reading_of};
ghost use Rattle.svr_frame.specs.declared.part.Part.TheVariants.{All as Whole};
ghost use Rattle.svr_frame.specs.Frame.{frame_term};
ghost use Rattle.svr_frame.specs.Phases.{hard_of};
ghost use Rattle.svr_frame.specs.Satisfaction.{IsAssignment};
ghost use Rattle.svr_frame.specs.Sound.{IsSound, SizesFit};
ghost use Rattle.svr_phase.specs.Chosen.{AreCyclicValues};
ghost use Rattle.svr_call.specs.declared.outcome.Outcome.TheVariants.{One};
ghost use Rattle.svr_call.specs.Call.{numbers_read, random_props};
ghost use Rattle.svr_question.specs.Ends.{EncodesCall, IsMet};
ghost use Rattle.svr_cyclic.specs.Ends.{UsedFit};
ghost use Rattle.svr_randomize.specs.Asked as spec;
ghost use Rattle.svr_randomize.specs.Answers.{IsAnswerBehind, FitsIfChanged};
ghost use Rattle.svr_randomize.specs.Kept.{AreItemsIn, IsLeft};

use crate::answer::{Decided, gave_up, leaving, leaving_none, no_values, one, with_one_more};
use crate::clauses::encoded;
use crate::kept::Form;
use crate::memory::NoMemory;
use sqlite_items::Items;
use std::alloc::Global;
use svr_call::{Dropped, Query};
use svr_cyclic::Chosen;
use svr_encoded::Encoded;
use svr_eval::Assign;
use svr_frame::Frame;
use svr_question::{Asked, Met, Question, ValuesEnd, ask_values};
use svr_solution::solution;

/// The question that spent its budget: for the soft item of that rank, or for the hard items alone.
fn query_of(rank: Option<u32>) -> Query
    ensures { result ≡ spec.query_of rank }
{
    match rank {
        None => Query::Hard,
        Some(rank) => Query::Soft(rank),
    }
}

/// The chosen cyclic values, with an encoding more that proofs may name.
fn with_encoding(chosen: Chosen, encoding: Encoded) -> Result<Chosen, NoMemory>
    ensures { IfOk result (λ more. more ≡ record chosen { encodings = chosen.encodings ++ encoding ∷ [] }) }
{
    let Chosen {
        values,
        cycles,
        used,
        encodings,
    } = chosen;
    let encodings = with_one_more(encodings, encoding)?;
    Ok(Chosen {
        values,
        cycles,
        used,
        encodings,
    })
}

/// 1, with values that a search found, where the pass dropped no soft item: no proof of the call names the clauses, which are left for the next one.
fn answer_alone(
    alloc: Global,
    frame: &Frame,
    sizes: &[u32],
    solved: &Assign,
    items: Form,
    chosen: Chosen,
    kept: Items<u32>,
) -> Result<Decided, NoMemory>
    requires { length (frame_term frame.now).class.props ≤ PROPERTY_LIMIT }
    ensures answer { IfOk result (λ r. r.answer ≡ record { outcome = One kept [] chosen.cycles chosen.encodings; change = Some (record { values = numbers_read sizes.now (reading_of solved.now) (random_props (frame_term frame.now)); used = chosen.used }) }) }
    ensures left { IfOk result (λ r. r.left ≡ Some items) }
{
    let none = Items::new(alloc);
    let answer = one(alloc, frame, sizes, solved, chosen, kept, none);
    leaving(answer, items)
}

/// 1, with values that a search found. The answer carries the clauses along, for the proofs of the soft items that are dropped.
fn answer_with_clauses(
    alloc: Global,
    frame: &Frame,
    sizes: &[u32],
    solved: &Assign,
    encoding: Encoded,
    chosen: Chosen,
    kept: Items<u32>,
    dropped: Items<Dropped>,
) -> Result<Decided, NoMemory>
    requires { length (frame_term frame.now).class.props ≤ PROPERTY_LIMIT }
    ensures answer { IfOk result (λ r. r.answer ≡ record { outcome = One kept dropped chosen.cycles (chosen.encodings ++ encoding ∷ []); change = Some (record { values = numbers_read sizes.now (reading_of solved.now) (random_props (frame_term frame.now)); used = chosen.used }) }) }
    ensures left { IfOk result (λ r. r.left ≡ None) }
{
    let carried = with_encoding(chosen, encoding)?;
    let answer = one(alloc, frame, sizes, solved, carried, kept, dropped);
    leaving_none(answer)
}

/// 1, with the values that a search found, where what no item mentions has its wanted value.
fn met_answer(
    alloc: Global,
    frame: &Frame,
    sizes: &[u32],
    hard: usize,
    encoding: Encoded,
    met: Met,
    chosen: Chosen,
    wanted: &Assign,
) -> Result<Decided, NoMemory>
    requires sound { IsSound (frame_term frame.now) }
    requires fit { SizesFit (frame_term frame.now) sizes.now }
    requires chosen { AreCyclicValues (frame_term frame.now) chosen.values }
    requires used { UsedFit (frame_term frame.now).class chosen.used }
    requires wish { IsAssignment (frame_term frame.now) Whole sizes.now chosen.values (reading_of wanted.now) }
    requires hard { hard ≡ length (hard_of (frame_term frame.now) Whole sizes.now) }
    requires encodes { EncodesCall (frame_term frame.now) sizes.now encoding }
    requires met { IsMet (frame_term frame.now) sizes.now chosen.values (length chosen.encodings) encoding met }
    ensures answer { IfOk result (λ r. (budget : ℕ) → IsAnswerBehind (frame_term frame.now) sizes.now chosen budget (reading_of wanted.now) r.answer) }
    ensures fits { IfOk result (λ r. FitsIfChanged (frame_term frame.now).class r.answer.change) }
    ensures left { IfOk result (λ r. IsLeft (frame_term frame.now) sizes.now r.left) }
{
    let values = chosen.values.as_slice();
    let solved = solution(alloc, frame, sizes, &encoding, values, &met, wanted)?;
    let Met {
        fates: _fates,
        kept,
        dropped,
        values: _values,
    } = met;
    if dropped.is_empty() {
        let items = Form::Clauses { hard, encoding };
        return answer_alone(alloc, frame, sizes, &solved, items, chosen, kept);
    }
    answer_with_clauses(
        alloc, frame, sizes, &solved, encoding, chosen, kept, dropped,
    )
}

/// Asks for values that meet the items of a call, where the wanted ones do not meet all of them.
pub(crate) fn asked_answer(
    alloc: Global,
    frame: &Frame,
    sizes: &[u32],
    items: Form,
    chosen: Chosen,
    wanted: &Assign,
    budget: u64,
) -> Result<Decided, NoMemory>
    requires sound { IsSound (frame_term frame.now) }
    requires fit { SizesFit (frame_term frame.now) sizes.now }
    requires items { AreItemsIn (frame_term frame.now) sizes.now items }
    requires chosen { AreCyclicValues (frame_term frame.now) chosen.values }
    requires few { length chosen.encodings ≤ 1 }
    requires used { UsedFit (frame_term frame.now).class chosen.used }
    requires wish { IsAssignment (frame_term frame.now) Whole sizes.now chosen.values (reading_of wanted.now) }
    requires budget { 1 ≤ budget }
    ensures answer { IfOk result (λ r. IsAnswerBehind (frame_term frame.now) sizes.now chosen budget (reading_of wanted.now) r.answer) }
    ensures fits { IfOk result (λ r. FitsIfChanged (frame_term frame.now).class r.answer.change) }
    ensures left { IfOk result (λ r. IsLeft (frame_term frame.now) sizes.now r.left) }
{
    let hard = items.hard_count();
    let encoding = encoded(alloc, frame, sizes, items)?;
    let values = chosen.values.as_slice();
    let place = chosen.encodings.len();
    let question = Question {
        hard,
        chosen: values,
        place: place as u32,
        wanted,
        budget,
    };
    let asked = ask_values(alloc, frame, sizes, encoding, question)?;
    let Asked { encoding, end } = asked;
    match end {
        ValuesEnd::Met(met) => met_answer(alloc, frame, sizes, hard, encoding, met, chosen, wanted),
        ValuesEnd::Refuted(proof) => {
            let answer = no_values(alloc, sizes, chosen, proof, encoding);
            leaving_none(answer)
        }
        ValuesEnd::Spent { rank, log, first } => {
            let query = query_of(rank);
            let answer = gave_up(query, encoding, log, first);
            Ok(Decided { answer, left: None })
        }
    }
}
