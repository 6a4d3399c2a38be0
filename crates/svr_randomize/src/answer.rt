// What a call answers, and what it changes.

ghost use Rattle.std.specs.Prelude.{◌≡◌, ◌≤◌, ◌∷◌, ◌++◌, [], None, Some, Ok, length, IfOk};
ghost use Rattle.svr_limits.specs.declared.limit.TheConstants.{PROPERTY_LIMIT};
ghost use Rattle.svr_eval.specs.Reading.{reading_of};
ghost use Rattle.svr_frame.specs.declared.part.Part.TheVariants.{Randc, Sizes, All as Whole};
ghost use Rattle.svr_frame.specs.Frame.{frame_term};
ghost use Rattle.svr_call.specs.declared.outcome.Outcome.TheVariants.{One, Zero, GaveUp, TooHeavy, SizeCap};
ghost use Rattle.svr_call.specs.Call.{numbers_read, random_props};
ghost use Rattle.svr_randomize.specs.Placed.{at_first};

use crate::kept::Form;
use crate::memory::NoMemory;
use sqlite_items::Items;
use std::alloc::Global;
use svr_call::{Dropped, Outcome, Query};
use svr_chain::Refutation;
use svr_cyclic::Chosen;
use svr_encoded::Encoded;
use svr_eval::Assign;
use svr_frame::{Frame, Part};
use svr_phase::Proof;
use svr_values::random_numbers;
use svr_world::Change;

/// What a call answers, and for an answer 1 what its object is to have.
#[derive(Drop)]
pub struct Answer {
    pub outcome: Outcome,
    pub change: Option<Change>,
}

/// What a call answers, and its items where the answer does not carry them along.
#[derive(Drop)]
pub(crate) struct Decided {
    pub(crate) answer: Answer,
    pub(crate) left: Option<Form>,
}

/// An answer that leaves these items.
pub(crate) fn leaving(answer: Result<Answer, NoMemory>, items: Form) -> Result<Decided, NoMemory>
    ensures answer { IfOk result (λ r. answer ≡ Ok r.answer) }
    ensures left { IfOk result (λ r. r.left ≡ Some items) }
{
    match answer {
        Err(fault) => Err(let_go(items, fault)),
        Ok(answer) => Ok(Decided {
            answer,
            left: Some(items),
        }),
    }
}

/// An answer that leaves no items.
pub(crate) fn leaving_none(answer: Result<Answer, NoMemory>) -> Result<Decided, NoMemory>
    ensures answer { IfOk result (λ r. answer ≡ Ok r.answer) }
    ensures left { IfOk result (λ r. r.left ≡ None) }
{
    match answer {
        Err(fault) => Err(fault),
        Ok(answer) => Ok(Decided { answer, left: None }),
    }
}

/// The fault; a value that is at hand is let go.
fn let_go<T: Drop>(_held: T, fault: NoMemory) -> NoMemory
    ensures { result ≡ fault }
{
    fault
}

/// An answer that changes nothing.
fn unchanged(outcome: Outcome) -> Answer
    ensures { result ≡ record { outcome = outcome; change = None } }
{
    Answer {
        outcome,
        change: None,
    }
}

/// A phase weighs this.
pub(crate) fn too_heavy(weight: u128) -> Answer
    ensures { result ≡ record { outcome = TooHeavy weight; change = None } }
{
    unchanged(Outcome::TooHeavy { weight })
}

/// A question spent its budget.
pub(crate) fn gave_up(query: Query, encoding: Encoded, log: Refutation, first: u64) -> Answer
    ensures { result ≡ record { outcome = GaveUp query encoding log first; change = None } }
{
    unchanged(Outcome::GaveUp {
        query,
        encoding,
        log,
        first,
    })
}

/// 1, with the numbers of the random properties under an assignment, the ranks of the kept soft items, and the proofs of the others.
pub(crate) fn one(
    alloc: Global,
    frame: &Frame,
    sizes: &[u32],
    a: &Assign,
    chosen: Chosen,
    kept: Items<u32>,
    dropped: Items<Dropped>,
) -> Result<Answer, NoMemory>
    requires { length (frame_term frame.now).class.props ≤ PROPERTY_LIMIT }
    ensures { IfOk result (λ r. r ≡ record { outcome = One kept dropped chosen.cycles chosen.encodings; change = Some (record { values = numbers_read sizes.now (reading_of a.now) (random_props (frame_term frame.now)); used = chosen.used }) }) }
{
    let values = random_numbers(alloc, frame, sizes, a)?;
    let Chosen {
        values: _chosen,
        cycles,
        used,
        encodings,
    } = chosen;
    let outcome = Outcome::One {
        kept,
        dropped,
        cycles,
        encodings,
    };
    Ok(Answer {
        outcome,
        change: Some(Change { values, used }),
    })
}

/// A list of one.
fn alone<T: Drop>(alloc: Global, item: T) -> Result<Items<T>, NoMemory>
    ensures { IfOk result (λ items. items ≡ item ∷ []) }
{
    let mut items = Items::new(alloc);
    items.push(item)?;
    Ok(items)
}

/// A list with one behind it.
pub(crate) fn with_one_more<T: Drop>(items: Items<T>, item: T) -> Result<Items<T>, NoMemory>
    ensures { IfOk result (λ more. more ≡ items ++ item ∷ []) }
{
    let mut more = items;
    more.push(item)?;
    Ok(more)
}

/// What an answer with one proof carries.
#[derive(Drop)]
struct Carried<P, E> {
    sizes: Items<u32>,
    proofs: Items<P>,
    encodings: Items<E>,
}

/// One proof over one encoding.
fn one_proof<P: Drop, E: Drop>(
    alloc: Global,
    sizes: &[u32],
    proof: P,
    encoding: E,
) -> Result<Carried<P, E>, NoMemory>
    ensures sizes { IfOk result (λ r. r.sizes ≡ sizes.now) }
    ensures proofs { IfOk result (λ r. r.proofs ≡ proof ∷ []) }
    ensures encodings { IfOk result (λ r. r.encodings ≡ encoding ∷ []) }
{
    let encodings = alone(alloc, encoding)?;
    let sizes = Items::from_slice(alloc, sizes)?;
    let proofs = alone(alloc, proof)?;
    Ok(Carried {
        sizes,
        proofs,
        encodings,
    })
}

/// 0: no value of the next cyclic property fits.
pub(crate) fn no_cyclic_value(
    alloc: Global,
    chosen: Items<(u32, u64)>,
    proofs: Items<Proof>,
    encodings: Items<Encoded>,
) -> Answer
    ensures { result ≡ record { outcome = Zero Randc chosen [] proofs encodings; change = None } }
{
    unchanged(Outcome::Zero {
        phase: Part::Randc,
        chosen,
        sizes: Items::new(alloc),
        proofs,
        encodings,
    })
}

/// 0: there are no sizes.
pub(crate) fn no_sizes(
    alloc: Global,
    chosen: Chosen,
    proof: Proof,
    encoding: Encoded,
) -> Result<Answer, NoMemory>
    ensures { IfOk result (λ r. r ≡ record { outcome = Zero Sizes chosen.values [] (proof ∷ []) (encoding ∷ []); change = None }) }
{
    let Chosen {
        values,
        cycles: _cycles,
        used: _used,
        encodings: _encodings,
    } = chosen;
    let carried = one_proof(alloc, &[], proof, encoding)?;
    Ok(unchanged(Outcome::Zero {
        phase: Part::Sizes,
        chosen: values,
        sizes: carried.sizes,
        proofs: carried.proofs,
        encodings: carried.encodings,
    }))
}

/// Sizes beyond the cap alone can be.
pub(crate) fn beyond_cap(
    alloc: Global,
    sizes: Items<u32>,
    proof: Proof,
    encoding: Encoded,
) -> Result<Answer, NoMemory>
    ensures { IfOk result (λ r. r ≡ record { outcome = SizeCap sizes (proof ∷ []) (encoding ∷ []); change = None }) }
{
    let carried = one_proof(alloc, &[], proof, encoding)?;
    Ok(unchanged(Outcome::SizeCap {
        sizes,
        proofs: carried.proofs,
        encodings: carried.encodings,
    }))
}

/// The proof over an encoding that stands alone.
fn over_the_only(proof: Proof) -> Proof
    ensures { result ≡ at_first proof }
{
    let Proof {
        encoding: _place,
        assume,
        refutation,
        reason,
    } = proof;
    Proof {
        encoding: 0,
        assume,
        refutation,
        reason,
    }
}

/// 0: the hard items cannot be met at these sizes.
pub(crate) fn no_values(
    alloc: Global,
    sizes: &[u32],
    chosen: Chosen,
    proof: Proof,
    encoding: Encoded,
) -> Result<Answer, NoMemory>
    ensures { IfOk result (λ r. r ≡ record { outcome = Zero Whole chosen.values sizes.now (at_first proof ∷ []) (encoding ∷ []); change = None }) }
{
    let Chosen {
        values,
        cycles: _cycles,
        used: _used,
        encodings: _encodings,
    } = chosen;
    let carried = one_proof(alloc, sizes, over_the_only(proof), encoding)?;
    Ok(unchanged(Outcome::Zero {
        phase: Part::All,
        chosen: values,
        sizes: carried.sizes,
        proofs: carried.proofs,
        encodings: carried.encodings,
    }))
}
