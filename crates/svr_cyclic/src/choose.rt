// The phase as a whole.

ghost use Rattle.std.specs.Prelude.{◌≡◌, ◌≤◌, [], ◌∷◌, length, IfOk};
ghost use Rattle.svr_limits.specs.declared.limit.TheConstants.{PROPERTY_LIMIT};
ghost use Rattle.svr_frame.specs.declared.part.Part.TheVariants.{Randc};
ghost use Rattle.svr_frame.specs.Frame.{frame_term};
ghost use Rattle.svr_frame.specs.Sound.{IsSound};
ghost use Rattle.svr_frame.specs.Weight.{weight_of};
ghost use Rattle.svr_phase.specs.Ends as spec;
ghost use Rattle.svr_phase.specs.Ends.{weight_limit};
ghost use Rattle.svr_call.specs.Call.{call_of};
ghost use Rattle.svr_cyclic.specs.Phase.{call_at};
ghost use Rattle.svr_cyclic.specs.Ends.{end_of, CyclicEnds, FitsIfChosen};

use crate::ask::Asker;
use crate::memory::NoMemory;
use crate::phase::{Calling, Progress, Reached, choose_all};
use crate::solving::{Parted, encoded, taken_apart, whole};
use sqlite_items::Items;
use std::alloc::Global;
use svr_chain::Refutation;
use svr_encoded::Encoded;
use svr_frame::Frame;
use svr_phase::{Options, Proof, Renewed};
use svr_world::{Replacement, World};

/// A value for each cyclic random property, in flat order; the new cycles, each with the proofs of the values that were unused; the used values of each property from now on; and the encoding that the proofs name, which stands at place 0 where the frame has cyclic properties.
#[derive(Drop)]
pub struct Chosen {
    pub values: Items<(u32, u64)>,
    pub cycles: Items<Renewed>,
    pub used: Items<Replacement>,
    pub encodings: Items<Encoded>,
}

/// How the phase of cyclic values ended. Each proof names the encoding at place 0.
#[derive(Drop)]
pub enum CyclicEnd {
    /// Each property has a value.
    Chosen(Chosen),
    /// No value of the next property fits behind the chosen ones, with a proof for each of its domain.
    None {
        chosen: Items<(u32, u64)>,
        proofs: Items<Proof>,
        encodings: Items<Encoded>,
    },
    /// The question for a value of that property spent the budget; the steps from place `first` on were made for it.
    Spent {
        prop: u32,
        encoding: Encoded,
        log: Refutation,
        first: u64,
    },
}

/// The random cyclic properties, in flat order.
fn cyclic_props(alloc: Global, frame: &Frame) -> Result<Items<u32>, NoMemory>
    requires { length (frame_term frame.now).class.props ≤ PROPERTY_LIMIT }
    ensures { IfOk result (λ props. props ≡ spec.cyclic_props (frame_term frame.now)) }
{
    let mut props = Items::new(alloc);
    for prop in 0..frame.class.props.len() as u32 {
        if frame.is_cyclic(prop) {
            props.push(prop)?;
        }
    }
    Ok(props)
}

/// There is nothing to choose, and nothing was asked.
fn nothing(alloc: Global) -> Chosen
    ensures { result ≡ record { values = []; cycles = []; used = []; encodings = [] } }
{
    Chosen {
        values: Items::new(alloc),
        cycles: Items::new(alloc),
        used: Items::new(alloc),
        encodings: Items::new(alloc),
    }
}

/// A list of one, beside what is held meanwhile.
fn beside<T: Drop, E: Drop>(alloc: Global, held: T, one: E) -> Result<(T, Items<E>), NoMemory>
    ensures held { IfOk result (λ r. r.0 ≡ held) }
    ensures alone { IfOk result (λ r. r.1 ≡ one ∷ []) }
{
    let mut alone = Items::new(alloc);
    alone.push(one)?;
    Ok((held, alone))
}

/// Each property has a value.
fn chosen_end(alloc: Global, encoding: Encoded, progress: Progress) -> Result<CyclicEnd, NoMemory>
    ensures { IfOk result (λ end. end ≡ end_of encoding (Reached.Done progress)) }
{
    let (progress, encodings) = beside(alloc, progress, encoding)?;
    Ok(CyclicEnd::Chosen(Chosen {
        values: Items::from_vec(progress.chosen),
        cycles: progress.cycles,
        used: progress.used,
        encodings,
    }))
}

/// No value of a property fits.
fn none_end(
    alloc: Global,
    encoding: Encoded,
    chosen: Vec<(u32, u64)>,
    proofs: Items<Proof>,
) -> Result<CyclicEnd, NoMemory>
    ensures { IfOk result (λ end. end ≡ end_of encoding (Reached.NoneFits chosen proofs)) }
{
    let (proofs, encodings) = beside(alloc, proofs, encoding)?;
    Ok(CyclicEnd::None {
        chosen: Items::from_vec(chosen),
        proofs,
        encodings,
    })
}

/// The end of the phase, over its encoding.
fn concluded(alloc: Global, encoding: Encoded, reached: Reached) -> Result<CyclicEnd, NoMemory>
    ensures { IfOk result (λ end. end ≡ end_of encoding reached) }
{
    match reached {
        Reached::Done(progress) => chosen_end(alloc, encoding, progress),
        Reached::NoneFits { chosen, proofs } => none_end(alloc, encoding, chosen, proofs),
        Reached::Spent { prop, log, first } => Ok(CyclicEnd::Spent {
            prop,
            encoding,
            log,
            first,
        }),
    }
}

/// Chooses a value for each of the cyclic properties of a call, of which there are some.
fn chosen_in_turn(alloc: Global, call: &Calling<'_>, props: &[u32]) -> Result<CyclicEnd, NoMemory>
    requires sound { IsSound (frame_term call.now.frame.now) }
    requires light { weight_of (frame_term call.now.frame.now) Randc (frame_term call.now.frame.now).state.sizes ≤ weight_limit }
    requires budget { 1 ≤ call.now.opts.budget }
    requires props { props.now ≡ spec.cyclic_props (frame_term call.now.frame.now) }
    ensures ends { IfOk result (CyclicEnds (call_at call.now)) }
    ensures fits { IfOk result (FitsIfChosen (frame_term call.now.frame.now).class) }
{
    let encoding = encoded(alloc, call.frame)?;
    let parts = taken_apart(alloc, call.frame, encoding)?;
    let Parted {
        layout,
        roots,
        mut asker,
        prefer,
    } = parts;
    let wishes = prefer.as_slice();
    let reached = choose_all(alloc, call, &layout, &roots, wishes, &mut asker, props)?;
    let Asker {
        solver,
        front: _front,
        met: _met,
    } = asker;
    let given = whole(call.frame, layout, solver);
    concluded(alloc, given, reached)
}

/// The phase of the cyclic random properties of a call (IEEE 1800-2017, 18.4.2): each in flat order takes the first of its tried values with which some assignment meets the items over cyclic properties. The unused values are tried first, from the place of its word on, going round; where none fits a new cycle begins, and the whole domain is tried from the same place.
pub fn choose_randc(
    alloc: Global,
    frame: &Frame,
    world: &World,
    object: u32,
    number: u64,
    opts: Options,
) -> Result<CyclicEnd, NoMemory>
    requires sound { IsSound (frame_term frame.now) }
    requires light { weight_of (frame_term frame.now) Randc (frame_term frame.now).state.sizes ≤ weight_limit }
    requires budget { 1 ≤ opts.budget }
    ensures ends { IfOk result (CyclicEnds (call_of world.now object (frame_term frame.now) number opts)) }
    ensures fits { IfOk result (FitsIfChosen (frame_term frame.now).class) }
{
    let props = cyclic_props(alloc, frame)?;
    let count = props.len();
    if count == 0 {
        return Ok(CyclicEnd::Chosen(nothing(alloc)));
    }
    let call = Calling {
        world,
        object,
        frame,
        number,
        opts,
    };
    chosen_in_turn(alloc, &call, props.as_slice())
}
