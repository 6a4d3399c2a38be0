// The properties one after the other.

ghost use Rattle.std.specs.Prelude.{◌≡◌, ◌≤◌, [], ◌∷◌, ◌++◌, length, IfOk, OnOk};
ghost use Rattle.std.specs.Rc.{rc_slice_items};
ghost use Rattle.svr_frame.specs.Frame.{frame_term};
ghost use Rattle.svr_frame.specs.Sound.{IsSound};
ghost use Rattle.svr_phase.specs.Cyclic as spec;
ghost use Rattle.svr_phase.specs.Ends.{cyclic_props};
ghost use Rattle.svr_cyclic.specs.Questions.{HasClausesOf};
ghost use Rattle.svr_cyclic.specs.Phase.{call_at, over_call, IsReached};

use crate::ask::{Asker, Asking, Sought, put_in_front};
use crate::memory::NoMemory;
use crate::property::{ValueEnd, choose_value};
use crate::row::row_at;
use crate::used::inserted;
use sqlite_items::Items;
use std::alloc::Global;
use std::rc::RcSlice;
use svr_chain::{Lit, Refutation};
use svr_draw::Draws;
use svr_encoded::Encoded;
use svr_frame::Frame;
use svr_phase::{Options, Proof, Renewed};
use svr_world::{Replacement, World};

/// A call as the phase is given it: an object, whose used values it reads, its frame, its number, and the options of the run.
#[derive(Clone, Copy)]
pub(crate) struct Calling<'a> {
    pub world: &'a World,
    pub object: u32,
    pub frame: &'a Frame,
    pub number: u64,
    pub opts: Options,
}

/// What was chosen so far: the values, the new cycles with their proofs, and the used values from now on.
#[derive(Drop)]
pub(crate) struct Progress {
    pub chosen: Vec<(u32, u64)>,
    pub cycles: Items<Renewed>,
    pub used: Items<Replacement>,
}

/// What the phase came to.
#[derive(Drop)]
pub(crate) enum Reached {
    /// A value for each property.
    Done(Progress),
    /// No value of the next property fits behind the chosen ones, with a proof for each.
    NoneFits {
        chosen: Vec<(u32, u64)>,
        proofs: Items<Proof>,
    },
    /// The question for a value of this property spent the budget.
    Spent {
        prop: u32,
        log: Refutation,
        first: u64,
    },
}

impl Progress {
    fn new(alloc: Global) -> Progress
        ensures chosen { result.chosen.items ≡ [] }
        ensures cycles { result.cycles ≡ [] }
        ensures used { result.used ≡ [] }
    {
        Progress {
            chosen: Vec::new(alloc),
            cycles: Items::new(alloc),
            used: Items::new(alloc),
        }
    }

    /// A property takes a value, which joins the used ones `joined`.
    fn take(&mut self, alloc: Global, prop: u32, value: u64, joined: &[u64]) -> Result<(), NoMemory>
        ensures chosen { OnOk result (self.new.chosen.items ≡ self.old.chosen.items ++ (prop, value) ∷ []) }
        ensures cycles { self.new.cycles ≡ self.old.cycles }
        ensures used { OnOk result (self.new.used ≡ self.old.used ++ record { prop = prop; numbers = spec.inserted value joined.now } ∷ []) }
    {
        let numbers = inserted(alloc, value, joined)?;
        self.used.push(Replacement { prop, numbers })?;
        self.chosen.push((prop, value))?;
        Ok(())
    }

    /// A property takes a value with which a new cycle begins: no other is used in it.
    fn begin(
        &mut self,
        alloc: Global,
        prop: u32,
        value: u64,
        proofs: Items<Proof>,
    ) -> Result<(), NoMemory>
        ensures chosen { OnOk result (self.new.chosen.items ≡ self.old.chosen.items ++ (prop, value) ∷ []) }
        ensures cycles { OnOk result (self.new.cycles ≡ self.old.cycles ++ record { prop = prop; proofs = proofs } ∷ []) }
        ensures used { OnOk result (self.new.used ≡ self.old.used ++ record { prop = prop; numbers = spec.inserted value [] } ∷ []) }
    {
        self.cycles.push(Renewed { prop, proofs })?;
        self.take(alloc, prop, value, &[])?;
        Ok(())
    }
}

/// Chooses a value for each property in turn, with the words of the call in their order.
pub(crate) fn choose_all(
    alloc: Global,
    call: &Calling<'_>,
    layout: &Encoded,
    roots: &RcSlice<Lit>,
    prefer: &[bool],
    asker: &mut Asker,
    props: &[u32],
) -> Result<Reached, NoMemory>
    requires sound { IsSound (frame_term call.now.frame.now) }
    requires budget { 1 ≤ call.now.opts.budget }
    requires has { HasClausesOf (frame_term call.now.frame.now) layout.now asker.old.solver }
    requires roots { rc_slice_items roots.now ≡ layout.now.roots.items }
    requires front { asker.old.front.items ≡ layout.now.roots.items }
    requires prefer { length prefer.now ≡ asker.old.solver.vars }
    requires props { props.now ≡ cyclic_props (frame_term call.now.frame.now) }
    ensures has { HasClausesOf (frame_term call.now.frame.now) layout.now asker.new.solver }
    ensures same { asker.new.solver.clauses ≡ asker.old.solver.clauses }
    ensures reached { IfOk result (IsReached (call_at call.now) (over_call (call_at call.now) layout.now asker.old.solver.clauses)) }
{
    let asking = Asking {
        frame: call.frame,
        layout,
        roots,
        prefer,
        budget: call.opts.budget,
    };
    let mut draws = Draws::new(call.opts.seed, call.number);
    let mut progress = Progress::new(alloc);
    for prop in props {
        let prop = *prop;
        let before = call.world.used(call.object, prop);
        let word = draws.word();
        let chosen = progress.chosen.as_slice();
        let place = chosen.len();
        let row = row_at(layout, place);
        let sought = Sought { prop, chosen, row };
        let end = choose_value(alloc, &asking, asker, &sought, before, word)?;
        // Each arm goes on by itself, so that the prover sees no join.
        match end {
            ValueEnd::Going(value) => {
                progress.take(alloc, prop, value, before)?;
                put_in_front(alloc, &mut asker.front, row, value)?;
                continue;
            }
            ValueEnd::Begun { value, proofs } => {
                progress.begin(alloc, prop, value, proofs)?;
                put_in_front(alloc, &mut asker.front, row, value)?;
                continue;
            }
            ValueEnd::NoneFits(proofs) => {
                let chosen = progress.chosen;
                return Ok(Reached::NoneFits { chosen, proofs });
            }
            ValueEnd::Spent { log, first } => return Ok(Reached::Spent { prop, log, first }),
        }
    }
    Ok(Reached::Done(progress))
}
