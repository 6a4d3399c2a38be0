// One encoding and one solver for all questions of the phase.

ghost use Rattle.std.specs.Prelude.{◌≡◌, length, IfOk};
ghost use Rattle.std.specs.Rc.{rc_slice_items};
ghost use Rattle.svr_frame.specs.Frame.{frame_term};
ghost use Rattle.svr_frame.specs.Sound.{IsSound};
ghost use Rattle.svr_cyclic.specs.Questions.{EncodesCyclic, HasClausesOf};

use crate::ask::Asker;
use crate::memory::NoMemory;
use std::alloc::Global;
use std::rc::RcSlice;
use svr_chain::{Cnf, Lit};
use svr_clauses::clauses_of;
use svr_encoded::Encoded;
use svr_expand::expand;
use svr_frame::{Frame, Part};
use svr_query::Solver;
use svr_question::joined;

/// The hard items of the phase as clauses; it has no others.
pub(crate) fn encoded(alloc: Global, frame: &Frame) -> Result<Encoded, NoMemory>
    requires { IsSound (frame_term frame.now) }
    ensures { IfOk result (λ e. EncodesCyclic (frame_term frame.now) e) }
{
    let sizes = frame.state.sizes.as_slice();
    let expansion = expand(alloc, frame, Part::Randc, sizes)?;
    let encoding = clauses_of(alloc, frame, Part::Randc, sizes, expansion.hard, 1)?;
    Ok(encoding)
}

/// An encoding apart from its clauses, its roots once more, which proofs share, a solver that has the clauses, with the literals of the hard items in front of its questions, and a wish for each of its variables.
#[derive(Drop)]
pub(crate) struct Parted {
    pub layout: Encoded,
    pub roots: RcSlice<Lit>,
    pub asker: Asker,
    pub prefer: Vec<bool>,
}

/// Takes the clauses out of an encoding, for a solver that knows its bits, which is asked with the hard items.
pub(crate) fn taken_apart(
    alloc: Global,
    frame: &Frame,
    encoding: Encoded,
) -> Result<Parted, NoMemory>
    requires { EncodesCyclic (frame_term frame.now) encoding }
    ensures has { IfOk result (λ r. HasClausesOf (frame_term frame.now) r.layout r.asker.solver) }
    ensures roots { IfOk result (λ r. rc_slice_items r.roots ≡ r.layout.roots.items) }
    ensures front { IfOk result (λ r. r.asker.front.items ≡ r.layout.roots.items) }
    ensures prefer { IfOk result (λ r. length r.prefer.items ≡ r.asker.solver.vars) }
{
    let rows = encoding.bits.as_slice();
    let bits_in_row = joined(alloc, rows)?;
    let prefer = vec![in alloc; false; encoding.cnf.vars as usize]?;
    let front = Vec::from_slice(alloc, encoding.roots.as_slice())?;
    let shared = RcSlice::from_slice(alloc, encoding.roots.as_slice())?;
    let Encoded {
        items,
        slots,
        bits,
        cnf,
        roots,
    } = encoding;
    let solver = Solver::with_bits(alloc, cnf, bits_in_row)?;
    let layout = Encoded {
        items,
        slots,
        bits,
        cnf: Cnf {
            vars: 0,
            clauses: Vec::new(alloc),
        },
        roots,
    };
    let met = Vec::new(alloc);
    Ok(Parted {
        layout,
        roots: shared,
        asker: Asker { solver, front, met },
        prefer,
    })
}

/// The encoding with its clauses, which the solver gives back.
pub(crate) fn whole(frame: &Frame, layout: Encoded, solver: Solver) -> Encoded
    requires { HasClausesOf (frame_term frame.now) layout solver }
    ensures encodes { EncodesCyclic (frame_term frame.now) result }
    ensures layout { result ≡ record layout { cnf = result.cnf } }
    ensures clauses { result.cnf.clauses.items ≡ solver.clauses }
{
    let Encoded {
        items,
        slots,
        bits,
        cnf: _none,
        roots,
    } = layout;
    let cnf = solver.into_cnf();
    Encoded {
        items,
        slots,
        bits,
        cnf,
        roots,
    }
}
