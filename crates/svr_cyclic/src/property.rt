// The choice for one property.

ghost use Rattle.std.specs.Prelude.{◌≡◌, ◌<◌, ◌^◌, IfOk, OnOk};
ghost use Rattle.std.specs.List.{All};
ghost use Rattle.svr_frame.specs.Frame.{frame_term, width_of, domain_of};
ghost use Rattle.svr_phase.specs.Cyclic.{turned, unused};
ghost use Rattle.svr_cyclic.specs.Questions.{AreInFront, CanAsk, IsSought, over};
ghost use Rattle.svr_cyclic.specs.Values.{EndsBehind, IsValueEnd};

use crate::ask::{Asker, Asking, Sought};
use crate::look::{Among, Looked, first_fitting};
use crate::memory::NoMemory;
use crate::values::trials_of;
use sqlite_items::Items;
use std::alloc::Global;
use svr_chain::Refutation;
use svr_phase::Proof;

/// What the choice of a value came to.
#[derive(Drop)]
pub(crate) enum ValueEnd {
    /// An unused value: the cycle goes on.
    Going(u64),
    /// A value with which a new cycle begins, and a proof for each of those that were unused.
    Begun { value: u64, proofs: Items<Proof> },
    /// No value of the domain fits, with a proof for each.
    NoneFits(Items<Proof>),
    /// The question for a value spent the budget.
    Spent { log: Refutation, first: u64 },
}

/// Tries the whole domain, where none of the unused values fits.
fn begin_cycle(
    alloc: Global,
    asking: &Asking<'_>,
    asker: &mut Asker,
    sought: &Sought<'_>,
    domain: &[u64],
    proofs: Items<Proof>,
) -> Result<ValueEnd, NoMemory>
    requires can { CanAsk asking.now asker.old.solver }
    requires sought { IsSought asking.now sought.now }
    requires front { AreInFront asking.now sought.now.chosen.now asker.old.front.items }
    requires below { All (λ v. v < 2 ^ width_of (frame_term asking.now.frame.now) sought.now.prop) domain.now }
    ensures can { CanAsk asking.now asker.new.solver }
    ensures same { asker.new.solver.clauses ≡ asker.old.solver.clauses }
    ensures front { OnOk result (AreInFront asking.now sought.now.chosen.now asker.new.front.items) }
    ensures end { IfOk result (EndsBehind (over asking.now asker.old.solver.clauses) sought.now.chosen.now sought.now.prop proofs domain.now) }
{
    let looked = first_fitting(alloc, asking, asker, sought, Among::Domain, domain)?;
    match looked {
        Looked::Found(value) => Ok(ValueEnd::Begun { value, proofs }),
        Looked::NoneFits(refused) => Ok(ValueEnd::NoneFits(refused)),
        Looked::Spent { log, first } => Ok(ValueEnd::Spent { log, first }),
    }
}

/// The first value of a property that fits behind the chosen ones: an unused one from the place of the word on, going round, or else one with which a new cycle begins.
pub(crate) fn choose_value(
    alloc: Global,
    asking: &Asking<'_>,
    asker: &mut Asker,
    sought: &Sought<'_>,
    used: &[u64],
    word: u64,
) -> Result<ValueEnd, NoMemory>
    requires can { CanAsk asking.now asker.old.solver }
    requires sought { IsSought asking.now sought.now }
    requires front { AreInFront asking.now sought.now.chosen.now asker.old.front.items }
    ensures can { CanAsk asking.now asker.new.solver }
    ensures same { asker.new.solver.clauses ≡ asker.old.solver.clauses }
    ensures front { OnOk result (AreInFront asking.now sought.now.chosen.now asker.new.front.items) }
    ensures end { IfOk result (IsValueEnd (over asking.now asker.old.solver.clauses) sought.now.chosen.now sought.now.prop (turned word (unused used.now (domain_of (frame_term asking.now.frame.now) sought.now.prop))) (turned word (domain_of (frame_term asking.now.frame.now) sought.now.prop))) }
{
    let tries = trials_of(alloc, asking.frame, sought.prop, used, word)?;
    let left = tries.unused.as_slice();
    let whole = tries.domain.as_slice();
    let looked = first_fitting(alloc, asking, asker, sought, Among::Unused, left)?;
    match looked {
        Looked::Found(value) => Ok(ValueEnd::Going(value)),
        Looked::NoneFits(proofs) => begin_cycle(alloc, asking, asker, sought, whole, proofs),
        Looked::Spent { log, first } => Ok(ValueEnd::Spent { log, first }),
    }
}
