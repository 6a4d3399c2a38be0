// What a proof assumes. Literals that stand in many proofs are shared by them.

ghost use Rattle.std.specs.Prelude.{◌≡◌, ◌++◌, take, IfOk};
ghost use Rattle.std.specs.Rc.{rc_slice_items};
ghost use Rattle.svr_phase.specs.Assumed.{lits_of};

use std::alloc::{AllocError, Global};
use std::marker::Model;
use std::rc::RcSlice;
use svr_chain::Lit;

/// Where the literals lie that one proof assumes.
#[derive(Drop)]
enum Parts {
    /// All are its own.
    Own(Vec<Lit>),
    /// Its own between shared ones.
    Between {
        front: RcSlice<Lit>,
        own: Vec<Lit>,
        back: RcSlice<Lit>,
    },
    /// Its own behind shared ones and the first `count` of others.
    Behind {
        base: RcSlice<Lit>,
        kept: RcSlice<Lit>,
        count: usize,
        own: Vec<Lit>,
    },
}

/// The literals that a proof assumes, which contracts see as one list. What other proofs assume as well is held once for all of them.
pub struct Assumed {
    parts: Parts,
}

impl Model for Assumed {
    ghost use Rattle.std.specs.Prelude.{List};
    ghost use Rattle.svr_chain.specs.declared.clause.Lit.{Lit};
    ghost use Rattle.svr_phase.specs.Assumed.{lits_of};

    ghost Value = { List Lit };

    ghost view = { λ a. lits_of a.parts };
}

// Written out, so that it is one call wherever a proof is let go.
impl Drop for Assumed {
    fn drop(self) {
        let Assumed { parts } = self;
        drop(parts);
    }
}

/// What a proof assumes, in three pieces.
#[derive(Clone, Copy)]
pub struct Pieces<'a> {
    pub front: &'a [Lit],
    pub middle: &'a [Lit],
    pub back: &'a [Lit],
}

/// The first literals, as far as there are so many.
fn first(lits: &[Lit], count: usize) -> &[Lit]
    ensures { result.now ≡ take count lits.now }
{
    if count < lits.len() {
        return &lits[..count];
    }
    lits
}

/// The literals of the parts, in their order.
fn pieces_of(parts: &Parts) -> Pieces<'_>
    ensures { result.front.now ++ result.middle.now ++ result.back.now ≡ lits_of parts.now }
{
    match parts {
        Parts::Own(own) => Pieces {
            front: &[],
            middle: &[],
            back: own.as_slice(),
        },
        Parts::Between { front, own, back } => Pieces {
            front: front.as_slice(),
            middle: own.as_slice(),
            back: back.as_slice(),
        },
        Parts::Behind {
            base,
            kept,
            count,
            own,
        } => Pieces {
            front: base.as_slice(),
            middle: first(kept.as_slice(), *count),
            back: own.as_slice(),
        },
    }
}

impl Assumed {
    /// Literals of one proof alone.
    pub fn own(lits: Vec<Lit>) -> Assumed
        ensures { result ≡ lits.items }
    {
        Assumed {
            parts: Parts::Own(lits),
        }
    }

    /// Literals of one proof between shared ones.
    pub fn between(
        front: &RcSlice<Lit>,
        own: Vec<Lit>,
        back: &RcSlice<Lit>,
    ) -> Result<Assumed, AllocError>
        ensures { IfOk result (λ a. a ≡ rc_slice_items front.now ++ own.items ++ rc_slice_items back.now) }
    {
        let front = front.clone()?;
        let back = back.clone()?;
        Ok(Assumed {
            parts: Parts::Between { front, own, back },
        })
    }

    /// Literals of one proof behind shared ones and the first `count` of others.
    pub fn behind(
        base: &RcSlice<Lit>,
        kept: &RcSlice<Lit>,
        count: usize,
        own: Vec<Lit>,
    ) -> Result<Assumed, AllocError>
        ensures { IfOk result (λ a. a ≡ rc_slice_items base.now ++ take count (rc_slice_items kept.now) ++ own.items) }
    {
        let base = base.clone()?;
        let kept = kept.clone()?;
        Ok(Assumed {
            parts: Parts::Behind {
                base,
                kept,
                count,
                own,
            },
        })
    }

    /// The pieces that give all literals in their order.
    pub fn pieces(&self) -> Pieces<'_>
        ensures { result.front.now ++ result.middle.now ++ result.back.now ≡ self.now }
    {
        pieces_of(&self.parts)
    }

    /// All literals written out.
    pub fn written(&self, alloc: Global) -> Result<Vec<Lit>, AllocError>
        ensures { IfOk result (λ ls. ls.items ≡ self.now) }
    {
        let pieces = self.pieces();
        let mut lits = Vec::from_slice(alloc, pieces.front)?;
        lits.extend_from_slice(pieces.middle)?;
        lits.extend_from_slice(pieces.back)?;
        Ok(lits)
    }
}
