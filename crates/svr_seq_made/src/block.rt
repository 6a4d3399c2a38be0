// Code blocks (IEEE 1800-2017, 18.16).

ghost use Rattle.std.specs.Prelude.{◌≡◌, ◌∷◌, ◌++◌, ◌<◌, [], map, reverse, MatchResult, OnOk, IfOk, length, Some};
ghost use Rattle.svr_token.specs.Names.{names_of};
ghost use Rattle.svr_seq.specs.SeqTerm.{act_term, act_terms};
ghost use Rattle.svr_seq_made.specs.Blocks as spec;
ghost use Rattle.svr_seq_made.specs.Refusals.{IsFirst, first_of};
ghost use Rattle.svr_seq_made.specs.Seen.{seen, opens_seen};

use crate::fault::{SeqFault, unless};
use crate::setting::Setting;
use sqlite_items::Items;
use std::alloc::{AllocError, Global};
use svr_refusal::Refusal;
use svr_seq::{Act, Branch, CHOICE_LIMIT, SEQUENCE_LIMIT};
use svr_seq_text::ActText;

/// A choice on the way: the weight of the branch at hand, and the branches before it.
#[derive(Drop)]
pub(crate) struct Open {
    weight: u32,
    branches: Items<Branch>,
}

/// A block on the way: the choices around the place, the innermost last, and the acts before.
#[derive(Drop)]
pub(crate) struct Block {
    opens: Items<Open>,
    acts: Items<Act>,
}

/// Whether the innermost choice may have one more branch.
fn branch_fits(opens: &[Open]) -> bool
    ensures { result ≡ spec.branch_fits (opens_seen opens.now) }
{
    match opens.last() {
        None => true,
        Some(open) => open.branches.len() < SEQUENCE_LIMIT,
    }
}

impl Block {
    fn new(alloc: Global) -> Block
        ensures { seen result ≡ spec.fresh }
    {
        Block {
            opens: Items::new(alloc),
            acts: Items::new(alloc),
        }
    }

    /// One more act, which is one of the block or ends a branch.
    fn put(&mut self, act: Act) -> Result<(), AllocError>
        ensures { OnOk result (seen self.new ≡ spec.put (seen self.old) (act_term act)) }
    {
        match self.opens.pop() {
            None => self.acts.push(act),
            Some(open) => {
                let Open {
                    weight,
                    mut branches,
                } = open;
                branches.push(Branch { weight, act })?;
                self.opens.push(Open { weight, branches })
            }
        }
    }

    fn weigh(&mut self, weight: u32) -> Result<(), AllocError>
        ensures { OnOk result (seen self.new ≡ record { opens = spec.weigh_in (seen self.old).opens weight; acts = (seen self.old).acts }) }
    {
        match self.opens.pop() {
            None => Ok(()),
            Some(open) => {
                let branches = open.branches;
                self.opens.push(Open { weight, branches })
            }
        }
    }

    fn close(&mut self) -> Result<(), AllocError>
        ensures { OnOk result (seen self.new ≡ spec.close_in (seen self.old).opens (seen self.old).acts) }
    {
        match self.opens.pop() {
            None => Ok(()),
            Some(open) => self.put(Act::Choose(open.branches)),
        }
    }

    fn act_fits(&self) -> bool
        ensures { result ≡ spec.act_fits (seen self.now).opens (seen self.now).acts }
    {
        match self.opens.as_slice().last() {
            None => self.acts.len() < SEQUENCE_LIMIT,
            Some(_) => true,
        }
    }

    /// Errors: `SequenceTooLarge` where the piece passes a limit.
    fn allows(&self, piece: ActText) -> Result<(), SeqFault>
        ensures { MatchResult result (λ _. spec.piece_refusals (seen self.now) piece ≡ []) (λ e. first_of (spec.piece_refusals (seen self.now) piece) ≡ Some e) }
    {
        match piece {
            ActText::Print(at) => unless(self.act_fits(), Refusal::SequenceTooLarge, at),
            ActText::Choose(at) => {
                unless(self.act_fits(), Refusal::SequenceTooLarge, at)?;
                unless(
                    self.opens.len() < CHOICE_LIMIT,
                    Refusal::SequenceTooLarge,
                    at,
                )
            }
            ActText::Branch(at) => unless(
                branch_fits(self.opens.as_slice()),
                Refusal::SequenceTooLarge,
                at,
            ),
            ActText::End => Ok(()),
        }
    }

    fn go_on(
        &mut self,
        alloc: Global,
        set: &Setting<'_, '_>,
        piece: ActText,
    ) -> Result<(), AllocError>
        ensures { OnOk result (seen self.new ≡ spec.behind (names_of set.now.names) (seen self.old) piece) }
    {
        match piece {
            ActText::Print(at) => self.put(Act::Print(at)),
            ActText::Choose(_) => self.opens.push(Open {
                weight: 0,
                branches: Items::new(alloc),
            }),
            ActText::Branch(at) => self.weigh(set.value(at)),
            ActText::End => self.close(),
        }
    }
}

/// The acts of a block.
///
/// Errors: the first piece that passes a limit.
pub(crate) fn acts_of(
    alloc: Global,
    set: &Setting<'_, '_>,
    pieces: &[ActText],
) -> Result<Items<Act>, SeqFault>
    ensures { let text = names_of set.now.names in MatchResult result (λ acts. (spec.acts_refusals text spec.fresh pieces.now ≡ []) × (act_terms acts ≡ spec.acts_made text spec.fresh pieces.now)) (λ e. IsFirst e (spec.acts_refusals text spec.fresh pieces.now)) }
{
    let mut block = Block::new(alloc);
    let mut left = pieces;
    'pieces: while let Some((piece, others)) = left.split_first() {
        block.allows(*piece)?;
        block.go_on(alloc, set, *piece)?;
        left = others;
    }
    Ok(block.acts)
}
