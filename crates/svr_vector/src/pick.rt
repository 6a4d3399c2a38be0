// Vectors at an index that is a vector too, and copies of a vector.

ghost use Rattle.std.specs.Prelude.{◌≡◌, ◌≤◌, length, IfOk};
ghost use Rattle.svr_chain.specs.Clauses.{AreWithin};
ghost use Rattle.svr_gate.specs.Numbers.{number};
ghost use Rattle.svr_gate.specs.Circuit.{Extends, GivesNumber};
ghost use Rattle.svr_num.specs.Num.{read_of};
ghost use Rattle.svr_vector.specs.Literals.{copies_of};
ghost use Rattle.svr_vector.specs.Places.{rows, AreVectors, number_at};

use crate::literals::numeral;
use crate::memory::NoMemory;
use crate::place::is_place;
use std::alloc::Global;
use svr_chain::Lit;
use svr_gate::Builder;
use svr_shape::choose;

/// The vector that an index names, of `width` bits; 0 where there is none (7.4.5).
pub fn picked(
    alloc: Global,
    b: &mut Builder,
    elements: &[Vec<Lit>],
    index: &[Lit],
    signed: bool,
    width: u8,
) -> Result<Vec<Lit>, NoMemory>
    requires index_some { 1 ≤ length index.now }
    requires index_few { length index.now ≤ 64 }
    requires index_within { AreWithin b.old.vars index.now }
    requires high { width ≤ 64 }
    requires elements { AreVectors b.old.vars width (rows elements.now) }
    ensures extends { Extends b.old b.new }
    ensures value { IfOk result (λ v. GivesNumber b.new v.items width (λ a. number_at a (rows elements.now) (read_of signed (length index.now) (number a index.now)))) }
{
    let mut picked = numeral(alloc, b, 0, width)?;
    for i in 0..elements.len() {
        let is_here = is_place(alloc, b, index, signed, i as i128)?;
        picked = choose(alloc, b, is_here, &elements[i], &picked)?;
    }
    Ok(picked)
}

/// So many copies of a vector, one above another (11.4.12.1).
#[tactic(auto, using(crate::proofs::LiteralLemmas::copies_more))]
pub fn copied(alloc: Global, part: &[Lit], count: usize) -> Result<Vec<Lit>, NoMemory>
    ensures { IfOk result (λ v. v.items ≡ copies_of count part.now) }
{
    let mut whole = Vec::new(alloc);
    for made in 0..count {
        whole.extend_from_slice(part)?;
    }
    Ok(whole)
}
