// What an encoding reads: the state, and the bits of the unknowns.

ghost use Rattle.std.specs.Prelude.{◌≡◌, ◌≤◌, ◌<◌, ◌^◌, ◌/◌, None, Some, MatchOption, slice_index, IfOk};
ghost use Rattle.svr_gate.specs.Circuit.{Extends, GivesNumber};
ghost use Rattle.svr_num.specs.Num.{extend_of};
ghost use Rattle.svr_inputs.specs.Inputs as spec;
ghost use Rattle.svr_inputs.specs.Inputs.{AreInputs, PlaceIsReady, NumbersAreReady, state_of, read_at, bits_of};
ghost use Rattle.svr_vector.specs.Places.{rows};

use crate::table::Table;
use std::alloc::Global;
use svr_arith::div;
use svr_chain::Lit;
use svr_eval::Assign;
use svr_gate::Builder;
use svr_shape::extend;
use svr_vector::{NoMemory, constant_at, filled_at, numeral};

/// The state, the sizes of its arrays, the bits of the unknowns in rows, where each has its row, and the number of all bits, which are the first variables.
#[derive(Clone, Copy)]
pub struct Inputs<'a> {
    pub state: &'a Assign,
    pub sizes: &'a [u32],
    pub table: &'a Table,
    pub bits: &'a [Vec<Lit>],
    pub count: u64,
}

/// The bits of a row.
fn bits_of(bits: &[Vec<Lit>], row: Option<u32>) -> Option<&[Lit]>
    ensures { MatchOption result (bits_of (rows bits.now) row ≡ None) (λ ls. bits_of (rows bits.now) row ≡ Some ls.now) }
{
    match row {
        None => None,
        Some(row) => {
            if (row as usize) < bits.len() {
                Some(bits[row as usize].as_slice())
            } else {
                None
            }
        }
    }
}

impl<'a> Inputs<'a> {
    /// The bits of a number of a property.
    fn number_bits(&self, prop: u32, index: u64) -> Option<&'a [Lit]>
        ensures { MatchOption result (spec.number_bits self.now prop index ≡ None) (λ ls. spec.number_bits self.now prop index ≡ Some ls.now) }
    {
        bits_of(self.bits, self.table.number_row(prop, index))
    }

    /// The bits of a size.
    fn size_bits(&self, prop: u32) -> Option<&'a [Lit]>
        ensures { MatchOption result (spec.size_bits self.now prop ≡ None) (λ ls. spec.size_bits self.now prop ≡ Some ls.now) }
    {
        bits_of(self.bits, self.table.size_row(prop))
    }

    /// The size of an array, 0 where there is none.
    pub fn size(&self, prop: u32) -> u32
        ensures { result ≡ slice_index self.now.sizes.now prop }
    {
        match self.sizes.get(prop as usize) {
            Some(size) => *size,
            None => 0,
        }
    }

    /// The number that the state has at a place, 0 past the size of an array.
    fn number(&self, prop: u32, index: u64) -> u64
        ensures { result ≡ (state_of self.now).element prop index }
    {
        if index < u64::from(self.size(prop)) {
            self.state.element(prop, index)
        } else {
            0
        }
    }
}

/// An element, in the bits of its type.
pub(crate) fn element(
    alloc: Global,
    b: &mut Builder,
    inputs: &Inputs<'_>,
    prop: u32,
    index: u64,
    own: u8,
) -> Result<Vec<Lit>, NoMemory>
    requires inputs { AreInputs inputs.now }
    requires room { inputs.now.count ≤ b.old.vars }
    requires some { 1 ≤ own }
    requires high { own ≤ 64 }
    requires ready { NumbersAreReady inputs.now own prop }
    ensures extends { Extends b.old b.new }
    ensures value { IfOk result (λ ls. GivesNumber b.new ls.items own (λ v. (read_at inputs.now v).element prop index)) }
{
    match inputs.number_bits(prop, index) {
        Some(bits) => Ok(extend(alloc, b, bits, own, false)?),
        None => numeral(alloc, b, inputs.number(prop, index), own),
    }
}

/// An element, at the width and the sign of a context (11.8.2).
pub fn element_at(
    alloc: Global,
    b: &mut Builder,
    inputs: &Inputs<'_>,
    prop: u32,
    index: u64,
    own: u8,
    width: u8,
    signed: bool,
) -> Result<Vec<Lit>, NoMemory>
    requires inputs { AreInputs inputs.now }
    requires room { inputs.now.count ≤ b.old.vars }
    requires some { 1 ≤ own }
    requires wide { own ≤ width }
    requires high { width ≤ 64 }
    requires ready { NumbersAreReady inputs.now own prop }
    ensures extends { Extends b.old b.new }
    ensures value { IfOk result (λ ls. GivesNumber b.new ls.items width (λ v. extend_of signed width own ((read_at inputs.now v).element prop index))) }
{
    let own_bits = element(alloc, b, inputs, prop, index, own)?;
    Ok(extend(alloc, b, &own_bits, width, signed)?)
}

/// The size of an array, in 32 bits.
fn size(
    alloc: Global,
    b: &mut Builder,
    inputs: &Inputs<'_>,
    prop: u32,
) -> Result<Vec<Lit>, NoMemory>
    requires inputs { AreInputs inputs.now }
    requires room { inputs.now.count ≤ b.old.vars }
    requires ready { PlaceIsReady 32 ((state_of inputs.now).size prop) (spec.size_bits inputs.now prop) }
    ensures extends { Extends b.old b.new }
    ensures value { IfOk result (λ ls. GivesNumber b.new ls.items 32 (λ v. (read_at inputs.now v).size prop)) }
{
    match inputs.size_bits(prop) {
        Some(bits) => Ok(extend(alloc, b, bits, 32, false)?),
        None => numeral(alloc, b, u64::from(inputs.size(prop)), 32),
    }
}

/// The number of rows of an array with rows of `inner` elements.
fn row_count(
    alloc: Global,
    b: &mut Builder,
    inputs: &Inputs<'_>,
    prop: u32,
    inner: u32,
) -> Result<Vec<Lit>, NoMemory>
    requires inputs { AreInputs inputs.now }
    requires room { inputs.now.count ≤ b.old.vars }
    requires inner { 1 ≤ inner }
    requires ready { PlaceIsReady 32 ((state_of inputs.now).size prop) (spec.size_bits inputs.now prop) }
    ensures extends { Extends b.old b.new }
    ensures value { IfOk result (λ ls. GivesNumber b.new ls.items 32 (λ v. (read_at inputs.now v).size prop / inner)) }
{
    let all = size(alloc, b, inputs, prop)?;
    if inner == 1 {
        return Ok(all);
    }
    let by = numeral(alloc, b, u64::from(inner), 32)?;
    Ok(div(alloc, b, &all, &by, false)?)
}

/// The first dimension of an array, 32 bits and signed, at the width and the sign of a context (7.5.2).
pub fn size_at(
    alloc: Global,
    b: &mut Builder,
    inputs: &Inputs<'_>,
    prop: u32,
    inner: u32,
    width: u8,
    signed: bool,
) -> Result<Vec<Lit>, NoMemory>
    requires inputs { AreInputs inputs.now }
    requires room { inputs.now.count ≤ b.old.vars }
    requires inner { 1 ≤ inner }
    requires wide { 32 ≤ width }
    requires high { width ≤ 64 }
    requires ready { PlaceIsReady 32 ((state_of inputs.now).size prop) (spec.size_bits inputs.now prop) }
    ensures extends { Extends b.old b.new }
    ensures value { IfOk result (λ ls. GivesNumber b.new ls.items width (λ v. extend_of signed width 32 ((read_at inputs.now v).size prop / inner))) }
{
    let count = row_count(alloc, b, inputs, prop, inner)?;
    Ok(extend(alloc, b, &count, width, signed)?)
}

/// A script variable, at the width and the sign of a context.
pub fn script_at(
    alloc: Global,
    b: &mut Builder,
    inputs: &Inputs<'_>,
    variable: u32,
    own: u8,
    width: u8,
    signed: bool,
) -> Result<Vec<Lit>, NoMemory>
    requires some { 1 ≤ own }
    requires wide { own ≤ width }
    requires high { width ≤ 64 }
    requires ready { (state_of inputs.now).script variable < 2 ^ own }
    ensures extends { Extends b.old b.new }
    ensures value { IfOk result (λ ls. GivesNumber b.new ls.items width (λ v. extend_of signed width own ((read_at inputs.now v).script variable))) }
{
    constant_at(alloc, b, inputs.state.script(variable), own, width, signed)
}
