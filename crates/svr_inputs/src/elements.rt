// Elements of arrays at indexes that are vectors too, and the elements of an array as a whole.

ghost use Rattle.std.specs.Prelude.{◌≡◌, ◌≤◌, ◌<◌, ◌+◌, ◌*◌, ◌^◌, length, pos, None, IfOk};
ghost use Rattle.svr_chain.specs.Clauses.{AreWithin};
ghost use Rattle.svr_gate.specs.Numbers.{number};
ghost use Rattle.svr_gate.specs.Circuit.{Extends, Tells, GivesNumber};
ghost use Rattle.svr_num.specs.Num.{extend_of, read_of};
ghost use Rattle.svr_eval.specs.Value as spec;
ghost use Rattle.svr_vector.specs.Places.{rows};
ghost use Rattle.svr_inputs.specs.Inputs.{AreInputs, NumbersAreReady, read_at, size_bits};
ghost use Rattle.svr_inputs.specs.Elements.{GiveNumbers};

use crate::inputs::{Inputs, element, element_at};
use std::alloc::Global;
use svr_arith::equal;
use svr_chain::Lit;
use svr_gate::Builder;
use svr_shape::extend;
use svr_vector::{
    Gate, NoMemory, constant, index_below, known_number, numeral, of_bits, picked, read,
};

/// The elements from one place on, each in the bits of its type.
fn elements(
    alloc: Global,
    b: &mut Builder,
    inputs: &Inputs<'_>,
    prop: u32,
    first: u64,
    count: u32,
    own: u8,
) -> Result<Vec<Vec<Lit>>, NoMemory>
    requires inputs { AreInputs inputs.now }
    requires room { inputs.now.count ≤ b.old.vars }
    requires some { 1 ≤ own }
    requires high { own ≤ 64 }
    requires first { first + count < 2 ^ 64 }
    requires ready { NumbersAreReady inputs.now own prop }
    ensures extends { Extends b.old b.new }
    ensures value { IfOk result (λ xs. GiveNumbers b.new (rows xs.items) count own (λ v k. (read_at inputs.now v).element prop (first + k))) }
{
    let mut elements = Vec::new(alloc);
    for i in 0..count {
        let one = element(alloc, b, inputs, prop, first + u64::from(i), own)?;
        elements.push(one)?;
    }
    Ok(elements)
}

/// A choice over all elements by an index.
fn some_element(
    alloc: Global,
    b: &mut Builder,
    inputs: &Inputs<'_>,
    prop: u32,
    index: &[Lit],
    index_signed: bool,
    own: u8,
) -> Result<Vec<Lit>, NoMemory>
    requires inputs { AreInputs inputs.now }
    requires room { inputs.now.count ≤ b.old.vars }
    requires index_some { 1 ≤ length index.now }
    requires index_few { length index.now ≤ 64 }
    requires index_within { AreWithin b.old.vars index.now }
    requires some { 1 ≤ own }
    requires high { own ≤ 64 }
    requires ready { NumbersAreReady inputs.now own prop }
    ensures extends { Extends b.old b.new }
    ensures value { IfOk result (λ ls. GivesNumber b.new ls.items own (λ v. spec.element_at (read_at inputs.now v) prop (read_of index_signed (length index.now) (number v index.now)))) }
{
    let all = elements(alloc, b, inputs, prop, 0, inputs.size(prop), own)?;
    picked(alloc, b, &all, index, index_signed, own)
}

/// The element at a place that is known, 0 outside.
fn known_element(
    alloc: Global,
    b: &mut Builder,
    inputs: &Inputs<'_>,
    prop: u32,
    place: i128,
    own: u8,
) -> Result<Vec<Lit>, NoMemory>
    requires inputs { AreInputs inputs.now }
    requires room { inputs.now.count ≤ b.old.vars }
    requires some { 1 ≤ own }
    requires high { own ≤ 64 }
    requires ready { NumbersAreReady inputs.now own prop }
    ensures extends { Extends b.old b.new }
    ensures value { IfOk result (λ ls. GivesNumber b.new ls.items own (λ v. spec.element_at (read_at inputs.now v) prop place)) }
{
    match index_below(place, u64::from(inputs.size(prop))) {
        Some(index) => element(alloc, b, inputs, prop, index, own),
        None => numeral(alloc, b, 0, own),
    }
}

/// The element that an index names, 0 outside.
fn element_by(
    alloc: Global,
    b: &mut Builder,
    inputs: &Inputs<'_>,
    prop: u32,
    index: &[Lit],
    index_signed: bool,
    own: u8,
) -> Result<Vec<Lit>, NoMemory>
    requires inputs { AreInputs inputs.now }
    requires room { inputs.now.count ≤ b.old.vars }
    requires index_some { 1 ≤ length index.now }
    requires index_few { length index.now ≤ 64 }
    requires index_within { AreWithin b.old.vars index.now }
    requires some { 1 ≤ own }
    requires high { own ≤ 64 }
    requires ready { NumbersAreReady inputs.now own prop }
    ensures extends { Extends b.old b.new }
    ensures value { IfOk result (λ ls. GivesNumber b.new ls.items own (λ v. spec.element_at (read_at inputs.now v) prop (read_of index_signed (length index.now) (number v index.now)))) }
{
    match known_number(b, index) {
        Some(number) => {
            let place = read(number, index.len() as u8, index_signed);
            known_element(alloc, b, inputs, prop, place, own)
        }
        None => some_element(alloc, b, inputs, prop, index, index_signed, own),
    }
}

/// The element that an index names, at the width and the sign of a context (7.4.5); 0 outside.
pub fn element_of(
    alloc: Global,
    b: &mut Builder,
    inputs: &Inputs<'_>,
    prop: u32,
    index: &[Lit],
    index_signed: bool,
    own: u8,
    width: u8,
    signed: bool,
) -> Result<Vec<Lit>, NoMemory>
    requires inputs { AreInputs inputs.now }
    requires room { inputs.now.count ≤ b.old.vars }
    requires index_some { 1 ≤ length index.now }
    requires index_few { length index.now ≤ 64 }
    requires index_within { AreWithin b.old.vars index.now }
    requires some { 1 ≤ own }
    requires wide { own ≤ width }
    requires high { width ≤ 64 }
    requires ready { NumbersAreReady inputs.now own prop }
    ensures extends { Extends b.old b.new }
    ensures value { IfOk result (λ ls. GivesNumber b.new ls.items width (λ v. extend_of signed width own (spec.element_at (read_at inputs.now v) prop (read_of index_signed (length index.now) (number v index.now))))) }
{
    let own_bits = element_by(alloc, b, inputs, prop, index, index_signed, own)?;
    Ok(extend(alloc, b, &own_bits, width, signed)?)
}

/// The element of a row, which has `inner` elements, that an index names; 0 outside.
fn in_row(
    alloc: Global,
    b: &mut Builder,
    inputs: &Inputs<'_>,
    prop: u32,
    inner: u32,
    row: u32,
    column: &[Lit],
    column_signed: bool,
    own: u8,
) -> Result<Vec<Lit>, NoMemory>
    requires inputs { AreInputs inputs.now }
    requires room { inputs.now.count ≤ b.old.vars }
    requires column_some { 1 ≤ length column.now }
    requires column_few { length column.now ≤ 64 }
    requires column_within { AreWithin b.old.vars column.now }
    requires some { 1 ≤ own }
    requires high { own ≤ 64 }
    requires ready { NumbersAreReady inputs.now own prop }
    ensures extends { Extends b.old b.new }
    ensures value { IfOk result (λ ls. GivesNumber b.new ls.items own (λ v. spec.cell_at (read_at inputs.now v) prop inner (pos row) (read_of column_signed (length column.now) (number v column.now)))) }
{
    let first = u64::from(row) * u64::from(inner);
    let all = elements(alloc, b, inputs, prop, first, inner, own)?;
    picked(alloc, b, &all, column, column_signed, own)
}

/// How many rows of `inner` elements there are.
fn row_count(count: u32, inner: u32) -> u32
    requires { 1 ≤ inner }
    ensures { count ≤ result * inner }
{
    let whole = count / inner;
    if count % inner == 0 { whole } else { whole + 1 }
}

/// A choice over all elements by two indexes.
fn some_cell(
    alloc: Global,
    b: &mut Builder,
    inputs: &Inputs<'_>,
    prop: u32,
    inner: u32,
    row: &[Lit],
    row_signed: bool,
    column: &[Lit],
    column_signed: bool,
    own: u8,
) -> Result<Vec<Lit>, NoMemory>
    requires inputs { AreInputs inputs.now }
    requires room { inputs.now.count ≤ b.old.vars }
    requires inner { 1 ≤ inner }
    requires row_some { 1 ≤ length row.now }
    requires row_few { length row.now ≤ 64 }
    requires row_within { AreWithin b.old.vars row.now }
    requires column_some { 1 ≤ length column.now }
    requires column_few { length column.now ≤ 64 }
    requires column_within { AreWithin b.old.vars column.now }
    requires some { 1 ≤ own }
    requires high { own ≤ 64 }
    requires ready { NumbersAreReady inputs.now own prop }
    ensures extends { Extends b.old b.new }
    ensures value { IfOk result (λ ls. GivesNumber b.new ls.items own (λ v. spec.cell_at (read_at inputs.now v) prop inner (read_of row_signed (length row.now) (number v row.now)) (read_of column_signed (length column.now) (number v column.now)))) }
{
    let mut chosen = Vec::new(alloc);
    for i in 0..row_count(inputs.size(prop), inner) {
        let one = in_row(alloc, b, inputs, prop, inner, i, column, column_signed, own)?;
        chosen.push(one)?;
    }
    picked(alloc, b, &chosen, row, row_signed, own)
}

/// The element of a row that a column names, which are known; 0 outside.
fn known_in_row(
    alloc: Global,
    b: &mut Builder,
    inputs: &Inputs<'_>,
    prop: u32,
    inner: u32,
    row: u64,
    column: i128,
    own: u8,
) -> Result<Vec<Lit>, NoMemory>
    requires inputs { AreInputs inputs.now }
    requires room { inputs.now.count ≤ b.old.vars }
    requires row { row < 2 ^ 32 }
    requires some { 1 ≤ own }
    requires high { own ≤ 64 }
    requires ready { NumbersAreReady inputs.now own prop }
    ensures extends { Extends b.old b.new }
    ensures value { IfOk result (λ ls. GivesNumber b.new ls.items own (λ v. spec.cell_at (read_at inputs.now v) prop inner (pos row) column)) }
{
    match index_below(column, u64::from(inner)) {
        Some(column) => {
            let index = row * u64::from(inner) + column;
            element(alloc, b, inputs, prop, index, own)
        }
        None => numeral(alloc, b, 0, own),
    }
}

/// The element that a row and a column name, which are known; 0 outside.
fn known_cell(
    alloc: Global,
    b: &mut Builder,
    inputs: &Inputs<'_>,
    prop: u32,
    inner: u32,
    row: i128,
    column: i128,
    own: u8,
) -> Result<Vec<Lit>, NoMemory>
    requires inputs { AreInputs inputs.now }
    requires room { inputs.now.count ≤ b.old.vars }
    requires some { 1 ≤ own }
    requires high { own ≤ 64 }
    requires ready { NumbersAreReady inputs.now own prop }
    ensures extends { Extends b.old b.new }
    ensures value { IfOk result (λ ls. GivesNumber b.new ls.items own (λ v. spec.cell_at (read_at inputs.now v) prop inner row column)) }
{
    match index_below(row, u64::from(inputs.size(prop))) {
        Some(row) => known_in_row(alloc, b, inputs, prop, inner, row, column, own),
        None => numeral(alloc, b, 0, own),
    }
}

/// The element that two indexes name, 0 outside.
fn cell_by(
    alloc: Global,
    b: &mut Builder,
    inputs: &Inputs<'_>,
    prop: u32,
    inner: u32,
    row: &[Lit],
    row_signed: bool,
    column: &[Lit],
    column_signed: bool,
    own: u8,
) -> Result<Vec<Lit>, NoMemory>
    requires inputs { AreInputs inputs.now }
    requires room { inputs.now.count ≤ b.old.vars }
    requires inner { 1 ≤ inner }
    requires row_some { 1 ≤ length row.now }
    requires row_few { length row.now ≤ 64 }
    requires row_within { AreWithin b.old.vars row.now }
    requires column_some { 1 ≤ length column.now }
    requires column_few { length column.now ≤ 64 }
    requires column_within { AreWithin b.old.vars column.now }
    requires some { 1 ≤ own }
    requires high { own ≤ 64 }
    requires ready { NumbersAreReady inputs.now own prop }
    ensures extends { Extends b.old b.new }
    ensures value { IfOk result (λ ls. GivesNumber b.new ls.items own (λ v. spec.cell_at (read_at inputs.now v) prop inner (read_of row_signed (length row.now) (number v row.now)) (read_of column_signed (length column.now) (number v column.now)))) }
{
    match (known_number(b, row), known_number(b, column)) {
        (Some(first), Some(second)) => {
            let first = read(first, row.len() as u8, row_signed);
            let second = read(second, column.len() as u8, column_signed);
            known_cell(alloc, b, inputs, prop, inner, first, second, own)
        }
        _ => some_cell(
            alloc,
            b,
            inputs,
            prop,
            inner,
            row,
            row_signed,
            column,
            column_signed,
            own,
        ),
    }
}

/// The element that two indexes name, at the width and the sign of a context (7.4.2, 7.4.5); 0 outside.
pub fn cell_of(
    alloc: Global,
    b: &mut Builder,
    inputs: &Inputs<'_>,
    prop: u32,
    inner: u32,
    row: &[Lit],
    row_signed: bool,
    column: &[Lit],
    column_signed: bool,
    own: u8,
    width: u8,
    signed: bool,
) -> Result<Vec<Lit>, NoMemory>
    requires inputs { AreInputs inputs.now }
    requires room { inputs.now.count ≤ b.old.vars }
    requires inner { 1 ≤ inner }
    requires row_some { 1 ≤ length row.now }
    requires row_few { length row.now ≤ 64 }
    requires row_within { AreWithin b.old.vars row.now }
    requires column_some { 1 ≤ length column.now }
    requires column_few { length column.now ≤ 64 }
    requires column_within { AreWithin b.old.vars column.now }
    requires some { 1 ≤ own }
    requires wide { own ≤ width }
    requires high { width ≤ 64 }
    requires ready { NumbersAreReady inputs.now own prop }
    ensures extends { Extends b.old b.new }
    ensures value { IfOk result (λ ls. GivesNumber b.new ls.items width (λ v. extend_of signed width own (spec.cell_at (read_at inputs.now v) prop inner (read_of row_signed (length row.now) (number v row.now)) (read_of column_signed (length column.now) (number v column.now))))) }
{
    let own_bits = cell_by(
        alloc,
        b,
        inputs,
        prop,
        inner,
        row,
        row_signed,
        column,
        column_signed,
        own,
    )?;
    Ok(extend(alloc, b, &own_bits, width, signed)?)
}

/// Whether some element of an array of this width, extended to that of `x`, is `x`.
pub fn is_some_element(
    alloc: Global,
    b: &mut Builder,
    inputs: &Inputs<'_>,
    x: &[Lit],
    prop: u32,
    own: u8,
    signed: bool,
) -> Result<Lit, NoMemory>
    requires inputs { AreInputs inputs.now }
    requires room { inputs.now.count ≤ b.old.vars }
    requires some { 1 ≤ own }
    requires wide { own ≤ length x.now }
    requires high { length x.now ≤ 64 }
    requires within { AreWithin b.old.vars x.now }
    requires ready { NumbersAreReady inputs.now own prop }
    requires fixed { size_bits inputs.now prop ≡ None }
    ensures extends { Extends b.old b.new }
    ensures value { IfOk result (λ told. Tells b.new told (λ v. spec.has_element (read_at inputs.now v) prop own (length x.now) signed (number v x.now))) }
{
    let mut found = constant(b, false)?;
    for i in 0..inputs.size(prop) {
        let width = x.len() as u8;
        let element = element_at(alloc, b, inputs, prop, u64::from(i), own, width, signed)?;
        let is_equal = equal(b, x, &element)?;
        found = of_bits(b, Gate::Either, found, is_equal)?;
    }
    Ok(found)
}
