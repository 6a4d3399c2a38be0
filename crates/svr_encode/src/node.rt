// The value of a node over the vectors of its parts (IEEE 1800-2017, 7.4, 7.12.3 and 11.4 to 11.8).

ghost use Rattle.std.specs.Prelude.{◌≡◌, ◌≤◌, ◌<◌, ◌*◌, ◌∷◌, [], None, slice_index, length, IfOk};
ghost use Rattle.svr_gate.specs.Circuit.{Extends, GivesNumber};
ghost use Rattle.svr_num.specs.Num.{extend_of};
ghost use Rattle.svr_typed.specs.ExprTerm.{expr_term, expr_terms, reduce as reduce_term, unary as unary_term, binary as binary_term, choice as choice_term};
ghost use Rattle.svr_eval.specs.Reading.{blank};
ghost use Rattle.svr_eval.specs.Typed.{IsConstant, IsTyped, AreTyped};
ghost use Rattle.svr_eval.specs.Operator.{unary_size, binary_size};
ghost use Rattle.svr_eval.specs.Operator as kind;
ghost use Rattle.svr_eval.specs.Value as spec;
ghost use Rattle.svr_inputs.specs.Inputs.{AreInputs, NumbersAreReady, read_at, size_bits};
ghost use Rattle.svr_encode.specs.Parts.{in_context, alone_part, body_parts, alone_parts, unary_parts, binary_parts};
ghost use Rattle.svr_encode.specs.Given.{AreGiven};

use crate::given::{Given, value_at};
use crate::leaves::{
    are_signed, chosen_by, compared_truth, connected_truth, copies_at, reduced_truth, selected_bits,
};
use std::alloc::Global;
use svr_chain::Lit;
use svr_eval::{BinaryKind, UnaryKind, binary_kind, fold_operator, unary_kind};
use svr_gate::Builder;
use svr_inputs::{cell_of, element_of};
use svr_operator::{BinOp, Fold, UnOp};
use svr_shape::extend;
use svr_typed::TExpr;
use svr_vector::{NoMemory, changed, combined, fold_start, shifted};

/// An element at an index, at the width and the sign of a context (7.4.5).
pub(crate) fn indexed(
    alloc: Global,
    b: &mut Builder,
    given: &Given<'_>,
    index: &TExpr,
    prop: u32,
    own: u8,
    width: u8,
    signed: bool,
) -> Result<Vec<Lit>, NoMemory>
    requires inputs { AreInputs given.now.inputs.now }
    requires room { given.now.inputs.now.count ≤ b.old.vars }
    requires typed { IsTyped (expr_term index.now) }
    requires parts { AreGiven b.old given.now 0 (alone_part (expr_term index.now) ∷ []) }
    requires some { 1 ≤ own }
    requires wide { own ≤ width }
    requires high { width ≤ 64 }
    requires numbers { NumbersAreReady given.now.inputs.now own prop }
    ensures extends { Extends b.old b.new }
    ensures value { IfOk result (λ ls. GivesNumber b.new ls.items width (λ v. extend_of signed width own (spec.element_at (read_at given.now.inputs.now v) prop (spec.index_read (read_at given.now.inputs.now v) given.now.env.now (expr_term index.now))))) }
{
    let at = value_at(given.values, 0);
    element_of(
        alloc,
        b,
        given.inputs,
        prop,
        at,
        index.signed,
        own,
        width,
        signed,
    )
}

/// An element at two indexes, at the width and the sign of a context (7.4.2).
pub(crate) fn cell(
    alloc: Global,
    b: &mut Builder,
    given: &Given<'_>,
    first: &TExpr,
    second: &TExpr,
    prop: u32,
    inner: u32,
    own: u8,
    width: u8,
    signed: bool,
) -> Result<Vec<Lit>, NoMemory>
    requires inputs { AreInputs given.now.inputs.now }
    requires room { given.now.inputs.now.count ≤ b.old.vars }
    requires first_typed { IsTyped (expr_term first.now) }
    requires second_typed { IsTyped (expr_term second.now) }
    requires parts { AreGiven b.old given.now 0 (alone_part (expr_term first.now) ∷ alone_part (expr_term second.now) ∷ []) }
    requires inner { 1 ≤ inner }
    requires some { 1 ≤ own }
    requires wide { own ≤ width }
    requires high { width ≤ 64 }
    requires numbers { NumbersAreReady given.now.inputs.now own prop }
    ensures extends { Extends b.old b.new }
    ensures value { IfOk result (λ ls. GivesNumber b.new ls.items width (λ v. extend_of signed width own (spec.cell_at (read_at given.now.inputs.now v) prop inner (spec.index_read (read_at given.now.inputs.now v) given.now.env.now (expr_term first.now)) (spec.index_read (read_at given.now.inputs.now v) given.now.env.now (expr_term second.now))))) }
{
    let row = value_at(given.values, 0);
    let column = value_at(given.values, 1);
    cell_of(
        alloc,
        b,
        given.inputs,
        prop,
        inner,
        row,
        first.signed,
        column,
        second.signed,
        own,
        width,
        signed,
    )
}

/// `own` bits of `base` down to the bit that `last` names, at the width and the sign of a context (11.5.1).
pub(crate) fn selected(
    alloc: Global,
    b: &mut Builder,
    given: &Given<'_>,
    base: &TExpr,
    last: &TExpr,
    low: i64,
    own: u8,
    width: u8,
    signed: bool,
) -> Result<Vec<Lit>, NoMemory>
    requires base_typed { IsTyped (expr_term base.now) }
    requires last_typed { IsTyped (expr_term last.now) }
    requires parts { AreGiven b.old given.now 0 (alone_part (expr_term base.now) ∷ alone_part (expr_term last.now) ∷ []) }
    requires some { 1 ≤ own }
    requires wide { own ≤ width }
    requires high { width ≤ 64 }
    ensures extends { Extends b.old b.new }
    ensures value { IfOk result (λ ls. GivesNumber b.new ls.items width (λ v. extend_of signed width own (spec.selected (read_at given.now.inputs.now v) given.now.env.now (expr_term base.now) (expr_term last.now) low own))) }
{
    let whole = value_at(given.values, 0);
    let at = value_at(given.values, 1);
    selected_bits(alloc, b, whole, at, last.signed, low, own, width, signed)
}

/// The reduction of an array by its body, at the width and the sign of a context (7.12.3).
pub(crate) fn reduced(
    alloc: Global,
    b: &mut Builder,
    given: &Given<'_>,
    body: &TExpr,
    prop: u32,
    op: Fold,
    width: u8,
    signed: bool,
) -> Result<Vec<Lit>, NoMemory>
    requires typed { IsTyped (expr_term body.now) }
    requires parts { AreGiven b.old given.now 0 (body_parts (slice_index given.now.inputs.now.sizes.now prop) (expr_term body.now)) }
    requires fixed { size_bits given.now.inputs.now prop ≡ None }
    requires wide { body.now.width ≤ width }
    requires high { width ≤ 64 }
    ensures extends { Extends b.old b.new }
    ensures value { IfOk result (λ ls. GivesNumber b.new ls.items width (λ v. spec.node_val (read_at given.now.inputs.now v) given.now.env.now 0 signed (reduce_term prop op (expr_term body.now)) width signed)) }
{
    let mut total = fold_start(alloc, b, op, body.width)?;
    for i in 0..given.inputs.size(prop) {
        let one = value_at(given.values, i as usize);
        total = combined(alloc, b, fold_operator(op), &total, one, false)?;
    }
    Ok(extend(alloc, b, &total, width, signed)?)
}

/// A part that is the whole value.
pub(crate) fn copy(
    alloc: Global,
    b: &Builder,
    given: &Given<'_>,
    part: &TExpr,
    width: u8,
    signed: bool,
) -> Result<Vec<Lit>, NoMemory>
    requires { AreGiven b.now given.now 0 (in_context width signed (expr_term part.now) ∷ []) }
    ensures { IfOk result (λ ls. GivesNumber b.now ls.items width (λ v. spec.val (read_at given.now.inputs.now v) given.now.env.now (expr_term part.now) width signed)) }
{
    Ok(Vec::from_slice(alloc, value_at(given.values, 0))?)
}

/// The value alone, at the width and the sign of a context.
pub(crate) fn extended(
    alloc: Global,
    b: &mut Builder,
    given: &Given<'_>,
    part: &TExpr,
    width: u8,
    signed: bool,
) -> Result<Vec<Lit>, NoMemory>
    requires typed { IsTyped (expr_term part.now) }
    requires parts { AreGiven b.old given.now 0 (alone_part (expr_term part.now) ∷ []) }
    requires wide { part.now.width ≤ width }
    requires high { width ≤ 64 }
    ensures extends { Extends b.old b.new }
    ensures value { IfOk result (λ ls. GivesNumber b.new ls.items width (λ v. extend_of signed width (spec.size_of (expr_term part.now)) (spec.alone (read_at given.now.inputs.now v) given.now.env.now (expr_term part.now)))) }
{
    let value = value_at(given.values, 0);
    Ok(extend(alloc, b, value, width, signed)?)
}

/// A unary operator, at the width and the sign of a context.
pub(crate) fn unary(
    alloc: Global,
    b: &mut Builder,
    given: &Given<'_>,
    x: &TExpr,
    op: UnOp,
    width: u8,
    signed: bool,
) -> Result<Vec<Lit>, NoMemory>
    requires typed { IsTyped (expr_term x.now) }
    requires parts { AreGiven b.old given.now 0 (unary_parts (kind.unary_kind op) (expr_term x.now) width signed) }
    requires low { 1 ≤ width }
    requires high { width ≤ 64 }
    ensures extends { Extends b.old b.new }
    ensures value { IfOk result (λ ls. GivesNumber b.new ls.items width (λ v. spec.node_val (read_at given.now.inputs.now v) given.now.env.now 0 signed (unary_term op (expr_term x.now)) width signed)) }
{
    match unary_kind(op) {
        UnaryKind::Changed(change) => {
            let value = Vec::from_slice(alloc, value_at(given.values, 0))?;
            changed(alloc, b, change, value)
        }
        UnaryKind::Reduced(reduction) => {
            let value = value_at(given.values, 0);
            reduced_truth(alloc, b, reduction, value, width, signed)
        }
    }
}

/// A binary operator, at the width and the sign of a context.
pub(crate) fn binary(
    alloc: Global,
    b: &mut Builder,
    given: &Given<'_>,
    left: &TExpr,
    right: &TExpr,
    op: BinOp,
    width: u8,
    signed: bool,
) -> Result<Vec<Lit>, NoMemory>
    requires left_typed { IsTyped (expr_term left.now) }
    requires right_typed { IsTyped (expr_term right.now) }
    requires parts { AreGiven b.old given.now 0 (binary_parts (kind.binary_kind op) (expr_term left.now) (expr_term right.now) width signed) }
    requires low { 1 ≤ width }
    requires high { width ≤ 64 }
    ensures extends { Extends b.old b.new }
    ensures value { IfOk result (λ ls. GivesNumber b.new ls.items width (λ v. spec.node_val (read_at given.now.inputs.now v) given.now.env.now 0 signed (binary_term op (expr_term left.now) (expr_term right.now)) width signed)) }
{
    match binary_kind(op) {
        BinaryKind::InContext(arithmetic) => {
            let x = value_at(given.values, 0);
            combined(alloc, b, arithmetic, x, value_at(given.values, 1), signed)
        }
        BinaryKind::Shifted(shift) => {
            let x = value_at(given.values, 0);
            shifted(alloc, b, shift, x, value_at(given.values, 1), signed)
        }
        BinaryKind::ByPair(comparison) => {
            let x = value_at(given.values, 0);
            let y = value_at(given.values, 1);
            let both = are_signed(left, right);
            compared_truth(alloc, b, comparison, x, y, both, width, signed)
        }
        BinaryKind::Logical(connective) => {
            let x = value_at(given.values, 0);
            let y = value_at(given.values, 1);
            connected_truth(alloc, b, connective, x, y, width, signed)
        }
    }
}

/// The conditional operator (11.4.11), at the width and the sign of a context.
pub(crate) fn choice(
    alloc: Global,
    b: &mut Builder,
    given: &Given<'_>,
    test: &TExpr,
    met: &TExpr,
    unmet: &TExpr,
    width: u8,
    signed: bool,
) -> Result<Vec<Lit>, NoMemory>
    requires { AreGiven b.old given.now 0 (alone_part (expr_term test.now) ∷ in_context width signed (expr_term met.now) ∷ in_context width signed (expr_term unmet.now) ∷ []) }
    ensures extends { Extends b.old b.new }
    ensures value { IfOk result (λ ls. GivesNumber b.new ls.items width (λ v. spec.node_val (read_at given.now.inputs.now v) given.now.env.now 0 signed (choice_term (expr_term test.now) (expr_term met.now) (expr_term unmet.now)) width signed)) }
{
    let tested = value_at(given.values, 0);
    let first = value_at(given.values, 1);
    chosen_by(alloc, b, tested, first, value_at(given.values, 2))
}

/// The parts from left to right, the first one highest (11.4.12).
fn joined(
    alloc: Global,
    b: &Builder,
    given: &Given<'_>,
    parts: &[TExpr],
) -> Result<Vec<Lit>, NoMemory>
    requires typed { AreTyped (expr_terms parts.now) }
    requires parts { AreGiven b.now given.now 0 (alone_parts (expr_terms parts.now)) }
    ensures { IfOk result (λ ls. GivesNumber b.now ls.items (spec.sizes (expr_terms parts.now)) (λ v. spec.joined (read_at given.now.inputs.now v) given.now.env.now (expr_terms parts.now))) }
{
    let mut whole = Vec::new(alloc);
    let mut at = parts.len();
    while at > 0 {
        at -= 1;
        whole.extend_from_slice(value_at(given.values, at))?;
    }
    Ok(whole)
}

/// A concatenation (11.4.12), at the width and the sign of a context.
pub(crate) fn joined_at(
    alloc: Global,
    b: &mut Builder,
    given: &Given<'_>,
    parts: &[TExpr],
    width: u8,
    signed: bool,
) -> Result<Vec<Lit>, NoMemory>
    requires typed { AreTyped (expr_terms parts.now) }
    requires parts { AreGiven b.old given.now 0 (alone_parts (expr_terms parts.now)) }
    requires some { 1 ≤ spec.sizes (expr_terms parts.now) }
    requires wide { spec.sizes (expr_terms parts.now) ≤ width }
    requires high { width ≤ 64 }
    ensures extends { Extends b.old b.new }
    ensures value { IfOk result (λ ls. GivesNumber b.new ls.items width (λ v. extend_of signed width (spec.sizes (expr_terms parts.now)) (spec.joined (read_at given.now.inputs.now v) given.now.env.now (expr_terms parts.now)))) }
{
    let whole = joined(alloc, b, given, parts)?;
    Ok(extend(alloc, b, &whole, width, signed)?)
}

/// A replication (11.4.12.1) that has `own` bits, at the width and the sign of a context.
pub(crate) fn replicated(
    alloc: Global,
    b: &mut Builder,
    given: &Given<'_>,
    parts: &[TExpr],
    count: &TExpr,
    own: u8,
    width: u8,
    signed: bool,
) -> Result<Vec<Lit>, NoMemory>
    requires constant { IsConstant (expr_term count.now) }
    requires typed { AreTyped (expr_terms parts.now) }
    requires parts { AreGiven b.old given.now 0 (alone_parts (expr_terms parts.now)) }
    requires size { spec.alone blank [] (expr_term count.now) * spec.sizes (expr_terms parts.now) ≡ own }
    requires some { 1 ≤ own }
    requires wide { own ≤ width }
    requires high { width ≤ 64 }
    ensures extends { Extends b.old b.new }
    ensures value { IfOk result (λ ls. GivesNumber b.new ls.items width (λ v. extend_of signed width own (spec.replicated (read_at given.now.inputs.now v) given.now.env.now (expr_term count.now) (expr_terms parts.now)))) }
{
    let part = joined(alloc, b, given, parts)?;
    copies_at(alloc, b, &part, own, width, signed)
}
