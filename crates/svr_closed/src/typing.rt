// Expressions of copies, where the copies of their parts are there.

ghost use Rattle.std.specs.Prelude.{◌≡◌, IfOk};
ghost use Rattle.svr_typed.specs.ExprTerm as term;
ghost use Rattle.svr_typed.specs.ExprTerm.{ExprTerm, ExprTerms, RangeTerms, expr_term, expr_terms, node_term, range_terms};

use sqlite_items::Items;
use std::alloc::Global;
use svr_operator::{BinOp, Fold, UnOp};
use svr_typed::{NoMemory, TExpr, TNode, TRange};

/// Both values, where both are there. It is generic, so that one that is let go where the other is missing costs its caller nothing.
pub(crate) fn both<T: Drop, U: Drop>(
    first: Result<T, NoMemory>,
    second: Result<U, NoMemory>,
) -> Result<(T, U), NoMemory>
    ensures first { IfOk result (λ values. first ≡ Ok values.0) }
    ensures second { IfOk result (λ values. second ≡ Ok values.1) }
{
    Ok((first?, second?))
}

/// Two copies, where both are there.
fn two(
    first: Result<TExpr, NoMemory>,
    second: Result<TExpr, NoMemory>,
) -> Result<(TExpr, TExpr), NoMemory>
    ensures { (x y : ExprTerm) → IfOk first (λ e. expr_term e ≡ x) → IfOk second (λ e. expr_term e ≡ y) → IfOk result (λ p. (expr_term p.0 ≡ x) × (expr_term p.1 ≡ y)) }
{
    match first.ok().zip(second.ok()) {
        None => Err(NoMemory),
        Some((first, second)) => Ok((first, second)),
    }
}

/// Three copies, where all are there.
fn three(
    first: Result<TExpr, NoMemory>,
    second: Result<TExpr, NoMemory>,
    third: Result<TExpr, NoMemory>,
) -> Result<(TExpr, TExpr, TExpr), NoMemory>
    ensures { (x y z : ExprTerm) → IfOk first (λ e. expr_term e ≡ x) → IfOk second (λ e. expr_term e ≡ y) → IfOk third (λ e. expr_term e ≡ z) → IfOk result (λ p. (expr_term p.0 ≡ x) × (expr_term p.1 ≡ y) × (expr_term p.2 ≡ z)) }
{
    match first.ok().zip(second.ok()).zip(third.ok()) {
        None => Err(NoMemory),
        Some(((first, second), third)) => Ok((first, second, third)),
    }
}

/// The size and the sign of an expression.
#[derive(Clone, Copy)]
pub(crate) struct Typing {
    pub(crate) alloc: Global,
    pub(crate) width: u8,
    pub(crate) signed: bool,
}

impl Typing {
    pub(crate) fn node(self, node: TNode) -> TExpr
        ensures { expr_term result ≡ term.typed self.width self.signed (node_term node) }
    {
        TExpr::new(self.width, self.signed, node)
    }

    pub(crate) fn element(
        self,
        prop: u32,
        index: Result<TExpr, NoMemory>,
    ) -> Result<TExpr, NoMemory>
        ensures { (x : ExprTerm) → IfOk index (λ e. expr_term e ≡ x) → IfOk result (λ r. expr_term r ≡ term.typed self.width self.signed (term.element prop x)) }
    {
        Ok(self.node(TNode::element(self.alloc, prop, index?)?))
    }

    pub(crate) fn cell(
        self,
        prop: u32,
        inner: u32,
        first: Result<TExpr, NoMemory>,
        second: Result<TExpr, NoMemory>,
    ) -> Result<TExpr, NoMemory>
        ensures { (x : ExprTerm) (y : ExprTerm) → IfOk first (λ e. expr_term e ≡ x) → IfOk second (λ e. expr_term e ≡ y) → IfOk result (λ r. expr_term r ≡ term.typed self.width self.signed (term.cell prop inner x y)) }
    {
        let (first, second) = two(first, second)?;
        Ok(self.node(TNode::cell(self.alloc, prop, inner, first, second)?))
    }

    pub(crate) fn reduce(
        self,
        prop: u32,
        op: Fold,
        body: Result<TExpr, NoMemory>,
    ) -> Result<TExpr, NoMemory>
        ensures { (x : ExprTerm) → IfOk body (λ e. expr_term e ≡ x) → IfOk result (λ r. expr_term r ≡ term.typed self.width self.signed (term.reduce prop op x)) }
    {
        Ok(self.node(TNode::reduce(self.alloc, prop, op, body?)?))
    }

    pub(crate) fn of_object(
        self,
        object: u32,
        part: Result<TExpr, NoMemory>,
    ) -> Result<TExpr, NoMemory>
        ensures { (x : ExprTerm) → IfOk part (λ e. expr_term e ≡ x) → IfOk result (λ r. expr_term r ≡ term.typed self.width self.signed (term.of_object object x)) }
    {
        Ok(self.node(TNode::of_object(self.alloc, object, part?)?))
    }

    pub(crate) fn bit(
        self,
        base: Result<TExpr, NoMemory>,
        index: Result<TExpr, NoMemory>,
        low: i64,
    ) -> Result<TExpr, NoMemory>
        ensures { (x : ExprTerm) (y : ExprTerm) → IfOk base (λ e. expr_term e ≡ x) → IfOk index (λ e. expr_term e ≡ y) → IfOk result (λ r. expr_term r ≡ term.typed self.width self.signed (term.bit_select x y low)) }
    {
        let (base, index) = two(base, index)?;
        Ok(self.node(TNode::bit_select(self.alloc, base, index, low)?))
    }

    pub(crate) fn bits(
        self,
        base: Result<TExpr, NoMemory>,
        first: Result<TExpr, NoMemory>,
        last: Result<TExpr, NoMemory>,
        low: i64,
    ) -> Result<TExpr, NoMemory>
        ensures { (x : ExprTerm) (y : ExprTerm) (z : ExprTerm) → IfOk base (λ e. expr_term e ≡ x) → IfOk first (λ e. expr_term e ≡ y) → IfOk last (λ e. expr_term e ≡ z) → IfOk result (λ r. expr_term r ≡ term.typed self.width self.signed (term.part_select x y z low)) }
    {
        let (base, first, last) = three(base, first, last)?;
        Ok(self.node(TNode::part_select(self.alloc, base, first, last, low)?))
    }

    pub(crate) fn unary(self, op: UnOp, arg: Result<TExpr, NoMemory>) -> Result<TExpr, NoMemory>
        ensures { (x : ExprTerm) → IfOk arg (λ e. expr_term e ≡ x) → IfOk result (λ r. expr_term r ≡ term.typed self.width self.signed (term.unary op x)) }
    {
        Ok(self.node(TNode::unary(self.alloc, op, arg?)?))
    }

    pub(crate) fn binary(
        self,
        op: BinOp,
        left: Result<TExpr, NoMemory>,
        right: Result<TExpr, NoMemory>,
    ) -> Result<TExpr, NoMemory>
        ensures { (x : ExprTerm) (y : ExprTerm) → IfOk left (λ e. expr_term e ≡ x) → IfOk right (λ e. expr_term e ≡ y) → IfOk result (λ r. expr_term r ≡ term.typed self.width self.signed (term.binary op x y)) }
    {
        let (left, right) = two(left, right)?;
        Ok(self.node(TNode::binary(self.alloc, op, left, right)?))
    }

    pub(crate) fn choice(
        self,
        test: Result<TExpr, NoMemory>,
        yes: Result<TExpr, NoMemory>,
        no: Result<TExpr, NoMemory>,
    ) -> Result<TExpr, NoMemory>
        ensures { (x : ExprTerm) (y : ExprTerm) (z : ExprTerm) → IfOk test (λ e. expr_term e ≡ x) → IfOk yes (λ e. expr_term e ≡ y) → IfOk no (λ e. expr_term e ≡ z) → IfOk result (λ r. expr_term r ≡ term.typed self.width self.signed (term.choice x y z)) }
    {
        let (test, yes, no) = three(test, yes, no)?;
        Ok(self.node(TNode::choice(self.alloc, test, yes, no)?))
    }

    pub(crate) fn inside(
        self,
        left: Result<TExpr, NoMemory>,
        set: Result<Items<TRange>, NoMemory>,
    ) -> Result<TExpr, NoMemory>
        ensures { (x : ExprTerm) (y : RangeTerms) → IfOk left (λ e. expr_term e ≡ x) → IfOk set (λ e. range_terms e ≡ y) → IfOk result (λ r. expr_term r ≡ term.typed self.width self.signed (term.inside x y)) }
    {
        match left.ok().zip(set.ok()) {
            None => Err(NoMemory),
            Some((left, set)) => Ok(self.node(TNode::inside(self.alloc, left, set)?)),
        }
    }

    pub(crate) fn join(self, parts: Result<Items<TExpr>, NoMemory>) -> Result<TExpr, NoMemory>
        ensures { (x : ExprTerms) → IfOk parts (λ e. expr_terms e ≡ x) → IfOk result (λ r. expr_term r ≡ term.typed self.width self.signed (term.join x)) }
    {
        Ok(self.node(TNode::join(parts?)))
    }

    pub(crate) fn copies(
        self,
        count: Result<TExpr, NoMemory>,
        parts: Result<Items<TExpr>, NoMemory>,
    ) -> Result<TExpr, NoMemory>
        ensures { (x : ExprTerm) (y : ExprTerms) → IfOk count (λ e. expr_term e ≡ x) → IfOk parts (λ e. expr_terms e ≡ y) → IfOk result (λ r. expr_term r ≡ term.typed self.width self.signed (term.copies x y)) }
    {
        match count.ok().zip(parts.ok()) {
            None => Err(NoMemory),
            Some((count, parts)) => Ok(self.node(TNode::copies(self.alloc, count, parts)?)),
        }
    }

    pub(crate) fn sign(self, signed: bool, arg: Result<TExpr, NoMemory>) -> Result<TExpr, NoMemory>
        ensures { (x : ExprTerm) → IfOk arg (λ e. expr_term e ≡ x) → IfOk result (λ r. expr_term r ≡ term.typed self.width self.signed (term.sign signed x)) }
    {
        Ok(self.node(TNode::sign(self.alloc, signed, arg?)?))
    }
}
