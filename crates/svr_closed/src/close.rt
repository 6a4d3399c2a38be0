// Expressions with numbers in place of loop variables (IEEE 1800-2017, 12.7.3 and 18.5.8.1).

ghost use Rattle.std.specs.Prelude.{◌≡◌, suc, IfOk};
ghost use Rattle.svr_typed.specs.ExprTerm as term;
ghost use Rattle.svr_typed.specs.ExprTerm.{expr_term, expr_terms, range_term, range_terms, bound_term};
ghost use Rattle.svr_eval.specs.Value.{index_of};
ghost use Rattle.svr_frame.specs.Closed as spec;

use crate::typing::{Typing, both};
use sqlite_items::Items;
use std::alloc::Global;
use svr_eval::Env;
use svr_typed::{NoMemory, TBound, TExpr, TNode, TRange};

/// The index of the k-th loop counted outwards, 0 where there is no such loop.
fn index_at(env: &Env, k: u32) -> u32
    ensures { result ≡ index_of env.now k }
{
    if k < env.depth() {
        env.loop_index(k)
    } else {
        0
    }
}

/// An index as a number: a loop variable is an int.
pub fn index_number(index: u32) -> TExpr
    ensures { expr_term result ≡ spec.index_number index }
{
    TExpr::new(32, true, TNode::number(u64::from(index), false))
}

/// A loop variable as it stands in a copy: that of an own loop stays.
fn closed_loop(k: u32, width: u8, signed: bool, env: &Env, own: u32) -> TExpr
    ensures { expr_term result ≡ spec.closed_node env.now own width signed (term.loop_index k) }
{
    if k < own {
        TExpr::new(width, signed, TNode::loop_index(k))
    } else {
        index_number(index_at(env, k - own))
    }
}

/// A copy in which each loop variable is its number in these loops.
pub fn closed(alloc: Global, e: &TExpr, env: &Env) -> Result<TExpr, NoMemory>
    ensures { IfOk result (λ r. expr_term r ≡ spec.closed env.now (expr_term e.now)) }
{
    let loops = Loops { alloc, env, own: 0 };
    loops.expr(e)
}

/// A copy of a member of a set in which each loop variable is its number in these loops.
pub fn closed_member(alloc: Global, range: &TRange, env: &Env) -> Result<TRange, NoMemory>
    ensures { IfOk result (λ r. range_term r ≡ spec.closed_range env.now 0 (range_term range.now)) }
{
    let loops = Loops { alloc, env, own: 0 };
    loops.range(range)
}

/// The loops around an expression that is copied: those with these indexes are numbers in the copy, the `own` innermost ones are the expression's own.
#[derive(Clone, Copy)]
struct Loops<'a> {
    alloc: Global,
    env: &'a Env,
    own: u32,
}

impl Loops<'_> {
    /// A copy in which each loop variable is its number.
    #[cycle(closed)]
    fn expr(&self, e: &TExpr) -> Result<TExpr, NoMemory>
        ensures { IfOk result (λ r. expr_term r ≡ spec.closed_within self.now.env.now self.now.own (expr_term e.now)) }
    {
        let as_it = Typing {
            alloc: self.alloc,
            width: e.width,
            signed: e.signed,
        };
        match &e.node {
            TNode::Loop(k) => Ok(closed_loop(*k, e.width, e.signed, self.env, self.own)),
            TNode::Number { value, every } => Ok(as_it.node(TNode::number(*value, *every))),
            TNode::Prop(prop) => Ok(as_it.node(TNode::prop(*prop))),
            TNode::Element(prop, index) => as_it.element(*prop, self.expr(index.get())),
            TNode::Cell(prop, inner, first, second) => {
                as_it.cell(
                    *prop,
                    *inner,
                    self.expr(first.get()),
                    self.expr(second.get()),
                )
            }
            TNode::Size(prop, inner) => Ok(as_it.node(TNode::size(*prop, *inner))),
            TNode::Reduce(prop, op, body) => as_it.reduce(*prop, *op, self.body(body.get())),
            TNode::Script(variable) => Ok(as_it.node(TNode::script(*variable))),
            TNode::Of(object, part) => as_it.of_object(*object, self.expr(part.get())),
            TNode::Select {
                base,
                first,
                last,
                low,
            } => match last {
                None => as_it.bit(self.expr(base.get()), self.expr(first.get()), *low),
                Some(last) => {
                    let (base, first) = (self.expr(base.get()), self.expr(first.get()));
                    as_it.bits(base, first, self.expr(last.get()), *low)
                }
            },
            TNode::Unary { op, arg } => as_it.unary(*op, self.expr(arg.get())),
            TNode::Binary { op, left, right } => {
                as_it.binary(*op, self.expr(left.get()), self.expr(right.get()))
            }
            TNode::Choice { test, yes, no } => {
                as_it.choice(
                    self.expr(test.get()),
                    self.expr(yes.get()),
                    self.expr(no.get()),
                )
            }
            TNode::Inside { left, set } => {
                as_it.inside(self.expr(left.get()), self.ranges(set.as_slice()))
            }
            TNode::Join { parts } => as_it.join(self.exprs(parts.as_slice())),
            TNode::Copies { count, parts } => {
                as_it.copies(self.expr(count.get()), self.exprs(parts.as_slice()))
            }
            TNode::Sign { signed, arg } => as_it.sign(*signed, self.expr(arg.get())),
        }
    }

    /// A copy of the body of an array reduction, whose variable is one more own loop; an expression with so many within one another that they cannot be counted is in no memory.
    #[cycle(closed)]
    fn body(&self, e: &TExpr) -> Result<TExpr, NoMemory>
        ensures { IfOk result (λ r. expr_term r ≡ spec.closed_within self.now.env.now (suc self.now.own) (expr_term e.now)) }
    {
        match self.own.checked_add(1) {
            None => Err(NoMemory),
            Some(own) => {
                let inner = Loops {
                    alloc: self.alloc,
                    env: self.env,
                    own,
                };
                inner.expr(e)
            }
        }
    }

    #[cycle(closed)]
    fn exprs(&self, parts: &[TExpr]) -> Result<Items<TExpr>, NoMemory>
        ensures { IfOk result (λ r. expr_terms r ≡ spec.closed_exprs self.now.env.now self.now.own (expr_terms parts.now)) }
    {
        let mut copies = Items::new(self.alloc);
        for e in parts {
            copies.push(self.expr(e)?)?;
        }
        Ok(copies)
    }

    #[cycle(closed)]
    fn ranges(&self, set: &[TRange]) -> Result<Items<TRange>, NoMemory>
        ensures { IfOk result (λ r. range_terms r ≡ spec.closed_ranges self.now.env.now self.now.own (range_terms set.now)) }
    {
        let mut copies = Items::new(self.alloc);
        for range in set {
            copies.push(self.range(range)?)?;
        }
        Ok(copies)
    }

    /// A copy of a member of a set in which each loop variable is its number.
    #[cycle(closed)]
    fn range(&self, range: &TRange) -> Result<TRange, NoMemory>
        ensures { IfOk result (λ r. range_term r ≡ spec.closed_range self.now.env.now self.now.own (range_term range.now)) }
    {
        match range {
            TRange::One(e) => Ok(TRange::one(self.expr(e)?)),
            TRange::Span(low, high) => {
                let (low, high) = both(self.bound(low), self.bound(high))?;
                Ok(TRange::span(low, high))
            }
        }
    }

    #[cycle(closed)]
    fn bound(&self, bound: &TBound) -> Result<TBound, NoMemory>
        ensures { IfOk result (λ r. bound_term r ≡ spec.closed_bound self.now.env.now self.now.own (bound_term bound.now)) }
    {
        match bound {
            TBound::Value(e) => Ok(TBound::value(self.expr(e)?)),
            TBound::Dollar => Ok(TBound::dollar()),
        }
    }
}
