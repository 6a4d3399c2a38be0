// Typed expressions.

ghost use Rattle.std.specs.Prelude.{◌≡◌, IfOk};
ghost use Rattle.svr_typed.specs.ExprTerm as term;
ghost use Rattle.svr_typed.specs.ExprTerm.{expr_term, node_term, range_term, bound_term, expr_terms, range_terms};

use crate::memory::{NoMemory, boxed, boxed_pair, boxed_three};
use sqlite_items::{Boxed, Items};
use std::alloc::Global;
use svr_operator::{BinOp, Fold, UnOp};

/// An expression with its self-determined size and its sign (IEEE 1800-2017, 11.6 and 11.8). `width` is in bits, from 1 to 64.
#[cycle(expr)]
#[derive(Drop)]
pub struct TExpr {
    pub width: u8,
    pub signed: bool,
    pub node: TNode,
}

/// The form of an expression. Properties are named by their places in the flat order of the class, script variables by their places among the variables.
#[cycle(expr)]
#[derive(Drop)]
pub enum TNode {
    /// A literal, an enum member or a loop number. `every` is true for `'0` and `'1`, whose `value`, 0 or 1, is that of every bit.
    Number {
        value: u64,
        every: bool,
    },
    /// A scalar property, or a whole array where one may stand without an index. It then has the size and sign of an element.
    Prop(u32),
    /// An element of an array property, by its index.
    Element(u32, Boxed<TExpr>),
    /// An element of an array property with two dimensions (IEEE 1800-2017, 7.4.2), by the property, its second dimension, and the first and the second index.
    Cell(u32, u32, Boxed<TExpr>, Boxed<TExpr>),
    /// The first dimension of an array property, by the property and its second dimension: 32 bits, signed. That is its number of elements where the second dimension is 1.
    Size(u32, u32),
    /// A script variable.
    Script(u32),
    /// A loop variable, or the index of a reduction, counted outwards from the innermost loop, from 0: 32 bits, signed.
    Loop(u32),
    /// An array reduction (IEEE 1800-2017, 7.12.3) over all elements of an array property. In its body the reduction is the innermost loop.
    Reduce(u32, Fold, Boxed<TExpr>),
    /// In a statement: a property, an element or a size of the object that this object variable has.
    Of(u32, Boxed<TExpr>),
    /// A bit-select, or with `last` a part-select (IEEE 1800-2017, 11.5.1). `low` is the lowest bit number of the declared range of `base`, 0 where it has none.
    Select {
        base: Boxed<TExpr>,
        first: Boxed<TExpr>,
        last: Option<Boxed<TExpr>>,
        low: i64,
    },
    Unary {
        op: UnOp,
        arg: Boxed<TExpr>,
    },
    Binary {
        op: BinOp,
        left: Boxed<TExpr>,
        right: Boxed<TExpr>,
    },
    /// The conditional operator (IEEE 1800-2017, 11.4.11).
    Choice {
        test: Boxed<TExpr>,
        yes: Boxed<TExpr>,
        no: Boxed<TExpr>,
    },
    /// Set membership (IEEE 1800-2017, 11.4.13).
    Inside {
        left: Boxed<TExpr>,
        set: Items<TRange>,
    },
    /// A concatenation (IEEE 1800-2017, 11.4.12).
    Join {
        parts: Items<TExpr>,
    },
    /// A replication (IEEE 1800-2017, 11.4.12.1).
    Copies {
        count: Boxed<TExpr>,
        parts: Items<TExpr>,
    },
    /// `$signed` or `$unsigned` (IEEE 1800-2017, 20.5).
    Sign {
        signed: bool,
        arg: Boxed<TExpr>,
    },
}

/// A member of a set: a value, or the values from the first bound to the second.
#[cycle(expr)]
#[derive(Drop)]
pub enum TRange {
    One(TExpr),
    Span(TBound, TBound),
}

/// A bound of a range. `Dollar` is the least or the greatest value of the compared type.
#[cycle(expr)]
#[derive(Drop)]
pub enum TBound {
    Value(TExpr),
    Dollar,
}

impl TExpr {
    /// An expression of this size and sign.
    pub fn new(width: u8, signed: bool, node: TNode) -> TExpr
        ensures { expr_term result ≡ term.typed width signed (node_term node) }
    {
        TExpr {
            width,
            signed,
            node,
        }
    }
}

impl TNode {
    /// A literal, an enum member or a loop number; `every`: `'0` or `'1`.
    pub fn number(value: u64, every: bool) -> TNode
        ensures { node_term result ≡ term.number value every }
    {
        TNode::Number { value, every }
    }

    /// A scalar property, or a whole array.
    pub fn prop(prop: u32) -> TNode
        ensures { node_term result ≡ term.prop prop }
    {
        TNode::Prop(prop)
    }

    /// An element by its index.
    pub fn element(alloc: Global, prop: u32, index: TExpr) -> Result<TNode, NoMemory>
        ensures { IfOk result (λ n. node_term n ≡ term.element prop (expr_term index)) }
    {
        match boxed(alloc, index) {
            None => Err(NoMemory),
            Some(index) => Ok(TNode::Element(prop, index)),
        }
    }

    /// An element by its two indexes; `inner` is the second dimension.
    pub fn cell(
        alloc: Global,
        prop: u32,
        inner: u32,
        first: TExpr,
        second: TExpr,
    ) -> Result<TNode, NoMemory>
        ensures { IfOk result (λ n. node_term n ≡ term.cell prop inner (expr_term first) (expr_term second)) }
    {
        match boxed_pair(alloc, first, second) {
            None => Err(NoMemory),
            Some((first, second)) => Ok(TNode::Cell(prop, inner, first, second)),
        }
    }

    /// The first dimension of an array whose second one is `inner`.
    pub fn size(prop: u32, inner: u32) -> TNode
        ensures { node_term result ≡ term.size prop inner }
    {
        TNode::Size(prop, inner)
    }

    /// A script variable.
    pub fn script(var: u32) -> TNode
        ensures { node_term result ≡ term.script var }
    {
        TNode::Script(var)
    }

    /// The index of the loop that stands so many loops outwards, the innermost being 0.
    pub fn loop_index(depth: u32) -> TNode
        ensures { node_term result ≡ term.loop_index depth }
    {
        TNode::Loop(depth)
    }

    /// The reduction of an array by its body.
    pub fn reduce(alloc: Global, prop: u32, op: Fold, body: TExpr) -> Result<TNode, NoMemory>
        ensures { IfOk result (λ n. node_term n ≡ term.reduce prop op (expr_term body)) }
    {
        match boxed(alloc, body) {
            None => Err(NoMemory),
            Some(body) => Ok(TNode::Reduce(prop, op, body)),
        }
    }

    /// A part of the object that an object variable has.
    pub fn of_object(alloc: Global, object: u32, part: TExpr) -> Result<TNode, NoMemory>
        ensures { IfOk result (λ n. node_term n ≡ term.of_object object (expr_term part)) }
    {
        match boxed(alloc, part) {
            None => Err(NoMemory),
            Some(part) => Ok(TNode::Of(object, part)),
        }
    }

    /// A bit by its number; `low` is the lowest bit's.
    pub fn bit_select(alloc: Global, base: TExpr, index: TExpr, low: i64) -> Result<TNode, NoMemory>
        ensures { IfOk result (λ n. node_term n ≡ term.bit_select (expr_term base) (expr_term index) low) }
    {
        match boxed_pair(alloc, base, index) {
            None => Err(NoMemory),
            Some((base, first)) => Ok(TNode::Select {
                base,
                first,
                last: None,
                low,
            }),
        }
    }

    /// The bits from one number down to another; `low` is the lowest bit's.
    pub fn part_select(
        alloc: Global,
        base: TExpr,
        first: TExpr,
        last: TExpr,
        low: i64,
    ) -> Result<TNode, NoMemory>
        ensures { IfOk result (λ n. node_term n ≡ term.part_select (expr_term base) (expr_term first) (expr_term last) low) }
    {
        match boxed_three(alloc, base, first, last) {
            None => Err(NoMemory),
            Some(((base, first), last)) => Ok(TNode::Select {
                base,
                first,
                last: Some(last),
                low,
            }),
        }
    }

    /// A unary operator and its operand.
    pub fn unary(alloc: Global, op: UnOp, arg: TExpr) -> Result<TNode, NoMemory>
        ensures { IfOk result (λ n. node_term n ≡ term.unary op (expr_term arg)) }
    {
        match boxed(alloc, arg) {
            None => Err(NoMemory),
            Some(arg) => Ok(TNode::Unary { op, arg }),
        }
    }

    /// A binary operator and its operands.
    pub fn binary(alloc: Global, op: BinOp, left: TExpr, right: TExpr) -> Result<TNode, NoMemory>
        ensures { IfOk result (λ n. node_term n ≡ term.binary op (expr_term left) (expr_term right)) }
    {
        match boxed_pair(alloc, left, right) {
            None => Err(NoMemory),
            Some((left, right)) => Ok(TNode::Binary { op, left, right }),
        }
    }

    /// The conditional operator: a test, and the values where it is true and where it is not.
    pub fn choice(alloc: Global, test: TExpr, yes: TExpr, no: TExpr) -> Result<TNode, NoMemory>
        ensures { IfOk result (λ n. node_term n ≡ term.choice (expr_term test) (expr_term yes) (expr_term no)) }
    {
        match boxed_three(alloc, test, yes, no) {
            None => Err(NoMemory),
            Some(((test, yes), no)) => Ok(TNode::Choice { test, yes, no }),
        }
    }

    /// Whether a value is in a set.
    pub fn inside(alloc: Global, left: TExpr, set: Items<TRange>) -> Result<TNode, NoMemory>
        ensures { IfOk result (λ n. node_term n ≡ term.inside (expr_term left) (range_terms set)) }
    {
        match boxed(alloc, left).zip(Some(set)) {
            None => Err(NoMemory),
            Some((left, set)) => Ok(TNode::Inside { left, set }),
        }
    }

    /// A concatenation, the highest part first.
    pub fn join(parts: Items<TExpr>) -> TNode
        ensures { node_term result ≡ term.join (expr_terms parts) }
    {
        TNode::Join { parts }
    }

    /// A replication of the joined parts.
    pub fn copies(alloc: Global, count: TExpr, parts: Items<TExpr>) -> Result<TNode, NoMemory>
        ensures { IfOk result (λ n. node_term n ≡ term.copies (expr_term count) (expr_terms parts)) }
    {
        match boxed(alloc, count).zip(Some(parts)) {
            None => Err(NoMemory),
            Some((count, parts)) => Ok(TNode::Copies { count, parts }),
        }
    }

    /// `$signed` or `$unsigned`.
    pub fn sign(alloc: Global, signed: bool, arg: TExpr) -> Result<TNode, NoMemory>
        ensures { IfOk result (λ n. node_term n ≡ term.sign signed (expr_term arg)) }
    {
        match boxed(alloc, arg) {
            None => Err(NoMemory),
            Some(arg) => Ok(TNode::Sign { signed, arg }),
        }
    }
}

impl TRange {
    /// A member that is one value.
    pub fn one(value: TExpr) -> TRange
        ensures { range_term result ≡ term.one (expr_term value) }
    {
        TRange::One(value)
    }

    /// The values from one bound to another.
    pub fn span(low: TBound, high: TBound) -> TRange
        ensures { range_term result ≡ term.span (bound_term low) (bound_term high) }
    {
        TRange::Span(low, high)
    }
}

impl TBound {
    /// A bound that is written.
    pub fn value(value: TExpr) -> TBound
        ensures { bound_term result ≡ term.value (expr_term value) }
    {
        TBound::Value(value)
    }

    /// `$`
    pub fn dollar() -> TBound
        ensures { bound_term result ≡ term.dollar }
    {
        TBound::Dollar
    }
}
