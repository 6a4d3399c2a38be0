// Expressions (IEEE 1800-2017, A.8).

ghost use Rattle.std.specs.Prelude.{◌≡◌, IfOk};
ghost use Rattle.svr_tree.specs.ExprTree as tree;
ghost use Rattle.svr_tree.specs.ExprTree.{expr_tree, range_tree, bound_tree, expr_trees, range_trees};

use crate::memory::{NoMemory, boxed, boxed_pair, boxed_three};
use sqlite_items::{Boxed, Items};
use std::alloc::Global;
use svr_operator::{BinOp, Fold, UnOp};

/// Where a path looks for its first name: by the common rules, or behind `local::` or `this.` (IEEE 1800-2017, 18.7.1 and 8.11).
#[derive(Clone, Copy)]
pub enum Scope {
    Plain,
    Local,
    This,
}

/// What stands between the name of an array reduction and `with`: the name of an element in the body (IEEE 1800-2017, A.8.2 and 7.12, iterator_argument).
#[derive(Clone, Copy)]
pub enum IteratorArgument {
    /// No parentheses, so an element is `item`.
    Absent,
    /// `()`, so an element is `item`.
    Empty,
    /// `(name)`
    Named(u32),
}

impl IteratorArgument {
    /// The name that is written; none where an element is `item`.
    pub fn name(self) -> Option<u32>
        ensures { result ≡ tree.argument_name self }
    {
        match self {
            IteratorArgument::Absent | IteratorArgument::Empty => None,
            IteratorArgument::Named(name) => Some(name),
        }
    }
}

/// An expression.
#[cycle(expr)]
#[derive(Drop)]
pub enum Expr {
    /// A literal: its value, its width in bits, its sign. The width 0 stands for `'0` and `'1`, whose value is 0 or 1.
    Number {
        at: u32,
        value: u64,
        width: u8,
        signed: bool,
    },
    /// A path of names. `call`: with `()` behind it.
    Path {
        at: u32,
        scope: Scope,
        names: Items<u32>,
        call: bool,
    },
    /// `base[first]` or `base[first:last]`. `call`: with `()` behind it.
    Select {
        at: u32,
        base: Boxed<Expr>,
        first: Boxed<Expr>,
        last: Option<Boxed<Expr>>,
        call: bool,
    },
    Unary {
        at: u32,
        op: UnOp,
        arg: Boxed<Expr>,
    },
    Binary {
        at: u32,
        op: BinOp,
        left: Boxed<Expr>,
        right: Boxed<Expr>,
    },
    /// `test ? yes : no`
    Choice {
        at: u32,
        test: Boxed<Expr>,
        yes: Boxed<Expr>,
        no: Boxed<Expr>,
    },
    /// `left inside { set }`
    Inside {
        at: u32,
        left: Boxed<Expr>,
        set: Items<Range>,
    },
    /// `{ parts }`
    Join {
        at: u32,
        parts: Items<Expr>,
    },
    /// `{ count { parts } }`
    Copies {
        at: u32,
        count: Boxed<Expr>,
        parts: Items<Expr>,
    },
    /// `$signed(arg)` or `$unsigned(arg)`
    Sign {
        at: u32,
        signed: bool,
        arg: Boxed<Expr>,
    },
    /// `(arg)`
    Paren {
        at: u32,
        arg: Boxed<Expr>,
    },
    /// `array.op(item) with (body)`, an array reduction (IEEE 1800-2017, 7.12.3)
    Reduce {
        at: u32,
        array: Boxed<Expr>,
        op: Fold,
        item: IteratorArgument,
        body: Boxed<Expr>,
    },
}

/// A member of a set: `value` or `[low:high]`.
#[cycle(expr)]
#[derive(Drop)]
pub enum Range {
    One(Expr),
    Span(Bound, Bound),
}

/// A bound of a range. `Dollar` is `$`.
#[cycle(expr)]
#[derive(Drop)]
pub enum Bound {
    Value(Expr),
    Dollar,
}

impl Expr {
    /// A number as it is written, with its width and sign (5.7.1).
    pub fn number(at: u32, value: u64, width: u8, signed: bool) -> Expr
        ensures { expr_tree result ≡ tree.number at value width signed }
    {
        Expr::Number {
            at,
            value,
            width,
            signed,
        }
    }

    /// A name, or names with dots between them, and whether parentheses stand behind it.
    pub fn path(at: u32, scope: Scope, names: Items<u32>, call: bool) -> Expr
        ensures { expr_tree result ≡ tree.path at scope names call }
    {
        Expr::Path {
            at,
            scope,
            names,
            call,
        }
    }

    /// A bit-select, or an element of an array (11.5.1).
    pub fn bit_select(
        alloc: Global,
        at: u32,
        base: Expr,
        index: Expr,
        call: bool,
    ) -> Result<Expr, NoMemory>
        ensures { IfOk result (λ e. expr_tree e ≡ tree.bit_select at (expr_tree base) (expr_tree index) call) }
    {
        match boxed_pair(alloc, base, index) {
            None => Err(NoMemory),
            Some((base, first)) => Ok(Expr::Select {
                at,
                base,
                first,
                last: None,
                call,
            }),
        }
    }

    /// A part-select between two bounds (11.5.1).
    pub fn part_select(
        alloc: Global,
        at: u32,
        base: Expr,
        first: Expr,
        last: Expr,
        call: bool,
    ) -> Result<Expr, NoMemory>
        ensures { IfOk result (λ e. expr_tree e ≡ tree.part_select at (expr_tree base) (expr_tree first) (expr_tree last) call) }
    {
        match boxed_three(alloc, base, first, last) {
            None => Err(NoMemory),
            Some(((base, first), last)) => Ok(Expr::Select {
                at,
                base,
                first,
                last: Some(last),
                call,
            }),
        }
    }

    /// A unary operator and its operand (11.4).
    pub fn unary(alloc: Global, at: u32, op: UnOp, arg: Expr) -> Result<Expr, NoMemory>
        ensures { IfOk result (λ e. expr_tree e ≡ tree.unary at op (expr_tree arg)) }
    {
        match boxed(alloc, arg) {
            None => Err(NoMemory),
            Some(arg) => Ok(Expr::Unary { at, op, arg }),
        }
    }

    /// A binary operator and its operands (11.4).
    pub fn binary(
        alloc: Global,
        at: u32,
        op: BinOp,
        left: Expr,
        right: Expr,
    ) -> Result<Expr, NoMemory>
        ensures { IfOk result (λ e. expr_tree e ≡ tree.binary at op (expr_tree left) (expr_tree right)) }
    {
        match boxed_pair(alloc, left, right) {
            None => Err(NoMemory),
            Some((left, right)) => Ok(Expr::Binary {
                at,
                op,
                left,
                right,
            }),
        }
    }

    /// The conditional operator (11.4.11).
    pub fn choice(alloc: Global, at: u32, test: Expr, yes: Expr, no: Expr) -> Result<Expr, NoMemory>
        ensures { IfOk result (λ e. expr_tree e ≡ tree.choice at (expr_tree test) (expr_tree yes) (expr_tree no)) }
    {
        match boxed_three(alloc, test, yes, no) {
            None => Err(NoMemory),
            Some(((test, yes), no)) => Ok(Expr::Choice { at, test, yes, no }),
        }
    }

    /// Set membership (11.4.13).
    pub fn inside(alloc: Global, at: u32, left: Expr, set: Items<Range>) -> Result<Expr, NoMemory>
        ensures { IfOk result (λ e. expr_tree e ≡ tree.inside at (expr_tree left) (range_trees set)) }
    {
        match boxed(alloc, left).zip(Some(set)) {
            None => Err(NoMemory),
            Some((left, set)) => Ok(Expr::Inside { at, left, set }),
        }
    }

    /// A concatenation (11.4.12).
    pub fn join(at: u32, parts: Items<Expr>) -> Expr
        ensures { expr_tree result ≡ tree.join at (expr_trees parts) }
    {
        Expr::Join { at, parts }
    }

    /// A replication (11.4.12.1).
    pub fn copies(alloc: Global, at: u32, count: Expr, parts: Items<Expr>) -> Result<Expr, NoMemory>
        ensures { IfOk result (λ e. expr_tree e ≡ tree.copies at (expr_tree count) (expr_trees parts)) }
    {
        match boxed(alloc, count).zip(Some(parts)) {
            None => Err(NoMemory),
            Some((count, parts)) => Ok(Expr::Copies { at, count, parts }),
        }
    }

    /// `$signed` or `$unsigned` (11.7).
    pub fn sign(alloc: Global, at: u32, signed: bool, arg: Expr) -> Result<Expr, NoMemory>
        ensures { IfOk result (λ e. expr_tree e ≡ tree.sign at signed (expr_tree arg)) }
    {
        match boxed(alloc, arg) {
            None => Err(NoMemory),
            Some(arg) => Ok(Expr::Sign { at, signed, arg }),
        }
    }

    /// An expression in parentheses.
    pub fn paren(alloc: Global, at: u32, arg: Expr) -> Result<Expr, NoMemory>
        ensures { IfOk result (λ e. expr_tree e ≡ tree.paren at (expr_tree arg)) }
    {
        match boxed(alloc, arg) {
            None => Err(NoMemory),
            Some(arg) => Ok(Expr::Paren { at, arg }),
        }
    }

    /// A reduction method of an array, with its `with` clause (7.12.3).
    pub fn reduce(
        alloc: Global,
        at: u32,
        array: Expr,
        op: Fold,
        item: IteratorArgument,
        body: Expr,
    ) -> Result<Expr, NoMemory>
        ensures { IfOk result (λ e. expr_tree e ≡ tree.reduce at (expr_tree array) op item (expr_tree body)) }
    {
        match boxed_pair(alloc, array, body) {
            None => Err(NoMemory),
            Some((array, body)) => Ok(Expr::Reduce {
                at,
                array,
                op,
                item,
                body,
            }),
        }
    }
}

impl Range {
    /// One value of a set.
    pub fn one(value: Expr) -> Range
        ensures { range_tree result ≡ tree.one (expr_tree value) }
    {
        Range::One(value)
    }

    /// A range of values between two bounds.
    pub fn span(low: Bound, high: Bound) -> Range
        ensures { range_tree result ≡ tree.span (bound_tree low) (bound_tree high) }
    {
        Range::Span(low, high)
    }
}

impl Bound {
    /// A bound that is an expression.
    pub fn value(value: Expr) -> Bound
        ensures { bound_tree result ≡ tree.value (expr_tree value) }
    {
        Bound::Value(value)
    }

    /// The bound `$`: the least or the greatest value.
    pub fn dollar() -> Bound
        ensures { bound_tree result ≡ tree.dollar }
    {
        Bound::Dollar
    }
}
