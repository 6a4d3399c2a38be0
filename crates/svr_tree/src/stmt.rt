// Statements (IEEE 1800-2017, A.6 and A.8.2).

ghost use Rattle.std.specs.Prelude.{◌≡◌, IfOk, option_map};
ghost use Rattle.svr_tree.specs.ExprTree.{expr_tree};
ghost use Rattle.svr_tree.specs.StmtTree as tree;
ghost use Rattle.svr_tree.specs.StmtTree.{stmt_tree, stmt_trees, right_tree, randomize_tree, mode_tree};

use crate::expr::Expr;
use crate::item::Item;
use crate::memory::{NoMemory, boxed};
use sqlite_items::{Boxed, Items};
use std::alloc::Global;

/// What the parentheses of a call hold (IEEE 1800-2017, 18.6 and 18.11).
#[derive(Drop)]
pub enum RandomizeArgs {
    Empty,
    Null,
    Names(Items<u32>),
}

/// `path.randomize(args) [with { items }]` (IEEE 1800-2017, A.8.2: `randomize_call`)
#[derive(Drop)]
pub struct RandomizeCall {
    pub path: Expr,
    pub args: RandomizeArgs,
    pub with: Option<Items<Item>>,
}

#[derive(Clone, Copy)]
pub enum ModeKind {
    /// `rand_mode` (IEEE 1800-2017, 18.8)
    Rand,
    /// `constraint_mode` (IEEE 1800-2017, 18.9)
    Constraint,
}

/// `path.rand_mode(on)` or `path.constraint_mode(on)`
#[derive(Drop)]
pub struct ModeCall {
    pub path: Expr,
    pub kind: ModeKind,
    pub on: Expr,
}

/// The right side of an assignment.
#[derive(Drop)]
pub enum RightSide {
    Value(Expr),
    /// `new`, `parens` with `()` behind it (IEEE 1800-2017, 8.7)
    New { parens: bool },
    /// `new[count]` (IEEE 1800-2017, 7.5.1)
    NewArray(Expr),
    /// `'{ values }` (IEEE 1800-2017, 10.9.1)
    Pattern { at: u32, values: Items<Expr> },
    Call(RandomizeCall),
}

/// How a call of `randomize` stands as a statement.
#[derive(Clone, Copy)]
pub enum CallForm {
    /// `call;`
    Plain,
    /// `void'(call);`
    Void,
    /// `assert (call);`
    Assert,
}

/// A statement.
#[derive(Drop)]
pub enum Stmt {
    /// `;`
    Empty {
        at: u32,
    },
    /// `begin stmts end`
    Block {
        at: u32,
        stmts: Items<Stmt>,
    },
    /// `repeat (count) body`
    Repeat {
        at: u32,
        count: Expr,
        body: Boxed<Stmt>,
    },
    /// `target = value;`
    Assign {
        at: u32,
        target: Expr,
        value: RightSide,
    },
    Call {
        at: u32,
        form: CallForm,
        call: RandomizeCall,
    },
    /// `mode;`
    Mode {
        at: u32,
        mode: ModeCall,
    },
}

impl Stmt {
    /// A lone semicolon.
    pub fn empty(at: u32) -> Stmt
        ensures { stmt_tree result ≡ tree.empty at }
    {
        Stmt::Empty { at }
    }

    /// `begin .. end` (9.3.1).
    pub fn block(at: u32, stmts: Items<Stmt>) -> Stmt
        ensures { stmt_tree result ≡ tree.block at (stmt_trees stmts) }
    {
        Stmt::Block { at, stmts }
    }

    /// A `repeat` loop (12.7.3).
    pub fn repeat(alloc: Global, at: u32, count: Expr, body: Stmt) -> Result<Stmt, NoMemory>
        ensures { IfOk result (λ s. stmt_tree s ≡ tree.repeat at (expr_tree count) (stmt_tree body)) }
    {
        match boxed(alloc, body).zip(Some(count)) {
            None => Err(NoMemory),
            Some((body, count)) => Ok(Stmt::Repeat { at, count, body }),
        }
    }

    /// An assignment (10.4).
    pub fn assign(at: u32, target: Expr, value: RightSide) -> Stmt
        ensures { stmt_tree result ≡ tree.assign at (expr_tree target) (right_tree value) }
    {
        Stmt::Assign { at, target, value }
    }

    /// A call of `randomize` (18.6, 18.7).
    pub fn call(at: u32, form: CallForm, call: RandomizeCall) -> Stmt
        ensures { stmt_tree result ≡ tree.call at form (randomize_tree call) }
    {
        Stmt::Call { at, form, call }
    }

    /// A call of `rand_mode` or `constraint_mode` (18.8, 18.9).
    pub fn mode(at: u32, mode: ModeCall) -> Stmt
        ensures { stmt_tree result ≡ tree.mode at (mode_tree mode) }
    {
        Stmt::Mode { at, mode }
    }
}
