// Statements and the whole script (IEEE 1800-2017, clauses 10, 12 and 18).

ghost use Rattle.std.specs.Prelude.{◌≡◌, IfOk, option_map};
ghost use Rattle.svr_typed.specs.ExprTerm.{expr_term, expr_terms};
ghost use Rattle.svr_typed.specs.ItemTerm.{item_terms};
ghost use Rattle.svr_typed.specs.ClassTerm.{class_terms};
ghost use Rattle.svr_typed.specs.StmtTerm as term;
ghost use Rattle.svr_typed.specs.StmtTerm.{stmt_term, stmt_terms, call_term, design_term};

use crate::class::{EnumType, NumType, TClass};
use crate::expr::TExpr;
use crate::item::TItem;
use crate::memory::{NoMemory, boxed};
use crate::text::Text;
use sqlite_items::{Boxed, Items};
use std::alloc::Global;

/// What the parentheses of a `randomize` call hold (IEEE 1800-2017, 18.6 and 18.11): nothing, `null`, or the numbers of properties.
#[derive(Drop)]
pub enum CallList {
    All,
    Null,
    Listed(Items<u32>),
}

/// A call of `randomize` on an object variable, with its in-line set (IEEE 1800-2017, 18.7). `result` is the script variable that takes its answer.
#[derive(Drop)]
pub struct CallStmt {
    pub object: u32,
    pub list: CallList,
    pub with: Items<TItem>,
    pub result: Option<u32>,
}

/// The type of a script variable: an integral type, or a class by its number.
#[derive(Clone, Copy)]
pub enum VarKind {
    Number(NumType),
    Object(u32),
}

/// A script variable.
#[derive(Drop)]
pub struct TVar {
    pub name: Text,
    pub kind: VarKind,
}

/// A statement. Object variables and other script variables are named by their places among the variables, properties and blocks by their places in the flat class of the object variable.
#[derive(Drop)]
pub enum TStmt {
    /// `new` (IEEE 1800-2017, 8.7)
    Make(u32),
    /// An assignment to a script variable.
    SetVar(u32, TExpr),
    /// An assignment to a property, or to an element of an array.
    SetProp {
        object: u32,
        prop: u32,
        index: Option<TExpr>,
        value: TExpr,
    },
    /// `new[n]` (IEEE 1800-2017, 7.5.1)
    Resize {
        object: u32,
        prop: u32,
        n: u32,
    },
    /// An assignment pattern (IEEE 1800-2017, 10.9.1).
    Pattern {
        object: u32,
        prop: u32,
        values: Items<TExpr>,
    },
    /// `rand_mode` (IEEE 1800-2017, 18.8) of one property, or of all.
    RandMode {
        object: u32,
        prop: Option<u32>,
        on: TExpr,
    },
    /// `constraint_mode` (IEEE 1800-2017, 18.9) of one block, or of all.
    ConstraintMode {
        object: u32,
        block: Option<u32>,
        on: TExpr,
    },
    Call(CallStmt),
    /// `repeat` (IEEE 1800-2017, 12.7.3), with its count.
    Repeat(u32, Boxed<TStmt>),
    /// `begin .. end` (IEEE 1800-2017, 9.3.1)
    List(Items<TStmt>),
}

/// A script after elaboration.
#[derive(Drop)]
pub struct Design {
    pub enums: Items<EnumType>,
    pub classes: Items<TClass>,
    pub vars: Items<TVar>,
    pub stmts: Items<TStmt>,
}

impl CallStmt {
    /// A call of `randomize` with its list, its in-line set and the variable that takes its answer.
    pub fn new(object: u32, list: CallList, with: Items<TItem>, answer: Option<u32>) -> CallStmt
        ensures { call_term result ≡ record { object = object; list = list; items = item_terms with; answer = answer } }
    {
        CallStmt {
            object,
            list,
            with,
            result: answer,
        }
    }
}

impl TStmt {
    /// `new` for an object variable.
    pub fn make(object: u32) -> TStmt
        ensures { stmt_term result ≡ term.make object }
    {
        TStmt::Make(object)
    }

    /// An assignment to a script variable.
    pub fn set_var(var: u32, value: TExpr) -> TStmt
        ensures { stmt_term result ≡ term.set_var var (expr_term value) }
    {
        TStmt::SetVar(var, value)
    }

    /// An assignment to a property, or to an element of one.
    pub fn set_prop(object: u32, prop: u32, index: Option<TExpr>, value: TExpr) -> TStmt
        ensures { stmt_term result ≡ term.set_prop object prop (option_map expr_term index) (expr_term value) }
    {
        TStmt::SetProp {
            object,
            prop,
            index,
            value,
        }
    }

    /// `new[..]` for a dynamic array.
    pub fn resize(object: u32, prop: u32, n: u32) -> TStmt
        ensures { stmt_term result ≡ term.resize object prop n }
    {
        TStmt::Resize { object, prop, n }
    }

    /// An assignment of all elements.
    pub fn pattern(object: u32, prop: u32, values: Items<TExpr>) -> TStmt
        ensures { stmt_term result ≡ term.pattern object prop (expr_terms values) }
    {
        TStmt::Pattern {
            object,
            prop,
            values,
        }
    }

    /// The mode of a property, or of all.
    pub fn rand_mode(object: u32, prop: Option<u32>, on: TExpr) -> TStmt
        ensures { stmt_term result ≡ term.rand_mode object prop (expr_term on) }
    {
        TStmt::RandMode { object, prop, on }
    }

    /// The mode of a block, or of all.
    pub fn constraint_mode(object: u32, block: Option<u32>, on: TExpr) -> TStmt
        ensures { stmt_term result ≡ term.constraint_mode object block (expr_term on) }
    {
        TStmt::ConstraintMode { object, block, on }
    }

    /// A call of `randomize`.
    pub fn call(call: CallStmt) -> TStmt
        ensures { stmt_term result ≡ term.call (call_term call) }
    {
        TStmt::Call(call)
    }

    /// A statement that runs so many times.
    pub fn repeat(alloc: Global, count: u32, body: TStmt) -> Result<TStmt, NoMemory>
        ensures { IfOk result (λ s. stmt_term s ≡ term.repeat count (stmt_term body)) }
    {
        match boxed(alloc, body) {
            None => Err(NoMemory),
            Some(body) => Ok(TStmt::Repeat(count, body)),
        }
    }

    /// Statements that run one after the other.
    pub fn list(stmts: Items<TStmt>) -> TStmt
        ensures { stmt_term result ≡ term.list (stmt_terms stmts) }
    {
        TStmt::List(stmts)
    }
}

impl Design {
    /// A script of these declarations and statements.
    pub fn new(
        enums: Items<EnumType>,
        classes: Items<TClass>,
        vars: Items<TVar>,
        stmts: Items<TStmt>,
    ) -> Design
        ensures { design_term result ≡ record { enums = enums; classes = class_terms classes; vars = vars; stmts = stmt_terms stmts } }
    {
        Design {
            enums,
            classes,
            vars,
            stmts,
        }
    }
}
