//! Typed trees: what elaboration makes of a script (IEEE 1800-2017, clauses 8, 11 and 18). Names are resolved, and each expression stores its own size and sign.
//!
//! Each tree is seen by contracts as plain data: `specs/ExprTerm.antt`, `ItemTerm.antt`, `ClassTerm.antt` and `StmtTerm.antt` have the data and the fold from the tree to it.
#![tactic(auto)]

mod class;
mod expr;
mod item;
mod memory;
mod stmt;
mod text;

pub use class::{ArrayKind, EnumMember, EnumType, FlatClass, NumType, Prop, TBlock, TClass};
pub use expr::{TBound, TExpr, TNode, TRange};
pub use item::{TDistItem, TItem};
pub use memory::NoMemory;
pub use stmt::{CallList, CallStmt, Design, TStmt, TVar, VarKind};
pub use text::Text;
