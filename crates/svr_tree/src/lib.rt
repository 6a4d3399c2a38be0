//! Trees of a script as it is written (IEEE 1800-2017, Annex A), and what it means that a tree reads a list of tokens.
//!
//! A field `at` is the number of the first token of its node, and a name is the number of its token, both counted from 0. Contracts see a tree as plain data: `specs/ExprTree.antt`, `ItemTree.antt`, `DeclTree.antt`, `StmtTree.antt` and `ScriptTree.antt` have the data and the fold from the tree to it.
#![tactic(auto)]

mod decl;
pub mod examples;
mod expr;
mod item;
pub mod level;
mod memory;
mod script;
mod stmt;

pub use decl::{
    AtomKind, ClassDecl, ClassItem, ConstraintBlock, DataType, Declarator, Dimension, EnumDecl,
    IntegerType, MemberDecl, PackedRange, PropertyDecl, Signing, TypeDecl, TypeDefinition, VarDecl,
    VarDeclarator, VarInit, VectorKind,
};
pub use expr::{Bound, Expr, IteratorArgument, Range, Scope};
pub use item::{Dist, DistItem, Item, Set};
pub use memory::NoMemory;
pub use script::{Script, Top, UnitDecl, UnitKind};
pub use stmt::{CallForm, ModeCall, ModeKind, RandomizeArgs, RandomizeCall, RightSide, Stmt};
pub use svr_token::{Kind, Lexeme, Mark, NameKind, SystemName, Token, Word};
