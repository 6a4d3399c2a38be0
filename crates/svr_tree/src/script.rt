// The whole script (IEEE 1800-2017, A.1.2).

use crate::decl::{ClassDecl, TypeDecl, VarDecl};
use crate::stmt::Stmt;
use sqlite_items::Items;

/// One of the declarations before the unit: the next type, or the next class.
#[derive(Clone, Copy)]
pub enum Top {
    OfType,
    OfClass,
}

#[derive(Clone, Copy)]
pub enum UnitKind {
    Module,
    Program,
}

/// `module name[()]; outer initial begin inner stmts end endmodule [: label]`, or a program in the same way. `parens`: with `()` behind the name.
#[derive(Drop)]
pub struct UnitDecl {
    pub kind: UnitKind,
    pub name: u32,
    pub parens: bool,
    pub outer: Items<VarDecl>,
    pub inner: Items<VarDecl>,
    pub stmts: Items<Stmt>,
    pub label: Option<u32>,
}

/// A script. `order` has one entry for each type and class, in the order of the text.
#[derive(Drop)]
pub struct Script {
    pub types: Items<TypeDecl>,
    pub classes: Items<ClassDecl>,
    pub order: Items<Top>,
    pub unit: UnitDecl,
}
