// Types, classes and variables (IEEE 1800-2017, A.1.9, A.1.10 and A.2).

use crate::expr::Expr;
use crate::item::Item;
use sqlite_items::Items;
use svr_operator::Rand;

/// IEEE 1800-2017, A.2.2.1: `integer_vector_type`
#[derive(Clone, Copy)]
pub enum VectorKind {
    Bit,
    Logic,
    Reg,
}

/// IEEE 1800-2017, A.2.2.1: `integer_atom_type`
#[derive(Clone, Copy)]
pub enum AtomKind {
    Byte,
    ShortInt,
    Int,
    LongInt,
    Integer,
}

/// IEEE 1800-2017, A.2.2.1: `signing`
#[derive(Clone, Copy)]
pub enum Signing {
    Signed,
    Unsigned,
}

/// `[msb:lsb]` (IEEE 1800-2017, A.2.5: `packed_dimension`). `at` is the token `[`.
#[derive(Drop)]
pub struct PackedRange {
    pub at: u32,
    pub msb: Expr,
    pub lsb: Expr,
}

/// IEEE 1800-2017, A.2.2.1: `integer_type`
#[derive(Drop)]
pub enum IntegerType {
    Vector {
        at: u32,
        kind: VectorKind,
        signing: Option<Signing>,
        range: Option<PackedRange>,
    },
    Atom {
        at: u32,
        kind: AtomKind,
        signing: Option<Signing>,
    },
}

/// A type that is written out, or the name of a type or class.
#[derive(Drop)]
pub enum DataType {
    Integer(IntegerType),
    Named(u32),
}

/// `name [= value]` (IEEE 1800-2017, A.2.2.1: `enum_name_declaration`)
#[derive(Drop)]
pub struct MemberDecl {
    pub name: u32,
    pub value: Option<Expr>,
}

/// `enum [base] { members }`
#[derive(Drop)]
pub struct EnumDecl {
    pub base: Option<IntegerType>,
    pub members: Items<MemberDecl>,
}

/// What a `typedef` names.
#[derive(Drop)]
pub enum TypeDefinition {
    Enum(EnumDecl),
    Integer(IntegerType),
}

/// `typedef definition name;` (IEEE 1800-2017, A.2.1.3: `type_declaration`)
#[derive(Drop)]
pub struct TypeDecl {
    pub definition: TypeDefinition,
    pub name: u32,
}

/// An unpacked dimension (IEEE 1800-2017, A.2.5).
#[derive(Drop)]
pub enum Dimension {
    /// `[]`, a dynamic array
    Dynamic,
    /// `[$]`
    Queue,
    /// `[size]`
    Size(Expr),
    /// `[first:last]`
    Bounds(Expr, Expr),
}

/// `name dims [= value]`, with two dimensions at most (IEEE 1800-2017, A.2.4: `variable_decl_assignment`)
#[derive(Drop)]
pub struct Declarator {
    pub name: u32,
    pub dims: Items<Dimension>,
    pub value: Option<Expr>,
}

/// `[rand|randc] kind decls;` (IEEE 1800-2017, A.1.9: `class_property`)
#[derive(Drop)]
pub struct PropertyDecl {
    pub rand: Rand,
    pub kind: DataType,
    pub decls: Items<Declarator>,
}

/// `constraint name { items }` (IEEE 1800-2017, A.1.10: `constraint_declaration`)
#[derive(Drop)]
pub struct ConstraintBlock {
    pub name: u32,
    pub items: Items<Item>,
}

/// IEEE 1800-2017, A.1.9: `class_item`
#[derive(Drop)]
pub enum ClassItem {
    Property(PropertyDecl),
    Constraint(ConstraintBlock),
}

/// `class name [extends base]; items endclass [: label]` (IEEE 1800-2017, A.1.2: `class_declaration`)
#[derive(Drop)]
pub struct ClassDecl {
    pub name: u32,
    pub base: Option<u32>,
    pub items: Items<ClassItem>,
    pub label: Option<u32>,
}

/// What a variable starts with: a value, or `new`, `parens` with `()` behind it.
#[derive(Drop)]
pub enum VarInit {
    Value(Expr),
    New { parens: bool },
}

/// `name [= init]`
#[derive(Drop)]
pub struct VarDeclarator {
    pub name: u32,
    pub init: Option<VarInit>,
}

/// `kind vars;` (IEEE 1800-2017, A.2.1.3: `data_declaration`)
#[derive(Drop)]
pub struct VarDecl {
    pub kind: DataType,
    pub vars: Items<VarDeclarator>,
}
