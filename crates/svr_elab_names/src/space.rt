// What is declared, and what of it can be named at a place.

use crate::meaning::{Property, Vector};
use indexmap::{IndexMap, IndexSet};
use std::rc::Rc;
use svr_token::Names;

/// Where an expression stands: in a typedef or a property's declaration, a constraint block, an in-line set of constraints, or a statement.
#[derive(Clone, Copy, PartialEq, Eq)]
pub enum Region {
    Declaration,
    Block,
    InLine,
    Statement,
}

/// What a global name stands for: a type, without its kind where its declaration is refused; a class by its number; an enum member with its stored bits.
#[derive(Clone, Copy, PartialEq, Eq)]
pub enum Global {
    OfType(Option<Vector>),
    OfClass(u32),
    OfMember(Option<u64>, Option<Vector>),
}

/// What a script variable is: one of numbers, or an object variable of this class.
#[derive(Clone, Copy, PartialEq, Eq)]
pub enum VarStand {
    OfNumber(Option<Vector>),
    OfObject(u32),
}

/// A property and its initial value, as stored bits.
#[derive(Clone, Copy, PartialEq, Eq)]
pub struct PropEntry {
    pub property: Property,
    pub first: u64,
}

/// A class: its properties in flat order by name, how many of them it inherits, and the names of the blocks that it declares itself. A class that declares no property has its base's table of them, and no copy.
#[derive(Drop)]
pub struct ClassNames<'a> {
    pub name: &'a [u8],
    pub base: Option<u32>,
    pub props: Rc<IndexMap<&'a [u8], PropEntry>>,
    pub inherited: usize,
    pub blocks: IndexSet<&'a [u8]>,
}

/// The name of a loop: a loop variable of `foreach`, or with `item` the element of that array in a reduction.
#[derive(Clone, Copy)]
pub struct LoopName<'a> {
    pub name: &'a [u8],
    pub item: Option<Property>,
}

/// What can be named at a place. `props` are the properties of the class that can be named plainly, `later` the names of those that are declared further down; `loops` are the loops around the place, the innermost last; `vars` are the script variables in order; `made` are the object variables that have an object.
#[derive(Clone, Copy)]
pub struct NameSpace<'s, 'a> {
    pub names: Names<'a>,
    pub region: Region,
    pub globals: &'s IndexMap<&'a [u8], Global>,
    pub classes: &'s [ClassNames<'a>],
    pub props: &'s IndexMap<&'a [u8], PropEntry>,
    pub later: &'s IndexSet<&'a [u8]>,
    pub loops: &'s [LoopName<'a>],
    pub vars: &'s IndexMap<&'a [u8], VarStand>,
    pub made: &'s IndexSet<u32>,
}
