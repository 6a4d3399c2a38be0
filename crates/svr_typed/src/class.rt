// Types, properties and classes (IEEE 1800-2017, clauses 6 to 8 and 18).

ghost use Rattle.std.specs.Prelude.{◌≡◌};
ghost use Rattle.svr_typed.specs.ItemTerm.{item_terms};
ghost use Rattle.svr_typed.specs.ClassTerm.{block_term, block_terms, flat_term, class_term};

use crate::item::TItem;
use crate::text::Text;
use sqlite_items::Items;
use svr_operator::Rand;

/// An integral type (IEEE 1800-2017, 6.11): its width in bits, from 1 to 64, and its sign. `members` is the number of the enum whose members its values are.
#[derive(Clone, Copy, PartialEq, Eq)]
pub struct NumType {
    pub width: u8,
    pub signed: bool,
    pub members: Option<u32>,
}

/// Whether a property is an array (IEEE 1800-2017, clause 7). A dynamic one is a dynamic array or a queue.
#[derive(Clone, Copy, PartialEq, Eq)]
pub enum ArrayKind {
    Scalar,
    /// A fixed array of this many elements, over all its dimensions.
    Fixed(u32),
    Dynamic,
}

/// A property of a class. `kind` is its type, or that of its elements; `first` is its initial value, as stored bits; `low` is the lowest bit number of its declared range, 0 where it has none. `can` is true where it can be random: it is declared so, or an object's mode makes it so. `inner` is the second dimension of a fixed array that has two, else 1.
#[derive(Drop)]
pub struct Prop {
    pub name: Text,
    pub kind: NumType,
    pub rand: Rand,
    pub array: ArrayKind,
    pub first: u64,
    pub low: i64,
    pub can: bool,
    pub inner: u32,
}

/// A constraint block (IEEE 1800-2017, 18.5).
#[derive(Drop)]
pub struct TBlock {
    pub name: Text,
    pub items: Items<TItem>,
}

/// The properties and blocks of a class together with the inherited ones, in flat order (IEEE 1800-2017, 18.5.2).
#[derive(Drop)]
pub struct FlatClass {
    pub props: Items<Prop>,
    pub blocks: Items<TBlock>,
}

/// A member of an enum and its value, as stored bits (IEEE 1800-2017, 6.19).
#[derive(Drop)]
pub struct EnumMember {
    pub name: Text,
    pub value: u64,
}

/// An enum (IEEE 1800-2017, 6.19), with its members in declaration order.
#[derive(Drop)]
pub struct EnumType {
    pub base: NumType,
    pub members: Items<EnumMember>,
}

/// A class with its own properties and blocks (IEEE 1800-2017, clause 8). `base` is the number of the class that it extends.
#[derive(Drop)]
pub struct TClass {
    pub name: Text,
    pub base: Option<u32>,
    pub props: Items<Prop>,
    pub blocks: Items<TBlock>,
}

impl TBlock {
    /// A block of this name.
    pub fn new(name: Text, items: Items<TItem>) -> TBlock
        ensures { block_term result ≡ record { name = name; items = item_terms items } }
    {
        TBlock { name, items }
    }
}

impl FlatClass {
    /// A class of these properties and blocks.
    pub fn new(props: Items<Prop>, blocks: Items<TBlock>) -> FlatClass
        ensures { flat_term result ≡ record { props = props; blocks = block_terms blocks } }
    {
        FlatClass { props, blocks }
    }
}

impl TClass {
    /// A class of this name with what it declares itself.
    pub fn new(name: Text, base: Option<u32>, props: Items<Prop>, blocks: Items<TBlock>) -> TClass
        ensures { class_term result ≡ record { name = name; base = base; props = props; blocks = block_terms blocks } }
    {
        TClass {
            name,
            base,
            props,
            blocks,
        }
    }
}
