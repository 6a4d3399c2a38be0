// What a path stands for.

ghost use Rattle.std.specs.Prelude.{◌≡◌};
ghost use Rattle.svr_elab_names.specs.Names as spec;

use svr_operator::{Fold, Rand};
use svr_typed::NumType;

/// An integral type, with the lowest bit number of its declared range.
#[derive(Clone, Copy, PartialEq, Eq)]
pub struct Vector {
    pub kind: NumType,
    pub low: i64,
}

/// Whether a property is an array (IEEE 1800-2017, clause 7). A dimension whose size is refused has no size.
#[derive(Clone, Copy, PartialEq, Eq)]
pub enum Dims {
    Scalar,
    /// A fixed array of this many elements.
    Fixed(Option<u32>),
    /// A fixed array of two dimensions: this many rows of this many elements.
    Rows(Option<u32>, Option<u32>),
    /// A dynamic array or a queue.
    Dynamic,
}

/// A property: its place in flat order, the class that declares it, its type where that is not refused, and whether it can be random.
#[derive(Clone, Copy, PartialEq, Eq)]
pub struct Property {
    pub number: u32,
    pub home: u32,
    pub kind: Option<Vector>,
    pub rand: Rand,
    pub random: bool,
    pub dims: Dims,
}

/// What a path stands for. `object` is the object variable whose property it is, in a statement.
#[derive(Clone, Copy)]
pub enum Meaning {
    /// Nothing, from this name on.
    Wrong {
        name: u32,
    },
    /// A loop variable, counted outwards from the innermost loop.
    LoopOf {
        level: u32,
    },
    /// The element that an array reduction reads, by the level of the reduction among the loops.
    ItemOf {
        level: u32,
        property: Property,
    },
    /// An enum member, as stored bits.
    MemberOf {
        value: Option<u64>,
        kind: Option<Vector>,
    },
    PropertyOf {
        property: Property,
        object: Option<u32>,
    },
    /// The size of an array.
    SizeOf {
        property: Property,
        object: Option<u32>,
    },
    /// The reduction of an array over its elements. `array` is the name of the array.
    FoldOf {
        property: Property,
        object: Option<u32>,
        fold: Fold,
        array: u32,
    },
    VariableOf {
        number: u32,
        kind: Option<Vector>,
    },
    ObjectOf {
        number: u32,
        class: u32,
    },
}

/// What a path stands for, and the name of an object variable in it that has no object there.
#[derive(Clone, Copy)]
pub struct Found {
    pub meaning: Meaning,
    pub unmade: Option<u32>,
}

impl Dims {
    /// Whether it is an array, of whichever kind.
    pub fn is_array(self) -> bool
        ensures { result ≡ spec.is_array self }
    {
        match self {
            Dims::Scalar => false,
            Dims::Fixed(_) | Dims::Rows(_, _) | Dims::Dynamic => true,
        }
    }
}

impl Property {
    /// What is known of a property that is declared further down, or of what is refused: nothing.
    pub fn unknown() -> Property
        ensures { result ≡ spec.unknown_property }
    {
        Property {
            number: 0,
            home: 0,
            kind: None,
            rand: Rand::State,
            random: false,
            dims: Dims::Scalar,
        }
    }
}
