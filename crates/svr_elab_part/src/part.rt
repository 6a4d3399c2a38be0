// What is known of an expression.

use sqlite_items::Items;
use svr_elab_fault::Fault;
use svr_elab_names::Property;
use svr_typed::{TBound, TExpr, TRange};

/// The self-determined size and sign (IEEE 1800-2017, 11.6 and 11.8). Over 64 bits count as 65.
#[derive(Clone, Copy, PartialEq, Eq)]
pub struct Shape {
    pub width: u8,
    pub signed: bool,
}

/// What an expression reads.
#[derive(Clone, Copy)]
pub struct Reads {
    /// Numbers, enum members and operators alone.
    pub constant: bool,
    /// A value or an element of a property that can be random.
    pub random: bool,
    /// The size of an array that can be random.
    pub sized: bool,
    /// Anything of a cyclic random property.
    pub cyclic: bool,
}

/// How much of an array an expression stands for.
#[derive(Clone, Copy, PartialEq, Eq)]
pub enum Extent {
    /// A value, as an element is.
    Single,
    /// A row of an array of two dimensions.
    Row,
    /// The whole array.
    Whole,
}

/// What a path with brackets begins with.
#[derive(Clone, Copy, PartialEq, Eq)]
pub enum Root {
    Nothing,
    /// A path that is refused.
    Refused,
    /// An enum member.
    Member,
    /// A script variable.
    Variable(u32),
    /// A property, and its object variable in a statement.
    Field(Property, Option<u32>),
    /// An object variable, and its class.
    Object(u32, u32),
}

/// What an expression is by its form, which is what a parent may ask of it.
#[derive(Clone, Copy, PartialEq, Eq)]
pub struct Form {
    /// Its last name.
    pub name: u32,
    pub root: Root,
    pub extent: Extent,
    /// Whether it selects bits.
    pub bits: bool,
    /// The lowest bit number of what a bracket behind it selects from.
    pub low: i64,
    /// The enum of which it is a member, a variable, a property or an element.
    pub members: Option<u32>,
    /// The first token of its first array index that mentions a property that can be random.
    pub random_index: Option<u32>,
}

/// What is known of an expression.
#[derive(Drop)]
pub struct Part {
    /// The first token.
    pub at: u32,
    pub shape: Option<Shape>,
    /// The typed expression, where each part has one; of a row of an array, which is no value, that of its index.
    pub tree: Option<TExpr>,
    pub fault: Option<Fault>,
    pub reads: Reads,
    pub form: Form,
}

/// What is known of the parts of a concatenation. `total`: the sum of their widths.
#[derive(Drop)]
pub struct Parts {
    pub trees: Option<Items<TExpr>>,
    pub total: Option<u8>,
    pub fault: Option<Fault>,
    pub reads: Reads,
}

/// What is known of a member of a set.
#[derive(Drop)]
pub struct RangePart {
    pub tree: Option<TRange>,
    pub fault: Option<Fault>,
    pub reads: Reads,
}

/// What is known of the members of a set.
#[derive(Drop)]
pub struct RangesPart {
    pub trees: Option<Items<TRange>>,
    pub fault: Option<Fault>,
    pub reads: Reads,
}

/// What is known of a bound of a range.
#[derive(Drop)]
pub struct BoundPart {
    pub tree: Option<TBound>,
    pub fault: Option<Fault>,
    pub reads: Reads,
}
