// The productions of a `randsequence` (IEEE 1800-2017, 18.17), with each name that a part expands resolved to the place of its production.

use sqlite_items::Items;

/// A `randsequence`: its productions in the order of the text, and the place of the one that it starts with.
#[derive(Drop)]
pub struct Seq {
    pub start: u32,
    pub prods: Items<Production>,
}

/// A production (IEEE 1800-2017, 18.17): the number of the token of its name, and its rules in the written order.
#[derive(Drop)]
pub struct Production {
    pub name: u32,
    pub rules: Items<Rule>,
}

/// A rule with its weight (IEEE 1800-2017, 18.17.1), which is 1 where none is written.
#[derive(Drop)]
pub struct Rule {
    pub parts: Items<Part>,
    pub weight: u32,
}

/// A part of a rule.
#[derive(Drop)]
pub enum Part {
    /// The production at a place, expanded so many times in a row (`repeat`: IEEE 1800-2017, 18.17.4). A bare name is expanded once.
    Expand { prod: u32, times: u32 },
    /// A code block.
    Block(Items<Act>),
}

/// A statement of a code block.
#[cycle(act)]
#[derive(Drop)]
pub enum Act {
    /// `NAME ;`, by the number of the token of the name: the name is printed.
    Print(u32),
    /// `randcase` (IEEE 1800-2017, 18.16), with its branches in the written order.
    Choose(Items<Branch>),
}

/// A branch of a `randcase`, with its weight.
#[cycle(act)]
#[derive(Drop)]
pub struct Branch {
    pub weight: u32,
    pub act: Act,
}
