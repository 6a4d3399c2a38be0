// Texts of `randsequence` as they are written.

use sqlite_items::Items;

/// A piece of a code block, in the order of the text: what is printed, and where a choice and its branches begin and end. All numbers are those of tokens.
#[derive(Clone, Copy)]
pub enum ActText {
    /// `NAME ;`
    Print(u32),
    /// `randcase` (IEEE 1800-2017, 18.16). Its branches stand behind it.
    Choose(u32),
    /// The weight of a branch and `:`. What it does stands behind it.
    Branch(u32),
    /// `endcase`
    End,
}

/// A part of a rule.
#[derive(Drop)]
pub enum PartText {
    /// A production.
    Name(u32),
    /// `repeat ( count ) name` (IEEE 1800-2017, 18.17.4)
    Repeat { at: u32, count: u32, name: u32 },
    /// `{ acts }`
    Block { at: u32, acts: Items<ActText> },
}

/// The parts of a rule, and its weight where `:=` stands behind them (IEEE 1800-2017, 18.17.1).
#[derive(Drop)]
pub struct RuleText {
    pub parts: Items<PartText>,
    pub weight: Option<u32>,
}

/// A production: its name, and its rules with `|` between them.
#[derive(Drop)]
pub struct ProdText {
    pub name: u32,
    pub rules: Items<RuleText>,
}

/// A text of `randsequence`: the name of the production that it starts with, if it has one, and its productions.
#[derive(Drop)]
pub struct SeqText {
    pub start: Option<u32>,
    pub prods: Items<ProdText>,
}
