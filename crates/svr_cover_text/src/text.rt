// Cover groups as they are written. All numbers are those of tokens.

use sqlite_items::Items;

/// `[ "-" ] digits`
#[derive(Clone, Copy)]
pub struct NumText {
    pub negative: bool,
    pub digits: u32,
}

/// A number, or `[ low : high ]`, with the first token of either.
#[derive(Clone, Copy)]
pub struct RangeText {
    pub at: u32,
    pub low: NumText,
    pub high: Option<NumText>,
}

/// `bins name = { ranges } ;`, where `each` tells of `[]` behind the name (IEEE 1800-2017, 19.5.1).
#[derive(Drop)]
pub struct BinsText {
    pub name: u32,
    pub each: bool,
    pub ranges: Items<RangeText>,
}

/// A part of a group.
#[derive(Drop)]
pub enum PartText {
    /// `name : coverpoint formal . prop { bins }` (IEEE 1800-2017, 19.5)
    Point {
        name: u32,
        formal: u32,
        prop: u32,
        bins: Items<BinsText>,
    },
    /// `name : cross points ;` (IEEE 1800-2017, 19.6)
    Cross {
        name: u32,
        points: Items<u32>,
    },
}

/// `covergroup name with function sample ( class formal ) ; parts endgroup` (IEEE 1800-2017, 19.3 and 19.8.1)
#[derive(Drop)]
pub struct GroupText {
    pub name: u32,
    pub class: u32,
    pub formal: u32,
    pub parts: Items<PartText>,
}

/// The groups at the beginning of a text, and how many tokens they take.
#[derive(Drop)]
pub struct GroupsText {
    pub list: Items<GroupText>,
    pub used: u32,
}
