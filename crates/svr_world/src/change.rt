// What a call of `randomize` changes.

use sqlite_items::Items;

/// A property, by its place in flat order, and the list that it is to have.
#[derive(Drop)]
pub struct Replacement {
    pub prop: u32,
    pub numbers: Items<u64>,
}

/// The new numbers of the properties named in `values`, as stored bits, and the new used values of those named in `used`, in rising order (IEEE 1800-2017, 18.4.2).
#[derive(Drop)]
pub struct Change {
    pub values: Items<Replacement>,
    pub used: Items<Replacement>,
}
