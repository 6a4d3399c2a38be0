// The value of a cyclic property.

/// The value that a call chose for a cyclic random property, and whether a new cycle begins with it (IEEE 1800-2017, 18.4.2).
#[derive(Clone, Copy, PartialEq, Eq)]
pub struct Choice {
    pub prop: u32,
    pub value: u64,
    pub cycle: bool,
}
