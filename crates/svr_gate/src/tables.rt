//! The tables of the operators' gates, by name.

/// The table of a gate: bit i of it is the gate's value where input j is bit j of i.
///
/// `never` and `always` have no input, `same` has one, `both`, `either` and `unequal` have two.
/// Of three inputs, `sum` and `carry` are the two bits of their sum, `choice` is input 1 where
/// input 0 holds and else input 2, and `agree` is input 0 where the other two are equal.
#[macro_export]
macro_rules! table {
    (never) => { 0x0 };
    (always) => { 0x1 };
    (same) => { 0x2 };
    (both) => { 0x8 };
    (either) => { 0xe };
    (unequal) => { 0x6 };
    (sum) => { 0x96 };
    (carry) => { 0xe8 };
    (choice) => { 0xd8 };
    (agree) => { 0x82 };
}
