//! The kinds of shifts.

/// Which way a shift goes, and what it fills with (11.4.10).
#[derive(Clone, Copy, PartialEq, Eq)]
pub enum ShiftKind {
    /// Up, filled with zeros: `<<` and `<<<`.
    Left,
    /// Down, filled with zeros: `>>`, and `>>>` where the result is unsigned.
    Right,
    /// Down, filled with copies of the sign bit: `>>>` where the result is signed.
    Signed,
}
