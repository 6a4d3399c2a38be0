// The methods that reduce an array.

/// An array reduction method (IEEE 1800-2017, 7.12.3).
#[derive(Clone, Copy, PartialEq, Eq)]
pub enum Fold {
    /// `sum`, which begins with 0
    Sum,
    /// `product`, which begins with 1
    Product,
    /// `and`, which begins with all ones
    And,
    /// `or`, which begins with 0
    Or,
    /// `xor`, which begins with 0
    Xor,
}
