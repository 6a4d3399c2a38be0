// The two forms of a weight.

/// Which values a weight of `dist` is for (IEEE 1800-2017, 18.5.4).
#[derive(Clone, Copy, PartialEq, Eq)]
pub enum Share {
    /// `:=`: each value of the range
    Each,
    /// `:/`: the range as a whole
    Whole,
}
