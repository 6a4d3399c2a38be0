// What is said of a file.

/// Why a line is rejected. Each reason is tested in this order: `Order` for the line, the next three at each hint in turn, `Short` behind the last hint.
#[derive(Clone, Copy, PartialEq, Eq)]
pub enum LratReason {
    /// The identifier of the lemma is not greater than the number of clauses and than those of all lemmas before.
    Order,
    /// A hint is negative.
    Negative,
    /// A hint names no live clause.
    Hint,
    /// Two or more literals of a hint's clause are not false.
    TwoLeft,
    /// The hints end, and none of their clauses became false.
    Short,
    /// A deleted identifier names no live clause.
    Delete,
    /// The lines end, and neither a clause nor a lemma is empty.
    Unfinished,
}

/// What is said of a file: accepted, or the identifier of its first line at fault, which is 0 at the end of the file, and the first reason there.
#[derive(Clone, Copy, PartialEq, Eq)]
pub enum LratVerdict {
    Accepted,
    Rejected { id: u64, reason: LratReason },
}
