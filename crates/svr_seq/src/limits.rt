// The limits of a text of `randsequence` and of a line that it prints.

/// The most productions, rules of a production, parts of a rule, acts of a code block and branches of a `randcase`.
pub const SEQUENCE_LIMIT: usize = 1024;

/// The greatest count of a `repeat`.
pub const REPEAT_LIMIT: u32 = 2048;

/// How many `randcase`s may stand inside one another.
pub const CHOICE_LIMIT: usize = 128;

/// How many units a line has. One unit is a production expanded, a `randcase` entered or a name printed.
pub const UNIT_LIMIT: u32 = 100_000;
