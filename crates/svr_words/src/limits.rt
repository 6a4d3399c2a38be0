// The greatest numbers that words of the command line may be, where they limit no script.

/// How many classes the script of a load has at most.
pub const CLASS_LIMIT: u64 = 2_000;

/// How many lines `seq` prints at most.
pub const LINE_LIMIT: u64 = 100_000;
