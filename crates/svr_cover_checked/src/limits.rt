// The limits of cover groups.

/// The most groups.
pub const MOST_GROUPS: usize = 64;

/// The most points and crosses of a group.
pub const MOST_PARTS: usize = 64;

/// The most bins of a point.
pub const MOST_BINS: u64 = 1024;

/// The most tuples of a cross.
pub const MOST_TUPLES: u64 = 65_536;

/// The most tuples of all crosses together.
pub const MOST_ALL: u64 = 1_048_576;
