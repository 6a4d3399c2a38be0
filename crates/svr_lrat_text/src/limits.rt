// The limits of a file.

/// The greatest length of a text, in bytes.
pub const MOST_TEXT: usize = 67_108_864;

/// The greatest number of variables, and of clauses.
pub const MOST_COUNT: u64 = 16_777_216;

/// The greatest identifier of a line.
pub const MOST_ID: u64 = 2_147_483_647;

/// The greatest size that a number is read with. All greater ones count as this one, which is above each limit.
pub const MOST_SIZE: u64 = 4_294_967_295;
