// The limits of a script.

/// The greatest length of a script, in bytes.
pub const TEXT_LIMIT: usize = 4_194_304;

/// The greatest height of a script's tree, in nodes.
pub const HEIGHT_LIMIT: usize = 128;

/// The most properties of a class, with those that it inherits.
pub const PROPERTY_LIMIT: u32 = 1024;

/// The most elements of an array.
pub const ELEMENT_LIMIT: u32 = 2048;

/// The most arrays among the properties of a class, with those that it inherits.
pub const ARRAY_LIMIT: usize = 32;

/// The most members of an enum.
pub const MEMBER_LIMIT: usize = 1024;

/// How many loops stand around a place at the most, those of `foreach` and of array reductions together.
pub const LOOP_LIMIT: usize = 256;

/// The most object variables of a script, and the most other script variables.
pub const VARIABLE_LIMIT: u32 = 4096;

/// The most statements that a script runs, each as often as it runs.
pub const STATEMENT_LIMIT: u32 = 100_000;

/// The most that a phase of a call may weigh.
pub const WEIGHT_LIMIT: u128 = 1_000_000;

/// The greatest budget of a question, in learned clauses.
pub const BUDGET_LIMIT: u64 = 16_777_216;
