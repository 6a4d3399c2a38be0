// What is printed for words that ask for nothing.

/// One line for each command.
pub const USAGE: &[u8] =
    b"usage: svrand run [--seed N] [--budget N] [--size-cap N] [--proofs] [--conflicts] [--lrat]\n       svrand load N [--seed N] [--budget N] [--size-cap N] [--proofs]\n       svrand check\n       svrand cover [--seed N] [--budget N] [--size-cap N] [--proofs]\n       svrand seq [--seed N] [--count N]\n";
