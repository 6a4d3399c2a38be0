// What a run is asked with.

/// The options of a run: the seed of the words of its calls; how many steps a question may take, 1 to 16,777,216; the greatest size that a call chooses, 1 to 2,048; and whether the proofs of answers are printed.
#[derive(Clone, Copy, PartialEq, Eq)]
pub struct Options {
    pub seed: u64,
    pub budget: u64,
    pub size_cap: u32,
    pub proofs: bool,
}
