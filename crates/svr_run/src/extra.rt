// What is printed of a run besides.

/// What is printed of a run besides its lines: behind each 0 of the hard items those that contradict each other; and proofs as hinted derivations.
#[derive(Clone, Copy)]
pub struct Extra {
    pub conflicts: bool,
    pub lrat: bool,
}
