// What words can ask for.

use svr_phase::Options;

/// A run: its options, and what it tells beside its lines: which constraints contradict each other, and each derivation as clauses with hints (LRAT).
#[derive(Clone, Copy)]
pub struct Run {
    pub opts: Options,
    pub conflicts: bool,
    pub lrat: bool,
}

/// A load: so many classes, from 1 to 2,000, and the options of the run.
#[derive(Clone, Copy)]
pub struct Load {
    pub count: u32,
    pub opts: Options,
}

/// Lines of a `randsequence`: how many, from 1 to 100,000, and the seed of their words.
#[derive(Clone, Copy)]
pub struct Lines {
    pub seed: u64,
    pub count: u32,
}

/// What words can ask for.
#[derive(Clone, Copy)]
pub enum Request {
    /// A run of the script that is read.
    Run(Run),
    /// A run of the script of a load.
    Load(Load),
    /// A check of the derivation that is read.
    Check,
    /// Lines of the `randsequence` that is read.
    Seq(Lines),
    /// A run of the script that is read, and what the cover groups before it count.
    Cover(Options),
}
