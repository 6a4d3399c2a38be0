// How a property is declared.

/// How a property is declared (IEEE 1800-2017, 18.4): as a state variable, a random one, or a cyclic random one.
#[derive(Clone, Copy, PartialEq, Eq)]
pub enum Rand {
    State,
    Rand,
    Randc,
}
