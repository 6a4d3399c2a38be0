// What a question of the phase is over.

/// The items over which sizes are asked for.
#[derive(Clone, Copy, PartialEq, Eq)]
pub(crate) enum Scope {
    /// The hard items within the cap, and the live soft ones.
    Wished,
    /// The hard items within the cap alone.
    Capped,
    /// The hard items alone.
    Uncapped,
}
