//! The tests of runs: whole scripts as texts with what their calls print, the order of cyclic values, and the printed proofs, which are read back and judged by the checker of derivations.
//!
//! They stand apart, over elaboration and the run, so that each layer is proved once.
#![tactic(auto)]

#[cfg(test)]
mod calls;
#[cfg(test)]
mod cyclic;
#[cfg(test)]
mod generated;
#[cfg(test)]
mod held;
#[cfg(test)]
mod printed;
#[cfg(test)]
mod reading;
#[cfg(test)]
mod repeated;
#[cfg(test)]
mod running;
