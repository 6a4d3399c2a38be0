//! The tests of trees and of the readers of expressions, items, declarations and statements: short texts, with the shapes of their trees, their heights and their faults.
//!
//! They stand apart, so that the readers are proved once.
#![tactic(auto)]

#[cfg(test)]
mod declarations;
#[cfg(test)]
mod expressions;
#[cfg(test)]
mod items;
#[cfg(test)]
mod statements;
#[cfg(test)]
mod text;
#[cfg(test)]
mod trees;
#[cfg(test)]
mod wanted;
