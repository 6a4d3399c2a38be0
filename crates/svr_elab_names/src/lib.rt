//! What names stand for (IEEE 1800-2017, clauses 3.13 and 23.9).
//!
//! Names compare by their bytes. `NameSpace` is what can be named at one place of a script; contracts see it by `space_of` of `specs/Tables.antt`, and `look` is what `specs/Names.antt` says of it. Its tables are hash tables whose keys are slices of the source.
#![tactic(auto)]

mod inside;
mod look;
mod meaning;
mod space;

pub use meaning::{Dims, Found, Meaning, Property, Vector};
pub use space::{ClassNames, Global, LoopName, NameSpace, PropEntry, Region, VarStand};
