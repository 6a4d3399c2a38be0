//! What the statements of a script other than calls do (IEEE 1800-2017, clauses 8, 10 and 18): `execute` makes `effect` of `svr_script` of the world.
//!
//! What crates above cite beside it: `Stands` (what has to hold before a statement is executed), `AreClasses` (the classes of a design), `IsNamed` (some statement of a design names an object variable), and `IsWhole` (no more objects than variables).
#![tactic(auto)]

mod classes;
mod declared;
mod effects;
mod memory;
mod mention;
mod numbered;
mod objects;
mod places;
mod values;
mod wanted;

pub use classes::Classes;
pub use declared::class_of_var;
pub use effects::execute;
