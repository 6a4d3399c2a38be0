//! The tests of the texts that users read: each example, with what is stored beside it and what follows from its text whatever the seed, and the scripts, commands and refusals of the guide.
//!
//! `tools/examples.py` writes `texts.rt`, `tools/guide.py` writes `rows.rt`, and `tools/language.py` writes `language_rows.rt`.
#![tactic(auto)]

#[cfg(test)]
mod bursts;
#[cfg(test)]
mod examples;
#[cfg(test)]
mod grids;
#[cfg(test)]
mod guide;
#[cfg(test)]
mod held;
#[cfg(test)]
mod language;
#[cfg(test)]
mod language_rows;
#[cfg(test)]
mod opcodes;
#[cfg(test)]
mod packets;
#[cfg(test)]
mod prints;
#[cfg(test)]
mod rows;
#[cfg(test)]
mod running;
#[cfg(test)]
mod states;
#[cfg(test)]
mod texts;
#[cfg(test)]
mod told;
