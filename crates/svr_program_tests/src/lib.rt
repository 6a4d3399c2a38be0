//! The tests of the program: words with what they print, scripts, refusals, long texts, loads, checks, lines of `randsequence`, coverage and hostile use, through `run` over a source and sinks in memory.
//!
//! They stand apart, over the library, so that it is proved once.
#![tactic(auto)]

#[cfg(test)]
mod asking;
#[cfg(test)]
mod checks;
#[cfg(test)]
mod commands;
#[cfg(test)]
mod coverage;
#[cfg(test)]
mod flags;
#[cfg(test)]
mod held;
#[cfg(test)]
mod hostile;
#[cfg(test)]
mod scripts;
#[cfg(test)]
mod sequences;
#[cfg(test)]
mod texts;
