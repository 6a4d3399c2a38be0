//! Laws of the productions of statements: what is read is a statement that spells the tokens; a statement that spells the tokens is read; where a reading fails, what was read so far can be completed; more room for height keeps what was read.
#![tactic(auto)]
