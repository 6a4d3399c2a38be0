//! Laws of the productions of expressions: what is read is an expression that spells the tokens; an expression that spells the tokens is read; where a reading fails, what was read so far can be completed; more room for height keeps what was read.
#![tactic(auto)]
