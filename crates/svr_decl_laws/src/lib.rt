//! Laws of the productions of types, typedefs, classes and variables: what is read is a declaration that spells the tokens; a declaration that spells the tokens is read; where a reading fails, what was read so far can be completed; more room for height keeps what was read.
#![tactic(auto)]
