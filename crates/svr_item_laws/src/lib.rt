//! Laws of the productions of constraint items: what is read is an item that spells the tokens, and no `else` follows that it could take; an item that spells the tokens is read; where a reading fails, what was read so far can be completed; more room for height keeps what was read.
#![tactic(auto)]
