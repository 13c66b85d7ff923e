//! A running engine is what its store says, over stops and starts too: definitions and proofs, on a function that does
//! nothing.
#![tactic(auto)]

pub mod laws;
