//! Redis' glob patterns, on bytes.
#![tactic(auto)]

mod parts;
mod patterns;

pub use patterns::matches;
