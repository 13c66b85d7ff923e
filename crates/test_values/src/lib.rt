//! What the cases of `test_engine` can't say of values: quorum sets of another type, and the end of numbers.
#![tactic(auto)]

#[cfg(test)]
mod queue;
#[cfg(test)]
mod quorums;
