//! What can't be said of simulations by the cases of `test_schedules`: their limits, their streams, and their parts.
//!
//! They stand here, and not in the crate that they test, since a crate with tests is proved twice.
#![tactic(auto)]

#[cfg(test)]
mod simulation;
#[cfg(test)]
mod streams;
