//! Events, their outcomes, and schedules of events as text.
#![tactic(auto)]

pub mod event;
pub mod laws;
mod print;
pub mod schedule;
pub mod step;
