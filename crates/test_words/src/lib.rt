//! Words of case files, and texts, for the programs that write their own lines.
#![tactic(auto)]

pub mod text;
pub mod words;
