//! Why a call of the engine is refused (`EngineError`).
#![tactic(auto)]

pub use raft_state;

pub mod error;

pub use error::EngineError;
