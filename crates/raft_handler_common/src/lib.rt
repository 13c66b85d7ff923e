//! The handlers of the log, of snapshots, of roles and of new leaders, and what several calls check first or do last.
#![tactic(auto)]

pub mod commit;
pub mod establish_handler;
pub mod log_handler;
pub mod order;
pub mod refusals;
pub mod server_state_handler;
pub mod snapshot_handler;

pub use establish_handler::EstablishHandler;
pub use log_handler::LogHandler;
pub use server_state_handler::ServerStateHandler;
pub use snapshot_handler::SnapshotHandler;
