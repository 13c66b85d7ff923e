//! A replicated key-value service, without input and output: a Raft server, the state machine behind it, and the connections of
//! its clients, which speak to it as to Redis.
//!
//! # What its caller does
//!
//! 1. [`Service::open`] with the bytes of the server's log.
//! 2. It hands in what comes: [`Service::receive`] a peer's frame, [`Service::tick`] time, [`Service::connect`],
//!    [`Service::client_bytes`] and [`Service::disconnect`] what clients do.
//! 3. [`Service::write`] whenever the disk is free, and [`Service::flushed`] once bytes that were to be appended are synced; and
//!    before and after `write` too, with the position of the last sync or 0, for what waits for no sync.
//! 4. [`Service::idle`] while nothing else is to be done.
//! 5. It does what the outputs say, in their order.
//!
//! A request is read when its bytes come, and stands in the log from the next write on. It is answered once its entry is
//! executed. A query is answered by the state that the machine has once what came before the query is executed; it puts nothing
//! into the log but the time, and that once for each time that the service is told. If the machine has reached the time, and the
//! client has no other request on its way, the query is asked by a round of messages, with no entry ([`raft_core::RaftCore::read`]):
//! such reads cost nothing on disk, and many share a round. No other request of the client is read before its answer.
//!
//! After an error that isn't a refusal the service is opened again on its log, and its clients connect again.
#![tactic(auto)]

pub use raft_core;
pub use raft_core::raft_packed_server;

mod error;
mod intake;
mod laws;
mod output;
mod plan;
mod question;
mod service;
mod serving;
mod settings;
mod status;

pub use error::OpenError;
pub use laws::{
    machine_is_what_is_executed, questions_wait_for_replies, requests_keep_their_order,
};
pub use output::Output;
pub use raft_clients::ConnectError;
pub use service::{Fed, OpenedService, Service};
pub use settings::{Address, Settings};
pub use status::{Role, Status};
