//! A server's outer layer, without input and output: bytes of peers, time and clients' requests come in; bytes for peers, bytes
//! for the log's end, entries to execute and answers come out. It takes steps of `raft_packed_server` and does nothing else there, so
//! no choice of its policy can break what servers agree on.
//!
//! # What its caller does
//!
//! 1. [`RaftCore::open`] with the bytes of the server's log, as [`Server::open`](raft_packed_server::Server::open). The state machine
//!    goes on from what was applied already: entries behind that are executed.
//! 2. [`RaftCore::receive`] for each frame of a peer, which the caller cuts out of the stream and whose sender it knows;
//!    [`RaftCore::tick`] as time goes by; [`RaftCore::request`] for what a client wants, and [`RaftCore::read`] for a read that
//!    puts nothing into the log. Such a read may overtake requests, and requests such a read: who asks for one after the other waits
//!    for its answer.
//! 3. [`RaftCore::write`] whenever the disk is free: requests that came meanwhile are one step, and all records one frame.
//!    [`RaftCore::flushed`] once its bytes are synced. Only then leaves what the steps say. Steps that leave no record, as a
//!    commit, wait for no sync of their own: `flushed` is called before and after `write` too, with the position of the last
//!    sync, or 0.
//! 4. [`RaftCore::begin_log`] before `write`, if nothing is on its way to the disk: the bytes of a new log, once the old one is long.
//!    They go to a file of their own, while the old log goes on, and what is written from then on goes to both. Once the new file is
//!    synced with all of it, [`RaftCore::take_over`], and the file takes the old log's place, durably, before anything more is written;
//!    positions are then those of the new log.
//! 5. [`RaftCore::fold_some`] while nothing else is to be done: the state of a snapshot is made by and by, and the bytes of one that is to
//!    leave.
//! 6. It does what the outputs say, in their order. The reply to a write follows the entry that was executed for it; a read is
//!    answered with what the state machine says after all entries that stand before the answer.
//!
//! Times are in milliseconds. They may be in a shorter unit, if all of them are: reads wait for the next unit before the
//! heartbeats leave by which they are answered.
//!
//! After an error that isn't a refusal it is opened again on its log; requests that it had are answered `Unknown`.
//!
//! # What isn't there
//!
//! Snapshots in pieces on disk: each is decoded and kept whole. One of more than `part_bytes` is encoded step by step before it leaves, and
//! leaves in parts of at most as many; one that is interrupted goes on from where it was. A message has as many entries as the settings'
//! `max_payload_entries`, each with a value of at most `value_bytes`: together they are to be less than `frame_bytes`, and so is a part
//! with its message. A server whose records have more than [`MAX_FRAME`](raft_frames::MAX_FRAME) bytes, as those of a larger snapshot,
//! stops. Which bytes wait for a peer the caller knows alone.
#![tactic(auto)]

pub use raft_peers::raft_packed_server;
pub use raft_peers::raft_packed_server::raft_packed;

mod clock;
mod config;
mod driver;
mod election;
mod error;
mod laws;
mod lead;
mod length;
mod membership;
mod moves;
mod node;
mod policy;
mod release;
mod steps;

pub use config::{Config, PART_BYTES, PeerLimits, SNAPSHOT_BYTES};
pub use driver::{OpenedCore, RaftCore};
pub use error::{CoreError, FrameError, RequestError};
pub use laws::{
    clients_are_answered_once, only_releases_tell_ok, only_rounds_tell_ok, reads_are_answered_once,
};
pub use raft_peers::output::Output;
