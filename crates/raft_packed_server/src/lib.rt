//! A server that does no input or output, and whose snapshot is a state: it takes steps at a node, and holds back what they say until
//! their records, and all before them, are on disk (Raft paper, figure 2: persistent state is on stable storage before a server
//! responds; section 7).
//!
//! # What its caller does
//!
//! 1. [`Server::open`] with the bytes of the server's log. What stands behind the end that it gives is cut off, and
//!    that is synced, before anything is appended.
//! 2. [`Server::step`] for whatever comes: a message, a proposal, a timer. Nothing leaves yet.
//! 3. [`Server::write`] gives bytes for the log's end, to be appended and synced. More steps may be taken meanwhile:
//!    their records are the next bytes.
//! 4. [`Server::flushed`] with the position up to which the log is on disk: what the steps up to there say leaves, and
//!    what those behind them say that wait for no record. It is called after a sync, and if nothing was written, with
//!    the position of the last sync: most steps change nothing on disk and leave no record.
//!
//! A log that has grown long is replaced, while it goes on: [`Server::prepare_log`], call by call, encodes the state with which a new one begins;
//! [`Server::begin_log`] gives the bytes of that one, which makes the same, for a file of its own, and [`Server::write`] from then on bytes for
//! both. Once the new file has all of them on disk, [`Server::take_over`] gives it the old one's place; [`Server::give_up_log`], if it can't be
//! written.
//!
//! After an error the server has stopped for good, and nothing leaves it any more: it is opened again on its log.
#![tactic(auto)]

pub use raft_packed_wire;
pub use raft_packed_wire::{raft_packed, raft_packed_node};

mod batch;
mod began;
mod changes;
mod checkpoint;
mod error;
mod laws;
mod records;
mod recovery;
mod server;
mod serving;

pub use batch::{Batch, NewLog, Said, Written};
pub use error::{OpenError, ServerError};
pub use laws::{new_logs_go_on, opens_after_a_crash, writes_go_on_with_the_log};
pub use server::{Opened, Server};
