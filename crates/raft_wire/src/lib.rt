//! Messages between servers, and the records of a server's log, as bytes.
#![tactic(auto)]

pub use raft_calls;

mod basic;
mod entries;
mod packet;
mod record;
mod replay;
mod requests;
mod state;
mod wire;

pub use packet::{Chunk, Content, Packet, VERSION, Version};
pub use raft_codec::{DecodeError, Fault, Reader};
pub use record::{Began, Change, RESERVED_AHEAD, Record};
pub use replay::{ReplayError, is_change, write_change, write_step};
pub use wire::{Wire, decode};
