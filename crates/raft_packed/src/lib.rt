//! What a node keeps when it stops, if its snapshot is a state: a store beside `raft_store`'s, whose log may be cut at the front.
//!
//! A [`Machine`] is the application's state machine. Of the entries up to an index a [`Packed`] keeps their end, their last id, their last two
//! memberships and the state that they give; a [`Summary`] keeps all of it but the state. A [`PackedStore`] has a snapshot that is packed;
//! of what was applied since it keeps the entries, and makes their state once a snapshot has them, a few at a time. The snapshot's state can be
//! encoded in steps, as the end of a frame's payload that is summed: [`PackedStore::encode_some`], [`PackedStore::take_encoded`].
#![tactic(auto)]

pub use proof_packed_stores;

mod encoding;
mod error;
mod log;
mod machine;
mod packed;
mod place;
mod start;
mod states;
mod store;
mod summary;

pub use encoding::Encoded;
pub use error::PackedError;
pub use machine::Machine;
pub use packed::Packed;
pub use place::Place;
pub use store::PackedStore;
pub use summary::Summary;
