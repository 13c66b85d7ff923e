//! The keyspace of a replicated store: its state is a list of revisions, as etcd's API describes them. Puts, deletes and their
//! revisions can be called. Transactions, leases and the answers to requests are types and definitions so far, without code.
#![tactic(auto)]

mod answer;
mod error;
mod key_value;
mod keyspace;
mod ranges;
mod request;
mod shared;
mod sorts;
mod table;
mod touch;
mod writes;

pub use answer::{Answer, DeleteRangeResponse, LeaseStatus, RangeResponse, Response};
pub use error::StoreError;
pub use key_value::{Event, KeyValue, Lease, Stored};
pub use keyspace::Keyspace;
pub use request::{
    Compare, CompareResult, CompareTarget, DeleteRangeRequest, Operation, PutRequest, RangeRequest,
    Request, RequestOp, SortOrder, SortTarget, TxnRequest,
};
pub use writes::{delete_range, put};
