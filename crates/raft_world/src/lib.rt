//! A cluster in memory: runs events over nodes, reports what they applied, and promises that they agree.
#![tactic(auto)]

mod agreement;
mod cluster;
mod error;
mod expected;
mod past;
mod print;
mod report;
mod run;
mod streams;
mod tracked;
mod world;

pub use agreement::{Agreement, check_agreement, check_entries};
pub use error::WorldError;
pub use expected::{Unmet, applied_of};
pub use print::{print_payload, print_report, reason_text};
pub use raft_calls::inboxes::MessageNumbers;
pub use raft_calls::lead::Answer;
pub use raft_calls::message::{Body, Message, Origin};
pub use raft_node::given::Given;
pub use raft_node::node::Node;
pub use raft_node::record::{Decided, Established, Executed, Installed, Records};
pub use raft_node::watch::Watch;
pub use raft_schedule::event::{AppliedEvent, Event, EventKind, Outcome, SkipReason, Start};
pub use raft_schedule::schedule::{Language, Schedule, ScheduleError, parse_schedule};
pub use raft_schedule::step::{Expectation, Fact, Link, MessageKind, Numbered, Step};
pub use raft_store::{Entry, Hex, Payload, Store, Value, WorldConfig};
pub use report::Report;
pub use run::{run_schedule, run_steps};
pub use streams::{Failure, read_bytes, read_schedule, simulate, simulate_into, write_text};
pub use tracked::Tracked;
pub use world::{World, refusals_of_new};
