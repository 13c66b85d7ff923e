//! The types of a plain application, by which cases and tests call the crates below.

ghost use Rattle.std.specs.Prelude.{◌≡◌};

use raft_state::{LeaderId, LogId, Membership, RaftEntry, RaftTypeConfig};

/// What an entry carries.
#[derive(PartialEq, Eq, Debug, Drop)]
pub enum Payload {
    /// Nothing: a leader's first entry.
    Blank,
    /// A value of the application.
    Value(u64),
    /// A membership, which takes effect.
    Membership(Membership<u64, u64>),
}

/// An entry of the log.
#[derive(PartialEq, Eq, Debug, Drop)]
pub struct Item {
    pub log_id: LogId<u64>,
    pub payload: Payload,
}

impl RaftEntry<u64, u64> for Item {
    ghost use Rattle.std.specs.Prelude.{refl};
    ghost use Rattle.test_engine.specs.Types.{members};
    ghost use Rattle.test_engine.specs.declared.types.Payload.TheVariants.{Blank};

    ghost id_of = { λ item. item.log_id };

    ghost membership_of = { λ item. members item.payload };

    ghost blank = { λ id. record { log_id = id; payload = Blank } };

    ghost with_id = { λ item id. record item { log_id = id } };

    ghost blank_has = { λ id. (refl, refl) };

    ghost with_id_has = { λ item id. (refl, refl) };

    fn new_blank(log_id: LogId<u64>) -> Self
        ensures { result ≡ record { log_id = log_id; payload = Blank } }
    {
        Item {
            log_id,
            payload: Payload::Blank,
        }
    }

    fn get_log_id(&self) -> &LogId<u64> {
        &self.log_id
    }

    fn set_log_id(&mut self, id: &LogId<u64>) {
        self.log_id = *id;
    }

    fn get_membership(&self) -> Option<&Membership<u64, u64>> {
        match &self.payload {
            Payload::Membership(membership) => Some(membership),
            _ => None,
        }
    }
}

/// Nodes and values are numbers.
#[derive(Debug, Drop)]
pub struct Small;

impl RaftTypeConfig for Small {
    type NodeId = u64;

    type Node = u64;

    type Entry = Item;

    type D = u64;

    type R = u64;

    type SnapshotData = u64;
}

/// The log id of a term, a node and an index.
pub fn id(term: u64, node_id: u64, index: u64) -> LogId<u64>
    ensures { result ≡ record { leader_id = record { term = term; node_id = node_id }; index = index } }
{
    LogId::new(LeaderId::new(term, node_id), index)
}
