//! A plain application, for computed examples.

ghost use Rattle.std.specs.Prelude.{◌≡◌};

use raft_state::{LogId, Membership, RaftEntry, RaftTypeConfig};

/// The payload of a plain application's entry.
#[derive(Debug, Drop)]
pub enum Payload {
    Blank,
    Value(u64),
    Membership(Membership<u64, ()>),
}

#[derive(Debug, Drop)]
pub struct Entry {
    pub log_id: LogId<u64>,
    pub payload: Payload,
}

#[derive(Drop)]
pub struct Plain {}

impl RaftEntry<u64, ()> for Entry {
    ghost use Rattle.std.specs.Prelude.{refl};
    ghost use Rattle.raft_steps.specs.Plain.{members};
    ghost use Rattle.raft_steps.specs.declared.plain.Payload.TheVariants.{Blank};

    ghost id_of = { λ e. e.log_id };

    ghost membership_of = { λ e. members e.payload };

    ghost blank = { λ id. record { log_id = id; payload = Blank } };

    ghost with_id = { λ e id. record e { log_id = id } };

    ghost blank_has = { λ id. (refl, refl) };

    ghost with_id_has = { λ e id. (refl, refl) };

    fn new_blank(log_id: LogId<u64>) -> Self
        ensures { result ≡ record { log_id = log_id; payload = Blank } }
    {
        Entry {
            log_id,
            payload: Payload::Blank,
        }
    }

    fn get_log_id(&self) -> &LogId<u64> {
        &self.log_id
    }

    fn set_log_id(&mut self, id: &LogId<u64>) {
        self.log_id = *id;
    }

    fn get_membership(&self) -> Option<&Membership<u64, ()>> {
        match &self.payload {
            Payload::Membership(membership) => Some(membership),
            _ => None,
        }
    }
}

impl RaftTypeConfig for Plain {
    type NodeId = u64;

    type Node = ();

    type Entry = Entry;

    type D = u64;

    type R = u64;

    type SnapshotData = u64;
}
