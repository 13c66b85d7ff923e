//! What a world records.

ghost use Rattle.std.specs.Prelude.{◌≡◌, ◌++◌, ◌∷◌, [], IfOk, OnErr, OnOk, drop, length, map, slice_get, take};
ghost use Rattle.std.specs.Option.{option_map};
ghost use Rattle.raft_store.specs.Entries.{entry_meaning};
ghost use Rattle.raft_store.specs.LeaderLogs.{Adds, log_of};
ghost use Rattle.raft_store.specs.Mirror.{IsGapless};
ghost use Rattle.raft_store.specs.Store.{whole, whole_upto};
ghost use Rattle.raft_calls.specs.Inboxes.{numbers_left, numbers_to};
ghost use Rattle.raft_node.specs.Kept.{decided_by_leader, established_by_leader};
ghost use Rattle.raft_node.specs.Net.{no_records, with_decided, with_established};
ghost use Rattle.raft_node.specs.Safety.{RecordsGrow};

use raft_calls::bag::Bag;
use raft_calls::inboxes::MessageNumbers;
use raft_calls::lead::Answer;
use raft_calls::message::Message;
use raft_state::{Items, LeaderId, LogId};
use raft_store::{Entry, LeaderLogs, Store, copy_entries};
use std::alloc::{AllocError, Global};
use std::marker::Model;

/// A node's state machine has applied an entry.
#[derive(PartialEq, Eq, Debug, Drop)]
pub struct Executed {
    pub node: u64,
    pub entry: Entry,
}

/// A node has installed a snapshot of these entries, the first at index 0.
#[derive(PartialEq, Eq, Debug, Drop)]
pub struct Installed {
    pub node: u64,
    pub entries: Items<Entry>,
}

/// A leader has decided a commit up to an id. `log` is its whole log up to there: as records keep it, the number of its
/// entries.
#[derive(Clone, Copy, PartialEq, Eq, Debug)]
pub struct Decided<L> {
    pub leader_id: LeaderId<u64>,
    pub log_id: LogId<u64>,
    pub log: L,
}

/// A leader is established. `log` is its whole log: as records keep it, the number of its entries.
#[derive(Clone, Copy, PartialEq, Eq, Debug)]
pub struct Established<L> {
    pub leader_id: LeaderId<u64>,
    pub log: L,
}

/// All messages ever sent, and what was executed, installed, decided, established and answered to reads, each in the
/// order of the run. Of two whole logs of one leader the longer begins with the shorter, so of each leader only the
/// longest is kept. Out of memory, nothing is promised of them.
#[derive(Debug, Drop)]
pub struct Records {
    pub executed: Vec<Executed>,
    pub installed: Vec<Installed>,
    pub answers: Vec<Answer>,
    bag: Bag,
    decided: Vec<Decided<usize>>,
    established: Vec<Established<usize>>,
    logs: LeaderLogs,
}

impl Model for Records {
    ghost use Rattle.std.specs.Prelude.{List};
    ghost use Rattle.raft_store.specs.declared.entry.Entry.{Entry};
    ghost use Rattle.raft_node.specs.Kept.{AreKept, decided_in, established_in};
    ghost use Rattle.raft_node.specs.Net.{Records};

    ghost Value = { Records (List Entry) };

    ghost view = { λ s. record {
      bag = s.bag;
      executed = s.executed.items;
      installed = s.installed.items;
      decided = decided_in s.logs s.decided.items;
      established = established_in s.logs s.established.items;
      answers = s.answers.items;
    } };

    ghost invariant = { λ s. AreKept s.logs s.decided.items s.established.items };
}

/// Records that a node has executed entries.
fn push_executed(
    node: u64,
    entries: Vec<Entry>,
    executed: &mut Vec<Executed>,
) -> Result<(), AllocError>
    ensures { OnOk result (executed.new.items ≡ executed.old.items ++ map (λ e. record { node = node; entry = e }) entries.items) }
{
    for entry in entries {
        executed.push(Executed { node, entry })?;
    }
    Ok(())
}

fn copy_executed(alloc: Global, from: &[Executed]) -> Result<Vec<Executed>, AllocError>
    ensures { IfOk result (λ copied. copied.items ≡ from.now) }
{
    let mut copied = Vec::with_capacity(alloc, from.len())?;
    for one in from {
        copied.push(Executed {
            node: one.node,
            entry: one.entry.copy(alloc)?,
        })?;
    }
    Ok(copied)
}

fn copy_installed(alloc: Global, from: &[Installed]) -> Result<Vec<Installed>, AllocError>
    ensures { IfOk result (λ copied. copied.items ≡ from.now) }
{
    let mut copied = Vec::with_capacity(alloc, from.len())?;
    for one in from {
        copied.push(Installed {
            node: one.node,
            entries: Items::from_vec(copy_entries(alloc, one.entries.as_slice())?),
        })?;
    }
    Ok(copied)
}

/// Copies of what nodes have executed, installed and answered.
fn copy_done(
    alloc: Global,
    executed: &[Executed],
    installed: &[Installed],
    answers: &[Answer],
) -> Result<(Vec<Executed>, Vec<Installed>, Vec<Answer>), AllocError>
    ensures executed { IfOk result (λ copied. copied.0.items ≡ executed.now) }
    ensures installed { IfOk result (λ copied. copied.1.items ≡ installed.now) }
    ensures answers { IfOk result (λ copied. copied.2.items ≡ answers.now) }
{
    let executed = copy_executed(alloc, executed)?;
    let installed = copy_installed(alloc, installed)?;
    let answers = Vec::from_slice(alloc, answers)?;
    Ok((executed, installed, answers))
}

/// Copies of what leaders have decided, of those that were established, and of their logs.
fn copy_led(
    alloc: Global,
    decided: &[Decided<usize>],
    established: &[Established<usize>],
    logs: &LeaderLogs,
) -> Result<(Vec<Decided<usize>>, Vec<Established<usize>>, LeaderLogs), AllocError>
    ensures decided { IfOk result (λ copied. copied.0.items ≡ decided.now) }
    ensures established { IfOk result (λ copied. copied.1.items ≡ established.now) }
    ensures logs { IfOk result (λ copied. copied.2 ≡ logs.now) }
{
    let decided = Vec::from_slice(alloc, decided)?;
    let established = Vec::from_slice(alloc, established)?;
    let logs = logs.copy()?;
    Ok((decided, established, logs))
}

/// Adds to a leader's log what it lacks of the first entries of a store's whole log.
fn extend_log(
    leader_id: LeaderId<u64>,
    store: &Store,
    end: usize,
    logs: &mut LeaderLogs,
) -> Result<(), AllocError>
    requires { IsGapless entry_meaning store.now }
    ensures ok { OnOk result (Adds leader_id (drop (length (log_of logs.old leader_id)) (take end (whole store.now))) logs.old logs.new) }
    ensures err { OnErr result (Adds leader_id [] logs.old logs.new) }
{
    let held = logs.of(&leader_id).len();
    let lacking = store.copy_whole(held, end)?;
    logs.append(leader_id, lacking)
}

/// Pushes a record, and adds to its leader's log what it lacks of the first entries of a store's whole log. Out of
/// memory, both stay as they were.
fn push_record<T: Drop>(
    one: T,
    leader_id: LeaderId<u64>,
    store: &Store,
    end: usize,
    logs: &mut LeaderLogs,
    records: &mut Vec<T>,
) -> Result<(), AllocError>
    requires { IsGapless entry_meaning store.now }
    ensures pushed { OnOk result (records.new.items ≡ records.old.items ++ one ∷ []) }
    ensures added { OnOk result (Adds leader_id (drop (length (log_of logs.old leader_id)) (take end (whole store.now))) logs.old logs.new) }
    ensures kept { OnErr result (records.new.items ≡ records.old.items) }
    ensures same { OnErr result (Adds leader_id [] logs.old logs.new) }
{
    records.reserve(1)?;
    extend_log(leader_id, store, end, logs)?;
    Ok(records.push(one)?)
}

/// The first entries of a list, at most so many.
fn first(entries: &[Entry], len: usize) -> &[Entry]
    ensures { result.now ≡ take len entries.now }
{
    entries.get(..len).unwrap_or(entries)
}

impl Records {
    /// No records.
    pub fn new(alloc: Global) -> Self
        ensures { result ≡ no_records }
    {
        Records {
            bag: Bag::new(alloc),
            executed: Vec::new(alloc),
            installed: Vec::new(alloc),
            answers: Vec::new(alloc),
            decided: Vec::new(alloc),
            established: Vec::new(alloc),
            logs: LeaderLogs::new(alloc),
        }
    }

    /// A copy of all records, in time linear in their size.
    pub fn copy(&self, alloc: Global) -> Result<Self, AllocError>
        ensures { IfOk result (λ copied. copied ≡ self.now) }
    {
        let bag = self.bag.copy(alloc)?;
        let (executed, installed, answers) = copy_done(
            alloc,
            &self.executed,
            &self.installed,
            &self.answers,
        )?;
        let (decided, established, logs) = copy_led(
            alloc,
            &self.decided,
            &self.established,
            &self.logs,
        )?;
        Ok(Records {
            bag,
            executed,
            installed,
            answers,
            decided,
            established,
            logs,
        })
    }

    /// All messages ever sent, in the order of sending: the first is number 1. It takes no memory.
    pub fn messages(&self) -> &[Message]
        ensures { result.now ≡ self.now.bag }
    {
        self.bag.messages()
    }

    /// The numbers of the messages to a node, ascending; none where nothing was sent to it. It takes no memory.
    pub fn messages_to(&self, id: u64) -> MessageNumbers<'_>
        ensures { numbers_left result ≡ numbers_to id self.now.bag }
    {
        self.bag.numbers_to(id)
    }

    /// How many messages were ever sent.
    pub fn sent(&self) -> usize
        ensures { result ≡ length self.now.bag }
    {
        self.bag.len()
    }

    /// The number of decided commits.
    pub fn decided_len(&self) -> usize
        ensures { result ≡ length self.now.decided }
    {
        self.decided.len()
    }

    /// The number of established leaders.
    pub fn established_len(&self) -> usize
        ensures { result ≡ length self.now.established }
    {
        self.established.len()
    }

    /// A decided commit, by its place in the order of the run, with the leader's whole log up to it. It takes no memory.
    pub fn decided(&self, place: usize) -> Option<Decided<&[Entry]>>
        ensures { option_map (decided_by_leader (λ d log. log.now)) result ≡ slice_get self.now.decided place }
    {
        let Some(one) = self.decided.get(place) else {
            return None;
        };
        Some(Decided {
            leader_id: one.leader_id,
            log_id: one.log_id,
            log: first(self.logs.of(&one.leader_id), one.log),
        })
    }

    /// An established leader, by its place in the order of the run, with its whole log then. It takes no memory.
    pub fn established(&self, place: usize) -> Option<Established<&[Entry]>>
        ensures { option_map (established_by_leader (λ d log. log.now)) result ≡ slice_get self.now.established place }
    {
        let Some(one) = self.established.get(place) else {
            return None;
        };
        Some(Established {
            leader_id: one.leader_id,
            log: first(self.logs.of(&one.leader_id), one.log),
        })
    }
}

impl Records {
    /// A message is sent.
    pub fn send(&mut self, message: Message) -> Result<(), AllocError>
        ensures { OnOk result (self.new ≡ record self.old { bag = self.old.bag ++ message ∷ [] }) }
    {
        self.bag.push(message)
    }

    /// A node's state machine has applied entries.
    pub fn execute(&mut self, node: u64, entries: Vec<Entry>) -> Result<(), AllocError>
        ensures { OnOk result (self.new
            ≡ record self.old { executed = self.old.executed ++ map (λ e. record { node = node; entry = e }) entries.items }) }
    {
        push_executed(node, entries, &mut self.executed)
    }

    /// A node has installed a snapshot of these entries.
    pub fn install(&mut self, node: u64, entries: Items<Entry>) -> Result<(), AllocError>
        ensures { OnOk result (self.new ≡ record self.old { installed = self.old.installed ++ record { node = node; entries = entries } ∷ [] }) }
    {
        Ok(self.installed.push(Installed { node, entries })?)
    }

    /// A leader has decided a commit, with the store's whole log up to it.
    pub fn decide(
        &mut self,
        leader_id: LeaderId<u64>,
        log_id: LogId<u64>,
        store: &Store,
    ) -> Result<(), AllocError>
        requires gapless { IsGapless entry_meaning store.now }
        requires grows { RecordsGrow (with_decided leader_id log_id (whole_upto store.now log_id.index) self.old) }
        ensures { OnOk result (self.new ≡ with_decided leader_id log_id (whole_upto store.now log_id.index) self.old) }
    {
        let log = store.whole_upto_len(log_id.index);
        let one = Decided {
            leader_id,
            log_id,
            log,
        };
        push_record(
            one,
            leader_id,
            store,
            log,
            &mut self.logs,
            &mut self.decided,
        )
    }

    /// A leader is established, with the store's whole log.
    pub fn establish(&mut self, leader_id: LeaderId<u64>, store: &Store) -> Result<(), AllocError>
        requires gapless { IsGapless entry_meaning store.now }
        requires grows { RecordsGrow (with_established leader_id (whole store.now) self.old) }
        ensures { OnOk result (self.new ≡ with_established leader_id (whole store.now) self.old) }
    {
        let log = store.whole_len();
        let one = Established { leader_id, log };
        push_record(
            one,
            leader_id,
            store,
            log,
            &mut self.logs,
            &mut self.established,
        )
    }

    /// A leader has answered a read.
    pub fn answer(&mut self, answer: Answer) -> Result<(), AllocError>
        ensures { OnOk result (self.new ≡ record self.old { answers = self.old.answers ++ answer ∷ [] }) }
    {
        Ok(self.answers.push(answer)?)
    }
}
