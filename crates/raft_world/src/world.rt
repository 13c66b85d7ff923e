//! The world and its events.

ghost use Rattle.std.specs.Prelude.{ℕ, ◌≡◌, ◌<◌, ◌^◌, All, IfOk, OnOk, map};
ghost use Rattle.std.specs.Ordering.{nat_cmp};
ghost use Rattle.raft_state.specs.Sorted.{IsSound};
ghost use Rattle.raft_calls.specs.Engines.{view_of};
ghost use Rattle.std.specs.Option.{option_map, option_copied};
ghost use Rattle.raft_node.specs.Events.{happens};
ghost use Rattle.raft_node.specs.Held.{AllResting};
ghost use Rattle.raft_calls.specs.Inboxes.{numbers_left, numbers_to};
ghost use Rattle.raft_node.specs.MayKeep.{KeepsDuring};
ghost use Rattle.raft_world.specs.Limits.{refusals_of_new};
ghost use Rattle.raft_node.specs.Net.{new_node, node_at};
ghost use Rattle.raft_node.specs.Runs.{with_event, whole_logs};
ghost use Rattle.raft_node.specs.WellFormed.{has_twice, lacks_voters};
ghost use Rattle.raft_node.specs.Work.{weight};
ghost use Rattle.raft_world.specs.Safe.{IsSafe};
ghost use Rattle.raft_world.specs.Undelivered.{oldest};
ghost use Rattle.raft_world.specs.Worlds.{IsMade, IsWorldOfRun, Makes, Applies, events_in, refusals_of_apply, store_at, engine_at};

use crate::cluster::Cluster;
use crate::error::WorldError;
use crate::past::Past;
use raft_calls::inboxes::MessageNumbers;
use raft_calls::message::Message;
use raft_command::EngineConfig;
use raft_engine::Engine;
use raft_node::given::Given;
use raft_node::node::Node;
use raft_node::record::Records;
use raft_node::watch::{Unwatched, Watch};
use raft_schedule::event::{AppliedEvent, Event, Outcome};
use raft_schedule::step::Link;
use raft_state::{Items, Membership};
use raft_store::{Store, WorldConfig};
use std::alloc::{AllocError, Global};
use std::marker::Model;

/// Nodes with their stores, all messages ever sent, and what the nodes executed, installed, decided and established.
/// Nodes stop as the events say, between any two commands, and start again on what they have stored.
#[derive(Debug, Drop)]
pub struct World {
    pub(crate) alloc: Global,
    given: Given,
    pub(crate) cluster: Cluster,
    pub(crate) past: Past,
    pub(crate) spent: bool,
}

impl Model for World {
    ghost use Rattle.raft_world.specs.Worlds.{WorldView, IsWorldOfRun};

    ghost Value = { WorldView };

    ghost view = { λ s. record {
      given = s.given;
      history = record { past = s.past; net = s.cluster };
      spent = s.spent;
    } };

    ghost invariant = { λ s. IsWorldOfRun (record {
      given = s.given;
      history = record { past = s.past; net = s.cluster };
      spent = s.spent;
    }) };
}

/// Whether an id stands twice in the list.
fn has_twice(ids: &[u64]) -> bool
    ensures { result ≡ has_twice ids.now }
{
    match ids {
        [] => false,
        [id, rest @ ..] => rest.contains(id) || has_twice(rest),
    }
}

/// Whether there is no group of voters, an empty one, or more than four.
fn lacks_voters(membership: &Membership<u64, ()>) -> bool
    ensures lacks { result ≡ lacks_voters membership.now.groups }
    ensures sound { IsSound nat_cmp membership.now.groups membership.now.nodes }
{
    let groups = membership.groups();
    if groups.is_empty() {
        return true;
    }
    if groups.iter().any(|group| group.is_empty()) {
        return true;
    }
    groups.len() > 4
}

/// Why no world is made of nodes with these ids, under this first membership: `World::new` lists the refusals.
pub fn refusals_of_new(ids: &[u64], membership: &Membership<u64, ()>) -> Option<WorldError>
    ensures refused { result ≡ refusals_of_new ids.now membership.now.groups }
    ensures sound { IsSound nat_cmp membership.now.groups membership.now.nodes }
{
    let lacking = lacks_voters(membership);
    if has_twice(ids) {
        Some(WorldError::DuplicateId)
    } else if ids.len() > 16 {
        Some(WorldError::TooManyNodes)
    } else if lacking {
        Some(WorldError::NoVoters)
    } else {
        None
    }
}

fn make_nodes(
    alloc: Global,
    settings: &EngineConfig<u64>,
    ids: &[u64],
) -> Result<Vec<Node>, AllocError>
    ensures nodes { IfOk result (λ nodes. nodes.items ≡ map (new_node settings.now) ids.now) }
    ensures named { IfOk result (λ _. All (λ id. id < 2 ^ 64) ids.now) }
{
    let mut nodes = Vec::with_capacity(alloc, ids.len())?;
    for id in ids {
        nodes.push(Node::new(alloc, settings, *id)?)?;
    }
    Ok(nodes)
}

/// An event, of which the past has a line then.
#[tactic(auto, unfolding(raft_node::specs::Runs::with_event))]
fn record_event<W: Watch<Records>>(
    alloc: Global,
    given: &Given,
    event: Event,
    cluster: &mut Cluster,
    past: &mut Past,
    watch: &mut W,
) -> Result<Outcome, AllocError>
    requires resting { AllResting cluster.old.nodes }
    requires keeps { KeepsDuring given.now event cluster.old }
    ensures outcome { IfOk result (λ o. o ≡ (happens whole_logs weight given.now event cluster.old).0) }
    ensures history { OnOk result (record { past = past.new; net = cluster.new }
        ≡ with_event whole_logs given.now (record { past = past.old; net = cluster.old }) event) }
{
    let outcome = cluster.apply(alloc, given, &event, watch)?;
    past.push(AppliedEvent {
        event,
        outcome,
        sent: cluster.records.sent() as u64,
    })?;
    Ok(outcome)
}

impl World {
    /// Nodes of these ids, which start empty under one first membership; their settings are the same but for the id.
    ///
    /// Refused, in this order: an id twice (W1), more than 16 nodes (W2), no group of voters, an empty one or more than
    /// four (W3), out of memory (W5).
    pub fn new(
        alloc: Global,
        ids: &[u64],
        first_membership: Membership<u64, ()>,
        settings: EngineConfig<u64>,
    ) -> Result<World, WorldError>
        ensures { Makes (record { ids = ids.now; membership = first_membership; settings = settings }) result }
    {
        if let Some(error) = refusals_of_new(ids, &first_membership) {
            return Err(error);
        }
        let Ok(own) = Vec::from_slice(alloc, ids) else {
            return Err(WorldError::OutOfMemory);
        };
        let Ok(nodes) = make_nodes(alloc, &settings, ids) else {
            return Err(WorldError::OutOfMemory);
        };
        Ok(World {
            alloc,
            given: Given {
                ids: Items::from_vec(own),
                membership: first_membership,
                settings,
            },
            cluster: Cluster {
                nodes,
                records: Records::new(alloc),
            },
            past: Past::new(alloc),
            spent: false,
        })
    }

    /// Whether it has run out of memory, for good.
    pub fn is_spent(&self) -> bool
        ensures spent { result ≡ self.now.spent }
        ensures made { IsMade self.now.given }
    {
        self.spent
    }

    /// Why no event is applied any more.
    pub(crate) fn refusals_of_apply(&self) -> Option<WorldError>
        ensures refused { result ≡ refusals_of_apply self.now }
        ensures made { IsMade self.now.given }
    {
        if self.spent {
            Some(WorldError::OutOfMemory)
        } else if self.past.events().len() > 99_999 || self.cluster.records.sent() > 999_936 {
            Some(WorldError::LimitReached)
        } else {
            None
        }
    }

    /// One event: what came of it. Whatever events come, the run of those so far is safe (`IsSafe`).
    ///
    /// Refused: after running out of memory (W5, for good); once 100,000 events were applied or more than 999,936
    /// messages are there (W4), which changes nothing; when memory runs out now (W5).
    pub fn apply(&mut self, event: Event) -> Result<Outcome, WorldError>
        ensures does { Applies self.old event result self.new }
        ensures safe { IsSafe self.new.given (events_in self.new) }
    {
        self.apply_watched(event, &mut Unwatched)
    }

    /// Like `apply`; `watch` is shown each command just before it is executed. If it runs out of memory, so does the world.
    pub fn apply_watched<W: Watch<Records>>(
        &mut self,
        event: Event,
        watch: &mut W,
    ) -> Result<Outcome, WorldError>
        ensures does { Applies self.old event result self.new }
        ensures safe { IsSafe self.new.given (events_in self.new) }
    {
        if let Some(error) = self.refusals_of_apply() {
            return Err(error);
        }
        self.apply_within_limits(event, watch)
    }

    /// As `apply_watched`, of an event that no limit refuses.
    pub(crate) fn apply_within_limits<W: Watch<Records>>(
        &mut self,
        event: Event,
        watch: &mut W,
    ) -> Result<Outcome, WorldError>
        requires { refusals_of_apply self.old ≡ None }
        ensures does { Applies self.old event result self.new }
        ensures safe { IsSafe self.new.given (events_in self.new) }
    {
        let done = record_event(
            self.alloc,
            &self.given,
            event,
            &mut self.cluster,
            &mut self.past,
            watch,
        );
        match done {
            Ok(outcome) => Ok(outcome),
            Err(_) => {
                self.spent = true;
                Err(WorldError::OutOfMemory)
            }
        }
    }

    /// All messages ever sent, in the order of sending: the first is number 1. It takes no memory.
    pub fn messages(&self) -> &[Message]
        ensures { result.now ≡ self.now.history.net.records.bag }
    {
        self.cluster.records.messages()
    }

    /// The numbers of the messages to a node, ascending; none where nothing was sent to it. It takes no memory.
    pub fn messages_to(&self, id: u64) -> MessageNumbers<'_>
        ensures { numbers_left result ≡ numbers_to id self.now.history.net.records.bag }
    {
        self.cluster.records.messages_to(id)
    }

    /// The number of the oldest message that no event has delivered, of this link if one is given. A message is delivered
    /// whatever comes of that, but not before it was sent. It takes no memory.
    pub fn oldest_undelivered(&self, link: Option<Link>) -> Option<u64>
        ensures { result ≡ oldest link self.now.history }
    {
        self.past.oldest(link, self.messages())
    }

    /// The messages, and what was executed, installed, decided and established, each in the order of the run. It takes
    /// no memory.
    pub fn records(&self) -> &Records
        ensures { result.now ≡ self.now.history.net.records }
    {
        &self.cluster.records
    }

    /// What it is made of: the nodes, the first membership and the settings. Unless it ran out of memory, the world is what its
    /// events make of the empty one. It takes no memory.
    pub fn given(&self) -> &Given
        ensures given { result.now ≡ self.now.given }
        ensures run { IsWorldOfRun self.now }
    {
        &self.given
    }

    /// The nodes, in the order of their ids in `given`. It takes no memory.
    pub fn nodes(&self) -> &[Node]
        ensures { result.now ≡ self.now.history.net.nodes }
    {
        &self.cluster.nodes
    }

    /// The events so far with their outcomes, in order. It takes no memory.
    pub fn events(&self) -> &[AppliedEvent]
        ensures { result.now ≡ self.now.history.past }
    {
        self.past.events()
    }

    /// A node, if it is one. It takes no memory.
    pub fn node(&self, id: u64) -> Option<&Node>
        ensures { option_copied result ≡ node_at self.now.history.net.nodes id }
    {
        node_at(&self.cluster.nodes, id)
    }

    /// The store of a node; none where it is no node. It takes no memory.
    pub fn store(&self, id: u64) -> Option<&Store>
        ensures { option_copied result ≡ store_at self.now id }
    {
        match node_at(&self.cluster.nodes, id) {
            None => None,
            Some(node) => Some(node.store()),
        }
    }

    /// The engine of a node; none where the node is stopped or no node. It takes no memory.
    pub fn engine(&self, id: u64) -> Option<&Engine<WorldConfig>>
        ensures { option_map view_of (option_copied result) ≡ engine_at self.now id }
    {
        match node_at(&self.cluster.nodes, id) {
            None => None,
            Some(node) => node.engine(),
        }
    }
}

fn node_at(nodes: &[Node], id: u64) -> Option<&Node>
    ensures { option_copied result ≡ node_at nodes.now id }
{
    nodes.iter().find(|node| node.id() == id)
}
