//! The nodes of a world, and an event at one of them.

ghost use Rattle.std.specs.Prelude.{◌≡◌, IfOk, ℕ};
ghost use Rattle.raft_node.specs.Events.{at_place, happens, place_of, played};
ghost use Rattle.raft_node.specs.Held.{AllResting};
ghost use Rattle.raft_node.specs.MayKeep.{AllMayKeep, KeepsDuring};
ghost use Rattle.raft_node.specs.Runs.{whole_logs};
ghost use Rattle.raft_node.specs.Work.{weight};

use raft_node::act::{Act, Aim, aim_of};
use raft_node::given::Given;
use raft_node::node::Node;
use raft_node::record::Records;
use raft_node::watch::Watch;
use raft_schedule::event::{Event, Outcome, SkipReason};
use std::alloc::{AllocError, Global};
use std::marker::Model;

/// The nodes of a world, and what they sent, executed, installed, decided and established.
#[derive(Debug, Drop)]
pub(crate) struct Cluster {
    pub nodes: Vec<Node>,
    pub records: Records,
}

impl Model for Cluster {
    ghost use Rattle.std.specs.Prelude.{List};
    ghost use Rattle.raft_store.specs.declared.entry.Entry.{Entry};
    ghost use Rattle.raft_node.specs.Net.{Net};

    ghost Value = { Net (List Entry) };

    ghost view = { λ s. record { nodes = s.nodes.items; records = s.records } };
}

#[tactic(auto, unfolding(raft_node::specs::Events::place_of))]
fn place_of(nodes: &[Node], id: u64) -> Option<usize>
    ensures { result ≡ place_of nodes.now id }
{
    nodes.iter().position(|node| node.id() == id)
}

impl Cluster {
    /// Plays an event's act at the node at a place.
    fn play_at<W: Watch<Records>>(
        &mut self,
        alloc: Global,
        given: &Given,
        place: usize,
        act: Act,
        event: &Event,
        watch: &mut W,
    ) -> Result<Outcome, AllocError>
        requires resting { AllResting self.old.nodes }
        requires keeps { (n : ℕ) → AllMayKeep (at_place self.old place (played whole_logs (λ _. n) given.now act event.now)).1 }
        ensures { IfOk result (λ o. record { 0 = o; 1 = self.new } ≡ at_place self.old place (played whole_logs weight given.now act event.now)) }
    {
        let Some(node) = self.nodes.get_mut(place) else {
            return Ok(Outcome::Skipped(SkipReason::NotRunning));
        };
        node.play(alloc, given, act, event, &mut self.records, watch)
    }

    /// Plays an event at its node: what comes of it.
    #[tactic(auto, unfolding(raft_node::specs::Events::happens))]
    pub fn apply<W: Watch<Records>>(
        &mut self,
        alloc: Global,
        given: &Given,
        event: &Event,
        watch: &mut W,
    ) -> Result<Outcome, AllocError>
        requires resting { AllResting self.old.nodes }
        requires keeps { KeepsDuring given.now event.now self.old }
        ensures { IfOk result (λ o. record { 0 = o; 1 = self.new } ≡ happens whole_logs weight given.now event.now self.old) }
    {
        let Some(aim) = aim_of(alloc, self.records.messages(), &event.kind)? else {
            return Ok(Outcome::Skipped(SkipReason::NoMessage));
        };
        let Aim { id, act } = aim;
        let Some(place) = place_of(&self.nodes, id) else {
            return Ok(Outcome::Skipped(SkipReason::NotRunning));
        };
        self.play_at(alloc, given, place, act, event, watch)
    }
}
