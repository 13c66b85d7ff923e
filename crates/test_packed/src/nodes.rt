//! Nodes whose snapshots are states, and what comes of a schedule at them.
//!
//! A text is a schedule (`raftsim`'s language). Of its events each message is delivered by its number. Between them stand questions:
//! `node ID` prints what a node has. Each event prints its outcome, how many messages were sent so far, and what else was said.

use crate::digest::Digest;
use crate::show;
use anyhow::{Context, Result, bail};
use raft_command::EngineConfig;
use raft_node::act::{Act, Aim, aim_of};
use raft_node::given::Given;
use raft_node::watch::Unwatched;
use raft_packed::PackedStore;
use raft_packed_node::{Node, Outbox, PackedAct, PackedMessage, StepError};
use raft_schedule::event::{Event, EventKind, Outcome, Start};
use raft_schedule::schedule::{Schedule, parse_schedule};
use raft_schedule::step::{Numbered, Step};
use raft_state::{Items, Membership};
use std::alloc::{AllocError, Global};
use std::collections::BTreeMap;
use std::marker::Model;
use test_words::text::put_line;
use test_words::words::number;

/// A node between two events: its engine is at rest.
#[derive(Drop)]
struct Resting {
    node: Node<Digest>,
}

impl Model for Resting {
    ghost use Rattle.raft_calls.specs.Held.{IsRestingWhereRunning};
    ghost use Rattle.proof_packed.specs.Nodes.{PackedNode};
    ghost use Rattle.test_packed.specs.declared.digest.Digest.{Digest};

    ghost Value = { PackedNode Digest };

    ghost view = { λ s. s.node };

    ghost invariant = { λ s. IsRestingWhereRunning s.node.engine };
}

impl Resting {
    #[tactic(auto, using(crate::proofs::Along::new_along))]
    fn new(alloc: Global, settings: &EngineConfig<u64>, id: u64) -> Result<Self, AllocError> {
        let node = Node::new(alloc, settings, id)?;
        Ok(Resting { node })
    }

    fn stopped(store: PackedStore<Digest>) -> Self {
        Resting {
            node: Node::stopped(1, store, 5),
        }
    }

    /// Plays an event.
    fn step(
        self,
        given: &Given,
        act: PackedAct<Digest>,
        event: &Event,
        said: &mut Outbox<Digest>,
    ) -> Result<(Self, Outcome), StepError> {
        let Resting { mut node } = self;
        let outcome = node.step(given, act, event, said, &mut Unwatched)?;
        Ok((Resting { node }, outcome))
    }
}

/// Nodes by their ids, and all messages that they have sent.
#[derive(Drop)]
struct Cluster {
    given: Given,
    nodes: BTreeMap<u64, Resting>,
    messages: Vec<PackedMessage<Digest>>,
    said: Outbox<Digest>,
}

/// A new node for each id.
fn new_nodes(alloc: Global, given: &Given) -> Result<BTreeMap<u64, Resting>> {
    let mut nodes = BTreeMap::new(alloc);
    for id in given.ids.as_slice() {
        nodes.insert(*id, Resting::new(alloc, &given.settings, *id)?)?;
    }
    Ok(nodes)
}

/// The message with a number, counted from 1.
fn message_at(
    alloc: Global,
    messages: &[PackedMessage<Digest>],
    number: u64,
) -> Result<PackedMessage<Digest>> {
    match messages.get(number.wrapping_sub(1) as usize) {
        Some(message) => Ok(message.copy(alloc)?),
        None => bail!("no message {number}"),
    }
}

/// The node that takes a message, and the act.
fn delivery(message: PackedMessage<Digest>) -> (u64, PackedAct<Digest>) {
    (message.message.to, PackedAct::take(message))
}

/// The node of an event that delivers nothing, and what it does there.
fn plain_act(alloc: Global, kind: &EventKind) -> Result<(u64, PackedAct<Digest>)> {
    match aim_of(alloc, &[], kind)? {
        Some(Aim { id, act }) => Ok((id, PackedAct::plain(act))),
        None => bail!("no such event"),
    }
}

/// The node of an event, and what it does there.
fn act_of(
    alloc: Global,
    messages: &[PackedMessage<Digest>],
    kind: &EventKind,
) -> Result<(u64, PackedAct<Digest>)> {
    match kind {
        EventKind::Deliver(number) => Ok(delivery(message_at(alloc, messages, *number)?)),
        _ => plain_act(alloc, kind),
    }
}

/// Plays an act of an event at the node with this id.
fn play_at(
    cluster: &mut Cluster,
    id: u64,
    act: PackedAct<Digest>,
    event: &Event,
) -> Result<Outcome> {
    let Some(node) = cluster.nodes.remove(&id) else {
        bail!("no node {id}");
    };
    let (node, outcome) = node.step(&cluster.given, act, event, &mut cluster.said)?;
    cluster.nodes.insert(id, node)?;
    Ok(outcome)
}

/// Puts what was said behind the messages so far, and prints the rest of it.
fn send_said(alloc: Global, cluster: &mut Cluster, told: &mut Vec<u8>) -> Result<()> {
    let said = cluster.said.take(alloc);
    show::put_said(&said, told)?;
    for message in said.messages {
        cluster.messages.push(message)?;
    }
    Ok(())
}

/// Plays an event.
fn happen(alloc: Global, cluster: &mut Cluster, event: &Event, told: &mut Vec<u8>) -> Result<()> {
    let (id, act) = act_of(alloc, &cluster.messages, &event.kind)?;
    let outcome = play_at(cluster, id, act, event)?;
    put_line(format_args!("{outcome:?}"), told)?;
    send_said(alloc, cluster, told)?;
    let sent = cluster.messages.len();
    put_line(format_args!("sent {sent}"), told)
}

fn take_step(alloc: Global, cluster: &mut Cluster, step: &Step, told: &mut Vec<u8>) -> Result<()> {
    match step {
        Step::Happens(event) => happen(alloc, cluster, event, told),
        _ => bail!("no event"),
    }
}

/// The id of a question for a node.
fn question(line: &str) -> Option<&str> {
    line.strip_prefix("node ")
}

fn answer(cluster: &Cluster, id: &str, told: &mut Vec<u8>) -> Result<()> {
    match cluster.nodes.get(&number(id)?) {
        Some(resting) => show::put_node(&resting.node, told),
        None => bail!("no such node"),
    }
}

/// A line: a question, or the step that the schedule has there.
fn take(
    alloc: Global,
    cluster: &mut Cluster,
    step: Option<&Numbered>,
    line: &str,
    told: &mut Vec<u8>,
) -> Result<()> {
    match (question(line), step) {
        (Some(id), _) => answer(cluster, id, told),
        (None, Some(numbered)) => take_step(alloc, cluster, &numbered.step, told),
        (None, None) => Ok(()),
    }
}

/// Each line in turn.
fn take_all(
    alloc: Global,
    cluster: &mut Cluster,
    steps: &[Numbered],
    text: &str,
    told: &mut Vec<u8>,
) -> Result<()> {
    let mut number = 0u64;
    for line in text.lines() {
        number = number.saturating_add(1);
        let step = steps.iter().find(|it| it.line == number);
        take(alloc, cluster, step, line, told).context(format_args!("line {line:?}"))?;
    }
    Ok(())
}

/// The schedule of a text. A question is an empty line of it, so that the other lines keep their numbers.
fn schedule_of(alloc: Global, text: &str) -> Result<Schedule> {
    let mut lines = String::new(alloc);
    for line in text.lines() {
        if question(line).is_none() {
            lines.push_str(line)?;
        }
        lines.push('\n')?;
    }
    Ok(parse_schedule(alloc, lines.as_str())?)
}

/// Plays a schedule at new nodes, and answers its questions.
pub fn play(alloc: Global, text: &str, told: &mut Vec<u8>) -> Result<()> {
    let Schedule {
        nodes,
        membership,
        settings,
        steps,
        ..
    } = schedule_of(alloc, text)?;
    let given = Given {
        ids: Items::from_vec(nodes),
        membership,
        settings,
    };
    let mut cluster = Cluster {
        nodes: new_nodes(alloc, &given)?,
        given,
        messages: Vec::new(alloc),
        said: Outbox::new(alloc),
    };
    take_all(alloc, &mut cluster, &steps, text, told)
}

/// What a single node is given.
fn given_alone(alloc: Global) -> Result<Given> {
    Ok(Given {
        ids: Items::new(alloc),
        membership: Membership::new(alloc, Vec::new(alloc), Vec::new(alloc))?,
        settings: EngineConfig::default(),
    })
}

/// Starts a node on a store.
fn started(
    alloc: Global,
    given: &Given,
    store: PackedStore<Digest>,
    start: Start,
) -> Result<(Resting, Outcome), StepError> {
    let event = Event {
        kind: EventKind::Restart { id: 1, start },
        at: None,
        stop: None,
    };
    let act = PackedAct::plain(Act::Restart(start));
    Resting::stopped(store).step(given, act, &event, &mut Outbox::new(alloc))
}

/// Starts a node on a store, and prints what it has then, or why it didn't start.
pub fn start(
    alloc: Global,
    store: PackedStore<Digest>,
    start: Start,
    told: &mut Vec<u8>,
) -> Result<()> {
    let given = given_alone(alloc)?;
    match started(alloc, &given, store, start) {
        Ok((resting, _)) => show::put_node(&resting.node, told),
        Err(error) => put_line(error, told),
    }
}
