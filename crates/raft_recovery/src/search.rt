//! The ways on that are tried, each played event by event: starts, timeouts and votes; then a proposal, which other nodes are
//! brought and told (Raft paper, sections 5.2 and 5.3).

ghost use Rattle.std.specs.Prelude.{ℕ, ◌≡◌, ◌+◌, ◌-◌, ◌*◌, ◌++◌, ◌∷◌, List, [], OnOk, Some};
ghost use Rattle.std.specs.Option.{option_map};
ghost use Rattle.raft_state.specs.Order.{next};
ghost use Rattle.raft_store.specs.Types.{EngineView};
ghost use Rattle.raft_calls.specs.Engines.{view_of};
ghost use Rattle.raft_calls.specs.LeaderCalls.{inflight_to};
ghost use Rattle.proof_progress.specs.Continuations.{propose, timeout};
ghost use Rattle.proof_progress.specs.Elections.{log_end};
ghost use Rattle.proof_progress.specs.Plans.{asks_vote, bring, bring_all, collect, elect, exchange, exchanges, is_leading, number_of, replicate};
ghost use Rattle.proof_progress.specs.Plans.{request_to, running, sends, start_bare, starts, tell, tell_all, tells, timeouts, times};
ghost use Rattle.proof_progress.specs.Plans.{votes_from, way_on};
ghost use Rattle.raft_recovery.specs.Ways.{last_id_at, played, way_of};

use crate::error::Failure;
use crate::messages::{Contents, Sought, number_of};
use crate::plan::{Plan, plan_of};
use crate::scratch::apply;
use crate::starting::Found;
use raft_calls::deliver::session_of;
use raft_engine::Engine;
use raft_progress_entry::Inflight;
use raft_state::{Items, LogId, Vote};
use raft_store::{Value, WorldConfig};
use raft_world::{Event, EventKind, Start, World};
use std::alloc::Global;

/// Plays an event at a moment.
fn play(world: &mut World, now: u64, kind: EventKind) -> Result<(), Failure>
    ensures { OnOk result (world.new ≡ played (record { kind = kind; at = Some now; stop = None } ∷ []) world.old) }
{
    apply(
        world,
        Event {
            kind,
            at: Some(now),
            stop: None,
        },
    )
}

/// Delivers a request, and then the last message by then: the answer to it.
fn exchange(world: &mut World, now: u64, number: u64) -> Result<(), Failure>
    ensures { OnOk result (world.new ≡ played (exchange world.old.given now number world.old.history.net) world.old) }
{
    play(world, now, EventKind::Deliver(number))?;
    let answer = world.messages().len() as u64;
    play(world, now, EventKind::Deliver(answer))
}

/// A node makes a bare start, as a server does, at its last moment.
fn start(world: &mut World, id: u64) -> Result<(), Failure>
    ensures { OnOk result (world.new ≡ played (start_bare id ∷ []) world.old) }
{
    let start = Start::Bare;
    let event = Event {
        kind: EventKind::Restart { id, start },
        at: None,
        stop: None,
    };
    apply(world, event)
}

/// One node after another starts.
fn start_all(world: &mut World, ids: &[u64]) -> Result<(), Failure>
    ensures { OnOk result (world.new ≡ played (starts ids.now) world.old) }
{
    for id in ids {
        start(world, *id)?;
    }
    Ok(())
}

/// Whether a node leads.
fn is_leading(world: &World, id: u64) -> bool
    ensures { result ≡ is_leading world.now.history.net id }
{
    match world.engine(id) {
        Some(engine) => engine.leader.is_some(),
        None => false,
    }
}

/// A candidate's vote, and the last id of its log.
#[derive(Clone, Copy)]
struct Ballot {
    id: u64,
    vote: Vote<u64>,
    last: Option<LogId<u64>>,
}

/// The number of a candidate's request for a voter's vote.
fn vote_request(world: &World, ballot: &Ballot, voter: u64) -> Option<u64>
    ensures { result ≡ number_of (sends ballot.now.id voter (asks_vote ballot.now.vote ballot.now.last)) world.now.history.net.records.bag }
{
    let contents = Contents::VoteRequest {
        vote: ballot.vote,
        last: ballot.last,
    };
    number_of(
        world,
        &Sought {
            from: ballot.id,
            to: voter,
            contents,
        },
    )
}

/// Voter after voter is asked for its vote, until the candidate leads.
fn collect(world: &mut World, now: u64, ballot: &Ballot, voters: &[u64]) -> Result<(), Failure>
    ensures { OnOk result (world.new
        ≡ played (collect world.old.given now ballot.now.id ballot.now.vote ballot.now.last voters.now world.old.history.net) world.old) }
{
    for voter in voters {
        if is_leading(world, ballot.id) {
            return Ok(());
        }
        let Some(number) = vote_request(world, ballot, *voter) else {
            return Ok(());
        };
        exchange(world, now, number)?;
    }
    Ok(())
}

/// The ballot of a running node.
fn ballot_of(world: &World, id: u64) -> Option<Ballot>
    ensures { result ≡ option_map (λ (e : EngineView). record { id = id; vote = e.machine.core.state.vote; last = log_end e })
        (running world.now.history.net id) }
{
    let engine = world.engine(id)?;
    Some(Ballot {
        id,
        vote: engine.state.vote,
        last: engine.state.last_log_id(),
    })
}

/// The last id of a running node's log.
pub(crate) fn last_id(world: &World, id: u64) -> Option<LogId<u64>>
    ensures { result ≡ last_id_at world.now.history.net id }
{
    match ballot_of(world, id) {
        None => None,
        Some(ballot) => ballot.last,
    }
}

/// As many timeouts of a node as there are terms from one up to another.
fn time_out(world: &mut World, now: u64, id: u64, first: u64, last: u64) -> Result<(), Failure>
    ensures { OnOk result (world.new ≡ played (times (last + 1 - first) (timeout id now)) world.old) }
{
    if last < first {
        return Ok(());
    }
    play(world, now, EventKind::Timeout(id))?;
    for _term in first..last {
        play(world, now, EventKind::Timeout(id))?;
    }
    Ok(())
}

/// A node stands for election until its term is two above this one.
fn stand(world: &mut World, now: u64, id: u64, term: u64) -> Result<(), Failure>
    ensures { OnOk result (world.new ≡ played (timeouts world.old.given now id (term + 1) world.old.history.net) world.old) }
{
    let Some(ballot) = ballot_of(world, id) else {
        return Ok(());
    };
    play(world, now, EventKind::Timeout(id))?;
    time_out(world, now, id, ballot.vote.leader_id.term, term)
}

/// A candidate asks these voters.
fn ask_votes(world: &mut World, now: u64, id: u64, voters: &[u64]) -> Result<(), Failure>
    ensures { OnOk result (world.new ≡ played (votes_from world.old.given now id voters.now world.old.history.net) world.old) }
{
    match ballot_of(world, id) {
        None => Ok(()),
        Some(ballot) => collect(world, now, &ballot, voters),
    }
}

/// A node stands for election above a term, and asks these voters.
fn elect(world: &mut World, now: u64, id: u64, term: u64, voters: &[u64]) -> Result<(), Failure>
    ensures { OnOk result (world.new ≡ played (elect world.old.given now id (term + 1) voters.now world.old.history.net) world.old) }
{
    stand(world, now, id, term)?;
    ask_votes(world, now, id, voters)
}

/// What is in flight from a leader to a node.
fn inflight_to(engine: &Engine<WorldConfig>, other: u64) -> Inflight<u64>
    ensures { result ≡ inflight_to other (view_of engine.now) }
{
    let Some(leader) = &engine.leader else {
        return Inflight::None;
    };
    match leader.progress.get(&other) {
        Some(progress) => progress.inflight,
        None => Inflight::None,
    }
}

/// The number of the request by which something is in flight from a leader to a node.
fn request_to(world: &World, id: u64, other: u64) -> Option<u64>
    ensures { result ≡ request_to world.now.history.net id other }
{
    let engine = world.engine(id)?;
    let session_id = session_of(engine)?;
    let contents = Contents::Inflight {
        session_id,
        inflight: inflight_to(engine, other),
    };
    number_of(
        world,
        &Sought {
            from: id,
            to: other,
            contents,
        },
    )
}

/// Exchanges what is in flight from a leader to a node, if anything is.
fn exchange_next(world: &mut World, now: u64, id: u64, other: u64) -> Result<(), Failure>
    ensures { OnOk result (world.new ≡ played (exchanges world.old.given now 1 id other world.old.history.net) world.old) }
{
    match request_to(world, id, other) {
        None => Ok(()),
        Some(number) => exchange(world, now, number),
    }
}

/// The same twice.
fn exchange_twice(world: &mut World, now: u64, id: u64, other: u64) -> Result<(), Failure>
    ensures { OnOk result (world.new ≡ played (exchanges world.old.given now 2 id other world.old.history.net) world.old) }
{
    exchange_next(world, now, id, other)?;
    exchange_next(world, now, id, other)
}

/// The same twice for each index of a log that ends with this id.
fn exchange_log(
    world: &mut World,
    now: u64,
    id: u64,
    other: u64,
    last: &Option<LogId<u64>>,
) -> Result<(), Failure>
    ensures { OnOk result (world.new
        ≡ played (exchanges world.old.given now (2 * next last.now) id other world.old.history.net) world.old) }
{
    let Some(end) = last else {
        return Ok(());
    };
    exchange_twice(world, now, id, other)?;
    for _index in 0..end.index {
        exchange_twice(world, now, id, other)?;
    }
    Ok(())
}

/// What is in flight to a node fails, and then exchanges bring its log to match the leader's.
fn bring(world: &mut World, now: u64, id: u64, other: u64) -> Result<(), Failure>
    ensures { OnOk result (world.new ≡ played (bring world.old.given now id other world.old.history.net) world.old) }
{
    let last = last_id(world, id);
    play(world, now, EventKind::Fail { id, target: other })?;
    exchange_log(world, now, id, other, &last)
}

/// One node after another is brought.
fn bring_all(world: &mut World, now: u64, id: u64, others: &[u64]) -> Result<(), Failure>
    ensures { OnOk result (world.new ≡ played (bring_all world.old.given now id others.now world.old.history.net) world.old) }
{
    for other in others {
        bring(world, now, id, *other)?;
    }
    Ok(())
}

/// A leader's vote, and what it has committed.
#[derive(Clone, Copy)]
struct Commit {
    id: u64,
    vote: Vote<u64>,
    committed: Option<LogId<u64>>,
}

/// The number of the message that tells a node what is committed.
fn told(world: &World, commit: &Commit, other: u64) -> Option<u64>
    ensures { result ≡ number_of (sends commit.now.id other (tells commit.now.vote commit.now.committed)) world.now.history.net.records.bag }
{
    let contents = Contents::Committed {
        vote: commit.vote,
        committed: commit.committed,
    };
    number_of(
        world,
        &Sought {
            from: commit.id,
            to: other,
            contents,
        },
    )
}

/// Nodes are told what is committed.
fn tell_all(world: &mut World, now: u64, commit: &Commit, others: &[u64]) -> Result<(), Failure>
    ensures { OnOk result (world.new
        ≡ played (tell_all world.old.given now commit.now.id commit.now.vote commit.now.committed others.now world.old.history.net) world.old) }
{
    for other in others {
        let Some(number) = told(world, commit, *other) else {
            return Ok(());
        };
        play(world, now, EventKind::Deliver(number))?;
    }
    Ok(())
}

/// A running node's vote, and what it has committed.
fn commit_of(world: &World, id: u64) -> Option<Commit>
    ensures { result
        ≡ option_map (λ (e : EngineView). record { id = id; vote = e.machine.core.state.vote; committed = e.machine.core.state.committed })
        (running world.now.history.net id) }
{
    let engine = world.engine(id)?;
    Some(Commit {
        id,
        vote: engine.state.vote,
        committed: engine.state.committed(),
    })
}

/// A leader tells nodes what it has committed.
fn tell(world: &mut World, now: u64, id: u64, others: &[u64]) -> Result<(), Failure>
    ensures { OnOk result (world.new ≡ played (tell world.old.given now id others.now world.old.history.net) world.old) }
{
    match commit_of(world, id) {
        None => Ok(()),
        Some(commit) => tell_all(world, now, &commit, others),
    }
}

/// A leader proposes a value.
fn propose(
    alloc: Global,
    world: &mut World,
    now: u64,
    id: u64,
    value: &Value,
) -> Result<(), Failure>
    ensures { OnOk result (world.new ≡ played (propose id (value.now ∷ []) now ∷ []) world.old) }
{
    let mut values = Vec::new(alloc);
    values.push(value.copy()?)?;
    let values = Items::from_vec(values);
    play(world, now, EventKind::Propose { id, values })
}

/// A leader proposes a value, which other nodes are brought, and told as committed.
fn replicate(alloc: Global, world: &mut World, plan: &Plan, value: &Value) -> Result<(), Failure>
    ensures { OnOk result (world.new ≡ played
        (replicate world.old.given plan.now.moment plan.now.id (value.now ∷ []) plan.now.others.items world.old.history.net) world.old) }
{
    propose(alloc, world, plan.moment, plan.id, value)?;
    bring_all(world, plan.moment, plan.id, &plan.others)?;
    tell(world, plan.moment, plan.id, &plan.others)
}

/// The nodes of a plan start.
fn start_planned(world: &mut World, plan: &Plan) -> Result<(), Failure>
    ensures { OnOk result (world.new ≡ played (starts (plan.now.id ∷ plan.now.others.items)) world.old) }
{
    start(world, plan.id)?;
    start_all(world, &plan.others)
}

/// The nodes of a plan start; one is elected by the voters, and replicates a value.
fn play_plan(alloc: Global, world: &mut World, plan: &Plan, value: &Value) -> Result<(), Failure>
    ensures { (learners : List ℕ) → plan.now.others.items ≡ plan.now.voters.items ++ learners → OnOk result (world.new ≡ played
        (way_on world.old.given plan.now.moment plan.now.id (plan.now.term + 1) plan.now.voters.items learners (value.now ∷ []) world.old.history.net)
        world.old) }
{
    start_planned(world, plan)?;
    elect(world, plan.moment, plan.id, plan.term, &plan.voters)?;
    replicate(alloc, world, plan, value)
}

/// Plays the way on of a candidate that finds this.
pub(crate) fn go_on(
    alloc: Global,
    world: &mut World,
    up: &[u64],
    id: u64,
    found: &Found,
    value: &Value,
) -> Result<(), Failure>
    ensures { OnOk result (world.new ≡ played (way_of world.old.given world.old.history.net up.now value.now id found.now) world.old) }
{
    let plan = plan_of(alloc, world, up, id, &found.membership)?;
    play_plan(alloc, world, &plan, value)
}
