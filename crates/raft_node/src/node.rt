//! The nodes of a world, and events at them.

ghost use Rattle.std.specs.Prelude.{◌≡◌, IfOk, OnOk, max, unwrap_or, Option, None};
ghost use Rattle.std.specs.List.{fold};
ghost use Rattle.std.specs.Option.{option_map, option_copied};
ghost use Rattle.std.specs.Ordering.{nat_cmp};
ghost use Rattle.raft_state.specs.Invariants.{IsSoundState};
ghost use Rattle.raft_node.specs.Commands.{all_executed, commands_at};
ghost use Rattle.raft_calls.specs.Engines.{view_of};
ghost use Rattle.raft_node.specs.Events.{answer_at, called_at, calls, calls_at, finish, moment_of, outcome_of, played, scene, skip_reason};
ghost use Rattle.raft_node.specs.Events.{skip_running, turn_of, with_answer, work_of};
ghost use Rattle.raft_node.specs.Held.{IsAtRest, MayCall, NotedFits};
ghost use Rattle.raft_calls.specs.Held.{IsReadyWhereRunning, IsRestingWhereRunning};
ghost use Rattle.raft_node.specs.MayKeep.{KeepsAlong, KeepsThrough};
ghost use Rattle.raft_node.specs.Net.{new_node, no_streams, stopped_node};
ghost use Rattle.raft_node.specs.Runs.{whole_logs};
ghost use Rattle.raft_node.specs.Snapshots.{finish_snapshot, skip_finish};
ghost use Rattle.raft_node.specs.Starts.{opened, restart, started_at, state_for};
ghost use Rattle.raft_node.specs.Work.{weight};

use crate::act::{Act, skip_stopped};
use crate::given::Given;
use crate::record::Records;
use crate::watch::Watch;
use raft_calls::deliver::{deliver, skip_delivery};
use raft_calls::elections::{elect, initialize, skip_elect, skip_initialize};
use raft_calls::lead::{
    Answer, ask_read, fail, propose, read_answer, send_heartbeats, skip_fail, skip_propose,
    skip_step_down, step_down,
};
use raft_calls::membership::{change_learners, change_membership, skip_change, skip_learners};
use raft_calls::message::Message;
use raft_calls::raft_engine::Engine;
use raft_calls::snapshots::{tell_built, trigger_purge, trigger_snapshot};
use raft_calls::start::{start_engine, started_engine};
use raft_command::{EngineConfig, ReplicationSessionId};
use raft_schedule::event::{Event, Outcome, SkipReason, Start};
use raft_state::{Items, RaftState};
use raft_store::{Entry, Store, WorldConfig};
use std::alloc::{AllocError, Global};
use std::marker::Model;

/// Whom a leader replicates to, and in which session.
#[derive(Debug, Drop)]
pub struct Streams {
    pub targets: Items<u64>,
    pub session_id: Option<ReplicationSessionId<u64>>,
}

impl Streams {
    /// No streams, as of a node that doesn't lead.
    pub fn none(alloc: Global) -> Self
        ensures { result ≡ no_streams }
    {
        Streams {
            targets: Items::new(alloc),
            session_id: None,
        }
    }
}

/// What a node has while it runs, and loses when it stops.
#[derive(Debug)]
pub struct Running {
    pub engine: Engine<WorldConfig>,
    pub streams: Streams,
    /// The entries for the next snapshot, while it is built.
    pub noted: Option<Items<Entry>>,
}

// Written out, so that it is proved once: a derived one is laid out wherever a running node may be dropped.
impl Drop for Running {
    fn drop(self) {
        let Running {
            engine: _,
            streams: _,
            noted: _,
        } = self;
    }
}

impl Running {
    /// A node begins to run with this engine: without streams, and with nothing noted for a snapshot.
    fn new(alloc: Global, engine: Engine<WorldConfig>) -> Self
        ensures { result ≡ record { engine = engine; streams = no_streams; noted = None } }
    {
        Running {
            engine,
            streams: Streams::none(alloc),
            noted: None,
        }
    }
}

/// A node: its store, which survives a stop, and what it has while it runs.
#[derive(Debug)]
pub struct Node {
    id: u64,
    pub(crate) store: Store,
    pub(crate) running: Option<Running>,
    /// The greatest moment of its events, in milliseconds.
    moment: u64,
}

// Written out, so that it is proved once: a derived one is laid out wherever a node may be dropped.
impl Drop for Node {
    fn drop(self) {
        let Node {
            id: _,
            store: _,
            running: _,
            moment: _,
        } = self;
    }
}

impl Model for Node {
    ghost use Rattle.std.specs.Prelude.{None, Some};
    ghost use Rattle.std.specs.Option.{option_map};
    ghost use Rattle.raft_calls.specs.Engines.{view_of};
    ghost use Rattle.raft_node.specs.Net.{NodeView, no_streams};

    ghost Value = { NodeView };

    ghost view = { λ s. record {
      id = s.id;
      store = s.store;
      engine = option_map (λ r. view_of r.engine) s.running;
      streams = elim s.running [ None ↦ no_streams | Some r ↦ r.streams ];
      noted = elim s.running [ None ↦ None | Some r ↦ r.noted ];
      moment = s.moment;
    } };
}

/// The circumstances of an event: the node's id, the moment, and the delivered message.
#[derive(Drop)]
pub struct Turn {
    pub id: u64,
    pub moment: u64,
    pub request: Option<Message>,
}

/// Records an answer, if there is one.
fn record_answer(answer: Option<Answer>, records: &mut Records) -> Result<(), AllocError>
    ensures { OnOk result (records.new ≡ with_answer answer records.old) }
{
    match answer {
        Some(answer) => records.answer(answer),
        None => Ok(()),
    }
}

impl Node {
    /// A node that starts empty.
    pub fn new(alloc: Global, settings: &EngineConfig<u64>, id: u64) -> Result<Self, AllocError>
        ensures { IfOk result (λ node. node ≡ new_node settings.now id) }
    {
        let engine = start_engine(alloc, settings, id, RaftState::empty(alloc))?;
        Ok(Node {
            id,
            store: Store::new(alloc),
            running: Some(Running::new(alloc, engine)),
            moment: 0,
        })
    }

    /// The node's id.
    pub fn id(&self) -> u64
        ensures { result ≡ self.now.id }
    {
        self.id
    }

    /// What the node has stored.
    pub fn store(&self) -> &Store
        ensures { result.now ≡ self.now.store }
    {
        &self.store
    }

    /// The node's engine, while it runs.
    pub fn engine(&self) -> Option<&Engine<WorldConfig>>
        ensures { option_map view_of (option_copied result) ≡ self.now.engine }
    {
        match &self.running {
            Some(running) => Some(&running.engine),
            None => None,
        }
    }

    /// The entries that are noted for a snapshot, while it is built.
    pub fn noted(&self) -> Option<&Items<Entry>>
        ensures { option_copied result ≡ self.now.noted }
    {
        match &self.running {
            Some(running) => running.noted.as_ref(),
            None => None,
        }
    }

    /// The greatest moment of the node's events, in milliseconds.
    pub fn moment(&self) -> u64
        ensures { result ≡ self.now.moment }
    {
        self.moment
    }

    /// Why the act is skipped at the node.
    fn skip_reason(&self, alloc: Global, act: &Act) -> Result<Option<SkipReason>, AllocError>
        ensures { IfOk result (λ reason. reason ≡ skip_reason act.now self.now) }
    {
        match self.engine() {
            Some(engine) => self.skip_running(alloc, act, engine),
            None => Ok(skip_stopped(act)),
        }
    }

    /// Why the act is skipped at the running node.
    fn skip_running(
        &self,
        alloc: Global,
        act: &Act,
        engine: &Engine<WorldConfig>,
    ) -> Result<Option<SkipReason>, AllocError>
        ensures { IfOk result (λ reason. reason ≡ skip_running act.now self.now (view_of engine.now)) }
    {
        match act {
            Act::Initialize => Ok(skip_initialize(engine)),
            Act::Elect(candidates) => Ok(skip_elect(*candidates, engine)),
            Act::Take(message) => Ok(skip_delivery(&message.body, engine)),
            Act::Propose(_) => Ok(skip_propose(engine)),
            Act::Fail(target) => Ok(skip_fail(*target, engine)),
            Act::FinishSnapshot => Ok(self.skip_finish()),
            Act::ChangeLearners(learners) => skip_learners(alloc, learners.as_slice(), engine),
            Act::ChangeMembership { groups, learners } => {
                skip_change(alloc, groups.as_slice(), learners.as_slice(), engine)
            }
            Act::StepDown => Ok(skip_step_down(engine)),
            Act::SendHeartbeat
            | Act::TriggerSnapshot
            | Act::TriggerPurge(_)
            | Act::Restart(_)
            | Act::Read
            | Act::Stop => Ok(None),
        }
    }

    /// Skips the end of a build where nothing is noted for a snapshot.
    fn skip_finish(&self) -> Option<SkipReason>
        ensures { result ≡ skip_finish self.now }
    {
        match self.noted() {
            Some(_) => None,
            None => Some(SkipReason::NothingBuilt),
        }
    }

    /// Makes the act's calls, and returns the number of the refusal, if any. A stopped node has calls to make only when
    /// it restarts.
    fn call(&mut self, alloc: Global, given: &Given, act: &Act) -> Result<Option<u8>, AllocError>
        requires resting { IsRestingWhereRunning self.old.engine }
        requires may { MayCall act.now self.old }
        requires taken { skip_reason act.now self.old ≡ None }
        ensures { IfOk result (λ refusal. record { 0 = refusal; 1 = self.new } ≡ calls_at given.now act.now self.old) }
    {
        let moment = self.moment;
        match (act, &mut self.running) {
            (Act::Restart(start), _) => self.restart(alloc, &given.settings, *start),
            (_, None) => Ok(None),
            (Act::Initialize, Some(running)) => {
                initialize(alloc, &given.membership, moment, &mut running.engine)
            }
            (Act::Elect(_), Some(running)) => elect(moment, &mut running.engine),
            (Act::Take(message), Some(running)) => deliver(
                alloc,
                message.from,
                &message.body,
                moment,
                &mut running.engine,
            ),
            (Act::Propose(values), Some(running)) => {
                propose(alloc, values.as_slice(), &mut running.engine)
            }
            (Act::SendHeartbeat, Some(running)) => send_heartbeats(&mut running.engine),
            (Act::Fail(target), Some(running)) => fail(alloc, *target, &mut running.engine),
            (Act::TriggerSnapshot, Some(running)) => trigger_snapshot(&mut running.engine),
            (Act::FinishSnapshot, Some(_)) => self.finish_snapshot(alloc),
            (Act::TriggerPurge(index), Some(running)) => {
                trigger_purge(*index, &mut running.engine)
            }
            (Act::ChangeLearners(learners), Some(running)) => {
                change_learners(alloc, learners.as_slice(), &mut running.engine)
            }
            (Act::ChangeMembership { groups, learners }, Some(running)) => change_membership(
                alloc,
                groups.as_slice(),
                learners.as_slice(),
                &mut running.engine,
            ),
            (Act::Read, Some(running)) => Ok(ask_read(&mut running.engine)),
            (Act::StepDown, Some(running)) => step_down(&mut running.engine),
            (Act::Stop, Some(_)) => {
                self.stop();
                Ok(None)
            }
        }
    }

    /// The leader's answer, if the act is a read that isn't refused.
    fn answer(&self, act: &Act) -> Option<Answer>
        ensures { result ≡ answer_at act.now self.now }
    {
        match (act, self.engine()) {
            (Act::Read, Some(engine)) => read_answer(self.id, engine),
            _ => None,
        }
    }

    /// Starts the node on its store: a running one is stopped first. Returns the number of the refusal, if any.
    ///
    /// Source: Raft paper, figure 2 and section 5.5.
    #[tactic(auto, using(crate::proofs::Along::restart_along))]
    fn restart(
        &mut self,
        alloc: Global,
        settings: &EngineConfig<u64>,
        start: Start,
    ) -> Result<Option<u8>, AllocError>
        requires { IsSoundState nat_cmp (state_for start self.old.store) }
        ensures { IfOk result (λ refusal. record { 0 = refusal; 1 = self.new } ≡ restart settings.now start self.old) }
    {
        let state = self.prepare(start)?;
        self.start_with(alloc, settings, start, state)
    }

    /// Stops the node, and makes its store ready for a start, to which it gives this state.
    fn prepare(&mut self, start: Start) -> Result<RaftState<u64, ()>, AllocError>
        ensures opened { OnOk result (self.new ≡ opened start self.old) }
        ensures state { IfOk result (λ state. state ≡ state_for start self.old.store) }
    {
        self.stop();
        if start == Start::Bare {
            self.store.forget_committed();
        }
        self.store.restart(start == Start::Saved)
    }

    /// Stops the node: it keeps its store and its clock alone.
    pub(crate) fn stop(&mut self)
        ensures { self.new ≡ stopped_node self.old }
    {
        self.running = None;
    }

    /// Runs the node, whatever it ran before, with an engine that starts with this state. Returns the number of the
    /// refusal, if any.
    fn start_with(
        &mut self,
        alloc: Global,
        settings: &EngineConfig<u64>,
        start: Start,
        state: RaftState<u64, ()>,
    ) -> Result<Option<u8>, AllocError>
        requires { IsSoundState nat_cmp state }
        ensures { IfOk result (λ refusal. record { 0 = refusal; 1 = self.new }
            ≡ started_at settings.now start state (record self.old { streams = no_streams; noted = None })) }
    {
        let moment = self.moment;
        let (engine, refusal) = started_engine(alloc, settings, self.id, start, state, moment)?;
        self.running = Some(Running::new(alloc, engine));
        Ok(refusal)
    }

    /// Ends the build of the noted snapshot: the engine is told of it, and the store keeps it. If the engine refuses it,
    /// it stays noted.
    fn finish_snapshot(&mut self, alloc: Global) -> Result<Option<u8>, AllocError>
        requires resting { IsRestingWhereRunning self.old.engine }
        requires noted { NotedFits self.old.engine self.old.noted }
        ensures { IfOk result (λ refusal. record { 0 = refusal; 1 = self.new } ≡ finish_snapshot self.old) }
    {
        let Some(running) = self.running.as_mut() else {
            return Ok(None);
        };
        let Some(entries) = running.noted.take() else {
            return Ok(None);
        };
        match tell_built(alloc, entries.as_slice(), &mut running.engine)? {
            Some(refusal) => {
                running.noted = Some(entries);
                Ok(Some(refusal))
            }
            None => {
                self.store.keep_snapshot(entries)?;
                Ok(None)
            }
        }
    }

    /// Makes the act's calls at this moment, and records what they answer. Returns the number of the refusal, if any.
    fn begin(
        &mut self,
        alloc: Global,
        given: &Given,
        act: &Act,
        moment: u64,
        records: &mut Records,
    ) -> Result<Option<u8>, AllocError>
        requires resting { IsRestingWhereRunning self.old.engine }
        requires may { MayCall act.now self.old }
        requires taken { skip_reason act.now self.old ≡ None }
        ensures { IfOk result (λ refusal. record { 0 = refusal; 1 = scene self.new records.new }
            ≡ calls given.now act.now (called_at moment (scene self.old records.old))) }
    {
        self.moment = moment;
        let refusal = self.call(alloc, given, act)?;
        record_answer(self.answer(act), records)?;
        Ok(refusal)
    }

    /// Executes the queue after the event's calls.
    #[tactic(auto, unfolding(crate::specs::Events::finish))]
    fn finish<W: Watch<Records>>(
        &mut self,
        turn: &Turn,
        stop: Option<u64>,
        refusal: Option<u8>,
        records: &mut Records,
        watch: &mut W,
    ) -> Result<Outcome, AllocError>
        requires ready { IsReadyWhereRunning self.old.engine }
        requires keeps { KeepsAlong turn.now (work_of stop (scene self.old records.old)) }
        ensures does { IfOk result (λ o. record { 0 = o; 1 = scene self.new records.new }
            ≡ finish whole_logs weight turn.now stop refusal (scene self.old records.old)) }
        ensures watched { OnOk result (W.seen watch.new
            ≡ fold W.sees (W.seen watch.old) (all_executed whole_logs turn.now (work_of stop (scene self.old records.old)))) }
    {
        self.drain(turn, stop, records, watch)?;
        Ok(self.outcome(refusal))
    }

    /// The outcome of an event, by its refusal and by whether the node still runs.
    fn outcome(&self, refusal: Option<u8>) -> Outcome
        ensures { result ≡ outcome_of refusal self.now.engine }
    {
        match (refusal, &self.running) {
            (Some(number), _) => Outcome::Refused(number),
            (None, Some(_)) => Outcome::Done,
            (None, None) => Outcome::Stopped,
        }
    }

    /// Plays an event that is not skipped.
    #[tactic(auto, unfolding(crate::specs::Events::played))]
    fn perform<W: Watch<Records>>(
        &mut self,
        alloc: Global,
        given: &Given,
        act: Act,
        event: &Event,
        records: &mut Records,
        watch: &mut W,
    ) -> Result<Outcome, AllocError>
        requires resting { IsRestingWhereRunning self.old.engine }
        requires may { MayCall act self.old }
        requires taken { skip_reason act self.old ≡ None }
        requires keeps { KeepsThrough given.now act event.now (scene self.old records.old) }
        ensures does { IfOk result (λ o. record { 0 = o; 1 = scene self.new records.new }
            ≡ played whole_logs weight given.now act event.now (scene self.old records.old)) }
        ensures watched { OnOk result (W.seen watch.new
            ≡ fold W.sees (W.seen watch.old) (commands_at whole_logs given.now act event.now (scene self.old records.old))) }
    {
        let id = self.id;
        let moment = event.at.unwrap_or(0).max(self.moment);
        let refusal = self.begin(alloc, given, &act, moment, records)?;
        let turn = Turn {
            id,
            moment,
            request: act.requested(),
        };
        self.finish(&turn, event.stop, refusal, records, watch)
    }

    /// Plays an event at a node of a world.
    #[tactic(auto, unfolding(crate::specs::Events::played))]
    pub fn play<W: Watch<Records>>(
        &mut self,
        alloc: Global,
        given: &Given,
        act: Act,
        event: &Event,
        records: &mut Records,
        watch: &mut W,
    ) -> Result<Outcome, AllocError>
        requires resting { IsAtRest self.old }
        requires keeps { KeepsThrough given.now act event.now (scene self.old records.old) }
        ensures { IfOk result (λ o. record { 0 = o; 1 = scene self.new records.new }
            ≡ played whole_logs weight given.now act event.now (scene self.old records.old)) }
    {
        if let Some(reason) = self.skip_reason(alloc, &act)? {
            return Ok(Outcome::Skipped(reason));
        }
        self.perform(alloc, given, act, event, records, watch)
    }
}
