//! A node whose snapshot is a state, and events at it.

ghost use Rattle.std.specs.Prelude.{◌≡◌, ◌++◌, IfErr, IfOk, IfSome, IsTrue, None, OnOk, false, true};
ghost use Rattle.std.specs.List.{fold};
ghost use Rattle.std.specs.Option.{option_copied, option_map};
ghost use Rattle.std.specs.Ordering.{nat_cmp};
ghost use Rattle.raft_state.specs.Invariants.{IsSoundState};
ghost use Rattle.raft_calls.specs.Engines.{view_of};
ghost use Rattle.raft_calls.specs.Held.{IsReadyWhereRunning, IsRestingWhereRunning};
ghost use Rattle.raft_node.specs.Events.{answer_at, outcome_of, skip_reason, skip_running};
ghost use Rattle.raft_node.specs.Net.{no_streams};
ghost use Rattle.raft_node.specs.Snapshots.{skip_finish};
ghost use Rattle.proof_packed.specs.Nodes.{packed_called_at, packed_calls, packed_calls_at, packed_finish, packed_finish_snapshot, packed_played};
ghost use Rattle.proof_packed.specs.Nodes.{packed_restart, packed_with_answer, packed_work_of, without_store};
ghost use Rattle.proof_packed.specs.Records.{packed_commands_at};
ghost use Rattle.proof_packed.specs.Nodes.{packed_new_node};
ghost use Rattle.raft_packed.specs.Kept.{IsNamedByEnd, summary_of};
ghost use Rattle.raft_packed.specs.raft_frames.Format.{sum_of};
ghost use Rattle.raft_packed_node.specs.Builds.{packed_kept_early};
ghost use Rattle.raft_packed_node.specs.Effects.{all_executed, brought_by, scene};
ghost use Rattle.raft_packed_node.specs.Held.{IsPackedAtRest, PackedMayCall, PackedNotedFits, RunsOut, is_start};
ghost use Rattle.raft_packed_node.specs.Starts.{packed_opened, packed_started_at, packed_state_for, packed_stopped_node};

use crate::build::{note_fits, tell_built};
use crate::error::StepError;
use crate::message::{PackedAct, PackedTurn};
use crate::outbox::Outbox;
use raft_calls::deliver::{deliver, skip_delivery};
use raft_calls::elections::{elect, initialize, skip_elect, skip_initialize};
use raft_calls::lead::{
    Answer, ask_read, fail, propose, read_answer, send_heartbeats, skip_fail, skip_propose,
    skip_step_down, step_down,
};
use raft_calls::membership::{change_learners, change_membership, skip_change, skip_learners};
use raft_calls::raft_engine::Engine;
use raft_calls::snapshots::{trigger_purge, trigger_snapshot};
use raft_calls::start::{start_engine, started_engine};
use raft_calls::trust::is_sound;
use raft_command::EngineConfig;
use raft_node::act::{Act, skip_stopped};
use raft_node::given::Given;
use raft_node::node::Streams;
use raft_node::watch::Watch;
use raft_packed::{Encoded, Machine, Packed, PackedError, PackedStore, Summary};
use raft_schedule::event::{Event, Outcome, SkipReason, Start};
use raft_state::RaftState;
use raft_store::WorldConfig;
use std::alloc::{AllocError, Global};
use std::marker::Model;
use std::num::NonZeroUsize;

/// What a node has while it runs, and loses when it stops, beside what is noted for the next snapshot.
pub(crate) struct Running {
    pub(crate) engine: Engine<WorldConfig>,
    pub(crate) streams: Streams,
}

// Written out, so that it is proved once: a derived one is laid out wherever a running node may be dropped.
impl Drop for Running {
    fn drop(self) {
        let Running {
            engine: _,
            streams: _,
        } = self;
    }
}

impl Running {
    /// A node begins to run with this engine: without streams.
    fn new(alloc: Global, engine: Engine<WorldConfig>) -> Self
        ensures { result ≡ record { engine = engine; streams = no_streams } }
    {
        Running {
            engine,
            streams: Streams::none(alloc),
        }
    }
}

/// A node: its store, which survives a stop, and what it has while it runs. What it has noted for the next snapshot, while that is built,
/// stands in the store, and counts while it runs.
pub struct Node<M: Machine> {
    id: u64,
    pub(crate) store: PackedStore<M>,
    pub(crate) running: Option<Running>,
    /// The greatest moment of its events, in milliseconds.
    moment: u64,
}

// Written out, so that it is proved once: a derived one is laid out wherever a node may be dropped.
impl<M: Machine> Drop for Node<M> {
    fn drop(self) {
        let Node {
            id: _,
            store: _,
            running: _,
            moment: _,
        } = self;
    }
}

impl<M: Machine> Model for Node<M> {
    ghost use Rattle.std.specs.Prelude.{None, Some};
    ghost use Rattle.std.specs.Option.{option_map};
    ghost use Rattle.raft_calls.specs.Engines.{view_of};
    ghost use Rattle.raft_node.specs.Net.{no_streams};
    ghost use Rattle.proof_packed.specs.Nodes.{PackedNode};

    ghost Value = { PackedNode M };

    ghost view = { λ s. record {
      id = s.id;
      store = s.store.store;
      engine = option_map (λ r. view_of r.engine) s.running;
      streams = elim s.running [ None ↦ no_streams | Some r ↦ r.streams ];
      noted = elim s.running [ None ↦ None | Some r ↦ s.store.noted ];
      moment = s.moment;
    } };
}

/// Records an answer, if there is one.
fn record_answer<M: Machine>(
    answer: Option<Answer>,
    records: &mut Outbox<M>,
) -> Result<(), AllocError>
    ensures { OnOk result (records.new ≡ packed_with_answer M.application answer records.old) }
{
    match answer {
        Some(answer) => records.answer(answer),
        None => Ok(()),
    }
}

impl<M: Machine> Node<M> {
    /// A node that starts empty.
    pub fn new(alloc: Global, settings: &EngineConfig<u64>, id: u64) -> Result<Self, AllocError>
        ensures { IfOk result (λ node. node ≡ packed_new_node M.application settings.now id) }
    {
        let engine = start_engine(alloc, settings, id, RaftState::empty(alloc))?;
        Ok(Node {
            id,
            store: PackedStore::new(alloc),
            running: Some(Running::new(alloc, engine)),
            moment: 0,
        })
    }

    /// A node that doesn't run, on this store; `moment` is the greatest of its events so far, in milliseconds.
    pub fn stopped(id: u64, store: PackedStore<M>, moment: u64) -> Self
        ensures { result ≡ record { id = id; store = store.store; engine = None; streams = no_streams; noted = None; moment = moment } }
    {
        Node {
            id,
            store,
            running: None,
            moment,
        }
    }

    /// The node's id.
    pub fn id(&self) -> u64
        ensures { result ≡ self.now.id }
    {
        self.id
    }

    /// What the node has stored.
    pub fn store(&self) -> &PackedStore<M>
        ensures { result.now.store ≡ self.now.store }
    {
        &self.store
    }

    /// The node's engine, while it runs.
    pub fn engine(&self) -> Option<&Engine<WorldConfig>>
        ensures { option_map view_of (option_copied result) ≡ self.now.engine }
    {
        match &self.running {
            Some(running) => Some(&running.engine),
            None => None,
        }
    }

    /// What is kept of what is noted for a snapshot, while it is built, but its state.
    pub fn noted(&self) -> Option<&Summary>
        ensures { option_copied result ≡ option_map summary_of self.now.noted }
    {
        match &self.running {
            Some(_) => self.store.noted(),
            None => None,
        }
    }

    /// A copy of what is noted for a snapshot, while it is built.
    pub fn copy_noted(&self) -> Result<Option<Packed<M>>, AllocError>
        ensures { IfOk result (λ copied. copied ≡ self.now.noted) }
    {
        match &self.running {
            Some(_) => self.store.copy_noted(),
            None => Ok(None),
        }
    }

    /// Whether the end of what is noted for a snapshot, if anything is, names it: [`PackedStore::is_named_by_end`].
    pub fn is_named_by_end(&self) -> bool
        ensures { IsTrue result → IsNamedByEnd M.application self.now.store self.now.noted }
    {
        match &self.running {
            Some(_) => self.store.is_named_by_end(),
            None => false,
        }
    }

    /// Keeps what is noted for a snapshot before the end of its build: the act that ends it does what it would have done. Out of memory,
    /// nothing is promised of the node.
    pub fn keep_noted(&mut self) -> Result<(), AllocError>
        ensures { OnOk result (self.new ≡ packed_kept_early self.old) }
    {
        match &self.running {
            Some(_) => self.store.keep_noted(),
            None => Ok(()),
        }
    }

    /// Makes a part of the snapshot's state, for which nothing waits: [`PackedStore::fold_some`].
    pub fn fold_some(&mut self, most: usize) -> Result<bool, AllocError>
        ensures { OnOk result (self.new ≡ self.old) }
    {
        self.store.fold_some(most)
    }

    /// Encodes or sums the next bytes of the snapshot's state: [`PackedStore::encode_some`].
    pub fn encode_some(
        &mut self,
        before: u32,
        front: &[u8],
        room: usize,
        most: NonZeroUsize,
    ) -> Result<bool, AllocError>
        ensures { self.new ≡ self.old }
    {
        self.store.encode_some(before, front, room, most)
    }

    /// Gives away what is encoded of the snapshot's state, if all of it is, and summed: [`PackedStore::take_encoded`].
    pub fn take_encoded(&mut self, before: u32, front: &[u8]) -> Option<Encoded>
        ensures bytes { IfSome result (λ e. e.bytes.items ≡ front.now ++ M.codec.bytes self.old.store.snap.state) }
        ensures fits { IfSome result (λ e. M.codec.fits self.old.store.snap.state) }
        ensures sum { IfSome result (λ e. e.sum ≡ sum_of before e.bytes.items) }
        ensures same { self.new ≡ self.old }
    {
        self.store.take_encoded(before, front)
    }

    /// The greatest moment of the node's events, in milliseconds.
    pub fn moment(&self) -> u64
        ensures { result ≡ self.now.moment }
    {
        self.moment
    }

    /// Why the act is skipped at the node.
    fn skip_reason(&self, act: &Act) -> Result<Option<SkipReason>, AllocError>
        ensures { IfOk result (λ reason. reason ≡ skip_reason act.now (without_store M.application self.now)) }
    {
        match self.engine() {
            Some(engine) => self.skip_running(act, engine),
            None => Ok(skip_stopped(act)),
        }
    }

    /// Why the act is skipped at the running node.
    fn skip_running(
        &self,
        act: &Act,
        engine: &Engine<WorldConfig>,
    ) -> Result<Option<SkipReason>, AllocError>
        ensures { IfOk result (λ reason. reason ≡ skip_running act.now (without_store M.application self.now) (view_of engine.now)) }
    {
        let alloc = self.store.allocator();
        match act {
            Act::Initialize => Ok(skip_initialize(engine)),
            Act::Elect(candidates) => Ok(skip_elect(*candidates, engine)),
            Act::Take(message) => Ok(skip_delivery(&message.body, engine)),
            Act::Propose(_) => Ok(skip_propose(engine)),
            Act::Fail(target) => Ok(skip_fail(*target, engine)),
            Act::FinishSnapshot => Ok(self.skip_finish()),
            Act::ChangeLearners(learners) => skip_learners(alloc, learners.as_slice(), engine),
            Act::ChangeMembership { groups, learners } => {
                skip_change(alloc, groups.as_slice(), learners.as_slice(), engine)
            }
            Act::StepDown => Ok(skip_step_down(engine)),
            Act::SendHeartbeat
            | Act::TriggerSnapshot
            | Act::TriggerPurge(_)
            | Act::Restart(_)
            | Act::Read
            | Act::Stop => Ok(None),
        }
    }

    /// Skips the end of a build if nothing is noted for a snapshot.
    #[tactic(auto, using(crate::proofs::Noted::skip_none, crate::proofs::Noted::skip_some))]
    fn skip_finish(&self) -> Option<SkipReason>
        ensures { result ≡ skip_finish (without_store M.application self.now) }
    {
        match self.noted() {
            Some(_) => None,
            None => Some(SkipReason::NothingBuilt),
        }
    }

    /// Makes the act's calls, once it is tested what they ask of the node. Returns the number of the refusal, if any.
    fn call(&mut self, given: &Given, act: &Act) -> Result<Option<u8>, StepError>
        requires resting { IsRestingWhereRunning self.old.engine }
        requires taken { skip_reason act.now (without_store M.application self.old) ≡ None }
        ensures calls { IfOk result (λ refusal. record { 0 = refusal; 1 = self.new } ≡ packed_calls_at M.application given.now act.now self.old) }
        ensures may { OnOk result (PackedMayCall M.application act.now self.old) }
        ensures fits { PackedMayCall M.application act.now self.old → IfErr result RunsOut }
    {
        match act {
            Act::Restart(start) => self.restart(&given.settings, *start),
            Act::FinishSnapshot if !self.note_fits() => Err(StepError::StrayNote),
            _ => Ok(self.call_running(given, act)?),
        }
    }

    /// Makes the calls of an act at a running node; a stopped one has none to make, unless it starts.
    fn call_running(&mut self, given: &Given, act: &Act) -> Result<Option<u8>, AllocError>
        requires resting { IsRestingWhereRunning self.old.engine }
        requires runs { is_start act.now ≡ false }
        requires may { PackedMayCall M.application act.now self.old }
        requires taken { skip_reason act.now (without_store M.application self.old) ≡ None }
        ensures { IfOk result (λ refusal. record { 0 = refusal; 1 = self.new } ≡ packed_calls_at M.application given.now act.now self.old) }
    {
        let alloc = self.store.allocator();
        let moment = self.moment;
        match (act, &mut self.running) {
            (Act::Restart(_), _) => Ok(None),
            (_, None) => Ok(None),
            (Act::Initialize, Some(running)) => {
                initialize(alloc, &given.membership, moment, &mut running.engine)
            }
            (Act::Elect(_), Some(running)) => elect(moment, &mut running.engine),
            (Act::Take(message), Some(running)) => deliver(
                alloc,
                message.from,
                &message.body,
                moment,
                &mut running.engine,
            ),
            (Act::Propose(values), Some(running)) => {
                propose(alloc, values.as_slice(), &mut running.engine)
            }
            (Act::SendHeartbeat, Some(running)) => send_heartbeats(&mut running.engine),
            (Act::Fail(target), Some(running)) => fail(alloc, *target, &mut running.engine),
            (Act::TriggerSnapshot, Some(running)) => trigger_snapshot(&mut running.engine),
            (Act::FinishSnapshot, Some(_)) => self.finish_snapshot(),
            (Act::TriggerPurge(index), Some(running)) => {
                trigger_purge(*index, &mut running.engine)
            }
            (Act::ChangeLearners(learners), Some(running)) => {
                change_learners(alloc, learners.as_slice(), &mut running.engine)
            }
            (Act::ChangeMembership { groups, learners }, Some(running)) => change_membership(
                alloc,
                groups.as_slice(),
                learners.as_slice(),
                &mut running.engine,
            ),
            (Act::Read, Some(running)) => Ok(ask_read(&mut running.engine)),
            (Act::StepDown, Some(running)) => step_down(&mut running.engine),
            (Act::Stop, Some(_)) => {
                self.stop();
                Ok(None)
            }
        }
    }

    /// The leader's answer, if the act is a read that isn't refused.
    fn answer(&self, act: &Act) -> Option<Answer>
        ensures { result ≡ answer_at act.now (without_store M.application self.now) }
    {
        match (act, self.engine()) {
            (Act::Read, Some(engine)) => read_answer(self.id, engine),
            _ => None,
        }
    }

    /// Starts the node on its store, once the state that the store gives is tested: a running node is stopped first. Returns the
    /// number of the refusal, if any.
    ///
    /// Source: Raft paper, figure 2 and section 7.
    #[tactic(auto, using(crate::proofs::Along::restart_along))]
    fn restart(
        &mut self,
        settings: &EngineConfig<u64>,
        start: Start,
    ) -> Result<Option<u8>, StepError>
        ensures starts { IfOk result (λ refusal. record { 0 = refusal; 1 = self.new } ≡ packed_restart M.application settings.now start self.old) }
        ensures sound { OnOk result (IsSoundState nat_cmp (packed_state_for M.application start self.old.store)) }
        ensures fits { IsSoundState nat_cmp (packed_state_for M.application start self.old.store) → IfErr result RunsOut }
    {
        let state = self.prepare(start)?;
        if !is_sound(&state) {
            return Err(StepError::UnsoundState);
        }
        Ok(self.start_with(settings, start, state)?)
    }

    /// Stops the node, and makes its store ready for a start, to which it gives this state.
    fn prepare(&mut self, start: Start) -> Result<RaftState<u64, ()>, PackedError>
        ensures opened { OnOk result (self.new ≡ packed_opened M.application start self.old) }
        ensures state { IfOk result (λ state. state ≡ packed_state_for M.application start self.old.store) }
    {
        self.stop();
        if start == Start::Bare {
            self.store.forget_committed();
        }
        self.store.restart(start == Start::Saved)
    }

    /// Stops the node: it keeps its store and its clock alone.
    pub(crate) fn stop(&mut self)
        ensures { self.new ≡ packed_stopped_node self.old }
    {
        self.running = None;
    }

    /// Runs the node, whatever it ran before, with an engine that starts with this state. Returns the number of the
    /// refusal, if any.
    fn start_with(
        &mut self,
        settings: &EngineConfig<u64>,
        start: Start,
        state: RaftState<u64, ()>,
    ) -> Result<Option<u8>, AllocError>
        requires { IsSoundState nat_cmp state }
        ensures { IfOk result (λ refusal. record { 0 = refusal; 1 = self.new }
            ≡ packed_started_at settings.now start state (packed_stopped_node self.old)) }
    {
        let alloc = self.store.allocator();
        let moment = self.moment;
        let (engine, refusal) = started_engine(alloc, settings, self.id, start, state, moment)?;
        self.store.forget_note();
        self.running = Some(Running::new(alloc, engine));
        Ok(refusal)
    }

    /// Whether what is noted for a snapshot, if the node runs and something is, fits its engine.
    fn note_fits(&self) -> bool
        ensures fits { result ≡ true → PackedNotedFits self.now.engine self.now.noted }
        ensures all { PackedNotedFits self.now.engine self.now.noted → result ≡ true }
    {
        match (self.engine(), self.noted()) {
            (Some(engine), Some(noted)) => note_fits(noted, engine),
            _ => true,
        }
    }

    /// Ends the build of the noted snapshot: the engine is told of it, and the store keeps it. If the engine refuses it, it stays noted.
    /// Returns the number of the refusal, if any.
    ///
    /// Source: Raft paper, section 7.
    fn finish_snapshot(&mut self) -> Result<Option<u8>, AllocError>
        requires resting { IsRestingWhereRunning self.old.engine }
        requires noted { PackedNotedFits self.old.engine self.old.noted }
        ensures { IfOk result (λ refusal. record { 0 = refusal; 1 = self.new } ≡ packed_finish_snapshot M.application self.old) }
    {
        let alloc = self.store.allocator();
        let Some(running) = self.running.as_mut() else {
            return Ok(None);
        };
        let Some(built) = self.store.noted() else {
            return Ok(None);
        };
        if let Some(refusal) = tell_built(alloc, built, &mut running.engine)? {
            return Ok(Some(refusal));
        }
        self.store.keep_noted()?;
        self.store.forget_note();
        Ok(None)
    }

    /// Makes the act's calls at this moment, and records what they answer. Returns the number of the refusal, if any.
    fn begin(
        &mut self,
        given: &Given,
        act: &Act,
        moment: u64,
        records: &mut Outbox<M>,
    ) -> Result<Option<u8>, StepError>
        requires resting { IsRestingWhereRunning self.old.engine }
        requires taken { skip_reason act.now (without_store M.application self.old) ≡ None }
        ensures calls { IfOk result (λ refusal. record { 0 = refusal; 1 = scene self.new records.new }
            ≡ packed_calls M.application given.now act.now (packed_called_at M.application moment (scene self.old records.old))) }
        ensures may { OnOk result (PackedMayCall M.application act.now self.old) }
        ensures fits { PackedMayCall M.application act.now self.old → IfErr result RunsOut }
    {
        self.moment = moment;
        let refusal = self.call(given, act)?;
        record_answer(self.answer(act), records)?;
        Ok(refusal)
    }

    /// Executes the queue after the event's calls.
    #[tactic(auto, unfolding(proof_packed::specs::Nodes::packed_finish))]
    fn finish<W: Watch<Outbox<M>>>(
        &mut self,
        turn: &PackedTurn<M>,
        stop: Option<u64>,
        refusal: Option<u8>,
        records: &mut Outbox<M>,
        watch: &mut W,
    ) -> Result<Outcome, StepError>
        requires { IsReadyWhereRunning self.old.engine }
        ensures does { IfOk result (λ o. record { 0 = o; 1 = scene self.new records.new }
            ≡ packed_finish M.application turn.now.turn turn.now.brought stop refusal (scene self.old records.old)) }
        ensures watched { OnOk result (W.seen watch.new ≡ fold W.sees (W.seen watch.old)
            (all_executed M.application turn.now.turn turn.now.brought (packed_work_of M.application stop (scene self.old records.old)))) }
        ensures out { IfErr result RunsOut }
    {
        self.drain(turn, stop, records, watch)?;
        Ok(self.outcome(refusal))
    }

    /// The outcome of an event, by its refusal and by whether the node still runs.
    fn outcome(&self, refusal: Option<u8>) -> Outcome
        ensures { result ≡ outcome_of refusal self.now.engine }
    {
        match (refusal, &self.running) {
            (Some(number), _) => Outcome::Refused(number),
            (None, Some(_)) => Outcome::Done,
            (None, None) => Outcome::Stopped,
        }
    }

    /// Plays an event that is not skipped.
    fn perform<W: Watch<Outbox<M>>>(
        &mut self,
        given: &Given,
        act: PackedAct<M>,
        event: &Event,
        records: &mut Outbox<M>,
        watch: &mut W,
    ) -> Result<Outcome, StepError>
        requires resting { IsRestingWhereRunning self.old.engine }
        requires taken { skip_reason act.act (without_store M.application self.old) ≡ None }
        ensures does { IfOk result (λ o. record { 0 = o; 1 = scene self.new records.new }
            ≡ packed_played M.application given.now act.act (brought_by M.application act.snapshot) event.now (scene self.old records.old)) }
        ensures watched { OnOk result (W.seen watch.new ≡ fold W.sees (W.seen watch.old)
            (packed_commands_at M.application given.now act.act (brought_by M.application act.snapshot) event.now (scene self.old records.old))) }
        ensures may { OnOk result (PackedMayCall M.application act.act self.old) }
        ensures fits { PackedMayCall M.application act.act self.old → IfErr result RunsOut }
    {
        let alloc = self.store.allocator();
        let id = self.id;
        let moment = event.at.unwrap_or(0).max(self.moment);
        let refusal = self.begin(given, &act.act, moment, records)?;
        let turn = PackedTurn::new(alloc, id, moment, act);
        self.finish(&turn, event.stop, refusal, records, watch)
    }

    /// Plays an event at the node, whoever is told what it does. It asks of the node alone that its engine is at rest, as each step
    /// leaves it. After an error the node takes no further step.
    ///
    /// Refused:
    /// - `StrayNote` if a build is to end and what is noted doesn't fit the engine's log,
    /// - `UnsoundState` if the node is to start and the state that its store gives isn't sound,
    /// - `TooManyEntries` if the index behind an entry that is to be applied has no 64 bits,
    /// - `OutOfMemory`, whenever it occurs.
    ///
    /// A node that is at rest (`IsPackedAtRest`) stops for the last two alone (`fits`), and so does one that has what the act's calls ask for
    /// (`may`).
    #[tactic(auto, unfolding(proof_packed::specs::Nodes::packed_played))]
    pub fn step<W: Watch<Outbox<M>>>(
        &mut self,
        given: &Given,
        act: PackedAct<M>,
        event: &Event,
        records: &mut Outbox<M>,
        watch: &mut W,
    ) -> Result<Outcome, StepError>
        requires { IsRestingWhereRunning self.old.engine }
        ensures does { IfOk result (λ o. record { 0 = o; 1 = scene self.new records.new }
            ≡ packed_played M.application given.now act.act (brought_by M.application act.snapshot) event.now (scene self.old records.old)) }
        ensures watched { OnOk result (W.seen watch.new ≡ fold W.sees (W.seen watch.old)
            (packed_commands_at M.application given.now act.act (brought_by M.application act.snapshot) event.now (scene self.old records.old))) }
        ensures fits { IsPackedAtRest M.application self.old → IfErr result RunsOut }
        ensures may { PackedMayCall M.application act.act self.old → IfErr result RunsOut }
        ensures rests { OnOk result (IsRestingWhereRunning self.new.engine) }
    {
        match self.skip_reason(&act.act)? {
            Some(reason) => Ok(Outcome::Skipped(reason)),
            None => self.perform(given, act, event, records, watch),
        }
    }
}
