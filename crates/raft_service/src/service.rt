//! A service: its server, its state machine and its clients.

ghost use Rattle.std.specs.Prelude.{◌≡◌, ◌++◌, [], ◌∷◌, IfErr, IfOk, OnErr, OnOk};
ghost use Rattle.raft_node.specs.declared.act.Act.TheVariants.{Initialize};
ghost use Rattle.raft_core.specs.Calls.{Begins, IsRefusal, Moves, Receives, Releases, Ticks, Writes};
ghost use Rattle.raft_executor.specs.Executor.{executed_of, installed, without_outcome};
ghost use Rattle.raft_executor.specs.KeyValue.{application};
ghost use Rattle.raft_machine.specs.Bytes.{state};
ghost use Rattle.raft_service.specs.Calls.{BeginsLog, Calls, Feeds, GivesUp, Handles, Joins, Leaves, Opens, Stays, TakesOver, at_time, with_core};
ghost use Rattle.raft_service.specs.Delivering.{Answered, AnswersIf, Delivers, DeliversAll, Machine, Replied, answer_to, executed_answer};
ghost use Rattle.raft_service.specs.Delivering.{last_answer, told};
ghost use Rattle.raft_service.specs.Intake.{TakesFirst, TakesRead};
ghost use Rattle.raft_service.specs.declared.question.Wanted.TheVariants as wants;
ghost use Rattle.raft_answers.specs.declared.answer.Answer.TheVariants as answers;

use crate::error::OpenError;
use crate::intake::Intake;
use crate::output::{Output, push};
use crate::question::{Question, Wanted};
use crate::serving::{serve, serve_all};
use crate::settings::Settings;
use crate::status::Status;
use raft_answers::Reply;
use raft_clients::{Clients, ConnectError};
use raft_connection::Answer;
use raft_core::raft_packed::Packed;
use raft_core::raft_packed_server::NewLog;
use raft_core::{Config, CoreError, FrameError, OpenedCore, RaftCore, RequestError};
use raft_executor::{Executor, KeyValue};
use raft_frames::LogId;
use raft_machine::{Outcome, Query};
use raft_node::given::Given;
use raft_state::Items;
use std::alloc::{AllocError, Global};

/// How many entries are applied to the snapshot's state at a time: each takes some microseconds.
const AT_ONCE: usize = 8;

/// A replicated key-value service at one server, without input and output.
pub struct Service {
    alloc: Global,
    id: LogId,
    intake: Intake,
    executor: Executor,
    clients: Clients,
}

// Written out, so that it is proved once: a derived one is laid out wherever a service may be dropped.
impl Drop for Service {
    fn drop(self) {
        let Service {
            alloc: _,
            id: _,
            intake: _,
            executor: _,
            clients: _,
        } = self;
    }
}

/// A service that was opened on its log.
#[derive(Drop)]
pub struct OpenedService {
    pub service: Service,
    /// How many bytes of the log are kept. What stands behind them is cut off, and that is synced, before anything is
    /// appended.
    pub end: usize,
}

/// What came of a client's bytes.
#[derive(Debug, Drop)]
pub struct Fed {
    /// How many were taken, from the first one on. The others are to be handed in again once the client was sent something.
    pub taken: usize,
    pub outputs: Vec<Output>,
}

/// Opens the server on its log.
fn open_core(
    alloc: Global,
    given: Given,
    config: &Config,
    id: &LogId,
    log: &[u8],
) -> Result<OpenedCore<KeyValue>, OpenError>
    ensures { IfOk result (λ opened. Begins application state given id.now log.now opened) }
{
    match RaftCore::open(alloc, given, config, id, log) {
        Ok(opened) => Ok(opened),
        Err(error) => Err(OpenError::Server(error)),
    }
}

/// Notes that a client was answered.
fn note(client: u64, answered: &mut Vec<u64>) -> Result<(), AllocError> {
    if answered.last() != Some(&client) {
        answered.push(client)?;
    }
    Ok(())
}

/// What the last entry's request is answered, of so many commands. If what it came to is not known, whether it was run isn't either.
fn take_answer(executor: &mut Executor, count: usize) -> Answer
    ensures answer { result ≡ last_answer count (executed_of executor.old).outcome }
    ensures left { executed_of executor.new ≡ without_outcome (executed_of executor.old) }
{
    match executor.take_outcome() {
        Some(Outcome::Answered(replies)) => {
            if replies.as_slice().len() == count {
                Answer::Replies(replies)
            } else {
                Answer::Reused
            }
        }
        Some(Outcome::Outdated) => Answer::Outdated,
        None => Answer::Interrupted,
    }
}

/// What a query answers now.
fn ask_machine(alloc: Global, executor: &Executor, query: &Query) -> Result<Answer, AllocError>
    ensures { IfOk result (λ answer. answer ≡ executed_answer (executed_of executor.now) (wants.Query query.now)) }
{
    let mut replies = Vec::new(alloc);
    replies.push(executor.query(query)?)?;
    Ok(Answer::Replies(Items::from_vec(replies)))
}

/// The answer to a question whose entry was executed.
fn executed_answer(
    alloc: Global,
    executor: &mut Executor,
    wanted: Wanted,
) -> Result<Answer, AllocError>
    ensures answer { IfOk result (λ answer. answer ≡ executed_answer (executed_of executor.old) wanted) }
    ensures left { OnOk result (executed_of executor.new ≡ told (executed_of executor.old) wanted (answers.Ok 0)) }
{
    match wanted {
        Wanted::Replies(count) => Ok(take_answer(executor, count)),
        Wanted::Query(query) => ask_machine(alloc, executor, &query),
    }
}

impl Service {
    /// Opens a service on its server's log, which may be empty. The state machine goes on from what the log's snapshot has: entries
    /// behind that are executed.
    pub fn open(alloc: Global, settings: Settings, log: &[u8]) -> Result<OpenedService, OpenError>
        ensures { IfOk result (λ opened. Opens settings log.now opened) }
    {
        let Settings {
            id,
            given,
            config,
            connections,
            addresses,
            clients,
        } = settings;
        let OpenedCore { core, end, applied } = open_core(alloc, given, &config, &id, log)?;
        let mut executor = Executor::new(alloc);
        executor.install(applied);
        Ok(OpenedService {
            service: Service {
                alloc,
                id,
                intake: Intake::new(alloc, core, addresses),
                executor,
                clients: Clients::new(alloc, connections, clients),
            },
            end,
        })
    }

    /// Gives the server the first entry of a new cluster. One server of the cluster does so, once.
    pub fn initialize(&mut self) -> Result<(), CoreError>
        ensures rest { self.new ≡ with_core self.old self.new.intake.core }
        ensures ok { OnOk result (Moves application (Initialize ∷ []) self.old.intake.core self.new.intake.core) }
    {
        self.intake.core.initialize()
    }

    /// These members are wanted, as [`RaftCore::change_members`].
    pub fn change_members(
        &mut self,
        voters: Vec<u64>,
        learners: Vec<u64>,
    ) -> Result<(), RequestError>
        ensures { self.new ≡ self.old }
    {
        self.intake.core.change_members(voters, learners)
    }

    /// Time went by, in milliseconds; `random` is a random number, and `now` the time in milliseconds since the Unix epoch. If the
    /// state machine's moment is later, since this clock or another server's went back, keys expire by that.
    pub fn tick(&mut self, elapsed: u64, random: u64, now: u64) -> Result<Vec<Output>, CoreError>
        ensures { IfOk result (λ outputs. Calls (Ticks application) (at_time now self.old) self.new outputs.items) }
    {
        self.intake.time = now.max(self.executor.moment());
        let done = self.intake.core.tick(elapsed, random)?;
        Ok(self.deliver_all(done)?)
    }

    /// Takes the bytes of a frame from a peer. Refused as [`RaftCore::receive`].
    pub fn receive(&mut self, bytes: &[u8]) -> Result<Vec<Output>, FrameError>
        ensures ok { IfOk result (λ outputs. Calls (Receives application state bytes.now) self.old self.new outputs.items) }
        ensures err { IfErr result (λ e. IsRefusal e → self.new ≡ self.old) }
    {
        let done = self.intake.core.receive(bytes)?;
        Ok(self.deliver_all(done)?)
    }

    /// Proposes what waits, and hands out records, as [`RaftCore::write`].
    pub fn write(&mut self) -> Result<Vec<Output>, CoreError>
        ensures { IfOk result (λ outputs. Calls (Writes application state) self.old self.new outputs.items) }
    {
        let done = self.intake.core.write()?;
        Ok(self.deliver_all(done)?)
    }

    /// Begins a new log, if the old one is long, as [`RaftCore::begin_log`].
    pub fn begin_log(&mut self) -> Option<NewLog>
        ensures { BeginsLog self.old result self.new }
    {
        self.intake.core.begin_log(&self.id)
    }

    /// The new log takes the old one's place, and gives its end, as [`RaftCore::take_over`].
    pub fn take_over(&mut self) -> Option<u64>
        ensures { TakesOver self.old result self.new }
    {
        self.intake.core.take_over()
    }

    /// The new log can't be written, and is given up, as [`RaftCore::give_up_log`].
    pub fn give_up_log(&mut self)
        ensures { GivesUp self.old self.new }
    {
        self.intake.core.give_up_log();
    }

    /// Does a little for which nothing waits, in less than a millisecond, as [`RaftCore::fold_some`]: to be called while nothing else is to be
    /// done. Answers whether more is left.
    pub fn idle(&mut self) -> Result<bool, CoreError>
        ensures { OnOk result (self.new ≡ self.old) }
    {
        self.intake.core.fold_some(AT_ONCE)
    }

    /// The log is on disk up to this position: what its records say is done, entries are executed, and clients are answered.
    /// What waits for no record leaves too, as [`RaftCore::flushed`].
    pub fn flushed(&mut self, position: u64) -> Result<Vec<Output>, CoreError>
        ensures { IfOk result (λ outputs. Calls (Releases application state position) self.old self.new outputs.items) }
    {
        let done = self.intake.core.flushed(position)?;
        Ok(self.deliver_all(done)?)
    }

    /// A client connects, as [`Clients::connect`].
    pub fn connect(&mut self, client: u64) -> Result<(), ConnectError>
        ensures ok { OnOk result (Joins client self.old self.new) }
        ensures err { OnErr result (Stays self.old self.new) }
    {
        self.clients.connect(client)
    }

    /// A client is gone: what it asked for may be done, and it isn't answered.
    pub fn disconnect(&mut self, client: u64)
        ensures { Leaves client self.old self.new }
    {
        self.clients.disconnect(client);
    }

    /// Takes bytes of a client, reads the requests in them, and answers those that need no server. None is read while a query of the
    /// client is asked by a round.
    pub fn client_bytes(&mut self, client: u64, bytes: &[u8]) -> Result<Fed, CoreError>
        ensures { IfOk result (λ fed. Feeds client bytes.now self.old self.new fed.taken fed.outputs.items) }
    {
        let taken = self.clients.receive(client, bytes)?;
        let mut outputs = Vec::new(self.alloc);
        serve(
            self.alloc,
            client,
            &mut self.clients,
            &mut self.intake,
            &mut outputs,
        )?;
        Ok(Fed { taken, outputs })
    }

    /// What the service tells of itself.
    pub fn status(&self) -> Result<Status, AllocError> {
        Status::of(
            self.alloc,
            self.id.node,
            &self.executor,
            self.clients.len(),
            self.intake.len(),
        )
    }

    /// The answer to a question.
    fn answer_to(
        &mut self,
        wanted: Wanted,
        answer: raft_answers::Answer,
    ) -> Result<Answer, AllocError>
        ensures answer { IfOk result (λ given. given ≡ answer_to self.old.intake.addresses (executed_of self.old.executor) wanted answer) }
        ensures left { OnOk result (executed_of self.new.executor ≡ told (executed_of self.old.executor) wanted answer) }
        ensures rest { OnOk result (self.new ≡ record self.old { executor = self.new.executor }) }
    {
        match answer {
            raft_answers::Answer::Ok { .. } => {
                executed_answer(self.alloc, &mut self.executor, wanted)
            }
            raft_answers::Answer::Failed => Ok(Answer::NoLeader),
            raft_answers::Answer::NotLeader { leader } => self.intake.not_leader(leader),
            raft_answers::Answer::Unknown => Ok(Answer::Interrupted),
        }
    }

    /// Answers a question, for which a reply came.
    fn answer(
        &mut self,
        question: Question,
        answer: raft_answers::Answer,
        answered: &mut Vec<u64>,
    ) -> Result<(), AllocError>
        ensures { OnOk result (Answered question answer self.old self.new) }
    {
        let Question {
            client,
            number,
            wanted,
            ..
        } = question;
        let answer = self.answer_to(wanted, answer)?;
        self.clients.answer(client, number, &answer)?;
        note(client, answered)
    }

    /// Answers a question, if there is one.
    fn answer_if(
        &mut self,
        taken: Option<Question>,
        answer: raft_answers::Answer,
        answered: &mut Vec<u64>,
    ) -> Result<(), AllocError>
        ensures { OnOk result (AnswersIf taken answer self.old self.new) }
    {
        match taken {
            Some(question) => self.answer(question, answer, answered),
            None => Ok(()),
        }
    }

    /// Answers the question of a reply.
    fn reply(&mut self, reply: Reply, answered: &mut Vec<u64>) -> Result<(), AllocError>
        ensures { OnOk result (Replied TakesFirst reply self.old self.new) }
    {
        let taken = self.intake.take(reply.token);
        self.answer_if(taken, reply.answer, answered)?;
        Ok(())
    }

    /// Answers the query of a reply to a read.
    fn reply_read(&mut self, reply: Reply, answered: &mut Vec<u64>) -> Result<(), AllocError>
        ensures { OnOk result (Replied TakesRead reply self.old self.new) }
    {
        let taken = self.intake.take_read(reply.token);
        self.answer_if(taken, reply.answer, answered)?;
        Ok(())
    }

    /// Puts a snapshot's state in place of the state machine's.
    fn install(&mut self, snapshot: Packed<KeyValue>)
        ensures { Machine (installed snapshot) self.old self.new }
    {
        self.executor.install(snapshot);
    }

    /// Does what an output of the server says, or hands it on.
    fn deliver(
        &mut self,
        output: raft_core::Output<KeyValue>,
        answered: &mut Vec<u64>,
        outputs: &mut Vec<Output>,
    ) -> Result<(), AllocError>
        ensures { OnOk result (Delivers output self.old outputs.old.items self.new outputs.new.items) }
    {
        match output {
            raft_core::Output::Send { to, bytes } => push(Output::Send { to, bytes }, outputs),
            raft_core::Output::Append { bytes, end, next } => {
                push(Output::Append { bytes, end, next }, outputs)
            }
            raft_core::Output::Install(snapshot) => {
                self.install(snapshot);
                Ok(())
            }
            raft_core::Output::Execute(entry) => self.executor.execute(&entry),
            raft_core::Output::Reply(reply) => self.reply(reply, answered),
            raft_core::Output::Read(reply) => self.reply_read(reply, answered),
        }
    }

    /// Does what outputs of the server say, in their order.
    fn deliver_each(
        &mut self,
        done: Vec<raft_core::Output<KeyValue>>,
        answered: &mut Vec<u64>,
        outputs: &mut Vec<Output>,
    ) -> Result<(), AllocError>
        ensures { OnOk result (DeliversAll done.items self.old outputs.old.items self.new outputs.new.items) }
    {
        for output in done {
            self.deliver(output, answered, outputs)?;
        }
        Ok(())
    }

    /// Does what outputs of the server say, in their order; then the clients that were answered are served.
    fn deliver_all(
        &mut self,
        done: Vec<raft_core::Output<KeyValue>>,
    ) -> Result<Vec<Output>, AllocError>
        ensures { IfOk result (λ outputs. Handles done.items self.old self.new outputs.items) }
    {
        let mut answered = Vec::new(self.alloc);
        let mut outputs = Vec::new(self.alloc);
        self.deliver_each(done, &mut answered, &mut outputs)?;
        self.intake.reached = self.executor.moment();
        serve_all(
            self.alloc,
            answered,
            &mut self.clients,
            &mut self.intake,
            &mut outputs,
        )?;
        Ok(outputs)
    }
}
