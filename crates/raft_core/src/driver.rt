//! A server with its timers, the requests of its clients, and its limits.

ghost use Rattle.std.specs.Prelude.{◌≡◌, ◌≤◌, ◌⊎◌, ◌∷◌, ◌++◌, [], IfOk, IfErr, IfSome, Ok, OnErr, OnOk, Some, map};
ghost use Rattle.std.specs.Option.{option_map};
ghost use Rattle.raft_chunks.specs.Chunks.{piece_of};
ghost use Rattle.raft_chunks.specs.Form.{opened, piece};
ghost use Rattle.raft_peers.specs.raft_packed_wire.declared.packet.SentPart.{SentPart as Part};
ghost use Rattle.raft_node.specs.declared.act.Act.TheVariants.{Initialize, Propose};
ghost use Rattle.raft_store.specs.Types.{EngineView};
ghost use Rattle.raft_calls.specs.LeaderCalls.{read_answer};
ghost use Rattle.raft_store.specs.declared.entry.Value.TheVariants.{Bytes};
ghost use Rattle.raft_core.specs.Calls.{Admits, AdmitsRead, Answers, AnswersAfter, AnswersOverdue, Asks, Becomes, Begins, CompletesSnapshot};
ghost use Rattle.raft_core.specs.Calls.{GoesOn, Hears, IsNextId, IsRefusal, KeepsPart, Loses, MayBeginLog, Moves, Proposes, ProposesBatch};
ghost use Rattle.raft_core.specs.Calls.{Receives, RefusesAll, RefusesReads, Releases, TakesFrame, TakesMessage, Ticks, Writes, appended};
ghost use Rattle.raft_core.specs.Calls.{GivesUpLog, TakesOverLog, engine_in, moment_in};
ghost use Rattle.raft_core.specs.Outputs.{reads_out, replies_out};
ghost use Rattle.raft_reads.specs.Reads.{with_heard};
ghost use Rattle.raft_core.specs.Steps.{TakesAct};
ghost use Rattle.raft_peers.specs.declared.frame.Frame.TheVariants as frames;

use crate::clock::Clock;
use crate::config::{Config, PeerLimits};
use crate::election::answer;
use crate::error::{CoreError, FrameError, RequestError};
use crate::length::LogLength;
use crate::membership::Target;
use crate::moves::Move;
use crate::node::{engine_of, is_building, next_id, other_leader};
use crate::policy::{Plan, Policy};
use crate::release::{leave, read_all, reply_all};
use crate::steps::{take, take_all, take_with};
use raft_answers::{
    Answer, Batch, Limits, Operation, Place, Reply, Request, Requests, Token, fail,
};
use raft_calls::lead::read_answer;
use raft_calls::message::Message;
use raft_chunks::{Chunk, Title};
use raft_frames::LogId as LogName;
use raft_node::act::Act;
use raft_node::given::Given;
use raft_peers::frame::{
    Frame, PartReply, PreVote, PreVoteReply, answer_part, ask_all, grant_all, read_frame, term_of,
};
use raft_peers::output::{Output, push};
use raft_peers::parts::{Incoming, Outgoing, go_on, keep_of};
use raft_peers::prepare::{Preparing, encode_some, keep_prepared, some_of};
use raft_peers::raft_packed_server::raft_packed::{Machine, Packed};
use raft_peers::raft_packed_server::raft_packed_node::{PackedAct, PackedMessage, StepError};
use raft_peers::raft_packed_server::raft_packed_wire::{PackedContent, PackedPacket, SentPart};
use raft_peers::raft_packed_server::{NewLog, OpenError, Server, Written};
use raft_peers::send::Sender;
use raft_progress::Joint;
use raft_reads::{Question, Reader, Reads};
use raft_schedule::event::Outcome;
use raft_state::{Items, LeaderId, LogId};
use raft_store::Value;
use std::alloc::{AllocError, Global};
use std::marker::Model;

/// About how many bytes of a snapshot are encoded at once: it takes less than a millisecond.
const PIECE_BYTES: usize = 1 << 17;

/// How many of them are encoded or summed at once for a new log, which is to be done before the old one is much longer.
const LOG_PIECES: usize = 8;

/// How many late entries are applied to a snapshot's state at once, at most: it takes some milliseconds.
const LATE_ENTRIES: usize = 2_000;

/// What clients have asked for without an answer so far.
#[derive(Drop)]
struct Clients {
    requests: Requests,
    reads: Reads,
    /// The leader id under which requests were proposed last.
    under: Option<LeaderId<u64>>,
}

/// A server that receives messages, ticks and requests (openraft's `RaftCore`), without input and output.
pub struct RaftCore<M: Machine> {
    alloc: Global,
    id: u64,
    /// The moment of its start: its packets name it.
    start: u64,
    limits: Limits,
    peers: PeerLimits,
    request_timeout: u64,
    clock: Clock,
    server: Server<M>,
    policy: Policy,
    clients: Clients,
    /// The index of the last entry that was handed out, if no snapshot was installed with it or after it.
    executed: Option<u64>,
    /// The end of the bytes that are on their way to the disk.
    writing: Option<u64>,
    /// How many bytes were taken and proposed since no record waited last.
    unwritten: usize,
    log: LogLength,
    /// The messages whose snapshots are encoded, and those whose snapshots go out in parts: one for each server.
    preparing: Vec<Preparing<M>>,
    outgoing: Vec<Outgoing>,
    incoming: Incoming,
}

// Written out, so that it is proved once: a derived one is laid out wherever a server may be dropped.
impl<M: Machine> Drop for RaftCore<M> {
    fn drop(self) {
        let RaftCore {
            alloc: _,
            id: _,
            start: _,
            limits: _,
            peers: _,
            request_timeout: _,
            clock: _,
            server: _,
            policy: _,
            clients: _,
            executed: _,
            writing: _,
            unwritten: _,
            log: _,
            preparing: _,
            outgoing: _,
            incoming: _,
        } = self;
    }
}

impl<M: Machine> Model for RaftCore<M> {
    ghost use Rattle.raft_core.specs.Views.{CoreView};

    ghost Value = { CoreView M };

    ghost view = { λ s. record {
      id = s.id;
      start = s.start;
      clock = s.clock.moment;
      server = s.server;
      requests = s.clients.requests;
      executed = s.executed;
      reads = s.clients.reads;
      preparing = s.preparing.items;
      outgoing = s.outgoing.items;
      incoming = s.incoming.assembly;
    } };
}

/// A server that was opened on its log.
#[derive(Drop)]
pub struct OpenedCore<M: Machine> {
    pub core: RaftCore<M>,
    /// What was applied already: what the log's snapshot has, or nothing. The state machine goes on from it.
    pub applied: Packed<M>,
    /// How many bytes of the log are kept. What stands behind them is cut off, and that is synced, before anything is
    /// appended.
    pub end: usize,
}

/// The moment of a server's last step.
fn moment_of<M: Machine>(server: &Server<M>) -> u64
    ensures { result ≡ moment_in server.now.serving }
{
    match server.node() {
        Some(node) => node.moment(),
        None => 0,
    }
}

/// What the node's snapshot has, or nothing once the server has stopped.
#[tactic(auto, using(crate::proofs::Begun::snapshot_at))]
fn snapshot_of<M: Machine>(alloc: Global, server: &Server<M>) -> Result<Packed<M>, AllocError>
    ensures { IfOk result (λ copied. IfSome server.now.serving (λ v. copied ≡ v.node.store.snap)) }
{
    match server.node() {
        Some(node) => node.store().copy_snapshot(),
        None => Ok(Packed::new(alloc)),
    }
}

/// Prepares a new log: some bytes of its snapshot are encoded, or summed. Answers whether more is left to be done.
fn prepare_some_log<M: Machine>(server: &mut Server<M>, log: &LogName) -> Result<bool, AllocError>
    ensures { server.new ≡ server.old }
{
    for _ in 0..LOG_PIECES {
        if !server.prepare_log(log, some_of(PIECE_BYTES))? {
            return Ok(false);
        }
    }
    Ok(true)
}

/// What it is time for. A build's end may wait while the snapshot is wanted as it is, or a member wants the entries before it.
fn plan<M: Machine>(
    alloc: Global,
    server: &Server<M>,
    policy: &mut Policy,
    clock: &Clock,
    random: u64,
    asked_at: Option<u64>,
    is_wanted: bool,
    length: &mut LogLength,
) -> Result<Plan, AllocError> {
    let Some(engine) = engine_of(server) else {
        return Ok(Plan::nothing(alloc));
    };
    let stays = is_wanted && length.lets_snapshots_stay();
    let is_held = stays || length.lets_builds_wait() && policy.holds_build(engine, clock);
    let ends_build = is_building(server) && !is_held && length.ends_build();
    policy.tick(engine, clock, random, asked_at, ends_build)
}

/// The leader id under which requests are taken.
fn leads<M: Machine>(policy: &Policy, server: &Server<M>) -> Option<LeaderId<u64>> {
    policy.leads(engine_of(server)?)
}

/// The term of the leader id under which requests are taken.
fn lead_term<M: Machine>(policy: &Policy, server: &Server<M>) -> Option<u64> {
    Some(leads(policy, server)?.term)
}

/// The servers whose snapshots are encoded are waited for as if they had answered a part.
fn wait_for<M: Machine>(preparing: &[Preparing<M>], policy: &mut Policy, clock: &Clock) {
    for one in preparing {
        policy.hear_part(one.to(), false, clock);
    }
}

/// Another server that leads, as far as this one knows.
fn leader_of<M: Machine>(server: &Server<M>) -> Option<u64> {
    other_leader(engine_of(server)?)
}

/// The values of a batch.
fn values_of(alloc: Global, batch: Vec<Items<u8>>) -> Result<Items<Value>, AllocError>
    ensures { IfOk result (λ values. values ≡ map Bytes batch.items) }
{
    let mut values = Vec::new(alloc);
    for bytes in batch {
        values.push(Value::Bytes(bytes))?;
    }
    Ok(Items::from_vec(values))
}

/// Answers requests that were proposed under another leader id than the one under which requests are taken now.
fn end_lost<M: Machine>(
    policy: &Policy,
    server: &Server<M>,
    under: &Option<LeaderId<u64>>,
    requests: &mut Requests,
    replies: &mut Vec<Reply>,
) -> Result<(), AllocError>
    ensures { OnOk result (Loses requests.old replies.old.items requests.new replies.new.items) }
{
    if leads(policy, server) != *under {
        requests.end(replies)?;
    }
    Ok(())
}

/// Whether the lead is over under which reads came, or were asked for.
fn is_gone<M: Machine>(policy: &Policy, server: &Server<M>, reads: &Reads) -> bool {
    match leads(policy, server) {
        Some(leader_id) => match reads.under() {
            Some(under) => under != leader_id,
            None => false,
        },
        None => !reads.is_empty(),
    }
}

/// Refuses reads whose lead is over.
fn refuse_gone<M: Machine>(
    policy: &Policy,
    server: &Server<M>,
    reads: &mut Reads,
    replies: &mut Vec<Reply>,
) -> Result<(), AllocError>
    ensures { OnOk result (RefusesReads reads.old replies.old.items reads.new replies.new.items) }
{
    if is_gone(policy, server, reads) {
        let leader = leader_of(server);
        reads.refuse(Answer::NotLeader { leader }, replies)?;
    }
    Ok(())
}

/// Answers requests and reads whose lead is over after a message, and the reads of each round that is over.
fn answer_after<M: Machine>(
    alloc: Global,
    policy: &Policy,
    server: &Server<M>,
    executed: Option<u64>,
    clients: &mut Clients,
) -> Result<Vec<Output<M>>, AllocError>
    ensures { IfOk result (λ outputs.
        AnswersAfter executed clients.old.requests clients.old.reads outputs.items clients.new.requests clients.new.reads) }
{
    let Clients {
        requests,
        reads,
        under,
    } = clients;
    let mut replies = Vec::new(alloc);
    end_lost(policy, server, under, requests, &mut replies)?;
    let mut told = Vec::new(alloc);
    refuse_gone(policy, server, reads, &mut told)?;
    reads.answer(executed, &mut told)?;
    let mut outputs = Vec::new(alloc);
    reply_all(replies, &mut outputs)?;
    read_all(told, &mut outputs)?;
    Ok(outputs)
}

/// Answers requests and reads whose lead is over, or which came before a moment, in milliseconds.
fn answer_overdue<M: Machine>(
    alloc: Global,
    policy: &Policy,
    server: &Server<M>,
    upto: u64,
    clients: &mut Clients,
    outputs: &mut Vec<Output<M>>,
) -> Result<(), AllocError>
    ensures { OnOk result (AnswersOverdue upto clients.old.requests clients.old.reads outputs.old.items
        clients.new.requests clients.new.reads outputs.new.items) }
{
    let Clients {
        requests,
        reads,
        under,
    } = clients;
    let mut replies = Vec::new(alloc);
    end_lost(policy, server, under, requests, &mut replies)?;
    requests.expire(upto, &mut replies)?;
    let mut told = Vec::new(alloc);
    refuse_gone(policy, server, reads, &mut told)?;
    reads.expire(upto, &mut told)?;
    reply_all(replies, outputs)?;
    read_all(told, outputs)?;
    Ok(())
}

/// What the node answers to reads, if it leads.
fn question_of<M: Machine>(
    alloc: Global,
    id: u64,
    server: &Server<M>,
) -> Result<Option<Question>, AllocError>
    ensures { IfOk result (λ question. IfSome question (λ q. (e : EngineView) × (engine_in server.now.serving ≡ Some e)
        × (read_answer id e ≡ Some q.answer) × (q.groups ≡ e.machine.core.state.em.membership.groups))) }
{
    let Some(engine) = engine_of(server) else {
        return Ok(None);
    };
    let Some(answer) = read_answer(id, engine) else {
        return Ok(None);
    };
    let groups = Joint::of_membership(alloc, &engine.state.em.membership)?;
    Ok(Some(Question { answer, groups }))
}

/// Asks the node for the reads that wait, by one step, if a round may begin and it leads.
fn ask_reads<M: Machine>(
    alloc: Global,
    id: u64,
    clock: &Clock,
    server: &mut Server<M>,
    reads: &mut Reads,
) -> Result<(), CoreError>
    ensures { OnOk result (Asks M.application clock.now.moment id server.old reads.old server.new reads.new) }
{
    if !reads.is_free() {
        return Ok(());
    }
    match question_of(alloc, id, server)? {
        Some(question) => {
            take(server, Act::Read, clock)?;
            Ok(reads.begin(question, moment_of(server))?)
        }
        None => Ok(()),
    }
}

/// The answer to a server that asks whether it would be elected.
fn answer_to<M: Machine>(server: &Server<M>, ask: &PreVote, clock: &Clock) -> Option<PreVoteReply> {
    Some(answer(engine_of(server)?, ask, clock.moment))
}

/// What it is time for after such an answer.
fn moves_after<M: Machine>(
    alloc: Global,
    server: &Server<M>,
    policy: &mut Policy,
    reply: &PreVoteReply,
) -> Result<Vec<Move>, AllocError> {
    match engine_of(server) {
        Some(engine) => policy.stands(engine, reply),
        None => Ok(Vec::new(alloc)),
    }
}

/// What was proposed: under which leader id, and how many bytes.
#[derive(Clone, Copy)]
struct Made {
    leader_id: LeaderId<u64>,
    bytes: usize,
}

/// Proposes the values of a batch as one step.
fn take_proposal<M: Machine>(
    alloc: Global,
    server: &mut Server<M>,
    values: Vec<Items<u8>>,
    clock: &Clock,
) -> Result<Outcome, CoreError>
    ensures { IfOk result (λ outcome. TakesAct M.application clock.now.moment (Propose (map Bytes values.items)) server.old outcome server.new) }
{
    let values = values_of(alloc, values)?;
    take(server, Act::Propose(values), clock)
}

/// The requests of a batch wait for the entries of their values, of which the first has this id, if its proposal was accepted.
/// Else they have failed, and of those before them nothing more is known.
fn place(
    outcome: Outcome,
    places: Vec<Place>,
    first: LogId<u64>,
    requests: &mut Requests,
    replies: &mut Vec<Reply>,
) -> Result<(), AllocError>
    ensures { OnOk result (Becomes outcome first places.items requests.old replies.old.items requests.new replies.new.items) }
{
    match outcome {
        Outcome::Done => requests.propose(places, first),
        _ => {
            requests.end(replies)?;
            fail(places, replies)
        }
    }
}

/// Proposes a batch of requests, of which the first value gets this id.
fn propose_batch<M: Machine>(
    alloc: Global,
    limits: &Limits,
    clock: &Clock,
    first: LogId<u64>,
    server: &mut Server<M>,
    requests: &mut Requests,
    replies: &mut Vec<Reply>,
) -> Result<Made, CoreError>
    ensures { OnOk result (ProposesBatch M.application clock.now.moment first server.old requests.old replies.old.items
        server.new requests.new replies.new.items) }
{
    let Batch {
        places,
        values,
        bytes,
    } = requests.take_batch(limits)?;
    let outcome = take_proposal(alloc, server, values, clock)?;
    place(outcome, places, first, requests, replies)?;
    Ok(Made {
        leader_id: first.leader_id,
        bytes,
    })
}

/// Answers all requests: this server doesn't lead.
fn refuse_all(
    leader: Option<u64>,
    requests: &mut Requests,
    replies: &mut Vec<Reply>,
) -> Result<(), AllocError>
    ensures { OnOk result (RefusesAll leader requests.old replies.old.items requests.new replies.new.items) }
{
    requests.end(replies)?;
    requests.refuse(Answer::NotLeader { leader }, replies)
}

/// The id of the next proposal, if requests are taken.
fn next_place<M: Machine>(policy: &Policy, server: &Server<M>) -> Option<LogId<u64>>
    ensures { IfSome result (λ first. IsNextId server.now.serving first) }
{
    let engine = engine_of(server)?;
    let _leads = policy.leads(engine)?;
    next_id(engine)
}

/// Proposes what waits, or answers it if this server doesn't lead.
fn propose<M: Machine>(
    alloc: Global,
    limits: &Limits,
    clock: &Clock,
    policy: &Policy,
    server: &mut Server<M>,
    requests: &mut Requests,
    replies: &mut Vec<Reply>,
) -> Result<Option<Made>, CoreError>
    ensures { OnOk result (Proposes M.application clock.now.moment server.old requests.old replies.old.items
        server.new requests.new replies.new.items) }
{
    if !requests.has_waiting() {
        return Ok(None);
    }
    match next_place(policy, server) {
        Some(first) => {
            let made = propose_batch(alloc, limits, clock, first, server, requests, replies)?;
            Ok(Some(made))
        }
        None => {
            refuse_all(leader_of(server), requests, replies)?;
            Ok(None)
        }
    }
}

/// The bytes for a new log that is on its way, if one is.
fn next_items(bytes: Option<Vec<u8>>) -> Option<Items<u8>>
    ensures { result ≡ option_map (λ b. b.items) bytes }
{
    match bytes {
        Some(bytes) => Some(Items::from_vec(bytes)),
        None => None,
    }
}

/// Bytes for the log's end leave.
fn append<M: Machine>(
    written: Option<Written>,
    outputs: &mut Vec<Output<M>>,
) -> Result<(), AllocError>
    ensures { OnOk result (outputs.new.items ≡ outputs.old.items ++ appended written) }
{
    match written {
        Some(written) => push(
            Output::Append {
                bytes: Items::from_vec(written.bytes),
                end: written.end,
                next: next_items(written.next),
            },
            outputs,
        ),
        None => Ok(()),
    }
}

/// Answers leave, and behind them bytes for the log's end.
fn outputs_of<M: Machine>(
    alloc: Global,
    replies: Vec<Reply>,
    told: Vec<Reply>,
    written: Option<Written>,
) -> Result<Vec<Output<M>>, AllocError>
    ensures { IfOk result (λ outputs. outputs.items ≡ replies_out replies.items ++ (reads_out told.items ++ appended written)) }
{
    let mut outputs = Vec::new(alloc);
    reply_all(replies, &mut outputs)?;
    read_all(told, &mut outputs)?;
    append(written, &mut outputs)?;
    Ok(outputs)
}

impl<M: Machine> RaftCore<M> {
    /// Opens a server on its log, which may be empty. Its clock goes on at the greatest moment of the log's records, and what was
    /// applied is what the log's snapshot has: entries behind that are executed.
    ///
    /// Refused as [`Server::open`].
    #[tactic(auto, using(crate::proofs::Begun::has_snapshot))]
    pub fn open(
        alloc: Global,
        given: Given,
        config: &Config,
        id: &LogName,
        log: &[u8],
    ) -> Result<OpenedCore<M>, OpenError>
        ensures { IfOk result (λ opened. Begins M.application M.codec given id.now log.now opened) }
    {
        let opened = Server::open(alloc, given, id, log, 0)?;
        let moment = moment_of(&opened.server);
        let applied = snapshot_of(alloc, &opened.server).map_err(|_| OpenError::Start(
            StepError::OutOfMemory,
        ))?;
        Ok(OpenedCore {
            core: RaftCore {
                alloc,
                id: id.node,
                start: moment,
                limits: config.limits,
                peers: config.peers,
                request_timeout: config.request_timeout,
                clock: Clock { moment },
                server: opened.server,
                policy: Policy::new(alloc, *config, moment),
                clients: Clients {
                    requests: Requests::new(alloc),
                    reads: Reads::new(alloc),
                    under: None,
                },
                executed: None,
                writing: None,
                unwritten: 0,
                log: LogLength::new(opened.end as u64, config.log_bytes),
                preparing: Vec::new(alloc),
                outgoing: Vec::new(alloc),
                incoming: Incoming::new(alloc),
            },
            applied,
            end: opened.end,
        })
    }

    /// Gives the server the first entry of a new cluster.
    pub fn initialize(&mut self) -> Result<(), CoreError>
        ensures { OnOk result (Moves M.application (Initialize ∷ []) self.old self.new) }
    {
        take(&mut self.server, Act::Initialize, &self.clock)?;
        Ok(())
    }

    /// Time went by, in milliseconds; `random` is a random number. Steps are taken for which it is time, and requests are
    /// answered whose lead is over, or that wait for too long.
    pub fn tick(&mut self, elapsed: u64, random: u64) -> Result<Vec<Output<M>>, CoreError>
        ensures clock { self.old.clock ≤ self.new.clock }
        ensures ticks { IfOk result (λ outputs. Ticks M.application self.old outputs.items self.new) }
    {
        self.clock.advance(elapsed);
        let is_wanted = self.is_snapshot_wanted();
        let Plan { moves, asks } = plan(
            self.alloc,
            &self.server,
            &mut self.policy,
            &self.clock,
            random,
            self.clients.reads.asked_at(),
            is_wanted,
            &mut self.log,
        )?;
        take_all(&mut self.server, moves, &self.clock)?;
        let upto = self.clock.before(self.request_timeout);
        let mut outputs = Vec::new(self.alloc);
        ask_all(self.alloc, asks, &mut outputs)?;
        answer_overdue(
            self.alloc,
            &self.policy,
            &self.server,
            upto,
            &mut self.clients,
            &mut outputs,
        )?;
        Ok(outputs)
    }

    /// Whether something is made of the snapshot: of one that is to leave, which shares the state, or for a new log.
    fn is_snapshot_wanted(&self) -> bool {
        !self.preparing.is_empty() || self.log.preparing().is_some()
    }

    /// These members are wanted: this server, which leads, changes to them step by step. New voters come as learners and are
    /// caught up first; those that leave stay learners until that is committed. If the lead ends before the new voters are in
    /// joint groups with the old ones, it is to be asked for again; from then on, whichever server leads finishes it.
    ///
    /// Refused with `NotLeader`, which changes nothing.
    pub fn change_members(
        &mut self,
        voters: Vec<u64>,
        learners: Vec<u64>,
    ) -> Result<(), RequestError>
        ensures { self.new ≡ self.old }
    {
        if leads(&self.policy, &self.server).is_none() {
            return Err(RequestError::NotLeader {
                leader: leader_of(&self.server),
            });
        }
        self.policy.want(Target { voters, learners });
        Ok(())
    }

    /// Takes a client's request: its answer comes with the token. It is proposed by the next `write`.
    ///
    /// Refusals, which change nothing:
    /// - `NotLeader`: another server leads, or none is known to,
    /// - `Refused`: its value has too many bytes, or too many requests wait, or too many bytes of them.
    pub fn request(&mut self, token: Token, operation: Operation) -> Result<(), RequestError>
        ensures ok { OnOk result (Admits token operation self.old self.new) }
        ensures err { OnErr result (self.new ≡ self.old) }
    {
        if leads(&self.policy, &self.server).is_none() {
            return Err(RequestError::NotLeader {
                leader: leader_of(&self.server),
            });
        }
        let request = Request {
            token,
            since: self.clock.moment,
            operation,
        };
        self.clients
            .requests
            .admit(&self.limits, request)
            .map_err(RequestError::Refused)
    }

    /// Takes a client's read, which is answered without an entry (Raft paper, section 8; Ongaro's thesis, section 6.4): its answer
    /// comes with the token, as [`Output::Read`], once a quorum has answered requests that this server sent as leader after the
    /// next `write`. It sees all that any client was answered before it came; of requests without an answer it may see some,
    /// whichever came first.
    ///
    /// Refusals, which change nothing:
    /// - `NotLeader`: another server leads, or none is known to,
    /// - `Refused`: as many reads have no answer as the limits allow of requests, or memory ran out.
    pub fn read(&mut self, token: Token) -> Result<(), RequestError>
        ensures ok { OnOk result (AdmitsRead token self.old self.new) }
        ensures err { OnErr result (self.new ≡ self.old) }
    {
        if leads(&self.policy, &self.server).is_none() {
            return Err(RequestError::NotLeader {
                leader: leader_of(&self.server),
            });
        }
        let reader = Reader {
            token,
            since: self.clock.moment,
        };
        self.clients
            .reads
            .admit(self.limits.requests, reader)
            .map_err(RequestError::Refused)
    }

    /// Asks for the reads that wait, proposes what waits, and hands out the records that wait as bytes for the log's end.
    /// Nothing while others are on their way to the disk.
    pub fn write(&mut self) -> Result<Vec<Output<M>>, CoreError>
        ensures { IfOk result (λ outputs. Writes M.application M.codec self.old outputs.items self.new) }
    {
        if self.writing.is_some() {
            return Ok(Vec::new(self.alloc));
        }
        let mut replies = Vec::new(self.alloc);
        end_lost(
            &self.policy,
            &self.server,
            &self.clients.under,
            &mut self.clients.requests,
            &mut replies,
        )?;
        let mut told = Vec::new(self.alloc);
        refuse_gone(
            &self.policy,
            &self.server,
            &mut self.clients.reads,
            &mut told,
        )?;
        ask_reads(
            self.alloc,
            self.id,
            &self.clock,
            &mut self.server,
            &mut self.clients.reads,
        )?;
        let made = propose(
            self.alloc,
            &self.limits,
            &self.clock,
            &self.policy,
            &mut self.server,
            &mut self.clients.requests,
            &mut replies,
        )?;
        self.note_made(made);
        let written = self.server.write()?;
        self.note_written(&written);
        Ok(outputs_of(self.alloc, replies, told, written)?)
    }

    /// A batch was proposed, if one was.
    fn note_made(&mut self, made: Option<Made>)
        ensures { self.new ≡ self.old }
    {
        if let Some(made) = made {
            self.clients.under = Some(made.leader_id);
            self.unwritten = self.unwritten.saturating_add(made.bytes);
        }
    }

    /// Bytes are on their way to the disk, if some were handed out; no record waits any more.
    fn note_written(&mut self, written: &Option<Written>)
        ensures { self.new ≡ self.old }
    {
        if let Some(written) = written {
            self.writing = Some(written.end);
            self.log.note_end(written.end);
        }
        self.unwritten = 0;
    }

    /// The bytes on their way to the disk are there, if the log is up to this position.
    fn note_flushed(&mut self, position: u64)
        ensures { self.new ≡ self.old }
    {
        if let Some(end) = self.writing
            && end <= position
        {
            self.writing = None;
        }
    }

    /// Begins a new log, if the old one is long: gives its bytes, from the first on, which make what the old log makes. They go to a file of
    /// their own, and behind them what leaves for the new log from then on (`Append`), while the old log goes on. Once the file has all of
    /// that, and is synced, [`take_over`](RaftCore::take_over) gives it the old log's place.
    ///
    /// None if the log isn't long, while a new one is on its way or prepared, call by call, while bytes are on their way to the disk or records
    /// wait, once the server has stopped, if a frame can't hold the checkpoint, or out of memory: nothing has changed then.
    pub fn begin_log(&mut self, log: &LogName) -> Option<NewLog>
        ensures { MayBeginLog M.codec log.now self.old result self.new }
    {
        if !self.log.is_long() || self.prepare_log(log) {
            return None;
        }
        self.begin_prepared(log)
    }

    /// Begins a new log, as it was prepared. None as [`RaftCore::begin_log`].
    #[tactic(auto, using(crate::proofs::Begun::begins))]
    fn begin_prepared(&mut self, log: &LogName) -> Option<NewLog>
        ensures { MayBeginLog M.codec log.now self.old result self.new }
    {
        let Ok(begun) = self.server.begin_log(log) else {
            self.log.note_failed();
            return None;
        };
        self.note_begun(&begun);
        begun
    }

    /// Prepares a new log a little. Answers whether more is left to be done.
    fn prepare_log(&mut self, log: &LogName) -> bool
        ensures { self.new ≡ self.old }
    {
        self.log.note_preparing(*log);
        match prepare_some_log(&mut self.server, log) {
            Ok(is_more) => is_more,
            Err(_) => {
                self.log.note_failed();
                true
            }
        }
    }

    /// A new log was begun, if one was.
    fn note_begun(&mut self, begun: &Option<NewLog>)
        ensures { self.new ≡ self.old }
    {
        if let Some(log) = begun {
            self.log.note_begun(log.end);
        }
    }

    /// The new log takes the old one's place, with all that was handed out: gives where it ends. It is called once the new file has all of
    /// that, and is synced; then the file takes the old one's place, durably, before [`write`](RaftCore::write). From then on positions are
    /// those of the new log: `flushed` isn't called with one of the old log any more.
    ///
    /// None, and nothing changes, if no new log is on its way, while bytes are on their way to the disk, or once the server has stopped.
    pub fn take_over(&mut self) -> Option<u64>
        ensures { TakesOverLog self.old result self.new }
    {
        let end = self.server.take_over();
        self.note_taken_over(end);
        end
    }

    /// A new log has the old one's place, if one took it.
    fn note_taken_over(&mut self, end: Option<u64>)
        ensures { self.new ≡ self.old }
    {
        if let Some(end) = end {
            self.log.note_taken_over(end);
        }
    }

    /// The new log can't be written, and is given up: the old one goes on alone. It is tried again once the log is twice as long.
    pub fn give_up_log(&mut self)
        ensures { GivesUpLog self.old self.new }
    {
        self.server.give_up_log();
        self.log.note_failed();
    }

    /// Does a little for which nothing waits, and answers whether more is left: it makes a part of the snapshot's state
    /// ([`Server::fold_some`](raft_packed_server::Server::fold_some)), and prepares a new log that is wanted. If a snapshot is to leave, it encodes a
    /// part of that instead: while they share a state, to apply an entry to it copies it.
    pub fn fold_some(&mut self, most: usize) -> Result<bool, CoreError>
        ensures { OnOk result (self.new ≡ self.old) }
    {
        if !self.preparing.is_empty() {
            return Ok(encode_some(self.alloc, PIECE_BYTES, &mut self.preparing)?);
        }
        if self.server.fold_some(most)? {
            return Ok(true);
        }
        match self.log.preparing() {
            Some(log) => Ok(self.prepare_log(&log)),
            None => Ok(false),
        }
    }

    /// Makes more of the snapshot's state, if a new log is to begin with it, or a build is to end; unless a snapshot that is to leave shares it:
    /// then all of it would be copied.
    fn fold_if_waited_for(&mut self) -> Result<(), CoreError>
        ensures { OnOk result (self.new ≡ self.old) }
    {
        let is_waited_for = self.log.is_long() || is_building(&self.server);
        if is_waited_for && self.preparing.is_empty() {
            self.server.fold_some(LATE_ENTRIES)?;
        }
        Ok(())
    }

    /// The log is on disk up to this position: what the steps say whose records stand up to there leaves. If then no bytes
    /// are on their way to the disk and no record waits, what the steps behind them say leaves too. Behind all of it leave the
    /// answers to the reads of each round that is over then.
    ///
    /// It is called once bytes are synced, and also with the position of the last sync, before
    /// [`write`](RaftCore::write) and if that gave no bytes for the log (`Append`). Most steps change nothing on disk, as
    /// a commit, and what they say waits for no sync.
    pub fn flushed(&mut self, position: u64) -> Result<Vec<Output<M>>, CoreError>
        ensures { IfOk result (λ outputs. Releases M.application M.codec position self.old outputs.items self.new) }
    {
        self.fold_if_waited_for()?;
        let said = self.server.flushed(position)?;
        self.note_flushed(position);
        let term = lead_term(&self.policy, &self.server);
        keep_prepared(term, &mut self.preparing);
        keep_of(term, &mut self.outgoing);
        wait_for(&self.preparing, &mut self.policy, &self.clock);
        let sender = Sender {
            start: self.start,
            most: self.peers.part_bytes,
            each: PIECE_BYTES,
            room: self.log.room(),
        };
        Ok(leave(
            self.alloc,
            sender,
            said,
            &mut self.clients.requests,
            &mut self.executed,
            &mut self.clients.reads,
            &mut self.preparing,
            &mut self.outgoing,
        )?)
    }

    /// Takes the bytes of a frame from a peer.
    ///
    /// Refusals, which change nothing that others see:
    /// - `TooLarge`: they are more than the limit,
    /// - `Busy`: too many bytes wait to be written,
    /// - `Decode`: they are no frame,
    /// - `Misdirected`: they are for another server,
    /// - `Stale`: they are a part of a snapshot of a term that is over,
    /// - `TermJump`: their term is further above this server's than elections explain.
    pub fn receive(&mut self, bytes: &[u8]) -> Result<Vec<Output<M>>, FrameError>
        ensures ok { IfOk result (λ outputs. Receives M.application M.codec bytes.now self.old outputs.items self.new) }
        ensures err { IfErr result (λ e. IsRefusal e → self.new ≡ self.old) }
    {
        if bytes.len() > self.peers.frame_bytes {
            return Err(FrameError::TooLarge);
        }
        if self.unwritten > self.peers.unwritten_bytes {
            return Err(FrameError::Busy);
        }
        match read_frame(self.alloc, bytes).map_err(FrameError::Decode)? {
            Frame::Packet(packet) => self.take_packet(packet, bytes.len()),
            Frame::PreVote(ask) => self.take_pre_vote(&ask),
            Frame::PreVoteReply(reply) => self.take_pre_vote_reply(&reply),
            Frame::PartReply(reply) => self.take_part_reply(&reply),
        }
    }

    /// Refuses what is for another server.
    fn check_to(&self, to: u64) -> Result<(), FrameError>
        ensures { OnOk result (to ≡ self.now.id) }
    {
        if to == self.id {
            Ok(())
        } else {
            Err(FrameError::Misdirected { to })
        }
    }

    /// Refuses a term that elections don't explain.
    fn check_term(&self, term: u64) -> Result<(), FrameError> {
        let own = match engine_of(&self.server) {
            Some(engine) => engine.state.vote.leader_id.term,
            None => term,
        };
        if term > own.saturating_add(self.peers.term_jump) {
            return Err(FrameError::TermJump { term, own });
        }
        Ok(())
    }

    /// A server was heard.
    fn hear(&mut self, from: u64) -> Result<(), AllocError>
        ensures { self.new ≡ self.old }
    {
        match engine_of(&self.server) {
            Some(engine) => self.policy.hear(engine, from, &self.clock),
            None => Ok(()),
        }
    }

    /// Takes a packet of so many bytes.
    fn take_packet(
        &mut self,
        packet: PackedPacket<Packed<M>>,
        len: usize,
    ) -> Result<Vec<Output<M>>, FrameError>
        ensures ok { IfOk result (λ outputs. TakesFrame M.application M.codec (frames.Packet packet) self.old outputs.items self.new) }
        ensures err { IfErr result (λ e. IsRefusal e → self.new ≡ self.old) }
    {
        match packet.content {
            PackedContent::Message(message) => self.take_message(message.into_message(), len),
            PackedContent::Part(part) => self.take_part(part),
        }
    }

    /// Refuses a message.
    fn check_message(&self, message: &Message) -> Result<(), FrameError>
        ensures { OnOk result (message.now.to ≡ self.now.id) }
    {
        self.check_to(message.to)?;
        self.check_term(term_of(&message.body))
    }

    /// Hears who sent a message of a packet of so many bytes.
    fn hear_message(&mut self, message: &Message, len: usize) -> Result<(), CoreError>
        ensures { OnOk result (self.new ≡ record self.old { reads = with_heard message.now self.old.reads }) }
    {
        self.hear(message.from)?;
        self.unwritten = self.unwritten.saturating_add(len);
        self.clients.reads.hear(message)?;
        Ok(())
    }

    /// Takes a message of a packet of so many bytes.
    fn take_message(
        &mut self,
        message: PackedMessage<M>,
        len: usize,
    ) -> Result<Vec<Output<M>>, FrameError>
        ensures ok { IfOk result (λ outputs. TakesMessage M.application message self.old outputs.items self.new) }
        ensures err { IfErr result (λ e. IsRefusal e → self.new ≡ self.old) }
    {
        self.check_message(&message.message)?;
        Ok(self.take_checked(message, len)?)
    }

    /// Takes a message for this server, of so many bytes.
    fn take_checked(
        &mut self,
        message: PackedMessage<M>,
        len: usize,
    ) -> Result<Vec<Output<M>>, CoreError>
        requires { message.message.to ≡ self.old.id }
        ensures { IfOk result (λ outputs. TakesMessage M.application message self.old outputs.items self.new) }
    {
        self.hear_message(&message.message, len)?;
        take_with(&mut self.server, PackedAct::take(message), &self.clock)?;
        Ok(answer_after(
            self.alloc,
            &self.policy,
            &self.server,
            self.executed,
            &mut self.clients,
        )?)
    }

    /// Refuses a part of a snapshot: of a term that is over, or of too many bytes.
    fn check_part(&self, message: &Message, title: &Title) -> Result<(), FrameError>
        ensures { OnOk result (message.now.to ≡ self.now.id) }
    {
        self.check_message(message)?;
        let term = term_of(&message.body);
        if let Some(engine) = engine_of(&self.server)
            && term < engine.state.vote.leader_id.term
        {
            return Err(FrameError::Stale { term });
        }
        if title.len > self.peers.snapshot_bytes {
            return Err(FrameError::TooLarge);
        }
        Ok(())
    }

    /// Takes a part of a snapshot, and with the last one its message. Its sender is told where to go on.
    fn take_part(&mut self, part: SentPart) -> Result<Vec<Output<M>>, FrameError>
        ensures ok { IfOk result (λ outputs. KeepsPart M.codec part self.old outputs.items self.new
            ⊎ CompletesSnapshot M.application M.codec part self.old outputs.items self.new) }
        ensures err { IfErr result (λ e. IsRefusal e → self.new ≡ self.old) }
    {
        let SentPart { message, chunk } = part;
        let chunk = Chunk::decode(self.alloc, chunk.as_slice()).map_err(FrameError::Decode)?;
        self.check_part(&message, &chunk.at.title)?;
        Ok(self.take_chunk(message, &chunk)?)
    }

    /// Takes a chunk of the snapshot of a message, and with the last one the message.
    fn take_chunk(
        &mut self,
        message: Message,
        chunk: &Chunk<'_>,
    ) -> Result<Vec<Output<M>>, CoreError>
        requires { message.to ≡ self.old.id }
        ensures { IfOk result (λ outputs. (x : Part) → x.message ≡ message → opened piece x.chunk ≡ Ok (piece_of chunk.now)
            → KeepsPart M.codec x self.old outputs.items self.new ⊎ CompletesSnapshot M.application M.codec x self.old outputs.items self.new) }
    {
        self.hear(message.from)?;
        self.incoming.hear(self.alloc, &message, chunk.at.title);
        let found = self.incoming.take(self.alloc, chunk)?;
        let mut outputs = Vec::new(self.alloc);
        let reply = PartReply {
            from: self.id,
            to: message.from,
            cursor: self.incoming.assembly.cursor(chunk.at.title),
        };
        answer_part(self.alloc, &reply, &mut outputs)?;
        let Some(snapshot) = found else {
            return Ok(outputs);
        };
        self.incoming.complete(&message);
        let len = chunk.at.title.len as usize;
        let snapshot = Some(snapshot);
        let mut others = self.take_checked(PackedMessage { message, snapshot }, len)?;
        outputs.append(&mut others)?;
        Ok(outputs)
    }

    /// Takes the answer to a part: the next one leaves.
    fn take_part_reply(&mut self, reply: &PartReply) -> Result<Vec<Output<M>>, FrameError>
        ensures ok { IfOk result (λ outputs. GoesOn M.codec reply.now self.old outputs.items self.new) }
        ensures err { IfErr result (λ e. IsRefusal e → self.new ≡ self.old) }
    {
        self.check_to(reply.to)?;
        self.hear(reply.from)?;
        let is_there = reply.cursor.is_at_end();
        self.policy.hear_part(reply.from, is_there, &self.clock);
        let mut outputs = Vec::new(self.alloc);
        go_on(
            self.alloc,
            self.start,
            self.peers.part_bytes,
            reply.from,
            &reply.cursor,
            &mut self.outgoing,
            &mut outputs,
        )?;
        Ok(outputs)
    }

    /// Answers whether this server would elect another.
    fn take_pre_vote(&mut self, ask: &PreVote) -> Result<Vec<Output<M>>, FrameError>
        ensures ok { IfOk result (λ outputs. Answers ask.now self.old outputs.items self.new) }
        ensures err { IfErr result (λ e. IsRefusal e → self.new ≡ self.old) }
    {
        self.check_to(ask.to)?;
        self.hear(ask.from)?;
        let mut outputs = Vec::new(self.alloc);
        let reply = answer_to(&self.server, ask, &self.clock);
        grant_all(self.alloc, reply, &mut outputs)?;
        Ok(outputs)
    }

    /// Takes the answer of a server that would elect this one, or not. Stands for election once a quorum would.
    fn take_pre_vote_reply(&mut self, reply: &PreVoteReply) -> Result<Vec<Output<M>>, FrameError>
        ensures ok { IfOk result (λ outputs. Hears M.application reply.now self.old outputs.items self.new) }
        ensures err { IfErr result (λ e. IsRefusal e → self.new ≡ self.old) }
    {
        self.check_to(reply.to)?;
        self.hear(reply.from)?;
        let moves = moves_after(self.alloc, &self.server, &mut self.policy, reply)?;
        take_all(&mut self.server, moves, &self.clock)?;
        Ok(Vec::new(self.alloc))
    }
}
