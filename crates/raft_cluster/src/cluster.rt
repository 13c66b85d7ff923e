//! Servers, their disks, and the network between them.

ghost use Rattle.std.specs.Prelude.{◌≡◌, ◌<◌, ◌^◌, ◌∷◌, ◌||◌, [], All, IfOk, OnOk, false, true};
ghost use Rattle.raft_cluster.specs.Calls.{is_done, is_forged};
ghost use Rattle.raft_cluster.specs.Clusters.{AreNew, Holds, IsFrameAt, Leaves, Notes, place_of};
ghost use Rattle.raft_cluster.specs.Outputs.{is_packet};

use crate::action::{Action, value_of};
use crate::comes::Comes;
use crate::dice::Dice;
use crate::error::ClusterError;
use crate::machine::{Done, Machine};
use crate::network::Network;
use crate::told::Told;
use proof_requests::raft_core::{Config, Output};
use raft_answers::{Operation, Token};
use raft_node::given::Given;
use raft_node::record::Executed;
use raft_packed::Machine as StateMachine;
use raft_state::Items;
use raft_world::refusals_of_new;
use std::alloc::{AllocError, Global};

/// In steps of so many milliseconds servers run.
const STEP: u64 = 10;

/// So often in a step frames are delivered, and records written and flushed.
const ROUNDS: u64 = 4;

/// Tokens from here on are those of writes that come as a load (`Action::Load`).
pub const FIRST_LOAD_TOKEN: u64 = 1 << 63;

/// Servers, their disks, all that ever left a server for others, and what clients asked for and were told.
pub struct Cluster<M: StateMachine> {
    alloc: Global,
    given: Given,
    config: Config,
    machines: Vec<Machine<M>>,
    network: Network,
    told: Told<M>,
    /// The random numbers of servers that run.
    dice: Dice,
    /// Whether a byte on a disk was changed by hand, or a packet of a stranger was taken.
    damaged: bool,
}

// Written out, so that it is proved once: a derived one is laid out wherever a cluster may be dropped.
impl<M: StateMachine> Drop for Cluster<M> {
    fn drop(self) {
        let Cluster {
            alloc: _,
            given: _,
            config: _,
            machines: _,
            network: _,
            told: _,
            dice: _,
            damaged: _,
        } = self;
    }
}

/// The place of the server with this id.
fn place_of<M: StateMachine>(machines: &[Machine<M>], id: u64) -> Option<usize>
    ensures { result ≡ place_of machines.now id }
{
    for place in 0..machines.len() {
        let here = machines[place].id();
        if here == id {
            return Some(place);
        }
    }
    None
}

/// What each server is given.
fn copy_given(given: &Given) -> Result<Given, AllocError>
    ensures { IfOk result (λ copied. copied ≡ given.now) }
{
    Ok(Given {
        ids: given.ids.copy()?,
        membership: given.membership.copy()?,
        settings: given.settings,
    })
}

/// Machines with these ids, none of which is open.
fn make_machines<M: StateMachine>(alloc: Global, ids: &[u64]) -> Result<Vec<Machine<M>>, AllocError>
    ensures fresh { IfOk result (λ machines. AreNew ids.now machines.items) }
    ensures named { IfOk result (λ _. All (λ id. id < 2 ^ 64) ids.now) }
{
    let mut machines = Vec::with_capacity(alloc, ids.len())?;
    for id in ids {
        machines.push(Machine::new(alloc, *id))?;
    }
    Ok(machines)
}

/// An output leaves a server: a frame for another, or what clients are told.
fn release<M: StateMachine>(
    node: u64,
    output: Output<M>,
    network: &mut Network,
    told: &mut Told<M>,
) -> Result<(), AllocError>
    ensures { OnOk result (Leaves node (output ∷ []) network.old told.old network.new told.new) }
{
    match output {
        Output::Send { to, bytes } => network.send(node, to, bytes),
        Output::Append { .. } => Ok(()),
        Output::Install(snapshot) => told.install(node, snapshot),
        Output::Execute(entry) => Ok(told.executed.push(Executed { node, entry })?),
        Output::Reply(reply) | Output::Read(reply) => told.answer(node, reply),
    }
}

/// Outputs leave a server, in this order.
fn release_all<M: StateMachine>(
    node: u64,
    outputs: Vec<Output<M>>,
    network: &mut Network,
    told: &mut Told<M>,
) -> Result<(), AllocError>
    ensures { OnOk result (Leaves node outputs.items network.old told.old network.new told.new) }
{
    'outputs: for output in outputs {
        release(node, output, network, told)?;
    }
    Ok(())
}

/// What a call of a server has done: its outputs leave.
fn finish<M: StateMachine>(
    node: u64,
    done: Done<M>,
    network: &mut Network,
    told: &mut Told<M>,
) -> Result<Comes, AllocError>
    ensures { OnOk result (Leaves node done.outputs.items network.old told.old network.new told.new) }
{
    let Done { comes, outputs } = done;
    release_all(node, outputs, network, told)?;
    Ok(comes)
}

/// Whether one of them is true.
fn either(one: bool, other: bool) -> bool
    ensures { result ≡ (one || other) }
{
    if one { true } else { other }
}

/// Whether nothing else came of a call.
fn is_done(comes: &Comes) -> bool
    ensures { result ≡ is_done comes.now }
{
    match comes {
        Comes::Done => true,
        _ => false,
    }
}

/// A request is noted if it was taken by a server.
fn note_asked<M: StateMachine>(
    taken: bool,
    node: u64,
    token: Token,
    operation: Operation,
    told: &mut Told<M>,
) -> Result<(), AllocError>
    ensures { OnOk result (Notes taken node token operation told.old told.new) }
{
    if taken {
        told.ask(node, token, operation)
    } else {
        Ok(())
    }
}

/// Whether bytes begin as those of a packet.
fn is_packet(bytes: &[u8]) -> bool
    ensures { result ≡ is_packet bytes.now }
{
    match bytes {
        [0, ..] => true,
        _ => false,
    }
}

/// Whether a server has taken a packet that no server sent.
fn is_forged(bytes: &[u8], comes: &Comes) -> bool
    ensures { result ≡ is_forged bytes.now comes.now }
{
    match comes {
        Comes::NotTaken(_) | Comes::NotOpen => false,
        _ => is_packet(bytes),
    }
}

impl<M: StateMachine> Cluster<M> {
    /// Servers with empty disks, none of which is open.
    ///
    /// Refused as [`raft_world::World::new`] refuses the nodes and the first membership, or out of memory.
    pub fn new(alloc: Global, given: Given, config: Config) -> Result<Self, ClusterError>
        ensures holds { IfOk result (λ cluster. Holds M.application M.codec cluster) }
        ensures given { IfOk result (λ cluster. cluster.given ≡ given) }
        ensures damaged { IfOk result (λ cluster. cluster.damaged ≡ false) }
    {
        if let Some(error) = refusals_of_new(given.ids.as_slice(), &given.membership) {
            return Err(ClusterError::Given(error));
        }
        let machines = make_machines(alloc, given.ids.as_slice())?;
        Ok(Cluster {
            alloc,
            given,
            config,
            machines,
            network: Network::new(alloc),
            told: Told::new(alloc),
            dice: Dice::new(1),
            damaged: false,
        })
    }

    /// The allocator.
    pub fn allocator(&self) -> Global {
        self.alloc
    }

    /// The servers.
    pub fn machines(&self) -> &[Machine<M>]
        ensures { result.now ≡ self.now.machines.items }
    {
        &self.machines
    }

    /// The server with this id.
    pub fn machine(&self, id: u64) -> Option<&Machine<M>> {
        self.machines.get(place_of(&self.machines, id)?)
    }

    /// All that left a server for others.
    pub fn network(&self) -> &Network
        ensures { result.now ≡ self.now.network }
    {
        &self.network
    }

    /// What clients asked for, and what they were told.
    pub fn told(&self) -> &Told<M>
        ensures { result.now ≡ self.now.told }
    {
        &self.told
    }

    /// Whether a byte on a disk was changed by hand, or a packet of a stranger was taken.
    pub fn is_damaged(&self) -> bool
        ensures { result ≡ self.now.damaged }
    {
        self.damaged
    }

    fn start(&mut self, id: u64) -> Result<Comes, AllocError>
        ensures { OnOk result (Holds M.application M.codec self.old → Holds M.application M.codec self.new) }
    {
        let given = copy_given(&self.given)?;
        let Some(place) = place_of(&self.machines, id) else {
            return Ok(Comes::NoServer);
        };
        Ok(self.machines[place].start(self.alloc, given, &self.config))
    }

    fn initialize(&mut self, id: u64) -> Comes
        ensures { Holds M.application M.codec self.old → Holds M.application M.codec self.new }
    {
        let Some(place) = place_of(&self.machines, id) else {
            return Comes::NoServer;
        };
        self.machines[place].initialize()
    }

    fn tick(&mut self, id: u64, elapsed: u64, random: u64) -> Result<Comes, AllocError>
        ensures { OnOk result (Holds M.application M.codec self.old → Holds M.application M.codec self.new) }
    {
        let Some(place) = place_of(&self.machines, id) else {
            return Ok(Comes::NoServer);
        };
        let done = self.machines[place].tick(self.alloc, elapsed, random);
        finish(id, done, &mut self.network, &mut self.told)
    }

    /// A server takes a client's request, or refuses it.
    fn ask(&mut self, id: u64, token: Token, operation: Operation) -> Result<Comes, AllocError>
        ensures { OnOk result (Holds M.application M.codec self.old → Holds M.application M.codec self.new) }
    {
        let Some(place) = place_of(&self.machines, id) else {
            return Ok(Comes::NoServer);
        };
        let copy = copy_operation(&operation)?;
        let comes = self.machines[place].request(token, operation);
        note_asked(is_done(&comes), id, token, copy, &mut self.told)?;
        Ok(comes)
    }

    /// A server takes a client's read that needs no entry, or refuses it.
    fn read(&mut self, id: u64, token: Token) -> Result<Comes, AllocError>
        ensures { OnOk result (Holds M.application M.codec self.old → Holds M.application M.codec self.new) }
    {
        let Some(place) = place_of(&self.machines, id) else {
            return Ok(Comes::NoServer);
        };
        let comes = self.machines[place].read(token);
        note_asked(is_done(&comes), id, token, Operation::Read, &mut self.told)?;
        Ok(comes)
    }

    fn change_members(
        &mut self,
        id: u64,
        voters: &Items<u64>,
        learners: &Items<u64>,
    ) -> Result<Comes, AllocError>
        ensures { OnOk result (Holds M.application M.codec self.old → Holds M.application M.codec self.new) }
    {
        let voters = voters.copy()?.into_vec();
        let learners = learners.copy()?.into_vec();
        let Some(place) = place_of(&self.machines, id) else {
            return Ok(Comes::NoServer);
        };
        Ok(self.machines[place].change_members(voters, learners))
    }

    /// The bytes of a frame that has left come to a server.
    fn hand(&mut self, id: u64, bytes: &[u8]) -> Result<Comes, AllocError>
        ensures { IsFrameAt self.old.network.sent.items bytes.now
            → OnOk result (Holds M.application M.codec self.old → Holds M.application M.codec self.new) }
    {
        let Some(place) = place_of(&self.machines, id) else {
            return Ok(Comes::NoServer);
        };
        let done = self.machines[place].receive(self.alloc, bytes);
        finish(id, done, &mut self.network, &mut self.told)
    }

    /// The frame with this number is taken by its addressee.
    fn deliver(&mut self, number: u64) -> Result<Comes, AllocError>
        ensures { OnOk result (Holds M.application M.codec self.old → Holds M.application M.codec self.new) }
    {
        let Some(sent) = self.network.frame(number) else {
            return Ok(Comes::NoFrame);
        };
        let id = sent.to;
        let bytes = sent.bytes.copy()?;
        self.hand(id, bytes.as_slice())
    }

    /// The frames that wait are taken by their addressees, but not those that leave meanwhile.
    fn deliver_all(&mut self) -> Result<(), AllocError>
        ensures { OnOk result (Holds M.application M.codec self.old → Holds M.application M.codec self.new) }
    {
        'frames: for number in self.network.take_waiting(self.alloc) {
            self.deliver(number)?;
        }
        Ok(())
    }

    /// A stranger's bytes come to a server.
    fn receive(&mut self, id: u64, bytes: &[u8]) -> Result<Comes, AllocError>
        ensures { OnOk result (Holds M.application M.codec self.old → Holds M.application M.codec self.new) }
    {
        let Some(place) = place_of(&self.machines, id) else {
            return Ok(Comes::NoServer);
        };
        let done = self.machines[place].receive(self.alloc, bytes);
        let forged = is_forged(bytes, &done.comes);
        self.damaged = either(self.damaged, forged);
        finish(id, done, &mut self.network, &mut self.told)
    }

    fn write(&mut self, id: u64) -> Result<Comes, AllocError>
        ensures { OnOk result (Holds M.application M.codec self.old → Holds M.application M.codec self.new) }
    {
        let Some(place) = place_of(&self.machines, id) else {
            return Ok(Comes::NoServer);
        };
        let done = self.machines[place].write(self.alloc)?;
        finish(id, done, &mut self.network, &mut self.told)
    }

    fn flush(&mut self, id: u64) -> Result<Comes, AllocError>
        ensures { OnOk result (Holds M.application M.codec self.old → Holds M.application M.codec self.new) }
    {
        let Some(place) = place_of(&self.machines, id) else {
            return Ok(Comes::NoServer);
        };
        let done = self.machines[place].flush(self.alloc)?;
        finish(id, done, &mut self.network, &mut self.told)
    }

    /// A server begins a new log, if its log is long.
    fn checkpoint(&mut self, id: u64) -> Result<Comes, AllocError>
        ensures { OnOk result (Holds M.application M.codec self.old → Holds M.application M.codec self.new) }
    {
        let Some(place) = place_of(&self.machines, id) else {
            return Ok(Comes::NoServer);
        };
        self.machines[place].begin_log()
    }

    /// A server's new log takes the old one's place, if one is on its way.
    fn take_over(&mut self, id: u64) -> Comes
        ensures { Holds M.application M.codec self.old → Holds M.application M.codec self.new }
    {
        let Some(place) = place_of(&self.machines, id) else {
            return Comes::NoServer;
        };
        self.machines[place].take_over(self.alloc)
    }

    /// Or it is given up.
    fn give_up(&mut self, id: u64) -> Comes
        ensures { Holds M.application M.codec self.old → Holds M.application M.codec self.new }
    {
        let Some(place) = place_of(&self.machines, id) else {
            return Comes::NoServer;
        };
        self.machines[place].give_up_log()
    }

    /// A server stops while it begins a new log.
    fn crash_in_checkpoint(&mut self, id: u64) -> Comes
        ensures { Holds M.application M.codec self.old → Holds M.application M.codec self.new }
    {
        let Some(place) = place_of(&self.machines, id) else {
            return Comes::NoServer;
        };
        self.machines[place].crash_in_begin_log()
    }

    fn crash(&mut self, id: u64, bytes: u64) -> Result<Comes, AllocError>
        ensures { OnOk result (Holds M.application M.codec self.old → Holds M.application M.codec self.new) }
    {
        let Some(place) = place_of(&self.machines, id) else {
            return Ok(Comes::NoServer);
        };
        self.machines[place].crash(bytes)
    }

    fn corrupt(&mut self, id: u64, position: u64) -> Comes
        ensures { Holds M.application M.codec self.old → Holds M.application M.codec self.new }
    {
        self.damaged = true;
        let Some(place) = place_of(&self.machines, id) else {
            return Comes::NoServer;
        };
        self.machines[place].corrupt(position)
    }

    /// The ids of the servers.
    fn ids(&self) -> Result<Vec<u64>, AllocError> {
        Vec::from_slice(self.alloc, self.given.ids.as_slice())
    }

    /// Frames are delivered, then each server lets out what waits for no record, writes and flushes.
    fn settle(&mut self) -> Result<(), AllocError>
        ensures { OnOk result (Holds M.application M.codec self.old → Holds M.application M.codec self.new) }
    {
        self.deliver_all()?;
        'servers: for id in self.ids()? {
            self.flush(id)?;
            self.write(id)?;
            self.flush(id)?;
        }
        Ok(())
    }

    /// All servers run for a step.
    fn run_step(&mut self) -> Result<(), AllocError>
        ensures { OnOk result (Holds M.application M.codec self.old → Holds M.application M.codec self.new) }
    {
        'ticks: for id in self.ids()? {
            let random = self.dice.draw();
            self.tick(id, STEP, random)?;
        }
        'rounds: for _ in 0..ROUNDS {
            self.settle()?;
        }
        Ok(())
    }

    /// All servers run for so many milliseconds.
    fn run(&mut self, span: u64) -> Result<(), AllocError>
        ensures { OnOk result (Holds M.application M.codec self.old → Holds M.application M.codec self.new) }
    {
        'steps: for _ in 0..span / STEP {
            self.run_step()?;
        }
        Ok(())
    }

    /// The token of a load's next write: no other one has it, as long as clients take theirs from below.
    fn load_token(&self) -> u64 {
        FIRST_LOAD_TOKEN.saturating_add(self.told.asked.len() as u64)
    }

    /// So many requests come to a server, up to one that it refuses: how many came.
    fn fill(&mut self, id: u64, bytes: u64, limit: u64) -> Result<u64, AllocError>
        ensures { OnOk result (Holds M.application M.codec self.old → Holds M.application M.codec self.new) }
    {
        'requests: for number in 0..limit {
            let token = self.load_token();
            let value = value_of(self.alloc, token, bytes)?;
            match self.ask(id, Token(token), Operation::Write(value))? {
                Comes::Done => {}
                _ => return Ok(number),
            }
        }
        Ok(limit)
    }

    /// So many writes come to a server, at most so many without an answer: how many answers came.
    fn load(&mut self, id: u64, count: u64, bytes: u64, waiting: u64) -> Result<usize, AllocError>
        ensures { OnOk result (Holds M.application M.codec self.old → Holds M.application M.codec self.new) }
    {
        let before = self.told.answered.len();
        let mut asked = 0u64;
        let mut done = 0u64;
        'rounds: for _ in 0..count.saturating_mul(ROUNDS) {
            if done >= count {
                break;
            }
            let open = asked.saturating_sub(done);
            let room = waiting
                .saturating_sub(open)
                .min(count.saturating_sub(asked));
            asked = asked.saturating_add(self.fill(id, bytes, room)?);
            self.settle()?;
            done = self.told.answered.len().saturating_sub(before) as u64;
        }
        Ok(self.told.answered.len().saturating_sub(before))
    }

    /// What comes of lines that stand for many.
    fn play_many(&mut self, action: &Action) -> Result<Comes, AllocError>
        ensures { OnOk result (Holds M.application M.codec self.old → Holds M.application M.codec self.new) }
    {
        match action {
            Action::DeliverAll => self.deliver_all()?,
            Action::Run(span) => self.run(*span)?,
            Action::Load {
                id,
                count,
                bytes,
                waiting,
            } => return Ok(Comes::Answered(self.load(*id, *count, *bytes, *waiting)?)),
            Action::Cut(id) => self.network.cut(*id)?,
            Action::Heal(id) => self.network.heal(*id),
            _ => {}
        }
        Ok(Comes::Done)
    }

    /// An action: what comes of it. As long as no byte of a disk is changed by hand and no packet of a stranger is taken, the servers do
    /// what those of the model do, what clients asked and were told is linearizable ([`crate::clusters_see_one_object`]), and no
    /// acknowledged write is lost. Whatever actions come, an acknowledged request has an entry at its index that was executed (`Holds`).
    pub fn play(&mut self, action: &Action) -> Result<Comes, AllocError>
        ensures { OnOk result (Holds M.application M.codec self.old → Holds M.application M.codec self.new) }
    {
        match action {
            Action::Start(id) => self.start(*id),
            Action::Init(id) => Ok(self.initialize(*id)),
            Action::Tick {
                id,
                elapsed,
                random,
            } => self.tick(*id, *elapsed, *random),
            Action::Request {
                id,
                token,
                operation,
            } => self.ask(*id, Token(*token), copy_operation(operation)?),
            Action::Ask { id, token } => self.read(*id, Token(*token)),
            Action::Members {
                id,
                voters,
                learners,
            } => self.change_members(*id, voters, learners),
            Action::Write(id) => self.write(*id),
            Action::Flush(id) => self.flush(*id),
            Action::Deliver(number) => {
                self.network.pass(*number);
                self.deliver(*number)
            }
            Action::Receive { id, bytes } => self.receive(*id, bytes.as_slice()),
            Action::Checkpoint(id) => self.checkpoint(*id),
            Action::TakeOver(id) => Ok(self.take_over(*id)),
            Action::GiveUp(id) => Ok(self.give_up(*id)),
            Action::CrashInCheckpoint(id) => Ok(self.crash_in_checkpoint(*id)),
            Action::Crash { id, bytes } => self.crash(*id, *bytes),
            Action::Corrupt { id, position } => Ok(self.corrupt(*id, *position)),
            _ => self.play_many(action),
        }
    }
}

fn copy_operation(operation: &Operation) -> Result<Operation, AllocError>
    ensures { IfOk result (λ copied. copied ≡ operation.now) }
{
    match operation {
        Operation::Write(bytes) => Ok(Operation::Write(bytes.copy()?)),
        Operation::Read => Ok(Operation::Read),
    }
}
