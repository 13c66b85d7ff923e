//! Actions at random, so that much happens in a cluster.

use crate::entries::Entries;
use raft_answers::Operation;
use raft_cluster::raft_core::RequestError;
use raft_cluster::{Action, Cluster, Comes, Dice, Machine, value_of};
use raft_state::Items;
use std::alloc::{AllocError, Global};

/// What kinds of actions are drawn.
#[derive(Clone, Copy, PartialEq, Eq, Debug)]
enum Kind {
    Delivery,
    Disk,
    Tick,
    Request,
    Run,
    Crash,
    Checkpoint,
    Start,
    Net,
    Members,
    Stranger,
    Damage,
}

/// How often a kind of action is drawn, beside others.
#[derive(Clone, Copy, PartialEq, Eq, Debug)]
struct Weight {
    kind: Kind,
    weight: u64,
}

/// How often each kind is drawn on average.
const WEIGHTS: [(Kind, u64); 12] = [
    (Kind::Delivery, 80),
    (Kind::Disk, 60),
    (Kind::Tick, 30),
    (Kind::Request, 30),
    (Kind::Run, 12),
    (Kind::Crash, 3),
    (Kind::Checkpoint, 6),
    (Kind::Start, 8),
    (Kind::Net, 2),
    (Kind::Members, 1),
    (Kind::Stranger, 2),
    (Kind::Damage, 1),
];

/// How often a kind is drawn in a run, in place of four times on average: the common ones always, the others maybe
/// never.
fn draw_factor(dice: &mut Dice, weight: u64) -> u64 {
    match dice.below(8) {
        0 => { if weight < 12 { 0 } else { 2 } }
        1 => 1,
        2..=5 => 4,
        6 => 12,
        _ => 32,
    }
}

/// How often each kind is drawn in a run.
fn draw_weights(alloc: Global, dice: &mut Dice) -> Result<Vec<Weight>, AllocError> {
    let mut weights = Vec::new(alloc);
    for (kind, weight) in &WEIGHTS {
        let factor = draw_factor(dice, *weight);
        weights.push(Weight {
            kind: *kind,
            weight: weight.saturating_mul(factor),
        })?;
    }
    Ok(weights)
}

/// Draws actions.
#[derive(Debug, Drop)]
pub struct Drawer {
    alloc: Global,
    dice: Dice,
    /// How many actions were drawn.
    drawn: u64,
    /// The next request's token.
    token: u64,
    /// Who leads, as far as clients were told.
    leader: u64,
    /// The number of the first frame that wasn't drawn yet.
    next: u64,
    /// How many frames of a hundred are lost, and are delivered again.
    loss: u64,
    again: u64,
    /// How often each kind of action is drawn.
    weights: Vec<Weight>,
    /// How often in a hundred times records are written and flushed at once.
    eager: u64,
    /// The actions that come next, the last one first.
    pending: Vec<Action>,
    /// Whether bytes on disk are changed.
    corrupts: bool,
}

/// The ids of servers that are open, or of those that aren't.
fn running(
    alloc: Global,
    machines: &[Machine<Entries>],
    is_open: bool,
) -> Result<Vec<u64>, AllocError> {
    let mut ids = Vec::new(alloc);
    for machine in machines {
        if machine.is_open() == is_open {
            ids.push(machine.id())?;
        }
    }
    Ok(ids)
}

/// The ids of servers that have handed out bytes that aren't on disk.
fn writing(alloc: Global, machines: &[Machine<Entries>]) -> Result<Vec<u64>, AllocError> {
    let mut ids = Vec::new(alloc);
    for machine in machines {
        if machine.written_len().is_some() {
            ids.push(machine.id())?;
        }
    }
    Ok(ids)
}

impl Drawer {
    /// What happens how often is drawn too.
    pub fn new(alloc: Global, dice: Dice) -> Result<Self, AllocError> {
        let mut dice = dice;
        let loss = dice.below(30);
        let again = dice.below(40);
        let weights = draw_weights(alloc, &mut dice)?;
        let eager = dice.below(101);
        let corrupts = dice.chance(5);
        Ok(Drawer {
            alloc,
            dice,
            drawn: 0,
            token: 0,
            leader: 1,
            next: 1,
            loss,
            again,
            weights,
            eager,
            pending: Vec::new(alloc),
            corrupts,
        })
    }

    /// One of these ids; 0 if there are none.
    fn one_of(&mut self, ids: &[u64]) -> u64 {
        let place = self.dice.below(ids.len() as u64) as usize;
        match ids.get(place) {
            Some(id) => *id,
            None => 0,
        }
    }

    /// One of all servers.
    fn any(&mut self, cluster: &Cluster<Entries>) -> u64 {
        let place = self.dice.below(cluster.machines().len() as u64) as usize;
        match cluster.machines().get(place) {
            Some(machine) => machine.id(),
            None => 0,
        }
    }

    /// One of the servers that are open; if none is, any.
    fn any_open(&mut self, cluster: &Cluster<Entries>) -> Result<u64, AllocError> {
        let ids = running(self.alloc, cluster.machines(), true)?;
        if ids.is_empty() {
            return Ok(self.any(cluster));
        }
        Ok(self.one_of(&ids))
    }

    /// A frame that was drawn before, maybe, among the last ones or among all.
    fn draw_again(&mut self, count: u64) -> u64 {
        if self.dice.chance(50) {
            return count.saturating_sub(self.dice.below(count.min(20)));
        }
        self.dice.up_to(count)
    }

    /// The next frame, or one again.
    fn draw_frame(&mut self, count: u64) -> u64 {
        if self.dice.chance(self.loss) {
            self.next = self.next.saturating_add(1);
        }
        if self.next > count || self.dice.chance(self.again) {
            return self.draw_again(count);
        }
        let number = self.next;
        self.next = number.saturating_add(1);
        number
    }

    /// A delivery; before any frame has left, a tick.
    fn draw_delivery(&mut self, cluster: &Cluster<Entries>) -> Result<Action, AllocError> {
        let count = cluster.network().sent().len() as u64;
        if count == 0 {
            return self.draw_tick(cluster);
        }
        if self.dice.chance(5) {
            self.next = count.saturating_add(1);
            return Ok(Action::DeliverAll);
        }
        Ok(Action::Deliver(self.draw_frame(count)))
    }

    /// A flush at a server that has handed out bytes, or a write.
    fn draw_disk(&mut self, cluster: &Cluster<Entries>) -> Result<Action, AllocError> {
        let ids = writing(self.alloc, cluster.machines())?;
        if ids.is_empty() || self.dice.chance(40) {
            return Ok(Action::Write(self.any_open(cluster)?));
        }
        Ok(Action::Flush(self.one_of(&ids)))
    }

    /// Time goes by, mostly little.
    fn draw_tick(&mut self, cluster: &Cluster<Entries>) -> Result<Action, AllocError> {
        let elapsed = match self.dice.below(20) {
            0 => self.dice.below(600),
            1..=9 => self.dice.below(60),
            _ => self.dice.below(10),
        };
        Ok(Action::Tick {
            id: self.any_open(cluster)?,
            elapsed,
            random: self.dice.below(1000),
        })
    }

    /// The next token.
    fn next_token(&mut self) -> u64 {
        let token = self.token;
        self.token = token.saturating_add(1);
        token
    }

    /// A write of so many bytes, which begin with those of its token.
    fn request_at(&mut self, id: u64, bytes: u64) -> Result<Action, AllocError> {
        let token = self.next_token();
        Ok(Action::Request {
            id,
            token,
            operation: Operation::Write(value_of(self.alloc, token, bytes)?),
        })
    }

    /// A read, by an entry or without one.
    fn draw_read_at(&mut self, id: u64) -> Action {
        let token = self.next_token();
        if self.dice.chance(50) {
            return Action::Ask { id, token };
        }
        Action::Request {
            id,
            token,
            operation: Operation::Read,
        }
    }

    /// A read, or a write; seldom one that is too large.
    fn draw_request_at(&mut self, id: u64) -> Result<Action, AllocError> {
        if self.dice.chance(25) {
            return Ok(self.draw_read_at(id));
        }
        let bytes = match self.dice.below(30) {
            0 => 70,
            1..=9 => self.dice.below(60),
            _ => 8,
        };
        self.request_at(id, bytes)
    }

    /// A request, mostly at the leader that clients know; at times several.
    fn draw_request(&mut self, cluster: &Cluster<Entries>) -> Result<Action, AllocError> {
        let id = if self.dice.chance(80) {
            self.leader
        } else {
            self.any_open(cluster)?
        };
        if self.dice.chance(20) {
            for _ in 0..self.dice.below(6) {
                let more = self.draw_request_at(id)?;
                self.pending.push(more)?;
            }
        }
        self.draw_request_at(id)
    }

    /// A server that stops: mostly one that has handed out bytes, of which any number is on disk then.
    fn draw_crash(&mut self, cluster: &Cluster<Entries>) -> Result<Action, AllocError> {
        let ids = writing(self.alloc, cluster.machines())?;
        let id = if ids.is_empty() || self.dice.chance(30) {
            self.any_open(cluster)?
        } else {
            self.one_of(&ids)
        };
        let len = match cluster.machine(id) {
            Some(machine) => machine.written_len().unwrap_or(0) as u64,
            None => 0,
        };
        let bytes = match self.dice.below(6) {
            0 => 0,
            1 => len,
            _ => self.dice.below(len.saturating_add(1)),
        };
        if self.dice.chance(40) {
            self.pending.push(Action::Start(id))?;
        }
        Ok(Action::Crash { id, bytes })
    }

    /// What becomes of a new log: it is begun, or has the old one's place; seldom it is given up, or the server stops.
    fn draw_log(&mut self, id: u64) -> Action {
        match self.dice.below(10) {
            0 => Action::CrashInCheckpoint(id),
            1 => Action::GiveUp(id),
            2..=5 => Action::TakeOver(id),
            _ => Action::Checkpoint(id),
        }
    }

    /// A new log, mostly once all records are on disk.
    fn draw_checkpoint(&mut self, cluster: &Cluster<Entries>) -> Result<Action, AllocError> {
        let id = self.any_open(cluster)?;
        let action = self.draw_log(id);
        if self.dice.chance(30) {
            return Ok(action);
        }
        self.pending.push(action)?;
        self.pending.push(Action::Flush(id))?;
        Ok(Action::Write(id))
    }

    /// The start of a server that isn't open; if all are, a write or a flush.
    fn draw_start(&mut self, cluster: &Cluster<Entries>) -> Result<Action, AllocError> {
        let ids = running(self.alloc, cluster.machines(), false)?;
        if ids.is_empty() {
            return self.draw_disk(cluster);
        }
        Ok(Action::Start(self.one_of(&ids)))
    }

    /// A server is cut off, or reached again.
    fn draw_net(&mut self, cluster: &Cluster<Entries>) -> Action {
        let id = self.any(cluster);
        if self.dice.chance(40) {
            Action::Cut(id)
        } else {
            Action::Heal(id)
        }
    }

    /// Some of all servers, in the order of their ids.
    fn draw_ids(
        &mut self,
        cluster: &Cluster<Entries>,
        percent: u64,
    ) -> Result<Vec<u64>, AllocError> {
        let mut ids = Vec::new(self.alloc);
        for machine in cluster.machines() {
            if self.dice.chance(percent) {
                ids.push(machine.id())?;
            }
        }
        Ok(ids)
    }

    /// Other members are wanted.
    fn draw_members(&mut self, cluster: &Cluster<Entries>) -> Result<Action, AllocError> {
        let mut voters = self.draw_ids(cluster, 70)?;
        if voters.is_empty() {
            voters.push(self.any(cluster))?;
        }
        let mut learners = self.draw_ids(cluster, 20)?;
        learners.retain(|id| !voters.contains(id));
        Ok(Action::Members {
            id: self.leader,
            voters: Items::from_vec(voters),
            learners: Items::from_vec(learners),
        })
    }

    /// A stranger's bytes: a frame that left a server, with some of its bytes changed or cut off, or none of its own.
    fn draw_bytes(&mut self, cluster: &Cluster<Entries>) -> Result<Vec<u8>, AllocError> {
        let count = cluster.network().sent().len() as u64;
        let mut bytes = Vec::new(self.alloc);
        let number = self.dice.up_to(count);
        if let Some(sent) = cluster.network().frame(number) {
            bytes.extend_from_slice(sent.bytes.as_slice())?;
        }
        let len = bytes.len() as u64;
        bytes.truncate(self.dice.up_to(len) as usize);
        let place = self.dice.below(bytes.len() as u64) as usize;
        if let Some(byte) = bytes.get_mut(place) {
            *byte = self.dice.below(256).to_le_bytes()[0];
        }
        Ok(bytes)
    }

    /// A stranger's bytes that are no packet.
    fn draw_stranger(&mut self, cluster: &Cluster<Entries>) -> Result<Action, AllocError> {
        let id = self.any_open(cluster)?;
        let mut bytes = self.draw_bytes(cluster)?;
        if let Some(first) = bytes.get_mut(0) {
            *first = self.dice.up_to(4).to_le_bytes()[0];
        }
        Ok(Action::Receive {
            id,
            bytes: Items::from_vec(bytes),
        })
    }

    /// A byte that has flushed bytes behind it, so that its change is told at the next start; if there is none, or no
    /// bytes are to be changed, a write or a flush.
    fn draw_damage(&mut self, cluster: &Cluster<Entries>) -> Result<Action, AllocError> {
        let id = self.any(cluster);
        let bound = match cluster.machine(id) {
            Some(machine) => machine.last() as u64,
            None => 0,
        };
        if !self.corrupts || bound == 0 {
            return self.draw_disk(cluster);
        }
        // one server at most is damaged
        self.corrupts = false;
        Ok(Action::Corrupt {
            id,
            position: self.dice.below(bound),
        })
    }

    /// All servers start, and the first is initialized.
    fn draw_first(&mut self, cluster: &Cluster<Entries>) -> Action {
        match cluster.machines().get(self.drawn as usize) {
            Some(machine) => Action::Start(machine.id()),
            None => Action::Init(1),
        }
    }

    /// The kind of the next action.
    fn draw_kind(&mut self) -> Kind {
        let mut total = 0u64;
        for weight in &self.weights {
            total = total.saturating_add(weight.weight);
        }
        let mut left = self.dice.below(total);
        for weight in &self.weights {
            if left < weight.weight {
                return weight.kind;
            }
            left = left.saturating_sub(weight.weight);
        }
        Kind::Delivery
    }

    fn draw_later(&mut self, cluster: &Cluster<Entries>) -> Result<Action, AllocError> {
        match self.draw_kind() {
            Kind::Delivery => self.draw_delivery(cluster),
            Kind::Disk => self.draw_disk(cluster),
            Kind::Tick => self.draw_tick(cluster),
            Kind::Request => self.draw_request(cluster),
            Kind::Run => Ok(Action::Run(10)),
            Kind::Crash => self.draw_crash(cluster),
            Kind::Checkpoint => self.draw_checkpoint(cluster),
            Kind::Start => self.draw_start(cluster),
            Kind::Net => Ok(self.draw_net(cluster)),
            Kind::Members => self.draw_members(cluster),
            Kind::Stranger => self.draw_stranger(cluster),
            Kind::Damage => self.draw_damage(cluster),
        }
    }

    /// Behind an action a server writes and flushes, maybe.
    fn follow(&mut self, cluster: &Cluster<Entries>) -> Result<(), AllocError> {
        if !self.dice.chance(self.eager) {
            return Ok(());
        }
        let id = self.any_open(cluster)?;
        self.pending.push(Action::Flush(id))?;
        self.pending.push(Action::Write(id))?;
        Ok(())
    }

    fn draw_new(&mut self, cluster: &Cluster<Entries>) -> Result<Action, AllocError> {
        let action = if self.drawn > cluster.machines().len() as u64 {
            self.follow(cluster)?;
            self.draw_later(cluster)?
        } else {
            self.draw_first(cluster)
        };
        self.drawn = self.drawn.saturating_add(1);
        Ok(action)
    }

    /// The next action.
    pub fn draw(&mut self, cluster: &Cluster<Entries>) -> Result<Action, AllocError> {
        match self.pending.pop() {
            Some(action) => Ok(action),
            None => self.draw_new(cluster),
        }
    }

    /// What came of an action: a refusal names the leader.
    pub fn learn(&mut self, comes: &Comes) {
        if let Comes::Refused(
            RequestError::NotLeader {
                leader: Some(leader),
            },
        ) = comes
        {
            self.leader = *leader;
        }
    }

    /// What ends a run: all servers start and reach one another, and one is asked.
    pub fn last(&mut self, cluster: &Cluster<Entries>) -> Result<Vec<Action>, AllocError> {
        let mut actions = Vec::new(self.alloc);
        for machine in cluster.machines() {
            actions.push(Action::Heal(machine.id()))?;
            actions.push(Action::Start(machine.id()))?;
        }
        // a crash may have lost the first entry
        if cluster.told().executed.is_empty() {
            actions.push(Action::Init(1))?;
        }
        actions.push(Action::Run(2000))?;
        for machine in cluster.machines() {
            actions.push(self.request_at(machine.id(), 8)?)?;
        }
        actions.push(Action::Run(500))?;
        Ok(actions)
    }
}
