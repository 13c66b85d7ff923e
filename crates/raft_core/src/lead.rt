//! What a leader does as time goes by.

use crate::clock::Clock;
use crate::config::Config;
use crate::membership::{Target, is_reached, next_change};
use crate::moves::{Move, push_move};
use crate::node::{is_member, is_quorum, leader_of};
use raft_engine::Engine;
use raft_progress::Inflight;
use raft_state::LeaderId;
use raft_store::WorldConfig;
use std::alloc::{AllocError, Global};

/// When a server was heard last, in milliseconds.
#[derive(Clone, Copy)]
struct Heard {
    id: u64,
    at: u64,
}

/// A request that is in flight to a target, and since when, in milliseconds: of a snapshot in parts, since one was answered.
#[derive(Clone, Copy)]
struct Flight {
    target: u64,
    request: u64,
    since: u64,
    /// Whether the target has all parts of the snapshot.
    is_there: bool,
}

/// A leader's timers.
#[derive(Drop)]
pub struct Lead {
    /// The leader id that these are of, and since when it leads, in milliseconds.
    leader: Option<LeaderId<u64>>,
    since: u64,
    /// When heartbeats were sent last, in milliseconds.
    beat: u64,
    heard: Vec<Heard>,
    flights: Vec<Flight>,
    /// Whether no quorum was heard for a lease: the server leads no more, as far as others see.
    silent: bool,
    /// The members that are wanted.
    target: Option<Target>,
}

/// How often the patience is waited for the answer to a snapshot, or until one that is there is installed: it may have many bytes.
const SNAPSHOT_PATIENCE: u64 = 20;

/// How often it is waited for the answer to a part of one by a server that says other things meanwhile.
const PART_PATIENCE: u64 = 5;

/// The number of the request that is in flight, if one is.
fn request_of(inflight: &Inflight<u64>) -> Option<u64> {
    match inflight {
        Inflight::None => None,
        Inflight::Logs { id, .. } | Inflight::Snapshot { id, .. } => Some(*id),
    }
}

impl Lead {
    /// Nobody was heard.
    pub fn new(alloc: Global) -> Self {
        Lead {
            leader: None,
            since: 0,
            beat: 0,
            heard: Vec::new(alloc),
            flights: Vec::new(alloc),
            silent: false,
            target: None,
        }
    }

    /// These members are wanted, while this server leads.
    pub fn want(&mut self, target: Target) {
        self.target = Some(target);
    }

    /// The members that are wanted are there.
    fn note_reached(&mut self, engine: &Engine<WorldConfig>) -> Result<(), AllocError> {
        let is_there = match &self.target {
            Some(target) => is_reached(engine, target)?,
            None => false,
        };
        if is_there {
            self.target = None;
        }
        Ok(())
    }

    /// Whether no quorum was heard for a lease.
    pub fn is_silent(&self) -> bool {
        self.silent
    }

    /// A member was heard. Others than members are not noted.
    pub fn hear(
        &mut self,
        engine: &Engine<WorldConfig>,
        id: u64,
        clock: &Clock,
    ) -> Result<(), AllocError> {
        for heard in &mut self.heard {
            if heard.id == id {
                heard.at = clock.moment;
                return Ok(());
            }
        }
        if engine.state.em.membership.contains(&id) {
            self.heard.push(Heard {
                id,
                at: clock.moment,
            })?;
        }
        Ok(())
    }

    /// A target has answered a part of the snapshot that is in flight to it, which goes on, or is there.
    pub fn hear_part(&mut self, from: u64, is_there: bool, clock: &Clock) {
        for flight in &mut self.flights {
            if flight.target == from {
                flight.since = clock.moment;
                flight.is_there = is_there;
            }
        }
    }

    /// Whether a quorum was heard within the lease, this server included.
    fn hears_quorum(
        &self,
        alloc: Global,
        engine: &Engine<WorldConfig>,
        clock: &Clock,
    ) -> Result<bool, AllocError> {
        let mut ids = Vec::new(alloc);
        ids.push(engine.config.id)?;
        for heard in &self.heard {
            if clock.since(heard.at) <= engine.config.timer_config.leader_lease {
                ids.push(heard.id)?;
            }
        }
        is_quorum(alloc, engine, &ids)
    }

    /// Whether a target that may still answer lacks more entries than are kept behind a snapshot: what it wants next would be purged.
    pub fn has_lagging_target(
        &self,
        engine: &Engine<WorldConfig>,
        clock: &Clock,
        patience: u64,
    ) -> bool {
        let (Some(leader), Some(last)) = (&engine.leader, engine.state.last_log_id()) else {
            return false;
        };
        let since = clock.before(patience.saturating_mul(SNAPSHOT_PATIENCE));
        for row in leader.progress.iter() {
            let matching = match row.1.matching {
                Some(id) => id.index,
                None => 0,
            };
            let lacks = last.index.saturating_sub(matching);
            if lacks > engine.config.max_in_snapshot_log_to_keep && self.was_heard(row.0, since) {
                return true;
            }
        }
        false
    }

    /// The server leads under another id than before, or no more.
    fn begin(&mut self, leader: Option<LeaderId<u64>>, clock: &Clock) {
        self.leader = leader;
        self.since = clock.moment;
        self.beat = clock.moment;
        self.flights.clear();
        self.silent = false;
        self.target = None;
    }

    /// This request to a target: it is in flight since now, unless it was seen before.
    fn flight_of(&self, target: u64, request: u64, clock: &Clock) -> Flight {
        for flight in &self.flights {
            if flight.target == target && flight.request == request {
                return *flight;
            }
        }
        Flight {
            target,
            request,
            since: clock.moment,
            is_there: false,
        }
    }

    /// Whether a member was heard after a moment, in milliseconds.
    fn was_heard(&self, id: u64, moment: u64) -> bool {
        for heard in &self.heard {
            if heard.id == id {
                return heard.at > moment;
            }
        }
        false
    }

    /// How long the answer to such a request is waited for, in milliseconds.
    fn patience_for(&self, inflight: &Inflight<u64>, flight: &Flight, patience: u64) -> u64 {
        match inflight {
            Inflight::Snapshot { .. } => {
                let times = if !flight.is_there && self.was_heard(flight.target, flight.since) {
                    PART_PATIENCE
                } else {
                    SNAPSHOT_PATIENCE
                };
                patience.saturating_mul(times)
            }
            _ => patience,
        }
    }

    /// Requests that are in flight for longer than the patience fail.
    fn fail_old(
        &mut self,
        alloc: Global,
        engine: &Engine<WorldConfig>,
        clock: &Clock,
        patience: u64,
        moves: &mut Vec<Move>,
    ) -> Result<(), AllocError> {
        let Some(leader) = &engine.leader else {
            return Ok(());
        };
        let mut flights = Vec::new(alloc);
        for row in leader.progress.iter() {
            let target = row.0;
            if let Some(request) = request_of(&row.1.inflight) {
                let flight = self.flight_of(target, request, clock);
                let patience = self.patience_for(&row.1.inflight, &flight, patience);
                if clock.since(flight.since) >= patience && target != engine.config.id {
                    push_move(Move::Fail(target), moves)?;
                } else {
                    flights.push(flight)?;
                }
            }
        }
        self.flights = flights;
        Ok(())
    }

    /// Whether it is time for heartbeats: also if reads wait for replies to requests of a later moment than theirs, and none have
    /// left since.
    fn is_beat_due(&self, clock: &Clock, interval: u64, asked_at: Option<u64>) -> bool {
        let waits = match asked_at {
            Some(moment) => self.beat <= moment && moment < clock.moment,
            None => false,
        };
        waits || clock.since(self.beat) >= interval
    }

    /// What the leader does now.
    fn act(
        &mut self,
        alloc: Global,
        engine: &Engine<WorldConfig>,
        clock: &Clock,
        config: &Config,
        asked_at: Option<u64>,
        moves: &mut Vec<Move>,
    ) -> Result<(), AllocError> {
        let lease = engine.config.timer_config.leader_lease;
        self.silent = clock.since(self.since) > lease && !self.hears_quorum(alloc, engine, clock)?;
        self.fail_old(alloc, engine, clock, config.patience, moves)?;
        self.note_reached(engine)?;
        if !is_member(engine) {
            push_move(Move::StepDown, moves)?;
        }
        if let Some(change) = next_change(alloc, engine, &self.target, config.catch_up)? {
            push_move(change, moves)?;
        }
        if !self.silent && self.is_beat_due(clock, config.heartbeat_interval, asked_at) {
            self.beat = clock.moment;
            push_move(Move::Beat, moves)?;
        }
        Ok(())
    }

    /// Time went by.
    pub fn tick(
        &mut self,
        alloc: Global,
        engine: &Engine<WorldConfig>,
        clock: &Clock,
        config: &Config,
        asked_at: Option<u64>,
        moves: &mut Vec<Move>,
    ) -> Result<(), AllocError> {
        let leader = leader_of(engine);
        if leader != self.leader {
            self.begin(leader, clock);
        }
        if leader.is_some() {
            self.act(alloc, engine, clock, config, asked_at, moves)?;
        }
        Ok(())
    }
}
