//! When a server stands for election.

use crate::clock::Clock;
use crate::moves::{Move, push_move};
use crate::node::{is_leased, is_member, is_quorum, leader_of};
use raft_engine::Engine;
use raft_peers::frame::{PreVote, PreVoteReply};
use raft_store::WorldConfig;
use std::alloc::{AllocError, Global};

/// Others are asked whether they would elect this server in a term.
#[derive(Drop)]
struct Round {
    term: u64,
    granted: Vec<u64>,
}

/// A server's election timer.
#[derive(Drop)]
pub struct Election {
    /// Since when it runs, in milliseconds.
    since: u64,
    /// What is added to the timeout, in milliseconds.
    jitter: u64,
    round: Option<Round>,
}

/// A random span of at most so many milliseconds.
pub fn jitter_of(random: u64, spread: u64) -> u64 {
    match spread.checked_add(1) {
        Some(count) if count > 0 => random % count,
        _ => random,
    }
}

/// Whether a node would grant its vote (Raft dissertation, section 9.6): it neither leads nor hears a leader, and its log
/// doesn't end behind the other's.
fn would_grant(engine: &Engine<WorldConfig>, ask: &PreVote, moment: u64) -> bool {
    leader_of(engine).is_none()
        && !is_leased(engine, moment)
        && ask.last_log_id >= engine.state.last_log_id()
}

/// The answer to a server that asks.
pub fn answer(engine: &Engine<WorldConfig>, ask: &PreVote, moment: u64) -> PreVoteReply {
    PreVoteReply {
        from: engine.config.id,
        to: ask.from,
        term: ask.term,
        granted: would_grant(engine, ask, moment),
    }
}

impl Election {
    /// The timer starts.
    pub fn new(moment: u64) -> Self {
        Election {
            since: moment,
            jitter: 0,
            round: None,
        }
    }

    /// The timer starts anew.
    fn restart(&mut self, moment: u64, jitter: u64) {
        self.since = moment;
        self.jitter = jitter;
        self.round = None;
    }

    /// Whether the timer has run out: later while a committed vote has its lease.
    fn is_due(&self, engine: &Engine<WorldConfig>, clock: &Clock) -> bool {
        let times = engine.config.timer_config;
        let timeout = times.election_timeout.saturating_add(self.jitter);
        clock.since(self.since) >= timeout && !is_leased(engine, clock.moment)
    }

    /// Asks each other voter whether it would elect this server. Stands at once if it is a quorum alone.
    fn ask(
        &mut self,
        alloc: Global,
        engine: &Engine<WorldConfig>,
        moves: &mut Vec<Move>,
        asks: &mut Vec<PreVote>,
    ) -> Result<(), AllocError> {
        let id = engine.config.id;
        let term = engine.state.vote.leader_id.term.saturating_add(1);
        let mut granted = Vec::new(alloc);
        granted.push(id)?;
        if is_quorum(alloc, engine, &granted)? {
            push_move(Move::Stand, moves)?;
            return Ok(());
        }
        for to in engine.state.em.membership.voter_ids()? {
            if to != id {
                asks.push(PreVote {
                    from: id,
                    to,
                    term,
                    last_log_id: engine.state.last_log_id(),
                })?;
            }
        }
        self.round = Some(Round { term, granted });
        Ok(())
    }

    /// Time went by.
    pub fn tick(
        &mut self,
        alloc: Global,
        engine: &Engine<WorldConfig>,
        clock: &Clock,
        jitter: u64,
        moves: &mut Vec<Move>,
        asks: &mut Vec<PreVote>,
    ) -> Result<(), AllocError> {
        let heard = engine.state.time.unwrap_or(0);
        if engine.leader.is_some() || !is_member(engine) {
            self.restart(clock.moment, jitter);
        } else if heard > self.since {
            self.restart(heard, jitter);
        }
        if self.is_due(engine, clock) {
            self.restart(clock.moment, jitter);
            self.ask(alloc, engine, moves, asks)?;
        }
        Ok(())
    }

    /// Another server has answered: whether a quorum would elect this one.
    pub fn hear(
        &mut self,
        alloc: Global,
        engine: &Engine<WorldConfig>,
        reply: &PreVoteReply,
    ) -> Result<bool, AllocError> {
        let Some(round) = &mut self.round else {
            return Ok(false);
        };
        let term = engine.state.vote.leader_id.term.saturating_add(1);
        if !reply.granted || reply.term != round.term || term != round.term {
            return Ok(false);
        }
        if round.granted.contains(&reply.from) {
            return Ok(false);
        }
        round.granted.push(reply.from)?;
        if !is_quorum(alloc, engine, &round.granted)? {
            return Ok(false);
        }
        self.round = None;
        Ok(true)
    }
}
