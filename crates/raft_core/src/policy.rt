//! Which steps a server takes, and when. It only picks among steps that any server may take at any time, so no choice of its
//! can break what servers agree on.

use crate::clock::Clock;
use crate::config::Config;
use crate::election::{Election, jitter_of};
use crate::lead::Lead;
use crate::membership::Target;
use crate::moves::{Move, push_move};
use crate::node::leader_of;
use raft_engine::Engine;
use raft_peers::frame::{PreVote, PreVoteReply};
use raft_state::LeaderId;
use raft_store::WorldConfig;
use std::alloc::{AllocError, Global};

/// What it is time for: steps of its own, and questions to others.
#[derive(Drop)]
pub struct Plan {
    pub moves: Vec<Move>,
    pub asks: Vec<PreVote>,
}

impl Plan {
    /// Nothing.
    pub fn nothing(alloc: Global) -> Self {
        Plan {
            moves: Vec::new(alloc),
            asks: Vec::new(alloc),
        }
    }
}

/// The timers of a server, and whom it heard.
#[derive(Drop)]
pub struct Policy {
    alloc: Global,
    config: Config,
    election: Election,
    lead: Lead,
}

impl Policy {
    /// The timers start.
    pub fn new(alloc: Global, config: Config, moment: u64) -> Self {
        Policy {
            alloc,
            config,
            election: Election::new(moment),
            lead: Lead::new(alloc),
        }
    }

    /// What it is time for, if reads wait for replies to requests that are sent after `asked_at`, in milliseconds; `ends_build`
    /// says that the build of a snapshot is to end.
    pub fn tick(
        &mut self,
        engine: &Engine<WorldConfig>,
        clock: &Clock,
        random: u64,
        asked_at: Option<u64>,
        ends_build: bool,
    ) -> Result<Plan, AllocError> {
        let mut moves = Vec::new(self.alloc);
        let mut asks = Vec::new(self.alloc);
        let jitter = jitter_of(random, self.config.election_spread);
        if ends_build {
            push_move(Move::FinishSnapshot, &mut moves)?;
        }
        self.lead.tick(
            self.alloc,
            engine,
            clock,
            &self.config,
            asked_at,
            &mut moves,
        )?;
        self.election
            .tick(self.alloc, engine, clock, jitter, &mut moves, &mut asks)?;
        Ok(Plan { moves, asks })
    }

    /// Whether a snapshot's build isn't to end yet: a member that is there wants the entries that would be purged.
    pub fn holds_build(&self, engine: &Engine<WorldConfig>, clock: &Clock) -> bool {
        self.lead
            .has_lagging_target(engine, clock, self.config.patience)
    }

    /// These members are wanted, while this server leads.
    pub fn want(&mut self, target: Target) {
        self.lead.want(target);
    }

    /// A server was heard.
    pub fn hear(
        &mut self,
        engine: &Engine<WorldConfig>,
        from: u64,
        clock: &Clock,
    ) -> Result<(), AllocError> {
        self.lead.hear(engine, from, clock)
    }

    /// A server has answered a part of the snapshot that is sent to it.
    pub fn hear_part(&mut self, from: u64, is_there: bool, clock: &Clock) {
        self.lead.hear_part(from, is_there, clock);
    }

    /// Another server has answered whether it would elect this one: it stands once a quorum would.
    pub fn stands(
        &mut self,
        engine: &Engine<WorldConfig>,
        reply: &PreVoteReply,
    ) -> Result<Vec<Move>, AllocError> {
        let mut moves = Vec::new(self.alloc);
        if self.election.hear(self.alloc, engine, reply)? {
            push_move(Move::Stand, &mut moves)?;
        }
        Ok(moves)
    }

    /// The leader id under which requests are taken: none while no quorum is heard.
    pub fn leads(&self, engine: &Engine<WorldConfig>) -> Option<LeaderId<u64>> {
        if self.lead.is_silent() {
            None
        } else {
            leader_of(engine)
        }
    }
}
