//! What is fed back to a node's engine after one of its commands.

ghost use Rattle.std.specs.Prelude.{◌≡◌, OnOk, IfSome, None, Some, true, false};
ghost use Rattle.std.specs.Ordering.{is_eq, nat_cmp};
ghost use Rattle.raft_state.specs.Order.{vote_cmp};
ghost use Rattle.raft_calls.specs.Engines.{view_of};
ghost use Rattle.raft_calls.specs.Feeds.{feed_of, fed, grant_own, asks_itself, last_sent, leads_by, held_where_led};
ghost use Rattle.raft_calls.specs.Held.{IsReady, Held};
ghost use Rattle.raft_calls.specs.declared.feed.Feed.TheVariants.{Stored};

use raft_command::{Command, VoteResponse};
use raft_engine::Engine;
use raft_error::EngineError;
use raft_state::{LogId, Vote};
use raft_store::{Entry, WorldConfig};
use std::alloc::AllocError;

/// What a command feeds back to its engine.
#[derive(Clone, Copy, Debug)]
pub enum Feed {
    /// This vote is saved.
    Saved(Vote<u64>),
    /// Entries up to this id are stored, under this vote.
    Stored(Vote<u64>, Option<LogId<u64>>),
    Nothing,
}

/// The last of some entries' ids, or else a previous id.
pub fn last_sent(prev: &Option<LogId<u64>>, entries: &[Entry]) -> Option<LogId<u64>>
    ensures { result ≡ last_sent prev.now entries.now }
{
    match entries.last() {
        Some(entry) => Some(entry.log_id),
        None => *prev,
    }
}

/// What is reported to the engine once this command is executed.
pub fn feed_of(command: &Command<WorldConfig>) -> Feed
    ensures { result ≡ feed_of command.now }
{
    match command {
        Command::SaveVote { vote } => Feed::Saved(*vote),
        Command::AppendInputEntries { vote, entries } => {
            Feed::Stored(*vote, last_sent(&None, entries.as_slice()))
        }
        _ => Feed::Nothing,
    }
}

/// Whether the candidate's vote is this one, and its voters have the node.
fn asks_itself(vote: &Vote<u64>, engine: &Engine<WorldConfig>) -> bool
    ensures { result ≡ elim engine.now.candidate [ None ↦ false | Some c ↦ asks_itself vote.now c (view_of engine.now) ] }
{
    match &engine.candidate {
        None => false,
        Some(asking) => {
            asking.vote_ref() == vote && asking.progress().get(&engine.config.id).is_some()
        }
    }
}

/// The node's own grant of its candidate's vote.
fn grant_own(
    moment: u64,
    vote: Vote<u64>,
    engine: &mut Engine<WorldConfig>,
) -> Result<(), AllocError>
    requires ready { IsReady (view_of engine.old) }
    requires asked { IfSome engine.old.candidate (λ c. is_eq (vote_cmp nat_cmp c.vote vote) ≡ true) }
    ensures { OnOk result (view_of engine.new ≡ grant_own moment vote (view_of engine.old)) }
{
    let id = engine.config.id;
    let grant = VoteResponse::new(&vote, None, true);
    match engine.handle_vote_resp(id, grant, moment) {
        Err(EngineError::OutOfMemory) => Err(AllocError),
        _ => Ok(()),
    }
}

/// Whether the node leads by this vote.
fn leads_by(vote: &Vote<u64>, engine: &Engine<WorldConfig>) -> bool
    ensures { result ≡ leads_by vote.now (view_of engine.now) }
{
    match &engine.leader {
        None => false,
        Some(leader) => leader.vote == *vote,
    }
}

/// Acknowledges the leader's own log up to an id. A refused acknowledgement changes nothing.
fn hold_own(
    vote: Vote<u64>,
    upto: Option<LogId<u64>>,
    engine: &mut Engine<WorldConfig>,
) -> Result<(), AllocError>
    requires ready { IsReady (view_of engine.old) }
    requires held { Held engine.old.state.ids (Stored vote upto) }
    ensures { OnOk result (view_of engine.new ≡ held_where_led upto (view_of engine.old)) }
{
    match engine.update_local_progress(upto) {
        Ok(()) => Ok(()),
        Err(EngineError::OutOfMemory) => Err(AllocError),
        Err(_) => Ok(()),
    }
}

/// Feeds an executed command back, if it concerns the engine's candidate or leader.
#[tactic(auto, using(crate::proofs::Fed::fed_held, crate::proofs::Fed::fed_other))]
pub fn feed_engine(
    feed: Feed,
    moment: u64,
    engine: &mut Engine<WorldConfig>,
) -> Result<(), AllocError>
    requires ready { IsReady (view_of engine.old) }
    requires held { Held engine.old.state.ids feed }
    ensures { OnOk result (view_of engine.new ≡ fed moment feed (view_of engine.old)) }
{
    match feed {
        Feed::Saved(vote) => {
            if asks_itself(&vote, engine) {
                grant_own(moment, vote, engine)
            } else {
                Ok(())
            }
        }
        Feed::Stored(vote, upto) => {
            if leads_by(&vote, engine) {
                hold_own(vote, upto, engine)?;
            }
            Ok(())
        }
        Feed::Nothing => Ok(()),
    }
}
