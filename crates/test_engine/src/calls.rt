//! The calls that make nodes, hold elections and start engines.
//!
//! - `new ID`: a node that has taken nothing yet
//! - `voter ID VOTE MEMBERS`: a node without a log, that has a vote and an effective membership
//! - `restart committed|uncommitted`: a node that starts anew with the state of the one before, whose vote is committed,
//!   or is not; nothing is queued, and its role and the moment of its vote are forgotten
//! - `initialize ID MEMBERS`, `initialize ID`: the first entry, with a membership or a no-op, at 3
//! - `elect`: at 5
//! - `reply FROM VOTE granted|denied LAST`: a reply to the request for this node's vote, at 7
//! - `startup`: at 9
//! - `step-down`

ghost use Rattle.std.specs.Prelude.{IfOk};
ghost use Rattle.test_engine.specs.Sound.{IsInOrder};

use crate::follower::follower_call;
use crate::show::tell;
use crate::types::{Item, Payload, Small};
use crate::words::{log_id, membership, vote, vote_response};
use anyhow::{Result, bail};
use raft_command::EngineConfig;
use raft_engine::Engine;
use raft_state::{RaftEntry, RaftState, ServerState, StoredMembership};
use std::alloc::Global;
use std::mem;
use test_cases::Sheet;

/// The settings of a node.
fn settings(id: u64) -> EngineConfig<u64> {
    EngineConfig {
        id,
        ..EngineConfig::default()
    }
}

fn new_node(engine: &mut Engine<Small>, sheet: &mut Sheet<'_>)
    requires { IsInOrder engine.old }
    ensures { IsInOrder engine.new }
{
    match Engine::testing_default(sheet.alloc(), sheet.number()) {
        Ok(node) => *engine = node,
        Err(_) => sheet.fail("out of memory"),
    }
}

/// A node without a log, that has a vote and an effective membership.
#[tactic(auto, using(crate::proofs::Sound::voted))]
fn voter(engine: &mut Engine<Small>, sheet: &mut Sheet<'_>)
    requires { IsInOrder engine.old }
    ensures { IsInOrder engine.new }
{
    let id = sheet.number();
    let mut state = RaftState::empty(sheet.alloc());
    state.vote = vote(sheet);
    state.em = StoredMembership {
        log_id: None,
        membership: membership(sheet),
    };
    match Engine::new(sheet.alloc(), state, settings(id)) {
        Ok(node) => *engine = node,
        Err(_) => sheet.fail("out of memory"),
    }
}

/// A node that starts anew with the state of one that didn't run out of memory.
fn restarted(alloc: Global, engine: Engine<Small>, committed: bool) -> Result<Engine<Small>>
    requires { IsInOrder engine }
    ensures { IfOk result (λ engine. IsInOrder engine) }
{
    if engine.output.is_spent() {
        bail!("the engine is spent");
    }
    let id = engine.config.id;
    let mut state = engine.into_state();
    state.vote.committed = committed;
    state.time = None;
    state.role = ServerState::Learner;
    Ok(Engine::new(alloc, state, settings(id))?)
}

fn restart(engine: &mut Engine<Small>, sheet: &mut Sheet<'_>)
    requires { IsInOrder engine.old }
    ensures { IsInOrder engine.new }
{
    let how = sheet.word();
    if how != "committed" && how != "uncommitted" {
        return sheet.fail("neither committed nor uncommitted");
    }
    let Ok(node) = Engine::testing_default(sheet.alloc(), 1) else {
        return sheet.fail("out of memory");
    };
    let before = mem::replace(engine, node);
    match restarted(sheet.alloc(), before, how == "committed") {
        Ok(node) => *engine = node,
        Err(_) => sheet.fail("the engine is spent"),
    }
}

/// The first entry: a membership, or a no-op.
fn first_entry(sheet: &mut Sheet<'_>) -> Item {
    let log_id = log_id(sheet);
    if !sheet.has_more() {
        return Item::new_blank(log_id);
    }
    Item {
        log_id,
        payload: Payload::Membership(membership(sheet)),
    }
}

fn initialize(engine: &mut Engine<Small>, sheet: &mut Sheet<'_>)
    requires { IsInOrder engine.old }
    ensures { IsInOrder engine.new }
{
    if engine.leader.is_some() {
        return sheet.fail("a leader is not initialized");
    }
    let entry = first_entry(sheet);
    tell(engine.initialize(entry, 3), sheet);
}

fn elect(engine: &mut Engine<Small>, sheet: &mut Sheet<'_>)
    requires { IsInOrder engine.old }
    ensures { IsInOrder engine.new }
{
    if engine.leader.is_some() {
        return sheet.fail("a leader holds no election");
    }
    tell(engine.elect(5), sheet);
}

fn reply(engine: &mut Engine<Small>, sheet: &mut Sheet<'_>)
    requires { IsInOrder engine.old }
    ensures { IsInOrder engine.new }
{
    let target = sheet.number();
    let resp = vote_response(sheet);
    tell(engine.handle_vote_resp(target, resp, 7), sheet);
}

fn step_down(engine: &mut Engine<Small>, sheet: &mut Sheet<'_>)
    requires { IsInOrder engine.old }
    ensures { IsInOrder engine.new }
{
    if engine.leader.is_none() {
        return sheet.fail("only a leader steps down");
    }
    tell(engine.leader_step_down(), sheet);
}

/// A line that is one of these calls, or a call of a node that follows.
pub fn call(engine: &mut Engine<Small>, name: &str, sheet: &mut Sheet<'_>)
    requires { IsInOrder engine.old }
    ensures { IsInOrder engine.new }
{
    match name {
        "new" => new_node(engine, sheet),
        "voter" => voter(engine, sheet),
        "restart" => restart(engine, sheet),
        "initialize" => initialize(engine, sheet),
        "elect" => elect(engine, sheet),
        "reply" => reply(engine, sheet),
        "startup" => tell(engine.startup(9), sheet),
        "step-down" => step_down(engine, sheet),
        _ => follower_call(engine, name, sheet),
    }
}
