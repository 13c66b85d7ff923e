//! What of a store and of a node is printed.

use crate::digest::Digest;
use anyhow::Result;
use raft_calls::lead::Answer;
use raft_node::record::{Decided, Established, Executed};
use raft_packed::{Packed, PackedStore};
use raft_packed_node::{Node, Outbox, PackedInstalled};
use raft_state::{LeaderId, LogId, Membership, StoredMembership};
use test_words::text::{put, put_line};

/// An id as TERM-NODE-INDEX.
fn put_id(id: Option<LogId<u64>>, given: &mut Vec<u8>) -> Result<()> {
    let Some(id) = id else {
        return put("none", given);
    };
    let (term, node, index) = (id.leader_id.term, id.leader_id.node_id, id.index);
    put(format_args!("{term}-{node}-{index}"), given)
}

/// The voters of a membership's first group.
fn put_voters(membership: &Membership<u64, ()>, given: &mut Vec<u8>) -> Result<()> {
    if let Some(group) = membership.groups().first() {
        for id in group.as_slice() {
            put(format_args!(" {id}"), given)?;
        }
    }
    Ok(())
}

fn put_membership(stored: &StoredMembership<u64, ()>, given: &mut Vec<u8>) -> Result<()> {
    put_id(stored.log_id, given)?;
    put_voters(&stored.membership, given)
}

/// What is kept of entries: their end, the last id, the last two memberships and the state.
pub fn put_packed(word: &str, packed: &Packed<Digest>, given: &mut Vec<u8>) -> Result<()> {
    let end = packed.end();
    put(format_args!("{word} up to {end}, last "), given)?;
    put_id(packed.last_id(), given)?;
    put("; ", given)?;
    put_membership(packed.before(), given)?;
    put("; ", given)?;
    put_membership(packed.effective(), given)?;
    let number = packed.state().number;
    put(format_args!("; state {number}\n"), given)
}

/// The stored entries' ids, and the marks beside them.
pub fn put_log(store: &PackedStore<Digest>, given: &mut Vec<u8>) -> Result<()> {
    let vote = store.vote();
    let (term, node) = (vote.leader_id.term, vote.leader_id.node_id);
    put(format_args!("vote {term}-{node}, front "), given)?;
    put_id(store.front(), given)?;
    put(", saved ", given)?;
    put_id(store.saved(), given)?;
    put(", log", given)?;
    for index in 0..20 {
        if let Some(entry) = store.entry(index) {
            put(" ", given)?;
            put_id(Some(entry.log_id), given)?;
        }
    }
    put("\n", given)
}

/// The store's snapshot, with the last id of its meta.
pub fn put_snapshot(store: &PackedStore<Digest>, given: &mut Vec<u8>) -> Result<()> {
    put("meta ", given)?;
    put_id(store.meta().last_log_id, given)?;
    put("\n", given)?;
    put_packed("snapshot", &store.copy_snapshot()?, given)
}

/// Whether a node runs, in which role, its moment, and what is noted for a snapshot.
fn put_running(node: &Node<Digest>, given: &mut Vec<u8>) -> Result<()> {
    let (id, moment) = (node.id(), node.moment());
    match node.engine() {
        Some(engine) => {
            let role = engine.state.role;
            put_line(format_args!("node {id}: {role:?} at {moment}"), given)
        }
        None => put_line(format_args!("node {id}: stopped at {moment}"), given),
    }
}

pub fn put_noted(noted: Option<Packed<Digest>>, given: &mut Vec<u8>) -> Result<()> {
    match &noted {
        Some(noted) => put_packed("noted", noted, given),
        None => Ok(()),
    }
}

/// What a node has.
pub fn put_node(node: &Node<Digest>, given: &mut Vec<u8>) -> Result<()> {
    put_running(node, given)?;
    put_noted(node.copy_noted()?, given)?;
    put_log(node.store(), given)?;
    put_snapshot(node.store(), given)?;
    put_packed("applied", &node.store().copy_applied()?, given)
}

/// A leader as TERM-NODE.
fn put_leader(leader: &LeaderId<u64>, given: &mut Vec<u8>) -> Result<()> {
    let (term, node) = (leader.term, leader.node_id);
    put(format_args!("{term}-{node}"), given)
}

fn put_established(one: &Established<()>, given: &mut Vec<u8>) -> Result<()> {
    put_leader(&one.leader_id, given)?;
    put_line(" leads", given)
}

fn put_executed(one: &Executed, given: &mut Vec<u8>) -> Result<()> {
    let node = one.node;
    put(format_args!("{node} applies "), given)?;
    put_id(Some(one.entry.log_id), given)?;
    put_line("", given)
}

fn put_installed(one: &PackedInstalled<Digest>, given: &mut Vec<u8>) -> Result<()> {
    let node = one.node;
    put(format_args!("{node} "), given)?;
    put_packed("installs", &one.snapshot, given)
}

fn put_decided(one: &Decided<()>, given: &mut Vec<u8>) -> Result<()> {
    put_leader(&one.leader_id, given)?;
    put(" decides ", given)?;
    put_id(Some(one.log_id), given)?;
    put_line("", given)
}

fn put_answer(one: &Answer, given: &mut Vec<u8>) -> Result<()> {
    let node = one.node;
    put(format_args!("{node} answers "), given)?;
    put_id(one.log_id, given)?;
    put_line("", given)
}

/// What was said beside messages: each part in order.
pub fn put_said(said: &Outbox<Digest>, given: &mut Vec<u8>) -> Result<()> {
    for one in &said.established {
        put_established(one, given)?;
    }
    for one in &said.executed {
        put_executed(one, given)?;
    }
    for one in &said.installed {
        put_installed(one, given)?;
    }
    for one in &said.decided {
        put_decided(one, given)?;
    }
    for one in &said.answers {
        put_answer(one, given)?;
    }
    Ok(())
}
