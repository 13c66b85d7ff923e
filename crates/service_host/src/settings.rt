//! The settings of a service as bytes.

ghost use Rattle.std.specs.Prelude.{◌≡◌, ◌+◌, ◌++◌, [], ◌∷◌, IfOk, OnOk};
ghost use Rattle.std.specs.Ordering.{nat_cmp};
ghost use Rattle.raft_state.specs.Members.{members_of};
ghost use Rattle.service_host.specs.Settings.{behind_numbers, behind_server, behind_servers, engine_at, given_at, given_of, ids_at, number_at};
ghost use Rattle.service_host.specs.Settings.{numbers_at, policy_of};

use crate::bytes::{Cursor, Unread};
use crate::error::HostError;
use raft_answers::Limits;
use raft_command::EngineConfig;
use raft_frames::LogId;
use raft_node::given::Given;
use raft_service::raft_core::{Config, PART_BYTES, PeerLimits, SNAPSHOT_BYTES};
use raft_service::{Address, Settings};
use raft_state::{Items, Membership, SnapshotPolicy, sorted_ids};
use std::alloc::Global;
use std::collections::BTreeMap;

/// The version of the settings' form.
const VERSION: u64 = 2;

/// The id in settings that all servers have in common: each engine puts in its own.
const NOBODY: u64 = 0;

/// The servers of a cluster: their ids, and where clients reach them.
#[derive(Drop)]
struct Servers {
    ids: Vec<u64>,
    addresses: BTreeMap<u64, Address>,
}

/// One more server.
fn read_server(cursor: &mut Cursor<'_>, servers: &mut Servers) -> Result<(), Unread>
    ensures ids { OnOk result (servers.new.ids.items ≡ servers.old.ids.items ++ (number_at cursor.old ∷ [])) }
    ensures rest { OnOk result (cursor.new ≡ behind_server cursor.old) }
{
    let id = cursor.number()?;
    let host = cursor.bytes()?;
    let port = cursor.port()?;
    servers.ids.push(id)?;
    let address = Address { host, port };
    if servers.addresses.insert(id, address).is_err() {
        return Err(Unread::OutOfMemory);
    }
    Ok(())
}

/// Servers, behind how many there are.
fn read_servers(alloc: Global, cursor: &mut Cursor<'_>) -> Result<Servers, Unread>
    ensures ids { IfOk result (λ servers. servers.ids.items ≡ ids_at (number_at cursor.old) (behind_numbers 1 cursor.old)) }
    ensures rest { OnOk result (cursor.new ≡ behind_servers (number_at cursor.old) (behind_numbers 1 cursor.old)) }
{
    let mut servers = Servers {
        ids: Vec::new(alloc),
        addresses: BTreeMap::new(alloc),
    };
    for _ in 0..cursor.number()? {
        read_server(cursor, &mut servers)?;
    }
    Ok(servers)
}

/// The first voters, behind how many there are.
fn read_membership(alloc: Global, cursor: &mut Cursor<'_>) -> Result<Membership<u64, ()>, Unread>
    ensures membership { IfOk result (λ m.
        m ≡ members_of nat_cmp (record {}) (numbers_at (number_at cursor.old) (behind_numbers 1 cursor.old) ∷ []) []) }
    ensures rest { OnOk result (cursor.new ≡ behind_numbers (number_at cursor.old + 1) cursor.old) }
{
    let voters = cursor.numbers()?;
    let mut groups = Vec::new(alloc);
    groups.push(voters)?;
    Ok(Membership::new(alloc, groups, Vec::new(alloc))?)
}

/// When a snapshot is built: after so many entries, or never.
fn read_policy(cursor: &mut Cursor<'_>) -> Result<SnapshotPolicy, Unread>
    ensures policy { IfOk result (λ policy. policy ≡ policy_of (number_at cursor.old)) }
    ensures rest { OnOk result (cursor.new ≡ behind_numbers 1 cursor.old) }
{
    match cursor.number()? {
        0 => Ok(SnapshotPolicy::Never),
        entries => Ok(SnapshotPolicy::LogsSinceLast(entries)),
    }
}

/// Spans of time, how many entries a message has, and which are kept behind a snapshot.
fn read_engine(cursor: &mut Cursor<'_>) -> Result<EngineConfig<u64>, Unread>
    ensures { IfOk result (λ settings. settings ≡ engine_at cursor.old) }
{
    let election_timeout = cursor.number()?;
    let lease = cursor.number()?;
    let max_payload_entries = cursor.number()?;
    let snapshot_policy = read_policy(cursor)?;
    let kept_entries = cursor.number()?;
    Ok(EngineConfig::new(
        NOBODY,
        snapshot_policy,
        kept_entries,
        1,
        max_payload_entries,
        election_timeout,
        lease,
    ))
}

/// What is taken of requests.
fn read_limits(cursor: &mut Cursor<'_>) -> Result<Limits, Unread> {
    let value_bytes = cursor.size()?;
    let waiting_bytes = cursor.size()?;
    let requests = cursor.size()?;
    let batch_bytes = cursor.size()?;
    Ok(Limits {
        value_bytes,
        waiting_bytes,
        requests,
        batch_bytes,
    })
}

/// What is taken of peers.
fn read_peers(cursor: &mut Cursor<'_>) -> Result<PeerLimits, Unread> {
    let frame_bytes = cursor.size()?;
    let unwritten_bytes = cursor.size()?;
    let term_jump = cursor.number()?;
    Ok(PeerLimits {
        frame_bytes,
        part_bytes: PART_BYTES,
        snapshot_bytes: SNAPSHOT_BYTES,
        unwritten_bytes,
        term_jump,
    })
}

/// Timers and limits.
fn read_config(cursor: &mut Cursor<'_>) -> Result<Config, Unread> {
    let election_spread = cursor.number()?;
    let heartbeat_interval = cursor.number()?;
    let patience = cursor.number()?;
    let request_timeout = cursor.number()?;
    let catch_up = cursor.number()?;
    let log_bytes = cursor.number()?;
    let limits = read_limits(cursor)?;
    let peers = read_peers(cursor)?;
    Ok(Config {
        election_spread,
        heartbeat_interval,
        patience,
        request_timeout,
        catch_up,
        log_bytes,
        limits,
        peers,
    })
}

/// What a client may ask for.
fn read_client_limits(cursor: &mut Cursor<'_>) -> Result<raft_connection::Limits, Unread> {
    let words = cursor.number()?;
    let word = cursor.number()?;
    let received = cursor.size()?;
    let requests = cursor.size()?;
    let commands = cursor.size()?;
    Ok(raft_connection::Limits {
        request: raft_resp::Limits { words, word },
        received,
        requests,
        commands,
    })
}

/// What is set for each connection.
fn read_connections(cursor: &mut Cursor<'_>) -> Result<raft_connection::Settings, Unread> {
    let limits = read_client_limits(cursor)?;
    let secret = if cursor.flag()? {
        Some(cursor.bytes()?)
    } else {
        None
    };
    let info = cursor.bytes()?;
    Ok(raft_connection::Settings {
        limits,
        secret,
        info,
    })
}

/// What servers have in common, and where clients reach each of them.
fn read_given(
    alloc: Global,
    cursor: &mut Cursor<'_>,
) -> Result<(Given, BTreeMap<u64, Address>), Unread>
    ensures { IfOk result (λ found. found.0 ≡ given_at cursor.old) }
{
    let servers = read_servers(alloc, cursor)?;
    let membership = read_membership(alloc, cursor)?;
    let settings = read_engine(cursor)?;
    let ids = sorted_ids(alloc, servers.ids)?;
    let given = Given {
        ids,
        membership,
        settings,
    };
    Ok((given, servers.addresses))
}

fn read_all(alloc: Global, cursor: &mut Cursor<'_>) -> Result<Settings, Unread>
    ensures { IfOk result (λ settings. settings.given ≡ given_of cursor.old) }
{
    if cursor.number()? != VERSION {
        return Err(Unread::Malformed);
    }
    let cluster = cursor.number()?;
    let node = cursor.number()?;
    let (given, addresses) = read_given(alloc, cursor)?;
    let config = read_config(cursor)?;
    let connections = read_connections(cursor)?;
    let clients = cursor.size()?;
    cursor.end()?;
    Ok(Settings {
        id: LogId { cluster, node },
        given,
        config,
        connections,
        addresses,
        clients,
    })
}

/// The settings whose bytes these are: numbers of eight bytes, and bytes behind their number. In this order:
///
/// 1. the form's version, 2; the cluster's number, the server's id
/// 2. how many servers there are or may ever be, and of each its id, and the host (bytes) and port at which clients reach it
/// 3. how many voters the cluster begins with, and their ids
/// 4. the election timeout and the lease, in moments; the most entries of a message; after how many entries a snapshot is built, or
///    0 for never; how many of the entries that it covers are kept
/// 5. the greatest jitter of an election timeout, how often a leader sends heartbeats, how long it waits for a peer's answer, how
///    long a request waits for its answer, all in moments; how many entries a new voter's log may lack; after how many bytes a log
///    is replaced by a new one
/// 6. the most bytes of a request's entry, of those that wait, the most requests, and from how many bytes on a batch is full
/// 7. the most bytes of a peer's frame, after how many bytes that wait to be written frames are refused, and by how much a term
///    may jump
/// 8. of a client the most words of a request, bytes of a word, bytes that wait to be read, requests that wait, and commands of a
///    transaction
/// 9. 1 and the secret that clients must say (bytes), or 0; what INFO answers (bytes)
/// 10. the most clients
///
/// What the servers have in common, their [`Given`], is the same whatever the version, the cluster and the server's id are.
pub fn read_settings(alloc: Global, bytes: &[u8]) -> Result<Settings, HostError>
    ensures { IfOk result (λ settings. settings.given ≡ given_of bytes.now) }
{
    let mut cursor = Cursor::new(alloc, bytes);
    match read_all(alloc, &mut cursor) {
        Ok(settings) => Ok(settings),
        Err(Unread::OutOfMemory) => Err(HostError::OutOfMemory),
        Err(Unread::Malformed) => Err(HostError::BadSettings),
    }
}
