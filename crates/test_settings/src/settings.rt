//! The settings of servers of one cluster.

use raft_command::{EngineConfig, time_state};
use raft_node::given::Given;
use raft_state::SnapshotPolicy;
use service_host::read_settings;
use std::alloc::{AllocError, Global};
use std::process::Abort;

fn write(bytes: &mut Vec<u8>, numbers: &[u64]) -> Result<(), AllocError> {
    for number in numbers {
        bytes.extend_from_slice(&number.to_le_bytes())?;
    }
    Ok(())
}

/// The settings of one of the servers 3, 1 and 2, of which the last two begin the cluster.
fn bytes_of(alloc: Global, id: u64) -> Result<Vec<u8>, AllocError> {
    let mut bytes = Vec::new(alloc);
    write(&mut bytes, &[2, 7, id])?;
    write(&mut bytes, &[3])?;
    write(&mut bytes, &[3, 4])?;
    bytes.extend_from_slice(b"host")?;
    write(&mut bytes, &[7003, 1, 0, 7001, 2, 0, 7002])?;
    write(&mut bytes, &[2, 2, 1])?;
    write(&mut bytes, &[1000, 900, 256, 500, 10])?;
    // what servers needn't have in common: timers, limits, no secret, no text for INFO, clients
    write(&mut bytes, &[1; 18])?;
    write(&mut bytes, &[0, 0, 1])?;
    Ok(bytes)
}

/// What a server has in common with the others, of its settings.
fn given_of(rt: &impl Abort, alloc: Global, id: u64) -> Given {
    let bytes = bytes_of(alloc, id).expect(rt, "memory");
    let settings = read_settings(alloc, &bytes).expect(rt, "settings");
    assert!(rt; settings.id.node == id);
    assert!(rt; settings.addresses.len() == 3);
    settings.given
}

#[test]
fn servers_are_given_the_same(rt: HostRuntime) {
    let settings = EngineConfig {
        id: 0,
        snapshot_policy: SnapshotPolicy::LogsSinceLast(500),
        max_in_snapshot_log_to_keep: 10,
        purge_batch_size: 1,
        max_payload_entries: 256,
        timer_config: time_state::Config {
            election_timeout: 1000,
            smaller_log_timeout: 1800,
            leader_lease: 900,
        },
    };
    for id in 1..4 {
        let given = given_of(&rt, rt.alloc(), id);
        assert!(rt; given.ids.as_slice() == [1, 2, 3].as_slice());
        let groups = given.membership.groups();
        assert!(rt; groups.len() == 1);
        assert!(rt; groups[0].as_slice() == [1, 2].as_slice());
        assert!(rt; !given.membership.contains(&3));
        assert!(rt; given.settings == settings);
    }
}
