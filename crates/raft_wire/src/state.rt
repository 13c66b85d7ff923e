//! Ids, votes and memberships.

ghost use Rattle.std.specs.Prelude.{◌≡◌, IfOk, map};
ghost use Rattle.raft_wire.specs.Values.{made, is_sent};

use crate::basic::write_items;
use crate::wire::Wire;
use raft_codec::{DecodeError, Fault, Reader, write_raw};
use raft_state::{
    Group, Items, LeaderId, LogId, Membership, SnapshotMeta, StoredMembership, Text, Vote,
};
use std::alloc::{AllocError, Global};

/// The leader's term, its node, the index.
#[tactic(auto, unfolding(crate::specs::Values::log_id))]
impl Wire for LogId<u64> {
    ghost use Rattle.raft_wire.specs.Values.{log_id};
    ghost use Rattle.raft_wire.specs.ValueLaws.{log_id_is};

    ghost codec = { log_id };

    ghost is_codec = { log_id_is };

    fn write(&self, out: &mut Vec<u8>) -> Result<(), AllocError> {
        self.leader_id.term.write(out)?;
        self.leader_id.node_id.write(out)?;
        self.index.write(out)
    }

    fn read(reader: &mut Reader<'_>) -> Result<LogId<u64>, DecodeError> {
        let term = reader.number()?;
        let node_id = reader.number()?;
        let index = reader.number()?;
        Ok(LogId::new(LeaderId::new(term, node_id), index))
    }
}

/// The term, the node, whether a quorum has granted the vote.
#[tactic(auto, unfolding(crate::specs::Values::vote))]
impl Wire for Vote<u64> {
    ghost use Rattle.raft_wire.specs.Values.{vote};
    ghost use Rattle.raft_wire.specs.ValueLaws.{vote_is};

    ghost codec = { vote };

    ghost is_codec = { vote_is };

    fn write(&self, out: &mut Vec<u8>) -> Result<(), AllocError> {
        self.leader_id.term.write(out)?;
        self.leader_id.node_id.write(out)?;
        self.committed.write(out)
    }

    fn read(reader: &mut Reader<'_>) -> Result<Vote<u64>, DecodeError> {
        let term = reader.number()?;
        let node_id = reader.number()?;
        let committed = bool::read(reader)?;
        Ok(Vote {
            leader_id: LeaderId::new(term, node_id),
            committed,
        })
    }
}

/// The bytes of the text in UTF-8, behind their number.
#[tactic(auto, unfolding(crate::specs::Values::text))]
impl Wire for Text {
    ghost use Rattle.raft_wire.specs.Values.{text};
    ghost use Rattle.raft_wire.specs.ValueLaws.{text_is};

    ghost codec = { text };

    ghost is_codec = { text_is };

    fn write(&self, out: &mut Vec<u8>) -> Result<(), AllocError> {
        write_raw(out, self.as_str().as_bytes())
    }

    fn read(reader: &mut Reader<'_>) -> Result<Text, DecodeError> {
        let left = reader.left();
        match str::from_utf8(reader.raw()?) {
            Ok(text) => {
                let text = String::from_str(reader.allocator(), text)?;
                Ok(Text::from_string(text))
            }
            Err(_) => Err(DecodeError::Malformed {
                fault: Fault::NotUtf8,
                left,
            }),
        }
    }
}

/// The groups, as lists of their ids.
fn copy_groups(alloc: Global, groups: &[Group<u64>]) -> Result<Vec<Vec<u64>>, AllocError>
    ensures { IfOk result (λ copied. map (λ group. group.items) copied.items ≡ groups.now) }
{
    let mut copied = Vec::with_capacity(alloc, groups.len())?;
    for group in groups {
        copied.push(group.copy()?.into_vec())?;
    }
    Ok(copied)
}

/// The nodes of these ids, without data.
fn nodes_of(alloc: Global, ids: &[u64]) -> Result<Vec<(u64, ())>, AllocError>
    ensures { IfOk result (λ nodes. nodes.items ≡ map (λ id. (id, tt)) ids.now) }
{
    ids.iter().map(|id| (*id, ())).collect(alloc)
}

/// The membership of these groups and learners, in whatever order they are.
fn membership_of(
    alloc: Global,
    groups: &[Group<u64>],
    learners: &[u64],
) -> Result<Membership<u64, ()>, AllocError>
    ensures { IfOk result (λ m. m ≡ made (groups.now, learners.now)) }
{
    Membership::new(
        alloc,
        copy_groups(alloc, groups)?,
        nodes_of(alloc, learners)?,
    )
}

/// Whether a membership has these groups and learners in this order.
fn is_written_so(
    membership: &Membership<u64, ()>,
    groups: &[Group<u64>],
    learners: &[u64],
) -> Result<bool, AllocError>
    ensures { IfOk result (λ same. same ≡ is_sent membership.now (groups.now, learners.now)) }
{
    Ok(membership.groups() == groups && membership.learner_ids()?.as_slice() == learners)
}

/// The groups of voters, and the learners: the ids of each ascend.
#[tactic(auto, unfolding(crate::specs::Values::membership))]
impl Wire for Membership<u64, ()> {
    ghost use Rattle.raft_wire.specs.Values.{membership};
    ghost use Rattle.raft_wire.specs.ValueLaws.{membership_is};

    ghost codec = { membership };

    ghost is_codec = { membership_is };

    fn write(&self, out: &mut Vec<u8>) -> Result<(), AllocError> {
        write_items(out, self.groups())?;
        write_items(out, self.learner_ids()?.as_slice())
    }

    fn read(reader: &mut Reader<'_>) -> Result<Membership<u64, ()>, DecodeError> {
        let left = reader.left();
        let groups = Items::<Group<u64>>::read(reader)?;
        let learners = Items::<u64>::read(reader)?;
        let membership = membership_of(reader.allocator(), groups.as_slice(), learners.as_slice())?;
        if is_written_so(&membership, groups.as_slice(), learners.as_slice())? {
            Ok(membership)
        } else {
            Err(DecodeError::Malformed {
                fault: Fault::Disordered,
                left,
            })
        }
    }
}

/// The log id of the membership's entry, if there is one, and the membership.
#[tactic(auto, unfolding(crate::specs::Values::stored_membership))]
impl Wire for StoredMembership<u64, ()> {
    ghost use Rattle.raft_wire.specs.Values.{stored_membership};
    ghost use Rattle.raft_wire.specs.ValueLaws.{stored_membership_is};

    ghost codec = { stored_membership };

    ghost is_codec = { stored_membership_is };

    fn write(&self, out: &mut Vec<u8>) -> Result<(), AllocError> {
        self.log_id.write(out)?;
        self.membership.write(out)
    }

    fn read(reader: &mut Reader<'_>) -> Result<StoredMembership<u64, ()>, DecodeError> {
        let log_id = Option::<LogId<u64>>::read(reader)?;
        let membership = Membership::<u64, ()>::read(reader)?;
        Ok(StoredMembership { log_id, membership })
    }
}

/// The snapshot's last log id, its last membership, and its own id.
#[tactic(auto, unfolding(crate::specs::Values::snapshot_meta))]
impl Wire for SnapshotMeta<u64, ()> {
    ghost use Rattle.raft_wire.specs.Values.{snapshot_meta};
    ghost use Rattle.raft_wire.specs.ValueLaws.{snapshot_meta_is};

    ghost codec = { snapshot_meta };

    ghost is_codec = { snapshot_meta_is };

    fn write(&self, out: &mut Vec<u8>) -> Result<(), AllocError> {
        self.last_log_id.write(out)?;
        self.last_membership.write(out)?;
        self.snapshot_id.write(out)
    }

    fn read(reader: &mut Reader<'_>) -> Result<SnapshotMeta<u64, ()>, DecodeError> {
        let last_log_id = Option::<LogId<u64>>::read(reader)?;
        let last_membership = StoredMembership::<u64, ()>::read(reader)?;
        let snapshot_id = Text::read(reader)?;
        Ok(SnapshotMeta {
            last_log_id,
            last_membership,
            snapshot_id,
        })
    }
}
