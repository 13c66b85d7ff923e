//! Requests and replies between nodes.

use crate::wire::Wire;
use raft_codec::{DecodeError, Reader};
use raft_command::{
    AppendEntriesResponse, ReplicationSessionId, RequestId, SnapshotResponse, VoteRequest,
    VoteResponse,
};
use raft_state::{LogId, Vote};
use std::alloc::AllocError;

/// The leader's vote, and the log id of the membership.
#[tactic(auto, unfolding(crate::specs::Requests::session))]
impl Wire for ReplicationSessionId<u64> {
    ghost use Rattle.raft_wire.specs.Requests.{session};
    ghost use Rattle.raft_wire.specs.RequestLaws.{session_is};

    ghost codec = { session };

    ghost is_codec = { session_is };

    fn write(&self, out: &mut Vec<u8>) -> Result<(), AllocError> {
        self.vote.write(out)?;
        self.membership_log_id.write(out)
    }

    fn read(reader: &mut Reader<'_>) -> Result<ReplicationSessionId<u64>, DecodeError> {
        let vote = Vote::<u64>::read(reader)?;
        let membership_log_id = Option::<LogId<u64>>::read(reader)?;
        Ok(ReplicationSessionId {
            vote,
            membership_log_id,
        })
    }
}

/// 0 for a heartbeat; 1 for entries, or 2 for a snapshot, and the request's number.
#[tactic(auto, unfolding(crate::specs::Requests::request_id))]
impl Wire for RequestId {
    ghost use Rattle.raft_wire.specs.Requests.{request_id};
    ghost use Rattle.raft_wire.specs.RequestLaws.{request_id_is};

    ghost codec = { request_id };

    ghost is_codec = { request_id_is };

    fn write(&self, out: &mut Vec<u8>) -> Result<(), AllocError> {
        match self {
            RequestId::HeartBeat => Ok(out.push(0)?),
            RequestId::AppendEntries { id } => {
                out.push(1)?;
                id.write(out)
            }
            RequestId::Snapshot { id } => {
                out.push(2)?;
                id.write(out)
            }
        }
    }

    fn read(reader: &mut Reader<'_>) -> Result<RequestId, DecodeError> {
        match reader.tag()? {
            0 => Ok(RequestId::HeartBeat),
            1 => Ok(RequestId::AppendEntries {
                id: reader.number()?,
            }),
            2 => Ok(RequestId::Snapshot {
                id: reader.number()?,
            }),
            _ => Err(reader.unknown_tag()),
        }
    }
}

/// The vote, and the candidate's last log id.
#[tactic(auto, unfolding(crate::specs::Requests::vote_request))]
impl Wire for VoteRequest<u64> {
    ghost use Rattle.raft_wire.specs.Requests.{vote_request};
    ghost use Rattle.raft_wire.specs.RequestLaws.{vote_request_is};

    ghost codec = { vote_request };

    ghost is_codec = { vote_request_is };

    fn write(&self, out: &mut Vec<u8>) -> Result<(), AllocError> {
        self.vote.write(out)?;
        self.last_log_id.write(out)
    }

    fn read(reader: &mut Reader<'_>) -> Result<VoteRequest<u64>, DecodeError> {
        let vote = Vote::<u64>::read(reader)?;
        let last_log_id = Option::<LogId<u64>>::read(reader)?;
        Ok(VoteRequest { vote, last_log_id })
    }
}

/// The vote of the node that answers, whether it granted, and its last log id.
#[tactic(auto, unfolding(crate::specs::Requests::vote_response))]
impl Wire for VoteResponse<u64> {
    ghost use Rattle.raft_wire.specs.Requests.{vote_response};
    ghost use Rattle.raft_wire.specs.RequestLaws.{vote_response_is};

    ghost codec = { vote_response };

    ghost is_codec = { vote_response_is };

    fn write(&self, out: &mut Vec<u8>) -> Result<(), AllocError> {
        self.vote.write(out)?;
        self.vote_granted.write(out)?;
        self.last_log_id.write(out)
    }

    fn read(reader: &mut Reader<'_>) -> Result<VoteResponse<u64>, DecodeError> {
        let vote = Vote::<u64>::read(reader)?;
        let vote_granted = bool::read(reader)?;
        let last_log_id = Option::<LogId<u64>>::read(reader)?;
        Ok(VoteResponse {
            vote,
            vote_granted,
            last_log_id,
        })
    }
}

/// 0 if all entries are held, 1 and up to which id they are, 2 if the id before them isn't, 3 and a higher vote.
#[tactic(auto, unfolding(crate::specs::Requests::append_response))]
impl Wire for AppendEntriesResponse<u64> {
    ghost use Rattle.raft_wire.specs.Requests.{append_response};
    ghost use Rattle.raft_wire.specs.RequestLaws.{append_response_is};

    ghost codec = { append_response };

    ghost is_codec = { append_response_is };

    fn write(&self, out: &mut Vec<u8>) -> Result<(), AllocError> {
        match self {
            AppendEntriesResponse::Success => Ok(out.push(0)?),
            AppendEntriesResponse::PartialSuccess(upto) => {
                out.push(1)?;
                upto.write(out)
            }
            AppendEntriesResponse::Conflict => Ok(out.push(2)?),
            AppendEntriesResponse::HigherVote(vote) => {
                out.push(3)?;
                vote.write(out)
            }
        }
    }

    fn read(reader: &mut Reader<'_>) -> Result<AppendEntriesResponse<u64>, DecodeError> {
        match reader.tag()? {
            0 => Ok(AppendEntriesResponse::Success),
            1 => Ok(AppendEntriesResponse::PartialSuccess(Option::read(reader)?)),
            2 => Ok(AppendEntriesResponse::Conflict),
            3 => Ok(AppendEntriesResponse::HigherVote(Vote::read(reader)?)),
            _ => Err(reader.unknown_tag()),
        }
    }
}

/// The vote of the node that answers.
#[tactic(auto, unfolding(crate::specs::Requests::snapshot_response))]
impl Wire for SnapshotResponse<u64> {
    ghost use Rattle.raft_wire.specs.Requests.{snapshot_response};
    ghost use Rattle.raft_wire.specs.RequestLaws.{snapshot_response_is};

    ghost codec = { snapshot_response };

    ghost is_codec = { snapshot_response_is };

    fn write(&self, out: &mut Vec<u8>) -> Result<(), AllocError> {
        self.vote.write(out)
    }

    fn read(reader: &mut Reader<'_>) -> Result<SnapshotResponse<u64>, DecodeError> {
        let vote = Vote::<u64>::read(reader)?;
        Ok(SnapshotResponse { vote })
    }
}
