//! Replies to callers.

ghost use Rattle.std.specs.Prelude.{◌≡◌};
ghost use Rattle.raft_command.specs.Reply.{sent};

use crate::message::{
    AppendEntriesResponse, InstallSnapshotResponse, SnapshotResponse, Token, VoteResponse,
};
use raft_progress_entry::raft_error::EngineError;
use raft_progress_entry::raft_state::RaftTypeConfig;
use std::marker::{Model, PhantomData};

/// A value for the caller that the token names (openraft's `ValueSender`). Two are equal if their values are.
#[derive(Drop)]
#[derive_where(Debug; T)]
pub struct ValueSender<C: RaftTypeConfig, T> {
    value: T,
    token: Token,
    config: PhantomData<C>,
}

impl<C: RaftTypeConfig, T> Model for ValueSender<C, T> {
    ghost use Rattle.raft_command.specs.Sender.{Sender};

    ghost Value = { Sender T };

    ghost view = { λ s. record { value = s.value; token = s.token } };
}

impl<C: RaftTypeConfig, T: PartialEq> PartialEq for ValueSender<C, T> {
    ghost use Rattle.raft_command.specs.Equality.{sender_eq};
    ghost use Rattle.raft_command.specs.EqualityLaws.{sender_per};

    ghost eq = { sender_eq T.eq };

    ghost laws = { sender_per T.PartialEq.laws };

    fn eq(&self, other: &Self) -> bool {
        self.value == other.value
    }
}

impl<C: RaftTypeConfig, T: Eq> Eq for ValueSender<C, T> {
    ghost use Rattle.raft_command.specs.EqualityLaws.{sender_equiv};

    ghost laws = { sender_equiv T.Eq.laws };
}

/// A reply to a caller, of one of openraft's kinds (`Respond`).
#[derive(Drop)]
#[derive_where(PartialEq, Eq, Debug)]
pub enum Respond<C: RaftTypeConfig> {
    Vote(ValueSender<C, VoteResponse<C::NodeId>>),
    AppendEntries(ValueSender<C, AppendEntriesResponse<C::NodeId>>),
    ReceiveSnapshotChunk(ValueSender<C, Result<(), EngineError<C::NodeId, C::Node>>>),
    InstallSnapshot(
        ValueSender<C, Result<InstallSnapshotResponse<C::NodeId>, EngineError<C::NodeId, C::Node>>>,
    ),
    InstallFullSnapshot(ValueSender<C, SnapshotResponse<C::NodeId>>),
    Initialize(ValueSender<C, Result<(), EngineError<C::NodeId, C::Node>>>),
}

/// What a reply returns besides its token.
#[derive(Drop)]
#[derive_where(PartialEq, Eq, Debug)]
pub enum RespondValue<C: RaftTypeConfig> {
    Vote(VoteResponse<C::NodeId>),
    AppendEntries(AppendEntriesResponse<C::NodeId>),
    ReceiveSnapshotChunk(Result<(), EngineError<C::NodeId, C::Node>>),
    InstallSnapshot(Result<InstallSnapshotResponse<C::NodeId>, EngineError<C::NodeId, C::Node>>),
    InstallFullSnapshot(SnapshotResponse<C::NodeId>),
    Initialize(Result<(), EngineError<C::NodeId, C::Node>>),
}

impl<C: RaftTypeConfig, T> ValueSender<C, T> {
    /// A value for the caller that the token names.
    pub fn new(value: T, token: Token) -> Self
        ensures { result ≡ record { value = value; token = token } }
    {
        ValueSender {
            value,
            token,
            config: PhantomData,
        }
    }

    /// The token and the value.
    pub fn send(self) -> (Token, T)
        ensures { result ≡ record { 0 = self.token; 1 = self.value } }
    {
        (self.token, self.value)
    }
}

impl<C: RaftTypeConfig> Respond<C> {
    /// A reply to a vote request.
    pub fn new_vote(value: VoteResponse<C::NodeId>, token: Token) -> Self
        ensures { result ≡ Respond.Vote (record { value = value; token = token }) }
    {
        Respond::Vote(ValueSender::new(value, token))
    }

    /// A reply to a request to append entries.
    pub fn new_append_entries(value: AppendEntriesResponse<C::NodeId>, token: Token) -> Self
        ensures { result ≡ Respond.AppendEntries (record { value = value; token = token }) }
    {
        Respond::AppendEntries(ValueSender::new(value, token))
    }

    /// A reply to a received chunk of a snapshot.
    pub fn new_receive_snapshot_chunk(
        value: Result<(), EngineError<C::NodeId, C::Node>>,
        token: Token,
    ) -> Self
        ensures { result ≡ Respond.ReceiveSnapshotChunk (record { value = value; token = token }) }
    {
        Respond::ReceiveSnapshotChunk(ValueSender::new(value, token))
    }

    /// A reply to a request to install a chunk of a snapshot.
    pub fn new_install_snapshot(
        value: Result<InstallSnapshotResponse<C::NodeId>, EngineError<C::NodeId, C::Node>>,
        token: Token,
    ) -> Self
        ensures { result ≡ Respond.InstallSnapshot (record { value = value; token = token }) }
    {
        Respond::InstallSnapshot(ValueSender::new(value, token))
    }

    /// A reply to the install of a whole snapshot.
    pub fn new_install_full_snapshot(value: SnapshotResponse<C::NodeId>, token: Token) -> Self
        ensures { result ≡ Respond.InstallFullSnapshot (record { value = value; token = token }) }
    {
        Respond::InstallFullSnapshot(ValueSender::new(value, token))
    }

    /// A reply to `initialize`.
    pub fn new_initialize(value: Result<(), EngineError<C::NodeId, C::Node>>, token: Token) -> Self
        ensures { result ≡ Respond.Initialize (record { value = value; token = token }) }
    {
        Respond::Initialize(ValueSender::new(value, token))
    }

    /// The token and the value.
    pub fn send(self) -> (Token, RespondValue<C>)
        ensures { result ≡ sent self }
    {
        match self {
            Respond::Vote(sender) => {
                let (token, value) = sender.send();
                (token, RespondValue::Vote(value))
            }
            Respond::AppendEntries(sender) => {
                let (token, value) = sender.send();
                (token, RespondValue::AppendEntries(value))
            }
            Respond::ReceiveSnapshotChunk(sender) => {
                let (token, value) = sender.send();
                (token, RespondValue::ReceiveSnapshotChunk(value))
            }
            Respond::InstallSnapshot(sender) => {
                let (token, value) = sender.send();
                (token, RespondValue::InstallSnapshot(value))
            }
            Respond::InstallFullSnapshot(sender) => {
                let (token, value) = sender.send();
                (token, RespondValue::InstallFullSnapshot(value))
            }
            Respond::Initialize(sender) => {
                let (token, value) = sender.send();
                (token, RespondValue::Initialize(value))
            }
        }
    }
}
