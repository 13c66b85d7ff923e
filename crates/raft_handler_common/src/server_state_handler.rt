//! The role of a node.

ghost use Rattle.std.specs.Prelude.{◌≡◌, OnOk};
ghost use Rattle.raft_command.specs.Ends.{Ends, refusals_of_spent};
ghost use Rattle.raft_handler_common.specs.Handlers.{SameServerStateBorrows, view_of_server_state};
ghost use Rattle.raft_steps.specs.Invariants.{StaysSound};
ghost use Rattle.raft_steps.specs.Parts.{core_of};
ghost use Rattle.raft_steps.specs.ServerStateHandler.{update_role};

use raft_command::{Command, EngineConfig, EngineOutput};
use raft_error::EngineError;
use raft_state::{RaftState, RaftTypeConfig, ServerState};
use std::alloc::AllocError;

/// Keeps a node's role up to date (openraft's `ServerStateHandler`).
#[derive(Drop)]
pub struct ServerStateHandler<'x, C: RaftTypeConfig> {
    pub config: &'x EngineConfig<C::NodeId>,
    pub state: &'x mut RaftState<C::NodeId, C::Node>,
    pub output: &'x mut EngineOutput<C>,
}

impl<C: RaftTypeConfig> ServerStateHandler<'_, C> {
    /// Gives the node the role of its vote and effective membership, and queues a command if it becomes or quits
    /// leader.
    ///
    /// Refusal: `Spent` after `OutOfMemory`. Source: openraft's `update_server_state_if_changed`.
    pub fn update_server_state_if_changed(&mut self) -> Result<(), EngineError<C::NodeId, C::Node>>
        ensures borrows { SameServerStateBorrows self.old self.new }
        ensures step { Ends (refusals_of_spent self.old.output.now) result self.new.output.now
            (λ _. view_of_server_state self.new ≡ update_role C.NodeId.cmp self.old.config.now (view_of_server_state self.old))
            (view_of_server_state self.old) (view_of_server_state self.new) }
        ensures sound { StaysSound C.NodeId.cmp self.old.config.now (view_of_server_state self.old) (view_of_server_state self.new) }
    {
        if self.output.is_spent() {
            return Err(EngineError::Spent);
        }
        let done = update_role(self.config, self.state, self.output);
        self.output.settle(done)
    }
}

/// Gives the node the role of its vote and effective membership.
#[tactic(auto, unfolding(raft_steps::specs::ServerStateHandler::update_role))]
pub fn update_role<C: RaftTypeConfig>(
    config: &EngineConfig<C::NodeId>,
    state: &mut RaftState<C::NodeId, C::Node>,
    output: &mut EngineOutput<C>,
) -> Result<(), AllocError>
    ensures others { OnOk result (state.new ≡ record state.old { role = state.new.role }) }
    ensures step { OnOk result (core_of state.new output.new ≡ update_role C.NodeId.cmp config.now (core_of state.old output.old)) }
{
    let role = state.calc_server_state(&config.id);
    if role != state.role {
        if role == ServerState::Leader {
            output.try_push(Command::BecomeLeader)?;
        } else if state.role == ServerState::Leader {
            output.try_push(Command::QuitLeader)?;
        }
        state.role = role;
    }
    Ok(())
}
