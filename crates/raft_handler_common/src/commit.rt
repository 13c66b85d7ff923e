//! Commits.

ghost use Rattle.std.specs.Prelude.{◌≡◌, ◌+◌, ◌^◌, ◌<◌, OnOk, [], ◌∷◌, Some, if◌then◌else◌};
ghost use Rattle.raft_command.specs.declared.command.Command.TheVariants.{ReplicateCommitted};
ghost use Rattle.raft_command.specs.Push.{committed_upto};
ghost use Rattle.raft_command.specs.Queue.{queued};
ghost use Rattle.raft_steps.specs.Parts.{core_of};
ghost use Rattle.raft_steps.specs.Commit.{commit_by};

use crate::snapshot_handler::snapshot_where_due;
use raft_command::{Command, EngineConfig, EngineOutput};
use raft_state::{LogId, RaftState, RaftTypeConfig};
use std::alloc::AllocError;

/// Commits up to an id, if it is above the committed one; on a leader, the commit is sent to the other nodes first.
#[tactic(auto, unfolding(raft_steps::specs::Commit::commit_by))]
pub fn commit_by<C: RaftTypeConfig>(
    config: &EngineConfig<C::NodeId>,
    state: &mut RaftState<C::NodeId, C::Node>,
    output: &mut EngineOutput<C>,
    leads: bool,
    upto: LogId<C::NodeId>,
) -> Result<(), AllocError>
    requires { output.old.seq + 2 < 2 ^ 64 }
    ensures { OnOk result (core_of state.new output.new
        ≡ commit_by C.NodeId.cmp config.now (if leads then ReplicateCommitted (Some upto) ∷ [] else []) (Some upto) (core_of state.old output.old)) }
{
    let Some(already_committed) = state.commit(&Some(upto))? else {
        return Ok(());
    };
    tell_commit(output, leads, already_committed, upto)?;
    snapshot_where_due(config, state, output)
}

/// Queues the commands of a commit; a leader's message to the other nodes first.
pub fn tell_commit<C: RaftTypeConfig>(
    output: &mut EngineOutput<C>,
    leads: bool,
    already_committed: Option<LogId<C::NodeId>>,
    upto: LogId<C::NodeId>,
) -> Result<(), AllocError>
    requires { output.old.seq + 1 < 2 ^ 64 }
    ensures { OnOk result (output.new
        ≡ committed_upto (queued output.old (if leads then ReplicateCommitted (Some upto) ∷ [] else [])) already_committed upto) }
{
    if leads {
        output.try_push(Command::ReplicateCommitted {
            committed: Some(upto),
        })?;
    }
    let seq = output.next_sm_seq();
    output.try_push(Command::Commit {
        seq,
        already_committed,
        upto,
    })
}
