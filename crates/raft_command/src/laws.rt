//! Laws of the queue.

ghost use Rattle.std.specs.Prelude.{◌≡◌};
ghost use Rattle.raft_command.specs.Ends.{Ends, refusals_of_spent};

use crate::command::Command;
use crate::output::EngineOutput;
use raft_progress_entry::raft_error::EngineError;
use raft_progress_entry::raft_state::RaftTypeConfig;

/// A command that is put back in front is popped first, and the queue is then as it was.
pub fn take_postponed<C: RaftTypeConfig>(
    output: &mut EngineOutput<C>,
    command: Command<C>,
) -> Result<Option<Command<C>>, EngineError<C::NodeId, C::Node>>
    ensures { Ends (refusals_of_spent output.old) result output.new (λ taken. (taken ≡ Some command) × (output.new ≡ output.old)) output.old output.new }
{
    output.postpone_command(command)?;
    Ok(output.pop_command())
}
