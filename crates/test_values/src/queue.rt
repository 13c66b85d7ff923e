//! The end of the queue's numbers, which no public call reaches.

ghost use Rattle.std.specs.Prelude.{◌≡◌, ◌-◌, ◌^◌};

use raft_command::EngineOutput;
use raft_state::RaftTypeConfig;

/// A queue whose last number is the one before the greatest gives out the greatest. This is proved, of every queue, and
/// isn't run.
fn the_greatest_number_is_given_out<C: RaftTypeConfig>(output: &mut EngineOutput<C>) -> (u64, u64)
    requires { output.old.seq ≡ 2 ^ 64 - 2 }
    ensures given { result.0 ≡ 2 ^ 64 - 1 }
    ensures last { result.1 ≡ 2 ^ 64 - 1 }
{
    (output.next_sm_seq(), output.last_sm_seq())
}
