//! What the commands of a step change on disk, as bytes.

ghost use Rattle.std.specs.Prelude.{◌≡◌};
ghost use Rattle.std.specs.Option.{option_copied, option_to_list};
ghost use Rattle.raft_packed_wire.specs.Records.{WritesPackedChanges, meta_installed, packed_change_of};
ghost use Rattle.raft_packed_wire.specs.Values.{kept};

use crate::record::write_install;
use raft_command::Command;
use raft_command::sm::CommandPayload;
use raft_packed_node::raft_packed::{Machine, Packed};
use raft_state::SnapshotMeta;
use raft_store::WorldConfig;
use std::alloc::AllocError;

/// The meta of the snapshot that a command installs, if it does.
fn installed(command: &Command<WorldConfig>) -> Option<&SnapshotMeta<u64, ()>>
    ensures { option_copied result ≡ meta_installed command.now }
{
    match command {
        Command::StateMachine { command } => match &command.payload {
            CommandPayload::InstallFullSnapshot { snapshot } => Some(&snapshot.meta),
            _ => None,
        },
        _ => None,
    }
}

/// Appends what a command changes on disk, if anything: `raft_wire::is_change` says whether. A snapshot that it installs is the one that
/// the message brought. It copies no entries.
pub fn write_change<M: Machine>(
    out: &mut Vec<u8>,
    command: &Command<WorldConfig>,
    brought: &Packed<M>,
) -> Result<(), AllocError>
    ensures { WritesPackedChanges (kept M.codec) (option_to_list (packed_change_of brought.now command.now)) result out.old.items out.new.items }
{
    match installed(command) {
        Some(meta) => write_install(out, meta, brought),
        None => raft_wire::write_change(out, command),
    }
}
