//! A run that is watched, command by command.

ghost use Rattle.std.specs.Prelude.{◌≡◌, OnOk};
ghost use Rattle.raft_store.specs.Types.{WorldCommand};

use raft_calls::raft_engine::Engine;
use raft_command::Command;
use raft_store::WorldConfig;
use std::alloc::AllocError;

/// Watches each command of a run just before it is executed. It changes nothing of the run, unless it runs out of
/// memory: then the run does too, and nothing is promised of what was seen.
pub trait Watch<R> {
    // What is told of the commands that were seen.
    ghost Seen: { Type 0 };

    // What it tells of those that it has seen.
    ghost seen: { Self → Seen };

    // What it tells once it has seen one more.
    ghost sees: { Seen → WorldCommand → Seen };

    /// The command that comes first in this engine's queue, and the records so far.
    fn see(
        &mut self,
        engine: &Engine<WorldConfig>,
        command: &Command<WorldConfig>,
        records: &R,
    ) -> Result<(), AllocError>
        ensures { OnOk result (seen self.new ≡ sees (seen self.old) command.now) };
}

/// Nobody watches.
#[derive(Clone, Copy, Debug)]
pub struct Unwatched;

impl<R> Watch<R> for Unwatched {
    ghost Seen = { Unit {0} };

    ghost seen = { λ _. tt };

    ghost sees = { λ _ _. tt };

    fn see(
        &mut self,
        _engine: &Engine<WorldConfig>,
        _command: &Command<WorldConfig>,
        _records: &R,
    ) -> Result<(), AllocError> {
        Ok(())
    }
}
