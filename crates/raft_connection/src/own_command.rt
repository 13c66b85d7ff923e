//! The commands that a connection answers itself.

ghost use Rattle.std.specs.Prelude.{◌≡◌, find};
ghost use Rattle.raft_connection.specs.OwnCommands.{text_of, own_command, is_named, is_open_to_all, is_of_transactions};

use crate::words::is_same_word;

/// A command, or a subcommand, that a connection answers itself.
#[derive(Clone, Copy, Debug, PartialEq, Eq)]
pub(crate) enum OwnCommand {
    Auth,
    Client,
    ClientGetName,
    ClientId,
    ClientNoEvict,
    ClientNoTouch,
    ClientSetInfo,
    ClientSetName,
    Command,
    CommandCount,
    Config,
    ConfigGet,
    Discard,
    Echo,
    Exec,
    Hello,
    Info,
    Multi,
    /// ONCE: no command of Redis. Runs a request once, however often it comes.
    Once,
    Ping,
    Quit,
    Reset,
    Select,
    Unwatch,
    Watch,
}

/// Each command that isn't a subcommand.
const COMMANDS: [OwnCommand; 17] = [
    OwnCommand::Auth,
    OwnCommand::Client,
    OwnCommand::Command,
    OwnCommand::Config,
    OwnCommand::Discard,
    OwnCommand::Echo,
    OwnCommand::Exec,
    OwnCommand::Hello,
    OwnCommand::Info,
    OwnCommand::Multi,
    OwnCommand::Once,
    OwnCommand::Ping,
    OwnCommand::Quit,
    OwnCommand::Reset,
    OwnCommand::Select,
    OwnCommand::Unwatch,
    OwnCommand::Watch,
];

/// The first of these commands whose name a word is, in any case.
fn find_named(commands: &[OwnCommand], word: &[u8]) -> Option<OwnCommand>
    ensures { result ≡ find (is_named word.now) commands.now }
{
    for command in commands {
        if is_same_word(command.text().as_bytes(), word) {
            return Some(*command);
        }
    }
    None
}

impl OwnCommand {
    /// The name as errors write it.
    pub(crate) fn text(self) -> &'static str
        ensures { result.now ≡ text_of self }
    {
        match self {
            OwnCommand::Auth => "auth",
            OwnCommand::Client => "client",
            OwnCommand::ClientGetName => "client|getname",
            OwnCommand::ClientId => "client|id",
            OwnCommand::ClientNoEvict => "client|no-evict",
            OwnCommand::ClientNoTouch => "client|no-touch",
            OwnCommand::ClientSetInfo => "client|setinfo",
            OwnCommand::ClientSetName => "client|setname",
            OwnCommand::Command => "command",
            OwnCommand::CommandCount => "command|count",
            OwnCommand::Config => "config",
            OwnCommand::ConfigGet => "config|get",
            OwnCommand::Discard => "discard",
            OwnCommand::Echo => "echo",
            OwnCommand::Exec => "exec",
            OwnCommand::Hello => "hello",
            OwnCommand::Info => "info",
            OwnCommand::Multi => "multi",
            OwnCommand::Once => "once",
            OwnCommand::Ping => "ping",
            OwnCommand::Quit => "quit",
            OwnCommand::Reset => "reset",
            OwnCommand::Select => "select",
            OwnCommand::Unwatch => "unwatch",
            OwnCommand::Watch => "watch",
        }
    }

    /// The command whose name a word is, in any case.
    #[tactic(auto, unfolding(crate::specs::OwnCommands::own_command))]
    pub(crate) fn of(word: &[u8]) -> Option<Self>
        ensures { result ≡ own_command word.now }
    {
        find_named(&COMMANDS, word)
    }

    /// Whether a client may send it before it has authenticated itself (Redis, `CMD_NO_AUTH`).
    pub(crate) fn is_open_to_all(self) -> bool
        ensures { result ≡ is_open_to_all self }
    {
        match self {
            OwnCommand::Auth | OwnCommand::Hello | OwnCommand::Quit | OwnCommand::Reset => true,
            _ => false,
        }
    }

    /// Whether it is run within a transaction, and not queued (Redis, `processCommand`).
    pub(crate) fn is_of_transactions(self) -> bool
        ensures { result ≡ is_of_transactions self }
    {
        match self {
            OwnCommand::Discard
            | OwnCommand::Exec
            | OwnCommand::Multi
            | OwnCommand::Once
            | OwnCommand::Quit
            | OwnCommand::Reset
            | OwnCommand::Watch => true,
            _ => false,
        }
    }
}
