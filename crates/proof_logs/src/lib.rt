//! The logs of servers as bytes: from the records that servers leave on disk to the bytes of their files, and back after a crash.
//! Definitions and proofs, on functions that do nothing.
#![tactic(auto)]

ghost use Rattle.proof_logs.specs.FileLaws.{FilesAgree, FilesFollow, FilesOpen};
ghost use Rattle.proof_logs.specs.Laws.{LogsReadBack, LogsRestore, LogsRestoreFilled, LogsTellDamage, RecordsStand};

/// What is written to a server's log is read: each record once, in its order (`back`). What is read stands there as it is
/// written (`stand`).
pub fn logs_hold()
    ensures back { LogsReadBack }
    ensures stand { RecordsStand }
{}

/// A server that starts on what a crash left of its log has crashed in the sense of
/// `servers_follow`, with all records on disk of the batch that was being written, or with none:
/// so all that holds of servers holds of it. A crash may cut the file at any byte that isn't on disk yet (`cut`), and may leave
/// zeros behind the cut (`filled`), unless what was cut off and filled has the right sum by chance.
pub fn logs_restore()
    ensures cut { LogsRestore }
    ensures filled { LogsRestoreFilled }
{}

/// Another byte in a batch that isn't the last is told, and no record behind it is taken.
pub fn damage_is_told()
    ensures { LogsTellDamage }
{}

/// Servers whose disks are files of bytes do what servers do: whatever they do, and wherever a crash cuts a file, servers without
/// files do the same, and the same leaves them (`follow`). So all that holds of servers holds of them, as that what has left them
/// as executed or installed agrees (`agree`). After each crash a server can read its file (`open`).
///
/// This takes for granted that what was synced stays, that a crash leaves of the frame that is being written some bytes of its
/// front and maybe zeros behind them, and that such zeros don't have the right sum by chance.
pub fn servers_with_files_follow()
    ensures follow { FilesFollow }
    ensures agree { FilesAgree }
    ensures open { FilesOpen }
{}
