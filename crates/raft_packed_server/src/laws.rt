//! What holds of a server's log as bytes.

ghost use Rattle.raft_packed_server.specs.Checkpoints.{NewLogsAreGivenUp, NewLogsGoOn, NewLogsTakeOver};
ghost use Rattle.raft_packed_server.specs.Laws.{OpensAfterCuts, OpensAfterZeros, WritesLog, WritesNextLog};

use raft_packed_wire::raft_packed::Machine;

/// The bytes that a server hands out make of its file the file of the model's server whose records of these steps are
/// on disk. So what `proof_logs` promises of such files, whatever a crash leaves of them, holds of this server's. So do those for a
/// new log that is on its way, of its file.
pub fn writes_go_on_with_the_log<M: Machine>()
    ensures log { WritesLog M.application M.codec }
    ensures next { WritesNextLog M.application M.codec }
{}

/// A server that is opened on what a crash left of its file stands for the model's server after that crash: with all
/// records of the frame that was being written, or with none. Its next bytes go behind what is kept of the file.
pub fn opens_after_a_crash<M: Machine>()
    ensures cut { OpensAfterCuts M.application M.codec }
    ensures filled { OpensAfterZeros M.application M.codec }
{}

/// A server goes on with a new log, and with the old one meanwhile: it stands for the model's server whose disk the new log makes, too, and its
/// next bytes go behind both. That server does what it would with its old disk (`proof_packed_servers::servers_go_on_from_checkpoints`,
/// `clusters_stay_alike`). Once the new log has the old one's place, the server goes on at its end.
pub fn new_logs_go_on<M: Machine>()
    ensures begun { NewLogsGoOn M.application M.codec }
    ensures take_over { NewLogsTakeOver M.application M.codec }
    ensures given_up { NewLogsAreGivenUp M.application M.codec }
{}
