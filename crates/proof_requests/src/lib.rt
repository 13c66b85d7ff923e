//! What a `RaftCore` answers to its clients is what `proof_answers` calls an answer; so what clients of such servers see is
//! linearizable, whatever the state machine whose states are its snapshots. Definitions and proofs, on functions that do nothing.
#![tactic(auto)]

ghost use Rattle.proof_clients.specs.Objects.{Object};
ghost use Rattle.proof_requests.specs.Clients.{CoresSeeOne, StayBeside};
ghost use Rattle.proof_requests.specs.Laws.{RequestsAreKept};
ghost use Rattle.proof_requests.specs.ReadLaws.{ReadsAreKept};

pub use raft_core;
use raft_core::raft_packed::Machine;
pub use raft_core::raft_packed_server;

/// Each call of a server keeps its requests beside the servers of the model, which it stands for, packed: one that was proposed
/// waits for an entry that the server proposed since it came, a write for its own, and the server hasn't crashed in between. What
/// leaves is true: `Ok` with the entry that the request waited for, by a flush of the model; `Failed` if nothing was proposed for
/// it, or if a server has told of another entry at its index. `Unknown` promises nothing.
///
/// This takes for granted what `servers_follow` does, and that a frame that is received has left a server, as have the snapshots that are
/// encoded, and those that go out and come in parts (`IsMoving`).
pub fn requests_are_kept<M: Machine>()
    ensures { RequestsAreKept M.application M.codec }
{}

/// So it keeps the reads that need no entry: one step asks the node for all that wait, and they are told an index only once the
/// read is done by the rule (`IsReadDone`). Any other answer promises nothing: a read has no effect.
///
/// This takes for granted what `requests_are_kept` does.
pub fn reads_are_kept<M: Machine>()
    ensures { ReadsAreKept M.application M.codec }
{}

/// Servers and their clients stay beside the model, from no requests on, whatever calls are made at any of them. Frames come
/// late, again, or never. A server begins a new log, which takes the old one's place, or is given up. It stops after an error, and
/// starts on what a crash left of its file, cut at any byte behind what was synced; its requests get no answer then. Its file, old or
/// new, makes the disk of the model's server, but for what no start reads.
pub fn clients_stay_beside<M: Machine>()
    ensures { StayBeside M.application M.codec }
{}

/// What clients of such servers asked and were told is a history on a replicated object, and linearizable (Herlihy and Wing),
/// whatever the object. A write that was answered by `Ok` returned with what the object answers after all entries below its own; a
/// read, with what it answers after the entry that it waited for, or, if it needs none, after all that its server has handed out,
/// whatever it asks for; both before the answer left. A write that was answered by `Failed` or `NotLeader` never takes effect, and
/// no other value does than what clients wrote, and markers.
///
/// Not said: that any request is answered; what became of one that was answered by `Unknown`, or not at all; and that a client's
/// result is the object's, which its state machine has to do with what is executed.
pub fn clients_see_one_object<M: Machine, S, R>()
    ensures { (object : Object S R) → CoresSeeOne M.application M.codec object }
{}
