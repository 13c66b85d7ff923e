//! Servers with disks follow a world: they run ahead of their disks, hold back what they say until it is on disk, and lose in
//! a crash what isn't (Raft paper, figure 2: persistent state is on stable storage before a server responds). So group
//! commit is sound, and a step that changes nothing on disk costs no record. Definitions and proofs, on functions that do
//! nothing.
#![tactic(auto)]

ghost use Rattle.proof_servers.specs.Laws.{Frames, InOrder, ServersAgree, ServersAhead, ServersFollow, ServersRest};

/// Whatever servers do, and whenever they crash, some events of a world make what they have on disk and all that left them
/// (`follow`), and each server's node is its node in that world after some more events (`ahead`): the steps that aren't on
/// disk. So what is promised of worlds holds of what clients and other servers were told.
///
/// This takes for granted that what is on disk stays, that a crash leaves each record whole or not at all, and none without
/// those before it, and that messages come from servers of one first membership and the same settings. Clocks may go back over
/// a crash: a start goes on from the moment up to which the last record on disk reserves them. It says nothing of how records
/// and messages are written as bytes, and not that anything is ever executed.
pub fn servers_follow()
    ensures follow { ServersFollow }
    ensures ahead { ServersAhead }
{}

/// State machine safety of servers (Raft paper, section 5.4.3): of all entries that left servers as executed or installed,
/// those of one index are the same entry, whatever was lost in crashes (`agree`). Each server's node is at rest between two
/// steps: its engine is sound, and so would be one that starts on its store (`rest`).
///
/// Of entries that were executed and not told nothing is said: a crash may lose them, and others take their indexes.
pub fn servers_agree()
    ensures agree { ServersAgree }
    ensures rest { ServersRest }
{}

/// An event at a node does the same whatever was recorded before it, and whatever records keep of whole logs: the outcome, the
/// node after it, and what it adds to the records. So a server needs no record of what it has said.
pub fn events_frame<L, M>()
    ensures { Frames L M }
{}

/// In each run of a world an entry that is executed stands above all that were executed before, if it wasn't executed before
/// itself, and if each index below those had an entry that was executed or installed. So entries stand in an order that
/// linearizability asks for. That servers meet the two conditions is not shown here.
pub fn worlds_execute_in_order()
    ensures { InOrder }
{}
