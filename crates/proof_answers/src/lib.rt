//! What clients of servers see is linearizable: of servers with disks, that answer once an answer's record is on disk, and crash.
//! Definitions and proofs, on functions that do nothing.
#![tactic(auto)]

ghost use Rattle.proof_clients.specs.Objects.{Object};
ghost use Rattle.proof_answers.specs.Laws.{OfAllActions, SeeOne, TellExecuted, TellInOrder, TellProposed};

/// Each history of the clients of servers, on a replicated object, is linearizable (Herlihy and Wing), whatever the object and
/// whatever is lost in crashes.
///
/// An update returns once the server that proposed it has executed the entry with its id, in the same start, and that step is on
/// disk: also if the server leads no more. A query goes through the log, by a marker that its server proposes once it has come:
/// it is answered behind that, and several may share one. Or it is answered by the rule, without an entry (Raft paper, section 8):
/// once it has come, its server, which leads, notes the log id up to which it has to wait; it hears from a quorum, joint groups
/// included, in reply to requests that it sent at later moments, none of which tells a higher vote; and it has told of what its
/// state machine has taken, up to that id at least. An update has failed if some server has told of another entry at its index; it
/// never takes effect then. What neither returned nor failed may have taken effect or not.
///
/// This takes for granted what `servers_follow` does, and of a server that reads by the rule that it starts bare alone, as after
/// a crash. It doesn't say that any operation returns.
pub fn servers_see_one_object<S, R>()
    ensures { (object : Object S R) → OfAllActions (SeeOne object) }
{}

/// What leaves a server as executed, by a flush, its state machine had taken in that step, or in that start after a crash, at
/// the entry's index (`executed`). Each value that a server has told of was proposed by an earlier action (`proposed`), and stands
/// below each that is proposed later and then executed (`order`).
pub fn servers_tell_in_order()
    ensures executed { OfAllActions TellExecuted }
    ensures proposed { OfAllActions TellProposed }
    ensures order { OfAllActions TellInOrder }
{}
