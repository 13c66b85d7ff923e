//! What is promised of connections, on functions that do nothing.

ghost use Rattle.raft_connection.specs.Laws.{StepsTakePieces, NothingIsHandedOutBefore, HandedOutWaits, AnsweredOnce, StaysAnswered};
ghost use Rattle.raft_connection.specs.Laws.{RepliesLeaveInOrder};

/// What comes of a client's bytes doesn't depend on the pieces in which they come: a step that reads a request comes to the same if
/// more bytes are there already.
pub fn steps_take_pieces()
    ensures { StepsTakePieces }
{}

/// Nothing is handed out before a client has authenticated itself, if it must.
pub fn nothing_is_handed_out_before()
    ensures { NothingIsHandedOutBefore }
{}

/// A request that is handed out waits for its answer, by its number.
pub fn handed_out_waits()
    ensures { HandedOutWaits }
{}

/// A request is answered once: another answer to it is refused, also once answers were taken.
pub fn answered_once()
    ensures at_once { AnsweredOnce }
    ensures later { StaysAnswered }
{}

/// Replies leave in the order of requests, whenever they are taken.
pub fn replies_leave_in_order()
    ensures { RepliesLeaveInOrder }
{}
