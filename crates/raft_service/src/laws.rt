//! What is promised of a service.

ghost use Rattle.raft_service.specs.Laws.{MachineIsWhatIsExecuted, QuestionsWaitForReplies, RequestsKeepTheirOrder};

/// The state machine is what executing the server's entries, in their order, makes of it, and nothing else changes it. A snapshot
/// stands for entries from the first one on: once it is put in place, it is as if these were executed.
pub fn machine_is_what_is_executed()
    ensures { MachineIsWhatIsExecuted }
{}

/// A question waits for each request of the server that has no answer, in their order, and one for each of its reads. So each reply
/// of the server is a question's, and each question is answered at most once.
pub fn questions_wait_for_replies()
    ensures { QuestionsWaitForReplies }
{}

/// A client's requests keep their order: while a query of a client is asked by a round, which may overtake what is in the log, the
/// client has no other request on its way.
pub fn requests_keep_their_order()
    ensures { RequestsKeepTheirOrder }
{}
