//! What holds of all answers.

ghost use Rattle.raft_answers.specs.Laws.{AnswersAreTrue, EachIsAnsweredOnce};

/// Each call answers the first of the requests without an answer, one each and in their order, and leaves the others: so each
/// request is answered at most once, and after it came.
pub fn each_request_is_answered_once()
    ensures { EachIsAnsweredOnce }
{}

/// `Ok` is answered only to a request whose own entry, by leader and index, was executed; of a proposed one, `Failed` only if
/// another entry was executed at its index.
pub fn answers_are_true()
    ensures { AnswersAreTrue }
{}
