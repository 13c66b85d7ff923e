//! What is promised of requests, on functions that do nothing.

ghost use Rattle.raft_resp.specs.Written.{RequestsAreRead, RequestsComeInPieces};

/// A request that is written as an array of words is read as these words, whatever follows it, if it is within the limits.
pub fn requests_are_read()
    ensures { RequestsAreRead }
{}

/// What is read doesn't depend on the pieces in which a client's bytes come: once a request, or what is wrong, is found,
/// more bytes behind it change nothing.
pub fn requests_come_in_pieces()
    ensures { RequestsComeInPieces }
{}
