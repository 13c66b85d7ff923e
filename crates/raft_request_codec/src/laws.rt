//! What is promised of the form.

ghost use Rattle.raft_codec.specs.Codec.{IsCodec};
ghost use Rattle.raft_request_codec.specs.Requests.{request};

/// A request is read back from its bytes, whatever follows them, and what is read stood there so.
pub fn requests_are_read_back()
    ensures { IsCodec request }
{}
