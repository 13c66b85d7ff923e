//! What a call says of its refusal.

ghost use Rattle.std.specs.Prelude.{◌≡◌};
ghost use Rattle.raft_calls.specs.Refusal.{refusal_of};

use raft_error::EngineError;
use std::alloc::AllocError;

/// The number of the refusal, if any, of a call that ended so.
pub(crate) fn refusal_of<T: Drop>(
    ended: Result<T, EngineError<u64, ()>>,
) -> Result<Option<u8>, AllocError>
    ensures { result ≡ refusal_of ended }
{
    match ended {
        Ok(_) => Ok(None),
        Err(EngineError::OutOfMemory) => Err(AllocError),
        Err(refusal) => Ok(Some(refusal.number())),
    }
}
