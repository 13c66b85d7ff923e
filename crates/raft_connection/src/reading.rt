//! Requests at the front of what was received.

ghost use Rattle.std.specs.Prelude.{◌≡◌, IfOk};
ghost use Rattle.raft_resp.specs.Reading.{texts};
ghost use Rattle.raft_resp.specs.Requests.{request_at};
ghost use Rattle.raft_connection.specs.Reading.{Reads};

use raft_resp::{Fault, Limits, RequestError, read_request};
use raft_state::Items;
use std::alloc::{AllocError, Global};

/// What stands at the front of a client's bytes.
#[derive(Debug, Drop)]
pub(crate) enum Front {
    /// More bytes have to come.
    Unfinished,
    /// What is no request.
    Malformed(Fault),
    /// A request's words, and how many bytes stand behind it.
    Request(Items<Items<u8>>, usize),
}

/// Copies of words.
fn copies(alloc: Global, words: &[&[u8]]) -> Result<Items<Items<u8>>, AllocError>
    ensures { IfOk result (λ copied. copied ≡ texts words.now) }
{
    let mut copied = Vec::with_capacity(alloc, words.len())?;
    for word in words {
        copied.push(Items::from_vec(Vec::from_slice(alloc, word)?))?;
    }
    Ok(Items::from_vec(copied))
}

/// What stands at the front.
pub(crate) fn front_of(alloc: Global, limits: &Limits, bytes: &[u8]) -> Result<Front, AllocError>
    ensures { IfOk result (λ front. Reads bytes.now front (request_at limits.now bytes.now)) }
{
    match read_request(alloc, limits, bytes) {
        Ok(Some(request)) => {
            let words = copies(alloc, &request.words)?;
            Ok(Front::Request(words, request.rest.len()))
        }
        Ok(None) => Ok(Front::Unfinished),
        Err(RequestError::OutOfMemory) => Err(AllocError),
        Err(RequestError::Protocol(fault)) => Ok(Front::Malformed(fault)),
    }
}
