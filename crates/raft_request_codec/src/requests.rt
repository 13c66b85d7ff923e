//! Requests as bytes.

ghost use Rattle.std.specs.Prelude.{◌≡◌, IfOk};
ghost use Rattle.raft_codec.specs.Codec.{FindsWhole, Reads, Writes};
ghost use Rattle.raft_request_codec.specs.Requests.{request};

use crate::form::{Form, read_items, write_items};
use raft_codec::{DecodeError, Fault, Reader, write_number};
use raft_machine::{Request, Session};
use raft_state::Items;
use std::alloc::{AllocError, Global};

/// The version of a request's form.
const VERSION: u8 = 1;

/// For how many bytes there is room from the start: a request of few keys has no more.
const ROOM: usize = 256;

/// A client's number, and its request's.
#[tactic(auto, unfolding(crate::specs::Requests::session))]
impl Form for Session {
    ghost use Rattle.raft_request_codec.specs.Requests.{session};

    ghost codec = { session };

    fn write(&self, out: &mut Vec<u8>) -> Result<(), AllocError> {
        write_number(out, self.id)?;
        write_number(out, self.number)
    }

    fn read(reader: &mut Reader<'_>) -> Result<Session, DecodeError> {
        let id = reader.number()?;
        let number = reader.number()?;
        Ok(Session { id, number })
    }
}

#[tactic(auto, unfolding(crate::specs::Requests::request, crate::specs::Requests::parts))]
fn write_request(out: &mut Vec<u8>, given: &Request) -> Result<(), AllocError>
    ensures { Writes request given.now result out.old.items out.new.items }
{
    out.push(VERSION)?;
    given.session.write(out)?;
    write_number(out, given.moment)?;
    write_items(out, given.commands.as_slice())
}

#[tactic(auto, unfolding(crate::specs::Requests::request, crate::specs::Requests::parts))]
fn read_request(reader: &mut Reader<'_>) -> Result<Request, DecodeError>
    ensures { Reads request result reader.old reader.new }
{
    let left = reader.left();
    if reader.tag()? != VERSION {
        return Err(DecodeError::Malformed {
            fault: Fault::UnknownVersion,
            left,
        });
    }
    let session = Option::<Session>::read(reader)?;
    let moment = reader.number()?;
    let commands = read_items(reader)?;
    Ok(Request {
        session,
        moment,
        commands,
    })
}

/// The bytes of a request.
pub fn encode_request(alloc: Global, given: &Request) -> Result<Items<u8>, AllocError>
    ensures { IfOk result (λ bytes. request.fits given.now × (bytes ≡ request.bytes given.now)) }
{
    let mut out = Vec::with_capacity(alloc, ROOM)?;
    write_request(&mut out, given)?;
    Ok(Items::from_vec(out))
}

/// The request whose bytes these are, all of them. It takes memory in proportion to them, whatever numbers they claim.
///
/// Refuses by what is wrong, and how many bytes are left from where it begins:
///
/// - bytes that end early, a number that isn't in its shortest form or is 2^64 or more, an unknown tag
/// - another version of the form
/// - bytes that follow the request
pub fn decode_request(alloc: Global, bytes: &[u8]) -> Result<Request, DecodeError>
    ensures { FindsWhole (λ r. r) result request bytes.now }
{
    let mut reader = Reader::new(alloc, bytes);
    let found = read_request(&mut reader)?;
    reader.end()?;
    Ok(found)
}
