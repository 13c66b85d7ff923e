//! What a connection answers itself, and how it is written.

ghost use Rattle.std.specs.Prelude.{◌≡◌, ◌++◌, IfOk, OnOk};
ghost use Rattle.raft_connection.specs.Responses.{status_text, version_of, server_bytes, client_bytes, greeting_bytes, response_bytes};
ghost use Rattle.raft_connection.specs.Refusals.{refusal_bytes};
ghost use Rattle.raft_resp.specs.Replies.{bulk};

use crate::refusal::Refusal;
use raft_machine::Reply;
use raft_resp::{
    Protocol, write_array, write_bulk, write_error, write_integer, write_map, write_null,
    write_reply, write_simple,
};
use raft_state::Items;
use std::alloc::{AllocError, Global};

/// A short answer.
#[derive(Clone, Copy, Debug, PartialEq, Eq)]
pub(crate) enum Status {
    Done,
    Pong,
    Queued,
    Reset,
}

/// What a connection answers itself.
#[derive(Debug, Drop)]
pub(crate) enum Response {
    Status(Status),
    Bytes(Items<u8>),
    Nothing,
    Number(u64),
    /// An array of nothing.
    NoItems,
    /// A map of nothing.
    NoPairs,
    /// HELLO's answer to the client of the connection of this number.
    Greeting(u64),
    Refused(Refusal),
}

impl Status {
    fn text(self) -> &'static str
        ensures { result.now ≡ status_text self }
    {
        match self {
            Status::Done => "OK",
            Status::Pong => "PONG",
            Status::Queued => "QUEUED",
            Status::Reset => "RESET",
        }
    }
}

/// The number of a version.
fn version_of(protocol: Protocol) -> i64
    ensures { result ≡ version_of protocol }
{
    match protocol {
        Protocol::Resp2 => 2,
        Protocol::Resp3 => 3,
    }
}

/// A key and its value.
fn write_pair(out: &mut Vec<u8>, key: &str, value: &str) -> Result<(), AllocError>
    ensures { OnOk result (out.new.items ≡ out.old.items ++ (bulk key.now ++ bulk value.now)) }
{
    write_bulk(out, key.as_bytes())?;
    write_bulk(out, value.as_bytes())
}

/// What HELLO says of the server.
fn write_server(out: &mut Vec<u8>) -> Result<(), AllocError>
    ensures { OnOk result (out.new.items ≡ out.old.items ++ server_bytes) }
{
    write_pair(out, "server", "redis")?;
    write_pair(out, "version", "7.0.15")
}

/// What HELLO says of the connection.
fn write_client(out: &mut Vec<u8>, protocol: Protocol, id: u64) -> Result<(), AllocError>
    ensures { OnOk result (out.new.items ≡ out.old.items ++ client_bytes protocol id) }
{
    write_bulk(out, b"proto")?;
    write_integer(out, version_of(protocol))?;
    write_bulk(out, b"id")?;
    write_reply(out, protocol, &Reply::Count(id))
}

/// HELLO's answer.
fn write_greeting(out: &mut Vec<u8>, protocol: Protocol, id: u64) -> Result<(), AllocError>
    ensures { OnOk result (out.new.items ≡ out.old.items ++ greeting_bytes protocol id) }
{
    write_map(out, protocol, 7)?;
    write_server(out)?;
    write_client(out, protocol, id)?;
    write_pair(out, "mode", "standalone")?;
    write_pair(out, "role", "master")?;
    write_bulk(out, b"modules")?;
    write_array(out, 0)
}

/// An error.
fn write_refusal(out: &mut Vec<u8>, alloc: Global, refusal: &Refusal) -> Result<(), AllocError>
    ensures { OnOk result (out.new.items ≡ out.old.items ++ refusal_bytes refusal.now) }
{
    let text = refusal.text(alloc)?;
    write_error(out, text.as_slice())
}

fn write_response(
    out: &mut Vec<u8>,
    alloc: Global,
    protocol: Protocol,
    response: &Response,
) -> Result<(), AllocError>
    ensures { OnOk result (out.new.items ≡ out.old.items ++ response_bytes protocol response.now) }
{
    match response {
        Response::Status(status) => write_simple(out, status.text().as_bytes()),
        Response::Bytes(bytes) => write_bulk(out, bytes.as_slice()),
        Response::Nothing => write_null(out, protocol),
        Response::Number(number) => write_reply(out, protocol, &Reply::Count(*number)),
        Response::NoItems => write_array(out, 0),
        Response::NoPairs => write_map(out, protocol, 0),
        Response::Greeting(id) => write_greeting(out, protocol, *id),
        Response::Refused(refusal) => write_refusal(out, alloc, refusal),
    }
}

/// A response's bytes.
pub(crate) fn response_bytes(
    alloc: Global,
    protocol: Protocol,
    response: &Response,
) -> Result<Items<u8>, AllocError>
    ensures { IfOk result (λ bytes. bytes ≡ response_bytes protocol response.now) }
{
    let mut out = Vec::new(alloc);
    write_response(&mut out, alloc, protocol, response)?;
    Ok(Items::from_vec(out))
}
