//! Replies as bytes. Each function appends to what is to be sent; if memory runs out, part of the reply may stand there.

ghost use Rattle.std.specs.Prelude.{◌≡◌, ◌++◌, ◌∷◌, OnOk};
ghost use Rattle.std.specs.Fmt.{decimal};
ghost use Rattle.std.specs.List.{flat_map};
ghost use Rattle.raft_resp.specs.Replies.{array, bulk, count, end, error, integer, line, map_of, null, on_one_line, page_bytes};
ghost use Rattle.raft_resp.specs.Replies.{reply_bytes, simple, value_bytes};

use itoa::Buffer;
use raft_machine::{Items, Page, Reply};
use std::alloc::AllocError;

/// The version that a client speaks: 2, until it says otherwise (`HELLO 3`).
#[derive(Clone, Copy, PartialEq, Eq, Debug)]
pub enum Protocol {
    Resp2,
    Resp3,
}

fn write_end(out: &mut Vec<u8>) -> Result<(), AllocError>
    ensures { OnOk result (out.new.items ≡ out.old.items ++ end) }
{
    Ok(out.extend_from_slice(b"\r\n")?)
}

/// A mark and a text on a line of their own.
fn write_line(out: &mut Vec<u8>, mark: u8, text: &[u8]) -> Result<(), AllocError>
    ensures { OnOk result (out.new.items ≡ out.old.items ++ line mark text.now) }
{
    out.push(mark)?;
    out.extend_from_slice(text)?;
    write_end(out)
}

/// A text in which spaces stand for the ends of lines.
fn write_on_one_line(out: &mut Vec<u8>, text: &[u8]) -> Result<(), AllocError>
    ensures { OnOk result (out.new.items ≡ out.old.items ++ on_one_line text.now) }
{
    for byte in text {
        out.push(match *byte {
            b'\r' | b'\n' => b' ',
            byte => byte,
        })?;
    }
    Ok(())
}

fn write_text(out: &mut Vec<u8>, mark: u8, text: &[u8]) -> Result<(), AllocError>
    ensures { OnOk result (out.new.items ≡ out.old.items ++ line mark (on_one_line text.now)) }
{
    out.push(mark)?;
    write_on_one_line(out, text)?;
    write_end(out)
}

/// A short text, such as `OK`. The end of a line in it becomes a space.
pub fn write_simple(out: &mut Vec<u8>, text: &[u8]) -> Result<(), AllocError>
    ensures { OnOk result (out.new.items ≡ out.old.items ++ simple text.now) }
{
    write_text(out, b'+', text)
}

/// An error: a word in capital letters, and what is wrong. The end of a line in it becomes a space, as Redis has it.
pub fn write_error(out: &mut Vec<u8>, text: &[u8]) -> Result<(), AllocError>
    ensures { OnOk result (out.new.items ≡ out.old.items ++ error text.now) }
{
    write_text(out, b'-', text)
}

/// A number.
pub fn write_integer(out: &mut Vec<u8>, number: i64) -> Result<(), AllocError>
    ensures { OnOk result (out.new.items ≡ out.old.items ++ integer number) }
{
    let mut buffer = Buffer::new();
    write_line(out, b':', buffer.format(number).as_bytes())
}

/// A mark, and a number that isn't below 0.
fn write_count(out: &mut Vec<u8>, mark: u8, number: u64) -> Result<(), AllocError>
    ensures { OnOk result (out.new.items ≡ out.old.items ++ line mark (decimal number)) }
{
    let mut buffer = Buffer::new();
    write_line(out, mark, buffer.format(number).as_bytes())
}

/// Bytes.
pub fn write_bulk(out: &mut Vec<u8>, bytes: &[u8]) -> Result<(), AllocError>
    ensures { OnOk result (out.new.items ≡ out.old.items ++ bulk bytes.now) }
{
    write_count(out, b'$', bytes.len() as u64)?;
    out.extend_from_slice(bytes)?;
    write_end(out)
}

/// Nothing.
pub fn write_null(out: &mut Vec<u8>, protocol: Protocol) -> Result<(), AllocError>
    ensures { OnOk result (out.new.items ≡ out.old.items ++ null protocol) }
{
    match protocol {
        Protocol::Resp2 => Ok(out.extend_from_slice(b"$-1\r\n")?),
        Protocol::Resp3 => Ok(out.extend_from_slice(b"_\r\n")?),
    }
}

/// The head of an array of so many elements: these are written behind it.
pub fn write_array(out: &mut Vec<u8>, len: usize) -> Result<(), AllocError>
    ensures { OnOk result (out.new.items ≡ out.old.items ++ array len) }
{
    write_count(out, b'*', len as u64)
}

/// The head of a map of so many pairs: these are written behind it, a key and its value each. In version 2 it is the head of
/// an array.
pub fn write_map(out: &mut Vec<u8>, protocol: Protocol, pairs: u32) -> Result<(), AllocError>
    ensures { OnOk result (out.new.items ≡ out.old.items ++ map_of protocol pairs) }
{
    match protocol {
        Protocol::Resp2 => write_count(out, b'*', 2 * u64::from(pairs)),
        Protocol::Resp3 => write_count(out, b'%', u64::from(pairs)),
    }
}

fn write_value(
    out: &mut Vec<u8>,
    protocol: Protocol,
    value: &Option<Items<u8>>,
) -> Result<(), AllocError>
    ensures { OnOk result (out.new.items ≡ out.old.items ++ value_bytes protocol value.now) }
{
    match value {
        Some(bytes) => write_bulk(out, bytes.as_slice()),
        None => write_null(out, protocol),
    }
}

fn write_values(
    out: &mut Vec<u8>,
    protocol: Protocol,
    values: &[Option<Items<u8>>],
) -> Result<(), AllocError>
    ensures { OnOk result (out.new.items ≡ out.old.items ++ flat_map (value_bytes protocol) values.now) }
{
    for value in values {
        write_value(out, protocol, value)?;
    }
    Ok(())
}

fn write_keys(out: &mut Vec<u8>, keys: &[Items<u8>]) -> Result<(), AllocError>
    ensures { OnOk result (out.new.items ≡ out.old.items ++ flat_map bulk keys.now) }
{
    for key in keys {
        write_bulk(out, key.as_slice())?;
    }
    Ok(())
}

/// A number as bytes.
fn write_decimal(out: &mut Vec<u8>, number: u64) -> Result<(), AllocError>
    ensures { OnOk result (out.new.items ≡ out.old.items ++ bulk (decimal number)) }
{
    let mut buffer = Buffer::new();
    write_bulk(out, buffer.format(number).as_bytes())
}

/// A cursor, and an array of keys.
fn write_page(out: &mut Vec<u8>, page: &Page) -> Result<(), AllocError>
    ensures { OnOk result (out.new.items ≡ out.old.items ++ page_bytes page.now) }
{
    write_array(out, 2)?;
    write_decimal(out, page.cursor)?;
    write_array(out, page.keys.as_slice().len())?;
    write_keys(out, page.keys.as_slice())
}

/// What the state machine answers.
pub fn write_reply(out: &mut Vec<u8>, protocol: Protocol, reply: &Reply) -> Result<(), AllocError>
    ensures { OnOk result (out.new.items ≡ out.old.items ++ reply_bytes protocol reply.now) }
{
    match reply {
        Reply::Done => write_simple(out, b"OK"),
        Reply::Null => write_null(out, protocol),
        Reply::Integer(number) => write_integer(out, *number),
        Reply::Count(count) => write_count(out, b':', *count),
        Reply::Bulk(bytes) => write_bulk(out, bytes.as_slice()),
        Reply::Values(values) => {
            write_array(out, values.as_slice().len())?;
            write_values(out, protocol, values.as_slice())
        }
        Reply::Failed(failure) => write_error(out, failure.text().as_bytes()),
        Reply::Scanned(page) => write_page(out, page),
    }
}
