//! What is read of a client's bytes, and how replies are written. The lines of a text:
//!
//! - `limits WORDS BYTES`: how many words a request may have, and how many bytes a word
//! - `send TEXT`, `part TEXT`, `raw HEX`, `fill COUNT HEX`: what a client sends: a line, the part of one, bytes, a byte so often
//! - `read`: the request at the front: its words in brackets, `more`, or what is wrong; `left`: how many bytes are left
//! - `resp VERSION`, and then `simple TEXT`, `error TEXT`, `integer N`, `bulk TEXT`, `null`, `array N`, `map N`, `page CURSOR KEY ..`: replies;
//!   `show`: prints their bytes, where `\r` and `\n` stand for the ends of lines

use raft_machine::{Items, Page, Reply};
use raft_resp::{
    Limits, Protocol, Request, RequestError, read_request, write_array, write_bulk, write_error,
    write_integer, write_map, write_null, write_reply, write_simple,
};
use std::alloc::{AllocError, Global};
use test_cases::{Lines, Sheet};

/// What a client has sent that isn't read yet, and what is to be sent to it.
#[derive(Drop)]
pub struct Client {
    limits: Limits,
    received: Vec<u8>,
    protocol: Protocol,
    replies: Vec<u8>,
}

impl Client {
    pub fn new(alloc: Global) -> Self {
        Client {
            limits: Limits {
                words: 1024,
                word: 512,
            },
            received: Vec::new(alloc),
            protocol: Protocol::Resp2,
            replies: Vec::new(alloc),
        }
    }
}

fn receive(client: &mut Client, bytes: &[u8], sheet: &mut Sheet<'_>) {
    sheet.check(client.received.extend_from_slice(bytes));
}

/// A request's words in brackets.
fn put_words(words: &[&[u8]], sheet: &mut Sheet<'_>) {
    if words.is_empty() {
        return sheet.put_line("no words");
    }
    let mut front = "[";
    for word in words {
        sheet.put(front);
        sheet.put_bytes(*word);
        front = "] [";
    }
    sheet.put_line("]");
}

/// Prints what is read, and answers how many bytes are left behind it, if it is a request.
fn put_read(read: Result<Option<Request>, RequestError>, sheet: &mut Sheet<'_>) -> Option<usize> {
    match read {
        Ok(Some(request)) => {
            put_words(&request.words, sheet);
            return Some(request.rest.len());
        }
        Ok(None) => sheet.put_line("more"),
        Err(e) => sheet.put_line(e),
    }
    None
}

/// Reads the request at the front, and drops its bytes.
fn read(client: &mut Client, sheet: &mut Sheet<'_>) {
    let found = read_request(sheet.alloc(), &client.limits, &client.received);
    if let Some(left) = put_read(found, sheet) {
        let rest = client.received.len().saturating_sub(left);
        client.received = sheet.copy_of(client.received.get(rest..).unwrap_or_default());
    }
}

/// Prints what is sent, with signs for the ends of lines.
pub fn put_sent(bytes: &[u8], end: &[u8], sheet: &mut Sheet<'_>) {
    for byte in bytes {
        match *byte {
            b'\r' => sheet.put_bytes(b"\\r"),
            b'\n' => sheet.put_bytes(end),
            byte => sheet.put_bytes(&[byte]),
        }
    }
}

fn show(client: &Client, sheet: &mut Sheet<'_>) {
    put_sent(&client.replies, b"\\n", sheet);
    sheet.put_line("");
}

fn set_protocol(client: &mut Client, sheet: &mut Sheet<'_>) {
    client.protocol = match sheet.word() {
        "2" => Protocol::Resp2,
        "3" => Protocol::Resp3,
        _ => return sheet.fail("no such version"),
    };
}

/// A cursor and keys.
fn page(sheet: &mut Sheet<'_>) -> Reply {
    let cursor = sheet.number();
    let mut keys = Items::new(sheet.alloc());
    for word in &sheet.words() {
        let key = Items::from_vec(sheet.copy_of(word.as_bytes()));
        sheet.check(keys.push(key));
    }
    Reply::Scanned(Page { cursor, keys })
}

fn put_map(out: &mut Vec<u8>, protocol: Protocol, sheet: &mut Sheet<'_>) -> Result<(), AllocError> {
    let pairs = u32::try_from(sheet.number()).unwrap_or(0);
    write_map(out, protocol, pairs)
}

/// Writes the reply that a line asks for.
fn reply(client: &mut Client, name: &str, sheet: &mut Sheet<'_>) -> Result<(), AllocError> {
    let out = &mut client.replies;
    match name {
        "simple" => write_simple(out, sheet.text().as_bytes()),
        "error" => write_error(out, sheet.text().as_bytes()),
        "integer" => write_integer(out, sheet.integer()),
        "bulk" => write_bulk(out, sheet.text().as_bytes()),
        "null" => write_null(out, client.protocol),
        "array" => write_array(out, sheet.size()),
        "map" => put_map(out, client.protocol, sheet),
        "page" => write_reply(out, client.protocol, &page(sheet)),
        _ => {
            sheet.fail("no such line");
            Ok(())
        }
    }
}

fn set_limits(client: &mut Client, sheet: &mut Sheet<'_>) {
    client.limits = Limits {
        words: sheet.number(),
        word: sheet.number(),
    };
}

fn send(client: &mut Client, sheet: &mut Sheet<'_>) {
    receive(client, sheet.text().as_bytes(), sheet);
    receive(client, b"\r\n", sheet);
}

impl Lines for Client {
    fn play(&mut self, name: &str, sheet: &mut Sheet<'_>) {
        match name {
            "limits" => set_limits(self, sheet),
            "send" => send(self, sheet),
            "part" => receive(self, sheet.text().as_bytes(), sheet),
            "raw" => receive(self, &sheet.bytes(), sheet),
            "fill" => receive(self, &sheet.filled(), sheet),
            "read" => read(self, sheet),
            "left" => sheet.put_line(self.received.len()),
            "resp" => set_protocol(self, sheet),
            "show" => show(self, sheet),
            _ => {
                let done = reply(self, name, sheet);
                sheet.check(done);
            }
        }
    }
}
