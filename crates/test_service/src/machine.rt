//! Commands on a machine that remembers three clients. A text has a line for each request, played in turn:
//!
//! - `WORD WORD ..`: a command's words, as a client of Redis writes them,
//! - `at MOMENT`: requests from here on are taken at this moment, in milliseconds,
//! - `from ID NUMBER`: the next request is a client's with this number,
//! - `STATE`: writes the bytes of the machine's state as hexadecimal digits; `LOAD DIGITS`: goes on from the state with these bytes,
//! - `MULTI`, lines of commands, `EXEC`: one request of all of them.
//!
//! `%HH` stands for the byte of two hexadecimal digits. A case expects the replies as RESP 2 writes them, without the lengths of bulks,
//! and `nil` for null.

use anyhow::{Context, Result};
use raft_machine::{Command, Items, Machine, Outcome, Page, Query, Reply, Request, Session};
use raft_requests::{ParseError, Parsed, Refusal, parse};
use std::alloc::{AllocError, Global};
use std::num::NonZeroUsize;
use test_cases::{Lines, Sheet, unescape};

/// A machine that requests are played on, and the request that is being written for it.
#[derive(Drop)]
pub struct Desk {
    machine: Machine,
    moment: u64,
    session: Option<Session>,
    batch: Option<Vec<Command>>,
    is_spoiled: bool,
}

/// What EXEC answers after a command that was refused.
const DISCARDED: &[u8] = b"EXECABORT Transaction discarded because of previous errors.";

/// A word, in which `%HH` stands for a byte.
fn word(text: &str, sheet: &mut Sheet<'_>) -> Items<u8> {
    let mut bytes = Vec::new(sheet.alloc());
    if unescape(text, '%', &mut bytes).is_err() {
        sheet.fail("a percent sign has no digits");
    }
    Items::from_vec(bytes)
}

/// A line's words, parted by spaces.
fn words(sheet: &mut Sheet<'_>) -> Vec<Items<u8>> {
    let mut words = Vec::new(sheet.alloc());
    for text in sheet.whole().split(' ') {
        let word = word(text, sheet);
        sheet.check(words.push(word));
    }
    words
}

/// Writes a line of bytes, behind what tells their kind.
fn put_text(kind: &str, bytes: &[u8], sheet: &mut Sheet<'_>) {
    sheet.put(kind);
    for byte in bytes {
        match *byte {
            b'%' | 0..=31 | 127..=255 => sheet.put(format_args!("%{byte:02x}")),
            byte => sheet.put_bytes(&[byte]),
        }
    }
    sheet.put_line("");
}

fn put_bulk(bytes: &Option<Items<u8>>, sheet: &mut Sheet<'_>) {
    match bytes {
        Some(bytes) => put_text("$", bytes.as_slice(), sheet),
        None => sheet.put_line("nil"),
    }
}

/// Writes how many replies follow.
fn put_count(count: usize, sheet: &mut Sheet<'_>) {
    sheet.put_line(format_args!("*{count}"));
}

/// Writes a cursor, and keys.
fn put_page(page: &Page, sheet: &mut Sheet<'_>) {
    let cursor = page.cursor;
    sheet.put_line(format_args!("*2\n${cursor}"));
    put_count(page.keys.as_slice().len(), sheet);
    for key in page.keys.as_slice() {
        put_text("$", key.as_slice(), sheet);
    }
}

fn put_values(values: &[Option<Items<u8>>], sheet: &mut Sheet<'_>) {
    put_count(values.len(), sheet);
    for value in values {
        put_bulk(value, sheet);
    }
}

fn put_reply(reply: &Reply, sheet: &mut Sheet<'_>) {
    match reply {
        Reply::Done => sheet.put_line("+OK"),
        Reply::Null => sheet.put_line("nil"),
        Reply::Integer(number) => sheet.put_line(format_args!(":{number}")),
        Reply::Count(count) => sheet.put_line(format_args!(":{count}")),
        Reply::Bulk(bytes) => put_text("$", bytes.as_slice(), sheet),
        Reply::Values(values) => put_values(values.as_slice(), sheet),
        Reply::Failed(failure) => put_text("-", failure.text().as_bytes(), sheet),
        Reply::Scanned(page) => put_page(page, sheet),
    }
}

/// Writes the replies to a request; before those to a batch their number.
fn put_replies(replies: &[Reply], is_batch: bool, sheet: &mut Sheet<'_>) {
    if is_batch {
        put_count(replies.len(), sheet);
    }
    for reply in replies {
        put_reply(reply, sheet);
    }
}

/// Writes what came of a request.
fn put_outcome(outcome: &Outcome, is_batch: bool, sheet: &mut Sheet<'_>) {
    match outcome {
        Outcome::Answered(replies) => put_replies(replies.as_slice(), is_batch, sheet),
        Outcome::Outdated => sheet.put_line("outdated"),
    }
}

/// Writes why a command was refused.
fn put_refusal(refusal: &Refusal, sheet: &mut Sheet<'_>) {
    match refusal.text(sheet.alloc()) {
        Ok(text) => put_text("-", text.as_slice(), sheet),
        Err(_) => sheet.fail("out of memory"),
    }
}

impl Desk {
    pub fn new(alloc: Global) -> Result<Self> {
        let clients = NonZeroUsize::new(3).context("no clients")?;
        Ok(Desk {
            machine: Machine::new(alloc, clients)?,
            moment: 0,
            session: None,
            batch: None,
            is_spoiled: false,
        })
    }

    /// What a request of these commands is answered.
    fn apply(&mut self, alloc: Global, commands: Vec<Command>) -> Result<Outcome, AllocError> {
        let request = Request {
            session: self.session.take(),
            moment: self.moment,
            commands: Items::from_vec(commands),
        };
        self.machine.apply(alloc, request)
    }

    /// Applies a request of these commands, and writes its replies.
    fn run(&mut self, commands: Vec<Command>, is_batch: bool, sheet: &mut Sheet<'_>) {
        match self.apply(sheet.alloc(), commands) {
            Ok(outcome) => put_outcome(&outcome, is_batch, sheet),
            Err(_) => sheet.fail("out of memory"),
        }
    }

    /// Applies a command alone.
    fn run_one(&mut self, command: Command, sheet: &mut Sheet<'_>) {
        let mut commands = Vec::new(sheet.alloc());
        sheet.check(commands.push(command));
        self.run(commands, false, sheet);
    }

    /// Takes a command: into the batch if there is one, and else alone.
    fn take(&mut self, command: Command, sheet: &mut Sheet<'_>) {
        match &mut self.batch {
            Some(batch) => sheet.check(batch.push(command)),
            None => self.run_one(command, sheet),
        }
    }

    /// Answers a query at once.
    fn answer(&self, query: &Query, sheet: &mut Sheet<'_>) {
        match self.machine.query(sheet.alloc(), query) {
            Ok(reply) => put_reply(&reply, sheet),
            Err(_) => sheet.fail("out of memory"),
        }
    }

    /// Takes a query as a command in a batch and of a client's session, and else answers it at once.
    fn ask(&mut self, query: Query, sheet: &mut Sheet<'_>) {
        if self.batch.is_some() || self.session.is_some() {
            return self.take(Command::Read(query), sheet);
        }
        self.answer(&query, sheet);
    }

    /// A command was refused.
    fn refuse(&mut self, refusal: &Refusal, sheet: &mut Sheet<'_>) {
        self.is_spoiled = true;
        put_refusal(refusal, sheet);
    }

    /// Plays what words are.
    fn play_parsed(&mut self, parsed: Result<Parsed, ParseError>, sheet: &mut Sheet<'_>) {
        match parsed {
            Ok(Parsed::Command(command)) => self.take(command, sheet),
            Ok(Parsed::Query(query)) => self.ask(query, sheet),
            Err(ParseError::Refused(refusal)) => self.refuse(&refusal, sheet),
            Err(ParseError::Memory) => sheet.fail("out of memory"),
        }
    }

    /// Plays a command's words.
    fn command(&mut self, words: &[Items<u8>], sheet: &mut Sheet<'_>) {
        if let [name, args @ ..] = words {
            let parsed = parse(sheet.alloc(), name.as_slice(), args, self.moment);
            self.play_parsed(parsed, sheet);
        }
    }

    /// Writes the state's bytes.
    fn write_state(&self, sheet: &mut Sheet<'_>) {
        let mut bytes = Vec::new(sheet.alloc());
        sheet.check(self.machine.write(&mut bytes));
        sheet.put_hex("", &bytes, "");
    }

    /// Goes on from the state that has these bytes, or writes why they are no state's.
    fn load(&mut self, sheet: &mut Sheet<'_>) {
        let bytes = sheet.bytes();
        match Machine::decode(sheet.alloc(), &bytes) {
            Ok(machine) => self.machine = machine,
            Err(error) => sheet.put_line(format_args!("-{error}")),
        }
    }

    /// The next request is a client's.
    fn come_from(&mut self, sheet: &mut Sheet<'_>) {
        self.session = Some(Session {
            id: sheet.number(),
            number: sheet.number(),
        });
    }

    fn begin_batch(&mut self, alloc: Global) {
        self.batch = Some(Vec::new(alloc));
        self.is_spoiled = false;
    }

    fn end_batch(&mut self, sheet: &mut Sheet<'_>) {
        match self.batch.take() {
            Some(_) if self.is_spoiled => put_text("-", DISCARDED, sheet),
            Some(commands) => self.run(commands, true, sheet),
            None => sheet.fail("there is no batch"),
        }
    }
}

impl Lines for Desk {
    fn play(&mut self, name: &str, sheet: &mut Sheet<'_>) {
        match name {
            "at" => self.moment = sheet.number(),
            "from" => self.come_from(sheet),
            "STATE" => self.write_state(sheet),
            "LOAD" => self.load(sheet),
            "MULTI" => self.begin_batch(sheet.alloc()),
            "EXEC" => self.end_batch(sheet),
            _ => self.command(&words(sheet), sheet),
        }
    }
}
