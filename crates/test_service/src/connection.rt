//! A connection whose client sends bytes, and the state machine behind it. The lines of a text:
//!
//! - `limits WORDS BYTES RECEIVED REQUESTS COMMANDS`, `secret TEXT`, `info TEXT`: what is set; `open ID`: a connection of this number
//! - `send WORD ..`: a request; `line TEXT`, `part TEXT`, `raw HEX`: a line, the part of one, bytes
//! - `serve`: runs each request, and answers it at once
//! - `step`: takes one step, and prints what is asked; `steps`: until none is left
//! - `done N`, `null N`, `integer N NUMBER`, `bulk N TEXT`, `dones N COUNT`, `moved N HOST PORT`, `no_leader N`, `busy N`, `outdated N`, `reused N`,
//!   `interrupted N`: answers the request of this number; prints why, if the answer isn't taken
//! - `show`: prints what is sent, where `\r` and `\n` stand for the ends of lines; `room`: for how many bytes there is room;
//!   `slot KEY`: a key's slot

use crate::resp::put_sent;
use anyhow::{Context, Result, bail};
use raft_connection::{Answer, Asked, Connection, Limits, Settings, Step, Work, hash_slot};
use raft_machine::{Command, Items, Machine, Outcome, Reply, Request, Session};
use raft_resp::{write_array, write_bulk};
use std::alloc::{AllocError, Global};
use std::num::NonZeroUsize;
use test_cases::{Lines, Sheet};

/// The most steps that one line takes.
const STEPS: usize = 1000;

/// A connection, and the state machine behind it.
#[derive(Drop)]
pub struct Desk {
    settings: Settings,
    connection: Connection,
    sent: Vec<u8>,
    machine: Machine,
}

fn settings(alloc: Global) -> Settings {
    Settings {
        limits: Limits {
            request: raft_resp::Limits {
                words: 1024,
                word: 512,
            },
            received: 4096,
            requests: 100,
            commands: 10,
        },
        secret: None,
        info: Items::new(alloc),
    }
}

/// One command.
fn one(alloc: Global, command: Command) -> Result<Items<Command>, AllocError> {
    let mut commands = Items::new(alloc);
    commands.push(command)?;
    Ok(commands)
}

/// Whose request this is, if that was said, and its commands.
fn commands_of(alloc: Global, work: Work) -> Result<(Option<Session>, Items<Command>), AllocError> {
    match work {
        Work::Query(query) => Ok((None, one(alloc, Command::Read(query))?)),
        Work::Command(session, command) => Ok((session, one(alloc, command)?)),
        Work::Transaction(session, commands) => Ok((session, commands)),
    }
}

/// What is asked of the state machine.
fn request_of(alloc: Global, work: Work) -> Result<Request, AllocError> {
    let (session, commands) = commands_of(alloc, work)?;
    Ok(Request {
        session,
        moment: 1000,
        commands,
    })
}

impl Desk {
    pub fn new(alloc: Global) -> Result<Self> {
        let settings = settings(alloc);
        let clients = NonZeroUsize::new(2).context("no clients")?;
        Ok(Desk {
            connection: Connection::new(alloc, &settings, 7),
            settings,
            sent: Vec::new(alloc),
            machine: Machine::new(alloc, clients)?,
        })
    }

    /// Another connection, of this number.
    fn open(&mut self, sheet: &mut Sheet<'_>) {
        self.connection = Connection::new(sheet.alloc(), &self.settings, sheet.number());
    }

    fn step(&mut self, alloc: Global) -> Result<Step, AllocError> {
        self.connection.step(alloc, &self.settings, 1000)
    }

    /// What the state machine answers to a request.
    fn answer_to(&mut self, alloc: Global, work: Work) -> Result<Answer, AllocError> {
        let request = request_of(alloc, work)?;
        match self.machine.apply(alloc, request)? {
            Outcome::Answered(replies) => Ok(Answer::Replies(replies)),
            Outcome::Outdated => Ok(Answer::Outdated),
        }
    }

    /// Runs a request, and answers it.
    fn serve(&mut self, alloc: Global, asked: Asked) -> Result<()> {
        let Asked { number, work } = asked;
        let answer = self.answer_to(alloc, work)?;
        Ok(self.connection.answer(alloc, number, &answer)?)
    }

    /// Takes a step, runs the request that it gives, and answers it at once; whether there may be another.
    fn serve_one(&mut self, alloc: Global) -> Result<bool> {
        match self.step(alloc)? {
            Step::Waits => Ok(false),
            Step::Answered => Ok(true),
            Step::Asks(asked) => {
                self.serve(alloc, asked)?;
                Ok(true)
            }
        }
    }

    /// Runs each request that is there, and answers it at once.
    fn serve_all(&mut self, alloc: Global) -> Result<()> {
        for _ in 0..STEPS {
            if !self.serve_one(alloc)? {
                return Ok(());
            }
        }
        bail!("too many steps")
    }
}

/// Sends bytes, and prints how many weren't taken, if some weren't.
fn send(desk: &mut Desk, text: &[u8], sheet: &mut Sheet<'_>) {
    match desk.connection.receive(&desk.settings.limits, text) {
        Ok(taken) if taken < text.len() => {
            let left = text.len().saturating_sub(taken);
            sheet.put_line(format_args!("{left} bytes aren't taken"));
        }
        Ok(_) => {}
        Err(_) => sheet.fail("out of memory"),
    }
}

/// Sends a request of words.
fn send_words(desk: &mut Desk, text: &str, sheet: &mut Sheet<'_>) {
    let mut request = Vec::new(sheet.alloc());
    sheet.check(write_array(&mut request, text.split(' ').count()));
    for word in text.split(' ') {
        sheet.check(write_bulk(&mut request, word.as_bytes()));
    }
    send(desk, &request, sheet);
}

/// Sends a line.
fn send_line(desk: &mut Desk, sheet: &mut Sheet<'_>) {
    send(desk, sheet.text().as_bytes(), sheet);
    send(desk, b"\r\n", sheet);
}

/// Prints whose request it is, if that was said.
fn tell_session(session: &Option<Session>, sheet: &mut Sheet<'_>) {
    if let Some(Session { id, number }) = session {
        sheet.put(format_args!(", number {number} of session {id}"));
    }
    sheet.put_line("");
}

/// Prints what is asked.
fn tell_work(work: &Work, sheet: &mut Sheet<'_>) {
    match work {
        Work::Query(_) => sheet.put_line("a query"),
        Work::Command(session, _) => {
            sheet.put("a command");
            tell_session(session, sheet);
        }
        Work::Transaction(session, commands) => {
            let count = commands.as_slice().len();
            sheet.put(format_args!("a transaction of {count}"));
            tell_session(session, sheet);
        }
    }
}

/// Takes a step, and prints what it came to; whether there may be another.
fn step(desk: &mut Desk, sheet: &mut Sheet<'_>) -> bool {
    match desk.step(sheet.alloc()) {
        Ok(Step::Asks(asked)) => {
            let number = asked.number;
            sheet.put(format_args!("{number}: "));
            tell_work(&asked.work, sheet);
            true
        }
        Ok(Step::Answered) => true,
        Ok(Step::Waits) => false,
        Err(_) => {
            sheet.fail("out of memory");
            false
        }
    }
}

/// Takes steps until none is left.
fn steps(desk: &mut Desk, sheet: &mut Sheet<'_>) {
    for _ in 0..STEPS {
        if !step(desk, sheet) {
            return;
        }
    }
    sheet.fail("too many steps");
}

/// Takes what is to be sent.
fn take(desk: &mut Desk, sheet: &mut Sheet<'_>) {
    sheet.check(desk.connection.take_output(&mut desk.sent));
}

/// Prints what is sent.
fn show(desk: &mut Desk, sheet: &mut Sheet<'_>) {
    take(desk, sheet);
    put_sent(&desk.sent, b"\\n\n", sheet);
    desk.sent.clear();
    if desk.connection.is_closing() {
        sheet.put_line("closing");
    }
}

/// The same reply so often.
fn dones(count: usize, sheet: &mut Sheet<'_>) -> Answer {
    let mut replies = Items::new(sheet.alloc());
    for _ in 0..count {
        sheet.check(replies.push(Reply::Done));
    }
    Answer::Replies(replies)
}

fn reply(reply: Reply, sheet: &mut Sheet<'_>) -> Answer {
    let mut replies = Items::new(sheet.alloc());
    sheet.check(replies.push(reply));
    Answer::Replies(replies)
}

fn items(text: &str, sheet: &mut Sheet<'_>) -> Items<u8> {
    Items::from_vec(sheet.copy_of(text.as_bytes()))
}

fn bulk(sheet: &mut Sheet<'_>) -> Answer {
    let bytes = items(sheet.text(), sheet);
    reply(Reply::Bulk(bytes), sheet)
}

fn moved(sheet: &mut Sheet<'_>) -> Answer {
    Answer::Moved {
        host: items(sheet.word(), sheet),
        port: u16::try_from(sheet.number()).unwrap_or(0),
    }
}

/// The answer of a line.
fn answer_of(name: &str, sheet: &mut Sheet<'_>) -> Answer {
    match name {
        "done" => dones(1, sheet),
        "dones" => dones(sheet.size(), sheet),
        "null" => reply(Reply::Null, sheet),
        "integer" => reply(Reply::Integer(sheet.integer()), sheet),
        "bulk" => bulk(sheet),
        "moved" => moved(sheet),
        "no_leader" => Answer::NoLeader,
        "busy" => Answer::Busy,
        "outdated" => Answer::Outdated,
        "reused" => Answer::Reused,
        "interrupted" => Answer::Interrupted,
        _ => {
            sheet.fail("no such line");
            Answer::Busy
        }
    }
}

/// Answers a request, and prints why if the answer isn't taken.
fn answer(desk: &mut Desk, name: &str, sheet: &mut Sheet<'_>) {
    let number = sheet.number();
    let answer = answer_of(name, sheet);
    if let Err(e) = desk.connection.answer(sheet.alloc(), number, &answer) {
        sheet.put_line(e);
    }
}

fn set_limits(limits: &mut Limits, sheet: &mut Sheet<'_>) {
    limits.request.words = sheet.number();
    limits.request.word = sheet.number();
    limits.received = sheet.size();
    limits.requests = sheet.size();
    limits.commands = sheet.size();
}

/// A line that sends bytes, or answers a request.
fn say(desk: &mut Desk, name: &str, sheet: &mut Sheet<'_>) {
    match name {
        "send" => send_words(desk, sheet.text(), sheet),
        "part" => send(desk, sheet.text().as_bytes(), sheet),
        "line" => send_line(desk, sheet),
        "raw" => send(desk, &sheet.bytes(), sheet),
        _ => answer(desk, name, sheet),
    }
}

/// A line that sets something, or sends or answers.
fn set(desk: &mut Desk, name: &str, sheet: &mut Sheet<'_>) {
    match name {
        "limits" => set_limits(&mut desk.settings.limits, sheet),
        "secret" => desk.settings.secret = Some(items(sheet.text(), sheet)),
        "info" => desk.settings.info = items(sheet.text(), sheet),
        _ => say(desk, name, sheet),
    }
}

fn serve(desk: &mut Desk, sheet: &mut Sheet<'_>) {
    let done = desk.serve_all(sheet.alloc());
    sheet.check(done);
    take(desk, sheet);
}

fn step_once(desk: &mut Desk, sheet: &mut Sheet<'_>) {
    if !step(desk, sheet) {
        sheet.put_line("waits");
    }
}

impl Lines for Desk {
    fn play(&mut self, name: &str, sheet: &mut Sheet<'_>) {
        match name {
            "open" => self.open(sheet),
            "serve" => serve(self, sheet),
            "step" => step_once(self, sheet),
            "steps" => steps(self, sheet),
            "show" => show(self, sheet),
            "room" => sheet.put_line(self.connection.room(&self.settings.limits)),
            "slot" => {
                let slot = hash_slot(sheet.text().as_bytes());
                sheet.put_line(slot);
            }
            _ => set(self, name, sheet),
        }
    }
}
