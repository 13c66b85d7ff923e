//! A log's file in memory. The lines of a text, each of which is made to one file:
//!
//! - `log CLUSTER NODE`: begins a node's log; `push HEX`: appends a frame; `fill COUNT HEX`: one of a byte so often
//! - `head HEX`: appends a frame's head, whose sum is taken through the payload, and then the payload
//! - `cut LEN`, `zeros COUNT`, `append HEX`, `set AT HEX`, `flip AT`, `zero AT COUNT`
//! - `show AT LEN`: prints bytes; `read CLUSTER NODE`: prints the payloads, the end, and where the next frame goes
//! - `crc HEX..`: prints the sum of bytes, in as many parts
//! - `random SEED ROUNDS`: reads files at random (see [`random`](crate::random))

use crate::random;
use raft_frames::{Log, LogId, ReadError, Tail, crc32c_append, front_sum};
use std::alloc::{AllocError, Global};
use test_cases::{Lines, Sheet};

/// A file, and where its log's next frame goes.
#[derive(Drop)]
pub struct Desk {
    pub file: Vec<u8>,
    pub tail: Tail,
}

impl Desk {
    /// An empty file.
    pub fn new(alloc: Global) -> Self {
        let id = LogId {
            cluster: 0,
            node: 0,
        };
        Desk {
            file: Vec::new(alloc),
            tail: Tail::start(&id),
        }
    }

    /// Begins a log.
    pub fn begin(&mut self, id: &LogId) -> Result<(), AllocError> {
        self.file.clear();
        self.tail = Tail::start(id);
        self.file.extend_from_slice(&id.header())
    }

    /// Overwrites the bytes from a position on; those past the file's end are left out.
    pub fn overwrite(&mut self, at: usize, bytes: &[u8]) {
        for (old, new) in self.file.iter_mut().skip(at).zip(bytes) {
            *old = *new;
        }
    }

    /// Appends zeros.
    pub fn append_zeros(&mut self, count: usize) -> Result<(), AllocError> {
        self.file.resize(self.file.len().saturating_add(count), 0)
    }

    /// Reads the file as a node's log.
    pub fn read(&self, alloc: Global, id: &LogId) -> Result<Log<'_>, ReadError> {
        raft_frames::read(alloc, id, &self.file)
    }
}

/// Turns the lowest bit of a byte; whether it is there.
pub fn flip(bytes: &mut [u8], at: usize) -> bool {
    match bytes.get_mut(at) {
        Some(byte) => {
            *byte ^= 1;
            true
        }
        None => false,
    }
}

/// Turns the lowest bit of the byte whose place comes next.
pub fn flip_next(bytes: &mut [u8], sheet: &mut Sheet<'_>) {
    if !flip(bytes, sheet.size()) {
        sheet.fail("no such byte");
    }
}

fn id(sheet: &mut Sheet<'_>) -> LogId {
    LogId {
        cluster: sheet.number(),
        node: sheet.number(),
    }
}

fn begin(desk: &mut Desk, sheet: &mut Sheet<'_>) {
    let id = id(sheet);
    sheet.check(desk.begin(&id));
}

fn push(desk: &mut Desk, payload: &[u8], sheet: &mut Sheet<'_>) {
    if let Err(e) = desk.tail.push(payload, &mut desk.file) {
        sheet.put_line(e);
    }
}

/// A frame's head, and its payload behind it.
fn push_head(desk: &mut Desk, payload: &[u8], sheet: &mut Sheet<'_>) {
    let Ok(len) = u32::try_from(payload.len()) else {
        return sheet.fail("no payload of a frame");
    };
    let sum = crc32c_append(front_sum(desk.tail.sum, len), payload);
    match desk.tail.push_head(payload, sum, &mut desk.file) {
        Ok(()) => sheet.check(desk.file.extend_from_slice(payload)),
        Err(e) => sheet.put_line(e),
    }
}

fn append(desk: &mut Desk, sheet: &mut Sheet<'_>) {
    let bytes = sheet.bytes();
    sheet.check(desk.file.extend_from_slice(&bytes));
}

fn overwrite(desk: &mut Desk, sheet: &mut Sheet<'_>) {
    let at = sheet.size();
    desk.overwrite(at, &sheet.bytes());
}

fn append_zeros(desk: &mut Desk, sheet: &mut Sheet<'_>) {
    let count = sheet.size();
    sheet.check(desk.append_zeros(count));
}

fn zero(desk: &mut Desk, sheet: &mut Sheet<'_>) {
    let at = sheet.size();
    let count = sheet.size();
    desk.overwrite(at, &sheet.copies(0, count));
}

fn show(desk: &Desk, sheet: &mut Sheet<'_>) {
    let bytes = desk.file.get(sheet.size()..).unwrap_or_default();
    let len = bytes.len().min(sheet.size());
    sheet.put_hex("", &bytes[..len], "");
}

/// A payload: its bytes where they are few, and else how many.
fn show_payload(payload: &[u8], sheet: &mut Sheet<'_>) {
    let len = payload.len();
    if len > 32 {
        return sheet.put_line(format_args!("{len} bytes"));
    }
    sheet.put_hex("", payload, "");
}

fn show_log(log: &Log, sheet: &mut Sheet<'_>) {
    for payload in &log.payloads {
        show_payload(*payload, sheet);
    }
    let end = log.end;
    let next = log.tail.position;
    sheet.put_line(format_args!("end {end}, next {next}"));
}

fn read(desk: &Desk, sheet: &mut Sheet<'_>) {
    let id = id(sheet);
    match desk.read(sheet.alloc(), &id) {
        Ok(log) => show_log(&log, sheet),
        Err(e) => sheet.put_line(e),
    }
}

fn crc(sheet: &mut Sheet<'_>) {
    let mut sum = 0;
    for part in &sheet.words() {
        sum = crc32c_append(sum, &sheet.bytes_of(part));
    }
    sheet.put_line(format_args!("{sum:08x}"));
}

fn random(sheet: &mut Sheet<'_>) {
    let seed = sheet.number();
    match random::rounds(sheet.alloc(), seed, sheet.number()) {
        Ok(()) => sheet.put_line("as it must be"),
        Err(why) => sheet.put_line(why),
    }
}

/// A line that asks.
fn ask(desk: &Desk, name: &str, sheet: &mut Sheet<'_>) {
    match name {
        "show" => show(desk, sheet),
        "read" => read(desk, sheet),
        "crc" => crc(sheet),
        "random" => random(sheet),
        _ => sheet.fail("no such line"),
    }
}

impl Lines for Desk {
    fn play(&mut self, name: &str, sheet: &mut Sheet<'_>) {
        match name {
            "log" => begin(self, sheet),
            "push" => push(self, &sheet.bytes(), sheet),
            "head" => push_head(self, &sheet.bytes(), sheet),
            "fill" => push(self, &sheet.filled(), sheet),
            "cut" => self.file.truncate(sheet.size()),
            "zeros" => append_zeros(self, sheet),
            "append" => append(self, sheet),
            "set" => overwrite(self, sheet),
            "flip" => flip_next(&mut self.file, sheet),
            "zero" => zero(self, sheet),
            _ => ask(self, name, sheet),
        }
    }
}
