//! A sender, a receiver, and what is between them as bytes. The lines of a text, each of which is made to one transfer:
//!
//! - `receiver HELD`: begins with a receiver that has the snapshot of so many entries, and nothing of another
//! - `snapshot NUMBER HEX`: what is sent from now on; prints its length and its sum
//! - `append HEX`: more bytes of it, behind those before; prints the same
//! - `seek OFFSET`: puts the sender's cursor elsewhere
//! - `send MOST`: makes the chunk at the cursor; `show`: prints its bytes; `flip AT`: turns a bit in them; `sent HEX`: puts others in their place
//! - `receive`: the receiver takes the chunk: prints the whole snapshot in `<>`, `taken` or a refusal; and where the sender goes on
//! - `answer HEX`: the sender takes these bytes for an answer

use crate::frames::flip_next;
use raft_chunks::{Assembly, Chunk, Cursor, Title};
use std::alloc::Global;
use test_cases::{Lines, Sheet};

/// A snapshot with a sender's cursor in it, and a receiver.
#[derive(Drop)]
pub struct Transfer {
    snapshot: Vec<u8>,
    cursor: Cursor,
    assembly: Assembly,
    /// The bytes of the chunk that was sent last.
    sent: Vec<u8>,
}

impl Transfer {
    /// Nothing to send, and a receiver with nothing.
    pub fn new(alloc: Global) -> Self {
        Transfer {
            snapshot: Vec::new(alloc),
            cursor: Cursor::start(Title::of(0, &[])),
            assembly: Assembly::new(alloc, 0),
            sent: Vec::new(alloc),
        }
    }

    /// Begins to send what has this title.
    fn begin(&mut self, title: Title, sheet: &mut Sheet<'_>) {
        self.cursor = Cursor::start(title);
        let (len, sum) = (title.len, title.sum);
        sheet.put_line(format_args!("{len} bytes, sum {sum:08x}"));
    }

    /// Begins to send another snapshot.
    fn load(&mut self, sheet: &mut Sheet<'_>) {
        let number = sheet.number();
        self.snapshot = sheet.bytes();
        let title = Title::of(number, &self.snapshot);
        self.begin(title, sheet);
    }

    /// Begins to send the snapshot with more bytes behind its own.
    fn append(&mut self, bytes: &[u8], sheet: &mut Sheet<'_>) {
        sheet.check(self.snapshot.extend_from_slice(bytes));
        let title = self.cursor.title.append(bytes);
        self.begin(title, sheet);
    }

    /// Makes the bytes of the chunk at the sender's cursor, with at most so many of the snapshot's.
    fn send(&mut self, sheet: &mut Sheet<'_>) {
        self.sent.clear();
        let chunk = self.cursor.chunk(&self.snapshot, sheet.size());
        sheet.check(chunk.encode(&mut self.sent));
    }

    /// The receiver takes what was sent last, and answers, as bytes.
    fn receive(&mut self, sheet: &mut Sheet<'_>) {
        let mut answer = Vec::new(sheet.alloc());
        match Chunk::decode(sheet.alloc(), &self.sent) {
            Ok(chunk) => take(&mut self.assembly, &chunk, &mut answer, sheet),
            Err(e) => return sheet.put_line(e),
        }
        self.follow(&answer, sheet);
    }

    /// The sender takes an answer.
    fn follow(&mut self, answer: &[u8], sheet: &mut Sheet<'_>) {
        match Cursor::decode(sheet.alloc(), answer) {
            Ok(answer) => self.cursor.follow(&answer),
            Err(e) => return sheet.put_line(e),
        }
        let offset = self.cursor.offset;
        let end = if self.cursor.is_at_end() {
            ", the end"
        } else {
            ""
        };
        sheet.put_line(format_args!("at {offset}{end}"));
    }
}

/// A receiver takes a chunk, and answers.
fn take(assembly: &mut Assembly, chunk: &Chunk, answer: &mut Vec<u8>, sheet: &mut Sheet<'_>) {
    match assembly.take(chunk) {
        Ok(Some(bytes)) => sheet.put_hex("<", &bytes, ">"),
        Ok(None) => sheet.put_line("taken"),
        Err(e) => sheet.put_line(e),
    }
    sheet.check(assembly.cursor(chunk.at.title).encode(answer));
}

impl Lines for Transfer {
    fn play(&mut self, name: &str, sheet: &mut Sheet<'_>) {
        match name {
            "receiver" => self.assembly = Assembly::new(sheet.alloc(), sheet.number()),
            "snapshot" => self.load(sheet),
            "append" => self.append(&sheet.bytes(), sheet),
            "seek" => self.cursor.offset = sheet.number(),
            "send" => self.send(sheet),
            "show" => sheet.put_hex("", &self.sent, ""),
            "sent" => self.sent = sheet.bytes(),
            "flip" => flip_next(&mut self.sent, sheet),
            "receive" => self.receive(sheet),
            "answer" => self.follow(&sheet.bytes(), sheet),
            _ => sheet.fail("no such line"),
        }
    }
}
