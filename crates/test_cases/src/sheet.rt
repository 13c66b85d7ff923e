//! Texts of which each line is a call or a question.

use anyhow::{Result, bail, ensure};
use std::alloc::Global;
use std::fmt::Display;
use std::io::Write;
use std::mem;

/// A line that is being played: the words that are left of it, and what was given so far. What goes wrong is noted, and
/// told once the line is played, so that a player needs no exit at each word.
#[derive(Drop)]
pub struct Sheet<'a> {
    alloc: Global,
    line: &'a str,
    rest: &'a str,
    given: Vec<u8>,
    fault: Option<&'a str>,
}

/// What the lines of a text are played on, one after the other.
pub trait Lines {
    /// Plays the line of this name, and takes all of its other words.
    fn play(&mut self, name: &str, sheet: &mut Sheet<'_>);
}

impl<'a> Sheet<'a> {
    fn new(alloc: Global) -> Self {
        Sheet {
            alloc,
            line: "",
            rest: "",
            given: Vec::new(alloc),
            fault: None,
        }
    }

    pub fn alloc(&self) -> Global {
        self.alloc
    }

    /// Notes why the line can't be played.
    pub fn fail(&mut self, why: &'a str) {
        if self.fault.is_none() {
            self.fault = Some(why);
        }
    }

    /// Notes that memory was refused, if it was.
    pub fn check<E: Drop>(&mut self, done: Result<(), E>) {
        if done.is_err() {
            self.fail("out of memory");
        }
    }

    /// The next word, which is empty at the line's end.
    pub fn word(&mut self) -> &'a str {
        let (word, rest) = self.rest.split_once(' ').unwrap_or((self.rest, ""));
        self.rest = rest;
        word
    }

    /// All that is left of the line.
    pub fn text(&mut self) -> &'a str {
        mem::replace(&mut self.rest, "")
    }

    pub fn has_more(&self) -> bool {
        !self.rest.is_empty()
    }

    /// All words that are left.
    pub fn words(&mut self) -> Vec<&'a str> {
        let mut words = Vec::new(self.alloc);
        if self.has_more() {
            for word in self.text().split(' ') {
                let done = words.push(word);
                self.check(done);
            }
        }
        words
    }

    /// The whole line, all of which is taken then.
    pub fn whole(&mut self) -> &'a str {
        self.rest = "";
        self.line
    }

    /// The number that a word is.
    pub fn number_of(&mut self, word: &str) -> u64 {
        match word.parse::<u64>() {
            Ok(number) => number,
            Err(_) => {
                self.fail("no number");
                0
            }
        }
    }

    pub fn number(&mut self) -> u64 {
        let word = self.word();
        self.number_of(word)
    }

    /// A number that may be negative.
    pub fn integer(&mut self) -> i64 {
        match self.word().parse::<i64>() {
            Ok(number) => number,
            Err(_) => {
                self.fail("no number");
                0
            }
        }
    }

    /// A number of bytes or of items.
    pub fn size(&mut self) -> usize {
        self.number() as usize
    }

    /// The bytes that a word of hexadecimal digits is.
    pub fn bytes_of(&mut self, digits: &str) -> Vec<u8> {
        match hex::decode(self.alloc, digits) {
            Ok(bytes) => bytes,
            Err(_) => {
                self.fail("no bytes");
                Vec::new(self.alloc)
            }
        }
    }

    pub fn bytes(&mut self) -> Vec<u8> {
        let digits = self.word();
        self.bytes_of(digits)
    }

    pub fn copy_of(&mut self, bytes: &[u8]) -> Vec<u8> {
        let mut copy = Vec::new(self.alloc);
        let done = copy.extend_from_slice(bytes);
        self.check(done);
        copy
    }

    /// A byte so often.
    pub fn copies(&mut self, byte: u8, count: usize) -> Vec<u8> {
        let mut bytes = Vec::new(self.alloc);
        let done = bytes.resize(count, byte);
        self.check(done);
        bytes
    }

    /// A byte so often, as its number of times and its two hexadecimal digits.
    pub fn filled(&mut self) -> Vec<u8> {
        let count = self.size();
        let byte = u8::from_str_radix(self.word(), 16).unwrap_or(0);
        self.copies(byte, count)
    }

    /// Gives a text.
    pub fn put<D: Display + Drop>(&mut self, text: D) {
        let done = write!(self.given, "{text}");
        self.check(done);
    }

    /// Gives a text as a line.
    pub fn put_line<D: Display + Drop>(&mut self, text: D) {
        let done = writeln!(self.given, "{text}");
        self.check(done);
    }

    /// Gives bytes as they are.
    pub fn put_bytes(&mut self, bytes: &[u8]) {
        let done = self.given.extend_from_slice(bytes);
        self.check(done);
    }

    /// Gives bytes as hexadecimal digits, in a line with what stands before and behind them.
    pub fn put_hex(&mut self, before: &str, bytes: &[u8], behind: &str) {
        self.put(before);
        match hex::encode(self.alloc, bytes) {
            Ok(digits) => self.put(digits),
            Err(_) => self.fail("out of memory"),
        }
        self.put_line(behind);
    }

    /// The line is played; it must have been right, and have no more words.
    fn end(&self) -> Result<()> {
        let line = self.line;
        if let Some(why) = self.fault {
            bail!("line {line:?}: {why}");
        }
        ensure!(self.rest.is_empty(), "line {line:?}: too many words");
        Ok(())
    }
}

/// Plays a line; one that begins with `#` is a comment.
fn play_line<'a>(desk: &mut impl Lines, line: &'a str, sheet: &mut Sheet<'a>) -> Result<()> {
    if line.starts_with('#') {
        return Ok(());
    }
    sheet.line = line;
    sheet.rest = line;
    let name = sheet.word();
    desk.play(name, sheet);
    sheet.end()
}

/// Plays each line in turn.
fn play_each<'a>(desk: &mut impl Lines, text: &'a str, sheet: &mut Sheet<'a>) -> Result<()> {
    for line in text.lines() {
        play_line(desk, line, sheet)?;
    }
    Ok(())
}

/// Plays each line of a text in turn.
pub fn play_lines(
    alloc: Global,
    desk: &mut impl Lines,
    text: &[u8],
    given: &mut Vec<u8>,
) -> Result<()> {
    let mut sheet = Sheet::new(alloc);
    play_each(desk, str::from_utf8(text)?, &mut sheet)?;
    Ok(given.extend_from_slice(&sheet.given)?)
}
