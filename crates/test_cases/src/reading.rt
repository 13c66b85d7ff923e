//! Cases, read line by line.

ghost use Rattle.std.specs.Prelude.{◌≡◌, ◌↔◌, IsTrue};

use anyhow::{Result, bail};
use std::alloc::Global;

/// A text of a kind, and what playing it must give.
#[derive(Drop)]
pub struct Case {
    pub kind: String,
    pub name: String,
    pub text: Vec<u8>,
    pub expected: Vec<u8>,
}

impl Case {
    /// Begins anew, with another name.
    fn rename(&mut self, name: &str) -> Result<()> {
        self.name.clear();
        self.text.clear();
        self.expected.clear();
        Ok(self.name.push_str(name)?)
    }

    /// Whether playing the text gave what it must.
    pub fn is_met(&self, given: &[u8]) -> bool
        ensures { IsTrue result ↔ (self.now.expected.items ≡ given.now) }
    {
        self.expected.as_slice() == given
    }
}

/// What the next line of a file belongs to.
#[derive(Clone, Copy, PartialEq, Eq)]
enum Part {
    /// No case.
    Outside,
    Source,
    Text,
    Expected,
    /// The case before it is complete.
    Complete,
}

/// The case that a file's lines make up so far.
#[derive(Drop)]
pub struct Draft {
    part: Part,
    case: Case,
}

/// Appends the bytes of a piece of a text, which begins with two hexadecimal digits, maybe after an `x`.
fn push_escaped(piece: &str, text: &mut Vec<u8>) -> Result<()> {
    let hex = piece.strip_prefix('x').unwrap_or(piece);
    let Some((digits, rest)) = hex.split_at_checked(2) else {
        bail!("no byte: {piece}");
    };
    text.push(u8::from_str_radix(digits, 16)?)?;
    text.extend_from_slice(rest.as_bytes())?;
    Ok(())
}

/// Appends the bytes of a text, in which a sign and two hexadecimal digits stand for a byte.
pub fn unescape(line: &str, sign: char, text: &mut Vec<u8>) -> Result<()> {
    let mut is_plain = true;
    for piece in line.split(sign) {
        if is_plain {
            text.extend_from_slice(piece.as_bytes())?;
        } else {
            push_escaped(piece, text)?;
        }
        is_plain = false;
    }
    Ok(())
}

/// Appends the bytes that a line of a text stands for.
fn push_line(line: &str, text: &mut Vec<u8>) -> Result<()> {
    if let Some(line) = line.strip_suffix('\\') {
        return unescape(line, '\\', text);
    }
    unescape(line, '\\', text)?;
    text.push(b'\n')?;
    Ok(())
}

impl Draft {
    pub fn new(alloc: Global) -> Self {
        Draft {
            part: Part::Outside,
            case: Case {
                kind: String::new(alloc),
                name: String::new(alloc),
                text: Vec::new(alloc),
                expected: Vec::new(alloc),
            },
        }
    }

    /// The case, once its last line was taken.
    pub fn complete(&self) -> Option<&Case> {
        match self.part {
            Part::Complete => Some(&self.case),
            _ => None,
        }
    }

    /// Whether a file may end here.
    pub fn may_end(&self) -> bool {
        self.part == Part::Outside || self.part == Part::Complete
    }

    /// A line outside of cases.
    fn begin(&mut self, line: &str) -> Result<()> {
        self.part = Part::Outside;
        if line.is_empty() || line.starts_with('#') {
            return Ok(());
        }
        let case = &mut self.case;
        match line.split_once(' ') {
            Some(("kind", kind)) => {
                case.kind.clear();
                Ok(case.kind.push_str(kind)?)
            }
            Some(("case", name)) => {
                self.part = Part::Source;
                case.rename(name)
            }
            _ => bail!("no case begins here: {line}"),
        }
    }

    fn take_source(&mut self, line: &str) -> Result<()> {
        if !line.starts_with("source ") {
            bail!("no source: {line}");
        }
        self.part = Part::Text;
        Ok(())
    }

    fn take_text(&mut self, line: &str) -> Result<()> {
        if line == "----" {
            self.part = Part::Expected;
            return Ok(());
        }
        push_line(line, &mut self.case.text)
    }

    fn take_expected(&mut self, line: &str) -> Result<()> {
        if line.is_empty() {
            self.part = Part::Complete;
            return Ok(());
        }
        self.case.expected.extend_from_slice(line.as_bytes())?;
        self.case.expected.push(b'\n')?;
        Ok(())
    }

    /// Takes the next line of a file, of which the end counts as an empty line.
    pub fn take_line(&mut self, line: &str) -> Result<()> {
        match self.part {
            Part::Outside | Part::Complete => self.begin(line),
            Part::Source => self.take_source(line),
            Part::Text => self.take_text(line),
            Part::Expected => self.take_expected(line),
        }
    }
}
