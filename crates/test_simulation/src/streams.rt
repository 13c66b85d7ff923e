//! Readers and writers that fail.

use std::alloc::Global;
use std::io::{self, ErrorKind, Read, Write};

/// Gives its text byte by byte, and fails once, where so many bytes are given.
#[derive(Drop)]
pub struct CutReader<'a> {
    pub text: &'a [u8],
    pub at: usize,
    pub cut: Option<usize>,
    pub kind: ErrorKind,
}

impl<'a> Read for CutReader<'a> {
    fn read(&mut self, buf: &mut [u8]) -> io::Result<usize> {
        if self.cut == Some(self.at) {
            self.cut = None;
            return Err(io::Error::from(self.kind));
        }
        match (self.text.get(self.at), buf.first_mut()) {
            (Some(byte), Some(place)) => {
                *place = *byte;
                self.at = self.at.saturating_add(1);
                Ok(1)
            }
            _ => Ok(0),
        }
    }
}

/// Takes a byte a call, and fails once, where it has taken so many: by an error of a kind, or by taking nothing.
#[derive(Drop)]
pub struct CutWriter<'a> {
    pub taken: &'a mut Vec<u8>,
    pub cut: Option<usize>,
    pub kind: Option<ErrorKind>,
}

impl<'a> Write for CutWriter<'a> {
    fn write(&mut self, buf: &[u8]) -> io::Result<usize> {
        if self.cut == Some(self.taken.len()) {
            self.cut = None;
            return match self.kind {
                Some(kind) => Err(io::Error::from(kind)),
                None => Ok(0),
            };
        }
        let most = buf.len().min(1);
        self.taken.extend_from_slice(&buf[..most])?;
        Ok(most)
    }

    fn flush(&mut self) -> io::Result<()> {
        Ok(())
    }
}
