//! Texts, each written by one call that may be a function's last.

use anyhow::Result;
use std::fmt::Display;
use std::io::Write;

/// Writes a text.
pub fn put<D: Display + Drop>(text: D, given: &mut Vec<u8>) -> Result<()> {
    write!(given, "{text}")?;
    Ok(())
}

/// Writes a text as a line.
pub fn put_line<D: Display + Drop>(text: D, given: &mut Vec<u8>) -> Result<()> {
    writeln!(given, "{text}")?;
    Ok(())
}
