//! Bytes as text.

ghost use Rattle.std.specs.Prelude.{Some};
ghost use Rattle.raft_store.specs.Values.{hex_text};

use std::fmt;

/// Bytes that are printed as two hexadecimal digits each, in small letters.
#[derive(Clone, Copy, Debug)]
pub struct Hex<'a>(pub &'a [u8]);

impl fmt::Display for Hex<'_> {
    ghost output = { λ hex. Some (hex_text hex.0.now) };

    fn fmt<W: fmt::Write>(&self, f: &mut fmt::Formatter<W>) -> fmt::Result {
        for byte in self.0 {
            let (high, low) = (*byte / 16, *byte % 16);
            write!(f, "{high:x}{low:x}")?;
        }
        Ok(())
    }
}
