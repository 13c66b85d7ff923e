//! Streams that know whether their last call failed.

ghost use Rattle.std.specs.Prelude.{◌≡◌, ◌<◌, false, is_err, IfOk, length};
ghost use Rattle.std.specs.Io.{ReadsAtMost, WritesAtMost};
ghost use Rattle.std.specs.Io.KnownBytes.{Keeps, ReadConsumes, WriteAppends};

use std::io::{self, ErrorKind, Read, Write};

/// A reader or a writer, and whether its last call failed.
#[derive(Drop)]
pub struct Tracked<S> {
    inner: S,
    failed: bool,
}

impl<S> Tracked<S> {
    /// A stream of which no call has failed yet.
    pub fn new(inner: S) -> Self
        ensures { result ≡ record { inner = inner; failed = false } }
    {
        Tracked {
            inner,
            failed: false,
        }
    }

    /// Whether the last read, write or flush failed.
    pub fn has_failed(&self) -> bool
        ensures { result ≡ self.now.failed }
    {
        self.failed
    }

    /// The stream itself.
    pub fn into_inner(self) -> S
        ensures { result ≡ self.inner }
    {
        self.inner
    }
}

impl<R: Read> Read for Tracked<R> {
    ghost remaining = { λ s. R.remaining s.inner };

    fn read(&mut self, buf: &mut [u8]) -> io::Result<usize>
        ensures bound { ReadsAtMost result buf.new }
        ensures bytes { ReadConsumes (R.remaining self.old.inner) (R.remaining self.new.inner) result buf.new }
        ensures failed { self.new.failed ≡ is_err result }
    {
        let given = self.inner.read(buf);
        self.failed = given.is_err();
        given
    }
}

/// Writes some of a buffer. Writing none of a buffer that isn't empty is an error (`WriteZero`).
fn write_some<W: Write>(writer: &mut W, buf: &[u8]) -> io::Result<usize>
    ensures bound { WritesAtMost result buf.now }
    ensures bytes { WriteAppends (W.contents writer.old) (W.contents writer.new) result buf.now }
    ensures some { IfOk result (λ n. 0 < length buf.now → 0 < n) }
{
    let count = writer.write(buf)?;
    if count == 0 && !buf.is_empty() {
        return Err(io::Error::from(ErrorKind::WriteZero));
    }
    Ok(count)
}

impl<W: Write> Write for Tracked<W> {
    ghost contents = { λ s. W.contents s.inner };

    /// Writing none of a buffer that isn't empty is an error (`WriteZero`).
    fn write(&mut self, buf: &[u8]) -> io::Result<usize>
        ensures bound { WritesAtMost result buf.now }
        ensures bytes { WriteAppends (W.contents self.old.inner) (W.contents self.new.inner) result buf.now }
        ensures failed { self.new.failed ≡ is_err result }
        ensures some { IfOk result (λ n. 0 < length buf.now → 0 < n) }
    {
        let taken = write_some(&mut self.inner, buf);
        self.failed = taken.is_err();
        taken
    }

    fn flush(&mut self) -> io::Result<()>
        ensures bytes { Keeps (W.contents self.old.inner) (W.contents self.new.inner) }
        ensures failed { self.new.failed ≡ is_err result }
    {
        let flushed = self.inner.flush();
        self.failed = flushed.is_err();
        flushed
    }
}
