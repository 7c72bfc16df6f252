//! A reader or writer that counts its failed calls.
ghost use Rattle.std.specs.Prelude.{◌≡◌, ◌<◌, OnOk, OnErr, IfOk, length};
ghost use Rattle.sq_lines.specs.Lines.{OneMore};
ghost use Rattle.std.specs.Io.{ReadsAtMost, WritesAtMost};
ghost use Rattle.std.specs.Io.KnownBytes.{ReadConsumes, WriteAppends, Keeps};

use std::io::{Read, Result, Write};

/// A reader or writer, and how many of its calls failed.
#[derive(Drop)]
pub struct Counted<T> {
    inner: T,
    failed: u64,
}

impl<T> Counted<T> {
    /// A reader or writer of which no call failed yet.
    pub fn new(inner: T) -> Counted<T>
        ensures inner { result.inner ≡ inner }
        ensures none { result.failed ≡ 0 }
    {
        Counted { inner, failed: 0 }
    }

    /// The reader or writer itself.
    pub fn inner(&self) -> &T
        ensures { result.now ≡ self.now.inner }
    {
        &self.inner
    }

    /// How many of its calls failed, up to the greatest u64.
    pub fn failed(&self) -> u64
        ensures { result ≡ self.now.failed }
    {
        self.failed
    }
}

impl<T: Read> Read for Counted<T> {
    ghost remaining = { λ c. T.remaining c.inner };

    fn read(&mut self, buf: &mut [u8]) -> Result<usize>
        ensures bound { ReadsAtMost result buf.new }
        ensures bytes { ReadConsumes (T.remaining self.old.inner) (T.remaining self.new.inner) result buf.new }
        ensures ok { OnOk result (self.new.failed ≡ self.old.failed) }
        ensures err { OnErr result (OneMore self.old.failed self.new.failed) }
    {
        match self.inner.read(buf) {
            Ok(n) => Ok(n),
            Err(e) => {
                self.failed = self.failed.saturating_add(1);
                Err(e)
            }
        }
    }
}

impl<T: Write> Write for Counted<T> {
    ghost contents = { λ c. T.contents c.inner };

    // A write of some bytes that takes none has failed.
    fn write(&mut self, buf: &[u8]) -> Result<usize>
        ensures bound { WritesAtMost result buf.now }
        ensures bytes { WriteAppends (T.contents self.old.inner) (T.contents self.new.inner) result buf.now }
        ensures some { IfOk result (λ n. 0 < n → self.new.failed ≡ self.old.failed) }
        ensures empty { length buf.now ≡ 0 → OnOk result (self.new.failed ≡ self.old.failed) }
        ensures none { IfOk result (λ n. n ≡ 0 → 0 < length buf.now → OneMore self.old.failed self.new.failed) }
        ensures err { OnErr result (OneMore self.old.failed self.new.failed) }
    {
        match self.inner.write(buf) {
            Ok(n) => {
                if n == 0 && !buf.is_empty() {
                    self.failed = self.failed.saturating_add(1);
                }
                Ok(n)
            }
            Err(e) => {
                self.failed = self.failed.saturating_add(1);
                Err(e)
            }
        }
    }

    fn flush(&mut self) -> Result<()>
        ensures bytes { Keeps (T.contents self.old.inner) (T.contents self.new.inner) }
        ensures ok { OnOk result (self.new.failed ≡ self.old.failed) }
        ensures err { OnErr result (OneMore self.old.failed self.new.failed) }
    {
        match self.inner.flush() {
            Ok(()) => Ok(()),
            Err(e) => {
                self.failed = self.failed.saturating_add(1);
                Err(e)
            }
        }
    }
}
