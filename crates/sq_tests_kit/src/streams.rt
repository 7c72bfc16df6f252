//! Readers and writers that fail, or count their calls.
use std::alloc::Global;
use std::io::{self, ErrorKind, Read, Write};
use std::sync::atomic::{AtomicU64, Ordering};

/// Gives at most so many bytes a call, and fails at one call.
#[derive(Drop)]
pub struct Piecewise<'a> {
    bytes: &'a [u8],
    most: usize,
    calls: u32,
    fails_at: u32,
}

impl<'a> Piecewise<'a> {
    pub fn new(bytes: &'a [u8], most: usize, fails_at: u32) -> Piecewise<'a> {
        Piecewise {
            bytes,
            most,
            calls: 0,
            fails_at,
        }
    }
}

impl Read for Piecewise<'_> {
    fn read(&mut self, buf: &mut [u8]) -> io::Result<usize> {
        self.calls = self.calls.saturating_add(1);
        if self.calls == self.fails_at {
            return Err(io::Error::from(ErrorKind::BrokenPipe));
        }
        let length = buf.len().min(self.most);
        self.bytes.read(&mut buf[..length])
    }
}

/// Takes one byte a call, and fails at one call; or takes no byte at that call, and tells no error.
#[derive(Drop)]
pub struct Bytewise {
    pub written: Vec<u8>,
    calls: u32,
    fails_at: u32,
    is_silent: bool,
    pub flushes: u32,
}

impl Bytewise {
    pub fn new(alloc: Global, fails_at: u32) -> Bytewise {
        Bytewise {
            written: Vec::new(alloc),
            calls: 0,
            fails_at,
            is_silent: false,
            flushes: 0,
        }
    }

    /// The same, which tells no error at the call where it takes no byte.
    pub fn silent(alloc: Global, takes_none_at: u32) -> Bytewise {
        Bytewise {
            is_silent: true,
            ..Bytewise::new(alloc, takes_none_at)
        }
    }
}

impl Write for Bytewise {
    fn write(&mut self, buf: &[u8]) -> io::Result<usize> {
        self.calls = self.calls.saturating_add(1);
        if self.calls == self.fails_at && self.is_silent {
            return Ok(0);
        }
        if self.calls == self.fails_at {
            return Err(io::Error::from(ErrorKind::BrokenPipe));
        }
        let Some(byte) = buf.first() else {
            return Ok(0);
        };
        self.written.push(*byte)?;
        Ok(1)
    }

    fn flush(&mut self) -> io::Result<()> {
        self.flushes = self.flushes.saturating_add(1);
        Ok(())
    }
}

/// Gives what lies in one batch a call, and counts calls. No batch is longer than what is asked for.
#[derive(Drop)]
pub struct Batches<'a> {
    batches: &'a [&'a [u8]],
    next: usize,
    pub reads: u64,
}

impl<'a> Batches<'a> {
    pub fn new(batches: &'a [&'a [u8]]) -> Batches<'a> {
        Batches {
            batches,
            next: 0,
            reads: 0,
        }
    }
}

impl Read for Batches<'_> {
    fn read(&mut self, buf: &mut [u8]) -> io::Result<usize> {
        self.reads = self.reads.saturating_add(1);
        let Some(batch) = self.batches.get(self.next) else {
            return Ok(0);
        };
        self.next = self.next.saturating_add(1);
        let mut bytes: &[u8] = batch;
        bytes.read(buf)
    }
}

/// Takes all bytes of a call, and counts calls.
#[derive(Drop)]
pub struct Whole {
    pub written: Vec<u8>,
    pub writes: u64,
    pub flushes: u64,
}

impl Whole {
    pub fn new(alloc: Global) -> Whole {
        Whole {
            written: Vec::new(alloc),
            writes: 0,
            flushes: 0,
        }
    }
}

impl Write for Whole {
    fn write(&mut self, buf: &[u8]) -> io::Result<usize> {
        self.writes = self.writes.saturating_add(1);
        self.written.extend_from_slice(buf)?;
        Ok(buf.len())
    }

    fn flush(&mut self) -> io::Result<()> {
        self.flushes = self.flushes.saturating_add(1);
        Ok(())
    }
}

// How many lines end in these bytes.
fn ends(bytes: &[u8]) -> u64 {
    let mut count: u64 = 0;
    for byte in bytes {
        if *byte == b'\n' {
            count = count.saturating_add(1);
        }
    }
    count
}

/// A client that gives a batch of lines a call, and looks each time how many replies are out.
#[derive(Drop)]
pub struct Asking<'a> {
    batches: Batches<'a>,
    out: &'a AtomicU64,
    given: u64,
    /// Whether it was asked for more before all that it had given was answered.
    pub was_kept_waiting: bool,
}

impl<'a> Asking<'a> {
    pub fn new(batches: &'a [&'a [u8]], out: &'a AtomicU64) -> Asking<'a> {
        Asking {
            batches: Batches::new(batches),
            out,
            given: 0,
            was_kept_waiting: false,
        }
    }
}

impl Read for Asking<'_> {
    fn read(&mut self, buf: &mut [u8]) -> io::Result<usize> {
        if self.out.load(Ordering::SeqCst) != self.given {
            self.was_kept_waiting = true;
        }
        let count = self.batches.read(buf)?;
        self.given = self.given.saturating_add(ends(&buf[..count]));
        Ok(count)
    }
}

/// Counts the replies that are out: those that were written and then flushed.
#[derive(Drop)]
pub struct Answered<'a> {
    written: u64,
    out: &'a AtomicU64,
}

impl<'a> Answered<'a> {
    pub fn new(out: &'a AtomicU64) -> Answered<'a> {
        Answered { written: 0, out }
    }
}

impl Write for Answered<'_> {
    fn write(&mut self, buf: &[u8]) -> io::Result<usize> {
        self.written = self.written.saturating_add(ends(buf));
        Ok(buf.len())
    }

    fn flush(&mut self) -> io::Result<()> {
        self.out.store(self.written, Ordering::SeqCst);
        Ok(())
    }
}
