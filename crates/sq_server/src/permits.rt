//! Permits to read on in long lines: a few connections at once have one, and the bytes of the others wait in their sockets.
ghost use Rattle.std.specs.Prelude.{◌≡◌, ◌≢◌, ◌<◌, ◌≤◌, ◌+◌, ◌-◌, ◌^◌, ◌%◌, false, min, true};
ghost use Rattle.std.specs.Io.{ReadsAtMost};
ghost use Rattle.std.specs.Io.KnownBytes.{ReadConsumes};
ghost use Rattle.sq_server.specs.inside.Permits.{IsBegun};

use memchr::memrchr;
use sq_wire::long_lines::SHORT;
use std::io::{Read, Result};
use std::sync::{Condvar, CondvarTimeouts, Mutex, Wait};
use std::time::{Clock, Duration};

/// How many connections at once read on in a long line by a permit.
const MANY: u64 = 8;

/// How long is waited for a permit while none is given back, in s.
const SECONDS: u64 = 1;

/// How often that is waited in all.
const TIMES: u32 = 60;

/// How many permits are free, and how many were given back, which goes on from 0 after the greatest u64.
#[derive(Drop)]
struct Tally {
    free: u64,
    returned: u64,
}

impl Tally {
    // Takes one that is free, and tells whether there was one.
    fn take(&mut self) -> bool
        ensures taken { result ≡ true → self.old.free ≡ self.new.free + 1 }
        ensures none { result ≡ false → (self.old.free ≡ 0) × (self.new.free ≡ 0) }
        ensures returned { self.new.returned ≡ self.old.returned }
    {
        let is_free = self.free > 0;
        if is_free {
            self.free -= 1;
        }
        is_free
    }

    // Gives one back.
    fn give_back(&mut self)
        ensures free { self.new.free ≡ min (self.old.free + 1) (2 ^ 64 - 1) }
        ensures returned { self.new.returned ≡ (self.old.returned + 1) % 2 ^ 64 }
    {
        self.free = self.free.saturating_add(1);
        self.returned = self.returned.wrapping_add(1);
    }
}

/// The permits of all connections.
#[derive(Drop)]
pub(crate) struct Permits {
    tally: Mutex<Tally>,
    given_back: Condvar,
}

impl Permits {
    pub(crate) fn new() -> Permits {
        Permits {
            tally: Mutex::new(Tally {
                free: MANY,
                returned: 0,
            }),
            given_back: Condvar::new(),
        }
    }

    // Takes a permit, once one is free. None where none was given back for `SECONDS`, or none was free for a minute.
    fn take<'a, R: Clock + Wait>(&'a self, rt: &'a R) -> Option<Permit<'a, R>> {
        let wait = Duration::from_secs(SECONDS);
        let mut tally = self.tally.lock(rt);
        for _ in 0..TIMES {
            let returned = tally.returned;
            let (guard, _) = self
                .given_back
                .wait_timeout_while(rt, tally, wait, |t| t.free == 0);
            tally = guard;
            if tally.take() {
                return Some(Permit { rt, permits: self });
            }
            if tally.returned == returned {
                return None;
            }
        }
        None
    }

    fn give_back(&self, rt: &impl Wait) {
        self.tally.lock(rt).give_back();
        self.given_back.notify_one();
    }
}

/// A permit, which is given back where it is dropped.
struct Permit<'a, R: Wait> {
    rt: &'a R,
    permits: &'a Permits,
}

impl<'a, R: Wait> Drop for Permit<'a, R> {
    fn drop(self) {
        self.permits.give_back(self.rt);
        let Permit { rt: _, permits: _ } = self;
    }
}

/// How a connection reads on.
#[derive(Drop)]
enum Reading<'a, R: Wait> {
    /// In a short line.
    Short,
    /// In a long line, by a permit.
    Permitted(Permit<'a, R>),
    /// In a long line, after it waited for a permit in vain.
    Waited,
}

/// A reader of lines that reads on in long ones by a permit. What it gave in lines up to the last line feed was answered before
/// it is asked for more.
#[derive(Drop)]
pub(crate) struct ByPermit<'a, R: Wait, I> {
    rt: &'a R,
    permits: &'a Permits,
    inner: I,
    begun: u64,
    reading: Reading<'a, R>,
}

// How many bytes of a line were read, once these were read behind so many.
fn begun_with(begun: u64, bytes: &[u8]) -> u64
    ensures { IsBegun begun bytes.now result }
{
    match memrchr(b'\n', bytes) {
        Some(feed) => (bytes.len() - (feed + 1)) as u64,
        None => begun.saturating_add(bytes.len() as u64),
    }
}

impl<'a, R: Clock + Wait, I: Read> ByPermit<'a, R, I> {
    pub(crate) fn new(rt: &'a R, permits: &'a Permits, inner: I) -> ByPermit<'a, R, I>
        ensures { result.inner ≡ inner }
    {
        ByPermit {
            rt,
            permits,
            inner,
            begun: 0,
            reading: Reading::Short,
        }
    }

    // Gives its permit back where its line has ended, and waits for one where its line is long.
    fn get_ready(&mut self)
        ensures inner { self.new.inner ≡ self.old.inner }
        ensures begun { self.new.begun ≡ self.old.begun }
        ensures short { self.old.begun ≤ SHORT → self.new.reading ≡ Reading.Short }
        ensures long { SHORT < self.old.begun → self.new.reading ≢ Reading.Short }
        ensures same { SHORT < self.old.begun → self.old.reading ≢ Reading.Short → self.new.reading ≡ self.old.reading }
    {
        if self.begun <= SHORT as u64 {
            self.reading = Reading::Short;
            return;
        }
        if let Reading::Short = self.reading {
            self.reading = match self.permits.take(self.rt) {
                Some(permit) => Reading::Permitted(permit),
                None => Reading::Waited,
            };
        }
    }
}

impl<'a, R: Clock + Wait, I: Read> Read for ByPermit<'a, R, I> {
    ghost remaining = { λ b. I.remaining b.inner };

    fn read(&mut self, buf: &mut [u8]) -> Result<usize>
        ensures bound { ReadsAtMost result buf.new }
        ensures bytes { ReadConsumes (I.remaining self.old.inner) (I.remaining self.new.inner) result buf.new }
    {
        self.get_ready();
        let many = self.inner.read(buf)?;
        self.begun = begun_with(self.begun, &buf[..many]);
        Ok(many)
    }
}
