//! Bytes that were read ahead of what is asked for.
ghost use Rattle.std.specs.Prelude.{◌≡◌, ◌+◌, ◌≤◌, ◌<◌, [], take, drop, length, vec_len, IfOk, OnOk, OnErr, MatchResult};
ghost use Rattle.std.specs.Io.KnownBytes.{Consumes, Keeps, IsAtEnd};
ghost use Rattle.sq_lines.specs.Lines.{OneMore};

use crate::counted::Counted;
use std::alloc::{AllocError, Global};
use std::io::{self, Read};
use std::marker::Model;

/// How many bytes are asked for at once.
const CHUNK: usize = 65_536;

/// Bytes of a reader that nobody has taken yet. They lie on the heap, since a function pays at its
/// entry for each byte of its locals.
#[derive(Drop)]
pub struct Buffer {
    bytes: Vec<u8>,
    at: usize,
    end: usize,
}

impl Model for Buffer {
    ghost use Rattle.std.specs.Prelude.{ℕ, List, ◌≡◌, ◌≤◌, take, drop, vec_len};
    ghost use Rattle.sq_lines.specs.declared.buffer.TheConstants.{CHUNK};

    ghost Value = { List ℕ };

    ghost view = { λ b. drop b.at (take b.end b.bytes.items) };

    ghost invariant = { λ b. (b.at ≤ b.end) × (b.end ≤ vec_len b.bytes) × (vec_len b.bytes ≡ CHUNK) };
}

impl Buffer {
    pub fn new(alloc: Global) -> Result<Buffer, AllocError>
        ensures { IfOk result (λ b. b ≡ []) }
    {
        let bytes = vec![in alloc; 0u8; CHUNK]?;
        Ok(Buffer {
            bytes,
            at: 0,
            end: 0,
        })
    }

    /// The bytes that are here.
    pub fn bytes(&self) -> &[u8]
        ensures { result.now ≡ self.now }
    {
        &self.bytes[self.at..self.end]
    }

    /// Lets the first bytes go.
    pub fn consume(&mut self, count: usize)
        requires { count ≤ length self.old }
        ensures { self.new ≡ drop count self.old }
    {
        self.at += count;
    }

    /// Reads once, where no byte is here, and answers how many bytes came: none at the end alone.
    pub fn fill<R: Read>(&mut self, reader: &mut Counted<R>) -> io::Result<usize>
        requires { self.old ≡ [] }
        ensures bytes { MatchResult result (λ _. Consumes (R.remaining reader.old.inner) (R.remaining reader.new.inner) self.new) (λ _. Keeps (R.remaining reader.old.inner) (R.remaining reader.new.inner)) }
        ensures count { IfOk result (λ n. n ≡ length self.new) }
        ensures bound { length self.new ≤ CHUNK }
        ensures end { IfOk result (λ n. n ≡ 0 → IsAtEnd (R.remaining reader.new.inner)) }
        ensures fault { OnErr result (self.new ≡ []) }
        ensures no_failure { OnOk result (reader.new.failed ≡ reader.old.failed) }
        ensures failed { OnErr result (OneMore reader.old.failed reader.new.failed) }
    {
        self.at = 0;
        self.end = 0;
        let count = reader.read(&mut self.bytes)?;
        self.end = count;
        Ok(count)
    }
}
