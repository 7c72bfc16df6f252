//! Replies that wait to go out together.
ghost use Rattle.std.specs.Prelude.{◌≡◌, ◌++◌, ◌∷◌, [], OnOk, OnErr, IfErr, true, false, length};
ghost use Rattle.std.specs.Io.KnownBytes.{Appends};
ghost use Rattle.sq_lines.specs.Lines.{OneMore, with_feeds};
ghost use Rattle.sq_lines.specs.Replies.{PutsFirst, PutsPart, PutsShort};
ghost use Rattle.sq_lines.specs.inside.Replies.{whole_in};

use crate::counted::Counted;
use crate::put::{Unwritten, put, put_line};
use std::alloc::Global;
use std::io::Write;
use std::marker::Model;

/// How many bytes of replies wait at most.
const KEPT: usize = 65_536;

/// Replies that were made and have not gone out, each with a line feed. Contracts see their texts in order.
#[derive(Drop)]
pub struct Replies {
    bytes: Vec<u8>,
    lengths: Vec<usize>,
}

impl Model for Replies {
    ghost use Rattle.std.specs.Prelude.{ℕ, List};
    ghost use Rattle.sq_lines.specs.Replies.{texts_of, AreTexts};

    ghost Value = { List (List ℕ) };

    ghost view = { λ r. texts_of r.lengths.items r.bytes.items };

    ghost invariant = { λ r. AreTexts r.lengths.items r.bytes.items };
}

// Memory for the replies that wait, or none.
fn first_bytes(alloc: Global) -> Vec<u8>
    ensures { result.items ≡ [] }
{
    match Vec::with_capacity(alloc, KEPT) {
        Ok(bytes) => bytes,
        Err(_) => Vec::new(alloc),
    }
}

// How many texts of these lengths, each with a line feed, are whole in so many bytes.
fn whole(lengths: &[usize], written: usize) -> usize
    ensures { result ≡ whole_in lengths.now written }
{
    let mut left = written;
    for (index, length) in lengths.iter().enumerate() {
        if left <= *length {
            return index;
        }
        left -= *length + 1;
    }
    lengths.len()
}

impl Replies {
    /// None. Where there is no memory for any to wait, each goes out at once.
    pub fn new(alloc: Global) -> Replies
        ensures { result ≡ [] }
    {
        Replies {
            bytes: first_bytes(alloc),
            lengths: Vec::new(alloc),
        }
    }

    /// How many wait.
    pub fn len(&self) -> usize
        ensures { result ≡ length self.now }
    {
        self.lengths.len()
    }

    // Keeps a reply, where it fits and memory is found, and tells whether it did.
    fn keep(&mut self, text: &[u8]) -> bool
        ensures kept { result ≡ true → self.new ≡ self.old ++ text.now ∷ [] }
        ensures unchanged { result ≡ false → self.new ≡ self.old }
    {
        if self.bytes.capacity() - self.bytes.len() <= text.len() {
            return false;
        }
        let Ok(()) = self.lengths.push(text.len()) else {
            return false;
        };
        let _ = self.bytes.extend_from_slice(text);
        let _ = self.bytes.push(b'\n');
        true
    }

    /// Writes those that wait, together, and flushes them. Where a call failed, it answers how many went out whole, and all wait
    /// as they did.
    pub fn put_out<W: Write>(&mut self, writer: &mut Counted<W>) -> Result<(), usize>
        ensures ok { OnOk result (Appends (W.contents writer.old.inner) (W.contents writer.new.inner) (with_feeds self.old)) }
        ensures none { OnOk result (self.new ≡ []) }
        ensures nothing { self.old ≡ [] → writer.new ≡ writer.old }
        ensures err { IfErr result (PutsShort (W.contents writer.old.inner) (W.contents writer.new.inner) self.old) }
        ensures unchanged { OnErr result (self.new ≡ self.old) }
        ensures no_failure { OnOk result (writer.new.failed ≡ writer.old.failed) }
        ensures count { OnErr result (OneMore writer.old.failed writer.new.failed) }
    {
        let waiting = self.lengths.len();
        if waiting == 0 {
            return Ok(());
        }
        if let Err(written) = put(writer, &self.bytes) {
            return Err(whole(&self.lengths, written));
        }
        let Ok(()) = writer.flush() else {
            return Err(waiting - 1);
        };
        self.bytes.clear();
        self.lengths.clear();
        Ok(())
    }

    /// Adds a reply. One that does not fit, or for which no memory is found, goes out at once, after those that wait. Where a call failed, it
    /// answers how many of all these went out whole.
    pub fn add<W: Write>(&mut self, writer: &mut Counted<W>, text: &[u8]) -> Result<(), usize>
        ensures ok { OnOk result (PutsFirst (W.contents writer.old.inner) (W.contents writer.new.inner) (self.old ++ text.now ∷ []) self.new) }
        ensures err { IfErr result (PutsPart (W.contents writer.old.inner) (W.contents writer.new.inner) (self.old ++ text.now ∷ [])) }
        ensures no_failure { OnOk result (writer.new.failed ≡ writer.old.failed) }
        ensures count { OnErr result (OneMore writer.old.failed writer.new.failed) }
    {
        if self.keep(text) {
            return Ok(());
        }
        let waiting = self.len();
        if let Err(count) = self.put_out(writer) {
            return Err(count);
        }
        match put_line(writer, text) {
            Ok(()) => Ok(()),
            Err(Unwritten) => Err(waiting),
        }
    }
}
