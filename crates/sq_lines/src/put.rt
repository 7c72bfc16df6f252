//! Writing all of a text.
ghost use Rattle.std.specs.Prelude.{◌≡◌, ◌<◌, ◌≤◌, ◌++◌, ◌∷◌, [], take, OnOk, OnErr, IfErr, ℕ, length};
ghost use Rattle.std.specs.Io.KnownBytes.{Appends};
ghost use Rattle.sq_lines.specs.Lines.{OneMore};

use crate::counted::Counted;
use std::io::Write;

/// A write or a flush failed, which its writer has counted.
#[derive(Drop)]
pub struct Unwritten;

// Writes all of a text, or answers how many of its bytes were written.
pub(crate) fn put<W: Write>(writer: &mut Counted<W>, text: &[u8]) -> Result<(), usize>
    ensures ok { OnOk result (Appends (W.contents writer.old.inner) (W.contents writer.new.inner) text.now) }
    ensures err { IfErr result (λ n. Appends (W.contents writer.old.inner) (W.contents writer.new.inner) (take n text.now)) }
    ensures within { IfErr result (λ n. n < length text.now) }
    ensures no_failure { OnOk result (writer.new.failed ≡ writer.old.failed) }
    ensures count { IfErr result (λ _. OneMore writer.old.failed writer.new.failed) }
{
    let mut at = 0;
    while at < text.len() {
        match writer.write(&text[at..]) {
            Ok(0) => return Err(at),
            Ok(n) => at += n,
            Err(_) => return Err(at),
        }
    }
    Ok(())
}

/// Writes a text and what it ends with, and flushes them. Where a call failed, what went out is a front of both.
pub fn put_out<W: Write>(writer: &mut Counted<W>, text: &[u8], end: &[u8]) -> Result<(), Unwritten>
    ensures ok { OnOk result (Appends (W.contents writer.old.inner) (W.contents writer.new.inner) (text.now ++ end.now)) }
    ensures err { OnErr result ((part : ℕ) × Appends (W.contents writer.old.inner) (W.contents writer.new.inner) (take part (text.now ++ end.now))) }
    ensures no_failure { OnOk result (writer.new.failed ≡ writer.old.failed) }
    ensures count { OnErr result (OneMore writer.old.failed writer.new.failed) }
{
    if let Err(_count) = put(writer, text) {
        return Err(Unwritten);
    }
    if let Err(_count) = put(writer, end) {
        return Err(Unwritten);
    }
    match writer.flush() {
        Ok(()) => Ok(()),
        Err(_) => Err(Unwritten),
    }
}

/// Writes a text and a line feed, and flushes them. Where a call failed, what went out is a front of both.
pub fn put_line<W: Write>(writer: &mut Counted<W>, text: &[u8]) -> Result<(), Unwritten>
    ensures ok { OnOk result (Appends (W.contents writer.old.inner) (W.contents writer.new.inner) (text.now ++ 10 ∷ [])) }
    ensures err { OnErr result ((part : ℕ) × Appends (W.contents writer.old.inner) (W.contents writer.new.inner) (take part (text.now ++ 10 ∷ []))) }
    ensures no_failure { OnOk result (writer.new.failed ≡ writer.old.failed) }
    ensures count { OnErr result (OneMore writer.old.failed writer.new.failed) }
{
    put_out(writer, text, b"\n")
}
