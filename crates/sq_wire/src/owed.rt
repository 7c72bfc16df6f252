//! The replies that a run owes: those of lines that are answered, which have not gone out.
ghost use Rattle.std.specs.Prelude.{◌≡◌, ◌⊎◌, ◌≤◌, ◌+◌, ◌++◌, ◌∷◌, [], false, OnOk, OnErr, IfErr, length};
ghost use Rattle.std.specs.Io.KnownBytes.{Appends};
ghost use Rattle.sq_lines.specs.Lines.{has_feed, with_feeds, OneMore};
ghost use Rattle.sq_lines.specs.Replies.{PutsFirst};
ghost use Rattle.sq_wire.specs.inside.Owed.{CutAt};

use crate::run::ServeFault;
use sq_lines::counted::Counted;
use sq_lines::lines::Lines;
use sq_lines::replies::Replies;
use std::io::Write;

// Puts out all that is owed of so many lines.
fn put_all<W: Write>(
    replies: &mut Replies,
    writer: &mut Counted<W>,
    answered: u64,
) -> Result<(), ServeFault>
    requires { length replies.old ≤ answered }
    ensures ok { OnOk result (Appends (W.contents writer.old.inner) (W.contents writer.new.inner) (with_feeds replies.old)) }
    ensures none { OnOk result (replies.new ≡ []) }
    ensures cut { IfErr result (λ f. CutAt f answered (W.contents writer.old.inner) (W.contents writer.new.inner) replies.old) }
    ensures no_failure { OnOk result (writer.new.failed ≡ writer.old.failed) }
    ensures count { OnErr result (OneMore writer.old.failed writer.new.failed) }
{
    let waiting = replies.len() as u64;
    match replies.put_out(writer) {
        Ok(()) => Ok(()),
        Err(whole) => Err(ServeFault::Write(answered - waiting + whole as u64)),
    }
}

/// Puts out what is owed of so many lines, where the next line is still to be read.
pub(crate) fn put_owed<W: Write>(
    lines: &Lines,
    replies: &mut Replies,
    writer: &mut Counted<W>,
    answered: u64,
) -> Result<(), ServeFault>
    requires { length replies.old ≤ answered }
    ensures ok { OnOk result (PutsFirst (W.contents writer.old.inner) (W.contents writer.new.inner) replies.old replies.new) }
    // Nothing is owed while more is read.
    ensures none { OnOk result (has_feed lines.now.ahead ≡ false → replies.new ≡ []) }
    ensures cut { IfErr result (λ f. CutAt f answered (W.contents writer.old.inner) (W.contents writer.new.inner) replies.old) }
    ensures no_failure { OnOk result (writer.new.failed ≡ writer.old.failed) }
    ensures count { OnErr result (OneMore writer.old.failed writer.new.failed) }
{
    if lines.holds_line() {
        return Ok(());
    }
    put_all(replies, writer, answered)
}

/// Owes one reply more, of the line after so many, or puts it out with all others.
pub(crate) fn owe<W: Write>(
    replies: &mut Replies,
    writer: &mut Counted<W>,
    answered: u64,
    text: &[u8],
) -> Result<(), ServeFault>
    requires { length replies.old ≤ answered }
    ensures ok { OnOk result (PutsFirst (W.contents writer.old.inner) (W.contents writer.new.inner) (replies.old ++ text.now ∷ []) replies.new) }
    ensures cut { IfErr result (λ f. CutAt f (answered + 1) (W.contents writer.old.inner) (W.contents writer.new.inner) (replies.old ++ text.now ∷ [])) }
    ensures no_failure { OnOk result (writer.new.failed ≡ writer.old.failed) }
    ensures count { OnErr result (OneMore writer.old.failed writer.new.failed) }
{
    let waiting = replies.len() as u64;
    match replies.add(writer, text) {
        Ok(()) => Ok(()),
        Err(count) => Err(ServeFault::Write(answered - waiting + count as u64)),
    }
}

/// What a run ends with at a fault: what is owed goes out before. A write that fails then is the fault in its place.
pub(crate) fn ended<W: Write>(
    replies: &mut Replies,
    writer: &mut Counted<W>,
    answered: u64,
    fault: ServeFault,
) -> ServeFault
    requires { length replies.old ≤ answered }
    ensures { ((result ≡ fault) × Appends (W.contents writer.old.inner) (W.contents writer.new.inner) (with_feeds replies.old) × (writer.new.failed ≡ writer.old.failed))
        ⊎ (CutAt result answered (W.contents writer.old.inner) (W.contents writer.new.inner) replies.old × OneMore writer.old.failed writer.new.failed) }
{
    match put_all(replies, writer, answered) {
        Ok(()) => fault,
        Err(cut) => cut,
    }
}
