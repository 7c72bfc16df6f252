//! Reading a line.
ghost use Rattle.std.specs.Prelude.{true, false, IfNone, ◌≡◌, ◌≢◌, ◌∷◌, ◌++◌, [], IfOk, IfErr, IfSome, MatchOption, option_map, Some, OnOk, OnErr, ◌<◌, ◌≤◌, ◌+◌, take, drop, length, vec_len, vec_capacity};
ghost use Rattle.sq_lines.specs.Lines.{lines_left, lines_of, read_of, none_read, has_feed, FirstIsOver, FirstIsWithin, GoesOn, OneMore};
ghost use Rattle.sq_lines.specs.inside.Capacities.{grown_capacity};
ghost use Rattle.sq_lines.specs.declared.lines.LineFault.TheVariants.{TooLong, Read, NoMemory};

use crate::buffer::Buffer;
use crate::counted::Counted;
use memchr::memchr;
use std::alloc::{AllocError, Global};
use std::io::Read;
use std::marker::Model;
use std::mem;

/// The greatest number of bytes in a line.
pub const LIMIT: usize = 8_388_608;

/// It does nothing: its contract is the law that says which number the limit of contracts is.
pub fn limit_is_known()
    ensures { LIMIT ≡ 8388608 }
{}

/// Why there is no next line.
#[derive(Clone, Copy, PartialEq, Eq, Debug)]
pub enum LineFault {
    /// A read failed.
    Read,
    NoMemory,
    /// The next line is longer than `LIMIT`.
    TooLong,
}

/// What was read and not yet given out: the front of a line, and what was read behind it.
#[derive(Drop)]
pub struct Lines {
    begun: Vec<u8>,
    ahead: Buffer,
}

impl Model for Lines {
    ghost use Rattle.std.specs.Prelude.{◌≡◌, ◌≤◌, false, vec_len};
    ghost use Rattle.sq_lines.specs.Lines.{has_feed, LinesValue};
    ghost use Rattle.sq_lines.specs.declared.lines.TheConstants.{LIMIT};

    ghost Value = { LinesValue };

    ghost view = { λ l. record { begun = l.begun.items; ahead = l.ahead } };

    ghost invariant = { λ l. (has_feed l.begun.items ≡ false) × (vec_len l.begun ≤ LIMIT) };
}

// Capacity for so many bytes more of a line: twice what there was, or what they need where that is more, but no more than the
// longest line has. Where there is spare memory for them already, that stays.
fn reserve_for(begun: &mut Vec<u8>, more: usize) -> Result<(), AllocError>
    requires { vec_len begun.old + more ≤ LIMIT }
    ensures items { begun.new.items ≡ begun.old.items }
    ensures len { vec_len begun.new ≡ vec_len begun.old }
    ensures capacity { OnOk result (vec_capacity begun.new ≡ grown_capacity (vec_capacity begun.old) (vec_len begun.old + more)) }
    ensures full { OnErr result (vec_capacity begun.old < vec_len begun.old + more) }
{
    let wanted = begun.len() + more;
    let capacity = begun.capacity();
    if wanted <= capacity {
        return Ok(());
    }
    let grown = capacity.saturating_mul(2).min(LIMIT).max(wanted);
    begun.reserve_exact(grown - begun.len())
}

// Adds bytes to a line that was begun.
fn add(begun: &mut Vec<u8>, bytes: &[u8]) -> Result<(), LineFault>
    requires { length begun.old.items + length bytes.now ≤ LIMIT }
    ensures ok { OnOk result (begun.new.items ≡ begun.old.items ++ bytes.now) }
    ensures err { OnErr result (begun.new.items ≡ begun.old.items) }
    ensures memory { IfErr result (λ e. e ≡ NoMemory) }
    ensures full { OnErr result (vec_capacity begun.old < vec_len begun.old + length bytes.now) }
{
    let Ok(()) = reserve_for(begun, bytes.len()) else {
        return Err(LineFault::NoMemory);
    };
    let Ok(()) = begun.extend_from_slice(bytes) else {
        return Err(LineFault::NoMemory);
    };
    Ok(())
}

// Ends the line that was begun before the line feed at a place of what was read ahead.
fn end_line(
    alloc: Global,
    begun: &mut Vec<u8>,
    ahead: &mut Buffer,
    at: usize,
) -> Result<Vec<u8>, LineFault>
    requires place { at < length ahead.old }
    requires limit { length begun.old.items ≤ LIMIT }
    ensures line { IfOk result (λ line. line.items ≡ begun.old.items ++ take at ahead.old) }
    ensures within { IfOk result (λ line. length line.items ≤ LIMIT) }
    ensures rest { OnOk result (ahead.new ≡ drop (at + 1) ahead.old) }
    ensures none { OnOk result (begun.new.items ≡ []) }
    ensures kept { OnErr result ((begun.new.items ≡ begun.old.items) × (ahead.new ≡ ahead.old)) }
    ensures long { IfErr result (λ e. e ≡ TooLong → LIMIT < length begun.old.items + at) }
    // It reports that memory is out only of bytes that are within the limit and do not fit.
    ensures some { IfErr result (λ e. e ≡ NoMemory → 0 < at) }
    ensures fits { IfErr result (λ e. e ≡ NoMemory → length begun.old.items + at ≤ LIMIT) }
    ensures capacity { IfErr result (λ e. e ≡ NoMemory → vec_capacity begun.old < vec_len begun.old + at) }
    ensures never_read { IfErr result (λ e. e ≡ Read → ⊥) }
{
    if at > LIMIT - begun.len() {
        return Err(LineFault::TooLong);
    }
    add(begun, &ahead.bytes()[..at])?;
    ahead.consume(at + 1);
    Ok(mem::replace(begun, Vec::new(alloc)))
}

// Adds what was read ahead to the line that was begun.
fn add_ahead(begun: &mut Vec<u8>, ahead: &mut Buffer) -> Result<(), LineFault>
    requires limit { length begun.old.items ≤ LIMIT }
    ensures line { OnOk result (begun.new.items ≡ begun.old.items ++ ahead.old) }
    ensures within { length begun.new.items ≤ LIMIT }
    ensures rest { OnOk result (ahead.new ≡ []) }
    ensures kept { OnErr result ((begun.new.items ≡ begun.old.items) × (ahead.new ≡ ahead.old)) }
    ensures long { IfErr result (λ e. e ≡ TooLong → LIMIT < length begun.old.items + length ahead.old) }
    // It reports that memory is out only of bytes that are within the limit and do not fit.
    ensures some { IfErr result (λ e. e ≡ NoMemory → 0 < length ahead.old) }
    ensures fits { IfErr result (λ e. e ≡ NoMemory → length begun.old.items + length ahead.old ≤ LIMIT) }
    ensures capacity { IfErr result (λ e. e ≡ NoMemory → vec_capacity begun.old < vec_len begun.old + length ahead.old) }
    ensures never_read { IfErr result (λ e. e ≡ Read → ⊥) }
{
    let count = ahead.bytes().len();
    if count > LIMIT - begun.len() {
        return Err(LineFault::TooLong);
    }
    add(begun, ahead.bytes())?;
    ahead.consume(count);
    Ok(())
}

// The line that was begun, where it has a byte.
fn last_line(alloc: Global, begun: &mut Vec<u8>) -> Option<Vec<u8>>
    ensures line { MatchOption result (begun.old.items ≡ []) (λ line. (line.items ≡ begun.old.items) × (0 < length begun.old.items)) }
    ensures none { begun.new.items ≡ [] }
{
    if begun.is_empty() {
        None
    } else {
        Some(mem::replace(begun, Vec::new(alloc)))
    }
}

impl Lines {
    /// Whether a whole line was read already, so that `next_line` does not read.
    pub fn holds_line(&self) -> bool
        ensures { result ≡ has_feed self.now.ahead }
    {
        memchr(b'\n', self.ahead.bytes()).is_some()
    }

    pub fn new(alloc: Global) -> Result<Lines, AllocError>
        ensures { IfOk result (λ l. l ≡ none_read) }
    {
        Ok(Lines {
            begun: Vec::new(alloc),
            ahead: Buffer::new(alloc)?,
        })
    }

    /// The next line without its line feed, or none at the end. It reads no more than it must, and
    /// keeps what it has read where there is a fault.
    pub fn next_line<R: Read>(
        &mut self,
        alloc: Global,
        reader: &mut Counted<R>,
    ) -> Result<Option<Vec<u8>>, LineFault>
        ensures taken { IfOk result (λ next. IfSome (lines_left (read_of self.old) (R.remaining reader.old.inner)) (λ lines.
            MatchOption next (lines ≡ []) (λ line. option_map (λ rest. line.items ∷ rest) (lines_left (read_of self.new) (R.remaining reader.new.inner)) ≡ Some lines))) }
        ensures unbroken { has_feed self.new.begun ≡ false }
        ensures within { IfOk result (λ next. IfSome next (λ line. length line.items ≤ LIMIT)) }
        ensures kept { OnErr result (IfSome (lines_left (read_of self.old) (R.remaining reader.old.inner)) (λ lines. lines_left (read_of self.new) (R.remaining reader.new.inner) ≡ Some lines)) }
        ensures long { IfErr result (λ e. e ≡ TooLong → FirstIsOver LIMIT (lines_of (read_of self.new))) }
        ensures long_line { IfErr result (λ e. e ≡ TooLong → IfSome (lines_left (read_of self.old) (R.remaining reader.old.inner)) (λ lines. FirstIsOver LIMIT lines)) }
        // It reports that memory is out only of bytes that were to be put to a line, of which no more than the limit is read.
        ensures wanted { IfErr result (λ e. e ≡ NoMemory → GoesOn self.new.ahead) }
        ensures memory { IfErr result (λ e. e ≡ NoMemory → FirstIsWithin LIMIT (lines_of (read_of self.new))) }
        ensures memory_line { IfErr result (λ e. e ≡ NoMemory → IfSome (lines_left (read_of self.old) (R.remaining reader.old.inner)) (λ lines. 0 < length lines)) }
        // It does not read where it holds a whole line.
        ensures held { has_feed self.old.ahead ≡ true → reader.new ≡ reader.old }
        ensures ended { IfOk result (λ next. IfNone next (has_feed self.old.ahead ≡ false)) }
        ensures failed { IfErr result (λ e. e ≡ Read → has_feed self.old.ahead ≡ false) }
        ensures no_failure { OnOk result (reader.new.failed ≡ reader.old.failed) }
        ensures count { IfErr result (λ e. e ≡ Read → OneMore reader.old.failed reader.new.failed) }
        ensures else_no_failure { IfErr result (λ e. e ≢ Read → reader.new.failed ≡ reader.old.failed) }
    {
        loop {
            if let Some(at) = memchr(b'\n', self.ahead.bytes()) {
                match end_line(alloc, &mut self.begun, &mut self.ahead, at) {
                    Ok(line) => return Ok(Some(line)),
                    Err(fault) => return Err(fault),
                }
            }
            if let Err(fault) = add_ahead(&mut self.begun, &mut self.ahead) {
                return Err(fault);
            }
            let Ok(count) = self.ahead.fill(reader) else {
                return Err(LineFault::Read);
            };
            if count == 0 {
                return Ok(last_line(alloc, &mut self.begun));
            }
        }
    }
}
