//! A reply for each line.
ghost use Rattle.std.specs.Prelude.{◌≡◌, OnOk, IfOk, IfErr};
ghost use Rattle.sq_wire.specs.Scripts.{ScriptDone, ScriptDoneTo};
ghost use Rattle.sq_wire.specs.Runs.{AllAnswered, AnsweredTo, IsOfCall};

use crate::answering::Answering;
use crate::owed::{ended, owe, put_owed};
use crate::script::Scripted;
use sq_json::Scratch;
use sq_lines::counted::Counted;
use sq_lines::lines::{LineFault, Lines};
use sq_lines::replies::Replies;
use sq_merge::world::World;
use std::alloc::Global;
use std::io::{Read, Write};

/// How many lines a run answers at most: 2^40.
const TURNS: u64 = 1_099_511_627_776;

/// Why a run ended early, and how many lines it had answered.
#[derive(Clone, Copy, PartialEq, Eq, Debug)]
pub enum ServeFault {
    /// A read failed, or 2^40 lines are answered.
    Read(u64),
    /// A write failed. So many replies went out whole, and of the next one a front. What its line asks is done, and what those
    /// after it ask that were read before the write.
    Write(u64),
    NoMemory(u64),
    /// The next line is longer than `LIMIT` of `lines`.
    TooLong(u64),
}

/// Answers each line with a line, until the end or a fault. Replies gather, and go out together: before more is read, where no
/// whole line is held; where there is no more spare memory for them; and at the end.
pub fn answer_lines<R: Read, W: Write, A: Answering>(
    alloc: Global,
    reader: &mut Counted<R>,
    writer: &mut Counted<W>,
    answering: &mut A,
) -> Result<u64, ServeFault>
    ensures kept { A.keeps answering.old answering.new }
    // For each line in order a text that it may have for its reply, and nothing else.
    ensures ok { IfOk result (AllAnswered A.replies (R.remaining reader.old.inner) (W.contents writer.old.inner) (W.contents writer.new.inner) answering.old answering.new) }
    // Up to a fault; or there was no memory to begin, and nothing was touched.
    ensures err { IfErr result (AnsweredTo A.replies A.unanswered R.remaining reader.old reader.new W.contents writer.old writer.new answering.old answering.new) }
    // No failed call goes unnoticed.
    ensures no_failure { OnOk result ((reader.new.failed ≡ reader.old.failed) × (writer.new.failed ≡ writer.old.failed)) }
    // A fault of reading or writing is one failed call.
    ensures count { IfErr result (λ f. IsOfCall f reader.old.failed reader.new.failed writer.old.failed writer.new.failed) }
{
    let Ok(mut lines) = Lines::new(alloc) else {
        return Err(ServeFault::NoMemory(0));
    };
    let mut replies = Replies::new(alloc);
    for answered in 0..TURNS {
        if let Err(cut) = put_owed(&lines, &mut replies, writer, answered) {
            return Err(cut);
        }
        let line = match lines.next_line(alloc, reader) {
            Ok(Some(line)) => line,
            Ok(None) => return Ok(answered),
            Err(LineFault::Read) => return Err(ServeFault::Read(answered)),
            Err(LineFault::NoMemory) => {
                let fault = ServeFault::NoMemory(answered);
                return Err(ended(&mut replies, writer, answered, fault));
            }
            Err(LineFault::TooLong) => {
                let fault = ServeFault::TooLong(answered);
                return Err(ended(&mut replies, writer, answered, fault));
            }
        };
        let Ok(text) = answering.answer(alloc, &line) else {
            let fault = ServeFault::NoMemory(answered);
            return Err(ended(&mut replies, writer, answered, fault));
        };
        if let Err(cut) = owe(&mut replies, writer, answered, text.as_bytes()) {
            return Err(cut);
        }
    }
    Err(ended(&mut replies, writer, TURNS, ServeFault::Read(TURNS)))
}

// Answers each line over the world that is borrowed.
fn run_at<R: Read, W: Write>(
    alloc: Global,
    reader: &mut Counted<R>,
    writer: &mut Counted<W>,
    scripted: &mut Scripted<'_>,
) -> Result<u64, ServeFault>
    ensures same_reference { scripted.new.world.ghost_name ≡ scripted.old.world.ghost_name }
    ensures ok { IfOk result (ScriptDone (R.remaining reader.old.inner) (W.contents writer.old.inner) (W.contents writer.new.inner) scripted.old.clock scripted.old.world.now scripted.new.world.now) }
    ensures err { IfErr result (ScriptDoneTo R.remaining reader.old reader.new W.contents writer.old writer.new scripted.old.clock scripted.old.world.now scripted.new.world.now) }
    ensures no_failure { OnOk result ((reader.new.failed ≡ reader.old.failed) × (writer.new.failed ≡ writer.old.failed)) }
    ensures count { IfErr result (λ f. IsOfCall f reader.old.failed reader.new.failed writer.old.failed writer.new.failed) }
{
    answer_lines(alloc, reader, writer, scripted)
}

/// Answers each line of a script over a world.
pub fn run_script<R: Read, W: Write>(
    alloc: Global,
    reader: &mut Counted<R>,
    writer: &mut Counted<W>,
    world: &mut World,
) -> Result<u64, ServeFault>
    // For each line in order the text of a call on it, and nothing else.
    ensures ok { IfOk result (ScriptDone (R.remaining reader.old.inner) (W.contents writer.old.inner) (W.contents writer.new.inner) 0 world.old world.new) }
    // Up to a fault; or there was no memory to begin, and nothing was touched.
    ensures err { IfErr result (ScriptDoneTo R.remaining reader.old reader.new W.contents writer.old writer.new 0 world.old world.new) }
    // No failed call goes unnoticed.
    ensures no_failure { OnOk result ((reader.new.failed ≡ reader.old.failed) × (writer.new.failed ≡ writer.old.failed)) }
    // A fault of reading or writing is one failed call.
    ensures count { IfErr result (λ f. IsOfCall f reader.old.failed reader.new.failed writer.old.failed writer.new.failed) }
{
    let Ok(mut scratch) = Box::new(alloc, Scratch::new(alloc)) else {
        return Err(ServeFault::NoMemory(0));
    };
    let mut scripted = Scripted {
        scratch: &mut scratch,
        world,
        clock: 0,
    };
    run_at(alloc, reader, writer, &mut scripted)
}
