//! What is told of the entries of a batch.
ghost use Rattle.std.specs.Prelude.{◌≡◌};
ghost use Rattle.sq_replies.specs.Replies.{is_senders_fault, failed_data, entry_data, failures, successes, batch_data};
ghost use Rattle.sq_replies.specs.inside.Told.{Adds, tokens_of, all_tokens};

use crate::reply::id_text;
use crate::text::ascii_text;
use crate::writing::{
    Writer, begin_list, begin_text, end_flag, end_list, end_text, next_list, write_only_text,
    write_text,
};
use sq_base::refusal::Refusal;
use sq_calls::batches::{EntryAnswer, EntryId, EntryResult};
use std::alloc::AllocError;
use uuid::Uuid;

/// What failed, and what did not (SQS API Reference, SendMessageBatch, DeleteMessageBatch, ChangeMessageVisibilityBatch).
pub(crate) fn write_batch(out: &mut Writer, told: &[EntryResult]) -> Result<(), AllocError>
    ensures { Adds result out.old out.new (tokens_of (batch_data told.now)) }
{
    begin_list(out, "Failed")?;
    write_failures(out, told)?;
    next_list(out, "Successful")?;
    write_successes(out, told)?;
    end_list(out)
}

#[tactic(auto, using(crate::proofs::BatchLaws::failures_grow))]
fn write_failures(out: &mut Writer, told: &[EntryResult]) -> Result<(), AllocError>
    ensures { Adds result out.old out.new (all_tokens (failures told.now)) }
{
    for entry in told {
        if let Err(refusal) = &entry.answer {
            write_failed(out, &entry.id, *refusal)?;
        }
    }
    Ok(())
}

#[tactic(auto, using(crate::proofs::BatchLaws::successes_grow))]
fn write_successes(out: &mut Writer, told: &[EntryResult]) -> Result<(), AllocError>
    ensures { Adds result out.old out.new (all_tokens (successes told.now)) }
{
    for entry in told {
        if let Ok(answer) = &entry.answer {
            write_entry(out, &entry.id, answer)?;
        }
    }
    Ok(())
}

fn write_failed(out: &mut Writer, id: &EntryId, refusal: Refusal) -> Result<(), AllocError>
    ensures { Adds result out.old out.new (tokens_of (failed_data id.now refusal)) }
{
    begin_text(out, "Code", refusal.name())?;
    write_text(out, "Id", id.as_str())?;
    end_flag(out, "SenderFault", is_senders_fault(refusal))
}

fn write_entry(out: &mut Writer, id: &EntryId, answer: &EntryAnswer) -> Result<(), AllocError>
    ensures { Adds result out.old out.new (tokens_of (entry_data id.now answer.now)) }
{
    match answer {
        EntryAnswer::Sent(message, digest) => {
            let mut uuid = Uuid::encode_buffer();
            begin_text(out, "Id", id.as_str())?;
            write_text(out, "MD5OfMessageBody", ascii_text(digest.digits()))?;
            end_text(out, "MessageId", id_text(message, &mut uuid))
        }
        EntryAnswer::Done => write_only_text(out, "Id", id.as_str()),
    }
}

// Whether who sent an entry is at fault.
fn is_senders_fault(refusal: Refusal) -> bool
    ensures { result ≡ is_senders_fault refusal }
{
    match refusal {
        Refusal::NoMemory | Refusal::ClockRange | Refusal::Worn | Refusal::HomeDraining => false,
        _ => true,
    }
}
