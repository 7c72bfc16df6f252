//! Batches: each entry is done by itself, in their order, and one that is refused stops none after it.
ghost use Rattle.sq_actions.specs.Entries.{BatchAt};
ghost use Rattle.sq_actions.specs.Fits.{ByName};
ghost use Rattle.sq_actions.specs.Performs.{Performs};

use crate::lock_steps::LockSteps;
use crate::message::do_entry;
use sq_base::ids::QueueNo;
use sq_base::refusal::Refusal;
use sq_calls::batches::{Batch, EntryResult};
use sq_calls::calls::Answer;
use sq_model::listed::Listed;
use sq_model::task::NamedQueue;

/// Looks the queue up once, and does each entry.
pub(crate) fn batch<S: LockSteps>(steps: &mut S, batch: &Batch) -> Result<Answer, Refusal>
    ensures { Performs S.stepped (ByName batch.now.queue (BatchAt (S.counts steps.old).homes batch.now)) steps.old result steps.new }
{
    let of = steps.resolve(&batch.queue())?;
    do_entries(steps, of.number, batch)
}

// Each entry is done at the queue of this number. Memory for what is told of all is got before the first is done.
fn do_entries<S: LockSteps>(
    steps: &mut S,
    number: QueueNo,
    batch: &Batch,
) -> Result<Answer, Refusal>
    requires { S.knows steps.old batch.now.queue number }
    ensures { Performs S.stepped (BatchAt (S.counts steps.old).homes batch.now number) steps.old result steps.new }
{
    let of = NamedQueue {
        name: batch.queue(),
        number,
    };
    let entries = batch.entries();
    let mut told = Vec::with_capacity(steps.alloc(), entries.len())?;
    for at in 0..entries.len() {
        let entry = &entries[at];
        let answer = do_entry(steps, &of, &entry.ask);
        told.push_reserved(EntryResult {
            id: entry.id,
            answer,
        });
    }
    Ok(Answer::Batch(Listed::of(told)))
}
