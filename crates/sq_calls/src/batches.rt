//! Batches, as values: several requests of one kind on a queue, each answered by itself
//! (SQS API Reference, SendMessageBatch, DeleteMessageBatch, ChangeMessageVisibilityBatch).
ghost use Rattle.std.specs.Prelude.{◌≡◌, IfNone, IfSome};
ghost use Rattle.sq_calls.specs.Batches.{IsBatch, are_of, have_distinct_ids, have_id, is_of};

use crate::body_text::BodyText;
use crate::digest::Digest;
use sq_base::handle::Handle;
use sq_base::message_id::MessageId;
use sq_base::name::QueueName;
use sq_base::ranges::{Delay, Timeout};
use sq_base::refusal::Refusal;
use sq_model::listed::Listed;
use std::marker::Model;

/// The id of an entry, which its answer has again: 1 to 80 of letters, digits, `-` and `_`, as a queue's name has
/// (SQS API Reference, SendMessageBatchRequestEntry, Id).
pub type EntryId = QueueName;

/// What an entry asks of its queue.
#[derive(Drop)]
pub enum EntryAsk {
    /// As SendMessage does. Characters that may not stand in a body are InvalidMessageContents.
    Send(BodyText, Option<Delay>),
    /// As DeleteMessage does; without a handle where its text is none, which is ReceiptHandleIsInvalid.
    Delete(Option<Handle>),
    /// As ChangeMessageVisibility does; without a handle where its text is none, which is ReceiptHandleIsInvalid.
    Change(Option<Handle>, Timeout),
}

/// An entry of a batch.
#[derive(Drop)]
pub struct Entry {
    pub id: EntryId,
    /// What it asks; or what it is refused as, without a step: UnsupportedOperation, if a send has message attributes, or
    /// InvalidParameterValue, if a delay, a timeout or the length of a body is out of its range.
    pub ask: Result<EntryAsk, Refusal>,
}

/// What all entries of a batch do.
#[derive(Clone, Copy, PartialEq, Eq, Debug)]
pub enum BatchKind {
    Send,
    Delete,
    Change,
}

/// How many entries a batch may have (SQS API Reference, SendMessageBatch).
pub const MOST_ENTRIES: usize = 10;

/// A batch of sends, deletes or changes at a queue: 1 to 10 entries of its kind, whose ids are distinct. One that was read from a
/// line has bodies of at most `BODY_LIMIT` bytes together, too.
#[derive(Drop)]
pub struct Batch {
    queue: QueueName,
    kind: BatchKind,
    entries: Listed<Entry>,
}

impl Model for Batch {
    ghost use Rattle.sq_calls.specs.BatchValue.{BatchValue};
    ghost use Rattle.sq_calls.specs.Batches.{IsBatch};

    ghost Value = { BatchValue };

    ghost view = { λ b. record { queue = b.queue; kind = b.kind; entries = b.entries } };

    ghost invariant = { λ b. IsBatch b.kind b.entries };
}

impl Batch {
    /// A batch of these entries. None where there is none or are more than ten, where one is of another kind, or where two have one
    /// id.
    pub fn new(queue: QueueName, kind: BatchKind, entries: Listed<Entry>) -> Option<Batch>
        ensures made { IfSome result (λ b. b ≡ record { queue = queue; kind = kind; entries = entries }) }
        ensures refused { IfNone result (¬ IsBatch kind entries) }
    {
        let all = entries.as_slice();
        if all.is_empty() || all.len() > MOST_ENTRIES {
            return None;
        }
        if !are_of(kind, all) || !have_distinct_ids(all) {
            return None;
        }
        Some(Batch {
            queue,
            kind,
            entries,
        })
    }

    /// The queue that its entries are done at.
    pub fn queue(&self) -> QueueName
        ensures { result ≡ self.now.queue }
    {
        self.queue
    }

    /// What all its entries do.
    pub fn kind(&self) -> BatchKind
        ensures { result ≡ self.now.kind }
    {
        self.kind
    }

    /// Its entries, in their order.
    pub fn entries(&self) -> &[Entry]
        ensures entries { result.now ≡ self.now.entries }
        ensures batch { IsBatch self.now.kind self.now.entries }
    {
        self.entries.as_slice()
    }
}

// Whether what an entry asks is of this kind, or it is refused as one of this kind may be.
fn is_of(kind: BatchKind, ask: &Result<EntryAsk, Refusal>) -> bool
    ensures { result ≡ is_of kind ask.now }
{
    match (kind, ask) {
        (BatchKind::Send, Ok(EntryAsk::Send(_, _))) => true,
        (BatchKind::Send, Err(Refusal::UnsupportedOperation | Refusal::InvalidParameterValue)) =>
            true,
        (BatchKind::Delete, Ok(EntryAsk::Delete(_))) => true,
        (BatchKind::Change, Ok(EntryAsk::Change(_, _))) => true,
        (BatchKind::Change, Err(Refusal::InvalidParameterValue)) => true,
        _ => false,
    }
}

fn are_of(kind: BatchKind, entries: &[Entry]) -> bool
    ensures { result ≡ are_of kind entries.now }
{
    entries.iter().all(|entry| is_of(kind, &entry.ask))
}

// Whether one of these has this id.
fn have_id(id: &EntryId, entries: &[Entry]) -> bool
    ensures { result ≡ have_id id.now entries.now }
{
    entries.iter().any(|entry| *id == entry.id)
}

// Whether no two of these have one id.
fn have_distinct_ids(entries: &[Entry]) -> bool
    ensures { result ≡ have_distinct_ids entries.now }
{
    for index in 0..entries.len() {
        if have_id(&entries[index].id, &entries[index + 1..]) {
            return false;
        }
    }
    true
}

/// What an entry is answered that is not refused.
#[derive(Drop)]
pub enum EntryAnswer {
    /// The id of a message that was sent, and the digest of its body.
    Sent(MessageId, Digest),
    Done,
}

/// What became of an entry (SQS API Reference, SendMessageBatchResultEntry, BatchResultErrorEntry).
#[derive(Drop)]
pub struct EntryResult {
    pub id: EntryId,
    pub answer: Result<EntryAnswer, Refusal>,
}
