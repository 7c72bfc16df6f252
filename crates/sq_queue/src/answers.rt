//! What each call tells by its own type, out of the answers of all calls.
ghost use Rattle.std.specs.Prelude.{◌≡◌, IfOk};
ghost use Rattle.sq_calls.specs.declared.calls.Answer.TheVariants as answer;
ghost use Rattle.sq_queue.specs.Named.{IsOfKind, answered_as, done_answer, sent_answer};

use sq_base::message_id::MessageId;
use sq_base::name::QueueName;
use sq_base::refusal::Refusal;
use sq_calls::batches::EntryResult;
use sq_calls::calls::{Answer, ShownAttributes};
use sq_calls::digest::Digest;
use sq_calls::received_messages::ReceivedMessages;
use sq_model::item::TaskNo;
use sq_model::listed::Listed;
use sq_model::task::Task;

/// What a send tells: the id of the message, and the digest of its body.
#[derive(Drop)]
pub struct SendMessageResult {
    pub id: MessageId,
    pub digest: Digest,
}

/// What a send tells.
pub(crate) fn sent(told: Result<Answer, Refusal>) -> Result<SendMessageResult, Refusal>
    requires { IfOk told (IsOfKind sent_answer) }
    ensures { answered_as sent_answer result ≡ told }
{
    match told? {
        Answer::Sent(id, digest) => Ok(SendMessageResult { id, digest }),
        _ => unreachable!(),
    }
}

/// What a receive tells.
pub(crate) fn received(told: Result<Answer, Refusal>) -> Result<ReceivedMessages, Refusal>
    requires { IfOk told (IsOfKind answer.Received) }
    ensures { answered_as answer.Received result ≡ told }
{
    match told? {
        Answer::Received(messages) => Ok(messages),
        _ => unreachable!(),
    }
}

/// What a call tells that has nothing to tell.
pub(crate) fn done(told: Result<Answer, Refusal>) -> Result<(), Refusal>
    requires { IfOk told (IsOfKind done_answer) }
    ensures { answered_as done_answer result ≡ told }
{
    match told? {
        Answer::Done => Ok(()),
        _ => unreachable!(),
    }
}

/// What a call tells whose answer is a queue.
pub(crate) fn queue(told: Result<Answer, Refusal>) -> Result<QueueName, Refusal>
    requires { IfOk told (IsOfKind answer.Queue) }
    ensures { answered_as answer.Queue result ≡ told }
{
    match told? {
        Answer::Queue(name) => Ok(name),
        _ => unreachable!(),
    }
}

/// What ListQueues tells.
pub(crate) fn queues(told: Result<Answer, Refusal>) -> Result<Listed<QueueName>, Refusal>
    requires { IfOk told (IsOfKind answer.Queues) }
    ensures { answered_as answer.Queues result ≡ told }
{
    match told? {
        Answer::Queues(names) => Ok(names),
        _ => unreachable!(),
    }
}

/// What ListDeadLetterSourceQueues tells.
pub(crate) fn sources(told: Result<Answer, Refusal>) -> Result<Listed<QueueName>, Refusal>
    requires { IfOk told (IsOfKind answer.Sources) }
    ensures { answered_as answer.Sources result ≡ told }
{
    match told? {
        Answer::Sources(names) => Ok(names),
        _ => unreachable!(),
    }
}

/// What GetQueueAttributes tells.
pub(crate) fn attributes(told: Result<Answer, Refusal>) -> Result<ShownAttributes, Refusal>
    requires { IfOk told (IsOfKind answer.Attributes) }
    ensures { answered_as answer.Attributes result ≡ told }
{
    match told? {
        Answer::Attributes(shown) => Ok(shown),
        _ => unreachable!(),
    }
}

/// What StartMessageMoveTask tells.
pub(crate) fn started(told: Result<Answer, Refusal>) -> Result<TaskNo, Refusal>
    requires { IfOk told (IsOfKind answer.Started) }
    ensures { answered_as answer.Started result ≡ told }
{
    match told? {
        Answer::Started(task) => Ok(task),
        _ => unreachable!(),
    }
}

/// What CancelMessageMoveTask tells.
pub(crate) fn cancelled(told: Result<Answer, Refusal>) -> Result<u64, Refusal>
    requires { IfOk told (IsOfKind answer.Cancelled) }
    ensures { answered_as answer.Cancelled result ≡ told }
{
    match told? {
        Answer::Cancelled(moved) => Ok(moved),
        _ => unreachable!(),
    }
}

/// What ListMessageMoveTasks tells.
pub(crate) fn tasks(told: Result<Answer, Refusal>) -> Result<Listed<Task>, Refusal>
    requires { IfOk told (IsOfKind answer.Tasks) }
    ensures { answered_as answer.Tasks result ≡ told }
{
    match told? {
        Answer::Tasks(tasks) => Ok(tasks),
        _ => unreachable!(),
    }
}

/// What a batch tells.
pub(crate) fn entries(told: Result<Answer, Refusal>) -> Result<Listed<EntryResult>, Refusal>
    requires { IfOk told (IsOfKind answer.Batch) }
    ensures { answered_as answer.Batch result ≡ told }
{
    match told? {
        Answer::Batch(results) => Ok(results),
        _ => unreachable!(),
    }
}
