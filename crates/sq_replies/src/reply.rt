//! The text of a reply.
ghost use Rattle.std.specs.Prelude.{◌≡◌, ◌≤◌, ◌||◌, ◌∷◌, [], codes, map, IfOk, OnErr, IsOk};
ghost use Rattle.json.specs.Token.{begin_object, end_object};
ghost use Rattle.hex.specs.Hex.{encode_lower};
ghost use Rattle.md5.specs.Md5.{md5};
ghost use Rattle.serde_json.specs.Written.{compact_text};
ghost use Rattle.sq_base.specs.Handles.{handle_text};
ghost use Rattle.sq_replies.specs.Replies.{error_text, handle_of, sent_data, attributes_data, message_data, id_text, received_data, answer_data, reply_text_of, OnTurned};
ghost use Rattle.sq_replies.specs.inside.Told.{Adds, tokens_of, all_tokens, value_tokens, parts_tokens};

use crate::attributes::write_shown;
use crate::batches::write_batch;
use crate::queues::{write_queue, write_queues};
use crate::tasks::{write_cancelled, write_started, write_tasks};
use crate::text::{Text, ascii_text};
use crate::turns::turned_text;
use crate::writing::{
    Writer, begin_list, begin_member, begin_text, end_list, end_text, write_count_if, write_text,
};
use sq_base::handle::{HANDLE_LENGTH, Handle, write_handle};
use sq_base::ids::HomeId;
use sq_base::message_id::MessageId;
use sq_base::ranges::Receives;
use sq_base::refusal::Refusal;
use sq_base::row::Row;
use sq_calls::calls::{Answer, Answered, AskedAttributes};
use sq_calls::digest::Digest;
use sq_calls::received_messages::ReceivedMessages;
use std::alloc::{AllocError, Global};
use uuid::Uuid;

/// The line that is sent, without its line feed. A refusal takes no memory, and neither does what came of a turn.
pub fn reply_text(alloc: Global, reply: &Result<Answered, Refusal>) -> Result<Text, AllocError>
    ensures text { IfOk result (λ text. text ≡ reply_text_of reply.now) }
    ensures refused { OnErr reply.now (IsOk result) }
    ensures turned { OnTurned reply.now (IsOk result) }
{
    match reply {
        Ok(Answered::Call(answer)) => Ok(Text::made(answer_text(alloc, answer)?)),
        Ok(Answered::Turn(turned)) => Ok(Text::fixed(turned_text(*turned))),
        Err(refusal) => Ok(Text::fixed(error_text(*refusal))),
    }
}

/// The text of a refusal, with its name and its number.
fn error_text(refusal: Refusal) -> &'static str
    ensures { result.now ≡ error_text refusal }
{
    match refusal {
        Refusal::NoMemory => "{\"Error\":{\"Code\":\"NoMemory\",\"Number\":1}}",
        Refusal::ClockRange => "{\"Error\":{\"Code\":\"ClockRange\",\"Number\":2}}",
        Refusal::Worn => "{\"Error\":{\"Code\":\"Worn\",\"Number\":3}}",
        Refusal::InvalidRequest => "{\"Error\":{\"Code\":\"InvalidRequest\",\"Number\":4}}",
        Refusal::InvalidAttributeName =>
            "{\"Error\":{\"Code\":\"InvalidAttributeName\",\"Number\":5}}",
        Refusal::InvalidAttributeValue =>
            "{\"Error\":{\"Code\":\"InvalidAttributeValue\",\"Number\":6}}",
        Refusal::InvalidParameterValue =>
            "{\"Error\":{\"Code\":\"InvalidParameterValue\",\"Number\":7}}",
        Refusal::InvalidAddress => "{\"Error\":{\"Code\":\"InvalidAddress\",\"Number\":8}}",
        Refusal::QueueDoesNotExist => "{\"Error\":{\"Code\":\"QueueDoesNotExist\",\"Number\":9}}",
        Refusal::QueueNameExists => "{\"Error\":{\"Code\":\"QueueNameExists\",\"Number\":10}}",
        Refusal::QueueDeletedRecently =>
            "{\"Error\":{\"Code\":\"QueueDeletedRecently\",\"Number\":11}}",
        Refusal::PurgeQueueInProgress =>
            "{\"Error\":{\"Code\":\"PurgeQueueInProgress\",\"Number\":12}}",
        Refusal::InvalidMessageContents =>
            "{\"Error\":{\"Code\":\"InvalidMessageContents\",\"Number\":13}}",
        Refusal::OverLimit => "{\"Error\":{\"Code\":\"OverLimit\",\"Number\":14}}",
        Refusal::ReceiptHandleIsInvalid =>
            "{\"Error\":{\"Code\":\"ReceiptHandleIsInvalid\",\"Number\":15}}",
        Refusal::MessageNotInflight =>
            "{\"Error\":{\"Code\":\"MessageNotInflight\",\"Number\":16}}",
        Refusal::EmptyBatchRequest => "{\"Error\":{\"Code\":\"EmptyBatchRequest\",\"Number\":17}}",
        Refusal::TooManyEntriesInBatchRequest =>
            "{\"Error\":{\"Code\":\"TooManyEntriesInBatchRequest\",\"Number\":18}}",
        Refusal::InvalidBatchEntryId =>
            "{\"Error\":{\"Code\":\"InvalidBatchEntryId\",\"Number\":19}}",
        Refusal::BatchEntryIdsNotDistinct =>
            "{\"Error\":{\"Code\":\"BatchEntryIdsNotDistinct\",\"Number\":20}}",
        Refusal::BatchRequestTooLong =>
            "{\"Error\":{\"Code\":\"BatchRequestTooLong\",\"Number\":21}}",
        Refusal::ResourceNotFoundException =>
            "{\"Error\":{\"Code\":\"ResourceNotFoundException\",\"Number\":22}}",
        Refusal::UnsupportedOperation =>
            "{\"Error\":{\"Code\":\"UnsupportedOperation\",\"Number\":23}}",
        Refusal::TableFull => "{\"Error\":{\"Code\":\"TableFull\",\"Number\":24}}",
        Refusal::HomeDraining => "{\"Error\":{\"Code\":\"HomeDraining\",\"Number\":25}}",
    }
}

fn answer_text(alloc: Global, answer: &Answer) -> Result<Vec<u8>, AllocError>
    ensures { IfOk result (λ bytes. bytes.items ≡ compact_text (answer_data answer.now)) }
{
    let mut out = Writer::new(alloc)?;
    write_answer(&mut out, answer)?;
    Ok(out.into_bytes())
}

fn write_answer(out: &mut Writer, answer: &Answer) -> Result<(), AllocError>
    ensures { Adds result out.old out.new (tokens_of (answer_data answer.now)) }
{
    match answer {
        Answer::Queue(name) => write_queue(out, name),
        Answer::Queues(names) => write_queues(out, "QueueUrls", names.as_slice()),
        Answer::Sources(names) => write_queues(out, "queueUrls", names.as_slice()),
        Answer::Attributes(shown) => write_shown(out, shown),
        Answer::Sent(id, digest) => write_sent(out, id, digest),
        Answer::Received(received) => write_received(out, received),
        Answer::Batch(told) => write_batch(out, told.as_slice()),
        Answer::Started(task) => write_started(out, *task),
        Answer::Cancelled(moved) => write_cancelled(out, *moved),
        Answer::Tasks(tasks) => write_tasks(out, tasks.as_slice()),
        Answer::Done => write_empty(out),
    }
}

fn write_sent(out: &mut Writer, id: &MessageId, digest: &Digest) -> Result<(), AllocError>
    ensures { Adds result out.old out.new (tokens_of (sent_data digest.now (id_text id.now))) }
{
    let mut uuid = Uuid::encode_buffer();
    begin_text(out, "MD5OfMessageBody", ascii_text(digest.digits()))?;
    end_text(out, "MessageId", id_text(id, &mut uuid))
}

fn write_empty(out: &mut Writer) -> Result<(), AllocError>
    ensures { Adds result out.old out.new (begin_object ∷ end_object ∷ []) }
{
    out.begin_object()?;
    out.end_object()
}

fn write_received(out: &mut Writer, received: &ReceivedMessages) -> Result<(), AllocError>
    ensures { Adds result out.old out.new (tokens_of (received_data received.now.attributes received.now.home received.now.rows)) }
{
    begin_list(out, "Messages")?;
    write_messages(out, received)?;
    end_list(out)
}

#[tactic(auto, using(crate::proofs::TellLaws::messages_grow))]
fn write_messages(out: &mut Writer, received: &ReceivedMessages) -> Result<(), AllocError>
    ensures { Adds result out.old out.new (all_tokens (map (message_data received.now.attributes received.now.home) received.now.rows)) }
{
    let asked = received.attributes();
    let home = received.home();
    for row in received.rows() {
        write_message(out, asked, home, row)?;
    }
    Ok(())
}

fn write_message(
    out: &mut Writer,
    asked: &AskedAttributes,
    home: &HomeId,
    row: &Row,
) -> Result<(), AllocError>
    requires { 1 ≤ row.now.receives }
    ensures { Adds result out.old out.new (tokens_of (message_data asked.now home.now row.now)) }
{
    out.begin_object()?;
    write_attributes(out, asked, row)?;
    write_parts(out, home, row)
}

// The attributes of a message that are asked for, where one is.
fn write_attributes(out: &mut Writer, asked: &AskedAttributes, row: &Row) -> Result<(), AllocError>
    ensures { Adds result out.old out.new (value_tokens (codes "Attributes") (attributes_data asked.now row.now)) }
{
    if !is_any_asked(asked) {
        return Ok(());
    }
    begin_member(out, "Attributes")?;
    write_count_if(
        out,
        "ApproximateReceiveCount",
        asked.receive_count,
        row.receives as u64,
    )?;
    write_count_if(out, "SentTimestamp", asked.sent_timestamp, row.enqueued)?;
    out.end_object()
}

fn is_any_asked(asked: &AskedAttributes) -> bool
    ensures { result ≡ (asked.now.receive_count || asked.now.sent_timestamp) }
{
    asked.receive_count || asked.sent_timestamp
}

// What a message has besides, and the end of its object.
fn write_parts(out: &mut Writer, home: &HomeId, row: &Row) -> Result<(), AllocError>
    requires { 1 ≤ row.now.receives }
    ensures { Adds result out.old out.new
        (parts_tokens row.now.body (encode_lower (md5 row.now.body)) (id_text row.now.id) (handle_text (handle_of home.now row.now))) }
{
    let digest = Digest::of(&row.body);
    let mut uuid = Uuid::encode_buffer();
    let mut handle = [0u8; HANDLE_LENGTH];
    write_handle(&handle_of(home, row), &mut handle);
    write_text(out, "Body", row.body.as_str())?;
    write_text(out, "MD5OfBody", ascii_text(digest.digits()))?;
    write_text(out, "MessageId", id_text(&row.id, &mut uuid))?;
    end_text(out, "ReceiptHandle", ascii_text(&handle))
}

/// The UUID of an id in lower case, written into a buffer.
#[tactic(auto, unfolding(crate::specs::Replies::id_text))]
pub fn id_text<'b>(id: &MessageId, buffer: &'b mut [u8; 45]) -> &'b str
    ensures { result.now ≡ id_text id.now }
{
    id.to_uuid().hyphenated().encode_lower(buffer)
}

/// The handle of a row as its home gave it.
pub fn handle_of(home: &HomeId, row: &Row) -> Handle
    requires { 1 ≤ row.now.receives }
    ensures { result ≡ handle_of home.now row.now }
{
    Handle {
        queue: home.queue,
        home: home.home,
        slot: row.slot,
        serial: row.serial,
        receive: Receives::of(row.receives),
    }
}
