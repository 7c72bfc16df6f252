//! What a line asks.
ghost use Rattle.std.specs.Prelude.{◌≡◌};
ghost use Rattle.serde_json.specs.Find.{get};
ghost use Rattle.sq_json.specs.View.{view};
ghost use Rattle.sq_requests.specs.Memory.{ReadsAsking};
ghost use Rattle.sq_requests.specs.Requests.{reading, actor_at, asked_call, call_or_turn_of, request_of, line_request, ReadsLine, plain_call_of, batch_kind, turn_of};
ghost use Rattle.sq_requests.specs.inside.Requests.{call_asks, call_or_turn_asks, request_asks};

use crate::actions::{change_of, delete_of, receive_of, send_of};
use crate::batches::batch_of;
use crate::members::{named_task, text_at};
use crate::queues::{create_of, get_of, get_url_of, list_of, named_queue, set_of};
use crate::tasks::{list_moves_of, start_move_of};
use sq_base::refusal::Refusal;
use sq_calls::batches::BatchKind;
use sq_calls::calls::{Asked, Call};
use sq_calls::turns::Turn;
use sq_json::Scratch;
use sq_json::line::{Fault, Line};
use sq_json::value::Value;
use std::alloc::Global;

/// A request, who makes it (0 to 63), and the clock reading of its line in ms, where it has one.
#[derive(Drop)]
pub struct Request {
    pub clock: Option<u64>,
    pub actor: u32,
    pub asked: Asked,
}

// The whole number of a member that may be there, from 0 upwards.
#[tactic(auto, unfolding(crate::specs::Requests::reading))]
fn reading_at(value: &Value<'_, '_>, name: &str) -> Result<Option<u64>, Refusal>
    ensures { result ≡ reading (get name.now (view value.now)) }
{
    match value.get(name) {
        Some(member) => Ok(Some(member.as_u64().ok_or(Refusal::InvalidRequest)?)),
        None => Ok(None),
    }
}

// The number of the actor of a line.
#[tactic(auto, unfolding(crate::specs::Requests::actor_at))]
fn actor_at(value: &Value<'_, '_>) -> Result<u32, Refusal>
    ensures { result ≡ actor_at (view value.now) }
{
    match reading_at(value, "Actor")? {
        None => Ok(0),
        Some(actor) if actor < 64 => Ok(actor as u32),
        Some(_) => Err(Refusal::InvalidRequest),
    }
}

// A call for which no memory is asked: on a queue, a message that is there, or a move task.
#[tactic(auto, unfolding(crate::specs::Requests::plain_call_of))]
fn plain_call_of(value: &Value<'_, '_>, action: &str) -> Result<Call, Refusal>
    ensures { result ≡ plain_call_of action.now (view value.now) }
{
    match action {
        "GetQueueAttributes" => get_of(value),
        "GetQueueUrl" => get_url_of(value),
        "ListQueues" => list_of(value),
        "PurgeQueue" => named_queue(value).map(Call::PurgeQueue),
        "DeleteQueue" => named_queue(value).map(Call::DeleteQueue),
        "ListDeadLetterSourceQueues" => named_queue(value).map(Call::ListDeadLetterSourceQueues),
        "ReceiveMessage" => receive_of(value),
        "DeleteMessage" => delete_of(value),
        "ChangeMessageVisibility" => change_of(value),
        "StartMessageMoveTask" => start_move_of(value),
        "CancelMessageMoveTask" => named_task(value).map(Call::CancelMessageMoveTask),
        "ListMessageMoveTasks" => list_moves_of(value),
        _ => Err(Refusal::UnsupportedOperation),
    }
}

// What the entries of a batch do, where the action is one.
#[tactic(auto, unfolding(crate::specs::Requests::batch_kind))]
fn batch_kind(action: &str) -> Option<BatchKind>
    ensures { result ≡ batch_kind action.now }
{
    match action {
        "SendMessageBatch" => Some(BatchKind::Send),
        "DeleteMessageBatch" => Some(BatchKind::Delete),
        "ChangeMessageVisibilityBatch" => Some(BatchKind::Change),
        _ => None,
    }
}

#[tactic(auto, using(crate::proofs::CallLaws::reads_create, crate::proofs::CallLaws::reads_set, crate::proofs::CallLaws::reads_send))]
fn asked_call(alloc: Global, value: &Value<'_, '_>, action: &str) -> Result<Call, Refusal>
    ensures { let d = view value.now in
        ReadsAsking (call_asks action.now d) result (asked_call action.now d) }
{
    match action {
        "CreateQueue" => create_of(alloc, value),
        "SetQueueAttributes" => set_of(alloc, value),
        "SendMessage" => send_of(alloc, value),
        _ => match batch_kind(action) {
            Some(kind) => batch_of(alloc, value, kind),
            None => plain_call_of(value, action),
        },
    }
}

// The turn that an action names, if it names one.
#[tactic(auto, unfolding(crate::specs::Requests::turn_of))]
fn turn_of(value: &Value<'_, '_>, action: &str) -> Option<Result<Turn, Refusal>>
    ensures { result ≡ turn_of action.now (view value.now) }
{
    match action {
        "DeadTurn" => Some(named_queue(value).map(Turn::DeadTurn)),
        "EnterTurn" => Some(Ok(Turn::EnterTurn)),
        "TaskTurn" => Some(named_task(value).map(Turn::TaskTurn)),
        _ => None,
    }
}

// A turn, or else a call.
#[tactic(auto, using(crate::proofs::CallLaws::asks_a_turn, crate::proofs::CallLaws::refuses_a_turn, crate::proofs::CallLaws::asks_a_call, crate::proofs::CallLaws::refuses_a_call))]
fn call_or_turn_of(alloc: Global, value: &Value<'_, '_>, action: &str) -> Result<Asked, Refusal>
    ensures { let d = view value.now in
        ReadsAsking (call_or_turn_asks action.now d) result (call_or_turn_of action.now d) }
{
    match turn_of(value, action) {
        Some(turn) => Ok(Asked::Turn(turn?)),
        None => Ok(Asked::Call(asked_call(alloc, value, action)?)),
    }
}

#[tactic(auto, unfolding(crate::specs::Requests::request_of, crate::specs::inside::Requests::request_asks, crate::specs::Requests::clock_at))]
fn request_of(alloc: Global, value: &Value<'_, '_>) -> Result<Request, Refusal>
    ensures { let d = view value.now in
        ReadsAsking (request_asks d) result (request_of d) }
{
    if !value.is_object() {
        return Err(Refusal::InvalidRequest);
    }
    let action = text_at(value, "Action")?;
    let clock = reading_at(value, "Now")?;
    let actor = actor_at(value)?;
    let asked = call_or_turn_of(alloc, value, action)?;
    Ok(Request {
        clock,
        actor,
        asked,
    })
}

/// What a line asks, or the first reason in order why it is refused: InvalidRequest (not an object, a member of a
/// wrong type or missing), UnsupportedOperation, InvalidAddress, InvalidAttributeName, InvalidAttributeValue,
/// InvalidParameterValue, and of a batch EmptyBatchRequest, TooManyEntriesInBatchRequest, InvalidBatchEntryId,
/// BatchEntryIdsNotDistinct, BatchRequestTooLong. What is wrong with an entry alone fails that entry, once its queue is
/// found. NoMemory where a growth was refused, and so of no empty line. The scratch is kept from line to line.
#[tactic(auto, unfolding(crate::specs::Requests::line_request))]
pub fn read_request(alloc: Global, scratch: &mut Scratch, line: &[u8]) -> Result<Request, Refusal>
    ensures { ReadsLine result line.now }
{
    match Line::parse(alloc, scratch, line) {
        Ok(line) => request_of(alloc, &line.root()),
        Err(Fault::Memory) => Err(Refusal::NoMemory),
        Err(Fault::Invalid) => Err(Refusal::InvalidRequest),
    }
}
