//! The clients of a race, and what they ask.
ghost use Rattle.std.specs.Prelude.{◌≡◌, ◌+◌, ◌*◌, ◌%◌, ◌≤◌, IfErr, IfOk, IfSome, None, OnOk, Option, Some, codes, false, true};
ghost use Rattle.sq_base.specs.Names.{is_name};
ghost use Rattle.sq_calls.specs.declared.calls.Call.TheVariants as asks;
ghost use Rattle.sq_model.specs.Policies.{nothing_given};
ghost use Rattle.sq_queue.specs.Around.{service_counts};
ghost use Rattle.sq_base.specs.declared.handle.Handle.{Handle as HandleValue};
ghost use Rattle.sq_server.specs.Handles.{first_given};
ghost use Rattle.sq_server.specs.inside.Races.{HasCalled, HasCalledAll, HasDeleted, HasMadeQueues, HasReceived, HasSent, dead_queue_call, delete_call, race_queue_call, receive_call, send_call};

use crate::served::{Client, Served};
use sq_base::handle::Handle;
use sq_base::name::QueueName;
use sq_base::ranges::{MaxMessages, MaxReceives, Timeout};
use sq_base::refusal::Refusal;
use sq_calls::body_text::BodyText;
use sq_calls::calls::{
    Answer, AskedAttributes, Call, CreateQueue, DeleteMessage, ReceiveMessage, SendMessage,
};
use sq_model::directory::Attributes;
use sq_model::policy::RedrivePolicy;
use sq_replies::reply::handle_of;
use sq_store::slots::SlotStore;
use std::alloc::Global;
use std::sync::Wait;
use std::sync::ledger::Ledger;
use std::time::Clock;

// The queue of this name.
fn named(text: &[u8]) -> QueueName
    requires { is_name text.now ≡ true }
    ensures { result ≡ text.now }
{
    match QueueName::new(text) {
        Some(name) => name,
        None => unreachable!(),
    }
}

// The queue of a race.
#[tactic(auto, unfolding(sq_base::specs::Names::is_name_byte))]
fn race_queue() -> QueueName
    ensures { result ≡ codes "race" }
{
    named(b"race")
}

// The queue of its dead letters.
#[tactic(auto, unfolding(sq_base::specs::Names::is_name_byte))]
fn dead_queue() -> QueueName
    ensures { result ≡ codes "race-dlq" }
{
    named(b"race-dlq")
}

/// CreateQueue; where dead letters have a target, what was received twice goes there.
pub fn create(name: QueueName, target: Option<QueueName>) -> Call
    ensures alone { target ≡ None → result ≡ asks.CreateQueue (record { name = name; attributes = nothing_given }) }
    ensures to { IfSome target (λ to. result ≡ asks.CreateQueue (record { name = name; attributes = record nothing_given { redrive = Some (Some (record { target = to; max_receives = 2 })) } })) }
{
    let mut attributes = Attributes::none();
    if let Some(target) = target {
        attributes.redrive = Some(Some(RedrivePolicy {
            target,
            max_receives: MaxReceives::of(2),
        }));
    }
    Call::CreateQueue(CreateQueue { name, attributes })
}

// CreateQueue of the queue for dead letters.
fn dead_queue_asked() -> Call
    ensures { result ≡ dead_queue_call }
{
    create(dead_queue(), None)
}

// CreateQueue of the queue of a race, from which what was received twice goes to the other.
fn race_queue_asked() -> Call
    ensures { result ≡ race_queue_call }
{
    create(race_queue(), Some(dead_queue()))
}

/// Makes the queue of a race, from which what was received twice goes to another.
pub(crate) fn make_queues<R: Clock + Wait, D: Ledger, T: Ledger>(
    service: &Served<'_, R, D, T, SlotStore>,
    client: &mut Client<D, T>,
) -> Result<(), Refusal>
    ensures { OnOk result (HasMadeQueues (service_counts service.now.service.value) client.old.journal client.new.journal) }
{
    service.call(client, &dead_queue_asked())?;
    service.call(client, &race_queue_asked())?;
    Ok(())
}

/// SendMessage of a short body. Refused as NoMemory.
pub fn send(alloc: Global, queue: QueueName) -> Result<Call, Refusal>
    ensures call { IfOk result (λ call. call ≡ asks.SendMessage (record { queue = queue; body = codes "race"; delay = None })) }
    ensures refused { IfErr result (λ e. e ≡ Refusal.NoMemory) }
{
    Ok(Call::SendMessage(SendMessage {
        queue,
        body: BodyText::new(alloc, "race")?,
        delay: None,
    }))
}

/// ReceiveMessage of one message.
pub fn receive(queue: QueueName, timeout: Option<Timeout>) -> Call
    ensures { result ≡ asks.ReceiveMessage (record { queue = queue; max = 1; timeout = timeout; attributes = record { receive_count = false; sent_timestamp = false } }) }
{
    Call::ReceiveMessage(ReceiveMessage {
        queue,
        max: MaxMessages::of(1),
        timeout,
        attributes: AskedAttributes {
            receive_count: false,
            sent_timestamp: false,
        },
    })
}

/// DeleteMessage.
pub fn delete(queue: QueueName, handle: Handle) -> Call
    ensures { result ≡ asks.DeleteMessage (record { queue = queue; handle = Some handle }) }
{
    Call::DeleteMessage(DeleteMessage {
        queue,
        handle: Some(handle),
    })
}

/// The handle of the first message that was given, if one was.
pub fn first_handle(answer: &Answer) -> Option<Handle>
    ensures { result ≡ first_given answer.now }
{
    let Answer::Received(received) = answer else {
        return None;
    };
    let row = received.rows().first()?;
    Some(handle_of(received.home(), row))
}

// ReceiveMessage of one message of a race, which is visible again at once.
fn at_once() -> Call
    ensures { result ≡ receive_call }
{
    receive(race_queue(), Some(Timeout::of(0)))
}

// SendMessage to the queue of a race. Refused as NoMemory.
fn race_send(alloc: Global) -> Result<Call, Refusal>
    ensures call { IfOk result (λ call. call ≡ send_call) }
    ensures refused { IfErr result (λ e. e ≡ Refusal.NoMemory) }
{
    send(alloc, race_queue())
}

// DeleteMessage at the queue of a race.
fn race_delete(handle: Handle) -> Call
    ensures { result ≡ delete_call handle }
{
    delete(race_queue(), handle)
}

// Whether a message was sent. What is refused is passed over.
fn sends<R: Clock + Wait, D: Ledger, T: Ledger>(
    service: &Served<'_, R, D, T, SlotStore>,
    client: &mut Client<D, T>,
) -> bool
    ensures { HasSent (service_counts service.now.service.value) client.old.journal result client.new.journal }
{
    match race_send(service.alloc) {
        Ok(call) => service.call(client, &call).is_ok(),
        Err(_) => false,
    }
}

// Receives what is visible again at once, and keeps the handle of what was given; where it is refused, the last one stays.
fn receives<R: Clock + Wait, D: Ledger, T: Ledger>(
    service: &Served<'_, R, D, T, SlotStore>,
    client: &mut Client<D, T>,
    given: &mut Option<Handle>,
)
    ensures { HasReceived (service_counts service.now.service.value) given.old client.old.journal given.new client.new.journal }
{
    if let Ok(answer) = service.call(client, &at_once()) {
        *given = first_handle(&answer);
    }
}

// Deletes what the last receive gave; where it gave nothing, receives again.
fn deletes<R: Clock + Wait, D: Ledger, T: Ledger>(
    service: &Served<'_, R, D, T, SlotStore>,
    client: &mut Client<D, T>,
    given: &mut Option<Handle>,
)
    ensures { HasDeleted (service_counts service.now.service.value) given.old client.old.journal given.new client.new.journal }
{
    match given {
        Some(handle) => {
            let _ = service.call(client, &race_delete(*handle));
        }
        None => receives(service, client, given),
    }
}

// The call of a client after so many others; whether it was a send that was answered.
fn make_call<R: Clock + Wait, D: Ledger, T: Ledger>(
    service: &Served<'_, R, D, T, SlotStore>,
    client: &mut Client<D, T>,
    number: u64,
    given: &mut Option<Handle>,
) -> bool
    ensures called { HasCalled (service_counts service.now.service.value) number given.old client.old.journal result given.new client.new.journal }
    ensures a_third { result ≡ true → number % 3 ≡ 0 }
{
    match number % 3 {
        0 => sends(service, client),
        1 => {
            receives(service, client, given);
            false
        }
        _ => {
            deletes(service, client, given);
            false
        }
    }
}

/// Makes so many calls of one client, a send, a receive and a delete by turns; how many sends were answered.
pub(crate) fn make_calls<R: Clock + Wait, D: Ledger, T: Ledger>(
    service: &Served<'_, R, D, T, SlotStore>,
    client: &mut Client<D, T>,
    calls: u64,
) -> u64
    ensures called { (given : Option HandleValue) × HasCalledAll (service_counts service.now.service.value) calls client.old.journal result given client.new.journal }
    ensures a_third { 3 * result ≤ calls + 2 }
{
    let mut given = None;
    let mut sent = 0u64;
    for number in 0..calls {
        if make_call(service, client, number, &mut given) {
            sent += 1;
        }
    }
    sent
}
