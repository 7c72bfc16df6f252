//! What clients ask in stories, and what they have of it. Each is a small value: a function that has a call or an answer on its own
//! stack is proved with all kinds of them, which takes up to ten times as long.
use sq_base::handle::Handle;
use sq_base::ids::{HomeNo, QueueNo, Serial};
use sq_base::name::QueueName;
use sq_base::ranges::{MaxMessages, MaxReceives, MaxResults, Receives, Timeout};
use sq_base::refusal::Refusal;
use sq_calls::batches::{Batch, BatchKind, Entry, EntryAsk};
use sq_calls::body_text::BodyText;
use sq_calls::calls::{
    Answer, AskedAttributes, AskedOfQueue, Call, ChangeMessageVisibility, CreateQueue,
    DeleteMessage, GetQueueAttributes, ListMessageMoveTasks, ReceiveMessage, SendMessage,
    SetQueueAttributes, StartMessageMoveTask,
};
use sq_model::directory::{Attributes, NamePrefix};
use sq_model::item::TaskNo;
use sq_model::listed::Listed;
use sq_model::policy::RedrivePolicy;
use std::alloc::Global;
use std::process::Abort;

/// What a client asks, of queues whose names are letters.
#[derive(Clone, Copy)]
pub enum Ask {
    /// Makes a queue. What is received from it once goes to another one, if that is named.
    Create(u8, Option<u8>),
    Url(u8),
    Send(u8),
    /// Receives a message, which is visible again at once.
    Receive(u8),
    /// Receives a message, which is hidden for half a minute.
    Hold(u8),
    /// Shows the message at once that the first queue was sent as the first, or that serial.
    Change(u8, u64),
    /// Deletes it.
    Delete(u8, u64),
    /// One entry of each.
    SendBatch(u8),
    ChangeBatch(u8, u64),
    DeleteBatch(u8, u64),
    /// What is received from it once goes to another one from now on.
    Set(u8, u8),
    Get(u8),
    List,
    Sources(u8),
    DeleteQueue(u8),
    Purge(u8),
    /// Moves what is in a queue to another one, or to where it came from.
    Start(u8, Option<u8>),
    Cancel(u64),
    ListTasks(u8),
}

pub fn named(rt: &impl Abort, name: u8) -> QueueName {
    QueueName::new(&[name]).expect(rt, "a name")
}

/// The call that asks it.
pub fn call_of(rt: &impl Abort, alloc: Global, ask: Ask) -> Call {
    match ask {
        Ask::Create(name, target) => create(rt, name, target),
        Ask::Url(name) => Call::GetQueueUrl(named(rt, name)),
        Ask::Send(name) => send(rt, alloc, name),
        Ask::Receive(name) => receive(rt, name, 0),
        Ask::Hold(name) => receive(rt, name, 30),
        Ask::Change(name, serial) => change(rt, name, serial),
        Ask::Delete(name, serial) => delete(rt, name, handle_of(serial)),
        Ask::SendBatch(name) => batch(rt, alloc, name, BatchKind::Send, send_entry(rt, alloc)),
        Ask::ChangeBatch(name, serial) => batch(
            rt,
            alloc,
            name,
            BatchKind::Change,
            change_entry(serial),
        ),
        Ask::DeleteBatch(name, serial) => batch(
            rt,
            alloc,
            name,
            BatchKind::Delete,
            EntryAsk::Delete(handle_of(serial)),
        ),
        Ask::Set(name, target) => set(rt, name, target),
        Ask::Get(name) => get(rt, name),
        Ask::List => Call::ListQueues(NamePrefix::Any),
        Ask::Sources(name) => Call::ListDeadLetterSourceQueues(named(rt, name)),
        Ask::DeleteQueue(name) => Call::DeleteQueue(named(rt, name)),
        Ask::Purge(name) => Call::PurgeQueue(named(rt, name)),
        Ask::Start(name, target) => start(rt, name, target),
        Ask::Cancel(number) => Call::CancelMessageMoveTask(TaskNo::new(number)),
        Ask::ListTasks(name) => list_tasks(rt, name),
    }
}

// A name, if there is one.
fn maybe_named(rt: &impl Abort, name: Option<u8>) -> Option<QueueName> {
    match name {
        Some(name) => Some(named(rt, name)),
        None => None,
    }
}

// What is received once goes to this queue, if there is one.
fn attributes(target: Option<QueueName>) -> Attributes {
    let mut attributes = Attributes::none();
    if let Some(target) = target {
        attributes.redrive = Some(Some(RedrivePolicy {
            target,
            max_receives: MaxReceives::of(1),
        }));
    }
    attributes
}

fn create(rt: &impl Abort, name: u8, target: Option<u8>) -> Call {
    Call::CreateQueue(CreateQueue {
        name: named(rt, name),
        attributes: attributes(maybe_named(rt, target)),
    })
}

fn set(rt: &impl Abort, name: u8, target: u8) -> Call {
    Call::SetQueueAttributes(SetQueueAttributes {
        queue: named(rt, name),
        attributes: attributes(Some(named(rt, target))),
    })
}

// All that is asked of a queue.
fn get(rt: &impl Abort, name: u8) -> Call {
    Call::GetQueueAttributes(GetQueueAttributes {
        queue: named(rt, name),
        asked: AskedOfQueue {
            visible: true,
            delayed: true,
            in_flight: true,
            delay: true,
            retention: true,
            arn: true,
            wait_time: true,
            allow: true,
            redrive: true,
            timeout: true,
        },
    })
}

fn send(rt: &impl Abort, alloc: Global, name: u8) -> Call {
    Call::SendMessage(SendMessage {
        queue: named(rt, name),
        body: BodyText::new(alloc, "hello").expect(rt, "memory"),
        delay: None,
    })
}

fn receive(rt: &impl Abort, name: u8, timeout: u64) -> Call {
    Call::ReceiveMessage(ReceiveMessage {
        queue: named(rt, name),
        max: MaxMessages::of(1),
        timeout: Timeout::new(timeout),
        attributes: AskedAttributes {
            receive_count: false,
            sent_timestamp: false,
        },
    })
}

// The handle of the message of a serial at the only home of the first queue, where it has been received once and was alone there.
fn handle_of(serial: u64) -> Option<Handle> {
    Some(Handle {
        queue: QueueNo::following(0),
        home: HomeNo::first(),
        slot: 0,
        serial: Serial::new(serial)?,
        receive: Receives::of(1),
    })
}

fn change(rt: &impl Abort, name: u8, serial: u64) -> Call {
    Call::ChangeMessageVisibility(ChangeMessageVisibility {
        queue: named(rt, name),
        handle: handle_of(serial),
        timeout: Timeout::of(0),
    })
}

fn send_entry(rt: &impl Abort, alloc: Global) -> EntryAsk {
    EntryAsk::Send(BodyText::new(alloc, "hello").expect(rt, "memory"), None)
}

fn change_entry(serial: u64) -> EntryAsk {
    EntryAsk::Change(handle_of(serial), Timeout::of(0))
}

// A batch of one entry.
fn batch(rt: &impl Abort, alloc: Global, name: u8, kind: BatchKind, ask: EntryAsk) -> Call {
    let mut entries = Listed::new(alloc);
    let entry = Entry {
        id: named(rt, name),
        ask: Ok(ask),
    };
    assert!(rt; entries.push(entry).is_ok(), "memory");
    Call::Batch(Batch::new(named(rt, name), kind, entries).expect(rt, "a batch"))
}

/// The call that deletes a message by its handle.
pub fn delete(rt: &impl Abort, name: u8, handle: Option<Handle>) -> Call {
    Call::DeleteMessage(DeleteMessage {
        queue: named(rt, name),
        handle,
    })
}

fn start(rt: &impl Abort, name: u8, target: Option<u8>) -> Call {
    Call::StartMessageMoveTask(StartMessageMoveTask {
        source: named(rt, name),
        destination: maybe_named(rt, target),
        rate: None,
    })
}

fn list_tasks(rt: &impl Abort, name: u8) -> Call {
    Call::ListMessageMoveTasks(ListMessageMoveTasks {
        source: named(rt, name),
        max: MaxResults::of(1),
    })
}

/// A message that was received.
#[derive(Clone, Copy)]
pub struct Got {
    /// The serial of its id.
    pub serial: u64,
    /// Its handle, as that of its first receive.
    pub handle: Handle,
}

/// What a client has of an answer.
#[derive(Clone, Copy)]
pub struct Heard {
    /// Whether the call was not refused.
    pub done: bool,
    /// The first message that was received, if one was.
    pub got: Option<Got>,
}

pub fn heard_of(told: &Result<Answer, Refusal>) -> Heard {
    match told {
        Ok(answer) => Heard {
            done: true,
            got: first(answer),
        },
        Err(_) => Heard {
            done: false,
            got: None,
        },
    }
}

fn first(answer: &Answer) -> Option<Got> {
    let Answer::Received(received) = answer else {
        return None;
    };
    let row = received.rows().first()?;
    let handle = Handle {
        queue: received.home().queue,
        home: received.home().home,
        slot: row.slot,
        serial: row.serial,
        receive: Receives::of(1),
    };
    Some(Got {
        serial: row.id.serial.get(),
        handle,
    })
}
