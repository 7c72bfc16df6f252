//! What a client asks, and what it keeps of each answer.
use sq_base::handle::Handle;
use sq_base::message_id::MessageId;
use sq_base::name::QueueName;
use sq_base::ranges::{MaxMessages, MaxReceives, Timeout};
use sq_base::refusal::Refusal;
use sq_calls::body_text::BodyText;
use sq_calls::calls::{
    Answer, AskedAttributes, Call, CreateQueue, DeleteMessage, ReceiveMessage, SendMessage,
    StartMessageMoveTask,
};
use sq_model::directory::Attributes;
use sq_model::policy::RedrivePolicy;
use sq_replies::reply::handle_of;
use std::alloc::Global;

/// Who may ask: an actor of a world, or a session of a service.
pub trait Client {
    fn call(&mut self, call: &Call) -> Result<Answer, Refusal>;
}

// What a client keeps of an answer.
#[derive(Clone, Copy)]
enum Kept {
    // The id of the message that was sent.
    Sent(MessageId),
    // The receipt handle of the first message that was received.
    Received(Handle),
    Nothing,
}

fn kept_of(answer: &Answer) -> Kept {
    match answer {
        Answer::Sent(id, _) => Kept::Sent(*id),
        Answer::Received(received) => match received.rows().first() {
            Some(row) => Kept::Received(handle_of(received.home(), row)),
            None => Kept::Nothing,
        },
        _ => Kept::Nothing,
    }
}

// What a client keeps of the answer to a call; none where it is refused.
fn ask<C: Client>(client: &mut C, call: &Call) -> Option<Kept> {
    match client.call(call) {
        Ok(answer) => Some(kept_of(&answer)),
        Err(_) => None,
    }
}

/// Makes a queue, and tells whether it is made. What was received from it once goes to the queue of dead letters, if one is named.
pub fn create<C: Client>(client: &mut C, name: QueueName, dead_letters: Option<QueueName>) -> bool {
    let mut attributes = Attributes::none();
    if let Some(target) = dead_letters {
        attributes.redrive = Some(Some(RedrivePolicy {
            target,
            max_receives: MaxReceives::of(1),
        }));
    }
    let call = Call::CreateQueue(CreateQueue { name, attributes });
    ask(client, &call).is_some()
}

/// Sends a message, and so has its id.
pub fn send<C: Client>(
    client: &mut C,
    alloc: Global,
    queue: QueueName,
    text: &str,
) -> Option<MessageId> {
    let body = BodyText::new(alloc, text).ok()?;
    let call = Call::SendMessage(SendMessage {
        queue,
        body,
        delay: None,
    });
    match ask(client, &call) {
        Some(Kept::Sent(id)) => Some(id),
        _ => None,
    }
}

/// Receives a message, which is visible again after so many seconds, and so has its receipt handle.
pub fn receive<C: Client>(client: &mut C, queue: QueueName, timeout: Timeout) -> Option<Handle> {
    let call = Call::ReceiveMessage(ReceiveMessage {
        queue,
        max: MaxMessages::of(1),
        timeout: Some(timeout),
        attributes: AskedAttributes {
            receive_count: false,
            sent_timestamp: false,
        },
    });
    match ask(client, &call) {
        Some(Kept::Received(handle)) => Some(handle),
        _ => None,
    }
}

/// Deletes a message by its receipt handle, and tells whether that is answered.
pub fn delete<C: Client>(client: &mut C, queue: QueueName, handle: Handle) -> bool {
    let call = Call::DeleteMessage(DeleteMessage {
        queue,
        handle: Some(handle),
    });
    ask(client, &call).is_some()
}

/// Begins to move all messages of a queue of dead letters to where they came from, and tells whether that is answered.
pub fn redrive<C: Client>(client: &mut C, dead_letters: QueueName) -> bool {
    let call = Call::StartMessageMoveTask(StartMessageMoveTask {
        source: dead_letters,
        destination: None,
        rate: None,
    });
    ask(client, &call).is_some()
}
