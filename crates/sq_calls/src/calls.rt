//! What clients ask and the answers that they get, as values (SQS API Reference).
ghost use Rattle.std.specs.Prelude.{◌≡◌};
ghost use Rattle.sq_calls.specs.MoveTasks.{is_destination};

use crate::batches::{Batch, EntryResult};
use crate::body_text::BodyText;
use crate::digest::Digest;
use crate::received_messages::ReceivedMessages;
use crate::turns::{Turn, Turned};
use sq_base::handle::Handle;
use sq_base::message_id::MessageId;
use sq_base::name::QueueName;
use sq_base::ranges::{Delay, MaxMessages, MaxResults, Rate, Timeout};
use sq_model::directory::{Attributes, NamePrefix, QueueAttributes};
use sq_model::item::TaskNo;
use sq_model::listed::Listed;
use sq_model::task::Task;

/// CreateQueue; an attribute that is not given has its default.
#[derive(Drop)]
pub struct CreateQueue {
    pub name: QueueName,
    pub attributes: Attributes,
}

/// SendMessage. Characters that may not stand in a body are InvalidMessageContents once the queue is found.
#[derive(Drop)]
pub struct SendMessage {
    pub queue: QueueName,
    pub body: BodyText,
    pub delay: Option<Delay>,
}

/// The attributes that a received message is shown with.
#[derive(Clone, Copy, PartialEq, Eq, Debug)]
pub struct AskedAttributes {
    /// ApproximateReceiveCount.
    pub receive_count: bool,
    /// SentTimestamp.
    pub sent_timestamp: bool,
}

/// ReceiveMessage.
#[derive(Clone, Copy, PartialEq, Eq, Debug)]
pub struct ReceiveMessage {
    pub queue: QueueName,
    pub max: MaxMessages,
    pub timeout: Option<Timeout>,
    pub attributes: AskedAttributes,
}

/// DeleteMessage; without a handle where its text is none.
#[derive(Clone, Copy, PartialEq, Eq, Debug)]
pub struct DeleteMessage {
    pub queue: QueueName,
    pub handle: Option<Handle>,
}

/// ChangeMessageVisibility; without a handle where its text is none.
#[derive(Clone, Copy, PartialEq, Eq, Debug)]
pub struct ChangeMessageVisibility {
    pub queue: QueueName,
    pub handle: Option<Handle>,
    pub timeout: Timeout,
}

/// SetQueueAttributes; an attribute that is not given stays as it is.
#[derive(Drop)]
pub struct SetQueueAttributes {
    pub queue: QueueName,
    pub attributes: Attributes,
}

/// The attributes of a queue that are asked for (SQS API Reference, GetQueueAttributes, AttributeNames).
#[derive(Clone, Copy, PartialEq, Eq, Debug)]
pub struct AskedOfQueue {
    /// ApproximateNumberOfMessages.
    pub visible: bool,
    /// ApproximateNumberOfMessagesDelayed.
    pub delayed: bool,
    /// ApproximateNumberOfMessagesNotVisible.
    pub in_flight: bool,
    /// DelaySeconds.
    pub delay: bool,
    /// MessageRetentionPeriod.
    pub retention: bool,
    /// QueueArn.
    pub arn: bool,
    /// ReceiveMessageWaitTimeSeconds.
    pub wait_time: bool,
    /// RedriveAllowPolicy.
    pub allow: bool,
    /// RedrivePolicy.
    pub redrive: bool,
    /// VisibilityTimeout.
    pub timeout: bool,
}

/// GetQueueAttributes.
#[derive(Clone, Copy, PartialEq, Eq, Debug)]
pub struct GetQueueAttributes {
    pub queue: QueueName,
    pub asked: AskedOfQueue,
}

/// StartMessageMoveTask.
#[derive(Clone, Copy, PartialEq, Eq, Debug)]
pub struct StartMessageMoveTask {
    pub source: QueueName,
    /// Without one each message goes to the queue that it came from.
    pub destination: Option<QueueName>,
    /// MaxNumberOfMessagesPerSecond.
    pub rate: Option<Rate>,
}

impl StartMessageMoveTask {
    /// Whether its source is its destination too, which is refused as InvalidParameterValue.
    pub fn is_to_its_source(&self) -> bool
        ensures { result ≡ is_destination self.now.source self.now.destination }
    {
        match &self.destination {
            Some(name) => self.source.as_bytes() == name.as_bytes(),
            None => false,
        }
    }
}

/// ListMessageMoveTasks.
#[derive(Clone, Copy, PartialEq, Eq, Debug)]
pub struct ListMessageMoveTasks {
    pub source: QueueName,
    /// MaxResults.
    pub max: MaxResults,
}

/// A request of a client.
#[derive(Drop)]
pub enum Call {
    CreateQueue(CreateQueue),
    GetQueueUrl(QueueName),
    ListQueues(NamePrefix),
    SetQueueAttributes(SetQueueAttributes),
    GetQueueAttributes(GetQueueAttributes),
    PurgeQueue(QueueName),
    DeleteQueue(QueueName),
    ListDeadLetterSourceQueues(QueueName),
    SendMessage(SendMessage),
    ReceiveMessage(ReceiveMessage),
    DeleteMessage(DeleteMessage),
    ChangeMessageVisibility(ChangeMessageVisibility),
    /// SendMessageBatch, DeleteMessageBatch or ChangeMessageVisibilityBatch, as its entries ask.
    Batch(Batch),
    StartMessageMoveTask(StartMessageMoveTask),
    /// Without a task where the text is the handle of none.
    CancelMessageMoveTask(Option<TaskNo>),
    ListMessageMoveTasks(ListMessageMoveTasks),
}

/// What a line of a script asks.
#[derive(Drop)]
pub enum Asked {
    /// A request of a client.
    Call(Call),
    /// One step of moving messages.
    Turn(Turn),
}

/// How many messages of a queue are in which state, over all its homes.
#[derive(Clone, Copy, PartialEq, Eq, Debug)]
pub struct QueueCounts {
    pub visible: u64,
    pub in_flight: u64,
    pub delayed: u64,
}

/// A queue with its attributes, and which of them are shown.
#[derive(Drop)]
pub struct ShownAttributes {
    pub queue: QueueName,
    pub asked: AskedOfQueue,
    pub attributes: QueueAttributes,
    /// All 0 where none is shown.
    pub counts: QueueCounts,
}

/// What a client gets where its request is not refused.
#[derive(Drop)]
pub enum Answer {
    /// The queue whose URL is the answer.
    Queue(QueueName),
    /// The queues whose URLs are the answer, in order of creation.
    Queues(Listed<QueueName>),
    /// The same of the queues that have one for their dead letters.
    Sources(Listed<QueueName>),
    Attributes(ShownAttributes),
    /// The id of a message that was sent, and the digest of its body.
    Sent(MessageId, Digest),
    Received(ReceivedMessages),
    /// What became of each entry of a batch, in the order of the entries.
    Batch(Listed<EntryResult>),
    /// The move task that was started.
    Started(TaskNo),
    /// How many messages a cancelled task had moved.
    Cancelled(u64),
    /// The tasks of a source, the most recent first.
    Tasks(Listed<Task>),
    Done,
}

/// The answer to what a line of a script asks, where it is not refused.
#[derive(Drop)]
pub enum Answered {
    /// What a client gets.
    Call(Answer),
    /// What came of a turn.
    Turn(Turned),
}
