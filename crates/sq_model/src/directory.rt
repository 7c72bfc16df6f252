//! What the directory, which is the list of queues, is asked, and what it answers.
ghost use Rattle.std.specs.Prelude.{◌≡◌, true, IfOk, IfErr};
ghost use Rattle.sq_model.specs.Policies.{has_list, nothing_given};

use crate::listed::Listed;
use crate::policy::{AllowPolicy, RedrivePolicy};
use sq_base::ids::QueueNo;
use sq_base::name::QueueName;
use sq_base::ranges::{Delay, Retention, Timeout, WaitTime};
use sq_base::refusal::Refusal;
use sq_base::settings::Settings;
use std::alloc::Global;

/// The attributes that a queue is asked to have (SQS API Reference, CreateQueue and SetQueueAttributes). One that is not
/// given has its default in a new queue, and stays as it is in one that is there. A policy that is given as none is unset.
#[derive(PartialEq, Drop)]
pub struct Attributes {
    pub redrive: Option<Option<RedrivePolicy>>,
    pub allow: Option<Option<AllowPolicy>>,
    pub delay: Option<Delay>,
    pub retention: Option<Retention>,
    pub wait_time: Option<WaitTime>,
    pub timeout: Option<Timeout>,
}

impl Attributes {
    /// No attribute is given.
    pub fn none() -> Attributes
        ensures { result ≡ nothing_given }
    {
        Attributes {
            redrive: None,
            allow: None,
            delay: None,
            retention: None,
            wait_time: None,
            timeout: None,
        }
    }

    /// The same attributes. Refused as NoMemory, where they list queues.
    pub fn copy(&self, alloc: Global) -> Result<Attributes, Refusal>
        ensures copy { IfOk result (λ copy. copy ≡ self.now) }
        ensures err { IfErr result (λ e. (e ≡ Refusal.NoMemory) × (has_list self.now.allow ≡ true)) }
    {
        Ok(Attributes {
            delay: self.delay,
            retention: self.retention,
            wait_time: self.wait_time,
            timeout: self.timeout,
            redrive: self.redrive,
            allow: match &self.allow {
                Some(Some(policy)) => Some(Some(policy.copy(alloc)?)),
                Some(None) => Some(None),
                None => None,
            },
        })
    }
}

/// A queue that is there.
#[derive(Drop)]
pub struct Queue {
    /// No other queue has it, also after this one is deleted.
    pub number: QueueNo,
    pub name: QueueName,
    /// What its homes go by. The target of its dead letters is the number that the policy's name had when it was set.
    pub settings: Settings,
    /// As it was given, and is printed.
    pub redrive: Option<RedrivePolicy>,
    /// As it was given, and is printed.
    pub allow: Option<AllowPolicy>,
    /// One more with each change of its attributes; homes go by the settings of the greatest that they have seen.
    pub version: u64,
    /// The moment of its last purge, in ms.
    pub last_purge: Option<u64>,
}

/// The name of a queue that was deleted, and the moment of that in ms.
#[derive(Clone, Copy, PartialEq, Eq, Debug)]
pub struct DeletedName {
    pub name: QueueName,
    pub moment: u64,
}

/// Which names are listed (SQS API Reference, ListQueues: QueueNamePrefix).
#[derive(Clone, Copy, PartialEq, Eq, Debug)]
pub enum NamePrefix {
    Any,
    /// Those that begin with this text, which could be a name itself.
    Text(QueueName),
    /// A text with which no name begins.
    NoName,
}

/// The steps of the directory that are recorded.
#[derive(PartialEq, Drop)]
pub enum DirectoryCall {
    /// Makes a queue of this name, or finds the one that is there (SQS API Reference, CreateQueue).
    Create(QueueName, Attributes),
    /// Changes the attributes that are given (SetQueueAttributes).
    Set(QueueName, Attributes),
    /// Takes a queue out of the list (DeleteQueue).
    Remove(QueueName),
    /// Lets a queue be purged, once in 60 s (PurgeQueue).
    PurgeTicket(QueueName),
    /// Tells that a queue is there (GetQueueUrl).
    Url(QueueName),
    /// Lists names (ListQueues).
    List(NamePrefix),
    /// Lists the queues that have this one for their dead letters (ListDeadLetterSourceQueues).
    Sources(QueueName),
    /// Reads the attributes of a queue (GetQueueAttributes).
    Read(QueueName),
}

/// A queue with the settings that its homes go by.
#[derive(Clone, Copy, PartialEq, Eq, Debug)]
pub struct QueueSettings {
    pub queue: QueueNo,
    pub settings: Settings,
    pub version: u64,
}

/// A queue with all its attributes.
#[derive(PartialEq, Drop)]
pub struct QueueAttributes {
    pub queue: QueueNo,
    pub settings: Settings,
    pub redrive: Option<RedrivePolicy>,
    pub allow: Option<AllowPolicy>,
}

/// The answers to these steps.
#[derive(PartialEq, Drop)]
pub enum DirectoryReply {
    Made(QueueSettings),
    Changed(QueueSettings),
    /// The number of the queue that is no more.
    Removed(QueueNo),
    /// The number of the queue that may be purged.
    Ticket(QueueNo),
    Found(QueueNo),
    /// In order of creation.
    Listed(Listed<QueueName>),
    /// In order of creation.
    Sources(Listed<QueueName>),
    Read(QueueAttributes),
}
