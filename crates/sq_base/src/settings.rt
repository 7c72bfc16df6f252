//! What the homes of a queue go by.
ghost use Rattle.std.specs.Prelude.{◌≡◌, None};

use crate::ids::QueueNo;
use crate::ranges::{Delay, MaxReceives, Retention, Timeout, WaitTime};

/// When a message is dead, and which queue is its dead-letter queue.
#[derive(Clone, Copy, PartialEq, Eq, Debug)]
pub struct Redrive {
    pub target: QueueNo,
    pub max_receives: MaxReceives,
}

/// The settings of a queue's homes (SQS API Reference, SetQueueAttributes).
#[derive(Clone, Copy, PartialEq, Eq, Debug)]
pub struct Settings {
    /// For a send that names none.
    pub delay: Delay,
    pub retention: Retention,
    /// Kept, and without effect.
    pub wait_time: WaitTime,
    /// For a receive that names none.
    pub timeout: Timeout,
    pub redrive: Option<Redrive>,
}

impl Settings {
    /// The defaults of the SQS API Reference (CreateQueue), and no redrive policy.
    pub fn standard() -> Settings
        ensures { result ≡ record { delay = 0; retention = 345600; wait_time = 0; timeout = 30; redrive = None } }
    {
        Settings {
            delay: Delay::of(0),
            retention: Retention::of(345_600),
            wait_time: WaitTime::of(0),
            timeout: Timeout::of(30),
            redrive: None,
        }
    }
}
