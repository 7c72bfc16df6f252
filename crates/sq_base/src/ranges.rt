//! Whole numbers within fixed bounds, and what the service counts with them.
ghost use Rattle.std.specs.Prelude.{◌≡◌, ℕ, ◌≤◌, ◌&&◌, nat_le, if◌then◌else◌, Some, None};

use std::marker::Model;

/// A whole number from `LEAST` to `GREATEST`, both included.
#[derive(Clone, Copy, PartialEq, Eq, PartialOrd, Ord, Debug)]
pub struct Within<const LEAST: u32, const GREATEST: u32>(u32);

impl<const LEAST: u32, const GREATEST: u32> Model for Within<LEAST, GREATEST> {
    ghost Value = { ℕ };

    ghost view = { λ n. n.0 };

    ghost inverse = { λ n. record { 0 = n } };

    ghost invariant = { λ n. (LEAST ≤ n.0) × (n.0 ≤ GREATEST) };
}

impl<const LEAST: u32, const GREATEST: u32> Within<LEAST, GREATEST> {
    /// The number, where it is within the bounds.
    pub fn new(number: u64) -> Option<Self>
        ensures { result ≡ (if nat_le LEAST number && nat_le number GREATEST then Some number else None) }
    {
        if LEAST as u64 <= number && number <= GREATEST as u64 {
            Some(Within(number as u32))
        } else {
            None
        }
    }

    /// A number that is known to be within the bounds.
    pub fn of(number: u32) -> Self
        requires { (LEAST ≤ number) × (number ≤ GREATEST) }
        ensures { result ≡ number }
    {
        Within(number)
    }

    /// The number.
    pub fn get(self) -> u32
        ensures value { result ≡ self.entry }
        ensures least { LEAST ≤ self.entry }
        ensures greatest { self.entry ≤ GREATEST }
    {
        self.0
    }
}

/// How long a message is delayed, in seconds (SQS API Reference, DelaySeconds).
pub type Delay = Within<0, 900>;

/// How long a received message stays in flight, in seconds (VisibilityTimeout).
pub type Timeout = Within<0, 43200>;

/// How long a message is kept, in seconds (MessageRetentionPeriod).
pub type Retention = Within<60, 1209600>;

/// How long a receive may wait, in seconds; kept, and without effect (ReceiveMessageWaitTimeSeconds).
pub type WaitTime = Within<0, 20>;

/// How many messages a receive asks for (MaxNumberOfMessages).
pub type MaxMessages = Within<1, 10>;

/// After how many receives a message is dead (maxReceiveCount; 1000 is this service's own limit).
pub type MaxReceives = Within<1, 1000>;

/// How many messages a task moves in a second (MaxNumberOfMessagesPerSecond).
pub type Rate = Within<1, 500>;

/// How many tasks are listed (MaxResults).
pub type MaxResults = Within<1, 10>;

/// A number of receives, of which there was one (ApproximateReceiveCount).
pub type Receives = Within<1, 4294967295>;
