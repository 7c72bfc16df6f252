//! What several tests begin with: plain values.
ghost use Rattle.std.specs.Prelude.{◌<◌};
ghost use Rattle.sq_base.specs.Stamps.{stamp_end};

use sq_base::body::{BODY_LIMIT, Body};
use sq_base::ids::{HomeId, HomeNo, QueueNo, Serial};
use sq_base::message_id::MessageId;
use sq_base::name::QueueName;
use sq_base::ranges::Receives;
use sq_base::refusal::Refusal;
use sq_base::stamp::Stamp;
use sq_model::calls::Receipt;
use std::alloc::Global;

/// The first moment past the clock's end.
pub const CLOCK_END: u64 = 4_611_686_018_427_387_904;

pub fn named(name: &str) -> Result<QueueName, Refusal> {
    QueueName::new(name.as_bytes()).ok_or(Refusal::InvalidParameterValue)
}

pub fn hello(alloc: Global) -> Result<Body, Refusal> {
    Body::new(alloc, "hello", BODY_LIMIT)
}

pub fn stamp(moment: u64, count: u64) -> Stamp
    requires { (moment < stamp_end) × (count < stamp_end) }
{
    Stamp { moment, count }
}

/// A home of the first queue; the first one, where none has this number.
pub fn home(number: u64) -> HomeId {
    HomeId {
        queue: QueueNo::following(0),
        home: HomeNo::new(number).unwrap_or(HomeNo::first()),
    }
}

/// The id of a message of the first queue's first home.
pub fn id(serial: u64) -> MessageId {
    MessageId {
        queue: QueueNo::following(0),
        home: HomeNo::first(),
        serial: Serial::new(serial).unwrap_or(Serial::first()),
    }
}

/// A receipt of a message whose slot is given.
pub fn receipt(slot: u32, serial: u64, receive: u64) -> Receipt {
    Receipt {
        slot,
        serial: Serial::new(serial).unwrap_or(Serial::first()),
        receive: Receives::new(receive).unwrap_or(Receives::of(1)),
    }
}
