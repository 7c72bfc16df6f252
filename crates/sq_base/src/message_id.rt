//! The id of a message, and its UUID.
ghost use Rattle.std.specs.Prelude.{◌≡◌, IfSome, Some};
ghost use Rattle.std.specs.Int.{w128, to_be_bytes, from_be_bytes};
ghost use Rattle.sq_base.specs.MessageIds.{id_number, IsMessageId};
ghost use Rattle.sq_base.specs.inside.MessageIds.{id_of};

use crate::ids::{HomeNo, QueueNo, Serial};
use uuid::Uuid;

/// The home that first held a message, and the serial that it gave. Own.
#[derive(Clone, Copy, PartialEq, Eq, PartialOrd, Ord, Debug)]
pub struct MessageId {
    pub queue: QueueNo,
    pub home: HomeNo,
    pub serial: Serial,
}

impl MessageId {
    /// The numbers of an id are in their ranges. It does nothing: its contract is the law that
    /// `from_uuid` asks for.
    pub fn fits(&self)
        ensures { IsMessageId self.now }
    {
        // A number's range is known to the prover once the number is read.
        let _ = (self.queue.get(), self.home.get(), self.serial.get());
    }

    /// The UUID of version 8 (RFC 9562, section 5.8) with the queue in `custom_a`, the home in
    /// `custom_b` and the serial in `custom_c`.
    pub fn to_uuid(&self) -> Uuid
        ensures { result ≡ to_be_bytes w128 (id_number self.now) }
    {
        let high = self.queue.get() * 65536 + 32768 + self.home.get() as u64;
        let low = 9_223_372_036_854_775_808 + self.serial.get();
        Uuid::from_u64_pair(high, low)
    }

    /// The id whose UUID this is, none where it is that of none: of another version or variant, of
    /// queue 0, or of a home from 16 on.
    pub fn from_uuid(u: &Uuid) -> Option<MessageId>
        ensures found { IfSome result (λ m. from_be_bytes w128 u.now ≡ id_number m) }
        ensures only { (m : MessageId) → IsMessageId m → from_be_bytes w128 u.now ≡ id_number m → result ≡ Some m }
    {
        let (high, low) = u.as_u64_pair();
        id_of(high, low)
    }
}

fn id_of(high: u64, low: u64) -> Option<MessageId>
    ensures { result ≡ id_of high low }
{
    if high / 4096 % 16 != 8 || low / 4_611_686_018_427_387_904 != 2 {
        return None;
    }
    Some(MessageId {
        queue: QueueNo::new(high / 65536)?,
        home: HomeNo::new(high % 4096)?,
        serial: Serial::new(low % 4_611_686_018_427_387_904)?,
    })
}
