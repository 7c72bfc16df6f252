//! The handle of a received message, and its texts.
ghost use Rattle.std.specs.Prelude.{◌≡◌, IfSome, Some, length};
ghost use Rattle.sq_base.specs.Handles.{after_version, handle_at, handle_text, numbers_at, numbers_text, Fits, IsHandleText};

use crate::fields::{put_at, put_dash, take_field, take_part};
use crate::ids::{HomeNo, QueueNo, Serial};
use crate::ranges::Receives;

/// Which row of which home was received, and for which time
/// (SQS API Reference, ReceiveMessage, ReceiptHandle; its text is own).
#[derive(Clone, Copy, PartialEq, Eq, PartialOrd, Ord, Debug)]
pub struct Handle {
    pub queue: QueueNo,
    pub home: HomeNo,
    pub slot: u32,
    pub serial: Serial,
    /// 1 for the first receive of the row at its home; a row that came from a drained home goes on from what was counted there.
    pub receive: Receives,
}

impl Handle {
    /// The numbers of a handle are in their ranges. It does nothing: its contract is the law that
    /// `read_handle` asks for.
    pub fn fits(&self)
        ensures { Fits self.now }
    {
        // A number's range is known to the prover once the number is read.
        let _ = (
            self.queue.get(),
            self.home.get(),
            self.serial.get(),
            self.receive.get(),
        );
        let _slot = self.slot;
    }
}

/// How many bytes the text of a handle has that is written.
pub const HANDLE_LENGTH: usize = 53;

/// Writes the text of a handle in version 2: `2-`, and then queue, home, slot, serial and receive number in 12, 3, 8, 16
/// and 8 digits of `0-9a-f`, with a `-` between.
#[tactic(auto, unfolding(crate::specs::Handles::handle_text))]
pub fn write_handle(h: &Handle, out: &mut [u8; HANDLE_LENGTH])
    ensures { out.new ≡ handle_text h.now }
{
    out[0] = b'2';
    out[1] = b'-';
    put_numbers(h, &mut out[2..]);
}

// Writes the numbers of a handle, with a `-` between.
#[tactic(auto, unfolding(crate::specs::Handles::numbers_text))]
fn put_numbers(h: &Handle, out: &mut [u8])
    requires { length out.old ≡ 51 }
    ensures { out.new ≡ numbers_text h.now }
{
    put_at(out, 0, 12, h.queue.get());
    put_dash(out, 12);
    put_at(out, 13, 3, h.home.get() as u64);
    put_dash(out, 16);
    put_at(out, 17, 8, h.slot as u64);
    put_dash(out, 25);
    put_at(out, 26, 16, h.serial.get());
    put_dash(out, 42);
    put_at(out, 43, 8, h.receive.get() as u64);
}

// The handle whose numbers these bytes spell.
#[tactic(auto, unfolding(crate::specs::Handles::numbers_at))]
fn numbers_of(b: &[u8]) -> Option<Handle>
    ensures { result ≡ numbers_at b.now }
{
    let (queue, rest) = take_part(b, 12)?;
    let (home, rest) = take_part(rest, 3)?;
    let (slot, rest) = take_part(rest, 8)?;
    let (serial, rest) = take_part(rest, 16)?;
    let (receive, rest) = take_field(rest, 8)?;
    if !rest.is_empty() {
        return None;
    }
    Some(Handle {
        queue: QueueNo::new(queue)?,
        home: HomeNo::new(home)?,
        slot: slot as u32,
        serial: Serial::new(serial)?,
        receive: Receives::new(receive)?,
    })
}

// What follows the `2-` of version 2, or the whole text.
fn after_version(b: &[u8]) -> &[u8]
    ensures { result.now ≡ after_version b.now }
{
    match b {
        [b'2', b'-', rest @ ..] => rest,
        _ => b,
    }
}

#[tactic(auto, unfolding(crate::specs::Handles::handle_at))]
fn handle_of(b: &[u8]) -> Option<Handle>
    ensures { result ≡ handle_at b.now }
{
    numbers_of(after_version(b))
}

/// The handle that a text of 51 bytes spells in version 1, or one of 53 bytes in version 2, which begins with `2-`. None where
/// it is the text of none: where it has another length or beginning, a digit is not of `0-9a-f`, or a number is out of its range.
pub fn read_handle(b: &[u8]) -> Option<Handle>
    ensures value { result ≡ handle_at b.now }
    ensures found { IfSome result (λ h. IsHandleText h b.now) }
    ensures only { (h : Handle) → Fits h → IsHandleText h b.now → result ≡ Some h }
{
    handle_of(b)
}
