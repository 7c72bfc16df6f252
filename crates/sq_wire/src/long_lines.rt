//! Long lines, of which two are read at a time.
ghost use Rattle.std.specs.Prelude.{◌≡◌, ◌<◌, length};
ghost use Rattle.sq_requests.specs.Requests.{ReadsLine};

use sq_base::refusal::Refusal;
use sq_json::Scratch;
use sq_requests::request::{Request, read_request};
use std::alloc::{AllocError, Global};
use std::sync::{Mutex, Wait};

/// The greatest number of bytes in a line that is read by the scratch of its connection.
pub const SHORT: usize = 65_536;

/// What longer lines are read by, of all connections: two scratches, each for one line at a time. A scratch keeps five bytes for
/// each byte of the longest line that it has read, and a line takes up to 24 more for each byte until it is read.
#[derive(Drop)]
pub struct LongLines {
    first: Box<Mutex<Scratch>>,
    second: Box<Mutex<Scratch>>,
}

// A scratch of which one thread at a time may have the use.
fn shared(alloc: Global) -> Result<Box<Mutex<Scratch>>, AllocError> {
    Ok(Box::new(alloc, Mutex::new(Scratch::new(alloc)))?)
}

impl LongLines {
    pub fn new(alloc: Global) -> Result<LongLines, AllocError> {
        Ok(LongLines {
            first: shared(alloc)?,
            second: shared(alloc)?,
        })
    }

    /// What a line asks, as `read_request` says it. One that is longer than `SHORT` leaves the scratch of its connection as it is.
    pub fn read<X: Wait>(
        &self,
        rt: &X,
        alloc: Global,
        own: &mut Scratch,
        line: &[u8],
    ) -> Result<Request, Refusal>
        ensures reads { ReadsLine result line.now }
        ensures kept { SHORT < length line.now → own.new ≡ own.old }
    {
        if line.len() <= SHORT {
            return read_request(alloc, own, line);
        }
        let mut scratch = match self.first.try_lock() {
            Some(scratch) => scratch,
            None => self.second.lock(rt),
        };
        read_request(alloc, &mut scratch, line)
    }
}
