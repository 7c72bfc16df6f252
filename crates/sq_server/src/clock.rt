//! The clock of the system.
ghost use Rattle.std.specs.Prelude.{◌≡◌, ◌/◌, IfOk, OnErr};
ghost use Rattle.std.specs.Time.{system_time_nanos};
ghost use Rattle.sq_server.specs.inside.Clocks.{in_64_bits};

use std::io;
use std::time::{Clock, SystemTime, UNIX_EPOCH};

/// The system's clock: whole ms since 1970, or 0 where it cannot be read.
#[derive(Drop)]
pub struct SystemClock<'a, R> {
    pub rt: &'a R,
}

impl<'a, R: Clock> sq_queue::service::Clock for SystemClock<'a, R> {
    // Whatever the system says.
    ghost tells = { λ c ms. Unit {0} };

    fn now(&self) -> u64 {
        millis_of(SystemTime::now(self.rt))
    }
}

// What the system's clock gave, in whole ms; 0 where it could not be read, and where 64 bits do not hold it.
fn millis_of(read: io::Result<SystemTime>) -> u64
    ensures read { IfOk read (λ time. result ≡ in_64_bits (system_time_nanos time / 1_000_000)) }
    ensures unread { OnErr read (result ≡ 0) }
{
    let Ok(time) = read else {
        return 0;
    };
    match time.duration_since(UNIX_EPOCH) {
        Ok(since) => u64::try_from(since.as_millis()).unwrap_or(0),
        Err(_) => 0,
    }
}
