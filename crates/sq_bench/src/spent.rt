//! What calls took.
use std::time::{Clock, CpuClock, Duration};

/// How many calls were answered, and the microseconds that they all took, of the clock and of the processor.
#[derive(Clone, Copy, PartialEq, Eq, Debug)]
pub struct Spent {
    pub answered: u64,
    pub elapsed: u64,
    pub processor: u64,
}

/// Both clocks.
#[derive(Clone, Copy, PartialEq, Eq, Debug)]
pub struct Begun {
    elapsed: u64,
    processor: u64,
}

fn micros(time: Duration) -> u64 {
    u64::try_from(time.as_micros()).unwrap_or(0)
}

/// What the clocks show now; 0 where they cannot be read.
pub fn begin<R: Clock + CpuClock>(rt: &R) -> Begun {
    Begun {
        elapsed: micros(rt.monotonic().unwrap_or(Duration::ZERO)),
        processor: micros(rt.process_cpu_time().unwrap_or(Duration::ZERO)),
    }
}

impl Begun {
    /// What so many calls took since then.
    pub fn spent<R: Clock + CpuClock>(self, rt: &R, answered: u64) -> Spent {
        let now = begin(rt);
        Spent {
            answered,
            elapsed: now.elapsed.saturating_sub(self.elapsed),
            processor: now.processor.saturating_sub(self.processor),
        }
    }
}
