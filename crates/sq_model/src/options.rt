//! How large a service is, and how it chooses.
ghost use Rattle.std.specs.Prelude.{◌≡◌, ◌↔◌, ◌≤◌, true};
ghost use Rattle.sq_model.specs.Options.{IsServed, limits_of};

use crate::place::Limits;

/// Homes of a queue, at the most.
pub const MOST_HOMES: u32 = 16;

/// Queues that are ever made, at the most.
pub const MOST_QUEUES: u32 = 1024;

/// Rows of a home, at the most.
pub const MOST_ROWS: u32 = 1_048_576;

/// Rows of a queue in flight, at the most.
pub const MOST_FLIGHTS: u32 = 120_000;

/// Rows in transit, at the most.
pub const MOST_TRANSIT: u32 = 100_000;

/// It does nothing: its contract is the law that says which numbers these bounds are.
pub fn bounds_are_known()
    ensures homes { MOST_HOMES ≡ 16 }
    ensures queues { MOST_QUEUES ≡ 1024 }
    ensures rows { MOST_ROWS ≡ 1048576 }
    ensures flights { MOST_FLIGHTS ≡ 120000 }
    ensures transit { MOST_TRANSIT ≡ 100000 }
{}

/// The options of a service; each is within its fixed bounds where it comes from flags.
#[derive(Clone, Copy, PartialEq, Eq, Debug)]
pub struct Options {
    /// Homes of a queue: 1 to `MOST_HOMES`.
    pub homes: u32,
    /// Homes that a receive looks at: 1 to `homes`.
    pub sample: u32,
    /// Queues that are ever made: 1 to `MOST_QUEUES`.
    pub queues: u32,
    /// Rows of a home: 1 to `MOST_ROWS`.
    pub rows: u32,
    /// Rows in flight of a queue: `homes` to `MOST_FLIGHTS`.
    pub flights: u32,
    /// Rows in transit: 1 to `MOST_TRANSIT`.
    pub transit: u32,
    /// What the choices of homes begin from.
    pub seed: u64,
}

impl Options {
    /// Whether all are in their ranges.
    pub fn are_served(&self) -> bool
        ensures { result ≡ true ↔ IsServed self.now }
    {
        (1 <= self.homes && self.homes <= MOST_HOMES)
            && (1 <= self.sample && self.sample <= self.homes)
            && (1 <= self.queues && self.queues <= MOST_QUEUES)
            && (1 <= self.rows && self.rows <= MOST_ROWS)
            && (self.homes <= self.flights && self.flights <= MOST_FLIGHTS)
            && (1 <= self.transit && self.transit <= MOST_TRANSIT)
    }

    /// How many rows a home may have, and how many of them in flight: its share of those of its queue.
    pub fn limits(&self) -> Limits
        requires { 1 ≤ self.now.homes }
        ensures { result ≡ limits_of self.now }
    {
        Limits {
            rows: self.rows,
            flights: self.flights / self.homes,
        }
    }
}
