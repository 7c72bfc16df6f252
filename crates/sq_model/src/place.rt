//! Where a step is done.
use sq_base::ids::HomeId;

/// A part of the system that keeps a history of its own. A step that a home shares with the ledger stands in both
/// histories, and names the home in both.
#[derive(Clone, Copy, PartialEq, Eq, Debug)]
pub enum Component {
    Directory,
    Ledger,
    Home(HomeId),
}

/// How many rows a home may hold, and how many of them may be in flight. Own.
#[derive(Clone, Copy, PartialEq, Eq, Debug)]
pub struct Limits {
    pub rows: u32,
    pub flights: u32,
}

/// A home that never changes: its id and its limits.
#[derive(Clone, Copy, PartialEq, Eq, Debug)]
pub struct Site {
    pub home: HomeId,
    pub limits: Limits,
}

/// Where a message is that was sent. Own.
#[derive(Clone, Copy, PartialEq, Eq, Debug)]
pub enum Place {
    InHome,
    /// Between two homes.
    InTransit,
    Deleted,
    /// Past its retention, and left out by a step.
    Expired,
    Purged,
    /// Its queue was deleted.
    ClosedAway,
    /// Its queue was deleted while it was on its way back.
    Dropped,
}
