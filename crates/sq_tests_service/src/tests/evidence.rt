//! What a service leaves, and what tests look at of it.
use sq_audit::merge::merge;
use sq_audit::parts::Parts;
use sq_model::place::Place;
use sq_places::places::places_of;
use sq_tests_kit::hidden::Hidden;
use std::alloc::Global;
use std::process::Abort;

/// The parts of a service with their histories, and what each session kept of its steps.
#[derive(Drop)]
pub struct Evidence {
    alloc: Global,
    parts: Hidden<Parts>,
}

/// What a test looks at of it.
#[derive(Clone, Copy, PartialEq, Eq, Debug)]
pub struct Seen {
    /// How many sessions were made, and how many left their records.
    pub sessions: [u64; 2],
    /// How many events the directory, the ledger and the first home have.
    pub events: [u64; 3],
    /// How many messages there were; none where the evidence is not of one run.
    pub messages: Option<u64>,
    /// How many of them are in a queue.
    pub in_home: u64,
}

impl Evidence {
    pub fn new(rt: &impl Abort, alloc: Global, parts: Parts) -> Evidence {
        Evidence {
            alloc,
            parts: Hidden::new(alloc, parts).expect(rt, "memory"),
        }
    }

    /// What a test looks at of it.
    pub fn seen(&self) -> Seen {
        let parts = self.parts.get();
        let (messages, in_home) = messages(self.alloc, parts);
        Seen {
            sessions: [parts.made, parts.records.as_slice().len() as u64],
            events: [
                parts.directory.events().len() as u64,
                parts.ledger.events().len() as u64,
                first_home(parts),
            ],
            messages,
            in_home,
        }
    }
}

// How many events the first home has.
fn first_home(parts: &Parts) -> u64 {
    match parts.homes.as_slice().first() {
        Some(home) => home.events().len() as u64,
        None => 0,
    }
}

// How many messages there were, in one run of all, and how many of them are in a queue.
fn messages(alloc: Global, parts: &Parts) -> (Option<u64>, u64) {
    let Ok(run) = merge(alloc, parts) else {
        return (None, 0);
    };
    let Ok(places) = places_of(alloc, &run) else {
        return (None, 0);
    };
    let mut in_home = 0u64;
    for (_, place) in &places {
        in_home = in_home.saturating_add((*place == Place::InHome) as u64);
    }
    (Some(places.len() as u64), in_home)
}
