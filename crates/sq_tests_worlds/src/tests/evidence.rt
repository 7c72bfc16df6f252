//! What a world leaves, and what an audit finds wrong with it.
use sq_audit::check::AuditFault;
use sq_audit::merge::merge;
use sq_audit::parts::Parts;
use sq_places::places::places_of;
use sq_tests_kit::hidden::Hidden;
use std::alloc::Global;
use std::mem::swap;
use std::process::Abort;

/// The parts of a world with their histories, and what each actor kept of its steps.
#[derive(Drop)]
pub struct Evidence {
    alloc: Global,
    parts: Hidden<Parts>,
}

/// What an audit finds wrong, in numbers: its kind, and what it is of.
pub type Fault = [u64; 3];

pub const NO_FAULT: Fault = [0; 3];

/// Of this actor and place: a record without its event, or an event without its record.
pub fn missing(actor: u32, place: u64) -> Fault {
    [1, actor as u64, place]
}

fn numbers_of(fault: AuditFault) -> Fault {
    match fault {
        AuditFault::RecordMissing(actor, place) => missing(actor, place),
        AuditFault::RecordTwice(actor, place) => [2, actor as u64, place],
        AuditFault::LeaveUnmatched(stamp) => [3, stamp.moment, stamp.count],
        AuditFault::EnterUnmatched(stamp) => [4, stamp.moment, stamp.count],
        AuditFault::NoMemory => [5, 0, 0],
    }
}

/// What was found in a case of this number must be right; it is shown where it is not.
pub fn must(rt: &impl Abort, case: u64, found: &Fault, right: bool) {
    let [kind, first, second] = *found;
    assert!(rt; right, "{case}: {kind} {first} {second}");
}

/// Which parts are another's.
#[derive(Clone, Copy)]
pub struct Mix {
    pub directory: bool,
    pub homes: bool,
    pub ledger: bool,
    pub records: bool,
}

impl Mix {
    pub fn none() -> Mix {
        Mix {
            directory: false,
            homes: false,
            ledger: false,
            records: false,
        }
    }
}

impl Evidence {
    pub fn new(rt: &impl Abort, alloc: Global, parts: Parts) -> Evidence {
        Evidence {
            alloc,
            parts: Hidden::new(alloc, parts).expect(rt, "memory"),
        }
    }

    pub fn parts(&self) -> &Parts {
        self.parts.get()
    }

    pub fn parts_mut(&mut self) -> &mut Parts {
        self.parts.get_mut()
    }

    /// What the audit finds wrong.
    pub fn fault(&self) -> Fault {
        match merge(self.alloc, self.parts.get()).err() {
            Some(fault) => numbers_of(fault),
            None => NO_FAULT,
        }
    }

    /// Takes some parts of the other's in place of its own, which go there.
    pub fn mix(&mut self, other: &mut Evidence, mix: Mix) {
        let (parts, others) = (self.parts.get_mut(), other.parts.get_mut());
        if mix.directory {
            swap(&mut parts.directory, &mut others.directory);
        }
        if mix.homes {
            swap(&mut parts.homes, &mut others.homes);
        }
        if mix.ledger {
            swap(&mut parts.ledger, &mut others.ledger);
        }
        if mix.records {
            swap(&mut parts.records, &mut others.records);
        }
    }

    /// Takes a record of an actor out, and again: whether it was there.
    pub fn drop_twice(&mut self, actor: u32, record: u64) -> [bool; 2] {
        [
            self.parts.get_mut().drop_record(actor, record),
            self.parts.get_mut().drop_record(actor, record),
        ]
    }

    /// How many messages there were; none where the evidence is not of one run.
    pub fn messages(&self) -> Option<u64> {
        messages(self.alloc, self.parts.get())
    }
}

// How many messages there were, in one run of all.
fn messages(alloc: Global, parts: &Parts) -> Option<u64> {
    let run = merge(alloc, parts).ok()?;
    let places = places_of(alloc, &run).ok()?;
    Some(places.len() as u64)
}
