//! A service under test and its sessions, each hidden.
ghost use Rattle.std.specs.Prelude.{◌≡◌};
ghost use Rattle.sq_queue.specs.Seats.{HasSeats, IsNamedBy};

use super::asks::Ask;
use super::evidence::Evidence;
use super::stories::Deed;
use sq_base::ids::HomeId;
use sq_directory::directory::Directory;
use sq_history::recorded::Home;
use sq_ledger::ledger::TransitLedger;
use sq_model::options::Options;
use sq_queue::service::{Clock, Gate, Service, Serving};
use sq_queue::session::Session;
use sq_store::slots::SlotStore;
use sq_store::store::Store;
use sq_tests_kit::hidden::Hidden;
use std::alloc::Global;
use std::process::Abort;
use std::sync::Wait;
use std::sync::atomic::{AtomicU64, Ordering};
use std::sync::ledger::{Blank, Ledger};

/// A clock that a test sets.
#[derive(Drop)]
pub struct Hand<'a>(pub &'a AtomicU64);

impl<'a> Clock for Hand<'a> {
    ghost tells = { λ c ms. Unit {0} };

    fn now(&self) -> u64 {
        self.0.load(Ordering::SeqCst)
    }
}

/// How often a gate looks whether it may let a thread go on.
const LOOKS: u32 = 100_000_000;

/// The clock of a service, and what its gate tells and waits for.
#[derive(Drop)]
pub struct Signs {
    /// What the clock says, in ms.
    pub time: AtomicU64,
    /// Is 1 once somebody is held.
    pub held: AtomicU64,
    /// The sign: not 0.
    pub sign: AtomicU64,
    /// Is 1 once somebody who was held saw the sign.
    pub met: AtomicU64,
}

impl Signs {
    pub fn new() -> Signs {
        Signs {
            time: AtomicU64::new(0),
            held: AtomicU64::new(0),
            sign: AtomicU64::new(0),
            met: AtomicU64::new(0),
        }
    }

    /// Takes all of them back.
    pub fn take_back(&self) {
        self.met.store(0, Ordering::SeqCst);
        self.held.store(0, Ordering::SeqCst);
        self.sign.store(0, Ordering::SeqCst);
    }
}

/// What the first client of a story does before they all act, and what that tells, as digits.
#[derive(Clone, Copy)]
pub struct Start {
    pub deeds: &'static [Deed],
    pub tells: u64,
}

pub const NOTHING: Start = Start {
    deeds: &[],
    tells: 0,
};

/// Makes queue q.
pub const QUEUE: Start = Start {
    deeds: &[Deed::Ask(Ask::Create(b'q', None))],
    tells: 1,
};

/// Makes queues q and r; from then on who is inside a home of q may be held.
pub const HELD: Start = Start {
    deeds: &[
        Deed::Sign,
        Deed::Ask(Ask::Create(b'q', None)),
        Deed::Ask(Ask::Create(b'r', None)),
        Deed::NoSign,
    ],
    tells: 110,
};

/// Makes queues d and q, from which what was received once goes to d; and a dead letter in q, at 31000.
pub const DEAD_LETTER: Start = Start {
    deeds: &[
        Deed::Ask(Ask::Create(b'd', None)),
        Deed::Ask(Ask::Create(b'q', Some(b'd'))),
        Deed::Clock(1000),
        Deed::Ask(Ask::Send(b'q')),
        Deed::Receive(b'q'),
        Deed::Clock(31000),
        Deed::Receive(b'q'),
    ],
    tells: 1_101_100,
};

/// How a service under test is made, and a story begins.
#[derive(Clone, Copy)]
pub struct Setting {
    pub begin: Start,
    /// Homes of each queue, all of which are asked.
    pub homes: u32,
    /// How many rows a home may have.
    pub rows: u32,
    /// The number of the queue inside whose homes a thread is held until the sign; 0 where none is.
    pub queue: u64,
    /// The number of the item after whose leave its mover is held; 0 where none is.
    pub item: u64,
}

impl Setting {
    /// Of queues of so many homes; nobody is held.
    pub fn of(begin: Start, homes: u32) -> Setting {
        Setting {
            begin,
            homes,
            rows: 100_000,
            queue: 0,
            item: 0,
        }
    }
}

/// A gate that holds who is inside a home of one queue, or has let one item leave, until a sign is given.
#[derive(Drop)]
pub struct Door<'a> {
    queue: u64,
    item: u64,
    signs: &'a Signs,
}

/// Waits until a number is not 0, and tells whether it was before it had looked so often.
pub fn is_set(number: &AtomicU64) -> bool {
    for _ in 0..LOOKS {
        if number.load(Ordering::SeqCst) != 0 {
            return true;
        }
    }
    false
}

impl<'a> Door<'a> {
    // Waits for the sign.
    fn hold(&self) {
        self.signs.held.store(1, Ordering::SeqCst);
        if is_set(&self.signs.sign) {
            self.signs.met.store(1, Ordering::SeqCst);
        }
    }
}

impl<'a> Gate for Door<'a> {
    ghost saw = { λ g part. Unit {0} };

    fn inside(&self, id: HomeId, _home: &Home) {
        if id.queue.get() == self.queue {
            self.hold();
        }
    }

    fn at_directory(&self, _directory: &Directory) {}

    fn at_ledger(&self, _ledger: &TransitLedger) {}

    fn between(&self, item: u64) {
        if item == self.item {
            self.hold();
        }
    }
}

// Queues of so many homes, all of which are asked, and of so many rows each.
fn options(homes: u32, rows: u32) -> Options {
    Options {
        homes,
        sample: homes,
        queues: 64,
        rows,
        flights: 100_000,
        transit: 1000,
        seed: 7,
    }
}

/// A service that threads share.
#[derive(Drop)]
pub struct Shared<'a, D: Ledger, T: Ledger, S: Store> {
    service: Hidden<Serving<Hand<'a>, Door<'a>, D, T, S>>,
}

/// A session of it.
#[derive(Drop)]
pub struct Client<D: Ledger, T: Ledger> {
    session: Hidden<Session<D, T>>,
}

impl<D: Ledger, T: Ledger> Client<D, T> {
    /// Its session itself.
    pub fn session(&mut self) -> &mut Session<D, T> {
        self.session.get_mut()
    }

    pub fn into_session(self) -> Session<D, T> {
        self.session.into_inner()
    }
}

impl<'a, D: Ledger, T: Ledger> Shared<'a, D, T, SlotStore> {
    pub fn new(
        rt: &impl Abort,
        alloc: Global,
        setting: Setting,
        signs: &'a Signs,
        of_directory: Blank,
        of_ledger: Blank,
    ) -> Shared<'a, D, T, SlotStore>
        requires of_directory { IsNamedBy D.name D.parts of_directory }
        requires of_ledger { IsNamedBy T.name T.parts of_ledger }
    {
        let Setting {
            homes,
            rows,
            queue,
            item,
            ..
        } = setting;
        let service: Service<Hand<'a>, Door<'a>, D, T> = Service::new(
            alloc,
            options(homes, rows),
            Hand(&signs.time),
            Door { queue, item, signs },
            of_directory,
            of_ledger,
        )
        .expect(rt, "a service");
        Shared {
            service: Hidden::new(alloc, service).expect(rt, "memory"),
        }
    }

    /// The service itself.
    pub fn service(&self) -> &Serving<Hand<'a>, Door<'a>, D, T, SlotStore> {
        self.service.get()
    }

    /// A new client.
    pub fn client<R: Wait + Abort>(&self, rt: &R, alloc: Global) -> Client<D, T> {
        let session = self.service.get().session(rt).expect(rt, "a number");
        Client {
            session: Hidden::new(alloc, session).expect(rt, "memory"),
        }
    }

    /// Takes a session back.
    pub fn retire<R: Wait + Abort>(&self, rt: &R, session: Session<D, T>) {
        match self.service.get().retire(rt, session) {
            Ok(()) => {}
            Err(_) => panic!(rt; "memory"),
        }
    }

    /// Ends it, with these sessions.
    pub fn finish(self, rt: &impl Abort, alloc: Global, sessions: Vec<Session<D, T>>) -> Evidence
        requires of_directory { HasSeats D.parts }
        requires of_ledger { HasSeats T.parts }
    {
        match self.service.into_inner().finish(sessions) {
            Ok(parts) => Evidence::new(rt, alloc, parts),
            Err(_) => panic!(rt; "memory"),
        }
    }
}
