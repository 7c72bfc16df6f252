//! Two threads share a service; an audit of all that they did says that it is one run.
ghost use Rattle.std.specs.Prelude.{◌≡◌};
ghost use Rattle.sq_queue.specs.Seats.{HasSeats, IsNamedBy};

use super::clients::{Client, create, receive, send};
use super::worlds::options;
use sq_audit::merge::merge;
use sq_audit::parts::Parts;
use sq_base::name::QueueName;
use sq_base::ranges::Timeout;
use sq_base::refusal::Refusal;
use sq_calls::calls::{Answer, Call};
use sq_queue::actors::SEATS;
use sq_queue::service::{Clock, Open, Service, Serving};
use sq_queue::session::Session;
use sq_store::slots::SlotStore;
use sq_store::store::Store;
use std::alloc::Global;
use std::marker::{Brand, Model};
use std::process::Abort;
use std::sync::Wait;
use std::sync::atomic::{AtomicU64, Ordering};
use std::sync::ledger::{Blank, Ledger};
use std::thread;
use std::thread::Threads;

/// A clock that has stopped.
#[derive(Drop)]
struct Stopped;

impl Clock for Stopped {
    ghost tells = { λ c ms. Unit {0} };

    fn now(&self) -> u64 {
        1000
    }
}

/// A service, in a box. It is generic over its store: so the prover finds that threads may share it.
#[derive(Drop)]
struct Shop<D: Ledger, T: Ledger, S: Store> {
    service: Box<Serving<Stopped, Open, D, T, S>>,
}

impl<D: Ledger, T: Ledger, S: Store> Model for Shop<D, T, S> {
    ghost use Rattle.std.specs.Prelude.{⊤};

    ghost Value = { ⊤ };

    ghost view = { λ s. tt };
}

impl<D: Ledger, T: Ledger> Shop<D, T, SlotStore> {
    // Does what a session asks.
    fn call<R: Wait>(
        &self,
        rt: &R,
        session: &mut Session<D, T>,
        call: &Call,
    ) -> Result<Answer, Refusal> {
        self.service.call(rt, session, call)
    }
}

/// A session that calls.
#[derive(Drop)]
struct Caller<'a, D: Ledger, T: Ledger, R> {
    rt: &'a R,
    shop: &'a Shop<D, T, SlotStore>,
    session: &'a mut Session<D, T>,
}

impl<'a, D: Ledger, T: Ledger, R: Wait> Client for Caller<'a, D, T, R> {
    fn call(&mut self, call: &Call) -> Result<Answer, Refusal> {
        self.shop.call(self.rt, self.session, call)
    }
}

// Whether a session sends a message and receives one.
fn is_served<D: Ledger, T: Ledger, R: Wait>(
    rt: &R,
    alloc: Global,
    shop: &Shop<D, T, SlotStore>,
    session: &mut Session<D, T>,
    queue: QueueName,
) -> bool {
    let mut client = Caller { rt, shop, session };
    send(&mut client, alloc, queue, "hello").is_some()
        && receive(&mut client, queue, Timeout::of(30)).is_some()
}

// Two sessions, of which the first has made a queue.
fn begin<D: Ledger, T: Ledger, R: Wait + Abort>(
    rt: &R,
    alloc: Global,
    shop: &Shop<D, T, SlotStore>,
    queue: QueueName,
) -> Vec<Session<D, T>> {
    let mut session = shop.service.session(rt).expect(rt, "a number");
    let mut maker = Caller {
        rt,
        shop,
        session: &mut session,
    };
    assert!(rt; create(&mut maker, queue, None));
    let second = shop.service.session(rt).expect(rt, "a number");
    vec![in alloc; session, second].expect(rt, "memory")
}

// A service, whose two counts have names.
fn open<D: Ledger, T: Ledger>(
    rt: &impl Abort,
    alloc: Global,
    of_directory: Blank,
    of_ledger: Blank,
) -> Shop<D, T, SlotStore>
    requires of_directory { IsNamedBy D.name D.parts of_directory }
    requires of_ledger { IsNamedBy T.name T.parts of_ledger }
{
    let service: Service<Stopped, Open, D, T> = Service::new(
        alloc,
        options(),
        Stopped,
        Open,
        of_directory,
        of_ledger,
    ).expect(rt, "options in their ranges");
    Shop {
        service: Box::new(alloc, service).expect(rt, "memory"),
    }
}

// All that a service leaves, with what these sessions did.
fn close<D: Ledger, T: Ledger>(
    rt: &impl Abort,
    alloc: Global,
    shop: Shop<D, T, SlotStore>,
    sessions: Vec<Session<D, T>>,
) -> Box<Parts>
    requires of_directory { HasSeats D.parts }
    requires of_ledger { HasSeats T.parts }
{
    match Box::into_inner(shop.service).finish(sessions) {
        Ok(parts) => Box::new(alloc, parts).expect(rt, "memory"),
        Err(_) => panic!(rt; "memory"),
    }
}

// How many messages there are in the one run of all that was done.
fn messages(rt: &impl Abort, alloc: Global, parts: &Parts) -> usize {
    let run = merge(alloc, parts).expect(rt, "one run");
    run.lineages(alloc).expect(rt, "memory").len()
}

// Two threads call at one service; whether each received a message, as 1 or 0, and how many messages there were.
fn share<R: Threads + Wait + Abort + Sync, D: Ledger + Send + Sync, T: Ledger + Send + Sync>(
    rt: &R,
    alloc: Global,
    of_directory: Blank,
    of_ledger: Blank,
) -> ([u64; 2], usize)
    requires of_directory { IsNamedBy D.name D.parts of_directory }
    requires of_ledger { IsNamedBy T.name T.parts of_ledger }
{
    let orders = QueueName::new(b"orders").expect(rt, "a name");
    let shop: Shop<D, T, SlotStore> = open(rt, alloc, of_directory, of_ledger);
    let mut sessions = begin(rt, alloc, &shop, orders);
    let received = [AtomicU64::new(0), AtomicU64::new(0)];
    thread::for_each_mut(
        rt,
        &mut sessions,
        2,
        &|index: usize, session: &mut Session<D, T>| {
            let served = is_served(rt, alloc, &shop, session, orders) as u64;
            if let Some(flag) = received.get(index) {
                flag.store(served, Ordering::SeqCst);
            }
        },
    );
    let parts = close(rt, alloc, shop, sessions);
    let [first, second] = received;
    let both = [first.load(Ordering::SeqCst), second.load(Ordering::SeqCst)];
    (both, messages(rt, alloc, &parts))
}

// At a service of their own.
fn meet<R: Threads + Wait + Abort + Sync>(rt: &R, alloc: Global) -> ([u64; 2], usize) {
    share::<R, Brand, Brand>(rt, alloc, Blank::new(SEATS), Blank::new(SEATS))
}

#[test]
fn two_threads_send_and_receive(rt: HostRuntime) {
    let ([first, second], messages) = meet(&rt, rt.alloc());
    assert!(rt;
        first == 1 && second == 1 && messages == 2,
        "{first} {second} {messages}"
    );
}
