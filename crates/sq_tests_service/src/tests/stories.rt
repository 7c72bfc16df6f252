//! Stories of clients, each told at a service of its own: what each client does, and how a service is made, shared by threads and
//! ended.
ghost use Rattle.std.specs.Prelude.{◌≡◌};
ghost use Rattle.sq_queue.specs.Seats.{IsNamedBy};

use super::asks::{Ask, Heard, call_of, delete, heard_of};
use super::evidence::Seen;
use super::movers::{moved, words};
use super::named::is_done_by_name;
use super::shared::{Client, Setting, Shared, Signs, is_set};
use super::threads::random;
use sq_calls::calls::Call;
use sq_queue::actors::SEATS;
use sq_queue::session::Session;
use sq_store::slots::SlotStore;
use std::alloc::Global;
use std::marker::Brand;
use std::process::Abort;
use std::sync::Wait;
use std::sync::atomic::Ordering;
use std::sync::ledger::{Blank, Ledger};
use std::thread;
use std::thread::Threads;

/// What a client does, of which each tells a number.
#[derive(Clone, Copy)]
pub enum Deed {
    /// A call: 1 where it is not refused.
    Ask(Ask),
    /// The same by the name of the call.
    Named(Ask),
    /// A receive: the serial of the message's id and one more, 0 where there is none. The message is visible again at once.
    Receive(u8),
    /// A message of a queue is received, and deleted by the handle that was given: 1 where both are done.
    ReceiveAndDelete(u8),
    /// Sends to queue q, and as often its URL is asked for: how many were not refused.
    Sends(u64),
    /// A send to queue q that may do so many steps: 1 where it is stopped.
    SendOfSteps(u64),
    /// Turns of a mover: 1 where they are made.
    Turns(u64),
    /// Turns of a mover: how many of them moved a message or ended a task; 9 where they are not made.
    Moves(u64),
    /// What the turns of a mover say that brings a dead letter to its queue and back, as digits.
    Words,
    /// Calls and turns at random, while the clock goes on: how many messages were sent.
    Random(u64),
    /// Sets the clock, in ms: 0.
    Clock(u64),
    /// Waits until somebody is held: 1 where somebody is.
    AwaitHeld,
    /// Says that somebody is held, as who is held does: 0.
    Hold,
    /// Gives the sign to who is held: 0.
    Sign,
    /// Takes all signs back: 0.
    NoSign,
}

/// Where a client of a story acts.
#[derive(Drop)]
pub struct Scene<'s, 'a, D: Ledger, T: Ledger, R> {
    pub rt: &'s R,
    pub alloc: Global,
    pub service: &'s Shared<'a, D, T, SlotStore>,
    pub signs: &'s Signs,
    /// Which client it is, from 0.
    pub index: usize,
}

// What a deed tells that is done to the clock or to the signs.
fn show(signs: &Signs, deed: Deed) -> u64 {
    match deed {
        Deed::Clock(time) => signs.time.store(time, Ordering::SeqCst),
        Deed::AwaitHeld => return is_set(&signs.held) as u64,
        Deed::Hold => signs.held.store(1, Ordering::SeqCst),
        Deed::Sign => signs.sign.store(1, Ordering::SeqCst),
        _ => signs.take_back(),
    }
    0
}

impl<'s, 'a, D: Ledger, T: Ledger, R: Wait + Abort> Scene<'s, 'a, D, T, R> {
    // What a client has of the answer to a call.
    fn answered(&self, client: &mut Client<D, T>, call: &Call) -> Heard {
        let service = self.service.service();
        heard_of(&service.call(self.rt, client.session(), call))
    }

    /// What a client has of the answer to what it asks.
    pub fn heard(&self, client: &mut Client<D, T>, ask: Ask) -> Heard {
        self.answered(client, &call_of(self.rt, self.alloc, ask))
    }

    /// A message is received, and deleted by the handle that was given; without a handle where there is none.
    pub fn receive_and_delete(&self, client: &mut Client<D, T>, name: u8) -> bool {
        let got = self.heard(client, Ask::Receive(name)).got;
        let call = delete(self.rt, name, got.map(|got| got.handle));
        self.answered(client, &call).done
    }

    fn sends(&self, client: &mut Client<D, T>, times: u64) -> u64 {
        let mut done = 0u64;
        for _ in 0..times {
            let sent = self.heard(client, Ask::Send(b'q')).done;
            let told = self.heard(client, Ask::Url(b'q')).done;
            done = done.saturating_add(sent as u64).saturating_add(told as u64);
        }
        done
    }

    fn send_is_stopped(&self, client: &mut Client<D, T>, steps: u64) -> bool {
        let call = call_of(self.rt, self.alloc, Ask::Send(b'q'));
        let service = self.service.service();
        matches!(
            service.call_until(self.rt, client.session(), &call, steps),
            Ok(None)
        )
    }

    // What a deed tells.
    fn do_deed(&self, client: &mut Client<D, T>, deed: Deed) -> u64 {
        match deed {
            Deed::Ask(ask) => self.heard(client, ask).done as u64,
            Deed::Named(ask) => is_done_by_name(self, client, ask) as u64,
            Deed::Receive(name) => match self.heard(client, Ask::Receive(name)).got {
                Some(got) => got.serial.saturating_add(1),
                None => 0,
            },
            Deed::ReceiveAndDelete(name) => self.receive_and_delete(client, name) as u64,
            Deed::Sends(times) => self.sends(client, times),
            Deed::SendOfSteps(steps) => self.send_is_stopped(client, steps) as u64,
            Deed::Turns(number) => moved(self, client, number).is_some() as u64,
            Deed::Moves(number) => moved(self, client, number).unwrap_or(9),
            Deed::Words => words(self, client),
            Deed::Random(calls) => random(self, client, calls),
            _ => show(self.signs, deed),
        }
    }

    // What the deeds of a client tell, as digits: so each number has its place, and none makes up for another.
    fn act(&self, client: &mut Client<D, T>, deeds: &[Deed]) -> u64 {
        let mut all = 0u64;
        for deed in deeds {
            all = all
                .saturating_mul(10)
                .saturating_add(self.do_deed(client, *deed));
        }
        all
    }
}

/// What a story tells.
#[derive(Clone, Copy, PartialEq, Eq, Debug)]
pub struct Told {
    /// What the deeds of each of the first eight clients tell, as digits; a number above 9 stands alone.
    pub by: [u64; 8],
    /// Whether somebody who was held saw the sign.
    pub met: bool,
    /// What the service left.
    pub seen: Seen,
}

// A client, and its number.
#[derive(Drop)]
struct Worker<D: Ledger, T: Ledger> {
    client: Client<D, T>,
    told: u64,
}

// The first client must be told this before all act.
fn must_begin(rt: &impl Abort, told: u64, want: u64) {
    assert!(rt; told == want, "begun: {told}");
}

// So many clients; the first has begun.
fn begun<D: Ledger, T: Ledger, R: Wait + Abort>(
    at: &Scene<'_, '_, D, T, R>,
    setting: Setting,
    clients: usize,
) -> Vec<Worker<D, T>> {
    let mut workers = Vec::new(at.alloc);
    for index in 0..clients {
        let mut client = at.service.client(at.rt, at.alloc);
        if index == 0 {
            let told = at.act(&mut client, setting.begin.deeds);
            must_begin(at.rt, told, setting.begin.tells);
        }
        workers
            .push(Worker { client, told: 0 })
            .expect(at.rt, "memory");
    }
    workers
}

// All of them act, each in its thread.
fn act_all<D: Ledger + Send + Sync, T: Ledger + Send + Sync, R: Threads + Wait + Abort + Sync>(
    rt: &R,
    alloc: Global,
    service: &Shared<'_, D, T, SlotStore>,
    signs: &Signs,
    deeds: &[&[Deed]],
    workers: &mut Vec<Worker<D, T>>,
) {
    let threads = workers.len().max(1);
    thread::for_each_mut(
        rt,
        workers,
        threads,
        &|index: usize, worker: &mut Worker<D, T>| {
            let at = Scene {
                rt,
                alloc,
                service,
                signs,
                index,
            };
            if let Some(all) = deeds.get(index) {
                worker.told = at.act(&mut worker.client, all);
            }
        },
    );
}

// The clients' numbers. Each second client is given back; the sessions of the others are left.
fn apart<D: Ledger, T: Ledger, R: Wait + Abort>(
    rt: &R,
    alloc: Global,
    service: &Shared<'_, D, T, SlotStore>,
    workers: &mut Vec<Worker<D, T>>,
) -> ([u64; 8], Vec<Session<D, T>>) {
    let mut by = [0u64; 8];
    let mut left = Vec::new(alloc);
    for index in 0..workers.len() {
        if workers.is_empty() {
            break;
        }
        let worker = workers.remove(0);
        if let Some(number) = by.get_mut(index) {
            *number = worker.told;
        }
        let session = worker.client.into_session();
        if index % 2 == 1 {
            service.retire(rt, session);
        } else {
            left.push(session).expect(rt, "memory");
        }
    }
    (by, left)
}

// What a story tells, at a service whose counts have these names.
fn told_by<D: Ledger + Send + Sync, T: Ledger + Send + Sync, R: Threads + Wait + Abort + Sync>(
    rt: &R,
    alloc: Global,
    setting: Setting,
    deeds: &[&[Deed]],
    of_directory: Blank,
    of_ledger: Blank,
) -> Told
    requires of_directory { IsNamedBy D.name D.parts of_directory }
    requires of_ledger { IsNamedBy T.name T.parts of_ledger }
{
    let signs = Signs::new();
    let service: Shared<'_, D, T, SlotStore> = Shared::new(
        rt,
        alloc,
        setting,
        &signs,
        of_directory,
        of_ledger,
    );
    let at = Scene {
        rt,
        alloc,
        service: &service,
        signs: &signs,
        index: 0,
    };
    let mut workers = begun(&at, setting, deeds.len());
    act_all(rt, alloc, &service, &signs, deeds, &mut workers);
    let (by, left) = apart(rt, alloc, &service, &mut workers);
    let seen = service.finish(rt, alloc, left).seen();
    let met = signs.met.load(Ordering::SeqCst) == 1;
    Told { by, met, seen }
}

impl Told {
    /// Whether the only client told this, as digits, and left so many events of the directory, the ledger and the first home, and so
    /// many messages.
    pub fn is_of_one(&self, digits: u64, events: [u64; 3], messages: u64) -> bool {
        let seen = Seen {
            sessions: [1, 1],
            events,
            messages: Some(messages),
            in_home: self.seen.in_home,
        };
        self.by[0] == digits && self.seen == seen
    }
}

/// Whether a story told what it must; what it told is shown where it did not.
pub fn must(rt: &impl Abort, told: &Told, right: bool) {
    assert!(rt; right, "{told:?}");
}

/// What a story tells, at a service of its own: a client for each list of deeds, in a thread of its own.
pub fn tell<R: Threads + Wait + Abort + Sync>(
    rt: &R,
    alloc: Global,
    setting: Setting,
    deeds: &[&[Deed]],
) -> Told {
    told_by::<Brand, Brand, R>(
        rt,
        alloc,
        setting,
        deeds,
        Blank::new(SEATS),
        Blank::new(SEATS),
    )
}
