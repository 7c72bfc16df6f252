//! Threads that call one service.
ghost use Rattle.std.specs.Prelude.{◌≡◌};
ghost use Rattle.sq_queue.specs.Seats.{IsNamedBy};

use crate::options::{options, queue_name};
use crate::spent::{Spent, begin};
use sq_base::name::QueueName;
use sq_server::clients::{create, delete, first_handle, receive, send};
use sq_server::served::{Blanks, Client, Served};
use sq_store::slots::SlotStore;
use std::alloc::Global;
use std::marker::Brand;
use std::sync::Wait;
use std::sync::ledger::Ledger;
use std::thread;
use std::thread::Threads;
use std::time::{Clock, CpuClock};

/// A thread's client, the queue that it calls at, and how many of its calls were answered.
#[derive(Drop)]
struct Caller<D: Ledger, T: Ledger> {
    client: Client<D, T>,
    queue: QueueName,
    answered: u64,
}

// A message is sent, received and deleted; how many of the three calls were answered.
fn cycle<R: Clock + Wait, D: Ledger, T: Ledger>(
    service: &Served<'_, R, D, T, SlotStore>,
    client: &mut Client<D, T>,
    queue: QueueName,
) -> u64 {
    let Ok(call) = send(service.alloc, queue) else {
        return 0;
    };
    let mut answered = service.call(client, &call).is_ok() as u64;
    if let Ok(answer) = service.call(client, &receive(queue, None)) {
        answered = answered.saturating_add(1);
        if let Some(handle) = first_handle(&answer) {
            let deleted = service.call(client, &delete(queue, handle)).is_ok();
            answered = answered.saturating_add(deleted as u64);
        }
    }
    answered
}

// A caller makes so many calls.
fn make_calls<R: Clock + Wait, D: Ledger, T: Ledger>(
    service: &Served<'_, R, D, T, SlotStore>,
    caller: &mut Caller<D, T>,
    calls: u64,
) {
    // Nothing is written that lies beside what another thread reads.
    let queue = caller.queue;
    let mut all = 0u64;
    for _ in 0..calls / 3 {
        let answered = cycle(service, &mut caller.client, queue);
        all = all.saturating_add(answered);
    }
    caller.answered = all;
}

// A caller for each thread, at the queues by turns, which are made.
fn callers<R: Clock + Wait, D: Ledger, T: Ledger>(
    service: &Served<'_, R, D, T, SlotStore>,
    threads: u64,
    queues: u64,
) -> Option<Vec<Caller<D, T>>> {
    let mut callers = Vec::new(service.alloc);
    for number in 0..threads {
        let queue = queue_name(number % queues.max(1))?;
        let mut client = service.client().ok()?;
        service.call(&mut client, &create(queue, None)).ok()?;
        callers
            .push(Caller {
                client,
                queue,
                answered: 0,
            })
            .ok()?;
    }
    Some(callers)
}

// All callers at once; how many calls were answered.
fn call_all<R: Threads + Wait + Clock + Sync, D: Ledger + Send + Sync, T: Ledger + Send + Sync>(
    service: &Served<'_, R, D, T, SlotStore>,
    callers: &mut Vec<Caller<D, T>>,
    calls: u64,
) -> u64 {
    let threads = callers.len().max(1);
    thread::for_each_mut(
        service.rt,
        callers,
        threads,
        &|_: usize, caller: &mut Caller<D, T>| make_calls(service, caller, calls),
    );
    let mut answered = 0u64;
    for caller in callers.iter() {
        answered = answered.saturating_add(caller.answered);
    }
    answered
}

/// So many threads that call at so many queues of so many homes each, and how many calls each thread makes.
#[derive(Clone, Copy)]
pub struct Load {
    pub threads: u64,
    pub queues: u64,
    pub homes: u64,
    pub calls: u64,
}

// What a load takes at a service of its own.
fn measure_at<
    R: Threads + Wait + Clock + CpuClock + Sync,
    D: Ledger + Send + Sync,
    T: Ledger + Send + Sync,
>(rt: &R, alloc: Global, load: Load, blanks: Blanks) -> Option<Spent>
    requires of_directory { IsNamedBy D.name D.parts blanks.directory }
    requires of_ledger { IsNamedBy T.name T.parts blanks.ledger }
{
    let service: Served<'_, R, D, T, SlotStore> = Served::new(
        rt,
        alloc,
        options(load.homes),
        blanks,
    ).ok()?;
    let mut callers = callers(&service, load.threads, load.queues)?;
    let begun = begin(rt);
    let answered = call_all(&service, &mut callers, load.calls);
    Some(begun.spent(rt, answered))
}

/// What a load takes; none where there is no memory for it.
pub fn measure<R: Threads + Wait + Clock + CpuClock + Sync>(
    rt: &R,
    alloc: Global,
    load: Load,
) -> Option<Spent> {
    measure_at::<R, Brand, Brand>(rt, alloc, load, Blanks::new())
}
