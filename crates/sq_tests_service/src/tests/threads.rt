//! Runs of many threads at one service.
use super::asks::{Ask, named};
use super::shared::{Client, HELD, NOTHING, QUEUE, Setting};
use super::stories::{Deed, Scene, must, tell};
use sq_actions::walk::Walk;
use sq_model::item::TaskNo;
use sq_tests_kit::choices::Choices;
use std::process::Abort;
use std::sync::Wait;
use std::sync::atomic::Ordering;
use std::sync::ledger::Ledger;

const SENDS: &[Deed] = &[Deed::Sends(100)];

#[test]
fn two_threads_leave_one_run(rt: HostRuntime) {
    let told = tell(&rt, rt.alloc(), Setting::of(QUEUE, 2), &[SENDS; 2]);
    let seen = told.seen;
    let left = seen.sessions == [2, 2]
        && seen.events[0] == 201
        && seen.messages == Some(200)
        && seen.in_home == 200;
    must(&rt, &told, told.by[0] == 200 && told.by[1] == 200 && left);
}

// A thread is held inside a home of the first queue until another one's send to the second was answered.
const INSIDE: &[Deed] = &[Deed::Ask(Ask::Send(b'q'))];

const BESIDE: &[Deed] = &[Deed::AwaitHeld, Deed::Ask(Ask::Send(b'r')), Deed::Sign];

#[test]
fn a_thread_inside_a_home_holds_up_no_other_queue(rt: HostRuntime) {
    let setting = Setting {
        queue: 1,
        ..Setting::of(HELD, 1)
    };
    let told = tell(&rt, rt.alloc(), setting, &[INSIDE, BESIDE]);
    must(&rt, &told, told.by[0] == 1 && told.by[1] == 110 && told.met);
}

/// Queues of a run of many threads.
const QUEUES: [u8; 6] = *b"abcdef";

// One of the queues.
fn one_of(choices: &mut Choices) -> u8 {
    QUEUES[choices.below(6) as usize]
}

// What changes which queues there are, what is in them, or the tasks.
fn rare_ask(choices: &mut Choices) -> Ask {
    let name = one_of(choices);
    let other = one_of(choices);
    match choices.below(8) {
        0 => Ask::DeleteQueue(name),
        1 => Ask::Purge(name),
        2 => Ask::Start(name, Some(other)),
        3 => Ask::Cancel(1 + choices.below(4)),
        4 => Ask::ListTasks(name),
        5 => Ask::Create(name, None),
        _ => Ask::Create(name, Some(other)),
    }
}

// How far a client's turns are: the item that it tried last, and its walk for the task that it served last.
#[derive(Drop)]
struct Turns {
    tried: u64,
    walk: Walk,
}

// A turn of a mover; a new walk begins where another task was served last.
fn turn_once<D: Ledger, T: Ledger, R: Wait + Abort>(
    at: &Scene<'_, '_, D, T, R>,
    client: &mut Client<D, T>,
    turns: &mut Turns,
    choices: &mut Choices,
) {
    let (rt, service) = (at.rt, at.service.service());
    let _ = match choices.below(3) {
        0 => service.leave(rt, client.session(), &named(rt, one_of(choices))),
        1 => service.bring(rt, client.session(), &mut turns.tried),
        _ => {
            let task = TaskNo::new(1 + choices.below(4)).expect(rt, "a number");
            if turns.walk.task() != task {
                turns.walk = Walk::new(task);
            }
            service.serve(rt, client.session(), &mut turns.walk)
        }
    };
}

// One call or turn of a client at a queue; 1 where it sent a message.
fn act_once<D: Ledger, T: Ledger, R: Wait + Abort>(
    at: &Scene<'_, '_, D, T, R>,
    client: &mut Client<D, T>,
    turns: &mut Turns,
    choices: &mut Choices,
) -> u64 {
    let name = one_of(choices);
    match choices.below(12) {
        0..=3 => return at.heard(client, Ask::Send(name)).done as u64,
        4..=6 => {
            at.receive_and_delete(client, name);
        }
        7 => {
            at.heard(client, rare_ask(choices));
        }
        _ => turn_once(at, client, turns, choices),
    }
    0
}

/// Makes so many calls and turns at random, while the clock goes on, and tells how many messages were sent.
pub fn random<D: Ledger, T: Ledger, R: Wait + Abort>(
    at: &Scene<'_, '_, D, T, R>,
    client: &mut Client<D, T>,
    calls: u64,
) -> u64 {
    let mut turns = Turns {
        tried: 0,
        walk: Walk::new(TaskNo::first()),
    };
    let mut choices = Choices {
        state: at.index as u64,
    };
    let mut sent = 0u64;
    for _ in 0..calls {
        let more = act_once(at, client, &mut turns, &mut choices);
        sent = sent.saturating_add(more);
        at.signs.time.fetch_add(20, Ordering::SeqCst);
    }
    sent
}

const RANDOM: &[Deed] = &[Deed::Random(2000)];

#[test]
fn eight_threads_leave_one_run(rt: HostRuntime) {
    let told = tell(&rt, rt.alloc(), Setting::of(NOTHING, 2), &[RANDOM; 8]);
    let mut sent = 0u64;
    for number in told.by {
        sent = sent.saturating_add(number);
    }
    let left = told.seen.sessions == [8, 8] && told.seen.messages == Some(sent);
    must(&rt, &told, 0 < sent && left);
}
