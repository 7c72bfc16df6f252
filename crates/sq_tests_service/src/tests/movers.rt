//! Movers at a service.
use super::asks::{Ask, named};
use super::shared::{Client, DEAD_LETTER, Setting};
use super::stories::{Deed, Scene, Told, must, tell};
use sq_actions::walk::Walk;
use sq_base::refusal::Refusal;
use sq_calls::turns::Turned;
use sq_model::item::TaskNo;
use sq_mover::mover::{Mover, run_mover};
use sq_mover::turns::{dead_turn, enter_turn, task_turn};
use std::alloc::Global;
use std::process::Abort;
use std::sync::Wait;
use std::sync::ledger::Ledger;
use std::thread::Threads;

/// Makes so many turns of a mover, and tells how many of them moved a message or ended a task; None where they are not made.
pub fn moved<D: Ledger, T: Ledger, R: Wait + Abort>(
    at: &Scene<'_, '_, D, T, R>,
    client: &mut Client<D, T>,
    number: u64,
) -> Option<u64> {
    let mut mover = Mover::new(at.alloc);
    let made = run_mover(
        at.service.service(),
        at.rt,
        client.session(),
        &mut mover,
        number,
    );
    if made == Ok(number) {
        Some(mover.moved())
    } else {
        None
    }
}

const BRING: &[Deed] = &[Deed::Turns(100), Deed::Receive(b'd')];

#[test]
fn a_mover_brings_a_dead_letter(rt: HostRuntime) {
    let told = tell(&rt, rt.alloc(), Setting::of(DEAD_LETTER, 1), &[BRING]);
    must(
        &rt,
        &told,
        told.by[0] == 11 && told.seen.messages == Some(1),
    );
}

// A leave and an entry of the dead letter; then those of the task that takes it back, and its end.
const COUNT: &[Deed] = &[
    Deed::Moves(100),
    Deed::Ask(Ask::Start(b'd', None)),
    Deed::Moves(100),
    Deed::Moves(100),
];

#[test]
fn a_mover_counts_what_moved(rt: HostRuntime) {
    let told = tell(&rt, rt.alloc(), Setting::of(DEAD_LETTER, 1), &[COUNT]);
    must(
        &rt,
        &told,
        told.by[0] == 2130 && told.seen.messages == Some(1),
    );
}

// Queue r is full, so that a task's message cannot come in there until one is deleted.
const FULL: &[Deed] = &[
    Deed::Ask(Ask::Create(b'r', None)),
    Deed::Ask(Ask::Send(b'r')),
    Deed::Ask(Ask::Send(b'r')),
    Deed::Moves(100),
    Deed::Ask(Ask::Start(b'd', Some(b'r'))),
    Deed::Moves(100),
    Deed::Moves(100),
    Deed::ReceiveAndDelete(b'r'),
    Deed::Moves(100),
    Deed::Moves(100),
];

#[test]
fn a_task_that_waits_for_room_moves_nothing(rt: HostRuntime) {
    let setting = Setting {
        rows: 2,
        ..Setting::of(DEAD_LETTER, 1)
    };
    let told = tell(&rt, rt.alloc(), setting, &[FULL]);
    must(
        &rt,
        &told,
        told.by[0] == 1_112_110_120 && told.seen.messages == Some(3),
    );
}

// The number of a turn's word; 0 where it is refused.
fn word(told: Result<Turned, Refusal>) -> u64 {
    match told {
        Ok(Turned::Left) => 1,
        Ok(Turned::Entered) => 2,
        Ok(Turned::Throttled) => 3,
        Ok(Turned::Waiting) => 4,
        Ok(Turned::Finished) => 5,
        Ok(Turned::Nothing) => 6,
        Ok(_) => 7,
        Err(_) => 0,
    }
}

/// The words of turns, as digits: a dead letter is brought to its queue, and a task takes it back.
pub fn words<D: Ledger, T: Ledger, R: Wait + Abort>(
    at: &Scene<'_, '_, D, T, R>,
    client: &mut Client<D, T>,
) -> u64 {
    let (rt, service) = (at.rt, at.service.service());
    let mut tried = 0;
    let dead = word(dead_turn(service, rt, client.session(), &named(rt, b'q')));
    let entered = word(enter_turn(service, rt, client.session(), &mut tried));
    assert!(rt; at.heard(client, Ask::Start(b'd', None)).done, "a task");
    let mut walk = Walk::new(TaskNo::new(1).expect(rt, "a number"));
    let mut words = dead.saturating_mul(10).saturating_add(entered);
    for turn in 2..8usize {
        let next = if turn == 5 {
            word(enter_turn(service, rt, client.session(), &mut tried))
        } else {
            word(task_turn(service, rt, client.session(), &mut walk))
        };
        words = words.saturating_mul(10).saturating_add(next);
    }
    words
}

#[test]
fn turns_say_what_they_did(rt: HostRuntime) {
    let told = tell(
        &rt,
        rt.alloc(),
        Setting::of(DEAD_LETTER, 1),
        &[&[Deed::Words]],
    );
    must(&rt, &told, told.by[0] == 12_164_265);
}

// A mover makes so many turns, and is held after its leave until a call of the client was answered; it is made after the turns where
// nobody was held.
fn told_between<R: Threads + Wait + Abort + Sync>(
    rt: &R,
    alloc: Global,
    turns: u64,
    ask: Ask,
) -> Told {
    let setting = Setting {
        item: 1,
        ..Setting::of(DEAD_LETTER, 1)
    };
    let client = [Deed::AwaitHeld, Deed::Ask(ask), Deed::Sign];
    let mover = [Deed::Turns(turns), Deed::Hold];
    tell(rt, alloc, setting, &[client.as_slice(), mover.as_slice()])
}

#[test]
fn a_mover_holds_no_source_while_its_item_is_on_the_way(rt: HostRuntime) {
    let told = told_between(&rt, rt.alloc(), 6, Ask::Receive(b'q'));
    must(
        &rt,
        &told,
        told.by[0] == 110 && told.by[1] == 10 && told.met,
    );
}

// Whether both were answered, and left the message in one run.
fn is_one_run(told: &Told) -> bool {
    told.by[0] == 110
        && told.by[1] == 10
        && told.seen.sessions == [2, 2]
        && told.seen.messages == Some(1)
}

#[test]
fn a_mover_is_stopped_after_each_turn_while_its_target_is_deleted(rt: HostRuntime) {
    let mut left = 0u64;
    for turns in 0..=50u64 {
        let told = told_between(&rt, rt.alloc(), turns, Ask::DeleteQueue(b'd'));
        must(&rt, &told, is_one_run(&told));
        left = left.saturating_add((told.seen.events[1] != 0) as u64);
    }
    // The first turns are of d, where there is no dead letter.
    assert!(rt; left == 48, "{left}");
}
