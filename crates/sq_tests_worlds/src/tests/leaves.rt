//! A message that leaves a home for a move task.
ghost use Rattle.sq_base.specs.Stamps.{Below};

use super::home_steps::{asked_of, unopened};
use sq_base::ids::QueueNo;
use sq_base::refusal::Refusal;
use sq_base::stamp::Stamp;
use sq_history::recorded::Home;
use sq_history::shared::{HomeHalf, StampedStep};
use sq_model::event::Actor;
use sq_model::item::{Item, ItemNo, TaskNo};
use sq_model::replies::HomeReply;
use sq_model::task::NamedQueue;
use sq_store::slots::SlotStore;
use sq_task::leave::TaskLeave;
use sq_task::task::MoveTask;
use sq_tests_kit::asks::{Answers, Ask};
use sq_tests_kit::setup::{named, stamp};
use std::alloc::Global;
use std::process::Abort;

// What a home answers a leave for a task.
#[derive(Clone, Copy, PartialEq, Eq)]
enum Told {
    // The number of the queue that the message goes to.
    Left(u64),
    NoLiveRow,
    // The serial of the message that has no queue to go to.
    NoOrigin(u64),
    SourceClosed,
    Throttled,
    Refused(Refusal),
    Other,
}

fn told_of(reply: &HomeReply) -> Told {
    match reply {
        HomeReply::Left(item) => Told::Left(item.get().target.get()),
        HomeReply::NoLiveRow => Told::NoLiveRow,
        HomeReply::NoOrigin(serial) => Told::NoOrigin(serial.get()),
        HomeReply::SourceClosed => Told::SourceClosed,
        _ => Told::Other,
    }
}

// A leave for a task of the first queue, with the second one as its destination or with none.
fn asked(has_destination: bool, allowed: bool) -> Result<TaskLeave, Refusal> {
    let source = NamedQueue {
        number: QueueNo::following(0),
        name: named("letters")?,
    };
    let destination = NamedQueue {
        number: QueueNo::following(1),
        name: named("orders")?,
    };
    let target = Some(destination).filter(|_| has_destination);
    let task = MoveTask::start(TaskNo::first(), source, target, None, 0);
    Ok(TaskLeave {
        number: TaskNo::first(),
        task: Ok(*task.task()),
        allowed,
        item: Ok(ItemNo::first()),
    })
}

fn actor() -> Actor {
    Actor {
        number: 7,
        place: 0,
        seen: stamp(0, 0),
    }
}

// What is told by the answer; an item is there exactly where one left.
fn told_by(left: &Result<Option<(HomeHalf, Option<Item>)>, Refusal>) -> Told {
    match left {
        Ok(Some((half, item))) => match (told_of(&half.answered), item) {
            (Told::Left(target), Some(item)) if item.target.get() == target => Told::Left(target),
            (Told::Left(_), _) | (_, Some(_)) => Told::Other,
            (told, None) => told,
        },
        Ok(None) => Told::Throttled,
        Err(refusal) => Told::Refused(*refusal),
    }
}

// What is answered to a leave.
fn left(alloc: Global, home: &mut Home, by: &Actor, at: Stamp, leave: &TaskLeave) -> Told
    requires last { Below home.old.last at }
    requires seen { Below by.now.seen at }
{
    let step = StampedStep {
        alloc,
        by: *by,
        stamp: Ok(at),
        name: None,
    };
    told_by(&home.leave_task(&step, leave))
}

// What is answered at this moment.
fn leave(alloc: Global, home: &mut Home, moment: u32, asked: &Result<TaskLeave, Refusal>) -> Told {
    let by = actor();
    let at = stamp(moment as u64, 0);
    if !home.last().is_below(at) || !by.seen.is_below(at) {
        return Told::Other;
    }
    match asked {
        Ok(leave) => left(alloc, home, &by, at, leave),
        Err(refusal) => Told::Refused(*refusal),
    }
}

// Whether it is done.
fn done(alloc: Global, home: &mut Home, moment: u32, ask: Ask) -> bool {
    let told = asked_of(alloc, home, 0, moment as u64, ask);
    !matches!(told, Answers::Refused(_) | Answers::Other)
}

// The moment of a leave, what is asked of the home 1 ms before it, whether the task has a destination and its rate allows it, and what
// is answered.
type Line = (u32, Option<Ask>, bool, bool, Told);

// Whether a home answers so.
fn is_told(alloc: Global, home: &mut Home, line: &Line) -> bool {
    let (moment, before, has_destination, allowed, want) = *line;
    if let Some(ask) = before {
        if !done(alloc, home, moment.saturating_sub(1), ask) {
            return false;
        }
    }
    leave(alloc, home, moment, &asked(has_destination, allowed)) == want
}

// The index of the first line that a home answers otherwise; how many there are, where it answers all as they say.
fn first_wrong(alloc: Global, home: &mut Home, lines: &[Line]) -> usize {
    for (index, line) in lines.iter().enumerate() {
        if !is_told(alloc, home, line) {
            return index;
        }
    }
    lines.len()
}

// The same of a home of its own, which has spare memory for two messages.
fn played(rt: &impl Abort, alloc: Global, lines: &[Line]) -> usize {
    let mut home = unopened(rt, alloc, SlotStore::new(alloc), 2);
    first_wrong(alloc, &mut home, lines)
}

// One message is sent to the source. Without a destination it has no queue to go to, and stays; past the rate it stays too.
#[test]
fn a_message_leaves_for_a_task(rt: HostRuntime) {
    let no_queue = Told::Refused(Refusal::QueueDoesNotExist);
    let lines: [Line; 7] = [
        (1, None, true, true, no_queue),
        (3, Some(Ask::Open), true, true, Told::NoLiveRow),
        (5, Some(Ask::Send(None)), false, true, Told::NoOrigin(0)),
        (6, None, true, false, Told::Throttled),
        (6, None, true, true, Told::Left(2)),
        (7, None, true, true, Told::NoLiveRow),
        (9, Some(Ask::Close), true, false, Told::SourceClosed),
    ];
    assert_eq!(rt; played(&rt, rt.alloc(), &lines), 7);
}
