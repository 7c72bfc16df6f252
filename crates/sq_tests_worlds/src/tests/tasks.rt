//! One move task: each call on its happy path.
use sq_base::ids::QueueNo;
use sq_base::ranges::Rate;
use sq_base::refusal::Refusal;
use sq_model::item::TaskNo;
use sq_model::task::{FailureReason, NamedQueue, TaskStatus};
use sq_task::task::MoveTask;
use sq_tests_kit::setup::named;
use std::rt::HostRuntime;

// A task of rate 2, at 1000 ms.
fn started() -> Result<MoveTask, Refusal> {
    let source = NamedQueue {
        number: QueueNo::following(0),
        name: named("letters")?,
    };
    Ok(MoveTask::start(
        TaskNo::new(7).unwrap_or(TaskNo::first()),
        source,
        None,
        Rate::new(2),
        1000,
    ))
}

// A message leaves where the rate allows it; whether one did.
fn leaves(task: &mut MoveTask, moment: u64) -> bool {
    let allowed = task.may_leave(moment) && task.task().left < u64::MAX;
    if allowed {
        task.note_left(moment);
    }
    allowed
}

// A message in transit comes in.
fn comes_in(task: &mut MoveTask) {
    if task.in_transit() > 0 {
        task.note_entered();
    }
}

// A task of rate 2 takes two messages in a second, and the next at the next one; one of the three comes in.
fn has_left(task: &mut MoveTask) -> bool {
    let left = leaves(task, 1998) && leaves(task, 1999) && !leaves(task, 1999);
    let next = leaves(task, 2000);
    comes_in(task);
    left && next
}

// It is cancelled, once, and waits for those in transit, of which one comes back and one is dropped.
fn waits(task: &mut MoveTask) -> bool {
    let busy = task.finish() == Err(Refusal::UnsupportedOperation);
    let cancelled = task.cancel().is_ok() && !task.is_running() && task.is_active();
    let again = task.cancel() == Err(Refusal::UnsupportedOperation);
    if task.in_transit() > 0 {
        task.note_back();
    }
    let waits = task.in_transit() == 1;
    if task.in_transit() > 0 {
        task.note_dropped();
    }
    busy && cancelled && again && waits
}

// It ends then.
fn is_ended(task: &mut MoveTask) -> bool {
    let finished = task.finish().is_ok() && !task.is_active();
    let ended = task.task();
    finished
        && ended.number.get() == 7
        && ended.started == 1000
        && ended.status == TaskStatus::Cancelled
        && ended.left == 3
        && ended.moved == 1
        && ended.back == 1
        && ended.dropped == 1
}

#[test]
fn a_task_is_cancelled_and_ends(rt: HostRuntime) {
    let mut task = started().expect(&rt, "a name");
    let went = has_left(&mut task) && waits(&mut task) && is_ended(&mut task);
    assert!(rt; went);
}

// One that fails stays as it failed, and is not finished.
#[test]
fn a_task_fails_once(rt: HostRuntime) {
    let mut task = started().expect(&rt, "a name");
    task.fail(FailureReason::NoOrigin);
    task.fail(FailureReason::SourceClosed);
    let failed = task.task().status == TaskStatus::Failed(FailureReason::NoOrigin);
    assert!(rt; failed && task.finish() == Err(Refusal::UnsupportedOperation));
}
