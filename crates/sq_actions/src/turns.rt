//! What each turn does, over any steps: one step of moving messages, beside reads. What it makes of the item that was tried
//! last, or of the walk, which it is lent, is there after it, whatever it answers.
ghost use Rattle.std.specs.Prelude.{◌≡◌, ◌<◌, IfErr, if◌then◌else◌};
ghost use Rattle.sq_actions.specs.Asks.{MayRefuseMove, moved_of};
ghost use Rattle.sq_actions.specs.Performs.{Performs, LeavesRecords};
ghost use Rattle.sq_actions.specs.Turns.{LeaveFits, BringFits, Brings, ServeFits, ServesTask, LeavesFor, Finishes, WordFor, comes_in, finish_word, goes_back, goes_on, home_ahead, is_closed, left_word, none_word, over_word, walk_after, walk_waiting, word_of};
ghost use Rattle.sq_model.specs.Tasks.{is_active};

use crate::lock_steps::LockSteps;
use crate::walk::Walk;
use sq_base::ids::{HomeId, HomeNo};
use sq_base::name::QueueName;
use sq_base::refusal::Refusal;
use sq_calls::turns::Turned;
use sq_model::ledger::LedgerReply;
use sq_model::replies::HomeReply;
use sq_model::task::{Task, TaskStatus};
use sq_sample::sampler::HomeCount;
use sq_steps::act::{NamedHome, NextItem, SharedAct, TaskAct};

/// A dead letter leaves one of the homes of a queue; the word is `nothing` where that home has none. Refused as
/// QueueDoesNotExist, and as any step may be.
pub fn leave<S: LockSteps>(steps: &mut S, name: &QueueName) -> Result<Turned, Refusal>
    ensures answered { Performs S.stepped (LeaveFits (S.counts steps.old).homes name.now) steps.old result steps.new }
    ensures leaves_records { LeavesRecords (LeaveFits (S.counts steps.old).homes name.now) (S.journal steps.old) result (S.journal steps.new) }
{
    let of = steps.resolve(name)?;
    let home = NamedHome::found(&of, steps.pick());
    let answered = steps.shared_step(&home, SharedAct::LeaveDead);
    word_for(SharedAct::LeaveDead, answered)
}

/// The item in transit that comes after the one that was tried last, which `tried` names (0 at first), comes in at one of the
/// homes of the queue that it goes to; where that home is closed it is turned back, or dropped. It counts as tried then.
pub fn bring<S: LockSteps>(steps: &mut S, tried: &mut u64) -> Result<Turned, Refusal>
    ensures answered { Performs S.stepped (BringFits (S.counts steps.old).homes tried.old tried.new) steps.old result steps.new }
    ensures leaves_records { LeavesRecords (BringFits (S.counts steps.old).homes tried.old tried.new) (S.journal steps.old) result (S.journal steps.new) }
{
    match steps.peek(*tried)? {
        Some(next) => {
            *tried = next.number.get();
            let home = home_ahead(&next, steps.pick());
            bring_to(steps, &next, home)
        }
        None => Ok(Turned::Nothing),
    }
}

// The item comes in at this home. Where the home is closed, the item goes back to its source, or is dropped there.
fn bring_to<S: LockSteps>(steps: &mut S, next: &NextItem, id: HomeId) -> Result<Turned, Refusal>
    ensures { Performs S.stepped (Brings next.now id) steps.old result steps.new }
{
    let home = NamedHome { name: None, id };
    let answered = steps.shared_step(&home, move_of(next, false));
    if !is_closed(&answered) {
        return word_for(move_of(next, false), answered);
    }
    let answered = steps.shared_step(&home, move_of(next, true));
    if is_closed(&answered) {
        return Ok(Turned::Full);
    }
    word_for(move_of(next, true), answered)
}

/// A message leaves for the task of a walk, at the home of the task's source that the walk is at; or the task is to finish,
/// where each home in a row had none, or where it was cancelled. The walk is its actor's for this task.
pub fn serve<S: LockSteps>(steps: &mut S, walk: &mut Walk) -> Result<Turned, Refusal>
    ensures answered { Performs S.stepped (ServeFits (S.counts steps.old).homes walk.old walk.new) steps.old result steps.new }
    ensures leaves_records { LeavesRecords (ServeFits (S.counts steps.old).homes walk.old walk.new) (S.journal steps.old) result (S.journal steps.new) }
{
    let task = steps.read_task(walk.task)?;
    serve_on(steps, &task, walk)
}

// What is done for a task, as the walk for it is.
fn serve_on<S: LockSteps>(steps: &mut S, task: &Task, walk: &mut Walk) -> Result<Turned, Refusal>
    ensures { Performs S.stepped (ServesTask (S.counts steps.old).homes task.now walk.old walk.new) steps.old result steps.new }
{
    if goes_on(steps.homes(), task, walk) {
        leave_for(steps, task, walk)
    } else if is_active(task) {
        finish(steps, walk)
    } else {
        Ok(Turned::Ended)
    }
}

// A message leaves the home that the walk is at.
fn leave_for<S: LockSteps>(steps: &mut S, task: &Task, walk: &mut Walk) -> Result<Turned, Refusal>
    requires few { walk.old.nothings < 4294967295 }
    ensures { Performs S.stepped (LeavesFor (S.counts steps.old).homes task.now walk.old walk.new) steps.old result steps.new }
{
    let id = HomeId {
        queue: task.source.number,
        home: walk.home,
    };
    let homes = steps.homes();
    let number = walk.task;
    let home = NamedHome { name: None, id };
    let answered = steps.shared_step(&home, SharedAct::LeaveTask(number));
    *walk = walk_after(homes, *walk, &answered);
    word_for(SharedAct::LeaveTask(number), answered)
}

// The task is to finish.
fn finish<S: LockSteps>(steps: &mut S, walk: &mut Walk) -> Result<Turned, Refusal>
    ensures { Performs S.stepped (Finishes walk.old walk.new) steps.old result steps.new }
{
    let answered = steps.ledger_step(&TaskAct::Finish(walk.task));
    *walk = walk_waiting(*walk, &answered);
    finish_word(answered)
}

// Whether the task takes messages, and not each home in a row had none.
fn goes_on(homes: HomeCount, task: &Task, walk: &Walk) -> bool
    ensures { result ≡ goes_on homes task.now walk.now }
{
    match task.status {
        TaskStatus::Running => walk.nothings < homes.get() as u32,
        _ => false,
    }
}

// Whether the task is not over.
fn is_active(task: &Task) -> bool
    ensures { result ≡ is_active task.now.status }
{
    match task.status {
        TaskStatus::Running | TaskStatus::Cancelling => true,
        TaskStatus::Completed | TaskStatus::Cancelled | TaskStatus::Failed(_) => false,
    }
}

// The walk after a home was asked for a message.
fn walk_after(homes: HomeCount, walk: Walk, answered: &Result<Option<HomeReply>, Refusal>) -> Walk
    requires few { walk.nothings < 4294967295 }
    ensures { result ≡ walk_after homes walk (moved_of answered.now) }
{
    match answered {
        Ok(None) | Err(Refusal::NoMemory | Refusal::ClockRange | Refusal::Worn) => walk,
        Ok(Some(HomeReply::NoLiveRow)) => walk.after_nothing(homes),
        _ => walk.after_other(homes),
    }
}

// The walk after the task was to finish. Where it waits, the row of homes that had no message starts again.
fn walk_waiting(walk: Walk, answered: &Result<LedgerReply, Refusal>) -> Walk
    ensures { result ≡ walk_waiting walk answered.now }
{
    match answered {
        Err(Refusal::UnsupportedOperation) => walk.row_again(),
        _ => walk,
    }
}

// The word for a task that was to finish.
fn finish_word(answered: Result<LedgerReply, Refusal>) -> Result<Turned, Refusal>
    ensures { result ≡ finish_word answered }
{
    match answered {
        Ok(_) => Ok(Turned::Finished),
        Err(Refusal::UnsupportedOperation) => Ok(Turned::Waiting),
        Err(refusal) => Err(refusal),
    }
}

// A home of the queue that an item goes to.
fn home_ahead(next: &NextItem, home: HomeNo) -> HomeId
    ensures { result ≡ home_ahead next.now home }
{
    let queue = if next.homeward {
        next.source
    } else {
        next.target
    };
    HomeId { queue, home }
}

// What is asked of a home that an item goes to: that it comes in, or what becomes of it where the home is closed.
fn move_of(next: &NextItem, closed: bool) -> SharedAct
    ensures { result ≡ (if closed then goes_back next.now else comes_in next.now) }
{
    let number = next.number;
    match (next.homeward, closed) {
        (false, false) => SharedAct::Enter(number),
        (false, true) => SharedAct::TurnBack(number),
        (true, false) => SharedAct::GiveBack(number),
        (true, true) => SharedAct::Drop(number),
    }
}

// Whether the home of a step does not serve.
fn is_closed(answered: &Result<Option<HomeReply>, Refusal>) -> bool
    ensures { result ≡ is_closed (moved_of answered.now) }
{
    matches!(answered, Err(Refusal::QueueDoesNotExist))
}

// The word for a step that moves a message.
fn word_for(
    what: SharedAct,
    answered: Result<Option<HomeReply>, Refusal>,
) -> Result<Turned, Refusal>
    requires { IfErr answered (MayRefuseMove what) }
    ensures { WordFor what (moved_of answered) result }
{
    match answered {
        Ok(Some(reply)) => Ok(word_of(what, &reply)),
        Ok(None) => Ok(none_word(what)),
        Err(Refusal::OverLimit | Refusal::HomeDraining) => Ok(Turned::Full),
        Err(Refusal::UnsupportedOperation) => Ok(over_word(what)),
        Err(refusal) => Err(refusal),
    }
}

// The word for a step that was done.
fn word_of(what: SharedAct, reply: &HomeReply) -> Turned
    ensures { result ≡ word_of what reply.now }
{
    match what {
        SharedAct::LeaveDead | SharedAct::LeaveDrain => Turned::Left,
        SharedAct::LeaveTask(_) => left_word(reply),
        SharedAct::Enter(_) => Turned::Entered,
        SharedAct::TurnBack(_) => Turned::Turned,
        SharedAct::GiveBack(_) => Turned::Back,
        SharedAct::Drop(_) => Turned::Dropped,
    }
}

// The word for a leave for a task.
fn left_word(reply: &HomeReply) -> Turned
    ensures { result ≡ left_word reply.now }
{
    match reply {
        HomeReply::NoLiveRow => Turned::Nothing,
        HomeReply::NoOrigin(_) | HomeReply::SourceClosed => Turned::Failed,
        _ => Turned::Left,
    }
}

// The word where nothing was done and nothing is wrong.
fn none_word(what: SharedAct) -> Turned
    ensures { result ≡ none_word what }
{
    match what {
        SharedAct::LeaveTask(_) => Turned::Throttled,
        _ => Turned::Nothing,
    }
}

// The word where the step cannot be done any more.
fn over_word(what: SharedAct) -> Turned
    ensures { result ≡ over_word what }
{
    match what {
        SharedAct::LeaveDrain | SharedAct::LeaveTask(_) => Turned::Ended,
        _ => Turned::Nothing,
    }
}
