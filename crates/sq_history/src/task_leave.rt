//! What a home makes of a leave for a move task: whether a message leaves, and where to.
ghost use Rattle.std.specs.Prelude.{◌≡◌, true, false, None, Some, IfErr, IfOk, IfNone, IfSome, OnErr, OnOk};
ghost use Rattle.sq_model.specs.declared.calls.HomeCall.TheVariants.{LeaveTask};
ghost use Rattle.sq_model.specs.declared.item.Reason.TheVariants.{Task as ForTask};
ghost use Rattle.sq_model.specs.declared.replies.HomeReply.TheVariants.{Left};
ghost use Rattle.sq_model.specs.declared.task.Task.{Task as Taking};
ghost use Rattle.sq_model.specs.Homes.{HomeStep, IsFrom};
ghost use Rattle.sq_model.specs.Tasks.{target_of};
ghost use Rattle.sq_shard.specs.Moves.{IsLiveAt, is_opened};
ghost use Rattle.sq_history.specs.inside.Acts.{small_reply};
ghost use Rattle.sq_history.specs.Halves.{IsServing, IsTaker, IsTaskAnswer, IsTaskRefused, IsThrottled};
ghost use Rattle.sq_history.specs.inside.Halves.{IsFound};

use crate::act::{Answer, SmallReply};
use crate::shared::answer_left;
use sq_base::ids::{QueueNo, Serial};
use sq_base::refusal::Refusal;
use sq_base::row::Row;
use sq_model::item::{Item, ItemNo, Reason, TaskNo};
use sq_model::replies::HomeReply;
use sq_model::rows::copy_row;
use sq_model::task::Task;
use sq_shard::shard::Shard;
use sq_store::store::Store;
use sq_task::leave::TaskLeave;
use std::alloc::Global;

/// What a home answers, what the ledger is told, and the item that left.
#[derive(Drop)]
pub(crate) struct TaskAnswer {
    pub(crate) answer: Answer,
    pub(crate) for_ledger: HomeReply,
    pub(crate) left: Option<Item>,
}

impl TaskAnswer {
    // No message leaves.
    fn none(told: SmallReply) -> TaskAnswer
        ensures { result ≡ record { answer = small_reply told; for_ledger = small_reply told; left = None } }
    {
        TaskAnswer {
            answer: Answer::of(told),
            for_ledger: told.reply(),
            left: None,
        }
    }
}

/// What a leave for a task finds at a home that serves: no message is live, the one with this serial has no queue to go to,
/// or one may leave as this item.
#[derive(Drop)]
pub(crate) enum Found {
    NoLiveRow,
    NoOrigin(Serial),
    Leaving(Item),
}

// A message on its way for a task.
fn task_item(number: ItemNo, row: Row, source: QueueNo, target: QueueNo, task: TaskNo) -> Item
    ensures { result ≡ record { number = number; row = row; source = source; target = target; reason = ForTask task; homeward = false } }
{
    Item {
        number,
        row,
        source,
        target,
        reason: Reason::Task(task),
        homeward: false,
    }
}

// Where a message goes: to the task's destination, or without one to the queue that it came from.
fn target_of(task: &Task, row: &Row) -> Option<QueueNo>
    ensures { result ≡ target_of task.now row.now }
{
    match &task.destination {
        Some(queue) => Some(queue.number),
        None => row.origin,
    }
}

// The task, where it takes messages of this home. Refused as QueueDoesNotExist (never opened), then as the ledger says.
#[tactic(auto, using(crate::proofs::TaskLaws::never_opened, crate::proofs::TaskLaws::opened))]
fn taker<'a, S: Store>(
    shard: &Shard<S>,
    moment: u64,
    asked: &'a TaskLeave,
) -> Result<&'a Task, Refusal>
    ensures taker { IfOk result (λ task. IsTaker asked.now task.now) }
    ensures opened { OnOk result (is_opened shard.now.home ≡ true) }
    ensures refusal { IfErr result (IsTaskRefused shard.now.site shard.now.home moment asked.now) }
{
    if !shard.is_opened() {
        return Err(Refusal::QueueDoesNotExist);
    }
    match &asked.task {
        Ok(task) => Ok(task),
        Err(refusal) => Err(*refusal),
    }
}

/// What a leave for a task is answered here, at a moment in ms, with the item that leaves. None where the task is at its
/// rate, which changes nothing.
/// Refused as NoMemory (the message that leaves is copied), QueueDoesNotExist (never opened), then as the ledger says of
/// the task, and where a message is live as it says of the next item.
#[tactic(auto, using(crate::proofs::TaskLaws::closed_at, crate::proofs::TaskLaws::serves))]
pub(crate) fn leave_for_task<S: Store>(
    alloc: Global,
    shard: &mut Shard<S>,
    moment: u64,
    asked: &TaskLeave,
) -> Result<Option<TaskAnswer>, Refusal>
    ensures step { IfOk result (λ told. IfSome told (λ t. HomeStep shard.old.site shard.old.home moment (LeaveTask asked.now.number) t.answer shard.new.home)) }
    ensures answer { IfOk result (λ told. IfSome told (λ t. (task : Taking) × IsTaker asked.now task × IsTaskAnswer asked.now task t.answer t.left)) }
    ensures for_ledger { IfOk result (λ told. IfSome told (λ t. t.for_ledger ≡ t.answer)) }
    ensures throttled { IfOk result (λ told. IfNone told (IsThrottled shard.old.home asked.now × (shard.new ≡ shard.old))) }
    ensures site { shard.new.site ≡ shard.old.site }
    ensures spare { shard.new.spare ≡ shard.old.spare }
    ensures refusal { IfErr result (IsTaskRefused shard.old.site shard.old.home moment asked.now) }
    ensures err { OnErr result (shard.new ≡ shard.old) }
{
    let task = taker(shard, moment, asked)?;
    if shard.is_closed() {
        return Ok(Some(TaskAnswer::none(SmallReply::SourceClosed)));
    }
    if !asked.allowed {
        return Ok(None);
    }
    Ok(Some(take_for_task(alloc, shard, moment, asked, task)?))
}

// The same of a home that serves, for a task whose rate allows a leave.
#[tactic(auto, using(crate::proofs::TaskLaws::none_at, crate::proofs::TaskLaws::no_origin_of))]
fn take_for_task<S: Store>(
    alloc: Global,
    shard: &mut Shard<S>,
    moment: u64,
    asked: &TaskLeave,
    task: &Task,
) -> Result<TaskAnswer, Refusal>
    requires serves { IsServing shard.old.home }
    requires allowed { asked.now.allowed ≡ true }
    requires task { IsTaker asked.now task.now }
    ensures step { IfOk result (λ t. HomeStep shard.old.site shard.old.home moment (LeaveTask asked.now.number) t.answer shard.new.home) }
    ensures answer { IfOk result (λ t. IsTaskAnswer asked.now task.now t.answer t.left) }
    ensures for_ledger { IfOk result (λ t. t.for_ledger ≡ t.answer) }
    ensures site { shard.new.site ≡ shard.old.site }
    ensures spare { shard.new.spare ≡ shard.old.spare }
    ensures refusal { IfErr result (IsTaskRefused shard.old.site shard.old.home moment asked.now) }
    ensures err { OnErr result (shard.new ≡ shard.old) }
{
    match find_for_task(shard, moment, asked, task)? {
        Found::NoLiveRow => {
            shard.expire(moment);
            Ok(TaskAnswer::none(SmallReply::NoLiveRow))
        }
        Found::NoOrigin(serial) => {
            shard.expire(moment);
            Ok(TaskAnswer::none(SmallReply::NoOrigin(serial)))
        }
        Found::Leaving(item) => Ok(leave_as(alloc, shard, moment, item, asked.number)?),
    }
}

// What a leave for a task finds, before anything changes. Refused where a message is live as the ledger says of the next
// item, and then as NoMemory (the message is copied).
#[tactic(auto, using(crate::proofs::TaskLaws::one_live))]
fn find_for_task<S: Store>(
    shard: &Shard<S>,
    moment: u64,
    asked: &TaskLeave,
    task: &Task,
) -> Result<Found, Refusal>
    requires allowed { asked.now.allowed ≡ true }
    requires task { IsTaker asked.now task.now }
    ensures found { IfOk result (IsFound shard.now.site shard.now.home moment asked.now task.now) }
    ensures refusal { IfErr result (IsTaskRefused shard.now.site shard.now.home moment asked.now) }
{
    let Some(row) = shard.find_live(moment) else {
        return Ok(Found::NoLiveRow);
    };
    let number = match asked.item {
        Ok(number) => number,
        Err(refusal) => return Err(refusal),
    };
    let Some(target) = target_of(task, row) else {
        return Ok(Found::NoOrigin(row.serial));
    };
    let source = shard.site().home.queue;
    let item = task_item(number, copy_row(row)?, source, target, asked.number);
    Ok(Found::Leaving(item))
}

// The item's message leaves for the task. Refused as NoMemory (it is copied).
#[tactic(auto, using(crate::proofs::TaskLaws::left_for, crate::proofs::TaskLaws::is_there))]
fn leave_as<S: Store>(
    alloc: Global,
    shard: &mut Shard<S>,
    moment: u64,
    item: Item,
    task: TaskNo,
) -> Result<TaskAnswer, Refusal>
    requires from { IsFrom shard.old.site.home (ForTask task) item }
    requires live { IsLiveAt shard.old.home moment item.row }
    ensures step { OnOk result (HomeStep shard.old.site shard.old.home moment (LeaveTask task) (Left item) shard.new.home) }
    ensures answer { IfOk result (λ t. t.answer ≡ Left item) }
    ensures for_ledger { IfOk result (λ t. t.for_ledger ≡ Left item) }
    ensures left { IfOk result (λ t. t.left ≡ Some item) }
    ensures site { shard.new.site ≡ shard.old.site }
    ensures spare { shard.new.spare ≡ shard.old.spare }
    ensures refused { IfErr result (λ e. e ≡ Refusal.NoMemory) }
    ensures err { OnErr result (shard.new ≡ shard.old) }
{
    let (answer, for_ledger) = answer_left(alloc, &item)?;
    let _row = shard.take_out(moment, &item.row);
    Ok(TaskAnswer {
        answer,
        for_ledger,
        left: Some(item),
    })
}
