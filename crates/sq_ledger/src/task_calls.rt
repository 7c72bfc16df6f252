//! What the ledger does with tasks by itself: each call is one event of its history, or reads it alone.
ghost use Rattle.std.specs.Prelude.{◌≡◌, ◌⊎◌, ◌<◌, ◌++◌, ◌∷◌, [], true, not, None, Some, IfOk, IfErr, IfSome, OnOk, OnErr, length, option_map};
ghost use Rattle.std.specs.List.{list_any};
ghost use Rattle.sq_base.specs.Stamps.{start, Below};
ghost use Rattle.sq_model.specs.declared.ledger.LedgerCall.TheVariants as asks;
ghost use Rattle.sq_model.specs.declared.ledger.LedgerReply.TheVariants as answers;
ghost use Rattle.sq_model.specs.declared.task.Task.{Task as Moving};
ghost use Rattle.sq_model.specs.Ledgers.{TakesOneMore, MayTake, cancel_refusal, finish_refusal, in_transit, is_active_at, last_task, transit_refusal, task_of};
ghost use Rattle.sq_model.specs.Replays.{StampsRise};
ghost use Rattle.sq_model.specs.Shared.{is_throttled, task_refusal};
ghost use Rattle.sq_model.specs.Tasks.{is_running};
ghost use Rattle.sq_log.specs.Spares.{IsReady, KeepsSpare};
ghost use Rattle.sq_ledger.specs.LedgerHistories.{IsLedgerRefused, LedgerRecords, own_event};
ghost use Rattle.sq_ledger.specs.inside.LedgerHistories.{MayStart, start_refusal};

use crate::ledger::TransitLedger;
use crate::record::LedgerRecord;
use crate::tasks::TaskChange;
use sq_base::ids::{HomeId, QueueNo};
use sq_base::ranges::{MaxResults, Rate};
use sq_base::refusal::Refusal;
use sq_base::stamp::Stamp;
use sq_log::log::Log;
use sq_model::event::Actor;
use sq_model::item::TaskNo;
use sq_model::ledger::{LedgerCall, LedgerReply};
use sq_model::listed::Listed;
use sq_model::place::Component;
use sq_model::task::{NamedQueue, Task};
use sq_task::leave::TaskLeave;
use std::alloc::Global;

/// How many tasks may be active in all. Own.
const MOST_ACTIVE: usize = 100;

/// No task has this number, or one above it: 2^62 - 1.
const LAST_NUMBER: u64 = 4_611_686_018_427_387_903;

/// What a task is to move.
#[derive(Clone, Copy, PartialEq, Eq, Debug)]
pub struct TaskStart {
    pub source: NamedQueue,
    /// Without one each message goes to the queue that it came from.
    pub destination: Option<NamedQueue>,
    /// How many messages in a second; without it 500.
    pub rate: Option<Rate>,
}

impl TransitLedger {
    /// The task of a number. It takes no memory.
    pub fn read_task(&self, number: TaskNo) -> Option<&Task>
        ensures { option_map (λ task. task.now) result ≡ task_of number self.now.history.ledger }
    {
        Some(self.tasks.get(number)?.task())
    }

    /// The most recent task of a source, with its number. It takes no memory.
    pub fn last_task(&self, source: QueueNo) -> Option<(TaskNo, &Task)>
        ensures task { option_map (λ found. found.1.now) result ≡ last_task source self.now.history.ledger }
        ensures number { IfSome result (λ found. found.0 ≡ found.1.now.number) }
    {
        let task = self.tasks.last(source)?.task();
        Some((task.number, task))
    }

    /// What the ledger says to a leave for the task of a number at this home, at a moment in ms: the task, where it is RUNNING
    /// and takes messages of this home's queue; whether its rate allows one; and the number of the next item, as `next_number` says.
    /// The task is refused as ResourceNotFoundException, and then as UnsupportedOperation.
    pub fn task_leave(&mut self, home: &HomeId, number: TaskNo, moment: u64) -> TaskLeave
        ensures history { self.new.history ≡ self.old.history }
        ensures reserved { self.new.reserved ≡ self.old.reserved }
        ensures number { result.number ≡ number }
        ensures task { IfOk result.task (λ task. MayTake self.old.history.ledger home.now.queue number task) }
        ensures no_task { IfErr result.task (λ e. task_refusal home.now (task_of number self.old.history.ledger) None ≡ Some e) }
        ensures allowed { result.allowed ≡ not (is_throttled moment (task_of number self.old.history.ledger)) }
        ensures item { IfOk result.item (λ item. item ≡ self.old.history.ledger.next_item) }
        ensures takes_one_more { OnOk result.item (TakesOneMore self.old.history.ledger) }
        ensures passes { OnOk result.item (transit_refusal self.old.history.ledger ≡ None) }
        ensures ready { OnOk result.item (0 < self.new.item_reserved) }
        ensures no_place { IfErr result.item (λ e. (transit_refusal self.old.history.ledger ≡ Some e) ⊎ ((transit_refusal self.old.history.ledger ≡ None) × (e ≡ Refusal.NoMemory) × (self.old.item_reserved ≡ 0))) }
    {
        TaskLeave {
            number,
            task: self.taker(home, number),
            allowed: self.allows(number, moment),
            item: self.next_number(),
        }
    }

    /// Starts a task, and gives its number.
    /// Refused as NoMemory (there is spare memory for no event or for no task, also where no task would start), ClockRange, Worn,
    /// UnsupportedOperation (a task of the source is active), OverLimit (100 tasks are active).
    pub fn start_task(
        &mut self,
        by: &Actor,
        now: u64,
        asked: &TaskStart,
    ) -> Result<(TaskNo, LedgerRecord), Refusal>
        ensures recorded { IfOk result (λ r. LedgerRecords self.old.history self.new.history by.now now (asks.StartTask asked.now.source asked.now.destination asked.now.rate) r.1) }
        ensures answered { IfOk result (λ r. r.1.reply ≡ answers.Started r.0) }
        ensures refusal { IfErr result (IsLedgerRefused self.old.history by.now now (asks.StartTask asked.now.source asked.now.destination asked.now.rate)) }
        ensures item_reserved { self.new.item_reserved ≡ self.old.item_reserved }
        ensures err { OnErr result (self.new.history ≡ self.old.history) }
    {
        self.log.reserve()?;
        self.tasks.reserve()?;
        // What follows takes no memory.
        let stamp = self.log.next_stamp(by, now)?;
        let number = self.next_task(asked.source.number)?;
        self.tasks.start(
            number,
            asked.source,
            asked.destination,
            asked.rate,
            stamp.moment,
        );
        let kept = (start_call(asked), LedgerReply::Started(number));
        let for_record = (start_call(asked), LedgerReply::Started(number));
        Ok((number, add_own(&mut self.log, by, stamp, kept, for_record)))
    }

    /// Cancels the task of a number, which takes no more messages then, and tells how many it moved; none is moved back.
    /// Refused as NoMemory (there is spare memory for no event), ClockRange, Worn, ResourceNotFoundException (no such task),
    /// UnsupportedOperation (it is not RUNNING).
    pub fn cancel_task(
        &mut self,
        by: &Actor,
        now: u64,
        number: TaskNo,
    ) -> Result<(u64, LedgerRecord), Refusal>
        ensures recorded { IfOk result (λ r. LedgerRecords self.old.history self.new.history by.now now (asks.CancelTask number) r.1) }
        ensures answered { IfOk result (λ r. r.1.reply ≡ answers.Cancelled r.0) }
        ensures refusal { IfErr result (IsLedgerRefused self.old.history by.now now (asks.CancelTask number)) }
        ensures item_reserved { self.new.item_reserved ≡ self.old.item_reserved }
        ensures err { OnErr result (self.new.history ≡ self.old.history) }
    {
        let stamp = self.log.begin(by, now)?;
        let moved = self.moved_by(number)?;
        self.tasks.change(number, TaskChange::Cancelled);
        let kept = (
            LedgerCall::CancelTask(number),
            LedgerReply::Cancelled(moved),
        );
        let for_record = (
            LedgerCall::CancelTask(number),
            LedgerReply::Cancelled(moved),
        );
        Ok((moved, add_own(&mut self.log, by, stamp, kept, for_record)))
    }

    /// The tasks of a source, the most recent first, and so many at most.
    /// Refused as NoMemory (there is spare memory for no event, or tasks are listed), ClockRange, Worn.
    pub fn list_tasks(
        &mut self,
        alloc: Global,
        by: &Actor,
        now: u64,
        source: QueueNo,
        most: MaxResults,
    ) -> Result<(Listed<Task>, LedgerRecord), Refusal>
        ensures recorded { IfOk result (λ r. LedgerRecords self.old.history self.new.history by.now now (asks.ListTasks source most) r.1) }
        ensures answered { IfOk result (λ r. r.1.reply ≡ answers.Listed r.0) }
        ensures refusal { IfErr result (IsLedgerRefused self.old.history by.now now (asks.ListTasks source most)) }
        ensures item_reserved { self.new.item_reserved ≡ self.old.item_reserved }
        ensures err { OnErr result (self.new.history ≡ self.old.history) }
    {
        self.log.reserve()?;
        let listed = self.tasks.list(alloc, source, most)?;
        let in_event = self.tasks.list(alloc, source, most)?;
        let in_record = self.tasks.list(alloc, source, most)?;
        // What follows takes no memory.
        let stamp = self.log.next_stamp(by, now)?;
        let kept = (
            LedgerCall::ListTasks(source, most),
            LedgerReply::Listed(in_event),
        );
        let for_record = (
            LedgerCall::ListTasks(source, most),
            LedgerReply::Listed(in_record),
        );
        Ok((listed, add_own(&mut self.log, by, stamp, kept, for_record)))
    }

    /// Ends the task of a number, of which no message is in transit: RUNNING becomes COMPLETED, and CANCELLING CANCELLED.
    /// Refused as NoMemory (there is spare memory for no event), ClockRange, Worn, ResourceNotFoundException (no such task),
    /// UnsupportedOperation (it is over, or messages of it are in transit).
    pub fn finish_task(
        &mut self,
        by: &Actor,
        now: u64,
        number: TaskNo,
    ) -> Result<LedgerRecord, Refusal>
        ensures recorded { IfOk result (LedgerRecords self.old.history self.new.history by.now now (asks.FinishTask number)) }
        ensures answered { IfOk result (λ r. r.reply ≡ answers.Finished) }
        ensures refusal { IfErr result (IsLedgerRefused self.old.history by.now now (asks.FinishTask number)) }
        ensures item_reserved { self.new.item_reserved ≡ self.old.item_reserved }
        ensures err { OnErr result (self.new.history ≡ self.old.history) }
    {
        let stamp = self.log.begin(by, now)?;
        self.may_finish(number)?;
        self.tasks.change(number, TaskChange::Finished);
        let kept = (LedgerCall::FinishTask(number), LedgerReply::Finished);
        let for_record = (LedgerCall::FinishTask(number), LedgerReply::Finished);
        Ok(add_own(&mut self.log, by, stamp, kept, for_record))
    }

    // Whether a task of a source is active, which only its most recent one may be.
    fn is_source_active(&self, source: QueueNo) -> bool
        ensures { result ≡ list_any (is_active_at source) self.now.history.ledger.tasks }
    {
        match self.tasks.last(source) {
            Some(task) => task.is_active(),
            None => false,
        }
    }

    // The number of the next task, where one of this source may start.
    fn next_task(&self, source: QueueNo) -> Result<TaskNo, Refusal>
        ensures number { IfOk result (λ number. number ≡ self.now.history.ledger.next_task) }
        ensures may { OnOk result (MayStart source self.now.history.ledger) }
        ensures passes { OnOk result (start_refusal source self.now.history.ledger ≡ None) }
        ensures refused { IfErr result (λ e. start_refusal source self.now.history.ledger ≡ Some e) }
    {
        let count = self.tasks.len() as u64;
        if count + 1 >= LAST_NUMBER {
            return Err(Refusal::Worn);
        }
        if self.is_source_active(source) {
            return Err(Refusal::UnsupportedOperation);
        }
        if self.tasks.active() >= MOST_ACTIVE {
            return Err(Refusal::OverLimit);
        }
        Ok(TaskNo::following(count))
    }

    // How many messages a task moved that may be cancelled.
    fn moved_by(&self, number: TaskNo) -> Result<u64, Refusal>
        ensures moved { IfOk result (λ moved. (task : Moving) × (task_of number self.now.history.ledger ≡ Some task) × (is_running task.status ≡ true) × (moved ≡ task.moved)) }
        ensures refused { IfErr result (λ e. cancel_refusal (task_of number self.now.history.ledger) ≡ Some e) }
    {
        let Some(task) = self.tasks.get(number) else {
            return Err(Refusal::ResourceNotFoundException);
        };
        if !task.is_running() {
            return Err(Refusal::UnsupportedOperation);
        }
        Ok(task.task().moved)
    }

    // Whether a task may be finished: it is active, and no message of it is in transit.
    fn may_finish(&self, number: TaskNo) -> Result<(), Refusal>
        ensures may { OnOk result (finish_refusal (in_transit number self.now.history.ledger.items) (task_of number self.now.history.ledger) ≡ None) }
        ensures refused { IfErr result (λ e. finish_refusal (in_transit number self.now.history.ledger.items) (task_of number self.now.history.ledger) ≡ Some e) }
    {
        let Some(task) = self.tasks.get(number) else {
            return Err(Refusal::ResourceNotFoundException);
        };
        let waiting = task.in_transit();
        if !task.is_active() || waiting > 0 {
            return Err(Refusal::UnsupportedOperation);
        }
        Ok(())
    }

    // The task of a number, where it is RUNNING and takes messages of this home's queue.
    fn taker(&self, home: &HomeId, number: TaskNo) -> Result<Task, Refusal>
        ensures task { IfOk result (λ task. MayTake self.now.history.ledger home.now.queue number task) }
        ensures refused { IfErr result (λ e. task_refusal home.now (task_of number self.now.history.ledger) None ≡ Some e) }
    {
        let Some(found) = self.tasks.get(number) else {
            return Err(Refusal::ResourceNotFoundException);
        };
        let task = *found.task();
        if !found.is_running() || task.source.number != home.queue {
            return Err(Refusal::UnsupportedOperation);
        }
        Ok(task)
    }

    // Whether the rate of a task allows a leave at this moment, where it is there.
    fn allows(&self, number: TaskNo, moment: u64) -> bool
        ensures { result ≡ not (is_throttled moment (task_of number self.now.history.ledger)) }
    {
        match self.tasks.get(number) {
            Some(task) => task.is_within_rate(moment),
            None => true,
        }
    }
}

// The call that starts a task.
fn start_call(asked: &TaskStart) -> LedgerCall
    ensures { result ≡ asks.StartTask asked.now.source asked.now.destination asked.now.rate }
{
    LedgerCall::StartTask(asked.source, asked.destination, asked.rate)
}

// Adds the event of a step of the ledger alone, with the call and reply that are kept. Gives the actor's record of it, with
// those that are recorded.
fn add_own(
    log: &mut Log<LedgerCall, LedgerReply>,
    by: &Actor,
    stamp: Stamp,
    kept: (LedgerCall, LedgerReply),
    for_record: (LedgerCall, LedgerReply),
) -> LedgerRecord
    requires ready { IsReady log.old.spare log.old.reserved }
    requires above { Below log.old.last stamp }
    ensures last { log.new.last ≡ stamp }
    ensures events { log.new.events ≡ log.old.events ++ own_event stamp by.now kept.0 kept.1 ∷ [] }
    ensures rising { StampsRise start log.new.events log.new.last }
    ensures spare { KeepsSpare log.old.spare log.new.spare }
    ensures for_record { result ≡ record { place = by.now.place; stamp = stamp; index = length log.old.events; call = for_record.0; reply = for_record.1 } }
{
    log.add(stamp, by, Component::Ledger, kept, for_record)
}
