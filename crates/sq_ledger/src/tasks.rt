//! The tasks that move messages, in order of their start.
ghost use Rattle.std.specs.Prelude.{◌≡◌, ◌≢◌, ◌+◌, ◌-◌, ◌<◌, ◌≤◌, ◌++◌, ◌∷◌, [], OnOk, IfOk, IfErr, Some, None, find, length, not, option_map, slice_get, take, ◌&&◌};
ghost use Rattle.sq_model.specs.declared.task.Task.{Task as TaskValue};
ghost use Rattle.sq_model.specs.Ledgers.{changed_for, changed_task, is_task, TasksCount};
ghost use Rattle.sq_model.specs.Tasks.{is_active, new_task};
ghost use Rattle.sq_log.specs.Spares.{IsReady, KeepsSpare};
ghost use Rattle.sq_ledger.specs.TaskIndexes.{changed_by, how_many_active, newest, tasks_from, MayChange, MayChangeFor};

use indexmap::IndexMap;
use sq_base::ids::QueueNo;
use sq_base::ranges::{MaxResults, Rate};
use sq_base::refusal::Refusal;
use sq_model::item::{Reason, TaskNo};
use sq_model::listed::Listed;
use sq_model::task::{FailureReason, NamedQueue, Task};
use sq_task::task::MoveTask;
use std::alloc::Global;
use std::marker::Model;

/// What is done to one task.
#[derive(Clone, Copy, PartialEq, Eq, Debug)]
pub enum TaskChange {
    /// A message left for it, at this moment.
    Left(u64),
    /// A message came in at its destination.
    Entered,
    /// A message came back to its source.
    Back,
    /// A message was dropped, since its source was closed too.
    Dropped,
    Cancelled,
    Finished,
    Failed(FailureReason),
}

// A task, with the number of the one before it of its source.
#[derive(Drop)]
struct TaskRow {
    task: MoveTask,
    before: Option<TaskNo>,
}

/// Tasks in order of their start. One is found by its number, which is one more than its index; those of a source are
/// found from its most recent one on, each by the one after it. They show for how many more there was memory when the
/// last one started, be each the first one of its source.
#[derive(Drop)]
pub struct Tasks {
    rows: Vec<TaskRow>,
    last: IndexMap<u64, TaskNo>,
    active: usize,
    spare: usize,
}

impl Model for Tasks {
    ghost use Rattle.std.specs.Prelude.{◌-◌, ◌==◌, ◌≤◌, min, vec_len, vec_capacity};
    ghost use Rattle.indexmap.specs.IndexMap as maps;
    ghost use Rattle.indexmap.specs.IndexMap.{get};
    ghost use Rattle.sq_model.specs.declared.task.Task.{Task as TaskValue};
    ghost use Rattle.sq_log.specs.Spares.{GrowingValue};
    ghost use Rattle.sq_ledger.specs.TaskIndexes.{AreTasks, tasks_in};

    ghost Value = { GrowingValue TaskValue };

    ghost view = { λ t. record { items = tasks_in t.rows.items; spare = t.spare; reserved = min (vec_capacity t.rows - vec_len t.rows) (maps.spare t.last) } };

    ghost invariant = { λ t. AreTasks t.rows.items (get (λ a b. a == b) t.last) t.active × (t.spare ≤ min (vec_capacity t.rows - vec_len t.rows) (maps.spare t.last)) };
}

impl Tasks {
    /// No task, and memory for none.
    pub fn new(alloc: Global) -> Tasks
        ensures items { result.items ≡ [] }
        ensures spare { result.spare ≡ 0 }
    {
        Tasks {
            rows: Vec::new(alloc),
            last: IndexMap::new(alloc),
            active: 0,
            spare: 0,
        }
    }

    /// How many tasks were started.
    pub fn len(&self) -> usize
        ensures length { result ≡ length self.now.items }
        ensures count { TasksCount 1 self.now.items }
    {
        self.rows.len()
    }

    /// How many tasks are active.
    pub fn active(&self) -> usize
        ensures { result ≡ how_many_active self.now.items }
    {
        self.active
    }

    /// The task of a number.
    pub fn get(&self, number: TaskNo) -> Option<&MoveTask>
        ensures { option_map (λ task. task.now) result ≡ find (is_task number) self.now.items }
    {
        let row = self.rows.get(index_of(number))?;
        Some(&row.task)
    }

    /// The most recent task of a source.
    pub fn last(&self, source: QueueNo) -> Option<&MoveTask>
        ensures { option_map (λ task. task.now) result ≡ slice_get (tasks_from source self.now.items) 0 }
    {
        let number = self.last.get(&source.get()).copied()?;
        self.get(number)
    }

    /// The number of the most recent task of a source.
    pub fn last_of(&self, source: QueueNo) -> Option<TaskNo>
        ensures { result ≡ newest source self.now.items }
    {
        self.last.get(&source.get()).copied()
    }

    /// The tasks of a source, the most recent first, and so many at most. Refused only where memory is out for any.
    pub fn list(
        &self,
        alloc: Global,
        source: QueueNo,
        most: MaxResults,
    ) -> Result<Listed<Task>, Refusal>
        ensures listed { IfOk result (λ listed. listed ≡ take most (tasks_from source self.now.items)) }
        ensures refused { IfErr result (λ e. (e ≡ Refusal.NoMemory) × (newest source self.now.items ≢ None)) }
    {
        let mut listed = Listed::new(alloc);
        let mut next = self.last_of(source);
        for _ in 0..most.get() {
            let Some(number) = next else {
                break;
            };
            let Some(row) = self.rows.get(index_of(number)) else {
                break;
            };
            listed.push(*row.task.task())?;
            next = row.before;
        }
        Ok(listed)
    }

    /// Gets memory for one task more, and for four at once where they show no spare memory. Refused as NoMemory where they
    /// show no spare memory and have memory for fewer than four.
    pub fn reserve(&mut self) -> Result<(), Refusal>
        ensures items { self.new.items ≡ self.old.items }
        ensures spare { self.new.spare ≡ self.old.spare }
        ensures kept { self.old.reserved ≤ self.new.reserved }
        ensures untouched { 0 < self.old.spare → self.new.reserved ≡ self.old.reserved }
        ensures ready { OnOk result (IsReady self.new.spare self.new.reserved) }
        ensures refused { IfErr result (λ e. (e ≡ Refusal.NoMemory) × (self.old.spare ≡ 0) × (self.old.reserved < 4)) }
    {
        if self.spare == 0 {
            self.rows.try_reserve(4)?;
            self.last.reserve(4)?;
        }
        Ok(())
    }

    /// Starts a task, for which there is memory, with the number that is next.
    pub fn start(
        &mut self,
        number: TaskNo,
        source: NamedQueue,
        destination: Option<NamedQueue>,
        rate: Option<Rate>,
        moment: u64,
    )
        requires ready { IsReady self.old.spare self.old.reserved }
        requires number { number ≡ length self.old.items + 1 }
        ensures items { self.new.items ≡ self.old.items ++ new_task number source destination rate moment ∷ [] }
        ensures shown { self.new.spare ≡ self.new.reserved }
        ensures spare { KeepsSpare self.old.spare self.new.spare }
    {
        let before = self.last_of(source.number);
        // Memory for both was got.
        let _ = self.last.insert(source.number.get(), number);
        let task = MoveTask::start(number, source, destination, rate, moment);
        let _ = self.rows.push(TaskRow { task, before });
        self.active += 1;
        let sources = self.last.capacity() - self.last.len();
        self.spare = sources.min(self.rows.capacity() - self.rows.len());
    }

    /// Does this to the task that a message is moved for, if it is moved for one.
    pub fn change_for(&mut self, reason: Reason, change: TaskChange)
        requires may { MayChangeFor change reason self.old.items }
        ensures items { self.new.items ≡ changed_for reason (changed_by change) self.old.items }
        ensures spare { self.new.spare ≡ self.old.spare }
        ensures reserved { self.new.reserved ≡ self.old.reserved }
    {
        match reason {
            Reason::DeadLetter | Reason::Drain => {}
            Reason::Task(number) => self.change(number, change),
        }
    }

    /// Does this to the task of a number, which it may be done to.
    pub fn change(&mut self, number: TaskNo, change: TaskChange)
        requires may { (task : TaskValue) × (find (is_task number) self.old.items ≡ Some task) × MayChange change task }
        ensures items { self.new.items ≡ changed_task number (changed_by change) self.old.items }
        ensures spare { self.new.spare ≡ self.old.spare }
        ensures reserved { self.new.reserved ≡ self.old.reserved }
    {
        if let Some(row) = self.rows.get_mut(index_of(number)) {
            if apply(&mut row.task, change) {
                self.active -= 1;
            }
        }
    }
}

// Where the task of a number stands.
fn index_of(number: TaskNo) -> usize
    ensures { result + 1 ≡ number }
{
    (number.get() - 1) as usize
}

// Does this to a task, and tells whether it was active and is not any more.
fn apply(task: &mut MoveTask, change: TaskChange) -> bool
    requires { MayChange change task.old }
    ensures task { task.new ≡ changed_by change task.old }
    ensures ends { result ≡ (is_active task.old.status && not (is_active task.new.status)) }
{
    let was_active = task.is_active();
    match change {
        TaskChange::Left(moment) => task.note_left(moment),
        TaskChange::Entered => task.note_entered(),
        TaskChange::Back => task.note_back(),
        TaskChange::Dropped => task.note_dropped(),
        TaskChange::Cancelled => {
            let _ = task.cancel();
        }
        TaskChange::Finished => {
            let _ = task.finish();
        }
        TaskChange::Failed(reason) => task.fail(reason),
    }
    was_active && !task.is_active()
}
