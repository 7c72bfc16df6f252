//! Theorems of move tasks, each the contract of a function without code.
ghost use Rattle.std.specs.Prelude.{◌≤◌, ℕ, List, Option};
ghost use Rattle.sq_model.specs.declared.task.NamedQueue.{NamedQueue};
ghost use Rattle.sq_model.specs.declared.task.Task.{Task};
ghost use Rattle.sq_model.specs.Tasks.{new_task, rate_of};
ghost use Rattle.sq_task.specs.TaskSteps.{NoLeaveFalls, TaskCall, TaskRun, lefts_in};

/// In each second no more messages leave for a task than its rate, 500 where none was given: whatever is done to it from its start on,
/// at moments that do not fall.
pub fn rate_is_kept()
    ensures { (second number moment : ℕ) (source : NamedQueue) (destination : Option NamedQueue) (rate : Option ℕ) (calls : List TaskCall) (after : Task)
        → TaskRun (new_task number source destination rate moment) calls after → NoLeaveFalls 0 calls
        → lefts_in second calls ≤ rate_of (new_task number source destination rate moment) }
{}
