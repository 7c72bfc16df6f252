//! Message move tasks as replies show them.
ghost use Rattle.std.specs.Prelude.{◌≡◌, Some, None, if◌then◌else◌, codes, map, option_map};
ghost use Rattle.serde_json.specs.Data.{number, string, unsigned};
ghost use Rattle.sq_calls.specs.TaskHandles.{task_handle_text};
ghost use Rattle.sq_model.specs.Tasks.{is_running};
ghost use Rattle.sq_policy.specs.PolicyTexts.{arn_text};
ghost use Rattle.sq_replies.specs.Replies.{started_data, cancelled_data, status_word, failure_word, task_values, task_data, tasks_data};
ghost use Rattle.sq_replies.specs.inside.Told.{Adds, tokens_of, all_tokens, value_tokens, values_tokens};

use crate::text::ascii_text;
use crate::writing::{
    Writer, begin_list, end_list, write_number, write_only_number, write_only_text, write_text,
};
use sq_calls::task_handle::task_handle;
use sq_model::item::TaskNo;
use sq_model::task::{FailureReason, NamedQueue, Task, TaskStatus};
use sq_policy::arn::arn_of;
use std::alloc::AllocError;

/// The handle of a task that was started (SQS API Reference, StartMessageMoveTask).
pub(crate) fn write_started(out: &mut Writer, task: TaskNo) -> Result<(), AllocError>
    ensures { Adds result out.old out.new (tokens_of (started_data task)) }
{
    let handle = task_handle(task);
    write_only_text(out, "TaskHandle", ascii_text(&handle))
}

/// How many messages a cancelled task had moved (SQS API Reference, CancelMessageMoveTask).
pub(crate) fn write_cancelled(out: &mut Writer, moved: u64) -> Result<(), AllocError>
    ensures { Adds result out.old out.new (tokens_of (cancelled_data moved)) }
{
    write_only_number(out, "ApproximateNumberOfMessagesMoved", moved)
}

/// Tasks, in their order (SQS API Reference, ListMessageMoveTasks).
pub(crate) fn write_tasks(out: &mut Writer, tasks: &[Task]) -> Result<(), AllocError>
    ensures { Adds result out.old out.new (tokens_of (tasks_data tasks.now)) }
{
    begin_list(out, "Results")?;
    write_each(out, tasks)?;
    end_list(out)
}

#[tactic(auto, using(crate::proofs::TellLaws::tasks_grow))]
fn write_each(out: &mut Writer, tasks: &[Task]) -> Result<(), AllocError>
    ensures { Adds result out.old out.new (all_tokens (map task_data tasks.now)) }
{
    for task in tasks {
        write_task(out, task)?;
    }
    Ok(())
}

fn write_task(out: &mut Writer, task: &Task) -> Result<(), AllocError>
    ensures { Adds result out.old out.new (tokens_of (task_data task.now)) }
{
    out.begin_object()?;
    write_members(out, task)?;
    out.end_object()
}

// Its members, in the order of their names.
fn write_members(out: &mut Writer, task: &Task) -> Result<(), AllocError>
    ensures { Adds result out.old out.new (values_tokens (task_values task.now)) }
{
    write_number(out, "ApproximateNumberOfMessagesMoved", task.moved)?;
    write_arn_if(out, "DestinationArn", &task.destination)?;
    write_word_if(out, "FailureReason", failure_word(&task.status))?;
    write_rate_if(out, task)?;
    write_arn(out, "SourceArn", &task.source)?;
    write_number(out, "StartedTimestamp", task.started)?;
    write_text(out, "Status", status_word(&task.status))?;
    write_handle_if(out, task)
}

fn write_rate_if(out: &mut Writer, task: &Task) -> Result<(), AllocError>
    ensures { Adds result out.old out.new
        (value_tokens (codes "MaxNumberOfMessagesPerSecond") (option_map (λ rate. number (unsigned rate)) task.now.rate)) }
{
    match task.rate {
        Some(rate) => write_number(out, "MaxNumberOfMessagesPerSecond", rate.get() as u64),
        None => Ok(()),
    }
}

fn write_arn(out: &mut Writer, name: &str, queue: &NamedQueue) -> Result<(), AllocError>
    ensures { Adds result out.old out.new (value_tokens name.now (Some (string (arn_text queue.now.name)))) }
{
    let arn = arn_of(out.alloc(), &queue.name)?;
    write_text(out, name, arn.as_str())
}

fn write_arn_if(out: &mut Writer, name: &str, queue: &Option<NamedQueue>) -> Result<(), AllocError>
    ensures { Adds result out.old out.new
        (value_tokens name.now (option_map (λ queue. string (arn_text queue.name)) queue.now)) }
{
    match queue {
        Some(queue) => write_arn(out, name, queue),
        None => Ok(()),
    }
}

fn write_word_if(out: &mut Writer, name: &str, word: Option<&'static str>) -> Result<(), AllocError>
    ensures { Adds result out.old out.new
        (value_tokens name.now (option_map string (option_map (λ word. word.now) word.entry))) }
{
    match word {
        Some(word) => write_text(out, name, word),
        None => Ok(()),
    }
}

// A task that is over, or is being cancelled, has no handle.
fn write_handle_if(out: &mut Writer, task: &Task) -> Result<(), AllocError>
    ensures { Adds result out.old out.new
        (value_tokens (codes "TaskHandle") (if is_running task.now.status then Some (string (task_handle_text task.now.number)) else None)) }
{
    if !is_running(&task.status) {
        return Ok(());
    }
    let handle = task_handle(task.number);
    write_text(out, "TaskHandle", ascii_text(&handle))
}

fn is_running(status: &TaskStatus) -> bool
    ensures { result ≡ is_running status.now }
{
    match status {
        TaskStatus::Running => true,
        TaskStatus::Completed
        | TaskStatus::Cancelling
        | TaskStatus::Cancelled
        | TaskStatus::Failed(_) => false,
    }
}

fn status_word(status: &TaskStatus) -> &'static str
    ensures { result.now ≡ status_word status.now }
{
    match status {
        TaskStatus::Running => "RUNNING",
        TaskStatus::Completed => "COMPLETED",
        TaskStatus::Cancelling => "CANCELLING",
        TaskStatus::Cancelled => "CANCELLED",
        TaskStatus::Failed(_) => "FAILED",
    }
}

// Why a task failed, where it did.
fn failure_word(status: &TaskStatus) -> Option<&'static str>
    ensures { option_map (λ word. word.now) result ≡ failure_word status.now }
{
    match status {
        TaskStatus::Failed(FailureReason::NoOrigin) => Some("CouldNotDetermineMessageSource"),
        TaskStatus::Failed(FailureReason::SourceClosed) => Some("SourceClosed"),
        TaskStatus::Failed(FailureReason::DestinationClosed) => Some("DestinationClosed"),
        TaskStatus::Running
        | TaskStatus::Completed
        | TaskStatus::Cancelling
        | TaskStatus::Cancelled => None,
    }
}
