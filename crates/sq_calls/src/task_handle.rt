//! The handle of a message move task, as a text.
ghost use Rattle.std.specs.Prelude.{◌≡◌, ◌≤◌, ◌<◌, ℕ, IfSome, Some, option_map};
ghost use Rattle.sq_calls.specs.TaskHandles.{behind_front, task_handle_text, task_handle_at};

use sq_base::fields::{put_at, take_field};
use sq_model::item::TaskNo;

/// What the handle of a task begins with, before its number.
const TASK_FRONT: &[u8] = b"task-";

/// The handle of a task (SQS API Reference, StartMessageMoveTask, TaskHandle; its text is own): `task-`, and the task's
/// number in 16 digits of `0-9a-f`.
#[tactic(auto, unfolding(crate::specs::TaskHandles::task_handle_text))]
pub fn task_handle(task: TaskNo) -> [u8; 21]
    ensures { result ≡ task_handle_text task }
{
    let mut text = *b"task-0000000000000000";
    put_at(&mut text, 5, 16, task.get());
    text
}

// What follows the front of a handle.
#[tactic(auto, unfolding(crate::specs::TaskHandles::behind_front))]
fn behind_front(b: &[u8]) -> Option<&[u8]>
    ensures { option_map (λ rest. rest.now) result ≡ behind_front b.now }
{
    if b.len() < TASK_FRONT.len() {
        return None;
    }
    let (front, rest) = b.split_at(TASK_FRONT.len());
    if front == TASK_FRONT {
        Some(rest)
    } else {
        None
    }
}

#[tactic(auto, unfolding(crate::specs::TaskHandles::task_handle_at))]
fn task_of(b: &[u8]) -> Option<TaskNo>
    ensures { result ≡ task_handle_at b.now }
{
    let digits = behind_front(b)?;
    let (number, rest) = take_field(digits, 16)?;
    if !rest.is_empty() {
        return None;
    }
    TaskNo::new(number)
}

/// The task whose handle this is, none where it is the handle of none: where it does not begin with `task-`, has not 16
/// digits of `0-9a-f` behind that, or they are all 0.
pub fn read_task_handle(b: &[u8]) -> Option<TaskNo>
    ensures value { result ≡ task_handle_at b.now }
    ensures found { IfSome result (λ task. b.now ≡ task_handle_text task) }
    ensures only { (task : ℕ) → 1 ≤ task → task < 18446744073709551616 → b.now ≡ task_handle_text task → result ≡ Some task }
{
    task_of(b)
}
