//! One message move task: how fast it goes, how it ends, and what became of its messages.
ghost use Rattle.std.specs.Prelude.{◌≡◌, ◌+◌, ◌<◌, ◌≤◌, ◌&&◌, true, Some, IfErr, OnOk, OnErr};
ghost use Rattle.sq_model.specs.Ledgers.{cancel_refusal, finish_refusal};
ghost use Rattle.sq_model.specs.Tasks.{is_active, is_running, left_in, may_leave, new_task, rate_of, second_of};
ghost use Rattle.sq_task.specs.Counts.{IsTaskKept, settled, unsettled};
ghost use Rattle.sq_task.specs.TaskSteps.{Cancel, CameBack, CameIn, Fail, Finish, Dropped, Left, TaskStep};

use sq_base::ranges::Rate;
use sq_base::refusal::Refusal;
use sq_model::item::TaskNo;
use sq_model::task::{FailureReason, NamedQueue, Task, TaskStatus};
use std::marker::Model;

/// How many messages a task takes in a second, where no rate was given. Own.
const DEFAULT_RATE: u32 = 500;

/// A message move task (SQS API Reference, StartMessageMoveTask), with the counts of its messages. It takes no memory, so no
/// call of it is refused for that. Moments are in ms.
#[derive(Drop)]
pub struct MoveTask {
    task: Task,
}

impl Model for MoveTask {
    ghost use Rattle.sq_model.specs.declared.task.Task.{Task as TaskValue};
    ghost use Rattle.sq_task.specs.Counts.{IsTaskKept};

    ghost Value = { TaskValue };

    ghost view = { λ t. t.task };

    ghost invariant = { λ t. IsTaskKept t.task };
}

impl MoveTask {
    /// A task that is RUNNING, of which no message left. Its source is a dead-letter queue; without a destination each message
    /// goes to the queue that it came from. It takes so many messages in a second, 1 to 500; without a rate 500.
    pub fn start(
        number: TaskNo,
        source: NamedQueue,
        destination: Option<NamedQueue>,
        rate: Option<Rate>,
        moment: u64,
    ) -> MoveTask
        ensures { result ≡ new_task number source destination rate moment }
    {
        MoveTask {
            task: Task {
                number,
                source,
                destination,
                rate,
                started: moment,
                status: TaskStatus::Running,
                left: 0,
                moved: 0,
                back: 0,
                dropped: 0,
                second: 0,
                in_second: 0,
            },
        }
    }

    /// The task as it stands.
    pub fn task(&self) -> &Task
        ensures task { result.now ≡ self.now }
        ensures kept { IsTaskKept result.now }
    {
        &self.task
    }

    /// Whether it takes messages.
    pub fn is_running(&self) -> bool
        ensures { result ≡ is_running self.now.status }
    {
        matches!(self.task.status, TaskStatus::Running)
    }

    /// Whether it is not over: it takes messages, or waits for those that it took.
    pub fn is_active(&self) -> bool
        ensures { result ≡ is_active self.now.status }
    {
        matches!(
            self.task.status,
            TaskStatus::Running | TaskStatus::Cancelling
        )
    }

    /// How many of its messages are in transit: those that left, and neither came in, nor came back, nor were dropped.
    pub fn in_transit(&self) -> u64
        ensures { self.now.left ≡ settled self.now + result }
    {
        self.task.left - self.task.moved - self.task.back - self.task.dropped
    }

    /// Whether its rate allows that a message leaves at this moment: fewer left in the second of the moment.
    pub fn is_within_rate(&self, moment: u64) -> bool
        ensures { result ≡ may_leave moment self.now }
    {
        self.left_in(second_of(moment)) < self.rate()
    }

    /// Whether a message may leave for it at this moment: it takes messages, and its rate allows one more.
    pub fn may_leave(&self, moment: u64) -> bool
        ensures { result ≡ is_running self.now.status && may_leave moment self.now }
    {
        self.is_running() && self.is_within_rate(moment)
    }

    /// Counts a message that leaves at this moment, where one may (`may_leave`).
    pub fn note_left(&mut self, moment: u64)
        requires allowed { (is_running self.old.status && may_leave moment self.old) ≡ true }
        requires countable { self.old.left < u64.MAX }
        ensures { TaskStep self.old (Left moment) self.new }
    {
        let second = second_of(moment);
        self.task.in_second = self.left_in(second) + 1;
        self.task.second = second;
        self.task.left += 1;
    }

    /// Counts a message that came in at its destination. One is in transit.
    pub fn note_entered(&mut self)
        requires { 0 < unsettled self.old }
        ensures { TaskStep self.old CameIn self.new }
    {
        self.task.moved += 1;
    }

    /// Counts a message that came back to its source. One is in transit.
    pub fn note_back(&mut self)
        requires { 0 < unsettled self.old }
        ensures { TaskStep self.old CameBack self.new }
    {
        self.task.back += 1;
    }

    /// Counts a message that was dropped on its way back, since its source was closed too. One is in transit.
    pub fn note_dropped(&mut self)
        requires { 0 < unsettled self.old }
        ensures { TaskStep self.old Dropped self.new }
    {
        self.task.dropped += 1;
    }

    /// Takes no more messages, and goes on to wait for those in transit: RUNNING becomes CANCELLING. Nothing that was moved is
    /// moved back (SQS API Reference, CancelMessageMoveTask). Refused as UnsupportedOperation where it is not RUNNING.
    pub fn cancel(&mut self) -> Result<(), Refusal>
        ensures step { OnOk result (TaskStep self.old Cancel self.new) }
        ensures refused { IfErr result (λ e. cancel_refusal (Some self.old) ≡ Some e) }
        ensures kept { OnErr result (self.new ≡ self.old) }
    {
        if !self.is_running() {
            return Err(Refusal::UnsupportedOperation);
        }
        self.task.status = TaskStatus::Cancelling;
        Ok(())
    }

    /// Ends as it was asked to: RUNNING becomes COMPLETED, and CANCELLING becomes CANCELLED. Refused as UnsupportedOperation
    /// where it is over, and where messages of it are in transit.
    pub fn finish(&mut self) -> Result<(), Refusal>
        ensures step { OnOk result (TaskStep self.old Finish self.new) }
        ensures refused { IfErr result (λ e. finish_refusal (unsettled self.old) (Some self.old) ≡ Some e) }
        ensures kept { OnErr result (self.new ≡ self.old) }
    {
        let ended = match self.task.status {
            TaskStatus::Running => TaskStatus::Completed,
            TaskStatus::Cancelling => TaskStatus::Cancelled,
            TaskStatus::Completed | TaskStatus::Cancelled | TaskStatus::Failed(_) => {
                return Err(Refusal::UnsupportedOperation);
            }
        };
        if self.in_transit() > 0 {
            return Err(Refusal::UnsupportedOperation);
        }
        self.task.status = ended;
        Ok(())
    }

    /// Fails for a reason. One that is over stays as it ended. Messages in transit stay there.
    pub fn fail(&mut self, reason: FailureReason)
        ensures { TaskStep self.old (Fail reason) self.new }
    {
        if self.is_active() {
            self.task.status = TaskStatus::Failed(reason);
        }
    }

    // How many messages it takes in a second.
    fn rate(&self) -> u32
        ensures { result ≡ rate_of self.now }
    {
        match self.task.rate {
            Some(rate) => rate.get(),
            None => DEFAULT_RATE,
        }
    }

    // How many messages left in a second, which is not before the last one in which one left.
    fn left_in(&self, second: u64) -> u32
        ensures left { result ≡ left_in second self.now }
        ensures within { result ≤ rate_of self.now }
    {
        if self.task.second == second {
            self.task.in_second
        } else {
            0
        }
    }
}

// The second of a moment.
fn second_of(moment: u64) -> u64
    ensures { result ≡ second_of moment }
{
    moment / 1000
}
