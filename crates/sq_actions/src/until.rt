//! Calls that are stopped after so many steps.
ghost use Rattle.std.specs.Prelude.{◌≡◌, ◌<◌, ◌≤◌, ◌+◌, ◌++◌, IfErr, IfOk, ℕ, true, false, List, length, Result};
ghost use Rattle.sq_base.specs.declared.refusal.Refusal.{Refusal};
ghost use Rattle.sq_model.specs.RecordValues.{RecordValue};
ghost use Rattle.sq_calls.specs.declared.calls.Answer.{Answer};
ghost use Rattle.sq_calls.specs.declared.calls.Call.{Call};
ghost use Rattle.sq_actions.specs.Asks.{AreOf, Done, HomeCounts};
ghost use Rattle.sq_actions.specs.Performs.{LeavesRecords, Performs};
ghost use Rattle.sq_actions.specs.Fits.{CallFits};
ghost use Rattle.sq_actions.specs.Stops.{IsStopped, UntilFits, told_until};
ghost use Rattle.sq_actions.specs.inside.Stops.{LimitedStep};

use crate::client;
use crate::lock_steps::LockSteps;
use sq_base::ids::HomeNo;
use sq_base::name::QueueName;
use sq_base::refusal::Refusal;
use sq_calls::calls::{Answer, Call};
use sq_history::act::HomeAct;
use sq_model::directory::{DirectoryCall, DirectoryReply};
use sq_model::item::TaskNo;
use sq_model::ledger::LedgerReply;
use sq_model::replies::HomeReply;
use sq_model::task::{NamedQueue, Task};
use sq_sample::sampler::HomeCount;
use sq_steps::act::{NamedHome, NextItem, SharedAct, TaskAct};
use std::alloc::Global;

/// Does so many steps. A step past them is not done, and refused as one that finds no memory.
#[derive(Drop)]
struct LimitedSteps<'a, S> {
    steps: &'a mut S,
    left: u64,
    /// A step past the last was due.
    stopped: bool,
}

impl<'a, S: LockSteps> LimitedSteps<'a, S> {
    // Counts a step; refused where none is left.
    fn count(&mut self) -> Result<(), Refusal>
        ensures same_reference { self.new.steps ≡ self.old.steps }
        ensures counted { IfOk result (λ _. (self.old.left ≡ self.new.left + 1) × (self.new.stopped ≡ self.old.stopped)) }
        ensures over { IfErr result (λ e. (e ≡ Refusal.NoMemory) × (self.old.left ≡ 0) × (self.new.left ≡ 0) × (self.new.stopped ≡ true)) }
    {
        if self.left == 0 {
            self.stopped = true;
            return Err(Refusal::NoMemory);
        }
        self.left -= 1;
        Ok(())
    }
}

impl<'a, S: LockSteps> LockSteps for LimitedSteps<'a, S> {
    ghost use Rattle.sq_actions.specs.inside.StopLaws.{limited_leaves};

    ghost stepped = { λ s ask answered t.
        LimitedStep S.stepped (record { steps = s.steps.now; left = s.left; stopped = s.stopped }) ask answered (record { steps = t.steps.now; left = t.left; stopped = t.stopped })
        × (t.steps.ghost_name ≡ s.steps.ghost_name) };

    ghost knows = { λ s name queue. S.knows s.steps.now name queue };

    ghost counts = { λ s. S.counts s.steps.now };

    ghost journal = { λ s. S.journal s.steps.now };

    fn alloc(&self) -> Global {
        self.steps.alloc()
    }

    fn homes(&self) -> HomeCount {
        self.steps.homes()
    }

    fn resolve(&mut self, name: &QueueName) -> Result<NamedQueue, Refusal> {
        self.count()?;
        self.steps.resolve(name)
    }

    fn directory_step(&mut self, call: &DirectoryCall) -> Result<DirectoryReply, Refusal> {
        self.count()?;
        self.steps.directory_step(call)
    }

    fn home_step(&mut self, at: &NamedHome, act: HomeAct) -> Result<HomeReply, Refusal> {
        self.count()?;
        self.steps.home_step(at, act)
    }

    fn shared_step(
        &mut self,
        at: &NamedHome,
        what: SharedAct,
    ) -> Result<Option<HomeReply>, Refusal> {
        self.count()?;
        self.steps.shared_step(at, what)
    }

    fn peek(&mut self, after: u64) -> Result<Option<NextItem>, Refusal> {
        self.count()?;
        self.steps.peek(after)
    }

    fn can_redrive(
        &mut self,
        source: &QueueName,
        destination: &Option<QueueName>,
    ) -> Result<(NamedQueue, Option<NamedQueue>), Refusal> {
        self.count()?;
        self.steps.can_redrive(source, destination)
    }

    fn ledger_step(&mut self, act: &TaskAct) -> Result<LedgerReply, Refusal> {
        self.count()?;
        self.steps.ledger_step(act)
    }

    fn read_task(&mut self, number: TaskNo) -> Result<Task, Refusal> {
        self.count()?;
        self.steps.read_task(number)
    }

    fn pick(&mut self) -> HomeNo {
        self.steps.pick()
    }

    fn draw(&mut self) -> Result<Vec<HomeNo>, Refusal> {
        self.steps.draw()
    }

    ghost leaves = { λ s t ask answered h. limited_leaves S.stepped S.journal S.leaves _ _ ask answered h.0 };
}

/// Does a client's call up to so many of its steps, reads among them, and stops there where a further one is due: then it
/// answers None. What was done before a stop stands, and nothing else is done. Refused as the call.
pub fn call_until<S: LockSteps>(
    steps: &mut S,
    call: &Call,
    limit: u64,
) -> Result<Option<Answer>, Refusal>
    ensures answered { Performs S.stepped (UntilFits limit (CallFits (S.counts steps.old) call.now)) steps.old result steps.new }
    ensures leaves_records { LeavesRecords (UntilFits limit (CallFits (S.counts steps.old) call.now)) (S.journal steps.old) result (S.journal steps.new) }
{
    let mut limited = LimitedSteps {
        steps,
        left: limit,
        stopped: false,
    };
    call_within(&mut limited, call)
}

// Does a call within the steps that are left. It answers None where one more was due.
fn call_within<S: LockSteps>(
    limited: &mut LimitedSteps<'_, S>,
    call: &Call,
) -> Result<Option<Answer>, Refusal>
    requires { limited.old.stopped ≡ false }
    ensures same_reference { limited.new.steps.ghost_name ≡ limited.old.steps.ghost_name }
    ensures answered { Performs S.stepped (UntilFits limited.old.left (CallFits (S.counts limited.old.steps.now) call.now)) limited.old.steps.now result limited.new.steps.now }
{
    let answered = client::call(limited, call);
    told_until(limited.stopped, answered)
}

// What is told of a call: nothing where a further step was due.
fn told_until(stopped: bool, answered: Result<Answer, Refusal>) -> Result<Option<Answer>, Refusal>
    ensures { result ≡ told_until stopped answered }
{
    match answered {
        _ if stopped => Ok(None),
        Ok(answer) => Ok(Some(answer)),
        Err(refusal) => Err(refusal),
    }
}

/// A call that has no more steps than the limit is as it is without one; one that is stopped has more; and the records of a
/// front of its steps are a front of its records, so that a later stop leaves those of an earlier one and more.
/// It does nothing: its contract is the law.
pub fn stops_leave_fronts()
    ensures whole { (counts : HomeCounts) (call : Call) (limit : ℕ) (trace : List Done) (told : Result Answer Refusal) → CallFits counts call trace told → length trace ≤ limit → UntilFits limit (CallFits counts call) trace (told_until false told) }
    ensures stopped { (counts : HomeCounts) (call : Call) (limit : ℕ) (trace : List Done) → IsStopped (CallFits counts call) limit trace → (rest : List Done) × (told : Result Answer Refusal) × CallFits counts call (trace ++ rest) told × (limit < length (trace ++ rest)) }
    ensures records { (front rest : List Done) (all : List RecordValue) → AreOf (front ++ rest) all → (ns : List RecordValue) × (more : List RecordValue) × AreOf front ns × (all ≡ ns ++ more) }
{}
