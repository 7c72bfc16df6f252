//! The steps that calls of clients are made of: each is done under one lock, or changes nothing.
ghost use Rattle.std.specs.Prelude.{◌≡◌, ◌<◌, ◌≤◌, ℕ, List, Some, Result, IfOk, IfErr, IfSome};
ghost use Rattle.rand.specs.Sample.{IsSampleOf};
ghost use Rattle.sq_base.specs.declared.refusal.Refusal.{Refusal};
ghost use Rattle.sq_directory.specs.Makers.{name_asked, queue_answered};
ghost use Rattle.sq_directory.specs.MoveQueues.{as_ends};
ghost use Rattle.sq_model.specs.RecordValues.{Journal};
ghost use Rattle.sq_actions.specs.Asks.{Ask, Resolve, AskDirectory, AskHome, AskShared, Peek, Redriven, AskLedger, ReadTask, Gave, moved_of, HomeCounts, IsAnswerTo, IsReplyTo, IsToldTo, MayRefuse, LeavesOf, gave_as, Answered, Replied, Peeked, Told, TaskFound, Found, Ends};

use sq_base::ids::HomeNo;
use sq_base::name::QueueName;
use sq_base::refusal::Refusal;
use sq_history::act::HomeAct;
use sq_model::directory::{DirectoryCall, DirectoryReply};
use sq_model::item::TaskNo;
use sq_model::ledger::LedgerReply;
use sq_model::replies::HomeReply;
use sq_model::task::{NamedQueue, Task};
use sq_sample::sampler::HomeCount;
use sq_steps::act::{NamedHome, NextItem, SharedAct, TaskAct};
use std::alloc::Global;

/// Does the steps of one actor's calls. A home that the queue does not have refuses its step.
pub trait LockSteps {
    /// What a step is: on which state, what it asks, what its reply is, and which state it leaves.
    ghost stepped: { Self → Ask → Result Gave Refusal → Self → Type 0 };

    /// The actor knows the queue of this number by this name.
    ghost knows: { Self → List ℕ → ℕ → Type 0 };

    /// How many homes a queue has, and how many of them a receive asks.
    ghost counts: { Self → HomeCounts };

    /// What the actor has seen, and its records.
    ghost journal: { Self → Journal };

    /// Where the memory of a call comes from.
    fn alloc(&self) -> Global;

    /// How many homes a queue has.
    fn homes(&self) -> HomeCount
        ensures { result ≡ (counts self.now).homes };

    /// Looks the queue of this name up. Refused as QueueDoesNotExist, NoMemory.
    fn resolve(&mut self, name: &QueueName) -> Result<NamedQueue, Refusal>
        ensures did { stepped self.old (Resolve name.now) (gave_as Found result) self.new }
        ensures named { IfOk result (λ of. of.name ≡ name.now) }
        ensures refusal { IfErr result (MayRefuse (Resolve name.now)) }
        ensures known { IfOk result (λ of. knows self.new of.name of.number) }
        ensures same_counts { counts self.new ≡ counts self.old };

    /// A step of the directory. Refused as NoMemory, ClockRange, Worn, and then as the directory's call.
    fn directory_step(&mut self, call: &DirectoryCall) -> Result<DirectoryReply, Refusal>
        ensures did { stepped self.old (AskDirectory call.now) (gave_as Answered result) self.new }
        ensures reply { IfOk result (IsAnswerTo call.now) }
        ensures refusal { IfErr result (MayRefuse (AskDirectory call.now)) }
        ensures known { IfOk result (λ by. (name : List ℕ) (queue : ℕ) → name_asked call.now ≡ Some name → queue_answered by ≡ Some queue → knows self.new name queue) }
        ensures same_counts { counts self.new ≡ counts self.old };

    /// A step of a home.
    /// Refused as NoMemory, ClockRange, Worn, QueueDoesNotExist, and then as the home's call.
    fn home_step(&mut self, at: &NamedHome, act: HomeAct) -> Result<HomeReply, Refusal>
        requires known { IfSome at.now.name (λ name. knows self.old name at.now.id.queue) }
        ensures did { stepped self.old (AskHome at.now.name at.now.id act) (gave_as Replied result) self.new }
        ensures reply { IfOk result (IsReplyTo act) }
        ensures refusal { IfErr result (MayRefuse (AskHome at.now.name at.now.id act)) }
        ensures known { IfSome at.now.name (λ name. knows self.new name at.now.id.queue) }
        ensures same_counts { counts self.new ≡ counts self.old };

    /// A step that a home shares with the ledger. None where nothing was there to leave, which is no step.
    /// Refused as NoMemory, ClockRange, Worn, QueueDoesNotExist, and then as the step: OverLimit, UnsupportedOperation.
    fn shared_step(&mut self, at: &NamedHome, what: SharedAct) -> Result<Option<HomeReply>, Refusal>
        requires known { IfSome at.now.name (λ name. knows self.old name at.now.id.queue) }
        ensures did { stepped self.old (AskShared at.now.name at.now.id what) (moved_of result) self.new }
        ensures refusal { IfErr result (MayRefuse (AskShared at.now.name at.now.id what)) }
        ensures same_counts { counts self.new ≡ counts self.old };

    /// Where the item in transit goes that comes after the one of this number. Refused only where memory is out.
    fn peek(&mut self, after: u64) -> Result<Option<NextItem>, Refusal>
        ensures did { stepped self.old (Peek after) (gave_as Peeked result) self.new }
        ensures refusal { IfErr result (MayRefuse (Peek after)) }
        ensures same_counts { counts self.new ≡ counts self.old };

    /// Between which queues a task may move messages: the source, and the destination, where one is given.
    /// Refused as ResourceNotFoundException, UnsupportedOperation, NoMemory.
    fn can_redrive(
        &mut self,
        source: &QueueName,
        destination: &Option<QueueName>,
    ) -> Result<(NamedQueue, Option<NamedQueue>), Refusal>
        ensures did { stepped self.old (Redriven source.now destination.now) (gave_as (λ queues. Ends (as_ends queues)) result) self.new }
        ensures refusal { IfErr result (MayRefuse (Redriven source.now destination.now)) }
        ensures same_counts { counts self.new ≡ counts self.old };

    /// A step of the ledger alone. Refused as NoMemory, ClockRange, Worn, and then as the ledger's step: UnsupportedOperation,
    /// OverLimit, ResourceNotFoundException.
    fn ledger_step(&mut self, act: &TaskAct) -> Result<LedgerReply, Refusal>
        ensures did { stepped self.old (AskLedger act.now) (gave_as Told result) self.new }
        ensures reply { IfOk result (IsToldTo act.now) }
        ensures refusal { IfErr result (MayRefuse (AskLedger act.now)) }
        ensures same_counts { counts self.new ≡ counts self.old };

    /// The task of a number. Refused as ResourceNotFoundException, NoMemory.
    fn read_task(&mut self, number: TaskNo) -> Result<Task, Refusal>
        ensures did { stepped self.old (ReadTask number) (gave_as TaskFound result) self.new }
        ensures refusal { IfErr result (MayRefuse (ReadTask number)) }
        ensures same_counts { counts self.new ≡ counts self.old };

    /// One home of a queue.
    fn pick(&mut self) -> HomeNo
        ensures below { result < (counts self.old).homes }
        ensures unchanged { self.new ≡ self.old };

    /// Distinct homes of a queue, so many as a receive asks. Refused only where memory is out.
    fn draw(&mut self) -> Result<Vec<HomeNo>, Refusal>
        ensures some { 1 ≤ (counts self.old).sample }
        ensures sample { IfOk result (λ drawn. IsSampleOf (counts self.old).homes (counts self.old).sample drawn.items) }
        ensures refused { IfErr result (λ e. e ≡ Refusal.NoMemory) }
        ensures unchanged { self.new ≡ self.old };

    /// A step leaves its one record with the actor, or is a read; one that is refused changes nothing of the actor's.
    ghost leaves: { (s t : Self) (ask : Ask) (answered : Result Gave Refusal) → stepped s ask answered t → LeavesOf ask answered (journal s) (journal t) };
}
