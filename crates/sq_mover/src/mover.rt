//! A mover, turn after turn, over all queues.
ghost use Rattle.std.specs.Prelude.{◌≡◌, ◌≤◌, Err, IfErr, IfOk, OnErr, OnOk, length, slice_get};
ghost use Rattle.sq_actions.specs.Asks.{IsOfAnyStep};
ghost use Rattle.sq_actions.specs.Performs.{GainsAtMost};
ghost use Rattle.sq_queue.specs.Around.{around};
ghost use Rattle.sq_mover.specs.MoverTurns.{EndsEarly, HasQueues, IsPassedOver, ServesFor, ServesSource, SweepsOn, TakesTurn, TakesTurns, TurnsAt, TurnsAtAny};
ghost use Rattle.sq_mover.specs.MoverValue.{active_of, begun, brought, counted, has_moved, new_mover};

use crate::walks::Walks;
use sq_base::ids::QueueNo;
use sq_base::refusal::Refusal;
use sq_calls::turns::Turned;
use sq_model::item::TaskNo;
use sq_model::listed::Listed;
use sq_model::task::{NamedQueue, Task, TaskStatus};
use sq_queue::service::{Clock, Gate, Service};
use sq_queue::session::Session;
use std::alloc::Global;
use std::marker::Model;
use std::sync::Wait;
use std::sync::ledger::Ledger;

/// What a mover does next at the queue that its sweep is at.
#[derive(Clone, Copy, PartialEq, Eq, Debug)]
enum Stage {
    /// A dead letter of it leaves.
    Leave,
    /// The task that takes messages from it is served, if there is one.
    Serve,
    /// An item in transit comes in where it goes to.
    Bring,
}

/// How far a mover is: in its sweep over the queues, in what is in transit, and in the homes of each task's source. It counts the
/// turns of its last run that moved a message or ended a task.
#[derive(Drop)]
pub struct Mover {
    queues: Listed<NamedQueue>,
    at: usize,
    stage: Stage,
    tried: u64,
    walks: Walks,
    moved: u64,
}

impl Model for Mover {
    ghost use Rattle.sq_mover.specs.MoverValue.{MoverValue, walks_of};

    ghost Value = { MoverValue };

    ghost view = { λ m. record { queues = m.queues; at = m.at; stage = m.stage; tried = m.tried; last = walks_of m.walks.last; this = walks_of m.walks.this; moved = m.moved } };
}

impl Mover {
    /// A mover that has done nothing yet.
    pub fn new(alloc: Global) -> Mover
        ensures { result ≡ new_mover }
    {
        Mover {
            queues: Listed::new(alloc),
            at: 0,
            stage: Stage::Leave,
            tried: 0,
            walks: Walks::new(alloc),
            moved: 0,
        }
    }

    /// How many turns of its last run moved a message or ended a task.
    pub fn moved(&self) -> u64
        ensures { result ≡ self.now.moved }
    {
        self.moved
    }

    // A new run begins: none of its turns is made.
    fn begin_run(&mut self)
        ensures { self.new ≡ begun self.old }
    {
        self.moved = 0;
    }

    // Counts a turn, where it moved a message or ended a task.
    fn count(&mut self, told: &Result<Turned, Refusal>)
        ensures { self.new ≡ counted told.now self.old }
    {
        if matches!(told, Ok(word) if has_moved(word)) {
            self.moved = self.moved.saturating_add(1);
        }
    }

    // A new sweep begins where the last one is over, with the queues that are there now. Refused as NoMemory where there are some.
    fn begin_sweep<C: Clock + Drop, G: Gate + Drop, D: Ledger, T: Ledger, R: Wait>(
        &mut self,
        service: &Service<C, G, D, T>,
        rt: &R,
        session: &mut Session<D, T>,
    ) -> Result<(), Refusal>
        ensures gains { GainsAtMost 0 session.old.journal session.new.journal }
        ensures refused { IfErr result (λ e. (e ≡ Refusal.NoMemory) × HasQueues (G.saw service.now.gate)) }
        ensures ok { OnOk result (SweepsOn (G.saw service.now.gate) self.old session.old self.new session.new) }
        ensures over { OnErr result (length self.old.queues ≤ self.old.at) }
        ensures kept { OnErr result (self.new ≡ self.old) }
        ensures unread { OnErr result (session.new ≡ session.old) }
    {
        if self.at < self.queues.len() {
            return Ok(());
        }
        self.queues = service.names(rt, session)?;
        self.walks.next_sweep();
        self.at = 0;
        Ok(())
    }

    // The queue that the sweep is at; none where there is no queue.
    fn queue(&self) -> Option<NamedQueue>
        ensures { result ≡ slice_get self.now.queues self.now.at }
    {
        self.queues.as_slice().get(self.at).copied()
    }

    // The next turn of the sweep, which counts where it moved something.
    fn turn<C: Clock + Drop, G: Gate + Drop, D: Ledger, T: Ledger, R: Wait>(
        &mut self,
        service: &Service<C, G, D, T>,
        rt: &R,
        session: &mut Session<D, T>,
    ) -> Result<Turned, Refusal>
        ensures gains { GainsAtMost 1 session.old.journal session.new.journal }
        ensures takes { TakesTurn (around C.tells G.saw service.now) self.old session.old result self.new session.new }
    {
        self.begin_sweep(service, rt, session)?;
        let told = self.turn_here(service, rt, session);
        self.count(&told);
        told
    }

    // The turn at the queue that the sweep is at; a sweep that found no queue has nothing to do.
    fn turn_here<C: Clock + Drop, G: Gate + Drop, D: Ledger, T: Ledger, R: Wait>(
        &mut self,
        service: &Service<C, G, D, T>,
        rt: &R,
        session: &mut Session<D, T>,
    ) -> Result<Turned, Refusal>
        ensures gains { GainsAtMost 1 session.old.journal session.new.journal }
        ensures turns { TurnsAtAny (around C.tells G.saw service.now) (slice_get self.old.queues self.old.at) self.old session.old result self.new session.new }
    {
        match self.queue() {
            Some(queue) => self.turn_at(service, rt, session, &queue),
            None => Ok(Turned::Nothing),
        }
    }

    // The next turn at a queue.
    fn turn_at<C: Clock + Drop, G: Gate + Drop, D: Ledger, T: Ledger, R: Wait>(
        &mut self,
        service: &Service<C, G, D, T>,
        rt: &R,
        session: &mut Session<D, T>,
        queue: &NamedQueue,
    ) -> Result<Turned, Refusal>
        ensures gains { GainsAtMost 1 session.old.journal session.new.journal }
        ensures turns { TurnsAt (around C.tells G.saw service.now) queue.now self.old session.old result self.new session.new }
    {
        match self.stage {
            Stage::Leave => {
                self.stage = Stage::Serve;
                service.leave(rt, session, &queue.name)
            }
            Stage::Serve => {
                self.stage = Stage::Bring;
                self.serve_source(service, rt, session, queue.number)
            }
            Stage::Bring => {
                self.go_on();
                service.bring(rt, session, &mut self.tried)
            }
        }
    }

    // The task that takes messages from a queue is served. Without one the next item comes in.
    fn serve_source<C: Clock + Drop, G: Gate + Drop, D: Ledger, T: Ledger, R: Wait>(
        &mut self,
        service: &Service<C, G, D, T>,
        rt: &R,
        session: &mut Session<D, T>,
        source: QueueNo,
    ) -> Result<Turned, Refusal>
        ensures gains { GainsAtMost 1 session.old.journal session.new.journal }
        ensures serves { ServesSource (around C.tells G.saw service.now) source self.old session.old result self.new session.new }
    {
        let task = service.last_task(rt, session, source);
        self.serve(service, rt, session, task)
    }

    // A message leaves for a task, or it is to finish. Without one that is not over the next item comes in. Refused as NoMemory
    // where there is no memory for a walk more, and else as the turn.
    fn serve<C: Clock + Drop, G: Gate + Drop, D: Ledger, T: Ledger, R: Wait>(
        &mut self,
        service: &Service<C, G, D, T>,
        rt: &R,
        session: &mut Session<D, T>,
        task: Option<Task>,
    ) -> Result<Turned, Refusal>
        ensures gains { GainsAtMost 1 session.old.journal session.new.journal }
        ensures serves { ServesFor (around C.tells G.saw service.now) (active_of task) self.old session.old result self.new session.new }
    {
        let Some(task) = active(task) else {
            self.go_on();
            return service.bring(rt, session, &mut self.tried);
        };
        self.walks.reserve()?;
        let mut walk = self.walks.of(task);
        let told = service.serve(rt, session, &mut walk);
        self.walks.keep(walk);
        told
    }

    // The sweep goes on to the next queue.
    fn go_on(&mut self)
        ensures { self.new ≡ brought self.old.tried self.old }
    {
        self.stage = Stage::Leave;
        self.at = self.at.saturating_add(1);
    }
}

// The number of a task that is not over.
fn active(task: Option<Task>) -> Option<TaskNo>
    ensures { result ≡ active_of task }
{
    match task {
        Some(task) => match task.status {
            TaskStatus::Running | TaskStatus::Cancelling => Some(task.number),
            TaskStatus::Completed | TaskStatus::Cancelled | TaskStatus::Failed(_) => None,
        },
        None => None,
    }
}

// Whether a turn that told this word moved a message or ended a task.
fn has_moved(word: &Turned) -> bool
    ensures { result ≡ has_moved word.now }
{
    match word {
        Turned::Left
        | Turned::Entered
        | Turned::Turned
        | Turned::Back
        | Turned::Dropped
        | Turned::Failed
        | Turned::Finished => true,
        Turned::Nothing | Turned::Full | Turned::Throttled | Turned::Waiting | Turned::Ended =>
            false,
    }
}

// Whether a refusal ends a mover's run: memory, the clock, or a count at its end. Others are passed over.
fn ends(told: &Result<Turned, Refusal>) -> Result<(), Refusal>
    ensures ends { IfErr result (λ e. IsOfAnyStep e × (told.now ≡ Err e)) }
    ensures goes_on { OnOk result (IsPassedOver told.now) }
{
    match told {
        Err(refusal @ (Refusal::NoMemory | Refusal::ClockRange | Refusal::Worn)) => Err(*refusal),
        _ => Ok(()),
    }
}

/// Makes so many turns of a mover, or fewer, and answers how many it made: fewer only where memory, the clock or a count at
/// its end refuses one, which ends the run with that refusal. It makes one sweep over all queues after another: at each a dead
/// letter leaves, the task that takes messages from it is served, and the next item in transit comes in where it goes to. What
/// is refused otherwise, as at a queue that was deleted meanwhile, is passed over. A sweep that finds no queue is one turn. The
/// next run goes on where this one ends. The mover counts anew the turns that moved a message or ended a task.
pub fn run_mover<C: Clock + Drop, G: Gate + Drop, D: Ledger, T: Ledger, R: Wait>(
    service: &Service<C, G, D, T>,
    rt: &R,
    session: &mut Session<D, T>,
    mover: &mut Mover,
    turns: u64,
) -> Result<u64, Refusal>
    ensures gains { GainsAtMost turns session.old.journal session.new.journal }
    ensures made { IfOk result (λ n. n ≡ turns) }
    ensures refused { IfErr result IsOfAnyStep }
    ensures turns { OnOk result (TakesTurns (around C.tells G.saw service.now) turns (begun mover.old) session.old mover.new session.new) }
    ensures ended { IfErr result (λ e. EndsEarly (around C.tells G.saw service.now) turns (begun mover.old) session.old e mover.new session.new) }
{
    mover.begin_run();
    for _ in 0..turns {
        let told = mover.turn(service, rt, session);
        ends(&told)?;
    }
    Ok(turns)
}
