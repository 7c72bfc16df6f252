//! The steps of a session's calls, each under the lock of its part.
ghost use Rattle.std.specs.Prelude.{◌≡◌};
ghost use Rattle.sq_actions.specs.Performs.{BringFits, CallFits, LeaveFits, LeavesRecords, Performs, ServeFits, UntilFits};
ghost use Rattle.sq_queue.specs.Around.{around, service_counts};
ghost use Rattle.sq_queue.specs.Sections.{IsSection};

use crate::service::{Clock, Gate, Service, take_lock};
use crate::session::Session;
use sq_actions::lock_steps::LockSteps;
use sq_actions::until::call_until;
use sq_actions::walk::Walk;
use sq_actions::{client, turns};
use sq_base::ids::HomeNo;
use sq_base::name::QueueName;
use sq_base::refusal::Refusal;
use sq_calls::calls::{Answer, Call};
use sq_calls::turns::Turned;
use sq_history::act::HomeAct;
use sq_history::homes::no_such_home;
use sq_model::directory::{DirectoryCall, DirectoryReply};
use sq_model::item::TaskNo;
use sq_model::ledger::LedgerReply;
use sq_model::replies::HomeReply;
use sq_model::task::{NamedQueue, Task};
use sq_sample::sampler::HomeCount;
use sq_steps::act::{NamedHome, NextItem, SharedAct, TaskAct};
use std::alloc::Global;
use std::sync::Wait;
use std::sync::ledger::Ledger;

/// A session at the service that made it, in one call.
#[derive(Drop)]
pub(crate) struct SessionSteps<'a, C, G, D: Ledger, T: Ledger, R> {
    pub(crate) rt: &'a R,
    pub(crate) service: &'a Service<C, G, D, T>,
    pub(crate) session: &'a mut Session<D, T>,
}

impl<'a, C, G, D: Ledger, T: Ledger, R> SessionSteps<'a, C, G, D, T, R> {
    // A session at its service, before the first step of a call.
    pub(crate) fn new(
        rt: &'a R,
        service: &'a Service<C, G, D, T>,
        session: &'a mut Session<D, T>,
    ) -> SessionSteps<'a, C, G, D, T, R>
        ensures same_reference { result.session.ghost_name ≡ session.entry.ghost_name }
        ensures session { result.session.now ≡ session.old }
        ensures service { result.service.now ≡ service.now }
    {
        SessionSteps {
            rt,
            service,
            session,
        }
    }
}

// The clock is read before a lock is taken, and the lock is let go when its section ends: no reply is made while it is held. The
// gate sees what lies under the lock before anything is done there.
impl<'a, C: Clock + Drop, G: Gate + Drop, D: Ledger, T: Ledger, R: Wait> LockSteps
    for SessionSteps<'a, C, G, D, T, R> {
    ghost use Rattle.sq_queue.specs.inside.SectionLaws.{section_leaves};

    ghost stepped = { λ s ask answered t.
        IsSection (around C.tells G.saw s.service.now) s.session.now ask answered t.session.now
        × (t.service ≡ s.service)
        × (t.session.ghost_name ≡ s.session.ghost_name) };

    ghost knows = { λ s name queue. Unit {0} };

    ghost counts = { λ s. service_counts s.service.now };

    ghost journal = { λ s. s.session.now.journal };

    fn alloc(&self) -> Global {
        self.service.alloc
    }

    fn homes(&self) -> HomeCount {
        self.service.per_queue
    }

    fn resolve(&mut self, name: &QueueName) -> Result<NamedQueue, Refusal> {
        let part = take_lock(self.rt, &self.service.directory);
        self.service.gate.at_directory(&part.directory);
        let number = part.resolve(self.session, name)?;
        Ok(NamedQueue {
            number,
            name: *name,
        })
    }

    fn directory_step(&mut self, call: &DirectoryCall) -> Result<DirectoryReply, Refusal> {
        let now = self.service.clock.now();
        let mut part = take_lock(self.rt, &self.service.directory);
        self.service.gate.at_directory(&part.directory);
        part.step(self.service.alloc, self.session, now, call)
    }

    fn home_step(&mut self, at: &NamedHome, act: HomeAct) -> Result<HomeReply, Refusal> {
        let now = self.service.clock.now();
        let Some(place) = self.service.place(&at.id) else {
            return Err(no_such_home(now));
        };
        let mut was_taken = false;
        let mut part = place.enter(self.rt, &self.service.gate, &mut was_taken);
        part.step(self.service.alloc, self.session, now, at, act, was_taken)
    }

    fn shared_step(
        &mut self,
        at: &NamedHome,
        what: SharedAct,
    ) -> Result<Option<HomeReply>, Refusal> {
        let now = self.service.clock.now();
        let Some(place) = self.service.place(&at.id) else {
            return Err(no_such_home(now));
        };
        let mut part = place.enter(self.rt, &self.service.gate, &mut false);
        let mut ledger = take_lock(self.rt, &self.service.ledger);
        self.service.gate.at_ledger(&ledger.ledger);
        let told = ledger.share(self.service.alloc, &mut part, self.session, now, at, what);
        drop(ledger);
        drop(part);
        tell_gate(&self.service.gate, &told);
        told
    }

    fn peek(&mut self, after: u64) -> Result<Option<NextItem>, Refusal> {
        let part = take_lock(self.rt, &self.service.ledger);
        self.service.gate.at_ledger(&part.ledger);
        Ok(part.peek(self.session, after))
    }

    fn can_redrive(
        &mut self,
        source: &QueueName,
        destination: &Option<QueueName>,
    ) -> Result<(NamedQueue, Option<NamedQueue>), Refusal> {
        let part = take_lock(self.rt, &self.service.directory);
        self.service.gate.at_directory(&part.directory);
        part.can_redrive(self.session, source, destination)
    }

    fn ledger_step(&mut self, act: &TaskAct) -> Result<LedgerReply, Refusal> {
        let now = self.service.clock.now();
        let mut part = take_lock(self.rt, &self.service.ledger);
        self.service.gate.at_ledger(&part.ledger);
        part.step(self.service.alloc, self.session, now, act)
    }

    fn read_task(&mut self, number: TaskNo) -> Result<Task, Refusal> {
        let part = take_lock(self.rt, &self.service.ledger);
        self.service.gate.at_ledger(&part.ledger);
        part.read_task(self.session, number)
    }

    fn pick(&mut self) -> HomeNo {
        self.session.pick(self.service.per_queue)
    }

    fn draw(&mut self) -> Result<Vec<HomeNo>, Refusal> {
        self.session.draw(
            self.service.alloc,
            self.service.per_queue,
            self.service.sample,
        )
    }

    ghost leaves = { λ s t ask answered h.
        section_leaves (around C.tells G.saw s.service.now) s.session.now t.session.now ask answered h.0 };
}

// Tells the gate of an item that left, if one did.
fn tell_gate<G: Gate>(gate: &G, told: &Result<Option<HomeReply>, Refusal>) {
    if let Ok(Some(HomeReply::Left(item))) = told {
        gate.between(item.get().number.get());
    }
}

// Does a client's call with the session that is borrowed.
pub(crate) fn call_in<C: Clock + Drop, G: Gate + Drop, D: Ledger, T: Ledger, R: Wait>(
    session_steps: &mut SessionSteps<'_, C, G, D, T, R>,
    call: &Call,
) -> Result<Answer, Refusal>
    ensures same_reference { session_steps.new.session.ghost_name ≡ session_steps.old.session.ghost_name }
    ensures sections { Performs (IsSection (around C.tells G.saw session_steps.old.service.now)) (CallFits (service_counts session_steps.old.service.now) call.now) session_steps.old.session.now result session_steps.new.session.now }
    ensures leaves_records { LeavesRecords (CallFits (service_counts session_steps.old.service.now) call.now) session_steps.old.session.now.journal result session_steps.new.session.now.journal }
{
    client::call(session_steps, call)
}

// Does a client's call with the session that is borrowed, up to so many steps.
pub(crate) fn call_until_in<C: Clock + Drop, G: Gate + Drop, D: Ledger, T: Ledger, R: Wait>(
    session_steps: &mut SessionSteps<'_, C, G, D, T, R>,
    call: &Call,
    limit: u64,
) -> Result<Option<Answer>, Refusal>
    ensures same_reference { session_steps.new.session.ghost_name ≡ session_steps.old.session.ghost_name }
    ensures sections { Performs (IsSection (around C.tells G.saw session_steps.old.service.now)) (UntilFits limit (CallFits (service_counts session_steps.old.service.now) call.now)) session_steps.old.session.now result session_steps.new.session.now }
    ensures leaves_records { LeavesRecords (UntilFits limit (CallFits (service_counts session_steps.old.service.now) call.now)) session_steps.old.session.now.journal result session_steps.new.session.now.journal }
{
    call_until(session_steps, call, limit)
}

// A dead letter leaves, with the session that is borrowed.
pub(crate) fn leave_in<C: Clock + Drop, G: Gate + Drop, D: Ledger, T: Ledger, R: Wait>(
    session_steps: &mut SessionSteps<'_, C, G, D, T, R>,
    queue: &QueueName,
) -> Result<Turned, Refusal>
    ensures same_reference { session_steps.new.session.ghost_name ≡ session_steps.old.session.ghost_name }
    ensures sections { Performs (IsSection (around C.tells G.saw session_steps.old.service.now)) (LeaveFits session_steps.old.service.now.per_queue queue.now) session_steps.old.session.now result session_steps.new.session.now }
    ensures leaves_records { LeavesRecords (LeaveFits session_steps.old.service.now.per_queue queue.now) session_steps.old.session.now.journal result session_steps.new.session.now.journal }
{
    turns::leave(session_steps, queue)
}

// The next item in transit comes in, with the session that is borrowed.
pub(crate) fn bring_in<C: Clock + Drop, G: Gate + Drop, D: Ledger, T: Ledger, R: Wait>(
    session_steps: &mut SessionSteps<'_, C, G, D, T, R>,
    tried: &mut u64,
) -> Result<Turned, Refusal>
    ensures same_reference { session_steps.new.session.ghost_name ≡ session_steps.old.session.ghost_name }
    ensures sections { Performs (IsSection (around C.tells G.saw session_steps.old.service.now)) (BringFits session_steps.old.service.now.per_queue tried.old tried.new) session_steps.old.session.now result session_steps.new.session.now }
    ensures leaves_records { LeavesRecords (BringFits session_steps.old.service.now.per_queue tried.old tried.new) session_steps.old.session.now.journal result session_steps.new.session.now.journal }
{
    turns::bring(session_steps, tried)
}

// A task is served, with the session that is borrowed.
pub(crate) fn serve_in<C: Clock + Drop, G: Gate + Drop, D: Ledger, T: Ledger, R: Wait>(
    session_steps: &mut SessionSteps<'_, C, G, D, T, R>,
    walk: &mut Walk,
) -> Result<Turned, Refusal>
    ensures same_reference { session_steps.new.session.ghost_name ≡ session_steps.old.session.ghost_name }
    ensures sections { Performs (IsSection (around C.tells G.saw session_steps.old.service.now)) (ServeFits session_steps.old.service.now.per_queue walk.old walk.new) session_steps.old.session.now result session_steps.new.session.now }
    ensures leaves_records { LeavesRecords (ServeFits session_steps.old.service.now.per_queue walk.old walk.new) session_steps.old.session.now.journal result session_steps.new.session.now.journal }
{
    turns::serve(session_steps, walk)
}
