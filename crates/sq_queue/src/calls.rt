//! The calls and turns of a session.
ghost use Rattle.sq_actions.specs.Performs.{BringFits, CallFits, GainsAtMost, LeaveFits, LeavesRecords, Performs, ServeFits, UntilFits};
ghost use Rattle.sq_queue.specs.Around.{around, service_counts};
ghost use Rattle.sq_queue.specs.Sections.{IsSection};
ghost use Rattle.sq_queue.specs.Services.{CallDone, UntilDone};

use crate::service::{Clock, Gate, Serving};
use crate::session::Session;
use crate::session_steps::{SessionSteps, bring_in, call_in, call_until_in, leave_in, serve_in};
use sq_actions::walk::Walk;
use sq_base::name::QueueName;
use sq_base::refusal::Refusal;
use sq_calls::calls::{Answer, Call};
use sq_calls::turns::Turned;
use sq_store::slots::SlotStore;
use std::sync::Wait;
use std::sync::ledger::Ledger;

impl<C: Clock + Drop, G: Gate + Drop, D: Ledger, T: Ledger> Serving<C, G, D, T, SlotStore> {
    /// What a client asks, step by step, each under the lock of its part. The steps, the answer and each refusal are as those
    /// of `World::call` in `sq_merge`; other sessions may step between any two of them. What it leaves with the session are just
    /// the records of its steps, numbered on, at rising stamps above all that the session had seen. Each step is one of a part that
    /// the gate saw, and a refusal has its cause there: the part that lies under its lock at that moment.
    pub fn call<R: Wait>(
        &self,
        rt: &R,
        session: &mut Session<D, T>,
        call: &Call,
    ) -> Result<Answer, Refusal>
        ensures sections { CallDone (around C.tells G.saw self.now) call.now session.old result session.new }
        ensures leaves_records { LeavesRecords (CallFits (service_counts self.now) call.now) session.old.journal result session.new.journal }
    {
        let mut session_steps = SessionSteps::new(rt, self, session);
        call_in(&mut session_steps, call)
    }

    /// A call that ends early, as `World::call_until` in `sq_merge`: so many of its steps, reads among them, and no more. It answers
    /// None where a further step was due, else what the call answers. Refused as `call`.
    pub fn call_until<R: Wait>(
        &self,
        rt: &R,
        session: &mut Session<D, T>,
        call: &Call,
        steps: u64,
    ) -> Result<Option<Answer>, Refusal>
        ensures sections { UntilDone (around C.tells G.saw self.now) steps call.now session.old result session.new }
        ensures leaves_records { LeavesRecords (UntilFits steps (CallFits (service_counts self.now) call.now)) session.old.journal result session.new.journal }
    {
        let mut session_steps = SessionSteps::new(rt, self, session);
        call_until_in(&mut session_steps, call, steps)
    }

    /// A message that was received too often leaves one home of the queue of this name, for the queue that its redrive policy
    /// names, as a DeadTurn of `World::turn` in `sq_merge`. The gate is told of an item that left, with no lock held.
    pub fn leave<R: Wait>(
        &self,
        rt: &R,
        session: &mut Session<D, T>,
        queue: &QueueName,
    ) -> Result<Turned, Refusal>
        ensures sections { Performs (IsSection (around C.tells G.saw self.now)) (LeaveFits self.now.per_queue queue.now) session.old result session.new }
        ensures leaves_records { LeavesRecords (LeaveFits self.now.per_queue queue.now) session.old.journal result session.new.journal }
        ensures at_most_one { GainsAtMost 1 session.old.journal session.new.journal }
    {
        let mut session_steps = SessionSteps::new(rt, self, session);
        leave_in(&mut session_steps, queue)
    }

    /// The item in transit that comes after the one that was tried last, which `tried` names (0 at first), comes in where it goes
    /// to, as by an EnterTurn.
    pub fn bring<R: Wait>(
        &self,
        rt: &R,
        session: &mut Session<D, T>,
        tried: &mut u64,
    ) -> Result<Turned, Refusal>
        ensures sections { Performs (IsSection (around C.tells G.saw self.now)) (BringFits self.now.per_queue tried.old tried.new) session.old result session.new }
        ensures leaves_records { LeavesRecords (BringFits self.now.per_queue tried.old tried.new) session.old.journal result session.new.journal }
        ensures at_most_one { GainsAtMost 1 session.old.journal session.new.journal }
    {
        let mut session_steps = SessionSteps::new(rt, self, session);
        bring_in(&mut session_steps, tried)
    }

    /// A message leaves for the move task of a walk, or the task is to finish, as by a TaskTurn. The gate is told of an item that
    /// left, with no lock held.
    pub fn serve<R: Wait>(
        &self,
        rt: &R,
        session: &mut Session<D, T>,
        walk: &mut Walk,
    ) -> Result<Turned, Refusal>
        ensures sections { Performs (IsSection (around C.tells G.saw self.now)) (ServeFits self.now.per_queue walk.old walk.new) session.old result session.new }
        ensures leaves_records { LeavesRecords (ServeFits self.now.per_queue walk.old walk.new) session.old.journal result session.new.journal }
        ensures at_most_one { GainsAtMost 1 session.old.journal session.new.journal }
    {
        let mut session_steps = SessionSteps::new(rt, self, session);
        serve_in(&mut session_steps, walk)
    }
}
