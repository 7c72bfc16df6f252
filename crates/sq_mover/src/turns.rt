//! The turns of a mover, each by itself: one step of moving messages at most, beside reads.
ghost use Rattle.sq_actions.specs.Performs.{BringFits, GainsAtMost, LeaveFits, LeavesRecords, Performs, ServeFits};
ghost use Rattle.sq_queue.specs.Around.{around};
ghost use Rattle.sq_queue.specs.Sections.{IsSection};

use sq_actions::walk::Walk;
use sq_base::name::QueueName;
use sq_base::refusal::Refusal;
use sq_calls::turns::Turned;
use sq_queue::service::{Clock, Gate, Service};
use sq_queue::session::Session;
use std::sync::Wait;
use std::sync::ledger::Ledger;

/// A message that was received too often leaves one home of the queue of this name, for the queue that its redrive policy
/// names; the word is `nothing` where that home has none. Refused as QueueDoesNotExist, and as any step may be.
pub fn dead_turn<C: Clock + Drop, G: Gate + Drop, D: Ledger, T: Ledger, R: Wait>(
    service: &Service<C, G, D, T>,
    rt: &R,
    session: &mut Session<D, T>,
    queue: &QueueName,
) -> Result<Turned, Refusal>
    ensures sections { Performs (IsSection (around C.tells G.saw service.now)) (LeaveFits service.now.per_queue queue.now) session.old result session.new }
    ensures leaves_records { LeavesRecords (LeaveFits service.now.per_queue queue.now) session.old.journal result session.new.journal }
    ensures at_most_one { GainsAtMost 1 session.old.journal session.new.journal }
{
    service.leave(rt, session, queue)
}

/// The item in transit that comes after the one that was tried last, which `tried` names (0 at first), comes in at a home of
/// the queue that it goes to; where that home is closed it is turned back, or dropped. It counts as tried then. Refused as any
/// step may be.
pub fn enter_turn<C: Clock + Drop, G: Gate + Drop, D: Ledger, T: Ledger, R: Wait>(
    service: &Service<C, G, D, T>,
    rt: &R,
    session: &mut Session<D, T>,
    tried: &mut u64,
) -> Result<Turned, Refusal>
    ensures sections { Performs (IsSection (around C.tells G.saw service.now)) (BringFits service.now.per_queue tried.old tried.new) session.old result session.new }
    ensures leaves_records { LeavesRecords (BringFits service.now.per_queue tried.old tried.new) session.old.journal result session.new.journal }
    ensures at_most_one { GainsAtMost 1 session.old.journal session.new.journal }
{
    service.bring(rt, session, tried)
}

/// A message leaves for the move task of a walk, at the home of its source that the walk is at; or the task is to finish, where
/// every home, one after another, had no message, or where it was cancelled. Refused as ResourceNotFoundException,
/// QueueDoesNotExist (the home was never opened), and as any step may be.
pub fn task_turn<C: Clock + Drop, G: Gate + Drop, D: Ledger, T: Ledger, R: Wait>(
    service: &Service<C, G, D, T>,
    rt: &R,
    session: &mut Session<D, T>,
    walk: &mut Walk,
) -> Result<Turned, Refusal>
    ensures sections { Performs (IsSection (around C.tells G.saw service.now)) (ServeFits service.now.per_queue walk.old walk.new) session.old result session.new }
    ensures leaves_records { LeavesRecords (ServeFits service.now.per_queue walk.old walk.new) session.old.journal result session.new.journal }
    ensures at_most_one { GainsAtMost 1 session.old.journal session.new.journal }
{
    service.serve(rt, session, walk)
}
