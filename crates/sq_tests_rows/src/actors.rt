//! The actors that lines name, each a session of the service.
use sq_actions::walk::Walk;
use sq_base::refusal::Refusal;
use sq_calls::calls::{Answer, Call};
use sq_calls::turns::{Turn, Turned};
use sq_model::item::TaskNo;
use sq_mover::turns::{dead_turn, enter_turn, task_turn};
use sq_queue::service::{Clock, Open, Service};
use sq_queue::session::Session;
use sq_tests_kit::hidden::Hidden;
use std::alloc::Global;
use std::sync::Wait;
use std::sync::atomic::{AtomicU64, Ordering};
use std::sync::ledger::Ledger;

/// A clock that lines set.
#[derive(Drop)]
pub struct ByLines<'a>(pub &'a AtomicU64);

impl<'a> Clock for ByLines<'a> {
    ghost tells = { λ c ms. Unit {0} };

    fn now(&self) -> u64 {
        self.0.load(Ordering::SeqCst)
    }
}

/// A service by such a clock.
pub type Lined<'a, D, T> = Service<ByLines<'a>, Open, D, T>;

/// An actor: its number in lines, its session, the item that it tried last, and its walk for the task that it served last.
#[derive(Drop)]
pub struct Actor<D: Ledger, T: Ledger> {
    number: u32,
    session: Hidden<Session<D, T>>,
    tried: u64,
    walk: Option<Walk>,
}

impl<D: Ledger, T: Ledger> Actor<D, T> {
    /// Does a call, up to so many of its steps; none where a further one was due.
    pub fn call<R: Wait>(
        &mut self,
        rt: &R,
        service: &Lined<'_, D, T>,
        call: &Call,
        steps: Option<u64>,
    ) -> Result<Option<Answer>, Refusal> {
        let session = self.session.get_mut();
        match steps {
            Some(steps) => service.call_until(rt, session, call, steps),
            None => Ok(Some(service.call(rt, session, call)?)),
        }
    }

    /// Does a turn of a mover, as the actor's turns are so far.
    pub fn turn<R: Wait>(
        &mut self,
        rt: &R,
        service: &Lined<'_, D, T>,
        turn: &Turn,
    ) -> Result<Turned, Refusal> {
        match turn {
            Turn::DeadTurn(name) => dead_turn(service, rt, self.session.get_mut(), name),
            Turn::EnterTurn => enter_turn(service, rt, self.session.get_mut(), &mut self.tried),
            Turn::TaskTurn(Some(task)) => self.serve(rt, service, *task),
            Turn::TaskTurn(None) => Err(Refusal::ResourceNotFoundException),
        }
    }

    // The walk that is kept for a task, or a new one.
    fn walk_for(&self, task: TaskNo) -> Walk {
        match &self.walk {
            Some(walk) if walk.task() == task => *walk,
            _ => Walk::new(task),
        }
    }

    // Serves a task, by its walk; a task that is not there leaves the walk of another one.
    fn serve<R: Wait>(
        &mut self,
        rt: &R,
        service: &Lined<'_, D, T>,
        task: TaskNo,
    ) -> Result<Turned, Refusal> {
        let mut walk = self.walk_for(task);
        let told = task_turn(service, rt, self.session.get_mut(), &mut walk);
        if told != Err(Refusal::ResourceNotFoundException) {
            self.walk = Some(walk);
        }
        told
    }

    /// Its session itself.
    pub fn session(&mut self) -> &mut Session<D, T> {
        self.session.get_mut()
    }

    pub fn into_session(self) -> Session<D, T> {
        self.session.into_inner()
    }
}

/// The actor of a number, with a new session where it has none yet.
pub fn actor_of<'v, R: Wait, D: Ledger, T: Ledger>(
    rt: &R,
    alloc: Global,
    service: &Lined<'_, D, T>,
    actors: &'v mut Vec<Actor<D, T>>,
    number: u32,
) -> Result<&'v mut Actor<D, T>, Refusal> {
    let index = match actors.iter().position(|it| it.number == number) {
        Some(index) => index,
        None => {
            actors.push(Actor {
                number,
                session: Hidden::new(alloc, service.session(rt)?)?,
                tried: 0,
                walk: None,
            })?;
            actors.len() - 1
        }
    };
    Ok(&mut actors[index])
}
