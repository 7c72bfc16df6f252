//! A service that lines are answered by.
ghost use Rattle.std.specs.Prelude.{◌≡◌};
ghost use Rattle.sq_queue.specs.Seats.{HasSeats, IsNamedBy};

use crate::actors::{Actor, ByLines, Lined, actor_of};
use crate::trial::Trial;
use sq_audit::parts::Parts;
use sq_base::refusal::Refusal;
use sq_calls::calls::{Answered, Asked};
use sq_json::Scratch;
use sq_model::options::Options;
use sq_queue::service::{Open, Service, Serving};
use sq_queue::session::Session;
use sq_replies::reply::reply_text;
use sq_replies::text::Text;
use sq_requests::request::{Request, read_request};
use sq_server::served::Blanks;
use sq_store::slots::SlotStore;
use sq_store::store::Store;
use sq_tests_kit::hidden::Hidden;
use sq_wire::answering::Answering;
use std::alloc::{AllocError, Global};
use std::sync::Wait;
use std::sync::atomic::{AtomicU64, Ordering};
use std::sync::ledger::Ledger;

/// What is told of a call that was stopped.
const STOPPED: &str = "{\"Stopped\":true}";

/// A service, and the actors that lines named so far.
#[derive(Drop)]
pub struct Stage<'a, R, D: Ledger, T: Ledger, S: Store> {
    rt: &'a R,
    time: &'a AtomicU64,
    service: Hidden<Serving<ByLines<'a>, Open, D, T, S>>,
    actors: Vec<Actor<D, T>>,
    scratch: Hidden<Scratch>,
    trial: Trial,
    lines: u64,
}

impl<'a, R: Wait, D: Ledger, T: Ledger> Stage<'a, R, D, T, SlotStore> {
    /// A service by these options, whose clock begins at 0.
    pub fn new(
        rt: &'a R,
        alloc: Global,
        options: Options,
        trial: Trial,
        time: &'a AtomicU64,
        blanks: Blanks,
    ) -> Result<Stage<'a, R, D, T, SlotStore>, Refusal>
        requires of_directory { IsNamedBy D.name D.parts blanks.directory }
        requires of_ledger { IsNamedBy T.name T.parts blanks.ledger }
    {
        let service: Lined<'a, D, T> = Service::new(
            alloc,
            options,
            ByLines(time),
            Open,
            blanks.directory,
            blanks.ledger,
        )?;
        Ok(Stage {
            rt,
            time,
            service: Hidden::new(alloc, service)?,
            actors: Vec::new(alloc),
            scratch: Hidden::new(alloc, Scratch::new(alloc))?,
            trial,
            lines: 0,
        })
    }

    /// The service itself, and the session of the actor of number 0.
    pub fn first(
        &mut self,
        alloc: Global,
    ) -> Result<(&Lined<'a, D, T>, &mut Session<D, T>), Refusal> {
        let rt = self.rt;
        let service = self.service.get();
        let first = actor_of(rt, alloc, service, &mut self.actors, 0)?;
        Ok((service, first.session()))
    }

    // After how many steps the call of this line ends, if it is to end early.
    fn steps(&self) -> Option<u64> {
        match self.trial {
            Trial::Stop { line, steps } if line == self.lines => Some(steps),
            _ => None,
        }
    }

    // Does what was asked; none where it was stopped.
    fn done(&mut self, alloc: Global, request: &Request) -> Result<Option<Answered>, Refusal> {
        let steps = self.steps();
        let rt = self.rt;
        let service = self.service.get();
        let by = actor_of(rt, alloc, service, &mut self.actors, request.actor)?;
        match &request.asked {
            Asked::Call(call) => {
                let answer = by.call(rt, service, call, steps)?;
                Ok(answer.map(Answered::Call))
            }
            Asked::Turn(turn) => {
                let turned = by.turn(rt, service, turn)?;
                Ok(Some(Answered::Turn(turned)))
            }
        }
    }

    // Does what a line asks; its clock reading stands for the lines after it that have none.
    fn told(&mut self, alloc: Global, line: &[u8]) -> Result<Option<Answered>, Refusal> {
        self.lines = self.lines.saturating_add(1);
        let request = read_request(alloc, self.scratch.get_mut(), line)?;
        if let Some(reading) = request.clock {
            self.time.store(reading, Ordering::SeqCst);
        }
        self.done(alloc, &request)
    }

    /// Ends the service, with the sessions of all actors. None for want of memory.
    pub fn finish(self, alloc: Global) -> Option<Box<Parts>>
        requires of_directory { HasSeats D.parts }
        requires of_ledger { HasSeats T.parts }
    {
        let Stage {
            service,
            actors,
            ..
        } = self;
        let mut sessions = Vec::with_capacity(alloc, actors.len()).ok()?;
        for one in actors {
            sessions.push(one.into_session()).ok()?;
        }
        let parts = service.into_inner().finish(sessions).ok()?;
        Box::new(alloc, parts).ok()
    }
}

impl<'a, R: Wait, D: Ledger, T: Ledger> Answering for Stage<'a, R, D, T, SlotStore> {
    ghost replies = { λ s line text t. Unit {0} };

    ghost unanswered = { λ s line t. Unit {0} };

    ghost keeps = { λ s t. Unit {0} };

    fn answer(&mut self, alloc: Global, line: &[u8]) -> Result<Text, AllocError> {
        match self.told(alloc, line) {
            Ok(Some(answered)) => reply_text(alloc, &Ok(answered)),
            Ok(None) => Ok(Text::fixed(STOPPED)),
            Err(refusal) => reply_text(alloc, &Err(refusal)),
        }
    }

    ghost keeps_none = { λ s. tt };

    ghost keeps_more = { λ a b c first then. tt };
}
