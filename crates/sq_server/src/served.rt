//! A service in a box, and its sessions: a function that has one on its own stack is proved with all that it is made of.
ghost use Rattle.std.specs.Prelude.{◌≡◌, ◌⊎◌, [], ℕ, IfErr, IfOk, IfSome, OnOk, length, vec_len};
ghost use Rattle.sq_actions.specs.Performs.{CallFits, GainsAtMost, LeavesRecords};
ghost use Rattle.sq_model.specs.Options.{IsServed};
ghost use Rattle.sq_queue.specs.Around.{service_counts};
ghost use Rattle.sq_queue.specs.Seats.{HasSeats, IsNamedBy};
ghost use Rattle.sq_queue.specs.SessionValue.{new_session};
ghost use Rattle.sq_server.specs.Outcomes.{homes_in_all};
ghost use Rattle.sq_server.specs.Around.{around_all};
ghost use Rattle.sq_server.specs.Rounds.{HasRunMover};
ghost use Rattle.sq_wire.specs.Runs.{IsOfCall};
ghost use Rattle.sq_wire.specs.Serves.{AllServed, ServedTo};

use crate::clock::SystemClock;
use crate::permits::Permits;
use sq_base::refusal::Refusal;
use sq_calls::calls::{Answer, Call};
use sq_lines::counted::Counted;
use sq_model::options::Options;
use sq_mover::mover::{Mover, run_mover};
use sq_queue::actors::SEATS;
use sq_queue::service::{Open, Service, Serving};
use sq_queue::session::Session;
use sq_store::slots::SlotStore;
use sq_store::store::Store;
use sq_wire::long_lines::LongLines;
use sq_wire::run::ServeFault;
use sq_wire::serve::serve;
use std::alloc::Global;
use std::io::{Read, Write};
use std::marker::Model;
use std::sync::Wait;
use std::sync::ledger::{Blank, Ledger};
use std::time::Clock;

/// How often what takes memory at the end of a client or of a service is tried.
pub(crate) const TRIES: u32 = 3;

/// What the counts of a service get their names by: those of its directory's events and of its ledger's.
#[derive(Drop)]
pub struct Blanks {
    pub directory: Blank,
    pub ledger: Blank,
}

impl Blanks {
    pub fn new() -> Blanks
        ensures directory { HasSeats result.directory.parts }
        ensures ledger { HasSeats result.ledger.parts }
    {
        Blanks {
            directory: Blank::new(SEATS),
            ledger: Blank::new(SEATS),
        }
    }
}

/// A service by the system's clock, which threads share, with what it runs on.
#[derive(Drop)]
pub struct Served<'a, R, D: Ledger, T: Ledger, S: Store> {
    pub rt: &'a R,
    pub alloc: Global,
    pub(crate) service: Box<Serving<SystemClock<'a, R>, Open, D, T, S>>,
    pub(crate) long_lines: LongLines,
    pub(crate) permits: Permits,
}

/// A session of it.
#[derive(Drop)]
pub struct Client<D: Ledger, T: Ledger> {
    pub(crate) session: Box<Session<D, T>>,
}

impl<D: Ledger, T: Ledger> Model for Client<D, T> {
    ghost use Rattle.sq_queue.specs.SessionValue.{SessionValue};

    ghost Value = { SessionValue };

    ghost view = { λ c. c.session.value };
}

impl<'a, R: Clock + Wait, D: Ledger, T: Ledger> Served<'a, R, D, T, SlotStore> {
    /// A service without queues. Refused as InvalidParameterValue where an option is out of its range; NoMemory.
    pub fn new(
        rt: &'a R,
        alloc: Global,
        options: Options,
        blanks: Blanks,
    ) -> Result<Served<'a, R, D, T, SlotStore>, Refusal>
        requires of_directory { IsNamedBy D.name D.parts blanks.directory }
        requires of_ledger { IsNamedBy T.name T.parts blanks.ledger }
        ensures counts { IfOk result (λ s. (s.service.value.per_queue ≡ options.homes) × (s.service.value.sample ≡ options.sample)) }
        ensures homes { IfOk result (λ s. vec_len s.service.value.homes ≡ homes_in_all options) }
        ensures served { OnOk result (IsServed options) }
        ensures refused { IfErr result (λ e. ((e ≡ Refusal.NoMemory) × IsServed options) ⊎ ((e ≡ Refusal.InvalidParameterValue) × (¬ IsServed options))) }
    {
        let service: Service<SystemClock<'a, R>, Open, D, T> = Service::new(
            alloc,
            options,
            SystemClock { rt },
            Open,
            blanks.directory,
            blanks.ledger,
        )?;
        Ok(Served {
            rt,
            alloc,
            service: Box::new(alloc, service)?,
            long_lines: LongLines::new(alloc)?,
            permits: Permits::new(),
        })
    }

    /// A new client. Refused as Worn where all numbers of clients are given; NoMemory.
    pub fn client(&self) -> Result<Client<D, T>, Refusal>
        ensures made { IfOk result (λ c. (actor : ℕ) × (c ≡ new_session actor)) }
        ensures refused { IfErr result (λ e. (e ≡ Refusal.NoMemory) ⊎ (e ≡ Refusal.Worn)) }
    {
        let session = self.service.session(self.rt)?;
        Ok(Client {
            session: Box::new(self.alloc, session)?,
        })
    }

    /// Takes a client back, and keeps what it did until the service ends. Where there is no memory for that it is tried again a few
    /// times; refused as NoMemory after that, and then what the client did is lost.
    pub fn retire(&self, client: Client<D, T>) -> Result<(), Refusal>
        ensures refused { IfErr result (λ e. e ≡ Refusal.NoMemory) }
    {
        let mut session = Box::into_inner(client.session);
        for _ in 0..TRIES {
            match self.service.retire(self.rt, session) {
                Ok(()) => return Ok(()),
                Err((_, back)) => session = back,
            }
        }
        Err(Refusal::NoMemory)
    }

    /// Does what a client asks.
    pub fn call(&self, client: &mut Client<D, T>, call: &Call) -> Result<Answer, Refusal>
        ensures leaves_records { LeavesRecords (CallFits (service_counts self.now.service.value) call.now) client.old.journal result client.new.journal }
    {
        self.service.call(self.rt, &mut client.session, call)
    }

    /// Answers each line of a reader with a line, until its end or a fault, as `serve` of `sq_wire`.
    pub fn answer<I: Read, O: Write>(
        &self,
        client: &mut Client<D, T>,
        reader: &mut Counted<I>,
        writer: &mut Counted<O>,
    ) -> Result<u64, ServeFault>
        ensures ok { IfOk result (AllServed (around_all self.now.service.value) (I.remaining reader.old.inner) (O.contents writer.old.inner) (O.contents writer.new.inner) client.old client.new) }
        ensures err { IfErr result (ServedTo (around_all self.now.service.value) I.remaining reader.old reader.new O.contents writer.old writer.new client.old client.new) }
        ensures no_failure { OnOk result ((reader.new.failed ≡ reader.old.failed) × (writer.new.failed ≡ writer.old.failed)) }
        ensures count { IfErr result (λ f. IsOfCall f reader.old.failed reader.new.failed writer.old.failed writer.new.failed) }
    {
        serve(
            self.alloc,
            self.rt,
            reader,
            writer,
            &*self.service,
            &mut client.session,
            &self.long_lines,
        )
    }

    /// Makes so many turns of a mover, and tells whether no turn was refused for memory, the clock or a count at its end, and one
    /// moved a message or ended a task.
    pub fn turns(&self, client: &mut Client<D, T>, mover: &mut Mover, turns: u64) -> bool
        ensures gains { GainsAtMost turns client.old.journal client.new.journal }
        ensures run { HasRunMover (around_all self.now.service.value) turns mover.old client.old result mover.new client.new }
    {
        let made = run_mover(&*self.service, self.rt, &mut client.session, mover, turns);
        made.is_ok() && mover.moved() > 0
    }
}
