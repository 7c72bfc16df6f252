//! Who the actors of a service are.
ghost use Rattle.std.specs.Prelude.{◌≡◌, ◌+◌, ◌<◌, IfOk, IfErr, OnErr, OnOk, [], ◌++◌, ◌∷◌};
ghost use Rattle.sq_queue.specs.SessionValue.{new_session};

use crate::session::Session;
use crate::stay::Stay;
use sq_base::refusal::Refusal;
use sq_sample::sampler::Sampler;
use sq_steps::journal::Journal;
use std::alloc::Global;
use std::sync::ledger::{Ledger, Share};

/// How many sessions a service may make, and one more: so many parts each of its two counts has.
pub const SEATS: u64 = 4_294_967_296;

/// How many sessions were made, what is left of both counts for those to come, and the sessions that were given back.
#[derive(Drop)]
pub(crate) struct Actors<D: Ledger, T: Ledger> {
    pub(crate) seed: u64,
    pub(crate) made: u32,
    pub(crate) of_directory: Share<D>,
    pub(crate) of_ledger: Share<T>,
    pub(crate) retired: Vec<Session<D, T>>,
    ghost directory_left: { made + of_directory.parts ≡ 4294967296 },
    ghost ledger_left: { made + of_ledger.parts ≡ 4294967296 },
    ghost no_directory: { of_directory.amount ≡ 0 },
    ghost no_ledger: { of_ledger.amount ≡ 0 },
}

impl<D: Ledger, T: Ledger> Actors<D, T> {
    /// A new one, whose number is how many there were before. Refused as Worn where all numbers are given.
    pub(crate) fn make(&mut self, alloc: Global) -> Result<Session<D, T>, Refusal>
        ensures made { IfOk result (λ s. s ≡ new_session self.old.made) }
        ensures few { OnOk result (self.old.made < 4294967295) }
        ensures counted { OnOk result (self.new.made ≡ self.old.made + 1) }
        ensures seed { self.new.seed ≡ self.old.seed }
        ensures retired { self.new.retired.items ≡ self.old.retired.items }
        ensures refused { IfErr result (λ e. (e ≡ Refusal.Worn) × (self.old.made ≡ 4294967295)) }
        ensures err { OnErr result (self.new.made ≡ self.old.made) }
    {
        if self.made == u32::MAX {
            return Err(Refusal::Worn);
        }
        let Actors {
            seed,
            made,
            of_directory,
            of_ledger,
            ..
        } = self;
        let number = *made;
        let of_directory = of_directory.split_off(1, 0);
        let of_ledger = of_ledger.split_off(1, 0);
        *made += 1;
        Ok(Session {
            journal: Journal::new(alloc, number),
            of_directory,
            of_ledger,
            sampler: Sampler::new(seed.wrapping_add(number as u64)),
            stay: Stay::nowhere(),
            near: 0,
        })
    }

    /// Keeps a session that is given back. Refused as NoMemory, with the session.
    pub(crate) fn keep(&mut self, session: Session<D, T>) -> Result<(), (Refusal, Session<D, T>)>
        ensures kept { OnOk result (self.new.retired.items ≡ self.old.retired.items ++ session ∷ []) }
        ensures made { self.new.made ≡ self.old.made }
        ensures seed { self.new.seed ≡ self.old.seed }
        ensures refused { IfErr result (λ r. (r.0 ≡ Refusal.NoMemory) × (r.1 ≡ session)) }
        ensures err { OnErr result (self.new.retired.items ≡ self.old.retired.items) }
    {
        match self.retired.push(session) {
            Ok(()) => Ok(()),
            Err(failed) => Err((Refusal::NoMemory, failed.value)),
        }
    }
}
