//! A client of a service: an actor, with the records of its steps.
ghost use Rattle.std.specs.Prelude.{◌≡◌, ◌≤◌, ◌<◌, IfOk, IfErr, length};
ghost use Rattle.rand.specs.Sample.{IsSampleOf};
ghost use Rattle.sq_queue.specs.Tallies.{directory_records, ledger_records};

use crate::stay::{Stay, begin_with};
use sq_base::ids::HomeNo;
use sq_base::refusal::Refusal;
use sq_model::replies::HomeReply;
use sq_sample::sampler::{HomeCount, Sampler};
use sq_steps::journal::Journal;
use std::alloc::Global;
use std::marker::Model;
use std::sync::ledger::{Ledger, Share};

/// A session of a service. It is of one thread at a time, and makes its calls one after another. One that is given back
/// neither by `retire` nor by `finish` is missing from the parts that the service leaves.
///
/// Its tallies are how many of its records are of the directory, and how many of the ledger. They are no bytes: each is a share
/// in a count that stands under the lock of the directory, or of the ledger.
#[derive(Drop)]
pub struct Session<D: Ledger, T: Ledger> {
    pub(crate) journal: Journal,
    pub(crate) of_directory: Share<D>,
    pub(crate) of_ledger: Share<T>,
    pub(crate) sampler: Sampler,
    pub(crate) stay: Stay,
    /// The index of the queue that was looked up last.
    pub(crate) near: usize,
}

impl<D: Ledger, T: Ledger> Model for Session<D, T> {
    ghost use Rattle.std.specs.Prelude.{◌≡◌};
    ghost use Rattle.sq_queue.specs.SessionValue.{SessionValue};
    ghost use Rattle.sq_queue.specs.Tallies.{directory_records, ledger_records};

    ghost Value = { SessionValue };

    ghost view = { λ s. record { journal = s.journal; directory_tally = s.of_directory.amount; ledger_tally = s.of_ledger.amount } };

    ghost invariant = { λ s. record {
      one_of_directory : s.of_directory.parts ≡ 1;
      one_of_ledger : s.of_ledger.parts ≡ 1;
      directory_counted : s.of_directory.amount ≡ directory_records s.journal.records;
      ledger_counted : s.of_ledger.amount ≡ ledger_records s.journal.records;
    } };
}

impl<D: Ledger, T: Ledger> Session<D, T> {
    /// The number of its actor; no two sessions of a service have the same.
    pub fn actor(&self) -> u32
        ensures { result ≡ self.now.journal.actor }
    {
        self.journal.actor()
    }

    /// How many records of its steps there are.
    pub fn len(&self) -> usize
        ensures { result ≡ length self.now.journal.records }
    {
        self.journal.len()
    }

    /// Its tallies are how many of its records are of the directory, and of the ledger. It does nothing: its contract is the law.
    pub fn tallies_are_counts(&self)
        ensures directory { self.now.directory_tally ≡ directory_records self.now.journal.records }
        ensures ledger { self.now.ledger_tally ≡ ledger_records self.now.journal.records }
    {
        let _ = &self.journal;
    }

    // One home of a queue: where it stays, or another.
    pub(crate) fn pick(&mut self, homes: HomeCount) -> HomeNo
        ensures below { result < homes }
        ensures unchanged { self.new ≡ self.old }
    {
        match self.stay.next(homes) {
            Some(home) => home,
            None => self.sampler.pick(homes),
        }
    }

    // Distinct homes of a queue, the one where it stays before the others. Refused only where memory is out.
    pub(crate) fn draw(
        &mut self,
        alloc: Global,
        homes: HomeCount,
        count: HomeCount,
    ) -> Result<Vec<HomeNo>, Refusal>
        requires { count ≤ homes }
        ensures some { 1 ≤ count }
        ensures sample { IfOk result (λ drawn. IsSampleOf homes count drawn.items) }
        ensures refused { IfErr result (λ e. e ≡ Refusal.NoMemory) }
        ensures unchanged { self.new ≡ self.old }
    {
        let mut drawn = self.sampler.draw(alloc, homes, count)?;
        if let Some(home) = self.stay.next(homes) {
            begin_with(&mut drawn, home, homes);
        }
        Ok(drawn)
    }

    // Where the next calls go: to a home that took or gave a message, and no more to one that did not, nor to one that another thread
    // was at.
    pub(crate) fn note(&mut self, home: HomeNo, was_taken: bool, told: &Result<HomeReply, Refusal>)
        ensures { self.new ≡ self.old }
    {
        if was_taken {
            self.stay.end(home);
            return;
        }
        match told {
            Ok(HomeReply::Sent(_)) => self.stay.begin(home),
            Ok(HomeReply::Looked(rows)) => {
                if rows.len() > 0 {
                    self.stay.begin(home);
                } else {
                    self.stay.end(home);
                }
            }
            Ok(HomeReply::Over) | Err(_) => self.stay.end(home),
            _ => (),
        }
    }
}
