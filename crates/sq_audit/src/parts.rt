//! All that a service leaves.
ghost use Rattle.std.specs.Prelude.{◌≡◌, ◌↔◌, true};
ghost use Rattle.sq_model.specs.RecordValues.{place_of_record};
ghost use Rattle.sq_model.specs.Matches.{IsRecorded};
ghost use Rattle.sq_steps.specs.Journals.{without_record_of};

use crate::homes::Homes;
use sq_directory::directory::Directory;
use sq_ledger::ledger::TransitLedger;
use sq_steps::journals::Journals;

/// The parts of a service with their histories, and what each actor kept of its steps.
#[derive(Drop)]
pub struct Parts {
    pub directory: Directory,
    pub ledger: TransitLedger,
    pub homes: Homes,
    pub records: Journals,
    /// How many actors there ever were. Where as many left their records, none is missing.
    pub made: u64,
}

impl Parts {
    /// Takes out the record of this actor's step of this number, and tells whether it was there: false evidence, for tests.
    pub fn drop_record(&mut self, actor: u32, place: u64) -> bool
        ensures listed { result ≡ true ↔ IsRecorded self.old.records actor (λ n. place_of_record n ≡ place) }
        ensures dropped { self.new ≡ record self.old { records = without_record_of actor place self.old.records } }
    {
        self.records.drop_record(actor, place)
    }
}
