//! What an actor keeps of its steps.
ghost use Rattle.std.specs.Prelude.{◌≡◌};
ghost use Rattle.sq_model.specs.RecordValues.{place_of_record, record_stamp};
ghost use Rattle.sq_steps.specs.Records.{value_of_record};

use sq_base::stamp::Stamp;
use sq_directory::record::DirectoryRecord;
use sq_history::record::LentHomeRecord;
use sq_ledger::record::LedgerRecord;

/// An actor's record of one step, lent.
#[derive(Drop)]
pub enum Record<'a> {
    Directory(&'a DirectoryRecord),
    /// Of a step of the ledger alone; one that it shares with a home has a record of the home.
    Ledger(&'a LedgerRecord),
    Home(LentHomeRecord<'a>),
}

impl<'a> Record<'a> {
    /// The number of the step among its actor's, from 0 upwards.
    pub fn place(&self) -> u64
        ensures { result ≡ place_of_record (value_of_record self.now) }
    {
        self.place_and_stamp().0
    }

    /// The stamp of its event.
    pub fn stamp(&self) -> Stamp
        ensures { result ≡ record_stamp (value_of_record self.now) }
    {
        self.place_and_stamp().1
    }

    fn place_and_stamp(&self) -> (u64, Stamp)
        ensures place { result.0 ≡ place_of_record (value_of_record self.now) }
        ensures stamp { result.1 ≡ record_stamp (value_of_record self.now) }
    {
        match self {
            Record::Directory(record) => (record.step().place, record.step().stamp),
            Record::Ledger(record) => (record.step().place, record.step().stamp),
            Record::Home(record) => (record.step().place, record.step().stamp),
        }
    }
}
