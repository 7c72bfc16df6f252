//! An event of the system.
ghost use Rattle.std.specs.Prelude.{◌≡◌};
ghost use Rattle.sq_model.specs.Systems.{stamp_of};

use sq_base::stamp::Stamp;
use sq_model::calls::HomeCall;
use sq_model::directory::{DirectoryCall, DirectoryReply};
use sq_model::event::Event;
use sq_model::ledger::{LedgerCall, LedgerReply};
use sq_model::replies::HomeReply;

/// An event, and the part that it is of: the directory, the ledger alone, or the home at an index in the list of all
/// homes. What a home shares with the ledger stands once, as the home's.
#[derive(Clone, Copy)]
pub enum Tagged<'a> {
    Directory(&'a Event<DirectoryCall, DirectoryReply>),
    Ledger(&'a Event<LedgerCall, LedgerReply>),
    Home(u32, &'a Event<HomeCall, HomeReply>),
}

impl<'a> Tagged<'a> {
    ghost use Rattle.sq_audit.specs.Tags.{tag_of};

    /// The stamp of the event.
    pub fn stamp(&self) -> Stamp
        ensures { result ≡ stamp_of (tag_of self.now) }
    {
        match self {
            Tagged::Directory(event) => event.stamp,
            Tagged::Ledger(event) => event.stamp,
            Tagged::Home(_, event) => event.stamp,
        }
    }
}
