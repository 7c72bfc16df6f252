//! What an actor keeps of a step of the ledger alone.

use sq_log::record::PartRecord;
use sq_model::ledger::{LedgerCall, LedgerReply};

/// An actor's record of one step of the ledger alone.
pub type LedgerRecord = PartRecord<LedgerCall, LedgerReply>;
