//! What an actor keeps of a step of the directory.

use sq_log::record::PartRecord;
use sq_model::directory::{DirectoryCall, DirectoryReply};

/// An actor's record of one step of the directory.
pub type DirectoryRecord = PartRecord<DirectoryCall, DirectoryReply>;
