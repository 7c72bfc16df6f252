//! Whether the directory's history has the event of a record.
ghost use Rattle.std.specs.Prelude.{◌≡◌, ◌↔◌, true};
ghost use Rattle.sq_directory.specs.Events.{HasDirectoryEvent};

use crate::directory::Directory;
use crate::record::DirectoryRecord;
use sq_log::events::{event_of, is_told};

/// Whether the directory's history has the event of this actor's record.
pub fn has_directory_event(directory: &Directory, actor: u32, kept: &DirectoryRecord) -> bool
    ensures { result ≡ true ↔ HasDirectoryEvent directory.now.events actor kept.now }
{
    let step = kept.step();
    let Some(event) = event_of(directory.events(), actor, step) else {
        return false;
    };
    is_told(event, step)
}
