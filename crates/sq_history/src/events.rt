//! Whether a home's history has the event of a record.
ghost use Rattle.std.specs.Prelude.{◌≡◌, ◌↔◌, true};
ghost use Rattle.sq_history.specs.Events.{HasHomeEvent};
ghost use Rattle.sq_history.specs.HistoryValue.{all_events};

use crate::record::LentHomeRecord;
use crate::recorded::Home;
use sq_log::events::{event_of, is_told};

/// Whether a home's history has the event of this actor's record.
pub fn has_home_event(home: &Home, actor: u32, kept: &LentHomeRecord<'_>) -> bool
    ensures { result ≡ true ↔ HasHomeEvent (all_events home.now) actor kept.now }
{
    let step = kept.step();
    let Some(event) = event_of(home.events(), actor, step) else {
        return false;
    };
    is_told(event, step)
}
