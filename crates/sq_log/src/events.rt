//! Which event of a history a record is of, and which has a stamp.
ghost use Rattle.std.specs.Bool.{Decides};
ghost use Rattle.std.specs.Prelude.{◌≡◌, IfSome, IsSome, Some, option_map};
ghost use Rattle.sq_model.specs.declared.event.Event.{Event as Done};
ghost use Rattle.sq_log.specs.Events.{IsEventOf, IsEventAt, Rises};
ghost use Rattle.sq_log.specs.inside.Events.{IsParted, is_event_before};

use crate::blocks::Blocks;
use sq_base::stamp::Stamp;
use sq_model::event::{Event, StepRecord};

/// The event that this actor's record is of, in the history of its part: the one at its index, where the place and the
/// stamp are the same. It does not compare call and reply.
pub fn event_of<'a, K, R>(
    events: &'a Blocks<Event<K, R>>,
    actor: u32,
    kept: &StepRecord<K, R>,
) -> Option<&'a Event<K, R>>
    ensures found { IfSome result (λ e. IsEventOf events.now.items actor kept.now e.now) }
    ensures none { (e : Done K R) → IsEventOf events.now.items actor kept.now e → IsSome result }
{
    if kept.index >= events.len() as u64 {
        return None;
    }
    let event = &events[kept.index as usize];
    if event.actor == actor && event.place == kept.place && event.stamp == kept.stamp {
        Some(event)
    } else {
        None
    }
}

/// Whether an event was asked and answered what a record tells, by an equality of calls and of replies that finds what is the same.
pub fn is_told<K: PartialEq, R: PartialEq>(event: &Event<K, R>, kept: &StepRecord<K, R>) -> bool
    ensures { ((a b : K) → Decides (K.eq a b) (a ≡ b)) → ((a b : R) → Decides (R.eq a b) (a ≡ b)) → Decides result ((event.now.call ≡ kept.now.call) × (event.now.reply ≡ kept.now.reply)) }
{
    event.call == kept.call && event.reply == kept.reply
}

// Whether an event is before a stamp.
fn is_before<K, R>(event: &Event<K, R>, stamp: Stamp) -> bool
    ensures { result ≡ is_event_before stamp event.now }
{
    event.stamp < stamp
}

// How many events are before a stamp, in a history whose stamps rise, by binary search.
fn count_before<K, R>(events: &Blocks<Event<K, R>>, stamp: Stamp) -> usize
    requires rises { Rises events.now.items }
    ensures { IsParted stamp events.now.items result result }
{
    let mut low = 0;
    let mut high = events.len();
    while low < high {
        let middle = low + (high - low) / 2;
        if is_before(&events[middle], stamp) {
            low = middle + 1;
        } else {
            high = middle;
        }
    }
    low
}

/// The event of a stamp, in a history whose stamps rise, by binary search.
pub fn event_at<'a, K, R>(events: &'a Blocks<Event<K, R>>, stamp: Stamp) -> Option<&'a Event<K, R>>
    requires rises { Rises events.now.items }
    ensures found { IfSome result (λ e. IsEventAt events.now.items stamp e.now) }
    ensures only { (e : Done K R) → IsEventAt events.now.items stamp e → option_map (λ d. d.now) result ≡ Some e }
{
    let event = events.get(count_before(events, stamp))?;
    if event.stamp == stamp {
        Some(event)
    } else {
        None
    }
}
