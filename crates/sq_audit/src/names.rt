//! Who made a queue by the name that a record bears.
ghost use Rattle.std.specs.Prelude.{◌≡◌, ◌↔◌, ◌<◌, true, Some};
ghost use Rattle.sq_base.specs.Stamps.{Below};
ghost use Rattle.sq_model.specs.Matches.{IsNamed, IsCreate};

use sq_base::name::QueueName;
use sq_directory::directory::Directory;
use sq_history::record::LentHomeRecord;
use sq_model::directory::{DirectoryCall, DirectoryReply};
use sq_model::event::Event;

/// Whether the name that a record bears, if any, was its queue's before the step.
pub fn has_name(directory: &Directory, creations: &[usize], kept: &LentHomeRecord<'_>) -> bool
    ensures { result ≡ true ↔ IsNamed directory.now.events kept.now kept.now.name }
{
    match kept.name() {
        Some(name) => is_named(directory, creations, kept, name),
        None => true,
    }
}

// Whether a queue of this number was made by this name before the step of a record.
fn is_named(
    directory: &Directory,
    creations: &[usize],
    kept: &LentHomeRecord<'_>,
    name: &QueueName,
) -> bool
    ensures { result ≡ true ↔ IsNamed directory.now.events kept.now (Some name.now) }
{
    // The first event of a queue's number has its name wherever nothing is wrong: all events are walked for a fault alone.
    is_named_at_first(directory, creations, kept, name) || is_named_by_any(directory, kept, name)
}

// Whether the first creation of a record's queue made it by this name, before the step of the record.
fn is_named_at_first(
    directory: &Directory,
    creations: &[usize],
    kept: &LentHomeRecord<'_>,
    name: &QueueName,
) -> bool
    ensures { result ≡ true → IsNamed directory.now.events kept.now (Some name.now) }
{
    let number = kept.home().queue.get() - 1;
    if number >= creations.len() as u64 {
        return false;
    }
    let first = creations[number as usize];
    let events = directory.events();
    if first >= events.len() {
        return false;
    }
    is_named_by(&events[first], name, kept)
}

fn is_named_by_any(directory: &Directory, kept: &LentHomeRecord<'_>, name: &QueueName) -> bool
    ensures { result ≡ true ↔ IsNamed directory.now.events kept.now (Some name.now) }
{
    let events = directory.events();
    for index in 0..events.len() {
        if is_named_by(&events[index], name, kept) {
            return true;
        }
    }
    false
}

// Whether an event made the queue of a record by this name, or found it, before the step of the record.
fn is_named_by(
    event: &Event<DirectoryCall, DirectoryReply>,
    name: &QueueName,
    kept: &LentHomeRecord<'_>,
) -> bool
    ensures { result ≡ true ↔ (Below event.now.stamp kept.now.stamp × IsCreate event.now name.now kept.now.home.queue) }
{
    event.stamp.is_below(kept.step().stamp) && is_create(event, name, kept)
}

// Whether an event made the queue of a record by this name, or found it.
fn is_create(
    event: &Event<DirectoryCall, DirectoryReply>,
    name: &QueueName,
    kept: &LentHomeRecord<'_>,
) -> bool
    ensures { result ≡ true ↔ IsCreate event.now name.now kept.now.home.queue }
{
    match (&event.call, &event.reply) {
        (DirectoryCall::Create(made, _), DirectoryReply::Made(queue)) => {
            made.as_bytes() == name.as_bytes() && queue.queue == kept.home().queue
        }
        _ => false,
    }
}
