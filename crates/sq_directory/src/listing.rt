//! The names of queues, in order of creation.
ghost use Rattle.std.specs.Prelude.{◌≡◌, ◌<◌, IfOk, IfErr, length, map};
ghost use Rattle.sq_model.specs.Directories.{as_named, begins};
ghost use Rattle.sq_directory.specs.Listings.{is_listed, listed_names};

use crate::stored::{NamedQueues, is_source_of};
use sq_base::ids::QueueNo;
use sq_base::name::QueueName;
use sq_base::refusal::Refusal;
use sq_model::directory::{NamePrefix, Queue};
use sq_model::listed::Listed;
use sq_model::task::NamedQueue;
use std::alloc::Global;

/// Which queues are listed.
#[derive(Clone, Copy)]
pub enum Listing {
    /// Those whose names begin so.
    Begins(NamePrefix),
    /// Those that have the queue of this number for their dead letters.
    SourcesOf(QueueNo),
}

impl Listing {
    fn has(&self, queue: &Queue) -> bool
        ensures { result ≡ is_listed self.now queue.now }
    {
        match self {
            Listing::Begins(prefix) => begins(prefix, &queue.name),
            Listing::SourcesOf(number) => is_source_of(*number, queue),
        }
    }
}

/// The names of these queues. Refused as NoMemory, where there are any.
pub fn listed_names(
    alloc: Global,
    queues: &NamedQueues,
    listing: &Listing,
) -> Result<Listed<QueueName>, Refusal>
    ensures names { IfOk result (λ names. names ≡ listed_names listing.now queues.now.queues) }
    ensures refused { IfErr result (λ e. (e ≡ Refusal.NoMemory) × (0 < length (listed_names listing.now queues.now.queues))) }
{
    let mut names = Listed::new(alloc);
    for index in 0..queues.len() {
        if let Some(queue) = queues.at(index) {
            if listing.has(queue) {
                names.push(queue.name)?;
            }
        }
    }
    Ok(names)
}

/// The names and numbers of all queues. Refused as NoMemory, where there are any.
pub fn all_named(alloc: Global, queues: &NamedQueues) -> Result<Listed<NamedQueue>, Refusal>
    ensures names { IfOk result (λ names. names ≡ map as_named queues.now.queues) }
    ensures refused { IfErr result (λ e. (e ≡ Refusal.NoMemory) × (0 < length queues.now.queues)) }
{
    let mut names = Listed::new(alloc);
    for index in 0..queues.len() {
        if let Some(queue) = queues.at(index) {
            names.push(as_named(queue))?;
        }
    }
    Ok(names)
}

/// A queue by its number and its name.
pub fn as_named(queue: &Queue) -> NamedQueue
    ensures { result ≡ as_named queue.now }
{
    NamedQueue {
        number: queue.number,
        name: queue.name,
    }
}

fn begins(prefix: &NamePrefix, name: &QueueName) -> bool
    ensures { result ≡ begins prefix.now name.now }
{
    match prefix {
        NamePrefix::Any => true,
        NamePrefix::Text(front) => name.as_bytes().starts_with(front.as_bytes()),
        NamePrefix::NoName => false,
    }
}
