//! The directory: the queues of a service, and all that was done to them.
ghost use Rattle.std.specs.Prelude.{◌≡◌, ◌<◌, [], length, IfOk, IfErr, IfSome, OnErr};
ghost use Rattle.sq_base.specs.Stamps.{start};
ghost use Rattle.sq_model.specs.Directories.{number_named, all_named, can_redrive, opening_directory};
ghost use Rattle.sq_policy.specs.Reading.{seen_as};
ghost use Rattle.sq_directory.specs.MoveQueues.{as_ends};
ghost use Rattle.sq_directory.specs.Makers.{IsMadeBy, IsAnsweredByName};

use crate::copies::copy_call;
use crate::prepared::ThreeReplies;
use crate::queues::Queues;
use crate::record::DirectoryRecord;
use sq_base::ids::QueueNo;
use sq_base::name::QueueName;
use sq_base::refusal::Refusal;
use sq_base::stamp::Stamp;
use sq_log::blocks::Blocks;
use sq_log::log::Log;
use sq_model::directory::{DirectoryCall, DirectoryReply};
use sq_model::event::{Actor, Event};
use sq_model::listed::Listed;
use sq_model::place::Component;
use sq_model::task::NamedQueue;
use std::alloc::{AllocError, Global};
use std::marker::Model;

/// The queues with their history: they are always the replay of its events. Clock readings are in ms.
#[derive(Drop)]
pub struct Directory {
    queues: Queues,
    log: Log<DirectoryCall, DirectoryReply>,
}

impl Model for Directory {
    ghost use Rattle.sq_directory.specs.DirectoryHistory.{DirectoryHistory};
    ghost use Rattle.sq_directory.specs.DirectoryHistories.{IsDirectoryKept};

    ghost Value = { DirectoryHistory };

    ghost view = { λ d. record { directory = d.queues; last = d.log.last; events = d.log.events; spare = d.log.spare } };

    ghost invariant = { λ d. IsDirectoryKept (record { directory = d.queues; last = d.log.last; events = d.log.events; spare = d.log.spare }) };
}

impl Directory {
    ghost use Rattle.sq_directory.specs.DirectoryHistories.{DirectoryRecords, IsDirectoryRefused, IsDirectoryKept};

    /// No queue, no event, and memory for so many queues. Refused where that is not found; none is got for no queue.
    pub fn new(alloc: Global, most: u32) -> Result<Directory, AllocError>
        ensures opening { IfOk result (λ directory. directory ≡ record { directory = opening_directory most; last = start; events = []; spare = 0 }) }
        ensures refused { OnErr result (0 < most) }
    {
        Ok(Directory {
            queues: Queues::new(alloc, most)?,
            log: Log::new(alloc),
        })
    }

    /// All events, the first first. The queues are always the replay of them.
    pub fn events(&self) -> &Blocks<Event<DirectoryCall, DirectoryReply>>
        ensures items { result.now.items ≡ self.now.events }
        ensures kept { IsDirectoryKept self.now }
    {
        self.log.events()
    }

    /// The stamp of the last event.
    pub fn last(&self) -> Stamp
        ensures { result ≡ self.now.last }
    {
        self.log.last()
    }

    /// The number of the queue of this name. It is looked for first at this index in the order of creation, which is set to its own:
    /// so one that is looked up again is found without its hash.
    pub fn find(&self, near: &mut usize, name: &QueueName) -> Option<QueueNo>
        ensures number { result ≡ number_named name.now self.now.directory.queues }
        // It was made by its name.
        ensures made { IfSome result (IsMadeBy self.now.events self.now.last name.now) }
    {
        self.queues.find(near, name)
    }

    /// The names and numbers of all queues, in order of creation. Refused as NoMemory, where there are any.
    pub fn names(&self, alloc: Global) -> Result<Listed<NamedQueue>, Refusal>
        ensures names { IfOk result (λ names. names ≡ all_named self.now.directory) }
        ensures refused { IfErr result (λ e. (e ≡ Refusal.NoMemory) × (0 < length self.now.directory.queues)) }
    {
        self.queues.names(alloc)
    }

    /// The queue whose messages a task may move, and the one that it moves them to, where that is given. Refused as
    /// ResourceNotFoundException, where one of them is not there, and then as UnsupportedOperation, where no queue's
    /// dead letters go to the source. It takes no memory.
    pub fn can_redrive(
        &self,
        source: &QueueName,
        destination: &Option<QueueName>,
    ) -> Result<(NamedQueue, Option<NamedQueue>), Refusal>
        ensures { seen_as as_ends result ≡ can_redrive source.now destination.now self.now.directory }
    {
        self.queues.can_redrive(source, destination)
    }

    /// Does what one call asks, at its stamp. What it answers is what its record says.
    /// Refused as NoMemory (the history has no spare memory, the call gives a list of queues or is answered with one, or with a
    /// policy that has one), ClockRange, Worn, and then as the call: QueueDoesNotExist; of Create QueueNameExists,
    /// QueueDeletedRecently, InvalidAttributeValue, TableFull; of Set Worn, InvalidAttributeValue; of PurgeTicket
    /// PurgeQueueInProgress.
    pub fn step(
        &mut self,
        alloc: Global,
        by: &Actor,
        now: u64,
        call: &DirectoryCall,
    ) -> Result<(DirectoryReply, DirectoryRecord), Refusal>
        ensures recorded { IfOk result (λ r. DirectoryRecords self.old self.new by.now now call.now r.1) }
        ensures answered { IfOk result (λ r. r.1.reply ≡ r.0) }
        // The queue that is answered was made by the name that was asked.
        ensures made { IfOk result (λ r. IsAnsweredByName self.new.events self.new.last call.now r.0) }
        ensures refusal { IfErr result (IsDirectoryRefused self.old by.now now call.now) }
        ensures err { OnErr result (self.new ≡ self.old) }
    {
        self.log.reserve()?;
        let in_event = copy_call(alloc, call)?;
        let in_record = copy_call(alloc, call)?;
        let prepared = self.queues.prepare(alloc, call)?;
        // What follows takes no memory.
        let stamp = self.log.next_stamp(by, now)?;
        let ThreeReplies {
            kept,
            for_record,
            answered,
        } = self.queues.answer(stamp.moment, call, prepared)?;
        let part = Component::Directory;
        let step = self
            .log
            .add(stamp, by, part, (in_event, kept), (in_record, for_record));
        Ok((answered, step))
    }
}
