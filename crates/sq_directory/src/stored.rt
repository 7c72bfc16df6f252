//! Queues by their names, in order of creation.
ghost use Rattle.std.specs.Prelude.{◌≡◌, ◌+◌, ◌<◌, ◌≤◌, ◌++◌, ◌∷◌, [], None, Some, IfOk, OnErr, length, option_map, slice_get};
ghost use Rattle.sq_model.specs.declared.directory.Queue.{Queue as QueueValue};
ghost use Rattle.std.specs.List.{list_any};
ghost use Rattle.sq_model.specs.Directories.{queue_of, is_source_of, changed_queue, queues_without, last_version};
ghost use Rattle.sq_directory.specs.Stored.{given_settings, with_given, with_purge};

use indexmap::IndexMap;
use sq_base::ids::QueueNo;
use sq_base::name::QueueName;
use sq_base::settings::{Redrive, Settings};
use sq_model::directory::{Attributes, Queue};
use std::alloc::{AllocError, Global};
use std::marker::Model;

/// The queues that are there, found by their names in constant time, and memory for more of them.
#[derive(Drop)]
pub struct NamedQueues {
    queues: IndexMap<QueueName, Queue>,
}

impl Model for NamedQueues {
    ghost use Rattle.indexmap.specs.IndexMap.{values, spare};
    ghost use Rattle.sq_directory.specs.Stored.{StoredQueues, AreNamed};

    ghost Value = { StoredQueues };

    ghost view = { λ n. record { queues = values n.queues; spare = spare n.queues } };

    ghost invariant = { λ n. AreNamed n.queues.entries };
}

impl NamedQueues {
    /// No queue, and memory for so many; none is got for no queue.
    pub fn new(alloc: Global, most: u32) -> Result<NamedQueues, AllocError>
        ensures empty { IfOk result (λ named. named.queues ≡ []) }
        ensures spare { IfOk result (λ named. most ≤ named.spare) }
        ensures refused { OnErr result (0 < most) }
    {
        let queues = IndexMap::with_capacity(alloc, most as usize)?;
        Ok(NamedQueues { queues })
    }

    /// The queue of a name.
    pub fn get(&self, name: &QueueName) -> Option<&Queue>
        ensures { option_map (λ queue. queue.now) result ≡ queue_of name.now self.now.queues }
    {
        self.queues.get(name)
    }

    /// The queue of a name: it is looked for at this index first, which is that of the last one that was found.
    pub fn get_near(&self, near: &mut usize, name: &QueueName) -> Option<&Queue>
        ensures { option_map (λ queue. queue.now) result ≡ queue_of name.now self.now.queues }
    {
        if let Some((key, queue)) = self.queues.get_index(*near) {
            if key == name {
                return Some(queue);
            }
        }
        let (index, _, queue) = self.queues.get_full(name)?;
        *near = index;
        Some(queue)
    }

    /// How many queues are there.
    pub fn len(&self) -> usize
        ensures { result ≡ length self.now.queues }
    {
        self.queues.len()
    }

    /// The queue of this index, in order of creation.
    pub fn at(&self, index: usize) -> Option<&Queue>
        ensures { option_map (λ queue. queue.now) result ≡ slice_get self.now.queues index }
    {
        let (_, queue) = self.queues.get_index(index)?;
        Some(queue)
    }

    /// Whether the dead letters of a queue go to the one of this number.
    pub fn has_source(&self, number: QueueNo) -> bool
        ensures { result ≡ list_any (is_source_of number) self.now.queues }
    {
        self.queues
            .values()
            .any(|queue| is_source_of(number, queue))
    }

    /// Puts a queue last, of whose name none is there.
    pub fn push(&mut self, queue: Queue)
        requires other { queue_of queue.name self.old.queues ≡ None }
        requires spare { 0 < self.old.spare }
        ensures queues { self.new.queues ≡ self.old.queues ++ queue ∷ [] }
        ensures spare { self.old.spare ≤ self.new.spare + 1 }
    {
        let _ = self.queues.insert(queue.name, queue);
    }

    /// Takes the queue of a name out, if it is there.
    pub fn remove(&mut self, name: &QueueName)
        ensures queues { self.new.queues ≡ queues_without name.now self.old.queues }
        ensures shorter { (queue : QueueValue) → queue_of name.now self.old.queues ≡ Some queue → length self.new.queues + 1 ≡ length self.old.queues }
        ensures spare { self.old.spare ≤ self.new.spare }
    {
        // That names differ is known to the prover once the map is read.
        let _ = self.queues.len();
        let _ = self.queues.shift_remove(name);
    }

    /// Gives the queue of a name the attributes that are given, with the redrive policy for its homes where it is given, and
    /// the next version.
    pub fn give(&mut self, name: &QueueName, given: Attributes, redrive: Option<Option<Redrive>>)
        requires { (queue : QueueValue) → queue_of name.now self.old.queues ≡ Some queue → queue.version < last_version }
        ensures queues { self.new.queues ≡ changed_queue name.now (with_given given redrive) self.old.queues }
        ensures spare { self.new.spare ≡ self.old.spare }
    {
        if let Some(queue) = self.queues.get_mut(name) {
            give(queue, given, redrive);
        }
    }

    /// The queue of a name was purged at this moment, in ms.
    pub fn set_purge(&mut self, name: &QueueName, moment: u64)
        ensures queues { self.new.queues ≡ changed_queue name.now (with_purge moment) self.old.queues }
        ensures spare { self.new.spare ≡ self.old.spare }
    {
        if let Some(queue) = self.queues.get_mut(name) {
            queue.last_purge = Some(moment);
        }
    }
}

/// Whether the dead letters of a queue go to the one of this number.
pub fn is_source_of(number: QueueNo, queue: &Queue) -> bool
    ensures { result ≡ is_source_of number queue.now }
{
    match queue.settings.redrive {
        Some(redrive) => redrive.target == number,
        None => false,
    }
}

fn give(queue: &mut Queue, given: Attributes, redrive: Option<Option<Redrive>>)
    requires { queue.old.version < last_version }
    ensures { queue.new ≡ with_given given redrive queue.old }
{
    queue.settings = given_settings(&queue.settings, &given, &redrive);
    queue.redrive = given.redrive.unwrap_or(queue.redrive);
    let allow = queue.allow.take();
    queue.allow = given.allow.unwrap_or(allow);
    queue.version += 1;
}

/// The settings of a queue's homes with the attributes that are given, and this redrive policy where it is given.
pub fn given_settings(
    old: &Settings,
    given: &Attributes,
    redrive: &Option<Option<Redrive>>,
) -> Settings
    ensures { result ≡ given_settings given.now redrive.now old.now }
{
    Settings {
        delay: given.delay.unwrap_or(old.delay),
        retention: given.retention.unwrap_or(old.retention),
        wait_time: given.wait_time.unwrap_or(old.wait_time),
        timeout: given.timeout.unwrap_or(old.timeout),
        redrive: redrive.unwrap_or(old.redrive),
    }
}
