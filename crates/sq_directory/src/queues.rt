//! The queues of a service, and what each step does to them.
ghost use Rattle.std.specs.Prelude.{◌≡◌, ◌⊎◌, ◌<◌, ℕ, true, List, None, Some, length, IfOk, IfErr, OnErr};
ghost use Rattle.sq_model.specs.Directories.{queue_of, number_named, all_named, can_redrive, move_from, deleted_recently, is_recent, purged_recently, opening_directory, settings_at, attributes_at, last_version, Directory as DirectoryValue, IsThere, DirectoryStep, directory_refusal};
ghost use Rattle.sq_policy.specs.Reading.{seen_as};
ghost use Rattle.sq_directory.specs.MoveQueues.{as_ends};
ghost use Rattle.sq_directory.specs.Stored.{with_given};
ghost use Rattle.sq_model.specs.declared.directory.DirectoryCall.TheVariants as asks;
ghost use Rattle.sq_model.specs.declared.directory.Queue.{Queue as QueueValue};
ghost use Rattle.sq_model.specs.Policies.{lists_queues};
ghost use Rattle.sq_directory.specs.DirectoryHistories.{AnswersList};
ghost use Rattle.sq_directory.specs.inside.Prepared.{IsChange, IsPreparedFor, KeepsList, short_reply};

use crate::attributes::{agrees, given_redrive, may_have, new_queue};
use crate::copies::copy_allow;
use crate::listing::{Listing, all_named, as_named, listed_names};
use crate::prepared::{Prepared, ShortReply, ThreeReplies};
use crate::stored::{NamedQueues, given_settings};
use sq_base::ids::QueueNo;
use sq_base::name::QueueName;
use sq_base::refusal::Refusal;
use sq_base::settings::Redrive;
use sq_model::directory::{
    Attributes, DeletedName, DirectoryCall, DirectoryReply, NamePrefix, Queue, QueueAttributes,
    QueueSettings,
};
use sq_model::listed::Listed;
use sq_model::task::NamedQueue;
use std::alloc::{AllocError, Global};
use std::marker::Model;

/// The queues in order of creation, and the names that were deleted. Moments are in ms.
#[derive(Drop)]
pub struct Queues {
    queues: NamedQueues,
    deleted: Vec<DeletedName>,
    made: u32,
    most: u32,
}

impl Model for Queues {
    ghost use Rattle.std.specs.Prelude.{◌≡◌, ◌≤◌, ◌+◌, length, vec_capacity};
    ghost use Rattle.sq_model.specs.Directories.{Directory};

    ghost Value = { Directory };

    ghost view = { λ q. record { queues = q.queues.queues; deleted = q.deleted.items; made = q.made; most = q.most } };

    ghost invariant = { λ q. record {
      counted : length q.queues.queues + length q.deleted.items ≡ q.made;
      within : q.made ≤ q.most;
      spare : q.most ≤ q.made + q.queues.spare;
      spare_deleted : q.most ≤ vec_capacity q.deleted;
    } };
}

impl Queues {
    /// No queue, and memory for so many. Refused where that is not found; none is got for no queue.
    pub fn new(alloc: Global, most: u32) -> Result<Queues, AllocError>
        ensures opening { IfOk result (λ queues. queues ≡ opening_directory most) }
        ensures refused { OnErr result (0 < most) }
    {
        let queues = NamedQueues::new(alloc, most)?;
        let mut deleted = Vec::new(alloc);
        deleted.try_reserve(most as usize)?;
        Ok(Queues {
            queues,
            deleted,
            made: 0,
            most,
        })
    }

    /// The number of the queue of this name: it is looked for at this index first.
    pub fn find(&self, near: &mut usize, name: &QueueName) -> Option<QueueNo>
        ensures { result ≡ number_named name.now self.now.queues }
    {
        let queue = self.queues.get_near(near, name)?;
        Some(queue.number)
    }

    /// The names and numbers of all queues, in order of creation. Refused as NoMemory, where there are any.
    pub fn names(&self, alloc: Global) -> Result<Listed<NamedQueue>, Refusal>
        ensures names { IfOk result (λ names. names ≡ all_named self.now) }
        ensures refused { IfErr result (λ e. (e ≡ Refusal.NoMemory) × (0 < length self.now.queues)) }
    {
        all_named(alloc, &self.queues)
    }

    /// The queue whose messages a task may move, and the one that it moves them to, where that is given. Refused as
    /// ResourceNotFoundException, where one of them is not there, and then as UnsupportedOperation, where no queue's
    /// dead letters go to the source.
    pub fn can_redrive(
        &self,
        source: &QueueName,
        destination: &Option<QueueName>,
    ) -> Result<(NamedQueue, Option<NamedQueue>), Refusal>
        ensures { seen_as as_ends result ≡ can_redrive source.now destination.now self.now }
    {
        let Some(source) = self.queues.get(source) else {
            return Err(Refusal::ResourceNotFoundException);
        };
        match destination {
            None => self.move_from(source, None),
            Some(name) => match self.queues.get(name) {
                Some(destination) => self.move_from(source, Some(as_named(destination))),
                None => Err(Refusal::ResourceNotFoundException),
            },
        }
    }

    // The ends of a move of messages out of a queue, where that one takes dead letters.
    fn move_from(
        &self,
        source: &Queue,
        destination: Option<NamedQueue>,
    ) -> Result<(NamedQueue, Option<NamedQueue>), Refusal>
        ensures { seen_as as_ends result ≡ move_from self.now source.now destination }
    {
        if self.queues.has_source(source.number) {
            Ok((as_named(source), destination))
        } else {
            Err(Refusal::UnsupportedOperation)
        }
    }

    /// What is known of a call before its moment, with the memory for all that is kept or answered. Refused as NoMemory, where
    /// a list of queues is kept or answered, or a policy is shown that has one.
    pub fn prepare(&self, alloc: Global, call: &DirectoryCall) -> Result<Prepared, Refusal>
        ensures prepared { IfOk result (IsPreparedFor self.now call.now) }
        ensures refused { IfErr result (λ e. (e ≡ Refusal.NoMemory) × (KeepsList self.now call.now ⊎ AnswersList self.now call.now)) }
    {
        match call {
            DirectoryCall::Create(name, given) => match self.queues.get(name) {
                Some(queue) => Ok(found(queue, given)),
                None => Ok(Prepared::Changes(Some(given.copy(alloc)?))),
            },
            DirectoryCall::Set(_, given) => Ok(Prepared::Changes(Some(given.copy(alloc)?))),
            DirectoryCall::Remove(_) | DirectoryCall::PurgeTicket(_) => Ok(Prepared::Changes(None)),
            DirectoryCall::Url(name) => Ok(self.url(name)),
            DirectoryCall::List(prefix) => self.list(alloc, prefix),
            DirectoryCall::Sources(name) => self.sources(alloc, name),
            DirectoryCall::Read(name) => self.read(alloc, name),
        }
    }

    /// What a prepared call is answered at a moment in ms, and what it does. It takes no memory, and is refused as the call.
    pub fn answer(
        &mut self,
        moment: u64,
        call: &DirectoryCall,
        prepared: Prepared,
    ) -> Result<ThreeReplies, Refusal>
        requires { IsPreparedFor self.old call.now prepared }
        ensures step { IfOk result (λ reply. DirectoryStep self.old moment call.now reply self.new) }
        ensures refusal { IfErr result (λ e. directory_refusal self.old moment call.now ≡ Some e) }
        ensures err { OnErr result (self.new ≡ self.old) }
    {
        match prepared {
            Prepared::Answered(replies) => Ok(replies),
            Prepared::Refused(refusal) => Err(refusal),
            Prepared::Changes(kept) => Ok(ThreeReplies::of(self.change(moment, call, kept)?)),
        }
    }

    // What a call is answered that may change the queues, with the attributes that one of them is to have.
    fn change(
        &mut self,
        moment: u64,
        call: &DirectoryCall,
        kept: Option<Attributes>,
    ) -> Result<ShortReply, Refusal>
        requires { IsChange self.old call.now kept }
        ensures step { IfOk result (λ told. DirectoryStep self.old moment call.now (short_reply told) self.new) }
        ensures refusal { IfErr result (λ e. directory_refusal self.old moment call.now ≡ Some e) }
        ensures err { OnErr result (self.new ≡ self.old) }
    {
        match (call, kept) {
            (DirectoryCall::Create(name, _), Some(given)) => self.make(moment, name, given),
            (DirectoryCall::Set(name, _), Some(given)) => self.set(name, given),
            (DirectoryCall::Remove(name), _) => self.remove(moment, name),
            (DirectoryCall::PurgeTicket(name), _) => self.purge_ticket(moment, name),
            _ => unreachable!(),
        }
    }
}

// What each call does.
#[tactic(auto, unfolding(sq_model::specs::Directories::DirectoryStep, sq_model::specs::Directories::directory_refusal))]
impl Queues {
    // Puts a new queue of this name last, where there is none, within the memory that `new` got.
    fn make(
        &mut self,
        moment: u64,
        name: &QueueName,
        given: Attributes,
    ) -> Result<ShortReply, Refusal>
        requires { queue_of name.now self.old.queues ≡ None }
        ensures step { IfOk result (λ told. DirectoryStep self.old moment (asks.Create name.now given) (short_reply told) self.new) }
        ensures refusal { IfErr result (λ e. directory_refusal self.old moment (asks.Create name.now given) ≡ Some e) }
        ensures err { OnErr result (self.new ≡ self.old) }
    {
        if self.was_deleted_recently(moment, name) {
            return Err(Refusal::QueueDeletedRecently);
        }
        if !may_have(&self.queues, name, &given.redrive) {
            return Err(Refusal::InvalidAttributeValue);
        }
        if self.made >= self.most {
            return Err(Refusal::TableFull);
        }
        let queue = new_queue(&self.queues, QueueNo::following(self.made), name, given);
        let made = settings_at(&queue);
        self.queues.push(queue);
        self.made += 1;
        Ok(ShortReply::Made(made))
    }

    // Whether a queue of this name was deleted less than 60,000 ms before.
    fn was_deleted_recently(&self, moment: u64, name: &QueueName) -> bool
        ensures { result ≡ deleted_recently moment name.now self.now.deleted }
    {
        self.deleted.iter().any(|gone| gone.name.as_bytes() == name.as_bytes()
            && is_recent(moment, gone.moment))
    }

    // Changes the attributes that are given.
    fn set(&mut self, name: &QueueName, given: Attributes) -> Result<ShortReply, Refusal>
        ensures step { (m : ℕ) → IfOk result (λ told. DirectoryStep self.old m (asks.Set name.now given) (short_reply told) self.new) }
        ensures refusal { (m : ℕ) → IfErr result (λ e. directory_refusal self.old m (asks.Set name.now given) ≡ Some e) }
        ensures err { OnErr result (self.new ≡ self.old) }
    {
        let Some(queue) = self.queues.get(name) else {
            return Err(Refusal::QueueDoesNotExist);
        };
        if queue.version >= u64::MAX {
            return Err(Refusal::Worn);
        }
        if !may_have(&self.queues, name, &given.redrive) {
            return Err(Refusal::InvalidAttributeValue);
        }
        let redrive = given_redrive(&self.queues, &given.redrive);
        let changed = settings_with(queue, &given, &redrive);
        self.queues.give(name, given, redrive);
        Ok(ShortReply::Changed(changed))
    }

    // Takes a queue out; its name rests from this moment on.
    fn remove(&mut self, moment: u64, name: &QueueName) -> Result<ShortReply, Refusal>
        ensures step { IfOk result (λ told. DirectoryStep self.old moment (asks.Remove name.now) (short_reply told) self.new) }
        ensures refusal { IfErr result (λ e. directory_refusal self.old moment (asks.Remove name.now) ≡ Some e) }
        ensures err { OnErr result (self.new ≡ self.old) }
    {
        let number = self.number_of(name)?;
        self.queues.remove(name);
        let gone = DeletedName {
            name: *name,
            moment,
        };
        let _ = self.deleted.push(gone);
        Ok(ShortReply::Removed(number))
    }

    // Lets a queue be purged, where the last purge was 60,000 ms before or earlier.
    fn purge_ticket(&mut self, moment: u64, name: &QueueName) -> Result<ShortReply, Refusal>
        ensures step { IfOk result (λ told. DirectoryStep self.old moment (asks.PurgeTicket name.now) (short_reply told) self.new) }
        ensures refusal { IfErr result (λ e. directory_refusal self.old moment (asks.PurgeTicket name.now) ≡ Some e) }
        ensures err { OnErr result (self.new ≡ self.old) }
    {
        let Some(queue) = self.queues.get(name) else {
            return Err(Refusal::QueueDoesNotExist);
        };
        if was_purged_recently(moment, queue.last_purge) {
            return Err(Refusal::PurgeQueueInProgress);
        }
        let number = queue.number;
        self.queues.set_purge(name, moment);
        Ok(ShortReply::Ticket(number))
    }

    // The number of a queue that is there.
    fn number_of(&self, name: &QueueName) -> Result<QueueNo, Refusal>
        ensures found { IfOk result (λ number. (queue : QueueValue) × IsThere self.now name.now queue × (number ≡ queue.number)) }
        ensures refused { IfErr result (λ e. (e ≡ Refusal.QueueDoesNotExist) × (queue_of name.now self.now.queues ≡ None)) }
    {
        match self.queues.get(name) {
            Some(queue) => Ok(queue.number),
            None => Err(Refusal::QueueDoesNotExist),
        }
    }

    // Tells that a queue is there.
    fn url(&self, name: &QueueName) -> Prepared
        ensures { IsPreparedFor self.now (asks.Url name.now) result }
    {
        match self.number_of(name) {
            Ok(number) => Prepared::Answered(ThreeReplies::of(ShortReply::Found(number))),
            Err(refusal) => Prepared::Refused(refusal),
        }
    }

    // Lists the names that begin so.
    #[tactic(auto, unfolding(sq_model::specs::Directories::DirectoryStep), using(crate::proofs::ListingLaws::names_listed))]
    fn list(&self, alloc: Global, prefix: &NamePrefix) -> Result<Prepared, Refusal>
        ensures prepared { IfOk result (IsPreparedFor self.now (asks.List prefix.now)) }
        ensures refused { IfErr result (λ e. (e ≡ Refusal.NoMemory) × AnswersList self.now (asks.List prefix.now)) }
    {
        let names = listed_names(alloc, &self.queues, &Listing::Begins(*prefix))?;
        let replies = ThreeReplies::copied(alloc, DirectoryReply::Listed(names))?;
        Ok(Prepared::Answered(replies))
    }

    // Lists the queues that have this one for their dead letters.
    fn sources(&self, alloc: Global, name: &QueueName) -> Result<Prepared, Refusal>
        ensures prepared { IfOk result (IsPreparedFor self.now (asks.Sources name.now)) }
        ensures refused { IfErr result (λ e. (e ≡ Refusal.NoMemory) × AnswersList self.now (asks.Sources name.now)) }
    {
        let Some(target) = self.queues.get(name) else {
            return Ok(Prepared::Refused(Refusal::QueueDoesNotExist));
        };
        let names = listed_names(alloc, &self.queues, &Listing::SourcesOf(target.number))?;
        let replies = ThreeReplies::copied(alloc, DirectoryReply::Sources(names))?;
        Ok(Prepared::Answered(replies))
    }

    // The attributes of a queue.
    fn read(&self, alloc: Global, name: &QueueName) -> Result<Prepared, Refusal>
        ensures prepared { IfOk result (IsPreparedFor self.now (asks.Read name.now)) }
        ensures refused { IfErr result (λ e. (e ≡ Refusal.NoMemory) × AnswersList self.now (asks.Read name.now)) }
    {
        let Some(shown) = self.queues.get(name) else {
            return Ok(Prepared::Refused(Refusal::QueueDoesNotExist));
        };
        let attributes = attributes_at(alloc, shown)?;
        let replies = ThreeReplies::copied(alloc, DirectoryReply::Read(attributes))?;
        Ok(Prepared::Answered(replies))
    }
}

// What a Create of a queue is told that is there, or why it is refused.
#[tactic(auto, unfolding(sq_model::specs::Directories::DirectoryStep, sq_model::specs::Directories::directory_refusal))]
fn found(queue: &Queue, given: &Attributes) -> Prepared
    ensures { (d : DirectoryValue) (name : List ℕ) → IsThere d name queue.now → IsPreparedFor d (asks.Create name given.now) result }
{
    if agrees(given, queue) {
        Prepared::Answered(ThreeReplies::of(ShortReply::Made(settings_at(queue))))
    } else {
        Prepared::Refused(Refusal::QueueNameExists)
    }
}

// The attributes of a queue, as they are shown. Refused as NoMemory, where its policy lists queues.
fn attributes_at(alloc: Global, queue: &Queue) -> Result<QueueAttributes, Refusal>
    ensures attributes { IfOk result (λ attributes. attributes ≡ attributes_at queue.now) }
    ensures refused { IfErr result (λ e. (e ≡ Refusal.NoMemory) × (lists_queues queue.now.allow ≡ true)) }
{
    Ok(QueueAttributes {
        queue: queue.number,
        settings: queue.settings,
        redrive: queue.redrive,
        allow: copy_allow(alloc, &queue.allow)?,
    })
}

fn settings_at(queue: &Queue) -> QueueSettings
    ensures { result ≡ settings_at queue.now }
{
    QueueSettings {
        queue: queue.number,
        settings: queue.settings,
        version: queue.version,
    }
}

// The settings of a queue once it has what is given.
fn settings_with(
    queue: &Queue,
    given: &Attributes,
    redrive: &Option<Option<Redrive>>,
) -> QueueSettings
    requires { queue.now.version < last_version }
    ensures { result ≡ settings_at (with_given given.now redrive.now queue.now) }
{
    QueueSettings {
        queue: queue.number,
        settings: given_settings(&queue.settings, given, redrive),
        version: queue.version + 1,
    }
}

// Whether a moment is less than 60,000 ms after an earlier one.
fn is_recent(moment: u64, before: u64) -> bool
    ensures { result ≡ is_recent moment before }
{
    moment.saturating_sub(before) < 60_000
}

fn was_purged_recently(moment: u64, last_purge: Option<u64>) -> bool
    ensures { result ≡ purged_recently moment last_purge }
{
    match last_purge {
        Some(before) => is_recent(moment, before),
        None => false,
    }
}
