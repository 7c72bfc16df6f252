//! All queues of a service with all that was done to them, for one thread.
ghost use Rattle.std.specs.Prelude.{◌≡◌, ◌⊎◌, ◌<◌, ◌≤◌, None, Some, length, IfOk, IfErr, IfSome, IfNone, OnOk, OnErr, option_map};
ghost use Rattle.rand.specs.Sample.{IsSampleOf};
ghost use Rattle.sq_model.specs.Directories.{all_named, number_named};
ghost use Rattle.sq_directory.specs.MoveQueues.{as_ends};
ghost use Rattle.sq_directory.specs.Makers.{IsAnsweredByName};
ghost use Rattle.sq_history.specs.Acts.{call_of};
ghost use Rattle.sq_audit.specs.Matched.{AreMatched, ArePaired};
ghost use Rattle.sq_merge.specs.Worlds.{SharedStepped, NothingLeaves, SharedRefused, having_peeked, ItemRead, LedgerStepped, LedgerRefused, IsUnread, NamesUnread, TaskRead, TaskUnread, EndsRead, EndsUnread, HomeStepped, HomeRefused, DirectoryStepped, DirectoryRefused, NameRefused, having_read_directory, having_seen_at, StepDone, StepRefused, Schedule, IsKeptWorld};
ghost use Rattle.sq_steps.specs.Reads.{next_of};
ghost use Rattle.sq_merge.specs.WorldSteps.{world_counts, ActorLeaves, ActorStepped, TurnDone, TurnFits, UnlessNoMemory};
ghost use Rattle.sq_merge.specs.inside.WorldSteps.{IsKnownTo};
ghost use Rattle.sq_merge.specs.Progresses.{progress_of};
ghost use Rattle.sq_actions.specs.Performs.{CallFits, UntilFits, Performs};
ghost use Rattle.sq_merge.specs.Openings.{new_world};
ghost use Rattle.sq_model.specs.Options.{IsServed};
ghost use Rattle.sq_merge.specs.PartsValue.{ArePartsOf};
ghost use Rattle.sq_model.specs.Ledgers.{last_task, peek};

use crate::progress::{ActorProgress, Progress, progress_index};
use crate::world_steps::{WorldSteps, call_at, call_until_at, turn_at};
use sq_audit::homes::Homes;
use sq_audit::parts::Parts;
use sq_base::ids::{HomeId, HomeNo, QueueNo};
use sq_base::name::QueueName;
use sq_base::refusal::Refusal;
use sq_base::stamp::Stamp;
use sq_calls::calls::{Answer, Call};
use sq_calls::turns::{Turn, Turned};
use sq_directory::directory::Directory;
use sq_history::homes::{home_index, never_opened_homes, no_such_home};
use sq_history::recorded::Home;
use sq_ledger::ledger::TransitLedger;
use sq_model::directory::{DirectoryCall, DirectoryReply};
use sq_model::item::TaskNo;
use sq_model::ledger::LedgerReply;
use sq_model::listed::Listed;
use sq_model::options::Options;
use sq_model::replies::HomeReply;
use sq_model::task::{NamedQueue, Task};
use sq_sample::sampler::{HomeCount, Sampler};
use sq_steps::act::{Act, HomeAct, NextItem, Outcome, SharedAct, Step, TaskAct};
use sq_steps::journal::{Journal, directory_step, home_step, ledger_step};
use sq_steps::journals::{Journals, open};
use sq_steps::shared::shared_step;
use std::alloc::Global;
use std::marker::Model;

/// The queues and their homes, and what each actor has seen and recorded. Records and events are of each other at all times.
#[derive(Drop)]
pub struct World {
    directory: Directory,
    ledger: TransitLedger,
    per_queue: HomeCount,
    sample: HomeCount,
    homes: Vec<Home>,
    journals: Vec<Journal>,
    progress: Vec<ActorProgress>,
    sampler: Sampler,
}

impl Model for World {
    ghost use Rattle.std.specs.Prelude.{◌≤◌, length};
    ghost use Rattle.sq_merge.specs.WorldValue.{WorldValue};
    ghost use Rattle.sq_merge.specs.Worlds.{IsKeptWorld};

    ghost Value = { WorldValue };

    ghost view = { λ w. record { directory = w.directory; ledger = w.ledger.history; per_queue = w.per_queue; sample = w.sample; homes = w.homes.items; journals = w.journals.items; progress = w.progress.items } };

    ghost invariant = { λ w. record {
      kept : IsKeptWorld (record { directory = w.directory; ledger = w.ledger.history; per_queue = w.per_queue; sample = w.sample; homes = w.homes.items; journals = w.journals.items; progress = w.progress.items });
      sample : w.sample ≤ w.per_queue;
      few : length w.homes.items ≤ 16384;
    } };
}

impl World {
    /// A world without queues. Refused as InvalidParameterValue exactly where an option is out of its range; NoMemory.
    #[tactic(auto, unfolding(crate::specs::Openings::new_world))]
    pub fn new(alloc: Global, options: Options) -> Result<World, Refusal>
        ensures ok { IfOk result (λ world. world ≡ new_world options) }
        ensures served { IfOk result (λ _. IsServed options) }
        ensures refused { IfErr result (λ e. ((e ≡ Refusal.NoMemory) × IsServed options) ⊎ ((e ≡ Refusal.InvalidParameterValue) × (¬ IsServed options))) }
    {
        if !options.are_served() {
            return Err(Refusal::InvalidParameterValue);
        }
        let per_queue = HomeCount::of(options.homes);
        let limits = options.limits();
        Ok(World {
            homes: never_opened_homes(alloc, options.queues, per_queue, &limits)?,
            directory: Directory::new(alloc, options.queues)?,
            ledger: TransitLedger::new(alloc, options.transit),
            per_queue,
            sample: HomeCount::of(options.sample),
            journals: Vec::new(alloc),
            progress: Vec::new(alloc),
            sampler: Sampler::new(options.seed),
        })
    }

    /// One step. What is refused changes nothing.
    pub fn step(&mut self, alloc: Global, step: &Step) -> Result<Outcome, Refusal>
        ensures answered { IfOk result (StepDone self.old self.new step.now.actor step.now.clock step.now.act) }
        ensures refusal { IfErr result (StepRefused self.old step.now.actor step.now.clock step.now.act) }
        ensures err { OnErr result (self.new ≡ self.old) }
    {
        match &step.act {
            Act::Directory(call) => {
                let reply = self.directory_step(alloc, step.actor, step.clock, call)?;
                Ok(Outcome::Directory(reply))
            }
            Act::Resolve(name) => {
                let queue = self.resolve(alloc, step.actor, name)?;
                Ok(Outcome::Resolved(queue))
            }
            Act::Names => {
                let names = self.names(alloc, step.actor)?;
                Ok(Outcome::Named(names))
            }
            Act::Home(id, act) => {
                // A home that is not there is answered before memory is asked for.
                let Some(_) = home_index(self.per_queue, self.homes.len(), id) else {
                    return Err(no_such_home(step.clock));
                };
                let act = act.copy()?;
                let reply = self.home_step(alloc, step.actor, step.clock, None, id, act)?;
                Ok(Outcome::Home(reply))
            }
            Act::Shared(id, act) => {
                match self.shared_step(alloc, step.actor, step.clock, None, id, *act)? {
                    Some(reply) => Ok(Outcome::Home(reply)),
                    None => Ok(Outcome::Nothing),
                }
            }
            Act::Peek(number) => {
                let next = self.peek(alloc, step.actor, *number)?;
                Ok(Outcome::Peeked(next))
            }
            Act::Ledger(act) => {
                let reply = self.ledger_step(alloc, step.actor, step.clock, act)?;
                Ok(Outcome::Ledger(reply))
            }
            Act::ReadTask(number) => {
                let task = self.read_task(alloc, step.actor, *number)?;
                Ok(Outcome::Task(task))
            }
            Act::LastTask(source) => {
                let task = self.last_task(alloc, step.actor, *source)?;
                Ok(Outcome::LastTask(task))
            }
            Act::CanRedrive(source, destination) => {
                let (queue, target) = self.can_redrive(alloc, step.actor, source, destination)?;
                Ok(Outcome::Redriven(queue, target))
            }
        }
    }

    /// What a client asks, done by an actor at a clock reading in ms, step by step. A call on a queue looks it up by its
    /// name first. Refused as its first check in order that fails; steps that were done before that stand:
    /// QueueDoesNotExist; NoMemory of an actor that is new; InvalidMessageContents of a body; ReceiptHandleIsInvalid of what
    /// is no handle of the queue and of one of its homes; NoMemory; ClockRange; Worn; and then as the home's call. A batch is
    /// refused as a whole only as QueueDoesNotExist or NoMemory, before its first entry is done; what then refuses an entry
    /// is told of it alone: UnsupportedOperation or InvalidParameterValue, and then as a call on one message. CreateQueue is refused as QueueNameExists, QueueDeletedRecently, InvalidAttributeValue and
    /// TableFull too, SetQueueAttributes as InvalidAttributeValue, PurgeQueue as PurgeQueueInProgress, and ReceiveMessage as
    /// OverLimit where no home that was asked gave a message and one of them has too many in flight. Of move tasks: a start as
    /// InvalidParameterValue (the destination is the source), ResourceNotFoundException (one of them is not there),
    /// UnsupportedOperation (no queue's dead letters go to the source, or a task of it is active) and OverLimit (100 tasks are
    /// active); a cancel as ResourceNotFoundException and UnsupportedOperation (the task does not run); and a list as
    /// ResourceNotFoundException.
    pub fn call(
        &mut self,
        alloc: Global,
        actor: u32,
        now: u64,
        call: &Call,
    ) -> Result<Answer, Refusal>
        ensures answered { Performs (ActorStepped actor now) (CallFits (world_counts self.old) call.now) self.old result self.new }
        ensures leaves_records { ActorLeaves actor (CallFits (world_counts self.old) call.now) self.old result self.new }
    {
        let mut world_steps = WorldSteps::new(alloc, self, actor, now);
        call_at(&mut world_steps, call)
    }

    /// A call that ends early: so many of its steps, reads among them, and no more, as where a client's thread is stopped between
    /// two steps. It answers None where a further step was due, else what the call answers; what was done stands.
    /// Refused as `call`.
    pub fn call_until(
        &mut self,
        alloc: Global,
        actor: u32,
        now: u64,
        call: &Call,
        steps: u64,
    ) -> Result<Option<Answer>, Refusal>
        ensures answered { Performs (ActorStepped actor now) (UntilFits steps (CallFits (world_counts self.old) call.now)) self.old result self.new }
        ensures leaves_records { ActorLeaves actor (UntilFits steps (CallFits (world_counts self.old) call.now)) self.old result self.new }
    {
        let mut world_steps = WorldSteps::new(alloc, self, actor, now);
        call_until_at(&mut world_steps, call, steps)
    }

    /// A turn of an actor at a clock reading in ms: one step of moving messages, beside reads. A dead letter leaves a home of
    /// the queue that is named; or the item in transit that comes after the one that the actor tried last comes in where it
    /// goes to, is sent back where that home is closed, comes back, or is dropped; or a message leaves for the task that is
    /// named, or the task is to finish. The turn is lent how far the actor is, and what it makes of that is kept.
    /// Refused as NoMemory of an actor's first turn, before anything is done; QueueDoesNotExist, of a queue that is named or
    /// a home that was never opened; ResourceNotFoundException, of a task that is named; NoMemory; ClockRange; Worn. All else
    /// is a word of the answer.
    pub fn turn(
        &mut self,
        alloc: Global,
        actor: u32,
        now: u64,
        turn: &Turn,
    ) -> Result<Turned, Refusal>
        ensures answered { TurnDone actor now turn.now self.old result self.new }
        ensures leaves_records { UnlessNoMemory actor self.old result self.new (ActorLeaves actor (TurnFits (world_counts self.old).homes turn.now (progress_of actor self.old.progress) (progress_of actor self.new.progress)) self.old result self.new) }
    {
        let at = progress_index(&mut self.progress, actor)?;
        let mut progress = self.progress[at].progress;
        let answered = self.turn_with(alloc, actor, now, &mut progress, turn);
        self.progress[at] = ActorProgress { actor, progress };
        answered
    }

    // A turn that is lent its actor's progress. What the world keeps of progress stays.
    fn turn_with(
        &mut self,
        alloc: Global,
        actor: u32,
        now: u64,
        progress: &mut Progress,
        turn: &Turn,
    ) -> Result<Turned, Refusal>
        ensures same_progress { self.new.progress ≡ self.old.progress }
        ensures answered { Performs (ActorStepped actor now) (TurnFits (world_counts self.old).homes turn.now progress.old progress.new) self.old result self.new }
        ensures leaves_records { ActorLeaves actor (TurnFits (world_counts self.old).homes turn.now progress.old progress.new) self.old result self.new }
    {
        let mut world_steps = WorldSteps::new(alloc, self, actor, now);
        turn_at(&mut world_steps, progress, turn)
    }

    /// One step after another, and how many were not refused. What is refused changes nothing.
    pub fn run(&mut self, alloc: Global, steps: &[Step]) -> u64
        ensures schedule { Schedule self.old steps.now result self.new }
        ensures kept { IsKeptWorld self.new }
    {
        let mut done = 0;
        for step in steps {
            match self.step(alloc, step) {
                Ok(_) => done += 1,
                Err(_) => {}
            }
        }
        // What is always true of a world is known to the prover once a part of it is read.
        let _ = &self.homes;
        done
    }

    /// Its parts with their histories, and the records of its actors: each record is of an event, each event has one.
    pub fn parts(self) -> Parts
        ensures parts { ArePartsOf self result }
        ensures matched { AreMatched result }
        ensures paired { ArePaired result }
    {
        let World {
            directory,
            ledger,
            per_queue,
            homes,
            journals,
            ..
        } = self;
        Parts {
            directory,
            ledger,
            homes: Homes::of(per_queue, homes),
            made: journals.len() as u64,
            records: Journals::of(journals),
        }
    }

    /// How many homes a queue has.
    pub(crate) fn per_queue(&self) -> HomeCount
        ensures { result ≡ self.now.per_queue }
    {
        self.per_queue
    }

    // One home of a queue.
    pub(crate) fn pick(&mut self) -> HomeNo
        ensures below { result < self.old.per_queue }
        ensures unchanged { self.new ≡ self.old }
    {
        self.sampler.pick(self.per_queue)
    }

    // Distinct homes of a queue, so many as a receive asks. Refused only where memory is out.
    pub(crate) fn draw(&mut self, alloc: Global) -> Result<Vec<HomeNo>, Refusal>
        ensures some { 1 ≤ self.old.sample }
        ensures sample { IfOk result (λ drawn. IsSampleOf self.old.per_queue self.old.sample drawn.items) }
        ensures refused { IfErr result (λ e. e ≡ Refusal.NoMemory) }
        ensures unchanged { self.new ≡ self.old }
    {
        self.sampler.draw(alloc, self.per_queue, self.sample)
    }

    // A step of the directory.
    pub(crate) fn directory_step(
        &mut self,
        alloc: Global,
        actor: u32,
        now: u64,
        call: &DirectoryCall,
    ) -> Result<DirectoryReply, Refusal>
        ensures stepped { IfOk result (DirectoryStepped self.old self.new actor now call.now) }
        ensures made { IfOk result (IsAnsweredByName self.new.directory.events self.new.directory.last call.now) }
        ensures refusal { IfErr result (DirectoryRefused self.old actor now call.now) }
        ensures err { OnErr result (self.new ≡ self.old) }
    {
        let count = self.journals.len();
        let at = open(&mut self.journals, alloc, actor)?;
        let journal = &mut self.journals[at];
        match directory_step(alloc, &mut self.directory, journal, now, call) {
            Ok(by) => Ok(by),
            Err(refusal) => {
                self.journals.truncate(count);
                Err(refusal)
            }
        }
    }

    // Reads the names and numbers of all queues. Refused as NoMemory, where there are any, or of a new actor.
    fn names(&mut self, alloc: Global, actor: u32) -> Result<Listed<NamedQueue>, Refusal>
        ensures read { IfOk result (λ names. (names ≡ all_named self.old.directory.directory) × (self.new ≡ having_read_directory self.old actor)) }
        ensures refusal { IfErr result (NamesUnread self.old actor) }
        ensures err { OnErr result (self.new ≡ self.old) }
    {
        let names = self.directory.names(alloc)?;
        self.see_directory(alloc, actor)?;
        Ok(names)
    }

    // Reads the number of a queue.
    pub(crate) fn resolve(
        &mut self,
        alloc: Global,
        actor: u32,
        name: &QueueName,
    ) -> Result<QueueNo, Refusal>
        ensures found { IfOk result (λ queue. (number_named name.now self.old.directory.directory.queues ≡ Some queue) × (self.new ≡ having_read_directory self.old actor)) }
        ensures known { IfOk result (IsKnownTo actor self.new (Some name.now)) }
        ensures refusal { IfErr result (NameRefused self.old actor name.now) }
        ensures err { OnErr result (self.new ≡ self.old) }
    {
        let Some(queue) = self.directory.find(&mut 0, name) else {
            return Err(Refusal::QueueDoesNotExist);
        };
        self.see_directory(alloc, actor)?;
        Ok(queue)
    }

    // Reads between which queues messages may be moved: the source, and the destination, where one is given.
    pub(crate) fn can_redrive(
        &mut self,
        alloc: Global,
        actor: u32,
        source: &QueueName,
        destination: &Option<QueueName>,
    ) -> Result<(NamedQueue, Option<NamedQueue>), Refusal>
        ensures read { IfOk result (λ ends. EndsRead self.old self.new actor source.now destination.now (as_ends ends)) }
        ensures refusal { IfErr result (EndsUnread self.old actor source.now destination.now) }
        ensures err { OnErr result (self.new ≡ self.old) }
    {
        let ends = self.directory.can_redrive(source, destination)?;
        self.see_directory(alloc, actor)?;
        Ok(ends)
    }

    // The actor has seen all that was done to the directory. Refused as NoMemory of a new actor alone.
    fn see_directory(&mut self, alloc: Global, actor: u32) -> Result<(), Refusal>
        ensures read { OnOk result (self.new ≡ having_read_directory self.old actor) }
        ensures refused { IfErr result (IsUnread self.old actor) }
        ensures err { OnErr result (self.new ≡ self.old) }
    {
        let last = self.directory.last();
        self.see(alloc, actor, last)
    }

    // The actor has seen all that was done to a part whose last stamp is this. Refused as NoMemory of a new actor alone.
    fn see(&mut self, alloc: Global, actor: u32, last: Stamp) -> Result<(), Refusal>
        ensures read { OnOk result (self.new ≡ having_seen_at self.old actor last) }
        ensures refused { IfErr result (IsUnread self.old actor) }
        ensures err { OnErr result (self.new ≡ self.old) }
    {
        let at = open(&mut self.journals, alloc, actor)?;
        self.journals[at].see(last);
        Ok(())
    }

    // A step of a home by an actor that used this name.
    pub(crate) fn home_step(
        &mut self,
        alloc: Global,
        actor: u32,
        now: u64,
        name: Option<QueueName>,
        id: &HomeId,
        act: HomeAct,
    ) -> Result<HomeReply, Refusal>
        requires known { IsKnownTo actor self.old name id.now.queue }
        ensures stepped { IfOk result (HomeStepped self.old self.new actor now name id.now (call_of act)) }
        ensures refusal { IfErr result (HomeRefused self.old actor now id.now (call_of act)) }
        ensures err { OnErr result (self.new ≡ self.old) }
    {
        let Some(index) = home_index(self.per_queue, self.homes.len(), id) else {
            return Err(no_such_home(now));
        };
        let count = self.journals.len();
        let at = open(&mut self.journals, alloc, actor)?;
        let home = &mut self.homes[index];
        let journal = &mut self.journals[at];
        match home_step(alloc, home, journal, now, name, act) {
            Ok(reply) => Ok(reply),
            Err(refusal) => {
                self.journals.truncate(count);
                Err(refusal)
            }
        }
    }

    // A step that a home shares with the ledger, by an actor that used this name; none where nothing is there to leave.
    pub(crate) fn shared_step(
        &mut self,
        alloc: Global,
        actor: u32,
        now: u64,
        name: Option<QueueName>,
        id: &HomeId,
        act: SharedAct,
    ) -> Result<Option<HomeReply>, Refusal>
        requires known { IsKnownTo actor self.old name id.now.queue }
        ensures stepped { IfOk result (λ told. IfSome told (SharedStepped self.old self.new actor now name id.now act)) }
        ensures none { IfOk result (λ told. IfNone told (NothingLeaves self.old self.new actor now id.now act)) }
        ensures refusal { IfErr result (SharedRefused self.old actor now id.now act) }
        ensures err { OnErr result (self.new ≡ self.old) }
    {
        let Some(index) = home_index(self.per_queue, self.homes.len(), id) else {
            return Err(no_such_home(now));
        };
        let count = self.journals.len();
        let at = open(&mut self.journals, alloc, actor)?;
        let home = &mut self.homes[index];
        let journal = &mut self.journals[at];
        match shared_step(alloc, home, &mut self.ledger, journal, now, name, act) {
            Ok(Some(reply)) => Ok(Some(reply)),
            Ok(None) => {
                self.journals.truncate(count);
                Ok(None)
            }
            Err(refusal) => {
                self.journals.truncate(count);
                Err(refusal)
            }
        }
    }

    // A step of the ledger alone.
    pub(crate) fn ledger_step(
        &mut self,
        alloc: Global,
        actor: u32,
        now: u64,
        act: &TaskAct,
    ) -> Result<LedgerReply, Refusal>
        ensures stepped { IfOk result (LedgerStepped self.old self.new actor now act.now) }
        ensures refusal { IfErr result (LedgerRefused self.old actor now act.now) }
        ensures err { OnErr result (self.new ≡ self.old) }
    {
        let count = self.journals.len();
        let at = open(&mut self.journals, alloc, actor)?;
        let journal = &mut self.journals[at];
        match ledger_step(alloc, &mut self.ledger, journal, now, act) {
            Ok(told) => Ok(told),
            Err(refusal) => {
                self.journals.truncate(count);
                Err(refusal)
            }
        }
    }

    // Reads the task of a number. Refused as ResourceNotFoundException; NoMemory of a new actor alone.
    pub(crate) fn read_task(
        &mut self,
        alloc: Global,
        actor: u32,
        number: TaskNo,
    ) -> Result<Task, Refusal>
        ensures read { IfOk result (TaskRead self.old self.new actor number) }
        ensures refusal { IfErr result (TaskUnread self.old actor number) }
        ensures err { OnErr result (self.new ≡ self.old) }
    {
        let Some(task) = self.ledger.read_task(number) else {
            return Err(Refusal::ResourceNotFoundException);
        };
        let task = *task;
        let last = self.ledger.last();
        self.see(alloc, actor, last)?;
        Ok(task)
    }

    // Reads the most recent task of a source. Refused as NoMemory of a new actor alone.
    fn last_task(
        &mut self,
        alloc: Global,
        actor: u32,
        source: QueueNo,
    ) -> Result<Option<Task>, Refusal>
        ensures read { IfOk result (λ task. (task ≡ last_task source self.old.ledger.ledger) × (self.new ≡ having_peeked self.old actor)) }
        ensures refused { IfErr result (IsUnread self.old actor) }
        ensures err { OnErr result (self.new ≡ self.old) }
    {
        let last = self.ledger.last();
        self.see(alloc, actor, last)?;
        match self.ledger.last_task(source) {
            Some((_, task)) => Ok(Some(*task)),
            None => Ok(None),
        }
    }

    // Reads where the item goes that comes after a number. Refused as NoMemory of a new actor alone.
    pub(crate) fn peek(
        &mut self,
        alloc: Global,
        actor: u32,
        number: u64,
    ) -> Result<Option<NextItem>, Refusal>
        ensures read { IfOk result (ItemRead self.old self.new actor number) }
        ensures refused { IfErr result (IsUnread self.old actor) }
        ensures err { OnErr result (self.new ≡ self.old) }
    {
        let last = self.ledger.last();
        self.see(alloc, actor, last)?;
        Ok(next_after(&self.ledger, number))
    }
}

// Where the item goes that comes after a number.
fn next_after(ledger: &TransitLedger, number: u64) -> Option<NextItem>
    ensures { result ≡ option_map next_of (peek number ledger.now.history.ledger) }
{
    let item = ledger.peek(number)?;
    Some(NextItem {
        number: item.number,
        source: item.source,
        target: item.target,
        homeward: item.homeward,
    })
}
