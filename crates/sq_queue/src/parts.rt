//! What lies under the locks of a service, and what is done there: each time the step of a world, on what is lent.
ghost use Rattle.std.specs.Prelude.{◌≡◌, ◌≢◌, ◌⊎◌, ◌+◌, ◌<◌, Ok, Err, None, Some, option_map, IfOk, IfErr, IfSome, IfNone, OnErr, OnOk, length};
ghost use Rattle.sq_model.specs.Directories.{all_named, can_redrive, number_named};
ghost use Rattle.sq_model.specs.Ledgers.{last_task, peek, task_of};
ghost use Rattle.sq_directory.specs.Makers.{IsAnsweredByName};
ghost use Rattle.sq_directory.specs.MoveQueues.{as_ends};
ghost use Rattle.sq_history.specs.Acts.{call_of};
ghost use Rattle.sq_steps.specs.Journals.{HomeMoves, DirectoryMoves, LedgerMoves, IsHomeRefused, IsDirectoryStepRefused, IsLedgerStepRefused};
ghost use Rattle.sq_steps.specs.Reads.{next_of};
ghost use Rattle.sq_steps.specs.SharedSteps.{SharedMoves, IsUnmoved, IsSharedRefused};
ghost use Rattle.sq_steps.specs.TaskActs.{task_call};
ghost use Rattle.std.specs.Sync.Mutex.{mutex_guard_value};
ghost use Rattle.sq_queue.specs.LockedParts.{AHome};
ghost use Rattle.sq_queue.specs.SessionValue.{having_read};

use crate::service::{Gate, Lock, take_lock_noting, under_lock};
use crate::session::Session;
use sq_base::ids::{HomeId, QueueNo};
use sq_base::name::QueueName;
use sq_base::refusal::Refusal;
use sq_directory::directory::Directory;
use sq_history::act::HomeAct;
use sq_history::recorded::{Home, Recorded};
use sq_ledger::ledger::TransitLedger;
use sq_model::directory::{DirectoryCall, DirectoryReply};
use sq_model::item::TaskNo;
use sq_model::ledger::LedgerReply;
use sq_model::listed::Listed;
use sq_model::replies::HomeReply;
use sq_model::task::{NamedQueue, Task};
use sq_steps::act::{NamedHome, NextItem, SharedAct, TaskAct};
use sq_steps::journal::{directory_step, home_step, ledger_step};
use sq_steps::reads;
use sq_steps::shared::shared_step;
use sq_store::slots::SlotStore;
use sq_store::store::Store;
use std::alloc::Global;
use std::sync::ledger::{Book, Ledger};
use std::sync::{MutexGuard, Wait};

/// A home with its id. It is generic over its store: so the prover finds that a service may be shared by threads.
#[derive(Drop)]
pub struct WithId<S: Store> {
    pub(crate) id: HomeId,
    pub(crate) home: Recorded<S>,
    ghost own: { home.site.home ≡ id },
}

/// The home that lies under a lock.
pub type HomeWithId = WithId<SlotStore>;

/// The place of a home: its id, and its lock.
#[derive(Drop)]
pub(crate) struct Placed<S: Store> {
    pub(crate) id: HomeId,
    lock: Lock<WithId<S>>,
}

impl Placed<SlotStore> {
    /// The place of this id, with a home under its lock.
    pub(crate) fn new(id: HomeId, home: Home) -> Placed<SlotStore>
        ensures { result.id ≡ id }
    {
        Placed {
            id,
            lock: under_lock(with_id(home)),
        }
    }

    /// Takes the lock, notes whether another thread had it, and shows the gate what lies there.
    pub(crate) fn enter<G: Gate, R: Wait>(
        &self,
        rt: &R,
        gate: &G,
        was_taken: &mut bool,
    ) -> MutexGuard<'_, HomeWithId>
        ensures { G.saw gate.now (AHome self.now.id (mutex_guard_value result).home) }
    {
        let part = take_lock_noting(rt, &self.lock, was_taken);
        gate.inside(self.id, &part.home);
        part
    }

    /// The home, out of its lock.
    pub(crate) fn into_home(self) -> HomeWithId {
        self.lock.into_inner().into_inner()
    }
}

// A home with its id.
fn with_id(home: Home) -> HomeWithId
    ensures id { result.id ≡ home.site.home }
    ensures home { result.home ≡ home }
{
    WithId {
        id: home.id(),
        home,
    }
}

impl WithId<SlotStore> {
    /// A step of the home, where it is the one that is meant; where it is not, which never is, QueueDoesNotExist. A session stays at no
    /// home whose lock was taken.
    pub(crate) fn step<D: Ledger, T: Ledger>(
        &mut self,
        alloc: Global,
        session: &mut Session<D, T>,
        now: u64,
        at: &NamedHome,
        act: HomeAct,
        was_taken: bool,
    ) -> Result<HomeReply, Refusal>
        ensures step { IfOk result (λ reply. HomeMoves self.old.home self.new.home session.old.journal session.new.journal now at.now.name (call_of act) reply) }
        ensures at { OnOk result (self.old.id ≡ at.now.id) }
        ensures refusal { IfErr result (λ e. ((self.old.id ≡ at.now.id) × IsHomeRefused self.old.home session.old.journal now (call_of act) e) ⊎ ((self.old.id ≢ at.now.id) × (e ≡ Refusal.QueueDoesNotExist))) }
        ensures id { self.new.id ≡ self.old.id }
        ensures err { OnErr result (self.new.home ≡ self.old.home) }
        ensures session_err { OnErr result (session.new ≡ session.old) }
    {
        if self.id != at.id {
            return Err(Refusal::QueueDoesNotExist);
        }
        let WithId { home, .. } = self;
        let told = home_step(alloc, home, &mut session.journal, now, at.name, act);
        session.note(at.id.home, was_taken, &told);
        told
    }
}

/// The directory, and how many events it has, which is the sum of the tallies of all sessions.
#[derive(Drop)]
pub struct CountedDirectory<D: Ledger> {
    pub(crate) directory: Directory,
    pub(crate) tallies: Book<D>,
    ghost counted: { tallies.total ≡ length directory.events },
}

impl<D: Ledger> CountedDirectory<D> {
    /// A step of the directory.
    pub(crate) fn step<T: Ledger>(
        &mut self,
        alloc: Global,
        session: &mut Session<D, T>,
        now: u64,
        call: &DirectoryCall,
    ) -> Result<DirectoryReply, Refusal>
        ensures step { IfOk result (DirectoryMoves self.old.directory self.new.directory session.old.journal session.new.journal now call.now) }
        ensures made { IfOk result (IsAnsweredByName self.new.directory.events self.new.directory.last call.now) }
        ensures tally { OnOk result (session.new.directory_tally ≡ session.old.directory_tally + 1) }
        ensures refusal { IfErr result (IsDirectoryStepRefused self.old.directory session.old.journal now call.now) }
        ensures err { OnErr result (self.new.directory ≡ self.old.directory) }
        ensures session_err { OnErr result (session.new ≡ session.old) }
    {
        let CountedDirectory { directory, tallies } = self;
        let Session {
            journal,
            of_directory,
            ..
        } = session;
        let reply = directory_step(alloc, directory, journal, now, call)?;
        tallies.add(of_directory, 1);
        Ok(reply)
    }

    /// Reads the number of the queue of this name.
    pub(crate) fn resolve<T: Ledger>(
        &self,
        session: &mut Session<D, T>,
        name: &QueueName,
    ) -> Result<QueueNo, Refusal>
        ensures found { IfOk result (λ queue. number_named name.now self.now.directory.directory.queues ≡ Some queue) }
        ensures seen { OnOk result (session.new ≡ having_read session.old self.now.directory.last) }
        ensures refused { IfErr result (λ e. (e ≡ Refusal.QueueDoesNotExist) × (number_named name.now self.now.directory.directory.queues ≡ None)) }
        ensures err { OnErr result (session.new ≡ session.old) }
    {
        let Session { journal, near, .. } = session;
        reads::resolve(&self.directory, journal, near, name)
    }

    /// Reads the names and numbers of all queues, in order of creation.
    pub(crate) fn names<T: Ledger>(
        &self,
        alloc: Global,
        session: &mut Session<D, T>,
    ) -> Result<Listed<NamedQueue>, Refusal>
        ensures names { IfOk result (λ names. names ≡ all_named self.now.directory.directory) }
        ensures seen { OnOk result (session.new ≡ having_read session.old self.now.directory.last) }
        ensures refused { IfErr result (λ e. (e ≡ Refusal.NoMemory) × (0 < length self.now.directory.directory.queues)) }
        ensures err { OnErr result (session.new ≡ session.old) }
    {
        reads::names(alloc, &self.directory, &mut session.journal)
    }

    /// Reads between which queues messages may be moved.
    pub(crate) fn can_redrive<T: Ledger>(
        &self,
        session: &mut Session<D, T>,
        source: &QueueName,
        destination: &Option<QueueName>,
    ) -> Result<(NamedQueue, Option<NamedQueue>), Refusal>
        ensures ends { IfOk result (λ ends. can_redrive source.now destination.now self.now.directory.directory ≡ Ok (as_ends ends)) }
        ensures seen { OnOk result (session.new ≡ having_read session.old self.now.directory.last) }
        ensures refused { IfErr result (λ e. can_redrive source.now destination.now self.now.directory.directory ≡ Err e) }
        ensures err { OnErr result (session.new ≡ session.old) }
    {
        reads::can_redrive(&self.directory, &mut session.journal, source, destination)
    }
}

/// The ledger of what is in transit, and how many events it has, which is the sum of the tallies of all sessions.
#[derive(Drop)]
pub struct CountedLedger<T: Ledger> {
    pub(crate) ledger: TransitLedger,
    pub(crate) tallies: Book<T>,
    ghost counted: { tallies.total ≡ length ledger.history.events },
}

impl<T: Ledger> CountedLedger<T> {
    /// A step of the ledger alone.
    pub(crate) fn step<D: Ledger>(
        &mut self,
        alloc: Global,
        session: &mut Session<D, T>,
        now: u64,
        act: &TaskAct,
    ) -> Result<LedgerReply, Refusal>
        ensures step { IfOk result (LedgerMoves self.old.ledger.history self.new.ledger.history session.old.journal session.new.journal now (task_call act.now)) }
        ensures tally { OnOk result (session.new.ledger_tally ≡ session.old.ledger_tally + 1) }
        ensures refusal { IfErr result (IsLedgerStepRefused self.old.ledger.history session.old.journal now (task_call act.now)) }
        ensures err { OnErr result (self.new.ledger.history ≡ self.old.ledger.history) }
        ensures session_err { OnErr result (session.new ≡ session.old) }
    {
        let CountedLedger { ledger, tallies } = self;
        let Session {
            journal,
            of_ledger,
            ..
        } = session;
        let reply = ledger_step(alloc, ledger, journal, now, act)?;
        tallies.add(of_ledger, 1);
        Ok(reply)
    }

    /// A step that the ledger shares with a home, where it is the one that is meant; none where nothing is there to leave. Where
    /// the home is not the one that is meant, which never is, QueueDoesNotExist.
    pub(crate) fn share<D: Ledger>(
        &mut self,
        alloc: Global,
        part: &mut HomeWithId,
        session: &mut Session<D, T>,
        now: u64,
        at: &NamedHome,
        act: SharedAct,
    ) -> Result<Option<HomeReply>, Refusal>
        ensures step { IfOk result (λ told. IfSome told (SharedMoves part.old.home part.new.home self.old.ledger.history self.new.ledger.history session.old.journal session.new.journal now at.now.name act)) }
        ensures at { OnOk result (part.old.id ≡ at.now.id) }
        ensures tally { IfOk result (λ told. IfSome told (λ _. session.new.ledger_tally ≡ session.old.ledger_tally + 1)) }
        ensures none { IfOk result (λ told. IfNone told (IsUnmoved part.old.home self.old.ledger.history session.old.journal now act)) }
        ensures none_home { IfOk result (λ told. IfNone told (part.new.home ≡ part.old.home)) }
        ensures none_ledger { IfOk result (λ told. IfNone told (self.new.ledger.history ≡ self.old.ledger.history)) }
        ensures none_session { IfOk result (λ told. IfNone told (session.new ≡ session.old)) }
        ensures refusal { IfErr result (λ e. ((part.old.id ≡ at.now.id) × IsSharedRefused part.old.home self.old.ledger.history session.old.journal now act e) ⊎ ((part.old.id ≢ at.now.id) × (e ≡ Refusal.QueueDoesNotExist))) }
        ensures id { part.new.id ≡ part.old.id }
        ensures home_err { OnErr result (part.new.home ≡ part.old.home) }
        ensures ledger_err { OnErr result (self.new.ledger.history ≡ self.old.ledger.history) }
        ensures session_err { OnErr result (session.new ≡ session.old) }
    {
        if part.id != at.id {
            return Err(Refusal::QueueDoesNotExist);
        }
        let CountedLedger { ledger, tallies } = self;
        let WithId { home, .. } = part;
        let Session {
            journal,
            of_ledger,
            ..
        } = session;
        match shared_step(alloc, home, ledger, journal, now, at.name, act)? {
            Some(reply) => {
                tallies.add(of_ledger, 1);
                Ok(Some(reply))
            }
            None => Ok(None),
        }
    }

    /// Reads where the item in transit goes that comes after a number.
    pub(crate) fn peek<D: Ledger>(
        &self,
        session: &mut Session<D, T>,
        after: u64,
    ) -> Option<NextItem>
        ensures next { result ≡ option_map next_of (peek after self.now.ledger.history.ledger) }
        ensures seen { session.new ≡ having_read session.old self.now.ledger.history.last }
    {
        reads::peek(&self.ledger, &mut session.journal, after)
    }

    /// Reads the task of a number.
    pub(crate) fn read_task<D: Ledger>(
        &self,
        session: &mut Session<D, T>,
        number: TaskNo,
    ) -> Result<Task, Refusal>
        ensures found { IfOk result (λ task. task_of number self.now.ledger.history.ledger ≡ Some task) }
        ensures seen { OnOk result (session.new ≡ having_read session.old self.now.ledger.history.last) }
        ensures refused { IfErr result (λ e. (e ≡ Refusal.ResourceNotFoundException) × (task_of number self.now.ledger.history.ledger ≡ None)) }
        ensures err { OnErr result (session.new ≡ session.old) }
    {
        reads::read_task(&self.ledger, &mut session.journal, number)
    }

    /// Reads the most recent task of a source.
    pub(crate) fn last_task<D: Ledger>(
        &self,
        session: &mut Session<D, T>,
        source: QueueNo,
    ) -> Option<Task>
        ensures task { result ≡ last_task source self.now.ledger.history.ledger }
        ensures seen { session.new ≡ having_read session.old self.now.ledger.history.last }
    {
        reads::last_task(&self.ledger, &mut session.journal, source)
    }
}
