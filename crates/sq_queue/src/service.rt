//! A service whose parts lie under locks.
ghost use Rattle.std.specs.Prelude.{◌≡◌, ◌⊎◌, ◌*◌, ◌<◌, ◌≤◌, ℕ, None, IfOk, IfErr, IfNone, IfSome, OnOk, length, map, vec_len};
ghost use Rattle.sq_history.specs.HomeIds.{home_index};
ghost use Rattle.sq_model.specs.Options.{IsServed};
ghost use Rattle.sq_queue.specs.LockedParts.{LockedPart, AHome, TheDirectory, TheLedger, ArePlaced};
ghost use Rattle.sq_queue.specs.Seats.{IsNamedBy};
ghost use Rattle.sq_queue.specs.SessionValue.{new_session};

use crate::actors::Actors;
use crate::making::{NewParts, new_parts};
use crate::parts::{CountedDirectory, CountedLedger, Placed};
use crate::session::Session;
use crossbeam_utils::CachePadded;
use sq_base::ids::HomeId;
use sq_base::refusal::Refusal;
use sq_directory::directory::Directory;
use sq_history::homes::{home_index, id_at};
use sq_history::recorded::Home;
use sq_ledger::ledger::TransitLedger;
use sq_model::options::Options;
use sq_sample::sampler::HomeCount;
use sq_store::slots::SlotStore;
use sq_store::store::Store;
use std::alloc::Global;
use std::hint::spin_loop;
use std::sync::ledger::{Blank, Ledger};
use std::sync::{Mutex, MutexGuard, Wait};

/// Tells the time, in ms. A reading at or above 2^62 refuses the step that it was made for, as ClockRange.
pub trait Clock {
    /// What it may tell.
    ghost tells: { Self → ℕ → Type 0 };

    fn now(&self) -> u64
        ensures { tells self.now result };
}

/// Where tests look in: it sees what lies under each lock while that is held, before a step is done there.
pub trait Gate {
    /// What it saw.
    ghost saw: { Self → LockedPart → Type 0 };

    /// Called while the lock of the home of this id is held.
    fn inside(&self, id: HomeId, home: &Home)
        ensures { saw self.now (AHome id home.now) };

    /// Called while the lock of the directory is held.
    fn at_directory(&self, directory: &Directory)
        ensures { saw self.now (TheDirectory directory.now) };

    /// Called while the lock of the ledger is held.
    fn at_ledger(&self, ledger: &TransitLedger)
        ensures { saw self.now (TheLedger ledger.now.history) };

    /// Called after an item left, with no lock held.
    fn between(&self, item: u64);
}

/// A gate that is always open.
#[derive(Drop)]
pub struct Open;

impl Gate for Open {
    // Whatever there is.
    ghost saw = { λ g part. Unit {0} };

    fn inside(&self, _id: HomeId, _home: &Home) {}

    fn at_directory(&self, _directory: &Directory) {}

    fn at_ledger(&self, _ledger: &TransitLedger) {}

    fn between(&self, _item: u64) {}
}

/// A lock, with nothing else on its cache lines: so a thread that takes it slows down none that is at another part.
pub(crate) type Lock<T> = CachePadded<Mutex<T>>;

// A value under its lock.
pub(crate) fn under_lock<T>(value: T) -> Lock<T> {
    CachePadded::new(Mutex::new(value))
}

/// How often a lock is looked at before its thread sleeps.
const LOOKS: u32 = 8;

/// Takes a lock. What is done under one takes less time than to sleep and to be woken, so it is tried for a while first, with
/// rests that double.
pub(crate) fn take_lock<'a, T, R: Wait>(rt: &R, lock: &'a Lock<T>) -> MutexGuard<'a, T> {
    for look in 0..LOOKS {
        if let Some(guard) = lock.try_lock() {
            return guard;
        }
        for _ in 0..1u32 << look {
            spin_loop();
        }
    }
    lock.lock(rt)
}

/// Takes a lock, and notes whether another thread had it.
pub(crate) fn take_lock_noting<'a, T, R: Wait>(
    rt: &R,
    lock: &'a Lock<T>,
    was_taken: &mut bool,
) -> MutexGuard<'a, T> {
    if let Some(guard) = lock.try_lock() {
        return guard;
    }
    *was_taken = true;
    take_lock(rt, lock)
}

/// The parts of a service, each under a lock of its own. A thread holds one lock, or that of a home and then that of the
/// ledger, and no others together; that of the actors is held alone.
///
/// The type parameters are its clock, its gate, the names of the counts of the directory's events and of the ledger's, and the
/// store of its homes.
#[derive(Drop)]
pub struct Serving<C, G, D: Ledger, T: Ledger, S: Store> {
    pub(crate) alloc: Global,
    pub(crate) clock: C,
    pub(crate) gate: G,
    pub(crate) per_queue: HomeCount,
    pub(crate) sample: HomeCount,
    pub(crate) homes: Vec<Placed<S>>,
    pub(crate) directory: Lock<CountedDirectory<D>>,
    pub(crate) ledger: Lock<CountedLedger<T>>,
    pub(crate) actors: Lock<Actors<D, T>>,
    ghost sampled: { sample ≤ per_queue },
    ghost few: { vec_len homes ≤ 16384 },
    ghost placed: { ArePlaced per_queue (map (λ place. place.id) homes.items) },
}

/// A service over the homes that are used.
pub type Service<C, G, D, T> = Serving<C, G, D, T, SlotStore>;

impl<C: Clock + Drop, G: Gate + Drop, D: Ledger, T: Ledger> Serving<C, G, D, T, SlotStore> {
    /// A service without queues and without sessions. `D` and `T` name its two counts: call it in a function that is generic
    /// in both, with `Blank::new(SEATS)` for each, and that function with `Brand` for both.
    /// Refused as InvalidParameterValue exactly where an option is out of its range; NoMemory.
    pub fn new(
        alloc: Global,
        options: Options,
        clock: C,
        gate: G,
        of_directory: Blank,
        of_ledger: Blank,
    ) -> Result<Service<C, G, D, T>, Refusal>
        requires of_directory { IsNamedBy D.name D.parts of_directory }
        requires of_ledger { IsNamedBy T.name T.parts of_ledger }
        ensures counts { IfOk result (λ s. (s.per_queue ≡ options.homes) × (s.sample ≡ options.sample) × (vec_len s.homes ≡ options.queues * options.homes)) }
        ensures served { OnOk result (IsServed options) }
        ensures refused { IfErr result (λ e. ((e ≡ Refusal.NoMemory) × IsServed options) ⊎ ((e ≡ Refusal.InvalidParameterValue) × (¬ IsServed options))) }
    {
        if !options.are_served() {
            return Err(Refusal::InvalidParameterValue);
        }
        let NewParts {
            homes,
            directory,
            ledger,
            actors,
        } = new_parts(alloc, &options, of_directory, of_ledger)?;
        let per_queue = HomeCount::of(options.homes);
        Ok(Serving {
            alloc,
            clock,
            gate,
            per_queue,
            sample: HomeCount::of(options.sample),
            homes: each_under_lock(alloc, per_queue, homes)?,
            directory: under_lock(directory),
            ledger: under_lock(ledger),
            actors: under_lock(actors),
        })
    }

    /// The place of a home; none where the service has no such home.
    pub(crate) fn place(&self, id: &HomeId) -> Option<&Placed<SlotStore>>
        ensures found { IfSome result (λ place. place.now.id ≡ id.now) }
        ensures none { IfNone result (home_index self.now.per_queue (vec_len self.now.homes) id.now ≡ None) }
    {
        match home_index(self.per_queue, self.homes.len(), id) {
            Some(index) => Some(&self.homes[index]),
            None => None,
        }
    }

    /// A new client, with no records. Refused as Worn where all 2^32 - 1 numbers of actors are given.
    pub fn session(&self, rt: &impl Wait) -> Result<Session<D, T>, Refusal>
        ensures made { IfOk result (λ s. (actor : ℕ) × (actor < 4294967295) × (s ≡ new_session actor)) }
        ensures refused { IfErr result (λ e. e ≡ Refusal.Worn) }
    {
        take_lock(rt, &self.actors).make(self.alloc)
    }

    /// Takes a session back, and keeps it whole until the service ends. Refused as NoMemory, with the session.
    pub fn retire(
        &self,
        rt: &impl Wait,
        session: Session<D, T>,
    ) -> Result<(), (Refusal, Session<D, T>)>
        ensures refused { IfErr result (λ r. (r.0 ≡ Refusal.NoMemory) × (r.1 ≡ session)) }
    {
        take_lock(rt, &self.actors).keep(session)
    }
}

// Homes, each under a lock of its own, at the place of its index.
fn each_under_lock(
    alloc: Global,
    per_queue: HomeCount,
    homes: Vec<Home>,
) -> Result<Vec<Placed<SlotStore>>, Refusal>
    requires few { length homes.items ≤ 16384 }
    ensures many { IfOk result (λ places. vec_len places ≡ length homes.items) }
    ensures placed { IfOk result (λ places. ArePlaced per_queue (map (λ place. place.id) places.items)) }
    ensures refused { IfErr result (λ e. e ≡ Refusal.NoMemory) }
{
    let mut places = Vec::with_capacity(alloc, homes.len())?;
    let mut index = 0u32;
    for home in homes {
        places.push_reserved(Placed::new(id_at(per_queue, index), home));
        index += 1;
    }
    Ok(places)
}
