//! The end of a service: its parts are taken out of their locks, and its sessions apart.
ghost use Rattle.std.specs.Prelude.{◌≡◌, ◌+◌, ◌≤◌, ◌<◌, ◌++◌, [], List, IfOk, IfErr, length, map, position, sum_by, vec_len, vec_capacity};
ghost use Rattle.sq_model.specs.RecordValues.{Journal as JournalValue};
ghost use Rattle.sq_queue.specs.Seats.{HasSeats};
ghost use Rattle.sq_steps.specs.Journals.{is_of_actor, AreDistinct};
ghost use Rattle.sq_history.specs.HomeIds.{home_id, IsNumbered};
ghost use Rattle.sq_queue.specs.Evidence.{first_of_each, with_firsts, with_unfound};
ghost use Rattle.sq_queue.specs.Tallies.{directory_records, ledger_records};

use crate::actors::Actors;
use crate::parts::{CountedDirectory, CountedLedger, HomeWithId, Placed};
use crate::service::{Service, Serving, under_lock};
use crate::session::Session;
use sq_audit::homes::Homes;
use sq_audit::parts::Parts;
use sq_base::refusal::Refusal;
use sq_history::homes::{id_at, never_opened};
use sq_history::recorded::Home;
use sq_model::place::Limits;
use sq_sample::sampler::HomeCount;
use sq_steps::journal::Journal;
use sq_steps::journals::{Journals, journal_at};
use sq_store::slots::SlotStore;
use std::alloc::{AllocError, Global};
use std::sync::ledger::{Ledger, Share};

/// What is handed back where there is no memory.
#[derive(Drop)]
pub struct Unfinished<C, G, D: Ledger, T: Ledger> {
    pub refusal: Refusal,
    pub service: Service<C, G, D, T>,
    pub sessions: Vec<Session<D, T>>,
}

// What sessions leave together: how many were made, their journals, and their parts of both counts with those that are left.
#[derive(Drop)]
struct Gathered<D: Ledger, T: Ledger> {
    made: u32,
    journals: Vec<Journal>,
    of_directory: Share<D>,
    of_ledger: Share<T>,
}

// A journal comes to these where none of its actor is there.
fn put_first(journals: &mut Vec<Journal>, journal: Journal)
    requires spare { vec_len journals.old < vec_capacity journals.old }
    requires distinct { AreDistinct journals.old.items }
    ensures put { journals.new.items ≡ with_unfound journals.old.items journal (position (is_of_actor journal.actor) journals.old.items) }
    ensures distinct { AreDistinct journals.new.items }
    ensures one_at_most { vec_len journals.new ≤ vec_len journals.old + 1 }
    ensures capacity { vec_capacity journals.new ≡ vec_capacity journals.old }
{
    match journal_at(journals, journal.actor()) {
        Some(_first) => (),
        None => journals.push_reserved(journal),
    }
}

// Takes these sessions in, with the journal of each whose actor is not there yet.
fn gather<D: Ledger, T: Ledger>(all: &mut Gathered<D, T>, sessions: Vec<Session<D, T>>)
    requires spare { vec_len all.old.journals + vec_len sessions ≤ vec_capacity all.old.journals }
    requires distinct { AreDistinct all.old.journals.items }
    requires directory_few { all.old.of_directory.parts ≤ D.parts }
    requires ledger_few { all.old.of_ledger.parts ≤ T.parts }
    ensures journals { all.new.journals.items ≡ with_firsts all.old.journals.items (map (λ s. s.journal) sessions.items) }
    ensures distinct { AreDistinct all.new.journals.items }
    ensures directory_parts { all.new.of_directory.parts ≡ all.old.of_directory.parts + length sessions.items }
    ensures ledger_parts { all.new.of_ledger.parts ≡ all.old.of_ledger.parts + length sessions.items }
    ensures directory { all.new.of_directory.amount ≡ all.old.of_directory.amount + sum_by (λ s. directory_records s.journal.records) sessions.items }
    ensures ledger { all.new.of_ledger.amount ≡ all.old.of_ledger.amount + sum_by (λ s. ledger_records s.journal.records) sessions.items }
    ensures directory_few { all.new.of_directory.parts ≤ D.parts }
    ensures ledger_few { all.new.of_ledger.parts ≤ T.parts }
    ensures spare { vec_len all.new.journals ≤ vec_len all.old.journals + length sessions.items }
    ensures capacity { vec_capacity all.new.journals ≡ vec_capacity all.old.journals }
    ensures made { all.new.made ≡ all.old.made }
{
    for session in sessions {
        let Session {
            journal,
            of_directory,
            of_ledger,
            ..
        } = session;
        all.of_directory.merge(of_directory);
        all.of_ledger.merge(of_ledger);
        put_first(&mut all.journals, journal);
    }
}

// What these sessions leave, and those that were given back.
fn all_of<D: Ledger, T: Ledger>(
    actors: Actors<D, T>,
    sessions: Vec<Session<D, T>>,
    journals: Vec<Journal>,
) -> Gathered<D, T>
    requires spare { vec_len actors.retired + vec_len sessions ≤ vec_capacity journals }
    requires none { journals.items ≡ [] }
    requires of_directory { HasSeats D.parts }
    requires of_ledger { HasSeats T.parts }
    ensures made { result.made ≡ actors.made }
    ensures journals { result.journals.items ≡ with_firsts (with_firsts [] (map (λ s. s.journal) sessions.items)) (map (λ s. s.journal) actors.retired.items) }
    ensures distinct { AreDistinct result.journals.items }
    ensures directory_parts { result.of_directory.parts ≡ actors.of_directory.parts + length sessions.items + length actors.retired.items }
    ensures ledger_parts { result.of_ledger.parts ≡ actors.of_ledger.parts + length sessions.items + length actors.retired.items }
    ensures directory { result.of_directory.amount ≡ sum_by (λ s. directory_records s.journal.records) sessions.items + sum_by (λ s. directory_records s.journal.records) actors.retired.items }
    ensures ledger { result.of_ledger.amount ≡ sum_by (λ s. ledger_records s.journal.records) sessions.items + sum_by (λ s. ledger_records s.journal.records) actors.retired.items }
    ensures directory_few { result.of_directory.parts ≤ 4294967296 }
    ensures ledger_few { result.of_ledger.parts ≤ 4294967296 }
{
    let Actors {
        made,
        of_directory,
        of_ledger,
        retired,
        ..
    } = actors;
    let mut all = Gathered {
        made,
        journals,
        of_directory,
        of_ledger,
    };
    gather(&mut all, sessions);
    gather(&mut all, retired);
    all
}

// The parts that are left of what lay under the locks, with the journals of these sessions and of those that were given back.
fn left_parts<D: Ledger, T: Ledger>(
    actors: Actors<D, T>,
    directory: CountedDirectory<D>,
    ledger: CountedLedger<T>,
    homes: Homes,
    sessions: Vec<Session<D, T>>,
    journals: Vec<Journal>,
) -> Parts
    requires spare { vec_len actors.retired + vec_len sessions ≤ vec_capacity journals }
    requires none { journals.items ≡ [] }
    requires of_directory { HasSeats D.parts }
    requires of_ledger { HasSeats T.parts }
    ensures records { result.records ≡ first_of_each (map (λ s. s.journal) sessions.items ++ map (λ s. s.journal) actors.retired.items) }
    ensures made { result.made ≡ actors.made }
    ensures fewer { length sessions.items + length actors.retired.items ≤ result.made }
    ensures directory { result.directory ≡ directory.directory }
    ensures ledger { result.ledger ≡ ledger.ledger }
    ensures homes { result.homes ≡ homes }
    ensures directory_counted { length result.records ≡ result.made → length result.directory.events ≡ sum_by (λ a. directory_records a.records) result.records }
    ensures ledger_counted { length result.records ≡ result.made → length result.ledger.history.events ≡ sum_by (λ a. ledger_records a.records) result.records }
{
    let Gathered {
        made,
        journals,
        mut of_directory,
        mut of_ledger,
    } = all_of(actors, sessions, journals);
    let CountedDirectory {
        directory,
        mut tallies,
    } = directory;
    tallies.audit(&mut of_directory);
    let CountedLedger {
        ledger,
        tallies: mut shared,
    } = ledger;
    shared.audit(&mut of_ledger);
    Parts {
        directory,
        ledger,
        homes,
        records: Journals::of(journals),
        made: made as u64,
    }
}

// The homes out of their locks, each at its index. One at another's index, which never is, leaves none of its history.
fn unlocked(
    alloc: Global,
    per_queue: HomeCount,
    out: Vec<Home>,
    places: Vec<Placed<SlotStore>>,
) -> Vec<Home>
    requires spare { vec_len places ≤ vec_capacity out }
    requires none { out.items ≡ [] }
    requires few { vec_len places ≤ 16384 }
    ensures many { length result.items ≡ vec_len places }
    ensures numbered { IsNumbered per_queue result.items }
{
    let mut out = out;
    let mut index = 0u32;
    for place in places {
        out.push_reserved(home_at(alloc, per_queue, index, place.into_home()));
        index += 1;
    }
    out
}

// The home, where its index is this one; else one that was never opened.
fn home_at(alloc: Global, per_queue: HomeCount, index: u32, found: HomeWithId) -> Home
    requires few { index < 16384 }
    ensures at { result.site.home ≡ home_id per_queue index }
    ensures same { found.id ≡ home_id per_queue index → result ≡ found.home }
{
    let limits = Limits {
        rows: 1,
        flights: 1,
    };
    if found.id == id_at(per_queue, index) {
        found.home
    } else {
        never_opened(alloc, per_queue, &limits, index)
    }
}

// Memory for what is to be gathered.
fn memory_for<D: Ledger, T: Ledger>(
    alloc: Global,
    actors: &Actors<D, T>,
    sessions: &Vec<Session<D, T>>,
    homes: &Vec<Placed<SlotStore>>,
) -> Result<(Vec<Journal>, Vec<Home>), AllocError>
    ensures journals { IfOk result (λ r. (r.0.items ≡ []) × (vec_len actors.now.retired + vec_len sessions.now ≤ vec_capacity r.0)) }
    ensures homes { IfOk result (λ r. (r.1.items ≡ []) × (vec_len homes.now ≤ vec_capacity r.1)) }
{
    let many = actors
        .retired
        .len()
        .checked_add(sessions.len())
        .ok_or(AllocError)?;
    let journals = Vec::with_capacity(alloc, many)?;
    let homes = Vec::with_capacity(alloc, homes.len())?;
    Ok((journals, homes))
}

/// Of actors of which each is there once, all journals are kept. It does nothing: its contract is the law.
pub fn distinct_are_kept()
    ensures { (journals : List JournalValue) → AreDistinct journals → first_of_each journals ≡ journals }
{}

impl<C: Drop, G: Drop, D: Ledger, T: Ledger> Serving<C, G, D, T, SlotStore> {
    /// Ends the service. The parts have the journals of these sessions, and then of those that were given back: of each actor the
    /// first, though no two sessions of a service are of one actor. Where all sessions that were made are among them, each
    /// history has as many events as the tallies say. Refused for memory alone, and everything is handed back then.
    pub fn finish(self, sessions: Vec<Session<D, T>>) -> Result<Parts, Unfinished<C, G, D, T>>
        requires of_directory { HasSeats D.parts }
        requires of_ledger { HasSeats T.parts }
        ensures records { IfOk result (λ p. (retired : List JournalValue) × (p.records ≡ first_of_each (map (λ s. s.journal) sessions.items ++ retired)) × (length sessions.items + length retired ≤ p.made)) }
        ensures made { IfOk result (λ p. p.made ≤ 4294967295) }
        ensures directory { IfOk result (λ p. length p.records ≡ p.made → length p.directory.events ≡ sum_by (λ a. directory_records a.records) p.records) }
        ensures ledger { IfOk result (λ p. length p.records ≡ p.made → length p.ledger.history.events ≡ sum_by (λ a. ledger_records a.records) p.records) }
        ensures homes { IfOk result (λ p. (p.homes.per_queue ≡ self.per_queue) × (length p.homes.homes ≡ vec_len self.homes)) }
        ensures refused { IfErr result (λ u. (u.refusal ≡ Refusal.NoMemory) × (u.sessions ≡ sessions) × (vec_len u.service.homes ≡ vec_len self.homes)) }
        ensures handed_back { IfErr result (λ u. (u.service.clock ≡ self.clock) × (u.service.gate ≡ self.gate) × (u.service.per_queue ≡ self.per_queue) × (u.service.sample ≡ self.sample)) }
        ensures parts_back { IfErr result (λ u. (u.service.homes ≡ self.homes) × (u.service.directory ≡ self.directory) × (u.service.ledger ≡ self.ledger)) }
    {
        let mut service = self;
        let alloc = service.alloc;
        let actors = service.actors.into_inner().into_inner();
        let Ok((journals, out)) = memory_for(alloc, &actors, &sessions, &service.homes) else {
            service.actors = under_lock(actors);
            return Err(Unfinished {
                refusal: Refusal::NoMemory,
                service,
                sessions,
            });
        };
        let Serving {
            per_queue,
            homes,
            directory,
            ledger,
            ..
        } = service;
        let directory = directory.into_inner().into_inner();
        let ledger = ledger.into_inner().into_inner();
        let homes = Homes::of(per_queue, unlocked(alloc, per_queue, out, homes));
        Ok(left_parts(actors, directory, ledger, homes, sessions, journals))
    }
}
