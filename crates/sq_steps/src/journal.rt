//! What an actor has seen, and the records of its steps; a step with its record.
ghost use Rattle.std.specs.Prelude.{◌≡◌, ◌≢◌, ◌⊎◌, ◌==◌, ◌+◌, ◌<◌, [], Some, length, slice_get, IfOk, IfErr, OnOk, OnErr};
ghost use Rattle.std.specs.List.{list_any};
ghost use Rattle.sq_model.specs.RecordValues.{RecordsRise, place_of_record};
ghost use Rattle.sq_history.specs.Acts.{call_of};
ghost use Rattle.sq_log.specs.Spares.{IsReady};
ghost use Rattle.sq_directory.specs.Makers.{IsAnsweredByName};
ghost use Rattle.sq_steps.specs.Records.{value_of_record};
ghost use Rattle.sq_steps.specs.Journals.{new_journal, having_seen, without_record, last_place, worn_at, HomeMoves, DirectoryMoves, LedgerMoves, IsHomeRefused, IsDirectoryStepRefused, IsLedgerStepRefused};
ghost use Rattle.sq_ledger.specs.LedgerHistories.{IsLedgerRefused, LedgerRecords};
ghost use Rattle.sq_steps.specs.TaskActs.{task_call};

use crate::act::{HomeAct, TaskAct};
use crate::record::Record;
use crate::records::{Other, Records};
use sq_base::name::QueueName;
use sq_base::refusal::Refusal;
use sq_base::stamp::{STAMP_END, Stamp};
use sq_directory::directory::Directory;
use sq_history::recorded::Home;
use sq_ledger::ledger::TransitLedger;
use sq_ledger::record::LedgerRecord;
use sq_model::directory::{DirectoryCall, DirectoryReply};
use sq_model::event::Actor;
use sq_model::ledger::LedgerReply;
use sq_model::replies::HomeReply;
use std::alloc::Global;
use std::marker::Model;

/// An actor: the number of its next step, the last stamp that it saw, and the records of its steps. Of two records the
/// later one has the higher number and the higher stamp.
#[derive(Drop)]
pub struct Journal {
    pub(crate) by: Actor,
    pub(crate) records: Records,
}

impl Model for Journal {
    ghost use Rattle.sq_model.specs.RecordValues.{Journal};
    ghost use Rattle.sq_steps.specs.Journals.{IsJournal};

    ghost Value = { Journal };

    ghost view = { λ b. record { actor = b.by.number; next = b.by.place; seen = b.by.seen; records = b.records.items; spare = b.records.spare } };

    ghost invariant = { λ b. IsJournal (record { actor = b.by.number; next = b.by.place; seen = b.by.seen; records = b.records.items; spare = b.records.spare }) };
}

impl Journal {
    /// An actor that did nothing yet.
    pub fn new(alloc: Global, actor: u32) -> Journal
        ensures { result ≡ new_journal actor }
    {
        Journal {
            by: Actor {
                number: actor,
                place: 0,
                seen: Stamp::start(),
            },
            records: Records::new(alloc),
        }
    }

    /// The number of the actor.
    pub fn actor(&self) -> u32
        ensures { result ≡ self.now.actor }
    {
        self.by.number
    }

    /// How many records of its steps there are. Of two the later one has the higher number and stamp.
    pub fn len(&self) -> usize
        ensures len { result ≡ length self.now.records }
        ensures rise { RecordsRise self.now.records }
    {
        self.records.len()
    }

    /// The record at a place among them, from 0 upwards.
    pub fn record(&self, index: usize) -> Record<'_>
        requires { index < length self.now.records }
        ensures { slice_get self.now.records index ≡ Some (value_of_record result) }
    {
        self.records.record(index)
    }

    /// The actor has read a part of the system whose last stamp is this.
    pub fn see(&mut self, stamp: Stamp)
        ensures { self.new ≡ having_seen self.old stamp }
    {
        if self.by.seen < stamp {
            self.by.seen = stamp;
        }
    }

    // Takes out the record of the step of this number, and tells whether it was there.
    pub(crate) fn drop_record(&mut self, place: u64) -> bool
        ensures answered { result ≡ list_any (λ n. place_of_record n == place) self.old.records }
        ensures dropped { self.new ≡ without_record place self.old }
    {
        self.records.drop_record(place)
    }
}

// Where the count of an actor's steps is at its end.
fn worn_at(now: u64) -> Refusal
    ensures { result ≡ worn_at now }
{
    if now >= STAMP_END {
        Refusal::ClockRange
    } else {
        Refusal::Worn
    }
}

// Gets memory for the record of an actor's next step. Refused where the count of its steps is at its end, and then as
// NoMemory where there was no spare memory.
pub(crate) fn ready(by: &Actor, records: &mut Records, now: u64) -> Result<(), Refusal>
    ensures items { records.new.items ≡ records.old.items }
    ensures spare { records.new.spare ≡ records.old.spare }
    ensures ready { OnOk result (IsReady records.new.spare records.new.reserved) }
    ensures more { OnOk result (by.now.place < last_place) }
    ensures refused { IfErr result (λ e. ((by.now.place ≡ last_place) × (e ≡ worn_at now)) ⊎ ((by.now.place ≢ last_place) × (e ≡ Refusal.NoMemory) × (records.old.spare ≡ 0) × (records.old.reserved < 4))) }
{
    if by.place == u64::MAX {
        return Err(worn_at(now));
    }
    records.reserve()
}

// Counts an actor's step that was done at a stamp.
pub(crate) fn count(by: &mut Actor, stamp: Stamp)
    requires more { by.old.place < last_place }
    ensures { by.new ≡ record { number = by.old.number; place = by.old.place + 1; seen = stamp } }
{
    by.place += 1;
    by.seen = stamp;
}

/// A step of a home that is lent, by an actor that is lent; all that grows does so before it. A clock reading is in ms.
/// Refused as NoMemory (the actor's records or the home's history have no spare memory, or bytes are copied: of a send,
/// and of a look that gives messages), ClockRange, Worn, and then as the home's call.
pub fn home_step(
    alloc: Global,
    home: &mut Home,
    journal: &mut Journal,
    now: u64,
    name: Option<QueueName>,
    act: HomeAct,
) -> Result<HomeReply, Refusal>
    ensures step { IfOk result (λ reply. HomeMoves home.old home.new journal.old journal.new now name (call_of act) reply) }
    ensures refusal { IfErr result (IsHomeRefused home.old journal.old now (call_of act)) }
    ensures home_err { OnErr result (home.new ≡ home.old) }
    ensures journal_err { OnErr result (journal.new ≡ journal.old) }
{
    ready(&journal.by, &mut journal.records, now)?;
    let (reply, record) = home.step(alloc, &journal.by, now, name, act)?;
    count(&mut journal.by, record.step().stamp);
    journal.records.push_home(record);
    Ok(reply)
}

/// A step of the directory that is lent, by an actor that is lent; all that grows does so before it. A clock reading is
/// in ms. Refused as NoMemory (the actor's records or the directory's history have no spare memory, the call gives a list of queues
/// or is answered with one, or with a policy that has one), ClockRange, Worn, and then as the directory's call.
pub fn directory_step(
    alloc: Global,
    directory: &mut Directory,
    journal: &mut Journal,
    now: u64,
    call: &DirectoryCall,
) -> Result<DirectoryReply, Refusal>
    ensures step { IfOk result (λ reply. DirectoryMoves directory.old directory.new journal.old journal.new now call.now reply) }
    // The queue that is answered was made by the name that was asked.
    ensures made { IfOk result (IsAnsweredByName directory.new.events directory.new.last call.now) }
    ensures refusal { IfErr result (IsDirectoryStepRefused directory.old journal.old now call.now) }
    ensures directory_err { OnErr result (directory.new ≡ directory.old) }
    ensures journal_err { OnErr result (journal.new ≡ journal.old) }
{
    ready(&journal.by, &mut journal.records, now)?;
    let (reply, record) = directory.step(alloc, &journal.by, now, call)?;
    count(&mut journal.by, record.step().stamp);
    journal.records.push_other(Other::Directory(record));
    Ok(reply)
}

// What the ledger does alone, with its record.
fn task_step(
    alloc: Global,
    ledger: &mut TransitLedger,
    by: &Actor,
    now: u64,
    act: &TaskAct,
) -> Result<(LedgerReply, LedgerRecord), Refusal>
    ensures recorded { IfOk result (λ r. LedgerRecords ledger.old.history ledger.new.history by.now now (task_call act.now) r.1) }
    ensures answered { IfOk result (λ r. r.1.reply ≡ r.0) }
    ensures refusal { IfErr result (IsLedgerRefused ledger.old.history by.now now (task_call act.now)) }
    ensures err { OnErr result (ledger.new.history ≡ ledger.old.history) }
{
    match act {
        TaskAct::Start(asked) => {
            let (number, record) = ledger.start_task(by, now, asked)?;
            Ok((LedgerReply::Started(number), record))
        }
        TaskAct::Cancel(number) => {
            let (moved, record) = ledger.cancel_task(by, now, *number)?;
            Ok((LedgerReply::Cancelled(moved), record))
        }
        TaskAct::List(source, most) => {
            let (listed, record) = ledger.list_tasks(alloc, by, now, *source, *most)?;
            Ok((LedgerReply::Listed(listed), record))
        }
        TaskAct::Finish(number) => {
            let record = ledger.finish_task(by, now, *number)?;
            Ok((LedgerReply::Finished, record))
        }
    }
}

/// A step of the ledger alone, which is lent, by an actor that is lent; all that grows does so before it. A clock reading is
/// in ms. Refused as NoMemory (the actor's records or the ledger's history have no spare memory, of a start its tasks too, or tasks
/// are listed), ClockRange, Worn, and then as the ledger's call.
pub fn ledger_step(
    alloc: Global,
    ledger: &mut TransitLedger,
    journal: &mut Journal,
    now: u64,
    act: &TaskAct,
) -> Result<LedgerReply, Refusal>
    ensures step { IfOk result (λ reply. LedgerMoves ledger.old.history ledger.new.history journal.old journal.new now (task_call act.now) reply) }
    ensures refusal { IfErr result (IsLedgerStepRefused ledger.old.history journal.old now (task_call act.now)) }
    ensures ledger_err { OnErr result (ledger.new.history ≡ ledger.old.history) }
    ensures journal_err { OnErr result (journal.new ≡ journal.old) }
{
    ready(&journal.by, &mut journal.records, now)?;
    let (reply, record) = task_step(alloc, ledger, &journal.by, now, act)?;
    count(&mut journal.by, record.step().stamp);
    journal.records.push_other(Other::Ledger(record));
    Ok(reply)
}
