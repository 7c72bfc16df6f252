//! Whether the records of all actors and the histories of all parts are of each other, and what is in two histories is the
//! same in both.
ghost use Rattle.std.specs.Prelude.{◌≡◌, ◌≢◌, ◌↔◌, ◌<◌, ℕ, true, false, length, slice_get, Some, OnOk, IfErr, IsOk};
ghost use Rattle.sq_model.specs.declared.calls.HomeCall.{HomeCall as Call};
ghost use Rattle.sq_model.specs.Ledgers.{is_own};
ghost use Rattle.sq_model.specs.Passages.{is_alone};
ghost use Rattle.sq_model.specs.RecordValues.{OfHome, place_of_record};
ghost use Rattle.sq_model.specs.Replays.{HomeEvent};
ghost use Rattle.sq_model.specs.Matches.{HasItsEvent, InHome, IsMatched, IsOfLedger, IsPaired, IsRecorded, is_shared_as};
ghost use Rattle.sq_steps.specs.Records.{value_of_record};
ghost use Rattle.sq_steps.specs.Journals.{RecordsRiseAt, AreDistinct};
ghost use Rattle.sq_history.specs.HomeIds.{home_id};
ghost use Rattle.sq_audit.specs.HomeHistories.{histories_of};
ghost use Rattle.sq_audit.specs.Faults.{FaultHolds, IsWrong};
ghost use Rattle.sq_audit.specs.inside.Faults.{RecordFits, DirectoryFits, LedgerFits, HomeFits, LedgerHas, HomeHas, IsWithoutPartner, unmatched, IsRecordFault, IsAt, IsPartThere, IsRecordedAt, IsEventFault, EventFits, HasEventFault, HasPartner};

use crate::homes::Homes;
use crate::names::has_name;
use sq_base::ids::HomeId;
use sq_base::stamp::Stamp;
use sq_directory::directory::Directory;
use sq_directory::events::has_directory_event;
use sq_history::events::has_home_event;
use sq_history::homes::home_index;
use sq_history::record::LentHomeRecord;
use sq_history::recorded::Home;
use sq_ledger::events::{has_ledger_event, has_shared_event, is_alone, is_leave, is_shared_event};
use sq_ledger::ledger::TransitLedger;
use sq_log::blocks::Blocks;
use sq_log::events::event_at;
use sq_model::calls::HomeCall;
use sq_model::event::Event;
use sq_model::ledger::{LedgerCall, LedgerReply};
use sq_model::place::Component;
use sq_model::replies::HomeReply;
use sq_sample::sampler::HomeCount;
use sq_steps::journal::Journal;
use sq_steps::journals::journal_at;
use sq_steps::record::Record;
use std::marker::Model;

/// Why records and histories are not of each other, or two histories do not agree.
#[derive(Clone, Copy, PartialEq, Eq, Debug)]
pub enum AuditFault {
    NoMemory,
    /// Of this actor and place: an event without an agreeing record, a record without an agreeing event or without its
    /// queue's name, or a place that is left out.
    RecordMissing(u32, u64),
    /// Of this actor and place: two events.
    RecordTwice(u32, u64),
    /// A leave of this stamp that stands in the history of a home or of the ledger, and not in the other's.
    LeaveUnmatched(Stamp),
    /// What was done with an item at this stamp, and stands in the history of a home or of the ledger alone: it came in,
    /// was sent back or was dropped.
    EnterUnmatched(Stamp),
}

// The part that an event has its record of: the directory, the ledger alone, or the home at an index.
#[derive(Clone, Copy)]
pub(crate) enum Part {
    Directory,
    Ledger,
    Home(usize),
}

/// What an audit compares: the histories of all parts, each home at its number, and the records of all actors, each of them
/// once. Where the directory's history first has each queue tells where to look first, and no more.
#[derive(Drop)]
pub(crate) struct Evidence<'a> {
    directory: &'a Directory,
    creations: &'a [usize],
    ledger: &'a TransitLedger,
    per_queue: HomeCount,
    homes: &'a [Home],
    journals: &'a [Journal],
}

impl<'a> Model for Evidence<'a> {
    ghost use Rattle.sq_steps.specs.Journals.{AreDistinct};
    ghost use Rattle.sq_history.specs.HomeIds.{IsNumbered};
    ghost use Rattle.sq_audit.specs.HomeHistories.{histories_of};
    ghost use Rattle.sq_audit.specs.inside.EvidenceValue.{EvidenceValue};

    ghost Value = { EvidenceValue };

    ghost view = { λ e. record { directory = e.directory.now.events; ledger = e.ledger.now.history.events; per_queue = e.per_queue; homes = histories_of e.homes.now; journals = e.journals.now } };

    ghost invariant = { λ e. record { numbered : IsNumbered e.per_queue e.homes.now; distinct : AreDistinct e.journals.now } };
}

impl<'a> Evidence<'a> {
    pub(crate) fn of(
        directory: &'a Directory,
        creations: &'a [usize],
        ledger: &'a TransitLedger,
        homes: &'a Homes,
        journals: &'a [Journal],
    ) -> Evidence<'a>
        requires { AreDistinct journals.now }
        ensures { result ≡ record { directory = directory.now.events; ledger = ledger.now.history.events; per_queue = homes.now.per_queue; homes = histories_of homes.now.homes; journals = journals.now } }
    {
        Evidence {
            directory,
            creations,
            ledger,
            per_queue: homes.per_queue(),
            homes: homes.as_slice(),
            journals,
        }
    }
}

/// Whether records and histories are of each other, and what homes and the ledger share stands in both histories; else what
/// is wrong. It takes no memory. The event that a queue's creation names is the first that is looked at for the queue's
/// name.
pub(crate) fn check(evidence: &Evidence<'_>) -> Result<(), AuditFault>
    ensures ok { OnOk result (IsMatched evidence.now.directory evidence.now.ledger evidence.now.homes evidence.now.journals) }
    ensures paired { OnOk result (IsPaired evidence.now.ledger evidence.now.homes) }
    ensures rise { OnOk result ((b : ℕ) → RecordsRiseAt evidence.now.journals b) }
    ensures fault { IfErr result (λ f. FaultHolds evidence.now.directory evidence.now.ledger evidence.now.homes evidence.now.journals f) }
    ensures never { IfErr result (λ f. f ≢ AuditFault.NoMemory) }
    ensures honest { IsMatched evidence.now.directory evidence.now.ledger evidence.now.homes evidence.now.journals → IsPaired evidence.now.ledger evidence.now.homes → IsOk result }
{
    // What is always true of the evidence is known to the prover once a part of it is read.
    let _ = &evidence.journals;
    check_journals(evidence)?;
    check_directory(evidence)?;
    check_ledger(evidence)?;
    check_homes(evidence)?;
    check_shared(evidence)?;
    Ok(())
}

// All records of all actors.
fn check_journals(evidence: &Evidence<'_>) -> Result<(), AuditFault>
    ensures ok { OnOk result ((b i : ℕ) → RecordFits evidence.now.directory evidence.now.ledger evidence.now.homes evidence.now.journals b i) }
    ensures rise { OnOk result ((b : ℕ) → RecordsRiseAt evidence.now.journals b) }
    ensures fault { IfErr result (λ f. IsWrong evidence.now.directory evidence.now.ledger evidence.now.homes evidence.now.journals f) }
{
    let journals = evidence.journals;
    for at in 0..journals.len() {
        check_journal(evidence, at)?;
    }
    Ok(())
}

// All records of one actor.
fn check_journal(evidence: &Evidence<'_>, at: usize) -> Result<(), AuditFault>
    requires within { at < length evidence.now.journals }
    ensures ok { OnOk result ((i : ℕ) → RecordFits evidence.now.directory evidence.now.ledger evidence.now.homes evidence.now.journals at i) }
    ensures rise { OnOk result (RecordsRiseAt evidence.now.journals at) }
    ensures fault { IfErr result (λ f. IsWrong evidence.now.directory evidence.now.ledger evidence.now.homes evidence.now.journals f) }
{
    let journals = evidence.journals;
    let journal = &journals[at];
    let actor = journal.actor();
    for index in 0..journal.len() {
        let kept = journal.record(index);
        check_record(evidence, actor, index, &kept)?;
    }
    Ok(())
}

// One record: it stands at the number of its step, and the step was done.
fn check_record(
    evidence: &Evidence<'_>,
    actor: u32,
    index: usize,
    kept: &Record<'_>,
) -> Result<(), AuditFault>
    ensures place { OnOk result (place_of_record (value_of_record kept.now) ≡ index) }
    ensures has_its_event { OnOk result (HasItsEvent evidence.now.directory evidence.now.ledger evidence.now.homes actor (value_of_record kept.now)) }
    ensures fault { IfErr result (IsRecordFault evidence.now.directory evidence.now.ledger evidence.now.homes actor index (value_of_record kept.now)) }
{
    let place = kept.place();
    if place != index as u64 {
        return Err(AuditFault::RecordMissing(actor, index as u64));
    }
    if has_its_event(evidence, actor, kept) {
        Ok(())
    } else {
        Err(AuditFault::RecordMissing(actor, place))
    }
}

// Whether a record is of an event of this actor.
fn has_its_event(evidence: &Evidence<'_>, actor: u32, kept: &Record<'_>) -> bool
    ensures { result ≡ true ↔ HasItsEvent evidence.now.directory evidence.now.ledger evidence.now.homes actor (value_of_record kept.now) }
{
    match kept {
        Record::Directory(kept) => has_directory_event(evidence.directory, actor, kept),
        Record::Ledger(kept) => has_ledger_event(evidence.ledger, actor, kept),
        Record::Home(kept) => home_has_its_event(evidence, actor, kept),
    }
}

// Whether a home has the event of a record, and the name that the record bears was its queue's.
fn home_has_its_event(evidence: &Evidence<'_>, actor: u32, kept: &LentHomeRecord<'_>) -> bool
    ensures { result ≡ true ↔ HasItsEvent evidence.now.directory evidence.now.ledger evidence.now.homes actor (OfHome kept.now) }
{
    let homes = evidence.homes;
    let Some(index) = home_index(evidence.per_queue, homes.len(), kept.home()) else {
        return false;
    };
    let home = &homes[index];
    has_home_event(home, actor, kept) && has_name(evidence.directory, evidence.creations, kept)
}

// All events of the directory.
fn check_directory(evidence: &Evidence<'_>) -> Result<(), AuditFault>
    requires fit { (b i : ℕ) → RecordFits evidence.now.directory evidence.now.ledger evidence.now.homes evidence.now.journals b i }
    ensures ok { OnOk result ((k : ℕ) → DirectoryFits evidence.now.directory evidence.now.journals k) }
    ensures fault { IfErr result (λ f. IsWrong evidence.now.directory evidence.now.ledger evidence.now.homes evidence.now.journals f) }
{
    check_events(evidence, Part::Directory, evidence.directory.events())
}

// All events of the ledger: what it shares with a home stands in that home's history too, and what is its own has its
// record.
fn check_ledger(evidence: &Evidence<'_>) -> Result<(), AuditFault>
    requires fit { (b i : ℕ) → RecordFits evidence.now.directory evidence.now.ledger evidence.now.homes evidence.now.journals b i }
    ensures records { OnOk result ((k : ℕ) → LedgerFits evidence.now.ledger evidence.now.journals k) }
    ensures partners { OnOk result ((k : ℕ) → HomeHas evidence.now.ledger evidence.now.homes k) }
    ensures fault { IfErr result (λ f. IsWrong evidence.now.directory evidence.now.ledger evidence.now.homes evidence.now.journals f) }
{
    let ledger = evidence.ledger;
    let moved = ledger.events();
    for index in 0..moved.len() {
        let event = &moved[index];
        check_ledger_event(evidence, index, event)?;
    }
    Ok(())
}

// One event of the ledger.
fn check_ledger_event(
    evidence: &Evidence<'_>,
    index: usize,
    event: &Event<LedgerCall, LedgerReply>,
) -> Result<(), AuditFault>
    requires fit { (b i : ℕ) → RecordFits evidence.now.directory evidence.now.ledger evidence.now.homes evidence.now.journals b i }
    requires there { slice_get evidence.now.ledger index ≡ Some event.now }
    requires shared { is_shared_as is_alone event.now.call ≡ false }
    ensures records { OnOk result (is_own event.now.call ≡ true → IsRecorded evidence.now.journals event.now.actor (IsOfLedger index event.now)) }
    ensures partners { OnOk result (is_own event.now.call ≡ false → InHome evidence.now.homes event.now) }
    ensures fault { IfErr result (λ f. IsWrong evidence.now.directory evidence.now.ledger evidence.now.homes evidence.now.journals f) }
{
    // What is always true of the evidence is known to the prover once a part of it is read.
    let _ = &evidence.ledger;
    let by = (event.actor, event.place);
    match &event.call {
        LedgerCall::AtHome(home, call) => {
            if has_partner(evidence, home, event) {
                Ok(())
            } else {
                Err(unmatched(call, event.stamp))
            }
        }
        _ => check_event(evidence, by, Part::Ledger, index),
    }
}

// Whether the home that the ledger shares an event with has it too.
fn has_partner(
    evidence: &Evidence<'_>,
    home: &HomeId,
    event: &Event<LedgerCall, LedgerReply>,
) -> bool
    requires shared { is_shared_as is_alone event.now.call ≡ false }
    requires of_home { (call : Call) × (event.now.call ≡ LedgerCall.AtHome home.now call) }
    ensures { result ≡ true ↔ InHome evidence.now.homes event.now }
{
    let homes = evidence.homes;
    let Some(index) = home_index(evidence.per_queue, homes.len(), home) else {
        return false;
    };
    let kept = &homes[index];
    match event_at(kept.events(), event.stamp) {
        Some(other) => is_shared_event(event, home, other),
        None => false,
    }
}

// What is said of a shared step without its partner.
fn unmatched(call: &HomeCall, stamp: Stamp) -> AuditFault
    ensures { result ≡ unmatched call.now stamp }
{
    if is_leave(call) {
        AuditFault::LeaveUnmatched(stamp)
    } else {
        AuditFault::EnterUnmatched(stamp)
    }
}

// All events of all homes.
fn check_homes(evidence: &Evidence<'_>) -> Result<(), AuditFault>
    requires fit { (b i : ℕ) → RecordFits evidence.now.directory evidence.now.ledger evidence.now.homes evidence.now.journals b i }
    ensures ok { OnOk result ((j k : ℕ) → HomeFits evidence.now.homes evidence.now.journals j k) }
    ensures fault { IfErr result (λ f. IsWrong evidence.now.directory evidence.now.ledger evidence.now.homes evidence.now.journals f) }
{
    let homes = evidence.homes;
    for index in 0..homes.len() {
        let home = &homes[index];
        check_events(evidence, Part::Home(index), home.events())?;
    }
    Ok(())
}

// All events of a part.
fn check_events<K, R>(
    evidence: &Evidence<'_>,
    part: Part,
    events: &Blocks<Event<K, R>>,
) -> Result<(), AuditFault>
    requires within { IsPartThere evidence.now.homes part }
    ensures ok { OnOk result ((k : ℕ) → EventFits evidence.now.per_queue evidence.now.journals part events.now.items k) }
    ensures fault { IfErr result (HasEventFault evidence.now.per_queue evidence.now.journals part events.now.items) }
{
    for index in 0..events.len() {
        let event = &events[index];
        let by = (event.actor, event.place);
        check_event(evidence, by, part, index)?;
    }
    Ok(())
}

// One event of a part, by its actor and its number: the record of this number is there, and names the event. One that
// names another event agrees with that one.
fn check_event(
    evidence: &Evidence<'_>,
    by: (u32, u64),
    part: Part,
    index: usize,
) -> Result<(), AuditFault>
    requires within { IsPartThere evidence.now.homes part }
    ensures ok { OnOk result (IsRecordedAt evidence.now.journals by.0 by.1 (IsAt evidence.now.per_queue part index)) }
    ensures fault { IfErr result (IsEventFault evidence.now.per_queue evidence.now.journals by.0 by.1 part index) }
{
    let (actor, place) = by;
    let journals = evidence.journals;
    let Some(at) = journal_at(journals, actor) else {
        return Err(AuditFault::RecordMissing(actor, place));
    };
    let journal = &journals[at];
    if place >= journal.len() as u64 {
        return Err(AuditFault::RecordMissing(actor, place));
    }
    let kept = journal.record(place as usize);
    if is_at(evidence, part, index, &kept) {
        Ok(())
    } else {
        Err(AuditFault::RecordTwice(actor, place))
    }
}

// Whether a record names this event of a part.
fn is_at(evidence: &Evidence<'_>, part: Part, index: usize, kept: &Record<'_>) -> bool
    requires within { IsPartThere evidence.now.homes part }
    ensures { result ≡ true ↔ IsAt evidence.now.per_queue part index (value_of_record kept.now) }
{
    match (part, kept) {
        (Part::Directory, Record::Directory(kept)) => kept.step().index == index as u64,
        (Part::Ledger, Record::Ledger(kept)) => kept.step().index == index as u64,
        (Part::Home(at), Record::Home(kept)) => {
            is_home_at(evidence, at, kept.home()) && kept.step().index == index as u64
        }
        _ => false,
    }
}

// Whether the home at an index has this id.
fn is_home_at(evidence: &Evidence<'_>, index: usize, id: &HomeId) -> bool
    requires within { index < length evidence.now.homes }
    ensures { result ≡ true ↔ id.now ≡ home_id evidence.now.per_queue index }
{
    match home_index(evidence.per_queue, evidence.homes.len(), id) {
        Some(at) => at == index,
        None => false,
    }
}

// All that the homes share with the ledger stands in its history too.
fn check_shared(evidence: &Evidence<'_>) -> Result<(), AuditFault>
    ensures ok { OnOk result ((j k : ℕ) → LedgerHas evidence.now.ledger evidence.now.homes j k) }
    ensures fault { IfErr result (λ f. IsWrong evidence.now.directory evidence.now.ledger evidence.now.homes evidence.now.journals f) }
{
    let homes = evidence.homes;
    for index in 0..homes.len() {
        let home = &homes[index];
        check_partners(evidence.ledger, home.events())?;
    }
    Ok(())
}

// And so with what is shared of the events of one home.
fn check_partners(
    ledger: &TransitLedger,
    events: &Blocks<Event<HomeCall, HomeReply>>,
) -> Result<(), AuditFault>
    ensures ok { OnOk result ((k : ℕ) (e : HomeEvent) → slice_get events.now.items k ≡ Some e → HasPartner ledger.now.history.events e) }
    ensures fault { IfErr result (λ f. (k : ℕ) × (e : HomeEvent) × (slice_get events.now.items k ≡ Some e) × IsWithoutPartner ledger.now.history.events e f) }
{
    for at in 0..events.len() {
        check_partner(ledger, &events[at])?;
    }
    Ok(())
}

// One event of the home that it names: where it is shared with the ledger, it stands in the ledger's history too.
fn check_partner(
    ledger: &TransitLedger,
    event: &Event<HomeCall, HomeReply>,
) -> Result<(), AuditFault>
    ensures ok { OnOk result (HasPartner ledger.now.history.events event.now) }
    ensures fault { IfErr result (IsWithoutPartner ledger.now.history.events event.now) }
{
    if is_alone(&event.call) {
        return Ok(());
    }
    match &event.component {
        Component::Home(home) if !has_shared_event(ledger, home, event) => {
            Err(unmatched(&event.call, event.stamp))
        }
        _ => Ok(()),
    }
}
