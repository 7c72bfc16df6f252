//! The steps that a home and the ledger do together, each half over what is lent.
ghost use Rattle.std.specs.Prelude.{◌≡◌, ◌<◌, Ok, IfOk, IfErr, IfSome, IfNone, OnErr};
ghost use Rattle.sq_base.specs.Stamps.{Below};
ghost use Rattle.sq_model.specs.declared.shared.SharedAct.TheVariants as asks;
ghost use Rattle.sq_model.specs.HomeLeaves.{leave_asked};
ghost use Rattle.sq_model.specs.ItemActs.{asked_with};
ghost use Rattle.sq_model.specs.Shared.{shared_stamp};
ghost use Rattle.sq_ledger.specs.LedgerHistories.{IsPrepared, LedgerShares};
ghost use Rattle.sq_steps.specs.SharedSteps.{IsSharedRefused, IsUnmoved, SharedMoves};
ghost use Rattle.sq_steps.specs.inside.SharedSteps.{IsPairReady, IsToldLeft, PairEnds};

use crate::act::SharedAct;
use crate::journal::{Journal, count, ready};
use sq_base::name::QueueName;
use sq_base::refusal::Refusal;
use sq_base::stamp::Stamp;
use sq_history::record::HomeRecord;
use sq_history::recorded::Home;
use sq_history::shared::StampedStep;
use sq_ledger::ledger::{SharedEvent, TransitLedger};
use sq_model::calls::HomeCall;
use sq_model::event::Actor;
use sq_model::item::{Item, ItemNo, TaskNo};
use sq_model::replies::HomeReply;
use sq_model::shared::{HomeLeave, ItemAct};
use std::alloc::Global;

// The stamp of a step of both: above the last one of each, above what the actor saw, and not before the clock reading.
fn stamp_of_both(home: Stamp, ledger: Stamp, seen: Stamp, now: u64) -> Result<Stamp, Refusal>
    ensures stamp { result ≡ shared_stamp home ledger seen now }
    ensures above_home { IfOk result (Below home) }
    ensures above_ledger { IfOk result (Below ledger) }
    ensures above_seen { IfOk result (Below seen) }
{
    let above_both = Stamp::after(home, ledger, now)?;
    Stamp::after(above_both, seen, now)
}

// The moment of the stamp that is given; 0 where none is.
fn moment_of(given: &Result<Stamp, Refusal>) -> u64
    ensures { IfOk given.now (λ stamp. result ≡ stamp.moment) }
{
    match given {
        Ok(stamp) => stamp.moment,
        Err(_) => 0,
    }
}

// The ledger's event of a step of which the home's half is done, by its record and what is kept for the ledger.
fn event_of<'a>(
    kept: (HomeCall, HomeReply),
    step: &'a StampedStep,
    its_record: &'a HomeRecord,
) -> SharedEvent<'a>
    ensures by { result.by.now ≡ step.now.by }
    ensures stamp { result.stamp ≡ its_record.now.stamp }
    ensures home { result.home.now ≡ its_record.now.home }
    ensures kept { result.kept ≡ kept }
{
    SharedEvent {
        by: &step.by,
        stamp: its_record.step().stamp,
        home: its_record.home(),
        kept,
    }
}

// A message leaves the home so, and is an item of the ledger; none where none may leave.
#[tactic(auto, using(crate::proofs::SharedLaws::idle_is_unrecorded, crate::proofs::SharedLaws::leave_is_asked))]
fn leave(
    home: &mut Home,
    ledger: &mut TransitLedger,
    step: StampedStep,
    what: HomeLeave,
) -> Result<Option<(HomeReply, HomeRecord)>, Refusal>
    requires { IsPairReady home.old ledger.old step.by step.stamp }
    ensures { PairEnds home.old home.new ledger.old.history ledger.new.history step.by step.stamp step.name (leave_asked what) result }
{
    let number = ledger.next_number();
    let Some((half, item)) = home.leave(&step, what, number)? else {
        return Ok(None);
    };
    let event = event_of(half.for_ledger, &step, &half.its_record);
    ledger.take_in(event, item);
    Ok(Some((half.answered, half.its_record)))
}

// A live message leaves the home for a task, and is an item of the ledger; or the ledger notes that none left. None where
// the task is at its rate.
fn leave_task(
    home: &mut Home,
    ledger: &mut TransitLedger,
    step: StampedStep,
    number: TaskNo,
) -> Result<Option<(HomeReply, HomeRecord)>, Refusal>
    requires { IsPairReady home.old ledger.old step.by step.stamp }
    ensures { PairEnds home.old home.new ledger.old.history ledger.new.history step.by step.stamp step.name (asks.LeaveTask number) result }
{
    let asked = ledger.task_leave(&home.id(), number, moment_of(&step.stamp));
    let Some((half, left)) = home.leave_task(&step, &asked)? else {
        return Ok(None);
    };
    let event = event_of(half.for_ledger, &step, &half.its_record);
    tell_left(ledger, event, left, number);
    Ok(Some((half.answered, half.its_record)))
}

// The ledger takes in the item that left for a task of a number, or notes that none did.
fn tell_left(ledger: &mut TransitLedger, event: SharedEvent<'_>, left: Option<Item>, number: TaskNo)
    requires prepared { IsPrepared ledger.old }
    requires above { Below ledger.old.history.last event.stamp }
    requires told { IsToldLeft ledger.old.history.ledger event.stamp.moment event.home.now number event.kept.0 event.kept.1 left }
    requires ready { IfSome left (λ _. 0 < ledger.old.item_reserved) }
    ensures shares { LedgerShares ledger.old.history ledger.new.history event.entry.by.now event.entry.stamp event.entry.home.now event.entry.kept.0 event.entry.kept.1 }
{
    match left {
        Some(item) => ledger.take_in(event, item),
        None => ledger.take_none(event, number),
    }
}

// This is done with the item of a number.
fn item_step(
    home: &mut Home,
    ledger: &mut TransitLedger,
    step: StampedStep,
    act: ItemAct,
    number: ItemNo,
) -> Result<Option<(HomeReply, HomeRecord)>, Refusal>
    requires { IsPairReady home.old ledger.old step.by step.stamp }
    ensures { PairEnds home.old home.new ledger.old.history ledger.new.history step.by step.stamp step.name (asked_with act number) result }
{
    let half = home.item_step(&step, act, ledger.item(number))?;
    let event = event_of(half.for_ledger, &step, &half.its_record);
    ledger.item_step(event, act, number);
    Ok(Some((half.answered, half.its_record)))
}

// Both halves of a step; none where nothing leaves. What grows in the home does so before a stamp that is not given refuses.
fn both_halves(
    alloc: Global,
    home: &mut Home,
    ledger: &mut TransitLedger,
    by: &Actor,
    stamp: Result<Stamp, Refusal>,
    name: Option<QueueName>,
    act: SharedAct,
) -> Result<Option<(HomeReply, HomeRecord)>, Refusal>
    requires { IsPairReady home.old ledger.old by.now stamp }
    ensures { PairEnds home.old home.new ledger.old.history ledger.new.history by.now stamp name act result }
{
    let step = StampedStep {
        alloc,
        by: *by,
        stamp,
        name,
    };
    let (act, number) = match act {
        SharedAct::LeaveDead => return leave(home, ledger, step, HomeLeave::Dead),
        SharedAct::LeaveDrain => return leave(home, ledger, step, HomeLeave::Drain),
        SharedAct::LeaveTask(number) => return leave_task(home, ledger, step, number),
        SharedAct::Enter(number) => (ItemAct::Enter, number),
        SharedAct::TurnBack(number) => (ItemAct::TurnBack, number),
        SharedAct::GiveBack(number) => (ItemAct::GiveBack, number),
        SharedAct::Drop(number) => (ItemAct::Drop, number),
    };
    item_step(home, ledger, step, act, number)
}

/// A step of a home and the ledger that are lent, by an actor that is lent. All that grows in the actor's records, the ledger and
/// the home does so before the clock, but for a message that leaves, which is found after it, and a row that comes in; then the
/// message moves, and one event stands in each history, with one stamp. None where nothing was there to leave, or a task is at its
/// rate, which is no event and changes nothing. A clock reading is in ms.
/// Refused as NoMemory (the actor's records or either history have no spare memory, or an item is copied), ClockRange, Worn, and then
/// as the home and the ledger: QueueDoesNotExist (not serving; never opened, where an item is sent back or given up, or one is to
/// leave for a task), ResourceNotFoundException (no such task), UnsupportedOperation (a task that does not run, or is of another
/// queue, or a home that does not drain), HomeDraining (a row is to come in at a home that drains, or is drained), Worn and OverLimit (a home or the ledger has no number left, or is full), UnsupportedOperation (no item of this number,
/// not one for this home, or a home that serves where it is to be closed); and where nothing refuses it as NoMemory (a message
/// leaves, or its row comes in where the home shows no spare memory).
pub fn shared_step(
    alloc: Global,
    home: &mut Home,
    ledger: &mut TransitLedger,
    journal: &mut Journal,
    now: u64,
    name: Option<QueueName>,
    act: SharedAct,
) -> Result<Option<HomeReply>, Refusal>
    ensures step { IfOk result (λ told. IfSome told (SharedMoves home.old home.new ledger.old.history ledger.new.history journal.old journal.new now name act)) }
    ensures none { IfOk result (λ told. IfNone told (IsUnmoved home.old ledger.old.history journal.old now act)) }
    ensures none_home { IfOk result (λ told. IfNone told (home.new ≡ home.old)) }
    ensures none_ledger { IfOk result (λ told. IfNone told (ledger.new.history ≡ ledger.old.history)) }
    ensures none_journal { IfOk result (λ told. IfNone told (journal.new ≡ journal.old)) }
    ensures refusal { IfErr result (IsSharedRefused home.old ledger.old.history journal.old now act) }
    ensures home_err { OnErr result (home.new ≡ home.old) }
    ensures ledger_err { OnErr result (ledger.new.history ≡ ledger.old.history) }
    ensures journal_err { OnErr result (journal.new ≡ journal.old) }
{
    ready(&journal.by, &mut journal.records, now)?;
    ledger.prepare()?;
    // Why no stamp is given is told by the home's half, once that has grown.
    let stamp = stamp_of_both(home.last(), ledger.last(), journal.by.seen, now);
    match both_halves(alloc, home, ledger, &journal.by, stamp, name, act)? {
        Some((reply, record)) => {
            count(&mut journal.by, record.step().stamp);
            journal.records.push_home(record);
            Ok(Some(reply))
        }
        None => Ok(None),
    }
}
