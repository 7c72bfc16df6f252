//! The ledger: the messages that left one queue and are not yet in another, and all that was done to them.
ghost use Rattle.std.specs.Prelude.{◌≡◌, ◌⊎◌, ◌+◌, ◌<◌, ◌≤◌, ◌++◌, ◌∷◌, [], Some, None, IfOk, IfErr, OnOk, find, option_map};
ghost use Rattle.sq_base.specs.Stamps.{start, Below};
ghost use Rattle.sq_model.specs.declared.item.Item.{Item as Moved};
ghost use Rattle.sq_model.specs.declared.replies.HomeReply.TheVariants.{Left};
ghost use Rattle.sq_model.specs.declared.task.Task.{Task as Moving};
ghost use Rattle.sq_model.specs.Ledgers.{TakesOneMore, has_number, is_task, item_of, opening_ledger, peek, transit_refusal};
ghost use Rattle.sq_model.specs.Replays.{StampsRise};
ghost use Rattle.sq_log.specs.Spares.{IsReady, KeepsSpare};
ghost use Rattle.sq_ledger.specs.LedgerHistories.{DoesItem, IsLeaving, IsLedgerKept, IsNoneLeft, IsPrepared, LedgerShares, shared_event};
ghost use Rattle.sq_ledger.specs.inside.ItemMoves.{change_by, tasks_without};

use crate::items::TransitItems;
use crate::tasks::{TaskChange, Tasks};
use sq_base::ids::HomeId;
use sq_base::refusal::Refusal;
use sq_base::stamp::Stamp;
use sq_log::blocks::Blocks;
use sq_log::log::Log;
use sq_model::calls::HomeCall;
use sq_model::event::{Actor, Event};
use sq_model::item::{Item, ItemNo, Reason, TaskNo};
use sq_model::ledger::{LedgerCall, LedgerReply};
use sq_model::place::Component;
use sq_model::replies::HomeReply;
use sq_model::shared::ItemAct;
use sq_model::task::FailureReason;
use std::alloc::Global;
use std::marker::Model;

/// What the ledger keeps of a step that a home shares with it: whose step it was, its stamp, the home, and the call and the
/// reply of the home's event.
#[derive(Drop)]
pub struct SharedEvent<'a> {
    pub by: &'a Actor,
    pub stamp: Stamp,
    pub home: &'a HomeId,
    pub kept: (HomeCall, HomeReply),
}

/// The messages in transit, as items with numbers, the tasks that move messages, and the history of all steps, those
/// that the ledger shares with homes and its own: the ledger is always the replay of it. Moments are in ms. Own.
///
/// A shared step is done at a home and here, at one stamp. It is begun with `prepare`, and with `next_number` or `task_leave` where
/// an item is to come in; what follows takes no memory and is not refused.
#[derive(Drop)]
pub struct TransitLedger {
    items: TransitItems,
    next: u64,
    pub(crate) tasks: Tasks,
    limit: u32,
    pub(crate) log: Log<LedgerCall, LedgerReply>,
}

impl Model for TransitLedger {
    ghost use Rattle.sq_ledger.specs.LedgerHistory.{LedgerValue, history_of};
    ghost use Rattle.sq_ledger.specs.LedgerHistories.{IsLedgerKept};

    ghost Value = { LedgerValue };

    ghost view = { λ t. record { history = history_of t.items.items t.next t.tasks t.limit t.log; reserved = t.log.reserved; item_reserved = t.items.reserved } };

    ghost invariant = { λ t. IsLedgerKept (history_of t.items.items t.next t.tasks t.limit t.log) };
}

impl TransitLedger {
    /// No item and no event. It is to hold so many items at most.
    pub fn new(alloc: Global, limit: u32) -> TransitLedger
        ensures { result.history ≡ record { ledger = opening_ledger limit; last = start; events = []; spare = 0; spare_tasks = 0 } }
    {
        TransitLedger {
            items: TransitItems::new(alloc),
            next: 1,
            tasks: Tasks::new(alloc),
            limit,
            log: Log::new(alloc),
        }
    }

    /// All events, the first first. The ledger is always the replay of them.
    pub fn events(&self) -> &Blocks<Event<LedgerCall, LedgerReply>>
        ensures items { result.now.items ≡ self.now.history.events }
        ensures kept { IsLedgerKept self.now.history }
    {
        self.log.events()
    }

    /// The stamp of the last event; the least stamp where there is none.
    pub fn last(&self) -> Stamp
        ensures { result ≡ self.now.history.last }
    {
        self.log.last()
    }

    /// The item of a number, while it is in transit.
    pub fn item(&self, number: ItemNo) -> Option<&Item>
        ensures { option_map (λ item. item.now) result ≡ item_of number self.now.history.ledger }
    {
        self.items.get(number.get())
    }

    /// The item that comes after a number, in a circle: the first one above it, and where none is, the first of all.
    pub fn peek(&self, after: u64) -> Option<&Item>
        ensures { option_map (λ item. item.now) result ≡ peek after self.now.history.ledger }
    {
        self.items.after(after)
    }

    /// The number of the next item, where one more may come in, for which it then has memory. Refused as Worn (no number is
    /// left), OverLimit (as many items are in transit as may be), and then as NoMemory.
    pub fn next_number(&mut self) -> Result<ItemNo, Refusal>
        ensures history { self.new.history ≡ self.old.history }
        ensures reserved { self.new.reserved ≡ self.old.reserved }
        ensures number { IfOk result (λ number. number ≡ self.old.history.ledger.next_item) }
        ensures takes_one_more { OnOk result (TakesOneMore self.old.history.ledger) }
        ensures passes { OnOk result (transit_refusal self.old.history.ledger ≡ None) }
        ensures ready { OnOk result (0 < self.new.item_reserved) }
        ensures refused { IfErr result (λ e. (transit_refusal self.old.history.ledger ≡ Some e) ⊎ ((transit_refusal self.old.history.ledger ≡ None) × (e ≡ Refusal.NoMemory) × (self.old.item_reserved ≡ 0))) }
    {
        let Some(number) = ItemNo::new(self.next) else {
            return Err(Refusal::Worn);
        };
        if self.items.len() >= self.limit as usize {
            return Err(Refusal::OverLimit);
        }
        self.items.reserve()?;
        Ok(number)
    }

    /// Gets memory for one event more, and for four where it shows no spare memory. Refused as NoMemory where it shows spare memory
    /// for none and has memory for fewer than four.
    pub fn prepare(&mut self) -> Result<(), Refusal>
        ensures history { self.new.history ≡ self.old.history }
        ensures prepared { OnOk result (IsPrepared self.new) }
        ensures refused { IfErr result (λ e. (e ≡ Refusal.NoMemory) × (self.old.history.spare ≡ 0) × (self.old.reserved < 4)) }
        ensures reserved { self.old.reserved ≤ self.new.reserved }
        ensures item_reserved { self.new.item_reserved ≡ self.old.item_reserved }
    {
        self.log.reserve()
    }

    /// A message comes in from a home, as the item with the next number: a dead one, or one for a task, which counts it.
    pub fn take_in(&mut self, event: SharedEvent<'_>, item: Item)
        requires prepared { IsPrepared self.old }
        requires ready { 0 < self.old.item_reserved }
        requires above { Below self.old.history.last event.stamp }
        requires takes_one_more { TakesOneMore self.old.history.ledger }
        requires number { item.number ≡ self.old.history.ledger.next_item }
        requires leaves { IsLeaving self.old.history.ledger event.stamp.moment event.home.now event.kept.0 item }
        requires reply { event.kept.1 ≡ Left item }
        ensures shares { LedgerShares self.old.history self.new.history event.entry.by.now event.entry.stamp event.entry.home.now event.entry.kept.0 event.entry.kept.1 }
        ensures item_reserved { self.old.item_reserved ≤ self.new.item_reserved + 1 }
    {
        let change = TaskChange::Left(event.stamp.moment);
        self.tasks.change_for(item.reason, change);
        self.items.push(item);
        self.next += 1;
        add_event(&mut self.log, event);
    }

    /// A leave for the task of a number let no message out of a home. Where none was live that changes nothing; where the
    /// message has no queue to go to, or the home was closed, the task fails.
    pub fn take_none(&mut self, event: SharedEvent<'_>, number: TaskNo)
        requires prepared { IsPrepared self.old }
        requires above { Below self.old.history.last event.stamp }
        requires none { IsNoneLeft self.old.history.ledger event.stamp.moment event.home.now number event.kept.0 event.kept.1 }
        ensures shares { LedgerShares self.old.history self.new.history event.entry.by.now event.entry.stamp event.entry.home.now event.entry.kept.0 event.entry.kept.1 }
        ensures item_reserved { self.new.item_reserved ≡ self.old.item_reserved }
    {
        fail_without(&mut self.tasks, number, &event.kept.1);
        add_event(&mut self.log, event);
    }

    /// A home did this with the item of a number: it goes out, to its target, back to its source or dropped there, which
    /// its task counts; or it goes back to its source from now on, and its task fails.
    pub fn item_step(&mut self, event: SharedEvent<'_>, act: ItemAct, number: ItemNo)
        requires prepared { IsPrepared self.old }
        requires above { Below self.old.history.last event.stamp }
        requires does { (item : Moved) × (item_of number self.old.history.ledger ≡ Some item) × DoesItem act event.home.now event.kept.0 event.kept.1 item }
        ensures shares { LedgerShares self.old.history self.new.history event.entry.by.now event.entry.stamp event.entry.home.now event.entry.kept.0 event.entry.kept.1 }
        ensures item_reserved { self.old.item_reserved ≤ self.new.item_reserved }
    {
        let reason = reason_of(&self.items, number);
        self.tasks.change_for(reason, change_by(act));
        self.items.apply(act, number.get());
        add_event(&mut self.log, event);
    }
}

// Why the item of a number was moved.
fn reason_of(items: &TransitItems, number: ItemNo) -> Reason
    ensures { (item : Moved) → find (has_number number) items.now.items ≡ Some item → result ≡ item.reason }
{
    match items.get(number.get()) {
        Some(item) => item.reason,
        None => Reason::DeadLetter,
    }
}

// What is done to the task of an item.
fn change_by(act: ItemAct) -> TaskChange
    ensures { result ≡ change_by act }
{
    match act {
        ItemAct::Enter => TaskChange::Entered,
        ItemAct::TurnBack => TaskChange::Failed(FailureReason::DestinationClosed),
        ItemAct::GiveBack => TaskChange::Back,
        ItemAct::Drop => TaskChange::Dropped,
    }
}

// A task fails that a leave answered so, where it does.
fn fail_without(tasks: &mut Tasks, number: TaskNo, reply: &HomeReply)
    requires { (task : Moving) × (find (is_task number) tasks.old.items ≡ Some task) }
    ensures items { tasks.new.items ≡ tasks_without number reply.now tasks.old.items }
    ensures spare { tasks.new.spare ≡ tasks.old.spare }
    ensures reserved { tasks.new.reserved ≡ tasks.old.reserved }
{
    match reply {
        HomeReply::NoOrigin(_) => {
            tasks.change(number, TaskChange::Failed(FailureReason::NoOrigin));
        }
        HomeReply::SourceClosed => {
            tasks.change(number, TaskChange::Failed(FailureReason::SourceClosed));
        }
        _ => {}
    }
}

// Adds the event of a step of a home.
fn add_event(log: &mut Log<LedgerCall, LedgerReply>, event: SharedEvent<'_>)
    requires ready { IsReady log.old.spare log.old.reserved }
    requires above { Below log.old.last event.stamp }
    ensures last { log.new.last ≡ event.entry.stamp }
    ensures events { log.new.events ≡ log.old.events ++ shared_event event.entry.stamp event.entry.by.now event.entry.home.now event.entry.kept.0 event.entry.kept.1 ∷ [] }
    ensures rising { StampsRise start log.new.events log.new.last }
    ensures spare { KeepsSpare log.old.spare log.new.spare }
{
    let SharedEvent {
        by,
        stamp,
        home,
        kept,
    } = event;
    let (call, reply) = kept;
    let call = LedgerCall::AtHome(*home, call);
    let reply = LedgerReply::AtHome(reply);
    log.note(stamp, by, Component::Home(*home), (call, reply));
}
