//! A home, and all that was done to it.
ghost use Rattle.std.specs.Prelude.{◌≡◌, ◌↔◌, ◌++◌, ◌∷◌, true, [], length, Ok, IfOk, IfErr, OnOk, OnErr};
ghost use Rattle.sq_base.specs.Stamps.{Below, after, start};
ghost use Rattle.sq_model.specs.Homes.{Unopened as Never, Closed as Gone};
ghost use Rattle.sq_model.specs.Replays.{StampsRise};
ghost use Rattle.sq_history.specs.Acts.{call_of};
ghost use Rattle.sq_history.specs.HistoryValue.{all_events};
ghost use Rattle.sq_history.specs.Histories.{new_event, new_record};
ghost use Rattle.sq_history.specs.inside.Histories.{IsUnbegun};
ghost use Rattle.sq_log.specs.Spares.{IsReady, KeepsSpare};

use crate::act::{Answer, HomeAct, ask};
use crate::record::HomeRecord;
use sq_base::ids::HomeId;
use sq_base::name::QueueName;
use sq_base::refusal::Refusal;
use sq_base::stamp::Stamp;
use sq_log::blocks::Blocks;
use sq_log::log::Log;
use sq_model::calls::HomeCall;
use sq_model::event::{Actor, Event};
use sq_model::place::Component;
use sq_model::replies::HomeReply;
use sq_shard::shard::Shard;
use sq_store::slots::SlotStore;
use sq_store::store::Store;
use std::alloc::Global;
use std::marker::Model;

/// The home that the service uses.
pub type Home = Recorded<SlotStore>;

/// A home with its history: it is always the replay of its events.
///
/// A step adds one event at a stamp above the home's last and above what the actor had seen, and gives the record of it.
/// One that is refused changes nothing and adds none. Clock readings are in ms.
#[derive(Drop)]
pub struct Recorded<S: Store> {
    pub(crate) shard: Shard<S>,
    pub(crate) log: Log<HomeCall, HomeReply>,
}

impl<S: Store> Model for Recorded<S> {
    ghost use Rattle.sq_history.specs.HistoryValue.{HistoryValue};
    ghost use Rattle.sq_history.specs.Histories.{IsKept};

    ghost Value = { HistoryValue };

    ghost view = { λ a. record { site = a.shard.site; home = a.shard.home; last = a.log.last; events = a.log.events; spare = a.log.spare; spare_rows = a.shard.spare } };

    ghost invariant = { λ a. IsKept (record { site = a.shard.site; home = a.shard.home; last = a.log.last; events = a.log.events; spare = a.log.spare; spare_rows = a.shard.spare }) };
}

impl<S: Store> Recorded<S> {
    ghost use Rattle.sq_history.specs.Histories.{RecordsStep, IsRefused, IsKept};

    /// A home that was never opened, with no event.
    pub fn unopened(alloc: Global, shard: Shard<S>) -> Recorded<S>
        requires { shard.home ≡ Never }
        ensures { result ≡ record { site = shard.site; home = Never; last = start; events = []; spare = 0; spare_rows = shard.spare } }
    {
        Recorded {
            shard,
            log: Log::new(alloc),
        }
    }

    /// All events, the first first. The home is always the replay of them.
    pub fn events(&self) -> &Blocks<Event<HomeCall, HomeReply>>
        ensures items { result.now.items ≡ all_events self.now }
        ensures kept { IsKept self.now }
    {
        self.log.events()
    }

    /// The stamp of the last event.
    pub fn last(&self) -> Stamp
        ensures { result ≡ self.now.last }
    {
        self.log.last()
    }

    /// Does one act, at its stamp. What it tells is what its record says.
    /// Refused as NoMemory (the history has no spare memory, or settings are held), ClockRange, Worn, and then as the
    /// home's call, or as NoMemory for a send's row (it shows no spare memory) and the rows that a look gives: QueueDoesNotExist (not
    /// serving; closed already, where it is configured or closed), HomeDraining (a send, where the home drains or is drained), Worn and
    /// OverLimit (a send, for want of serials or full), ReceiptHandleIsInvalid (a serial that was never given), MessageNotInflight (a
    /// change, with no row in flight on which slot, serial and receive number agree), InvalidParameterValue (a change, later than 12
    /// hours after the last receive), UnsupportedOperation (the end of a drain, where it does not drain or holds a message).
    pub fn step(
        &mut self,
        alloc: Global,
        by: &Actor,
        now: u64,
        name: Option<QueueName>,
        act: HomeAct,
    ) -> Result<(HomeReply, HomeRecord), Refusal>
        ensures recorded { IfOk result (λ r. RecordsStep self.old self.new by.now now name (call_of act) r.1) }
        ensures answered { IfOk result (λ r. r.1.reply ≡ r.0) }
        ensures refusal { IfErr result (IsRefused self.old by.now now (call_of act)) }
        ensures err { OnErr result (self.new ≡ self.old) }
    {
        let (stamp, asked, calls) = begin(alloc, &mut self.log, by, now, act)?;
        let answer = ask(alloc, &mut self.shard, stamp.moment, asked)?;
        let home = self.shard.site().home;
        Ok(add_step(&mut self.log, by, stamp, &home, name, calls, answer))
    }

    /// Whether the home is closed; it stays so.
    pub fn is_closed(&self) -> bool
        ensures { result ≡ true ↔ self.now.home ≡ Gone }
    {
        self.shard.is_closed()
    }
}

// Begins a step that does this: its stamp, what the rows are asked, and its call for the event and for the record.
// Refused as NoMemory (the history has no spare memory, or settings are held), ClockRange, Worn.
fn begin(
    alloc: Global,
    log: &mut Log<HomeCall, HomeReply>,
    by: &Actor,
    now: u64,
    act: HomeAct,
) -> Result<(Stamp, HomeCall, (HomeCall, HomeCall)), Refusal>
    ensures last { log.new.last ≡ log.old.last }
    ensures events { log.new.events ≡ log.old.events }
    ensures spare { log.new.spare ≡ log.old.spare }
    ensures ready { OnOk result (IsReady log.new.spare log.new.reserved) }
    ensures stamped { IfOk result (λ begun. after log.old.last by.now.seen now ≡ Ok begun.0) }
    ensures above { IfOk result (λ begun. Below log.old.last begun.0) }
    ensures asked { IfOk result (λ begun. begun.1 ≡ call_of act) }
    ensures kept_call { IfOk result (λ begun. begun.2.0 ≡ call_of act) }
    ensures recorded_call { IfOk result (λ begun. begun.2.1 ≡ call_of act) }
    ensures refused { IfErr result (IsUnbegun log.old by.now now (call_of act)) }
{
    log.reserve()?;
    let (asked, kept, recorded) = act.calls(alloc)?;
    let stamp = log.next_stamp(by, now)?;
    Ok((stamp, asked, (kept, recorded)))
}

// Adds the event of a step that was done. Gives what is answered, and the actor's record.
pub(crate) fn add_step(
    log: &mut Log<HomeCall, HomeReply>,
    by: &Actor,
    stamp: Stamp,
    home: &HomeId,
    name: Option<QueueName>,
    calls: (HomeCall, HomeCall),
    answer: Answer,
) -> (HomeReply, HomeRecord)
    requires ready { IsReady log.old.spare log.old.reserved }
    requires above { Below log.old.last stamp }
    ensures last { log.new.last ≡ stamp }
    ensures events { log.new.events ≡ log.old.events ++ new_event stamp by.now home.now calls.0 answer ∷ [] }
    ensures rising { StampsRise start log.new.events log.new.last }
    ensures spare { KeepsSpare log.old.spare log.new.spare }
    ensures its_record { result.1 ≡ new_record stamp by.now home.now (length log.old.events) calls.1 answer name }
    ensures answered { result.0 ≡ answer }
{
    let (kept_call, recorded_call) = calls;
    let Answer {
        kept,
        for_record,
        answered,
    } = answer;
    let part = Component::Home(*home);
    let step = log.add(
        stamp,
        by,
        part,
        (kept_call, kept),
        (recorded_call, for_record),
    );
    (answered, HomeRecord::new(step.into_step(), home, name))
}
