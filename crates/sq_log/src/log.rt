//! The events of a part of the system, in order.
ghost use Rattle.std.specs.Prelude.{◌≡◌, ◌≤◌, [], OnOk, IfOk, IfErr, Ok, length};
ghost use Rattle.sq_base.specs.Stamps.{start, after, Below};
ghost use Rattle.sq_model.specs.Replays.{StampsRise};
ghost use Rattle.sq_log.specs.Logs.{HasNoted, IsFull, IsUnready};
ghost use Rattle.sq_log.specs.Spares.{IsReady};

use crate::blocks::Blocks;
use crate::growing::Growing;
use crate::record::PartRecord;
use sq_base::refusal::Refusal;
use sq_base::stamp::Stamp;
use sq_model::event::{Actor, Event, StepRecord};
use sq_model::place::Component;
use std::alloc::Global;
use std::marker::Model;

/// The events so far, and the stamp of the last one. Their stamps rise.
#[derive(Drop)]
pub struct Log<K, R> {
    last: Stamp,
    events: Growing<Event<K, R>>,
}

impl<K, R> Model for Log<K, R> {
    ghost use Rattle.sq_base.specs.Stamps.{start};
    ghost use Rattle.sq_model.specs.Replays.{StampsRise};
    ghost use Rattle.sq_log.specs.LogValue.{LogValue};

    ghost Value = { LogValue K R };

    ghost view = { λ l. record { last = l.last; events = l.events.items; spare = l.events.spare; reserved = l.events.reserved } };

    ghost invariant = { λ l. StampsRise start l.events.items l.last };
}

impl<K: Drop, R: Drop> Log<K, R> {
    /// No event.
    pub fn new(alloc: Global) -> Log<K, R>
        ensures last { result.last ≡ start }
        ensures events { result.events ≡ [] }
        ensures spare { result.spare ≡ 0 }
    {
        Log {
            last: Stamp::start(),
            events: Growing::new(alloc),
        }
    }

    /// The stamp of the last event; the least stamp where there is none.
    pub fn last(&self) -> Stamp
        ensures { result ≡ self.now.last }
    {
        self.last
    }

    /// All events, the first first.
    pub fn events(&self) -> &Blocks<Event<K, R>>
        ensures items { result.now.items ≡ self.now.events }
        ensures rising { StampsRise start self.now.events self.now.last }
    {
        self.events.items()
    }

    /// Gets memory for one event more. Refused as NoMemory where there was no spare memory.
    pub fn reserve(&mut self) -> Result<(), Refusal>
        ensures last { self.new.last ≡ self.old.last }
        ensures events { self.new.events ≡ self.old.events }
        ensures spare { self.new.spare ≡ self.old.spare }
        ensures kept { self.old.reserved ≤ self.new.reserved }
        ensures ready { OnOk result (IsReady self.new.spare self.new.reserved) }
        ensures refused { IfErr result (IsFull self.old) }
    {
        self.events.reserve()
    }

    /// Gets memory for one event more, and gives its stamp: above the last one, and above what the actor saw.
    /// Refused as NoMemory (there was no spare memory), ClockRange, Worn.
    pub fn begin(&mut self, by: &Actor, now: u64) -> Result<Stamp, Refusal>
        ensures last { self.new.last ≡ self.old.last }
        ensures events { self.new.events ≡ self.old.events }
        ensures spare { self.new.spare ≡ self.old.spare }
        ensures kept { self.old.reserved ≤ self.new.reserved }
        ensures ready { OnOk result (IsReady self.new.spare self.new.reserved) }
        ensures stamped { IfOk result (λ stamp. after self.old.last by.now.seen now ≡ Ok stamp) }
        ensures above { IfOk result (Below self.old.last) }
        ensures refused { IfErr result (IsUnready self.old by.now now) }
    {
        self.reserve()?;
        self.next_stamp(by, now)
    }

    /// The stamp of an actor's event: above the last one, and above what it saw. Refused as ClockRange, Worn.
    pub fn next_stamp(&self, by: &Actor, now: u64) -> Result<Stamp, Refusal>
        ensures stamped { result ≡ after self.now.last by.now.seen now }
        ensures above { IfOk result (Below self.now.last) }
    {
        Stamp::after(self.last, by.seen, now)
    }

    /// Adds the event of a step, for which `begin` got memory, with the call and reply that are kept. Gives the actor's
    /// record of it, with those that are recorded.
    pub fn add(
        &mut self,
        stamp: Stamp,
        by: &Actor,
        component: Component,
        kept: (K, R),
        for_record: (K, R),
    ) -> PartRecord<K, R>
        requires ready { IsReady self.old.spare self.old.reserved }
        requires above { Below self.old.last stamp }
        ensures noted { HasNoted stamp by.now component kept self.old self.new }
        ensures rising { StampsRise start self.new.events self.new.last }
        ensures for_record { result ≡ record { place = by.now.place; stamp = stamp; index = length self.old.events; call = for_record.0; reply = for_record.1 } }
    {
        let index = self.events.items().len() as u64;
        self.note(stamp, by, component, kept);
        let (call, reply) = for_record;
        PartRecord::new(StepRecord {
            place: by.place,
            stamp,
            index,
            call,
            reply,
        })
    }

    /// Adds the event of a step, for which memory was got, with the call and reply that are kept. It makes no record: the
    /// step's record is of its event in the history of another part.
    pub fn note(&mut self, stamp: Stamp, by: &Actor, component: Component, kept: (K, R))
        requires ready { IsReady self.old.spare self.old.reserved }
        requires above { Below self.old.last stamp }
        ensures noted { HasNoted stamp by.now component kept self.old self.new }
        ensures rising { StampsRise start self.new.events self.new.last }
    {
        let (call, reply) = kept;
        let event = Event {
            stamp,
            actor: by.number,
            place: by.place,
            component,
            call,
            reply,
        };
        self.events.push(event);
        self.last = stamp;
    }
}
