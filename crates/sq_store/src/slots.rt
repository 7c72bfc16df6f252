//! Rows in slots, found by what is due.
ghost use Rattle.std.specs.Prelude.{◌≡◌, ◌≤◌, [], map};
ghost use Rattle.sq_store.specs.SlotStores.{reserved_in};
ghost use Rattle.sq_store.specs.inside.SlotStores.{received_at};

use crate::due::{Wanted, count_in_flight_of, first_of, pick_of};
use crate::rows;
use crate::store::{At, Store};
use crate::visible::VisibleFrom;
use sq_base::ids::Serial;
use sq_base::ranges::Timeout;
use sq_base::refusal::Refusal;
use sq_base::row::Row;
use sq_deadline::index::DeadlineIndex;
use sq_model::calls::Receipt;
use sq_model::listed::Listed;
use sq_model::replies::Counts;
use sq_slots::table::{Delivery, SlotTable};
use std::alloc::Global;
use std::marker::Model;

/// The store of a home: rows in slots, and in order from when each is visible and since when it is in the queue.
///
/// A call takes time by the logarithm of the rows that are there, for each row that it says that it walks; those that say none walk
/// none. No call walks a row that is neither due nor asked for, but what drops expired rows under another maxReceiveCount, and one that takes out all.
#[derive(Drop)]
pub struct SlotStore {
    pub(crate) table: SlotTable,
    pub(crate) visible: VisibleFrom,
    pub(crate) ages: DeadlineIndex,
}

impl Model for SlotStore {
    ghost use Rattle.sq_store.specs.SlotStores.{SlotValue, IsIndexed};

    ghost Value = { SlotValue };

    ghost view = { λ s. record { table = s.table; visible = s.visible; ages = s.ages } };

    ghost invariant = { λ s. IsIndexed s.table.rows s.visible s.ages };
}

impl SlotStore {
    /// A store without rows, which takes no memory yet.
    pub fn new(alloc: Global) -> SlotStore
        ensures { result.table.rows ≡ [] }
    {
        SlotStore {
            table: SlotTable::new(alloc),
            visible: VisibleFrom::new(alloc),
            ages: DeadlineIndex::new(alloc),
        }
    }

    // Receives the row of a slot and a serial, where it is live.
    fn receive_row(&mut self, at: &At, slot: u32, serial: Serial, until: u64)
        ensures rows { self.new.table.rows ≡ map (received_at at.now.settings slot serial at.now.moment until) self.old.table.rows }
        ensures reserved { reserved_in self.old ≤ reserved_in self.new }
    {
        let Some(row) = self.table.get(slot, serial) else {
            return;
        };
        if rows::is_live(at, row) {
            let delivery = Delivery {
                receives: row.receives + 1,
                visible_from: until,
                last_receive: Some(at.moment),
            };
            self.revise(slot, serial, delivery);
        }
    }
}

impl Store for SlotStore {
    ghost rows = { λ s. s.table.rows };

    ghost reserved = { λ s. reserved_in s };

    // Found by binary search.
    fn count_kept(&self, at: &At) -> usize {
        match rows::expired_bound(at) {
            Some(bound) => self.table.len() - self.ages.count_due(bound),
            None => self.table.len(),
        }
    }

    // It takes time by the rows that have not expired.
    fn count_in_flight(&self, at: &At) -> usize {
        let in_flight = self.count_in_flight_rows(at.moment);
        match rows::expired_bound(at) {
            Some(bound) => in_flight
                - count_in_flight_of(&self.table, &self.ages, bound, at.moment),
            None => in_flight,
        }
    }

    fn has_live(&self, at: &At) -> bool {
        self.find_live(at).is_some()
    }

    // It takes time by the rows that are due before it and not dead.
    fn find_dead(&self, at: &At) -> Option<&Row> {
        let Some(redrive) = &at.settings.redrive else {
            return None;
        };
        let (table, visible) = (&self.table, &self.visible);
        if let Some(row) = first_of(table, &visible.exhausted, Wanted::Dead, at, at.moment) {
            return Some(row);
        }
        if visible.most <= redrive.max_receives.get() {
            return None;
        }
        first_of(table, &visible.received, Wanted::Dead, at, at.moment)
    }

    // It takes time by the rows that are due before it and not live.
    fn find_live(&self, at: &At) -> Option<&Row> {
        let (table, visible) = (&self.table, &self.visible);
        if let Some(row) = first_of(table, &visible.unreceived, Wanted::Live, at, at.moment) {
            return Some(row);
        }
        if let Some(row) = first_of(table, &visible.received, Wanted::Live, at, at.moment) {
            return Some(row);
        }
        if rows::most_under(&at.settings.redrive) <= visible.most {
            return None;
        }
        first_of(table, &visible.exhausted, Wanted::Live, at, at.moment)
    }

    // Of those never received any, delayed or not, and of the others those that are due: each of them is at rest, so that none
    // is passed over but those past their retention. It takes time by these.
    fn find_at_rest(&self, at: &At) -> Option<&Row> {
        let (table, visible) = (&self.table, &self.visible);
        if let Some(row) = first_of(table, &visible.unreceived, Wanted::AtRest, at, u64::MAX) {
            return Some(row);
        }
        if let Some(row) = first_of(table, &visible.received, Wanted::AtRest, at, at.moment) {
            return Some(row);
        }
        first_of(table, &visible.exhausted, Wanted::AtRest, at, at.moment)
    }

    // It is found by its slot, in no time that grows.
    fn has_held(&self, at: &At, receipt: &Receipt) -> bool {
        match self.table.get(receipt.slot, receipt.serial) {
            Some(row) => rows::is_kept(at, row) && rows::is_held(at.moment, receipt, row),
            None => false,
        }
    }

    // It is found by its slot, in no time that grows.
    fn has_late(&self, at: &At, receipt: &Receipt, timeout: Timeout) -> bool {
        let Some(row) = self.table.get(receipt.slot, receipt.serial) else {
            return false;
        };
        self.has_held(at, receipt) && rows::is_late(at.moment, timeout, row.last_receive)
    }

    // Found by binary search.
    fn count(&self, moment: u64) -> Counts {
        let in_flight = self.count_in_flight_rows(moment);
        let delayed = self.count_delayed_rows(moment);
        let visible = self.table.len() - in_flight - delayed;
        Counts {
            visible: visible as u32,
            in_flight: in_flight as u32,
            delayed: delayed as u32,
        }
    }

    // Those first that have been visible longest, by the oldest of those never received and of the others. It takes time by them,
    // and by the rows that are due before them and not live.
    fn pick(&self, alloc: Global, at: &At, until: u64, max: usize) -> Result<Listed<Row>, Refusal> {
        let (table, visible) = (&self.table, &self.visible);
        let (first, second) = visible.in_turn(at.moment);
        let mut picked = Listed::new(alloc);
        pick_of(&mut picked, table, first, at, until, max)?;
        pick_of(&mut picked, table, second, at, until, max)?;
        if visible.most < rows::most_under(&at.settings.redrive) {
            pick_of(&mut picked, table, &visible.exhausted, at, until, max)?;
        }
        Ok(picked)
    }

    // In the table and in every list.
    fn spare(&self) -> usize {
        let lists = self.visible.space().min(self.ages.space());
        self.table.spare().min(lists - self.table.len())
    }

    // In the table and in every list, in time by the memory that it lacks.
    fn reserve(&mut self) -> Result<(), Refusal> {
        self.table.reserve()?;
        let count = self.table.len() + 4;
        self.visible.reserve(count)?;
        self.ages.reserve(count.saturating_sub(self.ages.len()))
    }

    // One after another; and keeps the rows apart that these settings make exhausted. It takes time by the rows that it leaves
    // out; and by all rows, where the number of receives that makes a row exhausted has changed.
    fn expire(&mut self, at: &At) {
        self.split(rows::most_under(&at.settings.redrive));
        let Some(bound) = rows::expired_bound(at) else {
            return;
        };
        while let Some(oldest) = self.oldest(bound) {
            self.remove(oldest.0, oldest.1);
        }
    }

    fn insert(&mut self, row: Row) -> u32 {
        self.put(row)
    }

    // In time by these, each found by its slot.
    fn receive(&mut self, at: &At, picked: &[Row], until: u64) {
        for row in picked {
            self.receive_row(at, row.slot, row.serial, until);
        }
    }

    // It is found by its slot.
    fn take(&mut self, receipt: &Receipt) {
        let Some(row) = self.table.get(receipt.slot, receipt.serial) else {
            return;
        };
        if row.receives == receipt.receive.get() {
            self.remove(receipt.slot, receipt.serial);
        }
    }

    fn take_out(&mut self, slot: u32, serial: Serial) -> Option<Row> {
        self.remove(slot, serial)
    }

    // It is found by its slot.
    fn change(&mut self, receipt: &Receipt, moment: u64, until: u64) {
        let Some(row) = self.table.get(receipt.slot, receipt.serial) else {
            return;
        };
        if rows::is_held(moment, receipt, row) {
            let delivery = Delivery {
                receives: row.receives,
                visible_from: until,
                last_receive: row.last_receive,
            };
            self.revise(receipt.slot, receipt.serial, delivery);
        }
    }

    // In time by their number.
    fn clear(&mut self) {
        self.table.clear();
        self.visible.empty();
        self.ages.empty();
    }
}
