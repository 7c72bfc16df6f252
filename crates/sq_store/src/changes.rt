//! What is done to a row in slots: it is put in, changed or taken out.
ghost use Rattle.std.specs.Prelude.{◌≡◌, ◌+◌, ◌++◌, ◌∷◌, ◌==◌, ◌<◌, ◌≤◌, [], false, filter, find, length, map, IfSome};
ghost use Rattle.std.specs.List.{All, list_any};
ghost use Rattle.sq_deadline.specs.Deadlines.{DeadlinesRise, is_other};
ghost use Rattle.sq_slots.specs.Slots.{IsBetween, in_slot, is_at, is_away, updated_at};
ghost use Rattle.sq_store.specs.Due.{enqueued_at, visible_at};
ghost use Rattle.sq_store.specs.SlotStores.{reserved_in};
ghost use Rattle.sq_store.specs.inside.Visible.{IsCleared, IsOrdered};

use crate::slots::SlotStore;
use crate::visible::VisibleFrom;
use sq_base::ids::Serial;
use sq_base::row::Row;
use sq_deadline::deadline::Deadline;
use sq_deadline::index::DeadlineIndex;
use sq_slots::table::Delivery;

impl SlotStore {
    // Puts a row in, for which there is memory, and gives its slot.
    pub(crate) fn put(&mut self, row: Row) -> u32
        requires reserved { 0 < reserved_in self.old }
        requires above { All (λ r. r.serial < row.serial) self.old.table.rows }
        ensures free { list_any (λ r. r.slot == result) self.old.table.rows ≡ false }
        ensures rows { self.new.table.rows ≡ self.old.table.rows ++ in_slot result row ∷ [] }
        ensures reserved { reserved_in self.old ≤ reserved_in self.new + 1 }
    {
        let (visible_from, enqueued, receives) = (row.visible_from, row.enqueued, row.receives);
        let slot = self.table.insert(row);
        self.visible.set(
            receives,
            Deadline {
                moment: visible_from,
                slot,
            },
        );
        self.ages.set(Deadline {
            moment: enqueued,
            slot,
        });
        slot
    }

    // Sets the delivery of the row of a slot and a serial.
    pub(crate) fn revise(&mut self, slot: u32, serial: Serial, delivery: Delivery)
        ensures rows { self.new.table.rows ≡ map (updated_at slot serial delivery) self.old.table.rows }
        ensures reserved { reserved_in self.old ≤ reserved_in self.new }
    {
        let Some(row) = self.table.get(slot, serial) else {
            return;
        };
        let was = row.receives;
        let until = Deadline {
            moment: row.visible_from,
            slot,
        };
        self.table.update(slot, serial, delivery);
        self.visible.clear(was, &until);
        self.visible.set(
            delivery.receives,
            Deadline {
                moment: delivery.visible_from,
                slot,
            },
        );
    }

    // Takes out the row of a slot and a serial.
    pub(crate) fn remove(&mut self, slot: u32, serial: Serial) -> Option<Row>
        ensures taken { result ≡ find (is_at slot serial) self.old.table.rows }
        ensures between { IfSome result (IsBetween slot serial self.old.table.rows) }
        ensures rows { self.new.table.rows ≡ filter (is_away slot serial) self.old.table.rows }
        ensures reserved { reserved_in self.old ≤ reserved_in self.new }
    {
        let row = self.table.take(slot, serial)?;
        unlist(&row, &mut self.visible, &mut self.ages);
        Some(row)
    }
}

// Takes a row that left its slot out of the lists.
fn unlist(row: &Row, visible: &mut VisibleFrom, ages: &mut DeadlineIndex)
    ensures cleared { IsCleared row.now.receives (visible_at row.now) visible.old visible.new }
    ensures ordered { IsOrdered row.now.receives visible.old }
    ensures ages { ages.new.deadlines ≡ filter (is_other (enqueued_at row.now)) ages.old.deadlines }
    ensures memory { length ages.old.deadlines + ages.old.reserved ≤ length ages.new.deadlines + ages.new.reserved }
    ensures rise { DeadlinesRise 0 ages.old.deadlines }
{
    visible.clear(
        row.receives,
        &Deadline {
            moment: row.visible_from,
            slot: row.slot,
        },
    );
    ages.clear(&Deadline {
        moment: row.enqueued,
        slot: row.slot,
    });
}
