//! Rows in slots that are used again.
ghost use Rattle.std.specs.Prelude.{◌≡◌, ◌+◌, ◌<◌, ◌≤◌, ◌++◌, ◌∷◌, [], false, filter, find, length, map, IfErr, IfNone, IfSome, OnOk, OnSome, option_copied};
ghost use Rattle.std.specs.List.{All, list_any};
ghost use Rattle.sq_slots.specs.Slots.{in_slot, is_at, is_away, is_in, updated_at, AreApart};

use slab::Slab;
use sq_base::ids::Serial;
use sq_base::refusal::Refusal;
use sq_base::row::Row;
use std::alloc::Global;
use std::marker::Model;

/// The receive number of a row, the moment in ms from which it is visible, and that of its last receive.
#[derive(Clone, Copy, Debug)]
pub struct Delivery {
    pub receives: u32,
    pub visible_from: u64,
    pub last_receive: Option<u64>,
}

/// Rows in slots, seen in the order of their serials. A slot is used again once its row is taken out; the serial tells its
/// rows apart.
#[derive(Drop)]
pub struct SlotTable {
    rows: Slab<Row>,
}

impl Model for SlotTable {
    ghost use Rattle.sq_slots.specs.Slots.{IsTable, TableValue, value_of};

    ghost Value = { TableValue };

    ghost view = { λ t. value_of t.rows };

    ghost invariant = { λ t. IsTable t.rows };
}

impl SlotTable {
    /// No row, and memory for none.
    pub fn new(alloc: Global) -> SlotTable
        ensures rows { result.rows ≡ [] }
        ensures next { result.next ≡ 0 }
        ensures reserved { result.reserved ≡ 0 }
    {
        SlotTable {
            rows: Slab::new(alloc),
        }
    }

    /// How many rows there are. Their serials rise without repeats, and each has a slot of its own.
    pub fn len(&self) -> usize
        ensures len { result ≡ length self.now.rows }
        ensures apart { AreApart self.now.rows }
    {
        self.rows.len()
    }

    /// Gets memory for four rows more, in slots below 2^32. Refused as NoMemory where there was not so much. If the memory that was
    /// found would give slots past 2^32, it is refused too, and there is memory for none from then on.
    pub fn reserve(&mut self) -> Result<(), Refusal>
        ensures rows { self.new.rows ≡ self.old.rows }
        ensures next { self.new.next ≡ self.old.next }
        ensures reserved { OnOk result (self.old.reserved ≤ self.new.reserved) }
        ensures ready { OnOk result (4 ≤ self.new.reserved) }
        ensures few { OnOk result (length self.new.rows < 4294967296) }
        ensures refused { IfErr result (λ e. (e ≡ Refusal.NoMemory) × (self.old.reserved < 4)) }
    {
        self.rows.reserve(4)?;
        if self.rows.capacity() > 4_294_967_296 {
            return Err(Refusal::NoMemory);
        }
        Ok(())
    }

    /// For how many rows more there is memory, where all slots are below 2^32.
    pub fn spare(&self) -> usize
        ensures { result ≡ self.now.reserved }
    {
        let capacity = self.rows.capacity();
        if capacity > 4_294_967_296 {
            return 0;
        }
        capacity - self.rows.len()
    }

    /// The slot of the next row; none where it would be at or past 2^32.
    pub fn next_slot(&self) -> Option<u32>
        ensures slot { IfSome result (λ slot. slot ≡ self.now.next) }
        ensures none { IfNone result (4294967296 ≤ self.now.next) }
    {
        u32::try_from(self.rows.vacant_key()).ok()
    }

    /// Puts a row, whose serial is above all others, into the next slot, for which there is memory, and gives the slot.
    pub fn insert(&mut self, row: Row) -> u32
        requires ready { 0 < self.old.reserved }
        requires above { All (λ r. r.serial < row.serial) self.old.rows }
        ensures slot { result ≡ self.old.next }
        ensures free { list_any (is_in result) self.old.rows ≡ false }
        ensures rows { self.new.rows ≡ self.old.rows ++ in_slot result row ∷ [] }
        ensures reserved { self.old.reserved ≡ self.new.reserved + 1 }
        ensures apart { AreApart self.old.rows }
    {
        let key = self.rows.insert_reserved(row);
        let slot = key as u32;
        self.rows[key].slot = slot;
        slot
    }

    /// The row of a slot and a serial.
    pub fn get(&self, slot: u32, serial: Serial) -> Option<&Row>
        ensures row { option_copied result ≡ find (is_at slot serial) self.now.rows }
        ensures apart { AreApart self.now.rows }
    {
        let row = self.rows.get(slot as usize)?;
        if row.serial == serial {
            Some(row)
        } else {
            None
        }
    }

    /// The row of a slot, whatever its serial.
    pub fn at(&self, slot: u32) -> Option<&Row>
        ensures row { option_copied result ≡ find (is_in slot) self.now.rows }
        ensures apart { AreApart self.now.rows }
    {
        let index = slot as usize;
        self.rows.get(index)
    }

    /// Sets the delivery of the row of a slot and a serial; whether it is there.
    pub fn update(&mut self, slot: u32, serial: Serial, delivery: Delivery) -> bool
        ensures there { result ≡ list_any (is_at slot serial) self.old.rows }
        ensures rows { self.new.rows ≡ map (updated_at slot serial delivery) self.old.rows }
        ensures next { self.new.next ≡ self.old.next }
        ensures reserved { self.new.reserved ≡ self.old.reserved }
    {
        let Some(row) = self.rows.get_mut(slot as usize) else {
            return false;
        };
        if row.serial != serial {
            return false;
        }
        row.receives = delivery.receives;
        row.visible_from = delivery.visible_from;
        row.last_receive = delivery.last_receive;
        true
    }

    /// Takes out the row of a slot and a serial. The slot is the next one then.
    pub fn take(&mut self, slot: u32, serial: Serial) -> Option<Row>
        ensures taken { result ≡ find (is_at slot serial) self.old.rows }
        ensures rows { self.new.rows ≡ filter (is_away slot serial) self.old.rows }
        ensures reserved { self.old.reserved ≤ self.new.reserved }
        ensures next { OnSome result (self.new.next ≡ slot) }
        ensures kept { IfNone result (self.new ≡ self.old) }
        ensures apart { AreApart self.old.rows }
    {
        self.get(slot, serial)?;
        self.rows.try_remove(slot as usize)
    }

    /// Takes out all rows; their memory is there for others.
    pub fn clear(&mut self)
        ensures rows { self.new.rows ≡ [] }
        ensures next { self.new.next ≡ 0 }
        ensures reserved { self.old.reserved ≤ self.new.reserved }
    {
        self.rows.clear();
    }
}
