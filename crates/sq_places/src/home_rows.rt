//! The rows of a home, found by serial and by age.
ghost use Rattle.std.specs.Prelude.{◌≡◌, ◌++◌, [], ◌∷◌, not, map, filter, true, false, OnOk, IfErr, IfSome, IfNone, is_some, if◌then◌else◌, option_to_list};
ghost use Rattle.std.specs.List.{All};
ghost use Rattle.std.specs.Map.{remove_entry};
ghost use Rattle.std.specs.Ordering.{nat_cmp};
ghost use Rattle.std.specs.BTreeMap.{get, is_at, IsOrdered};
ghost use Rattle.sq_places.specs.inside.RowStates.{is_past_retention, is_state_named, is_state_of, is_past, looked, raised};
ghost use Rattle.sq_model.specs.declared.place.Place.TheVariants as at;
ghost use Rattle.sq_places.specs.inside.Audits as audits;

use crate::state::{RowState, has_serial, is_due, is_named, is_past, received};
use sq_base::ids::Serial;
use sq_base::message_id::MessageId;
use sq_base::ranges::Retention;
use sq_base::refusal::Refusal;
use sq_base::row::Row;
use sq_model::calls::Receipt;
use sq_model::place::Place;
use std::alloc::Global;
use std::collections::{BTreeMap, BTreeSet};
use std::marker::Model;

/// The rows of a home, in rising order of serial. Each row has its age, the moment that it was enqueued at with its serial;
/// an age may outlast its row.
#[derive(Drop)]
pub struct HomeRows {
    rows: BTreeMap<Serial, RowState>,
    ages: BTreeSet<(u64, Serial)>,
}

impl Model for HomeRows {
    ghost use Rattle.std.specs.Prelude.{List};
    ghost use Rattle.std.specs.BTreeMap.{values};
    ghost use Rattle.sq_places.specs.declared.state.RowState.{RowState};
    ghost use Rattle.sq_places.specs.inside.RowIndexes.{AreIndexed};

    ghost Value = { List RowState };

    ghost view = { λ h. values h.rows };

    ghost invariant = { λ h. AreIndexed h.ages.keys h.rows.entries };
}

/// Which row leaves.
#[derive(Clone, Copy, PartialEq, Eq, Debug)]
pub enum Leaving {
    /// One past this retention at a moment.
    Past(Retention, u64),
    Named(Receipt),
    /// The one of this slot and serial.
    At(u32, Serial),
}

impl HomeRows {
    pub fn new(alloc: Global) -> HomeRows
        ensures { result ≡ [] }
    {
        HomeRows {
            rows: BTreeMap::new(alloc),
            ages: BTreeSet::new(alloc),
        }
    }

    /// Puts a row in, for the one of its serial where there is one.
    pub fn put(&mut self, row: RowState) -> Result<(), Refusal>
        ensures rows { OnOk result (self.new ≡ audits.put row self.old) }
        ensures err { IfErr result (λ e. e ≡ Refusal.NoMemory) }
    {
        self.ages.insert((row.enqueued, row.serial))?;
        self.rows.insert(row.serial, row)?;
        Ok(())
    }

    /// Takes out the row that a receipt names, where it is there.
    pub fn take_named(&mut self, receipt: &Receipt) -> Option<RowState>
        ensures rows { self.new ≡ filter (λ row. not (is_state_named receipt.now row)) self.old }
        ensures taken { option_to_list result ≡ filter (is_state_named receipt.now) self.old }
    {
        take(&mut self.rows, receipt.serial, &Leaving::Named(*receipt))
    }

    /// Takes out the row with the slot and serial of this one.
    pub fn take_out(&mut self, row: &Row)
        ensures { self.new ≡ filter (λ state. not (is_state_of row.now state)) self.old }
    {
        take(
            &mut self.rows,
            row.serial,
            &Leaving::At(row.slot, row.serial),
        );
    }

    /// All rows leave for a place, and are put last.
    pub fn clear(&mut self, place: Place, ends: &mut Vec<(MessageId, Place)>) -> Result<(), Refusal>
        ensures rows { OnOk result (self.new ≡ []) }
        ensures ends { OnOk result (ends.new.items ≡ ends.old.items ++ audits.placed place self.old) }
        ensures err { IfErr result (λ e. e ≡ Refusal.NoMemory) }
    {
        for row in self.rows.values() {
            ends.push((row.lineage, place))?;
        }
        self.rows.clear();
        self.ages.clear();
        Ok(())
    }

    /// Rows past a retention at a moment leave, and are put last.
    pub fn expire(
        &mut self,
        retention: Retention,
        moment: u64,
        ends: &mut Vec<(MessageId, Place)>,
    ) -> Result<(), Refusal>
        ensures rows { OnOk result (self.new ≡ filter (λ row. not (is_past retention moment row)) self.old) }
        ensures ends { OnOk result (audits.AreSameEnds ends.new.items (ends.old.items ++ audits.placed at.Expired (filter (is_past retention moment) self.old))) }
        ensures err { IfErr result (λ e. e ≡ Refusal.NoMemory) }
    {
        let past = Leaving::Past(retention, moment);
        while let Some(age) = pop_due(&mut self.ages, retention, moment) {
            if let Some(row) = take(&mut self.rows, age.1, &past) {
                ends.push((row.lineage, Place::Expired))?;
            }
        }
        Ok(())
    }

    /// A receive gave these rows.
    pub fn receive_all(&mut self, picked: &[Row])
        ensures { self.new ≡ map (looked picked.now) self.old }
    {
        for index in 0..picked.len() {
            let serial = picked[index].serial;
            if !has_serial(&picked[..index], serial) {
                self.receive(serial);
            }
        }
    }

    // The row of a serial is received once more.
    fn receive(&mut self, serial: Serial)
        ensures { self.new ≡ map (raised serial) self.old }
    {
        if let Some(row) = self.rows.get_mut(&serial) {
            *row = received(row);
        }
    }
}

fn passes(who: &Leaving, row: &RowState) -> bool
    ensures { result ≡ audits.passes who.now row.now }
{
    match who {
        Leaving::Past(retention, moment) => is_past(*retention, *moment, row),
        Leaving::Named(receipt) => is_named(receipt, row),
        Leaving::At(slot, serial) => row.slot == *slot && row.serial == *serial,
    }
}

// Takes out the row of a serial, where it leaves.
fn take(rows: &mut BTreeMap<Serial, RowState>, serial: Serial, who: &Leaving) -> Option<RowState>
    ensures taken { result ≡ audits.taken (audits.passes who.now) (get nat_cmp rows.old serial) }
    ensures rows { rows.new.entries ≡ (if is_some result then remove_entry (is_at (nat_cmp serial)) rows.old.entries else rows.old.entries) }
    ensures ordered { IsOrdered nat_cmp rows.old → IsOrdered nat_cmp rows.new }
{
    match rows.get(&serial) {
        Some(row) if passes(who, row) => rows.remove(&serial),
        _ => None,
    }
}

// Takes the first age out, where it is past the retention.
fn pop_due(
    ages: &mut BTreeSet<(u64, Serial)>,
    retention: Retention,
    moment: u64,
) -> Option<(u64, Serial)>
    ensures due { IfSome result (λ age. (ages.old.keys ≡ age ∷ ages.new.keys) × (is_past_retention retention moment age.0 ≡ true)) }
    ensures none { IfNone result ((ages.new.keys ≡ ages.old.keys) × All (λ age. is_past_retention retention moment age.0 ≡ false) ages.old.keys) }
{
    let age = *ages.first()?;
    if !is_due(retention, moment, age.0) {
        return None;
    }
    ages.pop_first();
    Some(age)
}
