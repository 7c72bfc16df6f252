//! Rows one after another.
ghost use Rattle.std.specs.Prelude.{◌≡◌, ◌-◌, ◌<◌, ◌==◌, ℕ, true, false, [], count_by, filter, length, map, not, position, take, vec_capacity, vec_len, IfErr, IfNone, IfOk, IfSome};
ghost use Rattle.std.specs.List.{list_any};
ghost use Rattle.sq_model.specs.Rows as model;
ghost use Rattle.sq_slots.specs.Slots.{is_at};
ghost use Rattle.sq_store.specs.inside.Found.{is_kept_and, is_wanted as wanted};
ghost use Rattle.sq_store.specs.Picked.{GivesLive, IsOneOf};

use crate::due::{Wanted, is_wanted};
use crate::rows;
use crate::store::{At, Store};
use sq_base::ids::Serial;
use sq_base::ranges::Timeout;
use sq_base::refusal::Refusal;
use sq_base::row::Row;
use sq_model::calls::Receipt;
use sq_model::listed::Listed;
use sq_model::replies::Counts;
use std::alloc::Global;

/// The plain store: each step walks all rows.
#[derive(Drop)]
pub struct PlainStore {
    rows: Vec<Row>,
}

impl PlainStore {
    /// A store without rows, which takes no memory yet.
    pub fn new(alloc: Global) -> PlainStore
        ensures { ⟦<PlainStore as Store>⟧.rows result ≡ [] }
    {
        PlainStore {
            rows: Vec::new(alloc),
        }
    }
}

// Where the row of a slot and a serial is.
fn index_at(rows: &[Row], slot: u32, serial: Serial) -> Option<usize>
    ensures { result ≡ position (is_at slot serial) rows.now }
{
    rows.iter().position(|row| rows::is_at(slot, serial, row))
}

// Where the first row is that is looked for.
fn first_at(rows: &[Row], what: Wanted, at: &At) -> Option<usize>
    ensures { result ≡ position (is_kept_and (wanted what at.now.settings at.now.moment) at.now.settings at.now.moment) rows.now }
{
    rows.iter().position(|row| is_wanted(what, at, row))
}

// That row.
fn first_row<'a>(rows: &'a [Row], what: Wanted, at: &At) -> Option<&'a Row>
    ensures one { IfSome result (λ row. IsOneOf (wanted what at.now.settings at.now.moment) (model.unexpired at.now.settings at.now.moment rows.now) row.now) }
    ensures none { IfNone result (list_any (wanted what at.now.settings at.now.moment) (model.unexpired at.now.settings at.now.moment rows.now) ≡ false) }
{
    match first_at(rows, what, at) {
        Some(first) => Some(&rows[first]),
        None => None,
    }
}

fn count_visible(rows: &[Row], moment: u64) -> usize
    ensures { result ≡ count_by (model.is_visible moment) rows.now }
{
    rows.iter().filter(|row| row.visible_from <= moment).count()
}

fn count_in_flight(rows: &[Row], moment: u64) -> usize
    ensures { result ≡ count_by (model.is_in_flight moment) rows.now }
{
    rows.iter()
        .filter(|row| rows::is_in_flight(moment, row))
        .count()
}

fn count_delayed(rows: &[Row], moment: u64) -> usize
    ensures { result ≡ count_by (model.is_delayed moment) rows.now }
{
    rows.iter()
        .filter(|row| rows::is_delayed(moment, row))
        .count()
}

// The first live rows, up to `max`, as they stand after a receive. Refused as NoMemory, only where one is given.
fn pick_first(
    alloc: Global,
    rows: &[Row],
    at: &At,
    until: u64,
    max: usize,
) -> Result<Listed<Row>, Refusal>
    ensures picked { IfOk result (λ picked. picked ≡ take max (map (model.received at.now.moment until) (filter (model.is_live at.now.settings at.now.moment) (model.unexpired at.now.settings at.now.moment rows.now)))) }
    ensures err { IfErr result (λ e. (e ≡ Refusal.NoMemory) × GivesLive at.now.settings at.now.moment max rows.now) }
{
    let mut picked = Listed::new(alloc);
    for row in rows {
        if picked.len() < max && rows::is_kept(at, row) && rows::is_live(at, row) {
            picked.push(rows::received_copy(row, at.moment, until)?)?;
        }
    }
    Ok(picked)
}

fn has_serial(rows: &[Row], serial: Serial) -> bool
    ensures { result ≡ list_any (λ c. c == serial) (model.serials_of rows.now) }
{
    rows.iter().map(|row| row.serial).any(|c| c == serial)
}

fn receive_row(row: &mut Row, at: &At, picked: &[Row], until: u64)
    ensures { row.new ≡ model.received_if at.now.settings (model.serials_of picked.now) at.now.moment until row.old }
{
    if rows::is_live(at, row) && has_serial(picked, row.serial) {
        row.receives += 1;
        row.last_receive = Some(at.moment);
        row.visible_from = until;
    }
}

fn change_row(row: &mut Row, receipt: &Receipt, moment: u64, until: u64)
    ensures { row.new ≡ model.changed_if moment receipt.now until row.old }
{
    if rows::is_held(moment, receipt, row) {
        row.visible_from = until;
    }
}

fn has_slot(rows: &[Row], slot: u32) -> bool
    ensures { result ≡ list_any (λ row. row.slot == slot) rows.now }
{
    rows.iter().any(|row| row.slot == slot)
}

// A slot that no row has: the number of the rows, or else the least.
fn free_slot(rows: &[Row]) -> u32
    requires { length rows.now < 4294967296 }
    ensures free { model.is_free result rows.now ≡ true }
    ensures number { model.is_free (length rows.now) rows.now ≡ true → result ≡ length rows.now }
    ensures least { model.is_free (length rows.now) rows.now ≡ false → (k : ℕ) → k < result → model.is_free k rows.now ≡ false }
{
    let count = rows.len() as u32;
    if !has_slot(rows, count) {
        return count;
    }
    for slot in 0..count {
        if !has_slot(rows, slot) {
            return slot;
        }
    }
    count
}

impl Store for PlainStore {
    ghost rows = { λ s. s.rows.items };

    ghost reserved = { λ s. vec_capacity s.rows - vec_len s.rows };

    fn count_kept(&self, at: &At) -> usize {
        self.rows
            .iter()
            .filter(|row| rows::is_kept(at, row))
            .count()
    }

    fn count_in_flight(&self, at: &At) -> usize {
        self.rows
            .iter()
            .filter(|row| rows::is_kept(at, row))
            .filter(|row| rows::is_in_flight(at.moment, row))
            .count()
    }

    fn has_live(&self, at: &At) -> bool {
        self.rows
            .iter()
            .filter(|row| rows::is_kept(at, row))
            .any(|row| rows::is_live(at, row))
    }

    fn find_dead(&self, at: &At) -> Option<&Row> {
        first_row(&self.rows, Wanted::Dead, at)
    }

    fn find_live(&self, at: &At) -> Option<&Row> {
        first_row(&self.rows, Wanted::Live, at)
    }

    fn find_at_rest(&self, at: &At) -> Option<&Row> {
        first_row(&self.rows, Wanted::AtRest, at)
    }

    fn has_held(&self, at: &At, receipt: &Receipt) -> bool {
        self.rows
            .iter()
            .filter(|row| rows::is_kept(at, row))
            .any(|row| rows::is_held(at.moment, receipt, row))
    }

    fn has_late(&self, at: &At, receipt: &Receipt, timeout: Timeout) -> bool {
        self.rows.iter().filter(|row| rows::is_kept(at, row)).any(|row| {
            rows::is_held(at.moment, receipt, row)
                && rows::is_late(at.moment, timeout, row.last_receive)
        })
    }

    #[tactic(auto, using(crate::proofs::FoundLaws::few_counted))]
    fn count(&self, moment: u64) -> Counts {
        Counts {
            visible: count_visible(&self.rows, moment) as u32,
            in_flight: count_in_flight(&self.rows, moment) as u32,
            delayed: count_delayed(&self.rows, moment) as u32,
        }
    }

    fn pick(&self, alloc: Global, at: &At, until: u64, max: usize) -> Result<Listed<Row>, Refusal> {
        pick_first(alloc, &self.rows, at, until, max)
    }

    fn spare(&self) -> usize {
        self.rows.capacity() - self.rows.len()
    }

    fn reserve(&mut self) -> Result<(), Refusal> {
        self.rows.try_reserve(4)?;
        Ok(())
    }

    fn expire(&mut self, at: &At) {
        self.rows.retain(|row| rows::is_kept(at, row))
    }

    fn insert(&mut self, row: Row) -> u32 {
        let slot = free_slot(&self.rows);
        let mut row = row;
        row.slot = slot;
        // Memory for it was reserved.
        let _ = self.rows.push(row);
        slot
    }

    fn receive(&mut self, at: &At, picked: &[Row], until: u64) {
        for row in self.rows.iter_mut() {
            receive_row(row, at, picked, until);
        }
    }

    fn take(&mut self, receipt: &Receipt) {
        self.rows.retain(|row| !rows::is_named(receipt, row))
    }

    fn take_out(&mut self, slot: u32, serial: Serial) -> Option<Row> {
        match index_at(&self.rows, slot, serial) {
            Some(at) => Some(self.rows.remove(at)),
            None => None,
        }
    }

    fn change(&mut self, receipt: &Receipt, moment: u64, until: u64) {
        for row in self.rows.iter_mut() {
            change_row(row, receipt, moment, until);
        }
    }

    fn clear(&mut self) {
        self.rows.clear();
    }
}
