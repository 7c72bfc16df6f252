//! What a store of rows in slots finds by what is due.
ghost use Rattle.std.specs.Prelude.{◌≡◌, ◌++◌, ◌≤◌, [], count_by, false, true, length, map, nat_le, nat_lt, take, IfErr, IfNone, IfSome, OnOk};
ghost use Rattle.std.specs.List.{list_any};
ghost use Rattle.sq_deadline.specs.Deadlines as deadlines;
ghost use Rattle.sq_model.specs.Rows as model;
ghost use Rattle.sq_slots.specs.Slots.{AreApart};
ghost use Rattle.sq_store.specs.inside.Found.{found, found_due, is_kept_and, is_wanted as wanted};
ghost use Rattle.sq_store.specs.Picked.{GivesLive, IsOneOf};
ghost use Rattle.sq_store.specs.inside.SlotStores.{IsFromBefore};

use crate::rows;
use crate::slots::SlotStore;
use crate::store::At;
use sq_base::ids::Serial;
use sq_base::refusal::Refusal;
use sq_base::row::Row;
use sq_deadline::deadline::Deadline;
use sq_deadline::index::DeadlineIndex;
use sq_model::listed::Listed;
use sq_slots::table::SlotTable;

/// Which rows are looked for.
#[derive(Clone, Copy, PartialEq, Eq, Debug)]
pub(crate) enum Wanted {
    Live,
    Dead,
    AtRest,
}

/// Whether a row is not past its retention, and is one that is looked for.
pub(crate) fn is_wanted(what: Wanted, at: &At, row: &Row) -> bool
    ensures { result ≡ is_kept_and (wanted what at.now.settings at.now.moment) at.now.settings at.now.moment row.now }
{
    rows::is_kept(at, row)
        && match what {
            Wanted::Live => rows::is_live(at, row),
            Wanted::Dead => rows::is_dead(at, row),
            Wanted::AtRest => !rows::is_in_flight(at.moment, row),
        }
}

// Whether a deadline is due at a moment or before it. At the last moment that there is, each is.
fn is_due(moment: u64, deadline: &Deadline) -> bool
    ensures due { result ≡ deadlines.is_due moment deadline.now }
    ensures last { moment ≡ 18446744073709551615 → result ≡ true }
{
    deadline.moment <= moment
}

// The first row that is looked for, of those whose deadlines are due at a moment or before it; of all, where it is the last that
// there is. It takes time by the rows that are due before it.
pub(crate) fn first_of<'a>(
    table: &'a SlotTable,
    index: &DeadlineIndex,
    what: Wanted,
    at: &At,
    due: u64,
) -> Option<&'a Row>
    ensures one { IfSome result (λ row. IsOneOf (wanted what at.now.settings at.now.moment) (model.unexpired at.now.settings at.now.moment table.now.rows) row.now) }
    ensures none { IfNone result (found_due (is_kept_and (wanted what at.now.settings at.now.moment) at.now.settings at.now.moment) table.now.rows due index.now.deadlines ≡ []) }
    ensures all { IfNone result (due ≡ 18446744073709551615 → found (is_kept_and (wanted what at.now.settings at.now.moment) at.now.settings at.now.moment) table.now.rows index.now.deadlines ≡ []) }
    ensures apart { AreApart table.now.rows }
{
    if table.len() == 0 {
        return None;
    }
    for rank in 0..index.len() {
        let deadline = index.nth(rank)?;
        if !is_due(due, deadline) {
            return None;
        }
        if let Some(row) = table.at(deadline.slot) {
            if is_wanted(what, at, row) {
                return Some(row);
            }
        }
    }
    None
}

// Copies the live ones of the rows whose deadlines are due, up to so many in all, as they stand after a receive that hides
// them until a moment. It takes time by the rows that are due, up to the last one of these.
pub(crate) fn pick_of(
    picked: &mut Listed<Row>,
    table: &SlotTable,
    index: &DeadlineIndex,
    at: &At,
    until: u64,
    max: usize,
) -> Result<(), Refusal>
    requires { length picked.old ≤ max }
    ensures picked { OnOk result (picked.new ≡ take max (picked.old ++ map (model.received at.now.moment until) (found_due (is_kept_and (model.is_live at.now.settings at.now.moment) at.now.settings at.now.moment) table.now.rows at.now.moment index.now.deadlines))) }
    ensures err { IfErr result (λ e. (e ≡ Refusal.NoMemory) × GivesLive at.now.settings at.now.moment max table.now.rows) }
    ensures apart { AreApart table.now.rows }
{
    if table.len() == 0 {
        return Ok(());
    }
    for rank in 0..index.len() {
        if picked.len() == max {
            return Ok(());
        }
        let Some(due) = index.nth_due(rank, at.moment) else {
            return Ok(());
        };
        if let Some(row) = table.at(due.slot) {
            if is_wanted(Wanted::Live, at, row) {
                picked.push(rows::received_copy(row, at.moment, until)?)?;
            }
        }
    }
    Ok(())
}

// How many rows are in flight, of those whose deadlines are due. It takes time by them.
pub(crate) fn count_in_flight_of(
    table: &SlotTable,
    index: &DeadlineIndex,
    due: u64,
    moment: u64,
) -> usize
    ensures { result ≡ length (found_due (model.is_in_flight moment) table.now.rows due index.now.deadlines) }
{
    let mut count = 0;
    for rank in 0..index.len() {
        let Some(deadline) = index.nth_due(rank, due) else {
            return count;
        };
        if let Some(row) = table.at(deadline.slot) {
            if rows::is_in_flight(moment, row) {
                count += 1;
            }
        }
    }
    count
}

// How many of these are due later than at a moment, found by binary search.
fn count_later(index: &DeadlineIndex, moment: u64) -> usize
    ensures { result ≡ count_by (λ d. nat_lt moment d.moment) index.now.deadlines }
{
    index.len() - index.count_due(moment)
}

impl SlotStore {
    // The slot and the serial of the row that is there longest, where it came at this moment or before it, found by search.
    pub(crate) fn oldest(&self, bound: u64) -> Option<(u32, Serial)>
        ensures row { IfSome result (λ at. IsFromBefore bound self.now.table.rows at.0 at.1) }
        ensures none { IfNone result (list_any (λ row. nat_le row.enqueued bound) self.now.table.rows ≡ false) }
    {
        let slot = self.ages.due(bound)?.slot;
        let row = self.table.at(slot)?;
        Some((slot, row.serial))
    }

    // How many rows are in flight: those that were received, less those of them that are visible again.
    pub(crate) fn count_in_flight_rows(&self, moment: u64) -> usize
        ensures count { result ≡ count_by (model.is_in_flight moment) self.now.table.rows }
        ensures apart { AreApart self.now.table.rows }
    {
        let visible = &self.visible;
        let received = self.table.len() - visible.unreceived.len();
        received - visible.received.count_due(moment) - visible.exhausted.count_due(moment)
    }

    // How many rows are delayed.
    pub(crate) fn count_delayed_rows(&self, moment: u64) -> usize
        ensures { result ≡ count_by (model.is_delayed moment) self.now.table.rows }
    {
        count_later(&self.visible.unreceived, moment)
    }
}
