//! What a home keeps its rows in.
ghost use Rattle.std.specs.Prelude.{◌≡◌, ◌+◌, ◌++◌, ◌∷◌, [], ℕ, ◌<◌, ◌≤◌, ◌&&◌, List, length, count_by, map, true, false, IfOk, IfErr, IfSome, IfNone, OnOk, OnErr};
ghost use Rattle.std.specs.List.{list_any};
ghost use Rattle.sq_base.specs.declared.row.Row.{Row};
ghost use Rattle.sq_model.specs.Homes.{counts_of};
ghost use Rattle.sq_model.specs.Rows.{ms, unexpired, is_at_rest, is_in_flight, is_live, is_dead, is_held, is_late, changed_if, IsLook, RisesFrom, serials_of, received_if, without, is_free, Takes};
ghost use Rattle.sq_slots.specs.Slots.{is_at};
ghost use Rattle.sq_store.specs.Picked.{AreTheirs, GivesLive, IsOneOf};

use sq_base::ids::Serial;
use sq_base::ranges::Timeout;
use sq_base::refusal::Refusal;
use sq_base::row::Row;
use sq_base::settings::Settings;
use sq_model::calls::Receipt;
use sq_model::listed::Listed;
use sq_model::replies::Counts;
use std::alloc::Global;

/// The settings of a home, and the moment of a step there, in ms.
#[derive(Clone, Copy)]
pub struct At {
    pub settings: Settings,
    pub moment: u64,
}

/// The rows of a home, in whatever form they are kept. Moments are in ms.
pub trait Store: Drop {
    /// The rows, in the order in which they came.
    ghost rows: { Self → List Row };

    /// For how many more rows there is memory.
    ghost reserved: { Self → ℕ };

    /// How many rows have not expired at this moment.
    fn count_kept(&self, at: &At) -> usize
        ensures { result ≡ length (unexpired at.now.settings at.now.moment (rows self.now)) };

    /// How many of the rows that have not expired at this moment are in flight.
    fn count_in_flight(&self, at: &At) -> usize
        ensures { result ≡ count_by (is_in_flight at.now.moment) (unexpired at.now.settings at.now.moment (rows self.now)) };

    /// Whether one of them is live.
    fn has_live(&self, at: &At) -> bool
        ensures { result ≡ list_any (is_live at.now.settings at.now.moment) (unexpired at.now.settings at.now.moment (rows self.now)) };

    /// A dead one of them, any.
    fn find_dead(&self, at: &At) -> Option<&Row>
        ensures one { IfSome result (λ row. IsOneOf (is_dead at.now.settings at.now.moment) (unexpired at.now.settings at.now.moment (rows self.now)) row.now) }
        ensures none { IfNone result (list_any (is_dead at.now.settings at.now.moment) (unexpired at.now.settings at.now.moment (rows self.now)) ≡ false) };

    /// A live one of them, any.
    fn find_live(&self, at: &At) -> Option<&Row>
        ensures one { IfSome result (λ row. IsOneOf (is_live at.now.settings at.now.moment) (unexpired at.now.settings at.now.moment (rows self.now)) row.now) }
        ensures none { IfNone result (list_any (is_live at.now.settings at.now.moment) (unexpired at.now.settings at.now.moment (rows self.now)) ≡ false) };

    /// One of them that is not in flight, any: visible, or never received.
    fn find_at_rest(&self, at: &At) -> Option<&Row>
        ensures one { IfSome result (λ row. IsOneOf (is_at_rest at.now.moment) (unexpired at.now.settings at.now.moment (rows self.now)) row.now) }
        ensures none { IfNone result (list_any (is_at_rest at.now.moment) (unexpired at.now.settings at.now.moment (rows self.now)) ≡ false) };

    /// Whether one of them is the row of a receipt, and in flight.
    fn has_held(&self, at: &At, receipt: &Receipt) -> bool
        ensures { result ≡ list_any (is_held at.now.moment receipt.now) (unexpired at.now.settings at.now.moment (rows self.now)) };

    /// Whether that row would be hidden for more than 12 hours after its last receive, if it were hidden for so many
    /// seconds from the moment on.
    fn has_late(&self, at: &At, receipt: &Receipt, timeout: Timeout) -> bool
        ensures { result ≡ list_any (λ row. is_held at.now.moment receipt.now row && is_late (at.now.moment + ms timeout) row.last_receive) (unexpired at.now.settings at.now.moment (rows self.now)) };

    /// How many rows are in which state, of those that are there.
    fn count(&self, moment: u64) -> Counts
        requires { length (rows self.now) < 4294967296 }
        ensures { result ≡ counts_of moment (rows self.now) };

    /// Up to `max` of the live ones, as they stand after a receive that hides them until a moment. Refused as NoMemory, only where it
    /// gives one.
    fn pick(&self, alloc: Global, at: &At, until: u64, max: usize) -> Result<Listed<Row>, Refusal>
        requires { (next : ℕ) × RisesFrom 0 (rows self.now) next }
        ensures look { IfOk result (λ picked. IsLook at.now.settings at.now.moment until max (unexpired at.now.settings at.now.moment (rows self.now)) picked) }
        ensures err { IfErr result (λ e. (e ≡ Refusal.NoMemory) × GivesLive at.now.settings at.now.moment max (rows self.now)) };

    /// For how many more rows there is memory.
    fn spare(&self) -> usize
        ensures { result ≡ reserved self.now };

    /// Makes spare memory for four rows more. Refused as NoMemory, only where there is spare memory for fewer.
    fn reserve(&mut self) -> Result<(), Refusal>
        ensures rows { rows self.new ≡ rows self.old }
        ensures reserved { OnOk result (4 ≤ reserved self.new) }
        ensures full { OnErr result (reserved self.old < 4) }
        ensures err { IfErr result (λ e. e ≡ Refusal.NoMemory) };

    /// Leaves out the rows past their retention.
    fn expire(&mut self, at: &At)
        ensures rows { rows self.new ≡ unexpired at.now.settings at.now.moment (rows self.old) }
        ensures reserved { reserved self.old ≤ reserved self.new };

    /// Puts a row last, whose serial is above all, in a slot that no row has, and gives the slot.
    fn insert(&mut self, row: Row) -> u32
        requires reserved { 0 < reserved self.old }
        requires rising { RisesFrom 0 (rows self.old) row.serial }
        requires slot { length (rows self.old) < 4294967296 }
        ensures free { is_free result (rows self.old) ≡ true }
        ensures rows { rows self.new ≡ rows self.old ++ record row { slot = result } ∷ [] }
        ensures reserved { reserved self.old ≤ reserved self.new + 1 };

    /// Receives at a moment the live rows with the serials of these, which have the slots that they have here, and hides them
    /// until another.
    fn receive(&mut self, at: &At, picked: &[Row], until: u64)
        requires picked { AreTheirs (rows self.old) picked.now }
        ensures rows { rows self.new ≡ map (received_if at.now.settings (serials_of picked.now) at.now.moment until) (rows self.old) }
        ensures reserved { reserved self.old ≤ reserved self.new };

    /// Takes out the row on which slot, serial and receive number agree.
    fn take(&mut self, receipt: &Receipt)
        ensures rows { rows self.new ≡ without receipt.now (rows self.old) }
        ensures reserved { reserved self.old ≤ reserved self.new };

    /// Takes out the row of a slot and a serial, and hands it over.
    fn take_out(&mut self, slot: u32, serial: Serial) -> Option<Row>
        ensures taken { IfSome result (λ row. (is_at slot serial row ≡ true) × Takes row (rows self.old) (rows self.new)) }
        ensures none { IfNone result (list_any (is_at slot serial) (rows self.old) ≡ false) }
        ensures kept { IfNone result (rows self.new ≡ rows self.old) }
        ensures reserved { reserved self.old ≤ reserved self.new };

    /// Hides the row of a receipt until another moment, where it is in flight.
    fn change(&mut self, receipt: &Receipt, moment: u64, until: u64)
        ensures rows { rows self.new ≡ map (changed_if moment receipt.now until) (rows self.old) }
        ensures reserved { reserved self.old ≤ reserved self.new };

    /// Takes out all rows.
    fn clear(&mut self)
        ensures rows { rows self.new ≡ [] }
        ensures reserved { reserved self.old ≤ reserved self.new };
}
