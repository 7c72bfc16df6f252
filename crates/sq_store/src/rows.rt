//! Tests of a row, and what a receive makes of it.
ghost use Rattle.std.specs.Prelude.{◌≡◌, ◌+◌, ◌<◌, false, nat_le, not, IfErr, IfNone, IfOk, IfSome};
ghost use Rattle.sq_base.specs.declared.row.Row.{Row as RowValue};
ghost use Rattle.sq_model.specs.Rows as model;
ghost use Rattle.sq_slots.specs.Slots as slots;
ghost use Rattle.sq_store.specs.inside.Due as due;

use crate::store::At;
use sq_base::ids::Serial;
use sq_base::ranges::Timeout;
use sq_base::refusal::Refusal;
use sq_base::row::Row;
use sq_base::settings::Redrive;
use sq_model::calls::Receipt;
use sq_model::rows::copy_row;

/// Whether a row is not past its retention.
pub(crate) fn is_kept(at: &At, row: &Row) -> bool
    ensures { result ≡ not (model.is_expired at.now.settings at.now.moment row.now) }
{
    let retention = at.settings.retention.get() as u64 * 1000;
    at.moment < retention || at.moment - retention < row.enqueued
}

/// The last moment at which a row that is past its retention now came in; none where no row can be past it.
pub(crate) fn expired_bound(at: &At) -> Option<u64>
    ensures some { IfSome result (λ bound. (row : RowValue) → model.is_expired at.now.settings at.now.moment row ≡ nat_le row.enqueued bound) }
    ensures none { IfNone result ((row : RowValue) → model.is_expired at.now.settings at.now.moment row ≡ false) }
{
    at.moment
        .checked_sub(at.settings.retention.get() as u64 * 1000)
}

/// How often a row is received until a look gives it no more: as the policy says, or as often as can be counted.
pub(crate) fn most_under(policy: &Option<Redrive>) -> u32
    ensures { result ≡ due.most_under policy.now }
{
    match policy {
        None => u32::MAX,
        Some(redrive) => redrive.max_receives.get(),
    }
}

/// Whether a row is in flight: received, and hidden.
pub(crate) fn is_in_flight(moment: u64, row: &Row) -> bool
    ensures { result ≡ model.is_in_flight moment row.now }
{
    0 < row.receives && moment < row.visible_from
}

fn is_spent(policy: &Option<Redrive>, row: &Row) -> bool
    ensures { result ≡ model.is_spent policy.now row.now }
{
    match policy {
        None => false,
        Some(redrive) => redrive.max_receives.get() <= row.receives,
    }
}

/// Whether a row is dead: visible, and received as often as the policy lets it be.
pub(crate) fn is_dead(at: &At, row: &Row) -> bool
    ensures { result ≡ model.is_dead at.now.settings at.now.moment row.now }
{
    row.visible_from <= at.moment && is_spent(&at.settings.redrive, row)
}

/// Whether a look may give a row: visible, not dead, and received less often than can be counted.
pub(crate) fn is_live(at: &At, row: &Row) -> bool
    ensures { result ≡ model.is_live at.now.settings at.now.moment row.now }
{
    row.visible_from <= at.moment && !is_dead(at, row) && row.receives < u32::MAX
}

/// Whether slot, serial and receive number of a row are those of a receipt.
pub(crate) fn is_named(receipt: &Receipt, row: &Row) -> bool
    ensures { result ≡ model.is_named receipt.now row.now }
{
    row.slot == receipt.slot
        && row.serial == receipt.serial
        && row.receives == receipt.receive.get()
}

/// Whether a row is delayed: never received, and hidden.
pub(crate) fn is_delayed(moment: u64, row: &Row) -> bool
    ensures { result ≡ model.is_delayed moment row.now }
{
    row.receives == 0 && moment < row.visible_from
}

/// Whether a row is that of a receipt, and in flight.
pub(crate) fn is_held(moment: u64, receipt: &Receipt, row: &Row) -> bool
    ensures { result ≡ model.is_held moment receipt.now row.now }
{
    is_named(receipt, row) && is_in_flight(moment, row)
}

/// Whether so many seconds after the moment are more than 12 hours after the last receive.
pub(crate) fn is_late(moment: u64, timeout: Timeout, last_receive: Option<u64>) -> bool
    ensures { result ≡ model.is_late (moment + model.ms timeout) last_receive }
{
    let hidden = timeout.get() as u64 * 1000;
    match last_receive {
        None => false,
        Some(last) => last < moment && moment - last > 43_200_000 - hidden,
    }
}

/// Whether a row is that of a slot and a serial.
pub(crate) fn is_at(slot: u32, serial: Serial, row: &Row) -> bool
    ensures { result ≡ slots.is_at slot serial row.now }
{
    row.slot == slot && row.serial == serial
}

/// The same row after a receive. Refused as NoMemory.
pub(crate) fn received_copy(row: &Row, moment: u64, until: u64) -> Result<Row, Refusal>
    requires { row.now.receives < 4294967295 }
    ensures copy { IfOk result (λ copy. copy ≡ model.received moment until row.now) }
    ensures err { IfErr result (λ e. e ≡ Refusal.NoMemory) }
{
    let mut copy = copy_row(row)?;
    copy.receives += 1;
    copy.last_receive = Some(moment);
    copy.visible_from = until;
    Ok(copy)
}
