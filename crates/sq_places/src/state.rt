//! What decides how the rows of a home leave it.
ghost use Rattle.std.specs.Prelude.{◌≡◌};
ghost use Rattle.sq_places.specs.inside.RowStates as states;

use sq_base::ids::Serial;
use sq_base::message_id::MessageId;
use sq_base::ranges::Retention;
use sq_base::row::Row;
use sq_model::calls::{HomeCall, Receipt};
use sq_model::item::{Carried, Item};
use sq_model::replies::{EnteredRow, SentMessage};

/// What decides how a row leaves its home. The moment is in ms.
#[derive(Clone, Copy, PartialEq, Eq, Debug)]
pub struct RowState {
    pub lineage: MessageId,
    pub serial: Serial,
    pub slot: u32,
    pub enqueued: u64,
    pub receives: u32,
}

/// The retention that a home goes by, and the version of its settings.
#[derive(Clone, Copy, PartialEq, Eq, Debug)]
pub struct Policy {
    pub retention: Retention,
    pub version: u64,
}

/// Whether a row that was enqueued then is past this retention.
pub fn is_due(retention: Retention, moment: u64, enqueued: u64) -> bool
    ensures { result ≡ states.is_past_retention retention moment enqueued }
{
    let kept = retention.get() as u64 * 1000;
    kept <= moment && enqueued <= moment - kept
}

/// Whether a row is past this retention.
pub fn is_past(retention: Retention, moment: u64, row: &RowState) -> bool
    ensures { result ≡ states.is_past retention moment row.now }
{
    is_due(retention, moment, row.enqueued)
}

/// Whether slot, serial and receive number are those of the receipt.
pub fn is_named(receipt: &Receipt, row: &RowState) -> bool
    ensures { result ≡ states.is_state_named receipt.now row.now }
{
    (row.slot, row.serial, row.receives) == (receipt.slot, receipt.serial, receipt.receive.get())
}

/// A row that is sent at a moment.
pub fn sent(message: &SentMessage, moment: u64) -> RowState
    ensures { result ≡ states.sent_state message.now moment }
{
    RowState {
        lineage: message.id,
        serial: message.id.serial,
        slot: message.slot,
        enqueued: moment,
        receives: 0,
    }
}

/// The row of an item that comes in at its target at a moment. A dead letter keeps its age, and a message of a drained home its receives too.
pub fn entered(item: &Item, entered: &EnteredRow, moment: u64) -> RowState
    ensures { result ≡ states.entered_state moment item.now entered.now }
{
    let keeps = Carried::by(&item.reason, moment, &item.row);
    row_with(keeps, item.row.lineage, entered)
}

/// The row of an item that comes back to its source at a moment.
pub fn returned(item: &Item, entered: &EnteredRow, moment: u64) -> RowState
    ensures { result ≡ states.returned_state moment item.now entered.now }
{
    let keeps = Carried::back(&item.reason, moment, &item.row);
    row_with(keeps, item.row.lineage, entered)
}

// The row of a message that came in with what it keeps.
fn row_with(keeps: Carried, lineage: MessageId, entered: &EnteredRow) -> RowState
    ensures { result ≡ states.row_with keeps lineage entered.now.serial entered.now.slot }
{
    RowState {
        lineage,
        serial: entered.serial,
        slot: entered.slot,
        enqueued: keeps.enqueued,
        receives: keeps.receives,
    }
}

/// A row after a receive that gave these rows.
pub fn looked(picked: &[Row], row: &RowState) -> RowState
    ensures { result ≡ states.looked picked.now row.now }
{
    if has_serial(picked, row.serial) {
        received(row)
    } else {
        *row
    }
}

/// A row that is received once more.
pub fn received(row: &RowState) -> RowState
    ensures { result ≡ states.state_received row.now }
{
    let receives = if row.receives < u32::MAX {
        row.receives + 1
    } else {
        row.receives
    };
    RowState { receives, ..*row }
}

/// Whether one of these rows has this serial.
pub fn has_serial(rows: &[Row], serial: Serial) -> bool
    ensures { result ≡ states.has_serial_of serial rows.now }
{
    rows.iter().any(|row| row.serial == serial)
}

/// What a home goes by after a call.
pub fn next_policy(policy: &Option<Policy>, call: &HomeCall) -> Option<Policy>
    ensures { result ≡ states.next_policy policy.now call.now }
{
    match call {
        HomeCall::Configure(settings, version) if is_newer(policy, *version) => Some(Policy {
            retention: settings.get().retention,
            version: *version,
        }),
        _ => *policy,
    }
}

// Whether settings of a version are taken.
fn is_newer(policy: &Option<Policy>, version: u64) -> bool
    ensures { result ≡ states.is_newer policy.now version }
{
    match policy {
        None => true,
        Some(policy) => policy.version < version,
    }
}
