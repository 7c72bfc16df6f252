//! Rows that a home makes: of a message that is sent, and of an item that comes in or comes back.
ghost use Rattle.std.specs.Prelude.{◌≡◌};
ghost use Rattle.sq_model.specs.Homes as homes;
ghost use Rattle.sq_model.specs.ItemActs as acts;

use sq_base::body::Body;
use sq_base::ids::{HomeId, Serial};
use sq_base::message_id::MessageId;
use sq_base::row::Row;
use sq_model::item::{Carried, Item, Reason};
use sq_model::shared::ItemAct;

/// The id of the row to which a home gives a serial.
pub fn fresh_id(home: &HomeId, serial: Serial) -> MessageId
    ensures { result ≡ homes.fresh_id home.now serial }
{
    MessageId {
        queue: home.queue,
        home: home.home,
        serial,
    }
}

/// A message that is sent, before it has a slot.
pub fn sent_row(home: &HomeId, serial: Serial, moment: u64, until: u64, body: Body) -> Row
    ensures { result ≡ homes.sent_row home.now serial 0 moment until body }
{
    let id = fresh_id(home, serial);
    let lineage = fresh_id(home, serial);
    Row {
        id,
        lineage,
        body,
        serial,
        slot: 0,
        enqueued: moment,
        visible_from: until,
        receives: 0,
        last_receive: None,
        origin: None,
    }
}

// A row at a home that it is new to, before it has a slot.
fn moved_row(keeps: Carried, serial: Serial, row: Row) -> Row
    ensures { result ≡ homes.moved keeps serial 0 row }
{
    let mut moved = row;
    moved.serial = serial;
    moved.slot = 0;
    moved.enqueued = keeps.enqueued;
    moved.visible_from = keeps.visible_from;
    moved.receives = keeps.receives;
    moved.last_receive = keeps.last_receive;
    moved
}

/// The row of an item that comes in at its target, before it has a slot: a dead letter stays the same message and
/// remembers its source, a task makes a new message of it, and a message of a drained home stays as it was.
pub fn entered_row(home: &HomeId, serial: Serial, moment: u64, item: Item) -> Row
    ensures { result ≡ homes.entered_row home.now serial 0 moment item }
{
    let Item {
        row,
        source,
        reason,
        ..
    } = item;
    let keeps = Carried::by(&reason, moment, &row);
    let mut row = moved_row(keeps, serial, row);
    match reason {
        Reason::DeadLetter => row.origin = Some(source),
        Reason::Task(_) => {
            row.id = fresh_id(home, serial);
            row.origin = None;
        }
        Reason::Drain => {}
    }
    row
}

/// The row of an item that comes back to its source, before it has a slot.
pub fn returned_row(serial: Serial, moment: u64, item: Item) -> Row
    ensures { result ≡ homes.returned_row serial 0 moment item }
{
    let Item { row, reason, .. } = item;
    let keeps = Carried::back(&reason, moment, &row);
    moved_row(keeps, serial, row)
}

/// Whether an item is one for this home: on its way to it, or on its way back.
pub fn may_act(act: ItemAct, home: &HomeId, item: &Item) -> bool
    ensures { result ≡ acts.may_act act home.now item.now }
{
    match act {
        ItemAct::Enter | ItemAct::TurnBack => !item.homeward && item.target == home.queue,
        ItemAct::GiveBack | ItemAct::Drop => item.homeward && item.source == home.queue,
    }
}
