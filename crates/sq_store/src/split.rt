//! Rows that are exhausted, apart from those that a look may give again.
ghost use Rattle.std.specs.Prelude.{◌≡◌, ◌≤◌, [], length};
ghost use Rattle.sq_store.specs.Due.{Holds, enqueued_at};
ghost use Rattle.sq_store.specs.SlotStores.{any_row, reserved_in, AreVisible};
ghost use Rattle.sq_store.specs.Visible.{HasSpace};
ghost use Rattle.sq_store.specs.inside.Visible.{KeepsSpace};

use crate::slots::SlotStore;
use crate::visible::VisibleFrom;
use sq_deadline::deadline::Deadline;
use sq_deadline::index::DeadlineIndex;
use sq_slots::table::SlotTable;

// Puts all rows into the lists of their classes, which are empty and have memory for them.
fn list_all(table: &SlotTable, ages: &DeadlineIndex, visible: &mut VisibleFrom)
    requires aged { Holds any_row enqueued_at table.now.rows ages.now.deadlines }
    requires unreceived { visible.old.unreceived.deadlines ≡ [] }
    requires received { visible.old.received.deadlines ≡ [] }
    requires exhausted { visible.old.exhausted.deadlines ≡ [] }
    requires memory { HasSpace (length table.now.rows) visible.old }
    ensures held { AreVisible table.now.rows visible.new }
    ensures most { visible.new.most ≡ visible.old.most }
    ensures space { KeepsSpace visible.old visible.new }
{
    if table.len() == 0 {
        return;
    }
    for rank in 0..ages.len() {
        if let Some(age) = ages.nth(rank) {
            if let Some(row) = table.at(age.slot) {
                let until = Deadline {
                    moment: row.visible_from,
                    slot: row.slot,
                };
                visible.set(row.receives, until);
            }
        }
    }
}

impl SlotStore {
    /// Keeps those rows apart that were received so often. Where this number has changed it takes time by all rows, and
    /// else none.
    pub(crate) fn split(&mut self, most: u32)
        ensures rows { self.new.table.rows ≡ self.old.table.rows }
        ensures most { self.new.visible.most ≡ most }
        ensures reserved { reserved_in self.old ≤ reserved_in self.new }
    {
        if self.visible.most == most {
            return;
        }
        let SlotStore {
            table,
            visible,
            ages,
            ..
        } = self;
        visible.empty();
        visible.most = most;
        list_all(table, ages, visible);
    }
}
