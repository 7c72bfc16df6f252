//! From when the rows of a home are visible.
ghost use Rattle.std.specs.Prelude.{◌≡◌, [], min, OnOk, IfErr};
ghost use Rattle.sq_store.specs.Visible.{HasSpace};
ghost use Rattle.sq_store.specs.inside.Visible.{first_list, AreBoth, IsCleared, IsOrdered, IsSet, KeepsSpace, LacksSpace, HasSpareFor};
ghost use Rattle.sq_store.specs.Due.{space};

use sq_base::refusal::Refusal;
use sq_deadline::deadline::Deadline;
use sq_deadline::index::DeadlineIndex;
use std::alloc::Global;

/// From when each row of a home is visible: of those never received, of those that were received less often than makes
/// them exhausted, and of those that are exhausted.
#[derive(Drop)]
pub(crate) struct VisibleFrom {
    pub(crate) unreceived: DeadlineIndex,
    pub(crate) received: DeadlineIndex,
    pub(crate) exhausted: DeadlineIndex,
    /// How often a row is received until it is exhausted.
    pub(crate) most: u32,
}

impl VisibleFrom {
    /// No row, and memory for none. No number of receives makes a row exhausted yet.
    pub(crate) fn new(alloc: Global) -> VisibleFrom
        ensures unreceived { result.unreceived.deadlines ≡ [] }
        ensures received { result.received.deadlines ≡ [] }
        ensures exhausted { result.exhausted.deadlines ≡ [] }
        ensures memory { (result.unreceived.reserved ≡ 0) × (result.received.reserved ≡ 0) × (result.exhausted.reserved ≡ 0) }
        ensures most { result.most ≡ 4294967295 }
    {
        VisibleFrom {
            unreceived: DeadlineIndex::new(alloc),
            received: DeadlineIndex::new(alloc),
            exhausted: DeadlineIndex::new(alloc),
            most: u32::MAX,
        }
    }

    /// For how many rows there is memory in all, whatever becomes of them.
    pub(crate) fn space(&self) -> usize
        ensures { result ≡ min (space self.now.unreceived) (min (space self.now.received) (space self.now.exhausted)) }
    {
        self.unreceived
            .space()
            .min(self.received.space().min(self.exhausted.space()))
    }

    /// Gets memory for so many rows in all, whatever becomes of them. Refused as NoMemory, only where there was memory for fewer.
    pub(crate) fn reserve(&mut self, count: usize) -> Result<(), Refusal>
        ensures unreceived { self.new.unreceived.deadlines ≡ self.old.unreceived.deadlines }
        ensures received { self.new.received.deadlines ≡ self.old.received.deadlines }
        ensures exhausted { self.new.exhausted.deadlines ≡ self.old.exhausted.deadlines }
        ensures most { self.new.most ≡ self.old.most }
        ensures space { KeepsSpace self.old self.new }
        ensures ready { OnOk result (HasSpace count self.new) }
        ensures refused { IfErr result (λ e. (e ≡ Refusal.NoMemory) × LacksSpace count self.old) }
    {
        self.unreceived
            .reserve(count.saturating_sub(self.unreceived.len()))?;
        self.received
            .reserve(count.saturating_sub(self.received.len()))?;
        self.exhausted
            .reserve(count.saturating_sub(self.exhausted.len()))
    }

    /// Puts in from when a row is visible that was received so often, for which there is memory.
    pub(crate) fn set(&mut self, receives: u32, deadline: Deadline)
        requires { HasSpareFor receives self.old }
        ensures set { IsSet receives deadline self.old self.new }
        ensures ordered { IsOrdered receives self.old }
    {
        if receives == 0 {
            self.unreceived.set(deadline)
        } else if receives < self.most {
            self.received.set(deadline)
        } else {
            self.exhausted.set(deadline)
        }
    }

    /// Takes out from when a row is visible that was received so often.
    pub(crate) fn clear(&mut self, receives: u32, deadline: &Deadline)
        ensures cleared { IsCleared receives deadline.now self.old self.new }
        ensures ordered { IsOrdered receives self.old }
    {
        if receives == 0 {
            self.unreceived.clear(deadline)
        } else if receives < self.most {
            self.received.clear(deadline)
        } else {
            self.exhausted.clear(deadline)
        }
    }

    /// The lists of the rows that a look may give, the one first whose oldest row has been visible longer: so none of their rows
    /// waits for ever while others come in.
    pub(crate) fn in_turn(&self, moment: u64) -> (&DeadlineIndex, &DeadlineIndex)
        ensures both { AreBoth self.now result.0.now result.1.now }
        ensures first { result.0.now ≡ first_list moment self.now }
    {
        match (self.received.due(moment), self.unreceived.due(moment)) {
            (Some(back), Some(new)) if back.moment < new.moment => (
                &self.received,
                &self.unreceived,
            ),
            _ => (&self.unreceived, &self.received),
        }
    }

    /// Takes out all.
    pub(crate) fn empty(&mut self)
        ensures unreceived { self.new.unreceived.deadlines ≡ [] }
        ensures received { self.new.received.deadlines ≡ [] }
        ensures exhausted { self.new.exhausted.deadlines ≡ [] }
        ensures most { self.new.most ≡ self.old.most }
        ensures space { KeepsSpace self.old self.new }
    {
        self.unreceived.empty();
        self.received.empty();
        self.exhausted.empty();
    }
}
