//! The items in transit, in rising number.
ghost use Rattle.std.specs.Prelude.{◌≡◌, ◌+◌, ◌<◌, ◌≤◌, ◌++◌, ◌∷◌, [], OnOk, IfErr, find, length, map, nat_le, nat_lt, option_map, slice_get};
ghost use Rattle.std.specs.List.{position_or_len};
ghost use Rattle.std.specs.Option.{option_or};
ghost use Rattle.sq_model.specs.Ledgers.{has_number, items_without, turned_if, ItemsRise};
ghost use Rattle.sq_ledger.specs.LedgerHistory.{items_after};

use sq_base::refusal::Refusal;
use sq_model::item::Item;
use sq_model::shared::ItemAct;
use std::alloc::Global;
use std::collections::VecDeque;
use std::marker::Model;

/// The items in transit, in rising number, found by binary search. Where one is taken out, the shorter side moves up.
#[derive(Drop)]
pub struct TransitItems {
    items: VecDeque<Item>,
}

impl Model for TransitItems {
    ghost use Rattle.std.specs.Prelude.{ℕ, ◌-◌};
    ghost use Rattle.std.specs.VecDeque.{deque_capacity, deque_len};
    ghost use Rattle.sq_model.specs.Ledgers.{ItemsRise};
    ghost use Rattle.sq_ledger.specs.LedgerHistory.{ItemsValue};

    ghost Value = { ItemsValue };

    ghost view = { λ i. record { items = i.items.items; reserved = deque_capacity i.items - deque_len i.items } };

    ghost invariant = { λ i. (next : ℕ) × ItemsRise 1 i.items.items next };
}

impl TransitItems {
    /// No item, and memory for none.
    pub fn new(alloc: Global) -> TransitItems
        ensures { result.items ≡ [] }
    {
        TransitItems {
            items: VecDeque::new(alloc),
        }
    }

    /// How many items there are.
    pub fn len(&self) -> usize
        ensures { result ≡ length self.now.items }
    {
        self.items.len()
    }

    /// The item of a number.
    pub fn get(&self, number: u64) -> Option<&Item>
        ensures { option_map (λ item. item.now) result ≡ find (has_number number) self.now.items }
    {
        let item = self.items.get(self.index(number))?;
        if item.number.get() == number {
            Some(item)
        } else {
            None
        }
    }

    /// The first item above a number; where none is, the first of all.
    pub fn after(&self, number: u64) -> Option<&Item>
        ensures { option_map (λ item. item.now) result ≡ option_or (find (λ item. nat_lt number item.number) self.now.items) (slice_get self.now.items 0) }
    {
        let index = self
            .items
            .partition_point(|item| item.number.get() <= number);
        if index < self.items.len() {
            self.items.get(index)
        } else {
            self.items.front()
        }
    }

    /// Gets memory for one item more. Refused as NoMemory where there was none.
    pub fn reserve(&mut self) -> Result<(), Refusal>
        ensures items { self.new.items ≡ self.old.items }
        ensures kept { self.old.reserved ≤ self.new.reserved }
        ensures ready { OnOk result (0 < self.new.reserved) }
        ensures refused { IfErr result (λ e. (e ≡ Refusal.NoMemory) × (self.old.reserved ≡ 0)) }
    {
        self.items.try_reserve(1)?;
        Ok(())
    }

    /// Puts an item last whose number is above all others, for which there is memory.
    pub fn push(&mut self, item: Item)
        requires ready { 0 < self.old.reserved }
        requires above { ItemsRise 1 self.old.items item.number }
        ensures items { self.new.items ≡ self.old.items ++ item ∷ [] }
        ensures reserved { self.old.reserved ≤ self.new.reserved + 1 }
    {
        self.items.push_back_reserved(item);
    }

    /// Does this with the item of a number, if it is there: it is turned homeward, or goes out.
    pub fn apply(&mut self, act: ItemAct, number: u64)
        ensures items { self.new.items ≡ items_after act number self.old.items }
        ensures reserved { self.old.reserved ≤ self.new.reserved }
    {
        match act {
            ItemAct::TurnBack => self.turn(number),
            ItemAct::Enter | ItemAct::GiveBack | ItemAct::Drop => {
                let _gone = self.take(number);
            }
        }
    }

    // Takes the item of a number out, if it is there.
    fn take(&mut self, number: u64) -> Option<Item>
        ensures taken { result ≡ find (has_number number) self.old.items }
        ensures items { self.new.items ≡ items_without number self.old.items }
        ensures reserved { self.old.reserved ≤ self.new.reserved }
    {
        self.get(number)?;
        let index = self.index(number);
        self.items.remove(index)
    }

    // Turns the item of a number homeward, if it is there.
    fn turn(&mut self, number: u64)
        ensures items { self.new.items ≡ map (turned_if number) self.old.items }
        ensures reserved { self.new.reserved ≡ self.old.reserved }
    {
        let index = self.index(number);
        if let Some(item) = self.items.get_mut(index) {
            if item.number.get() == number {
                item.homeward = true;
            }
        }
    }

    // Where the first item stands that is not below a number: how many are below it.
    fn index(&self, number: u64) -> usize
        ensures { result ≡ position_or_len (λ item. nat_le number item.number) self.now.items }
    {
        self.items
            .partition_point(|item| item.number.get() < number)
    }
}
