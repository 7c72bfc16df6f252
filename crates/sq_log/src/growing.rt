//! Lists of what is never forgotten, which grow within memory that was got before.
ghost use Rattle.std.specs.Prelude.{◌≡◌, ◌+◌, ◌≤◌, ◌++◌, ◌∷◌, []};
ghost use Rattle.sq_log.specs.Spares.{HasReserved, IsReady, KeepsSpare};

use crate::blocks::Blocks;
use sq_base::refusal::Refusal;
use std::alloc::Global;
use std::marker::Model;

/// A list that gets memory before a step, and shows for how many more items it had memory when its last item was put. A
/// step that is refused may have got more, and leaves what is shown.
#[derive(Drop)]
pub struct Growing<T> {
    items: Blocks<T>,
    spare: usize,
}

impl<T> Model for Growing<T> {
    ghost use Rattle.std.specs.Prelude.{◌≤◌};
    ghost use Rattle.sq_log.specs.Spares.{GrowingValue};

    ghost Value = { GrowingValue T };

    ghost view = { λ g. record { items = g.items.items; spare = g.spare; reserved = g.items.reserved } };

    ghost invariant = { λ g. g.spare ≤ g.items.reserved };
}

impl<T: Drop> Growing<T> {
    /// No item, and memory for none.
    pub fn new(alloc: Global) -> Growing<T>
        ensures { result ≡ record { items = []; spare = 0; reserved = 0 } }
    {
        Growing {
            items: Blocks::new(alloc),
            spare: 0,
        }
    }

    /// The items in order.
    pub fn items(&self) -> &Blocks<T>
        ensures { result.now.items ≡ self.now.items }
    {
        &self.items
    }

    /// Gets memory for one item more, and for four at once where it shows no spare memory. Refused as NoMemory where it
    /// shows no spare memory and has memory for fewer than four.
    pub fn reserve(&mut self) -> Result<(), Refusal>
        ensures { HasReserved self.old self.new result }
    {
        if self.spare == 0 {
            self.items.reserve()?;
        }
        Ok(())
    }

    /// Puts an item last, for which `reserve` got memory.
    pub fn push(&mut self, item: T)
        requires { IsReady self.old.spare self.old.reserved }
        ensures items { self.new.items ≡ self.old.items ++ item ∷ [] }
        ensures shown { self.new.spare ≡ self.new.reserved }
        ensures kept { self.old.reserved ≤ self.new.reserved + 1 }
        ensures spare { KeepsSpare self.old.spare self.new.spare }
    {
        self.items.push(item);
        self.spare = self.items.reserved();
    }
}
