//! Lists: of rows, tasks, names, and of the entries of a batch.
ghost use Rattle.std.specs.Prelude.{◌≡◌, ◌<◌, [], ◌∷◌, ◌++◌, OnOk, IfOk, IfErr, length};

use sq_base::refusal::Refusal;
use std::alloc::Global;
use std::marker::Model;

/// Things in an order.
#[derive(Drop)]
pub struct Listed<T> {
    items: Vec<T>,
}

impl<T> Model for Listed<T> {
    ghost use Rattle.std.specs.Prelude.{List};

    ghost Value = { List T };

    ghost view = { λ listed. listed.items.items };
}

impl<T: Drop> Listed<T> {
    /// Nothing.
    pub fn new(alloc: Global) -> Listed<T>
        ensures { result ≡ [] }
    {
        Listed {
            items: Vec::new(alloc),
        }
    }

    /// Things that were listed in memory that was got for them.
    pub fn of(items: Vec<T>) -> Listed<T>
        ensures { result ≡ items.items }
    {
        Listed { items }
    }

    /// Puts one last; refused only where memory is out.
    pub fn push(&mut self, item: T) -> Result<(), Refusal>
        ensures ok { OnOk result (self.new ≡ self.old ++ item ∷ []) }
        ensures err { IfErr result (λ e. (e ≡ Refusal.NoMemory) × (self.new ≡ self.old)) }
    {
        // Most lists have one, and a list that grows by itself has spare memory for four at first.
        self.items.try_reserve_exact(1)?;
        self.items.push(item)?;
        Ok(())
    }

    /// How many there are.
    pub fn len(&self) -> usize
        ensures { result ≡ length self.now }
    {
        self.items.len()
    }

    /// The things in their order.
    pub fn as_slice(&self) -> &[T]
        ensures { result.now ≡ self.now }
    {
        self.items.as_slice()
    }
}

impl<T: PartialEq> PartialEq for Listed<T> {
    ghost use Rattle.std.specs.Cmp.Lexicographic.{pointwise, lists_per};

    ghost eq = { pointwise T.eq };

    ghost laws = { lists_per T.laws };

    fn eq(&self, other: &Listed<T>) -> bool {
        self.items.as_slice() == other.items.as_slice()
    }
}

impl<T: Copy> Listed<T> {
    /// The same things. Refused as NoMemory, where there are any.
    pub fn copy(&self, alloc: Global) -> Result<Listed<T>, Refusal>
        ensures copy { IfOk result (λ copy. copy ≡ self.now) }
        ensures err { IfErr result (λ e. (e ≡ Refusal.NoMemory) × (0 < length self.now)) }
    {
        let mut copies = Listed::new(alloc);
        for item in self.as_slice() {
            copies.push(*item)?;
        }
        Ok(copies)
    }
}
