//! Values that are held once, by all who have them.
ghost use Rattle.std.specs.Prelude.{◌≡◌, IfOk, IfErr};

use sq_base::refusal::Refusal;
use std::alloc::Global;
use std::marker::Model;
use std::sync::Arc;

/// A value that is held once, behind an address that no contract sees: a copy is one more owner of it.
#[derive(Drop)]
pub struct Held<T> {
    value: Arc<T>,
}

impl<T> Model for Held<T> {
    ghost use Rattle.std.specs.Arc.{arc_value};

    ghost Value = { T };

    ghost view = { λ held. arc_value held.value };
}

impl<T: PartialEq> PartialEq for Held<T> {
    ghost eq = { T.eq };

    ghost laws = { T.laws };

    fn eq(&self, other: &Held<T>) -> bool {
        *self.value == *other.value
    }
}

impl<T: Drop> Held<T> {
    /// Refused only where memory is out.
    pub fn new(alloc: Global, value: T) -> Result<Held<T>, Refusal>
        ensures value { IfOk result (λ held. held ≡ value) }
        ensures refused { IfErr result (λ e. e ≡ Refusal.NoMemory) }
    {
        Ok(Held {
            value: Arc::new(alloc, value)?,
        })
    }

    /// The same value. Refused only where memory is out.
    pub fn copy(&self) -> Result<Held<T>, Refusal>
        ensures copy { IfOk result (λ copy. copy ≡ self.now) }
        ensures refused { IfErr result (λ e. e ≡ Refusal.NoMemory) }
    {
        Ok(Held {
            value: self.value.clone()?,
        })
    }

    /// The value.
    pub fn get(&self) -> &T
        ensures { result.now ≡ self.now }
    {
        &self.value
    }
}
