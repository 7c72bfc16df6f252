//! A value that contracts do not see.
use sq_base::refusal::Refusal;
use std::alloc::Global;
use std::marker::Model;

/// A value in a box, of which contracts see nothing. A world or a service has a great many fields, all of which a function is proved with
/// that has one on its own stack, or sees one.
#[derive(Drop)]
pub struct Hidden<T> {
    value: Box<T>,
}

impl<T> Model for Hidden<T> {
    ghost use Rattle.std.specs.Prelude.{⊤};

    ghost Value = { ⊤ };

    ghost view = { λ h. tt };
}

impl<T: Drop> Hidden<T> {
    pub fn new(alloc: Global, value: T) -> Result<Hidden<T>, Refusal> {
        Ok(Hidden {
            value: Box::new(alloc, value)?,
        })
    }

    pub fn get(&self) -> &T {
        &self.value
    }

    pub fn get_mut(&mut self) -> &mut T {
        &mut self.value
    }

    pub fn into_inner(self) -> T {
        Box::into_inner(self.value)
    }
}
