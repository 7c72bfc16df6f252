//! A moment at which a slot is due.
ghost use Rattle.std.specs.Prelude.{◌≡◌};
ghost use Rattle.sq_deadline.specs.Deadlines.{key_of};

/// A slot, and the moment in ms at which it is due.
#[derive(Clone, Copy, PartialEq, Eq, Debug)]
pub struct Deadline {
    pub moment: u64,
    pub slot: u32,
}

impl Deadline {
    /// What it is ordered by: its moment, and at one moment its slot.
    pub(crate) fn key(&self) -> u128
        ensures { result ≡ key_of self.now }
    {
        self.moment as u128 * 4_294_967_296 + self.slot as u128
    }
}
