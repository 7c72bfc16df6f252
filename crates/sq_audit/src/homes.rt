//! The homes of all queues that may ever be made: those of the first queue first, each in the order of its number.
ghost use Rattle.std.specs.Prelude.{◌≡◌, ◌≤◌, length};
ghost use Rattle.sq_history.specs.HomeIds.{IsNumbered};

use sq_history::recorded::Home;
use sq_sample::sampler::HomeCount;
use std::marker::Model;

/// The homes of a service, each once and by its number.
#[derive(Drop)]
pub struct Homes {
    per_queue: HomeCount,
    table: Vec<Home>,
}

impl Model for Homes {
    ghost use Rattle.std.specs.Prelude.{◌≤◌, length};
    ghost use Rattle.sq_audit.specs.HomesValue.{HomesValue};
    ghost use Rattle.sq_history.specs.HomeIds.{IsNumbered};

    ghost Value = { HomesValue };

    ghost view = { λ h. record { per_queue = h.per_queue; homes = h.table.items } };

    ghost invariant = { λ h. record { numbered : IsNumbered h.per_queue h.table.items; few : length h.table.items ≤ 16384 } };
}

impl Homes {
    /// Homes, each by its number.
    pub fn of(per_queue: HomeCount, table: Vec<Home>) -> Homes
        requires { record { numbered : IsNumbered per_queue table.items; few : length table.items ≤ 16384 } }
        ensures { result ≡ record { per_queue = per_queue; homes = table.items } }
    {
        Homes { per_queue, table }
    }

    /// How many homes a queue has.
    pub fn per_queue(&self) -> HomeCount
        ensures { result ≡ self.now.per_queue }
    {
        self.per_queue
    }

    /// All homes: those of the first queue first, each in the order of its number.
    pub fn as_slice(&self) -> &[Home]
        ensures homes { result.now ≡ self.now.homes }
        ensures numbered { IsNumbered self.now.per_queue result.now }
        ensures few { length result.now ≤ 16384 }
    {
        self.table.as_slice()
    }
}
