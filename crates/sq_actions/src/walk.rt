//! The way of an actor over the homes that a task takes messages from.
ghost use Rattle.std.specs.Prelude.{◌≡◌, ◌<◌};
ghost use Rattle.sq_actions.specs.Walks.{after_nothing, after_other, home_after, new_walk, row_again, task_walked};

use sq_base::ids::HomeNo;
use sq_model::item::TaskNo;
use sq_sample::sampler::HomeCount;

/// How far the way of an actor is. Turns alone take it further: a task is finished where each home in a row had no message, and
/// only who asked them may say so.
#[derive(Clone, Copy, PartialEq, Eq, Debug)]
pub struct Walk {
    pub(crate) task: TaskNo,
    // The home that is asked next.
    pub(crate) home: HomeNo,
    // How many homes in a row had no message.
    pub(crate) nothings: u32,
}

impl Walk {
    /// A walk begins at the first home.
    pub fn new(task: TaskNo) -> Walk
        ensures { result ≡ new_walk task }
    {
        Walk {
            task,
            home: HomeNo::first(),
            nothings: 0,
        }
    }

    /// The task that it is for.
    pub fn task(&self) -> TaskNo
        ensures { result ≡ task_walked self.now }
    {
        self.task
    }

    /// After a home that had no message.
    pub(crate) fn after_nothing(self, homes: HomeCount) -> Walk
        requires few { self.nothings < 4294967295 }
        ensures { result ≡ after_nothing homes self }
    {
        Walk {
            home: home_after(homes, self.home),
            nothings: self.nothings + 1,
            ..self
        }
    }

    /// After a home that answered otherwise, which ends the row.
    pub(crate) fn after_other(self, homes: HomeCount) -> Walk
        ensures { result ≡ after_other homes self }
    {
        Walk {
            home: home_after(homes, self.home),
            nothings: 0,
            ..self
        }
    }

    /// With the row of homes that had no message started again.
    pub(crate) fn row_again(self) -> Walk
        ensures { result ≡ row_again self }
    {
        Walk {
            nothings: 0,
            ..self
        }
    }
}

// The home after this one; from the last one to the first.
fn home_after(homes: HomeCount, home: HomeNo) -> HomeNo
    ensures { result ≡ home_after homes home }
{
    let next = home.get() as u32 + 1;
    if next < homes.get() as u32 {
        HomeNo::of(next as u8)
    } else {
        HomeNo::first()
    }
}
