//! A message that left one home and is in no other.
ghost use Rattle.std.specs.Prelude.{◌≡◌, ◌+◌, ◌<◌, ◌≤◌, ◌⊎◌, IfOk, IfErr, IfSome, IfNone};
ghost use Rattle.sq_model.specs.Homes as homes;

use crate::held::Held;
use crate::rows::copy_row;
use sq_base::ids::QueueNo;
use sq_base::refusal::Refusal;
use sq_base::row::Row;
use std::alloc::Global;
use std::marker::Model;

/// The number of an item in transit, from 1 to 2^62 - 2 and never twice. Own.
#[derive(Clone, Copy, PartialEq, Eq, PartialOrd, Ord, Debug)]
pub struct ItemNo(u64);

impl Model for ItemNo {
    ghost use Rattle.std.specs.Prelude.{ℕ, ◌<◌, ◌≤◌};

    ghost Value = { ℕ };

    ghost view = { λ n. n.0 };

    ghost inverse = { λ n. record { 0 = n } };

    ghost invariant = { λ n. (1 ≤ n.0) × (n.0 < 4611686018427387903) };
}

impl ItemNo {
    /// The number of the first item.
    pub fn first() -> ItemNo
        ensures { result ≡ 1 }
    {
        ItemNo(1)
    }

    /// The item of this number, from 1 to 2^62 - 2.
    pub fn new(number: u64) -> Option<ItemNo>
        ensures number { IfSome result (λ n. n ≡ number) }
        ensures none { IfNone result ((number ≡ 0) ⊎ (4611686018427387903 ≤ number)) }
    {
        if 1 <= number && number < 4_611_686_018_427_387_903 {
            Some(ItemNo(number))
        } else {
            None
        }
    }

    /// Its number.
    pub fn get(&self) -> u64
        ensures { result ≡ self.now }
    {
        self.0
    }
}

/// The number of a message move task, from 1 upwards. Own.
#[derive(Clone, Copy, PartialEq, Eq, PartialOrd, Ord, Debug)]
pub struct TaskNo(u64);

impl Model for TaskNo {
    ghost use Rattle.std.specs.Prelude.{ℕ, ◌<◌, ◌≤◌};

    ghost Value = { ℕ };

    ghost view = { λ n. n.0 };

    ghost inverse = { λ n. record { 0 = n } };

    ghost invariant = { λ n. 1 ≤ n.0 };
}

impl TaskNo {
    /// The number of the first task.
    pub fn first() -> TaskNo
        ensures { result ≡ 1 }
    {
        TaskNo(1)
    }

    /// The task that comes after so many.
    pub fn following(count: u64) -> TaskNo
        requires { count < 18446744073709551615 }
        ensures { result ≡ count + 1 }
    {
        TaskNo(count + 1)
    }

    /// The task of this number, which is not 0.
    pub fn new(number: u64) -> Option<TaskNo>
        ensures number { IfSome result (λ n. n ≡ number) }
        ensures none { IfNone result (number ≡ 0) }
    {
        if number == 0 {
            return None;
        }
        Some(TaskNo(number))
    }

    /// Its number.
    pub fn get(&self) -> u64
        ensures { result ≡ self.now }
    {
        self.0
    }
}

/// Why a message is moved (SQS Developer Guide, dead-letter queues and redrive; a drain is own).
#[derive(Clone, Copy, PartialEq, Eq, Debug)]
pub enum Reason {
    DeadLetter,
    Task(TaskNo),
    /// Its home is drained.
    Drain,
}

/// With what a message comes in at a home. Own.
#[derive(Clone, Copy)]
pub struct Carried {
    /// When it was enqueued, in ms.
    pub enqueued: u64,
    /// The moment from which on it is visible, in ms.
    pub visible_from: u64,
    /// How often it was received.
    pub receives: u32,
    /// The moment of its last receive, in ms.
    pub last_receive: Option<u64>,
}

impl Carried {
    /// With what a message comes in at its target at a moment (ms). A dead letter keeps its age, and a move task makes a new
    /// message (SQS Developer Guide, dead-letter queues and redrive); a drain keeps all.
    pub fn by(reason: &Reason, moment: u64, row: &Row) -> Carried
        ensures { result ≡ homes.carried reason.now moment row.now }
    {
        match reason {
            Reason::DeadLetter => Carried::anew(row.enqueued, moment),
            Reason::Task(_) => Carried::anew(moment, moment),
            Reason::Drain => Carried::all(row),
        }
    }

    /// With what a message comes back to its source at a moment (ms): its age, and what a drain keeps. Own.
    pub fn back(reason: &Reason, moment: u64, row: &Row) -> Carried
        ensures { result ≡ homes.carried_back reason.now moment row.now }
    {
        match reason {
            Reason::DeadLetter | Reason::Task(_) => Carried::anew(row.enqueued, moment),
            Reason::Drain => Carried::all(row),
        }
    }

    // As one that was never received, and is visible from a moment on.
    fn anew(enqueued: u64, visible_from: u64) -> Carried
        ensures { result ≡ homes.carried_anew enqueued visible_from }
    {
        Carried {
            enqueued,
            visible_from,
            receives: 0,
            last_receive: None,
        }
    }

    // As it stood where it left.
    fn all(row: &Row) -> Carried
        ensures { result ≡ homes.carried_all row.now }
    {
        Carried {
            enqueued: row.enqueued,
            visible_from: row.visible_from,
            receives: row.receives,
            last_receive: row.last_receive,
        }
    }
}

/// A message that left a home and is in no home.
#[derive(PartialEq, Drop)]
pub struct Item {
    pub number: ItemNo,
    /// As it stood in the home that it left.
    pub row: Row,
    pub source: QueueNo,
    pub target: QueueNo,
    pub reason: Reason,
    /// Whether it goes back to its source, since its target was closed.
    pub homeward: bool,
}

impl Item {
    /// The same item. Refused only where memory is out.
    pub fn copy(&self) -> Result<Item, Refusal>
        ensures copy { IfOk result (λ copy. copy ≡ self.now) }
        ensures refused { IfErr result (λ e. e ≡ Refusal.NoMemory) }
    {
        Ok(Item {
            number: self.number,
            row: copy_row(&self.row)?,
            source: self.source,
            target: self.target,
            reason: self.reason,
            homeward: self.homeward,
        })
    }
}

/// An item that is held once.
pub type HeldItem = Held<Item>;
