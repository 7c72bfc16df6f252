//! Which queue takes the dead letters of another, and which queues may choose it for that.
ghost use Rattle.std.specs.Prelude.{◌≡◌, ◌≤◌, ◌&&◌, true, length, nat_le, if◌then◌else◌, Some, None, IfOk, IfErr};
ghost use Rattle.sq_model.specs.Policies.{lists_queues};

use crate::listed::Listed;
use sq_base::name::QueueName;
use sq_base::ranges::MaxReceives;
use sq_base::refusal::Refusal;
use std::alloc::Global;
use std::marker::Model;

/// When a message is dead, and the queue that it goes to then, by the name that is given and printed
/// (SQS API Reference, CreateQueue: RedrivePolicy).
#[derive(Clone, Copy, PartialEq, Eq, Debug)]
pub struct RedrivePolicy {
    pub target: QueueName,
    pub max_receives: MaxReceives,
}

/// Which queues may name this one for their dead letters (SQS API Reference, CreateQueue: RedriveAllowPolicy).
#[derive(PartialEq, Drop)]
pub enum AllowPolicy {
    AllowAll,
    DenyAll,
    ByQueue(SourceNames),
}

/// The names of 1 to 10 queues, in the order in which they were given.
#[derive(PartialEq, Drop)]
pub struct SourceNames {
    names: Listed<QueueName>,
}

impl Model for SourceNames {
    ghost use Rattle.std.specs.Prelude.{List, ℕ, ◌≤◌, length};

    ghost Value = { List (List ℕ) };

    ghost view = { λ n. n.names };

    ghost inverse = { λ v. record { names = v } };

    ghost invariant = { λ n. (1 ≤ length n.names) × (length n.names ≤ 10) };
}

impl SourceNames {
    /// These names, where they are 1 to 10.
    pub fn new(names: Listed<QueueName>) -> Option<SourceNames>
        ensures { result ≡ (if nat_le 1 (length names) && nat_le (length names) 10 then Some names else None) }
    {
        if 1 <= names.len() && names.len() <= 10 {
            Some(SourceNames { names })
        } else {
            None
        }
    }

    /// The names, 1 to 10.
    pub fn as_slice(&self) -> &[QueueName]
        ensures value { result.now ≡ self.now }
        ensures least { 1 ≤ length self.now }
        ensures greatest { length self.now ≤ 10 }
    {
        self.names.as_slice()
    }

    /// The same names. Refused only where memory is out.
    pub fn copy(&self, alloc: Global) -> Result<SourceNames, Refusal>
        ensures copy { IfOk result (λ copy. copy ≡ self.now) }
        ensures err { IfErr result (λ e. e ≡ Refusal.NoMemory) }
    {
        Ok(SourceNames {
            names: self.names.copy(alloc)?,
        })
    }
}

impl AllowPolicy {
    /// The same policy. Refused as NoMemory, where it lists queues.
    pub fn copy(&self, alloc: Global) -> Result<AllowPolicy, Refusal>
        ensures copy { IfOk result (λ copy. copy ≡ self.now) }
        ensures err { IfErr result (λ e. (e ≡ Refusal.NoMemory) × (lists_queues (Some self.now) ≡ true)) }
    {
        Ok(match self {
            AllowPolicy::AllowAll => AllowPolicy::AllowAll,
            AllowPolicy::DenyAll => AllowPolicy::DenyAll,
            AllowPolicy::ByQueue(names) => AllowPolicy::ByQueue(names.copy(alloc)?),
        })
    }
}
