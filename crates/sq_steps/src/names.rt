//! The names of queues that an actor used.
ghost use Rattle.std.specs.Prelude.{◌≡◌, ◌+◌, ◌<◌, ◌≤◌, [], option_map, slice_get, IfErr, OnOk};
ghost use Rattle.std.specs.List.{IsDistinct};
ghost use Rattle.std.specs.Str.{bytes_eq};
ghost use Rattle.sq_base.specs.declared.refusal.Refusal.{Refusal as Why};
ghost use Rattle.sq_steps.specs.inside.Records.{HasPut};

use crate::records::lesser;
use indexmap::IndexSet;
use sq_base::name::QueueName;
use sq_base::refusal::Refusal;
use std::alloc::Global;
use std::marker::Model;

/// Names, each once, the one that was used first first. There are as many at most as an index of four bytes can tell apart.
#[derive(Drop)]
pub(crate) struct Names {
    names: IndexSet<QueueName>,
}

impl Model for Names {
    ghost use Rattle.std.specs.Prelude.{◌-◌, ◌≤◌, length};
    ghost use Rattle.indexmap.specs.IndexSet.{spare};
    ghost use Rattle.sq_steps.specs.inside.Records.{NamesValue, least};

    ghost Value = { NamesValue };

    ghost view = { λ n. record { names = n.names.keys; reserved = least (spare n.names) (4294967295 - length n.names.keys) } };

    ghost invariant = { λ n. length n.names.keys ≤ 4294967295 };
}

impl Names {
    /// No name.
    pub(crate) fn new(alloc: Global) -> Names
        ensures { result.names ≡ [] }
    {
        Names {
            names: IndexSet::new(alloc),
        }
    }

    /// The name at an index, from 0 upwards.
    pub(crate) fn get(&self, at: u32) -> Option<&QueueName>
        ensures { option_map (λ n. n.now) result ≡ slice_get self.now.names at }
    {
        self.names.get_index(at as usize)
    }

    /// For how many names more there is memory. Each is there once.
    pub(crate) fn spare(&self) -> usize
        ensures spare { result ≡ self.now.reserved }
        ensures once { IsDistinct bytes_eq self.now.names }
    {
        let memory = self.names.capacity() - self.names.len();
        lesser(memory, u32::MAX as usize - self.names.len())
    }

    /// Gets memory for four names more. Refused as NoMemory where there is memory for fewer, or they could not be told apart.
    pub(crate) fn reserve(&mut self) -> Result<(), Refusal>
        ensures names { self.new.names ≡ self.old.names }
        ensures kept { self.old.reserved ≤ self.new.reserved }
        ensures ready { OnOk result (4 ≤ self.new.reserved) }
        ensures refused { IfErr result (λ e. (e ≡ Why.NoMemory) × (self.old.reserved < 4)) }
    {
        self.names.reserve(4)?;
        if self.spare() < 4 {
            return Err(Refusal::NoMemory);
        }
        Ok(())
    }

    /// The index of a name, that is put last where it is not there.
    pub(crate) fn index_of(&mut self, name: &QueueName) -> u32
        requires { 0 < self.old.reserved }
        ensures put { HasPut self.old.names self.new.names name.now result }
        ensures reserved { self.old.reserved ≤ self.new.reserved + 1 }
    {
        match self.names.insert_full(*name) {
            Ok((at, _)) => at as u32,
            // There is memory for it.
            Err(_) => unreachable!(),
        }
    }
}
