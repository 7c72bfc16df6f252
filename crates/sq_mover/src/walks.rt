//! The walks of a mover over the homes that tasks take messages from.
ghost use Rattle.std.specs.Prelude.{◌≡◌, ◌<◌, ◌≤◌, [], ◌∷◌, ◌++◌, OnOk, OnErr, IfErr, vec_capacity, vec_len};
ghost use Rattle.sq_mover.specs.MoverValue.{walk_kept};

use sq_actions::walk::Walk;
use sq_base::refusal::Refusal;
use sq_model::item::TaskNo;
use std::alloc::Global;
use std::mem;

/// One walk for each task that was served in this sweep over the queues, and in the last one: so a task that is over is
/// forgotten by itself.
#[derive(Drop)]
pub(crate) struct Walks {
    last: Vec<Walk>,
    this: Vec<Walk>,
}

impl Walks {
    pub(crate) fn new(alloc: Global) -> Walks
        ensures last { (result.last.items ≡ []) × (vec_capacity result.last ≡ 0) }
        ensures this { (result.this.items ≡ []) × (vec_capacity result.this ≡ 0) }
    {
        Walks {
            last: Vec::new(alloc),
            this: Vec::new(alloc),
        }
    }

    /// The walk for a task: as the last sweep left it, or a new one.
    pub(crate) fn of(&self, task: TaskNo) -> Walk
        ensures { result ≡ walk_kept task self.now.last.items }
    {
        for walk in &self.last {
            if walk.task() == task {
                return *walk;
            }
        }
        Walk::new(task)
    }

    /// Gets memory for one walk more of this sweep.
    pub(crate) fn reserve(&mut self) -> Result<(), Refusal>
        ensures spare { OnOk result (vec_len self.new.this < vec_capacity self.new.this) }
        ensures last { self.new.last ≡ self.old.last }
        ensures this { self.new.this.items ≡ self.old.this.items }
        ensures more { vec_capacity self.old.this ≤ vec_capacity self.new.this }
        ensures refused { IfErr result (λ e. e ≡ Refusal.NoMemory) }
        ensures full { OnErr result (vec_capacity self.old.this ≤ vec_len self.old.this) }
        ensures err { OnErr result (vec_capacity self.new.this ≡ vec_capacity self.old.this) }
    {
        self.this.try_reserve(1)?;
        Ok(())
    }

    /// Keeps a walk of this sweep, for which there is memory.
    pub(crate) fn keep(&mut self, walk: Walk)
        requires { vec_len self.old.this < vec_capacity self.old.this }
        ensures last { self.new.last ≡ self.old.last }
        ensures this { self.new.this.items ≡ self.old.this.items ++ walk ∷ [] }
        ensures capacity { vec_capacity self.new.this ≡ vec_capacity self.old.this }
    {
        self.this.push_reserved(walk);
    }

    /// The next sweep begins: the walks of this one are those of the last one then.
    pub(crate) fn next_sweep(&mut self)
        ensures last { self.new.last ≡ self.old.this }
        ensures this { (self.new.this.items ≡ []) × (vec_capacity self.new.this ≡ vec_capacity self.old.last) }
    {
        mem::swap(&mut self.last, &mut self.this);
        self.this.clear();
    }
}
