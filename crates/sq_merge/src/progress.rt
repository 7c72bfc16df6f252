//! How far the turns of each actor are.
ghost use Rattle.std.specs.Prelude.{◌≡◌, ◌<◌, None, length, position, IfErr, IfOk, IfSome, OnErr, OnOk};
ghost use Rattle.sq_merge.specs.Progresses.{having_walked, is_progress_of, walk_for, with_progress};
ghost use Rattle.sq_merge.specs.inside.Progresses.{progress_place};

use sq_actions::walk::Walk;
use sq_base::refusal::Refusal;
use sq_calls::turns::Turned;
use sq_model::item::TaskNo;
use sq_steps::capacity::push_within_capacity;

/// How far an actor is.
#[derive(Clone, Copy, PartialEq, Eq, Debug)]
pub struct Progress {
    /// The number of the item in transit that it tried last; 0 where it tried none.
    pub item: u64,
    /// Its walk for the task that it named last.
    pub walk: Option<Walk>,
}

impl Progress {
    /// The walk for this task: a new one where another task was named last, or none.
    pub(crate) fn walk_for(&self, task: TaskNo) -> Walk
        ensures { result ≡ walk_for task self.now.walk }
    {
        match &self.walk {
            Some(walk) if walk.task() == task => *walk,
            _ => Walk::new(task),
        }
    }

    /// Keeps the walk of a turn for a task that was answered so. A task that is not there leaves the walk of another one.
    pub(crate) fn keep(&mut self, walk: Walk, told: &Result<Turned, Refusal>)
        ensures { self.new ≡ having_walked told.now walk self.old }
    {
        if !matches!(told, Err(Refusal::ResourceNotFoundException)) {
            self.walk = Some(walk);
        }
    }
}

/// How far the turns of an actor are.
#[derive(Clone, Copy, PartialEq, Eq, Debug)]
pub struct ActorProgress {
    pub actor: u32,
    pub progress: Progress,
}

/// The index of this actor's progress, which is made where it is not there. Refused as NoMemory of an actor's first turn
/// alone.
pub(crate) fn progress_index(all: &mut Vec<ActorProgress>, actor: u32) -> Result<usize, Refusal>
    ensures index { IfOk result (λ at. at ≡ progress_place actor all.old.items) }
    ensures added { OnOk result (all.new.items ≡ with_progress actor all.old.items) }
    ensures within { IfOk result (λ at. at < length all.new.items) }
    ensures refused { IfErr result (λ e. (e ≡ Refusal.NoMemory) × (position (is_progress_of actor) all.old.items ≡ None)) }
    ensures err { OnErr result (all.new.items ≡ all.old.items) }
{
    if let Some(at) = progress_at(all, actor) {
        return Ok(at);
    }
    all.try_reserve(1)?;
    let progress = Progress {
        item: 0,
        walk: None,
    };
    push_within_capacity(all, ActorProgress { actor, progress });
    Ok(all.len() - 1)
}

// The index of this actor's progress, where it has one.
fn progress_at(all: &[ActorProgress], actor: u32) -> Option<usize>
    ensures index { result ≡ position (is_progress_of actor) all.now }
    ensures within { IfSome result (λ at. at < length all.now) }
{
    all.iter().position(|one| one.actor == actor)
}
