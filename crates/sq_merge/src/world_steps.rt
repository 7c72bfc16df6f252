//! An actor at a world that it borrows, with its clock reading.
ghost use Rattle.std.specs.Prelude.{◌≡◌, Some};
ghost use Rattle.sq_merge.specs.WorldSteps.{world_counts, ActorLeaves, ActorStepped, TurnFits};
ghost use Rattle.sq_merge.specs.inside.WorldSteps.{IsKnownTo};
ghost use Rattle.sq_merge.specs.inside.WorldStepLaws.{actor_leaves};
ghost use Rattle.sq_steps.specs.Journals.{journal_of};
ghost use Rattle.sq_actions.specs.Performs.{CallFits, UntilFits, Performs};

use crate::progress::Progress;
use crate::world::World;
use sq_actions::lock_steps::LockSteps;
use sq_actions::until::call_until;
use sq_actions::{client, turns};
use sq_base::ids::{HomeNo, QueueNo};
use sq_base::name::QueueName;
use sq_base::refusal::Refusal;
use sq_calls::calls::{Answer, Call};
use sq_calls::turns::{Turn, Turned};
use sq_history::act::HomeAct;
use sq_model::directory::{DirectoryCall, DirectoryReply};
use sq_model::item::TaskNo;
use sq_model::ledger::LedgerReply;
use sq_model::replies::HomeReply;
use sq_model::task::{NamedQueue, Task};
use sq_sample::sampler::HomeCount;
use sq_steps::act::{NamedHome, NextItem, SharedAct, TaskAct};
use std::alloc::Global;

/// Does the steps of an actor's calls at a world. A clock reading is in ms.
#[derive(Drop)]
pub(crate) struct WorldSteps<'a> {
    pub(crate) alloc: Global,
    pub(crate) world: &'a mut World,
    pub(crate) actor: u32,
    pub(crate) clock: u64,
}

impl<'a> WorldSteps<'a> {
    // An actor at a world, before the first step of a call.
    pub(crate) fn new(alloc: Global, world: &'a mut World, actor: u32, clock: u64) -> WorldSteps<'a>
        ensures same_reference { result.world.ghost_name ≡ world.entry.ghost_name }
        ensures world { result.world.now ≡ world.old }
        ensures actor { result.actor ≡ actor }
        ensures clock { result.clock ≡ clock }
    {
        WorldSteps {
            alloc,
            world,
            actor,
            clock,
        }
    }
}

impl<'a> LockSteps for WorldSteps<'a> {
    ghost stepped = { λ s ask answered t.
        ActorStepped s.actor s.clock s.world.now ask answered t.world.now × (t.world.ghost_name ≡ s.world.ghost_name) × (t.actor ≡ s.actor) × (t.clock ≡ s.clock) };

    ghost knows = { λ s name queue. IsKnownTo s.actor s.world.now (Some name) queue };

    ghost counts = { λ s. world_counts s.world.now };

    ghost journal = { λ s. journal_of s.actor s.world.now.journals };

    fn alloc(&self) -> Global {
        self.alloc
    }

    fn homes(&self) -> HomeCount {
        self.world.per_queue()
    }

    fn resolve(&mut self, name: &QueueName) -> Result<NamedQueue, Refusal> {
        let number = self.world.resolve(self.alloc, self.actor, name)?;
        Ok(NamedQueue {
            number,
            name: *name,
        })
    }

    fn directory_step(&mut self, call: &DirectoryCall) -> Result<DirectoryReply, Refusal> {
        self.world
            .directory_step(self.alloc, self.actor, self.clock, call)
    }

    fn home_step(&mut self, at: &NamedHome, act: HomeAct) -> Result<HomeReply, Refusal> {
        self.world
            .home_step(self.alloc, self.actor, self.clock, at.name, &at.id, act)
    }

    fn shared_step(
        &mut self,
        at: &NamedHome,
        what: SharedAct,
    ) -> Result<Option<HomeReply>, Refusal> {
        self.world
            .shared_step(self.alloc, self.actor, self.clock, at.name, &at.id, what)
    }

    fn peek(&mut self, after: u64) -> Result<Option<NextItem>, Refusal> {
        self.world.peek(self.alloc, self.actor, after)
    }

    fn can_redrive(
        &mut self,
        source: &QueueName,
        destination: &Option<QueueName>,
    ) -> Result<(NamedQueue, Option<NamedQueue>), Refusal> {
        self.world
            .can_redrive(self.alloc, self.actor, source, destination)
    }

    fn ledger_step(&mut self, act: &TaskAct) -> Result<LedgerReply, Refusal> {
        self.world
            .ledger_step(self.alloc, self.actor, self.clock, act)
    }

    fn read_task(&mut self, number: TaskNo) -> Result<Task, Refusal> {
        self.world.read_task(self.alloc, self.actor, number)
    }

    fn pick(&mut self) -> HomeNo {
        self.world.pick()
    }

    fn draw(&mut self) -> Result<Vec<HomeNo>, Refusal> {
        self.world.draw(self.alloc)
    }

    ghost leaves = { λ s t ask answered h. actor_leaves s.actor t.actor s.clock s.world.now t.world.now ask answered h.0 h.2 };
}

// Does a client's call at the world that is borrowed.
pub(crate) fn call_at(world_steps: &mut WorldSteps<'_>, call: &Call) -> Result<Answer, Refusal>
    ensures same_reference { world_steps.new.world.ghost_name ≡ world_steps.old.world.ghost_name }
    ensures answered { Performs (ActorStepped world_steps.old.actor world_steps.old.clock) (CallFits (world_counts world_steps.old.world.now) call.now) world_steps.old.world.now result world_steps.new.world.now }
    ensures leaves_records { ActorLeaves world_steps.old.actor (CallFits (world_counts world_steps.old.world.now) call.now) world_steps.old.world.now result world_steps.new.world.now }
{
    client::call(world_steps, call)
}

// Does a client's call at the world that is borrowed, up to so many steps.
pub(crate) fn call_until_at(
    world_steps: &mut WorldSteps<'_>,
    call: &Call,
    limit: u64,
) -> Result<Option<Answer>, Refusal>
    ensures same_reference { world_steps.new.world.ghost_name ≡ world_steps.old.world.ghost_name }
    ensures answered { Performs (ActorStepped world_steps.old.actor world_steps.old.clock) (UntilFits limit (CallFits (world_counts world_steps.old.world.now) call.now)) world_steps.old.world.now result world_steps.new.world.now }
    ensures leaves_records { ActorLeaves world_steps.old.actor (UntilFits limit (CallFits (world_counts world_steps.old.world.now) call.now)) world_steps.old.world.now result world_steps.new.world.now }
{
    call_until(world_steps, call, limit)
}

// Does a turn at the world that is borrowed; it is lent its actor's progress.
pub(crate) fn turn_at(
    world_steps: &mut WorldSteps<'_>,
    progress: &mut Progress,
    turn: &Turn,
) -> Result<Turned, Refusal>
    ensures same_reference { world_steps.new.world.ghost_name ≡ world_steps.old.world.ghost_name }
    ensures same_progress { world_steps.new.world.now.progress ≡ world_steps.old.world.now.progress }
    ensures answered { Performs (ActorStepped world_steps.old.actor world_steps.old.clock) (TurnFits (world_counts world_steps.old.world.now).homes turn.now progress.old progress.new) world_steps.old.world.now result world_steps.new.world.now }
    ensures leaves_records { ActorLeaves world_steps.old.actor (TurnFits (world_counts world_steps.old.world.now).homes turn.now progress.old progress.new) world_steps.old.world.now result world_steps.new.world.now }
{
    match turn {
        Turn::DeadTurn(name) => turns::leave(world_steps, name),
        Turn::EnterTurn => turns::bring(world_steps, &mut progress.item),
        Turn::TaskTurn(Some(number)) => {
            let mut walk = progress.walk_for(*number);
            let told = turns::serve(world_steps, &mut walk);
            progress.keep(walk, &told);
            told
        }
        Turn::TaskTurn(None) => Err(Refusal::ResourceNotFoundException),
    }
}
