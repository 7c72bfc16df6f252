//! The steps that a home shares with the ledger: the home's half, with its event and its record.
ghost use Rattle.std.specs.Prelude.{◌≡◌, ◌⊎◌, ◌++◌, ◌∷◌, [], length, Some, Err, Ok, option_map, IfOk, IfErr, IfSome, IfNone, OnErr, OnOk};
ghost use Rattle.sq_base.specs.Stamps.{Below, start};
ghost use Rattle.sq_model.specs.Replays.{StampsRise};
ghost use Rattle.sq_model.specs.declared.item.Item.{Item as Moved};
ghost use Rattle.sq_model.specs.declared.task.Task.{Task as Taking};
ghost use Rattle.sq_model.specs.declared.calls.HomeCall.TheVariants.{LeaveTask};
ghost use Rattle.sq_model.specs.declared.replies.HomeReply.TheVariants.{Left};
ghost use Rattle.sq_model.specs.Homes.{HomeStep, IsFrom, IsIdle};
ghost use Rattle.sq_model.specs.HomeLeaves.{leave_call, leave_reason};
ghost use Rattle.sq_model.specs.ItemActs.{call_with, replied_by};
ghost use Rattle.sq_shard.specs.Moves.{KeepsSpareRows, item_refusal, leave_target};
ghost use Rattle.sq_history.specs.Halves.{DoesHalf, HasItem, IsActRefused, IsHalfRefused, IsLeaveRefused, IsTaker, IsTaskAnswer, IsTaskRefused, IsThrottled, IsWithout};
ghost use Rattle.sq_history.specs.inside.Halves.{AreCopies};
ghost use Rattle.sq_history.specs.Histories.{new_event, new_record};
ghost use Rattle.sq_log.specs.Spares.{IsReady, KeepsSpare};

use crate::act::{Answer, SmallReply};
use crate::home_leave::{leave_call, leave_home};
use crate::record::HomeRecord;
use crate::recorded::{Recorded, add_step};
use crate::task_leave::{TaskAnswer, leave_for_task};
use sq_base::ids::HomeId;
use sq_base::name::QueueName;
use sq_base::refusal::Refusal;
use sq_base::stamp::Stamp;
use sq_log::log::Log;
use sq_model::calls::HomeCall;
use sq_model::event::Actor;
use sq_model::item::{HeldItem, Item, ItemNo};
use sq_model::replies::{EnteredRow, HomeReply};
use sq_model::shared::{HomeLeave, ItemAct};
use sq_shard::shard::Shard;
use sq_store::store::Store;
use sq_task::leave::TaskLeave;
use std::alloc::Global;

/// A step that is to be shared: who does it, its stamp or why none is given, by which name of the home's queue, if any, and
/// where its memory comes from.
#[derive(Clone, Copy)]
pub struct StampedStep {
    pub alloc: Global,
    pub by: Actor,
    pub stamp: Result<Stamp, Refusal>,
    pub name: Option<QueueName>,
}

/// What a home's half of a step gives.
#[derive(Drop)]
pub struct HomeHalf {
    /// What who asked is answered.
    pub answered: HomeReply,
    /// The call and the reply, for the ledger's event.
    pub for_ledger: (HomeCall, HomeReply),
    /// The actor's record, one for both halves.
    pub its_record: HomeRecord,
}

// A copy of an item, and the calls that do something with it: for the event, for its record, and for the ledger.
type ItemCopies = (Item, (HomeCall, HomeCall, HomeCall));

// What is answered where this item leaves, and for the ledger. Refused as NoMemory.
pub(crate) fn answer_left(alloc: Global, item: &Item) -> Result<(Answer, HomeReply), Refusal>
    ensures answer { IfOk result (λ r. r.0 ≡ Left item.now) }
    ensures for_ledger { IfOk result (λ r. r.1 ≡ Left item.now) }
    ensures refused { IfErr result (λ e. e ≡ Refusal.NoMemory) }
{
    let left = HeldItem::new(alloc, item.copy()?)?;
    let for_ledger = HomeReply::Left(left.copy()?);
    let answer = Answer {
        kept: HomeReply::Left(left.copy()?),
        for_record: HomeReply::Left(left.copy()?),
        answered: HomeReply::Left(left),
    };
    Ok((answer, for_ledger))
}

// Adds the event of a half that was done at a stamp, and gives what that half gives.
fn note(
    log: &mut Log<HomeCall, HomeReply>,
    step: &StampedStep,
    stamp: Stamp,
    home: &HomeId,
    calls: (HomeCall, HomeCall, HomeCall),
    answers: (Answer, HomeReply),
) -> HomeHalf
    requires ready { IsReady log.old.spare log.old.reserved }
    requires above { Below log.old.last stamp }
    ensures last { log.new.last ≡ stamp }
    ensures events { log.new.events ≡ log.old.events ++ new_event stamp step.now.by home.now calls.0 answers.0 ∷ [] }
    ensures rising { StampsRise start log.new.events log.new.last }
    ensures spare { KeepsSpare log.old.spare log.new.spare }
    ensures its_record { result.its_record ≡ new_record stamp step.now.by home.now (length log.old.events) calls.1 answers.0 step.now.name }
    ensures answered { result.answered ≡ answers.0 }
    ensures for_ledger { result.for_ledger ≡ (calls.2, answers.1) }
{
    let (kept_call, recorded_call, ledger_call) = calls;
    let (answer, ledger_reply) = answers;
    let StampedStep { by, name, .. } = *step;
    let calls = (kept_call, recorded_call);
    let (answered, its_record) = add_step(log, &by, stamp, home, name, calls, answer);
    HomeHalf {
        answered,
        for_ledger: (ledger_call, ledger_reply),
        its_record,
    }
}

impl<S: Store> Recorded<S> {
    /// The home's id.
    pub fn id(&self) -> HomeId
        ensures { result ≡ self.now.site.home }
    {
        self.shard.site().home
    }

    /// A message leaves, any that may: a dead one for its dead-letter queue, or one that is not in flight for another home of its
    /// queue. It is told with the item that it becomes. None where there is none, which is no event. The number of the item is what
    /// the ledger gives, or why it takes none in.
    /// Refused as NoMemory (the history has no spare memory), as the stamp, as QueueDoesNotExist (not serving),
    /// UnsupportedOperation (a drain, and it does not drain), and where a message may leave as the ledger, and then as NoMemory
    /// (it is copied).
    #[tactic(auto, using(crate::proofs::HalfLaws::leave_shared, crate::proofs::HalfLaws::leave_keeps_spare))]
    pub fn leave(
        &mut self,
        step: &StampedStep,
        what: HomeLeave,
        number: Result<ItemNo, Refusal>,
    ) -> Result<Option<(HomeHalf, Item)>, Refusal>
        requires above_last { IfOk step.now.stamp (Below self.old.last) }
        requires above_seen { IfOk step.now.stamp (Below step.now.by.seen) }
        ensures leaves { IfOk result (λ left. IfSome left (λ l. DoesHalf self.old self.new step.now.by step.now.stamp step.now.name (leave_call what) l.0)) }
        ensures item { IfOk result (λ left. IfSome left (λ l. l.0.its_record.reply ≡ Left l.1)) }
        ensures from { IfOk result (λ left. IfSome left (λ l. IsFrom self.old.site.home (leave_reason what) l.1)) }
        ensures target { IfOk result (λ left. IfSome left (λ l. leave_target what self.old.site self.old.home ≡ Some l.1.target)) }
        ensures number { IfOk result (λ left. IfSome left (λ l. number ≡ Ok l.1.number)) }
        ensures none { IfOk result (λ left. IfNone left (IsWithout step.now.stamp (λ m. IsIdle self.old.home m (leave_call what)))) }
        ensures kept { IfOk result (λ left. IfNone left (self.new ≡ self.old)) }
        ensures refusal { IfErr result (IsHalfRefused self.old ⊥ step.now.stamp (λ m e. IsLeaveRefused what self.old.site self.old.home m number e)) }
        ensures err { OnErr result (self.new ≡ self.old) }
    {
        self.log.reserve()?;
        let stamp = step.stamp?;
        let found = leave_home(step.alloc, &mut self.shard, what, stamp.moment, number)?;
        let Some((item, answers)) = found else {
            return Ok(None);
        };
        let home = self.shard.site().home;
        let calls = (leave_call(what), leave_call(what), leave_call(what));
        let half = note(&mut self.log, step, stamp, &home, calls, answers);
        Ok(Some((half, item)))
    }

    /// A live message, any of them, leaves for a move task: it is told with the item that it becomes. Recorded, with no
    /// item, is that none is live (NoLiveRow), that the one that was chosen has no queue to go to and stays (NoOrigin), or
    /// that the home is closed (SourceClosed). None where the task is at its rate, which is no event.
    /// Refused as NoMemory (the history has no spare memory), as the stamp, as QueueDoesNotExist (never opened), then as the
    /// ledger says of the task, and where a message is live as it says of the next item, and then as NoMemory (it is copied).
    pub fn leave_task(
        &mut self,
        step: &StampedStep,
        asked: &TaskLeave,
    ) -> Result<Option<(HomeHalf, Option<Item>)>, Refusal>
        requires above_last { IfOk step.now.stamp (Below self.old.last) }
        requires above_seen { IfOk step.now.stamp (Below step.now.by.seen) }
        ensures recorded { IfOk result (λ told. IfSome told (λ t. DoesHalf self.old self.new step.now.by step.now.stamp step.now.name (LeaveTask asked.now.number) t.0)) }
        ensures answer { IfOk result (λ told. IfSome told (λ t. (task : Taking) × IsTaker asked.now task × IsTaskAnswer asked.now task t.0.its_record.reply t.1)) }
        ensures throttled { IfOk result (λ told. IfNone told (IsWithout step.now.stamp (λ _. IsThrottled self.old.home asked.now))) }
        ensures kept { IfOk result (λ told. IfNone told (self.new ≡ self.old)) }
        ensures refusal { IfErr result (IsHalfRefused self.old ⊥ step.now.stamp (λ m e. IsTaskRefused self.old.site self.old.home m asked.now e)) }
        ensures err { OnErr result (self.new ≡ self.old) }
    {
        self.log.reserve()?;
        let stamp = step.stamp?;
        let told = leave_for_task(step.alloc, &mut self.shard, stamp.moment, asked)?;
        let Some(
            TaskAnswer {
                answer,
                for_ledger,
                left,
            },
        ) = told
        else {
            return Ok(None);
        };
        let home = self.shard.site().home;
        let calls = (
            HomeCall::LeaveTask(asked.number),
            HomeCall::LeaveTask(asked.number),
            HomeCall::LeaveTask(asked.number),
        );
        let answers = (answer, for_ledger);
        let half = note(&mut self.log, step, stamp, &home, calls, answers);
        Ok(Some((half, left)))
    }

    /// This is done with the item here, which is copied before the clock.
    /// Refused as NoMemory (the history has no spare memory, or the item is copied), and as the stamp. Then where its row comes
    /// in as QueueDoesNotExist (not serving), HomeDraining (it drains, or is drained), Worn (no serial is left), OverLimit (full), and
    /// where it is sent back or dropped as QueueDoesNotExist (never opened), UnsupportedOperation (serving). Then as UnsupportedOperation (no item, or not one
    /// for this home), and as NoMemory (its row comes in where the home shows no spare memory).
    pub fn item_step(
        &mut self,
        step: &StampedStep,
        act: ItemAct,
        item: Option<&Item>,
    ) -> Result<HomeHalf, Refusal>
        requires above_last { IfOk step.now.stamp (Below self.old.last) }
        requires above_seen { IfOk step.now.stamp (Below step.now.by.seen) }
        ensures does { IfOk result (λ half. (it : Moved) × (option_map (λ i. i.now) item.entry ≡ Some it) × DoesHalf self.old self.new step.now.by step.now.stamp step.now.name (call_with act it) half) }
        ensures refusal { IfErr result (IsHalfRefused self.old (HasItem (option_map (λ i. i.now) item.entry)) step.now.stamp (λ m e. IsActRefused act self.old.spare_rows (item_refusal act self.old.site self.old.home m (option_map (λ i. i.now) item.entry)) e)) }
        ensures err { OnErr result (self.new ≡ self.old) }
    {
        let (stamp, copies) = begin_item(&mut self.log, step, act, item)?;
        let (_, calls, answers) = act_on(&mut self.shard, act, stamp.moment, item, copies)?;
        let home = self.shard.site().home;
        Ok(note(&mut self.log, step, stamp, &home, calls, answers))
    }
}

// Begins a step that does this with an item: its stamp, and copies of the item. Refused as NoMemory (the history has spare memory for
// none, or the item is copied), and as the stamp.
fn begin_item(
    log: &mut Log<HomeCall, HomeReply>,
    step: &StampedStep,
    act: ItemAct,
    item: Option<&Item>,
) -> Result<(Stamp, Option<ItemCopies>), Refusal>
    ensures last { log.new.last ≡ log.old.last }
    ensures events { log.new.events ≡ log.old.events }
    ensures spare { log.new.spare ≡ log.old.spare }
    ensures ready { OnOk result (IsReady log.new.spare log.new.reserved) }
    ensures stamped { IfOk result (λ begun. step.now.stamp ≡ Ok begun.0) }
    ensures copies { IfOk result (λ begun. AreCopies act (option_map (λ i. i.now) item.entry) begun.1) }
    ensures refused { IfErr result (λ e. ((e ≡ Refusal.NoMemory) × ((log.old.spare ≡ 0) ⊎ HasItem (option_map (λ i. i.now) item.entry))) ⊎ (step.now.stamp ≡ Err e)) }
{
    log.reserve()?;
    let copies = copies_of(step.alloc, act, item)?;
    Ok((step.stamp?, copies))
}

// This is done with the item by a home's rows, at a moment in ms, with copies of it: the item, the calls, and what is answered.
// Refused as the first check that fails, and then as NoMemory (its row comes in where the home shows no spare memory).
fn act_on<'a, S: Store>(
    shard: &mut Shard<S>,
    act: ItemAct,
    moment: u64,
    item: Option<&'a Item>,
    copies: Option<ItemCopies>,
) -> Result<
    (
        &'a Item,
        (HomeCall, HomeCall, HomeCall),
        (Answer, HomeReply),
    ),
    Refusal,
>
    requires { AreCopies act (option_map (λ i. i.now) item) copies }
    ensures item { IfOk result (λ done. option_map (λ i. i.now) item.entry ≡ Some done.0.now) }
    ensures kept_call { IfOk result (λ done. done.1.0 ≡ call_with act done.0.now) }
    ensures recorded_call { IfOk result (λ done. done.1.1 ≡ call_with act done.0.now) }
    ensures ledger_call { IfOk result (λ done. done.1.2 ≡ call_with act done.0.now) }
    ensures ledger_reply { IfOk result (λ done. done.2.1 ≡ done.2.0) }
    ensures step { IfOk result (λ done. HomeStep shard.old.site shard.old.home moment (call_with act done.0.now) done.2.0 shard.new.home) }
    ensures site { shard.new.site ≡ shard.old.site }
    ensures spare { IfOk result (λ done. KeepsSpareRows (call_with act done.0.now) shard.old.spare shard.new.spare) }
    ensures refusal { IfErr result (IsActRefused act shard.old.spare (item_refusal act shard.old.site shard.old.home moment (option_map (λ i. i.now) item.entry))) }
    ensures err { OnErr result (shard.new ≡ shard.old) }
{
    let found = shard.check_item(act, moment, item)?;
    let Some((copy, calls)) = copies else {
        unreachable!()
    };
    let entered = shard.item_step(act, moment, copy)?;
    Ok((found, calls, replied_by(entered)))
}

// The item, where it is there, and the calls that do this with it. Refused as NoMemory, where it is there.
fn copies_of(
    alloc: Global,
    act: ItemAct,
    item: Option<&Item>,
) -> Result<Option<ItemCopies>, Refusal>
    ensures copies { IfOk result (AreCopies act (option_map (λ i. i.now) item.entry)) }
    ensures refused { IfErr result (λ e. (e ≡ Refusal.NoMemory) × HasItem (option_map (λ i. i.now) item.entry)) }
{
    let Some(item) = item else {
        return Ok(None);
    };
    let calls = calls_with(alloc, act, item)?;
    Ok(Some((item.copy()?, calls)))
}

// The calls that do this with an item: for the event, for its record, and for the ledger. Refused as NoMemory.
fn calls_with(
    alloc: Global,
    act: ItemAct,
    item: &Item,
) -> Result<(HomeCall, HomeCall, HomeCall), Refusal>
    ensures kept { IfOk result (λ calls. calls.0 ≡ call_with act item.now) }
    ensures for_record { IfOk result (λ calls. calls.1 ≡ call_with act item.now) }
    ensures for_ledger { IfOk result (λ calls. calls.2 ≡ call_with act item.now) }
    ensures refused { IfErr result (λ e. e ≡ Refusal.NoMemory) }
{
    let kept = HeldItem::new(alloc, item.copy()?)?;
    let for_record = kept.copy()?;
    let for_ledger = kept.copy()?;
    Ok((
        call_with(act, kept),
        call_with(act, for_record),
        call_with(act, for_ledger),
    ))
}

// The call that does this with an item.
fn call_with(act: ItemAct, item: HeldItem) -> HomeCall
    ensures { result ≡ call_with act item }
{
    match act {
        ItemAct::Enter => HomeCall::Enter(item),
        ItemAct::TurnBack => HomeCall::TurnBack(item),
        ItemAct::GiveBack => HomeCall::GiveBack(item),
        ItemAct::Drop => HomeCall::Drop(item),
    }
}

// What is answered, and for the ledger: the row that came in, or that it is done.
fn replied_by(entered: Option<EnteredRow>) -> (Answer, HomeReply)
    ensures answer { result.0 ≡ replied_by entered }
    ensures for_ledger { result.1 ≡ replied_by entered }
{
    let told = match entered {
        Some(entered) => SmallReply::Entered(entered),
        None => SmallReply::Done,
    };
    (Answer::of(told), told.reply())
}
