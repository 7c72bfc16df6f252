//! What may be asked of a home alone, and what its rows answer.
ghost use Rattle.std.specs.Prelude.{◌≡◌, ◌⊎◌, ◌<◌, true, Some, IfOk, IfErr, OnErr, OnOk};
ghost use Rattle.sq_base.specs.Stamps.{stamp_end};
ghost use Rattle.sq_model.specs.Homes.{HomeStep, home_refusal};
ghost use Rattle.sq_model.specs.declared.calls.HomeCall.TheVariants.{Configure as AsConfigure, Look as AsLook};
ghost use Rattle.sq_model.specs.Passages.{is_alone};
ghost use Rattle.sq_shard.specs.Looks.{look_reply, GivesAny, GivesRows};
ghost use Rattle.sq_shard.specs.Moves.{KeepsSpareRows};
ghost use Rattle.sq_history.specs.Acts.{call_of, CopiesBytes, HasBytes, HoldsAny};
ghost use Rattle.sq_history.specs.inside.Acts.{small_reply};

use crate::sent_body::SentBody;
use sq_base::ids::Serial;
use sq_base::ranges::{Delay, MaxMessages, Timeout};
use sq_base::refusal::Refusal;
use sq_base::settings::Settings;
use sq_model::calls::{HomeCall, Receipt};
use sq_model::held::Held;
use sq_model::replies::{Counts, EnteredRow, HomeReply, SentMessage};
use sq_model::rows::Rows;
use sq_shard::shard::Shard;
use sq_store::store::Store;
use std::alloc::Global;
use std::marker::Model;

/// What is done at one home: of the calls of a home (`HomeCall`, which says what each of them does) those that it shares
/// with no other part of the system.
#[derive(Drop)]
pub enum HomeAct {
    Configure(Settings, u64),
    Close,
    Send(SentBody, Option<Delay>),
    Look(MaxMessages, Option<Timeout>),
    Delete(Receipt),
    Change(Receipt, Timeout),
    Purge,
    Count,
    StartDrain,
    FinishDrain,
}

impl HomeAct {
    /// The same act. Refused as NoMemory, of a send alone.
    pub fn copy(&self) -> Result<HomeAct, Refusal>
        ensures copy { IfOk result (λ copy. copy ≡ self.now) }
        ensures refused { IfErr result (λ e. (e ≡ Refusal.NoMemory) × HasBytes self.now) }
    {
        Ok(match self {
            HomeAct::Configure(settings, version) => HomeAct::Configure(*settings, *version),
            HomeAct::Close => HomeAct::Close,
            HomeAct::Send(body, delay) => HomeAct::Send(body.copy()?, *delay),
            HomeAct::Look(max, timeout) => HomeAct::Look(*max, *timeout),
            HomeAct::Delete(receipt) => HomeAct::Delete(*receipt),
            HomeAct::Change(receipt, timeout) => HomeAct::Change(*receipt, *timeout),
            HomeAct::Purge => HomeAct::Purge,
            HomeAct::Count => HomeAct::Count,
            HomeAct::StartDrain => HomeAct::StartDrain,
            HomeAct::FinishDrain => HomeAct::FinishDrain,
        })
    }

    // Its call for its rows, for its event and for its record, which hold its body or its settings together. Refused as
    // NoMemory, of settings alone.
    pub(crate) fn calls(self, alloc: Global) -> Result<(HomeCall, HomeCall, HomeCall), Refusal>
        ensures asked { IfOk result (λ calls. calls.0 ≡ call_of self) }
        ensures kept { IfOk result (λ calls. calls.1 ≡ call_of self) }
        ensures recorded { IfOk result (λ calls. calls.2 ≡ call_of self) }
        ensures refused { IfErr result (λ e. (e ≡ Refusal.NoMemory) × HoldsAny (call_of self)) }
    {
        Ok(match self {
            HomeAct::Configure(settings, version) => configure_calls(alloc, settings, version)?,
            HomeAct::Close => (HomeCall::Close, HomeCall::Close, HomeCall::Close),
            HomeAct::Send(body, delay) => {
                let (row, kept, recorded) = body.split();
                let kept = HomeCall::Send(kept, delay);
                let recorded = HomeCall::Send(recorded, delay);
                (HomeCall::Send(row, delay), kept, recorded)
            }
            HomeAct::Look(max, timeout) => {
                let kept = HomeCall::Look(max, timeout);
                let recorded = HomeCall::Look(max, timeout);
                (HomeCall::Look(max, timeout), kept, recorded)
            }
            HomeAct::Delete(receipt) => {
                let kept = HomeCall::Delete(receipt);
                let recorded = HomeCall::Delete(receipt);
                (HomeCall::Delete(receipt), kept, recorded)
            }
            HomeAct::Change(receipt, timeout) => {
                let kept = HomeCall::Change(receipt, timeout);
                let recorded = HomeCall::Change(receipt, timeout);
                (HomeCall::Change(receipt, timeout), kept, recorded)
            }
            HomeAct::Purge => (HomeCall::Purge, HomeCall::Purge, HomeCall::Purge),
            HomeAct::Count => (HomeCall::Count, HomeCall::Count, HomeCall::Count),
            HomeAct::StartDrain => (
                HomeCall::StartDrain,
                HomeCall::StartDrain,
                HomeCall::StartDrain,
            ),
            HomeAct::FinishDrain => (
                HomeCall::FinishDrain,
                HomeCall::FinishDrain,
                HomeCall::FinishDrain,
            ),
        })
    }
}

/// Asks a home's rows this at a moment in ms. Refused as the home's call; and where nothing refuses it as NoMemory (a send
/// where there is spare memory for no row, and a look that gives messages).
pub(crate) fn ask<S: Store>(
    alloc: Global,
    shard: &mut Shard<S>,
    moment: u64,
    call: HomeCall,
) -> Result<Answer, Refusal>
    requires moment { moment < stamp_end }
    requires alone { is_alone call ≡ true }
    ensures step { IfOk result (λ reply. HomeStep shard.old.site shard.old.home moment call reply shard.new.home) }
    ensures site { shard.new.site ≡ shard.old.site }
    ensures spare { OnOk result (KeepsSpareRows call shard.old.spare shard.new.spare) }
    ensures refusal { IfErr result (λ e. ((e ≡ Refusal.NoMemory) × CopiesBytes shard.old.site shard.old.home shard.old.spare moment call) ⊎ (home_refusal shard.old.site shard.old.home moment call ≡ Some e)) }
    ensures err { OnErr result (shard.new ≡ shard.old) }
{
    let told = match call {
        HomeCall::Configure(settings, version) => {
            shard.configure(moment, *settings.get(), version)?;
            SmallReply::Done
        }
        HomeCall::Close => {
            shard.close(moment)?;
            SmallReply::Done
        }
        HomeCall::Send(body, delay) => SmallReply::Sent(shard.send(moment, body, delay)?),
        HomeCall::Look(max, timeout) => return look(alloc, shard, moment, max, &timeout),
        HomeCall::Delete(receipt) => {
            shard.delete(moment, receipt)?;
            SmallReply::Done
        }
        HomeCall::Change(receipt, timeout) => {
            shard.change(moment, receipt, timeout)?;
            SmallReply::Done
        }
        HomeCall::Purge => {
            shard.purge(moment)?;
            SmallReply::Done
        }
        HomeCall::Count => SmallReply::Counted(shard.count(moment)?),
        HomeCall::StartDrain => {
            shard.start_drain(moment)?;
            SmallReply::Done
        }
        HomeCall::FinishDrain => {
            shard.finish_drain(moment)?;
            SmallReply::Done
        }
        _ => unreachable!(),
    };
    Ok(Answer::of(told))
}

/// A reply that holds so little that each who has it has a copy.
#[derive(Clone, Copy)]
pub(crate) enum SmallReply {
    Done,
    Sent(SentMessage),
    Counted(Counts),
    NoLiveRow,
    NoOrigin(Serial),
    SourceClosed,
    Entered(EnteredRow),
}

impl SmallReply {
    pub(crate) fn reply(&self) -> HomeReply
        ensures { result ≡ small_reply self.now }
    {
        match self {
            SmallReply::Done => HomeReply::Done,
            SmallReply::Sent(sent) => HomeReply::Sent(*sent),
            SmallReply::Counted(counts) => HomeReply::Counted(*counts),
            SmallReply::NoLiveRow => HomeReply::NoLiveRow,
            SmallReply::NoOrigin(serial) => HomeReply::NoOrigin(*serial),
            SmallReply::SourceClosed => HomeReply::SourceClosed,
            SmallReply::Entered(entered) => HomeReply::Entered(*entered),
        }
    }
}

/// A reply three times: for the event, for its record, and for who asked.
#[derive(Drop)]
pub(crate) struct Answer {
    pub(crate) kept: HomeReply,
    pub(crate) for_record: HomeReply,
    pub(crate) answered: HomeReply,
}

impl Model for Answer {
    ghost use Rattle.std.specs.Prelude.{◌≡◌};
    ghost use Rattle.sq_model.specs.declared.replies.HomeReply.{HomeReply};

    ghost Value = { HomeReply };

    ghost view = { λ a. a.answered };

    ghost invariant = { λ a. (a.kept ≡ a.answered) × (a.for_record ≡ a.answered) };
}

impl Answer {
    pub(crate) fn of(told: SmallReply) -> Answer
        ensures { result ≡ small_reply told }
    {
        // Each copy has a name, so that the proof can say of each that it is the same.
        let kept = told.reply();
        let for_record = told.reply();
        let answered = told.reply();
        Answer {
            kept,
            for_record,
            answered,
        }
    }
}

// The call that configures a home so, thrice; they hold the settings together. Refused as NoMemory.
fn configure_calls(
    alloc: Global,
    settings: Settings,
    version: u64,
) -> Result<(HomeCall, HomeCall, HomeCall), Refusal>
    ensures asked { IfOk result (λ calls. calls.0 ≡ AsConfigure settings version) }
    ensures kept { IfOk result (λ calls. calls.1 ≡ AsConfigure settings version) }
    ensures recorded { IfOk result (λ calls. calls.2 ≡ AsConfigure settings version) }
    ensures refused { IfErr result (λ e. e ≡ Refusal.NoMemory) }
{
    // A part is named, so that the toolchain's borrow checker sees its type.
    let redrive = settings.redrive;
    let same = Settings {
        redrive,
        ..settings
    };
    let asked = Held::new(alloc, same)?;
    let kept = asked.copy()?;
    let recorded = asked.copy()?;
    Ok((
        HomeCall::Configure(asked, version),
        HomeCall::Configure(kept, version),
        HomeCall::Configure(recorded, version),
    ))
}

// A look; the rows that it gives are copied before anything changes.
fn look<S: Store>(
    alloc: Global,
    shard: &mut Shard<S>,
    moment: u64,
    max: MaxMessages,
    timeout: &Option<Timeout>,
) -> Result<Answer, Refusal>
    requires { moment < stamp_end }
    ensures step { IfOk result (λ reply. HomeStep shard.old.site shard.old.home moment (AsLook max timeout.now) reply shard.new.home) }
    ensures site { shard.new.site ≡ shard.old.site }
    ensures spare { shard.new.spare ≡ shard.old.spare }
    ensures refusal { IfErr result (λ e. ((e ≡ Refusal.NoMemory) × GivesAny shard.old.site shard.old.home moment) ⊎ (home_refusal shard.old.site shard.old.home moment (AsLook max timeout.now) ≡ Some e)) }
    ensures err { OnErr result (shard.new ≡ shard.old) }
{
    let picked = shard.choose(alloc, moment, max, *timeout)?;
    let kept = copy_picked(&picked)?;
    let for_record = copy_picked(&picked)?;
    shard.give(moment, *timeout, &picked);
    Ok(Answer {
        kept: reply_of_look(kept),
        for_record: reply_of_look(for_record),
        answered: reply_of_look(picked),
    })
}

fn copy_picked(picked: &Option<Rows>) -> Result<Option<Rows>, Refusal>
    ensures copy { IfOk result (λ copy. copy ≡ picked.now) }
    ensures refused { IfErr result (λ e. (e ≡ Refusal.NoMemory) × GivesRows picked.now) }
{
    match picked {
        Some(rows) => Ok(Some(rows.copy()?)),
        None => Ok(None),
    }
}

// What a look that gave these rows tells, or gave none since too many messages are in flight.
fn reply_of_look(picked: Option<Rows>) -> HomeReply
    ensures { result ≡ look_reply picked }
{
    match picked {
        Some(picked) => HomeReply::Looked(picked),
        None => HomeReply::Over,
    }
}
