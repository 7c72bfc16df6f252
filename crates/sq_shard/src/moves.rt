//! Messages that leave a home or come in, as the home sees it.
ghost use Rattle.std.specs.Prelude.{◌≡◌, ◌<◌, Bool, true, false, Some, None, option_map, IfOk, IfErr, IfSome, IfNone, OnErr, OnOk};
ghost use Rattle.sq_model.specs.declared.calls.HomeCall.TheVariants.{Enter, GiveBack};
ghost use Rattle.sq_model.specs.Homes.{HomeStep, IsIdle, home_refusal, may_enter, may_return};
ghost use Rattle.sq_model.specs.HomeLeaves.{leave_call};
ghost use Rattle.sq_model.specs.ItemActs.{call_with, is_its, may_act, replied_by};
ghost use Rattle.sq_model.specs.Homes.{Closed as Gone};
ghost use Rattle.sq_shard.specs.Calls.{HasComeIn};
ghost use Rattle.sq_shard.specs.Moves.{IsLiveAt, HasRow, GoesWithout, IsFor, KeepsSpareRows, MayLeaveAt, PutsRow, has_live_row, is_opened, leave_target, target_at, unexpired_home, coming_refusal, closed_refusal, item_refusal};

use crate::made;
use crate::shard::{Shard, Status};
use sq_base::ids::{HomeId, QueueNo};
use sq_base::refusal::Refusal;
use sq_base::row::Row;
use sq_model::home_mode::HomeMode;
use sq_model::item::Item;
use sq_model::replies::EnteredRow;
use sq_model::shared::{HomeLeave, ItemAct};
use sq_store::store::{At, Store};

// The item, where it is there and is one for this home. Refused as UnsupportedOperation.
fn its<'a>(act: ItemAct, home: &HomeId, item: Option<&'a Item>) -> Result<&'a Item, Refusal>
    ensures item { IfOk result (λ it. (option_map (λ i. i.now) item.entry ≡ Some it.now) × (may_act act home.now it.now ≡ true)) }
    ensures refused { IfErr result (λ e. (e ≡ Refusal.UnsupportedOperation) × (is_its act home.now (option_map (λ i. i.now) item.entry) ≡ false)) }
{
    match item {
        Some(item) => {
            if made::may_act(act, home, item) {
                Ok(item)
            } else {
                Err(Refusal::UnsupportedOperation)
            }
        }
        None => Err(Refusal::UnsupportedOperation),
    }
}

impl<S: Store> Shard<S> {
    /// A message that may leave so, any of them, as it stands: a dead one, or of a home that drains one that is not in flight.
    /// None where there is none. Refused as QueueDoesNotExist (not serving), UnsupportedOperation (a drain, and it does not drain).
    #[tactic(auto, unfolding(sq_model::specs::Homes::home_refusal))]
    pub fn find_leaving(&self, what: HomeLeave, moment: u64) -> Result<Option<&Row>, Refusal>
        ensures found { IfOk result (λ found. IfSome found (λ row. MayLeaveAt what self.now.home moment row.now)) }
        ensures none { IfOk result (λ found. IfNone found (IsIdle self.now.home moment (leave_call what))) }
        ensures refusal { IfErr result (λ e. home_refusal self.now.site self.now.home moment (leave_call what) ≡ Some e) }
    {
        let Status::Serving = self.status else {
            return Err(Refusal::QueueDoesNotExist);
        };
        let settings = self.settings;
        let at = At { settings, moment };
        match what {
            HomeLeave::Dead => Ok(self.store.find_dead(&at)),
            HomeLeave::Drain => match self.mode {
                HomeMode::Draining => Ok(self.store.find_at_rest(&at)),
                HomeMode::Accepting | HomeMode::Drained => Err(Refusal::UnsupportedOperation),
            },
        }
    }

    /// A live message, any of them, as it stands; none where none is live.
    pub fn find_live(&self, moment: u64) -> Option<&Row>
        ensures found { IfSome result (λ row. IsLiveAt self.now.home moment row.now) }
        ensures none { IfNone result (has_live_row self.now.home moment ≡ false) }
    {
        let settings = self.settings;
        match self.status {
            Status::Serving => self.store.find_live(&At { settings, moment }),
            Status::Unopened | Status::Closed => None,
        }
    }

    /// Whether the home was opened: it serves, or is closed.
    pub fn is_opened(&self) -> bool
        ensures { result ≡ is_opened self.now.home }
    {
        !matches!(self.status, Status::Unopened)
    }

    /// Lets go of the messages past their retention, and changes nothing else.
    #[tactic(auto, using(sq_model::proofs::RowLaws::rises_unexpired, crate::proofs::Few::few_unexpired))]
    pub fn expire(&mut self, moment: u64)
        ensures home { self.new.home ≡ unexpired_home self.old.home moment }
        ensures site { self.new.site ≡ self.old.site }
        ensures spare { self.new.spare ≡ self.old.spare }
    {
        let settings = self.settings;
        self.store.expire(&At { settings, moment });
    }

    /// The queue that messages leave for so: the dead-letter queue, or of a drain the home's own.
    pub fn leave_target(&self, what: HomeLeave) -> Option<QueueNo>
        ensures { result ≡ leave_target what self.now.site self.now.home }
    {
        match what {
            HomeLeave::Dead => self.dead_letter_queue(),
            HomeLeave::Drain => Some(self.site.home.queue),
        }
    }

    // The queue that dead messages leave for.
    fn dead_letter_queue(&self) -> Option<QueueNo>
        ensures { result ≡ target_at self.now.home }
    {
        let Status::Serving = self.status else {
            return None;
        };
        self.settings.redrive.as_ref().map(|redrive| redrive.target)
    }

    /// Takes out this row, which is there at this moment, and hands it over.
    pub fn take_out(&mut self, moment: u64, row: &Row) -> Row
        requires { HasRow self.old.home moment row.now }
        ensures row { result ≡ row.now }
        ensures home { GoesWithout self.old.home moment row.now self.new.home }
        ensures site { self.new.site ≡ self.old.site }
        ensures spare { self.new.spare ≡ self.old.spare }
    {
        let settings = self.settings;
        let at = At { settings, moment };
        self.store.expire(&at);
        match self.store.take_out(row.slot, row.serial) {
            Some(row) => row,
            None => unreachable!(),
        }
    }

    /// The item, where this may be done with it here. Refused where its row comes in as QueueDoesNotExist (not serving),
    /// HomeDraining (it drains, or is drained), Worn (no serial is left), OverLimit (full), and where the home is to be closed as QueueDoesNotExist (never opened),
    /// UnsupportedOperation (serving); then as UnsupportedOperation (no item, or not one for this home).
    #[tactic(auto, using(crate::proofs::MoveLaws::later_decides))]
    pub fn check_item<'a>(
        &self,
        act: ItemAct,
        moment: u64,
        item: Option<&'a Item>,
    ) -> Result<&'a Item, Refusal>
        ensures item { IfOk result (λ it. option_map (λ i. i.now) item.entry ≡ Some it.now) }
        ensures may { IfOk result (λ it. may_act act self.now.site.home it.now ≡ true) }
        ensures is_for { OnOk result (IsFor act self.now.site self.now.home moment) }
        ensures none { OnOk result (item_refusal act self.now.site self.now.home moment (option_map (λ i. i.now) item.entry) ≡ None) }
        ensures refusal { IfErr result (λ e. item_refusal act self.now.site self.now.home moment (option_map (λ i. i.now) item.entry) ≡ Some e) }
    {
        match act {
            ItemAct::Enter | ItemAct::GiveBack => self.check_coming(moment)?,
            ItemAct::TurnBack | ItemAct::Drop => self.check_closed()?,
        }
        its(act, &self.site.home, item)
    }

    /// Does this with an item, as `check_item` found, of which this is a copy: with the row that came in, where one did. Refused
    /// as NoMemory, only where one is to come in and the home shows no spare memory.
    #[tactic(auto, using(crate::proofs::MoveLaws::turned_at, crate::proofs::MoveLaws::dropped_at))]
    pub fn item_step(
        &mut self,
        act: ItemAct,
        moment: u64,
        item: Item,
    ) -> Result<Option<EnteredRow>, Refusal>
        requires may { may_act act self.old.site.home item ≡ true }
        requires is_for { IsFor act self.old.site self.old.home moment }
        ensures step { IfOk result (λ entered. HomeStep self.old.site self.old.home moment (call_with act item) (replied_by entered) self.new.home) }
        ensures site { self.new.site ≡ self.old.site }
        ensures spare { OnOk result (KeepsSpareRows (call_with act item) self.old.spare self.new.spare) }
        ensures refused { IfErr result (λ e. (e ≡ Refusal.NoMemory) × PutsRow act × (self.old.spare ≡ 0)) }
        ensures err { OnErr result (self.new ≡ self.old) }
    {
        match act {
            ItemAct::Enter => Ok(Some(self.enter(moment, item)?)),
            ItemAct::GiveBack => Ok(Some(self.give_back(moment, item)?)),
            ItemAct::TurnBack | ItemAct::Drop => Ok(None),
        }
    }

    /// Puts the row of an item last, which comes in here, as `check_item` found. Refused as NoMemory where the home shows spare memory for
    /// none.
    #[tactic(auto, using(crate::proofs::MoveLaws::entered_at))]
    pub fn enter(&mut self, moment: u64, item: Item) -> Result<EnteredRow, Refusal>
        requires may { may_enter self.old.site.home item ≡ true }
        requires may_come { coming_refusal self.old.site self.old.home moment None ≡ None }
        ensures { HasComeIn (Enter item) moment self.old self.new result }
    {
        let row = made::entered_row(&self.site.home, self.next, moment, item);
        self.put(moment, row)
    }

    /// Puts the row of an item last, which comes back, as `check_item` found. Refused as NoMemory where the home shows spare memory for
    /// none.
    #[tactic(auto, using(crate::proofs::MoveLaws::returned_at))]
    pub fn give_back(&mut self, moment: u64, item: Item) -> Result<EnteredRow, Refusal>
        requires may { may_return self.old.site.home item ≡ true }
        requires may_come { coming_refusal self.old.site self.old.home moment None ≡ None }
        ensures { HasComeIn (GiveBack item) moment self.old self.new result }
    {
        let row = made::returned_row(self.next, moment, item);
        self.put(moment, row)
    }

    // Refused as QueueDoesNotExist (never opened), UnsupportedOperation (serving).
    fn check_closed(&self) -> Result<(), Refusal>
        ensures closed { OnOk result (self.now.home ≡ Gone) }
        ensures refused { IfErr result (λ e. (is_its : Bool) → closed_refusal self.now.home is_its ≡ Some e) }
    {
        match self.status {
            Status::Unopened => Err(Refusal::QueueDoesNotExist),
            Status::Serving => Err(Refusal::UnsupportedOperation),
            Status::Closed => Ok(()),
        }
    }
}
