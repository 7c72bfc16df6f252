//! One home: its status, its settings and its rows.
ghost use Rattle.std.specs.Prelude.{◌≡◌, ◌⊎◌, ◌↔◌, ◌<◌, ◌≤◌, ◌+◌, true, Option, Some, None, IfOk, IfErr, OnOk, OnErr, []};
ghost use Rattle.sq_base.specs.Stamps.{stamp_end};
ghost use Rattle.sq_model.specs.Homes.{HomeStep, home_refusal};
ghost use Rattle.sq_model.specs.Homes.{Unopened as Never, Closed as Gone};
ghost use Rattle.sq_model.specs.declared.calls.HomeCall.TheVariants.{Configure, Close, Send, Look, Delete, Change, Purge, Count, StartDrain, FinishDrain};
ghost use Rattle.sq_model.specs.declared.replies.HomeReply.TheVariants.{Sent, Counted};
ghost use Rattle.sq_base.specs.declared.refusal.Refusal.{Refusal as Refused};
ghost use Rattle.sq_shard.specs.Calls.{IsDoneOrRefused};
ghost use Rattle.sq_shard.specs.Looks.{look_reply, look_after, GivesAny, GivesRows, MayBeGiven};
ghost use Rattle.sq_shard.specs.Moves.{UsesSpareRow, coming_refusal};
ghost use Rattle.sq_shard.specs.inside.Moves.{IsPut};
ghost use Rattle.sq_model.specs.Rows.{ms};

use crate::made;
use sq_base::body::Body;
use sq_base::ids::Serial;
use sq_base::ranges::{Delay, MaxMessages, Timeout};
use sq_base::refusal::Refusal;
use sq_base::row::Row;
use sq_base::settings::Settings;
use sq_model::calls::Receipt;
use sq_model::home_mode::HomeMode;
use sq_model::place::Site;
use sq_model::replies::{Counts, EnteredRow, SentMessage};
use sq_model::rows::Rows;
use sq_store::store::{At, Store};
use std::alloc::Global;
use std::marker::Model;

// So many seconds after a moment.
fn after_seconds(moment: u64, seconds: u32) -> u64
    requires { moment < stamp_end }
    ensures { result ≡ moment + ms seconds }
{
    moment + seconds as u64 * 1000
}

// Gets memory for four rows more, where a home shows no spare memory. Refused as NoMemory.
fn make_spare<S: Store>(store: &mut S, spare: usize) -> Result<(), Refusal>
    requires { spare ≤ S.reserved store.old }
    ensures rows { S.rows store.new ≡ S.rows store.old }
    ensures ready { OnOk result (0 < S.reserved store.new) }
    ensures got { OnOk result (spare ≡ 0 → 4 ≤ S.reserved store.new) }
    ensures kept { spare ≤ S.reserved store.new }
    ensures refused { IfErr result (λ e. (e ≡ Refusal.NoMemory) × (spare ≡ 0)) }
{
    if spare == 0 {
        store.reserve()?;
    }
    Ok(())
}

#[derive(Clone, Copy, PartialEq, Eq, Debug)]
pub(crate) enum Status {
    Unopened,
    Serving,
    Closed,
}

/// One home of a queue, over a store of its rows. Moments are in ms, below 2^62.
///
/// A call that is refused leaves the home as it was, and drops nothing that has expired. It shows for how many rows more there was
/// memory when the last one came in, at least. A row for which it shows none to spare gets memory for four.
#[derive(Drop)]
pub struct Shard<S: Store> {
    pub(crate) site: Site,
    pub(crate) status: Status,
    pub(crate) settings: Settings,
    version: u64,
    pub(crate) mode: HomeMode,
    pub(crate) next: Serial,
    pub(crate) store: S,
    spare: usize,
}

impl<S: Store> Model for Shard<S> {
    ghost use Rattle.std.specs.Prelude.{◌≡◌, ◌≤◌, [], length};
    ghost use Rattle.sq_model.specs.Rows.{RisesFrom};
    ghost use Rattle.sq_shard.specs.ShardValue.{ShardValue, home_with};

    ghost Value = { ShardValue };

    ghost view = { λ a. record { site = a.site; home = home_with a.status (record { settings = a.settings; version = a.version; mode = a.mode; next = a.next; rows = S.rows a.store }); spare = a.spare } };

    ghost use Rattle.sq_shard.specs.declared.shard.Status.TheVariants.{Unopened, Closed};

    ghost invariant = { λ a. record { rising : RisesFrom 0 (S.rows a.store) a.next; empty : a.status ≡ Unopened → S.rows a.store ≡ []; left : a.status ≡ Closed → S.rows a.store ≡ []; within : length (S.rows a.store) ≤ a.site.limits.rows; spare : a.spare ≤ S.reserved a.store } };
}

impl<S: Store> Shard<S> {
    /// A home that was never opened, over a store without rows. It shows no spare memory.
    pub fn unopened(site: Site, store: S) -> Shard<S>
        requires { S.rows store ≡ [] }
        ensures { result ≡ record { site = site; home = Never; spare = 0 } }
    {
        Shard {
            site,
            status: Status::Unopened,
            settings: Settings::standard(),
            version: 0,
            mode: HomeMode::Accepting,
            next: Serial::first(),
            store,
            spare: 0,
        }
    }

    /// Which home it is, and its limits.
    pub fn site(&self) -> Site
        ensures { result ≡ self.now.site }
    {
        let Shard { site, .. } = self;
        *site
    }

    /// Takes settings whose version is above its own; opens a home that was never opened.
    /// Refused as QueueDoesNotExist where the home is closed.
    #[tactic(auto, unfolding(sq_model::specs::Homes::HomeStep, sq_model::specs::Homes::home_refusal), using(sq_model::proofs::RowLaws::rises_unexpired, crate::proofs::Few::few_unexpired))]
    pub fn configure(
        &mut self,
        moment: u64,
        settings: Settings,
        version: u64,
    ) -> Result<(), Refusal>
        ensures { IsDoneOrRefused (Configure settings version) moment self.old self.new result }
    {
        match self.status {
            Status::Unopened => {
                self.status = Status::Serving;
                self.settings = settings;
                self.version = version;
                self.mode = HomeMode::Accepting;
                self.next = Serial::first();
                Ok(())
            }
            Status::Serving => {
                self.store.expire(&At {
                    settings: self.settings,
                    moment,
                });
                if self.version < version {
                    self.settings = settings;
                    self.version = version;
                }
                Ok(())
            }
            Status::Closed => Err(Refusal::QueueDoesNotExist),
        }
    }

    /// Puts a message last; without a delay the home's is taken.
    /// Refused as QueueDoesNotExist (not serving), HomeDraining (it drains, or is drained), Worn (no serial is left), OverLimit (full),
    /// NoMemory (it shows spare memory for no row).
    #[tactic(auto, unfolding(sq_model::specs::Homes::HomeStep, sq_model::specs::Homes::home_refusal), using(sq_model::proofs::RowLaws::rises_unexpired, crate::proofs::Few::few_unexpired, sq_model::proofs::RowLaws::rises_push, crate::proofs::Few::few_pushed, crate::proofs::Few::full_refused, crate::proofs::Few::one_more_left))]
    pub fn send(
        &mut self,
        moment: u64,
        body: Body,
        delay: Option<Delay>,
    ) -> Result<SentMessage, Refusal>
        requires { moment < stamp_end }
        ensures step { IfOk result (λ sent. HomeStep self.old.site self.old.home moment (Send body delay) (Sent sent) self.new.home) }
        ensures site { self.new.site ≡ self.old.site }
        ensures spare { OnOk result (UsesSpareRow self.old.spare self.new.spare) }
        ensures refusal { IfErr result (λ e. ((e ≡ Refusal.NoMemory) × (home_refusal self.old.site self.old.home moment (Send body delay) ≡ None) × (self.old.spare ≡ 0)) ⊎ (home_refusal self.old.site self.old.home moment (Send body delay) ≡ Some e)) }
        ensures err { OnErr result (self.new ≡ self.old) }
    {
        // What refuses a message is checked before it asks for memory.
        self.check_coming(moment)?;
        let delay = delay.unwrap_or(self.settings.delay);
        let until = after_seconds(moment, delay.get());
        let row = made::sent_row(&self.site.home, self.next, moment, until, body);
        let id = made::fresh_id(&self.site.home, self.next);
        let EnteredRow { slot, .. } = self.put(moment, row)?;
        Ok(SentMessage { id, slot })
    }

    // Refused as QueueDoesNotExist (not serving), HomeDraining (it drains, or is drained), Worn (no serial is left), OverLimit (full).
    #[tactic(auto, using(crate::proofs::Few::full_refused, crate::proofs::Few::one_more_left))]
    pub(crate) fn check_coming(&self, moment: u64) -> Result<(), Refusal>
        ensures may_come { OnOk result (coming_refusal self.now.site self.now.home moment None ≡ None) }
        ensures refused { IfErr result (λ e. (later : Option Refused) → coming_refusal self.now.site self.now.home moment later ≡ Some e) }
    {
        let Status::Serving = self.status else {
            return Err(Refusal::QueueDoesNotExist);
        };
        let HomeMode::Accepting = self.mode else {
            return Err(Refusal::HomeDraining);
        };
        if Serial::new(self.next.get() + 1).is_none() {
            return Err(Refusal::Worn);
        }
        let settings = self.settings;
        if self.store.count_kept(&At { settings, moment }) >= self.site.limits.rows as usize {
            return Err(Refusal::OverLimit);
        }
        Ok(())
    }

    // Puts a row last, with the next serial. Refused as NoMemory where it shows no spare memory.
    pub(crate) fn put(&mut self, moment: u64, row: Row) -> Result<EnteredRow, Refusal>
        requires { coming_refusal self.old.site self.old.home moment None ≡ None }
        ensures put { IfOk result (λ entered. IsPut self.old.site self.old.home moment row entered self.new.home) }
        ensures site { self.new.site ≡ self.old.site }
        ensures spare { OnOk result (UsesSpareRow self.old.spare self.new.spare) }
        ensures refused { IfErr result (λ e. (e ≡ Refusal.NoMemory) × (self.old.spare ≡ 0)) }
        ensures err { OnErr result (self.new ≡ self.old) }
    {
        make_spare(&mut self.store, self.spare)?;
        let settings = self.settings;
        self.store.expire(&At { settings, moment });
        let serial = self.next;
        let mut row = row;
        row.serial = serial;
        let slot = self.store.insert(row);
        self.spare = self.store.spare();
        if let Some(after) = Serial::new(serial.get() + 1) {
            self.next = after;
        }
        Ok(EnteredRow { serial, slot })
    }

    /// What a look at this moment gives, as it stands after it, and nothing is changed yet: up to `max` messages, which are none
    /// where none is live; `None` where live messages are there and too many are in flight.
    /// Refused as QueueDoesNotExist (not serving), NoMemory (where it gives a message).
    #[tactic(auto, unfolding(sq_model::specs::Homes::HomeStep, sq_model::specs::Homes::home_refusal), using(sq_model::proofs::RowLaws::rises_unexpired, crate::proofs::Few::few_unexpired, sq_model::proofs::RowLaws::rises_received, crate::proofs::Few::few_mapped, crate::proofs::LookLaws::nothing_given))]
    pub fn choose(
        &self,
        alloc: Global,
        moment: u64,
        max: MaxMessages,
        timeout: Option<Timeout>,
    ) -> Result<Option<Rows>, Refusal>
        requires { moment < stamp_end }
        ensures step { IfOk result (λ picked. HomeStep self.now.site self.now.home moment (Look max timeout) (look_reply picked) (look_after self.now.home moment timeout picked)) }
        ensures live { IfOk result (λ picked. GivesRows picked → GivesAny self.now.site self.now.home moment) }
        ensures theirs { IfOk result (MayBeGiven self.now.home moment) }
        ensures refusal { IfErr result (λ e. ((e ≡ Refusal.NoMemory) × GivesAny self.now.site self.now.home moment) ⊎ (home_refusal self.now.site self.now.home moment (Look max timeout) ≡ Some e)) }
    {
        // The status is checked before a look asks for memory.
        let Status::Serving = self.status else {
            return Err(Refusal::QueueDoesNotExist);
        };
        // Nor is any asked for where nothing is given.
        let settings = self.settings;
        let at = At { settings, moment };
        if !self.store.has_live(&at) {
            return Ok(Some(Rows::none()));
        }
        let in_flight = self.store.count_in_flight(&at);
        let flights_left = (self.site.limits.flights as usize).saturating_sub(in_flight);
        if flights_left == 0 {
            return Ok(None);
        }
        let until = after_seconds(moment, timeout.unwrap_or(self.settings.timeout).get());
        let most = flights_left.min(max.get() as usize);
        let picked = self.store.pick(alloc, &at, until, most)?;
        Ok(Some(Rows::of(alloc, picked)?))
    }

    /// Trims, and receives the live rows that were chosen; without a timeout the home's is taken. A home that does not serve
    /// stays as it was.
    #[tactic(auto, using(sq_model::proofs::RowLaws::rises_unexpired, crate::proofs::Few::few_unexpired, sq_model::proofs::RowLaws::rises_received, crate::proofs::Few::few_mapped))]
    pub fn give(&mut self, moment: u64, timeout: Option<Timeout>, picked: &Option<Rows>)
        requires moment { moment < stamp_end }
        requires picked { MayBeGiven self.old.home moment picked.now }
        ensures home { self.new.home ≡ look_after self.old.home moment timeout picked.now }
        ensures site { self.new.site ≡ self.old.site }
        ensures spare { self.new.spare ≡ self.old.spare }
    {
        let Status::Serving = self.status else {
            return;
        };
        let settings = self.settings;
        let at = At { settings, moment };
        self.store.expire(&at);
        let until = after_seconds(moment, timeout.unwrap_or(self.settings.timeout).get());
        match picked {
            Some(picked) => self.store.receive(&at, picked.as_slice(), until),
            None => {}
        }
    }

    /// Receives up to `max` messages, and gives them as they stand then: `choose` and `give` in one.
    /// Refused as QueueDoesNotExist (not serving), NoMemory (where it gives a message).
    pub fn look(
        &mut self,
        alloc: Global,
        moment: u64,
        max: MaxMessages,
        timeout: Option<Timeout>,
    ) -> Result<Option<Rows>, Refusal>
        requires { moment < stamp_end }
        ensures step { IfOk result (λ picked. HomeStep self.old.site self.old.home moment (Look max timeout) (look_reply picked) self.new.home) }
        ensures site { self.new.site ≡ self.old.site }
        ensures spare { self.new.spare ≡ self.old.spare }
        ensures refusal { IfErr result (λ e. ((e ≡ Refusal.NoMemory) × GivesAny self.old.site self.old.home moment) ⊎ (home_refusal self.old.site self.old.home moment (Look max timeout) ≡ Some e)) }
        ensures err { OnErr result (self.new ≡ self.old) }
    {
        let hidden_for = timeout;
        let picked = self.choose(alloc, moment, max, timeout)?;
        self.give(moment, hidden_for, &picked);
        Ok(picked)
    }

    /// Takes out the row on which slot, serial and receive number agree; where there is none it is done too.
    /// Refused as QueueDoesNotExist (not serving), ReceiptHandleIsInvalid (a serial that was never given).
    #[tactic(auto, unfolding(sq_model::specs::Homes::HomeStep, sq_model::specs::Homes::home_refusal), using(sq_model::proofs::RowLaws::rises_unexpired, crate::proofs::Few::few_unexpired, sq_model::proofs::RowLaws::rises_without, crate::proofs::Few::few_without))]
    pub fn delete(&mut self, moment: u64, receipt: Receipt) -> Result<(), Refusal>
        ensures { IsDoneOrRefused (Delete receipt) moment self.old self.new result }
    {
        let Status::Serving = self.status else {
            return Err(Refusal::QueueDoesNotExist);
        };
        if receipt.serial >= self.next {
            return Err(Refusal::ReceiptHandleIsInvalid);
        }
        let settings = self.settings;
        self.store.expire(&At { settings, moment });
        self.store.take(&receipt);
        Ok(())
    }

    /// Hides a message in flight for so many seconds from the moment on, and for no longer than 12 hours after its
    /// last receive; with 0 it is visible at once.
    /// Refused as QueueDoesNotExist (not serving), ReceiptHandleIsInvalid (a serial that was never given),
    /// MessageNotInflight (no row in flight on which slot, serial and receive number agree), InvalidParameterValue
    /// (later than these 12 hours).
    #[tactic(auto, unfolding(sq_model::specs::Homes::HomeStep, sq_model::specs::Homes::home_refusal), using(sq_model::proofs::RowLaws::rises_unexpired, crate::proofs::Few::few_unexpired, sq_model::proofs::RowLaws::rises_changed, crate::proofs::Few::few_mapped))]
    pub fn change(&mut self, moment: u64, receipt: Receipt, timeout: Timeout) -> Result<(), Refusal>
        requires { moment < stamp_end }
        ensures { IsDoneOrRefused (Change receipt timeout) moment self.old self.new result }
    {
        let Status::Serving = self.status else {
            return Err(Refusal::QueueDoesNotExist);
        };
        if self.next <= receipt.serial {
            return Err(Refusal::ReceiptHandleIsInvalid);
        }
        let settings = self.settings;
        let at = At { settings, moment };
        if !self.store.has_held(&at, &receipt) {
            return Err(Refusal::MessageNotInflight);
        }
        if self.store.has_late(&at, &receipt, timeout) {
            return Err(Refusal::InvalidParameterValue);
        }
        let until = after_seconds(moment, timeout.get());
        self.store.expire(&at);
        self.store.change(&receipt, moment, until);
        Ok(())
    }

    /// Takes out all messages, those in flight or delayed among them; serials go on.
    /// Refused as QueueDoesNotExist (not serving).
    #[tactic(auto, unfolding(sq_model::specs::Homes::HomeStep, sq_model::specs::Homes::home_refusal))]
    pub fn purge(&mut self, moment: u64) -> Result<(), Refusal>
        ensures { IsDoneOrRefused Purge moment self.old self.new result }
    {
        if let Status::Closed | Status::Unopened = self.status {
            return Err(Refusal::QueueDoesNotExist);
        }
        self.store.clear();
        Ok(())
    }

    /// How many messages are visible, in flight and delayed.
    /// Refused as QueueDoesNotExist (not serving).
    #[tactic(auto, unfolding(sq_model::specs::Homes::HomeStep, sq_model::specs::Homes::home_refusal), using(sq_model::proofs::RowLaws::rises_unexpired, crate::proofs::Few::few_unexpired))]
    pub fn count(&mut self, moment: u64) -> Result<Counts, Refusal>
        ensures step { IfOk result (λ counts. HomeStep self.old.site self.old.home moment Count (Counted counts) self.new.home) }
        ensures site { self.new.site ≡ self.old.site }
        ensures spare { self.new.spare ≡ self.old.spare }
        ensures refusal { IfErr result (λ e. home_refusal self.old.site self.old.home moment Count ≡ Some e) }
        ensures err { OnErr result (self.new ≡ self.old) }
    {
        let Status::Serving = self.status else {
            return Err(Refusal::QueueDoesNotExist);
        };
        let settings = self.settings;
        self.store.expire(&At { settings, moment });
        Ok(self.store.count(moment))
    }

    /// Takes no messages from now on; where it drains, or is drained, it stays so.
    /// Refused as QueueDoesNotExist (not serving).
    #[tactic(auto, unfolding(sq_model::specs::Homes::HomeStep, sq_model::specs::Homes::home_refusal), using(sq_model::proofs::RowLaws::rises_unexpired, crate::proofs::Few::few_unexpired))]
    pub fn start_drain(&mut self, moment: u64) -> Result<(), Refusal>
        ensures { IsDoneOrRefused StartDrain moment self.old self.new result }
    {
        let Status::Serving = self.status else {
            return Err(Refusal::QueueDoesNotExist);
        };
        let settings = self.settings;
        self.store.expire(&At { settings, moment });
        self.mode = match self.mode {
            HomeMode::Accepting | HomeMode::Draining => HomeMode::Draining,
            HomeMode::Drained => HomeMode::Drained,
        };
        Ok(())
    }

    /// Ends the drain of a home that holds no message.
    /// Refused as QueueDoesNotExist (not serving), UnsupportedOperation (it does not drain, or holds a message).
    #[tactic(auto, unfolding(sq_model::specs::Homes::HomeStep, sq_model::specs::Homes::home_refusal), using(sq_model::proofs::RowLaws::rises_unexpired, crate::proofs::Few::few_unexpired, crate::proofs::Few::none_left))]
    pub fn finish_drain(&mut self, moment: u64) -> Result<(), Refusal>
        ensures { IsDoneOrRefused FinishDrain moment self.old self.new result }
    {
        let Status::Serving = self.status else {
            return Err(Refusal::QueueDoesNotExist);
        };
        let HomeMode::Draining = self.mode else {
            return Err(Refusal::UnsupportedOperation);
        };
        let settings = self.settings;
        let at = At { settings, moment };
        if self.store.count_kept(&at) > 0 {
            return Err(Refusal::UnsupportedOperation);
        }
        self.store.expire(&at);
        self.mode = HomeMode::Drained;
        Ok(())
    }

    /// Closes the home for good, and lets go of its messages.
    /// Refused as QueueDoesNotExist (closed already).
    #[tactic(auto, unfolding(sq_model::specs::Homes::HomeStep, sq_model::specs::Homes::home_refusal))]
    pub fn close(&mut self, moment: u64) -> Result<(), Refusal>
        ensures { IsDoneOrRefused Close moment self.old self.new result }
    {
        if let Status::Closed = self.status {
            return Err(Refusal::QueueDoesNotExist);
        }
        self.status = Status::Closed;
        self.store.clear();
        Ok(())
    }

    /// Whether the home is closed; it stays so.
    pub fn is_closed(&self) -> bool
        ensures { result ≡ true ↔ self.now.home ≡ Gone }
    {
        matches!(self.status, Status::Closed)
    }
}
