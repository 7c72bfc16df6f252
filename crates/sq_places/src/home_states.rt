//! What decides how the rows of a home leave it, for all rows of the home.
ghost use Rattle.std.specs.Prelude.{◌≡◌, ◌∷◌, [], ◌++◌, ℕ, not, filter, OnOk, IfErr};
ghost use Rattle.sq_places.specs.inside.RowStates.{kept_states, past_states, effect_of, reply_effect, entry_effect, entered_state, returned_state, is_state_named};
ghost use Rattle.sq_model.specs.declared.place.Place.TheVariants as at;
ghost use Rattle.sq_places.specs.inside.Audits as audits;

use crate::home_rows::HomeRows;
use crate::state::{Policy, entered, next_policy, returned, sent};
use sq_base::message_id::MessageId;
use sq_base::refusal::Refusal;
use sq_model::calls::{HomeCall, Receipt};
use sq_model::event::Event;
use sq_model::item::Item;
use sq_model::place::Place;
use sq_model::replies::HomeReply;
use std::alloc::Global;
use std::marker::Model;

/// What a home goes by, which is nothing before it is opened, and its rows.
#[derive(Drop)]
pub struct HomeStates {
    policy: Option<Policy>,
    rows: HomeRows,
}

impl Model for HomeStates {
    ghost use Rattle.sq_places.specs.inside.HomeValues.{HomeValue};

    ghost Value = { HomeValue };

    ghost view = { λ h. record { policy = h.policy; rows = h.rows } };
}

impl HomeStates {
    pub fn new(alloc: Global) -> HomeStates
        ensures { result ≡ audits.no_states }
    {
        HomeStates {
            policy: None,
            rows: HomeRows::new(alloc),
        }
    }

    /// Goes on by an event, and puts last who left in it. Refused only where memory is out.
    pub fn apply(
        &mut self,
        event: &Event<HomeCall, HomeReply>,
        ends: &mut Vec<(MessageId, Place)>,
    ) -> Result<(), Refusal>
        ensures home { OnOk result (self.new ≡ audits.home_after_event event.now self.old) }
        ensures ends { OnOk result (audits.AreSameEnds ends.new.items (ends.old.items ++ audits.placed_ends event.now self.old)) }
        ensures err { IfErr result (λ e. e ≡ Refusal.NoMemory) }
    {
        let moment = event.stamp.moment;
        expire(&mut self.rows, &self.policy, moment, ends)?;
        change(&mut self.rows, moment, &event.call, &event.reply, ends)?;
        self.policy = next_policy(&self.policy, &event.call);
        Ok(())
    }
}

fn expire(
    rows: &mut HomeRows,
    policy: &Option<Policy>,
    moment: u64,
    ends: &mut Vec<(MessageId, Place)>,
) -> Result<(), Refusal>
    ensures rows { OnOk result (rows.new ≡ kept_states policy.now moment rows.old) }
    ensures ends { OnOk result (audits.AreSameEnds ends.new.items (ends.old.items ++ audits.placed at.Expired (past_states policy.now moment rows.old))) }
    ensures err { IfErr result (λ e. e ≡ Refusal.NoMemory) }
{
    match policy {
        Some(policy) => rows.expire(policy.retention, moment, ends),
        None => Ok(()),
    }
}

// What a call and its reply make of the rows that have not expired.
fn change(
    rows: &mut HomeRows,
    moment: u64,
    call: &HomeCall,
    reply: &HomeReply,
    ends: &mut Vec<(MessageId, Place)>,
) -> Result<(), Refusal>
    ensures rows { OnOk result (rows.new ≡ audits.rows_after moment (effect_of moment call.now reply.now) rows.old) }
    ensures ends { OnOk result (ends.new.items ≡ ends.old.items ++ audits.placed_left (effect_of moment call.now reply.now) rows.old) }
    ensures err { IfErr result (λ e. e ≡ Refusal.NoMemory) }
{
    match call {
        HomeCall::Configure(_, _)
        | HomeCall::Change(_, _)
        | HomeCall::Count
        | HomeCall::StartDrain
        | HomeCall::FinishDrain
        | HomeCall::TurnBack(_) => Ok(()),
        HomeCall::Send(_, _)
        | HomeCall::Look(_, _)
        | HomeCall::LeaveDead
        | HomeCall::LeaveDrain
        | HomeCall::LeaveTask(_) => apply_reply(rows, moment, reply),
        HomeCall::Delete(receipt) => delete(rows, receipt, ends),
        HomeCall::Purge => rows.clear(Place::Purged, ends),
        HomeCall::Close => rows.clear(Place::ClosedAway, ends),
        HomeCall::Enter(item) => enter(rows, moment, item.get(), reply),
        HomeCall::GiveBack(item) => come_back(rows, moment, item.get(), reply),
        HomeCall::Drop(item) => drop_item(item.get(), ends),
    }
}

// What is sent comes in, what is received is raised, and the row of an item goes into transit.
fn apply_reply(rows: &mut HomeRows, moment: u64, reply: &HomeReply) -> Result<(), Refusal>
    ensures rows { OnOk result (rows.new ≡ audits.rows_after moment (reply_effect reply.now) rows.old) }
    ensures err { IfErr result (λ e. e ≡ Refusal.NoMemory) }
{
    match reply {
        HomeReply::Sent(message) => rows.put(sent(message, moment))?,
        HomeReply::Looked(picked) => rows.receive_all(picked.as_slice()),
        HomeReply::Left(item) => rows.take_out(&item.get().row),
        _ => {}
    }
    Ok(())
}

// The row that a receipt names leaves, where it is there, and is put last.
fn delete(
    rows: &mut HomeRows,
    receipt: &Receipt,
    ends: &mut Vec<(MessageId, Place)>,
) -> Result<(), Refusal>
    ensures rows { OnOk result (rows.new ≡ filter (λ row. not (is_state_named receipt.now row)) rows.old) }
    ensures ends { OnOk result (ends.new.items ≡ ends.old.items ++ audits.placed at.Deleted (filter (is_state_named receipt.now) rows.old)) }
    ensures err { IfErr result (λ e. e ≡ Refusal.NoMemory) }
{
    if let Some(row) = rows.take_named(receipt) {
        ends.push((row.lineage, Place::Deleted))?;
    }
    Ok(())
}

fn enter(rows: &mut HomeRows, moment: u64, item: &Item, reply: &HomeReply) -> Result<(), Refusal>
    ensures rows { OnOk result (rows.new ≡ audits.rows_after moment (entry_effect (entered_state moment item.now) reply.now) rows.old) }
    ensures err { IfErr result (λ e. e ≡ Refusal.NoMemory) }
{
    if let HomeReply::Entered(row) = reply {
        rows.put(entered(item, row, moment))?;
    }
    Ok(())
}

fn come_back(
    rows: &mut HomeRows,
    moment: u64,
    item: &Item,
    reply: &HomeReply,
) -> Result<(), Refusal>
    ensures rows { OnOk result (rows.new ≡ audits.rows_after moment (entry_effect (returned_state moment item.now) reply.now) rows.old) }
    ensures err { IfErr result (λ e. e ≡ Refusal.NoMemory) }
{
    if let HomeReply::Entered(row) = reply {
        rows.put(returned(item, row, moment))?;
    }
    Ok(())
}

// Puts last that an item is dropped.
fn drop_item(item: &Item, ends: &mut Vec<(MessageId, Place)>) -> Result<(), Refusal>
    ensures ends { OnOk result (ends.new.items ≡ ends.old.items ++ (item.now.row.lineage, at.Dropped) ∷ []) }
    ensures err { IfErr result (λ e. e ≡ Refusal.NoMemory) }
{
    ends.push((item.row.lineage, Place::Dropped))?;
    Ok(())
}
