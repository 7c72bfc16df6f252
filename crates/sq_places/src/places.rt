//! Where all messages of a run are.
ghost use Rattle.std.specs.Prelude.{◌≡◌, ◌<◌, ◌+◌, ◌++◌, ◌≤◌, length, OnOk, IfOk, IfErr, slice_set, get_or, vec_len};
ghost use Rattle.std.specs.List.{fold};
ghost use Rattle.std.specs.BTreeMap.{get};
ghost use Rattle.sq_base.specs.declared.message_id.MessageId.{MessageId};
ghost use Rattle.sq_model.specs.Lineages.{home_ins, home_outs, home_sends};
ghost use Rattle.sq_model.specs.declared.place.Place.TheVariants as at;
ghost use Rattle.sq_model.specs.Places.{run_ends, run_sends};
ghost use Rattle.sq_model.specs.Systems.{System, OfHome, RunFrom, opening, IsOnePlace, Opening};
ghost use Rattle.sq_audit.specs.RunLineages.{id_cmp};
ghost use Rattle.sq_audit.specs.Tags.{tag_of};
ghost use Rattle.sq_places.specs.AllPlaces.{ArePlaces};
ghost use Rattle.sq_places.specs.inside.AllPlaces.{AreListed, after_move, sent_place};
ghost use Rattle.sq_places.specs.inside.Audits as audits;

use crate::home_states::HomeStates;
use sq_audit::run::Run;
use sq_audit::tagged::Tagged;
use sq_base::message_id::MessageId;
use sq_base::refusal::Refusal;
use sq_model::calls::HomeCall;
use sq_model::event::Event;
use sq_model::place::Place;
use sq_model::replies::HomeReply;
use std::alloc::Global;
use std::collections::BTreeMap;
use std::marker::Model;

/// What a pass over a run has found.
#[derive(Drop)]
struct Audit {
    homes: Vec<HomeStates>,
    sends: Vec<MessageId>,
    moves: Vec<(MessageId, Place)>,
    ends: Vec<(MessageId, Place)>,
}

impl Model for Audit {
    ghost use Rattle.sq_places.specs.inside.HomeValues.{AuditValue};

    ghost Value = { AuditValue };

    ghost view = { λ a. record { homes = a.homes.items; sends = a.sends.items; moves = a.moves.items; ends = a.ends.items } };
}

/// Where the messages of a run are: each that was sent in it, once, in rising order of id. Refused as NoMemory, where there
/// are any.
pub fn places_of(alloc: Global, run: &Run<'_>) -> Result<Vec<(MessageId, Place)>, Refusal>
    ensures places { (o : Opening) (after : System) (r : RunFrom (opening o) run.now after) → IsOnePlace o.sites
        → IfOk result (λ listed. ArePlaces (run_sends run.now) (run_ends (opening o) run.now after r) after.ledger.items listed.items) }
    ensures err { IfErr result (λ e. (e ≡ Refusal.NoMemory) × (0 < length (run_sends run.now))) }
{
    if !run.has_sent() {
        return Ok(Vec::new(alloc));
    }
    let audit = collect(alloc, run.events())?;
    listed(alloc, &audit.sends, &audit.moves, &audit.ends)
}

fn collect(alloc: Global, events: &[Tagged<'_>]) -> Result<Audit, Refusal>
    ensures audit { IfOk result (λ a. audits.IsSameAudit a (fold (λ a t. audits.audit_step a (tag_of t)) audits.no_audit events.now)) }
    ensures err { IfErr result (λ e. e ≡ Refusal.NoMemory) }
{
    let mut audit = Audit::new(alloc);
    for tagged in events {
        audit.step(alloc, tagged)?;
    }
    Ok(audit)
}

impl Audit {
    fn new(alloc: Global) -> Audit
        ensures { result ≡ audits.no_audit }
    {
        Audit {
            homes: Vec::new(alloc),
            sends: Vec::new(alloc),
            moves: Vec::new(alloc),
            ends: Vec::new(alloc),
        }
    }

    fn step(&mut self, alloc: Global, tagged: &Tagged<'_>) -> Result<(), Refusal>
        ensures step { OnOk result (audits.IsSameAudit self.new (audits.audit_step self.old (tag_of tagged.now))) }
        ensures err { IfErr result (λ e. e ≡ Refusal.NoMemory) }
    {
        match tagged {
            Tagged::Directory(_) | Tagged::Ledger(_) => Ok(()),
            Tagged::Home(index, event) => self.apply(alloc, *index, event),
        }
    }

    fn apply(
        &mut self,
        alloc: Global,
        index: u32,
        event: &Event<HomeCall, HomeReply>,
    ) -> Result<(), Refusal>
        ensures step { OnOk result (audits.IsSameAudit self.new (audits.audit_step self.old (OfHome index event.now))) }
        ensures err { IfErr result (λ e. e ≡ Refusal.NoMemory) }
    {
        apply_at(alloc, &mut self.homes, index, event, &mut self.ends)?;
        record_send(&event.reply, &mut self.sends)?;
        record_moves(&event.call, &event.reply, &mut self.moves)
    }
}

// Lets the home at an index go on by an event, and puts last who left in it.
fn apply_at(
    alloc: Global,
    homes: &mut Vec<HomeStates>,
    index: u32,
    event: &Event<HomeCall, HomeReply>,
    ends: &mut Vec<(MessageId, Place)>,
) -> Result<(), Refusal>
    ensures homes { OnOk result (homes.new.items ≡ slice_set (audits.grown (index + 1) homes.old.items) index (audits.home_after_event event.now (get_or homes.old.items index audits.no_states))) }
    ensures ends { OnOk result (audits.AreSameEnds ends.new.items (ends.old.items ++ audits.placed_ends event.now (get_or homes.old.items index audits.no_states))) }
    ensures err { IfErr result (λ e. e ≡ Refusal.NoMemory) }
{
    let index = index as usize;
    grow(alloc, homes, index + 1)?;
    homes[index].apply(event, ends)?;
    Ok(())
}

// Makes spare memory for so many homes.
fn grow(alloc: Global, homes: &mut Vec<HomeStates>, count: usize) -> Result<(), Refusal>
    ensures homes { OnOk result (homes.new.items ≡ audits.grown count homes.old.items) }
    ensures len { OnOk result (count ≤ vec_len homes.new) }
    ensures err { IfErr result (λ e. e ≡ Refusal.NoMemory) }
{
    for _ in 0..count.saturating_sub(homes.len()) {
        homes.push(HomeStates::new(alloc))?;
    }
    Ok(())
}

// Puts last who was sent.
fn record_send(reply: &HomeReply, sends: &mut Vec<MessageId>) -> Result<(), Refusal>
    ensures sends { OnOk result (sends.new.items ≡ sends.old.items ++ home_sends reply.now) }
    ensures err { IfErr result (λ e. e ≡ Refusal.NoMemory) }
{
    if let HomeReply::Sent(message) = reply {
        sends.push(message.id)?;
    }
    Ok(())
}

// Puts last who goes into transit or comes in from there.
fn record_moves(
    call: &HomeCall,
    reply: &HomeReply,
    moves: &mut Vec<(MessageId, Place)>,
) -> Result<(), Refusal>
    ensures moves { OnOk result (moves.new.items ≡ moves.old.items ++ audits.placed_moves call.now reply.now) }
    ensures err { IfErr result (λ e. e ≡ Refusal.NoMemory) }
{
    record_leave(reply, moves)?;
    record_entry(call, moves)
}

fn record_leave(reply: &HomeReply, moves: &mut Vec<(MessageId, Place)>) -> Result<(), Refusal>
    ensures moves { OnOk result (moves.new.items ≡ moves.old.items ++ audits.placed_rows at.InTransit (home_outs reply.now)) }
    ensures err { IfErr result (λ e. e ≡ Refusal.NoMemory) }
{
    if let HomeReply::Left(item) = reply {
        moves.push((item.get().row.lineage, Place::InTransit))?;
    }
    Ok(())
}

fn record_entry(call: &HomeCall, moves: &mut Vec<(MessageId, Place)>) -> Result<(), Refusal>
    ensures moves { OnOk result (moves.new.items ≡ moves.old.items ++ audits.placed_rows at.InHome (home_ins call.now)) }
    ensures err { IfErr result (λ e. e ≡ Refusal.NoMemory) }
{
    if let HomeCall::Enter(item) | HomeCall::GiveBack(item) = call {
        moves.push((item.get().row.lineage, Place::InHome))?;
    }
    Ok(())
}

fn listed(
    alloc: Global,
    sends: &[MessageId],
    moves: &[(MessageId, Place)],
    ends: &[(MessageId, Place)],
) -> Result<Vec<(MessageId, Place)>, Refusal>
    ensures listed { IfOk result (λ listed. AreListed sends.now moves.now ends.now listed.items) }
    ensures err { IfErr result (λ e. e ≡ Refusal.NoMemory) }
{
    let mut places = sent_places(alloc, sends)?;
    put_places(&mut places, moves)?;
    put_places(&mut places, ends)?;
    Ok(places.into_iter().collect(alloc)?)
}

fn sent_places(alloc: Global, sends: &[MessageId]) -> Result<BTreeMap<MessageId, Place>, Refusal>
    ensures each { IfOk result (λ places. (x : MessageId) → get id_cmp places x ≡ sent_place x sends.now) }
    ensures err { IfErr result (λ e. e ≡ Refusal.NoMemory) }
{
    let mut places = BTreeMap::new(alloc);
    for id in sends {
        places.insert(*id, Place::InHome)?;
    }
    Ok(places)
}

// What comes later counts.
fn put_places(
    places: &mut BTreeMap<MessageId, Place>,
    moves: &[(MessageId, Place)],
) -> Result<(), Refusal>
    ensures each { OnOk result ((x : MessageId) → get id_cmp places.new x ≡ fold (after_move x) (get id_cmp places.old x) moves.now) }
    ensures err { IfErr result (λ e. e ≡ Refusal.NoMemory) }
{
    for (id, place) in moves {
        places.insert(*id, *place)?;
    }
    Ok(())
}
