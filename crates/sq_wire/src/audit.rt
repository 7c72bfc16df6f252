//! The text of an audit.
ghost use Rattle.std.specs.Prelude.{◌≡◌, IfOk, IfErr, string_bytes};
ghost use Rattle.serde_json.specs.View.{view};
ghost use Rattle.serde_json.specs.Written.{compact_text};
ghost use Rattle.sq_audit.specs.Tags.{tags_of};
ghost use Rattle.sq_model.specs.Places.{run_ends};
ghost use Rattle.sq_model.specs.Systems.{System, RunFrom, opening, IsOnePlace, Opening};
ghost use Rattle.sq_wire.specs.Audits.{ListsPlaces, stamp_text, place_name, placed_data, events_data, places_data, audit_data, IsAudit, TellsRun};

use serde_json::{Value, json};
use sq_base::message_id::MessageId;
use sq_base::refusal::Refusal;
use sq_base::stamp::Stamp;
use sq_merge::world::World;
use sq_merge::{AuditFault, Run, Tagged, merge, places_of};
use sq_model::place::Place;
use sq_replies::reply::id_text;
use sq_replies::text::Text;
use std::alloc::{AllocError, Global};
use uuid::Uuid;

/// The audit of a world, without its line feed: the one run of all that was done to it, each event by its stamp, and
/// where each message is that was sent. Refused only where memory is out: what a world leaves is always right.
pub fn audit_world(alloc: Global, world: World) -> Result<Text, AuditFault>
    ensures listed { IfOk result (IsAudit world) }
    ensures honest { IfErr result (λ f. f ≡ AuditFault.NoMemory) }
{
    let parts = world.parts();
    let run = merge(alloc, &parts)?;
    match audit_text(alloc, &run) {
        Ok(text) => Ok(text),
        Err(_) => Err(AuditFault::NoMemory),
    }
}

/// The line that tells a run, without its line feed: the stamps of its events in their order, and where each message is
/// that was sent in it. Refused only where memory is out.
pub fn audit_text(alloc: Global, run: &Run<'_>) -> Result<Text, Refusal>
    ensures listed { (o : Opening) (after : System) (r : RunFrom (opening o) run.now after) → IsOnePlace o.sites
        → IfOk result (TellsRun run.now (run_ends (opening o) run.now after r) after.ledger.items) }
    ensures text { IfOk result (ListsPlaces run.now) }
    ensures memory { IfErr result (λ e. e ≡ Refusal.NoMemory) }
{
    let places = places_of(alloc, run)?;
    Ok(Text::made(audit_string(alloc, run.events(), &places)?.into_bytes()))
}

fn audit_string(
    alloc: Global,
    run: &[Tagged<'_>],
    places: &[(MessageId, Place)],
) -> Result<String, AllocError>
    ensures { IfOk result (λ text. string_bytes text ≡ compact_text (audit_data (tags_of run.now) places.now)) }
{
    audit_value(alloc, run, places)?.to_string(alloc)
}

fn audit_value(
    alloc: Global,
    run: &[Tagged<'_>],
    places: &[(MessageId, Place)],
) -> Result<Value, AllocError>
    ensures { IfOk result (λ v. view v ≡ audit_data (tags_of run.now) places.now) }
{
    let merged = events_value(alloc, run)?;
    let places = places_value(alloc, places)?;
    json!(in alloc; {"Merged": merged, "Places": places})
}

fn events_value(alloc: Global, run: &[Tagged<'_>]) -> Result<Value, AllocError>
    ensures { IfOk result (λ v. view v ≡ events_data (tags_of run.now)) }
{
    let mut list = Vec::new(alloc);
    for event in run {
        list.push(Value::String(stamp_text(alloc, event.stamp())?))?;
    }
    Ok(Value::Array(list))
}

fn places_value(alloc: Global, places: &[(MessageId, Place)]) -> Result<Value, AllocError>
    ensures { IfOk result (λ v. view v ≡ places_data places.now) }
{
    let mut list = Vec::new(alloc);
    for listed in places {
        list.push(placed_value(alloc, listed)?)?;
    }
    Ok(Value::Array(list))
}

fn placed_value(alloc: Global, listed: &(MessageId, Place)) -> Result<Value, AllocError>
    ensures { IfOk result (λ v. view v ≡ placed_data listed.now) }
{
    let (id, place) = listed;
    let mut uuid = Uuid::encode_buffer();
    json!(in alloc; [id_text(id, &mut uuid), place_name(*place)])
}

/// A stamp as its moment and its count, in decimal digits with a dot between.
pub fn stamp_text(alloc: Global, stamp: Stamp) -> Result<String, AllocError>
    ensures { IfOk result (λ text. string_bytes text ≡ stamp_text stamp) }
{
    format!(in alloc; "{}.{}", stamp.moment, stamp.count)
}

/// The word for where a message is.
pub fn place_name(place: Place) -> &'static str
    ensures { result.now ≡ place_name place }
{
    match place {
        Place::InHome => "home",
        Place::InTransit => "transit",
        Place::Deleted => "deleted",
        Place::Expired => "expired",
        Place::Purged => "purged",
        Place::ClosedAway => "closed",
        Place::Dropped => "dropped",
    }
}
