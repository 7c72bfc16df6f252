//! The one run of all that was done.
ghost use Rattle.std.specs.Prelude.{◌≡◌, ◌<◌, length, map, IfOk, IfErr, OnOk};
ghost use Rattle.sq_model.specs.Systems.{IsRun, IsOnePlace};
ghost use Rattle.sq_model.specs.Merges.{IsMerged};
ghost use Rattle.sq_audit.specs.Actors.{ActorsRise, PartsRise};
ghost use Rattle.sq_audit.specs.Matched.{AreMatched, ArePaired, HasFault};
ghost use Rattle.sq_audit.specs.SystemNow.{by_part, events_of, system_now, opening_now};
ghost use Rattle.sq_history.specs.HomeIds.{IsNumbered};

use crate::by_stamp::by_stamp;
use crate::check::{AuditFault, Evidence, check};
use crate::creations::creations;
use crate::parts::Parts;
use crate::run::Run;
use std::alloc::Global;

/// All that was done to the parts of a service, sorted by stamp; at equal stamps the directory comes first, the ledger
/// second, and then the homes in their order. What a home shares with the ledger stands in the histories of both, with one
/// actor, call and reply, and in the list once, as the home's.
/// The list is one run of the whole system, from its opening to what the parts are now, and each event has its record, and
/// each record its event. The events of each actor stand in its order, and so do those of each part: two of one actor or of
/// one part never have one stamp. No two homes have one id, as the law of one place asks.
/// Refused for what is wrong with the records and the histories, and where nothing is and there is an event, as NoMemory; those
/// that a world leaves are right.
pub fn merge<'a>(alloc: Global, parts: &'a Parts) -> Result<Run<'a>, AuditFault>
    ensures matched { OnOk result (AreMatched parts.now) }
    ensures merged { IfOk result (λ run. IsMerged parts.now.directory.events parts.now.ledger.history.events (events_of parts.now.homes.homes) run) }
    ensures paired { OnOk result (ArePaired parts.now) }
    ensures run { IfOk result (λ run. IsRun (opening_now parts.now.directory parts.now.ledger.history parts.now.homes.homes) run (system_now parts.now.directory parts.now.ledger.history parts.now.homes.homes)) }
    ensures actors { IfOk result (λ run. ActorsRise run) }
    ensures parts { IfOk result (λ run. PartsRise run) }
    ensures numbered { OnOk result (IsNumbered parts.now.homes.per_queue parts.now.homes.homes) }
    ensures one_place { OnOk result (IsOnePlace (map (λ h. h.site) parts.now.homes.homes)) }
    ensures fault { IfErr result (HasFault parts.now) }
    ensures honest { AreMatched parts.now → ArePaired parts.now → IfErr result (λ f. f ≡ AuditFault.NoMemory) }
    ensures out_of_memory { IfErr result (λ f. f ≡ AuditFault.NoMemory → AreMatched parts.now × ArePaired parts.now) }
    ensures some_event { IfErr result (λ f. f ≡ AuditFault.NoMemory → 0 < length (by_part parts.now.directory.events parts.now.ledger.history.events (events_of parts.now.homes.homes))) }
{
    let homes = parts.homes.as_slice();
    let creations = creations(alloc, &parts.directory);
    let records = parts.records.as_slice();
    let evidence = Evidence::of(
        &parts.directory,
        &creations,
        &parts.ledger,
        &parts.homes,
        records,
    );
    check(&evidence)?;
    match by_stamp(alloc, &parts.directory, &parts.ledger, homes) {
        Ok(events) => Ok(Run::of(events)),
        Err(_) => Err(AuditFault::NoMemory),
    }
}
