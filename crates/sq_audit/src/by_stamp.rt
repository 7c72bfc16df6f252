//! All events of the system in one order.
ghost use Rattle.std.specs.Prelude.{◌≡◌, ◌<◌, ◌≤◌, ◌-◌, ◌^◌, ◌++◌, min, map, length, ℕ, All, OnErr, OnOk, IfOk};
ghost use Rattle.sq_model.specs.Matches.{IsPaired};
ghost use Rattle.sq_model.specs.Systems.{OfDirectory, OfLedger, OfHome, IsRun};
ghost use Rattle.sq_model.specs.Merges.{IsMerged};
ghost use Rattle.sq_history.specs.Histories.{IsKept};
ghost use Rattle.sq_history.specs.HistoryValue.{all_events};
ghost use Rattle.sq_ledger.specs.LedgerHistories.{IsLedgerKept};
ghost use Rattle.sq_directory.specs.DirectoryHistories.{IsDirectoryKept};
ghost use Rattle.sq_audit.specs.Actors.{PartsRise};
ghost use Rattle.sq_history.specs.HomeIds.{IsNumbered};
ghost use Rattle.sq_audit.specs.HomeHistories.{histories_of};
ghost use Rattle.sq_audit.specs.Tags.{tags_of};
ghost use Rattle.sq_audit.specs.SystemNow.{by_part, events_of, own_events, system_now, opening_now};

use crate::tagged::Tagged;
use sq_directory::directory::Directory;
use sq_history::recorded::Home;
use sq_ledger::events::is_own;
use sq_ledger::ledger::TransitLedger;
use std::alloc::{AllocError, Global};

/// All events of the directory, of the ledger alone and of the homes, sorted by stamp; at equal stamps the directory comes
/// first, the ledger second, and then the homes in their order. Each home has an id of its own, and what homes and the
/// ledger share is to stand in the histories of both. Then the list is a run of the whole system from its opening to what
/// the parts are now, and two events of one part never have one stamp. Refused where memory is out, only where there is an event.
pub fn by_stamp<'a>(
    alloc: Global,
    directory: &'a Directory,
    ledger: &'a TransitLedger,
    homes: &'a [Home],
) -> Result<Vec<Tagged<'a>>, AllocError>
    requires few { length homes.now ≤ 4294967296 }
    requires numbered { (per_queue : ℕ) × IsNumbered per_queue homes.now }
    requires paired { IsPaired ledger.now.history.events (histories_of homes.now) }
    ensures merged { IfOk result (λ run. IsMerged directory.now.events ledger.now.history.events (events_of homes.now) (tags_of run.items)) }
    ensures parts { IfOk result (λ run. PartsRise (tags_of run.items)) }
    ensures run { IfOk result (λ run. IsRun (opening_now directory.now ledger.now.history homes.now) (tags_of run.items) (system_now directory.now ledger.now.history homes.now)) }
    ensures some { OnErr result (0 < length (by_part directory.now.events ledger.now.history.events (events_of homes.now))) }
{
    let mut all = collect(alloc, directory, ledger, homes)?;
    // The sort is stable, so what has one stamp stays in the order of its parts.
    all.sort_by_key(|event| event.stamp())?;
    Ok(all)
}

// The events of the directory, then those of the ledger alone, and then those of one home after another.
fn collect<'a>(
    alloc: Global,
    directory: &'a Directory,
    ledger: &'a TransitLedger,
    homes: &'a [Home],
) -> Result<Vec<Tagged<'a>>, AllocError>
    requires { length homes.now ≤ 4294967296 }
    ensures tags { IfOk result (λ all. tags_of all.items ≡ by_part directory.now.events ledger.now.history.events (events_of homes.now)) }
    ensures directory { OnOk result (IsDirectoryKept directory.now) }
    ensures ledger { OnOk result (IsLedgerKept ledger.now.history) }
    ensures homes { OnOk result (All IsKept homes.now) }
    ensures some { OnErr result (0 < length (by_part directory.now.events ledger.now.history.events (events_of homes.now))) }
{
    // Memory for all is got at once, and none where there is no event.
    let count = count(directory, ledger, homes);
    let mut all = Vec::with_capacity(alloc, count)?;
    if count == 0 {
        return Ok(all);
    }
    add_directory(&mut all, directory)?;
    add_ledger(&mut all, ledger)?;
    for (index, home) in homes.iter().enumerate() {
        add_home(&mut all, index as u32, home)?;
    }
    Ok(all)
}

// The number of all events; of more than a number can say, the greatest, for which no memory is found.
fn count(directory: &Directory, ledger: &TransitLedger, homes: &[Home]) -> usize
    ensures count { result ≡ min (length (by_part directory.now.events ledger.now.history.events (events_of homes.now))) (2 ^ 64 - 1) }
    ensures directory { IsDirectoryKept directory.now }
    ensures ledger { IsLedgerKept ledger.now.history }
    ensures homes { All IsKept homes.now }
{
    let mut count = directory.events().len().saturating_add(count_own(ledger));
    for home in homes {
        count = count.saturating_add(home.events().len());
    }
    count
}

// The number of the events of the ledger alone.
fn count_own(ledger: &TransitLedger) -> usize
    ensures count { result ≡ length (own_events ledger.now.history.events) }
    ensures kept { IsLedgerKept ledger.now.history }
{
    let events = ledger.events();
    let mut count = 0;
    for at in 0..events.len() {
        if is_own(&events[at].call) {
            count += 1;
        }
    }
    count
}

fn add_directory<'a>(all: &mut Vec<Tagged<'a>>, directory: &'a Directory) -> Result<(), AllocError>
    ensures tags { OnOk result (tags_of all.new.items ≡ tags_of all.old.items ++ map OfDirectory directory.now.events) }
    ensures kept { OnOk result (IsDirectoryKept directory.now) }
{
    let events = directory.events();
    for at in 0..events.len() {
        all.push(Tagged::Directory(&events[at]))?;
    }
    Ok(())
}

// What the ledger shares with a home is added as the home's.
fn add_ledger<'a>(all: &mut Vec<Tagged<'a>>, ledger: &'a TransitLedger) -> Result<(), AllocError>
    ensures tags { OnOk result (tags_of all.new.items ≡ tags_of all.old.items ++ map OfLedger (own_events ledger.now.history.events)) }
    ensures kept { OnOk result (IsLedgerKept ledger.now.history) }
{
    let events = ledger.events();
    for at in 0..events.len() {
        let event = &events[at];
        if is_own(&event.call) {
            all.push(Tagged::Ledger(event))?;
        }
    }
    Ok(())
}

fn add_home<'a>(all: &mut Vec<Tagged<'a>>, index: u32, home: &'a Home) -> Result<(), AllocError>
    ensures tags { OnOk result (tags_of all.new.items ≡ tags_of all.old.items ++ map (λ e. OfHome index e) (all_events home.now)) }
    ensures kept { OnOk result (IsKept home.now) }
{
    let events = home.events();
    for at in 0..events.len() {
        all.push(Tagged::Home(index, &events[at]))?;
    }
    Ok(())
}
