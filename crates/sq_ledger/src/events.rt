//! What the homes share with the ledger.
ghost use Rattle.std.specs.Prelude.{◌≡◌, ◌↔◌, true};
ghost use Rattle.sq_model.specs.Matches.{InLedger};
ghost use Rattle.sq_model.specs.Ledgers.{is_own};
ghost use Rattle.sq_model.specs.Passages.{is_alone, is_leave};
ghost use Rattle.sq_model.specs.Systems.{as_ledger};
ghost use Rattle.sq_ledger.specs.Events.{HasLedgerEvent};

use crate::ledger::TransitLedger;
use crate::record::LedgerRecord;
use sq_base::ids::HomeId;
use sq_log::events::{event_at, event_of, is_told};
use sq_model::calls::HomeCall;
use sq_model::event::Event;
use sq_model::ledger::{LedgerCall, LedgerReply};
use sq_model::replies::HomeReply;

/// Whether a call is the ledger's alone; the others it shares with homes.
pub fn is_own(call: &LedgerCall) -> bool
    ensures { result ≡ is_own call.now }
{
    !matches!(call, LedgerCall::AtHome(_, _))
}

/// Whether a call is a home's alone; the others are shared with the ledger.
pub fn is_alone(call: &HomeCall) -> bool
    ensures { result ≡ is_alone call.now }
{
    !matches!(
        call,
        HomeCall::LeaveDead
            | HomeCall::LeaveDrain
            | HomeCall::LeaveTask(_)
            | HomeCall::Enter(_)
            | HomeCall::TurnBack(_)
            | HomeCall::GiveBack(_)
            | HomeCall::Drop(_)
    )
}

/// Whether a call asks a message to leave its home.
pub fn is_leave(call: &HomeCall) -> bool
    ensures { result ≡ is_leave call.now }
{
    matches!(
        call,
        HomeCall::LeaveDead | HomeCall::LeaveDrain | HomeCall::LeaveTask(_)
    )
}

// Whether a call and its reply are those of an event.
#[tactic(auto, using(sq_model::proofs::EqualLaws::equal_call, sq_model::proofs::EqualLaws::equal_reply))]
fn is_done(call: &HomeCall, reply: &HomeReply, event: &Event<HomeCall, HomeReply>) -> bool
    ensures { result ≡ true ↔ (call.now ≡ event.now.call) × (reply.now ≡ event.now.reply) }
{
    *call == event.call && *reply == event.reply
}

/// Whether an event of the ledger is the one of a home, as it stands in the ledger's history.
pub fn is_shared_event(
    kept: &Event<LedgerCall, LedgerReply>,
    home: &HomeId,
    event: &Event<HomeCall, HomeReply>,
) -> bool
    ensures { result ≡ true ↔ kept.now ≡ as_ledger home.now event.now }
{
    match (&kept.call, &kept.reply) {
        (LedgerCall::AtHome(at, call), LedgerReply::AtHome(reply)) => {
            at == home
                && kept.stamp == event.stamp
                && kept.actor == event.actor
                && kept.place == event.place
                && kept.component == event.component
                && is_done(call, reply, event)
        }
        _ => false,
    }
}

/// Whether the ledger's history has an event of this home too.
pub fn has_shared_event(
    ledger: &TransitLedger,
    home: &HomeId,
    event: &Event<HomeCall, HomeReply>,
) -> bool
    ensures { result ≡ true ↔ InLedger ledger.now.history.events home.now event.now }
{
    match event_at(ledger.events(), event.stamp) {
        Some(kept) => is_shared_event(kept, home, event),
        None => false,
    }
}

/// Whether the ledger's history has the event of this actor's record, as an event of the ledger alone.
pub fn has_ledger_event(ledger: &TransitLedger, actor: u32, kept: &LedgerRecord) -> bool
    ensures { result ≡ true ↔ HasLedgerEvent ledger.now.history.events actor kept.now }
{
    let step = kept.step();
    let Some(event) = event_of(ledger.events(), actor, step) else {
        return false;
    };
    is_own(&event.call) && is_told(event, step)
}
