//! Where a message of a run is.
ghost use Rattle.std.specs.Prelude.{◌≡◌, ℕ, true};
ghost use Rattle.sq_base.specs.declared.message_id.MessageId.{MessageId};
ghost use Rattle.sq_model.specs.Systems.{System, RunFrom, opening, IsOnePlace, Opening};
ghost use Rattle.sq_model.specs.Places.{run_ends, run_sends, place_in};
ghost use Rattle.sq_model.specs.declared.place.Place.TheVariants as at;
ghost use Rattle.sq_audit.specs.Tags.{tag_of, tags_of};
ghost use Rattle.sq_places.specs.inside.RowStates.{effect_of, reply_effect, entry_effect, entered_state, returned_state, is_state_named, is_past};
ghost use Rattle.sq_places.specs.inside.MessagePasses as tracks;
ghost use Rattle.sq_places.specs.declared.message_pass.MessageState.TheVariants.{Gone};

use crate::state::{
    Policy, RowState, entered, is_named, is_past, looked, next_policy, returned, sent,
};
use sq_audit::run::Run;
use sq_audit::tagged::Tagged;
use sq_base::message_id::MessageId;
use sq_base::ranges::Retention;
use sq_model::calls::{HomeCall, Receipt};
use sq_model::event::Event;
use sq_model::item::Item;
use sq_model::place::Place;
use sq_model::replies::HomeReply;

/// What is known of a message.
#[derive(Clone, Copy, PartialEq, Eq, Debug)]
enum MessageState {
    Unsent,
    /// In the home at an index, as this row.
    Here(u32, RowState),
    /// Between two queues.
    InTransit,
    Gone(Place),
}

/// What is known of a message, and what its home goes by, where it is in one.
#[derive(Clone, Copy, PartialEq, Eq, Debug)]
struct MessagePass {
    policy: Option<Policy>,
    state: MessageState,
}

/// Where a message of a run is: some place exactly for those that were sent in it. It takes no memory.
pub fn place_of(run: &Run<'_>, x: &MessageId) -> Option<Place>
    ensures place { (o : Opening) (after : System) (r : RunFrom (opening o) run.now after) → IsOnePlace o.sites
        → result ≡ place_in x.now (run_sends run.now) (run_ends (opening o) run.now after r) after.ledger.items }
{
    let mut message_pass = MessagePass {
        policy: None,
        state: MessageState::Unsent,
    };
    let events = run.events();
    for index in 0..events.len() {
        message_pass = next(x, &events[..index], &message_pass, &events[index]);
    }
    answer(message_pass.state)
}

// What is known after one more event.
fn next(
    x: &MessageId,
    before: &[Tagged<'_>],
    message_pass: &MessagePass,
    tagged: &Tagged<'_>,
) -> MessagePass
    ensures { result ≡ tracks.pass_step x.now (tags_of before.now) message_pass.now (tag_of tagged.now) }
{
    match tagged {
        Tagged::Directory(_) | Tagged::Ledger(_) => *message_pass,
        Tagged::Home(index, event) => next_at_home(x, before, message_pass, *index, event),
    }
}

fn next_at_home(
    x: &MessageId,
    before: &[Tagged<'_>],
    message_pass: &MessagePass,
    index: u32,
    event: &Event<HomeCall, HomeReply>,
) -> MessagePass
    ensures { result ≡ tracks.next_pass x.now (tags_of before.now) index message_pass.now event.now }
{
    let moment = event.stamp.moment;
    let kept = unexpired(index, message_pass.policy, moment, message_pass.state);
    let state = changed(x, index, moment, &event.call, &event.reply, kept);
    let policy = known_policy(before, index, message_pass, &event.call, &state);
    MessagePass { policy, state }
}

// What the home of the message goes by after a call of the home at an index. A message that comes there is subject to its
// policy from then on.
fn known_policy(
    before: &[Tagged<'_>],
    index: u32,
    message_pass: &MessagePass,
    call: &HomeCall,
    state: &MessageState,
) -> Option<Policy>
    ensures { result ≡ tracks.known_policy (tags_of before.now) index message_pass.now call.now state.now }
{
    if is_in(index, &message_pass.state) {
        next_policy(&message_pass.policy, call)
    } else if is_in(index, state) {
        next_policy(&policy_at(index, before), call)
    } else {
        message_pass.policy
    }
}

fn is_in(index: u32, state: &MessageState) -> bool
    ensures { result ≡ tracks.is_state_in index state.now }
{
    match state {
        MessageState::Here(home, _) => *home == index,
        MessageState::Unsent | MessageState::InTransit | MessageState::Gone(_) => false,
    }
}

// What the home at an index goes by after these events.
fn policy_at(index: u32, events: &[Tagged<'_>]) -> Option<Policy>
    ensures { result ≡ tracks.policy_at index (tags_of events.now) }
{
    let mut policy = None;
    for tagged in events {
        policy = policy_after(index, policy, tagged);
    }
    policy
}

fn policy_after(index: u32, policy: Option<Policy>, tagged: &Tagged<'_>) -> Option<Policy>
    ensures { result ≡ tracks.policy_step index policy (tag_of tagged.now) }
{
    match tagged {
        Tagged::Directory(_) | Tagged::Ledger(_) => policy,
        Tagged::Home(home, event) => {
            if *home == index {
                next_policy(&policy, &event.call)
            } else {
                policy
            }
        }
    }
}

// A row of the home at an index that is past the retention leaves.
fn unexpired(index: u32, policy: Option<Policy>, moment: u64, state: MessageState) -> MessageState
    ensures { result ≡ tracks.unexpired_state index policy moment state }
{
    match policy {
        Some(policy) => expired(index, policy.retention, moment, state),
        None => state,
    }
}

fn expired(index: u32, retention: Retention, moment: u64, state: MessageState) -> MessageState
    ensures { result ≡ tracks.leaves index (is_past retention moment) at.Expired state }
{
    match state {
        MessageState::Here(home, row) if home == index && is_past(retention, moment, &row) => {
            MessageState::Gone(Place::Expired)
        }
        other => other,
    }
}

// What a call of the home at an index and its reply make of it, if it has not expired.
fn changed(
    x: &MessageId,
    index: u32,
    moment: u64,
    call: &HomeCall,
    reply: &HomeReply,
    state: MessageState,
) -> MessageState
    ensures { result ≡ tracks.state_after x.now index moment (effect_of moment call.now reply.now) state }
{
    match call {
        HomeCall::Configure(_, _)
        | HomeCall::Change(_, _)
        | HomeCall::Count
        | HomeCall::StartDrain
        | HomeCall::FinishDrain
        | HomeCall::TurnBack(_) => state,
        HomeCall::Send(_, _)
        | HomeCall::Look(_, _)
        | HomeCall::LeaveDead
        | HomeCall::LeaveDrain
        | HomeCall::LeaveTask(_) => answered(x, index, moment, reply, state),
        HomeCall::Delete(receipt) => deleted(index, receipt, state),
        HomeCall::Purge => cleared(index, Place::Purged, state),
        HomeCall::Close => cleared(index, Place::ClosedAway, state),
        HomeCall::Enter(item) => came_in(x, index, moment, item.get(), reply, state),
        HomeCall::GiveBack(item) => came_back(x, index, moment, item.get(), reply, state),
        HomeCall::Drop(item) => dropped(x, item.get(), state),
    }
}

fn answered(
    x: &MessageId,
    index: u32,
    moment: u64,
    reply: &HomeReply,
    state: MessageState,
) -> MessageState
    ensures { result ≡ tracks.state_after x.now index moment (reply_effect reply.now) state }
{
    match (reply, state) {
        (HomeReply::Sent(message), _) if message.id == *x => {
            MessageState::Here(index, sent(message, moment))
        }
        (HomeReply::Looked(picked), MessageState::Here(home, row)) if home == index => {
            MessageState::Here(home, looked(picked.as_slice(), &row))
        }
        (HomeReply::Left(item), _) if item.get().row.lineage == *x => MessageState::InTransit,
        _ => state,
    }
}

fn deleted(index: u32, receipt: &Receipt, state: MessageState) -> MessageState
    ensures { result ≡ tracks.leaves index (is_state_named receipt.now) at.Deleted state }
{
    match state {
        MessageState::Here(home, row) if home == index && is_named(receipt, &row) => {
            MessageState::Gone(Place::Deleted)
        }
        other => other,
    }
}

// Each row of the home at an index leaves.
fn cleared(index: u32, place: Place, state: MessageState) -> MessageState
    ensures { result ≡ tracks.leaves index (λ row. true) place state }
{
    match state {
        MessageState::Here(home, _) if home == index => MessageState::Gone(place),
        other => other,
    }
}

fn came_in(
    x: &MessageId,
    index: u32,
    moment: u64,
    item: &Item,
    reply: &HomeReply,
    state: MessageState,
) -> MessageState
    ensures { result ≡ tracks.state_after x.now index moment (entry_effect (entered_state moment item.now) reply.now) state }
{
    match reply {
        HomeReply::Entered(row) if item.row.lineage == *x => {
            MessageState::Here(index, entered(item, row, moment))
        }
        _ => state,
    }
}

fn came_back(
    x: &MessageId,
    index: u32,
    moment: u64,
    item: &Item,
    reply: &HomeReply,
    state: MessageState,
) -> MessageState
    ensures { result ≡ tracks.state_after x.now index moment (entry_effect (returned_state moment item.now) reply.now) state }
{
    match reply {
        HomeReply::Entered(row) if item.row.lineage == *x => {
            MessageState::Here(index, returned(item, row, moment))
        }
        _ => state,
    }
}

fn dropped(x: &MessageId, item: &Item, state: MessageState) -> MessageState
    ensures { result ≡ tracks.becomes x.now item.now.row.lineage (Gone at.Dropped) state }
{
    if item.row.lineage == *x {
        MessageState::Gone(Place::Dropped)
    } else {
        state
    }
}

fn answer(state: MessageState) -> Option<Place>
    ensures { result ≡ tracks.answer state }
{
    match state {
        MessageState::Unsent => None,
        MessageState::Here(_, _) => Some(Place::InHome),
        MessageState::InTransit => Some(Place::InTransit),
        MessageState::Gone(place) => Some(place),
    }
}
