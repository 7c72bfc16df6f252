//! What the actions on messages ask.
ghost use Rattle.std.specs.Prelude.{◌≡◌};
ghost use Rattle.sq_json.specs.View.{view};
ghost use Rattle.sq_policy.specs.Reading.{Reads};
ghost use Rattle.sq_requests.specs.Actions.{has_attributes_at, send_members, addressed, send_of, receive_members, receive_of, delete_of, change_of};

use crate::asked::asked_at;
use crate::members::{amount_at, amount_if_at, has_members_at, receipt_handle_at, text_at, url_at};
use sq_base::name::QueueName;
use sq_base::ranges::{Delay, MaxMessages};
use sq_base::refusal::Refusal;
use sq_calls::body_text::BodyText;
use sq_calls::calls::{
    AskedAttributes, Call, ChangeMessageVisibility, DeleteMessage, ReceiveMessage, SendMessage,
};
use sq_json::value::Value;
use sq_policy::amount::{Amount, in_range, in_range_if};
use std::alloc::Global;

/// Whether message attributes or message system attributes are given.
#[tactic(auto, using(crate::proofs::MemberLaws::either_given), unfolding(crate::specs::Actions::has_attributes_at))]
pub(crate) fn has_attributes_at(value: &Value<'_, '_>) -> Result<bool, Refusal>
    ensures { result ≡ has_attributes_at (view value.now) }
{
    let attributes = has_members_at(value, "MessageAttributes")?;
    let system_attributes = has_members_at(value, "MessageSystemAttributes")?;
    Ok(attributes || system_attributes)
}

/// The members of a SendMessage but its body.
#[derive(Drop)]
pub struct SendMembers {
    pub queue: Option<QueueName>,
    /// Message attributes are not supported.
    pub has_attributes: bool,
    pub delay: Option<Amount>,
}

#[tactic(auto, unfolding(crate::specs::Actions::send_members))]
fn send_members(value: &Value<'_, '_>) -> Result<SendMembers, Refusal>
    ensures { result ≡ send_members (view value.now) }
{
    let queue = url_at(value)?;
    let delay = amount_if_at(value, "DelaySeconds")?;
    let has_attributes = has_attributes_at(value)?;
    Ok(SendMembers {
        queue,
        delay,
        has_attributes,
    })
}

/// Where a message goes, and how long it is delayed.
#[derive(Drop)]
pub struct Addressee {
    pub queue: QueueName,
    pub delay: Option<Delay>,
}

// Where a message goes, where it can be sent.
#[tactic(auto, unfolding(crate::specs::Actions::addressed))]
fn addressed(members: &SendMembers) -> Result<Addressee, Refusal>
    ensures { result ≡ addressed members.now }
{
    if members.has_attributes {
        return Err(Refusal::UnsupportedOperation);
    }
    let queue = members.queue.ok_or(Refusal::InvalidAddress)?;
    let delay = in_range_if(members.delay, Refusal::InvalidParameterValue)?;
    Ok(Addressee { queue, delay })
}

/// SendMessage.
pub fn send_of(alloc: Global, value: &Value<'_, '_>) -> Result<Call, Refusal>
    ensures { Reads result (send_of (view value.now)) }
{
    let body = text_at(value, "MessageBody")?;
    let members = send_members(value)?;
    let Addressee { queue, delay } = addressed(&members)?;
    let body = BodyText::new(alloc, body)?;
    Ok(Call::SendMessage(SendMessage { queue, body, delay }))
}

/// The members of a ReceiveMessage.
#[derive(Drop)]
pub struct ReceiveMembers {
    pub queue: Option<QueueName>,
    pub max: Option<Amount>,
    pub timeout: Option<Amount>,
    pub wait_time: Option<Amount>,
    pub attributes: AskedAttributes,
}

#[tactic(auto, unfolding(crate::specs::Actions::receive_members))]
fn receive_members(value: &Value<'_, '_>) -> Result<ReceiveMembers, Refusal>
    ensures { result ≡ receive_members (view value.now) }
{
    Ok(ReceiveMembers {
        queue: url_at(value)?,
        max: amount_if_at(value, "MaxNumberOfMessages")?,
        timeout: amount_if_at(value, "VisibilityTimeout")?,
        wait_time: amount_if_at(value, "WaitTimeSeconds")?,
        attributes: asked_at(value)?,
    })
}

/// ReceiveMessage.
#[tactic(auto, unfolding(crate::specs::Actions::receive_of))]
pub fn receive_of(value: &Value<'_, '_>) -> Result<Call, Refusal>
    ensures { result ≡ receive_of (view value.now) }
{
    let members = receive_members(value)?;
    let queue = members.queue.ok_or(Refusal::InvalidAddress)?;
    let max = in_range_if(members.max, Refusal::InvalidParameterValue)?;
    let timeout = in_range_if(members.timeout, Refusal::InvalidParameterValue)?;
    let _ = in_range_if::<0, 20>(members.wait_time, Refusal::InvalidParameterValue)?;
    Ok(Call::ReceiveMessage(ReceiveMessage {
        queue,
        max: max.unwrap_or(MaxMessages::of(1)),
        timeout,
        attributes: members.attributes,
    }))
}

/// DeleteMessage.
#[tactic(auto, unfolding(crate::specs::Actions::delete_of))]
pub fn delete_of(value: &Value<'_, '_>) -> Result<Call, Refusal>
    ensures { result ≡ delete_of (view value.now) }
{
    let url = url_at(value)?;
    let handle = receipt_handle_at(value)?;
    let queue = url.ok_or(Refusal::InvalidAddress)?;
    Ok(Call::DeleteMessage(DeleteMessage { queue, handle }))
}

/// ChangeMessageVisibility.
#[tactic(auto, using(crate::proofs::MemberLaws::changes), unfolding(crate::specs::Actions::change_of))]
pub fn change_of(value: &Value<'_, '_>) -> Result<Call, Refusal>
    ensures { result ≡ change_of (view value.now) }
{
    let url = url_at(value)?;
    let handle = receipt_handle_at(value)?;
    let amount = amount_at(value, "VisibilityTimeout")?;
    let queue = url.ok_or(Refusal::InvalidAddress)?;
    let timeout = in_range(amount, Refusal::InvalidParameterValue)?;
    Ok(Call::ChangeMessageVisibility(ChangeMessageVisibility {
        queue,
        handle,
        timeout,
    }))
}
