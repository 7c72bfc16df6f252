//! What the actions on message move tasks ask.
ghost use Rattle.std.specs.Prelude.{◌≡◌};
ghost use Rattle.sq_json.specs.View.{view};
ghost use Rattle.sq_requests.specs.Tasks.{move_members, destination_of, start_move_of, list_moves_of};

use crate::members::{amount_if_at, arn_at, arn_if_at};
use sq_base::name::QueueName;
use sq_base::ranges::MaxResults;
use sq_base::refusal::Refusal;
use sq_calls::calls::{Call, ListMessageMoveTasks, StartMessageMoveTask};
use sq_json::value::Value;
use sq_policy::amount::{Amount, in_range_if};

/// The members of a StartMessageMoveTask.
#[derive(Drop)]
pub struct MoveMembers {
    /// None where the text is no ARN.
    pub source: Option<QueueName>,
    /// The same of the destination, where it is given.
    pub destination: Option<Option<QueueName>>,
    pub rate: Option<Amount>,
}

#[tactic(auto, using(crate::proofs::MemberLaws::moves), unfolding(crate::specs::Tasks::move_members))]
fn move_members(value: &Value<'_, '_>) -> Result<MoveMembers, Refusal>
    ensures { result ≡ move_members (view value.now) }
{
    Ok(MoveMembers {
        source: arn_at(value, "SourceArn")?,
        destination: arn_if_at(value, "DestinationArn")?,
        rate: amount_if_at(value, "MaxNumberOfMessagesPerSecond")?,
    })
}

// The destination, where it is given.
fn destination_of(destination: Option<Option<QueueName>>) -> Result<Option<QueueName>, Refusal>
    ensures { result ≡ destination_of destination }
{
    match destination {
        Some(Some(name)) => Ok(Some(name)),
        Some(None) => Err(Refusal::InvalidAddress),
        None => Ok(None),
    }
}

/// What a StartMessageMoveTask asks (SQS API Reference, StartMessageMoveTask). A text that is no ARN is InvalidAddress; and
/// then a rate out of its range, or a source that is the destination too, is InvalidParameterValue.
#[tactic(auto, unfolding(crate::specs::Tasks::start_move_of))]
pub fn start_move_of(value: &Value<'_, '_>) -> Result<Call, Refusal>
    ensures { result ≡ start_move_of (view value.now) }
{
    let members = move_members(value)?;
    let source = members.source.ok_or(Refusal::InvalidAddress)?;
    let destination = destination_of(members.destination)?;
    let rate = in_range_if(members.rate, Refusal::InvalidParameterValue)?;
    let call = StartMessageMoveTask {
        source,
        destination,
        rate,
    };
    if call.is_to_its_source() {
        return Err(Refusal::InvalidParameterValue);
    }
    Ok(Call::StartMessageMoveTask(call))
}

/// What a ListMessageMoveTasks asks (SQS API Reference, ListMessageMoveTasks); one task without a number. A text that is no
/// ARN is InvalidAddress, and then a number out of its range is InvalidParameterValue.
#[tactic(auto, unfolding(crate::specs::Tasks::list_moves_of))]
pub fn list_moves_of(value: &Value<'_, '_>) -> Result<Call, Refusal>
    ensures { result ≡ list_moves_of (view value.now) }
{
    let arn = arn_at(value, "SourceArn")?;
    let amount = amount_if_at(value, "MaxResults")?;
    let source = arn.ok_or(Refusal::InvalidAddress)?;
    let max = in_range_if(amount, Refusal::InvalidParameterValue)?;
    Ok(Call::ListMessageMoveTasks(ListMessageMoveTasks {
        source,
        max: max.unwrap_or(MaxResults::of(1)),
    }))
}
