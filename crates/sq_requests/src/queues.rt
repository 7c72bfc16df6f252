//! What the actions on queues ask.
ghost use Rattle.std.specs.Prelude.{◌≡◌, option_map};
ghost use Rattle.sq_json.specs.View.{view};
ghost use Rattle.sq_requests.specs.Memory.{ReadsAsking};
ghost use Rattle.sq_requests.specs.Queues.{create_of, create_asks, set_of, set_asks, get_of, get_url_of, prefix_of, prefix_if, list_of, named_queue};

use crate::asked::{asked_of_queue, names_at};
use crate::attributes::{attributes_of, given_at, given_if_at};
use crate::members::{text_at, text_if_at, url_at};
use sq_base::name::QueueName;
use sq_base::refusal::Refusal;
use sq_calls::calls::{Call, CreateQueue, GetQueueAttributes, SetQueueAttributes};
use sq_json::value::Value;
use sq_model::directory::NamePrefix;
use std::alloc::Global;

/// What a CreateQueue asks (SQS API Reference, CreateQueue). A text that is no queue name is InvalidParameterValue, after
/// all refusals of attributes; NoMemory only of a policy whose text is not empty.
#[tactic(auto, unfolding(crate::specs::Queues::create_of, crate::specs::Queues::create_asks))]
pub fn create_of(alloc: Global, value: &Value<'_, '_>) -> Result<Call, Refusal>
    ensures { let d = view value.now in
        ReadsAsking (create_asks d) result (create_of d) }
{
    let text = text_at(value, "QueueName")?;
    let given = given_if_at(value)?;
    let attributes = attributes_of(alloc, &given)?;
    let name = QueueName::new(text.as_bytes()).ok_or(Refusal::InvalidParameterValue)?;
    Ok(Call::CreateQueue(CreateQueue { name, attributes }))
}

/// What a SetQueueAttributes asks (SQS API Reference, SetQueueAttributes). A URL that is no queue's is InvalidAddress,
/// before the attributes' names and values; NoMemory only of a policy whose text is not empty.
#[tactic(auto, unfolding(crate::specs::Queues::set_of, crate::specs::Queues::set_asks))]
pub fn set_of(alloc: Global, value: &Value<'_, '_>) -> Result<Call, Refusal>
    ensures { let d = view value.now in
        ReadsAsking (set_asks d) result (set_of d) }
{
    let url = url_at(value)?;
    let given = given_at(value)?;
    let queue = url.ok_or(Refusal::InvalidAddress)?;
    let attributes = attributes_of(alloc, &given)?;
    Ok(Call::SetQueueAttributes(SetQueueAttributes { queue, attributes }))
}

/// What a GetQueueAttributes asks (SQS API Reference, GetQueueAttributes); nothing without names. A URL that is no
/// queue's is InvalidAddress, and then a name that is none of the ten and not `All` is InvalidAttributeName.
#[tactic(auto, unfolding(crate::specs::Queues::get_of))]
pub fn get_of(value: &Value<'_, '_>) -> Result<Call, Refusal>
    ensures { result ≡ get_of (view value.now) }
{
    let url = url_at(value)?;
    let names = names_at(value, "AttributeNames")?;
    let queue = url.ok_or(Refusal::InvalidAddress)?;
    let asked = asked_of_queue(&names)?;
    Ok(Call::GetQueueAttributes(GetQueueAttributes { queue, asked }))
}

/// What a GetQueueUrl asks (SQS API Reference, GetQueueUrl). A text that is no queue name is InvalidParameterValue.
#[tactic(auto, unfolding(crate::specs::Queues::get_url_of))]
pub fn get_url_of(value: &Value<'_, '_>) -> Result<Call, Refusal>
    ensures { result ≡ get_url_of (view value.now) }
{
    let text = text_at(value, "QueueName")?;
    let name = QueueName::new(text.as_bytes()).ok_or(Refusal::InvalidParameterValue)?;
    Ok(Call::GetQueueUrl(name))
}

#[tactic(auto, unfolding(crate::specs::Queues::prefix_of))]
fn prefix_of(text: &str) -> NamePrefix
    ensures { result ≡ prefix_of text.now }
{
    if text.is_empty() {
        return NamePrefix::Any;
    }
    match QueueName::new(text.as_bytes()) {
        Some(name) => NamePrefix::Text(name),
        None => NamePrefix::NoName,
    }
}

fn prefix_if(text: Option<&str>) -> NamePrefix
    ensures { result ≡ prefix_if (option_map (λ t. t.now) text.entry) }
{
    match text {
        Some(text) => prefix_of(text),
        None => NamePrefix::Any,
    }
}

/// What a ListQueues asks (SQS API Reference, ListQueues); all names without a prefix.
#[tactic(auto, unfolding(crate::specs::Queues::list_of))]
pub fn list_of(value: &Value<'_, '_>) -> Result<Call, Refusal>
    ensures { result ≡ list_of (view value.now) }
{
    let text = text_if_at(value, "QueueNamePrefix")?;
    Ok(Call::ListQueues(prefix_if(text)))
}

/// The queue of a request that asks no more than that. A URL that is no queue's is InvalidAddress.
#[tactic(auto, unfolding(crate::specs::Queues::named_queue))]
pub fn named_queue(value: &Value<'_, '_>) -> Result<QueueName, Refusal>
    ensures { result ≡ named_queue (view value.now) }
{
    url_at(value)?.ok_or(Refusal::InvalidAddress)
}
