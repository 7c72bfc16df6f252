//! The names of attributes that a request lists.
ghost use Rattle.std.specs.Prelude.{◌≡◌, option_map, unwrap_or};
ghost use Rattle.serde_json.specs.Data.{no_items};
ghost use Rattle.sq_json.specs.View.{view, items_view};
ghost use Rattle.sq_policy.specs.Reading.{seen_as};
ghost use Rattle.sq_requests.specs.Lists.{listed_if, any_item, all_items};
ghost use Rattle.sq_requests.specs.Asked.{is_text, names_at, asks, asked_of, either, asked_at, is_only_read, is_known, attributes_asked, asked_of_queue};

use crate::attributes::is_settable;
use sq_base::refusal::Refusal;
use sq_calls::calls::{AskedAttributes, AskedOfQueue};
use sq_json::value::{Items, Value};

// Whether these are texts.
fn are_texts(names: Items<'_, '_>) -> bool
    ensures { result ≡ all_items is_text (items_view names.entry) }
{
    let mut names = names;
    'names: while let Some(name) = names.next() {
        if !name.is_string() {
            return false;
        }
    }
    true
}

/// The list of texts that a member is; none without the member.
#[tactic(auto, unfolding(crate::specs::Asked::names_at))]
pub fn names_at<'t, 'a>(value: &Value<'t, 'a>, name: &str) -> Result<Option<Value<'t, 'a>>, Refusal>
    ensures { seen_as listed_if result ≡ names_at name.now (view value.now) }
{
    let Some(member) = value.get(name) else {
        return Ok(None);
    };
    let Some(names) = member.items() else {
        return Err(Refusal::InvalidRequest);
    };
    if are_texts(names) {
        Ok(Some(member))
    } else {
        Err(Refusal::InvalidRequest)
    }
}

// Whether a name asks for the attribute of this name.
#[tactic(auto, unfolding(crate::specs::Asked::asks))]
fn asks(value: &Value<'_, '_>, name: &str) -> bool
    ensures { result ≡ asks name.now (view value.now) }
{
    match value.as_str() {
        Some(text) => text == "All" || text == name,
        None => false,
    }
}

// Whether one of these does.
fn any_asks(names: Items<'_, '_>, name: &str) -> bool
    ensures { result ≡ any_item (asks name.now) (items_view names.entry) }
{
    let mut names = names;
    'names: while let Some(value) = names.next() {
        if asks(&value, name) {
            return true;
        }
    }
    false
}

// The items of a list that may be there.
fn items_if<'t, 'a>(list: &Option<Value<'t, 'a>>) -> Option<Items<'t, 'a>>
    ensures { unwrap_or (option_map items_view result) no_items ≡ listed_if list.now }
{
    match list {
        Some(list) => list.items(),
        None => None,
    }
}

fn is_asked(names: &Option<Value<'_, '_>>, name: &str) -> bool
    ensures { result ≡ any_item (asks name.now) (listed_if names.now) }
{
    match items_if(names) {
        Some(names) => any_asks(names, name),
        None => false,
    }
}

fn asked_of(names: &Option<Value<'_, '_>>) -> AskedAttributes
    ensures { result ≡ asked_of (listed_if names.now) }
{
    AskedAttributes {
        receive_count: is_asked(names, "ApproximateReceiveCount"),
        sent_timestamp: is_asked(names, "SentTimestamp"),
    }
}

// What is asked for by one or the other.
fn either(a: &AskedAttributes, b: &AskedAttributes) -> AskedAttributes
    ensures { result ≡ either a.now b.now }
{
    AskedAttributes {
        receive_count: a.receive_count || b.receive_count,
        sent_timestamp: a.sent_timestamp || b.sent_timestamp,
    }
}

/// The attributes of messages that are asked for (SQS API Reference, ReceiveMessage).
#[tactic(auto, unfolding(crate::specs::Asked::asked_at))]
pub fn asked_at(value: &Value<'_, '_>) -> Result<AskedAttributes, Refusal>
    ensures { result ≡ asked_at (view value.now) }
{
    let names = names_at(value, "MessageSystemAttributeNames")?;
    let older_names = names_at(value, "AttributeNames")?;
    Ok(either(&asked_of(&names), &asked_of(&older_names)))
}

#[tactic(auto, unfolding(crate::specs::Asked::is_only_read))]
fn is_only_read(name: &str) -> bool
    ensures { result ≡ is_only_read name.now }
{
    name == "ApproximateNumberOfMessages"
        || name == "ApproximateNumberOfMessagesDelayed"
        || name == "ApproximateNumberOfMessagesNotVisible"
        || name == "QueueArn"
}

// Whether a name asks for an attribute of a queue.
#[tactic(auto, unfolding(crate::specs::Asked::is_known))]
fn is_known(value: &Value<'_, '_>) -> bool
    ensures { result ≡ is_known (view value.now) }
{
    match value.as_str() {
        Some(name) => name == "All" || is_settable(name) || is_only_read(name),
        None => false,
    }
}

fn all_known(names: Items<'_, '_>) -> bool
    ensures { result ≡ all_items is_known (items_view names.entry) }
{
    let mut names = names;
    'names: while let Some(name) = names.next() {
        if !is_known(&name) {
            return false;
        }
    }
    true
}

fn are_known(names: &Option<Value<'_, '_>>) -> bool
    ensures { result ≡ all_items is_known (listed_if names.now) }
{
    match items_if(names) {
        Some(names) => all_known(names),
        None => true,
    }
}

#[tactic(auto, unfolding(crate::specs::Asked::attributes_asked))]
fn attributes_asked(names: &Option<Value<'_, '_>>) -> AskedOfQueue
    ensures { result ≡ attributes_asked (listed_if names.now) }
{
    AskedOfQueue {
        visible: is_asked(names, "ApproximateNumberOfMessages"),
        delayed: is_asked(names, "ApproximateNumberOfMessagesDelayed"),
        in_flight: is_asked(names, "ApproximateNumberOfMessagesNotVisible"),
        delay: is_asked(names, "DelaySeconds"),
        retention: is_asked(names, "MessageRetentionPeriod"),
        arn: is_asked(names, "QueueArn"),
        wait_time: is_asked(names, "ReceiveMessageWaitTimeSeconds"),
        allow: is_asked(names, "RedriveAllowPolicy"),
        redrive: is_asked(names, "RedrivePolicy"),
        timeout: is_asked(names, "VisibilityTimeout"),
    }
}

/// The attributes of a queue that names ask for (SQS API Reference, GetQueueAttributes: AttributeNames);
/// InvalidAttributeName where one asks for none.
#[tactic(auto, unfolding(crate::specs::Asked::asked_of_queue))]
pub fn asked_of_queue(names: &Option<Value<'_, '_>>) -> Result<AskedOfQueue, Refusal>
    ensures { result ≡ asked_of_queue (listed_if names.now) }
{
    if are_known(names) {
        Ok(attributes_asked(names))
    } else {
        Err(Refusal::InvalidAttributeName)
    }
}
