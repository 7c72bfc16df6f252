//! The members of a request's object.
ghost use Rattle.std.specs.Prelude.{◌≡◌, option_map};
ghost use Rattle.sq_json.specs.View.{view};
ghost use Rattle.sq_policy.specs.Reading.{seen_as};
ghost use Rattle.sq_requests.specs.Members.{url_name, text_at, text_if_at, url_at, receipt_handle_at, arn_at, arn_if, arn_if_at, named_task, has_members_at, amount_at, amount_if_at};

use sq_base::handle::{Handle, read_handle};
use sq_base::name::QueueName;
use sq_base::refusal::Refusal;
use sq_calls::task_handle::read_task_handle;
use sq_json::value::Value;
use sq_model::item::TaskNo;
use sq_policy::amount::{Amount, amount_of};
use sq_policy::arn::{name_behind, queue_of_arn};

/// What a queue's URL begins with, before its name.
const URL_START: &str = "http://localhost/000000000000/";

// The queue that a URL names.
#[tactic(auto, unfolding(crate::specs::Members::url_name))]
fn queue_at(url: &str) -> Option<QueueName>
    ensures { result ≡ url_name url.now }
{
    name_behind(URL_START, url)
}

/// The text of a member that must be there.
#[tactic(auto, unfolding(crate::specs::Members::text_at))]
pub fn text_at<'a>(value: &Value<'_, 'a>, name: &str) -> Result<&'a str, Refusal>
    ensures { seen_as (λ t. t.now) result ≡ text_at name.now (view value.now) }
{
    match value.get(name) {
        Some(member) => match member.as_str() {
            Some(text) => Ok(text),
            None => Err(Refusal::InvalidRequest),
        },
        None => Err(Refusal::InvalidRequest),
    }
}

/// The text of a member that may be there.
#[tactic(auto, unfolding(crate::specs::Members::text_if_at))]
pub fn text_if_at<'a>(value: &Value<'_, 'a>, name: &str) -> Result<Option<&'a str>, Refusal>
    ensures { seen_as (option_map (λ t. t.now)) result ≡ text_if_at name.now (view value.now) }
{
    match value.get(name) {
        Some(member) => match member.as_str() {
            Some(text) => Ok(Some(text)),
            None => Err(Refusal::InvalidRequest),
        },
        None => Ok(None),
    }
}

/// The queue of the member `QueueUrl`; none where that is no queue's URL.
#[tactic(auto, unfolding(crate::specs::Members::url_at))]
pub fn url_at(value: &Value<'_, '_>) -> Result<Option<QueueName>, Refusal>
    ensures { result ≡ url_at (view value.now) }
{
    let url = text_at(value, "QueueUrl")?;
    Ok(queue_at(url))
}

/// The handle of the member `ReceiptHandle`; none where that is no handle.
#[tactic(auto, using(crate::proofs::MemberLaws::names_receipt), unfolding(crate::specs::Members::receipt_handle_at))]
pub fn receipt_handle_at(value: &Value<'_, '_>) -> Result<Option<Handle>, Refusal>
    ensures { result ≡ receipt_handle_at (view value.now) }
{
    let handle = text_at(value, "ReceiptHandle")?;
    Ok(read_handle(handle.as_bytes()))
}

/// The queue of a member that must be an ARN; none where its text is none.
#[tactic(auto, unfolding(crate::specs::Members::arn_at))]
pub fn arn_at(value: &Value<'_, '_>, name: &str) -> Result<Option<QueueName>, Refusal>
    ensures { result ≡ arn_at name.now (view value.now) }
{
    let arn = text_at(value, name)?;
    Ok(queue_of_arn(arn))
}

fn arn_if(arn: Option<&str>) -> Option<Option<QueueName>>
    ensures { result ≡ arn_if (option_map (λ t. t.now) arn.entry) }
{
    match arn {
        Some(arn) => Some(queue_of_arn(arn)),
        None => None,
    }
}

/// The same of a member that may be there.
#[tactic(auto, using(crate::proofs::MemberLaws::may_name), unfolding(crate::specs::Members::arn_if_at))]
pub fn arn_if_at(value: &Value<'_, '_>, name: &str) -> Result<Option<Option<QueueName>>, Refusal>
    ensures { result ≡ arn_if_at name.now (view value.now) }
{
    let arn = text_if_at(value, name)?;
    Ok(arn_if(arn))
}

/// The task of the member `TaskHandle`; none where that is the handle of none.
#[tactic(auto, unfolding(crate::specs::Members::named_task))]
pub fn named_task(value: &Value<'_, '_>) -> Result<Option<TaskNo>, Refusal>
    ensures { result ≡ named_task (view value.now) }
{
    text_at(value, "TaskHandle").map(|handle| read_task_handle(handle.as_bytes()))
}

/// Whether a member that may be there is an object with members.
#[tactic(auto, unfolding(crate::specs::Members::has_members_at))]
pub fn has_members_at(value: &Value<'_, '_>, name: &str) -> Result<bool, Refusal>
    ensures { result ≡ has_members_at name.now (view value.now) }
{
    match value.get(name) {
        None => Ok(false),
        Some(member) => match member.has_members() {
            Some(has_members) => Ok(has_members),
            None => Err(Refusal::InvalidRequest),
        },
    }
}

/// The whole number of a member that must be there.
#[tactic(auto, unfolding(crate::specs::Members::amount_at))]
pub fn amount_at(value: &Value<'_, '_>, name: &str) -> Result<Amount, Refusal>
    ensures { result ≡ amount_at name.now (view value.now) }
{
    match value.get(name) {
        Some(member) => amount_of(&member),
        None => Err(Refusal::InvalidRequest),
    }
}

/// The whole number of a member that may be there.
#[tactic(auto, unfolding(crate::specs::Members::amount_if_at))]
pub fn amount_if_at(value: &Value<'_, '_>, name: &str) -> Result<Option<Amount>, Refusal>
    ensures { result ≡ amount_if_at name.now (view value.now) }
{
    match value.get(name) {
        Some(member) => Ok(Some(amount_of(&member)?)),
        None => Ok(None),
    }
}
