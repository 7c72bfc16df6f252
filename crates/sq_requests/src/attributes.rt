//! The attributes that a request gives (SQS API Reference, CreateQueue and SetQueueAttributes: Attributes).
ghost use Rattle.std.specs.Prelude.{◌≡◌, ℕ, List, Option, Result, option_map, Ok};
ghost use Rattle.std.specs.List.{list_any};
ghost use Rattle.sq_json.specs.View.{view, names_view};
ghost use Rattle.sq_policy.specs.Reading.{ReadsText, seen_as};
ghost use Rattle.sq_policy.specs.PolicyTexts.{redrive_of, allow_of};
ghost use Rattle.sq_base.specs.declared.refusal.Refusal.{Refusal};
ghost use Rattle.sq_requests.specs.Memory.{ReadsAsking};
ghost use Rattle.sq_requests.specs.Attributes.{attribute_at, is_settable, is_unsettable, given_texts, given_in, given_at, given_if_at, numbers_of, named_numbers, if_given, has_text, attributes_of, attributes_ask};

use crate::members::text_if_at;
use sq_base::refusal::Refusal;
use sq_json::value::{Names, Value};
use sq_model::directory::Attributes;
use sq_model::policy::{AllowPolicy, RedrivePolicy};
use sq_policy::amount::{Amount, attribute_of, in_range_if};
use sq_policy::policy::{read_allow, read_redrive};
use std::alloc::Global;

/// The attributes that a request gives (SQS API Reference, SetQueueAttributes: Attributes), their names, their ranges and
/// their policies not checked yet.
#[derive(Drop)]
pub struct Given<'a> {
    pub delay: Option<Amount>,
    pub retention: Option<Amount>,
    pub wait_time: Option<Amount>,
    pub timeout: Option<Amount>,
    pub redrive: Option<&'a str>,
    pub allow: Option<&'a str>,
    /// One is given that cannot be set.
    pub has_other: bool,
}

// The numeric attribute of a name, where it is given.
#[tactic(auto, unfolding(crate::specs::Attributes::attribute_at))]
fn attribute_at(attributes: &Value<'_, '_>, name: &str) -> Result<Option<Amount>, Refusal>
    ensures { result ≡ attribute_at name.now (view attributes.now) }
{
    match attributes.get(name) {
        Some(member) => Ok(Some(attribute_of(&member)?)),
        None => Ok(None),
    }
}

/// Whether an attribute of this name can be set (SQS API Reference, SetQueueAttributes: Attributes).
#[tactic(auto, unfolding(crate::specs::Attributes::is_settable))]
pub fn is_settable(name: &str) -> bool
    ensures { result ≡ is_settable name.now }
{
    name == "DelaySeconds"
        || name == "MessageRetentionPeriod"
        || name == "ReceiveMessageWaitTimeSeconds"
        || name == "RedriveAllowPolicy"
        || name == "RedrivePolicy"
        || name == "VisibilityTimeout"
}

// Whether an attribute is among these that cannot be set.
fn has_other(names: Names<'_, '_>) -> bool
    ensures { result ≡ list_any is_unsettable (names_view names.entry) }
{
    let mut names = names;
    'names: while let Some(name) = names.next() {
        if !is_settable(name) {
            return true;
        }
    }
    false
}

#[tactic(auto, unfolding(crate::specs::Attributes::given_in))]
fn given_in<'a>(attributes: &Value<'_, 'a>) -> Result<Given<'a>, Refusal>
    ensures { seen_as given_texts result ≡ given_in (view attributes.now) }
{
    let Some(names) = attributes.names() else {
        return Err(Refusal::InvalidRequest);
    };
    let delay = attribute_at(attributes, "DelaySeconds")?;
    let retention = attribute_at(attributes, "MessageRetentionPeriod")?;
    let wait_time = attribute_at(attributes, "ReceiveMessageWaitTimeSeconds")?;
    let timeout = attribute_at(attributes, "VisibilityTimeout")?;
    let redrive = text_if_at(attributes, "RedrivePolicy")?;
    let allow = text_if_at(attributes, "RedriveAllowPolicy")?;
    Ok(Given {
        delay,
        retention,
        wait_time,
        timeout,
        redrive,
        allow,
        has_other: has_other(names),
    })
}

/// What the member `Attributes` gives, which must be there (SQS API Reference, SetQueueAttributes); InvalidRequest where
/// it is no object, a numeric attribute neither a text nor a whole number, or a policy no text.
#[tactic(auto, unfolding(crate::specs::Attributes::given_at))]
pub fn given_at<'a>(value: &Value<'_, 'a>) -> Result<Given<'a>, Refusal>
    ensures { seen_as given_texts result ≡ given_at (view value.now) }
{
    match value.get("Attributes") {
        Some(attributes) => given_in(&attributes),
        None => Err(Refusal::InvalidRequest),
    }
}

/// The same where it may be missing (SQS API Reference, CreateQueue).
#[tactic(auto, unfolding(crate::specs::Attributes::given_if_at))]
pub fn given_if_at<'a>(value: &Value<'_, 'a>) -> Result<Given<'a>, Refusal>
    ensures { seen_as given_texts result ≡ given_if_at (view value.now) }
{
    match value.get("Attributes") {
        Some(attributes) => given_in(&attributes),
        None => Ok(Given {
            delay: None,
            retention: None,
            wait_time: None,
            timeout: None,
            redrive: None,
            allow: None,
            has_other: false,
        }),
    }
}

#[tactic(auto, unfolding(crate::specs::Attributes::numbers_of))]
fn numbers_of(given: &Given<'_>) -> Result<Attributes, Refusal>
    ensures { result ≡ numbers_of (given_texts given.now) }
{
    Ok(Attributes {
        delay: in_range_if(given.delay, Refusal::InvalidAttributeValue)?,
        retention: in_range_if(given.retention, Refusal::InvalidAttributeValue)?,
        wait_time: in_range_if(given.wait_time, Refusal::InvalidAttributeValue)?,
        timeout: in_range_if(given.timeout, Refusal::InvalidAttributeValue)?,
        redrive: None,
        allow: None,
    })
}

// The numeric attributes, where each name is that of an attribute and each number is in its range.
#[tactic(auto, unfolding(crate::specs::Attributes::named_numbers))]
fn named_numbers(given: &Given<'_>) -> Result<Attributes, Refusal>
    ensures { result ≡ named_numbers (given_texts given.now) }
{
    if given.has_other {
        return Err(Refusal::InvalidAttributeName);
    }
    numbers_of(given)
}

// A policy that a request may set.
trait Policy: Sized {
    /// What a text sets.
    ghost meaning: { List ℕ → Result (Option Self) Refusal };

    fn read(alloc: Global, text: &str) -> Result<Option<Self>, Refusal>
        ensures { ReadsText result text.now meaning };
}

impl Policy for RedrivePolicy {
    ghost meaning = { redrive_of };

    fn read(alloc: Global, text: &str) -> Result<Option<RedrivePolicy>, Refusal> {
        read_redrive(alloc, text)
    }
}

impl Policy for AllowPolicy {
    ghost meaning = { allow_of };

    fn read(alloc: Global, text: &str) -> Result<Option<AllowPolicy>, Refusal> {
        read_allow(alloc, text)
    }
}

fn policy_if<P: Policy>(alloc: Global, text: Option<&str>) -> Result<Option<Option<P>>, Refusal>
    ensures { let given = option_map (λ t. t.now) text.entry in
        ReadsAsking (Ok (has_text given)) result (if_given P.meaning given) }
{
    match text {
        Some(text) => Ok(Some(P::read(alloc, text)?)),
        None => Ok(None),
    }
}

/// The attributes, where each can be set: InvalidAttributeName where one cannot, then InvalidAttributeValue for a number
/// out of its range and for a text that is no policy; NoMemory only of a policy whose text is not empty (SQS API
/// Reference, SetQueueAttributes).
#[tactic(auto, unfolding(crate::specs::Attributes::attributes_of, crate::specs::Attributes::attributes_ask))]
pub fn attributes_of(alloc: Global, given: &Given<'_>) -> Result<Attributes, Refusal>
    ensures { let given = given_texts given.now in
        ReadsAsking (attributes_ask given) result (attributes_of given) }
{
    let numbers = named_numbers(given)?;
    let redrive = policy_if::<RedrivePolicy>(alloc, given.redrive)?;
    let allow = policy_if::<AllowPolicy>(alloc, given.allow)?;
    Ok(Attributes {
        redrive,
        allow,
        ..numbers
    })
}
