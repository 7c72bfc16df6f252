//! The texts of queue policies.
ghost use Rattle.std.specs.Prelude.{◌≡◌, ◌≢◌, [], true, map, option_map, option_and_then, is_some, Ok, Some, IfOk, IfErr, OnOk, string_bytes};
ghost use Rattle.std.specs.List.{list_any, list_all};
ghost use Rattle.std.specs.Str.{bytes_eq};
ghost use Rattle.serde_json.specs.Find.{as_array};
ghost use Rattle.serde_json.specs.View as tree;
ghost use Rattle.serde_json.specs.Written.{compact_text};
ghost use Rattle.sq_base.specs.Names.{is_name};
ghost use Rattle.sq_base.specs.declared.refusal.Refusal.TheVariants.{NoMemory};
ghost use Rattle.sq_json.specs.View.{view};
ghost use Rattle.sq_model.specs.Policies as policies;
ghost use Rattle.sq_model.specs.declared.policy.AllowPolicy.TheVariants.{ByQueue};
ghost use Rattle.sq_policy.specs.Reading.{seen_as, Reads, ReadsText};
ghost use Rattle.sq_policy.specs.PolicyTexts.{valid, arn_in, target_in, receives_in, redrive_in, arn_names, sources_in, permission_in, allow_unlisted, allow_listed, allow_in, data_of, redrive_of, allow_of, arn_data, redrive_data, sources_data, allow_data};

use crate::amount::{attribute_of, in_range};
use crate::arn::{arn_of, queue_of_arn};
use serde_json::json;
use sq_base::name::QueueName;
use sq_base::ranges::MaxReceives;
use sq_base::refusal::Refusal;
use sq_json::Scratch;
use sq_json::line::{Fault, Line};
use sq_json::value::Value;
use sq_model::listed::Listed;
use sq_model::policy::{AllowPolicy, RedrivePolicy, SourceNames};
use std::alloc::{AllocError, Global};

// The value of a text that is not empty.
#[tactic(auto, unfolding(crate::specs::PolicyTexts::data_of))]
fn value_of<'a>(
    alloc: Global,
    scratch: &'a mut Scratch,
    text: &'a str,
) -> Result<Option<Line<'a>>, Refusal>
    ensures { ReadsText (seen_as (λ l. option_map view l) result) text.now data_of }
{
    if text.is_empty() {
        return Ok(None);
    }
    match Line::of_text(alloc, scratch, text) {
        Ok(line) => Ok(Some(line)),
        Err(Fault::Memory) => Err(Refusal::NoMemory),
        Err(Fault::Invalid) => Err(Refusal::InvalidAttributeValue),
    }
}

// The queue of an ARN.
fn arn_in(value: &Value<'_, '_>) -> Result<QueueName, Refusal>
    ensures { result ≡ valid (arn_in (view value.now)) }
{
    match value.as_str() {
        Some(text) => queue_of_arn(text).ok_or(Refusal::InvalidAttributeValue),
        None => Err(Refusal::InvalidAttributeValue),
    }
}

#[tactic(auto, unfolding(crate::specs::PolicyTexts::target_in))]
fn target_in(value: &Value<'_, '_>) -> Result<QueueName, Refusal>
    ensures { result ≡ target_in (view value.now) }
{
    match value.get("deadLetterTargetArn") {
        Some(target) => arn_in(&target),
        None => Err(Refusal::InvalidAttributeValue),
    }
}

#[tactic(auto, unfolding(crate::specs::PolicyTexts::receives_in))]
fn receives_in(value: &Value<'_, '_>) -> Result<MaxReceives, Refusal>
    ensures { result ≡ receives_in (view value.now) }
{
    let Some(count) = value.get("maxReceiveCount") else {
        return Err(Refusal::InvalidAttributeValue);
    };
    match attribute_of(&count) {
        Ok(amount) => in_range(amount, Refusal::InvalidAttributeValue),
        Err(_) => Err(Refusal::InvalidAttributeValue),
    }
}

#[tactic(auto, unfolding(crate::specs::PolicyTexts::redrive_in))]
fn redrive_in(value: &Value<'_, '_>) -> Result<RedrivePolicy, Refusal>
    ensures { result ≡ redrive_in (view value.now) }
{
    let target = target_in(value)?;
    let max_receives = receives_in(value)?;
    Ok(RedrivePolicy {
        target,
        max_receives,
    })
}

/// The redrive policy that a text sets (SQS API Reference, CreateQueue: RedrivePolicy); an empty text unsets it.
/// InvalidAttributeValue where it is no JSON object with an ARN as `deadLetterTargetArn` and a whole number from 1 to
/// 1000, or its digits, as `maxReceiveCount`; NoMemory where memory is out, and so of no empty text.
#[tactic(auto, unfolding(crate::specs::PolicyTexts::redrive_of))]
pub fn read_redrive(alloc: Global, text: &str) -> Result<Option<RedrivePolicy>, Refusal>
    ensures { ReadsText result text.now redrive_of }
{
    let mut scratch = Scratch::new(alloc);
    match value_of(alloc, &mut scratch, text)? {
        Some(line) => Ok(Some(redrive_in(&line.root())?)),
        None => Ok(None),
    }
}

fn is_arn(value: &Value<'_, '_>) -> bool
    ensures { result ≡ is_some (arn_in (view value.now)) }
{
    match value.as_str() {
        Some(text) => queue_of_arn(text).is_some(),
        None => false,
    }
}

// Whether a value is a list of ARNs.
fn are_arns(value: &Value<'_, '_>) -> bool
    ensures { result ≡ is_some (option_and_then arn_names (as_array (view value.now))) }
{
    let Some(mut arns) = value.items() else {
        return false;
    };
    'arns: while let Some(arn) = arns.next() {
        if !is_arn(&arn) {
            return false;
        }
    }
    true
}

// The queues of a list of ARNs, in its order.
fn arn_names(alloc: Global, value: &Value<'_, '_>) -> Result<Listed<QueueName>, Refusal>
    ensures names { Reads result (valid (option_and_then arn_names (as_array (view value.now)))) }
    ensures err { IfErr result (λ e. e ≡ NoMemory → option_and_then arn_names (as_array (view value.now)) ≢ Some []) }
{
    if !are_arns(value) {
        return Err(Refusal::InvalidAttributeValue);
    }
    let Some(mut arns) = value.items() else {
        return Err(Refusal::InvalidAttributeValue);
    };
    let mut names = Listed::new(alloc);
    'arns: while let Some(arn) = arns.next() {
        names.push(arn_in(&arn)?)?;
    }
    Ok(names)
}

// The queues of a member that is a list of 1 to 10 ARNs.
#[tactic(auto, unfolding(crate::specs::PolicyTexts::sources_in))]
fn sources_in(alloc: Global, value: &Value<'_, '_>) -> Result<SourceNames, Refusal>
    ensures { Reads result (sources_in (view value.now)) }
{
    // Before memory is taken for more names than may be kept.
    if value.at(10).is_some() {
        return Err(Refusal::InvalidAttributeValue);
    }
    let names = arn_names(alloc, value)?;
    SourceNames::new(names).ok_or(Refusal::InvalidAttributeValue)
}

#[tactic(auto, unfolding(crate::specs::PolicyTexts::permission_in))]
fn permission_in<'a>(value: &Value<'_, 'a>) -> Result<&'a str, Refusal>
    ensures { seen_as (λ t. t.now) result ≡ permission_in (view value.now) }
{
    match value.get("redrivePermission") {
        Some(member) => member.as_str().ok_or(Refusal::InvalidAttributeValue),
        None => Err(Refusal::InvalidAttributeValue),
    }
}

#[tactic(auto, unfolding(crate::specs::PolicyTexts::allow_unlisted))]
fn allow_unlisted(permission: &str) -> Result<AllowPolicy, Refusal>
    ensures { result ≡ allow_unlisted permission.now }
{
    match permission {
        "allowAll" => Ok(AllowPolicy::AllowAll),
        "denyAll" => Ok(AllowPolicy::DenyAll),
        _ => Err(Refusal::InvalidAttributeValue),
    }
}

#[tactic(auto, unfolding(crate::specs::PolicyTexts::allow_listed))]
fn allow_listed(
    alloc: Global,
    permission: &str,
    list: &Value<'_, '_>,
) -> Result<AllowPolicy, Refusal>
    ensures { Reads result (allow_listed permission.now (view list.now)) }
{
    if permission != "byQueue" {
        return Err(Refusal::InvalidAttributeValue);
    }
    Ok(AllowPolicy::ByQueue(sources_in(alloc, list)?))
}

#[tactic(auto, unfolding(crate::specs::PolicyTexts::allow_in))]
fn allow_in(alloc: Global, value: &Value<'_, '_>) -> Result<AllowPolicy, Refusal>
    ensures { Reads result (allow_in (view value.now)) }
{
    let permission = permission_in(value)?;
    match value.get("sourceQueueArns") {
        None => allow_unlisted(permission),
        Some(list) => allow_listed(alloc, permission, &list),
    }
}

/// The redrive allow policy that a text sets (SQS API Reference, CreateQueue: RedriveAllowPolicy); an empty text
/// unsets it. InvalidAttributeValue where it is no JSON object with `allowAll`, `denyAll` or `byQueue` as
/// `redrivePermission`, and with `byQueue` alone a list of 1 to 10 ARNs as `sourceQueueArns`; NoMemory where memory is
/// out, and so of no empty text. The queues need not exist; they stay in their order, each as often as it is listed.
#[tactic(auto, unfolding(crate::specs::PolicyTexts::allow_of))]
pub fn read_allow(alloc: Global, text: &str) -> Result<Option<AllowPolicy>, Refusal>
    ensures { ReadsText result text.now allow_of }
{
    let mut scratch = Scratch::new(alloc);
    match value_of(alloc, &mut scratch, text)? {
        Some(line) => Ok(Some(allow_in(alloc, &line.root())?)),
        None => Ok(None),
    }
}

fn redrive_value(alloc: Global, policy: &RedrivePolicy) -> Result<serde_json::Value, AllocError>
    ensures data { IfOk result (λ v. tree.view v ≡ redrive_data policy.now) }
    ensures reads { OnOk result (redrive_in (redrive_data policy.now) ≡ Ok policy.now) }
{
    let target = arn_of(alloc, &policy.target)?;
    let receives = policy.max_receives.get();
    json!(in alloc; {"deadLetterTargetArn": target, "maxReceiveCount": receives})
}

/// The text of a redrive policy, which is read as the same policy (SQS API Reference, GetQueueAttributes:
/// RedrivePolicy). An error only where memory is out.
pub fn redrive_text(alloc: Global, policy: &RedrivePolicy) -> Result<String, AllocError>
    ensures text { IfOk result (λ s. string_bytes s ≡ compact_text (redrive_data policy.now)) }
    ensures reads_back { IfOk result (λ s. redrive_of (string_bytes s) ≡ Ok (Some policy.now)) }
{
    redrive_value(alloc, policy)?.to_string(alloc)
}

// The ARNs of names, in their order.
fn arns_of(alloc: Global, names: &[QueueName]) -> Result<Vec<serde_json::Value>, AllocError>
    ensures arns { IfOk result (λ arns. map tree.view arns.items ≡ map arn_data names.now) }
    ensures names { OnOk result (list_all is_name names.now ≡ true) }
{
    let mut arns = Vec::new(alloc);
    for name in names {
        arns.push(serde_json::Value::String(arn_of(alloc, name)?))?;
    }
    Ok(arns)
}

fn sources_value(alloc: Global, names: &SourceNames) -> Result<serde_json::Value, AllocError>
    ensures data { IfOk result (λ v. tree.view v ≡ sources_data names.now) }
    ensures reads { OnOk result (allow_in (sources_data names.now) ≡ Ok (ByQueue names.now)) }
{
    let arns = arns_of(alloc, names.as_slice())?;
    json!(in alloc; {"redrivePermission": "byQueue", "sourceQueueArns": serde_json::Value::Array(arns)})
}

fn allow_value(alloc: Global, policy: &AllowPolicy) -> Result<serde_json::Value, AllocError>
    ensures data { IfOk result (λ v. tree.view v ≡ allow_data policy.now) }
    ensures reads { OnOk result (allow_in (allow_data policy.now) ≡ Ok policy.now) }
{
    match policy {
        AllowPolicy::AllowAll => json!(in alloc; {"redrivePermission": "allowAll"}),
        AllowPolicy::DenyAll => json!(in alloc; {"redrivePermission": "denyAll"}),
        AllowPolicy::ByQueue(names) => sources_value(alloc, names),
    }
}

/// The text of a redrive allow policy, which is read as the same policy (SQS API Reference, GetQueueAttributes:
/// RedriveAllowPolicy). An error only where memory is out.
pub fn allow_text(alloc: Global, policy: &AllowPolicy) -> Result<String, AllocError>
    ensures text { IfOk result (λ s. string_bytes s ≡ compact_text (allow_data policy.now)) }
    ensures reads_back { IfOk result (λ s. allow_of (string_bytes s) ≡ Ok (Some policy.now)) }
{
    allow_value(alloc, policy)?.to_string(alloc)
}

/// Whether a queue of this name may choose one with this policy for its dead letters (SQS API Reference, CreateQueue:
/// RedriveAllowPolicy).
pub fn permits(policy: &AllowPolicy, name: &QueueName) -> bool
    ensures { result ≡ policies.permits (Some policy.now) name.now }
{
    match policy {
        AllowPolicy::AllowAll => true,
        AllowPolicy::DenyAll => false,
        AllowPolicy::ByQueue(names) => has_name(names.as_slice(), name),
    }
}

fn has_name(names: &[QueueName], name: &QueueName) -> bool
    ensures { result ≡ list_any (λ source. bytes_eq source name.now) names.now }
{
    names
        .iter()
        .any(|source| source.as_bytes() == name.as_bytes())
}
