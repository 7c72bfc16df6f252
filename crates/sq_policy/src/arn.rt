//! ARNs of queues. Own: `arn:aws:sqs:local:000000000000:` and the queue's name.
ghost use Rattle.std.specs.Prelude.{◌≡◌, ℕ, List, true, Some, IfOk, ok_or, string_bytes};
ghost use Rattle.sq_base.specs.Names.{is_name};
ghost use Rattle.sq_base.specs.declared.refusal.Refusal.TheVariants.{InvalidAddress};
ghost use Rattle.sq_policy.specs.PolicyTexts.{arn_name, arn_text, name_behind};

use sq_base::name::QueueName;
use sq_base::refusal::Refusal;
use std::alloc::{AllocError, Global};

/// What a queue's ARN begins with, before its name.
const ARN_START: &str = "arn:aws:sqs:local:000000000000:";

/// The queue whose name stands behind a fixed text.
#[tactic(auto, unfolding(crate::specs::PolicyTexts::name_behind))]
pub fn name_behind(front: &str, text: &str) -> Option<QueueName>
    ensures { result ≡ name_behind front.now text.now }
{
    let (front, bytes) = (front.as_bytes(), text.as_bytes());
    if bytes.len() < front.len() {
        return None;
    }
    let (start, name) = bytes.split_at(front.len());
    if start == front {
        QueueName::new(name)
    } else {
        None
    }
}

/// The queue that an ARN names, where the text is an ARN.
#[tactic(auto, unfolding(crate::specs::PolicyTexts::arn_name))]
pub fn queue_of_arn(text: &str) -> Option<QueueName>
    ensures { result ≡ arn_name text.now }
{
    name_behind(ARN_START, text)
}

/// The queue that an ARN names (SQS API Reference, StartMessageMoveTask: SourceArn); InvalidAddress where the text is
/// no ARN. The queue need not exist.
pub fn read_arn(text: &str) -> Result<QueueName, Refusal>
    ensures { result ≡ ok_or (arn_name text.now) InvalidAddress }
{
    queue_of_arn(text).ok_or(Refusal::InvalidAddress)
}

/// The ARN of a queue, which is read back as the queue's name (SQS API Reference, GetQueueAttributes: QueueArn).
/// An error only where memory is out.
#[tactic(auto, unfolding(crate::specs::PolicyTexts::arn_text))]
pub fn arn_of(alloc: Global, name: &QueueName) -> Result<String, AllocError>
    ensures text { IfOk result (λ s. string_bytes s ≡ arn_text name.now) }
    ensures reads_back { IfOk result (λ s. arn_name (string_bytes s) ≡ Some name.now) }
{
    let length = ARN_START.len() + name.as_bytes().len();
    let mut text = String::with_capacity(alloc, length)?;
    text.push_str(ARN_START)?;
    text.push_str(name.as_str())?;
    Ok(text)
}

/// Each queue has one ARN, and each ARN names one queue. It does nothing: its contract is the law.
pub fn arns_are_one_to_one()
    ensures of_names { (name : List ℕ) → is_name name ≡ true → arn_name (arn_text name) ≡ Some name }
    ensures of_texts { (text name : List ℕ) → arn_name text ≡ Some name → (is_name name ≡ true) × (text ≡ arn_text name) }
{}
