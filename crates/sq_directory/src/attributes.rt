//! What attributes make of a queue, and which it may have.
ghost use Rattle.std.specs.Prelude.{◌≡◌, option_map};
ghost use Rattle.sq_model.specs.Policies.{agrees_allow, agrees_redrive, permits};
ghost use Rattle.sq_model.specs.Directories.{number_named, is_or_none, agrees, may_have, may_target, redrive_to, plain_queue, with_attributes};

use crate::stored::{NamedQueues, given_settings};
use sq_base::ids::QueueNo;
use sq_base::name::QueueName;
use sq_base::ranges::Within;
use sq_base::settings::{Redrive, Settings};
use sq_model::directory::{Attributes, Queue};
use sq_model::policy::{AllowPolicy, RedrivePolicy};
use sq_policy::policy::permits;

/// The number of the queue of a name.
pub fn number_named(queues: &NamedQueues, name: &QueueName) -> Option<QueueNo>
    ensures { result ≡ number_named name.now queues.now.queues }
{
    let queue = queues.get(name)?;
    Some(queue.number)
}

/// A queue of this number with these attributes, and defaults for the others.
pub fn new_queue(
    queues: &NamedQueues,
    number: QueueNo,
    name: &QueueName,
    attributes: Attributes,
) -> Queue
    ensures { result ≡ with_attributes queues.now.queues attributes (plain_queue number name.now) }
{
    let redrive = given_redrive(queues, &attributes.redrive);
    let settings = given_settings(&Settings::standard(), &attributes, &redrive);
    Queue {
        number,
        name: *name,
        settings,
        redrive: attributes.redrive.unwrap_or(None),
        allow: attributes.allow.unwrap_or(None),
        version: 1,
        last_purge: None,
    }
}

/// What homes go by of a redrive policy that is given, or given as none.
pub fn given_redrive(
    queues: &NamedQueues,
    given: &Option<Option<RedrivePolicy>>,
) -> Option<Option<Redrive>>
    ensures { result ≡ option_map (redrive_to queues.now.queues) given.now }
{
    match given {
        Some(policy) => Some(redrive_to(queues, policy)),
        None => None,
    }
}

fn redrive_to(queues: &NamedQueues, policy: &Option<RedrivePolicy>) -> Option<Redrive>
    ensures { result ≡ redrive_to queues.now.queues policy.now }
{
    let policy = policy.as_ref()?;
    let target = number_named(queues, &policy.target)?;
    Some(Redrive {
        target,
        max_receives: policy.max_receives,
    })
}

/// Whether a queue of this name may have the redrive policy that is given, if any is.
pub fn may_have(
    queues: &NamedQueues,
    name: &QueueName,
    given: &Option<Option<RedrivePolicy>>,
) -> bool
    ensures { result ≡ may_have queues.now.queues name.now given.now }
{
    match given {
        Some(Some(policy)) => may_target(queues, name, policy),
        _ => true,
    }
}

// Whether the target is there, is another queue, and permits it.
fn may_target(queues: &NamedQueues, name: &QueueName, policy: &RedrivePolicy) -> bool
    ensures { result ≡ may_target queues.now.queues name.now policy.now }
{
    if policy.target.as_bytes() == name.as_bytes() {
        return false;
    }
    match queues.get(&policy.target) {
        Some(target) => is_permitted(&target.allow, name),
        None => false,
    }
}

// Whether a queue with this policy may be chosen by one of this name.
fn is_permitted(allow: &Option<AllowPolicy>, name: &QueueName) -> bool
    ensures { result ≡ permits allow.now name.now }
{
    match allow {
        Some(policy) => permits(policy, name),
        None => true,
    }
}

fn is_or_none<const LEAST: u32, const GREATEST: u32>(
    asked: Option<Within<LEAST, GREATEST>>,
    number: Within<LEAST, GREATEST>,
) -> bool
    ensures { result ≡ is_or_none asked.entry number.entry }
{
    match asked {
        Some(asked) => asked == number,
        None => true,
    }
}

/// Whether each attribute that is given is the queue's.
pub fn agrees(attributes: &Attributes, queue: &Queue) -> bool
    ensures { result ≡ agrees attributes.now queue.now }
{
    is_or_none(attributes.delay, queue.settings.delay)
        && is_or_none(attributes.retention, queue.settings.retention)
        && is_or_none(attributes.wait_time, queue.settings.wait_time)
        && is_or_none(attributes.timeout, queue.settings.timeout)
        && agrees_redrive(&attributes.redrive, &queue.redrive)
        && agrees_allow(&attributes.allow, &queue.allow)
}

fn agrees_redrive(given: &Option<Option<RedrivePolicy>>, policy: &Option<RedrivePolicy>) -> bool
    ensures { result ≡ agrees_redrive given.now policy.now }
{
    match given {
        Some(given) => *given == *policy,
        None => true,
    }
}

fn agrees_allow(given: &Option<Option<AllowPolicy>>, policy: &Option<AllowPolicy>) -> bool
    ensures { result ≡ agrees_allow given.now policy.now }
{
    match given {
        Some(given) => given == policy,
        None => true,
    }
}
