//! Copies of what the directory is asked, and of what it answers.
ghost use Rattle.std.specs.Prelude.{◌≡◌, true, IfOk, IfErr};
ghost use Rattle.sq_model.specs.Policies.{lists_queues};
ghost use Rattle.sq_directory.specs.DirectoryHistories.{gives_list};
ghost use Rattle.sq_directory.specs.inside.Prepared.{IsListing};

use sq_base::refusal::Refusal;
use sq_model::directory::{DirectoryCall, DirectoryReply, QueueAttributes};
use sq_model::policy::AllowPolicy;
use std::alloc::Global;

/// The same policy. Refused as NoMemory, where it lists queues.
pub fn copy_allow(
    alloc: Global,
    allow: &Option<AllowPolicy>,
) -> Result<Option<AllowPolicy>, Refusal>
    ensures copy { IfOk result (λ copy. copy ≡ allow.now) }
    ensures err { IfErr result (λ e. (e ≡ Refusal.NoMemory) × (lists_queues allow.now ≡ true)) }
{
    match allow {
        Some(policy) => Ok(Some(policy.copy(alloc)?)),
        None => Ok(None),
    }
}

/// The same call. Refused as NoMemory, where its attributes list queues.
pub fn copy_call(alloc: Global, call: &DirectoryCall) -> Result<DirectoryCall, Refusal>
    ensures copy { IfOk result (λ copy. copy ≡ call.now) }
    ensures err { IfErr result (λ e. (e ≡ Refusal.NoMemory) × (gives_list call.now ≡ true)) }
{
    Ok(match call {
        DirectoryCall::Create(name, given) => DirectoryCall::Create(*name, given.copy(alloc)?),
        DirectoryCall::Set(name, given) => DirectoryCall::Set(*name, given.copy(alloc)?),
        DirectoryCall::Remove(name) => DirectoryCall::Remove(*name),
        DirectoryCall::PurgeTicket(name) => DirectoryCall::PurgeTicket(*name),
        DirectoryCall::Url(name) => DirectoryCall::Url(*name),
        DirectoryCall::List(prefix) => DirectoryCall::List(*prefix),
        DirectoryCall::Sources(name) => DirectoryCall::Sources(*name),
        DirectoryCall::Read(name) => DirectoryCall::Read(*name),
    })
}

/// The same reply. Refused as NoMemory, where it lists queues, or shows a policy that does.
pub fn copy_reply(alloc: Global, reply: &DirectoryReply) -> Result<DirectoryReply, Refusal>
    ensures copy { IfOk result (λ copy. copy ≡ reply.now) }
    ensures err { IfErr result (λ e. (e ≡ Refusal.NoMemory) × IsListing reply.now) }
{
    Ok(match reply {
        DirectoryReply::Made(made) => DirectoryReply::Made(*made),
        DirectoryReply::Changed(changed) => DirectoryReply::Changed(*changed),
        DirectoryReply::Removed(number) => DirectoryReply::Removed(*number),
        DirectoryReply::Ticket(number) => DirectoryReply::Ticket(*number),
        DirectoryReply::Found(number) => DirectoryReply::Found(*number),
        DirectoryReply::Listed(names) => DirectoryReply::Listed(names.copy(alloc)?),
        DirectoryReply::Sources(names) => DirectoryReply::Sources(names.copy(alloc)?),
        DirectoryReply::Read(attributes) => {
            DirectoryReply::Read(copy_attributes(alloc, attributes)?)
        }
    })
}

fn copy_attributes(alloc: Global, attributes: &QueueAttributes) -> Result<QueueAttributes, Refusal>
    ensures copy { IfOk result (λ copy. copy ≡ attributes.now) }
    ensures err { IfErr result (λ e. (e ≡ Refusal.NoMemory) × (lists_queues attributes.now.allow ≡ true)) }
{
    Ok(QueueAttributes {
        allow: copy_allow(alloc, &attributes.allow)?,
        ..*attributes
    })
}
