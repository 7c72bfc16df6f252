//! Queues as replies show them: by their URLs.
ghost use Rattle.std.specs.Prelude.{◌≡◌, map, IfOk, string_bytes};
ghost use Rattle.serde_json.specs.Data.{string};
ghost use Rattle.sq_replies.specs.Replies.{queue_url, queue_data, queues_data};
ghost use Rattle.sq_replies.specs.inside.Told.{Adds, tokens_of, all_tokens};

use crate::writing::{Writer, begin_list, end_list, write_only_text};
use sq_base::name::QueueName;
use std::alloc::{AllocError, Global};

/// The URL of a queue as an answer (SQS API Reference, CreateQueue and GetQueueUrl).
pub(crate) fn write_queue(out: &mut Writer, name: &QueueName) -> Result<(), AllocError>
    ensures { Adds result out.old out.new (tokens_of (queue_data name.now)) }
{
    let url = queue_url(out.alloc(), name)?;
    write_only_text(out, "QueueUrl", url.as_str())
}

/// The URLs of queues under a name, in the order of the queues.
pub(crate) fn write_queues(
    out: &mut Writer,
    name: &str,
    queues: &[QueueName],
) -> Result<(), AllocError>
    ensures { Adds result out.old out.new (tokens_of (queues_data name.now queues.now)) }
{
    begin_list(out, name)?;
    write_urls(out, queues)?;
    end_list(out)
}

#[tactic(auto, using(crate::proofs::TellLaws::urls_grow))]
fn write_urls(out: &mut Writer, names: &[QueueName]) -> Result<(), AllocError>
    ensures { Adds result out.old out.new (all_tokens (map (λ name. string (queue_url name)) names.now)) }
{
    for name in names {
        let url = queue_url(out.alloc(), name)?;
        out.string(url.as_str())?;
    }
    Ok(())
}

fn queue_url(alloc: Global, name: &QueueName) -> Result<String, AllocError>
    ensures { IfOk result (λ text. string_bytes text ≡ queue_url name.now) }
{
    let mut url = String::from_str(alloc, "http://localhost/000000000000/")?;
    url.push_str(name.as_str())?;
    Ok(url)
}
