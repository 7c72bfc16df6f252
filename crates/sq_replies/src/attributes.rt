//! The attributes of a queue as a reply shows them.
ghost use Rattle.std.specs.Prelude.{◌≡◌, codes, if◌then◌else◌, None, option_map, IfOk, string_bytes};
ghost use Rattle.serde_json.specs.Data.{Data};
ghost use Rattle.serde_json.specs.Written.{compact_text};
ghost use Rattle.sq_policy.specs.PolicyTexts.{arn_text, redrive_data, allow_data};
ghost use Rattle.sq_replies.specs.Replies.{if_asked, shown_data, shown_texts};
ghost use Rattle.sq_replies.specs.inside.Told.{Adds, tokens_of, text_tokens, texts_tokens};

use crate::writing::{Writer, begin_member, write_count_if, write_text};
use sq_base::name::QueueName;
use sq_calls::calls::ShownAttributes;
use sq_model::policy::{AllowPolicy, RedrivePolicy};
use sq_policy::arn::arn_of;
use sq_policy::policy::{allow_text, redrive_text};
use std::alloc::{AllocError, Global};

/// The attributes that are asked for (SQS API Reference, GetQueueAttributes).
pub(crate) fn write_shown(out: &mut Writer, shown: &ShownAttributes) -> Result<(), AllocError>
    ensures { Adds result out.old out.new (tokens_of (shown_data shown.now)) }
{
    out.begin_object()?;
    begin_member(out, "Attributes")?;
    write_members(out, shown)?;
    out.end_object()?;
    out.end_object()
}

// Those that are asked for, in the order of their names.
fn write_members(out: &mut Writer, shown: &ShownAttributes) -> Result<(), AllocError>
    ensures { Adds result out.old out.new (texts_tokens (shown_texts shown.now)) }
{
    let asked = &shown.asked;
    let settings = &shown.attributes.settings;
    let delay = settings.delay.get() as u64;
    let retention = settings.retention.get() as u64;
    let wait_time = settings.wait_time.get() as u64;
    let timeout = settings.timeout.get() as u64;
    let (allow, redrive) = (&shown.attributes.allow, &shown.attributes.redrive);
    let counts = &shown.counts;
    write_count_if(
        out,
        "ApproximateNumberOfMessages",
        asked.visible,
        counts.visible,
    )?;
    write_count_if(
        out,
        "ApproximateNumberOfMessagesDelayed",
        asked.delayed,
        counts.delayed,
    )?;
    write_count_if(
        out,
        "ApproximateNumberOfMessagesNotVisible",
        asked.in_flight,
        counts.in_flight,
    )?;
    write_count_if(out, "DelaySeconds", asked.delay, delay)?;
    write_count_if(out, "MessageRetentionPeriod", asked.retention, retention)?;
    write_arn_if(out, asked.arn, &shown.queue)?;
    write_count_if(
        out,
        "ReceiveMessageWaitTimeSeconds",
        asked.wait_time,
        wait_time,
    )?;
    write_policy_if(out, "RedriveAllowPolicy", asked.allow, allow)?;
    write_policy_if(out, "RedrivePolicy", asked.redrive, redrive)?;
    write_count_if(out, "VisibilityTimeout", asked.timeout, timeout)
}

fn write_arn_if(out: &mut Writer, asked: bool, queue: &QueueName) -> Result<(), AllocError>
    ensures { Adds result out.old out.new (text_tokens (codes "QueueArn") (if_asked asked (arn_text queue.now))) }
{
    if asked {
        let arn = arn_of(out.alloc(), queue)?;
        return write_text(out, "QueueArn", arn.as_str());
    }
    Ok(())
}

// A policy of a queue, whose text is JSON.
trait Policy {
    ghost written: { Self → Data };

    fn text(&self, alloc: Global) -> Result<String, AllocError>
        ensures { IfOk result (λ s. string_bytes s ≡ compact_text (written self.now)) };
}

impl Policy for AllowPolicy {
    ghost written = { allow_data };

    fn text(&self, alloc: Global) -> Result<String, AllocError> {
        allow_text(alloc, self)
    }
}

impl Policy for RedrivePolicy {
    ghost written = { redrive_data };

    fn text(&self, alloc: Global) -> Result<String, AllocError> {
        redrive_text(alloc, self)
    }
}

fn write_policy_if<P: Policy>(
    out: &mut Writer,
    name: &str,
    asked: bool,
    policy: &Option<P>,
) -> Result<(), AllocError>
    ensures { Adds result out.old out.new
        (text_tokens name.now (if asked then option_map (λ p. compact_text (P.written p)) policy.now else None)) }
{
    match policy {
        Some(policy) if asked => {
            let text = policy.text(out.alloc())?;
            write_text(out, name, text.as_str())
        }
        _ => Ok(()),
    }
}
