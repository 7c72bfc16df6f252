//! One run of the whole system.
ghost use Rattle.std.specs.Prelude.{◌≡◌, ◌<◌, length, slice_get, option_map, option_to_list, IfOk, IfErr};
ghost use Rattle.std.specs.List.{list_any};
ghost use Rattle.sq_model.specs.Places.{run_sends, tag_sends};
ghost use Rattle.sq_audit.specs.RunLineages.{AreLineages, has_some};
ghost use Rattle.sq_audit.specs.Tags.{tag_of, tags_of};

use crate::tagged::Tagged;
use sq_base::message_id::MessageId;
use sq_base::refusal::Refusal;
use sq_model::replies::HomeReply;
use std::alloc::Global;
use std::collections::BTreeSet;
use std::marker::Model;

/// One run of the whole system: all its events, in the order of their stamps.
#[derive(Drop)]
pub struct Run<'a> {
    events: Vec<Tagged<'a>>,
}

impl<'a> Model for Run<'a> {
    ghost use Rattle.std.specs.Prelude.{List};
    ghost use Rattle.sq_model.specs.Systems.{Tag};
    ghost use Rattle.sq_audit.specs.Tags.{tags_of};

    ghost Value = { List Tag };

    ghost view = { λ r. tags_of r.events.items };
}

impl<'a> Run<'a> {
    pub(crate) fn of(events: Vec<Tagged<'a>>) -> Run<'a>
        ensures { result ≡ tags_of events.entry.items }
    {
        Run { events }
    }

    /// How many events it has.
    pub fn len(&self) -> usize
        ensures { result ≡ length self.now }
    {
        self.events.len()
    }

    /// The event at an index, from 0 upwards; none past the last.
    pub fn event(&self, at: usize) -> Option<Tagged<'a>>
        ensures { option_map tag_of result ≡ slice_get self.now at }
    {
        self.events.get(at).copied()
    }

    /// All its events, the first first.
    pub fn events(&self) -> &[Tagged<'a>]
        ensures { tags_of result.now ≡ self.now }
    {
        self.events.as_slice()
    }

    /// Whether a message was sent in it.
    pub fn has_sent(&self) -> bool
        ensures { result ≡ has_some (run_sends self.now) }
    {
        let events = self.events();
        has_send(events)
    }

    /// The messages that were sent in it, each once, in rising order of id. Refused as NoMemory, where there are any.
    pub fn lineages(&self, alloc: Global) -> Result<Vec<MessageId>, Refusal>
        ensures lineages { IfOk result (λ ids. AreLineages self.now ids.items) }
        ensures err { IfErr result (λ e. (e ≡ Refusal.NoMemory) × (0 < length (run_sends self.now))) }
    {
        if !self.has_sent() {
            return Ok(Vec::new(alloc));
        }
        let sends = self.sends(alloc)?;
        let ids: BTreeSet<MessageId> = sends.into_iter().collect(alloc)?;
        Ok(ids.into_iter().collect(alloc)?)
    }

    // The messages that were sent, in the order of their sends.
    fn sends(&self, alloc: Global) -> Result<Vec<MessageId>, Refusal>
        ensures sends { IfOk result (λ sends. sends.items ≡ run_sends self.now) }
        ensures err { IfErr result (λ e. e ≡ Refusal.NoMemory) }
    {
        let mut sends = Vec::new(alloc);
        let events = self.events();
        for event in events {
            if let Some(id) = sent_by(event) {
                sends.push(id)?;
            }
        }
        Ok(sends)
    }
}

fn has_send(events: &[Tagged<'_>]) -> bool
    ensures { result ≡ list_any (λ t. has_some (tag_sends (tag_of t))) events.now }
{
    events.iter().any(|event| is_send(event))
}

fn is_send(event: &Tagged<'_>) -> bool
    ensures { result ≡ has_some (tag_sends (tag_of event.now)) }
{
    sent_by(event).is_some()
}

// The message that an event sends.
fn sent_by(event: &Tagged<'_>) -> Option<MessageId>
    ensures { option_to_list result ≡ tag_sends (tag_of event.now) }
{
    match event {
        Tagged::Home(_, event) => match &event.reply {
            HomeReply::Sent(message) => Some(message.id),
            _ => None,
        },
        Tagged::Directory(_) | Tagged::Ledger(_) => None,
    }
}
