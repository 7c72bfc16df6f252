//! What is known of a call before its moment, with the memory that it takes.
ghost use Rattle.std.specs.Prelude.{◌≡◌, IfOk, IfErr};
ghost use Rattle.sq_directory.specs.inside.Prepared.{IsListing, short_reply};

use crate::copies::copy_reply;
use sq_base::ids::QueueNo;
use sq_base::refusal::Refusal;
use sq_model::directory::{Attributes, DirectoryReply, QueueSettings};
use std::alloc::Global;
use std::marker::Model;

/// What a call does, as far as its moment does not decide it.
#[derive(Drop)]
pub enum Prepared {
    /// It is answered so, and changes nothing.
    Answered(ThreeReplies),
    /// It is refused so.
    Refused(Refusal),
    /// It may change the queues. One of them is to have these attributes from then on, where the call gives any.
    Changes(Option<Attributes>),
}

/// A reply that holds so little that each who has it has a copy.
#[derive(Clone, Copy)]
pub enum ShortReply {
    Made(QueueSettings),
    Changed(QueueSettings),
    Removed(QueueNo),
    Ticket(QueueNo),
    Found(QueueNo),
}

impl ShortReply {
    fn reply(&self) -> DirectoryReply
        ensures { result ≡ short_reply self.now }
    {
        match self {
            ShortReply::Made(made) => DirectoryReply::Made(*made),
            ShortReply::Changed(changed) => DirectoryReply::Changed(*changed),
            ShortReply::Removed(number) => DirectoryReply::Removed(*number),
            ShortReply::Ticket(number) => DirectoryReply::Ticket(*number),
            ShortReply::Found(number) => DirectoryReply::Found(*number),
        }
    }
}

/// A reply three times: for the event, for its record, and for who asked.
#[derive(Drop)]
pub struct ThreeReplies {
    pub(crate) kept: DirectoryReply,
    pub(crate) for_record: DirectoryReply,
    pub(crate) answered: DirectoryReply,
}

impl Model for ThreeReplies {
    ghost use Rattle.std.specs.Prelude.{◌≡◌};
    ghost use Rattle.sq_model.specs.declared.directory.DirectoryReply.{DirectoryReply};

    ghost Value = { DirectoryReply };

    ghost view = { λ r. r.answered };

    ghost invariant = { λ r. (r.kept ≡ r.answered) × (r.for_record ≡ r.answered) };
}

impl ThreeReplies {
    /// Of a reply that takes no memory.
    pub fn of(told: ShortReply) -> ThreeReplies
        ensures { result ≡ short_reply told }
    {
        // Each copy has a name, so that the proof can say of each that it is the same.
        let kept = told.reply();
        let for_record = told.reply();
        let answered = told.reply();
        ThreeReplies {
            kept,
            for_record,
            answered,
        }
    }

    /// Of any reply. Refused as NoMemory, where it lists queues, or shows a policy that does.
    pub fn copied(alloc: Global, answered: DirectoryReply) -> Result<ThreeReplies, Refusal>
        ensures replies { IfOk result (λ replies. replies ≡ answered) }
        ensures refused { IfErr result (λ e. (e ≡ Refusal.NoMemory) × IsListing answered) }
    {
        let kept = copy_reply(alloc, &answered)?;
        let for_record = copy_reply(alloc, &answered)?;
        Ok(ThreeReplies {
            kept,
            for_record,
            answered,
        })
    }
}
