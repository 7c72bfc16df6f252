//! What is done for one message of a queue that was found: by a call on it alone, or for an entry of a batch.
ghost use Rattle.std.specs.Prelude.{◌≡◌, None, Some, IfOk, IfErr};
ghost use Rattle.sq_actions.specs.inside.Messages.{act_of};
ghost use Rattle.sq_actions.specs.Calls.{receipt_of, handle_of_queue};
ghost use Rattle.sq_actions.specs.Entries.{PutAt, SendAt, HandleAt, EntryFits, one_answered};
ghost use Rattle.sq_actions.specs.Performs.{Performs};

use crate::lock_steps::LockSteps;
use sq_base::body::{BODY_LIMIT, Body};
use sq_base::handle::Handle;
use sq_base::ids::QueueNo;
use sq_base::ranges::{Delay, Timeout};
use sq_base::refusal::Refusal;
use sq_calls::batches::{EntryAnswer, EntryAsk};
use sq_calls::body_text::BodyText;
use sq_calls::calls::Answer;
use sq_calls::digest::Digest;
use sq_history::act::HomeAct;
use sq_history::sent_body::SentBody;
use sq_model::calls::Receipt;
use sq_model::replies::HomeReply;
use sq_model::task::NamedQueue;
use sq_sample::sampler::HomeCount;
use sq_steps::act::NamedHome;

/// Does what an entry asks, or refuses it without a step.
pub(crate) fn do_entry<S: LockSteps>(
    steps: &mut S,
    of: &NamedQueue,
    ask: &Result<EntryAsk, Refusal>,
) -> Result<EntryAnswer, Refusal>
    requires { S.knows steps.old of.now.name of.now.number }
    ensures did { Performs S.stepped (EntryFits (S.counts steps.old).homes of.now.name of.now.number ask.now) steps.old result steps.new }
    ensures known { S.knows steps.new of.now.name of.now.number }
    ensures same_counts { S.counts steps.new ≡ S.counts steps.old }
{
    match ask {
        Ok(EntryAsk::Send(body, delay)) => send(steps, of, body, *delay),
        Ok(EntryAsk::Delete(handle)) => on_message(steps, of, handle, OnMessage::Delete),
        Ok(EntryAsk::Change(handle, timeout)) => {
            on_message(steps, of, handle, OnMessage::Change(*timeout))
        }
        Err(refusal) => Err(*refusal),
    }
}

/// Sends a message: its characters are checked, and then it is put.
pub(crate) fn send<S: LockSteps>(
    steps: &mut S,
    of: &NamedQueue,
    body: &BodyText,
    delay: Option<Delay>,
) -> Result<EntryAnswer, Refusal>
    requires { S.knows steps.old of.now.name of.now.number }
    ensures did { Performs S.stepped (SendAt (S.counts steps.old).homes of.now.name of.now.number body.now delay) steps.old result steps.new }
    ensures known { S.knows steps.new of.now.name of.now.number }
    ensures same_counts { S.counts steps.new ≡ S.counts steps.old }
{
    let body = Body::new(steps.alloc(), body.as_str(), BODY_LIMIT)?;
    // Its event and its record own it too, so that its step asks for no memory for them.
    let sent = SentBody::new(body)?;
    put(steps, of, sent, delay)
}

// Puts a body last at one of the queue's homes.
fn put<S: LockSteps>(
    steps: &mut S,
    of: &NamedQueue,
    body: SentBody,
    delay: Option<Delay>,
) -> Result<EntryAnswer, Refusal>
    requires { S.knows steps.old of.now.name of.now.number }
    ensures did { Performs S.stepped (PutAt (S.counts steps.old).homes of.now.name of.now.number body delay) steps.old result steps.new }
    ensures known { S.knows steps.new of.now.name of.now.number }
    ensures same_counts { S.counts steps.new ≡ S.counts steps.old }
{
    let text = body.body();
    let digest = Digest::of(text);
    let home = steps.pick();
    match steps.home_step(&NamedHome::found(of, home), HomeAct::Send(body, delay))? {
        HomeReply::Sent(sent) => Ok(EntryAnswer::Sent(sent.id, digest)),
        _ => unreachable!(),
    }
}

/// What is done to the message of a handle.
#[derive(Clone, Copy)]
pub(crate) enum OnMessage {
    Delete,
    Change(Timeout),
}

impl OnMessage {
    // What its home is asked, by what the handle names there.
    fn act(self, handle: &Handle) -> HomeAct
        ensures { result ≡ act_of self (receipt_of handle.now) }
    {
        let receipt = Receipt {
            slot: handle.slot,
            serial: handle.serial,
            receive: handle.receive,
        };
        match self {
            OnMessage::Delete => HomeAct::Delete(receipt),
            OnMessage::Change(timeout) => HomeAct::Change(receipt, timeout),
        }
    }
}

/// A step on the message of a handle, at its home.
pub(crate) fn on_message<S: LockSteps>(
    steps: &mut S,
    of: &NamedQueue,
    handle: &Option<Handle>,
    what: OnMessage,
) -> Result<EntryAnswer, Refusal>
    requires { S.knows steps.old of.now.name of.now.number }
    ensures did { Performs S.stepped (HandleAt (S.counts steps.old).homes of.now.name of.now.number handle.now (act_of what)) steps.old result steps.new }
    ensures known { S.knows steps.new of.now.name of.now.number }
    ensures same_counts { S.counts steps.new ≡ S.counts steps.old }
{
    let handle = handle_of_queue(steps.homes(), of.number, handle)?;
    let act = what.act(&handle);
    steps.home_step(&NamedHome::found(of, handle.home), act)?;
    Ok(EntryAnswer::Done)
}

// The handle, where it is one of this queue and of one of its homes.
fn handle_of_queue(
    homes: HomeCount,
    queue: QueueNo,
    handle: &Option<Handle>,
) -> Result<Handle, Refusal>
    ensures found { IfOk result (λ h. handle_of_queue homes queue handle.now ≡ Some h) }
    ensures lost { IfErr result (λ e. (handle_of_queue homes queue handle.now ≡ None) × (e ≡ Refusal.ReceiptHandleIsInvalid)) }
{
    match handle {
        Some(handle) if handle.queue == queue && (handle.home.get() as u32) < homes.get() => {
            Ok(*handle)
        }
        _ => Err(Refusal::ReceiptHandleIsInvalid),
    }
}

/// The answer to a call on one message.
pub(crate) fn one_answered(told: Result<EntryAnswer, Refusal>) -> Result<Answer, Refusal>
    ensures { result ≡ one_answered told }
{
    match told {
        Ok(EntryAnswer::Sent(id, digest)) => Ok(Answer::Sent(id, digest)),
        Ok(EntryAnswer::Done) => Ok(Answer::Done),
        Err(refusal) => Err(refusal),
    }
}
