//! Each call of a session by its name, as `call` does it, with its own type of answers.
ghost use Rattle.std.specs.Prelude.{◌≡◌};
ghost use Rattle.sq_calls.specs.declared.batches.BatchKind.TheVariants as kind;
ghost use Rattle.sq_calls.specs.declared.calls.Answer.TheVariants as answer;
ghost use Rattle.sq_calls.specs.declared.calls.Call.TheVariants as asks;
ghost use Rattle.sq_actions.specs.Performs.{CallFits, LeavesRecords};
ghost use Rattle.sq_queue.specs.Around.{around, service_counts};
ghost use Rattle.sq_queue.specs.Named.{answered_as, done_answer, sent_answer};
ghost use Rattle.sq_queue.specs.Services.{CallDone};

use crate::answers::{
    SendMessageResult, attributes, cancelled, done, entries, queue, queues, received, sent,
    sources, started, tasks,
};
use crate::service::{Clock, Gate, Serving};
use crate::session::Session;
use sq_base::name::QueueName;
use sq_base::refusal::Refusal;
use sq_calls::batches::{Batch, EntryResult};
use sq_calls::calls::{
    Call, ChangeMessageVisibility, CreateQueue, DeleteMessage, GetQueueAttributes,
    ListMessageMoveTasks, ReceiveMessage, SendMessage, SetQueueAttributes, ShownAttributes,
    StartMessageMoveTask,
};
use sq_calls::received_messages::ReceivedMessages;
use sq_model::directory::NamePrefix;
use sq_model::item::TaskNo;
use sq_model::listed::Listed;
use sq_model::task::Task;
use sq_store::slots::SlotStore;
use std::sync::Wait;
use std::sync::ledger::Ledger;

impl<C: Clock + Drop, G: Gate + Drop, D: Ledger, T: Ledger> Serving<C, G, D, T, SlotStore> {
    /// SendMessage: puts a message into a queue.
    pub fn send<R: Wait>(
        &self,
        rt: &R,
        session: &mut Session<D, T>,
        request: SendMessage,
    ) -> Result<SendMessageResult, Refusal>
        ensures sections { CallDone (around C.tells G.saw self.now) (asks.SendMessage request) session.old (answered_as sent_answer result) session.new }
        ensures leaves_records { LeavesRecords (CallFits (service_counts self.now) (asks.SendMessage request)) session.old.journal (answered_as sent_answer result) session.new.journal }
    {
        sent(self.call(rt, session, &Call::SendMessage(request)))
    }

    /// ReceiveMessage: gives up to ten messages of a queue, which are in flight then.
    pub fn receive<R: Wait>(
        &self,
        rt: &R,
        session: &mut Session<D, T>,
        request: ReceiveMessage,
    ) -> Result<ReceivedMessages, Refusal>
        ensures sections { CallDone (around C.tells G.saw self.now) (asks.ReceiveMessage request) session.old (answered_as answer.Received result) session.new }
        ensures leaves_records { LeavesRecords (CallFits (service_counts self.now) (asks.ReceiveMessage request)) session.old.journal (answered_as answer.Received result) session.new.journal }
    {
        received(self.call(rt, session, &Call::ReceiveMessage(request)))
    }

    /// DeleteMessage: deletes the message that a receive gave by this handle.
    pub fn delete<R: Wait>(
        &self,
        rt: &R,
        session: &mut Session<D, T>,
        request: DeleteMessage,
    ) -> Result<(), Refusal>
        ensures sections { CallDone (around C.tells G.saw self.now) (asks.DeleteMessage request) session.old (answered_as done_answer result) session.new }
        ensures leaves_records { LeavesRecords (CallFits (service_counts self.now) (asks.DeleteMessage request)) session.old.journal (answered_as done_answer result) session.new.journal }
    {
        done(self.call(rt, session, &Call::DeleteMessage(request)))
    }

    /// ChangeMessageVisibility: changes how long a message that is in flight stays so.
    pub fn change<R: Wait>(
        &self,
        rt: &R,
        session: &mut Session<D, T>,
        request: ChangeMessageVisibility,
    ) -> Result<(), Refusal>
        ensures sections { CallDone (around C.tells G.saw self.now) (asks.ChangeMessageVisibility request) session.old (answered_as done_answer result) session.new }
        ensures leaves_records { LeavesRecords (CallFits (service_counts self.now) (asks.ChangeMessageVisibility request)) session.old.journal (answered_as done_answer result) session.new.journal }
    {
        done(self.call(rt, session, &Call::ChangeMessageVisibility(request)))
    }

    /// CreateQueue: makes a queue, or finds the one that is as is asked.
    pub fn create<R: Wait>(
        &self,
        rt: &R,
        session: &mut Session<D, T>,
        request: CreateQueue,
    ) -> Result<QueueName, Refusal>
        ensures sections { CallDone (around C.tells G.saw self.now) (asks.CreateQueue request) session.old (answered_as answer.Queue result) session.new }
        ensures leaves_records { LeavesRecords (CallFits (service_counts self.now) (asks.CreateQueue request)) session.old.journal (answered_as answer.Queue result) session.new.journal }
    {
        queue(self.call(rt, session, &Call::CreateQueue(request)))
    }

    /// SetQueueAttributes: changes what a queue is like.
    pub fn set<R: Wait>(
        &self,
        rt: &R,
        session: &mut Session<D, T>,
        request: SetQueueAttributes,
    ) -> Result<(), Refusal>
        ensures sections { CallDone (around C.tells G.saw self.now) (asks.SetQueueAttributes request) session.old (answered_as done_answer result) session.new }
        ensures leaves_records { LeavesRecords (CallFits (service_counts self.now) (asks.SetQueueAttributes request)) session.old.journal (answered_as done_answer result) session.new.journal }
    {
        done(self.call(rt, session, &Call::SetQueueAttributes(request)))
    }

    /// GetQueueAttributes: tells what a queue is like, and about how many messages it has.
    pub fn get<R: Wait>(
        &self,
        rt: &R,
        session: &mut Session<D, T>,
        request: GetQueueAttributes,
    ) -> Result<ShownAttributes, Refusal>
        ensures sections { CallDone (around C.tells G.saw self.now) (asks.GetQueueAttributes request) session.old (answered_as answer.Attributes result) session.new }
        ensures leaves_records { LeavesRecords (CallFits (service_counts self.now) (asks.GetQueueAttributes request)) session.old.journal (answered_as answer.Attributes result) session.new.journal }
    {
        attributes(self.call(rt, session, &Call::GetQueueAttributes(request)))
    }

    /// GetQueueUrl: tells that a queue is there.
    pub fn url<R: Wait>(
        &self,
        rt: &R,
        session: &mut Session<D, T>,
        name: QueueName,
    ) -> Result<QueueName, Refusal>
        ensures sections { CallDone (around C.tells G.saw self.now) (asks.GetQueueUrl name) session.old (answered_as answer.Queue result) session.new }
        ensures leaves_records { LeavesRecords (CallFits (service_counts self.now) (asks.GetQueueUrl name)) session.old.journal (answered_as answer.Queue result) session.new.journal }
    {
        queue(self.call(rt, session, &Call::GetQueueUrl(name)))
    }

    /// ListQueues: names the queues whose names begin so, in order of creation.
    pub fn list<R: Wait>(
        &self,
        rt: &R,
        session: &mut Session<D, T>,
        prefix: NamePrefix,
    ) -> Result<Listed<QueueName>, Refusal>
        ensures sections { CallDone (around C.tells G.saw self.now) (asks.ListQueues prefix) session.old (answered_as answer.Queues result) session.new }
        ensures leaves_records { LeavesRecords (CallFits (service_counts self.now) (asks.ListQueues prefix)) session.old.journal (answered_as answer.Queues result) session.new.journal }
    {
        queues(self.call(rt, session, &Call::ListQueues(prefix)))
    }

    /// PurgeQueue: deletes all messages of a queue.
    pub fn purge<R: Wait>(
        &self,
        rt: &R,
        session: &mut Session<D, T>,
        name: QueueName,
    ) -> Result<(), Refusal>
        ensures sections { CallDone (around C.tells G.saw self.now) (asks.PurgeQueue name) session.old (answered_as done_answer result) session.new }
        ensures leaves_records { LeavesRecords (CallFits (service_counts self.now) (asks.PurgeQueue name)) session.old.journal (answered_as done_answer result) session.new.journal }
    {
        done(self.call(rt, session, &Call::PurgeQueue(name)))
    }

    /// DeleteQueue: deletes a queue with its messages.
    pub fn delete_queue<R: Wait>(
        &self,
        rt: &R,
        session: &mut Session<D, T>,
        name: QueueName,
    ) -> Result<(), Refusal>
        ensures sections { CallDone (around C.tells G.saw self.now) (asks.DeleteQueue name) session.old (answered_as done_answer result) session.new }
        ensures leaves_records { LeavesRecords (CallFits (service_counts self.now) (asks.DeleteQueue name)) session.old.journal (answered_as done_answer result) session.new.journal }
    {
        done(self.call(rt, session, &Call::DeleteQueue(name)))
    }

    /// ListDeadLetterSourceQueues: names the queues whose dead letters go to a queue.
    pub fn sources<R: Wait>(
        &self,
        rt: &R,
        session: &mut Session<D, T>,
        name: QueueName,
    ) -> Result<Listed<QueueName>, Refusal>
        ensures sections { CallDone (around C.tells G.saw self.now) (asks.ListDeadLetterSourceQueues name) session.old (answered_as answer.Sources result) session.new }
        ensures leaves_records { LeavesRecords (CallFits (service_counts self.now) (asks.ListDeadLetterSourceQueues name)) session.old.journal (answered_as answer.Sources result) session.new.journal }
    {
        sources(self.call(rt, session, &Call::ListDeadLetterSourceQueues(name)))
    }

    /// StartMessageMoveTask: messages of a dead-letter queue are to move.
    pub fn start_move<R: Wait>(
        &self,
        rt: &R,
        session: &mut Session<D, T>,
        request: StartMessageMoveTask,
    ) -> Result<TaskNo, Refusal>
        ensures sections { CallDone (around C.tells G.saw self.now) (asks.StartMessageMoveTask request) session.old (answered_as answer.Started result) session.new }
        ensures leaves_records { LeavesRecords (CallFits (service_counts self.now) (asks.StartMessageMoveTask request)) session.old.journal (answered_as answer.Started result) session.new.journal }
    {
        started(self.call(rt, session, &Call::StartMessageMoveTask(request)))
    }

    /// CancelMessageMoveTask: no more messages leave for a task; None where the text named none.
    pub fn cancel_move<R: Wait>(
        &self,
        rt: &R,
        session: &mut Session<D, T>,
        task: Option<TaskNo>,
    ) -> Result<u64, Refusal>
        ensures sections { CallDone (around C.tells G.saw self.now) (asks.CancelMessageMoveTask task) session.old (answered_as answer.Cancelled result) session.new }
        ensures leaves_records { LeavesRecords (CallFits (service_counts self.now) (asks.CancelMessageMoveTask task)) session.old.journal (answered_as answer.Cancelled result) session.new.journal }
    {
        cancelled(self.call(rt, session, &Call::CancelMessageMoveTask(task)))
    }

    /// ListMessageMoveTasks: the tasks of a source, the most recent first.
    pub fn list_moves<R: Wait>(
        &self,
        rt: &R,
        session: &mut Session<D, T>,
        request: ListMessageMoveTasks,
    ) -> Result<Listed<Task>, Refusal>
        ensures sections { CallDone (around C.tells G.saw self.now) (asks.ListMessageMoveTasks request) session.old (answered_as answer.Tasks result) session.new }
        ensures leaves_records { LeavesRecords (CallFits (service_counts self.now) (asks.ListMessageMoveTasks request)) session.old.journal (answered_as answer.Tasks result) session.new.journal }
    {
        tasks(self.call(rt, session, &Call::ListMessageMoveTasks(request)))
    }

    /// SendMessageBatch: up to ten sends, each answered by itself; of a batch of sends.
    pub fn send_batch<R: Wait>(
        &self,
        rt: &R,
        session: &mut Session<D, T>,
        batch: Batch,
    ) -> Result<Listed<EntryResult>, Refusal>
        requires sends { batch.kind ≡ kind.Send }
        ensures sections { CallDone (around C.tells G.saw self.now) (asks.Batch batch) session.old (answered_as answer.Batch result) session.new }
        ensures leaves_records { LeavesRecords (CallFits (service_counts self.now) (asks.Batch batch)) session.old.journal (answered_as answer.Batch result) session.new.journal }
    {
        entries(self.call(rt, session, &Call::Batch(batch)))
    }

    /// DeleteMessageBatch: up to ten deletes, each answered by itself; of a batch of deletes.
    pub fn delete_batch<R: Wait>(
        &self,
        rt: &R,
        session: &mut Session<D, T>,
        batch: Batch,
    ) -> Result<Listed<EntryResult>, Refusal>
        requires deletes { batch.kind ≡ kind.Delete }
        ensures sections { CallDone (around C.tells G.saw self.now) (asks.Batch batch) session.old (answered_as answer.Batch result) session.new }
        ensures leaves_records { LeavesRecords (CallFits (service_counts self.now) (asks.Batch batch)) session.old.journal (answered_as answer.Batch result) session.new.journal }
    {
        entries(self.call(rt, session, &Call::Batch(batch)))
    }

    /// ChangeMessageVisibilityBatch: up to ten changes, each answered by itself; of a batch of changes.
    pub fn change_batch<R: Wait>(
        &self,
        rt: &R,
        session: &mut Session<D, T>,
        batch: Batch,
    ) -> Result<Listed<EntryResult>, Refusal>
        requires changes { batch.kind ≡ kind.Change }
        ensures sections { CallDone (around C.tells G.saw self.now) (asks.Batch batch) session.old (answered_as answer.Batch result) session.new }
        ensures leaves_records { LeavesRecords (CallFits (service_counts self.now) (asks.Batch batch)) session.old.journal (answered_as answer.Batch result) session.new.journal }
    {
        entries(self.call(rt, session, &Call::Batch(batch)))
    }
}
