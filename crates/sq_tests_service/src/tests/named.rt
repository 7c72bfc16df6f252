//! Each call by its own name.
use super::asks::{Ask, call_of};
use super::shared::{Client, QUEUE, Setting};
use super::stories::{Deed, Scene, must, tell};
use sq_calls::batches::{Batch, BatchKind};
use sq_calls::calls::Call;
use std::process::Abort;
use std::sync::Wait;
use std::sync::ledger::Ledger;

// Does a batch by the name of its kind, and tells whether it is not refused.
fn batch<D: Ledger, T: Ledger, R: Wait>(
    at: &Scene<'_, '_, D, T, R>,
    client: &mut Client<D, T>,
    batch: Batch,
) -> bool {
    let (rt, service, session) = (at.rt, at.service.service(), client.session());
    match batch.kind() {
        BatchKind::Send => service.send_batch(rt, session, batch).is_ok(),
        BatchKind::Delete => service.delete_batch(rt, session, batch).is_ok(),
        BatchKind::Change => service.change_batch(rt, session, batch).is_ok(),
    }
}

/// Does what a client asks by the name of the call, and tells whether it is not refused; first the calls on messages, then those on
/// queues.
pub fn is_done_by_name<D: Ledger, T: Ledger, R: Wait + Abort>(
    at: &Scene<'_, '_, D, T, R>,
    client: &mut Client<D, T>,
    ask: Ask,
) -> bool {
    let (rt, service) = (at.rt, at.service.service());
    match call_of(rt, at.alloc, ask) {
        Call::SendMessage(request) => service.send(rt, client.session(), request).is_ok(),
        Call::ReceiveMessage(request) => service.receive(rt, client.session(), request).is_ok(),
        Call::DeleteMessage(request) => service.delete(rt, client.session(), request).is_ok(),
        Call::ChangeMessageVisibility(request) => service
            .change(rt, client.session(), request)
            .is_ok(),
        Call::Batch(entries) => batch(at, client, entries),
        Call::StartMessageMoveTask(request) => service
            .start_move(rt, client.session(), request)
            .is_ok(),
        Call::CancelMessageMoveTask(task) => service
            .cancel_move(rt, client.session(), task)
            .is_ok(),
        Call::ListMessageMoveTasks(request) => service
            .list_moves(rt, client.session(), request)
            .is_ok(),
        Call::CreateQueue(request) => service.create(rt, client.session(), request).is_ok(),
        Call::GetQueueUrl(name) => service.url(rt, client.session(), name).is_ok(),
        Call::ListQueues(prefix) => service.list(rt, client.session(), prefix).is_ok(),
        Call::SetQueueAttributes(request) => service.set(rt, client.session(), request).is_ok(),
        Call::GetQueueAttributes(request) => service.get(rt, client.session(), request).is_ok(),
        Call::PurgeQueue(name) => service.purge(rt, client.session(), name).is_ok(),
        Call::DeleteQueue(name) => service.delete_queue(rt, client.session(), name).is_ok(),
        Call::ListDeadLetterSourceQueues(name) => service
            .sources(rt, client.session(), name)
            .is_ok(),
    }
}

const EACH: &[Deed] = &[
    Deed::Clock(1000),
    Deed::Named(Ask::Create(b'd', None)),
    Deed::Named(Ask::Url(b'd')),
    Deed::Named(Ask::List),
    Deed::Named(Ask::Set(b'q', b'd')),
    Deed::Named(Ask::Sources(b'd')),
    Deed::Named(Ask::Send(b'q')),
    Deed::Named(Ask::Hold(b'q')),
    Deed::Named(Ask::Change(b'q', 0)),
    Deed::Named(Ask::Delete(b'q', 0)),
    Deed::Named(Ask::SendBatch(b'q')),
    Deed::Ask(Ask::Hold(b'q')),
    Deed::Named(Ask::ChangeBatch(b'q', 1)),
    Deed::Named(Ask::DeleteBatch(b'q', 1)),
    Deed::Named(Ask::Get(b'q')),
    Deed::Named(Ask::Purge(b'q')),
    Deed::Named(Ask::Start(b'd', Some(b'q'))),
    Deed::Named(Ask::ListTasks(b'd')),
    Deed::Named(Ask::Cancel(1)),
    Deed::Named(Ask::DeleteQueue(b'q')),
];

// An event of the directory of each call on queues, one of the ledger of each on tasks, and one of the home of all that is asked there.
#[test]
fn each_call_by_its_name_does_its_steps(rt: HostRuntime) {
    let told = tell(&rt, rt.alloc(), Setting::of(QUEUE, 1), &[EACH]);
    let all = told.is_of_one(1_111_111_111_111_111_111, [9, 3, 13], 2);
    must(&rt, &told, all);
}
