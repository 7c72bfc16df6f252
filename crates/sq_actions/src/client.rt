//! What each call of a client does, over any steps.
ghost use Rattle.std.specs.Prelude.{◌≡◌, ◌≢◌, ◌⊎◌, ◌+◌, ◌<◌, ◌≤◌, ℕ, true, Some, Ok, Err, IfErr, OnOk};
ghost use Rattle.sq_model.specs.declared.replies.HomeReply.{HomeReply};
ghost use Rattle.sq_model.specs.declared.directory.DirectoryCall.TheVariants.{List as ListNames, Read, Sources, Url};
ghost use Rattle.sq_directory.specs.Makers.{name_asked};
ghost use Rattle.sq_calls.specs.declared.batches.EntryAsk.TheVariants.{Send};
ghost use Rattle.sq_actions.specs.inside.Messages.{act_at_each, asked_by};
ghost use Rattle.sq_actions.specs.Calls.{home_numbered, counted_homes, counts_with, received_from};
ghost use Rattle.sq_actions.specs.inside.Calls.{changes_queue, AreFew};
ghost use Rattle.sq_actions.specs.Entries.{OneFits};
ghost use Rattle.sq_actions.specs.Fits.{ByName, AtAll, ByDirectory, ThenAll, CreateFits, SetFits, TellsUrl, TellsQueues, TellsSources, StartFits, StartsBetween, CancelFits, ListTasksFits, source_refusal, CountsAt, Shows, ReceiveAt, CallFits};
ghost use Rattle.sq_calls.specs.ReceivedValue.{AreReceived};
ghost use Rattle.sq_actions.specs.Performs.{Performs, LeavesRecords};

use crate::batch::batch;
use crate::lock_steps::LockSteps;
use crate::message::{OnMessage, on_message, one_answered, send};
use sq_base::handle::Handle;
use sq_base::ids::{HomeId, HomeNo, QueueNo};
use sq_base::name::QueueName;
use sq_base::refusal::Refusal;
use sq_base::settings::Settings;
use sq_calls::calls::{
    Answer, AskedOfQueue, Call, CreateQueue, GetQueueAttributes, ListMessageMoveTasks, QueueCounts,
    ReceiveMessage, SendMessage, SetQueueAttributes, ShownAttributes, StartMessageMoveTask,
};
use sq_calls::received_messages::ReceivedMessages;
use sq_history::act::HomeAct;
use sq_model::directory::{DirectoryCall, DirectoryReply, NamePrefix, QueueAttributes};
use sq_model::item::TaskNo;
use sq_model::ledger::LedgerReply;
use sq_model::replies::{Counts, HomeReply};
use sq_model::rows::Rows;
use sq_model::task::NamedQueue;
use sq_sample::sampler::HomeCount;
use sq_steps::act::{NamedHome, TaskAct, TaskStart};

/// Does a client's call, step by step; steps that were done before a refusal stand.
pub fn call<S: LockSteps>(steps: &mut S, call: &Call) -> Result<Answer, Refusal>
    ensures answered { Performs S.stepped (CallFits (S.counts steps.old) call.now) steps.old result steps.new }
    ensures leaves_records { LeavesRecords (CallFits (S.counts steps.old) call.now) (S.journal steps.old) result (S.journal steps.new) }
{
    answer(steps, call)
}

// The answer to a call, by the steps of its kind. A call on a queue looks it up by its name first.
fn answer<S: LockSteps>(steps: &mut S, call: &Call) -> Result<Answer, Refusal>
    ensures { Performs S.stepped (CallFits (S.counts steps.old) call.now) steps.old result steps.new }
{
    match call {
        Call::CreateQueue(call) => create_queue(steps, call),
        Call::GetQueueUrl(name) => get_url(steps, name),
        Call::ListQueues(prefix) => list_queues(steps, prefix),
        Call::SetQueueAttributes(call) => set_attributes(steps, call),
        Call::GetQueueAttributes(call) => get_attributes(steps, call),
        Call::PurgeQueue(name) => {
            let ticket = DirectoryCall::PurgeTicket(*name);
            change_queue(steps, &ticket, name, Answer::Done)
        }
        Call::DeleteQueue(name) => {
            let remove = DirectoryCall::Remove(*name);
            change_queue(steps, &remove, name, Answer::Done)
        }
        Call::ListDeadLetterSourceQueues(name) => list_sources(steps, name),
        Call::SendMessage(call) => send_message(steps, call),
        Call::ReceiveMessage(call) => receive(steps, call),
        Call::DeleteMessage(call) => {
            at_handle(steps, &call.queue, &call.handle, OnMessage::Delete)
        }
        Call::ChangeMessageVisibility(call) => {
            let change = OnMessage::Change(call.timeout);
            at_handle(steps, &call.queue, &call.handle, change)
        }
        Call::Batch(call) => batch(steps, call),
        Call::StartMessageMoveTask(call) => start_task(steps, call),
        Call::CancelMessageMoveTask(number) => cancel_task(steps, number),
        Call::ListMessageMoveTasks(call) => list_tasks(steps, call),
    }
}

fn create_queue<S: LockSteps>(steps: &mut S, call: &CreateQueue) -> Result<Answer, Refusal>
    ensures { Performs S.stepped (CreateFits (S.counts steps.old).homes call.now) steps.old result steps.new }
{
    let attributes = call.attributes.copy(steps.alloc())?;
    let create = DirectoryCall::Create(call.name, attributes);
    change_queue(steps, &create, &call.name, Answer::Queue(call.name))
}

fn set_attributes<S: LockSteps>(steps: &mut S, call: &SetQueueAttributes) -> Result<Answer, Refusal>
    ensures { Performs S.stepped (SetFits (S.counts steps.old).homes call.now) steps.old result steps.new }
{
    let attributes = call.attributes.copy(steps.alloc())?;
    let set = DirectoryCall::Set(call.queue, attributes);
    change_queue(steps, &set, &call.queue, Answer::Done)
}

// A step of the directory that changes a queue of this name, and then what all homes of the queue do.
fn change_queue<S: LockSteps>(
    steps: &mut S,
    call: &DirectoryCall,
    name: &QueueName,
    answer: Answer,
) -> Result<Answer, Refusal>
    requires named { name_asked call.now ≡ Some name.now }
    requires changes { changes_queue call.now ≡ true }
    ensures { Performs S.stepped (ByDirectory call.now (ThenAll (S.counts steps.old).homes name.now answer)) steps.old result steps.new }
{
    match steps.directory_step(call)? {
        DirectoryReply::Made(made) => {
            let each = AtEach::Configure(made.settings, made.version);
            ask_all(steps, name, made.queue, each, answer)
        }
        DirectoryReply::Changed(changed) => {
            let each = AtEach::Configure(changed.settings, changed.version);
            ask_all(steps, name, changed.queue, each, answer)
        }
        DirectoryReply::Removed(number) => ask_all(steps, name, number, AtEach::Close, answer),
        DirectoryReply::Ticket(number) => ask_all(steps, name, number, AtEach::Purge, answer),
        _ => unreachable!(),
    }
}

// What each home of a queue does once the directory has changed the queue.
#[derive(Clone, Copy)]
enum AtEach {
    Configure(Settings, u64),
    Close,
    Purge,
}

impl AtEach {
    fn act(&self) -> HomeAct
        ensures { result ≡ act_at_each self.now }
    {
        match self {
            AtEach::Configure(settings, version) => HomeAct::Configure(*settings, *version),
            AtEach::Close => HomeAct::Close,
            AtEach::Purge => HomeAct::Purge,
        }
    }
}

// All homes of a queue do this, one after another.
fn ask_all<S: LockSteps>(
    steps: &mut S,
    name: &QueueName,
    number: QueueNo,
    each: AtEach,
    answer: Answer,
) -> Result<Answer, Refusal>
    requires { S.knows steps.old name.now number }
    ensures { Performs S.stepped (AtAll (S.counts steps.old).homes name.now number (act_at_each each) answer) steps.old result steps.new }
{
    let of = NamedQueue {
        name: *name,
        number,
    };
    for home in 0..steps.homes().get() as u8 {
        let at = NamedHome::found(&of, HomeNo::of(home));
        pass_closed(steps.home_step(&at, each.act()))?;
    }
    Ok(answer)
}

// A closed home is passed over.
fn pass_closed(answered: Result<HomeReply, Refusal>) -> Result<(), Refusal>
    ensures passed { OnOk result (((by : HomeReply) × (answered ≡ Ok by)) ⊎ (answered ≡ Err Refusal.QueueDoesNotExist)) }
    ensures refused { IfErr result (λ e. (answered ≡ Err e) × (e ≢ Refusal.QueueDoesNotExist)) }
{
    match answered {
        Ok(_) => Ok(()),
        Err(Refusal::QueueDoesNotExist) => Ok(()),
        Err(refusal) => Err(refusal),
    }
}

fn get_url<S: LockSteps>(steps: &mut S, name: &QueueName) -> Result<Answer, Refusal>
    ensures { Performs S.stepped (ByDirectory (Url name.now) (TellsUrl name.now)) steps.old result steps.new }
{
    match steps.directory_step(&DirectoryCall::Url(*name))? {
        DirectoryReply::Found(_) => Ok(Answer::Queue(*name)),
        _ => unreachable!(),
    }
}

fn list_queues<S: LockSteps>(steps: &mut S, prefix: &NamePrefix) -> Result<Answer, Refusal>
    ensures { Performs S.stepped (ByDirectory (ListNames prefix.now) TellsQueues) steps.old result steps.new }
{
    match steps.directory_step(&DirectoryCall::List(*prefix))? {
        DirectoryReply::Listed(names) => Ok(Answer::Queues(names)),
        _ => unreachable!(),
    }
}

fn list_sources<S: LockSteps>(steps: &mut S, name: &QueueName) -> Result<Answer, Refusal>
    ensures { Performs S.stepped (ByDirectory (Sources name.now) TellsSources) steps.old result steps.new }
{
    match steps.directory_step(&DirectoryCall::Sources(*name))? {
        DirectoryReply::Sources(names) => Ok(Answer::Sources(names)),
        _ => unreachable!(),
    }
}

fn get_attributes<S: LockSteps>(steps: &mut S, call: &GetQueueAttributes) -> Result<Answer, Refusal>
    ensures { Performs S.stepped (ByDirectory (Read call.now.queue) (Shows (S.counts steps.old).homes call.now)) steps.old result steps.new }
{
    match steps.directory_step(&DirectoryCall::Read(call.queue))? {
        DirectoryReply::Read(attributes) => show(steps, call, attributes),
        _ => unreachable!(),
    }
}

// The attributes of a queue that are asked for; all homes count their messages where a count is.
fn show<S: LockSteps>(
    steps: &mut S,
    call: &GetQueueAttributes,
    attributes: QueueAttributes,
) -> Result<Answer, Refusal>
    requires { S.knows steps.old call.now.queue attributes.queue }
    ensures { Performs S.stepped (CountsAt (S.counts steps.old).homes call.now attributes) steps.old result steps.new }
{
    let of = NamedQueue {
        name: call.queue,
        number: attributes.queue,
    };
    let mut sum = QueueCounts {
        visible: 0,
        in_flight: 0,
        delayed: 0,
    };
    for home in 0..counted_homes(steps.homes(), &call.asked) {
        match steps.home_step(&NamedHome::found(&of, HomeNo::of(home)), HomeAct::Count)? {
            HomeReply::Counted(counts) => sum = counts_with(&sum, &counts),
            _ => unreachable!(),
        }
    }
    Ok(Answer::Attributes(ShownAttributes {
        queue: call.queue,
        asked: call.asked,
        attributes,
        counts: sum,
    }))
}

// How many homes count their messages.
fn counted_homes(homes: HomeCount, asked: &AskedOfQueue) -> u8
    ensures homes { result ≡ counted_homes homes asked.now }
    ensures few { result ≤ 16 }
{
    if asked.visible || asked.delayed || asked.in_flight {
        homes.get() as u8
    } else {
        0
    }
}

// The counts with those of one home more.
fn counts_with(sum: &QueueCounts, counts: &Counts) -> QueueCounts
    requires { AreFew 16 sum.now }
    ensures sum { result ≡ counts_with sum.now counts.now }
    ensures few { (n : ℕ) → AreFew n sum.now → AreFew (n + 1) result }
{
    QueueCounts {
        visible: sum.visible + counts.visible as u64,
        in_flight: sum.in_flight + counts.in_flight as u64,
        delayed: sum.delayed + counts.delayed as u64,
    }
}

fn send_message<S: LockSteps>(steps: &mut S, call: &SendMessage) -> Result<Answer, Refusal>
    ensures { Performs S.stepped (ByName call.now.queue (OneFits (S.counts steps.old).homes call.now.queue (Send call.now.body call.now.delay))) steps.old result steps.new }
{
    let of = steps.resolve(&call.queue)?;
    one_answered(send(steps, &of, &call.body, call.delay))
}

// A call on the message of a handle.
fn at_handle<S: LockSteps>(
    steps: &mut S,
    queue: &QueueName,
    handle: &Option<Handle>,
    what: OnMessage,
) -> Result<Answer, Refusal>
    ensures { Performs S.stepped (ByName queue.now (OneFits (S.counts steps.old).homes queue.now (asked_by what handle.now))) steps.old result steps.new }
{
    let of = steps.resolve(queue)?;
    one_answered(on_message(steps, &of, handle, what))
}

fn receive<S: LockSteps>(steps: &mut S, call: &ReceiveMessage) -> Result<Answer, Refusal>
    ensures { Performs S.stepped (ByName call.now.queue (ReceiveAt (S.counts steps.old) call.now)) steps.old result steps.new }
{
    let of = steps.resolve(&call.queue)?;
    look(steps, &of, call)
}

// Asks distinct homes of the queue, one after another, up to the first that gives messages.
fn look<S: LockSteps>(
    steps: &mut S,
    of: &NamedQueue,
    call: &ReceiveMessage,
) -> Result<Answer, Refusal>
    requires known { S.knows steps.old of.now.name of.now.number }
    requires named { of.now.name ≡ call.now.queue }
    ensures { Performs S.stepped (ReceiveAt (S.counts steps.old) call.now of.now.number) steps.old result steps.new }
{
    let homes = steps.draw()?;
    let mut over = false;
    for index in 0..homes.len() {
        let home = homes[index];
        let act = HomeAct::Look(call.max, call.timeout);
        match steps.home_step(&NamedHome::found(of, home), act)? {
            HomeReply::Looked(rows) => {
                if rows.len() > 0 {
                    return Ok(received_answer(of.number, home, call, rows));
                }
            }
            HomeReply::Over => over = true,
            _ => unreachable!(),
        }
    }
    if over {
        return Err(Refusal::OverLimit);
    }
    Ok(received_answer(of.number, HomeNo::first(), call, Rows::none()))
}

// A task starts, but where its destination is its source.
fn start_task<S: LockSteps>(steps: &mut S, call: &StartMessageMoveTask) -> Result<Answer, Refusal>
    ensures { Performs S.stepped (StartFits call.now) steps.old result steps.new }
{
    if call.is_to_its_source() {
        return Err(Refusal::InvalidParameterValue);
    }
    start_between(steps, call)
}

// A task starts between two queues that it may move messages between.
fn start_between<S: LockSteps>(
    steps: &mut S,
    call: &StartMessageMoveTask,
) -> Result<Answer, Refusal>
    ensures { Performs S.stepped (StartsBetween call.now) steps.old result steps.new }
{
    let (source, destination) = steps.can_redrive(&call.source, &call.destination)?;
    let start = TaskAct::Start(TaskStart {
        source,
        destination,
        rate: call.rate,
    });
    match steps.ledger_step(&start)? {
        LedgerReply::Started(number) => Ok(Answer::Started(number)),
        _ => unreachable!(),
    }
}

// The task of a number takes no more messages. Without a number there is none.
fn cancel_task<S: LockSteps>(steps: &mut S, number: &Option<TaskNo>) -> Result<Answer, Refusal>
    ensures { Performs S.stepped (CancelFits number.now) steps.old result steps.new }
{
    let Some(number) = number else {
        return Err(Refusal::ResourceNotFoundException);
    };
    match steps.ledger_step(&TaskAct::Cancel(*number))? {
        LedgerReply::Cancelled(moved) => Ok(Answer::Cancelled(moved)),
        _ => unreachable!(),
    }
}

// The tasks of a source are listed.
fn list_tasks<S: LockSteps>(steps: &mut S, call: &ListMessageMoveTasks) -> Result<Answer, Refusal>
    ensures { Performs S.stepped (ListTasksFits call.now) steps.old result steps.new }
{
    let source = match steps.resolve(&call.source) {
        Ok(source) => source,
        Err(refusal) => return Err(source_refusal(refusal)),
    };
    match steps.ledger_step(&TaskAct::List(source.number, call.max))? {
        LedgerReply::Listed(tasks) => Ok(Answer::Tasks(tasks)),
        _ => unreachable!(),
    }
}

// A source that is not there is reported as a resource that is not.
fn source_refusal(refusal: Refusal) -> Refusal
    ensures { result ≡ source_refusal refusal }
{
    match refusal {
        Refusal::QueueDoesNotExist => Refusal::ResourceNotFoundException,
        other => other,
    }
}

// The answer with the messages that a home of the queue gave.
fn received_answer(queue: QueueNo, home: HomeNo, call: &ReceiveMessage, rows: Rows) -> Answer
    requires { AreReceived rows }
    ensures { result ≡ received_from call.now (home_numbered queue home) rows }
{
    let id = HomeId { queue, home };
    Answer::Received(ReceivedMessages::new(call.attributes, id, rows))
}
