//! What an actor that is lent reads of a part that is lent. It is no event: the actor has seen then all that the part has.
ghost use Rattle.std.specs.Prelude.{◌≡◌, ◌<◌, None, Some, length, option_map, Ok, Err, IfErr, IfOk, OnErr, OnOk};
ghost use Rattle.sq_model.specs.Directories.{all_named, can_redrive, number_named};
ghost use Rattle.sq_model.specs.Ledgers.{last_task, peek, task_of};
ghost use Rattle.sq_directory.specs.Makers.{IsMadeBy};
ghost use Rattle.sq_directory.specs.MoveQueues.{as_ends};
ghost use Rattle.sq_steps.specs.Journals.{having_seen};
ghost use Rattle.sq_steps.specs.Reads.{next_of};

use crate::act::NextItem;
use crate::journal::Journal;
use sq_base::ids::QueueNo;
use sq_base::name::QueueName;
use sq_base::refusal::Refusal;
use sq_directory::directory::Directory;
use sq_ledger::ledger::TransitLedger;
use sq_model::item::TaskNo;
use sq_model::listed::Listed;
use sq_model::task::{NamedQueue, Task};
use std::alloc::Global;

/// The number of the queue of this name, which the actor knows by it then; it is looked for at this index first. Refused as
/// QueueDoesNotExist.
pub fn resolve(
    directory: &Directory,
    journal: &mut Journal,
    near: &mut usize,
    name: &QueueName,
) -> Result<QueueNo, Refusal>
    ensures found { IfOk result (λ queue. number_named name.now directory.now.directory.queues ≡ Some queue) }
    ensures made { IfOk result (IsMadeBy directory.now.events journal.new.seen name.now) }
    ensures seen { OnOk result (journal.new ≡ having_seen journal.old directory.now.last) }
    ensures refused { IfErr result (λ e. (e ≡ Refusal.QueueDoesNotExist) × (number_named name.now directory.now.directory.queues ≡ None)) }
    ensures err { OnErr result (journal.new ≡ journal.old) }
{
    let Some(queue) = directory.find(near, name) else {
        return Err(Refusal::QueueDoesNotExist);
    };
    journal.see(directory.last());
    Ok(queue)
}

/// The names and numbers of all queues, in order of creation. Refused as NoMemory, where there are any.
pub fn names(
    alloc: Global,
    directory: &Directory,
    journal: &mut Journal,
) -> Result<Listed<NamedQueue>, Refusal>
    ensures names { IfOk result (λ names. names ≡ all_named directory.now.directory) }
    ensures seen { OnOk result (journal.new ≡ having_seen journal.old directory.now.last) }
    ensures refused { IfErr result (λ e. (e ≡ Refusal.NoMemory) × (0 < length directory.now.directory.queues)) }
    ensures err { OnErr result (journal.new ≡ journal.old) }
{
    let names = directory.names(alloc)?;
    journal.see(directory.last());
    Ok(names)
}

/// Between which queues messages may be moved: the source, and the destination, where one is given. Refused as
/// ResourceNotFoundException, where one of them is not there, and then as UnsupportedOperation, where no queue's dead
/// letters go to the source.
pub fn can_redrive(
    directory: &Directory,
    journal: &mut Journal,
    source: &QueueName,
    destination: &Option<QueueName>,
) -> Result<(NamedQueue, Option<NamedQueue>), Refusal>
    ensures ends { IfOk result (λ ends. can_redrive source.now destination.now directory.now.directory ≡ Ok (as_ends ends)) }
    ensures seen { OnOk result (journal.new ≡ having_seen journal.old directory.now.last) }
    ensures refused { IfErr result (λ e. can_redrive source.now destination.now directory.now.directory ≡ Err e) }
    ensures err { OnErr result (journal.new ≡ journal.old) }
{
    let ends = directory.can_redrive(source, destination)?;
    journal.see(directory.last());
    Ok(ends)
}

/// Where the item in transit goes that comes after a number, the first again after the last; none where none is in transit.
pub fn peek(ledger: &TransitLedger, journal: &mut Journal, after: u64) -> Option<NextItem>
    ensures next { result ≡ option_map next_of (peek after ledger.now.history.ledger) }
    ensures seen { journal.new ≡ having_seen journal.old ledger.now.history.last }
{
    journal.see(ledger.last());
    let item = ledger.peek(after)?;
    Some(NextItem {
        number: item.number,
        source: item.source,
        target: item.target,
        homeward: item.homeward,
    })
}

/// The task of a number. Refused as ResourceNotFoundException.
pub fn read_task(
    ledger: &TransitLedger,
    journal: &mut Journal,
    number: TaskNo,
) -> Result<Task, Refusal>
    ensures found { IfOk result (λ task. task_of number ledger.now.history.ledger ≡ Some task) }
    ensures seen { OnOk result (journal.new ≡ having_seen journal.old ledger.now.history.last) }
    ensures refused { IfErr result (λ e. (e ≡ Refusal.ResourceNotFoundException) × (task_of number ledger.now.history.ledger ≡ None)) }
    ensures err { OnErr result (journal.new ≡ journal.old) }
{
    let Some(task) = ledger.read_task(number) else {
        return Err(Refusal::ResourceNotFoundException);
    };
    journal.see(ledger.last());
    Ok(*task)
}

/// The most recent task of a source; none where it had none.
pub fn last_task(ledger: &TransitLedger, journal: &mut Journal, source: QueueNo) -> Option<Task>
    ensures task { result ≡ last_task source ledger.now.history.ledger }
    ensures seen { journal.new ≡ having_seen journal.old ledger.now.history.last }
{
    journal.see(ledger.last());
    match ledger.last_task(source) {
        Some((_, task)) => Some(*task),
        None => None,
    }
}
