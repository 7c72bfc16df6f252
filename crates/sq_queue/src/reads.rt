//! What a session reads of a service between its calls. It is no event: the session has seen then all that the part has.
ghost use Rattle.std.specs.Prelude.{◌≡◌, ◌<◌, IfErr, IfOk, IfSome, OnErr, OnOk, length, true};
ghost use Rattle.sq_model.specs.Ledgers.{is_of_source};
ghost use Rattle.sq_directory.specs.DirectoryHistory.{DirectoryHistory};
ghost use Rattle.sq_queue.specs.LockedParts.{TheDirectory};
ghost use Rattle.sq_queue.specs.Services.{HasRead, LastTaskRead, NamesRead};

use crate::service::{Clock, Gate, Serving, take_lock};
use crate::session::Session;
use sq_base::ids::QueueNo;
use sq_base::refusal::Refusal;
use sq_model::listed::Listed;
use sq_model::task::{NamedQueue, Task};
use sq_store::slots::SlotStore;
use std::sync::Wait;
use std::sync::ledger::Ledger;

impl<C: Clock + Drop, G: Gate + Drop, D: Ledger, T: Ledger> Serving<C, G, D, T, SlotStore> {
    /// The names and numbers of all queues, in order of creation, as they are at one moment. Refused as NoMemory where there are
    /// some.
    pub fn names<R: Wait>(
        &self,
        rt: &R,
        session: &mut Session<D, T>,
    ) -> Result<Listed<NamedQueue>, Refusal>
        ensures names { IfOk result (λ names. NamesRead (G.saw self.now.gate) session.old names session.new) }
        ensures read { OnOk result (HasRead session.old session.new) }
        ensures refused { IfErr result (λ e. (e ≡ Refusal.NoMemory) × ((part : DirectoryHistory) × G.saw self.now.gate (TheDirectory part) × (0 < length part.directory.queues))) }
        ensures err { OnErr result (session.new ≡ session.old) }
    {
        let part = take_lock(rt, &self.directory);
        self.gate.at_directory(&part.directory);
        part.names(self.alloc, session)
    }

    /// The most recent move task of a source; none where it had none.
    pub fn last_task<R: Wait>(
        &self,
        rt: &R,
        session: &mut Session<D, T>,
        source: QueueNo,
    ) -> Option<Task>
        ensures task { LastTaskRead (G.saw self.now.gate) session.old source result session.new }
        ensures source { IfSome result (λ task. is_of_source source task ≡ true) }
        ensures read { HasRead session.old session.new }
    {
        let part = take_lock(rt, &self.ledger);
        self.gate.at_ledger(&part.ledger);
        part.last_task(session, source)
    }
}
