//! The threads of a server or of a race: each has a session, and calls for clients or moves messages.
ghost use Rattle.std.specs.Prelude.{◌≡◌, ◌⊎◌, ◌++◌, ◌-◌, ◌^◌, IfErr, IfOk, OnOk, map, min, replicate, sum_by, vec_len};
ghost use Rattle.sq_queue.specs.Seats.{HasSeats};
ghost use Rattle.sq_server.specs.inside.Crews.{roles_of};
ghost use Rattle.sq_server.specs.Verdicts.{IsFaultLeft, IsRunLeft};

use crate::ending::end;
use crate::served::{Client, Served};
use crate::verdict::OneRun;
use sq_audit::check::AuditFault;
use sq_base::refusal::Refusal;
use sq_store::slots::SlotStore;
use std::alloc::{AllocError, Global};
use std::sync::Wait;
use std::sync::ledger::Ledger;
use std::time::Clock;

/// What a thread does.
#[derive(Clone, Copy, PartialEq, Eq, Debug)]
pub(crate) enum Role {
    /// Calls for a client: that of a connection, or one that makes calls of its own.
    Call,
    /// Moves messages between queues.
    Move,
}

/// A thread, with its session, and what it counted: sends that were answered, or connections that could not be taken.
#[derive(Drop)]
pub(crate) struct Member<D: Ledger, T: Ledger> {
    pub(crate) client: Client<D, T>,
    pub(crate) role: Role,
    pub(crate) count: u64,
}

// So many more for a role.
fn add<R: Clock + Wait, D: Ledger, T: Ledger>(
    service: &Served<'_, R, D, T, SlotStore>,
    crew: &mut Vec<Member<D, T>>,
    many: u32,
    role: Role,
) -> Result<(), Refusal>
    ensures roles { OnOk result (map (λ m. m.role) crew.new.items ≡ map (λ m. m.role) crew.old.items ++ replicate many role) }
    ensures count { OnOk result (sum_by (λ m. m.count) crew.new.items ≡ sum_by (λ m. m.count) crew.old.items) }
    ensures refused { IfErr result (λ e. (e ≡ Refusal.NoMemory) ⊎ (e ≡ Refusal.Worn)) }
{
    for _ in 0..many {
        crew.push(Member {
            client: service.client()?,
            role,
            count: 0,
        })?;
    }
    Ok(())
}

/// So many movers, and then so many threads that call. Of two halves of a list that are to be done at once, the system's threads
/// do the front one last where no thread can be made for it: so no mover, which waits for connections to end, is done before one.
pub(crate) fn crew<R: Clock + Wait, D: Ledger, T: Ledger>(
    service: &Served<'_, R, D, T, SlotStore>,
    callers: u32,
    movers: u32,
) -> Result<Vec<Member<D, T>>, Refusal>
    ensures roles { IfOk result (λ crew. map (λ m. m.role) crew.items ≡ roles_of callers movers) }
    ensures count { IfOk result (λ crew. sum_by (λ m. m.count) crew.items ≡ 0) }
    ensures refused { IfErr result (λ e. (e ≡ Refusal.NoMemory) ⊎ (e ≡ Refusal.Worn)) }
{
    let mut crew = Vec::with_capacity(service.alloc, callers as usize + movers as usize)?;
    add(service, &mut crew, movers, Role::Move)?;
    add(service, &mut crew, callers, Role::Call)?;
    Ok(crew)
}

// What all counted together, and their clients, in their order.
fn apart<D: Ledger, T: Ledger>(
    alloc: Global,
    crew: Vec<Member<D, T>>,
) -> Result<(u64, Vec<Client<D, T>>), AllocError>
    ensures count { IfOk result (λ r. r.0 ≡ min (sum_by (λ m. m.count) crew.items) (2 ^ 64 - 1)) }
    ensures clients { IfOk result (λ r. r.1.items ≡ map (λ m. m.client) crew.items) }
{
    let mut clients = Vec::with_capacity(alloc, crew.len())?;
    let mut count = 0u64;
    for member in crew {
        count = count.saturating_add(member.count);
        clients.push_reserved(member.client);
    }
    Ok((count, clients))
}

/// Ends a service after its threads: the verdict on what they did, and what they counted together. Refused where what was done
/// is no run.
pub(crate) fn conclude<R: Clock + Wait, D: Ledger, T: Ledger>(
    service: Served<'_, R, D, T, SlotStore>,
    crew: Vec<Member<D, T>>,
) -> Result<(OneRun, u64), AuditFault>
    requires of_directory { HasSeats D.parts }
    requires of_ledger { HasSeats T.parts }
    ensures count { IfOk result (λ r. r.1 ≡ min (sum_by (λ m. m.count) crew.items) (2 ^ 64 - 1)) }
    ensures run { IfOk result (λ r. IsRunLeft (vec_len service.entry.service.value.homes) (map (λ m. m.client) crew.items) r.0) }
    ensures fault { IfErr result (IsFaultLeft (vec_len service.entry.service.value.homes) (map (λ m. m.client) crew.items)) }
{
    let Ok((count, clients)) = apart(service.alloc, crew) else {
        return Err(AuditFault::NoMemory);
    };
    let run = end(service, clients)?;
    Ok((run, count))
}
