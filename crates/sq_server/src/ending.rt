//! How a service ends: its parts are gathered with the records of its sessions, and whether all that was done is one run.
ghost use Rattle.std.specs.Prelude.{◌≡◌, IfErr, IfOk, IfSome, vec_len};
ghost use Rattle.sq_queue.specs.Seats.{HasSeats};
ghost use Rattle.sq_server.specs.Verdicts.{AreLeftBy, IsFaultLeft, IsRunLeft};

use crate::clock::SystemClock;
use crate::served::{Client, Served, TRIES};
use crate::verdict::{OneRun, judged};
use sq_audit::check::AuditFault;
use sq_audit::parts::Parts;
use sq_queue::service::{Open, Serving};
use sq_queue::session::Session;
use sq_store::slots::SlotStore;
use std::alloc::{AllocError, Global};
use std::sync::Wait;
use std::sync::ledger::Ledger;
use std::time::Clock;

// The sessions of clients, in their order.
fn sessions_of<D: Ledger, T: Ledger>(
    alloc: Global,
    clients: Vec<Client<D, T>>,
) -> Result<Vec<Session<D, T>>, AllocError>
    ensures { IfOk result (λ sessions. sessions.items ≡ clients.items) }
{
    let mut sessions = Vec::with_capacity(alloc, clients.len())?;
    for client in clients {
        sessions.push_reserved(Box::into_inner(client.session));
    }
    Ok(sessions)
}

// The parts that a service leaves, with the records of these sessions. Where there is no memory to gather them, all of it is
// there as it was, and it is tried again.
fn gathered<R: Clock + Wait, D: Ledger, T: Ledger>(
    service: Serving<SystemClock<'_, R>, Open, D, T, SlotStore>,
    sessions: Vec<Session<D, T>>,
) -> Option<Parts>
    requires of_directory { HasSeats D.parts }
    requires of_ledger { HasSeats T.parts }
    ensures { IfSome result (AreLeftBy (vec_len service.entry.homes) sessions.items) }
{
    let mut service = service;
    let mut sessions = sessions;
    for _ in 0..TRIES {
        match service.finish(sessions) {
            Ok(parts) => return Some(parts),
            Err(unfinished) => {
                service = unfinished.service;
                sessions = unfinished.sessions;
            }
        }
    }
    None
}

// The parts that a service leaves, in a box.
fn parts_of<R: Clock + Wait, D: Ledger, T: Ledger>(
    service: Served<'_, R, D, T, SlotStore>,
    clients: Vec<Client<D, T>>,
) -> Option<Box<Parts>>
    requires of_directory { HasSeats D.parts }
    requires of_ledger { HasSeats T.parts }
    ensures { IfSome result (λ parts. AreLeftBy (vec_len service.entry.service.value.homes) clients.items parts.value) }
{
    let alloc = service.alloc;
    let Ok(sessions) = sessions_of(alloc, clients) else {
        return None;
    };
    let parts = gathered(Box::into_inner(service.service), sessions)?;
    Box::new(alloc, parts).ok()
}

/// Ends a service with these clients, which are all that it had. Refused where what was done is no run.
pub fn end<R: Clock + Wait, D: Ledger, T: Ledger>(
    service: Served<'_, R, D, T, SlotStore>,
    clients: Vec<Client<D, T>>,
) -> Result<OneRun, AuditFault>
    requires of_directory { HasSeats D.parts }
    requires of_ledger { HasSeats T.parts }
    ensures run { IfOk result (IsRunLeft (vec_len service.entry.service.value.homes) clients.items) }
    ensures fault { IfErr result (IsFaultLeft (vec_len service.entry.service.value.homes) clients.items) }
{
    let alloc = service.alloc;
    match parts_of(service, clients) {
        Some(parts) => judged(alloc, parts),
        None => Err(AuditFault::NoMemory),
    }
}
