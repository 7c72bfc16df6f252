//! A race of clients and movers at one queue.
ghost use Rattle.std.specs.Prelude.{◌≡◌, ◌+◌, ◌*◌, ◌≤◌, IfErr, IfOk, IfSome, map, sum_by, vec_len};
ghost use Rattle.sq_program.specs.Streams.{stream};
ghost use Rattle.sq_queue.specs.Seats.{HasSeats, IsNamedBy};
ghost use Rattle.sq_server.specs.inside.Crews.{roles_of};
ghost use Rattle.sq_server.specs.Outcomes.{HasRaced, homes_in_all};
ghost use Rattle.sq_server.specs.inside.Outcomes.{HasToldRace};
ghost use Rattle.sq_server.specs.Around.{around_all};
ghost use Rattle.sq_server.specs.Rounds.{MovesForRace};
ghost use Rattle.sq_server.specs.Verdicts.{IsFaultOf, IsRunOf};

use crate::clients::{make_calls, make_queues};
use crate::crew::{Member, Role, conclude, crew};
use crate::movers::move_for_a_race;
use crate::served::{Blanks, Served};
use crate::threads::threads_for;
use crate::verdict::{OneRun, print_race};
use sq_audit::check::AuditFault;
use sq_base::refusal::Refusal;
use sq_flags::flags::RaceMode;
use sq_lines::counted::Counted;
use sq_program::reports::{no_memory, report_audit};
use sq_store::slots::SlotStore;
use std::alloc::Global;
use std::io::Write;
use std::marker::Brand;
use std::sync::Wait;
use std::sync::ledger::Ledger;
use std::thread;
use std::thread::Threads;
use std::time::Clock;

// What one of the threads does.
fn run<R: Clock + Wait, D: Ledger, T: Ledger>(
    service: &Served<'_, R, D, T, SlotStore>,
    racer: &mut Member<D, T>,
    calls: u64,
)
    ensures role { racer.new.role ≡ racer.old.role }
    ensures mover { racer.old.role ≡ Role.Move → racer.new.count ≡ racer.old.count }
    ensures turns { racer.old.role ≡ Role.Move → MovesForRace (around_all service.now.service.value) racer.old.client racer.new.client }
    ensures client { racer.old.role ≡ Role.Call → 3 * racer.new.count ≤ calls + 2 }
{
    match racer.role {
        Role::Call => racer.count = make_calls(service, &mut racer.client, calls),
        Role::Move => move_for_a_race(service, &mut racer.client),
    }
}

// All of them at once.
fn run_all<R: Threads + Wait + Clock + Sync, D: Ledger + Send + Sync, T: Ledger + Send + Sync>(
    service: &Served<'_, R, D, T, SlotStore>,
    racers: &mut Vec<Member<D, T>>,
    calls: u64,
)
    ensures { vec_len racers.new ≡ vec_len racers.old }
{
    let threads = threads_for(racers.len());
    thread::for_each_mut(
        service.rt,
        racers,
        threads,
        &|_: usize, racer: &mut Member<D, T>| run(service, racer, calls),
    );
}

// All that race, once the queues are made by a client that then goes.
fn ready<R: Clock + Wait, D: Ledger, T: Ledger>(
    service: &Served<'_, R, D, T, SlotStore>,
    mode: &RaceMode,
) -> Result<Vec<Member<D, T>>, Refusal>
    ensures roles { IfOk result (λ racers. map (λ m. m.role) racers.items ≡ roles_of mode.now.clients mode.now.movers) }
    ensures count { IfOk result (λ racers. sum_by (λ m. m.count) racers.items ≡ 0) }
{
    let mut first = service.client()?;
    make_queues(service, &mut first)?;
    service.retire(first)?;
    crew(service, mode.clients, mode.movers)
}

// The race at a service, which then ends.
fn race_at<R: Threads + Wait + Clock + Sync, D: Ledger + Send + Sync, T: Ledger + Send + Sync>(
    service: Served<'_, R, D, T, SlotStore>,
    racers: Vec<Member<D, T>>,
    calls: u64,
) -> Result<(OneRun, u64), AuditFault>
    requires of_directory { HasSeats D.parts }
    requires of_ledger { HasSeats T.parts }
    ensures run { IfOk result (λ r. IsRunOf (vec_len service.entry.service.value.homes) r.0) }
    ensures fault { IfErr result (IsFaultOf (vec_len service.entry.service.value.homes)) }
{
    let mut racers = racers;
    run_all(&service, &mut racers, calls);
    conclude(service, racers)
}

// How a race ends at a service of its own, whose counts have names. None for want of memory.
fn raced<R: Threads + Wait + Clock + Sync, D: Ledger + Send + Sync, T: Ledger + Send + Sync>(
    rt: &R,
    alloc: Global,
    mode: &RaceMode,
    blanks: Blanks,
) -> Option<Result<(OneRun, u64), AuditFault>>
    requires of_directory { IsNamedBy D.name D.parts blanks.directory }
    requires of_ledger { IsNamedBy T.name T.parts blanks.ledger }
    ensures run { IfSome result (λ ended. IfOk ended (λ r. IsRunOf (homes_in_all mode.now.options) r.0)) }
    ensures fault { IfSome result (λ ended. IfErr ended (IsFaultOf (homes_in_all mode.now.options))) }
{
    let service: Served<'_, R, D, T, SlotStore> = Served::new(
        rt,
        alloc,
        mode.options,
        blanks,
    ).ok()?;
    let racers = ready(&service, mode).ok()?;
    Some(race_at(service, racers, mode.calls))
}

// Tells how it ended: that it is one run, where it is given that it is.
fn tell_race<W: Write, E: Write>(
    alloc: Global,
    mode: &RaceMode,
    ended: Result<(OneRun, u64), AuditFault>,
    output: &mut Counted<W>,
    errors: &mut E,
) -> u8
    ensures { HasToldRace mode.now ended (stream W.contents output.old output.new) result }
{
    match ended {
        Ok((run, sent)) => print_race(
            alloc,
            &run,
            mode.calls.saturating_mul(mode.clients as u64),
            sent,
            output,
            errors,
        ),
        Err(fault) => report_audit(errors, fault),
    }
}

/// Lets clients and movers call at one queue at once, and holds what they did against the histories. Status 0 where what was done is one
/// run, which is told with how many calls were made and how many sends answered; 1 for want of memory or an output that
/// cannot be written; 3 where it is no run.
pub fn race<R: Threads + Wait + Clock + Sync, W: Write, E: Write>(
    rt: &R,
    alloc: Global,
    mode: &RaceMode,
    output: &mut Counted<W>,
    errors: &mut E,
) -> u8
    ensures { HasRaced mode.now (stream W.contents output.old output.new) result }
{
    match raced::<R, Brand, Brand>(rt, alloc, mode, Blanks::new()) {
        Some(ended) => tell_race(alloc, mode, ended, output, errors),
        None => no_memory(errors),
    }
}
