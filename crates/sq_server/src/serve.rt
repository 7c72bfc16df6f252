//! A server over sockets: a thread and a session for each connection, and movers beside them.
ghost use Rattle.std.specs.Prelude.{◌≡◌, ◌==◌, IfErr, IfOk, IfSome, None, is_some, map, sum_by, true, vec_len};
ghost use Rattle.sq_program.specs.Streams.{stream};
ghost use Rattle.sq_queue.specs.Seats.{HasSeats, IsNamedBy};
ghost use Rattle.sq_server.specs.inside.Crews.{roles_of};
ghost use Rattle.sq_server.specs.Outcomes.{HasServed, homes_in_all};
ghost use Rattle.sq_server.specs.inside.Outcomes.{HasToldEnd};
ghost use Rattle.sq_server.specs.Verdicts.{IsFaultOf, IsRunOf};

use crate::crew::{Member, Role, conclude, crew};
use crate::movers::move_while_open;
use crate::permits::ByPermit;
use crate::served::{Blanks, Client, Served};
use crate::threads::threads_for;
use crate::verdict::{OneRun, tell_verdict};
use sq_audit::check::AuditFault;
use sq_flags::flags::ServeMode;
use sq_lines::counted::Counted;
use sq_program::reports::{Failure, fail, no_memory};
use sq_program::results::print_listening;
use sq_store::slots::SlotStore;
use std::alloc::Global;
use std::io::Write;
use std::marker::Brand;
use std::net::{Net, SocketAddr, TcpListener, TcpStream};
use std::sync::Wait;
use std::sync::atomic::{AtomicU64, Ordering};
use std::sync::ledger::Ledger;
use std::thread;
use std::thread::Threads;
use std::time::{Clock, Duration};

/// How often a connection is asked for again where it could not be taken, as when too many files are open.
const TRIES: u32 = 100;

/// The rest before it is asked for again, in ms.
const REST: u64 = 50;

// The next connection.
fn accepted(rt: &impl Clock, listener: &TcpListener) -> Option<TcpStream> {
    for _ in 0..TRIES {
        match listener.accept() {
            Ok((stream, _)) => return Some(stream),
            Err(_) => thread::sleep(rt, Duration::from_millis(REST)),
        }
    }
    None
}

// Has reads and writes of a connection fail that wait for its client so many seconds. None, and it is closed, where the system
// refuses that.
fn timed(stream: TcpStream, idle: u32) -> Option<TcpStream>
    ensures { idle ≡ 0 → result ≡ None }
{
    let wait = Some(Duration::from_secs(idle as u64));
    stream.set_read_timeout(wait).ok()?;
    stream.set_write_timeout(wait).ok()?;
    Some(stream)
}

// Answers the lines of a connection, until its end or a fault, which ends it alone.
fn talk<R: Clock + Wait, D: Ledger, T: Ledger>(
    service: &Served<'_, R, D, T, SlotStore>,
    stream: &TcpStream,
    client: &mut Client<D, T>,
) {
    // Without it a reply may wait for the peer's delayed acknowledgement; where it is not to be had, replies come later.
    let _ = stream.set_nodelay(true);
    let mut reader = Counted::new(ByPermit::new(service.rt, &service.permits, stream));
    let mut writer = Counted::new(stream);
    let _ = service.answer(client, &mut reader, &mut writer);
}

// Serves a connection that was taken. One that could not be taken is counted.
fn connection<R: Clock + Wait, D: Ledger, T: Ledger>(
    service: &Served<'_, R, D, T, SlotStore>,
    taken: Option<TcpStream>,
    worker: &mut Member<D, T>,
)
    ensures role { worker.new.role ≡ worker.old.role }
    ensures lost { taken ≡ None → worker.new.count ≡ 1 }
    ensures served { is_some taken ≡ true → worker.new.count ≡ worker.old.count }
{
    let Some(stream) = taken else {
        worker.count = 1;
        return;
    };
    talk(service, &stream, &mut worker.client);
}

// What one of the threads does.
fn work<R: Clock + Wait, D: Ledger, T: Ledger>(
    service: &Served<'_, R, D, T, SlotStore>,
    listener: &TcpListener,
    open: &AtomicU64,
    idle: u32,
    worker: &mut Member<D, T>,
)
    ensures role { worker.new.role ≡ worker.old.role }
    ensures mover { worker.old.role ≡ Role.Move → worker.new.count ≡ worker.old.count }
{
    match worker.role {
        Role::Call => {
            let taken = accepted(service.rt, listener);
            connection(
                service,
                taken.and_then(|stream| timed(stream, idle)),
                worker,
            );
            open.fetch_sub(1, Ordering::SeqCst);
        }
        Role::Move => move_while_open(service, &mut worker.client, open),
    }
}

// All of them at once, until the last connection has ended.
fn work_all<R: Threads + Wait + Clock + Sync, D: Ledger + Send + Sync, T: Ledger + Send + Sync>(
    service: &Served<'_, R, D, T, SlotStore>,
    listener: &TcpListener,
    workers: &mut Vec<Member<D, T>>,
    mode: &ServeMode,
)
    ensures { vec_len workers.new ≡ vec_len workers.old }
{
    let open = AtomicU64::new(mode.connections as u64);
    let left = &open;
    let idle = mode.idle;
    let threads = threads_for(workers.len());
    thread::for_each_mut(
        service.rt,
        workers,
        threads,
        &|_: usize, worker: &mut Member<D, T>| { work(service, listener, left, idle, worker) },
    );
}

// Ends a service after its threads: the verdict on what they did, where each connection could be taken; None where one could not.
// Refused where what was done is no run.
fn ended<R: Clock + Wait, D: Ledger, T: Ledger>(
    service: Served<'_, R, D, T, SlotStore>,
    workers: Vec<Member<D, T>>,
) -> Result<Option<OneRun>, AuditFault>
    requires of_directory { HasSeats D.parts }
    requires of_ledger { HasSeats T.parts }
    ensures taken { IfOk result (λ run. is_some run ≡ (sum_by (λ m. m.count) workers.items == 0)) }
    ensures run { IfOk result (λ run. IfSome run (IsRunOf (vec_len service.entry.service.value.homes))) }
    ensures fault { IfErr result (IsFaultOf (vec_len service.entry.service.value.homes)) }
{
    let (run, lost) = conclude(service, workers)?;
    if lost == 0 { Ok(Some(run)) } else { Ok(None) }
}

// Serves at a listener, and ends the service.
fn serve_at<R: Threads + Wait + Clock + Sync, D: Ledger + Send + Sync, T: Ledger + Send + Sync>(
    service: Served<'_, R, D, T, SlotStore>,
    workers: Vec<Member<D, T>>,
    listener: &TcpListener,
    mode: &ServeMode,
) -> Result<Option<OneRun>, AuditFault>
    requires of_directory { HasSeats D.parts }
    requires of_ledger { HasSeats T.parts }
    ensures run { IfOk result (λ run. IfSome run (IsRunOf (vec_len service.entry.service.value.homes))) }
    ensures fault { IfErr result (IsFaultOf (vec_len service.entry.service.value.homes)) }
{
    let mut workers = workers;
    work_all(&service, listener, &mut workers, mode);
    ended(service, workers)
}

// A listener at an address, and its address with the real port.
fn bound<R: Net<Listener = TcpListener, Stream = TcpStream>>(
    rt: &R,
    address: SocketAddr,
) -> Option<(TcpListener, SocketAddr)> {
    let listener = TcpListener::bind(rt, address).ok()?;
    let here = listener.local_addr().ok()?;
    Some((listener, here))
}

// Tells how it ended: that it is one run, where it is given that it is.
fn tell_end<W: Write, E: Write>(
    ended: Result<Option<OneRun>, AuditFault>,
    output: &mut Counted<W>,
    errors: &mut E,
) -> u8
    ensures { HasToldEnd ended (stream W.contents output.old output.new) result }
{
    match ended {
        Ok(Some(run)) => tell_verdict(Ok(run), output, errors),
        Ok(None) => fail(errors, Failure::AcceptFailed),
        Err(fault) => tell_verdict(Err(fault), output, errors),
    }
}

// A service by these options, with its threads. None for want of memory.
fn ready<'a, R: Clock + Wait, D: Ledger, T: Ledger>(
    rt: &'a R,
    alloc: Global,
    mode: &ServeMode,
    blanks: Blanks,
) -> Option<(Served<'a, R, D, T, SlotStore>, Vec<Member<D, T>>)>
    requires of_directory { IsNamedBy D.name D.parts blanks.directory }
    requires of_ledger { IsNamedBy T.name T.parts blanks.ledger }
    ensures homes { IfSome result (λ r. (r.0.service.value.per_queue ≡ mode.now.options.homes) × (r.0.service.value.sample ≡ mode.now.options.sample)) }
    ensures many { IfSome result (λ r. vec_len r.0.service.value.homes ≡ homes_in_all mode.now.options) }
    ensures roles { IfSome result (λ r. map (λ w. w.role) r.1.items ≡ roles_of mode.now.connections mode.now.movers) }
{
    let service: Served<'a, R, D, T, SlotStore> = Served::new(
        rt,
        alloc,
        mode.options,
        blanks,
    ).ok()?;
    let workers = crew(&service, mode.connections, mode.movers).ok()?;
    Some((service, workers))
}

// Serves by a service of its own, whose counts have names.
fn serve_named<
    R: Net<Listener = TcpListener, Stream = TcpStream> + Threads + Wait + Clock + Sync,
    W: Write,
    E: Write,
    D: Ledger + Send + Sync,
    T: Ledger + Send + Sync,
>(
    rt: &R,
    alloc: Global,
    address: SocketAddr,
    mode: &ServeMode,
    output: &mut Counted<W>,
    errors: &mut E,
    blanks: Blanks,
) -> u8
    requires of_directory { IsNamedBy D.name D.parts blanks.directory }
    requires of_ledger { IsNamedBy T.name T.parts blanks.ledger }
    ensures { HasServed mode.now (stream W.contents output.old output.new) result }
{
    let made = ready::<R, D, T>(rt, alloc, mode, blanks);
    let Some((service, workers)) = made else {
        return no_memory(errors);
    };
    let Some((listener, here)) = bound(rt, address) else {
        return fail(errors, Failure::CannotListen);
    };
    let told = print_listening(alloc, here, output, errors);
    if told != 0 {
        return told;
    }
    let ended = serve_at(service, workers, &listener, mode);
    tell_end(ended, output, errors)
}

/// Listens at an address, tells it, and answers the lines of so many connections, a thread and a session each, while movers
/// move messages; then holds what they all did against the histories. A fault on one connection ends that one alone. Status 0
/// where what was done is one run, which is told; 1 where the address cannot be listened at, a connection could not be taken,
/// the output cannot be written, or for want of memory; 3 where it is no run.
pub fn serve<
    R: Net<Listener = TcpListener, Stream = TcpStream> + Threads + Wait + Clock + Sync,
    W: Write,
    E: Write,
>(
    rt: &R,
    alloc: Global,
    address: SocketAddr,
    mode: &ServeMode,
    output: &mut Counted<W>,
    errors: &mut E,
) -> u8
    ensures { HasServed mode.now (stream W.contents output.old output.new) result }
{
    serve_named::<R, W, E, Brand, Brand>(rt, alloc, address, mode, output, errors, Blanks::new())
}
