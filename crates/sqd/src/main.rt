//! A queue service, over standard input and output or over sockets.
#![tactic(auto)]

ghost use Rattle.std.specs.Prelude.{◌≤◌, IfOk};
ghost use Rattle.std.specs.Process.{exit_status};

use sq_lines::counted::Counted;
use sq_program::program::run;
use sq_program::reports::{no_memory, no_text};
use sq_server::host::do_next;
use std::env;
use std::io::{self, ErrorKind};
use std::net::{Net, TcpListener, TcpStream};
use std::process::ExitCode;
use std::sync::Wait;
use std::thread::Threads;
use std::time::Clock;

// Runs over the words and the streams of the process, and then does what needs threads and sockets.
fn run_process<R: Net<Listener = TcpListener, Stream = TcpStream> + Threads + Wait + Clock + Sync>(
    rt: &HostRuntime,
    threads: &R,
) -> io::Result<u8>
    ensures { IfOk result (λ status. status ≤ 3) }
{
    let alloc = rt.alloc();
    let arguments: Vec<String> = env::args(rt)?.collect(alloc)?;
    let mut words = Vec::with_capacity(alloc, arguments.len())?;
    for argument in &arguments {
        words.push(argument.as_str())?;
    }
    let mut input = Counted::new(rt.stdin());
    let mut output = Counted::new(rt.stdout());
    let mut errors = rt.stderr();
    let next = run(
        alloc,
        words.as_slice(),
        &mut input,
        &mut output,
        &mut errors,
    );
    Ok(do_next(threads, alloc, next, &mut output, &mut errors))
}

// Runs, and tells the status of the process.
fn ending<R: Net<Listener = TcpListener, Stream = TcpStream> + Threads + Wait + Clock + Sync>(
    rt: &HostRuntime,
    threads: &R,
) -> io::Result<ExitCode>
    ensures { IfOk result (λ code. exit_status code ≤ 3) }
{
    let status = match run_process(rt, threads) {
        Ok(status) => status,
        // The words were too much, before any request.
        Err(error) if error.kind() == ErrorKind::OutOfMemory => no_memory(&mut rt.stderr()),
        Err(error) if error.kind() == ErrorKind::InvalidData => no_text(&mut rt.stderr()),
        Err(error) => return Err(error),
    };
    Ok(ExitCode::from(status))
}

fn main(rt: HostRuntime) -> io::Result<ExitCode> {
    ending(&rt, &rt)
}
