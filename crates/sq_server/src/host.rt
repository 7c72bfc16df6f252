//! What the words of a command line ask for that needs threads and sockets.
ghost use Rattle.std.specs.Prelude.{◌≤◌};
ghost use Rattle.sq_program.specs.Endings.{HasStatus};
ghost use Rattle.sq_program.specs.Streams.{stream};
ghost use Rattle.sq_server.specs.Outcomes.{IsDone};

use crate::race::race;
use crate::serve::serve;
use sq_lines::counted::Counted;
use sq_program::program::Next;
use std::alloc::Global;
use std::io::Write;
use std::net::{Net, TcpListener, TcpStream};
use std::sync::Wait;
use std::thread::Threads;
use std::time::Clock;

/// Does what is left to do, and answers the status of the process: 3 where an audit found a fault, and else as it says.
pub fn do_next<
    R: Net<Listener = TcpListener, Stream = TcpStream> + Threads + Wait + Clock + Sync,
    W: Write,
    E: Write,
>(rt: &R, alloc: Global, next: Next, output: &mut Counted<W>, errors: &mut E) -> u8
    requires { HasStatus next }
    ensures done { IsDone next (stream W.contents output.old output.new) result }
    ensures within { result ≤ 3 }
{
    match next {
        Next::End(status) => status,
        Next::Serve(address, mode) => serve(rt, alloc, address, &mode, output, errors),
        Next::Race(mode) => race(rt, alloc, &mode, output, errors),
    }
}
