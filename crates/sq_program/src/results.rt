//! Lines that are printed.
ghost use Rattle.std.specs.Prelude.{◌≡◌, ◌≤◌};
ghost use Rattle.sq_program.specs.Streams.{stream, EndsWritten};
ghost use Rattle.sq_program.specs.Results.{line_of, listening_text};

use crate::reports::{no_memory, report};
use sq_lines::counted::Counted;
use sq_lines::put::{Unwritten, put_line};
use sq_wire::run::ServeFault;
use std::alloc::Global;
use std::io::Write;
use std::net::SocketAddr;

/// Prints a text and a line feed. Status 0, or 1 where a call failed, which standard error is told.
pub fn print_line<W: Write, E: Write>(text: &str, output: &mut Counted<W>, errors: &mut E) -> u8
    ensures line { EndsWritten (λ line. line ≡ line_of text.now) (stream W.contents output.old output.new) result }
    ensures within { result ≤ 1 }
{
    match put_line(output, text.as_bytes()) {
        Ok(()) => 0,
        Err(Unwritten) => report(errors, ServeFault::Write(0)),
    }
}

/// Prints where connections are taken. Status 0, or 1 for a fault, which standard error is told.
pub fn print_listening<W: Write, E: Write>(
    alloc: Global,
    address: SocketAddr,
    output: &mut Counted<W>,
    errors: &mut E,
) -> u8
    ensures line { EndsWritten (λ line. line ≡ line_of (listening_text address)) (stream W.contents output.old output.new) result }
    ensures within { result ≤ 1 }
{
    let Ok(text) = format!(in alloc; "listening {address}") else {
        return no_memory(errors);
    };
    print_line(text.as_str(), output, errors)
}
