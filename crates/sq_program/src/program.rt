//! The program as a function of its words, its input and its outputs.
ghost use Rattle.std.specs.Prelude.{◌≡◌, ◌⊎◌, map, length, ◌<◌, IfOk, IfErr};
ghost use Rattle.sq_merge.specs.Openings.{new_world};
ghost use Rattle.sq_model.specs.Options.{IsServed};
ghost use Rattle.sq_wire.specs.Audits.{IsAudit};
ghost use Rattle.sq_program.specs.Streams.{stream, EndsWritten};
ghost use Rattle.sq_program.specs.Endings.{EndsBy, EndsFor, Ends, HasStatus, IsHelp, IsAuditLine};
ghost use Rattle.sq_program.specs.inside.Endings.{EndsServing, EndsRacing};
ghost use Rattle.sq_flags.specs.declared.flags.Mode.TheVariants.{Script as ByScript};

use crate::reports::{Failure, explain, fail, no_memory, report, report_audit};
use clap::Error;
use sq_base::refusal::Refusal;
use sq_flags::flags::{Mode, RaceMode, Refused, ScriptMode, ServeMode, flags};
use sq_lines::counted::Counted;
use sq_lines::put::{Unwritten, put_line, put_out};
use sq_merge::AuditFault;
use sq_merge::world::World;
use sq_model::options::Options;
use sq_replies::text::Text;
use sq_wire::audit::audit_world;
use sq_wire::run::{ServeFault, run_script};
use std::alloc::Global;
use std::io::{Read, Write};
use std::net::SocketAddr;

/// What is left to do.
#[derive(Clone, Copy, PartialEq, Eq, Debug)]
pub enum Next {
    /// Nothing: the process ends with this status.
    End(u8),
    /// Connections are to be served at this address.
    Serve(SocketAddr, ServeMode),
    /// Clients are to race.
    Race(RaceMode),
}

/// What the text of help begins with.
pub const TITLE: &str = "A queue service in the manner of Amazon SQS standard queues\n\n";

/// Queues that a race needs: its own, and its dead-letter queue.
pub const RACE_QUEUES: u32 = 2;

// It does nothing: its contract is the law that help is never empty.
fn title_is_there()
    ensures { 0 < length TITLE.now }
{}

// Shows a text that was asked for.
fn show<W: Write, E: Write>(
    alloc: Global,
    error: &Error,
    output: &mut Counted<W>,
    errors: &mut E,
) -> u8
    ensures { EndsWritten IsHelp (stream W.contents output.old output.new) result }
{
    let Ok(text) = format!(in alloc; "{error}") else {
        return no_memory(errors);
    };
    match put_out(output, TITLE.as_bytes(), text.as_bytes()) {
        Ok(()) => 0,
        Err(Unwritten) => report(errors, ServeFault::Write(0)),
    }
}

// The audit of a world in a box.
fn audited(alloc: Global, world: Box<World>) -> Result<Text, AuditFault>
    ensures listed { IfOk result (IsAudit world.value) }
    ensures honest { IfErr result (λ f. f ≡ AuditFault.NoMemory) }
{
    audit_world(alloc, Box::into_inner(world))
}

// Writes the audit of a world that answered so many requests.
fn write_audit<W: Write, E: Write>(
    alloc: Global,
    world: Box<World>,
    answered: u64,
    output: &mut Counted<W>,
    errors: &mut E,
) -> u8
    ensures { EndsWritten (IsAuditLine world.value) (stream W.contents output.old output.new) result }
{
    let text = match audited(alloc, world) {
        Ok(text) => text,
        Err(fault) => return report_audit(errors, fault),
    };
    match put_line(output, text.as_bytes()) {
        Ok(()) => 0,
        Err(Unwritten) => report(errors, ServeFault::Write(answered)),
    }
}

// A world without queues, in a box: a function that owns a world is proved with all that it is made of.
fn opened(alloc: Global, options: Options) -> Result<Box<World>, Refusal>
    ensures ok { IfOk result (λ world. world.value ≡ new_world options) }
    ensures served { IfOk result (λ _. IsServed options) }
    ensures refused { IfErr result (λ e. ((e ≡ Refusal.NoMemory) × IsServed options) ⊎ ((e ≡ Refusal.InvalidParameterValue) × (¬ IsServed options))) }
{
    let world = World::new(alloc, options)?;
    Ok(Box::new(alloc, world)?)
}

// Answers each line of the input over a world of its own, and writes its audit where one is asked for.
fn script<R: Read, W: Write, E: Write>(
    alloc: Global,
    mode: ScriptMode,
    input: &mut Counted<R>,
    output: &mut Counted<W>,
    errors: &mut E,
) -> u8
    ensures { EndsBy (Ok (ByScript mode)) (stream R.remaining input.old input.new) (stream W.contents output.old output.new) result }
{
    let mut world = match opened(alloc, mode.options) {
        Ok(world) => world,
        Err(Refusal::InvalidParameterValue) => return fail(errors, Failure::BadOptions),
        Err(_) => return no_memory(errors),
    };
    match run_script(alloc, input, output, &mut world) {
        Ok(_) if !mode.audit => 0,
        Ok(answered) => write_audit(alloc, world, answered, output, errors),
        Err(fault) => report(errors, fault),
    }
}

// Serving: it goes on where the options are served and the address is one.
fn serve<E: Write>(mode: ServeMode, errors: &mut E) -> Next
    ensures { EndsServing mode result }
{
    if !mode.options.are_served() {
        return Next::End(fail(errors, Failure::BadOptions));
    }
    match mode.address {
        Some(address) => Next::Serve(address, mode),
        None => Next::End(fail(errors, Failure::CannotListen)),
    }
}

// A race: it goes on where the options are served and there may be two queues.
fn race<E: Write>(mode: RaceMode, errors: &mut E) -> Next
    ensures { EndsRacing mode result }
{
    if !mode.options.are_served() || mode.options.queues < RACE_QUEUES {
        return Next::End(fail(errors, Failure::BadOptions));
    }
    Next::Race(mode)
}

// Does what was asked for, up to what needs threads and sockets.
fn carry_out<R: Read, W: Write, E: Write>(
    alloc: Global,
    parsed: Result<Mode, Refused>,
    input: &mut Counted<R>,
    output: &mut Counted<W>,
    errors: &mut E,
) -> Next
    ensures { Ends parsed (stream R.remaining input.old input.new) (stream W.contents output.old output.new) result }
{
    match parsed {
        Ok(Mode::Script(mode)) => Next::End(script(alloc, mode, input, output, errors)),
        Ok(Mode::Serve(mode)) => serve(mode, errors),
        Ok(Mode::Race(mode)) => race(mode, errors),
        Err(Refused::Text(error)) => Next::End(show(alloc, &error, output, errors)),
        Err(Refused::Mistake(error)) => Next::End(explain(&error, errors)),
        Err(Refused::NoMemory) => Next::End(no_memory(errors)),
    }
}

/// The whole program, over the words of its command line, up to what needs threads and sockets, which it hands back. It ends
/// with status 0 where what the words ask for is done, 1 for a fault, and 2 for bad words or options.
pub fn run<R: Read, W: Write, E: Write>(
    alloc: Global,
    words: &[&str],
    input: &mut Counted<R>,
    output: &mut Counted<W>,
    errors: &mut E,
) -> Next
    ensures ends { EndsFor (map (λ word. word.now) words.now) (stream R.remaining input.old input.new) (stream W.contents output.old output.new) result }
    ensures within { HasStatus result }
{
    let parsed = flags(alloc, words);
    carry_out(alloc, parsed, input, output, errors)
}
