//! What the words of a command line ask for.
ghost use Rattle.std.specs.Prelude.{◌≡◌, IfOk, IfErr, map};
ghost use Rattle.clap.specs.Words.{first_value, found_of, kind_of, subcommand_rows_of};
ghost use Rattle.clap.specs.declared.error.kind.ErrorKind.TheVariants.{ValueValidation};
ghost use Rattle.sq_flags.specs.declared.flags.ScriptMode.{ScriptMode as ScriptValue};
ghost use Rattle.sq_flags.specs.declared.flags.ServeMode.{ServeMode as ServeValue};
ghost use Rattle.sq_flags.specs.declared.flags.RaceMode.{RaceMode as RaceValue};
ghost use Rattle.sq_flags.specs.declared.flags.Mode.{Mode as ModeValue};
ghost use Rattle.sq_flags.specs.declared.flags.Refused.TheVariants.{NoMemory as RefusedNoMemory};
ghost use Rattle.sq_flags.specs.Flags.{IsScriptOf, IsServeOf, IsRaceOf, IsModeAt, IsRefusalOf, ParsesTo};

use crate::command::program_command;
use crate::texts::Texts;
use crate::values::{
    MOST_CALLS, MOST_CLIENTS, MOST_CONNECTIONS, address_of, asks_for_audit, given_number, idle_of,
    movers_of, options_of,
};
use clap::error::ErrorKind;
use clap::{ArgMatches, Command, Error};
use sq_model::options::Options;
use std::alloc::{AllocError, Global};
use std::net::SocketAddr;

/// How the lines of the standard input are answered.
#[derive(Clone, Copy, PartialEq, Eq, Debug)]
pub struct ScriptMode {
    pub options: Options,
    /// Whether an audit is written after the last reply.
    pub audit: bool,
}

/// How the lines of connections are answered.
#[derive(Clone, Copy, PartialEq, Eq, Debug)]
pub struct ServeMode {
    pub options: Options,
    /// Where connections are taken; None where the text that was given is no IP address and port.
    pub address: Option<SocketAddr>,
    /// Connections that are served: 1 to `MOST_CONNECTIONS`.
    pub connections: u32,
    /// Seconds that a connection is waited for, until a byte comes of it or goes to it: 1 to `MOST_IDLE`.
    pub idle: u32,
    /// Threads that move messages meanwhile: 0 to `MOST_MOVERS`.
    pub movers: u32,
}

/// How clients call at once.
#[derive(Clone, Copy, PartialEq, Eq, Debug)]
pub struct RaceMode {
    pub options: Options,
    /// Clients, each a thread: 1 to `MOST_CLIENTS`.
    pub clients: u32,
    /// Calls of each client: 0 to `MOST_CALLS`.
    pub calls: u64,
    /// Threads that move messages meanwhile: 0 to `MOST_MOVERS`.
    pub movers: u32,
}

/// What a command line asks for.
#[derive(Clone, Copy, PartialEq, Eq, Debug)]
pub enum Mode {
    /// Answer the lines of the standard input.
    Script(ScriptMode),
    /// Answer the lines of connections.
    Serve(ServeMode),
    /// Have clients call at once.
    Race(RaceMode),
}

/// Why a command line asks for nothing.
#[derive(Drop)]
pub enum Refused {
    NoMemory,
    /// It asks for a text: help, or the version.
    Text(Error),
    /// A mistake in the words.
    Mistake(Error),
}

impl From<AllocError> for Refused {
    ghost from_gives = { λ _ e. e ≡ RefusedNoMemory };

    fn from(_: AllocError) -> Refused {
        Refused::NoMemory
    }
}

impl From<Error> for Refused {
    ghost from_gives = { λ error e. IsRefusalOf error e };

    fn from(error: Error) -> Refused {
        if error.kind() == ErrorKind::OutOfMemory {
            Refused::NoMemory
        } else if error.use_stderr() {
            Refused::Mistake(error)
        } else {
            Refused::Text(error)
        }
    }
}

// What the flags of `script` ask for, or the name of one that cannot be read.
fn script_of(found: &ArgMatches<'_>) -> Result<ScriptMode, &'static str>
    ensures ok { IfOk result (λ mode. IsScriptOf (first_value (found_of found.now)) mode) }
    ensures err { IfErr result (λ _. (mode : ScriptValue) → ¬ IsScriptOf (first_value (found_of found.now)) mode) }
{
    Ok(ScriptMode {
        options: options_of(found)?,
        audit: asks_for_audit(found),
    })
}

// What the flags of `serve` ask for, or the name of one that cannot be read.
fn serve_of(found: &ArgMatches<'_>) -> Result<ServeMode, &'static str>
    ensures ok { IfOk result (λ mode. IsServeOf (first_value (found_of found.now)) mode) }
    ensures err { IfErr result (λ _. (mode : ServeValue) → ¬ IsServeOf (first_value (found_of found.now)) mode) }
{
    Ok(ServeMode {
        address: address_of(found)?,
        connections: given_number(found, "connections", 1, MOST_CONNECTIONS as u64)? as u32,
        idle: idle_of(found)?,
        movers: movers_of(found)?,
        options: options_of(found)?,
    })
}

// What the flags of `race` ask for, or the name of one that cannot be read.
fn race_of(found: &ArgMatches<'_>) -> Result<RaceMode, &'static str>
    ensures ok { IfOk result (λ mode. IsRaceOf (first_value (found_of found.now)) mode) }
    ensures err { IfErr result (λ _. (mode : RaceValue) → ¬ IsRaceOf (first_value (found_of found.now)) mode) }
{
    Ok(RaceMode {
        clients: given_number(found, "clients", 1, MOST_CLIENTS as u64)? as u32,
        calls: given_number(found, "calls", 0, MOST_CALLS as u64)?,
        movers: movers_of(found)?,
        options: options_of(found)?,
    })
}

// What the subcommand and its flags ask for, or the name of a flag that cannot be read.
fn mode_of(matches: &ArgMatches<'_>) -> Result<Mode, &'static str>
    ensures ok { IfOk result (λ mode. IsModeAt (subcommand_rows_of matches.now) mode) }
    ensures err { IfErr result (λ _. (mode : ModeValue) → ¬ IsModeAt (subcommand_rows_of matches.now) mode) }
{
    if let Some(found) = matches.subcommand_matches("script") {
        return Ok(Mode::Script(script_of(found)?));
    }
    if let Some(found) = matches.subcommand_matches("serve") {
        return Ok(Mode::Serve(serve_of(found)?));
    }
    if let Some(found) = matches.subcommand_matches("race") {
        return Ok(Mode::Race(race_of(found)?));
    }
    Err("subcommand")
}

// An error of the form that clap gives its own.
fn usage(alloc: Global, command: &mut Command<'_>, name: &str) -> Result<Error, AllocError>
    ensures kind { IfOk result (λ e. kind_of e ≡ ValueValidation) }
{
    let message = format!(in alloc; "invalid value for '{name}'")?;
    command.error(ErrorKind::ValueValidation, message.as_str())
}

/// What words ask for. The first of them is the program's own name.
pub fn flags<'a>(alloc: Global, words: &'a [&'a str]) -> Result<Mode, Refused>
    ensures { ParsesTo (map (λ word. word.now) words.entry.now) result }
{
    let texts = Texts::new(alloc)?;
    let mut command = program_command(alloc, &texts)?;
    let matches = command.try_get_matches_from_mut(words)?;
    match mode_of(&matches) {
        Ok(mode) => Ok(mode),
        Err(name) => Err(Refused::from(usage(alloc, &mut command, name)?)),
    }
}
