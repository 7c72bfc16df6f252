//! The program's command line in the words of clap: its subcommands and their flags.
ghost use Rattle.std.specs.Prelude.{◌≡◌, IfOk, codes, false};
ghost use Rattle.clap.specs.Words.{app_of, new_app, rule_of, with_rule, with_subcommand};
ghost use Rattle.clap.specs.declared.Command.TheViews.{out-Command as fields_of};
ghost use Rattle.sq_flags.specs.CommandLine.{number_rule, with_needed, with_idle, with_number, with_movers, with_options, script_app, serve_app, race_app, with_required, program_app};

use crate::texts::{AUDIT, FLAGS, LISTEN, OptionTexts, RACE, SCRIPT, SEED, SERVE, Texts};
use crate::values::{MOST_CALLS, MOST_CLIENTS, MOST_CONNECTIONS, MOST_IDLE, MOST_MOVERS};
use clap::builder::ValueParser;
use clap::{Arg, ArgAction, Command};
use sq_model::options::{MOST_FLIGHTS, MOST_HOMES, MOST_QUEUES, MOST_ROWS, MOST_TRANSIT};
use std::alloc::{AllocError, Global};

// A flag that takes a whole number within bounds.
fn number_flag<'a>(
    alloc: Global,
    name: &'a str,
    least: u64,
    greatest: u64,
    help: &'a str,
) -> Arg<'a>
    ensures rule { rule_of result ≡ number_rule name.entry.now least greatest }
    ensures local { result.global ≡ false }
{
    Arg::new(alloc, name)
        .long(name)
        .value_name("N")
        .value_parser(ValueParser::Unsigned(least, greatest))
        .help(help)
}

// A subcommand without flags, and what help says of it.
fn named<'a>(alloc: Global, name: &'a str, about: &'a str) -> Command<'a>
    ensures app { app_of result ≡ new_app name.entry.now }
    ensures local { (fields_of result).has_globals ≡ false }
{
    Command::new(alloc, name).about(about)
}

// Adds a subcommand to a command.
fn with_command<'a>(
    command: Command<'a>,
    subcommand: Command<'a>,
) -> Result<Command<'a>, AllocError>
    requires { (fields_of subcommand).has_globals ≡ false }
    ensures { IfOk result (λ c. app_of c ≡ with_subcommand (app_of command.entry) (app_of subcommand.entry).top) }
{
    command.subcommand(subcommand)
}

// Adds a flag to a command.
fn with_flag<'a>(command: Command<'a>, flag: Arg<'a>) -> Result<Command<'a>, AllocError>
    requires none { (fields_of command).has_globals ≡ false }
    requires local { flag.global ≡ false }
    ensures app { IfOk result (λ c. app_of c ≡ with_rule (app_of command.entry) (rule_of flag.entry)) }
    ensures local { IfOk result (λ c. (fields_of c).has_globals ≡ false) }
{
    command.arg(flag)
}

// Adds a flag that takes a whole number from 1 to a bound of the options.
fn with_bounded<'a>(
    alloc: Global,
    command: Command<'a>,
    name: &'a str,
    greatest: u32,
    help: &'a String,
) -> Result<Command<'a>, AllocError>
    requires { (fields_of command).has_globals ≡ false }
    ensures app { IfOk result (λ c. app_of c ≡ with_number name.entry.now 1 greatest (app_of command.entry)) }
    ensures local { IfOk result (λ c. (fields_of c).has_globals ≡ false) }
{
    let flag = number_flag(alloc, name, 1, greatest as u64, help.as_str());
    with_flag(command, flag)
}

// Adds the flags of the options.
fn with_options<'a>(
    alloc: Global,
    command: Command<'a>,
    texts: &'a OptionTexts,
) -> Result<Command<'a>, AllocError>
    requires { (fields_of command).has_globals ≡ false }
    ensures app { IfOk result (λ c. app_of c ≡ with_options (app_of command.entry)) }
    ensures local { IfOk result (λ c. (fields_of c).has_globals ≡ false) }
{
    let command = with_bounded(alloc, command, "homes", MOST_HOMES, &texts.homes)?;
    let command = with_bounded(alloc, command, "sample", MOST_HOMES, &texts.sample)?;
    let command = with_bounded(alloc, command, "queues", MOST_QUEUES, &texts.queues)?;
    let command = with_bounded(alloc, command, "rows", MOST_ROWS, &texts.rows)?;
    let command = with_bounded(alloc, command, "flights", MOST_FLIGHTS, &texts.flights)?;
    let command = with_bounded(alloc, command, "transit", MOST_TRANSIT, &texts.transit)?;
    with_flag(command, number_flag(alloc, "seed", 0, u64::MAX, SEED))
}

// Adds the flag of the threads that move messages, and those of the options.
fn with_movers_and_options<'a>(
    alloc: Global,
    command: Command<'a>,
    movers: &'a String,
    options: &'a OptionTexts,
) -> Result<Command<'a>, AllocError>
    requires { (fields_of command).has_globals ≡ false }
    ensures app { IfOk result (λ c. app_of c ≡ with_options (with_movers (app_of command.entry))) }
    ensures local { IfOk result (λ c. (fields_of c).has_globals ≡ false) }
{
    let flag = number_flag(alloc, "movers", 0, MOST_MOVERS as u64, movers.as_str());
    with_options(alloc, with_flag(command, flag)?, options)
}

fn script_command<'a>(alloc: Global, texts: &'a Texts) -> Result<Command<'a>, AllocError>
    ensures app { IfOk result (λ c. app_of c ≡ script_app) }
    ensures local { IfOk result (λ c. (fields_of c).has_globals ≡ false) }
{
    let command = with_options(alloc, named(alloc, "script", SCRIPT), &texts.options)?;
    let audit = Arg::new(alloc, "audit")
        .long("audit")
        .action(ArgAction::SetTrue)
        .help(AUDIT);
    with_flag(command, audit)
}

// Adds the flags of how many connections there are, and of how long each is waited for.
fn with_connections<'a>(
    alloc: Global,
    command: Command<'a>,
    texts: &'a Texts,
) -> Result<Command<'a>, AllocError>
    requires { (fields_of command).has_globals ≡ false }
    ensures app { IfOk result (λ c. app_of c ≡ with_idle (with_needed (codes "connections") 1 1024 (app_of command.entry))) }
    ensures local { IfOk result (λ c. (fields_of c).has_globals ≡ false) }
{
    let most = MOST_CONNECTIONS as u64;
    let connections = number_flag(alloc, "connections", 1, most, texts.connections.as_str());
    let command = with_flag(command, connections.required(true))?;
    let idle = number_flag(alloc, "idle", 1, MOST_IDLE as u64, texts.idle.as_str());
    with_flag(command, idle)
}

fn serve_command<'a>(alloc: Global, texts: &'a Texts) -> Result<Command<'a>, AllocError>
    ensures app { IfOk result (λ c. app_of c ≡ serve_app) }
    ensures local { IfOk result (λ c. (fields_of c).has_globals ≡ false) }
{
    let address = Arg::new(alloc, "listen")
        .long("listen")
        .value_name("ADDR")
        .required(true)
        .help(LISTEN);
    let command = with_flag(named(alloc, "serve", SERVE), address)?;
    let command = with_connections(alloc, command, texts)?;
    with_movers_and_options(alloc, command, &texts.movers, &texts.options)
}

fn race_command<'a>(alloc: Global, texts: &'a Texts) -> Result<Command<'a>, AllocError>
    ensures app { IfOk result (λ c. app_of c ≡ race_app) }
    ensures local { IfOk result (λ c. (fields_of c).has_globals ≡ false) }
{
    let command = named(alloc, "race", RACE);
    let clients = number_flag(
        alloc,
        "clients",
        1,
        MOST_CLIENTS as u64,
        texts.clients.as_str(),
    );
    let command = with_flag(command, clients.required(true))?;
    let calls = number_flag(alloc, "calls", 0, MOST_CALLS as u64, texts.calls.as_str());
    let command = with_flag(command, calls.required(true))?;
    with_movers_and_options(alloc, command, &texts.movers, &texts.options)
}

// The program, before it has subcommands.
fn program<'a>(alloc: Global) -> Command<'a>
    ensures { app_of result ≡ with_required (new_app (codes "sqd")) }
{
    Command::new(alloc, "sqd")
        .subcommand_required(true)
        .after_help(FLAGS)
}

/// The program's command line.
pub fn program_command<'a>(alloc: Global, texts: &'a Texts) -> Result<Command<'a>, AllocError>
    ensures app { IfOk result (λ c. app_of c ≡ program_app) }
{
    let command = with_command(program(alloc), script_command(alloc, texts)?)?;
    let command = with_command(command, serve_command(alloc, texts)?)?;
    with_command(command, race_command(alloc, texts)?)
}
