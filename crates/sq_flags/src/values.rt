//! What the texts of flags say: numbers, options and an address.
ghost use Rattle.std.specs.Prelude.{◌≡◌, ◌≤◌, IfOk, IfErr, IfSome, IfNone, None, Ok, ℕ, codes};
ghost use Rattle.clap.specs.Words.{first_value, found_of};
ghost use Rattle.std.specs.declared.net.socket_addr.SocketAddr.{SocketAddr as Address};
ghost use Rattle.sq_model.specs.declared.options.Options.{Options as OptionsValue};
ghost use Rattle.sq_flags.specs.Values.{IsWholeNumber, IsNumberOf, IsGivenNumber, IsFlagOf, IsAddressIn, IsAddressOf, AreOptionsOf};

use clap::ArgMatches;
use sq_model::options::{MOST_FLIGHTS, MOST_HOMES, MOST_QUEUES, MOST_ROWS, MOST_TRANSIT, Options};
use std::net::SocketAddr;

/// Connections that are served, at the most.
pub const MOST_CONNECTIONS: u32 = 1_024;

/// Threads that move messages, at the most.
pub const MOST_MOVERS: u32 = 8;

/// Seconds that a connection is waited for, at the most: a day.
pub const MOST_IDLE: u32 = 86_400;

/// Clients of a race, at the most.
pub const MOST_CLIENTS: u32 = 64;

/// Calls of a client of a race, at the most.
pub const MOST_CALLS: u32 = 1_000_000;

/// How many homes a queue has, where no flag says it.
pub const HOMES: u32 = 4;

/// At how many homes a receive looks, where no flag says it and there are so many.
pub const SAMPLE: u32 = 2;

/// How many queues are ever made, where no flag says it.
pub const QUEUES: u32 = 64;

/// How many messages are in transit, where no flag says it.
pub const TRANSIT: u32 = 10_000;

/// How many threads move messages, where no flag says it.
pub const MOVERS: u32 = 1;

/// How many seconds a connection is waited for, where no flag says it.
pub const IDLE: u32 = 300;

// A whole number within bounds.
fn whole(text: &str, least: u64, greatest: u64) -> Option<u64>
    ensures range { IfSome result (λ n. (least ≤ n) × (n ≤ greatest)) }
    ensures value { IfSome result (λ n. IsWholeNumber text.now n) }
    ensures none { IfNone result ((n : ℕ) → IsWholeNumber text.now n → least ≤ n → n ≤ greatest → ⊥) }
{
    let number = text.parse::<u64>().ok()?;
    if least <= number && number <= greatest {
        Some(number)
    } else {
        None
    }
}

// The number of a flag, or its default, or the flag's name where its text is no number in bounds.
fn number<'a>(
    matches: &ArgMatches<'_>,
    name: &'a str,
    least: u64,
    greatest: u64,
    default: u64,
) -> Result<u64, &'a str>
    requires { (least ≤ default) × (default ≤ greatest) }
    ensures when_found { IfOk result (λ n. IsNumberOf (first_value (found_of matches.now) name.entry.now) least greatest default n) }
    ensures when_unset { first_value (found_of matches.now) name.entry.now ≡ None → result ≡ Ok default }
    ensures refused { IfErr result (λ e. (e ≡ name.entry) × ((n : ℕ) → ¬ IsNumberOf (first_value (found_of matches.now) name.entry.now) least greatest default n)) }
{
    match matches.get_str(name) {
        None => Ok(default),
        Some(text) => match whole(text, least, greatest) {
            Some(number) => Ok(number),
            None => Err(name),
        },
    }
}

/// The number of a flag that must be given, or the flag's name where it was not, or its text is no number in bounds.
pub fn given_number<'a>(
    matches: &ArgMatches<'_>,
    name: &'a str,
    least: u64,
    greatest: u64,
) -> Result<u64, &'a str>
    ensures ok { IfOk result (λ n. IsGivenNumber (first_value (found_of matches.now) name.entry.now) least greatest n) }
    ensures err { IfErr result (λ e. (e ≡ name.entry) × ((n : ℕ) → ¬ IsGivenNumber (first_value (found_of matches.now) name.entry.now) least greatest n)) }
{
    let Some(text) = matches.get_str(name) else {
        return Err(name);
    };
    match whole(text, least, greatest) {
        Some(number) => Ok(number),
        None => Err(name),
    }
}

// The address and port that a text writes, if it writes one.
fn address_in(text: &str) -> Option<SocketAddr>
    ensures { IsAddressIn text.now result }
{
    text.parse::<SocketAddr>().ok()
}

/// The address of `--listen`, or None where its text is no address, or the flag's name where it was not given.
pub fn address_of(matches: &ArgMatches<'_>) -> Result<Option<SocketAddr>, &'static str>
    ensures ok { IfOk result (λ address. IsAddressOf (first_value (found_of matches.now) (codes "listen")) address) }
    ensures err { IfErr result (λ _. first_value (found_of matches.now) (codes "listen") ≡ None) }
{
    match matches.get_str("listen") {
        Some(text) => Ok(address_in(text)),
        None => Err("listen"),
    }
}

/// The threads that move messages, or the flag's name where its text is no number in its bounds.
pub fn movers_of(matches: &ArgMatches<'_>) -> Result<u32, &'static str>
    ensures ok { IfOk result (λ n. IsNumberOf (first_value (found_of matches.now) (codes "movers")) 0 8 1 n) }
    ensures err { IfErr result (λ _. (n : ℕ) → ¬ IsNumberOf (first_value (found_of matches.now) (codes "movers")) 0 8 1 n) }
{
    Ok(number(matches, "movers", 0, MOST_MOVERS as u64, MOVERS as u64)? as u32)
}

/// The seconds that a connection is waited for, or the flag's name where its text is no number in its bounds.
pub fn idle_of(matches: &ArgMatches<'_>) -> Result<u32, &'static str>
    ensures ok { IfOk result (λ n. IsNumberOf (first_value (found_of matches.now) (codes "idle")) 1 86400 300 n) }
    ensures err { IfErr result (λ _. (n : ℕ) → ¬ IsNumberOf (first_value (found_of matches.now) (codes "idle")) 1 86400 300 n) }
{
    Ok(number(matches, "idle", 1, MOST_IDLE as u64, IDLE as u64)? as u32)
}

/// The options of matched flags, or the name of one whose text is no number in its bounds.
pub fn options_of(matches: &ArgMatches<'_>) -> Result<Options, &'static str>
    ensures ok { IfOk result (λ o. AreOptionsOf (first_value (found_of matches.now)) o) }
    ensures err { IfErr result (λ _. (o : OptionsValue) → ¬ AreOptionsOf (first_value (found_of matches.now)) o) }
{
    let homes = number(matches, "homes", 1, MOST_HOMES as u64, HOMES as u64)? as u32;
    let sample = number(
        matches,
        "sample",
        1,
        MOST_HOMES as u64,
        homes.min(SAMPLE) as u64,
    )? as u32;
    Ok(Options {
        homes,
        sample,
        queues: number(matches, "queues", 1, MOST_QUEUES as u64, QUEUES as u64)? as u32,
        rows: number(matches, "rows", 1, MOST_ROWS as u64, MOST_ROWS as u64)? as u32,
        flights: number(
            matches,
            "flights",
            1,
            MOST_FLIGHTS as u64,
            MOST_FLIGHTS as u64,
        )? as u32,
        transit: number(matches, "transit", 1, MOST_TRANSIT as u64, TRANSIT as u64)? as u32,
        seed: number(matches, "seed", 0, u64::MAX, 0)?,
    })
}

/// Whether the flag that asks for an audit is there.
pub fn asks_for_audit(matches: &ArgMatches<'_>) -> bool
    ensures { IsFlagOf (first_value (found_of matches.now) (codes "audit")) result }
{
    match matches.get_str("audit") {
        Some(text) => text == "true",
        None => false,
    }
}
