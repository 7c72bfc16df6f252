//! What help says of the subcommands and their flags.
use crate::values::{
    HOMES, IDLE, MOST_CALLS, MOST_CLIENTS, MOST_CONNECTIONS, MOST_IDLE, MOST_MOVERS, MOVERS,
    QUEUES, SAMPLE, TRANSIT,
};
use sq_model::options::{MOST_FLIGHTS, MOST_HOMES, MOST_QUEUES, MOST_ROWS, MOST_TRANSIT};
use std::alloc::{AllocError, Global};

/// What help says of the flags whose bounds are options' bounds.
#[derive(Drop)]
pub struct OptionTexts {
    pub homes: String,
    pub sample: String,
    pub queues: String,
    pub rows: String,
    pub flights: String,
    pub transit: String,
}

impl OptionTexts {
    fn new(alloc: Global) -> Result<OptionTexts, AllocError> {
        Ok(OptionTexts {
            homes: bounded(alloc, "Homes of a queue", "1", MOST_HOMES, HOMES)?,
            sample: sample_text(alloc, SAMPLE)?,
            queues: bounded(alloc, "Queues that are ever made", "1", MOST_QUEUES, QUEUES)?,
            rows: bounded(alloc, "Messages of a home", "1", MOST_ROWS, MOST_ROWS)?,
            flights: bounded(
                alloc,
                "Messages of a queue in flight",
                "N of --homes",
                MOST_FLIGHTS,
                MOST_FLIGHTS,
            )?,
            transit: bounded(alloc, "Messages between queues", "1", MOST_TRANSIT, TRANSIT)?,
        })
    }
}

/// What help says of all flags whose bounds are numbers elsewhere.
#[derive(Drop)]
pub struct Texts {
    pub options: OptionTexts,
    pub connections: String,
    pub idle: String,
    pub clients: String,
    pub calls: String,
    pub movers: String,
}

impl Texts {
    /// The texts, with the bounds in them.
    pub fn new(alloc: Global) -> Result<Texts, AllocError> {
        Ok(Texts {
            options: OptionTexts::new(alloc)?,
            connections: needed(alloc, "Connections that are served", 1, MOST_CONNECTIONS)?,
            idle: bounded(
                alloc,
                "Seconds after which a connection ends that sends nothing or takes no reply",
                "1",
                MOST_IDLE,
                IDLE,
            )?,
            clients: needed(alloc, "Clients, each a thread", 1, MOST_CLIENTS)?,
            calls: needed(alloc, "Calls of each client", 0, MOST_CALLS)?,
            movers: bounded(
                alloc,
                "Threads that move messages meanwhile",
                "0",
                MOST_MOVERS,
                MOVERS,
            )?,
        })
    }
}

fn bounded(
    alloc: Global,
    what: &str,
    least: &str,
    greatest: u32,
    default: u32,
) -> Result<String, AllocError> {
    format!(in alloc; "{what}: {least} to {greatest} [default: {default}]")
}

fn needed(alloc: Global, what: &str, least: u32, greatest: u32) -> Result<String, AllocError> {
    format!(in alloc; "{what}: {least} to {greatest} [required]")
}

fn sample_text(alloc: Global, default: u32) -> Result<String, AllocError> {
    format!(in alloc;
        "Homes that a receive looks at: 1 to N of --homes [default: {default}, or 1 of 1]"
    )
}

/// What help says of `--seed`.
pub const SEED: &str = "What the choices of homes begin from: any u64 [default: 0]";

/// What help says of `--audit`.
pub const AUDIT: &str =
    "After the last reply, write the run of all that was done and where each message is";

/// What help says of `--listen`.
pub const LISTEN: &str =
    "Where connections are taken: an IP address and a port, or port 0 for any [required]";

/// What help says of `script`.
pub const SCRIPT: &str = "Answers each line of the standard input, a request in JSON, with a line";

/// What help says of `serve`.
pub const SERVE: &str =
    "Answers the lines of TCP connections, a thread for each, and audits all that was done";

/// What help says of `race`.
pub const RACE: &str = "Has clients call at once, a thread for each, and audits all that was done";

/// What the program's help says below its commands.
pub const FLAGS: &str =
    "Flags of each command: --homes N, --sample N, --queues N, --rows N, --flights N, --transit N, --seed N.
Flags of script: --audit.
Flags of serve: --listen ADDR, --connections N, --idle N, --movers N.
Flags of race: --clients N, --calls N, --movers N.
'sqd COMMAND --help' says of each what it is, its bounds and its default.";
