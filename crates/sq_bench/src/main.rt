//! How fast one service is called by threads, and a world by one: in one process, without sockets.
#![tactic(auto)]

mod options;
mod spent;
mod threads;
mod world;

use crate::spent::Spent;
use crate::threads::Load;
use std::alloc::Global;
use std::io::Write;
use std::process::ExitCode;
use std::sync::Wait;
use std::thread::Threads;
use std::time::{Clock, CpuClock};
use std::{env, io};

/// What it asks for.
const USAGE: &[u8] =
    b"sq_bench service THREADS QUEUES HOMES CALLS: each thread makes so many calls, at one of the queues by turns
sq_bench world HOMES CALLS: so many calls at a world
Three calls are a cycle: a message is sent, received and deleted. It writes how many calls were answered, in how many microseconds,
and in how many of the processor.
";

// The number that a word is; 0 where it is none.
fn number(words: &[String], at: usize) -> u64 {
    match words.get(at) {
        Some(word) => word.as_str().parse::<u64>().unwrap_or(0),
        None => 0,
    }
}

// What the words after the program's name ask for takes; none where they ask for nothing.
fn measure<R: Threads + Wait + Clock + CpuClock + Sync>(
    rt: &R,
    alloc: Global,
    words: &[String],
) -> Option<Spent> {
    match words.get(1)?.as_str() {
        "service" if words.len() == 6 => threads::measure(
            rt,
            alloc,
            Load {
                threads: number(words, 2),
                queues: number(words, 3),
                homes: number(words, 4),
                calls: number(words, 5),
            },
        ),
        "world" if words.len() == 4 => {
            world::measure(rt, alloc, number(words, 2), number(words, 3))
        }
        _ => None,
    }
}

fn main(rt: HostRuntime) -> io::Result<ExitCode> {
    let words: Vec<String> = env::args(&rt)?.collect(rt.alloc())?;
    match measure(&rt, rt.alloc(), &words) {
        Some(spent) => {
            println!(rt; "{} {} {}", spent.answered, spent.elapsed, spent.processor)?;
            Ok(ExitCode::from(0))
        }
        None => {
            rt.stderr().write_all(USAGE)?;
            Ok(ExitCode::from(2))
        }
    }
}
