//! Answers the lines of a script by the sessions of a service and the turns of a mover, where `sqd script` answers them by a world. So
//! the worked rows are tests of a service, too. Lines from memory show what a reader or a writer that fails does, of both.
#![tactic(auto)]

mod actors;
mod ending;
mod memory;
mod stage;
mod trial;

use crate::ending::answer_all;
use crate::trial::{Trial, trial_of};
use sq_flags::flags::{Mode, ScriptMode, flags};
use sq_lines::counted::Counted;
use sq_server::served::Blanks;
use std::alloc::Global;
use std::io::Write;
use std::marker::Brand;
use std::process::ExitCode;
use std::{env, io};

/// What it asks for.
const USAGE: &[u8] =
    b"sq_tests_rows [TRIAL] script [OPTIONS]: answers the lines of the standard input by a service, as sqd script
by a world. TRIAL is

  stop LINE STEPS      the call of this line, counted from 1, ends after so many steps
  drop ACTOR NUMBER    the record of this step is taken out, and a server's verdict is given on what is left
  serve READ WRITE     the lines are served from memory: a byte a call, where this read fails, and this write; 0: none
  serve-silent ..      the same, where this write takes no byte and tells no error
  world READ WRITE     the same as serve, by a world as sqd script, and not by a session
  world-silent ..      the same, where this write takes no byte and tells no error
";

// What the words after the program's name ask for; none where they ask for nothing.
fn asked(alloc: Global, words: &[&str]) -> Option<(Trial, ScriptMode)> {
    let (trial, taken) = trial_of(words)?;
    let mut left = Vec::with_capacity(alloc, words.len()).ok()?;
    for (index, word) in words.iter().enumerate() {
        if index == 0 || taken < index {
            left.push(*word).ok()?;
        }
    }
    match flags(alloc, left.as_slice()) {
        Ok(Mode::Script(mode)) => Some((trial, mode)),
        _ => None,
    }
}

fn main(rt: HostRuntime) -> io::Result<ExitCode> {
    let alloc = rt.alloc();
    let arguments: Vec<String> = env::args(&rt)?.collect(alloc)?;
    let mut words = Vec::with_capacity(alloc, arguments.len())?;
    for argument in &arguments {
        words.push(argument.as_str())?;
    }
    match asked(alloc, words.as_slice()) {
        Some((trial, mode)) => {
            let status = answer_all::<_, _, _, _, Brand, Brand>(
                &rt,
                alloc,
                &mode,
                trial,
                Blanks::new(),
                &mut Counted::new(rt.stdin()),
                &mut Counted::new(rt.stdout()),
                &mut rt.stderr(),
            );
            Ok(ExitCode::from(status))
        }
        None => {
            rt.stderr().write_all(USAGE)?;
            Ok(ExitCode::from(2))
        }
    }
}
