//! What is done beside answering lines.

/// What is done beside answering each line.
#[derive(Clone, Copy, PartialEq, Eq, Debug)]
pub enum Trial {
    /// Nothing.
    Answer,
    /// The call of a line, counted from 1, ends after so many steps.
    Stop { line: u64, steps: u64 },
    /// The record of a step is taken out, and a server's verdict is given on what is left.
    Drop { actor: u32, number: u64 },
    /// The lines are served from memory, by a session of the service.
    Serve(Failures),
    /// The lines are answered from memory by a world, as `sqd script` answers them.
    World(Failures),
}

/// Which calls fail of a reader and a writer of one byte a call, counted from 1; 0 where none does.
#[derive(Clone, Copy, PartialEq, Eq, Debug)]
pub struct Failures {
    pub read: u32,
    pub write: u32,
    /// The write takes no byte, and tells no error.
    pub is_silent: bool,
}

// The number that a word is.
fn number(words: &[&str], at: usize) -> Option<u64> {
    words.get(at)?.parse::<u64>().ok()
}

// The same, if 32 bits hold it.
fn small(words: &[&str], at: usize) -> Option<u32> {
    u32::try_from(number(words, at)?).ok()
}

// The calls that two words say.
fn failures_of(words: &[&str], is_silent: bool) -> Option<Failures> {
    Some(Failures {
        read: small(words, 2)?,
        write: small(words, 3)?,
        is_silent,
    })
}

/// What the words after the first ask for, and how many they are.
pub fn trial_of(words: &[&str]) -> Option<(Trial, usize)> {
    let trial = match *words.get(1)? {
        "stop" => Trial::Stop {
            line: number(words, 2)?,
            steps: number(words, 3)?,
        },
        "drop" => Trial::Drop {
            actor: small(words, 2)?,
            number: number(words, 3)?,
        },
        "serve" => Trial::Serve(failures_of(words, false)?),
        "serve-silent" => Trial::Serve(failures_of(words, true)?),
        "world" => Trial::World(failures_of(words, false)?),
        "world-silent" => Trial::World(failures_of(words, true)?),
        _ => return Some((Trial::Answer, 0)),
    };
    Some((trial, 3))
}
