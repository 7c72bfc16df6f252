//! What is done at a world, line by line and step by step, and what each must be told.
use super::evidence::Evidence;
use super::stage::Stage;
use sq_base::ids::{HomeId, HomeNo, QueueNo};
use sq_base::ranges::Timeout;
use sq_base::refusal::Refusal;
use sq_model::directory::{Attributes, DirectoryCall};
use sq_model::item::{ItemNo, TaskNo};
use sq_model::options::Options;
use sq_model::task::NamedQueue;
use sq_steps::act::{Act, SharedAct, TaskAct, TaskStart};
use sq_tests_kit::asks::{Answers, Ask, home_act};
use sq_tests_kit::setup::{home, named};
use std::alloc::Global;
use std::process::Abort;

/// What is asked of a home: with the standard settings, of a message without a delay, for up to ten messages.
#[derive(Clone, Copy)]
pub enum AtHome {
    Open,
    Send,
    Look,
    /// It hides no message.
    LookAgain,
    /// The message in the first slot, with serial 0, by its receive number.
    Delete(u64),
    Purge,
    Close,
    StartDrain,
    FinishDrain,
}

/// What a home does together with the ledger, with an item by its number.
#[derive(Clone, Copy)]
pub enum Move {
    LeaveDead,
    LeaveDrain,
    Enter(u64),
    TurnBack(u64),
    GiveBack(u64),
    Drop(u64),
}

/// What no line asks. A queue is meant by its index in order of creation, and its first home by it.
#[derive(Clone, Copy)]
pub enum Asked {
    /// A queue of this name, whose homes are not opened.
    Make(&'static str),
    /// The numbers and names of all queues.
    Names,
    /// At a home of the first queue, by the home's number.
    Home(u64, AtHome),
    Shared(u32, Move),
    /// At a home of the first queue, by the home's number.
    MoveAt(u64, Move),
    /// A task of a queue.
    Start(u32),
    Finish(u64),
    /// The most recent task of a queue.
    Last(u32),
    Read(u64),
}

/// What is done, and what it must be told.
#[derive(Clone, Copy)]
pub enum Cue {
    /// A line of a client or a mover, and its reply.
    Line(&'static str, &'static str),
    /// A line, whatever it is answered.
    Any(&'static str),
    /// A step of an actor, at a clock reading in ms.
    Step(u32, u64, Asked, Answers),
    /// A move that actor 5 makes at 1000 ms, at one queue after another.
    Moves(Move, &'static [(u32, Answers)]),
}

fn queue(index: u32) -> QueueNo {
    QueueNo::following(index)
}

fn task(number: u64) -> TaskNo {
    TaskNo::new(number).unwrap_or(TaskNo::first())
}

fn item(number: u64) -> ItemNo {
    ItemNo::new(number).unwrap_or(ItemNo::first())
}

fn ask_of(what: AtHome) -> Ask {
    match what {
        AtHome::Open => Ask::Open,
        AtHome::Send => Ask::Send(None),
        AtHome::Look => Ask::Look(None),
        AtHome::LookAgain => Ask::Look(Some(Timeout::of(0))),
        AtHome::Delete(receive) => Ask::Delete(0, 0, receive),
        AtHome::Purge => Ask::Purge,
        AtHome::Close => Ask::Close,
        AtHome::StartDrain => Ask::StartDrain,
        AtHome::FinishDrain => Ask::FinishDrain,
    }
}

fn shared_act(what: Move) -> SharedAct {
    match what {
        Move::LeaveDead => SharedAct::LeaveDead,
        Move::LeaveDrain => SharedAct::LeaveDrain,
        Move::Enter(number) => SharedAct::Enter(item(number)),
        Move::TurnBack(number) => SharedAct::TurnBack(item(number)),
        Move::GiveBack(number) => SharedAct::GiveBack(item(number)),
        Move::Drop(number) => SharedAct::Drop(item(number)),
    }
}

fn start(index: u32) -> Result<TaskStart, Refusal> {
    let source = NamedQueue {
        number: queue(index),
        name: named("letters")?,
    };
    Ok(TaskStart {
        source,
        destination: None,
        rate: None,
    })
}

/// The act that asks it.
pub fn act_of(alloc: Global, asked: Asked) -> Result<Act, Refusal> {
    Ok(match asked {
        Asked::Make(name) => {
            Act::Directory(DirectoryCall::Create(named(name)?, Attributes::none()))
        }
        Asked::Names => Act::Names,
        Asked::Home(number, what) => Act::Home(home(number), home_act(alloc, ask_of(what))?),
        Asked::Shared(index, what) => {
            let id = HomeId {
                queue: queue(index),
                home: HomeNo::first(),
            };
            Act::Shared(id, shared_act(what))
        }
        Asked::MoveAt(number, what) => Act::Shared(home(number), shared_act(what)),
        Asked::Start(index) => Act::Ledger(TaskAct::Start(start(index)?)),
        Asked::Finish(number) => Act::Ledger(TaskAct::Finish(task(number))),
        Asked::Last(index) => Act::LastTask(queue(index)),
        Asked::Read(number) => Act::ReadTask(task(number)),
    })
}

// What is answered to a step.
fn told(alloc: Global, stage: &mut Stage, actor: u32, clock: u64, asked: Asked) -> Answers {
    match act_of(alloc, asked) {
        Ok(act) => stage.told(actor, clock, act),
        Err(refusal) => Answers::Refused(refusal),
    }
}

// The first of these queues at which a move is not told what it must be.
fn wrong_queue(
    alloc: Global,
    stage: &mut Stage,
    what: Move,
    wants: &[(u32, Answers)],
) -> Option<u32> {
    for (index, want) in wants {
        if told(alloc, stage, 5, 1000, Asked::Shared(*index, what)) != *want {
            return Some(*index);
        }
    }
    None
}

/// Where it is not told what it must be: at the queue of this index, or at 0 where no queue is named. None where all is right.
pub fn wrong_at(alloc: Global, stage: &mut Stage, cue: &Cue) -> Option<u32> {
    let is_right = match cue {
        Cue::Line(line, want) => stage.is_answered(line, Some(*want)),
        Cue::Any(line) => stage.is_answered(line, None),
        Cue::Step(actor, clock, asked, want) => told(alloc, stage, *actor, *clock, *asked) == *want,
        Cue::Moves(what, wants) => return wrong_queue(alloc, stage, *what, wants),
    };
    if is_right { None } else { Some(0) }
}

/// Does what the cues say, one after another.
pub fn play(rt: &impl Abort, alloc: Global, stage: &mut Stage, cues: &[Cue]) {
    for (index, cue) in cues.iter().enumerate() {
        let wrong = wrong_at(alloc, stage, cue);
        assert!(rt; wrong.is_none(), "cue {index}: {wrong:?}");
    }
}

/// What a world leaves at which these cues were played, and then those.
pub fn played(
    rt: &impl Abort,
    alloc: Global,
    options: Options,
    first: &[Cue],
    then: &[Cue],
) -> Evidence {
    let mut stage = Stage::new(rt, alloc, options);
    play(rt, alloc, &mut stage, first);
    play(rt, alloc, &mut stage, then);
    stage.evidence(rt)
}
