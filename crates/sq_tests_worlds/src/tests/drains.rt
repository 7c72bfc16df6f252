//! A home that is drained: what each step is told, and that all of it is one run.
use super::cues::{Asked, AtHome, Cue, Move, played};
use super::evidence::NO_FAULT;
use super::stage::options;
use sq_base::refusal::Refusal;
use sq_tests_kit::asks::Answers;

const DRAINING: Answers = Answers::Refused(Refusal::HomeDraining);

const UNSUPPORTED: Answers = Answers::Refused(Refusal::UnsupportedOperation);

const NO_QUEUE: Answers = Answers::Refused(Refusal::QueueDoesNotExist);

// A queue of which two homes are opened.
const OPEN: &[Cue] = &[
    Cue::Step(0, 0, Asked::Make("q"), Answers::Number(1)),
    Cue::Step(0, 0, Asked::Home(0, AtHome::Open), Answers::Done),
    Cue::Step(0, 0, Asked::Home(1, AtHome::Open), Answers::Done),
];

// A message that was received once goes from the first home to the second, where it is received for the second time. Its old handle
// deletes nothing there.
const DRAIN: &[Cue] = &[
    Cue::Step(0, 1000, Asked::Home(0, AtHome::Send), Answers::Sent(0, 0)),
    Cue::Step(
        0,
        1000,
        Asked::Home(0, AtHome::LookAgain),
        Answers::Gave(1, 1000),
    ),
    Cue::Step(0, 1000, Asked::Home(0, AtHome::StartDrain), Answers::Done),
    Cue::Step(0, 1000, Asked::MoveAt(0, Move::LeaveDrain), Answers::Moved),
    Cue::Step(0, 1000, Asked::Home(0, AtHome::FinishDrain), Answers::Done),
    Cue::Step(0, 1000, Asked::MoveAt(1, Move::Enter(1)), Answers::Moved),
    Cue::Step(
        0,
        1000,
        Asked::Home(1, AtHome::Look),
        Answers::Gave(2, 31_000),
    ),
    Cue::Step(0, 1000, Asked::Home(0, AtHome::Delete(1)), Answers::Done),
    Cue::Step(
        0,
        31_000,
        Asked::Home(1, AtHome::Look),
        Answers::Gave(3, 61_000),
    ),
];

#[test]
fn a_message_goes_on_at_another_home(rt: HostRuntime) {
    let evidence = played(&rt, rt.alloc(), options(2, 10, 10), OPEN, DRAIN);
    assert!(rt; evidence.fault() == NO_FAULT);
}

// Before a home is opened, before it drains, while it does, once it is drained, and once it is closed.
const REFUSED: &[Cue] = &[
    Cue::Step(0, 0, Asked::Home(2, AtHome::StartDrain), NO_QUEUE),
    Cue::Step(0, 0, Asked::Home(2, AtHome::FinishDrain), NO_QUEUE),
    Cue::Step(0, 0, Asked::MoveAt(2, Move::LeaveDrain), NO_QUEUE),
    Cue::Step(0, 0, Asked::Home(0, AtHome::FinishDrain), UNSUPPORTED),
    Cue::Step(0, 0, Asked::MoveAt(0, Move::LeaveDrain), UNSUPPORTED),
    Cue::Step(0, 1000, Asked::Home(0, AtHome::Send), Answers::Sent(0, 0)),
    Cue::Step(
        0,
        1000,
        Asked::Home(0, AtHome::Look),
        Answers::Gave(1, 31_000),
    ),
    Cue::Step(0, 1000, Asked::Home(0, AtHome::StartDrain), Answers::Done),
    Cue::Step(0, 1000, Asked::Home(0, AtHome::StartDrain), Answers::Done),
    Cue::Step(0, 1000, Asked::Home(0, AtHome::Send), DRAINING),
    Cue::Step(
        0,
        1000,
        Asked::MoveAt(0, Move::LeaveDrain),
        Answers::Nothing,
    ),
    Cue::Step(0, 1000, Asked::Home(0, AtHome::FinishDrain), UNSUPPORTED),
    // New settings do not make it take messages again.
    Cue::Step(0, 1000, Asked::Home(0, AtHome::Open), Answers::Done),
    Cue::Step(0, 31_000, Asked::Home(0, AtHome::Send), DRAINING),
    Cue::Step(
        0,
        31_000,
        Asked::MoveAt(0, Move::LeaveDrain),
        Answers::Moved,
    ),
    Cue::Step(0, 31_000, Asked::MoveAt(0, Move::Enter(1)), DRAINING),
    Cue::Step(0, 31_000, Asked::MoveAt(0, Move::TurnBack(1)), UNSUPPORTED),
    Cue::Step(
        0,
        31_000,
        Asked::Home(0, AtHome::FinishDrain),
        Answers::Done,
    ),
    Cue::Step(0, 31_000, Asked::Home(0, AtHome::StartDrain), Answers::Done),
    Cue::Step(0, 31_000, Asked::MoveAt(0, Move::LeaveDrain), UNSUPPORTED),
    Cue::Step(0, 31_000, Asked::Home(0, AtHome::FinishDrain), UNSUPPORTED),
    Cue::Step(0, 31_000, Asked::MoveAt(0, Move::Enter(1)), DRAINING),
    Cue::Step(0, 31_000, Asked::Home(0, AtHome::Close), Answers::Done),
    Cue::Step(0, 31_000, Asked::Home(0, AtHome::StartDrain), NO_QUEUE),
    Cue::Step(0, 31_000, Asked::MoveAt(0, Move::LeaveDrain), NO_QUEUE),
    Cue::Step(0, 31_000, Asked::MoveAt(1, Move::Enter(1)), Answers::Moved),
    Cue::Step(
        0,
        31_000,
        Asked::Home(1, AtHome::Look),
        Answers::Gave(2, 61_000),
    ),
];

#[test]
fn each_step_of_a_drain_is_refused_in_its_time(rt: HostRuntime) {
    let evidence = played(&rt, rt.alloc(), options(3, 10, 10), OPEN, REFUSED);
    assert!(rt; evidence.fault() == NO_FAULT);
}

// The home that a message went to is closed, so it comes back to another one of the queue, with all that it kept.
const BACK: &[Cue] = &[
    Cue::Step(0, 0, Asked::Home(2, AtHome::Open), Answers::Done),
    Cue::Step(0, 1000, Asked::Home(0, AtHome::Send), Answers::Sent(0, 0)),
    Cue::Step(
        0,
        1000,
        Asked::Home(0, AtHome::LookAgain),
        Answers::Gave(1, 1000),
    ),
    Cue::Step(0, 1000, Asked::Home(0, AtHome::StartDrain), Answers::Done),
    Cue::Step(0, 1000, Asked::MoveAt(0, Move::LeaveDrain), Answers::Moved),
    Cue::Step(0, 1000, Asked::Home(1, AtHome::Close), Answers::Done),
    Cue::Step(0, 1000, Asked::MoveAt(1, Move::TurnBack(1)), Answers::Done),
    Cue::Step(0, 1000, Asked::MoveAt(0, Move::GiveBack(1)), DRAINING),
    Cue::Step(0, 1000, Asked::MoveAt(2, Move::GiveBack(1)), Answers::Moved),
    Cue::Step(
        0,
        1000,
        Asked::Home(2, AtHome::Look),
        Answers::Gave(2, 31_000),
    ),
];

#[test]
fn a_message_comes_back_as_it_was(rt: HostRuntime) {
    let evidence = played(&rt, rt.alloc(), options(3, 10, 10), OPEN, BACK);
    assert!(rt; evidence.fault() == NO_FAULT);
}
