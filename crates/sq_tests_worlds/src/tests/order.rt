//! Steps of several actors at several homes, and the one order of it all.
use super::cues::{Asked, AtHome, Cue, act_of, played};
use super::stage::{Stage, options};
use sq_audit::merge::merge;
use sq_audit::parts::Parts;
use sq_audit::run::Run;
use sq_audit::tagged::Tagged;
use sq_base::refusal::Refusal;
use sq_steps::act::Step;
use sq_tests_kit::asks::Answers;
use sq_tests_kit::setup::CLOCK_END;
use std::alloc::Global;
use std::process::Abort;

// The number of the part of an event: 0 for the list of queues, then one more for each home, and the last one for the ledger alone.
fn part_of(event: &Tagged<'_>) -> u64 {
    match event {
        Tagged::Directory(_) => 0,
        Tagged::Home(index, _) => *index as u64 + 1,
        Tagged::Ledger(_) => u64::MAX,
    }
}

// Whether an event of a run is of the part of this number and has this stamp: its moment, and its count as the last digit.
fn is_event(run: &Run<'_>, at: usize, part: u64, stamp: u64) -> bool {
    let Some(event) = run.event(at) else {
        return false;
    };
    let found = event.stamp();
    part_of(&event) == part && [found.moment, found.count] == [stamp / 10, stamp % 10]
}

// The index of the first event of a run that is not of these parts with these stamps, or how many they are; and how many events there
// are.
fn compared(run: &Run<'_>, parts: &[u64], stamps: &[u64]) -> [usize; 2] {
    for (at, part) in parts.iter().enumerate() {
        match stamps.get(at) {
            Some(stamp) if is_event(run, at, *part, *stamp) => {}
            _ => return [at, run.len()],
        }
    }
    [stamps.len(), run.len()]
}

// The run that these cues leave must have one event of each of these parts, with these stamps, in this order.
fn must_leave(rt: &impl Abort, alloc: Global, cues: &[Cue], parts: &[u64], stamps: &[u64]) {
    let evidence = played(rt, alloc, options(2, 10, 16), cues, &[]);
    let run = merge(alloc, evidence.parts()).expect(rt, "one run");
    let found = compared(&run, parts, stamps);
    assert!(rt; found == [parts.len(); 2], "{found:?}");
}

const NOTHING: Answers = Answers::GaveAll(0);

const NO_SUCH_HOME: Answers = Answers::Refused(Refusal::QueueDoesNotExist);

const LATE: Answers = Answers::Refused(Refusal::ClockRange);

// The list of queues and two homes are opened, and two more actors look at both homes. There is no third home, and the clock has
// an end: what is refused leaves no event.
const THREE_ACTORS: &[Cue] = &[
    Cue::Step(0, 0, Asked::Make("q"), Answers::Number(1)),
    Cue::Step(0, 0, Asked::Home(0, AtHome::Open), Answers::Done),
    Cue::Step(0, 0, Asked::Home(1, AtHome::Open), Answers::Done),
    Cue::Step(5, 0, Asked::Home(2, AtHome::Look), NO_SUCH_HOME),
    Cue::Step(5, CLOCK_END, Asked::Home(2, AtHome::Look), LATE),
    Cue::Step(5, CLOCK_END, Asked::Home(0, AtHome::Look), LATE),
    Cue::Step(1, 0, Asked::Home(0, AtHome::Look), NOTHING),
    Cue::Step(2, 0, Asked::Home(1, AtHome::Look), NOTHING),
    Cue::Step(1, 0, Asked::Home(1, AtHome::Look), NOTHING),
    Cue::Step(2, 0, Asked::Home(0, AtHome::Look), NOTHING),
];

#[test]
fn steps_of_three_actors_have_one_order(rt: HostRuntime) {
    let parts = [0, 1, 1, 2, 2, 1, 2];
    let stamps = [1, 2, 3, 3, 4, 5, 5];
    must_leave(&rt, rt.alloc(), THREE_ACTORS, &parts, &stamps);
}

// Each step is of another actor, so that a stamp follows from its part alone. A message is given where it is.
const BY_STAMP: &[Cue] = &[
    Cue::Step(0, 1000, Asked::Make("q"), Answers::Number(1)),
    Cue::Step(1, 1000, Asked::Home(0, AtHome::Open), Answers::Done),
    Cue::Step(2, 2000, Asked::Home(0, AtHome::Purge), Answers::Done),
    Cue::Step(3, 2000, Asked::Home(0, AtHome::Look), NOTHING),
    Cue::Step(4, 1000, Asked::Home(1, AtHome::Open), Answers::Done),
    Cue::Step(5, 1500, Asked::Home(1, AtHome::Send), Answers::Sent(0, 0)),
    Cue::Step(
        6,
        2000,
        Asked::Home(1, AtHome::Look),
        Answers::Gave(1, 32_000),
    ),
    Cue::Step(7, 3000, Asked::Home(1, AtHome::Look), NOTHING),
];

#[test]
fn events_are_listed_by_stamp(rt: HostRuntime) {
    let parts = [0, 1, 2, 2, 1, 2, 1, 2];
    let stamps = [
        1000_0, 1000_0, 1000_0, 1500_0, 2000_0, 2000_0, 2000_1, 3000_0,
    ];
    must_leave(&rt, rt.alloc(), BY_STAMP, &parts, &stamps);
}

// The stamp that an actor recorded of its step of this number; none where there is no such record.
fn recorded(parts: &Parts, actor: u32, index: usize) -> [u64; 2] {
    for journal in parts.records.as_slice() {
        if journal.actor() == actor {
            if index >= journal.len() {
                return NONE;
            }
            let stamp = journal.record(index).stamp();
            return [stamp.moment, stamp.count];
        }
    }
    NONE
}

const NONE: [u64; 2] = [u64::MAX; 2];

fn steps(rt: &impl Abort, alloc: Global, lines: &[(u32, Asked)]) -> Vec<Step> {
    let mut steps = Vec::new(alloc);
    for (actor, asked) in lines {
        let act = act_of(alloc, *asked).expect(rt, "an act");
        let step = Step {
            actor: *actor,
            clock: 0,
            act,
        };
        steps.push(step).expect(rt, "memory");
    }
    steps
}

// Whether the actors recorded the steps that were not refused.
fn are_recorded(parts: &Parts) -> bool {
    recorded(parts, 1, 0) == [0, 1]
        && recorded(parts, 1, 1) == [0, 3]
        && recorded(parts, 1, 2) == NONE
        && recorded(parts, 2, 0) == [0, 2]
        && recorded(parts, 3, 0) == NONE
}

// The second step is at a home that is not there.
const RUN: &[(u32, Asked)] = &[
    (1, Asked::Home(0, AtHome::Open)),
    (1, Asked::Home(2, AtHome::Purge)),
    (2, Asked::Home(0, AtHome::Purge)),
    (1, Asked::Home(0, AtHome::Purge)),
];

#[test]
fn a_run_goes_on_after_a_refusal(rt: HostRuntime) {
    let mut stage = Stage::new(&rt, rt.alloc(), options(2, 10, 16));
    assert!(rt; stage.run(&steps(&rt, rt.alloc(), RUN)) == 3);
    let evidence = stage.evidence(&rt);
    assert!(rt; are_recorded(evidence.parts()));
}
