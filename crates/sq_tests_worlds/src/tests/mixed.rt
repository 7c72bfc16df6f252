//! Parts that are not of each other, and what the audit says of them.
use super::cues::{Asked, Cue, played};
use super::evidence::{Evidence, Fault, Mix, NO_FAULT, missing};
use super::stage::options;
use sq_audit::parts::Parts;
use sq_base::name::QueueName;
use sq_model::directory::{Attributes, DirectoryCall};
use sq_steps::journal::{Journal, directory_step};
use sq_tests_kit::asks::Answers;
use sq_tests_kit::setup::named;
use std::alloc::Global;
use std::process::Abort;

// An actor makes two queues.
const MADE: &[Cue] = &[
    Cue::Step(3, 1000, Asked::Make("a"), Answers::Number(1)),
    Cue::Step(3, 1000, Asked::Make("b"), Answers::Number(2)),
];

fn left(rt: &impl Abort, alloc: Global, cues: &[Cue]) -> Evidence {
    played(rt, alloc, options(1, 10, 10), cues, &[])
}

// What the audit says of these queues, where some parts are of a world without any.
fn with_none(rt: &impl Abort, alloc: Global, mix: Mix) -> Fault {
    let mut evidence = left(rt, alloc, MADE);
    evidence.mix(&mut left(rt, alloc, &[]), mix);
    evidence.fault()
}

// Whether an actor makes a queue.
fn is_made(alloc: Global, parts: &mut Parts, journal: &mut Journal, name: QueueName) -> bool {
    let call = DirectoryCall::Create(name, Attributes::none());
    directory_step(alloc, &mut parts.directory, journal, 1000, &call).is_ok()
}

// Whether another actor of the same number, who has seen nothing, makes a queue.
fn is_made_by_another(alloc: Global, parts: &mut Parts, name: QueueName) -> bool {
    is_made(alloc, parts, &mut Journal::new(alloc, 3), name)
}

fn with_an_actor_twice(rt: &impl Abort, alloc: Global) -> Fault {
    let mut evidence = left(rt, alloc, MADE);
    let name = named("a").expect(rt, "a name");
    assert!(rt; is_made_by_another(alloc, evidence.parts_mut(), name));
    evidence.fault()
}

#[test]
fn false_evidence_is_reported(rt: HostRuntime) {
    let alloc = rt.alloc();
    let mut mix = Mix::none();
    let unmixed = with_none(&rt, alloc, mix);
    mix.directory = true;
    let other_directory = with_none(&rt, alloc, mix);
    mix.directory = false;
    mix.records = true;
    let other_records = with_none(&rt, alloc, mix);
    let found = [
        unmixed,
        other_directory,
        other_records,
        with_an_actor_twice(&rt, alloc),
    ];
    assert!(rt; found == [NO_FAULT, missing(3, 0), missing(3, 0), [2, 3, 0]]);
}
