//! Steps and reads of queues, of tasks and at homes that no client asks by themselves.
use super::cues::{Asked, AtHome, Cue, play, played};
use super::evidence::NO_FAULT;
use super::stage::{Stage, options};
use sq_base::refusal::Refusal;
use sq_tests_kit::asks::Answers;

const NAMED: &[Cue] = &[
    Cue::Step(0, 0, Asked::Make("z"), Answers::Number(1)),
    Cue::Step(0, 0, Asked::Make("a"), Answers::Number(2)),
    // Each number before the first letter of its name.
    Cue::Step(1, 0, Asked::Names, Answers::Number(1_122_002_097)),
];

#[test]
fn queues_are_named_in_order_of_creation(rt: HostRuntime) {
    let mut stage = Stage::new(&rt, rt.alloc(), options(1, 1, 1));
    play(&rt, rt.alloc(), &mut stage, NAMED);
}

const ACTIVE: Answers = Answers::Refused(Refusal::UnsupportedOperation);

const UNKNOWN: Answers = Answers::Refused(Refusal::ResourceNotFoundException);

// Of two queues, tasks are started one after another, and the first one ends.
const TASKS: &[Cue] = &[
    Cue::Step(0, 0, Asked::Last(0), Answers::Nothing),
    Cue::Step(0, 0, Asked::Start(0), Answers::Number(1)),
    Cue::Step(0, 0, Asked::Start(1), Answers::Number(2)),
    Cue::Step(0, 0, Asked::Start(0), ACTIVE),
    Cue::Step(0, 0, Asked::Finish(1), Answers::Done),
    Cue::Step(0, 0, Asked::Start(0), Answers::Number(3)),
    Cue::Step(0, 0, Asked::Last(0), Answers::Number(3)),
    Cue::Step(0, 0, Asked::Last(1), Answers::Number(2)),
    Cue::Step(0, 0, Asked::Last(2), Answers::Nothing),
    Cue::Step(0, 0, Asked::Read(2), Answers::Number(2)),
    Cue::Step(0, 0, Asked::Read(4), UNKNOWN),
];

#[test]
fn the_last_task_of_a_queue_is_found(rt: HostRuntime) {
    let mut stage = Stage::new(&rt, rt.alloc(), options(1, 10, 16));
    play(&rt, rt.alloc(), &mut stage, TASKS);
}

const MAKE: Cue = Cue::Line(
    r#"{"Action":"CreateQueue","QueueName":"q"}"#,
    r#"{"QueueUrl":"http://localhost/000000000000/q"}"#,
);

const SEND: Cue = Cue::Line(
    r#"{"Action":"SendMessage","QueueUrl":"http://localhost/000000000000/q","MessageBody":"hello"}"#,
    NO_QUEUE,
);

const RECEIVE: Cue = Cue::Line(
    r#"{"Action":"ReceiveMessage","QueueUrl":"http://localhost/000000000000/q","MaxNumberOfMessages":10}"#,
    NO_QUEUE,
);

const NO_QUEUE: &str = r#"{"Error":{"Code":"QueueDoesNotExist","Number":9}}"#;

// Both homes of a queue are closed.
const CLOSE: &[Cue] = &[
    MAKE,
    Cue::Step(0, 0, Asked::Home(0, AtHome::Close), Answers::Done),
    Cue::Step(0, 0, Asked::Home(1, AtHome::Close), Answers::Done),
];

// To make the queue again passes over its homes.
const CALL: &[Cue] = &[MAKE, SEND, RECEIVE];

// It all is one run.
#[test]
fn closed_homes_are_passed_over_and_refuse(rt: HostRuntime) {
    let evidence = played(&rt, rt.alloc(), options(2, 10, 2), CLOSE, CALL);
    assert!(rt; evidence.fault() == NO_FAULT);
}
