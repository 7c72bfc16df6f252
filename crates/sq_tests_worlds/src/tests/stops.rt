//! Calls that are stopped after each of their steps: all that is left is one run, and each message that was sent is in it once.
use super::evidence::Evidence;
use super::stage::{Stage, options};
use sq_audit::merge::merge;
use sq_base::refusal::Refusal;
use sq_calls::batches::EntryAnswer;
use sq_calls::calls::{Answer, Asked};
use sq_json::Scratch;
use sq_model::place::Place;
use sq_places::places::places_of;
use sq_requests::request::read_request;
use std::alloc::Global;
use std::process::Abort;

const MAKE_D: &str = r#"{"Action":"CreateQueue","Now":0,"QueueName":"d"}"#;

const MAKE_Q: &str =
    r#"{"Action":"CreateQueue","QueueName":"q","Attributes":{"RedrivePolicy":"{\"deadLetterTargetArn\":\"arn:aws:sqs:local:000000000000:d\",\"maxReceiveCount\":1}"}}"#;

const SEND_TO_Q: &str =
    r#"{"Action":"SendMessage","Now":1000,"QueueUrl":"http://localhost/000000000000/q","MessageBody":"hello"}"#;

const SEND_TO_D: &str =
    r#"{"Action":"SendMessage","Now":1000,"QueueUrl":"http://localhost/000000000000/d","MessageBody":"hello"}"#;

const RECEIVE: &str = r#"{"Action":"ReceiveMessage","QueueUrl":"http://localhost/000000000000/q"}"#;

const RECEIVE_LATER: &str =
    r#"{"Action":"ReceiveMessage","Now":31000,"QueueUrl":"http://localhost/000000000000/q"}"#;

const RECEIVE_FROM_D: &str =
    r#"{"Action":"ReceiveMessage","Now":31000,"QueueUrl":"http://localhost/000000000000/d"}"#;

const LEAVE: &str =
    r#"{"Action":"DeadTurn","Actor":1,"QueueUrl":"http://localhost/000000000000/q"}"#;

const ENTER: &str = r#"{"Action":"EnterTurn","Actor":1}"#;

const ENTER_LATER: &str = r#"{"Action":"EnterTurn","Actor":1,"Now":31000}"#;

const ENTERED: &str = r#"{"Turn":"entered"}"#;

const NO_QUEUE: &str = r#"{"Error":{"Code":"QueueDoesNotExist","Number":9}}"#;

const DELETE_D: &str =
    r#"{"Action":"DeleteQueue","Now":31000,"QueueUrl":"http://localhost/000000000000/d"}"#;

const DELETE_Q: &str = r#"{"Action":"DeleteQueue","QueueUrl":"http://localhost/000000000000/q"}"#;

const START: &str =
    r#"{"Action":"StartMessageMoveTask","Now":1000,"SourceArn":"arn:aws:sqs:local:000000000000:d","DestinationArn":"arn:aws:sqs:local:000000000000:q","MaxNumberOfMessagesPerSecond":2}"#;

const TASK: &str = r#"{"Action":"TaskTurn","Actor":1,"TaskHandle":"task-0000000000000001"}"#;

const TASK_LATER: &str =
    r#"{"Action":"TaskTurn","Actor":1,"Now":2000,"TaskHandle":"task-0000000000000001"}"#;

const CANCEL: &str =
    r#"{"Action":"CancelMessageMoveTask","Now":2001,"TaskHandle":"task-0000000000000001"}"#;

const LIST: &str =
    r#"{"Action":"ListMessageMoveTasks","SourceArn":"arn:aws:sqs:local:000000000000:d"}"#;

const MAKE_Q_PLAIN: &str = r#"{"Action":"CreateQueue","Now":0,"QueueName":"q"}"#;

const PURGE: &str = r#"{"Action":"PurgeQueue","QueueUrl":"http://localhost/000000000000/q"}"#;

const PURGE_TOO_EARLY: &str =
    r#"{"Action":"PurgeQueue","Now":60999,"QueueUrl":"http://localhost/000000000000/q"}"#;

const PURGE_AGAIN: &str =
    r#"{"Action":"PurgeQueue","Now":61000,"QueueUrl":"http://localhost/000000000000/q"}"#;

const MAKE_Q_TOO_EARLY: &str = r#"{"Action":"CreateQueue","Now":120999,"QueueName":"q"}"#;

const MAKE_Q_AGAIN: &str = r#"{"Action":"CreateQueue","Now":121000,"QueueName":"q"}"#;

const SEND_AGAIN: &str =
    r#"{"Action":"SendMessage","QueueUrl":"http://localhost/000000000000/q","MessageBody":"hello"}"#;

/// Sends four messages, of which one is refused by itself.
const SEND_ALL: &str =
    r#"{"Action":"SendMessageBatch","Now":1000,"QueueUrl":"http://localhost/000000000000/q","Entries":[{"Id":"a","MessageBody":"a"},{"Id":"b","MessageBody":"b","DelaySeconds":901},{"Id":"c","MessageBody":"c"},{"Id":"d","MessageBody":"d"}]}"#;

const COUNT: &str =
    r#"{"Action":"GetQueueAttributes","QueueUrl":"http://localhost/000000000000/q","AttributeNames":["All"]}"#;

// How many messages an answer tells to be sent.
fn sent_by(answer: &Answer) -> u64 {
    match answer {
        Answer::Sent(_, _) => 1,
        Answer::Batch(entries) => entries
            .as_slice()
            .iter()
            .filter(|entry| matches!(entry.answer, Ok(EntryAnswer::Sent(_, _))))
            .count() as u64,
        _ => 0,
    }
}

/// A run of lines, one of which may be stopped.
#[derive(Drop)]
struct Run {
    scratch: Scratch,
    clock: u64,
    /// Whether a further step was due of the line that was stopped.
    stopped: bool,
    /// How many messages the clients were told to be sent.
    told: u64,
}

impl Run {
    fn new(alloc: Global) -> Run {
        Run {
            scratch: Scratch::new(alloc),
            clock: 0,
            stopped: false,
            told: 0,
        }
    }

    // Does what a line asks, up to so many steps if it is a call.
    fn line(&mut self, alloc: Global, stage: &mut Stage, line: &str, steps: u64) {
        let Ok(request) = read_request(alloc, &mut self.scratch, line.as_bytes()) else {
            return;
        };
        if let Some(reading) = request.clock {
            self.clock = reading;
        }
        let (clock, actor) = (self.clock, request.actor);
        match request.asked {
            Asked::Call(call) => self.take(stage.until(actor, clock, &call, steps)),
            Asked::Turn(turn) => stage.turn(actor, clock, &turn),
        }
    }

    // Notes what a line was answered.
    fn take(&mut self, answered: Result<Option<Answer>, Refusal>) {
        match answered {
            Ok(Some(answer)) => {
                let sent = sent_by(&answer);
                self.told = self.told.saturating_add(sent);
            }
            Ok(None) => self.stopped = true,
            Err(_) => {}
        }
    }
}

// Where the only message of a run is; none where there are others, or what it left is not of one run.
fn only_place(alloc: Global, evidence: &Evidence) -> Option<Place> {
    let run = merge(alloc, evidence.parts()).ok()?;
    match places_of(alloc, &run).ok()?.as_slice() {
        [(_, place)] => Some(*place),
        _ => None,
    }
}

// Does lines, the one at this index up to so many steps: whether a further step of it was due, how many messages its clients were
// told to be sent, and how many are in one place each; none where what is left is not of one run.
fn stopped_at(
    rt: &impl Abort,
    alloc: Global,
    lines: &[&str],
    index: usize,
    steps: u64,
) -> (bool, u64, Option<u64>) {
    let mut stage = Stage::new(rt, alloc, options(2, 100, 100));
    let mut run = Run::new(alloc);
    for (at, line) in lines.iter().enumerate() {
        let most = if at == index { steps } else { u64::MAX };
        run.line(alloc, &mut stage, line, most);
    }
    let found = stage.evidence(rt).messages();
    (run.stopped, run.told, found)
}

// As many messages must be left as this, where a line was stopped after so many steps.
fn must_leave(rt: &impl Abort, stop: [u64; 2], want: u64, found: Option<u64>) {
    let [line, steps] = stop;
    assert!(rt;
        found == Some(want),
        "line {line} after {steps} steps: {found:?} and not {want}"
    );
}

// In how many ways lines can be stopped within one of them. A stopped line was told nothing, and has left what its first steps
// leave: of a batch of sends one message for each after the first, which looks its queue up, and of all others none.
fn stops_of(rt: &impl Abort, alloc: Global, lines: &[&str]) -> u64 {
    let mut stops = 0u64;
    for (index, line) in lines.iter().enumerate() {
        let is_batch = *line == SEND_ALL;
        for steps in 0..20u64 {
            let (stopped, told, found) = stopped_at(rt, alloc, lines, index, steps);
            let untold = if stopped && is_batch {
                steps.saturating_sub(1)
            } else {
                0
            };
            must_leave(
                rt,
                [index as u64, steps],
                told.saturating_add(untold),
                found,
            );
            if !stopped {
                break;
            }
            stops = stops.saturating_add(1);
        }
    }
    stops
}

// A message is dead, and on its way to the other queue.
const ON_THE_WAY: &[&str] = &[MAKE_D, MAKE_Q, SEND_TO_Q, RECEIVE, RECEIVE_LATER, LEAVE];

// How a run begins and how it goes on, and in how many ways it can be stopped. A queue that is made, purged or deleted is three steps,
// of the directory and of two homes; a send is two, a receive two or three, and what is refused at once is one. A batch has one for
// each entry that is not refused by itself, after the look-up.
type Stopped = (&'static [&'static str], &'static [&'static str], u64);

const BATCHES: Stopped = (&[MAKE_D, MAKE_Q], &[SEND_ALL, RECEIVE, COUNT], 15);

const DEAD_LETTERS: Stopped = (ON_THE_WAY, &[ENTER, RECEIVE_FROM_D], 17);

const DELETIONS_ON_THE_WAY: Stopped = (ON_THE_WAY, &[DELETE_D, DELETE_Q, ENTER, ENTER], 20);

const TASKS: Stopped = (
    &[MAKE_D, MAKE_Q],
    &[
        SEND_TO_D, SEND_TO_D, SEND_TO_D, SEND_TO_D, SEND_TO_D, START, TASK, TASK, TASK_LATER,
        ENTER, ENTER, CANCEL, LIST, TASK, ENTER, TASK, RECEIVE,
    ],
    24,
);

const PURGES_AND_DELETIONS: Stopped = (
    &[MAKE_Q_PLAIN, SEND_TO_Q],
    &[
        PURGE,
        PURGE_TOO_EARLY,
        PURGE_AGAIN,
        DELETE_Q,
        SEND_AGAIN,
        MAKE_Q_TOO_EARLY,
        MAKE_Q_AGAIN,
        SEND_AGAIN,
    ],
    22,
);

// All lines of a run.
fn lines_of(rt: &impl Abort, alloc: Global, run: Stopped) -> Vec<&'static str> {
    let (begin, then, _) = run;
    let mut lines = Vec::new(alloc);
    for line in begin {
        lines.push(*line).expect(rt, "memory");
    }
    for line in then {
        lines.push(*line).expect(rt, "memory");
    }
    lines
}

#[test]
fn calls_are_stopped_after_each_step(rt: HostRuntime) {
    let runs = [
        BATCHES,
        DEAD_LETTERS,
        DELETIONS_ON_THE_WAY,
        TASKS,
        PURGES_AND_DELETIONS,
    ];
    for (index, run) in runs.iter().enumerate() {
        let lines = lines_of(&rt, rt.alloc(), *run);
        let found = stops_of(&rt, rt.alloc(), lines.as_slice());
        assert!(rt; found == run.2, "{index}: {found}");
    }
}

// A queue is deleted up to its first step: it is gone by its name, and its homes are open yet, so that a message on its way comes
// in.
#[test]
fn a_deletion_that_is_stopped_leaves_homes_open(rt: HostRuntime) {
    let mut stage = Stage::new(&rt, rt.alloc(), options(1, 100, 100));
    let mut run = Run::new(rt.alloc());
    for line in ON_THE_WAY.iter() {
        run.line(rt.alloc(), &mut stage, line, u64::MAX);
    }
    run.line(rt.alloc(), &mut stage, DELETE_D, 1);
    assert!(rt; run.stopped);
    assert!(rt; stage.is_answered(RECEIVE_FROM_D, Some(NO_QUEUE)));
    assert!(rt; stage.is_answered(ENTER_LATER, Some(ENTERED)));
    let found = only_place(rt.alloc(), &stage.evidence(&rt));
    assert!(rt; found == Some(Place::InHome));
}
