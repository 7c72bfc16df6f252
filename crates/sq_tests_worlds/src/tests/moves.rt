//! Messages that move: what no row shows of them, and what the audit says where a home, the ledger and the records do not agree.
use super::cues::{Asked, Cue, Move, play, played, wrong_at};
use super::evidence::{Evidence, Fault, Mix, NO_FAULT, missing, must};
use super::stage::{Stage, options};
use sq_base::refusal::Refusal;
use sq_model::options::Options;
use sq_tests_kit::asks::Answers;
use sq_tests_kit::setup::CLOCK_END;
use std::alloc::Global;
use std::process::Abort;

const MAKE_C: Cue = Cue::Any(r#"{"Action":"CreateQueue","QueueName":"c"}"#);

const MAKE_D: Cue = Cue::Any(r#"{"Action":"CreateQueue","QueueName":"d"}"#);

const MAKE_E: Cue = Cue::Any(r#"{"Action":"CreateQueue","QueueName":"e"}"#);

const MAKE_Q_FOR_D: Cue = Cue::Any(
    r#"{"Action":"CreateQueue","QueueName":"q","Attributes":{"RedrivePolicy":"{\"deadLetterTargetArn\":\"arn:aws:sqs:local:000000000000:d\",\"maxReceiveCount\":1}"}}"#,
);

const MAKE_Q_FOR_E: Cue = Cue::Any(
    r#"{"Action":"CreateQueue","QueueName":"q","Attributes":{"RedrivePolicy":"{\"deadLetterTargetArn\":\"arn:aws:sqs:local:000000000000:e\",\"maxReceiveCount\":1}"}}"#,
);

const SEND: Cue = Cue::Any(
    r#"{"Action":"SendMessage","Now":1000,"QueueUrl":"http://localhost/000000000000/q","MessageBody":"hello"}"#,
);

const SEND_OTHER: Cue = Cue::Any(
    r#"{"Action":"SendMessage","Now":1000,"QueueUrl":"http://localhost/000000000000/q","MessageBody":"hallo"}"#,
);

const RECEIVE: Cue = Cue::Any(
    r#"{"Action":"ReceiveMessage","Now":1000,"QueueUrl":"http://localhost/000000000000/q","VisibilityTimeout":0}"#,
);

const RECEIVE_LATER: Cue = Cue::Any(
    r#"{"Action":"ReceiveMessage","Now":31000,"QueueUrl":"http://localhost/000000000000/q","VisibilityTimeout":0}"#,
);

const SEND_D: Cue = Cue::Any(
    r#"{"Action":"SendMessage","Now":1000,"QueueUrl":"http://localhost/000000000000/d","MessageBody":"hello"}"#,
);

const DEAD_TURN: &str =
    r#"{"Action":"DeadTurn","Actor":1,"Now":31000,"QueueUrl":"http://localhost/000000000000/q"}"#;

const DEAD_TURN_LATER: &str =
    r#"{"Action":"DeadTurn","Actor":1,"Now":32000,"QueueUrl":"http://localhost/000000000000/q"}"#;

const DEAD_TURN_OF_ANOTHER: &str =
    r#"{"Action":"DeadTurn","Actor":2,"Now":31000,"QueueUrl":"http://localhost/000000000000/q"}"#;

const ENTER_TURN: &str = r#"{"Action":"EnterTurn","Actor":1,"Now":31000}"#;

const ENTER_TURN_OF_ANOTHER: &str = r#"{"Action":"EnterTurn","Actor":2,"Now":31000}"#;

const TASK_TURN: &str =
    r#"{"Action":"TaskTurn","Actor":1,"Now":31000,"TaskHandle":"task-0000000000000001"}"#;

// What a turn is told.
const HAS_LEFT: &str = r#"{"Turn":"left"}"#;

const HAS_ENTERED: &str = r#"{"Turn":"entered"}"#;

const START: Cue = Cue::Line(
    r#"{"Action":"StartMessageMoveTask","Now":31000,"SourceArn":"arn:aws:sqs:local:000000000000:d"}"#,
    r#"{"TaskHandle":"task-0000000000000001"}"#,
);

const REMOVE_D: &str =
    r#"{"Action":"DeleteQueue","Now":31000,"QueueUrl":"http://localhost/000000000000/d"}"#;

const REMOVE_Q: &str =
    r#"{"Action":"DeleteQueue","Now":31000,"QueueUrl":"http://localhost/000000000000/q"}"#;

// Four queues of one home.
fn few(rows: u32, transit: u32) -> Options {
    let mut options = options(1, rows, 10);
    options.transit = transit;
    options
}

// A line of a story.
#[derive(Clone, Copy)]
enum Line {
    MakeD,
    MakeE,
    MakeQForD,
    MakeQForE,
    Send,
    SendOther,
    SendD,
    Receive,
    ReceiveLater,
    Leave,
    LeaveLater,
    LeaveByAnother,
    Enter,
    EnterByAnother,
    TurnBack,
    ComeBack,
    Drop,
    Start,
    LeaveForTask,
    Fail,
    RemoveD,
    RemoveQ,
}

fn cue_of(line: Line) -> Cue {
    match line {
        Line::MakeD => MAKE_D,
        Line::MakeE => MAKE_E,
        Line::MakeQForD => MAKE_Q_FOR_D,
        Line::MakeQForE => MAKE_Q_FOR_E,
        Line::Send => SEND,
        Line::SendOther => SEND_OTHER,
        Line::SendD => SEND_D,
        Line::Receive => RECEIVE,
        Line::ReceiveLater => RECEIVE_LATER,
        Line::Leave => Cue::Line(DEAD_TURN, HAS_LEFT),
        Line::LeaveLater => Cue::Line(DEAD_TURN_LATER, HAS_LEFT),
        Line::LeaveByAnother => Cue::Line(DEAD_TURN_OF_ANOTHER, HAS_LEFT),
        Line::Enter => Cue::Line(ENTER_TURN, HAS_ENTERED),
        Line::EnterByAnother => Cue::Line(ENTER_TURN_OF_ANOTHER, HAS_ENTERED),
        Line::TurnBack => Cue::Line(ENTER_TURN, r#"{"Turn":"turned"}"#),
        Line::ComeBack => Cue::Line(ENTER_TURN, r#"{"Turn":"back"}"#),
        Line::Drop => Cue::Line(ENTER_TURN, r#"{"Turn":"dropped"}"#),
        Line::Start => START,
        Line::LeaveForTask => Cue::Line(TASK_TURN, HAS_LEFT),
        Line::Fail => Cue::Line(TASK_TURN, r#"{"Turn":"failed"}"#),
        Line::RemoveD => Cue::Line(REMOVE_D, "{}"),
        Line::RemoveQ => Cue::Line(REMOVE_Q, "{}"),
    }
}

// How a story begins, and how it goes on. Small values: a table of cues themselves takes ten seconds to prove wherever it is used.
type Story = (&'static [Line], &'static [Line]);

// A message of this body is dead at 1000 ms, and found by nobody at 31,000.
const DEAD: &[Line] = &[
    Line::MakeD,
    Line::MakeQForD,
    Line::Send,
    Line::Receive,
    Line::ReceiveLater,
];

const OTHER_DEAD: &[Line] = &[
    Line::MakeD,
    Line::MakeQForD,
    Line::SendOther,
    Line::Receive,
    Line::ReceiveLater,
];

// A message that no queue gave to the queue for dead letters.
const SENT_THERE: &[Line] = &[Line::MakeD, Line::MakeQForD, Line::SendD];

// As the first, with three queues, of which this one is for dead letters.
const DEAD_FOR_D: &[Line] = &[
    Line::MakeD,
    Line::MakeE,
    Line::MakeQForD,
    Line::Send,
    Line::Receive,
];

const DEAD_FOR_E: &[Line] = &[
    Line::MakeD,
    Line::MakeE,
    Line::MakeQForE,
    Line::Send,
    Line::Receive,
];

fn play_lines(rt: &impl Abort, alloc: Global, stage: &mut Stage, lines: &[Line]) {
    for (index, line) in lines.iter().enumerate() {
        let wrong = wrong_at(alloc, stage, &cue_of(*line));
        assert!(rt; wrong.is_none(), "line {index}");
    }
}

// What a story leaves.
fn lived(rt: &impl Abort, alloc: Global, story: Story) -> Evidence {
    let (first, then) = story;
    let mut stage = Stage::new(rt, alloc, few(10, 10));
    play_lines(rt, alloc, &mut stage, first);
    play_lines(rt, alloc, &mut stage, then);
    stage.evidence(rt)
}

// What the audit says of all that a story leaves, but for the parts that are another one's.
fn mixed(rt: &impl Abort, alloc: Global, kept: Story, other: Story, mix: Mix) -> Fault {
    let mut evidence = lived(rt, alloc, kept);
    evidence.mix(&mut lived(rt, alloc, other), mix);
    evidence.fault()
}

// A leave of this stamp stands in one history of two, or what was done with an item: 3 or 4, and the stamp.
const LEFT: Fault = [3, 31_000, 2];

const CAME_IN: Fault = [4, 31_000, 4];

const CAME_BACK: Fault = [4, 31_000, 6];

const LEFT_FOR_TASK: Fault = [3, 31_000, 7];

const LEFT_LATER: Fault = [3, 32_000, 1];

const LEFT_FOR_ANOTHER: Fault = [3, 31_000, 1];

const LEAVES: Story = (DEAD, &[Line::Leave]);

const COMES_IN: Story = (DEAD, &[Line::Leave, Line::Enter]);

// A story whose last line moves a message, what is wrong where one history of two lacks that, and how many records the client and the
// mover have.
type Moved = (Story, Fault, [u64; 2]);

// Each of the seven moves.
const MOVES: &[Moved] = &[
    (LEAVES, LEFT, [7, 1]),
    (COMES_IN, CAME_IN, [7, 2]),
    (
        (DEAD, &[Line::Leave, Line::RemoveD, Line::TurnBack]),
        CAME_IN,
        [9, 2],
    ),
    (
        (
            DEAD,
            &[Line::Leave, Line::RemoveD, Line::TurnBack, Line::ComeBack],
        ),
        CAME_BACK,
        [9, 3],
    ),
    (
        (
            DEAD,
            &[
                Line::Leave,
                Line::RemoveD,
                Line::RemoveQ,
                Line::TurnBack,
                Line::Drop,
            ],
        ),
        CAME_BACK,
        [11, 3],
    ),
    (
        (
            DEAD,
            &[Line::Leave, Line::Enter, Line::Start, Line::LeaveForTask],
        ),
        LEFT_FOR_TASK,
        [8, 3],
    ),
    ((SENT_THERE, &[Line::Start, Line::Fail]), LEFT, [6, 1]),
];

// Which parts have the last line, and which lack it: one of the eight ways. The list of queues is the same.
fn mix_of(number: u32) -> Mix {
    Mix {
        directory: false,
        homes: number % 2 == 1,
        ledger: number / 2 % 2 == 1,
        records: number / 4 % 2 == 1,
    }
}

// What is wrong where these parts have a line that moves a message and leaves the mover this record.
fn wrong(mix: Mix, alone: Fault, record: u64) -> Fault {
    if mix.homes == mix.ledger && mix.homes == mix.records {
        NO_FAULT
    } else if mix.homes == mix.records {
        alone
    } else {
        missing(1, record)
    }
}

// A story without its last line.
fn but_the_last(story: Story) -> Story {
    match story {
        (first, [most @ .., _]) => (first, most),
        _ => story,
    }
}

// Whether the audit tells in each of the eight ways what is wrong.
fn is_reported_everywhere(rt: &impl Abort, alloc: Global, index: usize, moved: &Moved) {
    let (story, alone, records) = moved;
    let record = records[1].saturating_sub(1);
    for number in 0..8u32 {
        let mix = mix_of(number);
        let found = mixed(rt, alloc, but_the_last(*story), *story, mix);
        let case = (index as u64)
            .saturating_mul(8)
            .saturating_add(number as u64);
        must(rt, case, &found, found == wrong(mix, *alone, record));
    }
}

#[test]
fn a_move_that_is_not_everywhere_is_reported(rt: HostRuntime) {
    for (index, moved) in MOVES.iter().enumerate() {
        is_reported_everywhere(&rt, rt.alloc(), index, moved);
    }
}

// What the audit says of a story of which a record is taken out, if it is there.
fn taken_out(
    rt: &impl Abort,
    alloc: Global,
    story: Story,
    actor: u32,
    record: u64,
    is_there: bool,
) -> Fault {
    let mut evidence = lived(rt, alloc, story);
    assert!(rt; evidence.drop_twice(actor, record) == [is_there, false]);
    evidence.fault()
}

// Takes out each of so many records of an actor, and none past them.
fn take_out_each(rt: &impl Abort, alloc: Global, story: Story, actor: u32, count: u64) {
    for record in 0..count {
        let found = taken_out(rt, alloc, story, actor, record, true);
        must(rt, record, &found, found == missing(actor, record));
    }
    for record in [count, u64::MAX] {
        let found = taken_out(rt, alloc, story, actor, record, false);
        must(rt, record, &found, found == NO_FAULT);
    }
}

#[test]
fn each_record_that_is_taken_out_is_reported(rt: HostRuntime) {
    for (story, _, records) in MOVES {
        take_out_each(&rt, rt.alloc(), *story, 0, records[0]);
        take_out_each(&rt, rt.alloc(), *story, 1, records[1]);
    }
}

const OTHER_LEAVES: Story = (OTHER_DEAD, &[Line::Leave]);

const OTHER_COMES_IN: Story = (OTHER_DEAD, &[Line::Leave, Line::Enter]);

const BROUGHT_BY_ANOTHER: Story = (DEAD, &[Line::Leave, Line::EnterByAnother]);

const LEAVES_FOR_D: Story = (DEAD_FOR_D, &[Line::Leave]);

const LEAVES_FOR_E: Story = (DEAD_FOR_E, &[Line::Leave]);

// Stories of which the ledger has the second, and what may be told of that.
type Differing = (Story, Story, [Fault; 2]);

// The ledger's step has the same stamp, and is of another message, actor or target; or it has another stamp.
const DIFFERING: &[Differing] = &[
    (LEAVES, OTHER_LEAVES, [LEFT, LEFT]),
    (OTHER_LEAVES, LEAVES, [LEFT, LEFT]),
    (COMES_IN, OTHER_COMES_IN, [LEFT, CAME_IN]),
    (LEAVES, (DEAD, &[Line::LeaveByAnother]), [LEFT, LEFT]),
    (COMES_IN, BROUGHT_BY_ANOTHER, [CAME_IN, CAME_IN]),
    (LEAVES, (DEAD, &[Line::LeaveLater]), [LEFT, LEFT_LATER]),
    (
        LEAVES_FOR_D,
        LEAVES_FOR_E,
        [LEFT_FOR_ANOTHER, LEFT_FOR_ANOTHER],
    ),
];

#[test]
fn what_differs_between_two_histories_is_a_fault(rt: HostRuntime) {
    let mut mix = Mix::none();
    mix.ledger = true;
    for (index, (kept, ledger, wants)) in DIFFERING.iter().enumerate() {
        let found = mixed(&rt, rt.alloc(), *kept, *ledger, mix);
        must(
            &rt,
            index as u64,
            &found,
            found == wants[0] || found == wants[1],
        );
    }
}

const REMOVE_C: Cue = Cue::Any(
    r#"{"Action":"DeleteQueue","Now":1000,"QueueUrl":"http://localhost/000000000000/c"}"#,
);

const LEAVE_EARLY: Cue = Cue::Line(
    r#"{"Action":"DeadTurn","Actor":1,"Now":1000,"QueueUrl":"http://localhost/000000000000/q"}"#,
    HAS_LEFT,
);

const REMOVE_D_EARLY: Cue = Cue::Line(
    r#"{"Action":"DeleteQueue","Now":1000,"QueueUrl":"http://localhost/000000000000/d"}"#,
    "{}",
);

const REMOVE_Q_EARLY: Cue = Cue::Line(
    r#"{"Action":"DeleteQueue","Now":1000,"QueueUrl":"http://localhost/000000000000/q"}"#,
    "{}",
);

// The queues d, q, c and u, of one row a home: q has a message, another one of it is in transit to d, c is deleted, and u was never
// opened. There is spare memory for one item in transit, and no fifth queue.
const CROSSING: &[Cue] = &[
    MAKE_D,
    MAKE_Q_FOR_D,
    MAKE_C,
    REMOVE_C,
    SEND,
    RECEIVE,
    LEAVE_EARLY,
    SEND,
    Cue::Step(0, 0, Asked::Make("u"), Answers::Number(4)),
];

const NO_QUEUE: Answers = Answers::Refused(Refusal::QueueDoesNotExist);

const NOT_SO: Answers = Answers::Refused(Refusal::UnsupportedOperation);

const FULL: Answers = Answers::Refused(Refusal::OverLimit);

const LATE: Answers = Answers::Refused(Refusal::ClockRange);

// What is refused there, in order.
const REFUSED: &[Cue] = &[
    // Both queues are there, one item is in transit, and no other.
    Cue::Step(5, CLOCK_END, Asked::Shared(0, Move::LeaveDead), LATE),
    Cue::Step(5, CLOCK_END, Asked::Shared(4, Move::LeaveDead), LATE),
    Cue::Moves(
        Move::LeaveDead,
        &[(0, Answers::Nothing), (1, Answers::Nothing)],
    ),
    Cue::Moves(
        Move::LeaveDead,
        &[(2, NO_QUEUE), (3, NO_QUEUE), (4, NO_QUEUE)],
    ),
    Cue::Moves(Move::Enter(2), &[(0, NOT_SO)]),
    Cue::Moves(Move::Enter(1), &[(1, FULL), (2, NO_QUEUE), (3, NO_QUEUE)]),
    Cue::Moves(Move::GiveBack(1), &[(0, NOT_SO), (1, FULL), (3, NO_QUEUE)]),
    Cue::Moves(
        Move::TurnBack(1),
        &[(0, NOT_SO), (2, NOT_SO), (3, NO_QUEUE)],
    ),
    Cue::Moves(Move::Drop(1), &[(1, NOT_SO), (2, NOT_SO), (3, NO_QUEUE)]),
    // The message that waits is dead too, and finds no room in transit.
    RECEIVE,
    Cue::Moves(Move::LeaveDead, &[(1, FULL)]),
    // The item turns, and finds no room where it comes from.
    REMOVE_D_EARLY,
    Cue::Moves(Move::Enter(1), &[(0, NO_QUEUE)]),
    Cue::Moves(Move::Drop(1), &[(0, NOT_SO)]),
    Cue::Moves(Move::TurnBack(2), &[(0, NOT_SO)]),
    Cue::Moves(Move::TurnBack(1), &[(0, Answers::Done), (0, NOT_SO)]),
    Cue::Moves(Move::GiveBack(1), &[(1, FULL)]),
    Cue::Moves(Move::Drop(1), &[(1, NOT_SO)]),
    // It is dropped.
    REMOVE_Q_EARLY,
    Cue::Moves(Move::GiveBack(1), &[(1, NO_QUEUE)]),
    Cue::Moves(Move::TurnBack(1), &[(1, NOT_SO)]),
    Cue::Moves(Move::Drop(1), &[(1, Answers::Done), (1, NOT_SO)]),
];

#[test]
fn moves_are_refused_in_order(rt: HostRuntime) {
    let evidence = played(&rt, rt.alloc(), few(1, 1), CROSSING, REFUSED);
    assert!(rt; evidence.fault() == NO_FAULT);
}

const ENTER_TURN_EARLY: &str = r#"{"Action":"EnterTurn","Actor":1,"Now":1000}"#;

const FULL_TURN: Cue = Cue::Line(ENTER_TURN_EARLY, r#"{"Turn":"full"}"#);

const ENTER_EARLY: Cue = Cue::Line(ENTER_TURN_EARLY, HAS_ENTERED);

const LEAVE_D: Cue = Cue::Line(
    r#"{"Action":"DeadTurn","Actor":1,"Now":1000,"QueueUrl":"http://localhost/000000000000/d"}"#,
    r#"{"Error":{"Code":"QueueDoesNotExist","Number":9}}"#,
);

const OPEN_D: Cue = Cue::Line(
    r#"{"Action":"CreateQueue","Now":1000,"QueueName":"d"}"#,
    r#"{"QueueUrl":"http://localhost/000000000000/d"}"#,
);

// No message leaves a home that was never opened, and none comes in, until it is.
const UNOPENED: &[Cue] = &[
    Cue::Step(0, 0, Asked::Make("d"), Answers::Number(1)),
    MAKE_Q_FOR_D,
    SEND,
    RECEIVE,
    LEAVE_EARLY,
    FULL_TURN,
    LEAVE_D,
    OPEN_D,
    ENTER_EARLY,
];

#[test]
fn a_home_that_was_never_opened_is_as_full(rt: HostRuntime) {
    let mut stage = Stage::new(&rt, rt.alloc(), few(10, 10));
    play(&rt, rt.alloc(), &mut stage, UNOPENED);
}
