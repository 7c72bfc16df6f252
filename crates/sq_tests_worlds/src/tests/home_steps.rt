//! What is asked of one home that no client asks, with values from the rules of the queue; each step has its event and its record. The
//! home is over rows in slots, and over rows one after another.
ghost use Rattle.std.specs.Prelude.{◌≡◌, ◌<◌, []};
ghost use Rattle.sq_base.specs.Stamps.{stamp_end};

use sq_base::ids::QueueNo;
use sq_base::ranges::{Delay, MaxReceives, Retention, Timeout};
use sq_base::refusal::Refusal;
use sq_base::settings::{Redrive, Settings};
use sq_base::stamp::Stamp;
use sq_history::act::HomeAct;
use sq_history::record::HomeRecord;
use sq_history::recorded::Recorded;
use sq_model::event::Actor;
use sq_model::place::{Limits, Site};
use sq_model::replies::HomeReply;
use sq_shard::shard::Shard;
use sq_store::plain::PlainStore;
use sq_store::slots::SlotStore;
use sq_store::store::Store;
use sq_tests_kit::asks::{Answers, Ask, answer_of, home_act};
use sq_tests_kit::setup::{CLOCK_END, home, stamp};
use std::alloc::Global;
use std::process::Abort;

/// A home of so many messages, all of which may be in flight. It is in a box: a function that has a home on its own stack is proved
/// with all that it is made of.
pub fn unopened<S: Store>(rt: &impl Abort, alloc: Global, store: S, rows: u32) -> Box<Recorded<S>>
    requires { S.rows store ≡ [] }
{
    let limits = Limits {
        rows,
        flights: rows,
    };
    let site = Site {
        home: home(0),
        limits,
    };
    let home = Recorded::unopened(alloc, Shard::unopened(site, store));
    Box::new(alloc, home).expect(rt, "memory")
}

// Whether the record is of this home's last event, with the number of the actor's step.
fn is_of_the_last<S: Store>(record: &HomeRecord, home: &Recorded<S>, by: &Actor) -> bool {
    let step = record.step();
    let at = step.index as usize;
    let events = home.events();
    match events.get(at) {
        Some(event) => {
            step.place == by.place
                && step.stamp == event.stamp
                && home.last() == event.stamp
                && event.actor == by.number
                && event.place == by.place
                && step.call == event.call
                && step.reply == event.reply
                && record.home().queue.get() == 1
                && record.home().home.get() == 0
        }
        None => false,
    }
}

// What is told by the answer to an actor's step: what its record says, which is of the home's last event. Where it is refused there is
// no event more. Anything else is `Other`.
fn told_by<S: Store>(
    answered: &Result<(HomeReply, HomeRecord), Refusal>,
    home: &Recorded<S>,
    by: &Actor,
) -> Answers {
    match answered {
        Ok((reply, record)) => {
            if is_of_the_last(record, home, by) && *reply == record.step().reply {
                answer_of(reply)
            } else {
                Answers::Other
            }
        }
        Err(refusal) => {
            if home.events().len() as u64 == by.place {
                Answers::Refused(*refusal)
            } else {
                Answers::Other
            }
        }
    }
}

// What a home answers to an act.
fn acted<S: Store>(
    alloc: Global,
    home: &mut Recorded<S>,
    by: &Actor,
    now: u64,
    act: HomeAct,
) -> Answers {
    told_by(&home.step(alloc, by, now, None, act), home, by)
}

/// What a home answers an actor that has seen so much, whose steps are numbered as the events of the home.
pub fn asked_of<S: Store>(
    alloc: Global,
    home: &mut Recorded<S>,
    seen: u64,
    now: u64,
    ask: Ask,
) -> Answers
    requires { seen < stamp_end }
{
    let by = Actor {
        number: 7,
        place: home.events().len() as u64,
        seen: stamp(seen, 3),
    };
    match home_act(alloc, ask) {
        Ok(act) => acted(alloc, home, &by, now, act),
        Err(refusal) => Answers::Refused(refusal),
    }
}

// A clock reading in ms, what is asked then, and what is answered.
type Line = (u64, Ask, Answers);

// Whether a home answers as a line says. One that is refused for want of memory is asked again.
fn is_right<S: Store>(alloc: Global, home: &mut Recorded<S>, seen: u64, line: &Line) -> bool
    requires { seen < stamp_end }
{
    let (now, ask, want) = line;
    for _ in 0..2 {
        let told = asked_of(alloc, home, seen, *now, *ask);
        if told == *want {
            return true;
        }
        if told != Answers::Refused(Refusal::NoMemory) {
            return false;
        }
    }
    false
}

// The index of the first line that a home answers otherwise, to an actor that has seen so much; how many there are, where it answers all
// as they say.
fn first_wrong<S: Store>(alloc: Global, home: &mut Recorded<S>, seen: u64, lines: &[Line]) -> usize
    requires { seen < stamp_end }
{
    for (index, line) in lines.iter().enumerate() {
        if !is_right(alloc, home, seen, line) {
            return index;
        }
    }
    lines.len()
}

// The same of a home of its own over this store.
fn wrong_over<S: Store>(rt: &impl Abort, alloc: Global, store: S, lines: &[Line]) -> usize
    requires { S.rows store ≡ [] }
{
    let mut home = unopened(rt, alloc, store, 10);
    first_wrong(alloc, &mut home, 0, lines)
}

// Over either store.
fn played(rt: &impl Abort, alloc: Global, lines: &[Line]) -> [usize; 2] {
    [
        wrong_over(rt, alloc, SlotStore::new(alloc), lines),
        wrong_over(rt, alloc, PlainStore::new(alloc), lines),
    ]
}

// The standard settings with these two in place of their own, in seconds.
fn settings(delay: Delay, retention: Retention) -> Settings {
    let mut settings = Settings::standard();
    settings.delay = delay;
    settings.retention = retention;
    settings
}

// A message is dead after one receive.
fn strict() -> Settings {
    let mut settings = Settings::standard();
    settings.redrive = Some(Redrive {
        target: QueueNo::following(0),
        max_receives: MaxReceives::of(1),
    });
    settings
}

#[test]
fn messages_are_counted_and_purged(rt: HostRuntime) {
    let kept = settings(Delay::of(0), Retention::of(1000));
    let longest = Some(Delay::of(900));
    let wrong = played(
        &rt,
        rt.alloc(),
        &[
            (0, Ask::Configure(kept, 1), Answers::Done),
            (1000, Ask::Send(None), Answers::Sent(0, 0)),
            (1000, Ask::Look(None), Answers::Gave(1, 31_000)),
            (1000, Ask::Send(None), Answers::Sent(1, 1)),
            (1001, Ask::Send(longest), Answers::Sent(2, 2)),
            (1001, Ask::Count, Answers::Counts(1, 1, 1)),
            (31_000, Ask::Count, Answers::Counts(2, 0, 1)),
            (901_001, Ask::Count, Answers::Counts(3, 0, 0)),
            (1_001_000, Ask::Count, Answers::Counts(1, 0, 0)),
            (1_001_000, Ask::Send(None), Answers::Sent(1, 3)),
            (1_001_000, Ask::Purge, Answers::Done),
            (1_001_000, Ask::Count, Answers::Counts(0, 0, 0)),
            (1_001_000, Ask::Send(None), Answers::Sent(0, 4)),
            (1_001_000, Ask::Configure(strict(), 2), Answers::Done),
            (1_001_000, Ask::Look(None), Answers::Gave(1, 1_031_000)),
            (1_031_000, Ask::Look(None), Answers::GaveAll(0)),
            (1_031_000, Ask::Count, Answers::Counts(1, 0, 0)),
        ],
    );
    assert_eq!(rt; wrong, [17, 17]);
}

// A home serves from its opening to its end.
#[test]
fn a_home_that_does_not_serve_refuses(rt: HostRuntime) {
    let refused = Answers::Refused(Refusal::QueueDoesNotExist);
    let never_given = Answers::Refused(Refusal::ReceiptHandleIsInvalid);
    let late = Answers::Refused(Refusal::ClockRange);
    let at_once = Timeout::of(0);
    let wrong = played(
        &rt,
        rt.alloc(),
        &[
            (1000, Ask::Send(None), refused),
            (0, Ask::Open, Answers::Done),
            (1000, Ask::Send(None), Answers::Sent(0, 0)),
            (1000, Ask::Delete(0, 1, 1), never_given),
            (CLOCK_END, Ask::Delete(0, 0, 1), late),
            (1000, Ask::Close, Answers::Done),
            (1000, Ask::Configure(Settings::standard(), 2), refused),
            (1000, Ask::Send(None), refused),
            (1000, Ask::Look(None), refused),
            (1000, Ask::Delete(0, 0, 1), refused),
            (1000, Ask::Change(0, 0, 1, at_once), refused),
            (1000, Ask::Purge, refused),
            (1000, Ask::Count, refused),
            (1000, Ask::Close, refused),
        ],
    );
    assert_eq!(rt; wrong, [14, 14]);
}

// Whether a home is closed, by a step of this stamp.
fn is_closed_at<S: Store>(home: &Recorded<S>, last: Stamp) -> bool {
    home.last() == last && home.is_closed()
}

// The same to an actor that has seen 5000 ms, of a home with spare memory for one message; and whether it is closed then, at this stamp.
fn ended(rt: &impl Abort, alloc: Global, lines: &[Line], last: Stamp) -> (usize, bool) {
    let mut home = unopened(rt, alloc, SlotStore::new(alloc), 1);
    let wrong = first_wrong(alloc, &mut home, 5000, lines);
    (wrong, is_closed_at(&home, last))
}

// Each call once, in an order in which each is done, by an actor that has seen more than its clock says.
#[test]
fn each_call_has_its_event_and_its_record(rt: HostRuntime) {
    let lines: [Line; 8] = [
        (1000, Ask::Open, Answers::Done),
        (1000, Ask::Send(None), Answers::Sent(0, 0)),
        (1000, Ask::Look(None), Answers::Gave(1, 35_000)),
        (1000, Ask::Change(0, 0, 1, Timeout::of(0)), Answers::Done),
        (1000, Ask::Count, Answers::Counts(1, 0, 0)),
        (1000, Ask::Delete(0, 0, 1), Answers::Done),
        (1000, Ask::Purge, Answers::Done),
        (1000, Ask::Close, Answers::Done),
    ];
    let (wrong, is_ended) = ended(&rt, rt.alloc(), &lines, stamp(5000, 11));
    assert!(rt; wrong == 8 && is_ended, "{wrong}");
}
