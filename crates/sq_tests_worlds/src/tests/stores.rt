//! The same steps, chosen at random, at two homes: one over rows in slots, and one over rows one after another.
ghost use Rattle.std.specs.Prelude.{◌<◌, ◌≤◌, IfOk, IfSome};
ghost use Rattle.sq_base.specs.Stamps.{stamp_end};
ghost use Rattle.sq_shard.specs.Looks.{MayBeGiven};
ghost use Rattle.sq_shard.specs.Moves.{HasRow};

use sq_base::ids::QueueNo;
use sq_base::ranges::{Delay, MaxMessages, MaxReceives, Retention, Timeout};
use sq_base::refusal::Refusal;
use sq_base::row::Row;
use sq_base::settings::{Redrive, Settings};
use sq_model::calls::Receipt;
use sq_model::place::{Limits, Site};
use sq_model::replies::Counts;
use sq_model::rows::{Rows, copy_row};
use sq_model::shared::HomeLeave;
use sq_shard::shard::Shard;
use sq_store::plain::PlainStore;
use sq_store::slots::SlotStore;
use sq_store::store::Store;
use sq_tests_kit::choices::Choices;
use sq_tests_kit::setup::{hello, home, receipt};
use std::alloc::Global;
use std::process::Abort;

// So many messages may be in flight.
const FLIGHTS: u32 = 10;

// The homes, which hold the same messages, each in slots of its own.
#[derive(Drop)]
struct Pair {
    slots: Shard<SlotStore>,
    plain: Shard<PlainStore>,
}

// What is asked of a home that gives no message.
#[derive(Clone, Copy)]
enum Asked {
    Configure(Settings, u64),
    Send(Option<Delay>),
    Delete(Receipt),
    Change(Receipt, Timeout),
    Purge,
    Count,
    Trim,
}

// What a home answers, but for slots.
#[derive(Clone, Copy, PartialEq, Eq)]
enum Told {
    Done,
    // The serial.
    Sent(u64),
    Counted(Counts),
    // How many messages a look gives.
    Gives(usize),
    // How many messages a look would give. They stay, since the homes would give others.
    WouldGive(usize),
    // Too many are in flight for a look.
    Over,
    // The serial of the message that is taken out.
    Left(u64),
    // None is there to be taken out.
    NoneLeft,
    // None is taken out, since the homes found others.
    Stays,
    Refused(Refusal),
    // The homes give other messages, which they may not.
    Apart,
}

// The answers that come, one of each kind.
const KINDS: usize = 15;

// The number of a refusal's kind.
fn refused(refusal: Refusal) -> usize {
    match refusal {
        Refusal::QueueDoesNotExist => 10,
        Refusal::OverLimit => 11,
        Refusal::ReceiptHandleIsInvalid => 12,
        Refusal::MessageNotInflight => 13,
        Refusal::InvalidParameterValue => 14,
        _ => KINDS,
    }
}

// The number of an answer's kind.
fn kind(told: Told) -> usize {
    match told {
        Told::Done => 0,
        Told::Sent(_) => 1,
        Told::Counted(_) => 2,
        Told::Gives(count) => if count == 0 { 3 } else { 4 },
        Told::WouldGive(_) => 5,
        Told::Over => 6,
        Told::Left(_) => 7,
        Told::NoneLeft => 8,
        Told::Stays => 9,
        Told::Refused(refusal) => refused(refusal),
        Told::Apart => KINDS,
    }
}

fn site() -> Site {
    Site {
        home: home(0),
        limits: Limits {
            rows: 20,
            flights: FLIGHTS,
        },
    }
}

fn new_pair(alloc: Global) -> Pair {
    Pair {
        slots: Shard::unopened(site(), SlotStore::new(alloc)),
        plain: Shard::unopened(site(), PlainStore::new(alloc)),
    }
}

fn done(answer: Result<(), Refusal>) -> Told {
    match answer {
        Ok(()) => Told::Done,
        Err(refusal) => Told::Refused(refusal),
    }
}

fn sent<S: Store>(
    alloc: Global,
    home: &mut Shard<S>,
    moment: u64,
    delay: Option<Delay>,
) -> Result<Told, Refusal>
    requires { moment < stamp_end }
{
    let sent = home.send(moment, hello(alloc)?, delay)?;
    Ok(Told::Sent(sent.id.serial.get()))
}

fn counted<S: Store>(home: &mut Shard<S>, moment: u64) -> Result<Told, Refusal> {
    Ok(Told::Counted(home.count(moment)?))
}

fn unexpired<S: Store>(home: &mut Shard<S>, moment: u64) -> Told {
    home.expire(moment);
    Told::Done
}

fn answer<S: Store>(alloc: Global, home: &mut Shard<S>, moment: u64, asked: Asked) -> Told
    requires { moment < stamp_end }
{
    let answer = match asked {
        Asked::Send(delay) => sent(alloc, home, moment, delay),
        Asked::Count => counted(home, moment),
        Asked::Trim => Ok(unexpired(home, moment)),
        Asked::Configure(settings, version) => Ok(done(home.configure(moment, settings, version))),
        Asked::Delete(receipt) => Ok(done(home.delete(moment, receipt))),
        Asked::Change(receipt, timeout) => Ok(done(home.change(moment, receipt, timeout))),
        Asked::Purge => Ok(done(home.purge(moment))),
    };
    match answer {
        Ok(told) => told,
        Err(refusal) => Told::Refused(refusal),
    }
}

// Whether two rows are the same, but for their slots.
fn is_alike(row: &Row, other: &Row) -> bool {
    row.id == other.id
        && row.lineage == other.lineage
        && row.body.as_str() == other.body.as_str()
        && row.serial == other.serial
        && row.enqueued == other.enqueued
        && row.visible_from == other.visible_from
        && row.receives == other.receives
        && row.last_receive == other.last_receive
        && row.origin == other.origin
}

// The row with the serial of this one.
fn row_of<'a>(rows: &'a [Row], wanted: &Row) -> Option<&'a Row> {
    for row in rows {
        if row.serial == wanted.serial {
            return Some(row);
        }
    }
    None
}

// Whether each of these rows is among the others, but for its slot.
fn are_there(rows: &[Row], others: &[Row]) -> bool {
    for row in rows {
        let is_there = match row_of(others, row) {
            Some(other) => is_alike(row, other),
            None => false,
        };
        if !is_there {
            return false;
        }
    }
    true
}

// Whether two looks give the same rows, in any order.
fn are_alike(these: &Option<Rows>, those: &Option<Rows>) -> bool {
    match (these, those) {
        (Some(rows), Some(others)) => {
            rows.len() == others.len() && are_there(rows.as_slice(), others.as_slice())
        }
        (None, None) => true,
        _ => false,
    }
}

// A message that was given, with its slot at either home.
#[derive(Clone, Copy)]
struct Given {
    slots: u32,
    plain: u32,
    serial: u64,
    receive: u64,
}

// The last ones.
#[derive(Clone, Copy)]
struct Held {
    next: usize,
    messages: [Given; 8],
}

impl Held {
    fn new() -> Held {
        let none = Given {
            slots: 0,
            plain: 0,
            serial: 0,
            receive: 1,
        };
        Held {
            next: 0,
            messages: [none; 8],
        }
    }

    fn keep(&mut self, message: Given) {
        if let Some(kept) = self.messages.get_mut(self.next) {
            *kept = message;
        }
        self.next = if self.next < 7 { self.next + 1 } else { 0 };
    }

    fn keep_rows(&mut self, rows: &[Row], others: &[Row]) {
        for row in rows {
            if let Some(other) = row_of(others, row) {
                self.keep(Given {
                    slots: row.slot,
                    plain: other.slot,
                    serial: row.serial.get(),
                    receive: row.receives as u64,
                });
            }
        }
    }

    fn keep_look(&mut self, these: &Option<Rows>, those: &Option<Rows>) {
        if let (Some(rows), Some(others)) = (these, those) {
            self.keep_rows(rows.as_slice(), others.as_slice());
        }
    }

    // One of them, by a serial or a receive number that may be another.
    fn receipts(&self, choices: &mut Choices) -> (Receipt, Receipt) {
        let message = self.messages[choices.below(8) as usize];
        let serial = match choices.below(16) {
            0 => message.serial.saturating_add(1_000_000),
            1 => message.serial.saturating_sub(1),
            _ => message.serial,
        };
        let receive = match choices.below(16) {
            0 => message.receive.saturating_add(1),
            1 => message.receive.saturating_sub(1),
            _ => message.receive,
        };
        (
            receipt(message.slots, serial, receive),
            receipt(message.plain, serial, receive),
        )
    }
}

// What a look gives.
fn gives(picked: &Option<Rows>) -> Told {
    match picked {
        Some(rows) => Told::Gives(rows.len()),
        None => Told::Over,
    }
}

// What it gives where the homes chose others. Where it gives fewer than it may, it gives all that are live, so there are no others.
fn would_give(picked: &Option<Rows>, most: usize) -> Told {
    match picked {
        Some(rows) if rows.len() < most => Told::Apart,
        Some(rows) => Told::WouldGive(rows.len()),
        None => Told::Over,
    }
}

// How many messages a look may give. Both homes are counted, since a count lets go of what is past its retention.
fn most_given(pair: &mut Pair, moment: u64, max: MaxMessages) -> Result<usize, Refusal> {
    let counts = pair.slots.count(moment)?;
    let wanted = pair.plain.count(moment)?;
    let in_flight = counts.in_flight.max(wanted.in_flight);
    let flights_left = FLIGHTS.saturating_sub(in_flight);
    Ok(flights_left.min(max.get()) as usize)
}

// What either gives where both chose the same.
fn give(
    pair: &mut Pair,
    held: &mut Held,
    moment: u64,
    these: &Option<Rows>,
    those: &Option<Rows>,
) -> (Told, Told)
    requires moment { moment < stamp_end }
    requires these { MayBeGiven pair.old.slots.home moment these.now }
    requires those { MayBeGiven pair.old.plain.home moment those.now }
{
    held.keep_look(these, those);
    pair.slots.give(moment, None, these);
    pair.plain.give(moment, None, those);
    (gives(these), gives(those))
}

// What either gives where both choose the same. Else nothing is given, so that both go on with the same messages.
fn look(
    alloc: Global,
    pair: &mut Pair,
    held: &mut Held,
    moment: u64,
    max: MaxMessages,
) -> Result<(Told, Told), Refusal>
    requires { moment < stamp_end }
{
    let most = most_given(pair, moment, max)?;
    let these = pair.slots.choose(alloc, moment, max, None)?;
    let those = pair.plain.choose(alloc, moment, max, None)?;
    if are_alike(&these, &those) {
        Ok(give(pair, held, moment, &these, &those))
    } else {
        Ok((would_give(&these, most), would_give(&those, most)))
    }
}

// A message that may leave so, or a live one.
#[tactic(auto, using(sq_history::proofs::HalfLaws::has_row))]
fn found<S: Store>(
    home: &Shard<S>,
    moment: u64,
    what: Option<HomeLeave>,
) -> Result<Option<Row>, Refusal>
    ensures { IfOk result (λ found. IfSome found (HasRow home.now.home moment)) }
{
    let found = match what {
        Some(what) => home.find_leaving(what, moment)?,
        None => home.find_live(moment),
    };
    match found {
        Some(row) => Ok(Some(copy_row(row)?)),
        None => Ok(None),
    }
}

// Takes out these messages, which are the same.
fn taken_out(pair: &mut Pair, moment: u64, row: &Row, other: &Row) -> (Told, Told)
    requires row { HasRow pair.old.slots.home moment row.now }
    requires other { HasRow pair.old.plain.home moment other.now }
{
    let row = pair.slots.take_out(moment, row);
    let other = pair.plain.take_out(moment, other);
    let told = Told::Left(row.serial.get());
    if is_alike(&row, &other) {
        (told, told)
    } else {
        (told, Told::Apart)
    }
}

// Takes out a message that may leave so, or a live one, where both find the same.
fn leave(pair: &mut Pair, moment: u64, what: Option<HomeLeave>) -> Result<(Told, Told), Refusal> {
    let this = found(&pair.slots, moment, what)?;
    let that = found(&pair.plain, moment, what)?;
    Ok(match (&this, &that) {
        (Some(row), Some(other)) if row.serial == other.serial => {
            taken_out(pair, moment, row, other)
        }
        (Some(_), Some(_)) => (Told::Stays, Told::Stays),
        (None, None) => (Told::NoneLeft, Told::NoneLeft),
        _ => (Told::Stays, Told::Apart),
    })
}

// A message is kept for one to three minutes, hidden for up to 20 seconds, and dead after one to three receives, if ever.
fn settings(choices: &mut Choices) -> Settings {
    let mut settings = Settings::standard();
    settings.retention = Retention::of(60 + choices.below(120) as u32);
    settings.timeout = Timeout::of(choices.below(20) as u32);
    settings.delay = Delay::of(choices.below(2) as u32);
    if choices.below(4) != 0 {
        settings.redrive = Some(Redrive {
            target: QueueNo::following(0),
            max_receives: MaxReceives::of(1 + choices.below(3) as u32),
        });
    }
    settings
}

// Up to five seconds or none, or the home's.
fn delay(choices: &mut Choices) -> Option<Delay> {
    match choices.below(4) {
        0 => Some(Delay::of(choices.below(6) as u32)),
        _ => None,
    }
}

// As many as can be asked for, or any number.
fn max_messages(choices: &mut Choices) -> MaxMessages {
    match choices.below(2) {
        0 => MaxMessages::of(10),
        _ => MaxMessages::of(1 + choices.below(10) as u32),
    }
}

// Up to a minute, or 12 hours.
fn timeout(choices: &mut Choices) -> Timeout {
    match choices.below(4) {
        0 => Timeout::of(43_200),
        _ => Timeout::of(choices.below(60) as u32),
    }
}

fn both(asked: Asked) -> (Asked, Asked) {
    let same = asked;
    (asked, same)
}

// What is asked of either. The homes are opened at the 20th step or after it; one time in ten the settings have an older version.
fn next_asked(choices: &mut Choices, held: &Held, number: u64) -> (Asked, Asked)
    requires { number < 100000 }
{
    match choices.below(400) {
        0..10 if 20 <= number => {
            let version = if choices.below(10) == 0 {
                0
            } else {
                number + 1
            };
            both(Asked::Configure(settings(choices), version))
        }
        10..110 => both(Asked::Send(delay(choices))),
        110..250 => {
            let (this, that) = held.receipts(choices);
            (Asked::Delete(this), Asked::Delete(that))
        }
        250..350 => {
            let timeout = timeout(choices);
            let (this, that) = held.receipts(choices);
            (Asked::Change(this, timeout), Asked::Change(that, timeout))
        }
        350 => both(Asked::Purge),
        351..370 => both(Asked::Trim),
        _ => both(Asked::Count),
    }
}

// Both homes, and what of them the next choices go by.
#[derive(Drop)]
struct Course {
    pair: Pair,
    choices: Choices,
    held: Held,
}

impl Course {
    fn new(alloc: Global, seed: u64) -> Course {
        Course {
            pair: new_pair(alloc),
            choices: Choices { state: seed },
            held: Held::new(),
        }
    }

    // What either answers at the next step, or refuses.
    fn step(&mut self, alloc: Global, number: u64) -> Result<(Told, Told), Refusal>
        requires { number < 100000 }
    {
        let Course {
            pair,
            choices,
            held,
        } = self;
        // The clock goes forward by 200 ms a step, and is up to 20 seconds ahead.
        let moment = number * 200 + choices.below(20_000);
        match choices.below(10) {
            0..3 => {
                let max = max_messages(choices);
                look(alloc, pair, held, moment, max)
            }
            3 => {
                let what = if choices.below(2) == 0 {
                    Some(HomeLeave::Dead)
                } else {
                    None
                };
                leave(pair, moment, what)
            }
            _ => {
                let (this, that) = next_asked(choices, held, number);
                let told = answer(alloc, &mut pair.slots, moment, this);
                Ok((told, answer(alloc, &mut pair.plain, moment, that)))
            }
        }
    }
}

// What either answers at a step, where both answer the same and may.
fn same(course: &mut Course, alloc: Global, number: u64) -> Option<Told>
    requires { number < 100000 }
{
    match course.step(alloc, number) {
        Ok((told, wanted)) if told == wanted && told != Told::Apart => Some(told),
        Ok(_) => None,
        Err(refusal) => Some(Told::Refused(refusal)),
    }
}

// The first of so many steps that the homes answer otherwise, or their number where there is none; and how often each kind of answer
// came.
fn first_other(course: &mut Course, alloc: Global, steps: u64) -> (u64, [u64; KINDS])
    requires { steps ≤ 100000 }
{
    let mut kinds = [0; KINDS];
    for number in 0..steps {
        let Some(told) = same(course, alloc, number) else {
            return (number, kinds);
        };
        if let Some(count) = kinds.get_mut(kind(told)) {
            *count = count.saturating_add(1);
        }
    }
    (steps, kinds)
}

// The same of a course of its own.
fn ran(rt: &impl Abort, alloc: Global, steps: u64) -> (u64, [u64; KINDS])
    requires { steps ≤ 100000 }
{
    let mut course = Box::new(alloc, Course::new(alloc, 1)).expect(rt, "memory");
    first_other(&mut course, alloc, steps)
}

// Each kind of answer comes.
#[test]
fn both_stores_answer_alike(rt: HostRuntime) {
    let (wrong, kinds) = ran(&rt, rt.alloc(), 100_000);
    assert_eq!(rt; wrong, 100_000);
    assert!(rt; kinds.iter().all(|count| 0 < *count), "{kinds:?}");
}

// How a home drains at a moment: how many messages leave, the sum of their serials, and what the end of the drain is told.
fn drained<S: Store>(home: &mut Shard<S>, moment: u64) -> Result<(u64, u64, Told), Refusal> {
    home.start_drain(moment)?;
    let mut count = 0u64;
    let mut serials = 0u64;
    for _ in 0..1000u64 {
        let Some(row) = found(home, moment, Some(HomeLeave::Drain))? else {
            break;
        };
        let row = home.take_out(moment, &row);
        count = count.saturating_add(1);
        serials = serials.saturating_add(row.serial.get());
    }
    Ok((count, serials, done(home.finish_drain(moment))))
}

// How both homes drain after so many steps, where they do so alike.
fn drained_alike(rt: &impl Abort, alloc: Global, seed: u64, steps: u64) -> Option<(u64, u64, Told)>
    requires { steps ≤ 100000 }
{
    let mut course = Box::new(alloc, Course::new(alloc, seed)).expect(rt, "memory");
    let _ = first_other(&mut course, alloc, steps);
    let moment = steps * 200;
    let this = drained(&mut course.pair.slots, moment);
    let that = drained(&mut course.pair.plain, moment);
    match (this, that) {
        (Ok(this), Ok(that)) if this == that => Some(this),
        // Neither was opened.
        (Err(this), Err(that)) if this == that => Some((0, 0, Told::Refused(this))),
        _ => None,
    }
}

// Messages leave; and of some homes the drain ends, of others it waits for messages in flight.
#[test]
fn both_stores_drain_alike(rt: HostRuntime) {
    let mut left = 0u64;
    let mut over = 0u64;
    for seed in 1..=100u64 {
        let (count, _, told) = drained_alike(&rt, rt.alloc(), seed, 300).expect(&rt, "alike");
        left = left.saturating_add(count);
        if told == Told::Done {
            over = over.saturating_add(1);
        }
    }
    assert!(rt;
        100 < left && 0 < over && over < 100,
        "{left} left, {over} over"
    );
}
