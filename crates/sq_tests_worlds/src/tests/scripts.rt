//! Runs over a reader and a writer that fail, and refusals that no line has. Whole scripts are in `rows/`.
use super::stage::{Stage, options};
use sq_base::refusal::Refusal;
use sq_lines::counted::Counted;
use sq_replies::reply::reply_text;
use sq_tests_kit::streams::{Answered, Asking, Batches, Bytewise, Piecewise, Whole};
use sq_wire::run::ServeFault;
use std::alloc::Global;
use std::io::{Read, Write};
use std::process::Abort;
use std::sync::atomic::AtomicU64;

/// What two lines that are no requests are answered with.
const REFUSED: &[u8] =
    b"{\"Error\":{\"Code\":\"InvalidRequest\",\"Number\":4}}\n{\"Error\":{\"Code\":\"InvalidRequest\",\"Number\":4}}\n";

// The number of how a run ends, and how many lines it answered.
fn end_of(done: Result<u64, ServeFault>) -> [u64; 2] {
    match done {
        Ok(lines) => [0, lines],
        Err(ServeFault::Read(lines)) => [1, lines],
        Err(ServeFault::Write(lines)) => [2, lines],
        Err(ServeFault::NoMemory(lines)) => [3, lines],
        Err(ServeFault::TooLong(lines)) => [4, lines],
    }
}

// How a world of its own ends these lines, and how many it answered.
fn ended<R: Read, W: Write>(
    rt: &impl Abort,
    alloc: Global,
    reader: &mut Counted<R>,
    writer: &mut Counted<W>,
) -> [u64; 2] {
    let mut stage = Stage::new(rt, alloc, options(1, 10, 10));
    end_of(stage.answer(reader, writer))
}

// How many bytes of `REFUSED` were written; none where others were.
fn written(bytes: &[u8]) -> u64 {
    if REFUSED.starts_with(bytes) {
        bytes.len() as u64
    } else {
        u64::MAX
    }
}

// How a run ends, how many lines were answered, bytes of `REFUSED` written, and flushes.
fn told(ended: [u64; 2], stream: &Bytewise) -> [u64; 4] {
    let [end, lines] = ended;
    [
        end,
        lines,
        written(stream.written.as_slice()),
        stream.flushes as u64,
    ]
}

// What was found must be this; it is shown where it is not.
fn must_be(rt: &impl Abort, case: usize, found: &[u64], want: &[u64]) {
    assert!(rt; found == want, "{case}: {found:?}");
}

// What becomes of two lines that are no requests, where a call of the reader and a call of the writer fail, counted from 1: what is
// told of it, and failed reads and writes.
fn run_of(rt: &impl Abort, alloc: Global, reads: u32, writes: u32) -> [u64; 6] {
    let mut reader = Counted::new(Piecewise::new(b"one\ntwo\n", 4, reads));
    let mut writer = Counted::new(Bytewise::new(alloc, writes));
    let ended = ended(rt, alloc, &mut reader, &mut writer);
    let [end, lines, bytes, flushes] = told(ended, writer.inner());
    [end, lines, bytes, flushes, reader.failed(), writer.failed()]
}

// A reply has 46 bytes and a line feed.
#[test]
fn a_run_flushes_each_line_and_stops_where_a_call_fails(rt: HostRuntime) {
    let runs = [
        (0, 0, [0, 2, 94, 2, 0, 0]),
        (2, 0, [1, 1, 47, 1, 1, 0]),
        (0, 1, [2, 0, 0, 0, 0, 1]),
        (0, 46, [2, 0, 45, 0, 0, 1]),
        (0, 47, [2, 0, 46, 0, 0, 1]),
        (0, 48, [2, 1, 47, 1, 0, 1]),
        (0, 49, [2, 1, 48, 1, 0, 1]),
    ];
    for (case, (reads, writes, want)) in runs.iter().enumerate() {
        must_be(&rt, case, &run_of(&rt, rt.alloc(), *reads, *writes), want);
    }
}

// What becomes of lines that come in these batches: how it ends, how many lines were answered, reads, writes and flushes.
fn calls_of(rt: &impl Abort, alloc: Global, batches: &[&[u8]]) -> [u64; 5] {
    let mut reader = Counted::new(Batches::new(batches));
    let mut writer = Counted::new(Whole::new(alloc));
    let [end, lines] = ended(rt, alloc, &mut reader, &mut writer);
    let stream = writer.inner();
    [
        end,
        lines,
        reader.inner().reads,
        stream.writes,
        stream.flushes,
    ]
}

#[test]
fn lines_that_were_read_together_are_answered_by_one_write(rt: HostRuntime) {
    let mut sixteen = Vec::new(rt.alloc());
    for _ in 0..16 {
        sixteen.extend_from_slice(b"line\n").expect(&rt, "memory");
    }
    let together = calls_of(&rt, rt.alloc(), &[sixteen.as_slice()]);
    must_be(&rt, 0, &together, &[0, 16, 2, 1, 1]);
    // The end is read twice, since a line stands before it that has no line feed.
    let apart = calls_of(&rt, rt.alloc(), &[b"one\ntwo\nthr", b"ee\n", b"four"]);
    must_be(&rt, 1, &apart, &[0, 4, 5, 3, 3]);
}

#[test]
fn no_reply_waits_while_more_is_read(rt: HostRuntime) {
    let out = AtomicU64::new(0);
    let batches: [&[u8]; 3] = [b"one\ntwo\nthr", b"ee\n", b"four\nfive\nsix\n"];
    let mut reader = Counted::new(Asking::new(&batches, &out));
    let mut writer = Counted::new(Answered::new(&out));
    let [end, lines] = ended(&rt, rt.alloc(), &mut reader, &mut writer);
    let waited = reader.inner().was_kept_waiting as u64;
    must_be(&rt, 0, &[end, lines, waited], &[0, 6, 0]);
}

// What is told where a call of the writer fails, counted from 1, and two lines come together.
fn cut_of(rt: &impl Abort, alloc: Global, writes: u32) -> [u64; 4] {
    let mut reader = Counted::new(Batches::new(&[b"one\ntwo\n"]));
    let mut writer = Counted::new(Bytewise::new(alloc, writes));
    told(ended(rt, alloc, &mut reader, &mut writer), writer.inner())
}

#[test]
fn replies_that_went_out_whole_are_counted(rt: HostRuntime) {
    let runs = [
        (0, [0, 2, 94, 1]),
        (1, [2, 0, 0, 0]),
        (47, [2, 0, 46, 0]),
        (48, [2, 1, 47, 0]),
        (94, [2, 1, 93, 0]),
    ];
    for (case, (writes, want)) in runs.iter().enumerate() {
        must_be(&rt, case, &cut_of(&rt, rt.alloc(), *writes), want);
    }
}

// A line that makes a queue.
const MAKE_A: &[u8] = b"{\"Action\":\"CreateQueue\",\"QueueName\":\"a\"}\n";

// How a world ends a line whose reply finds a writer that fails.
fn cut(alloc: Global, stage: &mut Stage) -> [u64; 2] {
    let mut reader = Counted::new(Batches::new(&[MAKE_A]));
    let mut writer = Counted::new(Bytewise::new(alloc, 1));
    end_of(stage.answer(&mut reader, &mut writer))
}

#[test]
fn what_was_read_is_done_though_no_reply_went_out(rt: HostRuntime) {
    let mut stage = Stage::new(&rt, rt.alloc(), options(1, 10, 10));
    must_be(&rt, 0, &cut(rt.alloc(), &mut stage), &[2, 0]);
    let asked: [&[u8]; 1] = [b"{\"Action\":\"ListQueues\"}\n"];
    let mut reader = Counted::new(Batches::new(&asked));
    let mut writer = Counted::new(Whole::new(rt.alloc()));
    let listed = end_of(stage.answer(&mut reader, &mut writer));
    must_be(&rt, 1, &listed, &[0, 1]);
    let want = b"{\"QueueUrls\":[\"http://localhost/000000000000/a\"]}\n";
    assert!(rt; writer.inner().written.as_slice() == want.as_slice());
}

// A line that sends so many letters to the queue.
fn send_line(rt: &impl Abort, alloc: Global, count: u32) -> Vec<u8> {
    let mut line = Vec::new(alloc);
    let front =
        b"{\"Action\":\"SendMessage\",\"QueueUrl\":\"http://localhost/000000000000/a\",\"MessageBody\":\"";
    line.extend_from_slice(front).expect(rt, "memory");
    for _ in 0..count {
        line.push(b'a').expect(rt, "memory");
    }
    line.extend_from_slice(b"\"}\n").expect(rt, "memory");
    line
}

// The second batch is a send, whose reply waits, and a receive, whose reply has no room: three writes.
#[test]
fn a_long_reply_goes_out_after_those_that_wait(rt: HostRuntime) {
    let long = send_line(&rt, rt.alloc(), 40_000);
    let mut asked = send_line(&rt, rt.alloc(), 40_000);
    let receive =
        b"{\"Action\":\"ReceiveMessage\",\"QueueUrl\":\"http://localhost/000000000000/a\",\"MaxNumberOfMessages\":2}\n";
    asked.extend_from_slice(receive).expect(&rt, "memory");
    let found = calls_of(
        &rt,
        rt.alloc(),
        &[MAKE_A, long.as_slice(), asked.as_slice()],
    );
    must_be(&rt, 0, &found, &[0, 4, 4, 5, 4]);
}

// Whether a refusal is written so.
fn is_written(rt: &impl Abort, alloc: Global, refusal: Refusal, want: &str) -> bool {
    let text = reply_text(alloc, &Err(refusal)).expect(rt, "memory");
    text.as_bytes() == want.as_bytes()
}

#[test]
fn refusals_that_no_line_has_are_written(rt: HostRuntime) {
    let no_memory = r#"{"Error":{"Code":"NoMemory","Number":1}}"#;
    assert!(rt; is_written(&rt, rt.alloc(), Refusal::NoMemory, no_memory));
    let worn = r#"{"Error":{"Code":"Worn","Number":3}}"#;
    assert!(rt; is_written(&rt, rt.alloc(), Refusal::Worn, worn));
}
