//! What is asked of a home and what it answers, in values that are copied.
use crate::setup::{hello, receipt};
use sq_base::ranges::{Delay, MaxMessages, Timeout};
use sq_base::refusal::Refusal;
use sq_base::row::Row;
use sq_base::settings::Settings;
use sq_history::act::HomeAct;
use sq_history::sent_body::SentBody;
use sq_model::replies::HomeReply;
use std::alloc::Global;

/// What is asked of a home.
#[derive(Clone, Copy)]
pub enum Ask {
    /// With the standard settings, at version 1.
    Open,
    Configure(Settings, u64),
    Send(Option<Delay>),
    /// For up to ten messages.
    Look(Option<Timeout>),
    /// By slot, serial and receive number.
    Delete(u32, u64, u64),
    Change(u32, u64, u64, Timeout),
    Purge,
    Count,
    Close,
    StartDrain,
    FinishDrain,
}

/// What is answered, in numbers.
#[derive(Clone, Copy, PartialEq, Eq, Debug)]
pub enum Answers {
    Done,
    /// Its slot and its serial.
    Sent(u32, u64),
    /// The receive number of the one message that a look gave, and from when on it is visible.
    Gave(u32, u64),
    /// How many messages a look gave.
    GaveAll(usize),
    /// Visible, in flight, delayed.
    Counts(u32, u32, u32),
    /// The number of a queue or of a task.
    Number(u64),
    /// A message left, or came in.
    Moved,
    /// There is none.
    Nothing,
    Refused(Refusal),
    Other,
}

pub fn home_act(alloc: Global, ask: Ask) -> Result<HomeAct, Refusal> {
    Ok(match ask {
        Ask::Open => HomeAct::Configure(Settings::standard(), 1),
        Ask::Configure(settings, version) => HomeAct::Configure(settings, version),
        Ask::Send(delay) => HomeAct::Send(SentBody::new(hello(alloc)?)?, delay),
        Ask::Look(timeout) => HomeAct::Look(MaxMessages::of(10), timeout),
        Ask::Delete(slot, serial, receive) => HomeAct::Delete(receipt(slot, serial, receive)),
        Ask::Change(slot, serial, receive, timeout) => {
            HomeAct::Change(receipt(slot, serial, receive), timeout)
        }
        Ask::Purge => HomeAct::Purge,
        Ask::Close => HomeAct::Close,
        Ask::Count => HomeAct::Count,
        Ask::StartDrain => HomeAct::StartDrain,
        Ask::FinishDrain => HomeAct::FinishDrain,
    })
}

fn answer_of_rows(rows: &[Row]) -> Answers {
    match rows {
        [row] if row.body.as_str() == "hello" => Answers::Gave(row.receives, row.visible_from),
        _ => Answers::GaveAll(rows.len()),
    }
}

pub fn answer_of(reply: &HomeReply) -> Answers {
    match reply {
        HomeReply::Done => Answers::Done,
        HomeReply::Sent(sent) => Answers::Sent(sent.slot, sent.id.serial.get()),
        HomeReply::Looked(rows) => answer_of_rows(rows.as_slice()),
        HomeReply::Counted(counts) => Answers::Counts(
            counts.visible,
            counts.in_flight,
            counts.delayed,
        ),
        _ => Answers::Other,
    }
}
