//! Runs of one session.
use super::asks::Ask;
use super::shared::{QUEUE, Setting};
use super::stories::{Deed, must, tell};

// A message is sent, received and deleted.
const FOUR_CALLS: &[Deed] = &[
    Deed::Clock(1000),
    Deed::Ask(Ask::Send(b'q')),
    Deed::ReceiveAndDelete(b'q'),
];

#[test]
fn a_message_is_sent_received_and_deleted(rt: HostRuntime) {
    let told = tell(&rt, rt.alloc(), Setting::of(QUEUE, 1), &[FOUR_CALLS]);
    must(&rt, &told, told.is_of_one(11, [1, 0, 4], 1));
}

// A send looks its queue up, and puts its message.
#[test]
fn a_send_is_stopped_before_it_puts_its_message(rt: HostRuntime) {
    for steps in 0..=3u64 {
        let deeds = [Deed::SendOfSteps(steps)];
        let told = tell(&rt, rt.alloc(), Setting::of(QUEUE, 1), &[deeds.as_slice()]);
        let stopped = (steps < 2) as u64;
        let is_right = told.by[0] == stopped && told.seen.messages == Some(1 - stopped);
        must(&rt, &told, is_right);
    }
}
