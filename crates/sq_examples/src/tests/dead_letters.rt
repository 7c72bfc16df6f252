//! What is received too often goes to a queue of dead letters, and a move task takes it back.
use super::clients::{create, delete, receive, redrive, send};
use super::worlds::Opened;
use sq_base::message_id::MessageId;
use sq_base::name::QueueName;
use sq_base::ranges::Timeout;
use sq_calls::turns::{Turn, Turned};
use sq_model::item::TaskNo;
use sq_model::place::Place;
use std::alloc::Global;
use std::process::Abort;

// A message is received once, and visible again at once: that was too often, so a mover takes it to the queue of dead letters.
fn fail_once(
    rt: &impl Abort,
    alloc: Global,
    world: &mut Opened,
    orders: QueueName,
    failed: QueueName,
) -> MessageId {
    assert!(rt; create(&mut world.at(0, 0), failed, None));
    assert!(rt; create(&mut world.at(0, 0), orders, Some(failed)));
    let id = send(&mut world.at(1, 1000), alloc, orders, "hello").expect(rt, "a message");
    assert!(rt; receive(&mut world.at(2, 2000), orders, Timeout::of(0)).is_some());
    assert!(rt; world.does(3000, Turn::DeadTurn(orders), Turned::Left));
    assert!(rt; world.does(3000, Turn::EnterTurn, Turned::Entered));
    id
}

#[test]
fn a_dead_letter_is_moved_and_taken_back(rt: HostRuntime) {
    let orders = QueueName::new(b"orders").expect(&rt, "a name");
    let failed = QueueName::new(b"failed-orders").expect(&rt, "a name");
    let mut world = Opened::new(&rt, rt.alloc());
    let id = fail_once(&rt, rt.alloc(), &mut world, orders, failed);
    // The first move task takes it back.
    assert!(rt; redrive(&mut world.at(0, 4000), failed));
    assert!(rt; world.does(5000, Turn::TaskTurn(TaskNo::new(1)), Turned::Left));
    assert!(rt; world.does(5000, Turn::EnterTurn, Turned::Entered));
    let handle = receive(&mut world.at(2, 6000), orders, Timeout::of(30)).expect(&rt, "a message");
    assert!(rt; delete(&mut world.at(2, 7000), orders, handle));
    assert!(rt; world.place(&rt, &id) == Some(Place::Deleted));
}
