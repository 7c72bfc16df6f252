//! A message is sent, received and deleted.
use super::clients::{create, delete, receive, send};
use super::worlds::Opened;
use sq_base::name::QueueName;
use sq_base::ranges::Timeout;
use sq_model::place::Place;

#[test]
fn a_message_is_sent_received_and_deleted(rt: HostRuntime) {
    let orders = QueueName::new(b"orders").expect(&rt, "a name");
    let mut world = Opened::new(&rt, rt.alloc());
    assert!(rt; create(&mut world.at(0, 0), orders, None));
    let id = send(&mut world.at(1, 1000), rt.alloc(), orders, "hello").expect(&rt, "a message");
    let half_a_minute = Timeout::of(30);
    let handle = receive(&mut world.at(2, 2000), orders, half_a_minute).expect(&rt, "a message");
    assert!(rt; receive(&mut world.at(3, 2000), orders, half_a_minute).is_none());
    assert!(rt; delete(&mut world.at(2, 3000), orders, handle));
    assert!(rt; world.place(&rt, &id) == Some(Place::Deleted));
}
