//! One actor that calls a world.
use crate::options::{options, queue_name};
use crate::spent::{Spent, begin};
use sq_base::name::QueueName;
use sq_merge::world::World;
use sq_server::clients::{create, delete, first_handle, receive, send};
use std::alloc::Global;
use std::time::{Clock, CpuClock};

// A message is sent, received and deleted; how many of the three calls were answered.
fn cycle(alloc: Global, world: &mut World, queue: QueueName, now: u64) -> u64 {
    let Ok(call) = send(alloc, queue) else {
        return 0;
    };
    let mut answered = world.call(alloc, 0, now, &call).is_ok() as u64;
    if let Ok(answer) = world.call(alloc, 0, now, &receive(queue, None)) {
        answered = answered.saturating_add(1);
        if let Some(handle) = first_handle(&answer) {
            let deleted = world.call(alloc, 0, now, &delete(queue, handle)).is_ok();
            answered = answered.saturating_add(deleted as u64);
        }
    }
    answered
}

// A world with one queue, in a box.
fn opened(alloc: Global, homes: u64, queue: QueueName) -> Option<Box<World>> {
    let mut world = Box::new(alloc, World::new(alloc, options(homes)).ok()?).ok()?;
    world.call(alloc, 0, 0, &create(queue, None)).ok()?;
    Some(world)
}

/// What so many calls take; none where there is no memory for it.
pub fn measure<R: Clock + CpuClock>(
    rt: &R,
    alloc: Global,
    homes: u64,
    calls: u64,
) -> Option<Spent> {
    let queue = queue_name(0)?;
    let mut world = opened(alloc, homes, queue)?;
    let begun = begin(rt);
    let mut answered = 0u64;
    for number in 0..calls / 3 {
        answered = answered.saturating_add(cycle(alloc, &mut world, queue, number));
    }
    Some(begun.spent(rt, answered))
}
