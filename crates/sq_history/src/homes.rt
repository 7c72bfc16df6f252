//! The homes of all queues that may ever be made: where each stands, those that were never opened, and those that are not there.
ghost use Rattle.std.specs.Prelude.{◌≡◌, ◌*◌, ◌<◌, ◌≤◌, IfErr, IfOk, length, nat_le, if◌then◌else◌};
ghost use Rattle.sq_base.specs.Stamps.{stamp_end};
ghost use Rattle.sq_base.specs.declared.refusal.Refusal.TheVariants.{ClockRange, QueueDoesNotExist};
ghost use Rattle.sq_history.specs.HomeIds.{home_id, home_index, never_opened, never_opened_homes};
ghost use Rattle.sq_model.specs.declared.options.TheConstants.{MOST_QUEUES};

use crate::recorded::{Home, Recorded};
use sq_base::ids::{HomeId, HomeNo, QueueNo};
use sq_base::refusal::Refusal;
use sq_base::stamp::STAMP_END;
use sq_model::place::{Limits, Site};
use sq_sample::sampler::HomeCount;
use sq_shard::shard::Shard;
use sq_store::slots::SlotStore;
use std::alloc::Global;

/// Why a step of a home that is not there is refused, at a clock reading in ms: as ClockRange, and then as QueueDoesNotExist.
pub fn no_such_home(now: u64) -> Refusal
    ensures { result ≡ (if nat_le stamp_end now then ClockRange else QueueDoesNotExist) }
{
    if now >= STAMP_END {
        Refusal::ClockRange
    } else {
        Refusal::QueueDoesNotExist
    }
}

/// The id of the home at an index in the list of all homes.
pub fn id_at(per_queue: HomeCount, index: u32) -> HomeId
    ensures { result ≡ home_id per_queue index }
{
    let homes = per_queue.get();
    HomeId {
        queue: QueueNo::following(index / homes),
        home: HomeNo::of((index % homes) as u8),
    }
}

/// Where a home stands among so many.
pub fn home_index(per_queue: HomeCount, count: usize, id: &HomeId) -> Option<usize>
    ensures index { result ≡ home_index per_queue count id.now }
    ensures queue { 1 ≤ id.now.queue }
    ensures homes { 1 ≤ per_queue }
{
    let homes = per_queue.get() as u64;
    let queue = id.queue.get();
    let number = id.home.get() as u64;
    if number >= homes {
        return None;
    }
    let index = (queue - 1) * homes + number;
    if index < count as u64 {
        Some(index as usize)
    } else {
        None
    }
}

/// The home at an index; no queue is made for it yet.
pub fn never_opened(alloc: Global, per_queue: HomeCount, limits: &Limits, index: u32) -> Home
    ensures { result ≡ never_opened per_queue limits.now index }
{
    let site = Site {
        home: id_at(per_queue, index),
        limits: *limits,
    };
    Recorded::unopened(alloc, Shard::unopened(site, SlotStore::new(alloc)))
}

/// The homes of so many queues; none is opened yet. Refused as NoMemory, where there are any.
pub fn never_opened_homes(
    alloc: Global,
    queues: u32,
    per_queue: HomeCount,
    limits: &Limits,
) -> Result<Vec<Home>, Refusal>
    requires { queues ≤ MOST_QUEUES }
    ensures homes { IfOk result (λ homes. homes.items ≡ never_opened_homes per_queue limits.now (queues * per_queue)) }
    ensures many { IfOk result (λ homes. length homes.items ≡ queues * per_queue) }
    ensures few { IfOk result (λ homes. length homes.items ≤ 16384) }
    ensures refused { IfErr result (λ e. (e ≡ Refusal.NoMemory) × (0 < queues * per_queue)) }
{
    let mut homes = Vec::new(alloc);
    for index in 0..queues * per_queue.get() {
        homes.push(never_opened(alloc, per_queue, limits, index))?;
    }
    Ok(homes)
}
