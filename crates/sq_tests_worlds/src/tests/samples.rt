//! All homes are reached, and roughly as often as one another.
use sq_base::ids::HomeNo;
use sq_sample::sampler::{HomeCount, Sampler};
use std::alloc::Global;
use std::process::Abort;

// How often each home is picked among 16.
fn picked(seed: u64, times: u32) -> [u32; 16] {
    let mut sampler = Sampler::new(seed);
    let mut counts = [0u32; 16];
    for _ in 0..times {
        keep(&mut counts, sampler.pick(HomeCount::of(16)));
    }
    counts
}

fn keep(counts: &mut [u32; 16], home: HomeNo) {
    if let Some(count) = counts.get_mut(home.get() as usize) {
        *count = count.saturating_add(1);
    }
}

// How often each home stands at this index of three that are drawn among five.
fn drawn(rt: &impl Abort, alloc: Global, index: usize) -> [u32; 16] {
    let mut sampler = Sampler::new(0);
    let mut counts = [0u32; 16];
    for _ in 0..100_000 {
        let drawn = sampler
            .draw(alloc, HomeCount::of(5), HomeCount::of(3))
            .expect(rt, "memory");
        if let Some(home) = drawn.get(index) {
            keep(&mut counts, *home);
        }
    }
    counts
}

// Whether each of the first homes was chosen about so often, and no other one.
fn is_even(counts: &[u32; 16], homes: usize, often: u32) -> bool {
    for (home, count) in counts.iter().enumerate() {
        let off = count.abs_diff(if home < homes { often } else { 0 });
        if off > often / 10 || (home >= homes && off > 0) {
            return false;
        }
    }
    true
}

#[test]
fn homes_are_chosen_evenly(rt: HostRuntime) {
    assert!(rt; is_even(&picked(7, 100_000), 16, 6250));
    for index in 0..3 {
        let counts = drawn(&rt, rt.alloc(), index);
        assert!(rt; is_even(&counts, 5, 20_000), "at {index}");
    }
    assert!(rt; drawn(&rt, rt.alloc(), 3) == [0; 16]);
}

// Three picks tell the first homes that a seed chooses.
#[test]
fn one_seed_gives_one_choice(rt: HostRuntime) {
    for times in 0..50 {
        assert!(rt; picked(11, times) == picked(11, times));
    }
}
