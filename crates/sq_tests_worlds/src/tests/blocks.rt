//! Lists in blocks.
use sq_log::blocks::Blocks;
use std::alloc::Global;

// So many numbers from 0, each put once there is memory for it.
fn numbers(alloc: Global, many: u64) -> Option<Blocks<u64>> {
    let mut blocks = Blocks::new(alloc);
    for number in 0..many {
        if blocks.reserved() == 0 {
            blocks.reserve().ok()?;
        }
        if blocks.reserved() == 0 {
            return None;
        }
        blocks.push(number);
    }
    Some(blocks)
}

// Whether each number stands at its index, and nothing past the last one.
fn are_in_place(blocks: &Blocks<u64>, many: u64) -> bool {
    for number in 0..many {
        match blocks.get(number as usize) {
            Some(found) if *found == number => {}
            _ => return false,
        }
    }
    blocks.get(many as usize).is_none() && blocks.len() as u64 == many
}

#[test]
fn items_stand_at_their_indices_over_several_blocks(rt: HostRuntime) {
    for many in [0u64, 1, 4095, 4096, 4097, 8192, 10_000] {
        let blocks = numbers(rt.alloc(), many).expect(&rt, "memory");
        assert!(rt; are_in_place(&blocks, many), "{many}");
    }
}

// So many numbers from 0 in a list of one piece.
fn in_one(alloc: Global, many: u64) -> Option<Vec<u64>> {
    let mut all = Vec::new(alloc);
    for number in 0..many {
        all.push(number).ok()?;
    }
    Some(all)
}

// Whether both have the same numbers.
fn are_same(blocks: &Blocks<u64>, all: &[u64]) -> bool {
    for (index, number) in all.iter().enumerate() {
        if blocks.get(index) != Some(number) {
            return false;
        }
    }
    blocks.len() == all.len()
}

// Whether the items at these indices, taken out one after another, and what is left are those of a list of one piece.
fn are_taken_out(blocks: &mut Blocks<u64>, all: &mut Vec<u64>, indices: &[usize]) -> bool {
    for index in indices {
        if *index >= blocks.len() || *index >= all.len() {
            return false;
        }
        if blocks.remove(*index) != all.remove(*index) || !are_same(blocks, all.as_slice()) {
            return false;
        }
    }
    true
}

// The first one leaves the last block empty, and the second is the last of all.
#[test]
fn items_that_are_taken_out_are_followed_by_the_next(rt: HostRuntime) {
    let mut blocks = numbers(rt.alloc(), 8193).expect(&rt, "memory");
    let mut all = in_one(rt.alloc(), 8193).expect(&rt, "memory");
    let indices = [0, 8191, 8190, 4096, 4095, 100, 0];
    assert!(rt; are_taken_out(&mut blocks, &mut all, &indices));
}
