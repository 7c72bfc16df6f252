//! A list that grows in blocks, so that a long one is never copied to grow.
ghost use Rattle.std.specs.Prelude.{◌≡◌, ◌+◌, ◌*◌, ◌<◌, ◌≤◌, ◌++◌, ◌∷◌, [], IfErr, OnOk, Some, length, option_map, slice_get, vec_len};
ghost use Rattle.std.specs.List.{AllByRecursion, remove as without};
ghost use Rattle.sq_log.specs.BlocksValue.{IsWhole, joined};

use sq_base::refusal::Refusal;
use std::alloc::Global;
use std::marker::Model;
use std::mem;
use std::ops::Index;

/// How many items a block has.
const BLOCK: usize = 4096;

/// Blocks that there are at most: with more, an item's index would be past any number.
const BLOCKS: usize = 1 << 50;

/// Items in order, the first ones in whole blocks. The first block grows by copying, as a `Vec` does; a later one is got whole, and
/// nothing that is there is moved for it.
#[derive(Drop)]
pub struct Blocks<T> {
    alloc: Global,
    whole: Vec<Vec<T>>,
    last: Vec<T>,
    next: Vec<T>,
}

impl<T> Model for Blocks<T> {
    ghost use Rattle.std.specs.Prelude.{◌≡◌, ◌≤◌, ◌-◌, ◌^◌, length, vec_len, vec_capacity};
    ghost use Rattle.std.specs.List.{AllByRecursion};
    ghost use Rattle.sq_log.specs.BlocksValue.{BlocksValue, IsWhole, joined, spare_in};

    ghost Value = { BlocksValue T };

    ghost view = { λ b. record { items = joined b.whole.items b.last.items; reserved = spare_in (vec_len b.last) (vec_capacity b.last) (vec_len b.whole) (vec_capacity b.whole) (vec_capacity b.next) } };

    ghost invariant = { λ b. record {
      whole : AllByRecursion IsWhole b.whole.items;
      few : vec_len b.whole ≤ 2 ^ 50;
      last : vec_len b.last ≤ 4096;
      next : vec_len b.next ≡ 0;
    } };
}

impl<T> Blocks<T> {
    /// How many items there are.
    pub fn len(&self) -> usize
        ensures { result ≡ length self.now.items }
    {
        self.whole.len() * BLOCK + self.last.len()
    }

    /// For how many items more there is memory.
    pub fn reserved(&self) -> usize
        ensures { result ≡ self.now.reserved }
    {
        let here = self.last.capacity().min(BLOCK) - self.last.len();
        if self.last.capacity() >= BLOCK
            && self.whole.len() < self.whole.capacity().min(BLOCKS)
            && self.next.capacity() >= BLOCK
        {
            here + BLOCK
        } else {
            here
        }
    }

    /// The item at an index, from 0 upwards.
    pub fn get(&self, index: usize) -> Option<&T>
        ensures { option_map (λ item. item.now) result ≡ slice_get self.now.items index }
    {
        match at(self.whole.as_slice(), index / BLOCK) {
            Some(block) => at(block.as_slice(), index % BLOCK),
            None => at(self.last.as_slice(), index - self.whole.len() * BLOCK),
        }
    }
}

impl<T: Drop> Blocks<T> {
    /// No item, and memory for none.
    pub fn new(alloc: Global) -> Blocks<T>
        ensures { result ≡ record { items = []; reserved = 0 } }
    {
        Blocks {
            alloc,
            whole: Vec::new(alloc),
            last: Vec::new(alloc),
            next: Vec::new(alloc),
        }
    }

    /// Gets memory for four items more. Refused as NoMemory where there was not so much.
    pub fn reserve(&mut self) -> Result<(), Refusal>
        ensures items { self.new.items ≡ self.old.items }
        ensures kept { self.old.reserved ≤ self.new.reserved }
        ensures ready { OnOk result (4 ≤ self.new.reserved) }
        ensures refused { IfErr result (λ e. (e ≡ Refusal.NoMemory) × (self.old.reserved < 4)) }
    {
        if self.last.len() + 4 <= BLOCK {
            self.last.try_reserve(4)?;
            return Ok(());
        }
        if self.whole.len() >= BLOCKS {
            return Err(Refusal::NoMemory);
        }
        self.last.try_reserve(BLOCK - self.last.len())?;
        self.whole.try_reserve(1)?;
        self.next.try_reserve(BLOCK)?;
        Ok(())
    }

    /// Puts an item last, for which there is memory.
    pub fn push(&mut self, item: T)
        requires { 0 < self.old.reserved }
        ensures items { self.new.items ≡ self.old.items ++ item ∷ [] }
        ensures reserved { self.old.reserved ≡ self.new.reserved + 1 }
    {
        if self.last.len() == BLOCK {
            let next = mem::replace(&mut self.next, Vec::new(self.alloc));
            let block = mem::replace(&mut self.last, next);
            self.whole.push_reserved(block);
        }
        self.last.push_reserved(item);
    }

    /// Takes out the item at an index that there is one at, from 0 upwards, and moves up those after it by one. There may then be
    /// memory for fewer.
    pub fn remove(&mut self, index: usize) -> T
        requires { index < length self.old.items }
        ensures taken { slice_get self.old.items index ≡ Some result }
        ensures items { self.new.items ≡ without self.old.items index }
    {
        reopen(&mut self.whole, &mut self.last);
        let before = self.whole.len() * BLOCK;
        if index >= before {
            return self.last.remove(index - before);
        }
        let first = self.last.remove(0);
        move_out(self.whole.as_mut_slice(), index, first)
    }
}

impl<T> Index<usize> for Blocks<T> {
    ghost use Rattle.std.specs.Prelude.{◌≡◌, ◌<◌, Some, length, slice_get};

    type Output = T;

    ghost can_index = { λ blocks index. index < length blocks.items };

    ghost index_gives = { λ blocks index item. slice_get blocks.items index ≡ Some item };

    /// The item at an index that there is one at, from 0 upwards.
    fn index(&self, index: usize) -> &T {
        let found = self.get(index);
        found.unwrap()
    }
}

// Makes the last whole block the last one of all, where that has no item.
fn reopen<T: Drop>(whole: &mut Vec<Vec<T>>, last: &mut Vec<T>)
    requires whole { AllByRecursion IsWhole whole.old.items }
    requires last { length last.old.items ≤ 4096 }
    ensures whole { AllByRecursion IsWhole whole.new.items }
    ensures few { vec_len whole.new ≤ vec_len whole.old }
    ensures last { length last.new.items ≤ 4096 }
    ensures open { 0 < length whole.new.items → 0 < length last.new.items }
    ensures items { joined whole.new.items last.new.items ≡ joined whole.old.items last.old.items }
{
    if !last.is_empty() {
        return;
    }
    if let Some(block) = whole.pop() {
        *last = block;
    }
}

// Takes out the item of whole blocks at an index, moves up those after it by one, and puts another last.
fn move_out<T>(blocks: &mut [Vec<T>], index: usize, item: T) -> T
    requires whole { AllByRecursion IsWhole blocks.old }
    requires there { index < length blocks.old * 4096 }
    ensures whole { AllByRecursion IsWhole blocks.new }
    ensures len { length blocks.new ≡ length blocks.old }
    ensures taken { slice_get (joined blocks.old []) index ≡ Some result }
    ensures items { joined blocks.new [] ≡ without (joined blocks.old []) index ++ item ∷ [] }
{
    let at = index / BLOCK;
    let mut carried = item;
    for left in (at + 1..blocks.len()).rev() {
        carried = push_out(&mut blocks[left], 0, carried);
    }
    push_out(&mut blocks[at], index % BLOCK, carried)
}

// Takes out the item of a block at an index, and puts another last.
fn push_out<T>(block: &mut Vec<T>, index: usize, item: T) -> T
    requires { index < length block.old.items }
    ensures taken { slice_get block.old.items index ≡ Some result }
    ensures items { block.new.items ≡ without block.old.items index ++ item ∷ [] }
    ensures len { length block.new.items ≡ length block.old.items }
{
    let taken = block.remove(index);
    block.push_reserved(item);
    taken
}

// The item of a slice at an index.
fn at<T>(items: &[T], index: usize) -> Option<&T>
    ensures { option_map (λ item. item.now) result ≡ slice_get items.now index }
{
    items.get(index)
}
