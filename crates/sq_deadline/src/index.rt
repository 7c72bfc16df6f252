//! An ordered set of moments with slots.
ghost use Rattle.std.specs.Prelude.{◌≡◌, ◌&&◌, ◌+◌, ◌<◌, ◌≤◌, [], true, OnOk, IfErr, count_by, filter, find, length, option_map, slice_get};
ghost use Rattle.std.specs.List.{position_or_len};
ghost use Rattle.sq_deadline.specs.Deadlines.{DeadlinesRise, if_due, is_above, is_due, is_other, with_deadline};
ghost use Rattle.sq_deadline.specs.inside.Deadlines.{is_not_below, is_this};

use crate::deadline::Deadline;
use crate::tree::{Node, Tree};
use sq_base::refusal::Refusal;
use std::alloc::Global;
use std::marker::Model;

/// Deadlines in order, each once, in a tree: each call takes time by the logarithm of their number, but where it says another.
/// Memory for those to come, and of those that went out, is kept as spare nodes.
#[derive(Drop)]
pub struct DeadlineIndex {
    tree: Tree,
    spare: Vec<Box<Node>>,
    alloc: Global,
}

impl Model for DeadlineIndex {
    ghost use Rattle.std.specs.Prelude.{◌≡◌, ◌+◌, ◌≤◌, length, true};
    ghost use Rattle.std.specs.Vec.{vec_capacity, vec_len};
    ghost use Rattle.sq_deadline.specs.Deadlines.{IndexValue, DeadlinesRise};
    ghost use Rattle.sq_deadline.specs.Trees.{is_kept, listed};

    ghost Value = { IndexValue };

    ghost view = { λ i. record { deadlines = listed i.tree; reserved = vec_len i.spare } };

    ghost invariant = { λ i. DeadlinesRise 0 (listed i.tree) × (is_kept i.tree ≡ true) × (length (listed i.tree) + vec_len i.spare ≤ vec_capacity i.spare) };
}

impl DeadlineIndex {
    /// No deadline, and memory for none.
    pub fn new(alloc: Global) -> DeadlineIndex
        ensures deadlines { result.deadlines ≡ [] }
        ensures reserved { result.reserved ≡ 0 }
    {
        DeadlineIndex {
            tree: Tree::Empty,
            spare: Vec::new(alloc),
            alloc,
        }
    }

    /// How many deadlines there are, in no time that grows.
    pub fn len(&self) -> usize
        ensures len { result ≡ length self.now.deadlines }
        ensures order { DeadlinesRise 0 self.now.deadlines }
    {
        self.tree.len()
    }

    /// For how many deadlines there is memory in all, with those that are there.
    pub fn space(&self) -> usize
        ensures { result ≡ length self.now.deadlines + self.now.reserved }
    {
        self.spare.len() + self.tree.len()
    }

    /// Gets memory for so many deadlines more, in time by those that it lacks. Refused as NoMemory where there was less.
    pub fn reserve(&mut self, more: usize) -> Result<(), Refusal>
        ensures deadlines { self.new.deadlines ≡ self.old.deadlines }
        ensures kept { self.old.reserved ≤ self.new.reserved }
        ensures ready { OnOk result (more ≤ self.new.reserved) }
        ensures refused { IfErr result (λ e. (e ≡ Refusal.NoMemory) × (self.old.reserved < more)) }
    {
        if more <= self.spare.len() {
            return Ok(());
        }
        let missing = more - self.spare.len();
        let Some(needed) = missing.checked_add(self.tree.len()) else {
            return Err(Refusal::NoMemory);
        };
        self.spare.try_reserve(needed)?;
        for _ in 0..missing {
            let _ = self.spare.push(Box::new(self.alloc, Node::blank())?);
        }
        Ok(())
    }

    /// Puts a deadline in, for which there is memory, if it is not there.
    pub fn set(&mut self, deadline: Deadline)
        requires { 0 < self.old.reserved }
        ensures deadlines { self.new.deadlines ≡ with_deadline deadline self.old.deadlines }
        ensures reserved { self.old.reserved ≤ self.new.reserved + 1 }
        ensures memory { length self.old.deadlines + self.old.reserved ≤ length self.new.deadlines + self.new.reserved }
        ensures order { DeadlinesRise 0 self.old.deadlines }
    {
        let index = self.index(&deadline);
        if self.is_there(index, &deadline) {
            return;
        }
        if let Some(node) = self.spare.pop() {
            self.tree.insert(index, deadline, node);
        }
    }

    /// Takes a deadline out, if it is there. Its memory stays.
    pub fn clear(&mut self, deadline: &Deadline)
        ensures deadlines { self.new.deadlines ≡ filter (is_other deadline.now) self.old.deadlines }
        ensures reserved { self.old.reserved ≤ self.new.reserved }
        ensures memory { length self.old.deadlines + self.old.reserved ≤ length self.new.deadlines + self.new.reserved }
        ensures order { DeadlinesRise 0 self.old.deadlines }
    {
        let index = self.index(deadline);
        if self.is_there(index, deadline) {
            self.tree.remove(index, &mut self.spare);
        }
    }

    /// Takes all deadlines out, in time by their number. Their memory stays.
    pub fn empty(&mut self)
        ensures deadlines { self.new.deadlines ≡ [] }
        ensures reserved { self.old.reserved ≤ self.new.reserved }
        ensures memory { length self.old.deadlines + self.old.reserved ≤ self.new.reserved }
    {
        self.tree.clear(&mut self.spare);
    }

    /// How many are due at a moment or before it.
    pub fn count_due(&self, moment: u64) -> usize
        ensures count { result ≡ count_by (is_due moment) self.now.deadlines }
        ensures order { DeadlinesRise 0 self.now.deadlines }
    {
        self.tree.count_below((moment as u128 + 1) * 4_294_967_296)
    }

    /// The first one that is due at a moment or before it.
    pub fn due(&self, moment: u64) -> Option<&Deadline>
        ensures due { option_map (λ deadline. deadline.now) result ≡ find (is_due moment) self.now.deadlines }
        ensures order { DeadlinesRise 0 self.now.deadlines }
    {
        self.nth_due(0, moment)
    }

    /// The one at an index, the least first.
    pub fn nth(&self, index: usize) -> Option<&Deadline>
        ensures nth { option_map (λ deadline. deadline.now) result ≡ slice_get self.now.deadlines index }
        ensures order { DeadlinesRise 0 self.now.deadlines }
    {
        self.tree.get(index)
    }

    /// The one at an index, the least first, where it is due at a moment or before it. What is due stands first, so the indices
    /// from 0 on give all of it, up to the first that gives none.
    pub fn nth_due(&self, index: usize, moment: u64) -> Option<&Deadline>
        ensures due { option_map (λ deadline. deadline.now) result ≡ if_due moment (slice_get self.now.deadlines index) }
        ensures order { DeadlinesRise 0 self.now.deadlines }
    {
        let nth = self.nth(index)?;
        if nth.moment <= moment {
            Some(nth)
        } else {
            None
        }
    }

    /// The first one above a deadline that is due at a moment or before it.
    pub fn due_after(&self, deadline: &Deadline, moment: u64) -> Option<&Deadline>
        ensures due { option_map (λ deadline. deadline.now) result ≡ find (λ e. is_above deadline.now e && is_due moment e) self.now.deadlines }
        ensures order { DeadlinesRise 0 self.now.deadlines }
    {
        self.nth_due(self.tree.count_below(deadline.key() + 1), moment)
    }

    // Whether this deadline stands at an index.
    fn is_there(&self, index: usize, deadline: &Deadline) -> bool
        ensures { result ≡ is_this deadline.now (slice_get self.now.deadlines index) }
    {
        match self.tree.get(index) {
            Some(there) => there.key() == deadline.key(),
            None => false,
        }
    }

    // Where the first deadline stands that is not below this one.
    fn index(&self, deadline: &Deadline) -> usize
        ensures index { result ≡ position_or_len (is_not_below deadline.now) self.now.deadlines }
        ensures within { result ≤ length self.now.deadlines }
        ensures order { DeadlinesRise 0 self.now.deadlines }
    {
        self.tree.count_below(deadline.key())
    }
}
