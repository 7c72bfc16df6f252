//! Deadlines in a tree, found by their index.
ghost use Rattle.std.specs.Prelude.{◌≡◌, ◌+◌, ◌*◌, ◌^◌, ◌++◌, ◌∷◌, ◌<◌, ◌≤◌, [], true, count_by, length, option_map, slice_get};
ghost use Rattle.std.specs.List.{insert, remove};
ghost use Rattle.std.specs.Vec.{vec_capacity, vec_len};
ghost use Rattle.sq_deadline.specs.Deadlines.{DeadlinesRise};
ghost use Rattle.sq_deadline.specs.Trees.{is_kept, listed, weight};
ghost use Rattle.sq_deadline.specs.inside.Trees.{IsLevel, IsNearlyLevel, IsTwiceOrMore, depth, is_below, AreSides};

use crate::deadline::Deadline;
use std::mem;

/// Deadlines from left to right. Where one comes in or goes out, each node on the way is turned where one of its sides has
/// become more than three times as heavy as the other; so a way down has a length by the logarithm of their number.
#[cycle(branches)]
#[derive(Drop)]
pub(crate) enum Tree {
    Empty,
    Full(Box<Node>),
}

/// A deadline, those to its left and to its right, and how many they are with it.
#[cycle(branches)]
#[derive(Drop)]
pub(crate) struct Node {
    left: Tree,
    deadline: Deadline,
    count: usize,
    right: Tree,
}

impl Node {
    /// A node of no tree yet.
    pub(crate) fn blank() -> Node {
        Node {
            left: Tree::Empty,
            deadline: Deadline { moment: 0, slot: 0 },
            count: 1,
            right: Tree::Empty,
        }
    }
}

/// A way down is short: with so many deadlines the longest passes no more nodes than the logarithm of their number and one, to the base
/// of 4/3. So 10^6 deadlines are at most 48 deep.
pub(crate) fn ways_are_short()
    ensures { (t : Tree) → is_kept t ≡ true → 4 ^ depth t ≤ 3 ^ depth t * weight t }
{}

// A node out of its tree: its memory, its deadline, and what was to either side.
#[derive(Drop)]
struct Parts {
    node: Box<Node>,
    left: Tree,
    deadline: Deadline,
    right: Tree,
}

// These as one tree, in the memory of a node.
fn made(mut node: Box<Node>, left: Tree, deadline: Deadline, right: Tree) -> Tree
    requires sides { AreSides left right }
    requires level { IsLevel left right }
    ensures listed { listed result ≡ listed left ++ deadline ∷ listed right }
    ensures kept { is_kept result ≡ true }
{
    let count = left.len() + 1 + right.len();
    *node = Node {
        left,
        deadline,
        count,
        right,
    };
    Tree::Full(node)
}

// Three as one tree, where the middle one is the heaviest: a part of it goes to either side.
fn shared_out(
    first: Box<Node>,
    left: Tree,
    before: Deadline,
    middle: Tree,
    after: Deadline,
    right: Tree,
    last: Box<Node>,
) -> Tree
    requires left { is_kept left ≡ true }
    requires middle { is_kept middle ≡ true }
    requires right { is_kept right ≡ true }
    requires beside_left { IsTwiceOrMore left middle }
    requires beside_right { IsTwiceOrMore right middle }
    requires fits { length (listed left) + length (listed middle) + length (listed right) < 18446744073709551614 }
    ensures listed { listed result ≡ listed left ++ before ∷ listed middle ++ after ∷ listed right }
    ensures kept { is_kept result ≡ true }
{
    let top = middle.parts();
    let left = made(first, left, before, top.left);
    let right = made(last, top.right, after, right);
    made(top.node, left, top.deadline, right)
}

// A node with a side on either hand as one tree. Where one side has become too heavy by one, its inner part goes to the other
// hand, whole or in two.
fn levelled(node: Box<Node>, left: Tree, deadline: Deadline, right: Tree) -> Tree
    requires sides { AreSides left right }
    requires nearly { IsNearlyLevel left right }
    ensures listed { listed result ≡ listed left ++ deadline ∷ listed right }
    ensures kept { is_kept result ≡ true }
{
    let (before, after) = (left.len(), right.len());
    if before < after / 3 {
        let side = right.parts();
        let (inner, next, outer) = (side.left, side.deadline, side.right);
        if (inner.len() + 1) / 2 <= outer.len() {
            return made(side.node, made(node, left, deadline, inner), next, outer);
        }
        shared_out(node, left, deadline, inner, next, outer, side.node)
    } else if after < before / 3 {
        let side = left.parts();
        let (outer, last, inner) = (side.left, side.deadline, side.right);
        if (inner.len() + 1) / 2 <= outer.len() {
            return made(side.node, outer, last, made(node, inner, deadline, right));
        }
        shared_out(side.node, outer, last, inner, deadline, right, node)
    } else {
        made(node, left, deadline, right)
    }
}

// Two sides as one tree. The memory of the node between them, or that of the first to its right, is kept.
fn joined(node: Box<Node>, left: Tree, right: Tree, spare: &mut Vec<Box<Node>>) -> Tree
    requires sides { AreSides left right }
    requires level { IsLevel left right }
    requires has_spare { vec_len spare.old < vec_capacity spare.old }
    ensures listed { listed result ≡ listed left ++ listed right }
    ensures kept { is_kept result ≡ true }
    ensures spare { vec_len spare.new ≡ vec_len spare.old + 1 }
    ensures capacity { vec_capacity spare.old ≤ vec_capacity spare.new }
{
    if right.len() == 0 {
        let _ = spare.push(node);
        return left;
    }
    let (next, rest) = right.first_out(spare);
    levelled(node, left, next, rest)
}

impl Tree {
    /// How many there are.
    pub(crate) fn len(&self) -> usize
        requires { is_kept self.now ≡ true }
        ensures { result ≡ length (listed self.now) }
    {
        match self {
            Tree::Empty => 0,
            Tree::Full(node) => node.count,
        }
    }

    /// The one at an index, the leftmost first.
    pub(crate) fn get(&self, index: usize) -> Option<&Deadline>
        requires { is_kept self.now ≡ true }
        ensures { option_map (λ deadline. deadline.now) result ≡ slice_get (listed self.now) index }
    {
        match self {
            Tree::Empty => None,
            Tree::Full(node) => {
                let before = node.left.len();
                if index < before {
                    node.left.get(index)
                } else if index == before {
                    Some(&node.deadline)
                } else {
                    node.right.get(index - before - 1)
                }
            }
        }
    }

    /// How many are below a key, where they rise.
    pub(crate) fn count_below(&self, key: u128) -> usize
        requires { is_kept self.now ≡ true }
        ensures count { DeadlinesRise 0 (listed self.now) → result ≡ count_by (is_below key) (listed self.now) }
        ensures within { result ≤ length (listed self.now) }
    {
        match self {
            Tree::Empty => 0,
            Tree::Full(node) => {
                if node.deadline.key() < key {
                    let not_below = node.right.len() - node.right.count_below(key);
                    node.count - not_below
                } else {
                    node.left.count_below(key)
                }
            }
        }
    }

    /// Puts one in at an index, in the memory of a node.
    pub(crate) fn insert(&mut self, index: usize, deadline: Deadline, node: Box<Node>)
        requires kept { is_kept self.old ≡ true }
        requires within { index ≤ length (listed self.old) }
        requires fits { length (listed self.old) < 18446744073709551615 }
        ensures listed { listed self.new ≡ insert (listed self.old) index deadline }
        ensures kept { is_kept self.new ≡ true }
    {
        *self = mem::replace(self, Tree::Empty).with(index, deadline, node);
    }

    /// Takes out the one at an index, and keeps the memory of a node.
    pub(crate) fn remove(&mut self, index: usize, spare: &mut Vec<Box<Node>>)
        requires kept { is_kept self.old ≡ true }
        requires within { index < length (listed self.old) }
        requires has_spare { vec_len spare.old < vec_capacity spare.old }
        ensures listed { listed self.new ≡ remove (listed self.old) index }
        ensures kept { is_kept self.new ≡ true }
        ensures spare { vec_len spare.new ≡ vec_len spare.old + 1 }
        ensures capacity { vec_capacity spare.old ≤ vec_capacity spare.new }
    {
        *self = mem::replace(self, Tree::Empty).without(index, spare);
    }

    /// Takes all out, and keeps the memory of their nodes.
    pub(crate) fn clear(&mut self, spare: &mut Vec<Box<Node>>)
        requires has_spare { vec_len spare.old + length (listed self.old) ≤ vec_capacity spare.old }
        ensures empty { listed self.new ≡ [] }
        ensures kept { is_kept self.new ≡ true }
        ensures spare { vec_len spare.new ≡ vec_len spare.old + length (listed self.old) }
        ensures capacity { vec_capacity spare.old ≤ vec_capacity spare.new }
    {
        mem::replace(self, Tree::Empty).given_up(spare);
    }

    // The node at the top, and what is to either side.
    fn parts(self) -> Parts
        requires kept { is_kept self ≡ true }
        requires some { 0 < length (listed self) }
        ensures listed { listed self ≡ listed result.left ++ result.deadline ∷ listed result.right }
        ensures count { length (listed self) ≡ length (listed result.left) + 1 + length (listed result.right) }
        ensures sides { AreSides result.left result.right }
        ensures level { IsLevel result.left result.right }
    {
        match self {
            Tree::Empty => unreachable!(),
            Tree::Full(mut node) => {
                let Node {
                    left,
                    deadline,
                    right,
                    ..
                } = Box::replace(&mut node, Node::blank());
                Parts {
                    node,
                    left,
                    deadline,
                    right,
                }
            }
        }
    }

    // These and one more at an index, in the memory of a node.
    #[tactic(auto, using(crate::proofs::TreeLaws::comes_in_right))]
    fn with(self, index: usize, deadline: Deadline, node: Box<Node>) -> Tree
        requires kept { is_kept self ≡ true }
        requires within { index ≤ length (listed self) }
        requires fits { length (listed self) < 18446744073709551615 }
        ensures listed { listed result ≡ insert (listed self) index deadline }
        ensures kept { is_kept result ≡ true }
    {
        if self.len() == 0 {
            return made(node, Tree::Empty, deadline, Tree::Empty);
        }
        let here = self.parts();
        let before = here.left.len();
        if index <= before {
            let side = here.left.with(index, deadline, node);
            levelled(here.node, side, here.deadline, here.right)
        } else {
            let side = here.right.with(index - before - 1, deadline, node);
            levelled(here.node, here.left, here.deadline, side)
        }
    }

    // These without the one at an index. The memory of a node is kept.
    #[tactic(auto, using(crate::proofs::TreeLaws::goes_out))]
    fn without(self, index: usize, spare: &mut Vec<Box<Node>>) -> Tree
        requires kept { is_kept self ≡ true }
        requires within { index < length (listed self) }
        requires has_spare { vec_len spare.old < vec_capacity spare.old }
        ensures listed { listed result ≡ remove (listed self) index }
        ensures kept { is_kept result ≡ true }
        ensures spare { vec_len spare.new ≡ vec_len spare.old + 1 }
        ensures capacity { vec_capacity spare.old ≤ vec_capacity spare.new }
    {
        let here = self.parts();
        let before = here.left.len();
        if index < before {
            let side = here.left.without(index, spare);
            return levelled(here.node, side, here.deadline, here.right);
        }
        if before < index {
            let side = here.right.without(index - before - 1, spare);
            return levelled(here.node, here.left, here.deadline, side);
        }
        joined(here.node, here.left, here.right, spare)
    }

    // The first, and these without it. The memory of a node is kept.
    fn first_out(self, spare: &mut Vec<Box<Node>>) -> (Deadline, Tree)
        requires kept { is_kept self ≡ true }
        requires some { 0 < length (listed self) }
        requires has_spare { vec_len spare.old < vec_capacity spare.old }
        ensures listed { listed self ≡ result.0 ∷ listed result.1 }
        ensures kept { is_kept result.1 ≡ true }
        ensures spare { vec_len spare.new ≡ vec_len spare.old + 1 }
        ensures capacity { vec_capacity spare.old ≤ vec_capacity spare.new }
    {
        let here = self.parts();
        if here.left.len() == 0 {
            let _ = spare.push(here.node);
            return (here.deadline, here.right);
        }
        let (first, rest) = here.left.first_out(spare);
        (first, levelled(here.node, rest, here.deadline, here.right))
    }

    // Gives all up. The memory of their nodes is kept.
    fn given_up(self, spare: &mut Vec<Box<Node>>)
        requires has_spare { vec_len spare.old + length (listed self) ≤ vec_capacity spare.old }
        ensures spare { vec_len spare.new ≡ vec_len spare.old + length (listed self) }
        ensures capacity { vec_capacity spare.old ≤ vec_capacity spare.new }
    {
        let Tree::Full(mut here) = self else {
            return;
        };
        let Node { left, right, .. } = Box::replace(&mut here, Node::blank());
        let _ = spare.push(here);
        left.given_up(spare);
        right.given_up(spare);
    }
}
