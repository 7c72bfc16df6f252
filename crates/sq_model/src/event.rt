//! What was done, by whom and when.
use crate::calls::HomeCall;
use crate::place::Component;
use crate::replies::HomeReply;
use sq_base::stamp::Stamp;

/// A step that was done.
#[derive(Drop)]
pub struct Event<K, R> {
    pub stamp: Stamp,
    /// The number of the event among its actor's, from 0 upwards.
    pub place: u64,
    pub actor: u32,
    pub component: Component,
    pub call: K,
    pub reply: R,
}

/// What an actor keeps of a step that it did.
#[derive(Drop)]
pub struct StepRecord<K, R> {
    /// The number of the step among its actor's, from 0 upwards.
    pub place: u64,
    pub stamp: Stamp,
    /// The number of its event in the history of its part, from 0 upwards.
    pub index: u64,
    pub call: K,
    pub reply: R,
}

/// Who does a step: its number, how many steps it did before, and the last stamp that it saw.
#[derive(Clone, Copy, PartialEq, Eq, Debug)]
pub struct Actor {
    pub number: u32,
    pub place: u64,
    pub seen: Stamp,
}
