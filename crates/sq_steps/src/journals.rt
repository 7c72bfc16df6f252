//! What all actors have seen and recorded.
ghost use Rattle.std.specs.Prelude.{◌≡◌, ◌↔◌, ◌<◌, None, true, length, position, IfOk, IfErr, IfSome, OnOk, OnErr};
ghost use Rattle.sq_model.specs.RecordValues.{place_of_record};
ghost use Rattle.sq_model.specs.Matches.{IsRecorded};
ghost use Rattle.sq_steps.specs.Journals.{is_of_actor, index_in, opened, without_record_of, AreDistinct};

use crate::capacity::push_within_capacity;
use crate::journal::Journal;
use sq_base::refusal::Refusal;
use std::alloc::Global;
use std::marker::Model;

/// The actors of a service, each once.
#[derive(Drop)]
pub struct Journals {
    journals: Vec<Journal>,
}

impl Model for Journals {
    ghost use Rattle.std.specs.Prelude.{List};
    ghost use Rattle.sq_model.specs.RecordValues.{Journal};
    ghost use Rattle.sq_steps.specs.Journals.{AreDistinct};

    ghost Value = { List Journal };

    ghost view = { λ b. b.journals.items };

    ghost invariant = { λ b. AreDistinct b.journals.items };
}

impl Journals {
    /// Actors of which each is there once.
    pub fn of(journals: Vec<Journal>) -> Journals
        requires { AreDistinct journals.items }
        ensures { result ≡ journals.items }
    {
        Journals { journals }
    }

    /// The actors, in the order of their first act.
    pub fn as_slice(&self) -> &[Journal]
        ensures journals { result.now ≡ self.now }
        ensures distinct { AreDistinct result.now }
    {
        self.journals.as_slice()
    }

    /// Takes out the record of this actor's step of this number, and tells whether it was there.
    pub fn drop_record(&mut self, actor: u32, place: u64) -> bool
        ensures answered { result ≡ true ↔ IsRecorded self.old actor (λ n. place_of_record n ≡ place) }
        ensures dropped { self.new ≡ without_record_of actor place self.old }
    {
        match journal_at(&self.journals, actor) {
            Some(at) => self.journals[at].drop_record(place),
            None => false,
        }
    }
}

/// Where what an actor has stands.
pub fn journal_at(journals: &[Journal], actor: u32) -> Option<usize>
    ensures index { result ≡ position (is_of_actor actor) journals.now }
    ensures within { IfSome result (λ at. at < length journals.now) }
{
    journals.iter().position(|journal| journal.actor() == actor)
}

/// Whether each actor is there once. It compares each with those before it.
pub fn are_distinct(journals: &[Journal]) -> bool
    ensures { result ≡ true ↔ AreDistinct journals.now }
{
    for at in 0..journals.len() {
        match journal_at(&journals[..at], journals[at].actor()) {
            Some(_first) => return false,
            None => {}
        }
    }
    true
}

/// Where what an actor has stands, which is made where it is not there. Refused as NoMemory of a new actor alone.
pub fn open(journals: &mut Vec<Journal>, alloc: Global, actor: u32) -> Result<usize, Refusal>
    ensures index { IfOk result (λ at. at ≡ index_in actor journals.old.items) }
    ensures opened { OnOk result (journals.new.items ≡ opened actor journals.old.items) }
    ensures within { IfOk result (λ at. at < length journals.new.items) }
    ensures refused { IfErr result (λ e. (e ≡ Refusal.NoMemory) × (position (is_of_actor actor) journals.old.items ≡ None)) }
    ensures err { OnErr result (journals.new.items ≡ journals.old.items) }
{
    if let Some(at) = journal_at(journals, actor) {
        return Ok(at);
    }
    journals.try_reserve(1)?;
    push_within_capacity(journals, Journal::new(alloc, actor));
    Ok(journals.len() - 1)
}
