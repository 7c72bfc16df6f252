//! The records of an actor's steps.
ghost use Rattle.std.specs.Prelude.{◌≡◌, ◌<◌, ◌≤◌, ◌+◌, ◌++◌, ◌∷◌, ◌==◌, [], None, Some, false, length, slice_get, IfSome};
ghost use Rattle.std.specs.List.{list_any};
ghost use Rattle.sq_model.specs.RecordValues.{OfHome, place_of_record};
ghost use Rattle.sq_log.specs.Spares.{HasReserved, IsReady, KeepsSpare};
ghost use Rattle.sq_steps.specs.Records.{value_of_record};
ghost use Rattle.sq_steps.specs.inside.Records.{IsFirstAt, IsKeptAs, least, place_of_kept, value_of_other, without_first};

use crate::names::Names;
use crate::record::Record;
use sq_base::ids::HomeId;
use sq_base::name::QueueName;
use sq_base::refusal::Refusal;
use sq_directory::record::DirectoryRecord;
use sq_history::record::{HomeRecord, LentHomeRecord};
use sq_ledger::record::LedgerRecord;
use sq_log::blocks::Blocks;
use sq_model::calls::HomeCall;
use sq_model::event::StepRecord;
use sq_model::replies::HomeReply;
use std::alloc::Global;
use std::marker::Model;

/// A record of a home, by no name or by the one at an index; or at which index among the others a record is. What is small
/// comes first, where the mark of the kind leaves bits for it.
#[derive(Drop)]
pub(crate) enum Kept {
    Home(HomeId, StepRecord<HomeCall, HomeReply>),
    Named(u32, HomeId, StepRecord<HomeCall, HomeReply>),
    Other(usize),
}

/// A record of the directory, or of the ledger alone: that of the directory takes several times the bytes of one of a home,
/// and most actors have few.
#[derive(Drop)]
pub(crate) enum Other {
    Directory(DirectoryRecord),
    Ledger(LedgerRecord),
}

/// Records in their order: those of homes as they are, and of the others, which stand apart, their index. Each name that was used is
/// there once. Memory is got before a step, for a record of any part; it shows for how many more there was memory when its last one
/// was put.
#[derive(Drop)]
pub(crate) struct Records {
    kept: Blocks<Kept>,
    others: Blocks<Other>,
    names: Names,
    spare: usize,
}

impl Model for Records {
    ghost use Rattle.std.specs.Prelude.{◌≤◌, length};
    ghost use Rattle.std.specs.List.{AllByRecursion};
    ghost use Rattle.sq_log.specs.Spares.{GrowingValue};
    ghost use Rattle.sq_model.specs.RecordValues.{RecordValue};
    ghost use Rattle.sq_steps.specs.inside.Records.{IsIn, least, values_of_kept};

    ghost Value = { GrowingValue RecordValue };

    ghost view = { λ r. record { items = values_of_kept r.others.items r.names.names r.kept.items; spare = r.spare; reserved = least (least r.kept.reserved r.others.reserved) r.names.reserved } };

    ghost invariant = { λ r. record {
      within : AllByRecursion (IsIn (length r.others.items) (length r.names.names)) r.kept.items;
      spare : r.spare ≤ least (least r.kept.reserved r.others.reserved) r.names.reserved;
    } };
}

impl Records {
    /// No record; it shows no spare memory.
    pub(crate) fn new(alloc: Global) -> Records
        ensures items { result.items ≡ [] }
        ensures spare { result.spare ≡ 0 }
    {
        Records {
            kept: Blocks::new(alloc),
            others: Blocks::new(alloc),
            names: Names::new(alloc),
            spare: 0,
        }
    }

    /// How many there are.
    pub(crate) fn len(&self) -> usize
        ensures { result ≡ length self.now.items }
    {
        self.kept.len()
    }

    /// The record at an index, from 0 upwards.
    pub(crate) fn record(&self, index: usize) -> Record<'_>
        requires { index < length self.now.items }
        ensures { slice_get self.now.items index ≡ Some (value_of_record result) }
    {
        match &self.kept[index] {
            Kept::Home(home, step) => Record::Home(LentHomeRecord::of(step, home, None)),
            Kept::Named(at, home, step) => {
                Record::Home(LentHomeRecord::of(step, home, self.names.get(*at)))
            }
            Kept::Other(at) => self.others[*at].as_record(),
        }
    }

    /// Gets memory for one record more, and for four at once where it shows no spare memory. Refused as NoMemory where it
    /// shows no spare memory and has memory for fewer than four.
    pub(crate) fn reserve(&mut self) -> Result<(), Refusal>
        ensures { HasReserved self.old self.new result }
    {
        if self.spare == 0 {
            self.kept.reserve()?;
            self.others.reserve()?;
            self.names.reserve()?;
        }
        Ok(())
    }

    /// Puts a record of a home last, for which `reserve` got memory.
    pub(crate) fn push_home(&mut self, its_record: HomeRecord)
        requires { IsReady self.old.spare self.old.reserved }
        ensures items { self.new.items ≡ self.old.items ++ OfHome its_record ∷ [] }
        ensures shown { self.new.spare ≡ self.new.reserved }
        ensures spare { KeepsSpare self.old.spare self.new.spare }
    {
        let kept = keep(&mut self.names, its_record);
        self.kept.push(kept);
        self.spare = spare(&self.kept, &self.others, &self.names);
    }

    /// Puts a record of the directory or of the ledger last, for which `reserve` got memory: apart, with its index here.
    pub(crate) fn push_other(&mut self, other: Other)
        requires { IsReady self.old.spare self.old.reserved }
        ensures items { self.new.items ≡ self.old.items ++ value_of_other other ∷ [] }
        ensures shown { self.new.spare ≡ self.new.reserved }
        ensures spare { KeepsSpare self.old.spare self.new.spare }
    {
        self.kept.push(Kept::Other(self.others.len()));
        self.others.push(other);
        self.spare = spare(&self.kept, &self.others, &self.names);
    }

    /// Takes out the first record of the step of this number, and tells whether it was there. It shows no spare memory then. One of
    /// the directory or the ledger keeps its memory, and so does a name.
    pub(crate) fn drop_record(&mut self, place: u64) -> bool
        ensures answered { result ≡ list_any (λ n. place_of_record n == place) self.old.items }
        ensures dropped { self.new.items ≡ without_first (λ n. place_of_record n == place) self.old.items }
        ensures spare { self.new.spare ≡ 0 }
    {
        self.spare = 0;
        match find_place(&self.others, &self.kept, place) {
            Some(at) => {
                drop(self.kept.remove(at));
                true
            }
            None => false,
        }
    }
}

impl Other {
    fn as_record(&self) -> Record<'_>
        ensures { value_of_record result ≡ value_of_other self.now }
    {
        match self {
            Other::Directory(record) => Record::Directory(record),
            Other::Ledger(record) => Record::Ledger(record),
        }
    }
}

// A record of a home as it is kept, with its name put where one was used.
fn keep(names: &mut Names, its_record: HomeRecord) -> Kept
    requires { 0 < names.old.reserved }
    ensures kept { IsKeptAs names.old.names names.new.names its_record result }
    ensures reserved { names.old.reserved ≤ names.new.reserved + 1 }
{
    let (step, home, name) = its_record.into_parts();
    match name {
        Some(name) => Kept::Named(names.index_of(&name), home, step),
        None => Kept::Home(home, step),
    }
}

// Where the first record of the step of this number stands.
fn find_place(others: &Blocks<Other>, kept: &Blocks<Kept>, place: u64) -> Option<usize>
    ensures found { IfSome result (IsFirstAt (λ n. place_of_kept others.now.items n == place) kept.now.items) }
    ensures none { result ≡ None → list_any (λ n. place_of_kept others.now.items n == place) kept.now.items ≡ false }
{
    for at in 0..kept.len() {
        if place_of(others, &kept[at]) == place {
            return Some(at);
        }
    }
    None
}

// The number of the step of a record.
fn place_of(others: &Blocks<Other>, kept: &Kept) -> u64
    ensures { result ≡ place_of_kept others.now.items kept.now }
{
    match kept {
        Kept::Home(_, step) | Kept::Named(_, _, step) => step.place,
        Kept::Other(at) => match others.get(*at) {
            Some(other) => other.as_record().place(),
            None => 0,
        },
    }
}

// For how many records more there is memory, of whichever part and with whichever name.
fn spare(kept: &Blocks<Kept>, others: &Blocks<Other>, names: &Names) -> usize
    ensures { result ≡ least (least kept.now.reserved others.now.reserved) names.now.reserved }
{
    let records = lesser(kept.reserved(), others.reserved());
    lesser(records, names.spare())
}

/// The lesser of two numbers.
pub(crate) fn lesser(a: usize, b: usize) -> usize
    ensures { result ≡ least a b }
{
    if a <= b { a } else { b }
}
