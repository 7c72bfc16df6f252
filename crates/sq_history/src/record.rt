//! What an actor keeps of a step of a home.
ghost use Rattle.std.specs.Prelude.{◌≡◌, option_map};
ghost use Rattle.sq_history.specs.Records.{step_of, with_home};

use sq_base::ids::HomeId;
use sq_base::name::QueueName;
use sq_model::calls::HomeCall;
use sq_model::event::StepRecord;
use sq_model::replies::HomeReply;
use std::marker::Model;

/// An actor's record of one step of a home. Only the recorded calls of a home make one.
#[derive(Drop)]
pub struct HomeRecord {
    step: StepRecord<HomeCall, HomeReply>,
    home: HomeId,
    name: Option<QueueName>,
}

impl Model for HomeRecord {
    ghost use Rattle.sq_model.specs.RecordValues.{HomeRecordValue};
    ghost use Rattle.sq_history.specs.Records.{with_home};

    ghost Value = { HomeRecordValue };

    ghost view = { λ r. with_home r.home r.name r.step };
}

impl HomeRecord {
    pub(crate) fn new(
        step: StepRecord<HomeCall, HomeReply>,
        home: &HomeId,
        name: Option<QueueName>,
    ) -> HomeRecord
        ensures { result ≡ with_home home.now name step }
    {
        HomeRecord {
            step,
            home: *home,
            name,
        }
    }

    /// What is kept of a step of any part, the home that it was done at, and the queue's name that the actor used.
    pub fn into_parts(self) -> (StepRecord<HomeCall, HomeReply>, HomeId, Option<QueueName>)
        ensures { with_home result.1 result.2 result.0 ≡ self }
    {
        let HomeRecord { step, home, name } = self;
        (step, home, name)
    }

    /// What is kept of a step of any part.
    pub fn step(&self) -> &StepRecord<HomeCall, HomeReply>
        ensures { result.now ≡ step_of self.now }
    {
        &self.step
    }

    /// The home that it was done at.
    pub fn home(&self) -> &HomeId
        ensures { result.now ≡ self.now.home }
    {
        &self.home
    }
}

/// An actor's record of one step of a home, whose parts are kept apart.
#[derive(Drop)]
pub struct LentHomeRecord<'a> {
    step: &'a StepRecord<HomeCall, HomeReply>,
    home: &'a HomeId,
    name: Option<&'a QueueName>,
}

impl<'a> Model for LentHomeRecord<'a> {
    ghost use Rattle.std.specs.Prelude.{option_map};
    ghost use Rattle.sq_model.specs.RecordValues.{HomeRecordValue};
    ghost use Rattle.sq_history.specs.Records.{with_home};

    ghost Value = { HomeRecordValue };

    ghost view = { λ r. with_home r.home.now (option_map (λ n. n.now) r.name) r.step.now };
}

impl<'a> LentHomeRecord<'a> {
    /// The record of a step at a home, by the name that was used.
    pub fn of(
        step: &'a StepRecord<HomeCall, HomeReply>,
        home: &'a HomeId,
        name: Option<&'a QueueName>,
    ) -> LentHomeRecord<'a>
        ensures { result ≡ with_home home.now (option_map (λ n. n.now) name.entry) step.now }
    {
        LentHomeRecord { step, home, name }
    }

    /// What is kept of a step of any part.
    pub fn step(&self) -> &StepRecord<HomeCall, HomeReply>
        ensures { result.now ≡ step_of self.now }
    {
        self.step
    }

    /// The home that it was done at.
    pub fn home(&self) -> &HomeId
        ensures { result.now ≡ self.now.home }
    {
        self.home
    }

    /// The queue's name that the actor used.
    pub fn name(&self) -> Option<&QueueName>
        ensures { option_map (λ n. n.now) result ≡ self.now.name }
    {
        self.name
    }
}
