//! What an actor keeps of a step.
ghost use Rattle.std.specs.Prelude.{◌≡◌};

use sq_model::event::StepRecord;
use std::marker::Model;

/// An actor's record of one step of a part. Only a log that adds the step's event makes one.
#[derive(Drop)]
pub struct PartRecord<K, R> {
    step: StepRecord<K, R>,
}

impl<K, R> Model for PartRecord<K, R> {
    ghost use Rattle.sq_model.specs.declared.event.StepRecord.{StepRecord};

    ghost Value = { StepRecord K R };

    ghost view = { λ r. r.step };
}

impl<K: Drop, R: Drop> PartRecord<K, R> {
    pub(crate) fn new(step: StepRecord<K, R>) -> PartRecord<K, R>
        ensures { result ≡ step }
    {
        PartRecord { step }
    }

    /// What is kept of it.
    pub fn step(&self) -> &StepRecord<K, R>
        ensures { result.now ≡ self.now }
    {
        &self.step
    }

    /// What is kept of it, for a record that says more.
    pub fn into_step(self) -> StepRecord<K, R>
        ensures { result ≡ self }
    {
        let PartRecord { step } = self;
        step
    }
}
