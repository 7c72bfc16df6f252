//! Why a step or a call is refused.
ghost use Rattle.std.specs.Prelude.{◌≡◌};
ghost use Rattle.sq_base.specs.Refusals.{number_of, name_of};

use std::alloc::{AllocError, AllocFailed};

/// The names are those of the SQS API Reference, but for `NoMemory`, `ClockRange`, `Worn`,
/// `TableFull` and `HomeDraining`, which are own. The numbers are own.
#[derive(Clone, Copy, PartialEq, Eq, Debug)]
pub enum Refusal {
    /// No memory was found.
    NoMemory = 1,
    /// A clock reading is at or above 2^62 ms.
    ClockRange = 2,
    /// A count is at its last value.
    Worn = 3,
    InvalidRequest = 4,
    InvalidAttributeName = 5,
    InvalidAttributeValue = 6,
    InvalidParameterValue = 7,
    InvalidAddress = 8,
    QueueDoesNotExist = 9,
    QueueNameExists = 10,
    QueueDeletedRecently = 11,
    PurgeQueueInProgress = 12,
    InvalidMessageContents = 13,
    OverLimit = 14,
    ReceiptHandleIsInvalid = 15,
    MessageNotInflight = 16,
    EmptyBatchRequest = 17,
    TooManyEntriesInBatchRequest = 18,
    InvalidBatchEntryId = 19,
    BatchEntryIdsNotDistinct = 20,
    BatchRequestTooLong = 21,
    ResourceNotFoundException = 22,
    UnsupportedOperation = 23,
    /// No further queue may be made.
    TableFull = 24,
    /// The home takes no more messages: it is drained, or is about to be.
    HomeDraining = 25,
}

impl Refusal {
    /// The number of the refusal, from 1 to 25. Own.
    pub fn number(self) -> u8
        ensures { result ≡ number_of self }
    {
        self as u8
    }

    /// The name of the refusal, as an error reply gives it: that of its variant.
    pub fn name(self) -> &'static str
        ensures { result.now ≡ name_of self }
    {
        match self {
            Refusal::NoMemory => "NoMemory",
            Refusal::ClockRange => "ClockRange",
            Refusal::Worn => "Worn",
            Refusal::InvalidRequest => "InvalidRequest",
            Refusal::InvalidAttributeName => "InvalidAttributeName",
            Refusal::InvalidAttributeValue => "InvalidAttributeValue",
            Refusal::InvalidParameterValue => "InvalidParameterValue",
            Refusal::InvalidAddress => "InvalidAddress",
            Refusal::QueueDoesNotExist => "QueueDoesNotExist",
            Refusal::QueueNameExists => "QueueNameExists",
            Refusal::QueueDeletedRecently => "QueueDeletedRecently",
            Refusal::PurgeQueueInProgress => "PurgeQueueInProgress",
            Refusal::InvalidMessageContents => "InvalidMessageContents",
            Refusal::OverLimit => "OverLimit",
            Refusal::ReceiptHandleIsInvalid => "ReceiptHandleIsInvalid",
            Refusal::MessageNotInflight => "MessageNotInflight",
            Refusal::EmptyBatchRequest => "EmptyBatchRequest",
            Refusal::TooManyEntriesInBatchRequest => "TooManyEntriesInBatchRequest",
            Refusal::InvalidBatchEntryId => "InvalidBatchEntryId",
            Refusal::BatchEntryIdsNotDistinct => "BatchEntryIdsNotDistinct",
            Refusal::BatchRequestTooLong => "BatchRequestTooLong",
            Refusal::ResourceNotFoundException => "ResourceNotFoundException",
            Refusal::UnsupportedOperation => "UnsupportedOperation",
            Refusal::TableFull => "TableFull",
            Refusal::HomeDraining => "HomeDraining",
        }
    }
}

impl<T: Drop> From<AllocFailed<T>> for Refusal {
    ghost use Rattle.std.specs.Prelude.{◌≡◌};
    ghost use Rattle.sq_base.specs.declared.refusal.Refusal.TheVariants.{NoMemory};

    ghost from_gives = { λ _ r. r ≡ NoMemory };

    fn from(_: AllocFailed<T>) -> Refusal {
        Refusal::NoMemory
    }
}

impl From<AllocError> for Refusal {
    ghost use Rattle.std.specs.Prelude.{◌≡◌};
    ghost use Rattle.sq_base.specs.declared.refusal.Refusal.TheVariants.{NoMemory};

    ghost from_gives = { λ _ r. r ≡ NoMemory };

    fn from(_: AllocError) -> Refusal {
        Refusal::NoMemory
    }
}
