//! The body of a message that is sent.
ghost use Rattle.std.specs.Prelude.{◌≡◌, IfErr, IfOk};

use sq_base::body::Body;
use sq_base::refusal::Refusal;
use std::marker::Model;

/// A body for a row, its event and its record: they own one text together, so that a step that puts it needs no memory for it.
#[derive(Drop)]
pub struct SentBody {
    row: Body,
    kept: Body,
    recorded: Body,
}

impl Model for SentBody {
    ghost use Rattle.std.specs.Prelude.{◌≡◌, ℕ, List};

    ghost Value = { List ℕ };

    ghost view = { λ b. b.row };

    ghost invariant = { λ b. (b.kept ≡ b.row) × (b.recorded ≡ b.row) };
}

impl SentBody {
    /// Refused as NoMemory.
    pub fn new(body: Body) -> Result<SentBody, Refusal>
        ensures body { IfOk result (λ sent. sent ≡ body) }
        ensures refused { IfErr result (λ e. e ≡ Refusal.NoMemory) }
    {
        let kept = body.copy()?;
        let recorded = body.copy()?;
        Ok(SentBody {
            row: body,
            kept,
            recorded,
        })
    }

    /// The body.
    pub fn body(&self) -> &Body
        ensures { result.now ≡ self.now }
    {
        &self.row
    }

    /// The same body. Refused as NoMemory.
    pub fn copy(&self) -> Result<SentBody, Refusal>
        ensures copy { IfOk result (λ copy. copy ≡ self.now) }
        ensures refused { IfErr result (λ e. e ≡ Refusal.NoMemory) }
    {
        SentBody::new(self.row.copy()?)
    }

    // For the row, for its event and for its record.
    pub(crate) fn split(self) -> (Body, Body, Body)
        ensures row { result.0 ≡ self }
        ensures kept { result.1 ≡ self }
        ensures recorded { result.2 ≡ self }
    {
        let SentBody {
            row,
            kept,
            recorded,
        } = self;
        (row, kept, recorded)
    }
}
