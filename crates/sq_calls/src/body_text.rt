//! The text of a body before its characters are checked.
ghost use Rattle.std.specs.Prelude.{◌≡◌, ◌⊎◌, false, true, IfOk, IfErr};
ghost use Rattle.sq_calls.specs.BodyTexts.{is_too_small_or_large};

use sq_base::body::BODY_LIMIT;
use sq_base::refusal::Refusal;
use std::alloc::Global;
use std::marker::Model;

/// A text of 1 to `BODY_LIMIT` bytes, whose characters are not checked yet.
#[derive(Drop)]
pub struct BodyText {
    text: String,
}

impl Model for BodyText {
    ghost use Rattle.std.specs.Prelude.{◌≡◌, List, ℕ, false, string_bytes};
    ghost use Rattle.sq_calls.specs.BodyTexts.{is_too_small_or_large};

    ghost Value = { List ℕ };

    ghost view = { λ b. string_bytes b.text };

    ghost invariant = { λ b. is_too_small_or_large (string_bytes b.text) ≡ false };
}

impl BodyText {
    /// The text, where it has at least one byte (SQS API Reference, SendMessage, MessageBody) and at most `BODY_LIMIT` (own).
    /// Refused as InvalidParameterValue where it has not, and then as NoMemory where no memory is found.
    pub fn new(alloc: Global, text: &str) -> Result<BodyText, Refusal>
        ensures text { IfOk result (λ b. b ≡ text.now) }
        ensures refused { IfErr result (λ e. ((e ≡ Refusal.InvalidParameterValue) × (is_too_small_or_large text.now ≡ true)) ⊎ ((e ≡ Refusal.NoMemory) × (is_too_small_or_large text.now ≡ false))) }
    {
        if is_too_small_or_large(text) {
            return Err(Refusal::InvalidParameterValue);
        }
        Ok(BodyText {
            text: String::from_str(alloc, text)?,
        })
    }

    /// The text.
    pub fn as_str(&self) -> &str
        ensures text { result.now ≡ self.now }
        ensures bounds { is_too_small_or_large self.now ≡ false }
    {
        self.text.as_str()
    }
}

// Whether a text is empty, or longer than a body may be.
fn is_too_small_or_large(text: &str) -> bool
    ensures { result ≡ is_too_small_or_large text.now }
{
    text.is_empty() || text.len() > BODY_LIMIT
}
