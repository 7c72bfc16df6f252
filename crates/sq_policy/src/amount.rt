//! Whole numbers of JSON.
ghost use Rattle.std.specs.Prelude.{◌≡◌};
ghost use Rattle.serde_json.specs.Find.{as_number};
ghost use Rattle.sq_json.specs.View.{view};
ghost use Rattle.sq_policy.specs.Amounts.{amount_of, amount_in_range, in_range_if, is_digits, amount_of_text, attribute_of};

use sq_base::ranges::Within;
use sq_base::refusal::Refusal;
use sq_json::value::Value;

/// A whole number that is read, before its range is checked.
#[derive(Clone, Copy)]
pub enum Amount {
    Natural(u64),
    /// Below 0, or a text that is no number of 64 bits: in no range.
    Other,
}

/// A number as a whole number; InvalidRequest where it is none, or no number.
pub fn amount_of(value: &Value<'_, '_>) -> Result<Amount, Refusal>
    ensures { result ≡ amount_of (as_number (view value.now)) }
{
    match value.as_u64() {
        Some(number) => Ok(Amount::Natural(number)),
        None if value.is_i64() => Ok(Amount::Other),
        None => Err(Refusal::InvalidRequest),
    }
}

/// The number, where it is in its range; else it is refused so.
pub fn in_range<const LEAST: u32, const GREATEST: u32>(
    amount: Amount,
    refusal: Refusal,
) -> Result<Within<LEAST, GREATEST>, Refusal>
    ensures { result ≡ amount_in_range LEAST GREATEST refusal amount }
{
    match amount {
        Amount::Natural(number) => Within::new(number).ok_or(refusal),
        Amount::Other => Err(refusal),
    }
}

/// The same of a number that may be there.
pub fn in_range_if<const LEAST: u32, const GREATEST: u32>(
    amount: Option<Amount>,
    refusal: Refusal,
) -> Result<Option<Within<LEAST, GREATEST>>, Refusal>
    ensures { result ≡ in_range_if LEAST GREATEST refusal amount }
{
    match amount {
        Some(amount) => Ok(Some(in_range(amount, refusal)?)),
        None => Ok(None),
    }
}

/// Whether a text is 1 to 20 ASCII digits.
#[tactic(auto, unfolding(crate::specs::Amounts::is_digits))]
pub fn is_digits(text: &[u8]) -> bool
    ensures { result ≡ is_digits text.now }
{
    1 <= text.len() && text.len() <= 20 && text.iter().all(|byte| byte.is_ascii_digit())
}

/// The number of a text of digits.
#[tactic(auto, unfolding(crate::specs::Amounts::amount_of_text))]
pub fn amount_of_text(text: &str) -> Amount
    ensures { result ≡ amount_of_text text.now }
{
    if !is_digits(text.as_bytes()) {
        return Amount::Other;
    }
    match text.parse::<u64>() {
        Ok(number) => Amount::Natural(number),
        Err(_) => Amount::Other,
    }
}

/// A numeric attribute, a text or a whole number (SQS API Reference, CreateQueue, Attributes); InvalidRequest where
/// it is neither.
#[tactic(auto, unfolding(crate::specs::Amounts::attribute_of))]
pub fn attribute_of(value: &Value<'_, '_>) -> Result<Amount, Refusal>
    ensures { result ≡ attribute_of (view value.now) }
{
    match value.as_str() {
        Some(text) => Ok(amount_of_text(text)),
        None => amount_of(value),
    }
}
