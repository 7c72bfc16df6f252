//! Message bodies: which texts they are, and their digest.
ghost use Rattle.std.specs.Prelude.{◌≡◌, ◌⊎◌, length, IfOk, IfErr, OnOk, MatchResult};
ghost use Rattle.std.specs.Cmp.{partial_equiv_from_equiv};
ghost use Rattle.std.specs.Cmp.Lexicographic.{nat_list_eq_equiv};
ghost use Rattle.std.specs.List.{list_all};
ghost use Rattle.std.specs.Str.{bytes_eq, chars};
ghost use Rattle.md5.specs.Md5.{md5};
ghost use Rattle.hex.specs.Hex.{encode_lower};
ghost use Rattle.sq_base.specs.Bodies.{allowed, body_check};
ghost use Rattle.sq_base.specs.inside.Bodies.{is_short};
ghost use Rattle.sq_base.specs.declared.refusal.Refusal.TheVariants.{NoMemory};

use crate::refusal::Refusal;
use md5::{Digest, Md5};
use std::alloc::Global;
use std::marker::Model;
use std::sync::Arc;

/// How many bytes a body may have where its queue says nothing less
/// (SQS API Reference, SetQueueAttributes, MaximumMessageSize).
pub const BODY_LIMIT: usize = 1_048_576;

#[derive(Drop)]
struct Digested {
    text: String,
    digest: [u8; 16],
}

/// The text of a message with its digest, held once: a copy is one more owner of it.
#[derive(Drop)]
pub struct Body {
    held: Arc<Digested>,
}

impl Model for Body {
    ghost use Rattle.std.specs.Arc.{arc_value};
    ghost use Rattle.std.specs.Prelude.{◌≡◌, List, ℕ};
    ghost use Rattle.std.specs.String.{string_bytes};
    ghost use Rattle.md5.specs.Md5.{md5};

    ghost Value = { List ℕ };

    ghost view = { λ b. string_bytes (arc_value b.held).text };

    ghost invariant = { λ b. (arc_value b.held).digest ≡ md5 (string_bytes (arc_value b.held).text) };
}

impl Body {
    /// Whether a text may be a body of at most so many bytes (SQS API Reference, SendMessage,
    /// MessageBody): InvalidParameterValue where it is empty or longer, else InvalidMessageContents
    /// where one of its characters may not stand in a body.
    pub fn check(text: &str, limit: usize) -> Result<(), Refusal>
        ensures { result ≡ body_check text.now limit }
    {
        if text.is_empty() || text.len() > limit {
            return Err(Refusal::InvalidParameterValue);
        }
        if !has_allowed(text) {
            return Err(Refusal::InvalidMessageContents);
        }
        Ok(())
    }

    /// The body of a text. Refused as by `check`, and then where no memory is found.
    pub fn new(alloc: Global, text: &str, limit: usize) -> Result<Body, Refusal>
        ensures value { IfOk result (λ b. b ≡ text.now) }
        ensures checked { OnOk result (body_check text.now limit ≡ Ok tt) }
        ensures err { IfErr result (λ e. (e ≡ NoMemory) ⊎ (body_check text.now limit ≡ Err e)) }
        ensures refused { MatchResult (body_check text.now limit) (λ _. IfErr result (λ e. e ≡ NoMemory)) (λ e. result ≡ Err e) }
    {
        Self::check(text, limit)?;
        let digest = Md5::digest(text.as_bytes());
        let text = String::from_str(alloc, text)?;
        Ok(Body {
            held: Arc::new(alloc, Digested { text, digest })?,
        })
    }

    /// The same body. Refused only where no memory is found.
    pub fn copy(&self) -> Result<Body, Refusal>
        ensures value { IfOk result (λ b. b ≡ self.now) }
        ensures refused { IfErr result (λ e. e ≡ NoMemory) }
    {
        Ok(Body {
            held: self.held.clone()?,
        })
    }

    /// The text of the body.
    pub fn as_str(&self) -> &str
        ensures { result.now ≡ self.now }
    {
        self.held.text.as_str()
    }

    fn digest(&self) -> [u8; 16]
        ensures { result ≡ md5 self.now }
    {
        self.held.digest
    }

    /// How many bytes the body has.
    pub fn len(&self) -> usize
        ensures { result ≡ length self.now }
    {
        self.held.text.len()
    }
}

impl PartialEq for Body {
    ghost eq = { bytes_eq };

    ghost laws = { partial_equiv_from_equiv nat_list_eq_equiv };

    fn eq(&self, other: &Body) -> bool {
        self.as_str() == other.as_str()
    }
}

/// The MD5 digest (RFC 1321) of a body in digits of `0-9a-f`
/// (SQS API Reference, SendMessage, MD5OfMessageBody).
pub fn body_md5(b: &Body) -> [u8; 32]
    ensures { result ≡ encode_lower (md5 b.now) }
{
    let digest = b.digest();
    let mut text = [0u8; 32];
    let _ = hex::encode_to_slice(&digest, &mut text);
    text
}

#[tactic(auto, unfolding(crate::specs::Bodies::allowed))]
fn is_allowed(c: char) -> bool
    ensures { result ≡ allowed c }
{
    matches!(c, '\t' | '\n' | '\r' | '\u{20}'..='\u{D7FF}' | '\u{E000}'..='\u{FFFD}' | '\u{10000}'..='\u{10FFFF}')
}

fn has_allowed(text: &str) -> bool
    ensures { result ≡ list_all allowed (chars text.now) }
{
    are_short(text.as_bytes()) || are_allowed(text)
}

fn are_allowed(text: &str) -> bool
    ensures { result ≡ list_all allowed (chars text.now) }
{
    text.chars().all(|c| is_allowed(c))
}

#[tactic(auto, unfolding(crate::specs::Bodies::allowed, crate::specs::inside::Bodies::is_short))]
fn is_short(b: u8) -> bool
    ensures { result ≡ is_short b }
{
    matches!(b, b'\t' | b'\n' | b'\r' | b' '..=b'\x7F')
}

// No byte ends it early, so that many are looked at at once.
fn are_short(bytes: &[u8]) -> bool
    ensures { result ≡ list_all is_short bytes.now }
{
    let mut all = true;
    for b in bytes {
        all &= is_short(*b);
    }
    all
}
