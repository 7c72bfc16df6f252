//! Names of queues.
ghost use Rattle.std.specs.Prelude.{◌≡◌, ℕ, List, ◌≤◌, ◌-◌, ◌++◌, length, replicate, true, if◌then◌else◌, Some, None};
ghost use Rattle.std.proofs.Common.{refl, rules};
ghost use Rattle.std.specs.Cmp.{partial_equiv_from_equiv};
ghost use Rattle.std.specs.Cmp.Lexicographic.{slice_cmp, nat_list_eq_equiv, nat_list_cmp_total, texts_po, texts_ties};
ghost use Rattle.std.specs.Cmp.Rules.{hashing};
ghost use Rattle.std.specs.Hash as fed;
ghost use Rattle.std.specs.List.{list_all};
ghost use Rattle.std.specs.Ordering.{nat_cmp};
ghost use Rattle.std.specs.Str.{bytes_eq};
ghost use Rattle.sq_base.specs.Names.{is_name, is_name_byte};

use std::cmp::Ordering;
use std::hash::{Hash, Hasher};
use std::marker::Model;

/// 1 to 80 of ASCII letters, digits, `-` and `_`; case counts (SQS API Reference, CreateQueue).
/// Names are compared, ordered and hashed by their own bytes.
#[derive(Clone, Copy, Debug)]
pub struct QueueName {
    bytes: [u8; 80],
    len: u8,
}

impl Model for QueueName {
    ghost use Rattle.std.specs.Prelude.{List, ℕ, ◌≡◌, ◌++◌, ◌-◌, ◌≤◌, take, length, replicate, true};
    ghost use Rattle.sq_base.specs.Names.{is_name};
    ghost use Rattle.std.proofs.Common.{◌∙◌, ap, sym, length-take-le};

    ghost Value = { List ℕ };

    ghost view = { λ n. take n.len n.bytes };

    ghost inverse = { λ v. record { bytes = v ++ replicate (80 - length v) 0; len = length v } };

    ghost inverse_ok = { λ n h i. record {
      bytes = (ap (λ (k : ℕ). take n.len n.bytes ++ replicate (80 - k) 0) (length-take-le n.len n.bytes h.0) ∙ sym h.2) i;
      len = length-take-le n.len n.bytes h.0 i;
    } };

    // The bytes past the name are 0, so that a name is known by its text.
    ghost invariant = { λ n. (n.len ≤ length n.bytes) × (length n.bytes ≡ 80) × (n.bytes ≡ take n.len n.bytes ++ replicate (80 - n.len) 0) × (is_name (take n.len n.bytes) ≡ true) };
}

impl QueueName {
    /// The name of this text, where it is one.
    pub fn new(text: &[u8]) -> Option<QueueName>
        ensures { result ≡ (if is_name text.now then Some text.now else None) }
    {
        if text.is_empty() || text.len() > 80 || !has_name_bytes(text) {
            return None;
        }
        Some(QueueName {
            bytes: padded(text),
            len: text.len() as u8,
        })
    }

    /// The text of the name in ASCII.
    pub fn as_bytes(&self) -> &[u8]
        ensures value { result.now ≡ self.now }
        ensures name { is_name self.now ≡ true }
    {
        &self.bytes[..self.len as usize]
    }

    /// The text of the name.
    pub fn as_str(&self) -> &str
        ensures { result.now ≡ self.now }
    {
        match str::from_utf8(self.as_bytes()) {
            Ok(text) => text,
            Err(_) => "",
        }
    }
}

impl PartialEq for QueueName {
    ghost eq = { bytes_eq };

    ghost laws = { partial_equiv_from_equiv nat_list_eq_equiv };

    fn eq(&self, other: &QueueName) -> bool {
        self.as_bytes() == other.as_bytes()
    }
}

impl Eq for QueueName {
    ghost laws = { nat_list_eq_equiv };
}

impl PartialOrd for QueueName {
    ghost partial_cmp = { λ a b. Some (slice_cmp nat_cmp a b) };

    ghost laws = { texts_po };

    fn partial_cmp(&self, other: &QueueName) -> Option<Ordering> {
        Some(self.cmp(other))
    }
}

impl Ord for QueueName {
    ghost cmp = { slice_cmp nat_cmp };

    ghost total = { nat_list_cmp_total };

    ghost matches_partial_cmp = { λ a b. refl };

    ghost matches_eq = { texts_ties };

    fn cmp(&self, other: &QueueName) -> Ordering {
        self.as_bytes().cmp(other.as_bytes())
    }
}

impl Hash for QueueName {
    ghost hash_input = { fed.str };

    ghost respects_eq = { Prim.search (hashing, rules) };

    fn hash<H: Hasher>(&self, state: &mut H) {
        state.write(self.as_bytes());
        state.write_u8(255);
    }
}

// The text, and zeros after it.
fn padded(text: &[u8]) -> [u8; 80]
    requires { length text.now ≤ 80 }
    ensures { result ≡ text.now ++ replicate (80 - length text.now) 0 }
{
    let mut bytes = [0u8; 80];
    bytes[..text.len()].copy_from_slice(text);
    bytes
}

#[tactic(auto, unfolding(crate::specs::Names::is_name_byte))]
fn is_name_byte(b: u8) -> bool
    ensures { result ≡ is_name_byte b }
{
    matches!(b, b'a'..=b'z' | b'A'..=b'Z' | b'0'..=b'9' | b'-' | b'_')
}

fn has_name_bytes(text: &[u8]) -> bool
    ensures { result ≡ list_all is_name_byte text.now }
{
    text.iter().all(|b| is_name_byte(*b))
}
