//! The digest of a body.
ghost use Rattle.std.specs.Prelude.{◌≡◌};
ghost use Rattle.std.specs.Str.{IsAscii};
ghost use Rattle.hex.specs.Hex.{encode_lower};
ghost use Rattle.md5.specs.Md5.{md5};

use sq_base::body::{Body, body_md5};
use std::marker::Model;

/// The MD5 digest of a body in hexadecimal digits (SQS API Reference, MD5OfMessageBody).
#[derive(Drop)]
pub struct Digest {
    digits: [u8; 32],
}

impl Model for Digest {
    ghost use Rattle.std.specs.Prelude.{ℕ, List};
    ghost use Rattle.std.specs.Str.{IsAscii};

    ghost Value = { List ℕ };

    ghost view = { λ d. d.digits };

    ghost invariant = { λ d. IsAscii d.digits };
}

impl Digest {
    pub fn of(body: &Body) -> Digest
        ensures { result ≡ encode_lower (md5 body.now) }
    {
        Digest {
            digits: body_md5(body),
        }
    }

    /// The digits, all of them ASCII.
    pub fn digits(&self) -> &[u8]
        ensures digits { result.now ≡ self.now }
        ensures ascii { IsAscii result.now }
    {
        &self.digits
    }
}
