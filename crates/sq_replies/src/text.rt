//! The text of a reply.
ghost use Rattle.std.specs.Prelude.{◌≡◌};
ghost use Rattle.std.specs.Str.{IsAscii};

use std::marker::Model;

#[derive(Drop)]
enum Kept {
    Made(Vec<u8>),
    Fixed(&'static str),
}

/// The text of a reply, without its line feed: one that was made, or a fixed one, which takes no
/// memory.
#[derive(Drop)]
pub struct Text {
    kept: Kept,
}

impl Model for Text {
    ghost use Rattle.std.specs.Prelude.{ℕ, List};

    ghost Value = { List ℕ };

    ghost use Rattle.sq_replies.specs.Texts.{kept_bytes};

    ghost view = { λ t. kept_bytes t.kept };
}

impl Text {
    /// A text that was made.
    pub fn made(text: Vec<u8>) -> Text
        ensures { result ≡ text.items }
    {
        Text {
            kept: Kept::Made(text),
        }
    }

    /// A text that stands in the program.
    pub fn fixed(text: &'static str) -> Text
        ensures { result ≡ text.entry.now }
    {
        Text {
            kept: Kept::Fixed(text),
        }
    }

    pub fn as_bytes(&self) -> &[u8]
        ensures { result.now ≡ self.now }
    {
        match &self.kept {
            Kept::Made(text) => text.as_slice(),
            Kept::Fixed(text) => text.as_bytes(),
        }
    }
}

/// ASCII bytes as a text.
pub fn ascii_text(bytes: &[u8]) -> &str
    requires { IsAscii bytes.now }
    ensures { result.now ≡ bytes.now }
{
    match str::from_utf8(bytes) {
        Ok(text) => text,
        Err(_) => "",
    }
}
