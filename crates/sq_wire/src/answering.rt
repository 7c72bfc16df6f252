//! Who answers lines.
ghost use Rattle.std.specs.Prelude.{ℕ, List, IfOk, OnErr};

use sq_replies::text::Text;
use std::alloc::{AllocError, Global};

/// Answers lines, one after another.
pub trait Answering {
    /// A line may have this text for its reply: on which state, the line, the text, and which state it leaves.
    ghost replies: { Self → List ℕ → List ℕ → Self → Type 0 };

    /// What a line asks is done, and there was no memory for the text of its reply.
    ghost unanswered: { Self → List ℕ → Self → Type 0 };

    /// What no line changes, as which reference is held.
    ghost keeps: { Self → Self → Type 0 };

    /// Does what a line asks, and gives the text of its reply, without its line feed.
    fn answer(&mut self, alloc: Global, line: &[u8]) -> Result<Text, AllocError>
        ensures kept { keeps self.old self.new }
        ensures ok { IfOk result (λ text. replies self.old line.now text self.new) }
        ensures err { OnErr result (unanswered self.old line.now self.new) };

    ghost keeps_none: { (s : Self) → keeps s s };

    ghost keeps_more: { (a b c : Self) → keeps a b → keeps b c → keeps a c };
}
