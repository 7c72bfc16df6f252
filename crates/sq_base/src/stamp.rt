//! Stamps: what a history is ordered by.
ghost use Rattle.std.specs.Prelude.{◌≡◌, ◌↔◌, true};
ghost use Rattle.sq_base.specs.StampValue.{StampValue};
ghost use Rattle.sq_base.specs.Stamps as stamps;

use crate::refusal::Refusal;
use std::marker::Model;

/// No moment and no count of a stamp is this or above; no clock reading that is served either, in ms. Own.
pub const STAMP_END: u64 = 4_611_686_018_427_387_904;

/// A moment in ms, and the place among what has this moment; both are below 2^62. Own.
#[derive(Clone, Copy, PartialEq, Eq, PartialOrd, Ord, Debug)]
pub struct Stamp {
    pub moment: u64,
    pub count: u64,
}

impl Model for Stamp {
    ghost use Rattle.std.specs.Prelude.{ℕ, ◌<◌};
    ghost use Rattle.sq_base.specs.StampValue.{StampValue};
    ghost use Rattle.sq_base.specs.Stamps.{stamp_end};

    ghost Value = { StampValue };

    ghost view = { λ s. record { moment = s.moment; count = s.count } };

    ghost inverse = { λ v. record { moment = v.moment; count = v.count } };

    ghost invariant = { λ s. (s.moment < stamp_end) × (s.count < stamp_end) };
}

impl Stamp {
    /// The least stamp: moment 0, count 0.
    pub fn start() -> Stamp
        ensures { result ≡ stamps.start }
    {
        Stamp {
            moment: 0,
            count: 0,
        }
    }

    /// The least stamp above `a` and `b` whose moment is not before `now`, in ms. ClockRange where
    /// `now` is 2^62 or above, else Worn where the count would be 2^62.
    pub fn after(a: Stamp, b: Stamp, now: u64) -> Result<Stamp, Refusal>
        ensures { result ≡ stamps.after a b now }
    {
        if now >= STAMP_END {
            return Err(Refusal::ClockRange);
        }
        let moment = a.moment.max(b.moment).max(now);
        let count = next_at(a, moment).max(next_at(b, moment));
        if count >= STAMP_END {
            return Err(Refusal::Worn);
        }
        Ok(Stamp { moment, count })
    }

    /// Whether the stamp is below another, as `<` tests it: by moment, and then by count.
    pub fn is_below(self, other: Stamp) -> bool
        ensures { result ≡ true ↔ stamps.Below self other }
    {
        self < other
    }
}

/// The order that `<`, `sort` and maps go by is that of `stamp_cmp`. It does nothing: its contract is
/// the law.
pub fn derived_order()
    ensures { (a b : StampValue) → ⟦<Stamp as Ord>⟧.cmp a b ≡ stamps.stamp_cmp a b }
{}

// One more than the count of a stamp at the moment, else 0.
fn next_at(a: Stamp, moment: u64) -> u64
    ensures { result ≡ stamps.next_at a moment }
{
    if a.moment == moment { a.count + 1 } else { 0 }
}
