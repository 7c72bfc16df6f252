//! The home that a session stays at for a while.
ghost use Rattle.std.specs.Prelude.{◌≡◌, ℕ, ◌<◌, ◌-◌, ◌==◌, ◌&&◌, IfSome, None, Some, if◌then◌else◌, length, nat_eq, nat_lt, position, slice_get, slice_set, swap};
ghost use Rattle.rand.specs.Sample.{IsSampleOf};

use sq_base::ids::HomeNo;
use sq_sample::sampler::HomeCount;

/// Sixteen choices in a row fall on a home, and the one after them falls anywhere.
const LONGEST: u8 = 17;

/// Where a session last sent or found a message. What lies there is near its processor, and other sessions seldom have its lock. Which
/// homes are chosen is not promised.
#[derive(Drop)]
pub(crate) struct Stay {
    home: HomeNo,
    /// How many more choices there are until one falls anywhere, that one among them; 0 where it stays nowhere.
    left: u8,
}

impl Stay {
    /// No home: the next choice is a random one.
    pub(crate) fn nowhere() -> Stay
        ensures { result.left ≡ 0 }
    {
        Stay {
            home: HomeNo::first(),
            left: 0,
        }
    }

    /// The home that the next choice falls on, if it stays at one.
    pub(crate) fn next(&mut self, homes: HomeCount) -> Option<HomeNo>
        ensures next { result ≡ (if nat_lt 1 self.old.left && nat_lt self.old.home homes then Some self.old.home else None) }
        ensures home { self.new.home ≡ self.old.home }
        ensures left { self.new.left ≡ self.old.left - 1 }
    {
        self.left = self.left.saturating_sub(1);
        if self.left > 0 && (self.home.get() as u32) < homes.get() {
            Some(self.home)
        } else {
            None
        }
    }

    /// A message was sent or found at a home: a stay there begins, or goes on. After its last choice it is over until one falls
    /// anywhere.
    pub(crate) fn begin(&mut self, home: HomeNo)
        ensures home { self.new.home ≡ home }
        ensures left { self.new.left ≡ (if nat_lt 0 self.old.left && nat_eq self.old.home home then self.old.left else 17) }
    {
        if self.left == 0 || self.home != home {
            *self = Stay {
                home,
                left: LONGEST,
            };
        }
    }

    /// No message was found at a home, or it refused: a stay there is over.
    pub(crate) fn end(&mut self, home: HomeNo)
        ensures home { self.new.home ≡ self.old.home }
        ensures left { self.new.left ≡ (if nat_eq self.old.home home then 0 else self.old.left) }
    {
        if self.home == home {
            self.left = 0;
        }
    }
}

/// Makes a home the first of those drawn: it changes places with the first one, or comes in for it if it is not among them.
pub(crate) fn begin_with(drawn: &mut Vec<HomeNo>, home: HomeNo, homes: HomeCount)
    requires below { home < homes }
    requires some { 0 < length drawn.old.items }
    requires sample { IsSampleOf homes (length drawn.old.items) drawn.old.items }
    ensures sample { IsSampleOf homes (length drawn.old.items) drawn.new.items }
    ensures first { slice_get drawn.new.items 0 ≡ Some home }
    ensures found { (at : ℕ) → position (λ it. it == home) drawn.old.items ≡ Some at → drawn.new.items ≡ swap drawn.old.items 0 at }
    ensures absent { position (λ it. it == home) drawn.old.items ≡ None → drawn.new.items ≡ slice_set drawn.old.items 0 home }
{
    match place_among(drawn, home) {
        Some(at) => drawn.swap(0, at),
        None => drawn[0] = home,
    }
}

// Where a home stands among these.
fn place_among(drawn: &[HomeNo], home: HomeNo) -> Option<usize>
    ensures place { result ≡ position (λ it. it == home) drawn.now }
    ensures within { IfSome result (λ at. at < length drawn.now) }
{
    drawn.iter().position(|it| *it == home)
}
