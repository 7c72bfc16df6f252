//! Numbers of queues, homes and rows.
ghost use Rattle.std.specs.Prelude.{◌≡◌, ◌+◌, ◌==◌, ◌<◌, ◌≤◌, nat_lt, nat_le, ◌&&◌, if◌then◌else◌, Some, None};
ghost use Rattle.std.proofs.Common.{rules};
ghost use Rattle.std.specs.Cmp.{partial_order_from_own_ties};
ghost use Rattle.std.specs.Cmp.Rules.{comparing};
ghost use Rattle.std.specs.Ordering.{as_partial_cmp, nat_cmp};

use std::cmp::Ordering;
use std::marker::Model;

/// The number of a queue, from 1 to 2^48 - 1. Own. In three parts, so that it takes six bytes and lies anywhere.
#[derive(Clone, Copy, Debug)]
pub struct QueueNo {
    high: u16,
    middle: u16,
    low: u16,
}

impl Model for QueueNo {
    ghost use Rattle.std.specs.Prelude.{ℕ, ◌+◌, ◌*◌, ◌/◌, ◌%◌, ◌<◌, ◌≤◌};
    ghost use Rattle.std.proofs.Common.{ap, ◌∙◌};
    ghost use Rattle.std.proofs.lemmas.Nat.{div-mul-add, mod-mul-add};

    ghost Value = { ℕ };

    ghost view = { λ q. (q.high * 65536 + q.middle) * 65536 + q.low };

    ghost inverse = { λ n. record { high = n / 65536 / 65536; middle = n / 65536 % 65536; low = n % 65536 } };

    ghost inverse_ok = { λ q h i. record {
      high = (ap (λ (n : ℕ). n / 65536) (div-mul-add (q.high * 65536 + q.middle) 65536 q.low h.1) ∙ div-mul-add q.high 65536 q.middle h.0) i;
      middle = (ap (λ (n : ℕ). n % 65536) (div-mul-add (q.high * 65536 + q.middle) 65536 q.low h.1) ∙ mod-mul-add q.high 65536 q.middle h.0) i;
      low = mod-mul-add (q.high * 65536 + q.middle) 65536 q.low h.1 i;
    } };

    ghost invariant = { λ q. (q.middle < 65536) × (q.low < 65536) × (1 ≤ (q.high * 65536 + q.middle) * 65536 + q.low) × ((q.high * 65536 + q.middle) * 65536 + q.low < 281474976710656) };
}

impl PartialEq for QueueNo {
    ghost eq = { λ a b. a == b };

    ghost laws = { Prim.search (comparing, rules) };

    fn eq(&self, other: &QueueNo) -> bool {
        self.get() == other.get()
    }
}

impl Eq for QueueNo {
    ghost laws = { Prim.search (comparing, rules) };
}

impl Ord for QueueNo {
    ghost cmp = { nat_cmp };

    ghost total = { Prim.search (comparing, rules) };

    ghost matches_partial_cmp = { Prim.search (comparing, rules) };

    ghost matches_eq = { Prim.search (comparing, rules) };

    fn cmp(&self, other: &QueueNo) -> Ordering {
        self.get().cmp(&other.get())
    }
}

impl PartialOrd for QueueNo {
    ghost partial_cmp = { as_partial_cmp nat_cmp };

    ghost laws = { partial_order_from_own_ties (Prim.search (comparing, rules)) (Prim.search (comparing, rules)) };

    fn partial_cmp(&self, other: &QueueNo) -> Option<Ordering> {
        Some(self.cmp(other))
    }
}

impl QueueNo {
    /// The queue of a number, where it is from 1 to 2^48 - 1.
    pub fn new(number: u64) -> Option<QueueNo>
        ensures { result ≡ (if nat_le 1 number && nat_lt number 281474976710656 then Some number else None) }
    {
        if 1 <= number && number < 281_474_976_710_656 {
            Some(QueueNo::of(number))
        } else {
            None
        }
    }

    fn of(number: u64) -> QueueNo
        requires least { 1 ≤ number }
        requires below { number < 281474976710656 }
        ensures { result ≡ number }
    {
        QueueNo {
            high: (number / 65536 / 65536) as u16,
            middle: (number / 65536 % 65536) as u16,
            low: (number % 65536) as u16,
        }
    }

    /// The queue whose number is one more.
    pub fn following(index: u32) -> QueueNo
        ensures { result ≡ index + 1 }
    {
        QueueNo::of(index as u64 + 1)
    }

    /// The number, from 1 to 2^48 - 1.
    pub fn get(self) -> u64
        ensures value { result ≡ self }
        ensures least { 1 ≤ self }
        ensures below { self < 281474976710656 }
    {
        let QueueNo { high, middle, low } = self;
        (high as u64 * 65536 + middle as u64) * 65536 + low as u64
    }
}

/// The number of a home, below 16. Own.
#[derive(Clone, Copy, PartialEq, Eq, PartialOrd, Ord, Debug)]
pub struct HomeNo(u8);

impl Model for HomeNo {
    ghost use Rattle.std.specs.Prelude.{ℕ, ◌<◌};

    ghost Value = { ℕ };

    ghost view = { λ h. h.0 };

    ghost inverse = { λ n. record { 0 = n } };

    ghost invariant = { λ h. h.0 < 16 };
}

impl HomeNo {
    /// The home of a number, where it is below 16.
    pub fn new(number: u64) -> Option<HomeNo>
        ensures { result ≡ (if nat_lt number 16 then Some number else None) }
    {
        if number < 16 {
            Some(HomeNo(number as u8))
        } else {
            None
        }
    }

    /// A number that is known to be below 16.
    pub fn of(number: u8) -> HomeNo
        requires { number < 16 }
        ensures { result ≡ number }
    {
        HomeNo(number)
    }

    /// The first home of a queue.
    pub fn first() -> HomeNo
        ensures { result ≡ 0 }
    {
        HomeNo(0)
    }

    /// The number, from 0 to 15.
    pub fn get(self) -> u8
        ensures value { result ≡ self }
        ensures below { self < 16 }
    {
        let HomeNo(number) = self;
        number
    }
}

/// The number that a home gives to a row, below 2^62. Own. In two parts, so that it lies beside other numbers without a gap.
#[derive(Clone, Copy, Debug)]
pub struct Serial {
    high: u32,
    low: u32,
}

impl Model for Serial {
    ghost use Rattle.std.specs.Prelude.{ℕ, ◌+◌, ◌*◌, ◌/◌, ◌%◌, ◌<◌};
    ghost use Rattle.std.proofs.lemmas.Nat.{div-mul-add, mod-mul-add};

    ghost Value = { ℕ };

    ghost view = { λ s. s.high * 4294967296 + s.low };

    ghost inverse = { λ n. record { high = n / 4294967296; low = n % 4294967296 } };

    ghost inverse_ok = { λ s h i. record {
      high = div-mul-add s.high 4294967296 s.low h.0 i;
      low = mod-mul-add s.high 4294967296 s.low h.0 i;
    } };

    ghost invariant = { λ s. (s.low < 4294967296) × (s.high * 4294967296 + s.low < 4611686018427387904) };
}

impl PartialEq for Serial {
    ghost eq = { λ a b. a == b };

    ghost laws = { Prim.search (comparing, rules) };

    fn eq(&self, other: &Serial) -> bool {
        self.get() == other.get()
    }
}

impl Eq for Serial {
    ghost laws = { Prim.search (comparing, rules) };
}

impl Ord for Serial {
    ghost cmp = { nat_cmp };

    ghost total = { Prim.search (comparing, rules) };

    ghost matches_partial_cmp = { Prim.search (comparing, rules) };

    ghost matches_eq = { Prim.search (comparing, rules) };

    fn cmp(&self, other: &Serial) -> Ordering {
        self.get().cmp(&other.get())
    }
}

impl PartialOrd for Serial {
    ghost partial_cmp = { as_partial_cmp nat_cmp };

    ghost laws = { partial_order_from_own_ties (Prim.search (comparing, rules)) (Prim.search (comparing, rules)) };

    fn partial_cmp(&self, other: &Serial) -> Option<Ordering> {
        Some(self.cmp(other))
    }
}

impl Serial {
    /// The serial of a number, where it is below 2^62.
    pub fn new(number: u64) -> Option<Serial>
        ensures { result ≡ (if nat_lt number 4611686018427387904 then Some number else None) }
    {
        if number < 4_611_686_018_427_387_904 {
            Some(Serial {
                high: (number / 4_294_967_296) as u32,
                low: (number % 4_294_967_296) as u32,
            })
        } else {
            None
        }
    }

    /// The serial that a home gives first.
    pub fn first() -> Serial
        ensures { result ≡ 0 }
    {
        Serial { high: 0, low: 0 }
    }

    /// The number, from 0 to 2^62 - 1.
    pub fn get(self) -> u64
        ensures value { result ≡ self }
        ensures below { self < 4611686018427387904 }
    {
        let Serial { high, low } = self;
        high as u64 * 4_294_967_296 + low as u64
    }
}

/// A home: its queue, and its number among the queue's homes.
#[derive(Clone, Copy, PartialEq, Eq, PartialOrd, Ord, Debug)]
pub struct HomeId {
    pub queue: QueueNo,
    pub home: HomeNo,
}
