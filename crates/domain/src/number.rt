//! Numbers from 0 to 1,000,000 as a kind of cell.
ghost use Rattle.std.specs.Prelude.{◌≡◌, ◌<◌, ◌≤◌, Some, None};
ghost use Rattle.domain.specs.Numbers.{NumberAllows, number_sample, number_inside, number_height, NumberPasses, number_of, number_meet, middle, number_first, number_second};
ghost use Rattle.domain.specs.NumbersLemmas.{number-bounds, number-heights, number-tells, number-halves};

use super::bounds::{Number, NumberTell};
use super::kind::{Domain, Halves};

/// The highest value of a number cell.
pub const HIGHEST: u32 = 1_000_000;

impl Number {
    /// The values from `low` to `high`; nothing where `low` is above `high`, or `high` above 1,000,000.
    pub fn new(low: u32, high: u32) -> Option<Number>
        ensures { elim result [ Some n ↦ (n.low ≡ low) × (n.high ≡ high) | None ↦ (low ≤ high → high ≤ 1000000 → ⊥) ] }
    {
        if low <= high && high <= HIGHEST {
            Some(Number { low, high })
        } else {
            None
        }
    }

    // The values from `low` on that are below `end`, or nothing where there are none.
    fn of(low: u32, end: u32) -> Option<Number>
        requires { end ≤ 1000001 }
        ensures { result ≡ number_of low end }
    {
        if low < end {
            Some(Number { low, high: end - 1 })
        } else {
            None
        }
    }

    // Where a number is split.
    fn middle(self) -> u32
        ensures { result ≡ middle self }
    {
        (self.low + self.high) / 2
    }

    // The values up to the middle.
    fn up_to(self, at: u32) -> Number
        requires { at ≡ middle self }
        ensures { result ≡ number_first self }
    {
        Number {
            low: self.low,
            high: at,
        }
    }

    // The values above the middle; the one value of a single number.
    fn above(self, at: u32) -> Number
        requires { at ≡ middle self }
        ensures { result ≡ number_second self }
    {
        Number {
            low: (at + 1).min(self.high),
            high: self.high,
        }
    }
}

impl Domain for Number {
    type Value = u32;

    type Tell = NumberTell;

    ghost allows = { NumberAllows };

    ghost sample = { number_sample };

    ghost inside = { number_inside };

    ghost height = { number_height };

    ghost passes = { NumberPasses };

    ghost meet = { number_meet };

    ghost bounds = { number-bounds };

    ghost heights = { number-heights };

    ghost tells = { number-tells };

    fn is_single(self) -> bool {
        self.low == self.high
    }

    fn is_inside(self, other: Self) -> bool {
        other.low <= self.low && self.high <= other.high
    }

    fn told(self, tell: NumberTell) -> Option<Self> {
        Number::of(self.low.max(tell.raise), (self.high + 1).min(tell.below))
    }
}

impl Halves for Number {
    ghost before = { ◌<◌ };

    ghost first = { number_first };

    ghost second = { number_second };

    ghost halves = { number-halves };

    fn first_half(self) -> Self {
        self.up_to(self.middle())
    }

    fn second_half(self) -> Self {
        self.above(self.middle())
    }
}
