//! The words over numbers: sum and most.
ghost use Rattle.amounts.specs.Numbers.{sum_tells, SumHolds, most_tells, MostHolds};
ghost use Rattle.amounts.specs.NumberLaws.{sum-laws, most-laws};

use domain::{Number, NumberTell};
use words::{Binary, Ternary};

/// The first number and the second together are the third.
#[derive(Clone, Copy)]
pub struct Sum;

/// The first number is at most the second.
#[derive(Clone, Copy)]
pub struct Most;

impl<B> Ternary<B> for Sum {
    type Kind = Number;

    ghost holds = { λ b. SumHolds };

    ghost tells = { λ b. sum_tells };

    ghost laws = { λ b. sum-laws };

    fn tells(_: &B, u: Number, v: Number, sum: Number) -> (NumberTell, NumberTell, NumberTell) {
        (
            NumberTell {
                raise: sum.low.saturating_sub(v.high),
                below: (sum.high + 1).saturating_sub(v.low),
            },
            NumberTell {
                raise: sum.low.saturating_sub(u.high),
                below: (sum.high + 1).saturating_sub(u.low),
            },
            NumberTell {
                raise: u.low + v.low,
                below: u.high + v.high + 1,
            },
        )
    }
}

impl<B> Binary<B> for Most {
    type First = Number;

    type Second = Number;

    ghost holds = { λ b. MostHolds };

    ghost tells = { λ b. most_tells };

    ghost laws = { λ b. most-laws };

    fn tells(_: &B, least: Number, most: Number) -> (NumberTell, NumberTell) {
        let both = NumberTell {
            raise: least.low,
            below: most.high + 1,
        };
        (both, both)
    }
}
