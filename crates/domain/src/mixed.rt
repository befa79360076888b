//! Cells of either of two kinds, which are a kind again.
ghost use Rattle.domain.specs.Mixes.{MixAllows, mix_inside, MixBefore, mix_height, mix_sample, mix_half, MixPasses, mix_meet};
ghost use Rattle.domain.specs.MixesLemmas.{mix-bounds, mix-heights, mix-tells, mix-halves};

use super::kind::{Domain, Halves};

/// A value, or what is told, of either of two sorts.
#[derive(Clone, Copy)]
pub enum Either<U, V> {
    Left(U),
    Right(V),
}

/// Bounds of either of two kinds.
#[derive(Clone, Copy)]
pub enum Mixed<A, B> {
    First(A),
    Second(B),
}

impl<A: Domain, B: Domain> Domain for Mixed<A, B> {
    type Value = Either<A::Value, B::Value>;

    type Tell = Either<A::Tell, B::Tell>;

    ghost allows = { MixAllows A.Domain.allows B.Domain.allows };

    ghost sample = { mix_sample A.Domain.sample B.Domain.sample };

    ghost inside = { mix_inside A.Domain.inside B.Domain.inside };

    ghost height = { mix_height A.Domain.height B.Domain.height };

    ghost passes = { MixPasses A.Domain.passes B.Domain.passes };

    ghost meet = { mix_meet A.Domain.meet B.Domain.meet };

    ghost bounds = { mix-bounds A.Domain.bounds B.Domain.bounds };

    ghost heights = { mix-heights A.Domain.bounds B.Domain.bounds A.Domain.heights B.Domain.heights };

    ghost tells = { mix-tells A.Domain.tells B.Domain.tells };

    fn is_single(self) -> bool {
        match self {
            Mixed::First(a) => a.is_single(),
            Mixed::Second(b) => b.is_single(),
        }
    }

    fn is_inside(self, other: Self) -> bool {
        match (self, other) {
            (Mixed::First(a), Mixed::First(b)) => a.is_inside(b),
            (Mixed::Second(a), Mixed::Second(b)) => a.is_inside(b),
            _ => false,
        }
    }

    /// What is told to the other kind lets the bounds be.
    fn told(self, tell: Either<A::Tell, B::Tell>) -> Option<Self> {
        match (self, tell) {
            (Mixed::First(a), Either::Left(t)) => Some(Mixed::First(a.told(t)?)),
            (Mixed::Second(b), Either::Right(t)) => Some(Mixed::Second(b.told(t)?)),
            _ => Some(self),
        }
    }
}

impl<A: Halves, B: Halves> Halves for Mixed<A, B> {
    ghost before = { MixBefore A.Halves.before B.Halves.before };

    ghost first = { mix_half A.Halves.first B.Halves.first };

    ghost second = { mix_half A.Halves.second B.Halves.second };

    ghost halves = { mix-halves A.Halves.halves B.Halves.halves };

    fn first_half(self) -> Self {
        match self {
            Mixed::First(a) => Mixed::First(a.first_half()),
            Mixed::Second(b) => Mixed::Second(b.first_half()),
        }
    }

    fn second_half(self) -> Self {
        match self {
            Mixed::First(a) => Mixed::First(a.second_half()),
            Mixed::Second(b) => Mixed::Second(b.second_half()),
        }
    }
}
