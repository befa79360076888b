//! The kinds of cell, with the laws that each kind shows.
ghost use Rattle.std.specs.Prelude.{◌≡◌, ℕ, Bool, T, Option, ◌==◌};
ghost use Rattle.domain.specs.Laws.{BoundsLaws, HeightLaws, HalvesLaws};
ghost use Rattle.domain.specs.Tells.{TellLaws};
ghost use Rattle.domain.specs.Counted.{Counting};

/// A kind of cell: bounds that allow some values, and are narrowed by what they are told.
pub trait Domain: Copy {
    /// What a cell holds once it is decided.
    type Value;
    /// What a propagator tells a cell; a value passes it or does not.
    type Tell: Copy;

    // The values that the bounds allow.
    ghost allows: { Self → Self.Value → Type 0 };

    // One of them: no bounds are empty.
    ghost sample: { Self → Self.Value };

    // Do the second bounds allow all values of the first?
    ghost inside: { Self → Self → Bool };

    // How far the bounds are from being single.
    ghost height: { Self → ℕ };

    // The values that pass what is told.
    ghost passes: { Self.Tell → Self.Value → Type 0 };

    // What is left of bounds that are told something.
    ghost meet: { Self.Tell → Self → Option Self };

    /// Is one value allowed, and no more?
    fn is_single(self) -> bool
        ensures { result ≡ (height self == 0) };

    /// Does the other allow all that these bounds allow?
    fn is_inside(self, other: Self) -> bool
        ensures { result ≡ inside self other };

    /// The bounds of those values that pass what is told, or nothing where none does.
    fn told(self, tell: Self::Tell) -> Option<Self>
    where
        Self: Sized,
        ensures { result ≡ meet tell self };

    /// Are they the same bounds? The laws say so without a bound `Eq`, which would ask more of each kind.
    fn same(self, other: Self) -> bool
    where
        Self: Sized,
        ensures { (T result → self ≡ other) × (self ≡ other → T result) }
    {
        self.is_inside(other) && other.is_inside(self)
    }

    ghost bounds: { BoundsLaws allows sample inside };

    ghost heights: { HeightLaws allows height };

    ghost tells: { TellLaws allows passes meet };
}

/// A kind of cell that can be searched: bounds not single are split into two halves, in the order of their values.
pub trait Halves: Domain {
    // The order of values.
    ghost before: { Self.Value → Self.Value → Type 0 };

    // The half with the values that come first.
    ghost first: { Self → Self };

    // The half with those that come last.
    ghost second: { Self → Self };

    /// The half with the values that come first. Bounds that are single have none, and may come back as they are.
    fn first_half(self) -> Self
        ensures { result ≡ first self };

    /// The half with the values that come last. Bounds that are single have none, and may come back as they are.
    fn second_half(self) -> Self
        ensures { result ≡ second self };

    ghost halves: { HalvesLaws Self.Domain.allows Self.Domain.height before first second };
}

/// Of every kind of cell: the values that bounds allow can be listed in order, and there is but one count of them.
pub fn values_counted<D: Halves>(bounds: D)
    ensures { Counting D.Domain.allows D.Domain.height D.Halves.before D.Halves.first D.Halves.second bounds }
{}
