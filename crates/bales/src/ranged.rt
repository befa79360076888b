//! Numbers whose range is part of their type.

ghost use Rattle.std.proofs.Common.{lit≤};
ghost use Rattle.std.specs.Prelude.{◌≡◌, ℕ, ◌≤◌, ⊤, Some, decimal};
ghost use Rattle.bales.specs.Ranges.{InRange};

use std::alloc::AllocError;
use std::fmt;
use std::marker::PhantomData;

/// A type of numbers from `low` to `high`; no number of a ticket is above 1,000,000.
pub trait FromNumber: Copy {
    ghost low: { ℕ };

    ghost high: { ℕ };

    /// The number that a value stands for.
    ghost figure: { Self → ℕ };

    /// The value of a number, or nothing where the number is out of range.
    fn from_number(number: u32) -> Option<Self>
    where
        Self: Sized,
        ensures { InRange low high figure number result };

    ghost small: { high ≤ 1000000 };
}

/// What a number counts, and from where to where it may go; no number of a ticket is above 1,000,000.
pub trait Range: Copy {
    const LOW: u32;

    const HIGH: u32;

    /// How `{:?}` calls a number of the range, and what it counts; a range need not say.
    const NAME: &'static str = "Ranged";

    const FIELD: &'static str = "number";

    ghost LOW: { ℕ };

    ghost HIGH: { ℕ };

    ghost small: { HIGH ≤ 1000000 };
}

/// A number of a range.
#[derive_where(Copy, PartialEq, Eq)]
pub struct Ranged<R: Range> {
    number: u32,
    of: PhantomData<R>,
    ghost least: { R.LOW ≤ number },
    ghost most: { number ≤ R.HIGH },
}

// By hand: a derive of `Clone` is refused beside ghost fields that cite a bound.
impl<R: Range> Clone for Ranged<R> {
    ghost is_clone = { λ x copy. copy ≡ x };

    ghost is_infallible = { λ _. ⊤ };

    fn clone(&self) -> Result<Ranged<R>, AllocError> {
        Ok(*self)
    }
}

impl<R: Range> Ranged<R> {
    /// The value of a number, or nothing where the number is out of range. No `TryFrom`: what is refused, and where, the caller says.
    pub fn from_number(number: u32) -> Option<Ranged<R>>
        ensures { InRange R.LOW R.HIGH (λ x. x.number) number result }
    {
        if R::LOW <= number && number <= R::HIGH {
            Some(Ranged {
                number,
                of: PhantomData,
            })
        } else {
            None
        }
    }

    pub fn get(self) -> u32
        ensures { result ≡ self.number }
    {
        self.number
    }
}

impl<R: Range> FromNumber for Ranged<R> {
    ghost low = { R.LOW };

    ghost high = { R.HIGH };

    ghost figure = { λ x. x.number };

    ghost small = { R.small };

    fn from_number(number: u32) -> Option<Ranged<R>> {
        Ranged::from_number(number)
    }
}

// By hand: a derive would call all ranges by one name.
impl<R: Range> fmt::Debug for Ranged<R> {
    fn fmt<W: fmt::Write>(&self, f: &mut fmt::Formatter<W>) -> fmt::Result {
        f.debug_struct(R::NAME)
            .field(R::FIELD, &self.number)
            .finish()
    }
}

impl<R: Range> fmt::Display for Ranged<R> {
    ghost output = { λ x. Some (decimal x.number) };

    fn fmt<W: fmt::Write>(&self, f: &mut fmt::Formatter<W>) -> fmt::Result {
        write!(f, "{}", self.number)
    }
}

#[cfg(test)]
mod tests {
    use super::super::bale::{Place, Weight};
    use super::{Range, Ranged};
    use std::test::Fail;

    /// A range that says only from where to where it goes.
    #[derive(Clone, Copy)]
    struct Digits;

    impl Range for Digits {
        const LOW: u32 = 1;

        const HIGH: u32 = 9;

        ghost LOW = { 1 };

        ghost HIGH = { 9 };

        ghost small = { lit≤ tt };
    }

    #[test]
    fn is_shown_by_its_name(rt: HostRuntime) -> Result<(), Fail> {
        let (Some(place), Some(weight)) = (Place::from_number(7), Weight::from_number(480)) else {
            return Err(Fail::new("not in range"));
        };
        let shown = format!(in rt.alloc(); "{place:?} {weight:?}")?;
        assert_eq!(rt;
            shown.as_str(),
            "Place { number: 7 } Weight { pounds: 480 }"
        );
        Ok(())
    }

    #[test]
    fn needs_no_name(rt: HostRuntime) -> Result<(), Fail> {
        let Some(digit) = Ranged::<Digits>::from_number(7) else {
            return Err(Fail::new("not in range"));
        };
        let shown = format!(in rt.alloc(); "{digit} {digit:?}")?;
        assert_eq!(rt; shown.as_str(), "7 Ranged { number: 7 }");
        assert!(rt; Ranged::<Digits>::from_number(10).is_none());
        Ok(())
    }
}
