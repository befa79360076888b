//! Why a whole piece of work fails: it is refused, or memory cannot be had.

ghost use Rattle.std.specs.Prelude.{◌≡◌};
ghost use Rattle.fault.specs.declared.failure.Failure.TheVariants.{NoMemory};

use super::Fault;
use std::alloc::{AllocError, AllocFailed as Unplaced};
use std::fmt;

/// A refusal of the whole, or the one failure that no contract rules out: want of memory.
#[derive(Clone, Copy)]
pub enum Failure {
    Refused(Fault),
    NoMemory,
}

// Three alike: one over a trait of these errors would want an impl of the trait for each, which is no plainer.
impl From<AllocError> for Failure {
    ghost from_gives = { λ _ r. r ≡ NoMemory };

    fn from(_error: AllocError) -> Failure {
        Failure::NoMemory
    }
}

impl<T: Drop> From<Unplaced<T>> for Failure {
    ghost from_gives = { λ _ r. r ≡ NoMemory };

    fn from(_error: Unplaced<T>) -> Failure {
        Failure::NoMemory
    }
}

/// A text that takes no more has found no memory.
impl From<fmt::Error> for Failure {
    ghost from_gives = { λ _ r. r ≡ NoMemory };

    fn from(_error: fmt::Error) -> Failure {
        Failure::NoMemory
    }
}
