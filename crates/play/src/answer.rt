//! What calls are answered, and why a list of calls is not played to its end.
ghost use Rattle.std.specs.Prelude.{◌≡◌};
ghost use Rattle.play.specs.declared.answer.Stopped.TheVariants.{NoMemory};

use fault::Fault;
use solver::End;
use std::alloc::{AllocError, AllocFailed};

/// What a call was answered that no check denies: that it was taken; the bounds of a cell; or how a settling ended, the cuts that it made, and
/// the row that it found, if any. End and cuts stand apart, since a `Settled` would make each answer a sixth longer.
#[derive(Drop)]
pub enum Reply<C> {
    Taken,
    Shown(C),
    Ended(End, usize, Vec<C>),
}

/// What a call was answered: a reply, or the fault by which it was denied.
pub type Answer<C> = Result<Reply<C>, Fault>;

/// Why not all calls were played.
#[derive(Clone, Copy)]
pub enum Stopped {
    /// The call at this place, counted from 0, asks for more memory than was supplied.
    Short(usize),
    /// The allocator refused.
    NoMemory,
}

// As for `fault::Failure`, which is refused by a fault where this stops at a call: one type for both is no plainer.
impl From<AllocError> for Stopped {
    ghost from_gives = { λ _ r. r ≡ NoMemory };

    fn from(_error: AllocError) -> Stopped {
        Stopped::NoMemory
    }
}

impl<T: Drop> From<AllocFailed<T>> for Stopped {
    ghost from_gives = { λ _ r. r ≡ NoMemory };

    fn from(_error: AllocFailed<T>) -> Stopped {
        Stopped::NoMemory
    }
}
