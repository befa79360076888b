//! Histories of calls to a sheet: what each call may answer, and what is promised of them all.
#![tactic(auto)]

ghost use Rattle.history.specs.Promise.{Promised};

use domain::{Domain, Halves};
use engine::Propagator;

pub mod call;
pub mod entered;

pub use call::Call;
pub use entered::{Barred, Entered};

/// Every history of calls to a new sheet keeps the promise, whatever the kind of cell, the propagators and what is entered.
pub fn promise_kept<C: Halves, B, R: Propagator<C, B>, E: Entered<C, B>>()
    ensures { Promised C.Domain C.Halves.own R.Propagator E.Entered }
{}
