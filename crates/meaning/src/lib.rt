//! What resting bounds, whole matches and a search mean, and what follows from the laws for every kind of cell and every propagator.
#![tactic(auto)]

ghost use Rattle.meaning.specs.Theorems.{RestingTheorems, SearchTheorems};

use domain::{Domain, Halves};
use engine::Propagator;

/// Of every kind of cell and every propagator: what holds of resting bounds, and of the widest of them.
pub fn resting_theorems<C: Domain, B, R: Propagator<C, B>>(book: &B)
    ensures { RestingTheorems C.Domain R.Propagator book.now }
{}

/// Of every kind of cell with halves and every propagator: what holds of a search.
pub fn search_theorems<C: Halves, B, R: Propagator<C, B>>(book: &B)
    ensures { SearchTheorems C.Domain C.Halves.own R.Propagator book.now }
{}
