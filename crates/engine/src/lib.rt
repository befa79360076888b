//! Propagators over rows of cells: their laws, and what each tells the cells that it names.
#![tactic(auto)]

pub mod contradiction;
pub mod field;
pub mod misfit;
pub mod propagator;
pub mod telling;

pub use contradiction::Contradiction;
pub use field::{Field, Misfit, Reason};
pub use misfit::first_misfit;
pub use propagator::Propagator;
pub use telling::{cell_at, tell_all, tell_one, tell_three, tell_two, told_together};
