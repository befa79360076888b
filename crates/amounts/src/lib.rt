//! The words with numbers: count, weigh, sum and most.
#![tactic(auto)]

pub mod numbers;
pub mod scales;

pub use numbers::{Most, Sum};
pub use scales::{Count, Weigh};
