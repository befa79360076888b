//! The fixpoint of propagators over rows of cells, and the search over the caller's stack.
#![tactic(auto)]

pub mod fixpoint;
mod naming;
mod network;
mod node;
pub mod search;
mod stack;

pub use fixpoint::{rest, rest_newest};
pub use search::{End, Settled, settle};
