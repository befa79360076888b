//! The words of the match sheet that speak of groups of bales, and what makes a propagator of a word.
#![tactic(auto)]

pub mod cell;
pub mod member;
pub mod members;
pub mod pair;
pub mod pairs;
pub mod part;
pub mod triple;
pub mod triples;

pub use cell::Cell;
pub use member::{Member, Membership};
pub use members::{Has, Lacks};
pub use pair::{Binary, Pair};
pub use pairs::{Apart, Same, Sub};
pub use part::Holds;
pub use triple::{Ternary, Triple};
pub use triples::{Both, Less, Union};
