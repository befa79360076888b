//! Kinds of cell: bounds on a value, how they are narrowed by what they are told, and how they are split in two.
#![tactic(auto)]

pub mod bounds;
pub mod group;
pub mod kind;
pub mod mixed;
pub mod number;

pub use bounds::{BaleSet, Group, GroupTell, Number, NumberTell};
pub use kind::{Domain, Halves, values_counted};
pub use mixed::{Either, Mixed};
