//! The small pieces of a ticket's text, read and written: parts, numbers and lists of places.
#![tactic(auto)]

pub mod list;
pub mod numbers;
pub mod parts;

pub use list::PlaceList;
