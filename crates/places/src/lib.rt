//! Sets of up to 64 places, each a machine word, and what their places weigh.
#![tactic(auto)]

pub mod scales;
pub mod set;

/// A set of places from 1 to 64; the lowest bit stands for place 1.
#[derive(Clone, Copy, PartialEq, Eq, Debug)]
pub struct PlaceSet {
    bits: u64,
}
