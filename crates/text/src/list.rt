//! A list of places, as a set of bits.

pub mod read;
pub mod show;

ghost use Rattle.std.specs.Prelude.{◌^◌, ◌<◌};

/// Places from 1 to 99 in rising order, as a ticket lists them: place p is bit p - 1.
#[derive(Clone, Copy)]
pub struct PlaceList {
    bits: u128,
    ghost few: { bits < 2 ^ 99 },
}
