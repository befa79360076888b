//! What is known of a group and of a number, and what either can be told.
ghost use Rattle.std.specs.Prelude.{◌≡◌, ◌≤◌};
ghost use Rattle.places.specs.Members.{intersection};

use places::PlaceSet;

/// A set of bales, each named by its place: the value of a group.
#[derive(Clone, Copy)]
pub struct BaleSet {
    pub places: PlaceSet,
}

/// The bounds of a group: the bales that are surely in it, all of them among those that may be.
#[derive(Clone, Copy)]
pub struct Group {
    pub sure: PlaceSet,
    pub possible: PlaceSet,
    ghost ok: { intersection sure.bits possible.bits ≡ sure.bits },
}

/// The bounds of a number: its lowest and its highest value, which is at most 1,000,000.
#[derive(Clone, Copy)]
pub struct Number {
    pub low: u32,
    pub high: u32,
    ghost ok: { (low ≤ high) × (high ≤ 1000000) },
}

/// What a group is told: it has the bales of `gain`, and none but those of `keep`.
#[derive(Clone, Copy)]
pub struct GroupTell {
    pub gain: PlaceSet,
    pub keep: PlaceSet,
}

/// What a number is told: it is at least `raise`, and below `below`.
#[derive(Clone, Copy)]
pub struct NumberTell {
    pub raise: u32,
    pub below: u32,
}
