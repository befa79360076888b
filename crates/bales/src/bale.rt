//! A bale: its place on the ticket and its weight, each with its range in its type.

ghost use Rattle.std.specs.Prelude.{◌≡◌};
ghost use Rattle.std.proofs.Common.{lit≤};

use super::ranged::{Range, Ranged};

/// Places as tickets write them, 1 to 99.
#[derive(Clone, Copy)]
pub struct Places;

/// Weights of bales in pounds, 1 to 1,000.
#[derive(Clone, Copy)]
pub struct Weights;

impl Range for Places {
    const LOW: u32 = 1;

    const HIGH: u32 = 99;

    const NAME: &'static str = "Place";

    const FIELD: &'static str = "number";

    ghost LOW = { 1 };

    ghost HIGH = { 99 };

    ghost small = { lit≤ tt };
}

impl Range for Weights {
    const LOW: u32 = 1;

    const HIGH: u32 = 1000;

    const NAME: &'static str = "Weight";

    const FIELD: &'static str = "pounds";

    ghost LOW = { 1 };

    ghost HIGH = { 1000 };

    ghost small = { lit≤ tt };
}

pub type Place = Ranged<Places>;

pub type Weight = Ranged<Weights>;

impl Place {
    pub fn number(self) -> u8
        ensures { result ≡ self.number }
    {
        self.get() as u8
    }
}

impl Weight {
    pub fn pounds(self) -> u16
        ensures { result ≡ self.number }
    {
        self.get() as u16
    }
}
