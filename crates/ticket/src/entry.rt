//! What a line of a ticket says.

ghost use Rattle.std.proofs.Common.{lit≤};

use super::word::{MemberWord, PairWord, TripleWord};
use bales::{Place, Range, Ranged, Weight};
use text::PlaceList;

/// Numbers of cells as tickets write them, 1 to 99.
#[derive(Clone, Copy)]
pub struct CellNumbers;

/// Ends of number cells, 0 to 1,000,000.
#[derive(Clone, Copy)]
pub struct Ends;

/// How many cuts a settling may make, 0 to 1,000,000.
#[derive(Clone, Copy)]
pub struct CutLimits;

pub type CellNumber = Ranged<CellNumbers>;

pub type End = Ranged<Ends>;

pub type CutLimit = Ranged<CutLimits>;

/// A cell with its bounds, as a line declares it and as a listing shows it.
#[derive(Clone, Copy)]
pub enum Row {
    Group {
        cell: CellNumber,
        sure: PlaceList,
        possible: PlaceList,
    },
    Number {
        cell: CellNumber,
        low: End,
        high: End,
    },
}

/// A word with its operands.
#[derive(Clone, Copy)]
pub enum Statement {
    Pair(PairWord, CellNumber, CellNumber),
    Triple(TripleWord, CellNumber, CellNumber, CellNumber),
    Member(MemberWord, CellNumber, Place),
}

/// What a line says.
#[derive(Clone, Copy)]
pub enum Entry {
    Bale(Place, Weight),
    Close,
    Declare(Row),
    State(Statement),
    Settle(CutLimit),
}

impl Range for CellNumbers {
    const LOW: u32 = 1;

    const HIGH: u32 = 99;

    const NAME: &'static str = "CellNumber";

    const FIELD: &'static str = "number";

    ghost LOW = { 1 };

    ghost HIGH = { 99 };

    ghost small = { lit≤ tt };
}

impl Range for Ends {
    const LOW: u32 = 0;

    const HIGH: u32 = 1_000_000;

    const NAME: &'static str = "End";

    const FIELD: &'static str = "value";

    ghost LOW = { 0 };

    ghost HIGH = { 1000000 };

    ghost small = { lit≤ tt };
}

impl Range for CutLimits {
    const LOW: u32 = 0;

    const HIGH: u32 = 1_000_000;

    const NAME: &'static str = "CutLimit";

    const FIELD: &'static str = "cuts";

    ghost LOW = { 0 };

    ghost HIGH = { 1000000 };

    ghost small = { lit≤ tt };
}
