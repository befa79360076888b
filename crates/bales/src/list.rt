//! The two states of a bale list, open and closed, as two types.

ghost use Rattle.std.specs.Prelude.{◌≡◌, ◌≤◌, vec_len, vec_capacity};
ghost use Rattle.bales.specs.Tables.{table_of, weights};

use super::bale::Weight;

pub mod closed;
pub mod opened;

/// One bale of the list; its place is where it stands, counted from 1.
#[derive(Clone, Copy)]
pub struct Bale {
    pub weight: Weight,
}

/// A bale list that takes bales. Room for all 64 is reserved at the start, so that taking one
/// cannot fail for want of memory.
#[derive(Drop)]
pub struct OpenList {
    bales: Vec<Bale>,
    ghost roomy: { 64 ≤ vec_capacity bales },
    ghost few: { vec_len bales ≤ 64 },
}

/// A bale list that is complete: no bale is taken any more. Its weights are kept in a table besides, in fixed memory:
/// a set is weighed from it without a look at a bale.
#[derive(Drop)]
pub struct ClosedList {
    bales: Vec<Bale>,
    table: [u16; 64],
    ghost few: { vec_len bales ≤ 64 },
    ghost tabled: { table ≡ table_of (weights bales.items) },
}
