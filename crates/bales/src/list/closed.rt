//! A closed bale list: what it holds.

ghost use Rattle.std.specs.Prelude.{◌≡◌};
ghost use Rattle.bales.specs.Tables.{weights, table_of};
ghost use Rattle.bales.specs.Lists.{closed_weights};

use super::{Bale, ClosedList};

impl ClosedList {
    /// The bales in the order of their places, from place 1 on.
    pub fn bales(&self) -> &[Bale]
        ensures { weights result.now ≡ closed_weights self.now }
    {
        self.bales.as_slice()
    }

    /// The weight of each place, that of place 1 first, and 0 past the last bale.
    pub fn table(&self) -> &[u16; 64]
        ensures { result.now ≡ table_of (closed_weights self.now) }
    {
        &self.table
    }
}
