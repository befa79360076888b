//! The last line of a listing.

ghost use Rattle.std.specs.Prelude.{Some};
ghost use Rattle.matching.specs.Totals.{totals_text};

use std::fmt;

/// How many lines a ticket has, and how many of them were refused.
#[derive(Clone, Copy)]
pub struct Totals {
    pub lines: u32,
    pub refused: u32,
}

/// `T,lines,refused`.
impl fmt::Display for Totals {
    ghost output = { λ t. Some (totals_text t.lines t.refused) };

    fn fmt<W: fmt::Write>(&self, f: &mut fmt::Formatter<W>) -> fmt::Result {
        let Totals { lines, refused } = self;
        write!(f, "T,{lines},{refused}")
    }
}
