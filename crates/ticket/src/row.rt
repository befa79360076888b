//! Rows written as text.

ghost use Rattle.std.specs.Prelude.{Some};
ghost use Rattle.ticket.specs.Entries.{bounds};
ghost use Rattle.ticket.specs.Rows.{row_text};

use super::entry::{CellNumber, End, Row};
use std::fmt;

/// `G,cell,sure,possible` or `N,cell,low,high`.
impl fmt::Display for Row {
    ghost output = { λ r. Some (row_text (bounds r)) };

    fn fmt<W: fmt::Write>(&self, f: &mut fmt::Formatter<W>) -> fmt::Result {
        match *self {
            Row::Group {
                cell,
                sure,
                possible,
            } => write!(f, "G,{cell},{sure},{possible}"),
            Row::Number { cell, low, high } => write!(f, "N,{cell},{low},{high}"),
        }
    }
}
