//! The lines of a ticket, and a whole ticket read.

ghost use Rattle.std.specs.Prelude.{MatchResult};
ghost use Rattle.std.specs.Iterator.{YieldsFirstBy, item_count};
ghost use Rattle.ticket.specs.Rounds.{RoundTrips};
ghost use Rattle.ticket.specs.Tickets.{lines_of, Splits, Reads, Refuses};

use super::entry::Entry;
use super::line::read_line;
use super::word::Dialect;
use fault::{Failure, Fault, Refusal};
use std::alloc::Global;
use text::parts::cut;

/// A ticket has at most this many bytes.
const LARGEST: usize = 65536;

/// What a line is read as.
pub type Reading = Result<Entry, Fault>;

/// The lines of a text, one after another.
#[derive(Drop)]
struct Lines<'a> {
    rest: &'a [u8],
}

impl<'a> Iterator for Lines<'a> {
    type Item = &'a [u8];

    ghost next_gives = { YieldsFirstBy (λ x. x.now) (λ s. lines_of s.rest.now) };

    ghost remaining = { item_count (λ s. lines_of s.rest.now) };

    fn next(&mut self) -> Option<&'a [u8]> {
        if self.rest.is_empty() {
            return None;
        }
        let (line, rest) = cut(self.rest, b'\n');
        self.rest = rest.unwrap_or(&[]);
        Some(line)
    }
}

/// Reads all lines of a ticket, each as its entry or its fault; only a ticket that is too large
/// is refused whole. What is read goes to text and back without loss.
pub fn read_ticket(heap: Global, dialect: Dialect, text: &[u8]) -> Result<Vec<Reading>, Failure>
    ensures round { RoundTrips }
    ensures lines { Splits text.now (lines_of text.now) }
    ensures cases { MatchResult result (λ v. Reads dialect text.now v.items) (Refuses text.now) }
{
    if text.len() > LARGEST {
        return Err(Failure::Refused(Fault::new(Refusal::TicketTooLong, 0, 0)));
    }
    let mut readings = Vec::new(heap);
    for line in (Lines { rest: text }) {
        let number = readings.len() as u32 + 1;
        readings.push(read_line(dialect, line, number))?;
    }
    Ok(readings)
}
