//! The part of a ticket that has been reached: its bale list, open or closed.

ghost use Rattle.std.specs.Prelude.{◌≡◌};
ghost use Rattle.bales.specs.Lists.{open_weights, closed_weights};
ghost use Rattle.matching.specs.Parts.{taking, closed, part_of, answering, following};
ghost use Rattle.ticket.specs.Entries.{said};

use bales::{ClosedList, OpenList};
use fault::{Fault, Refusal};
use ticket::Entry;

/// How far a ticket has come.
#[derive(Drop)]
pub enum Part {
    Open(OpenList),
    Closed(ClosedList),
}

impl Part {
    /// Runs an entry: what became of it, and how far the ticket has come then. A refused entry
    /// leaves everything as it was. The part is taken and given back, since closing moves its list.
    pub fn run_entry(self, line: u32, entry: Entry) -> (Part, Result<(), Fault>)
        ensures answer { result.1 ≡ answering (part_of self) line (said entry) }
        ensures after { part_of result.0 ≡ following (part_of self) line (said entry) }
    {
        match self {
            Part::Open(list) => run_open(list, line, entry),
            Part::Closed(list) => run_closed(list, line, entry),
        }
    }
}

/// An entry before the bale list is closed.
fn run_open(mut list: OpenList, line: u32, entry: Entry) -> (Part, Result<(), Fault>)
    ensures answer { result.1 ≡ answering (taking (open_weights list)) line (said entry) }
    ensures after { part_of result.0 ≡ following (taking (open_weights list)) line (said entry) }
{
    let answer = match entry {
        Entry::Bale(place, weight) => list.enter(line, place, weight),
        Entry::Close => match list.can_close(line) {
            Ok(()) => return (Part::Closed(list.close()), Ok(())),
            Err(fault) => Err(fault),
        },
        Entry::Declare(_) | Entry::State(_) | Entry::Settle(_) => {
            Err(Fault::new(Refusal::WrongPart, line, 0))
        }
    };
    (Part::Open(list), answer)
}

/// An entry after the bale list is closed. Cells, statements and settlings are let be.
fn run_closed(list: ClosedList, line: u32, entry: Entry) -> (Part, Result<(), Fault>)
    ensures answer { result.1 ≡ answering (closed (closed_weights list)) line (said entry) }
    ensures after { part_of result.0 ≡ following (closed (closed_weights list)) line (said entry) }
{
    let answer = match entry {
        Entry::Bale(_, _) | Entry::Close => Err(Fault::new(Refusal::WrongPart, line, 0)),
        Entry::Declare(_) | Entry::State(_) | Entry::Settle(_) => Ok(()),
    };
    (Part::Closed(list), answer)
}
