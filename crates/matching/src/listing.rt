//! A whole ticket run, and its listing.

ghost use Rattle.std.specs.Prelude.{◌≡◌, ◌≤◌, ◌++◌, map, length, string_bytes, IfOk};
ghost use Rattle.ticket.specs.Tickets.{told};
ghost use Rattle.matching.specs.Parts.{part_of};
ghost use Rattle.matching.specs.Shown.{Lists};
ghost use Rattle.matching.specs.Listings.{line_answer, line_after, answers, answer_text, listing_of};

use super::part::Part;
use super::totals::Totals;
use bales::OpenList;
use fault::{Failure, Fault};
use std::alloc::{AllocError, Global};
use std::fmt::Write;
use ticket::{Dialect, Reading, read_ticket};

/// Runs one line: what it is answered, and how far the ticket has come then.
fn run_line(part: Part, line: u32, reading: Reading) -> (Part, Result<(), Fault>)
    ensures answer { result.1 ≡ line_answer (part_of part) line (told reading) }
    ensures after { part_of result.0 ≡ line_after (part_of part) line (told reading) }
{
    match reading {
        Ok(entry) => part.run_entry(line, entry),
        Err(fault) => (part, Err(fault)),
    }
}

/// Shows an answer, if it is a refusal.
fn show_answer(answer: Result<(), Fault>, listing: &mut String) -> Result<(), AllocError>
    ensures { IfOk result (λ _. string_bytes listing.new ≡ string_bytes listing.old ++ answer_text answer) }
{
    if let Err(fault) = answer {
        writeln!(listing, "{fault}").map_err(|_| AllocError)?;
    }
    Ok(())
}

/// Runs all lines, and shows each refusal.
fn run_lines(
    mut part: Part,
    readings: &[Reading],
    listing: &mut String,
) -> Result<Totals, AllocError>
    requires { length readings.now ≤ 65536 }
    ensures { IfOk result (λ t. Lists (answers (part_of part) 1 (map told readings.now)) (string_bytes listing.old) (string_bytes listing.new) t) }
{
    let mut refused = 0;
    for (i, reading) in readings.iter().enumerate() {
        let (after, answer) = run_line(part, i as u32 + 1, *reading);
        part = after;
        show_answer(answer, listing)?;
        refused += u32::from(answer.is_err());
    }
    Ok(Totals {
        lines: readings.len() as u32,
        refused,
    })
}

/// The listing of a ticket.
pub fn list_ticket(heap: Global, text: &[u8]) -> Result<String, AllocError>
    ensures { IfOk result (λ s. string_bytes s ≡ listing_of text.now) }
{
    let mut listing = String::new(heap);
    match read_ticket(heap, Dialect::Match, text) {
        Ok(readings) => {
            let part = Part::Open(OpenList::open(heap)?);
            let totals = run_lines(part, readings.as_slice(), &mut listing)?;
            writeln!(listing, "{totals}").map_err(|_| AllocError)?;
        }
        Err(Failure::Refused(fault)) => show_answer(Err(fault), &mut listing)?,
        Err(Failure::NoMemory) => return Err(AllocError),
    }
    Ok(listing)
}
