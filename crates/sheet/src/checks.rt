//! The checks of the calls, each before the next, and what they refuse by.
ghost use Rattle.std.specs.Prelude.{◌≡◌, ◌+◌, List, ◌==◌, IfOk, Ok};
ghost use Rattle.history.specs.Denials.{is_cell, refusal_of, nameable, misfit_fault, declare_denial, state_denial, ask_denial};
ghost use Rattle.engine.specs.declared.field.Field.{Field};
ghost use Rattle.engine.specs.Fits.{first_misfit};
ghost use Rattle.sheet.specs.Misfits.{Denies, is_unranged, late_denial};

use super::sheet::{CELLS, RULES};
use engine::{Misfit, Reason};
use fault::{Fault, Refusal};
use history::Barred;

// A cell's number is from 1 to 99.
fn is_cell(cell: u32) -> bool
    ensures { result ≡ is_cell cell }
{
    (1..=99).contains(&cell)
}

// Is this the number of the cell after the last?
fn is_next(count: usize, cell: u32) -> bool
    ensures { result ≡ (cell == count + 1) }
{
    (cell as usize).checked_sub(1) == Some(count)
}

// The refusal of a field that does not fit. Both types are of other crates, so that it is no `From`.
fn refusal_of(reason: Reason) -> Refusal
    ensures { result ≡ refusal_of reason }
{
    match reason {
        Reason::OutOfRange => Refusal::BadNumber,
        Reason::NotDeclared => Refusal::NotDeclared,
        Reason::WrongKind => Refusal::WrongKind,
        Reason::NotListed => Refusal::NotOnTicket,
    }
}

// The field as a fault can name it.
fn nameable(field: usize) -> u8
    ensures { result ≡ nameable field }
{
    u8::try_from(field).unwrap_or(u8::MAX)
}

/// Whether nothing is at fault in the fields of a statement; refused by 4, 13, 14 or 11.
pub fn check_fits(line: u32, misfit: Option<Misfit>) -> Result<(), Fault>
    ensures { Denies (misfit_fault line misfit) result }
{
    // a match: no method turns what is found into an error
    match misfit {
        Some(m) => Err(Fault::new(refusal_of(m.reason), line, nameable(m.field))),
        None => Ok(()),
    }
}

// Is a number out of its range, before all else that may be at fault?
fn is_unranged(misfit: Option<Misfit>) -> bool
    ensures { result ≡ is_unranged misfit }
{
    misfit.is_some_and(|m| m.reason == Reason::OutOfRange)
}

/// The bounds as a cell, where it may be declared and there are `count` already; refused by 4, 9, 8, 11 or 12.
pub fn check_declare<C: Copy>(
    count: usize,
    line: u32,
    cell: u32,
    unranged: Option<u8>,
    admitted: Result<C, Barred>,
) -> Result<C, Fault>
    ensures denied { Denies (declare_denial count line cell unranged admitted) result }
    ensures made { IfOk result (λ made. admitted ≡ Ok made) }
{
    if !is_cell(cell) {
        return Err(Fault::new(Refusal::BadNumber, line, 2));
    }
    if let Some(field) = unranged {
        return Err(Fault::new(Refusal::BadNumber, line, field));
    }
    if CELLS <= count {
        return Err(Fault::new(Refusal::Full, line, 0));
    }
    if !is_next(count, cell) {
        return Err(Fault::new(Refusal::NotNext, line, 2));
    }
    admitted.map_err(|barred| match barred {
        Barred::NotListed(field) => Fault::new(Refusal::NotOnTicket, line, field),
        Barred::Crossed => Fault::new(Refusal::Crossed, line, 0),
    })
}

// The checks of a statement whose numbers are in range. What the two checks of a statement read is five numbers of a sheet and a call: a struct
// for these two alone is no plainer.
fn check_late(
    count: usize,
    accepted: usize,
    line: u32,
    misfit: Option<Misfit>,
    spare: usize,
) -> Result<(), Fault>
    ensures { Denies (late_denial count accepted line misfit spare) result }
{
    if spare < count {
        return Err(Fault::new(Refusal::ShortMemory, line, 0));
    }
    if RULES <= accepted {
        return Err(Fault::new(Refusal::Full, line, 0));
    }
    check_fits(line, misfit)
}

/// Whether a statement may be taken, where there are `count` cells and so many statements accepted; refused by 4, 16, 9, 13, 14 or 11. Only
/// what is first at fault in its fields is looked at.
pub fn check_state(
    count: usize,
    accepted: usize,
    line: u32,
    misfit: Option<Misfit>,
    spare: usize,
) -> Result<(), Fault>
    ensures { (fs : List Field) → misfit ≡ first_misfit fs → Denies (state_denial count accepted line fs spare) result }
{
    if is_unranged(misfit) {
        check_fits(line, misfit)
    } else {
        check_late(count, accepted, line, misfit, spare)
    }
}

/// Whether a cell may be shown; refused by 4 or 13.
pub fn check_ask(count: usize, cell: u32) -> Result<(), Fault>
    ensures { Denies (ask_denial count cell) result }
{
    if !is_cell(cell) {
        return Err(Fault::new(Refusal::BadNumber, 0, 2));
    }
    if count < cell as usize {
        return Err(Fault::new(Refusal::NotDeclared, 0, 2));
    }
    Ok(())
}
