//! One call served by a sheet.
ghost use Rattle.std.specs.Prelude.{◌≡◌, ◌≤◌, List, length, take, IfOk};
ghost use Rattle.history.specs.Holds.{Holds};
ghost use Rattle.sheet.specs.Sheets.{told_of, bounds_of};
ghost use Rattle.play.specs.Plays.{asks_for, taken_of, shown_of, answer_of, Ends, Serves};

use super::answer::{Answer, Reply};
use domain::Halves;
use engine::Propagator;
use fault::Fault;
use history::{Call, Entered};
use sheet::Sheet;
use std::alloc::{AllocError, Global};

// The answer to a declare or a state.
fn taken<C>(res: Result<(), Fault>) -> Answer<C>
    ensures { answer_of result ≡ taken_of res }
{
    res.map(|()| Reply::Taken)
}

/// How many cells of memory a call asks for.
pub fn asks_for<E: Copy, R: Copy>(call: Call<E, R>) -> usize
    ensures { result ≡ asks_for call }
{
    match call {
        Call::State { spare, .. } => spare,
        Call::Settle { stack, .. } => stack,
        Call::Declare { .. } | Call::Ask { .. } => 0,
    }
}

// The first cells of a row, in memory of their own.
fn copied<C: Copy>(heap: Global, row: &[C], n: usize) -> Result<Vec<C>, AllocError>
    requires { n ≤ length row.now }
    ensures { IfOk result (λ v. v.items ≡ take n row.now) }
{
    // `to_vec` clones: that the clones are what is cloned was tried, and stayed open
    let mut cells = Vec::new(heap);
    cells.extend_from_slice(&row[..n])?;
    Ok(cells)
}

// The answer to an ask.
fn shown<C>(res: Result<C, Fault>) -> Answer<C>
    ensures { answer_of result ≡ shown_of res }
{
    res.map(Reply::Shown)
}

// The answer to a settle, with a copy of the first row of the stack.
fn settled<C: Halves, B: Drop, R: Propagator<C, B>>(
    heap: Global,
    sheet: &Sheet<C, B, R>,
    line: u32,
    limit: u32,
    stack: &mut [C],
) -> Result<Answer<C>, AllocError>
    ensures { IfOk result (λ a. Ends C.Domain C.Halves.own R.Propagator (told_of sheet.now) (bounds_of sheet.now) line limit stack.old stack.new (answer_of a)) }
{
    // a fault is an answer, so that `?` serves the want of memory alone
    match sheet.settle(line, limit, stack) {
        Ok(settled) => {
            let row = copied(heap, stack, sheet.count())?;
            Ok(Ok(Reply::Ended(settled.end, settled.cuts, row)))
        }
        Err(fault) => Ok(Err(fault)),
    }
}

/// Serves a call, in memory of the length that it asks for.
pub fn serve<C: Halves, B: Drop, R: Propagator<C, B>, E: Entered<C, B>>(
    heap: Global,
    sheet: &mut Sheet<C, B, R>,
    call: Call<E, R>,
    memory: &mut [C],
) -> Result<Answer<C>, AllocError>
    ensures { length memory.old ≡ asks_for call → Serves C.Domain C.Halves.own R.Propagator E.Entered (told_of sheet.old) (bounds_of sheet.old) call result (told_of sheet.new) (bounds_of sheet.new) }
{
    match call {
        Call::Declare { line, cell, bounds } => Ok(taken(sheet.declare(line, cell, bounds))),
        Call::State { line, rule, .. } => Ok(taken(sheet.state(line, rule, memory))),
        Call::Ask { cell } => Ok(shown(sheet.ask(cell))),
        Call::Settle { line, limit, .. } => settled(heap, sheet, line, limit, memory),
    }
}
