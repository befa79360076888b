//! State: a statement is tried in the spare row, and accepted or refused.
ghost use Rattle.std.specs.Prelude.{◌≡◌, ◌<◌, ◌≤◌, ◌++◌, length, take, drop};
ghost use Rattle.solver.specs.Fixpoint.{Fixpoint};
ghost use Rattle.rules.specs.Listed.{listed, but_newest};
ghost use Rattle.meaning.specs.Resting.{Rests};
ghost use Rattle.sheet.specs.Sheets.{told_of, bounds_of, saved_of, without_newest};
ghost use Rattle.sheet.specs.Calls.{Tried, Stated};

use super::checks::check_state;
use super::sheet::{RULES, Sheet};
use domain::Domain;
use engine::{Contradiction, Propagator};
use fault::{Fault, Refusal};
use rules::Rules;
use solver::rest_newest;

// Writes the cells over the first of the row.
fn lay<C: Copy>(row: &mut [C], cells: &[C])
    requires { length cells.now ≤ length row.old }
    ensures { row.new ≡ cells.now ++ drop (length cells.now) row.old }
{
    row[..cells.len()].copy_from_slice(cells);
}

// Takes the first cells of the row to rest, where only the newest rule does not rest there.
fn rest_first<C: Domain, B, R: Propagator<C, B>>(
    book: &B,
    rules: &Rules<R>,
    row: &mut [C],
    n: usize,
) -> Result<(), Contradiction>
    requires { n ≤ length row.old }
    ensures rested { Rests C.Domain R.Propagator book.now (but_newest (listed rules.now)) (take n row.old) → Fixpoint C.Domain R.Propagator book.now (listed rules.now) (take n row.old) (take n row.new) result }
    ensures others { drop n row.new ≡ drop n row.old }
{
    rest_newest(book, rules, &mut row[..n])
}

impl<C: Domain, B: Drop, R: Propagator<C, B>> Sheet<C, B, R> {
    // Takes the first cells of the spare row for its own.
    fn keep(&mut self, spare: &[C])
        requires { length (bounds_of self.old) ≤ length spare.now }
        ensures told { told_of self.new ≡ told_of self.old }
        ensures bounds { bounds_of self.new ≡ take (length (bounds_of self.old)) spare.now }
    {
        let n = self.cells.len();
        self.cells.copy_from_slice(&spare[..n]);
    }

    // Gives up the newest rule, and puts back what the spare row held.
    fn give_up(&mut self, spare: &mut [C])
        requires { length (saved_of self.old) ≤ length spare.old }
        ensures told { told_of self.new ≡ without_newest (told_of self.old) }
        ensures bounds { bounds_of self.new ≡ bounds_of self.old }
        ensures spare { spare.new ≡ saved_of self.old ++ drop (length (saved_of self.old)) spare.old }
    {
        lay(spare, &self.saved);
        self.rules.pop();
    }

    // Tries a statement in the spare row, where there is room for it, and keeps it or gives it up.
    fn try_rule(&mut self, line: u32, rule: R, spare: &mut [C]) -> Result<(), Fault>
        requires room { length (bounds_of self.old) ≤ length spare.old }
        requires few { length (told_of self.old).accepted < RULES }
        ensures { Tried C.Domain R.Propagator (told_of self.old) (bounds_of self.old) line rule spare.old result (told_of self.new) (bounds_of self.new) spare.new }
    {
        let n = self.cells.len();
        self.saved.copy_from_slice(&spare[..n]);
        lay(spare, &self.cells);
        self.rules.push(rule).unwrap();
        match rest_first(&self.book, &self.rules, spare, n) {
            Ok(()) => {
                self.keep(spare);
                Ok(())
            }
            Err(Contradiction) => {
                self.give_up(spare);
                Err(Fault::new(Refusal::Contradiction, line, 0))
            }
        }
    }

    /// Adds a statement, and takes all cells to the standing bounds; refused by 4, 16, 9, 13, 14, 11 or 15. The spare row is the caller's, with
    /// as many cells as are declared; a refusal leaves it as it was.
    pub fn state(&mut self, line: u32, rule: R, spare: &mut [C]) -> Result<(), Fault>
        ensures { Stated C.Domain R.Propagator (told_of self.old) (bounds_of self.old) line rule spare.old result (told_of self.new) (bounds_of self.new) spare.new }
    {
        let misfit = rule.find_misfit(&self.book, &self.declared);
        check_state(self.count(), self.rules.len(), line, misfit, spare.len())?;
        self.try_rule(line, rule, spare)
    }
}
